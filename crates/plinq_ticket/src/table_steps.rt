//! The steps on the lock's table.
ghost use Rattle.std.specs.Prelude.{◌≡◌, ◌<◌, ◌+◌, ◌^◌};
ghost use Rattle.plinq_ticket.specs.declared.phase.Phase.TheVariants.{Idle, Inside};
ghost use Rattle.plinq_ticket.specs.Passes.{IsLockAt, lock_id};
ghost use Rattle.plinq_ticket.specs.inner.Steps.{SeesNext, Draws, SeesServing, Returns, Leaves};

use crate::plays::{Draw, Leave, SeeNext, SeeServing};
use crate::ticket_lock::TicketLock;
use crate::view::View;
use atomic_table::Seat;
use plinq_keyed::Guarded;

// where the words and the slot stand in the table

pub(crate) const NEXT: usize = 0;

pub(crate) const SERVING: usize = 1;

pub(crate) const VALUE: usize = 0;

impl<V: Guarded> TicketLock<V> {
    /// How many tickets were drawn.
    pub(crate) fn see_next(&self, seat: &mut Seat<Option<V>, View<V::Item>>) -> u64
        requires { IsLockAt (lock_id self.now) seat.old.table_id }
        ensures seat { seat.new.table_id ≡ seat.old.table_id }
        ensures saw { SeesNext result seat.old.me seat.new.me }
    {
        self.table.shared.load::<SeeNext>(seat, NEXT)
    }

    /// Draws that ticket if it is the next one; answers what was the next one.
    pub(crate) fn draw(&self, seat: &mut Seat<Option<V>, View<V::Item>>, ticket: u64) -> u64
        requires lock { IsLockAt (lock_id self.now) seat.old.table_id }
        requires idle { seat.old.me.0.standing.phase ≡ Idle }
        requires within { ticket < 2 ^ 62 }
        ensures seat { seat.new.table_id ≡ seat.old.table_id }
        ensures saw { Draws ticket result seat.old.me seat.new.me }
    {
        self.table
            .shared
            .compare_exchange::<Draw>(seat, NEXT, ticket, ticket + 1)
    }

    /// Which ticket is served.
    pub(crate) fn see_serving(&self, seat: &mut Seat<Option<V>, View<V::Item>>) -> u64
        requires { IsLockAt (lock_id self.now) seat.old.table_id }
        ensures seat { seat.new.table_id ≡ seat.old.table_id }
        ensures saw { SeesServing V.origin V.history result seat.old.me seat.new.me }
    {
        self.table.shared.load::<SeeServing>(seat, SERVING)
    }

    /// The ticket after this one is served, and the slot is home again.
    pub(crate) fn serve_next(&self, seat: &mut Seat<Option<V>, View<V::Item>>, ticket: u64)
        requires lock { IsLockAt (lock_id self.now) seat.old.table_id }
        requires inside { seat.old.me.0.standing.phase ≡ Inside ticket }
        requires within { ticket < 2 ^ 62 }
        requires home { Returns V.origin V.history ticket seat.old.me }
        ensures seat { seat.new.table_id ≡ seat.old.table_id }
        ensures saw { Leaves V.history (ticket + 1) seat.old.me seat.new.me }
    {
        self.table.shared.store::<Leave>(seat, SERVING, ticket + 1);
    }
}
