ghost use Rattle.std.specs.Prelude.{◌≡◌, ◌<◌, ◌≤◌, ◌+◌, ◌-◌, ◌^◌, [], ◌∷◌, Some, IfOk, IfErr, length, min};
ghost use Rattle.plinq_keyed.specs.History.{IsLegalHistory, tickets_below};
ghost use Rattle.plinq_ticket.specs.declared.lock_fault.LockFault.TheVariants.{Spent};
ghost use Rattle.plinq_ticket.specs.declared.phase.Phase.TheVariants.{Waiting, Inside};
ghost use Rattle.plinq_ticket.specs.Lawful.{origin_in};
ghost use Rattle.plinq_ticket.specs.Passes.{IsLockAt, IsPassOf, IsHeldOf, Finds, Enters, IsRefused, lock_id, held_ticket, held_drawn};
ghost use Rattle.plinq_ticket.specs.inner.Steps.{IsInside};

use crate::held::{Entry, Held, Stay};
use crate::lock_fault::LockFault;
use crate::pass::{Pass, Token};
use crate::table_steps::VALUE;
use crate::ticket_lock::TicketLock;
use crate::view::View;
use atomic_table::Seat;
use plinq_keyed::Guarded;
use std::sync::Wait;

/// Tickets are the numbers below this one.
const TICKETS_END: u64 = 1 << 62;

impl<V: Guarded> TicketLock<V> {
    /// Draws a ticket, waits until it is served, and takes the value.
    ///
    /// # Errors
    ///
    /// [`LockFault::Spent`] if all tickets were drawn. The pass comes back as it was.
    pub fn enter<R: Wait>(&self, rt: &R, pass: Pass<V>) -> Result<Held<V>, (Pass<V>, LockFault)>
        requires { IsPassOf self.now pass }
        ensures ok { IfOk result (λ held. IsHeldOf self.now held × Enters V.origin V.history pass held) }
        ensures err { IfErr result (λ refused. IsPassOf self.now refused.0 × IsRefused pass refused.0 refused.1) }
        ensures spent { IfErr result (λ refused. refused.1 ≡ Spent) }
    {
        let Token { mut seat, records } = pass;
        let mut drawn = self.see_next(&mut seat);
        for _ in rt.forever() {
            if drawn == TICKETS_END {
                return Err((Token { seat, records }, LockFault::Spent));
            }
            let found = self.draw(&mut seat, drawn);
            if found == drawn {
                return Ok(self.wait(rt, seat, drawn, records));
            }
            drawn = found;
        }
        unreachable!()
    }

    /// Waits until no other pass waits or is inside, draws a ticket then, and takes the value.
    ///
    /// A pass that waits so has no ticket, so that nobody waits for it: if its thread has no core, others go before it. In
    /// return it may wait for as long as others come. Passes that wait in [`TicketLock::enter`] go before it.
    ///
    /// # Errors
    ///
    /// [`LockFault::Spent`] if all tickets were drawn. The pass comes back as it was.
    pub fn enter_when_free<R: Wait>(
        &self,
        rt: &R,
        pass: Pass<V>,
    ) -> Result<Held<V>, (Pass<V>, LockFault)>
        requires { IsPassOf self.now pass }
        ensures ok { IfOk result (λ held. IsHeldOf self.now held × Enters V.origin V.history pass held) }
        ensures err { IfErr result (λ refused. IsPassOf self.now refused.0 × IsRefused pass refused.0 refused.1) }
        ensures spent { IfErr result (λ refused. refused.1 ≡ Spent) }
    {
        match self.try_enter(pass) {
            Ok(held) => Ok(held),
            Err((back, LockFault::Spent)) => Err((back, LockFault::Spent)),
            Err((back, _)) => self.enter_later(rt, back),
        }
    }

    /// Enters once others have left, with a waiter that the first try does without.
    fn enter_later<R: Wait>(&self, rt: &R, pass: Pass<V>) -> Result<Held<V>, (Pass<V>, LockFault)>
        requires { IsPassOf self.now pass }
        ensures ok { IfOk result (λ held. IsHeldOf self.now held × Enters V.origin V.history pass held) }
        ensures err { IfErr result (λ refused. IsPassOf self.now refused.0 × IsRefused pass refused.0 refused.1) }
        ensures spent { IfErr result (λ refused. refused.1 ≡ Spent) }
    {
        let mut pass = pass;
        let waiter = self.left.exclusive_waiter();
        for _ in rt.forever() {
            let sleep = waiter.prepare();
            match self.try_enter(pass) {
                Ok(held) => return Ok(held),
                Err((back, LockFault::Spent)) => {
                    self.left.wake_all();
                    return Err((back, LockFault::Spent));
                }
                Err((back, _)) => pass = back,
            }
            waiter.pause(rt, sleep);
        }
        unreachable!()
    }

    /// Takes the value if no other pass waits or is inside. Takes no time but its own.
    ///
    /// # Errors
    ///
    /// [`LockFault::Spent`] if all tickets were drawn; [`LockFault::Busy`] if another pass waits or is inside.
    /// The pass comes back as it was.
    #[inline(always)]
    pub fn try_enter(&self, pass: Pass<V>) -> Result<Held<V>, (Pass<V>, LockFault)>
        requires { IsPassOf self.now pass }
        ensures ok { IfOk result (λ held. IsHeldOf self.now held × Enters V.origin V.history pass held) }
        ensures err { IfErr result (λ refused. IsPassOf self.now refused.0 × IsRefused pass refused.0 refused.1) }
    {
        let Token { mut seat, records } = pass;
        let served = self.see_serving(&mut seat);
        if served == TICKETS_END {
            return Err((Token { seat, records }, LockFault::Spent));
        }
        let drawn = self.draw(&mut seat, served);
        if drawn == served {
            self.see_serving(&mut seat);
            Ok(self.take_value(seat, served, records))
        } else if drawn == TICKETS_END {
            Err((Token { seat, records }, LockFault::Spent))
        } else {
            Err((Token { seat, records }, LockFault::Busy { served, drawn }))
        }
    }

    /// Waits until the ticket is served, and takes the value.
    fn wait<R: Wait>(
        &self,
        rt: &R,
        mut seat: Seat<Option<V>, View<V::Item>>,
        ticket: u64,
        records: u64,
    ) -> Held<V>
        requires lock { IsLockAt (lock_id self.now) seat.table_id }
        requires waits { seat.me.0.standing.phase ≡ Waiting ticket }
        requires within { ticket < 2 ^ 62 }
        requires empty { seat.me.1 ≡ [] }
        requires counted { records ≡ min (length seat.me.0.share) (2 ^ 64 - 1) }
        ensures lock { IsHeldOf self.now result }
        ensures finds { Finds V.origin V.history (origin_in seat.me.0) seat.me.0.share result }
        ensures ticket { held_ticket result ≡ ticket }
        ensures drawn { held_drawn result ≡ seat.me.0.standing.drawn }
    {
        let waiter = self.left.waiter();
        for _ in rt.forever() {
            let sleep = waiter.prepare();
            if self.see_serving(&mut seat) == ticket {
                return self.take_value(seat, ticket, records);
            }
            waiter.pause(rt, sleep);
        }
        unreachable!()
    }

    /// Takes the value out of the slot, which is the pass's own.
    #[inline(always)]
    fn take_value(
        &self,
        mut seat: Seat<Option<V>, View<V::Item>>,
        ticket: u64,
        records: u64,
    ) -> Held<V>
        requires lock { IsLockAt (lock_id self.now) seat.table_id }
        requires inside { IsInside V.origin V.history ticket seat.me }
        requires within { ticket < 2 ^ 62 }
        requires counted { records ≡ min (length seat.me.0.share) (2 ^ 64 - 1) }
        ensures lock { IsHeldOf self.now result }
        ensures finds { Finds V.origin V.history (origin_in seat.me.0) seat.me.0.share result }
        ensures ticket { held_ticket result ≡ ticket }
        ensures drawn { held_drawn result ≡ seat.me.0.standing.drawn }
    {
        let value = self.table.shared.exchange(&mut seat, VALUE, None).unwrap();
        let found = value.records().len() as u64;
        Entry {
            stay: Stay {
                seat,
                ticket,
                records,
                found,
            },
            value,
        }
    }
}
