use crate::view::View;
use atomic_table::{Table, TableRule};
use plinq_keyed::Guarded;
use plinq_wait::WaitQueue;
use std::alloc::Global;
use std::snapshot::Snapshot;

/// What the lock keeps between any two steps.
pub struct Keeps;

impl<V: Guarded> TableRule<Option<V>, View<V::Item>, Snapshot<V>> for Keeps {
    ghost use Rattle.plinq_ticket.specs.Lawful.{Lawful, first_view};
    ghost use Rattle.plinq_ticket.specs.TwoWords.{OfTwoWords};

    ghost holds = { λ key. OfTwoWords (Lawful V.origin V.history (V.origin key.value)) };

    ghost first = { λ key. first_view (V.origin key.value) (V.history key.value) };
}

/// A lock round a value that keeps its history. Passes enter it in the order of the tickets that they draw. By
/// [`TicketLock::enter`] a pass draws one and waits for its turn, by [`TicketLock::enter_when_free`] it waits for the lock to be
/// free and draws one then.
#[derive(Drop)]
pub struct TicketLock<V: Guarded> {
    pub(crate) table: Table<Option<V>, View<V::Item>, Snapshot<V>, Keeps, Global>,
    /// Those that wait for others to leave: for their turn, or, one at a time, for the lock to be free.
    pub(crate) left: WaitQueue,
}
