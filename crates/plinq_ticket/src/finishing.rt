ghost use Rattle.std.specs.Prelude.{◌≡◌};
ghost use Rattle.plinq_ticket.specs.Finished.{IsFinished};
ghost use Rattle.plinq_ticket.specs.Passes.{IsPassOf};

use crate::lock_fault::LockFault;
use crate::pass::{Pass, Token};
use crate::table_steps::{NEXT, SERVING, VALUE};
use crate::ticket_lock::TicketLock;
use plinq_keyed::Guarded;

impl<V: Guarded> TicketLock<V> {
    /// Takes the lock apart and gives the value back, if the pass has all its records.
    ///
    /// # Errors
    ///
    /// [`LockFault::Away`] if a pass waits or is inside, without the value; [`LockFault::Incomplete`] if records are
    /// missing, since a pass was dropped or isn't joined, with the value.
    pub fn finish(self, pass: Pass<V>) -> Result<V, (Option<V>, LockFault)>
        requires { IsPassOf self pass }
        ensures { IsFinished V.origin V.history pass result }
    {
        let TicketLock { table, left } = self;
        drop(left);
        let Token { seat, records } = pass;
        let mut closed = table.close_with(seat);
        let drawn = closed.word(NEXT);
        let served = closed.word(SERVING);
        let slot = closed.take(VALUE);
        closed.free();
        if served < drawn {
            return Err((None, LockFault::Away));
        }
        let Some(value) = slot else { unreachable!() };
        let all = value.records().len() as u64;
        if records == all {
            Ok(value)
        } else {
            Err((Some(value), LockFault::Incomplete { have: records, all }))
        }
    }
}
