ghost use Rattle.std.specs.Prelude.{◌≡◌, ◌+◌, ◌++◌};
ghost use Rattle.plinq_ticket.specs.Passes.{IsPassOf, IsHeldOf, pass_origin, pass_share, pass_drawn, pass_served};
ghost use Rattle.plinq_ticket.specs.Passes.{held_value, held_ticket, held_origin, held_found, held_share, held_drawn};
ghost use Rattle.plinq_ticket.specs.Shares.{AddsAtMostOne, added_records};

use crate::held::{Entry, Held, Stay};
use crate::pass::{Pass, Token};
use crate::table_steps::VALUE;
use crate::ticket_lock::TicketLock;
use plinq_keyed::Guarded;

impl<V: Guarded> TicketLock<V> {
    /// Gives the value back and leaves: the next ticket is served. What was recorded meanwhile is the pass's own.
    #[inline(always)]
    pub fn leave(&self, held: Held<V>) -> Pass<V>
        requires lock { IsHeldOf self.now held }
        requires origin { V.origin (held_value held) ≡ held_origin held }
        requires adds { AddsAtMostOne (held_ticket held) (held_found held) (V.history (held_value held)) }
        ensures lock { IsPassOf self.now result }
        ensures origin { pass_origin result ≡ held_origin held }
        ensures share { pass_share result ≡ held_share held ++ added_records (held_found held) (V.history (held_value held)) }
        ensures drawn { pass_drawn result ≡ held_drawn held }
        ensures served { pass_served result ≡ held_ticket held + 1 }
    {
        let Entry { stay, value } = held;
        let Stay {
            mut seat,
            ticket,
            records,
            found,
        } = stay;
        let all = value.records().len() as u64;
        self.table.shared.exchange(&mut seat, VALUE, Some(value));
        self.serve_next(&mut seat, ticket);
        self.left.wake();
        Token {
            seat,
            records: records.saturating_add(all - found),
        }
    }
}
