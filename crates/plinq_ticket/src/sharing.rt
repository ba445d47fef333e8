ghost use Rattle.std.specs.Prelude.{◌≡◌, ◌++◌, [], max};
ghost use Rattle.plinq_ticket.specs.Passes.{IsPassOf, pass_origin, pass_share, pass_drawn, pass_served};

use crate::pass::{Pass, Token};
use crate::plays::{Cut, Glue};
use crate::ticket_lock::TicketLock;
use plinq_keyed::Guarded;

impl<V: Guarded> TicketLock<V> {
    /// One pass becomes two: the one that was given, and a new one with no records. Takes no memory.
    pub fn split(&self, pass: Pass<V>) -> (Pass<V>, Pass<V>)
        requires { IsPassOf self.now pass }
        ensures locks { IsPassOf self.now result.0 × IsPassOf self.now result.1 }
        ensures origins { (pass_origin result.0 ≡ pass_origin pass) × (pass_origin result.1 ≡ pass_origin pass) }
        ensures shares { (pass_share result.0 ≡ pass_share pass) × (pass_share result.1 ≡ []) }
        ensures drawn { (pass_drawn result.0 ≡ pass_drawn pass) × (pass_drawn result.1 ≡ pass_drawn pass) }
        ensures served { (pass_served result.0 ≡ pass_served pass) × (pass_served result.1 ≡ pass_served pass) }
    {
        let Token { mut seat, records } = pass;
        let other = self.table.shared.split_seat::<Cut>(&mut seat);
        (
            Token { seat, records },
            Token {
                seat: other,
                records: 0,
            },
        )
    }

    /// Two passes become one, with the records of both. Takes no memory.
    pub fn join(&self, pass: Pass<V>, other: Pass<V>) -> Pass<V>
        requires { IsPassOf self.now pass × IsPassOf self.now other }
        ensures lock { IsPassOf self.now result }
        ensures origin { pass_origin result ≡ pass_origin pass }
        ensures share { pass_share result ≡ pass_share pass ++ pass_share other }
        ensures drawn { pass_drawn result ≡ max (pass_drawn pass) (pass_drawn other) }
        ensures served { pass_served result ≡ max (pass_served pass) (pass_served other) }
    {
        let Token { mut seat, records } = pass;
        let Token {
            seat: other,
            records: more,
        } = other;
        self.table.shared.join_seat::<Glue>(&mut seat, other);
        Token {
            seat,
            records: records.saturating_add(more),
        }
    }
}
