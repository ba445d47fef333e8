//! A guarded value for the tests: it hands out nothing, and can only be closed.
ghost use Rattle.std.specs.Prelude.{◌≡◌, ℕ, [], None, Some, true, IfOk, OnOk, OnErr};
ghost use Rattle.plinq_source.specs.Trace.{ended_trace};
ghost use Rattle.plinq_source.specs.declared.ending.Ending.TheVariants.{End};
ghost use Rattle.plinq_keyed.specs.declared.event.Event.TheVariants.{Close};
ghost use Rattle.plinq_keyed.specs.History.{is_legal_history, place_after, start, tickets_below, with_next};

use plinq_keyed::{Event, Guarded, Record, Tail};
use std::alloc::{AllocError, Global};

#[derive(Drop)]
pub struct Notes {
    records: Vec<Record>,
    ghost at: { (place_after {T = ℕ} (ended_trace [] End) start records.items).given ≡ 0 },
    ghost legal: { is_legal_history {T = ℕ} (ended_trace [] End) records.items ≡ true },
}

impl Guarded for Notes {
    type Item = u8;

    ghost origin = { λ n. ended_trace [] End };

    ghost history = { λ n. n.records.items };

    fn records(&self) -> &[Record] {
        &self.records
    }
}

impl Notes {
    pub fn new(alloc: Global) -> Notes
        ensures { result.records.items ≡ [] }
    {
        Notes {
            records: Vec::new(alloc),
        }
    }

    pub fn close(&mut self, ticket: u64) -> Result<(), AllocError>
        requires { tickets_below ticket self.old.records.items ≡ true }
        ensures ok { OnOk result (self.new.records.items ≡ with_next {T = ℕ} (ended_trace [] End) self.old.records.items ticket Close) }
        ensures err { OnErr result (self.new.records.items ≡ self.old.records.items) }
    {
        self.records.reserve(1)?;
        self.records.push_reserved(Record {
            ticket,
            asked: Event::Close,
            first: 0,
            count: 0,
            tail: Some(Tail::Closed),
        });
        Ok(())
    }
}
