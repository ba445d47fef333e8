ghost use Rattle.std.specs.Prelude.{◌≡◌, List};
ghost use Rattle.plinq_source.specs.Trace.{Trace};
ghost use Rattle.plinq_keyed.specs.declared.record.Record.{Record};
ghost use Rattle.plinq_keyed.specs.History.{IsLegalHistory};

use crate::record::Record;

/// A value that hands out the items of one source, and keeps a record of each request.
///
/// It is what a lock guards: whoever holds it reads in `records` all that was ever handed out.
pub trait Guarded: Send + Drop {
    /// What it hands out.
    type Item: Copy;

    // What the value hands out, for life.
    ghost origin: { Self → Trace Self.Item };

    // The requests so far, oldest first.
    ghost history: { Self → List Record };

    /// The records of all requests so far, oldest first. Takes no memory.
    fn records(&self) -> &[Record]
        ensures value { result.now ≡ history self.now }
        ensures legal { IsLegalHistory (origin self.now) (history self.now) };
}
