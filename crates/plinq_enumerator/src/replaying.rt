ghost use Rattle.std.specs.Prelude.{◌≡◌};
ghost use Rattle.plinq_source.specs.Trace.{IsSourceEnding};
ghost use Rattle.plinq_keyed.specs.History.{is_legal_history, some_source};

use crate::replay::Replay;
use plinq_keyed::Record;
use plinq_source::Ending;

/// Whether records are a legal history of a source of `len` items that ends so.
///
/// They are if each states the answer to its request, one after another from the first item on, under tickets
/// that rise. Takes no memory.
pub fn replays(records: &[Record], len: u64, ending: Ending) -> bool
    requires { IsSourceEnding (Some ending) }
    ensures { result ≡ is_legal_history (some_source len (Some ending)) records.now }
{
    let mut replay = Replay::START;
    let mut least: u128 = 0;
    for entry in records {
        let ticket = u128::from(entry.ticket);
        if ticket < least || !replay.answers(entry, len, ending) {
            return false;
        }
        least = ticket + 1;
        replay = replay.after(entry);
    }
    true
}
