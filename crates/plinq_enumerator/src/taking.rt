ghost use Rattle.std.specs.Prelude.{◌≡◌, ◌≤◌, ◌+◌, ◌-◌, [], length, vec_capacity, vec_len, nat_lt, if◌then◌else◌};
ghost use Rattle.plinq_source.specs.Trace.{items_from};
ghost use Rattle.plinq_keyed.specs.History.{ending_tail};

use plinq_keyed::Tail;
use plinq_source::{Ending, Source};

/// The tail of a chunk with which its source ended so, or didn't yet.
fn tail_of(ending: Option<Ending>) -> Option<Tail>
    ensures { result ≡ ending_tail ending }
{
    match ending {
        None => None,
        Some(Ending::End) => Some(Tail::Ended),
        Some(Ending::Refused(code)) => Some(Tail::Refused(code)),
        Some(Ending::Fault(_)) => None,
    }
}

/// Takes the next `n` items, or what is left of them, into an empty list with that much room; the source's tail if
/// there are fewer.
pub(crate) fn take_items<S: Source>(
    source: &mut S,
    items: &mut Vec<S::Item>,
    n: u64,
) -> Option<Tail>
    requires empty { items.old.items ≡ [] }
    requires room { n ≤ vec_capacity items.old }
    ensures same { S.whole source.new ≡ S.whole source.old }
    ensures taken { items.new.items ≡ items_from (S.whole source.old) (S.given source.old) n }
    ensures counted { vec_len items.new ≡ length items.new.items }
    ensures capacity { vec_capacity items.new ≡ vec_capacity items.old }
    ensures moved { S.given source.new ≡ S.given source.old + length items.new.items }
    ensures tail { result ≡ (if nat_lt (length (S.whole source.old).items - S.given source.old) n then ending_tail (S.whole source.old).ending else None) }
{
    tail_of(source.fill(items, n))
}
