ghost use Rattle.std.specs.Prelude.{◌≡◌, None};
ghost use Rattle.plinq_ops.specs.SkipWhile.{skipped_while, all_pass};

use crate::blocks::skip;
use plinq_lambda::Lambda;
use plinq_source::Ending;

/// Skips the items of a block up to the first that fails. Returns whether all pass, so that the next block's are skipped as
/// well, and how the run ended.
pub(crate) fn skip_while<L: Lambda>(f: &L, block: &mut Vec<L::Item>) -> (bool, Option<Ending>)
    ensures skipped { record { items = block.new.items; ending = result.1 }
        ≡ skipped_while (L.meaning f.now).test block.old.items None }
    ensures all { result.0 ≡ all_pass (L.meaning f.now).test block.old.items }
{
    let (len, fault) = f.count_passing(block.as_slice());
    if let Some(code) = fault {
        block.clear();
        return (false, Some(Ending::Fault(code)));
    }
    let all_pass = len == block.len();
    skip(&mut (len as u64), block);
    (all_pass, None)
}
