ghost use Rattle.std.specs.Prelude.{◌≡◌, false, OnOk, IfOk};
ghost use Rattle.plinq_source.specs.Trace.{ended_trace};
ghost use Rattle.plinq_ops.specs.Stage.{some_takes_none};
ghost use Rattle.plinq_ops.specs.Operator.{stages_of};
ghost use Rattle.plinq_ops.specs.Pipeline.{stages};
ghost use Rattle.plinq_ops.specs.Sequential.{answer_of, IsLeastDeciding};
ghost use Rattle.plinq_ops.specs.inner.Answering.{IsAllFed};

use crate::decided::is_decided;
use crate::pipeline::Pipeline;
use crate::query::Query;
use plinq_lambda::Lambda;
use plinq_source::{Ending, OutOfMemory, Source};
use std::alloc::Global;

/// The query's answer on one thread, as LINQ gives it: its items and how it ends. `AsUnordered` leaves the order as
/// it is.
///
/// The source must have given nothing. It is asked for no element after the one that decides the answer.
///
/// # Errors
///
/// [`OutOfMemory`] if there is no room for what is left of the operators or for the answer. The source may have given
/// some of its elements then.
///
/// ```text
/// let query = Query::new(alloc).as_ordered()?.filter(Formula::Even)?.take(2)?;
/// let mut source = RangeSource::new(1, 10)?;
/// let (items, ending) = sequential(alloc, &query, &mut source)?;   // 2 and 4, Ending::End
/// source.next()                                                    // Step::Item(5)
/// ```
pub fn sequential<L: Lambda, S: Source<Item = L::Item>>(
    alloc: Global,
    query: &Query<L>,
    source: &mut S,
) -> Result<(Vec<L::Item>, Ending), OutOfMemory>
    requires { S.given source.old ≡ 0 }

    ensures same { S.whole source.new ≡ S.whole source.old }
    ensures answer { IfOk result (λ r. ended_trace r.0.items r.1 ≡ answer_of L.meaning query.now.ops (S.whole source.old)) }
    ensures least { OnOk result (IsLeastDeciding
        (stages_of L.meaning query.now.ops) (S.whole source.old) (S.given source.new)) }
{
    let ops = query.ops();
    let mut items = Vec::new(alloc);
    if is_decided(ops) {
        return Ok((items, Ending::End));
    }
    let mut pipeline = Pipeline::new(alloc, ops)?;
    let ending = feed_all(alloc, &mut pipeline, source, &mut items)?;
    Ok((items, ending))
}

/// Sends what a source gives through a pipeline, up to the item that ends the run, or the ending.
fn feed_all<L: Lambda, S: Source<Item = L::Item>>(
    alloc: Global,
    pipeline: &mut Pipeline<'_, L>,
    source: &mut S,
    out: &mut Vec<L::Item>,
) -> Result<Ending, OutOfMemory>
    requires undecided { some_takes_none (stages L.meaning pipeline.old) ≡ false }
    requires fresh { S.given source.old ≡ 0 }

    ensures same { S.whole source.new ≡ S.whole source.old }
    ensures fed { IfOk result (IsAllFed
        (stages L.meaning pipeline.old) (S.whole source.old) (S.given source.new)
        out.old.items out.new.items
        (stages L.meaning pipeline.new)) }
{
    loop {
        if let Some(ending) = pipeline.feed_from(alloc, source, out)? {
            return Ok(ending);
        }
    }
}
