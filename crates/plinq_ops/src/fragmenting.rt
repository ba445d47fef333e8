ghost use Rattle.std.specs.Prelude.{◌≡◌, true, false, IfOk};
ghost use Rattle.std.specs.List.{list_any};
ghost use Rattle.plinq_ops.specs.Feeding.{is_empty_take};
ghost use Rattle.plinq_ops.specs.ByKey.{is_by_key};
ghost use Rattle.plinq_ops.specs.Fragment.{fragment_of};
ghost use Rattle.plinq_ops.specs.Chunk.{IsWorkerEnding, IsToldBy, IsFragment};

use crate::frag_end::FragEnd;
use crate::fragments::Fragment;
use crate::op::Op;
use crate::pipeline::Pipeline;
use plinq_lambda::Lambda;
use plinq_source::{Ending, OutOfMemory};
use std::alloc::Global;

/// What a worker part gives for the element of a key.
///
/// The worker part is that of a plan whose answer isn't decided before any element.
///
/// # Errors
///
/// [`OutOfMemory`] if there is no room for what is left of the operators, for the items or for a Take's last one.
///
/// ```text
/// // as_ordered, skip 1, take 2
/// let worker = query.split().worker;
/// fragment(alloc, worker, 0, x)?    // nothing, FragEnd::More
/// fragment(alloc, worker, 1, x)?    // x, FragEnd::More
/// fragment(alloc, worker, 2, x)?    // x, FragEnd::End
/// ```
pub fn fragment<L: Lambda>(
    alloc: Global,
    worker: &[Op<L>],
    key: u64,
    x: L::Item,
) -> Result<Fragment<L::Item>, OutOfMemory>
    requires keyed { is_by_key worker.now ≡ true }
    requires some { list_any is_empty_take worker.now ≡ false }
    ensures { IfOk result (IsFragment (fragment_of L.meaning worker.now key x)) }
{
    let mut pipeline = Pipeline::at_key(alloc, worker, key)?;
    let mut items = Vec::new(alloc);
    if pipeline.is_over() {
        let ending = FragEnd::End;
        return Ok(Fragment { items, ending });
    }
    let ending = pipeline.feed(alloc, x, &mut items)?;
    let ending = frag_end(ending);
    Ok(Fragment { items, ending })
}

/// A worker part's ending, as a fragment reports it.
pub(crate) fn frag_end(ending: Option<Ending>) -> FragEnd
    requires { IsWorkerEnding ending }
    ensures { IsToldBy result ending }
{
    match ending {
        None => FragEnd::More,
        Some(Ending::End) => FragEnd::End,
        Some(Ending::Fault(code)) => FragEnd::Fault(code),
        Some(Ending::Refused(_)) => unreachable!(),
    }
}
