ghost use Rattle.std.specs.Prelude.{◌≡◌, true, MatchResult};
ghost use Rattle.plinq_ops.specs.Answer.{MayAnswer};
ghost use Rattle.plinq_ops.specs.Sequential.{answer_of};
ghost use Rattle.plinq_run.specs.Runs.{Other, cause_of};
ghost use Rattle.plinq_mapped.specs.Mapped.{IsMadeOf, IsMadeOfSome};

use crate::keep_made::{KeepMade, Kept};
use plinq_enumerator::Growth;
use plinq_groups::{MakeOf, MapEach};
use plinq_lambda::SharedLambda;
use plinq_ops::Query;
use plinq_run::{RunFault, TimedGate, fold_into};
use plinq_source::{Ending, Source};
use std::alloc::Global;
use std::marker::PhantomData;
use std::sync::Wait;
use std::thread::Threads;
use std::time::Clock;

/// What is made of the items of a query's answer, in a list, and how the mapped answer ended (.NET's `Select` to another type and
/// `ToList`).
///
/// If it ends well, that is all that was made. Otherwise it is what comes before the fault or the refusal, whatever the query's
/// merge option.
///
/// # Errors
///
/// [`RunFault::Memory`] if there is no room, also for the list; else as [`run`](plinq_run::run).
///
/// ```text
/// let (lines, ending) = to_vec_mapped(rt, alloc, &query, SliceSource::new(&orders)?, &MapEach { make: Print })?;
/// ```
pub fn to_vec_mapped<L, S, M, R>(
    rt: &R,
    alloc: Global,
    query: &Query<L>,
    source: S,
    mapping: &MapEach<M>,
) -> Result<(Vec<M::Made>, Ending), RunFault>
where
    L: SharedLambda,
    S: Source<Item = L::Item>,
    M: MakeOf<Item = L::Item>,
    R: Clock + Threads + Wait + Sync,
    requires { S.given source ≡ 0 }
    ensures ordered { query.now.ordered ≡ true → MatchResult result
        (λ it. IsMadeOf (M.makes mapping.now.make) (answer_of L.meaning query.now.ops (S.whole source)) it.0.items it.1)
        (λ fault. cause_of fault ≡ Other) }
    ensures made { MatchResult result
        (λ it. IsMadeOfSome (M.makes mapping.now.make) (MayAnswer L.meaning query.now.ordered query.now.ops (S.whole source)) it.0.items it.1)
        (λ fault. cause_of fault ≡ Other) }
{
    let mut kept = Kept {
        items: Vec::new(alloc),
    };
    let taker = KeepMade { of: PhantomData };
    let growth = Growth::DEFAULT;
    let ending = fold_into(
        rt,
        alloc,
        query,
        source,
        growth,
        &TimedGate::new(rt),
        mapping,
        taker,
        &mut kept,
    )?;
    Ok((kept.items, ending))
}
