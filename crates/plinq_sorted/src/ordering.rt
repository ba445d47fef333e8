//! The items of a query's answer, ordered.
ghost use Rattle.std.specs.Prelude.{◌≡◌, ⊤, MatchResult};
ghost use Rattle.plinq_ops.specs.Answer.{MayAnswer};
ghost use Rattle.plinq_sorted.specs.Orders.{IsOrderOf, OrdersSome, EndsOtherwise};

use plinq_collect::to_vec;
use plinq_groups::RankOf;
use plinq_lambda::SharedLambda;
use plinq_ops::Query;
use plinq_run::{AggregateFault, RunFault};
use plinq_source::{Ending, Source};
use rayon::slice::par_sort_by_key;
use std::alloc::{AllocError, Global};
use std::sync::Wait;
use std::thread::Threads;
use std::time::Clock;

/// The items of a query's answer in ascending order of their ranks (.NET's `OrderBy` and `ToList`). Those of equal ranks stand as
/// in the answer. A pair as the rank is `ThenBy`, a [`Reverse`](std::cmp::Reverse) `OrderByDescending`.
///
/// Once the answer is there, it is sorted by one thread per core, whatever the query's degree.
///
/// # Errors
///
/// [`AggregateFault::Ended`] if the answer ends in a fault or a refusal, [`AggregateFault::Run`] if there is none, or no room to
/// order it.
///
/// ```text
/// let dearest = order_by(rt, alloc, &query, SliceSource::new(&orders)?, &ByCents)?;
/// ```
pub fn order_by<L, S, O, R>(
    rt: &R,
    alloc: Global,
    query: &Query<L>,
    source: S,
    rank: &O,
) -> Result<Vec<L::Item>, AggregateFault>
where
    L: SharedLambda,
    S: Source<Item = L::Item>,
    O: RankOf<Item = L::Item, Rank: Send>,
    R: Clock + Threads + Wait + Sync,
    requires { S.given source ≡ 0 }
    ensures { MatchResult result
        (λ list. OrdersSome (O.ranks rank.now) O.Rank.cmp (MayAnswer L.meaning query.now.ordered query.now.ops (S.whole source)) list.items)
        (EndsOtherwise (MayAnswer L.meaning query.now.ordered query.now.ops (S.whole source))) }
{
    let (items, ending) = match to_vec(rt, alloc, query, source) {
        Ok(gathered) => gathered,
        Err(fault) => return Err(AggregateFault::Run(fault)),
    };
    if ending != Ending::End {
        return Err(AggregateFault::Ended(ending));
    }
    match ordered(rt, alloc, items, rank) {
        Ok(items) => Ok(items),
        Err(_) => Err(AggregateFault::Run(RunFault::Memory)),
    }
}

/// A list in ascending order of rank.
fn ordered<T, O, R>(
    rt: &R,
    alloc: Global,
    mut items: Vec<T>,
    rank: &O,
) -> Result<Vec<T>, AllocError>
where
    T: Copy + Send,
    O: RankOf<Item = T, Rank: Send>,
    R: Threads + Sync,
    ensures { MatchResult result (λ list. IsOrderOf (O.ranks rank.now) O.Rank.cmp items.items list.items) (λ _. ⊤) }
{
    par_sort_by_key(
        rt,
        alloc,
        items.as_mut_slice(),
        |x: &T| -> O::Rank
            ensures { result ≡ O.ranks rank.entry.now x.entry.now }
        { rank.rank_of(*x) },
    )?;
    Ok(items)
}
