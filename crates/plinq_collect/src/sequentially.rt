//! The same calls on one thread, with the same arguments: each answers what the sequential query does.
ghost use Rattle.std.specs.Prelude.{◌≡◌, pos, [], ◌∷◌, ◌++◌, Err, MatchResult};
ghost use Rattle.plinq_source.specs.Trace.{ended_trace};
ghost use Rattle.plinq_ops.specs.declared.op.Op.{Op};
ghost use Rattle.plinq_ops.specs.Sequential.{answer_of};
ghost use Rattle.plinq_run.specs.Aggregates.{Aggregates};
ghost use Rattle.plinq_run.specs.declared.run_fault.RunFault.TheVariants.{Memory};
ghost use Rattle.plinq_collect.specs.Calling.{CallsAll, NoRoomOrRefused};
ghost use Rattle.plinq_collect.specs.Equal.{IsTestOf};
ghost use Rattle.plinq_collect.specs.ItemFoldings.{first_of, has_item, has_none, wrapped_count};
ghost use Rattle.plinq_collect.specs.Telling.{LacksRoom, TellsSome};

use crate::calling::visit_all;
use crate::equal_to::EqualTo;
use crate::first_item::FirstItem;
use crate::is_there::IsThere;
use crate::item_count::ItemCount;
use crate::telling::negated;
use crate::visits::Visitor;
use plinq_aggregate::{Aggregator, fold_sequential};
use plinq_lambda::SharedLambda;
use plinq_ops::{Query, sequential};
use plinq_run::{AggregateFault, RunFault};
use plinq_source::{Ending, Source};
use std::alloc::Global;
use std::marker::PhantomData;
use std::sync::Wait;
use std::thread::Threads;

/// As [`to_vec`](crate::to_vec). It is [`sequential`] with the arguments of a run.
///
/// # Errors
///
/// [`RunFault::Memory`] if there is no room.
pub fn to_vec<L, S, R>(
    _rt: &R,
    alloc: Global,
    query: &Query<L>,
    source: S,
) -> Result<(Vec<L::Item>, Ending), RunFault>
where
    L: SharedLambda,
    S: Source<Item = L::Item>,
    R: Threads + Wait + Sync,
    requires { S.given source ≡ 0 }
    ensures { MatchResult result
        (λ it. ended_trace it.0.items it.1 ≡ answer_of L.meaning query.now.ops (S.whole source))
        (λ fault. fault ≡ Memory) }
{
    let mut source = source;
    match sequential(alloc, query, &mut source) {
        Ok(answer) => Ok(answer),
        Err(_) => Err(RunFault::Memory),
    }
}

/// As [`for_each`](crate::for_each). The closure is called once all items are there; if there is no room it isn't called.
///
/// # Errors
///
/// [`RunFault::Sink`] with the code that the closure answers, [`RunFault::Memory`] if there is no room.
pub fn for_each<L, S, F, R>(
    rt: &R,
    alloc: Global,
    query: &Query<L>,
    source: S,
    by: &mut F,
) -> Result<Ending, RunFault>
where
    L: SharedLambda,
    S: Source<Item = L::Item>,
    F: FnMut(L::Item) -> Result<(), u32>,
    R: Threads + Wait + Sync,
    requires fresh { S.given source ≡ 0 }
    requires is_called { (f : F) (x : L.Item) → F.pre f x }
    requires in_one_way { (f : F) (x : L.Item) (a b : F.pre f x) → a ≡ b }
    ensures calls { CallsAll (λ f x r g. F.step f x r g) (answer_of L.meaning query.now.ops (S.whole source)) by.old result by.new }
    ensures uncalled { result ≡ Err Memory → by.new ≡ by.old }
    ensures memory { NoRoomOrRefused result }
{
    match to_vec(rt, alloc, query, source) {
        Ok((items, ending)) => { visit_all::<Visitor<L::Item, F>>(by, items.as_slice(), ending) }
        Err(fault) => Err(fault),
    }
}

/// The aggregate of a query's answer, as [`aggregate`](plinq_run::aggregate).
///
/// # Errors
///
/// [`AggregateFault::Ended`] if the answer doesn't end well; [`AggregateFault::Run`] with [`RunFault::Memory`] if
/// there is no room.
pub fn aggregate<L, S, A, R>(
    rt: &R,
    alloc: Global,
    query: &Query<L>,
    source: S,
    aggregator: &A,
) -> Result<A::Out, AggregateFault>
where
    L: SharedLambda,
    S: Source<Item = L::Item>,
    A: Aggregator<Item = L::Item>,
    R: Threads + Wait + Sync,
    requires { S.given source ≡ 0 }
    ensures value { Aggregates (A.folding aggregator.now) (answer_of L.meaning query.now.ops (S.whole source)) result }
    ensures memory { LacksRoom result }
{
    match to_vec(rt, alloc, query, source) {
        Ok((items, Ending::End)) => Ok(fold_sequential(aggregator, items.as_slice())),
        Ok((_, ending)) => Err(AggregateFault::Ended(ending)),
        Err(fault) => Err(AggregateFault::Run(fault)),
    }
}

/// As [`first`](crate::first).
///
/// # Errors
///
/// As [`aggregate`].
pub fn first<L, S, R>(
    rt: &R,
    alloc: Global,
    query: Query<L>,
    source: S,
) -> Result<Option<L::Item>, AggregateFault>
where
    L: SharedLambda,
    S: Source<Item = L::Item>,
    R: Threads + Wait + Sync,
    requires { S.given source ≡ 0 }
    ensures value { TellsSome first_of (λ u. u ≡ answer_of L.meaning (query.ops ++ Op.Take (pos 1) ∷ []) (S.whole source)) result }
    ensures memory { LacksRoom result }
{
    let Ok(query) = query.take(1) else {
        return Err(AggregateFault::Run(RunFault::Memory));
    };
    aggregate(rt, alloc, &query, source, &FirstItem::<L>(PhantomData))
}

/// As [`element_at`](crate::element_at).
///
/// # Errors
///
/// As [`aggregate`].
pub fn element_at<L, S, R>(
    rt: &R,
    alloc: Global,
    query: Query<L>,
    source: S,
    place: u32,
) -> Result<Option<L::Item>, AggregateFault>
where
    L: SharedLambda,
    S: Source<Item = L::Item>,
    R: Threads + Wait + Sync,
    requires { S.given source ≡ 0 }
    ensures value { TellsSome first_of (λ u. u
        ≡ answer_of L.meaning ((query.ops ++ Op.Skip (pos place) ∷ []) ++ Op.Take (pos 1) ∷ []) (S.whole source)) result }
    ensures memory { LacksRoom result }
{
    let Ok(query) = query.skip(i64::from(place)) else {
        return Err(AggregateFault::Run(RunFault::Memory));
    };
    first(rt, alloc, query, source)
}

/// As [`any`](crate::any).
///
/// # Errors
///
/// As [`aggregate`].
pub fn any<L, S, R>(
    rt: &R,
    alloc: Global,
    query: Query<L>,
    source: S,
    test: L,
) -> Result<bool, AggregateFault>
where
    L: SharedLambda,
    S: Source<Item = L::Item>,
    R: Threads + Wait + Sync,
    requires { S.given source ≡ 0 }
    ensures value { TellsSome has_item (λ u. u ≡ answer_of L.meaning ((query.ops ++ Op.Filter test ∷ []) ++ Op.Take (pos 1) ∷ []) (S.whole source)) result }
    ensures memory { LacksRoom result }
{
    let Ok(query) = query.filter(test) else {
        return Err(AggregateFault::Run(RunFault::Memory));
    };
    is_there(rt, alloc, query, source)
}

/// As [`contains`](crate::contains).
///
/// # Errors
///
/// As [`aggregate`].
pub fn contains<L, S, R>(
    rt: &R,
    alloc: Global,
    query: Query<L>,
    source: S,
    item: L::Item,
) -> Result<bool, AggregateFault>
where
    L: EqualTo + SharedLambda,
    S: Source<Item = L::Item>,
    R: Threads + Wait + Sync,
    requires { S.given source ≡ 0 }
    ensures value { (test : L) × (IsTestOf L.Item.eq (L.meaning test) item) × TellsSome has_item (λ u. u
        ≡ answer_of L.meaning ((query.ops ++ Op.Filter test ∷ []) ++ Op.Take (pos 1) ∷ []) (S.whole source)) result }
    ensures memory { LacksRoom result }
{
    any(rt, alloc, query, source, L::equal_to(item))
}

/// As [`all`](crate::all).
///
/// # Errors
///
/// As [`aggregate`].
pub fn all<L, S, R>(
    rt: &R,
    alloc: Global,
    query: Query<L>,
    source: S,
    test: L,
) -> Result<bool, AggregateFault>
where
    L: SharedLambda,
    S: Source<Item = L::Item>,
    R: Threads + Wait + Sync,
    requires { S.given source ≡ 0 }
    ensures value { TellsSome has_none (λ u. u ≡ answer_of L.meaning ((query.ops ++ Op.SkipWhile test ∷ []) ++ Op.Take (pos 1) ∷ []) (S.whole source)) result }
    ensures memory { LacksRoom result }
{
    let Ok(query) = query.skip_while(test) else {
        return Err(AggregateFault::Run(RunFault::Memory));
    };
    negated(is_there(rt, alloc, query, source))
}

/// As [`count`](crate::count).
///
/// # Errors
///
/// As [`aggregate`].
pub fn count<L, S, R>(
    rt: &R,
    alloc: Global,
    query: &Query<L>,
    source: S,
) -> Result<u64, AggregateFault>
where
    L: SharedLambda,
    S: Source<Item = L::Item>,
    R: Threads + Wait + Sync,
    requires { S.given source ≡ 0 }
    ensures value { TellsSome wrapped_count (λ u. u ≡ answer_of L.meaning query.now.ops (S.whole source)) result }
    ensures memory { LacksRoom result }
{
    aggregate(rt, alloc, query, source, &ItemCount::<L>(PhantomData))
}

/// Whether the query has an item, of which one is asked for.
fn is_there<L, S, R>(
    rt: &R,
    alloc: Global,
    query: Query<L>,
    source: S,
) -> Result<bool, AggregateFault>
where
    L: SharedLambda,
    S: Source<Item = L::Item>,
    R: Threads + Wait + Sync,
    requires { S.given source ≡ 0 }
    ensures value { TellsSome has_item (λ u. u ≡ answer_of L.meaning (query.ops ++ Op.Take (pos 1) ∷ []) (S.whole source)) result }
    ensures memory { LacksRoom result }
{
    let Ok(query) = query.take(1) else {
        return Err(AggregateFault::Run(RunFault::Memory));
    };
    aggregate(rt, alloc, &query, source, &IsThere::<L>(PhantomData))
}
