//! What is asked of a query's answer.
ghost use Rattle.std.specs.Prelude.{◌≡◌, pos, [], ◌∷◌, ◌++◌};
ghost use Rattle.plinq_ops.specs.declared.op.Op.{Op};
ghost use Rattle.plinq_ops.specs.Answer.{MayAnswer};
ghost use Rattle.plinq_collect.specs.Equal.{IsTestOf};
ghost use Rattle.plinq_collect.specs.ItemFoldings.{first_of, has_item, has_none, wrapped_count};
ghost use Rattle.plinq_collect.specs.Telling.{TellsSome, negated};

use crate::equal_to::EqualTo;
use crate::first_item::FirstItem;
use crate::is_there::IsThere;
use crate::item_count::ItemCount;
use plinq_enumerator::Growth;
use plinq_lambda::SharedLambda;
use plinq_ops::Query;
use plinq_run::{AggregateFault, RunFault, TimedGate, aggregate};
use plinq_source::Source;
use std::alloc::Global;
use std::marker::PhantomData;
use std::sync::Wait;
use std::thread::Threads;
use std::time::Clock;

/// The first item, if there is one (.NET's `FirstOrDefault`, rayon's `find_first`; without `as_ordered` `find_any`).
///
/// A take of one is put on the query, so that no item after the first is asked for once it is known, and no fault after it
/// is met.
///
/// # Errors
///
/// [`AggregateFault::Ended`] if a fault or a refusal comes before any item, [`AggregateFault::Run`] if there is no
/// answer.
pub fn first<L, S, R>(
    rt: &R,
    alloc: Global,
    query: Query<L>,
    source: S,
) -> Result<Option<L::Item>, AggregateFault>
where
    L: SharedLambda,
    S: Source<Item = L::Item>,
    R: Clock + Threads + Wait + Sync,
    requires { S.given source ≡ 0 }
    ensures { TellsSome first_of (MayAnswer L.meaning query.ordered (query.ops ++ Op.Take (pos 1) ∷ []) (S.whole source)) result }
{
    let Ok(query) = query.take(1) else {
        return Err(AggregateFault::Run(RunFault::Memory));
    };
    let first = FirstItem::<L>(PhantomData);
    aggregate(
        rt,
        alloc,
        &query,
        source,
        Growth::DEFAULT,
        &TimedGate::new(rt),
        &first,
    )
}

/// The item at a place, counted from 0, if there are as many (.NET's `ElementAtOrDefault`).
///
/// A skip and a take of one are put on the query.
///
/// # Errors
///
/// As [`first`].
pub fn element_at<L, S, R>(
    rt: &R,
    alloc: Global,
    query: Query<L>,
    source: S,
    place: u32,
) -> Result<Option<L::Item>, AggregateFault>
where
    L: SharedLambda,
    S: Source<Item = L::Item>,
    R: Clock + Threads + Wait + Sync,
    requires { S.given source ≡ 0 }
    ensures { TellsSome first_of (MayAnswer L.meaning query.ordered ((query.ops ++ Op.Skip (pos place) ∷ []) ++ Op.Take (pos 1) ∷ []) (S.whole source)) result }
{
    let Ok(query) = query.skip(i64::from(place)) else {
        return Err(AggregateFault::Run(RunFault::Memory));
    };
    first(rt, alloc, query, source)
}

/// Whether an item passes this test (.NET's and rayon's `Any`).
///
/// A filter and a take of one are put on the query, so that nothing after the first that passes is asked for once it is
/// known.
///
/// # Errors
///
/// As [`first`]: a test that faults before any item passes is a fault.
pub fn any<L, S, R>(
    rt: &R,
    alloc: Global,
    query: Query<L>,
    source: S,
    test: L,
) -> Result<bool, AggregateFault>
where
    L: SharedLambda,
    S: Source<Item = L::Item>,
    R: Clock + Threads + Wait + Sync,
    requires { S.given source ≡ 0 }
    ensures { TellsSome has_item (MayAnswer L.meaning query.ordered ((query.ops ++ Op.Filter test ∷ []) ++ Op.Take (pos 1) ∷ []) (S.whole source)) result }
{
    let Ok(query) = query.filter(test) else {
        return Err(AggregateFault::Run(RunFault::Memory));
    };
    is_there(rt, alloc, query, source)
}

/// Whether an item equals this one (.NET's `Contains`). It is [`any`] by the lambda's own test.
///
/// # Errors
///
/// As [`first`].
pub fn contains<L, S, R>(
    rt: &R,
    alloc: Global,
    query: Query<L>,
    source: S,
    item: L::Item,
) -> Result<bool, AggregateFault>
where
    L: EqualTo + SharedLambda,
    S: Source<Item = L::Item>,
    R: Clock + Threads + Wait + Sync,
    requires { S.given source ≡ 0 }
    ensures { (test : L) × (IsTestOf L.Item.eq (L.meaning test) item) × TellsSome has_item (MayAnswer L.meaning query.ordered
        ((query.ops ++ Op.Filter test ∷ []) ++ Op.Take (pos 1) ∷ []) (S.whole source)) result }
{
    any(rt, alloc, query, source, L::equal_to(item))
}

/// Whether every item passes this test (.NET's and rayon's `All`); of no items it is true.
///
/// A skip_while and a take of one are put on the query: all pass if nothing is left. Nothing after the first that fails is
/// asked for once it is known.
///
/// # Errors
///
/// As [`first`]: a test that faults before any item fails is a fault.
pub fn all<L, S, R>(
    rt: &R,
    alloc: Global,
    query: Query<L>,
    source: S,
    test: L,
) -> Result<bool, AggregateFault>
where
    L: SharedLambda,
    S: Source<Item = L::Item>,
    R: Clock + Threads + Wait + Sync,
    requires { S.given source ≡ 0 }
    ensures { TellsSome has_none (MayAnswer L.meaning query.ordered ((query.ops ++ Op.SkipWhile test ∷ []) ++ Op.Take (pos 1) ∷ []) (S.whole source)) result }
{
    let Ok(query) = query.skip_while(test) else {
        return Err(AggregateFault::Run(RunFault::Memory));
    };
    negated(is_there(rt, alloc, query, source))
}

/// How many items there are, modulo 2^64 (.NET's and rayon's `Count`). It needs all of them.
///
/// # Errors
///
/// [`AggregateFault::Ended`] if the answer doesn't end well, [`AggregateFault::Run`] if there is none.
pub fn count<L, S, R>(
    rt: &R,
    alloc: Global,
    query: &Query<L>,
    source: S,
) -> Result<u64, AggregateFault>
where
    L: SharedLambda,
    S: Source<Item = L::Item>,
    R: Clock + Threads + Wait + Sync,
    requires { S.given source ≡ 0 }
    ensures { TellsSome wrapped_count (MayAnswer L.meaning query.now.ordered query.now.ops (S.whole source)) result }
{
    let counted = ItemCount::<L>(PhantomData);
    aggregate(
        rt,
        alloc,
        query,
        source,
        Growth::DEFAULT,
        &TimedGate::new(rt),
        &counted,
    )
}

/// Whether the query has an item, of which one is asked for.
fn is_there<L, S, R>(
    rt: &R,
    alloc: Global,
    query: Query<L>,
    source: S,
) -> Result<bool, AggregateFault>
where
    L: SharedLambda,
    S: Source<Item = L::Item>,
    R: Clock + Threads + Wait + Sync,
    requires { S.given source ≡ 0 }
    ensures { TellsSome has_item (MayAnswer L.meaning query.ordered (query.ops ++ Op.Take (pos 1) ∷ []) (S.whole source)) result }
{
    let Ok(query) = query.take(1) else {
        return Err(AggregateFault::Run(RunFault::Memory));
    };
    let is_there = IsThere::<L>(PhantomData);
    aggregate(
        rt,
        alloc,
        &query,
        source,
        Growth::DEFAULT,
        &TimedGate::new(rt),
        &is_there,
    )
}

/// The other answer, if there is one.
pub(crate) fn negated(answer: Result<bool, AggregateFault>) -> Result<bool, AggregateFault>
    ensures { result ≡ negated answer }
{
    match answer {
        Ok(is) => Ok(!is),
        Err(fault) => Err(fault),
    }
}
