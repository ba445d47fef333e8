//! The calls that run a query by threads.
ghost use Rattle.std.specs.Prelude.{◌≡◌, length, Option, false, Some, Err, MatchResult, true};
ghost use Rattle.std.specs.List.{filter_map};
ghost use Rattle.plinq_source.specs.declared.ending.Ending.TheVariants.{End};
ghost use Rattle.plinq_aggregate.specs.Folding.{aggregate_value, fold_of};
ghost use Rattle.plinq_groups.specs.Groups.{grouping};
ghost use Rattle.plinq_groups.specs.Others.{of_field};
ghost use Rattle.plinq_ops.specs.Query.{is_degree};
ghost use Rattle.plinq_passing.specs.declared.query_fault.QueryFault.TheVariants.{Degree, Growth as GrowthRefused};
ghost use Rattle.plinq_passing.specs.Told.{AskedFor, CantGrow, HasNone};
ghost use Rattle.plinq_stopping.specs.Asking.{WasLetBy, WasStoppedBy};
ghost use Rattle.plinq_enumerator.specs.declared.growth_fault.GrowthFault.{GrowthFault};

use crate::count_of::{CountOf, has_few};
use crate::pairs::{FirstOf, SecondOf};
use crate::query::Query;
use plinq_aggregate::GrowingAggregator;
use plinq_groups::{By, Collect, GroupBy, Groups};
use plinq_merge::Cancel;
use plinq_passing::{ByThreads, QueryFault, aggregate_steps};
use plinq_source::Source;
use plinq_steps::Steps;
use std::alloc::Global;
use std::hash::Hash;
use std::marker::PhantomData;
use std::sync::Wait;
use std::thread::Threads;
use std::time::Clock;

impl<Src, S, C> Query<Src, S, ByThreads<C>>
where
    S: Steps<From: Send + Sync, To: Send + Sync> + Sync + Drop,
    Src: Source<Item = S::From>,
    C: Cancel + Drop,
{
    /// The aggregate of what the steps make of the source's items, in their order (.NET's `Aggregate`, rayon's `fold` and
    /// `reduce`). The workers fold what they make.
    ///
    /// # Errors
    ///
    /// [`QueryFault::Degree`] if the number of workers isn't from 1 to 64, [`QueryFault::Growth`] if the growth's numbers make none,
    /// [`QueryFault::Ended`] if the source refused, [`QueryFault::Run`] if there is no answer, as [`run`](plinq_run::run) reports it.
    pub fn aggregate<A, R>(self, rt: &R, alloc: Global, aggregator: A) -> Result<A::Out, QueryFault>
    where
        A: GrowingAggregator<Item = S::To>,
        A::Out: Drop,
        R: Clock + Threads + Wait + Sync,
        requires fresh { Src.given self.source ≡ 0 }
        requires is_called { S.is_called self.steps }
        requires in_one_way { S.in_one_way self.steps }
        requires gives { S.gives self.steps }
        requires gives_one { S.gives_one self.steps }
        ensures degree { is_degree self.by.degree ≡ false → result ≡ Err Degree }
        ensures asked { AskedFor (WasLetBy C.asks self.by.token) result }
        ensures growth { (fault : GrowthFault) → is_degree self.by.degree ≡ true → CantGrow self.by.growth fault → result ≡ Err (GrowthRefused fault) }
        ensures value { (f : S.From → Option S.To) → ((x : S.From) → S.makes self.steps x (f x)) → MatchResult result
            (λ out. (out ≡ aggregate_value (A.folding aggregator) (filter_map f (Src.whole self.source).items))
            × ((Src.whole self.source).ending ≡ Some End))
            (HasNone (WasStoppedBy C.asks self.by.token) self.by.degree self.by.growth (Src.whole self.source)) }
    {
        let Query { source, steps, by } = self;
        aggregate_steps(source, steps, by, rt, alloc, aggregator)
    }

    /// All that the steps make, in the order of the source (.NET's `ToList`, rayon's `collect`).
    ///
    /// # Errors
    ///
    /// As [`Query::aggregate`].
    pub fn to_vec<R>(self, rt: &R, alloc: Global) -> Result<Vec<S::To>, QueryFault>
    where
        R: Clock + Threads + Wait + Sync,
        requires fresh { Src.given self.source ≡ 0 }
        requires is_called { S.is_called self.steps }
        requires in_one_way { S.in_one_way self.steps }
        requires gives { S.gives self.steps }
        requires gives_one { S.gives_one self.steps }
        ensures degree { is_degree self.by.degree ≡ false → result ≡ Err Degree }
        ensures asked { AskedFor (WasLetBy C.asks self.by.token) result }
        ensures growth { (fault : GrowthFault) → is_degree self.by.degree ≡ true → CantGrow self.by.growth fault → result ≡ Err (GrowthRefused fault) }
        ensures value { (f : S.From → Option S.To) → ((x : S.From) → S.makes self.steps x (f x)) → MatchResult result
            (λ list. (list.items ≡ filter_map f (Src.whole self.source).items) × ((Src.whole self.source).ending ≡ Some End))
            (HasNone (WasStoppedBy C.asks self.by.token) self.by.degree self.by.growth (Src.whole self.source)) }
    {
        match self.aggregate(rt, alloc, Collect::new()) {
            Ok(list) => Ok(list.into_vec()),
            Err(fault) => Err(fault),
        }
    }

    /// How many items the steps make (.NET's `Count`, rayon's `count`). None is held.
    ///
    /// # Errors
    ///
    /// As [`Query::aggregate`].
    pub fn count<R>(self, rt: &R, alloc: Global) -> Result<u64, QueryFault>
    where
        R: Clock + Threads + Wait + Sync,
        requires fresh { Src.given self.source ≡ 0 }
        requires is_called { S.is_called self.steps }
        requires in_one_way { S.in_one_way self.steps }
        requires gives { S.gives self.steps }
        requires gives_one { S.gives_one self.steps }
        ensures degree { is_degree self.by.degree ≡ false → result ≡ Err Degree }
        ensures asked { AskedFor (WasLetBy C.asks self.by.token) result }
        ensures growth { (fault : GrowthFault) → is_degree self.by.degree ≡ true → CantGrow self.by.growth fault → result ≡ Err (GrowthRefused fault) }
        ensures value { (f : S.From → Option S.To) → ((x : S.From) → S.makes self.steps x (f x)) → MatchResult result
            (λ n. (n ≡ length (filter_map f (Src.whole self.source).items)) × ((Src.whole self.source).ending ≡ Some End))
            (HasNone (WasStoppedBy C.asks self.by.token) self.by.degree self.by.growth (Src.whole self.source)) }
    {
        has_few(&self.source);
        self.aggregate(rt, alloc, CountOf(PhantomData))
    }
}

impl<Src, S, K, V, C> Query<Src, S, ByThreads<C>>
where
    S: Steps<From: Send + Sync, To = (K, V)> + Sync + Drop,
    S::To: Send + Sync,
    Src: Source<Item = S::From>,
    C: Cancel + Drop,
    K: Eq + Hash + Copy + Send + Sync,
    V: Copy + Send + Sync,
{
    /// The groups of pairs with equal keys, in the order in which their keys came first (.NET's `GroupBy`). Of each key the
    /// values are folded by an aggregator, in their order.
    ///
    /// # Errors
    ///
    /// As [`Query::aggregate`].
    pub fn group_by<A, R>(
        self,
        rt: &R,
        alloc: Global,
        each: A,
    ) -> Result<Groups<K, A::Acc>, QueryFault>
    where
        A: GrowingAggregator<Item = V>,
        R: Clock + Threads + Wait + Sync,
        requires fresh { Src.given self.source ≡ 0 }
        requires is_called { S.is_called self.steps }
        requires in_one_way { S.in_one_way self.steps }
        requires gives { S.gives self.steps }
        requires gives_one { S.gives_one self.steps }
        ensures degree { is_degree self.by.degree ≡ false → result ≡ Err Degree }
        ensures asked { AskedFor (WasLetBy C.asks self.by.token) result }
        ensures growth { (fault : GrowthFault) → is_degree self.by.degree ≡ true → CantGrow self.by.growth fault → result ≡ Err (GrowthRefused fault) }
        ensures value { (f : S.From → Option (K × V)) → ((x : S.From) → S.makes self.steps x (f x)) → MatchResult result
            (λ groups. (groups ≡ fold_of (grouping K.eq (λ p. p.0) (of_field (λ p. p.1) (A.folding each)))
            (filter_map f (Src.whole self.source).items)) × ((Src.whole self.source).ending ≡ Some End))
            (HasNone (WasStoppedBy C.asks self.by.token) self.by.degree self.by.growth (Src.whole self.source)) }
    {
        self.aggregate(
            rt,
            alloc,
            GroupBy {
                key: FirstOf::new(),
                each: By {
                    field: SecondOf::new(),
                    each,
                },
            },
        )
    }
}
