//! The calls that run a query with steps by position, by threads.
ghost use Rattle.std.specs.Prelude.{◌≡◌, length, List, Bool, Option, Some, None, false, Err, MatchResult, true};
ghost use Rattle.plinq_aggregate.specs.Folding.{aggregate_value, fold_of};
ghost use Rattle.plinq_groups.specs.Groups.{grouping};
ghost use Rattle.plinq_groups.specs.Others.{of_field};
ghost use Rattle.plinq_collect.specs.ItemFoldings.{first_of};
ghost use Rattle.plinq_ops.specs.Query.{is_degree};
ghost use Rattle.plinq_passing.specs.declared.query_fault.QueryFault.TheVariants.{Degree, Growth as GrowthRefused};
ghost use Rattle.plinq_passing.specs.Ran.{SearchFails, EndsUnless, decided_by, left_of};
ghost use Rattle.plinq_stopping.specs.Asking.{WasLetBy, WasStoppedBy};
ghost use Rattle.plinq_passing.specs.Told.{AskedFor, CantGrow};
ghost use Rattle.plinq_enumerator.specs.declared.growth_fault.GrowthFault.{GrowthFault};

use crate::count_of::{CountOf, has_few};
use crate::merged::Merged;
use crate::pairs::{FirstOf, SecondOf};
use plinq_aggregate::GrowingAggregator;
use plinq_groups::{By, Collect, GroupBy, Groups};
use plinq_merge::Cancel;
use plinq_passing::{
    ByThreads, First, Folded, Folds, KeepFirst, Passed, QueryFault, pass_by_threads, told_first,
    told_folded,
};
use plinq_source::Source;
use plinq_steps::{Positional, Steps};
use std::alloc::Global;
use std::hash::Hash;
use std::marker::PhantomData;
use std::sync::Wait;
use std::thread::Threads;
use std::time::Clock;

impl<Src, S, L, C> Merged<Src, S, ByThreads<C>, L>
where
    S: Steps<From: Send + Sync, To: Send + Sync> + Sync + Drop,
    Src: Source<Item = S::From>,
    C: Cancel + Drop,
    L: Positional<From = S::To> + Drop,
{
    /// The aggregate of what is left, in the order of the source (.NET's `Aggregate`). It is folded on this thread.
    ///
    /// # Errors
    ///
    /// As [`Query::aggregate`]; [`QueryFault::Ended`] if the source refused while more could be made.
    pub fn aggregate<A, R>(self, rt: &R, alloc: Global, aggregator: A) -> Result<A::Out, QueryFault>
    where
        A: GrowingAggregator<Item = L::To>,
        A::Out: Drop,
        R: Clock + Threads + Wait + Sync,
        requires fresh { Src.given self.query.source ≡ 0 }
        requires is_called { S.is_called self.query.steps }
        requires in_one_way { S.in_one_way self.query.steps }
        requires gives { S.gives self.query.steps }
        requires gives_one { S.gives_one self.query.steps }
        requires then_called { (l : L) → L.is_called l }
        requires then_in_one_way { (l : L) → L.in_one_way l }
        requires then_gives_one { (l : L) → L.gives_one l }
        ensures degree { is_degree self.query.by.degree ≡ false → result ≡ Err Degree }
        ensures asked { AskedFor (WasLetBy C.asks self.query.by.token) result }
        ensures growth { (fault : GrowthFault) → is_degree self.query.by.degree ≡ true → CantGrow self.query.by.growth fault
            → result ≡ Err (GrowthRefused fault) }
        ensures value { (f : S.From → Option S.To) → ((x : S.From) → S.makes self.query.steps x (f x)) → (g : List S.To → List L.To)
            (d : List S.To → Bool) → L.means self.then g d → MatchResult result
            (λ out. (out ≡ aggregate_value (A.folding aggregator) (left_of f g (Src.whole self.query.source)))
            × EndsUnless (decided_by f d (Src.whole self.query.source)) (Src.whole self.query.source))
            (SearchFails (decided_by f d (Src.whole self.query.source) ≡ false)
            (WasStoppedBy C.asks self.query.by.token) self.query.by.degree self.query.by.growth (Src.whole self.query.source)) }
    {
        let Merged { query, then } = self;
        let acc = aggregator.seed(alloc);
        let mut passed = Passed {
            later: then,
            to: Folded {
                alloc,
                by: aggregator,
                acc: Some(acc),
            },
            over: false,
        };
        let outcome = pass_by_threads::<Src, S, L, Folds<A>, C, R>(
            query.source,
            query.steps,
            query.by,
            rt,
            alloc,
            &mut passed,
        );
        let Passed { to, .. } = passed;
        told_folded(to, outcome)
    }

    /// All that is left, in the order of the source (.NET's `ToList`).
    ///
    /// # Errors
    ///
    /// As [`Merged::aggregate`].
    pub fn to_vec<R>(self, rt: &R, alloc: Global) -> Result<Vec<L::To>, QueryFault>
    where
        L::To: Send + Sync,
        R: Clock + Threads + Wait + Sync,
        requires fresh { Src.given self.query.source ≡ 0 }
        requires is_called { S.is_called self.query.steps }
        requires in_one_way { S.in_one_way self.query.steps }
        requires gives { S.gives self.query.steps }
        requires gives_one { S.gives_one self.query.steps }
        requires then_called { (l : L) → L.is_called l }
        requires then_in_one_way { (l : L) → L.in_one_way l }
        requires then_gives_one { (l : L) → L.gives_one l }
        ensures degree { is_degree self.query.by.degree ≡ false → result ≡ Err Degree }
        ensures asked { AskedFor (WasLetBy C.asks self.query.by.token) result }
        ensures growth { (fault : GrowthFault) → is_degree self.query.by.degree ≡ true → CantGrow self.query.by.growth fault
            → result ≡ Err (GrowthRefused fault) }
        ensures value { (f : S.From → Option S.To) → ((x : S.From) → S.makes self.query.steps x (f x)) → (g : List S.To → List L.To)
            (d : List S.To → Bool) → L.means self.then g d → MatchResult result
            (λ list. (list.items ≡ left_of f g (Src.whole self.query.source))
            × EndsUnless (decided_by f d (Src.whole self.query.source)) (Src.whole self.query.source))
            (SearchFails (decided_by f d (Src.whole self.query.source) ≡ false)
            (WasStoppedBy C.asks self.query.by.token) self.query.by.degree self.query.by.growth (Src.whole self.query.source)) }
    {
        match self.aggregate(rt, alloc, Collect::new()) {
            Ok(list) => Ok(list.into_vec()),
            Err(fault) => Err(fault),
        }
    }

    /// How many items are left (.NET's `Count`). None is held.
    ///
    /// # Errors
    ///
    /// As [`Merged::aggregate`].
    pub fn count<R>(self, rt: &R, alloc: Global) -> Result<u64, QueryFault>
    where
        L::To: Sync,
        R: Clock + Threads + Wait + Sync,
        requires fresh { Src.given self.query.source ≡ 0 }
        requires is_called { S.is_called self.query.steps }
        requires in_one_way { S.in_one_way self.query.steps }
        requires gives { S.gives self.query.steps }
        requires gives_one { S.gives_one self.query.steps }
        requires then_called { (l : L) → L.is_called l }
        requires then_in_one_way { (l : L) → L.in_one_way l }
        requires then_gives_one { (l : L) → L.gives_one l }
        ensures degree { is_degree self.query.by.degree ≡ false → result ≡ Err Degree }
        ensures asked { AskedFor (WasLetBy C.asks self.query.by.token) result }
        ensures growth { (fault : GrowthFault) → is_degree self.query.by.degree ≡ true → CantGrow self.query.by.growth fault
            → result ≡ Err (GrowthRefused fault) }
        ensures value { (f : S.From → Option S.To) → ((x : S.From) → S.makes self.query.steps x (f x)) → (g : List S.To → List L.To)
            (d : List S.To → Bool) → L.means self.then g d → MatchResult result
            (λ n. (n ≡ length (left_of f g (Src.whole self.query.source)))
            × EndsUnless (decided_by f d (Src.whole self.query.source)) (Src.whole self.query.source))
            (SearchFails (decided_by f d (Src.whole self.query.source) ≡ false)
            (WasStoppedBy C.asks self.query.by.token) self.query.by.degree self.query.by.growth (Src.whole self.query.source)) }
    {
        has_few(&self.query.source);
        self.aggregate(rt, alloc, CountOf(PhantomData))
    }

    /// The first item that is left, if there is one (.NET's `FirstOrDefault`). The source is left once it is known.
    ///
    /// # Errors
    ///
    /// As [`Query::first`].
    pub fn first<R>(self, rt: &R, alloc: Global) -> Result<Option<L::To>, QueryFault>
    where
        R: Clock + Threads + Wait + Sync,
        requires fresh { Src.given self.query.source ≡ 0 }
        requires is_called { S.is_called self.query.steps }
        requires in_one_way { S.in_one_way self.query.steps }
        requires gives { S.gives self.query.steps }
        requires gives_one { S.gives_one self.query.steps }
        requires then_called { (l : L) → L.is_called l }
        requires then_in_one_way { (l : L) → L.in_one_way l }
        requires then_gives_one { (l : L) → L.gives_one l }
        ensures degree { is_degree self.query.by.degree ≡ false → result ≡ Err Degree }
        ensures asked { AskedFor (WasLetBy C.asks self.query.by.token) result }
        ensures growth { (fault : GrowthFault) → is_degree self.query.by.degree ≡ true → CantGrow self.query.by.growth fault
            → result ≡ Err (GrowthRefused fault) }
        ensures value { (f : S.From → Option S.To) → ((x : S.From) → S.makes self.query.steps x (f x)) → (g : List S.To → List L.To)
            (d : List S.To → Bool) → L.means self.then g d → MatchResult result
            (λ o. (o ≡ first_of (left_of f g (Src.whole self.query.source))) × (o ≡ None
            → EndsUnless (decided_by f d (Src.whole self.query.source)) (Src.whole self.query.source)))
            (SearchFails ((first_of (left_of f g (Src.whole self.query.source)) ≡ None) × (decided_by f d (Src.whole self.query.source) ≡ false))
            (WasStoppedBy C.asks self.query.by.token) self.query.by.degree self.query.by.growth (Src.whole self.query.source)) }
    {
        let Merged { query, then } = self;
        let mut passed = Passed {
            later: then,
            to: KeepFirst { item: None },
            over: false,
        };
        let outcome = pass_by_threads::<Src, S, L, First<L::To>, C, R>(
            query.source,
            query.steps,
            query.by,
            rt,
            alloc,
            &mut passed,
        );
        told_first(passed.to.item, outcome)
    }
}

impl<Src, S, L, K, V, C> Merged<Src, S, ByThreads<C>, L>
where
    S: Steps<From: Send + Sync, To: Send + Sync> + Sync + Drop,
    Src: Source<Item = S::From>,
    C: Cancel + Drop,
    L: Positional<From = S::To, To = (K, V)> + Drop,
    L::To: Send + Sync,
    K: Eq + Hash + Copy + Send + Sync,
    V: Copy + Send + Sync,
{
    /// The groups of pairs with equal keys that are left, in the order in which their keys came first (.NET's `GroupBy`). Of each
    /// key the values are folded by an aggregator, in their order.
    ///
    /// # Errors
    ///
    /// As [`Merged::aggregate`].
    pub fn group_by<A, R>(
        self,
        rt: &R,
        alloc: Global,
        each: A,
    ) -> Result<Groups<K, A::Acc>, QueryFault>
    where
        A: GrowingAggregator<Item = V>,
        R: Clock + Threads + Wait + Sync,
        requires fresh { Src.given self.query.source ≡ 0 }
        requires is_called { S.is_called self.query.steps }
        requires in_one_way { S.in_one_way self.query.steps }
        requires gives { S.gives self.query.steps }
        requires gives_one { S.gives_one self.query.steps }
        requires then_called { (l : L) → L.is_called l }
        requires then_in_one_way { (l : L) → L.in_one_way l }
        requires then_gives_one { (l : L) → L.gives_one l }
        ensures degree { is_degree self.query.by.degree ≡ false → result ≡ Err Degree }
        ensures asked { AskedFor (WasLetBy C.asks self.query.by.token) result }
        ensures growth { (fault : GrowthFault) → is_degree self.query.by.degree ≡ true → CantGrow self.query.by.growth fault
            → result ≡ Err (GrowthRefused fault) }
        ensures value { (f : S.From → Option S.To) → ((x : S.From) → S.makes self.query.steps x (f x)) → (g : List S.To → List (K × V))
            (d : List S.To → Bool) → L.means self.then g d → MatchResult result
            (λ groups. (groups ≡ fold_of (grouping K.eq (λ p. p.0) (of_field (λ p. p.1) (A.folding each))) (left_of f g (Src.whole self.query.source)))
            × EndsUnless (decided_by f d (Src.whole self.query.source)) (Src.whole self.query.source))
            (SearchFails (decided_by f d (Src.whole self.query.source) ≡ false)
            (WasStoppedBy C.asks self.query.by.token) self.query.by.degree self.query.by.growth (Src.whole self.query.source)) }
    {
        self.aggregate(
            rt,
            alloc,
            GroupBy {
                key: FirstOf::new(),
                each: By {
                    field: SecondOf::new(),
                    each,
                },
            },
        )
    }
}
