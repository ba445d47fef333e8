//! The calls that run a query with steps by position on the caller's thread.
ghost use Rattle.std.specs.Prelude.{◌≡◌, length, List, Bool, Option, Some, None, false, IfErr, MatchResult};
ghost use Rattle.plinq_aggregate.specs.Folding.{aggregate_value, fold_of};
ghost use Rattle.plinq_groups.specs.Groups.{grouping};
ghost use Rattle.plinq_groups.specs.Others.{of_field};
ghost use Rattle.plinq_collect.specs.ItemFoldings.{first_of};
ghost use Rattle.plinq_passing.specs.Ran.{SearchFails, HasEnded, FailsAlone, EndsUnless, decided_by, left_of};

use crate::count_of::{CountOf, has_few};
use crate::merged::Merged;
use crate::pairs::{FirstOf, SecondOf};
use crate::query::OneThread;
use plinq_aggregate::GrowingAggregator;
use plinq_groups::{By, Collect, GroupBy, Groups};
use plinq_passing::{
    First, Folded, Folds, KeepFirst, Passed, QueryFault, pass_alone, told_first, told_folded,
};
use plinq_source::Source;
use plinq_steps::{Positional, Steps};
use std::alloc::Global;
use std::hash::Hash;
use std::marker::PhantomData;

impl<Src, S, L> Merged<Src, S, OneThread, L>
where
    S: Steps + Drop,
    Src: Source<Item = S::From>,
    L: Positional<From = S::To> + Drop,
{
    /// The aggregate of what is left, in the order of the source (.NET's `Aggregate`). It is folded on this thread.
    ///
    /// # Errors
    ///
    /// [`QueryFault::Ended`] if the source refused while more could be made, [`QueryFault::Run`] if memory ran out.
    pub fn aggregate<A>(self, alloc: Global, aggregator: A) -> Result<A::Out, QueryFault>
    where
        A: GrowingAggregator<Item = L::To>,
        A::Out: Drop,
        requires fresh { Src.given self.query.source ≡ 0 }
        requires is_called { S.is_called self.query.steps }
        requires in_one_way { S.in_one_way self.query.steps }
        requires gives { S.gives self.query.steps }
        requires gives_one { S.gives_one self.query.steps }
        requires then_called { (l : L) → L.is_called l }
        requires then_gives_one { (l : L) → L.gives_one l }
        ensures value { (f : S.From → Option S.To) → ((x : S.From) → S.makes self.query.steps x (f x)) → (g : List S.To → List L.To)
            (d : List S.To → Bool) → L.means self.then g d → MatchResult result
            (λ out. (out ≡ aggregate_value (A.folding aggregator) (left_of f g (Src.whole self.query.source)))
            × EndsUnless (decided_by f d (Src.whole self.query.source)) (Src.whole self.query.source))
            (FailsAlone (decided_by f d (Src.whole self.query.source) ≡ false) (Src.whole self.query.source)) }
    {
        let Merged { query, then } = self;
        let acc = aggregator.seed(alloc);
        let mut passed = Passed {
            later: then,
            to: Folded {
                alloc,
                by: aggregator,
                acc: Some(acc),
            },
            over: false,
        };
        let outcome = pass_alone::<Src, S, L, Folds<A>>(query.source, query.steps, &mut passed);
        let Passed { to, .. } = passed;
        told_folded(to, outcome)
    }

    /// All that is left, in the order of the source (.NET's `ToList`).
    ///
    /// # Errors
    ///
    /// As [`Merged::aggregate`].
    pub fn to_vec(self, alloc: Global) -> Result<Vec<L::To>, QueryFault>
    where
        L::To: Send + Sync,
        requires fresh { Src.given self.query.source ≡ 0 }
        requires is_called { S.is_called self.query.steps }
        requires in_one_way { S.in_one_way self.query.steps }
        requires gives { S.gives self.query.steps }
        requires gives_one { S.gives_one self.query.steps }
        requires then_called { (l : L) → L.is_called l }
        requires then_gives_one { (l : L) → L.gives_one l }
        ensures value { (f : S.From → Option S.To) → ((x : S.From) → S.makes self.query.steps x (f x)) → (g : List S.To → List L.To)
            (d : List S.To → Bool) → L.means self.then g d → MatchResult result
            (λ list. (list.items ≡ left_of f g (Src.whole self.query.source))
            × EndsUnless (decided_by f d (Src.whole self.query.source)) (Src.whole self.query.source))
            (FailsAlone (decided_by f d (Src.whole self.query.source) ≡ false) (Src.whole self.query.source)) }
    {
        match self.aggregate(alloc, Collect::new()) {
            Ok(list) => Ok(list.into_vec()),
            Err(fault) => Err(fault),
        }
    }

    /// How many items are left (.NET's `Count`). None is held.
    ///
    /// # Errors
    ///
    /// As [`Merged::aggregate`].
    pub fn count(self, alloc: Global) -> Result<u64, QueryFault>
    where
        L::To: Sync,
        requires fresh { Src.given self.query.source ≡ 0 }
        requires is_called { S.is_called self.query.steps }
        requires in_one_way { S.in_one_way self.query.steps }
        requires gives { S.gives self.query.steps }
        requires gives_one { S.gives_one self.query.steps }
        requires then_called { (l : L) → L.is_called l }
        requires then_gives_one { (l : L) → L.gives_one l }
        ensures value { (f : S.From → Option S.To) → ((x : S.From) → S.makes self.query.steps x (f x)) → (g : List S.To → List L.To)
            (d : List S.To → Bool) → L.means self.then g d → MatchResult result
            (λ n. (n ≡ length (left_of f g (Src.whole self.query.source)))
            × EndsUnless (decided_by f d (Src.whole self.query.source)) (Src.whole self.query.source))
            (FailsAlone (decided_by f d (Src.whole self.query.source) ≡ false) (Src.whole self.query.source)) }
    {
        has_few(&self.query.source);
        self.aggregate(alloc, CountOf(PhantomData))
    }

    /// The first item that is left, if there is one (.NET's `FirstOrDefault`). The source is left once it is known.
    ///
    /// # Errors
    ///
    /// As [`Query::first`].
    pub fn first(self) -> Result<Option<L::To>, QueryFault>
        requires fresh { Src.given self.query.source ≡ 0 }
        requires is_called { S.is_called self.query.steps }
        requires in_one_way { S.in_one_way self.query.steps }
        requires gives { S.gives self.query.steps }
        requires gives_one { S.gives_one self.query.steps }
        requires then_called { (l : L) → L.is_called l }
        requires then_gives_one { (l : L) → L.gives_one l }
        ensures value { (f : S.From → Option S.To) → ((x : S.From) → S.makes self.query.steps x (f x)) → (g : List S.To → List L.To)
            (d : List S.To → Bool) → L.means self.then g d → MatchResult result
            (λ o. (o ≡ first_of (left_of f g (Src.whole self.query.source))) × (o ≡ None
            → EndsUnless (decided_by f d (Src.whole self.query.source)) (Src.whole self.query.source)))
            (SearchFails ((first_of (left_of f g (Src.whole self.query.source)) ≡ None) × (decided_by f d (Src.whole self.query.source) ≡ false))
            ⊥ 1 None (Src.whole self.query.source)) }
        ensures alone { IfErr result HasEnded }
    {
        let Merged { query, then } = self;
        let mut passed = Passed {
            later: then,
            to: KeepFirst { item: None },
            over: false,
        };
        let outcome = pass_alone::<Src, S, L, First<L::To>>(query.source, query.steps, &mut passed);
        told_first(passed.to.item, outcome)
    }
}

impl<Src, S, L, K, V> Merged<Src, S, OneThread, L>
where
    S: Steps + Drop,
    Src: Source<Item = S::From>,
    L: Positional<From = S::To, To = (K, V)> + Drop,
    L::To: Send + Sync,
    K: Eq + Hash + Copy + Send + Sync,
    V: Copy + Send + Sync,
{
    /// The groups of pairs with equal keys that are left, in the order in which their keys came first (.NET's `GroupBy`). Of each
    /// key the values are folded by an aggregator, in their order.
    ///
    /// # Errors
    ///
    /// As [`Merged::aggregate`].
    pub fn group_by<A>(self, alloc: Global, each: A) -> Result<Groups<K, A::Acc>, QueryFault>
    where
        A: GrowingAggregator<Item = V>,
        requires fresh { Src.given self.query.source ≡ 0 }
        requires is_called { S.is_called self.query.steps }
        requires in_one_way { S.in_one_way self.query.steps }
        requires gives { S.gives self.query.steps }
        requires gives_one { S.gives_one self.query.steps }
        requires then_called { (l : L) → L.is_called l }
        requires then_gives_one { (l : L) → L.gives_one l }
        ensures value { (f : S.From → Option S.To) → ((x : S.From) → S.makes self.query.steps x (f x)) → (g : List S.To → List (K × V))
            (d : List S.To → Bool) → L.means self.then g d → MatchResult result
            (λ groups. (groups ≡ fold_of (grouping K.eq (λ p. p.0) (of_field (λ p. p.1) (A.folding each))) (left_of f g (Src.whole self.query.source)))
            × EndsUnless (decided_by f d (Src.whole self.query.source)) (Src.whole self.query.source))
            (FailsAlone (decided_by f d (Src.whole self.query.source) ≡ false) (Src.whole self.query.source)) }
    {
        self.aggregate(
            alloc,
            GroupBy {
                key: FirstOf::new(),
                each: By {
                    field: SecondOf::new(),
                    each,
                },
            },
        )
    }
}
