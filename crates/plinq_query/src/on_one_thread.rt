//! The calls that run a query on the caller's thread.
ghost use Rattle.std.specs.Prelude.{◌≡◌, length, Option, Some, MatchResult};
ghost use Rattle.std.specs.List.{filter_map};
ghost use Rattle.plinq_source.specs.declared.ending.Ending.TheVariants.{End};
ghost use Rattle.plinq_aggregate.specs.Folding.{aggregate_value, fold_of};
ghost use Rattle.plinq_groups.specs.Groups.{grouping};
ghost use Rattle.plinq_groups.specs.Others.{of_field};
ghost use Rattle.plinq_passing.specs.Told.{HasNoneAlone};

use crate::count_of::{CountOf, has_few};
use crate::pairs::{FirstOf, SecondOf};
use crate::query::{OneThread, Query};
use plinq_aggregate::GrowingAggregator;
use plinq_groups::{By, Collect, GroupBy, Groups};
use plinq_passing::{QueryFault, aggregate_steps_alone};
use plinq_source::Source;
use plinq_steps::Steps;
use std::alloc::Global;
use std::hash::Hash;
use std::marker::PhantomData;

impl<Src, S> Query<Src, S, OneThread>
where
    S: Steps<To: Send + Sync> + Sync + Drop,
    Src: Source<Item = S::From>,
{
    /// The aggregate of what the steps make of the source's items, in their order (.NET's `Aggregate`, Rust's `fold`). No more
    /// than a block of items is held beside the accumulator.
    ///
    /// # Errors
    ///
    /// [`QueryFault::Ended`] if the source refused, [`QueryFault::Run`] if memory ran out.
    pub fn aggregate<A>(self, alloc: Global, aggregator: A) -> Result<A::Out, QueryFault>
    where
        A: GrowingAggregator<Item = S::To>,
        A::Out: Drop,
        requires fresh { Src.given self.source ≡ 0 }
        requires is_called { S.is_called self.steps }
        requires in_one_way { S.in_one_way self.steps }
        requires gives { S.gives self.steps }
        requires gives_one { S.gives_one self.steps }
        ensures value { (f : S.From → Option S.To) → ((x : S.From) → S.makes self.steps x (f x)) → MatchResult result
            (λ out. (out ≡ aggregate_value (A.folding aggregator) (filter_map f (Src.whole self.source).items))
            × ((Src.whole self.source).ending ≡ Some End))
            (HasNoneAlone (Src.whole self.source)) }
    {
        let Query { source, steps, .. } = self;
        aggregate_steps_alone(source, steps, alloc, aggregator)
    }

    /// All that the steps make, in the order of the source (.NET's `ToList`, Rust's `collect`).
    ///
    /// # Errors
    ///
    /// As [`Query::aggregate`].
    pub fn to_vec(self, alloc: Global) -> Result<Vec<S::To>, QueryFault>
        requires fresh { Src.given self.source ≡ 0 }
        requires is_called { S.is_called self.steps }
        requires in_one_way { S.in_one_way self.steps }
        requires gives { S.gives self.steps }
        requires gives_one { S.gives_one self.steps }
        ensures value { (f : S.From → Option S.To) → ((x : S.From) → S.makes self.steps x (f x)) → MatchResult result
            (λ list. (list.items ≡ filter_map f (Src.whole self.source).items) × ((Src.whole self.source).ending ≡ Some End))
            (HasNoneAlone (Src.whole self.source)) }
    {
        match self.aggregate(alloc, Collect::new()) {
            Ok(list) => Ok(list.into_vec()),
            Err(fault) => Err(fault),
        }
    }

    /// How many items the steps make (.NET's `Count`, Rust's `count`). None is held.
    ///
    /// # Errors
    ///
    /// As [`Query::aggregate`].
    pub fn count(self, alloc: Global) -> Result<u64, QueryFault>
        requires fresh { Src.given self.source ≡ 0 }
        requires is_called { S.is_called self.steps }
        requires in_one_way { S.in_one_way self.steps }
        requires gives { S.gives self.steps }
        requires gives_one { S.gives_one self.steps }
        ensures value { (f : S.From → Option S.To) → ((x : S.From) → S.makes self.steps x (f x)) → MatchResult result
            (λ n. (n ≡ length (filter_map f (Src.whole self.source).items)) × ((Src.whole self.source).ending ≡ Some End))
            (HasNoneAlone (Src.whole self.source)) }
    {
        has_few(&self.source);
        self.aggregate(alloc, CountOf(PhantomData))
    }
}

impl<Src, S, K, V> Query<Src, S, OneThread>
where
    S: Steps<To = (K, V)> + Sync + Drop,
    S::To: Send + Sync,
    Src: Source<Item = S::From>,
    K: Eq + Hash + Copy + Send + Sync,
    V: Copy + Send + Sync,
{
    /// The groups of pairs with equal keys, in the order in which their keys came first (.NET's `GroupBy`). Of each key the
    /// values are folded by an aggregator, in their order.
    ///
    /// # Errors
    ///
    /// As [`Query::aggregate`].
    pub fn group_by<A>(self, alloc: Global, each: A) -> Result<Groups<K, A::Acc>, QueryFault>
    where
        A: GrowingAggregator<Item = V>,
        requires fresh { Src.given self.source ≡ 0 }
        requires is_called { S.is_called self.steps }
        requires in_one_way { S.in_one_way self.steps }
        requires gives { S.gives self.steps }
        requires gives_one { S.gives_one self.steps }
        ensures value { (f : S.From → Option (K × V)) → ((x : S.From) → S.makes self.steps x (f x)) → MatchResult result
            (λ groups. (groups ≡ fold_of (grouping K.eq (λ p. p.0) (of_field (λ p. p.1) (A.folding each)))
            (filter_map f (Src.whole self.source).items)) × ((Src.whole self.source).ending ≡ Some End))
            (HasNoneAlone (Src.whole self.source)) }
    {
        self.aggregate(
            alloc,
            GroupBy {
                key: FirstOf::new(),
                each: By {
                    field: SecondOf::new(),
                    each,
                },
            },
        )
    }
}
