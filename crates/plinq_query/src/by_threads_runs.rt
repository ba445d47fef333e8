//! The calls that deliver what a query's steps make, or search it, by threads.
ghost use Rattle.std.specs.Prelude.{◌≡◌, drop, None, Some, Option, Bool, false, true, Err, MatchResult};
ghost use Rattle.std.specs.List.{filter_map, list_any, list_all};
ghost use Rattle.plinq_source.specs.declared.ending.Ending.TheVariants.{End};
ghost use Rattle.plinq_collect.specs.ItemFoldings.{first_of};
ghost use Rattle.plinq_ops.specs.Batches.{batches};
ghost use Rattle.plinq_ops.specs.Query.{is_degree};
ghost use Rattle.plinq_passing.specs.declared.query_fault.QueryFault.TheVariants.{Degree, Growth as GrowthRefused};
ghost use Rattle.plinq_passing.specs.Ran.{Ran, SearchFails, steps_made};
ghost use Rattle.plinq_stopping.specs.Asking.{WasLetBy, WasStoppedBy};
ghost use Rattle.plinq_passing.specs.Told.{AskedFor, CantGrow};
ghost use Rattle.plinq_enumerator.specs.declared.growth_fault.GrowthFault.{GrowthFault};

use crate::query::Query;
use plinq_merge::{Cancel, Sink};
use plinq_ops::MergeOption;
use plinq_passing::{
    ByThreads, KeepFirst, QueryFault, run_steps_into, told_first, told_found, told_not,
};
use plinq_source::Source;
use plinq_steps::{Equal, Steps};
use std::alloc::Global;
use std::sync::Wait;
use std::thread::Threads;
use std::time::Clock;

impl<Src, S, C> Query<Src, S, ByThreads<C>>
where
    S: Steps<From: Send + Sync, To: Send + Sync> + Sync + Drop,
    Src: Source<Item = S::From>,
    C: Cancel + Drop,
{
    /// Delivers what the steps make to a sink, in the order of the source and in batches as
    /// [`with_merge`](Query::with_merge) says. The sink is called on this thread while the workers go on.
    ///
    /// # Errors
    ///
    /// As [`Query::aggregate`]; [`RunFault::Sink`](plinq_run::RunFault::Sink) with the sink's code if it refuses a batch. What the
    /// sink has taken before are the first batches.
    pub fn run_into<K, R>(self, rt: &R, alloc: Global, sink: &mut K) -> Result<(), QueryFault>
    where
        K: Sink<Item = S::To>,
        R: Clock + Threads + Wait + Sync,
        requires fresh { Src.given self.source ≡ 0 }
        requires is_called { S.is_called self.steps }
        requires in_one_way { S.in_one_way self.steps }
        requires gives { S.gives self.steps }
        requires gives_one { S.gives_one self.steps }
        ensures degree { is_degree self.by.degree ≡ false → result ≡ Err Degree }
        ensures asked { AskedFor (WasLetBy C.asks self.by.token) result }
        ensures growth { (fault : GrowthFault) → is_degree self.by.degree ≡ true → CantGrow self.by.growth fault → result ≡ Err (GrowthRefused fault) }
        ensures ran { (f : S.From → Option S.To) → ((x : S.From) → S.makes self.steps x (f x)) → Ran K.accepts K.refuses
            (WasStoppedBy C.asks self.by.token) self.by.degree
            self.by.growth (batches self.by.merge (steps_made f (Src.whole self.source))) (Src.whole self.source).ending sink.old result sink.new }
    {
        let Query { source, steps, by } = self;
        run_steps_into(source, steps, by, rt, alloc, sink)
    }

    /// The first item that the steps make, if there is one (.NET's `FirstOrDefault`, rayon's `find_first`). The source is left once
    /// it is known, and no fault after it is met.
    ///
    /// # Errors
    ///
    /// As [`Query::aggregate`]; [`QueryFault::Ended`] if the source refused before any item was made.
    pub fn first<R>(self, rt: &R, alloc: Global) -> Result<Option<S::To>, QueryFault>
    where
        R: Clock + Threads + Wait + Sync,
        requires fresh { Src.given self.source ≡ 0 }
        requires is_called { S.is_called self.steps }
        requires in_one_way { S.in_one_way self.steps }
        requires gives { S.gives self.steps }
        requires gives_one { S.gives_one self.steps }
        ensures degree { is_degree self.by.degree ≡ false → result ≡ Err Degree }
        ensures asked { AskedFor (WasLetBy C.asks self.by.token) result }
        ensures growth { (fault : GrowthFault) → is_degree self.by.degree ≡ true → CantGrow self.by.growth fault → result ≡ Err (GrowthRefused fault) }
        ensures value { (f : S.From → Option S.To) → ((x : S.From) → S.makes self.steps x (f x)) → MatchResult result
            (λ o. (o ≡ first_of (filter_map f (Src.whole self.source).items)) × (o ≡ None → (Src.whole self.source).ending ≡ Some End))
            (SearchFails (first_of (filter_map f (Src.whole self.source).items) ≡ None)
            (WasStoppedBy C.asks self.by.token) self.by.degree self.by.growth (Src.whole self.source)) }
    {
        let mut keeps = KeepFirst { item: None };
        let outcome = self
            .with_merge(MergeOption::NotBuffered)
            .run_into(rt, alloc, &mut keeps);
        told_first(keeps.item, outcome)
    }

    /// The item that the steps make at a position, the first of them at 0, if there is one (.NET's `ElementAtOrDefault`, Rust's `nth`).
    /// The source is left once it is known.
    ///
    /// # Errors
    ///
    /// As [`Query::first`].
    pub fn element_at<R>(
        self,
        rt: &R,
        alloc: Global,
        position: u64,
    ) -> Result<Option<S::To>, QueryFault>
    where
        R: Clock + Threads + Wait + Sync,
        requires fresh { Src.given self.source ≡ 0 }
        requires is_called { S.is_called self.steps }
        requires in_one_way { S.in_one_way self.steps }
        requires gives { S.gives self.steps }
        requires gives_one { S.gives_one self.steps }
        ensures degree { is_degree self.by.degree ≡ false → result ≡ Err Degree }
        ensures asked { AskedFor (WasLetBy C.asks self.by.token) result }
        ensures growth { (fault : GrowthFault) → is_degree self.by.degree ≡ true → CantGrow self.by.growth fault → result ≡ Err (GrowthRefused fault) }
        ensures value { (f : S.From → Option S.To) → ((x : S.From) → S.makes self.steps x (f x)) → MatchResult result
            (λ o. (o ≡ first_of (drop position (filter_map f (Src.whole self.source).items))) × (o ≡ None → (Src.whole self.source).ending ≡ Some End))
            (SearchFails (first_of (drop position (filter_map f (Src.whole self.source).items)) ≡ None)
            (WasStoppedBy C.asks self.by.token) self.by.degree self.by.growth (Src.whole self.source)) }
    {
        self.skip(position).first(rt, alloc)
    }

    /// Whether the steps make this item (.NET's `Contains`). The source is left once it is found.
    ///
    /// # Errors
    ///
    /// As [`Query::first`].
    pub fn contains<R>(self, rt: &R, alloc: Global, item: S::To) -> Result<bool, QueryFault>
    where
        S::To: PartialEq,
        R: Clock + Threads + Wait + Sync,
        requires fresh { Src.given self.source ≡ 0 }
        requires is_called { S.is_called self.steps }
        requires in_one_way { S.in_one_way self.steps }
        requires gives { S.gives self.steps }
        requires gives_one { S.gives_one self.steps }
        ensures degree { is_degree self.by.degree ≡ false → result ≡ Err Degree }
        ensures asked { AskedFor (WasLetBy C.asks self.by.token) result }
        ensures growth { (fault : GrowthFault) → is_degree self.by.degree ≡ true → CantGrow self.by.growth fault → result ≡ Err (GrowthRefused fault) }
        ensures value { (f : S.From → Option S.To) → ((x : S.From) → S.makes self.steps x (f x)) → MatchResult result
            (λ is. (is ≡ list_any (λ y. S.To.eq y item) (filter_map f (Src.whole self.source).items))
            × (is ≡ false → (Src.whole self.source).ending ≡ Some End))
            (SearchFails (list_any (λ y. S.To.eq y item) (filter_map f (Src.whole self.source).items) ≡ false)
            (WasStoppedBy C.asks self.by.token) self.by.degree self.by.growth (Src.whole self.source)) }
    {
        let Query { source, steps, by } = self;
        let equal = Query {
            source,
            steps: Equal {
                before: steps,
                to: item,
            },
            by,
        };
        told_found(equal.first(rt, alloc))
    }

    /// Whether some item that the steps make passes (.NET's and rayon's `Any`). The source is left once one has.
    ///
    /// # Errors
    ///
    /// As [`Query::first`].
    pub fn any<F, R>(self, rt: &R, alloc: Global, by: F) -> Result<bool, QueryFault>
    where
        F: Fn(S::To) -> bool + Sync + Drop,
        R: Clock + Threads + Wait + Sync,
        requires fresh { Src.given self.source ≡ 0 }
        requires is_called { ((y : S.To) → F.pre by y) × S.is_called self.steps }
        requires in_one_way { ((y : S.To) (a b : F.pre by y) → a ≡ b) × S.in_one_way self.steps }
        requires gives { ((y : S.To) → (r : Bool) × F.post by y r) × S.gives self.steps }
        requires gives_one { ((y : S.To) (r q : Bool) → F.post by y r → F.post by y q → q ≡ r) × S.gives_one self.steps }
        ensures degree { is_degree self.by.degree ≡ false → result ≡ Err Degree }
        ensures asked { AskedFor (WasLetBy C.asks self.by.token) result }
        ensures growth { (fault : GrowthFault) → is_degree self.by.degree ≡ true → CantGrow self.by.growth fault → result ≡ Err (GrowthRefused fault) }
        ensures value { (f : S.From → Option S.To) → ((x : S.From) → S.makes self.steps x (f x)) → (p : S.To → Bool) → ((y : S.To) → F.post by y (p y))
            → MatchResult result
            (λ is. (is ≡ list_any p (filter_map f (Src.whole self.source).items)) × (is ≡ false → (Src.whole self.source).ending ≡ Some End))
            (SearchFails (list_any p (filter_map f (Src.whole self.source).items) ≡ false)
            (WasStoppedBy C.asks self.by.token) self.by.degree self.by.growth (Src.whole self.source)) }
    {
        self.select(by).contains(rt, alloc, true)
    }

    /// Whether every item that the steps make passes (.NET's and rayon's `All`); of no items it is true. The source is left once
    /// one has failed.
    ///
    /// # Errors
    ///
    /// As [`Query::first`].
    pub fn all<F, R>(self, rt: &R, alloc: Global, by: F) -> Result<bool, QueryFault>
    where
        F: Fn(S::To) -> bool + Sync + Drop,
        R: Clock + Threads + Wait + Sync,
        requires fresh { Src.given self.source ≡ 0 }
        requires is_called { ((y : S.To) → F.pre by y) × S.is_called self.steps }
        requires in_one_way { ((y : S.To) (a b : F.pre by y) → a ≡ b) × S.in_one_way self.steps }
        requires gives { ((y : S.To) → (r : Bool) × F.post by y r) × S.gives self.steps }
        requires gives_one { ((y : S.To) (r q : Bool) → F.post by y r → F.post by y q → q ≡ r) × S.gives_one self.steps }
        ensures degree { is_degree self.by.degree ≡ false → result ≡ Err Degree }
        ensures asked { AskedFor (WasLetBy C.asks self.by.token) result }
        ensures growth { (fault : GrowthFault) → is_degree self.by.degree ≡ true → CantGrow self.by.growth fault → result ≡ Err (GrowthRefused fault) }
        ensures value { (f : S.From → Option S.To) → ((x : S.From) → S.makes self.steps x (f x)) → (p : S.To → Bool) → ((y : S.To) → F.post by y (p y))
            → MatchResult result
            (λ is. (is ≡ list_all p (filter_map f (Src.whole self.source).items)) × (is ≡ true → (Src.whole self.source).ending ≡ Some End))
            (SearchFails (list_all p (filter_map f (Src.whole self.source).items) ≡ true)
            (WasStoppedBy C.asks self.by.token) self.by.degree self.by.growth (Src.whole self.source)) }
    {
        told_not(self.select(by).contains(rt, alloc, false))
    }
}
