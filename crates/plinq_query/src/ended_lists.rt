//! The calls that return a list of all that came, and how it ended.
ghost use Rattle.std.specs.Prelude.{◌≡◌, List, Bool, Option, Some, Err, false, MatchResult, true};
ghost use Rattle.std.specs.List.{filter_map};
ghost use Rattle.plinq_collect.specs.Telling.{items_of};
ghost use Rattle.plinq_ops.specs.Batches.{batches};
ghost use Rattle.plinq_ops.specs.Query.{is_degree};
ghost use Rattle.plinq_passing.specs.declared.query_fault.QueryFault.TheVariants.{Degree, Growth as GrowthRefused};
ghost use Rattle.plinq_passing.specs.Listed.{WasShort, WasShortAlone};
ghost use Rattle.plinq_passing.specs.Ran.{left_trace, steps_made};
ghost use Rattle.plinq_stopping.specs.Asking.{WasLetBy, WasStoppedBy};
ghost use Rattle.plinq_passing.specs.Told.{AskedFor, CantGrow};
ghost use Rattle.plinq_enumerator.specs.declared.growth_fault.GrowthFault.{GrowthFault};

use crate::merged::Merged;
use crate::query::{OneThread, Query};
use plinq_groups::Collect;
use plinq_merge::Cancel;
use plinq_passing::{
    ByThreads, Folds, QueryFault, call_alone, call_by_threads, call_left_alone,
    call_left_by_threads, empty_list, told_list,
};
use plinq_source::{Ending, Source};
use plinq_steps::{Positional, Steps};
use std::alloc::Global;
use std::sync::Wait;
use std::thread::Threads;
use std::time::Clock;

impl<Src, S, C> Query<Src, S, ByThreads<C>>
where
    S: Steps<From: Send + Sync, To: Send + Sync> + Sync + Drop,
    Src: Source<Item = S::From>,
    C: Cancel + Drop,
{
    /// All that the steps make before the source ends or refuses, in its order, and how it ended: a refusal withholds nothing, as it
    /// does in [`Query::to_vec`]. A fully buffered query has no item if it is refused.
    ///
    /// # Errors
    ///
    /// As [`Query::aggregate`], but for [`QueryFault::Ended`].
    ///
    /// ```text
    /// let (items, ending) = query.to_vec_and_ending(&rt, alloc)?;
    /// ```
    pub fn to_vec_and_ending<R>(
        self,
        rt: &R,
        alloc: Global,
    ) -> Result<(Vec<S::To>, Ending), QueryFault>
    where
        R: Clock + Threads + Wait + Sync,
        requires fresh { Src.given self.source ≡ 0 }
        requires is_called { S.is_called self.steps }
        requires in_one_way { S.in_one_way self.steps }
        requires gives { S.gives self.steps }
        requires gives_one { S.gives_one self.steps }
        ensures degree { is_degree self.by.degree ≡ false → result ≡ Err Degree }
        ensures asked { AskedFor (WasLetBy C.asks self.by.token) result }
        ensures growth { (fault : GrowthFault) → is_degree self.by.degree ≡ true → CantGrow self.by.growth fault → result ≡ Err (GrowthRefused fault) }
        ensures value { (f : S.From → Option S.To) → ((x : S.From) → S.makes self.steps x (f x)) → MatchResult result
            (λ it. (it.0.items ≡ items_of (batches self.by.merge (steps_made f (Src.whole self.source)))) × ((Src.whole self.source).ending ≡ Some it.1))
            (WasShort (WasStoppedBy C.asks self.by.token) self.by.degree self.by.growth) }
    {
        let Query {
            source,
            steps,
            by: settings,
        } = self;
        let mut list = empty_list(alloc);
        let outcome = call_by_threads::<Src, S, Folds<Collect<S::To>>, C, R>(
            source, steps, settings, rt, alloc, &mut list,
        );
        told_list(list, outcome)
    }
}

impl<Src, S> Query<Src, S, OneThread>
where
    S: Steps<To: Send + Sync> + Drop,
    Src: Source<Item = S::From>,
{
    /// All that the steps make before the source ends or refuses, in its order, and how it ended: a refusal withholds nothing, as it
    /// does in [`Query::to_vec`].
    ///
    /// # Errors
    ///
    /// [`QueryFault::Run`] if memory ran out.
    pub fn to_vec_and_ending(self, alloc: Global) -> Result<(Vec<S::To>, Ending), QueryFault>
        requires fresh { Src.given self.source ≡ 0 }
        requires is_called { S.is_called self.steps }
        requires in_one_way { S.in_one_way self.steps }
        requires gives { S.gives self.steps }
        requires gives_one { S.gives_one self.steps }
        ensures value { (f : S.From → Option S.To) → ((x : S.From) → S.makes self.steps x (f x)) → MatchResult result
            (λ it. (it.0.items ≡ filter_map f (Src.whole self.source).items) × ((Src.whole self.source).ending ≡ Some it.1))
            WasShortAlone }
    {
        let Query { source, steps, .. } = self;
        let mut list = empty_list(alloc);
        let outcome = call_alone::<Src, S, Folds<Collect<S::To>>>(source, steps, &mut list);
        told_list(list, outcome)
    }
}

impl<Src, S, L, C> Merged<Src, S, ByThreads<C>, L>
where
    S: Steps<From: Send + Sync, To: Send + Sync> + Sync + Drop,
    Src: Source<Item = S::From>,
    C: Cancel + Drop,
    L: Positional<From = S::To> + Drop,
    L::To: Send + Sync,
{
    /// All that is left before the source refuses, in its order, and how that ended: well if it was decided before. A fully buffered
    /// query has no item if it is refused.
    ///
    /// # Errors
    ///
    /// As [`Query::to_vec_and_ending`].
    pub fn to_vec_and_ending<R>(
        self,
        rt: &R,
        alloc: Global,
    ) -> Result<(Vec<L::To>, Ending), QueryFault>
    where
        R: Clock + Threads + Wait + Sync,
        requires fresh { Src.given self.query.source ≡ 0 }
        requires is_called { S.is_called self.query.steps }
        requires in_one_way { S.in_one_way self.query.steps }
        requires gives { S.gives self.query.steps }
        requires gives_one { S.gives_one self.query.steps }
        requires then_called { (l : L) → L.is_called l }
        requires then_in_one_way { (l : L) → L.in_one_way l }
        requires then_gives_one { (l : L) → L.gives_one l }
        ensures degree { is_degree self.query.by.degree ≡ false → result ≡ Err Degree }
        ensures asked { AskedFor (WasLetBy C.asks self.query.by.token) result }
        ensures growth { (fault : GrowthFault) → is_degree self.query.by.degree ≡ true → CantGrow self.query.by.growth fault
            → result ≡ Err (GrowthRefused fault) }
        ensures value { (f : S.From → Option S.To) → ((x : S.From) → S.makes self.query.steps x (f x)) → (g : List S.To → List L.To)
            (d : List S.To → Bool) → L.means self.then g d → MatchResult result
            (λ it. (it.0.items ≡ items_of (batches self.query.by.merge (left_trace f g d (Src.whole self.query.source))))
            × ((left_trace f g d (Src.whole self.query.source)).ending ≡ Some it.1))
            (WasShort (WasStoppedBy C.asks self.query.by.token) self.query.by.degree self.query.by.growth) }
    {
        let Merged { query, then } = self;
        let mut list = empty_list(alloc);
        let outcome = call_left_by_threads::<Src, S, L, Folds<Collect<L::To>>, C, R>(
            query.source,
            query.steps,
            then,
            query.by,
            rt,
            alloc,
            &mut list,
        );
        told_list(list, outcome)
    }
}

impl<Src, S, L> Merged<Src, S, OneThread, L>
where
    S: Steps + Drop,
    Src: Source<Item = S::From>,
    L: Positional<From = S::To> + Drop,
    L::To: Send + Sync,
{
    /// All that is left before the source refuses, in its order, and how that ended: well if it was decided before.
    ///
    /// # Errors
    ///
    /// [`QueryFault::Run`] if memory ran out.
    pub fn to_vec_and_ending(self, alloc: Global) -> Result<(Vec<L::To>, Ending), QueryFault>
        requires fresh { Src.given self.query.source ≡ 0 }
        requires is_called { S.is_called self.query.steps }
        requires in_one_way { S.in_one_way self.query.steps }
        requires gives { S.gives self.query.steps }
        requires gives_one { S.gives_one self.query.steps }
        requires then_called { (l : L) → L.is_called l }
        requires then_gives_one { (l : L) → L.gives_one l }
        ensures value { (f : S.From → Option S.To) → ((x : S.From) → S.makes self.query.steps x (f x)) → (g : List S.To → List L.To)
            (d : List S.To → Bool) → L.means self.then g d → MatchResult result
            (λ it. (it.0.items ≡ (left_trace f g d (Src.whole self.query.source)).items)
            × ((left_trace f g d (Src.whole self.query.source)).ending ≡ Some it.1))
            WasShortAlone }
    {
        let Merged { query, then } = self;
        let mut list = empty_list(alloc);
        let outcome = call_left_alone::<Src, S, L, Folds<Collect<L::To>>>(
            query.source,
            query.steps,
            then,
            &mut list,
        );
        told_list(list, outcome)
    }
}
