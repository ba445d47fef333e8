//! The calls that return what is greatest of what is made.
ghost use Rattle.std.specs.Prelude.{◌≡◌, take, List, Bool, Option, Some, false, Err, MatchResult, true};
ghost use Rattle.std.specs.List.{filter_map};
ghost use Rattle.plinq_source.specs.declared.ending.Ending.TheVariants.{End};
ghost use Rattle.plinq_groups.specs.Topped.{ranked_items};
ghost use Rattle.plinq_ops.specs.Query.{is_degree};
ghost use Rattle.plinq_passing.specs.declared.query_fault.QueryFault.TheVariants.{Degree, Growth as GrowthRefused};
ghost use Rattle.plinq_passing.specs.Ran.{SearchFails, FailsAlone, EndsUnless, decided_by, left_of};
ghost use Rattle.plinq_passing.specs.Told.{AskedFor, CantGrow, HasNone, HasNoneAlone};
ghost use Rattle.plinq_stopping.specs.Asking.{WasLetBy, WasStoppedBy};
ghost use Rattle.plinq_enumerator.specs.declared.growth_fault.GrowthFault.{GrowthFault};

use crate::merged::Merged;
use crate::pairs::FirstOf;
use crate::query::{OneThread, Query};
use plinq_groups::Top;
use plinq_merge::Cancel;
use plinq_passing::{ByThreads, QueryFault};
use plinq_source::Source;
use plinq_steps::{Positional, Steps};
use std::alloc::Global;
use std::sync::Wait;
use std::thread::Threads;
use std::time::Clock;

impl<Src, S, K, V, C> Query<Src, S, ByThreads<C>>
where
    S: Steps<From: Send + Sync, To = (K, V)> + Sync + Drop,
    S::To: Send + Sync,
    Src: Source<Item = S::From>,
    C: Cancel + Drop,
    K: Ord + Copy + Send + Sync,
    V: Copy + Send + Sync,
{
    /// Of pairs of a rank and a value those with the greatest ranks, so many, the greatest first; of equal ranks the earlier first
    /// (.NET's `OrderByDescending` and `Take`). No more are held. Each item is compared with those that are held.
    ///
    /// # Errors
    ///
    /// As [`Query::aggregate`].
    pub fn top<R>(self, rt: &R, alloc: Global, count: usize) -> Result<Vec<(K, V)>, QueryFault>
    where
        R: Clock + Threads + Wait + Sync,
        requires fresh { Src.given self.source ≡ 0 }
        requires is_called { S.is_called self.steps }
        requires in_one_way { S.in_one_way self.steps }
        requires gives { S.gives self.steps }
        requires gives_one { S.gives_one self.steps }
        ensures degree { is_degree self.by.degree ≡ false → result ≡ Err Degree }
        ensures asked { AskedFor (WasLetBy C.asks self.by.token) result }
        ensures growth { (fault : GrowthFault) → is_degree self.by.degree ≡ true → CantGrow self.by.growth fault → result ≡ Err (GrowthRefused fault) }
        ensures value { (f : S.From → Option (K × V)) → ((x : S.From) → S.makes self.steps x (f x)) → MatchResult result
            (λ list. (list.items ≡ take count (ranked_items (λ p. p.0) K.cmp (filter_map f (Src.whole self.source).items)))
            × ((Src.whole self.source).ending ≡ Some End))
            (HasNone (WasStoppedBy C.asks self.by.token) self.by.degree self.by.growth (Src.whole self.source)) }
    {
        let tops = Top {
            rank: FirstOf::new(),
            count,
        };
        match self.aggregate(rt, alloc, tops) {
            Ok(list) => Ok(list.into_vec()),
            Err(fault) => Err(fault),
        }
    }
}

impl<Src, S, K, V> Query<Src, S, OneThread>
where
    S: Steps<To = (K, V)> + Sync + Drop,
    S::To: Send + Sync,
    Src: Source<Item = S::From>,
    K: Ord + Copy + Send + Sync,
    V: Copy + Send + Sync,
{
    /// Of pairs of a rank and a value those with the greatest ranks, so many, the greatest first; of equal ranks the earlier first
    /// (.NET's `OrderByDescending` and `Take`). No more are held. Each item is compared with those that are held.
    ///
    /// # Errors
    ///
    /// As [`Query::aggregate`].
    pub fn top(self, alloc: Global, count: usize) -> Result<Vec<(K, V)>, QueryFault>
        requires fresh { Src.given self.source ≡ 0 }
        requires is_called { S.is_called self.steps }
        requires in_one_way { S.in_one_way self.steps }
        requires gives { S.gives self.steps }
        requires gives_one { S.gives_one self.steps }
        ensures value { (f : S.From → Option (K × V)) → ((x : S.From) → S.makes self.steps x (f x)) → MatchResult result
            (λ list. (list.items ≡ take count (ranked_items (λ p. p.0) K.cmp (filter_map f (Src.whole self.source).items)))
            × ((Src.whole self.source).ending ≡ Some End))
            (HasNoneAlone (Src.whole self.source)) }
    {
        let tops = Top {
            rank: FirstOf::new(),
            count,
        };
        match self.aggregate(alloc, tops) {
            Ok(list) => Ok(list.into_vec()),
            Err(fault) => Err(fault),
        }
    }
}

impl<Src, S, L, K, V, C> Merged<Src, S, ByThreads<C>, L>
where
    S: Steps<From: Send + Sync, To: Send + Sync> + Sync + Drop,
    Src: Source<Item = S::From>,
    C: Cancel + Drop,
    L: Positional<From = S::To, To = (K, V)> + Drop,
    L::To: Send + Sync,
    K: Ord + Copy + Send + Sync,
    V: Copy + Send + Sync,
{
    /// Of the pairs of a rank and a value that are left those with the greatest ranks, as [`Query::top`].
    ///
    /// # Errors
    ///
    /// As [`Merged::aggregate`].
    pub fn top<R>(self, rt: &R, alloc: Global, count: usize) -> Result<Vec<(K, V)>, QueryFault>
    where
        R: Clock + Threads + Wait + Sync,
        requires fresh { Src.given self.query.source ≡ 0 }
        requires is_called { S.is_called self.query.steps }
        requires in_one_way { S.in_one_way self.query.steps }
        requires gives { S.gives self.query.steps }
        requires gives_one { S.gives_one self.query.steps }
        requires then_called { (l : L) → L.is_called l }
        requires then_in_one_way { (l : L) → L.in_one_way l }
        requires then_gives_one { (l : L) → L.gives_one l }
        ensures degree { is_degree self.query.by.degree ≡ false → result ≡ Err Degree }
        ensures asked { AskedFor (WasLetBy C.asks self.query.by.token) result }
        ensures growth { (fault : GrowthFault) → is_degree self.query.by.degree ≡ true → CantGrow self.query.by.growth fault
            → result ≡ Err (GrowthRefused fault) }
        ensures value { (f : S.From → Option S.To) → ((x : S.From) → S.makes self.query.steps x (f x)) → (g : List S.To → List (K × V))
            (d : List S.To → Bool) → L.means self.then g d → MatchResult result
            (λ list. (list.items ≡ take count (ranked_items (λ p. p.0) K.cmp (left_of f g (Src.whole self.query.source))))
            × EndsUnless (decided_by f d (Src.whole self.query.source)) (Src.whole self.query.source))
            (SearchFails (decided_by f d (Src.whole self.query.source) ≡ false)
            (WasStoppedBy C.asks self.query.by.token) self.query.by.degree self.query.by.growth (Src.whole self.query.source)) }
    {
        let tops = Top {
            rank: FirstOf::new(),
            count,
        };
        match self.aggregate(rt, alloc, tops) {
            Ok(list) => Ok(list.into_vec()),
            Err(fault) => Err(fault),
        }
    }
}

impl<Src, S, L, K, V> Merged<Src, S, OneThread, L>
where
    S: Steps + Drop,
    Src: Source<Item = S::From>,
    L: Positional<From = S::To, To = (K, V)> + Drop,
    L::To: Send + Sync,
    K: Ord + Copy + Send + Sync,
    V: Copy + Send + Sync,
{
    /// Of the pairs of a rank and a value that are left those with the greatest ranks, as [`Query::top`].
    ///
    /// # Errors
    ///
    /// As [`Merged::aggregate`].
    pub fn top(self, alloc: Global, count: usize) -> Result<Vec<(K, V)>, QueryFault>
        requires fresh { Src.given self.query.source ≡ 0 }
        requires is_called { S.is_called self.query.steps }
        requires in_one_way { S.in_one_way self.query.steps }
        requires gives { S.gives self.query.steps }
        requires gives_one { S.gives_one self.query.steps }
        requires then_called { (l : L) → L.is_called l }
        requires then_gives_one { (l : L) → L.gives_one l }
        ensures value { (f : S.From → Option S.To) → ((x : S.From) → S.makes self.query.steps x (f x)) → (g : List S.To → List (K × V))
            (d : List S.To → Bool) → L.means self.then g d → MatchResult result
            (λ list. (list.items ≡ take count (ranked_items (λ p. p.0) K.cmp (left_of f g (Src.whole self.query.source))))
            × EndsUnless (decided_by f d (Src.whole self.query.source)) (Src.whole self.query.source))
            (FailsAlone (decided_by f d (Src.whole self.query.source) ≡ false) (Src.whole self.query.source)) }
    {
        let tops = Top {
            rank: FirstOf::new(),
            count,
        };
        match self.aggregate(alloc, tops) {
            Ok(list) => Ok(list.into_vec()),
            Err(fault) => Err(fault),
        }
    }
}
