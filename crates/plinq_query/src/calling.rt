//! The calls of a closure with what a query makes.
ghost use Rattle.std.specs.Prelude.{◌≡◌, ℕ, Option, Ok, Err, IfErr, None, false, true};
ghost use Rattle.std.specs.List.{filter_map};
ghost use Rattle.plinq_collect.specs.Telling.{items_of};
ghost use Rattle.plinq_ops.specs.Batches.{batches};
ghost use Rattle.plinq_ops.specs.Query.{is_degree};
ghost use Rattle.plinq_passing.specs.declared.query_fault.QueryFault.TheVariants.{Degree, Growth as GrowthRefused};
ghost use Rattle.plinq_passing.specs.Ran.{Ran, EndedOrRefused, steps_made};
ghost use Rattle.plinq_stopping.specs.Asking.{WasLetBy, WasStoppedBy};
ghost use Rattle.plinq_passing.specs.Told.{AskedFor, CantGrow};
ghost use Rattle.plinq_enumerator.specs.declared.growth_fault.GrowthFault.{GrowthFault};

use crate::query::{OneThread, Query};
use plinq_merge::Cancel;
use plinq_passing::{ByThreads, QueryFault, Tells, Tries, call_alone, call_by_threads};
use plinq_source::Source;
use plinq_steps::Steps;
use std::alloc::Global;
use std::sync::Wait;
use std::thread::Threads;
use std::time::Clock;

impl<Src, S, C> Query<Src, S, ByThreads<C>>
where
    S: Steps<From: Send + Sync, To: Send + Sync> + Sync + Drop,
    Src: Source<Item = S::From>,
    C: Cancel + Drop,
{
    /// Calls a closure with each item that the steps make, one after another (C#'s `foreach` over a query). It is called on this
    /// thread, in the order of the source, while the workers go on; rayon's `for_each` calls on the workers' threads.
    ///
    /// The closure is lent. Whatever is returned, it was called with the first items and with no others.
    ///
    /// # Errors
    ///
    /// As [`Query::aggregate`].
    pub fn for_each<F, R>(self, rt: &R, alloc: Global, by: &mut F) -> Result<(), QueryFault>
    where
        F: FnMut(S::To),
        R: Clock + Threads + Wait + Sync,
        requires fresh { Src.given self.source ≡ 0 }
        requires is_called { S.is_called self.steps }
        requires in_one_way { S.in_one_way self.steps }
        requires gives { S.gives self.steps }
        requires gives_one { S.gives_one self.steps }
        requires may_call { (g : F) (y : S.To) → F.pre g y }
        requires may_call_in_one_way { (g : F) (y : S.To) (a b : F.pre g y) → a ≡ b }
        ensures degree { is_degree self.by.degree ≡ false → result ≡ Err Degree }
        ensures asked { AskedFor (WasLetBy C.asks self.by.token) result }
        ensures growth { (fault : GrowthFault) → is_degree self.by.degree ≡ true → CantGrow self.by.growth fault → result ≡ Err (GrowthRefused fault) }
        ensures calls { (f : S.From → Option S.To) → ((x : S.From) → S.makes self.steps x (f x)) → Ran (λ g y h. F.step g y tt h) (λ _ _ _ _. ⊥)
            (WasStoppedBy C.asks self.by.token) self.by.degree self.by.growth (items_of (batches self.by.merge (steps_made f (Src.whole self.source))))
            (Src.whole self.source).ending by.old result by.new }
    {
        let Query {
            source,
            steps,
            by: settings,
        } = self;
        call_by_threads::<Src, S, Tells<S::To, F>, C, R>(source, steps, settings, rt, alloc, by)
    }

    /// As [`Query::for_each`], with a closure that may return a code (rayon's `try_for_each`). It is called no more then.
    ///
    /// # Errors
    ///
    /// As [`Query::aggregate`]; [`RunFault::Sink`](plinq_run::RunFault::Sink) with the closure's code.
    pub fn try_for_each<F, R>(self, rt: &R, alloc: Global, by: &mut F) -> Result<(), QueryFault>
    where
        F: FnMut(S::To) -> Result<(), u32>,
        R: Clock + Threads + Wait + Sync,
        requires fresh { Src.given self.source ≡ 0 }
        requires is_called { S.is_called self.steps }
        requires in_one_way { S.in_one_way self.steps }
        requires gives { S.gives self.steps }
        requires gives_one { S.gives_one self.steps }
        requires may_call { (g : F) (y : S.To) → F.pre g y }
        requires may_call_in_one_way { (g : F) (y : S.To) (a b : F.pre g y) → a ≡ b }
        ensures degree { is_degree self.by.degree ≡ false → result ≡ Err Degree }
        ensures asked { AskedFor (WasLetBy C.asks self.by.token) result }
        ensures growth { (fault : GrowthFault) → is_degree self.by.degree ≡ true → CantGrow self.by.growth fault → result ≡ Err (GrowthRefused fault) }
        ensures calls { (f : S.From → Option S.To) → ((x : S.From) → S.makes self.steps x (f x)) → Ran (λ g y h. F.step g y (Ok tt) h)
            (λ g y code h. F.step g y (Err code) h)
            (WasStoppedBy C.asks self.by.token) self.by.degree self.by.growth (items_of (batches self.by.merge (steps_made f (Src.whole self.source))))
            (Src.whole self.source).ending by.old result by.new }
    {
        let Query {
            source,
            steps,
            by: settings,
        } = self;
        call_by_threads::<Src, S, Tries<S::To, F>, C, R>(source, steps, settings, rt, alloc, by)
    }
}

impl<Src, S> Query<Src, S, OneThread>
where
    S: Steps + Drop,
    Src: Source<Item = S::From>,
{
    /// Calls a closure with each item that the steps make, in the order of the source (C#'s `foreach` over a query, Rust's
    /// `for_each`).
    ///
    /// # Errors
    ///
    /// [`QueryFault::Ended`] if the source refused; the closure was called with what came before.
    pub fn for_each<F>(self, by: &mut F) -> Result<(), QueryFault>
    where
        F: FnMut(S::To),
        requires fresh { Src.given self.source ≡ 0 }
        requires is_called { S.is_called self.steps }
        requires in_one_way { S.in_one_way self.steps }
        requires gives { S.gives self.steps }
        requires gives_one { S.gives_one self.steps }
        requires may_call { (g : F) (y : S.To) → F.pre g y }
        ensures calls { (f : S.From → Option S.To) → ((x : S.From) → S.makes self.steps x (f x)) → Ran (λ g y h. F.step g y tt h) (λ _ _ _ _. ⊥)
            ⊥ 1 None (filter_map f (Src.whole self.source).items) (Src.whole self.source).ending by.old result by.new }
        ensures alone { IfErr result EndedOrRefused }
    {
        let Query { source, steps, .. } = self;
        call_alone::<Src, S, Tells<S::To, F>>(source, steps, by)
    }

    /// As [`Query::for_each`], with a closure that may return a code (Rust's `try_for_each`). It is called no more then, and no
    /// element after that item's is asked for.
    ///
    /// # Errors
    ///
    /// As [`Query::for_each`]; [`RunFault::Sink`](plinq_run::RunFault::Sink) with the closure's code.
    pub fn try_for_each<F>(self, by: &mut F) -> Result<(), QueryFault>
    where
        F: FnMut(S::To) -> Result<(), u32>,
        requires fresh { Src.given self.source ≡ 0 }
        requires is_called { S.is_called self.steps }
        requires in_one_way { S.in_one_way self.steps }
        requires gives { S.gives self.steps }
        requires gives_one { S.gives_one self.steps }
        requires may_call { (g : F) (y : S.To) → F.pre g y }
        ensures calls { (f : S.From → Option S.To) → ((x : S.From) → S.makes self.steps x (f x)) → Ran (λ g y h. F.step g y (Ok tt) h)
            (λ g y code h. F.step g y (Err code) h) ⊥ 1 None (filter_map f (Src.whole self.source).items) (Src.whole self.source).ending
            by.old result by.new }
        ensures alone { IfErr result EndedOrRefused }
    {
        let Query { source, steps, .. } = self;
        call_alone::<Src, S, Tries<S::To, F>>(source, steps, by)
    }
}
