//! The calls that pass on what steps by position leave, to a closure or a sink.
ghost use Rattle.std.specs.Prelude.{◌≡◌, ℕ, List, Bool, Option, Ok, Err, IfErr, None, false, true};
ghost use Rattle.plinq_collect.specs.Telling.{items_of};
ghost use Rattle.plinq_ops.specs.Batches.{batches};
ghost use Rattle.plinq_ops.specs.Query.{is_degree};
ghost use Rattle.plinq_passing.specs.declared.query_fault.QueryFault.TheVariants.{Degree, Growth as GrowthRefused};
ghost use Rattle.plinq_passing.specs.Ran.{Ran, EndedOrRefused, left_trace};
ghost use Rattle.plinq_stopping.specs.Asking.{WasLetBy, WasStoppedBy};
ghost use Rattle.plinq_passing.specs.Told.{AskedFor, CantGrow};
ghost use Rattle.plinq_enumerator.specs.declared.growth_fault.GrowthFault.{GrowthFault};

use crate::merged::Merged;
use crate::query::OneThread;
use plinq_merge::{Cancel, Sink};
use plinq_passing::{
    ByThreads, QueryFault, Tells, Tries, call_left_alone, call_left_by_threads, run_left_into,
};
use plinq_source::Source;
use plinq_steps::{Positional, Steps};
use std::alloc::Global;
use std::sync::Wait;
use std::thread::Threads;
use std::time::Clock;

impl<Src, S, L, C> Merged<Src, S, ByThreads<C>, L>
where
    S: Steps<From: Send + Sync, To: Send + Sync> + Sync + Drop,
    Src: Source<Item = S::From>,
    C: Cancel + Drop,
    L: Positional<From = S::To> + Drop,
{
    /// Delivers what is left to a sink, in the order of the source and in batches as [`with_merge`](Query::with_merge) says. The
    /// sink is called on this thread while the workers go on.
    ///
    /// # Errors
    ///
    /// As [`Query::run_into`]; [`QueryFault::Ended`] if the source refused while more could be made.
    pub fn run_into<K, R>(self, rt: &R, alloc: Global, sink: &mut K) -> Result<(), QueryFault>
    where
        K: Sink<Item = L::To>,
        R: Clock + Threads + Wait + Sync,
        requires fresh { Src.given self.query.source ≡ 0 }
        requires is_called { S.is_called self.query.steps }
        requires in_one_way { S.in_one_way self.query.steps }
        requires gives { S.gives self.query.steps }
        requires gives_one { S.gives_one self.query.steps }
        requires then_called { (l : L) → L.is_called l }
        requires then_in_one_way { (l : L) → L.in_one_way l }
        requires then_gives_one { (l : L) → L.gives_one l }
        ensures degree { is_degree self.query.by.degree ≡ false → result ≡ Err Degree }
        ensures asked { AskedFor (WasLetBy C.asks self.query.by.token) result }
        ensures growth { (fault : GrowthFault) → is_degree self.query.by.degree ≡ true → CantGrow self.query.by.growth fault
            → result ≡ Err (GrowthRefused fault) }
        ensures ran { (f : S.From → Option S.To) → ((x : S.From) → S.makes self.query.steps x (f x)) → (g : List S.To → List L.To)
            (d : List S.To → Bool) → L.means self.then g d → Ran K.accepts K.refuses
            (WasStoppedBy C.asks self.query.by.token) self.query.by.degree self.query.by.growth
            (batches self.query.by.merge (left_trace f g d (Src.whole self.query.source)))
            (left_trace f g d (Src.whole self.query.source)).ending sink.old result sink.new }
    {
        let Merged { query, then } = self;
        run_left_into(query.source, query.steps, then, query.by, rt, alloc, sink)
    }

    /// Calls a closure with each item that is left, one after another (C#'s `foreach` over a query). It is called on this thread, in
    /// the order of the source, while the workers go on.
    ///
    /// The closure is lent. Whatever is returned, it was called with the first items and with no others.
    ///
    /// # Errors
    ///
    /// As [`Merged::run_into`]; a closure refuses nothing.
    pub fn for_each<F, R>(self, rt: &R, alloc: Global, by: &mut F) -> Result<(), QueryFault>
    where
        F: FnMut(L::To),
        R: Clock + Threads + Wait + Sync,
        requires fresh { Src.given self.query.source ≡ 0 }
        requires is_called { S.is_called self.query.steps }
        requires in_one_way { S.in_one_way self.query.steps }
        requires gives { S.gives self.query.steps }
        requires gives_one { S.gives_one self.query.steps }
        requires then_called { (l : L) → L.is_called l }
        requires then_in_one_way { (l : L) → L.in_one_way l }
        requires then_gives_one { (l : L) → L.gives_one l }
        requires may_call { (g : F) (y : L.To) → F.pre g y }
        requires may_call_in_one_way { (g : F) (y : L.To) (a b : F.pre g y) → a ≡ b }
        ensures degree { is_degree self.query.by.degree ≡ false → result ≡ Err Degree }
        ensures asked { AskedFor (WasLetBy C.asks self.query.by.token) result }
        ensures growth { (fault : GrowthFault) → is_degree self.query.by.degree ≡ true → CantGrow self.query.by.growth fault
            → result ≡ Err (GrowthRefused fault) }
        ensures calls { (f : S.From → Option S.To) → ((x : S.From) → S.makes self.query.steps x (f x)) → (g : List S.To → List L.To)
            (d : List S.To → Bool) → L.means self.then g d → Ran (λ h y k. F.step h y tt k) (λ _ _ _ _. ⊥)
            (WasStoppedBy C.asks self.query.by.token) self.query.by.degree
            self.query.by.growth (items_of (batches self.query.by.merge (left_trace f g d (Src.whole self.query.source))))
            (left_trace f g d (Src.whole self.query.source)).ending by.old result by.new }
    {
        let Merged { query, then } = self;
        call_left_by_threads::<Src, S, L, Tells<L::To, F>, C, R>(
            query.source,
            query.steps,
            then,
            query.by,
            rt,
            alloc,
            by,
        )
    }

    /// As [`Merged::for_each`], with a closure that may return a code (rayon's `try_for_each`). It is called no more then.
    ///
    /// # Errors
    ///
    /// As [`Merged::run_into`]; [`RunFault::Sink`](plinq_run::RunFault::Sink) with the closure's code.
    pub fn try_for_each<F, R>(self, rt: &R, alloc: Global, by: &mut F) -> Result<(), QueryFault>
    where
        F: FnMut(L::To) -> Result<(), u32>,
        R: Clock + Threads + Wait + Sync,
        requires fresh { Src.given self.query.source ≡ 0 }
        requires is_called { S.is_called self.query.steps }
        requires in_one_way { S.in_one_way self.query.steps }
        requires gives { S.gives self.query.steps }
        requires gives_one { S.gives_one self.query.steps }
        requires then_called { (l : L) → L.is_called l }
        requires then_in_one_way { (l : L) → L.in_one_way l }
        requires then_gives_one { (l : L) → L.gives_one l }
        requires may_call { (g : F) (y : L.To) → F.pre g y }
        requires may_call_in_one_way { (g : F) (y : L.To) (a b : F.pre g y) → a ≡ b }
        ensures degree { is_degree self.query.by.degree ≡ false → result ≡ Err Degree }
        ensures asked { AskedFor (WasLetBy C.asks self.query.by.token) result }
        ensures growth { (fault : GrowthFault) → is_degree self.query.by.degree ≡ true → CantGrow self.query.by.growth fault
            → result ≡ Err (GrowthRefused fault) }
        ensures calls { (f : S.From → Option S.To) → ((x : S.From) → S.makes self.query.steps x (f x)) → (g : List S.To → List L.To)
            (d : List S.To → Bool) → L.means self.then g d → Ran (λ h y k. F.step h y (Ok tt) k) (λ h y code k. F.step h y (Err code) k)
            (WasStoppedBy C.asks self.query.by.token) self.query.by.degree self.query.by.growth (items_of (batches self.query.by.merge (left_trace f g d
            (Src.whole self.query.source))))
            (left_trace f g d (Src.whole self.query.source)).ending by.old result by.new }
    {
        let Merged { query, then } = self;
        call_left_by_threads::<Src, S, L, Tries<L::To, F>, C, R>(
            query.source,
            query.steps,
            then,
            query.by,
            rt,
            alloc,
            by,
        )
    }
}

impl<Src, S, L> Merged<Src, S, OneThread, L>
where
    S: Steps + Drop,
    Src: Source<Item = S::From>,
    L: Positional<From = S::To> + Drop,
{
    /// Calls a closure with each item that is left, in the order of the source (C#'s `foreach` over a query, Rust's `for_each`).
    ///
    /// # Errors
    ///
    /// [`QueryFault::Ended`] if the source refused while more could be made; the closure was called with what came before.
    pub fn for_each<F>(self, by: &mut F) -> Result<(), QueryFault>
    where
        F: FnMut(L::To),
        requires fresh { Src.given self.query.source ≡ 0 }
        requires is_called { S.is_called self.query.steps }
        requires in_one_way { S.in_one_way self.query.steps }
        requires gives { S.gives self.query.steps }
        requires gives_one { S.gives_one self.query.steps }
        requires then_called { (l : L) → L.is_called l }
        requires then_gives_one { (l : L) → L.gives_one l }
        requires may_call { (g : F) (y : L.To) → F.pre g y }
        ensures calls { (f : S.From → Option S.To) → ((x : S.From) → S.makes self.query.steps x (f x)) → (g : List S.To → List L.To)
            (d : List S.To → Bool) → L.means self.then g d → Ran (λ h y k. F.step h y tt k) (λ _ _ _ _. ⊥) ⊥ 1 None
            (left_trace f g d (Src.whole self.query.source)).items (left_trace f g d (Src.whole self.query.source)).ending by.old result by.new }
        ensures alone { IfErr result EndedOrRefused }
    {
        let Merged { query, then } = self;
        call_left_alone::<Src, S, L, Tells<L::To, F>>(query.source, query.steps, then, by)
    }

    /// As [`Merged::for_each`], with a closure that may return a code (Rust's `try_for_each`). It is called no more then, and no
    /// element after that item's is asked for.
    ///
    /// # Errors
    ///
    /// As [`Merged::for_each`]; [`RunFault::Sink`](plinq_run::RunFault::Sink) with the closure's code.
    pub fn try_for_each<F>(self, by: &mut F) -> Result<(), QueryFault>
    where
        F: FnMut(L::To) -> Result<(), u32>,
        requires fresh { Src.given self.query.source ≡ 0 }
        requires is_called { S.is_called self.query.steps }
        requires in_one_way { S.in_one_way self.query.steps }
        requires gives { S.gives self.query.steps }
        requires gives_one { S.gives_one self.query.steps }
        requires then_called { (l : L) → L.is_called l }
        requires then_gives_one { (l : L) → L.gives_one l }
        requires may_call { (g : F) (y : L.To) → F.pre g y }
        ensures calls { (f : S.From → Option S.To) → ((x : S.From) → S.makes self.query.steps x (f x)) → (g : List S.To → List L.To)
            (d : List S.To → Bool) → L.means self.then g d → Ran (λ h y k. F.step h y (Ok tt) k) (λ h y code k. F.step h y (Err code) k)
            ⊥ 1 None (left_trace f g d (Src.whole self.query.source)).items (left_trace f g d (Src.whole self.query.source)).ending
            by.old result by.new }
        ensures alone { IfErr result EndedOrRefused }
    {
        let Merged { query, then } = self;
        call_left_alone::<Src, S, L, Tries<L::To, F>>(query.source, query.steps, then, by)
    }
}
