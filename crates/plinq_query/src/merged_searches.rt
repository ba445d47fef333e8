//! The searches of what steps by position leave, by threads.
ghost use Rattle.std.specs.Prelude.{◌≡◌, drop, List, Bool, Option, None, true, false, Err, MatchResult};
ghost use Rattle.std.specs.List.{list_any, list_all};
ghost use Rattle.plinq_collect.specs.ItemFoldings.{first_of};
ghost use Rattle.plinq_ops.specs.Query.{is_degree};
ghost use Rattle.plinq_passing.specs.declared.query_fault.QueryFault.TheVariants.{Degree, Growth as GrowthRefused};
ghost use Rattle.plinq_passing.specs.Ran.{SearchFails, EndsUnless, decided_by, left_of};
ghost use Rattle.plinq_stopping.specs.Asking.{WasLetBy, WasStoppedBy};
ghost use Rattle.plinq_passing.specs.Told.{AskedFor, CantGrow};
ghost use Rattle.plinq_enumerator.specs.declared.growth_fault.GrowthFault.{GrowthFault};

use crate::merged::Merged;
use plinq_merge::Cancel;
use plinq_passing::{ByThreads, QueryFault, told_found, told_not};
use plinq_source::Source;
use plinq_steps::{Equal, Positional, Start, Steps, Then};
use std::alloc::Global;
use std::sync::Wait;
use std::thread::Threads;
use std::time::Clock;

impl<Src, S, L, C> Merged<Src, S, ByThreads<C>, L>
where
    S: Steps<From: Send + Sync, To: Send + Sync> + Sync + Drop,
    Src: Source<Item = S::From>,
    C: Cancel + Drop,
    L: Positional<From = S::To> + Drop,
{
    /// The item that is left at a position, the first of them at 0, if there is one (.NET's `ElementAtOrDefault`, Rust's `nth`). The
    /// source is left once it is known.
    ///
    /// # Errors
    ///
    /// As [`Query::first`].
    pub fn element_at<R>(
        self,
        rt: &R,
        alloc: Global,
        position: u64,
    ) -> Result<Option<L::To>, QueryFault>
    where
        R: Clock + Threads + Wait + Sync,
        requires fresh { Src.given self.query.source ≡ 0 }
        requires is_called { S.is_called self.query.steps }
        requires in_one_way { S.in_one_way self.query.steps }
        requires gives { S.gives self.query.steps }
        requires gives_one { S.gives_one self.query.steps }
        requires then_called { (l : L) → L.is_called l }
        requires then_in_one_way { (l : L) → L.in_one_way l }
        requires then_gives_one { (l : L) → L.gives_one l }
        ensures degree { is_degree self.query.by.degree ≡ false → result ≡ Err Degree }
        ensures asked { AskedFor (WasLetBy C.asks self.query.by.token) result }
        ensures growth { (fault : GrowthFault) → is_degree self.query.by.degree ≡ true → CantGrow self.query.by.growth fault
            → result ≡ Err (GrowthRefused fault) }
        ensures value { (f : S.From → Option S.To) → ((x : S.From) → S.makes self.query.steps x (f x)) → (g : List S.To → List L.To)
            (d : List S.To → Bool) → L.means self.then g d → MatchResult result
            (λ o. (o ≡ first_of (drop position (left_of f g (Src.whole self.query.source))))
            × (o ≡ None → EndsUnless (decided_by f d (Src.whole self.query.source)) (Src.whole self.query.source)))
            (SearchFails ((first_of (drop position (left_of f g (Src.whole self.query.source))) ≡ None)
            × (decided_by f d (Src.whole self.query.source) ≡ false))
            (WasStoppedBy C.asks self.query.by.token) self.query.by.degree self.query.by.growth (Src.whole self.query.source)) }
    {
        self.skip(position).first(rt, alloc)
    }

    /// Whether this item is left (.NET's `Contains`). The source is left once it is found.
    ///
    /// # Errors
    ///
    /// As [`Query::first`].
    pub fn contains<R>(self, rt: &R, alloc: Global, item: L::To) -> Result<bool, QueryFault>
    where
        L::To: PartialEq,
        R: Clock + Threads + Wait + Sync,
        requires fresh { Src.given self.query.source ≡ 0 }
        requires is_called { S.is_called self.query.steps }
        requires in_one_way { S.in_one_way self.query.steps }
        requires gives { S.gives self.query.steps }
        requires gives_one { S.gives_one self.query.steps }
        requires then_called { (l : L) → L.is_called l }
        requires then_in_one_way { (l : L) → L.in_one_way l }
        requires then_gives_one { (l : L) → L.gives_one l }
        ensures degree { is_degree self.query.by.degree ≡ false → result ≡ Err Degree }
        ensures asked { AskedFor (WasLetBy C.asks self.query.by.token) result }
        ensures growth { (fault : GrowthFault) → is_degree self.query.by.degree ≡ true → CantGrow self.query.by.growth fault
            → result ≡ Err (GrowthRefused fault) }
        ensures value { (f : S.From → Option S.To) → ((x : S.From) → S.makes self.query.steps x (f x)) → (g : List S.To → List L.To)
            (d : List S.To → Bool) → L.means self.then g d → MatchResult result
            (λ is. (is ≡ list_any (λ y. L.To.eq y item) (left_of f g (Src.whole self.query.source)))
            × (is ≡ false → EndsUnless (decided_by f d (Src.whole self.query.source)) (Src.whole self.query.source)))
            (SearchFails ((list_any (λ y. L.To.eq y item) (left_of f g (Src.whole self.query.source)) ≡ false)
            × (decided_by f d (Src.whole self.query.source) ≡ false))
            (WasStoppedBy C.asks self.query.by.token) self.query.by.degree self.query.by.growth (Src.whole self.query.source)) }
    {
        let equal = Merged {
            query: self.query,
            then: Then {
                before: self.then,
                steps: Equal {
                    before: Start::new(),
                    to: item,
                },
            },
        };
        told_found(equal.first(rt, alloc))
    }

    /// Whether some item that is left passes (.NET's `Any`). The source is left once one has. The closure is called on the thread
    /// that asks.
    ///
    /// # Errors
    ///
    /// As [`Query::first`].
    pub fn any<F, R>(self, rt: &R, alloc: Global, by: F) -> Result<bool, QueryFault>
    where
        F: Fn(L::To) -> bool + Drop,
        R: Clock + Threads + Wait + Sync,
        requires fresh { Src.given self.query.source ≡ 0 }
        requires is_called { S.is_called self.query.steps }
        requires in_one_way { S.in_one_way self.query.steps }
        requires gives { S.gives self.query.steps }
        requires gives_one { S.gives_one self.query.steps }
        requires then_called { (l : L) → L.is_called l }
        requires then_in_one_way { (l : L) → L.in_one_way l }
        requires then_gives_one { (l : L) → L.gives_one l }
        requires may_call { (g : F) (y : L.To) → F.pre g y }
        requires may_call_in_one_way { (g : F) (y : L.To) (a b : F.pre g y) → a ≡ b }
        requires returns_one { (g : F) (y : L.To) (r q : Bool) → F.post g y r → F.post g y q → q ≡ r }
        ensures degree { is_degree self.query.by.degree ≡ false → result ≡ Err Degree }
        ensures asked { AskedFor (WasLetBy C.asks self.query.by.token) result }
        ensures growth { (fault : GrowthFault) → is_degree self.query.by.degree ≡ true → CantGrow self.query.by.growth fault
            → result ≡ Err (GrowthRefused fault) }
        ensures value { (f : S.From → Option S.To) → ((x : S.From) → S.makes self.query.steps x (f x)) → (g : List S.To → List L.To)
            (d : List S.To → Bool) → L.means self.then g d → (p : L.To → Bool) → ((y : L.To) → F.post by y (p y)) → MatchResult result
            (λ is. (is ≡ list_any p (left_of f g (Src.whole self.query.source)))
            × (is ≡ false → EndsUnless (decided_by f d (Src.whole self.query.source)) (Src.whole self.query.source)))
            (SearchFails ((list_any p (left_of f g (Src.whole self.query.source)) ≡ false)
            × (decided_by f d (Src.whole self.query.source) ≡ false))
            (WasStoppedBy C.asks self.query.by.token) self.query.by.degree self.query.by.growth (Src.whole self.query.source)) }
    {
        self.select(by).contains(rt, alloc, true)
    }

    /// Whether every item that is left passes (.NET's `All`); of no items it is true. The source is left once one has failed. The
    /// closure is called on the thread that asks.
    ///
    /// # Errors
    ///
    /// As [`Query::first`].
    pub fn all<F, R>(self, rt: &R, alloc: Global, by: F) -> Result<bool, QueryFault>
    where
        F: Fn(L::To) -> bool + Drop,
        R: Clock + Threads + Wait + Sync,
        requires fresh { Src.given self.query.source ≡ 0 }
        requires is_called { S.is_called self.query.steps }
        requires in_one_way { S.in_one_way self.query.steps }
        requires gives { S.gives self.query.steps }
        requires gives_one { S.gives_one self.query.steps }
        requires then_called { (l : L) → L.is_called l }
        requires then_in_one_way { (l : L) → L.in_one_way l }
        requires then_gives_one { (l : L) → L.gives_one l }
        requires may_call { (g : F) (y : L.To) → F.pre g y }
        requires may_call_in_one_way { (g : F) (y : L.To) (a b : F.pre g y) → a ≡ b }
        requires returns_one { (g : F) (y : L.To) (r q : Bool) → F.post g y r → F.post g y q → q ≡ r }
        ensures degree { is_degree self.query.by.degree ≡ false → result ≡ Err Degree }
        ensures asked { AskedFor (WasLetBy C.asks self.query.by.token) result }
        ensures growth { (fault : GrowthFault) → is_degree self.query.by.degree ≡ true → CantGrow self.query.by.growth fault
            → result ≡ Err (GrowthRefused fault) }
        ensures value { (f : S.From → Option S.To) → ((x : S.From) → S.makes self.query.steps x (f x)) → (g : List S.To → List L.To)
            (d : List S.To → Bool) → L.means self.then g d → (p : L.To → Bool) → ((y : L.To) → F.post by y (p y)) → MatchResult result
            (λ is. (is ≡ list_all p (left_of f g (Src.whole self.query.source)))
            × (is ≡ true → EndsUnless (decided_by f d (Src.whole self.query.source)) (Src.whole self.query.source)))
            (SearchFails ((list_all p (left_of f g (Src.whole self.query.source)) ≡ true)
            × (decided_by f d (Src.whole self.query.source) ≡ false))
            (WasStoppedBy C.asks self.query.by.token) self.query.by.degree self.query.by.growth (Src.whole self.query.source)) }
    {
        told_not(self.select(by).contains(rt, alloc, false))
    }
}
