//! The searches of what steps by position leave, on the caller's thread. They take no memory.
ghost use Rattle.std.specs.Prelude.{◌≡◌, drop, List, Bool, Option, None, true, false, IfErr, MatchResult};
ghost use Rattle.std.specs.List.{list_any, list_all};
ghost use Rattle.plinq_collect.specs.ItemFoldings.{first_of};
ghost use Rattle.plinq_passing.specs.Ran.{SearchFails, EndsUnless, HasEnded, decided_by, left_of};

use crate::merged::Merged;
use crate::query::OneThread;
use plinq_passing::{QueryFault, told_found, told_not};
use plinq_source::Source;
use plinq_steps::{Equal, Positional, Start, Steps, Then};

impl<Src, S, L> Merged<Src, S, OneThread, L>
where
    S: Steps + Drop,
    Src: Source<Item = S::From>,
    L: Positional<From = S::To> + Drop,
{
    /// The item that is left at a position, the first of them at 0, if there is one (.NET's `ElementAtOrDefault`, Rust's `nth`). The
    /// source is left once it is known.
    ///
    /// # Errors
    ///
    /// As [`Query::first`].
    pub fn element_at(self, position: u64) -> Result<Option<L::To>, QueryFault>
        requires fresh { Src.given self.query.source ≡ 0 }
        requires is_called { S.is_called self.query.steps }
        requires in_one_way { S.in_one_way self.query.steps }
        requires gives { S.gives self.query.steps }
        requires gives_one { S.gives_one self.query.steps }
        requires then_called { (l : L) → L.is_called l }
        requires then_gives_one { (l : L) → L.gives_one l }
        ensures value { (f : S.From → Option S.To) → ((x : S.From) → S.makes self.query.steps x (f x)) → (g : List S.To → List L.To)
            (d : List S.To → Bool) → L.means self.then g d → MatchResult result
            (λ o. (o ≡ first_of (drop position (left_of f g (Src.whole self.query.source))))
            × (o ≡ None → EndsUnless (decided_by f d (Src.whole self.query.source)) (Src.whole self.query.source)))
            (SearchFails ((first_of (drop position (left_of f g (Src.whole self.query.source))) ≡ None)
            × (decided_by f d (Src.whole self.query.source) ≡ false))
            ⊥ 1 None (Src.whole self.query.source)) }
        ensures alone { IfErr result HasEnded }
    {
        self.skip(position).first()
    }

    /// Whether this item is left (.NET's `Contains`). The source is left once it is found.
    ///
    /// # Errors
    ///
    /// As [`Query::first`].
    pub fn contains(self, item: L::To) -> Result<bool, QueryFault>
    where
        L::To: PartialEq,
        requires fresh { Src.given self.query.source ≡ 0 }
        requires is_called { S.is_called self.query.steps }
        requires in_one_way { S.in_one_way self.query.steps }
        requires gives { S.gives self.query.steps }
        requires gives_one { S.gives_one self.query.steps }
        requires then_called { (l : L) → L.is_called l }
        requires then_gives_one { (l : L) → L.gives_one l }
        ensures value { (f : S.From → Option S.To) → ((x : S.From) → S.makes self.query.steps x (f x)) → (g : List S.To → List L.To)
            (d : List S.To → Bool) → L.means self.then g d → MatchResult result
            (λ is. (is ≡ list_any (λ y. L.To.eq y item) (left_of f g (Src.whole self.query.source)))
            × (is ≡ false → EndsUnless (decided_by f d (Src.whole self.query.source)) (Src.whole self.query.source)))
            (SearchFails ((list_any (λ y. L.To.eq y item) (left_of f g (Src.whole self.query.source)) ≡ false)
            × (decided_by f d (Src.whole self.query.source) ≡ false))
            ⊥ 1 None (Src.whole self.query.source)) }
        ensures alone { IfErr result HasEnded }
    {
        let equal = Merged {
            query: self.query,
            then: Then {
                before: self.then,
                steps: Equal {
                    before: Start::new(),
                    to: item,
                },
            },
        };
        told_found(equal.first())
    }

    /// Whether some item that is left passes (.NET's `Any`). The source is left once one has. The closure is called on the thread
    /// that asks.
    ///
    /// # Errors
    ///
    /// As [`Query::first`].
    pub fn any<F>(self, by: F) -> Result<bool, QueryFault>
    where
        F: Fn(L::To) -> bool + Drop,
        requires fresh { Src.given self.query.source ≡ 0 }
        requires is_called { S.is_called self.query.steps }
        requires in_one_way { S.in_one_way self.query.steps }
        requires gives { S.gives self.query.steps }
        requires gives_one { S.gives_one self.query.steps }
        requires then_called { (l : L) → L.is_called l }
        requires then_gives_one { (l : L) → L.gives_one l }
        requires may_call { (g : F) (y : L.To) → F.pre g y }
        requires returns_one { (g : F) (y : L.To) (r q : Bool) → F.post g y r → F.post g y q → q ≡ r }
        ensures value { (f : S.From → Option S.To) → ((x : S.From) → S.makes self.query.steps x (f x)) → (g : List S.To → List L.To)
            (d : List S.To → Bool) → L.means self.then g d → (p : L.To → Bool) → ((y : L.To) → F.post by y (p y)) → MatchResult result
            (λ is. (is ≡ list_any p (left_of f g (Src.whole self.query.source)))
            × (is ≡ false → EndsUnless (decided_by f d (Src.whole self.query.source)) (Src.whole self.query.source)))
            (SearchFails ((list_any p (left_of f g (Src.whole self.query.source)) ≡ false)
            × (decided_by f d (Src.whole self.query.source) ≡ false))
            ⊥ 1 None (Src.whole self.query.source)) }
        ensures alone { IfErr result HasEnded }
    {
        self.select(by).contains(true)
    }

    /// Whether every item that is left passes (.NET's `All`); of no items it is true. The source is left once one has failed. The
    /// closure is called on the thread that asks.
    ///
    /// # Errors
    ///
    /// As [`Query::first`].
    pub fn all<F>(self, by: F) -> Result<bool, QueryFault>
    where
        F: Fn(L::To) -> bool + Drop,
        requires fresh { Src.given self.query.source ≡ 0 }
        requires is_called { S.is_called self.query.steps }
        requires in_one_way { S.in_one_way self.query.steps }
        requires gives { S.gives self.query.steps }
        requires gives_one { S.gives_one self.query.steps }
        requires then_called { (l : L) → L.is_called l }
        requires then_gives_one { (l : L) → L.gives_one l }
        requires may_call { (g : F) (y : L.To) → F.pre g y }
        requires returns_one { (g : F) (y : L.To) (r q : Bool) → F.post g y r → F.post g y q → q ≡ r }
        ensures value { (f : S.From → Option S.To) → ((x : S.From) → S.makes self.query.steps x (f x)) → (g : List S.To → List L.To)
            (d : List S.To → Bool) → L.means self.then g d → (p : L.To → Bool) → ((y : L.To) → F.post by y (p y)) → MatchResult result
            (λ is. (is ≡ list_all p (left_of f g (Src.whole self.query.source)))
            × (is ≡ true → EndsUnless (decided_by f d (Src.whole self.query.source)) (Src.whole self.query.source)))
            (SearchFails ((list_all p (left_of f g (Src.whole self.query.source)) ≡ true)
            × (decided_by f d (Src.whole self.query.source) ≡ false))
            ⊥ 1 None (Src.whole self.query.source)) }
        ensures alone { IfErr result HasEnded }
    {
        told_not(self.select(by).contains(false))
    }
}
