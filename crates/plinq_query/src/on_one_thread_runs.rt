//! The calls that search what a query's steps make on the caller's thread. They take no memory.
ghost use Rattle.std.specs.Prelude.{◌≡◌, drop, None, Some, Option, Bool, false, true, IfErr, MatchResult};
ghost use Rattle.std.specs.List.{filter_map, list_any, list_all};
ghost use Rattle.plinq_source.specs.declared.ending.Ending.TheVariants.{End};
ghost use Rattle.plinq_collect.specs.ItemFoldings.{first_of};
ghost use Rattle.plinq_passing.specs.Ran.{SearchFails, HasEnded};

use crate::query::{OneThread, Query};
use plinq_passing::{First, KeepFirst, QueryFault, call_alone, told_first, told_found, told_not};
use plinq_source::Source;
use plinq_steps::{Equal, Steps};

impl<Src, S> Query<Src, S, OneThread>
where
    S: Steps + Drop,
    Src: Source<Item = S::From>,
{
    /// The first item that the steps make, if there is one (.NET's `FirstOrDefault`, Rust's `find`). The source is left once it is
    /// known.
    ///
    /// # Errors
    ///
    /// [`QueryFault::Ended`] if the source refused before any item was made.
    pub fn first(self) -> Result<Option<S::To>, QueryFault>
        requires fresh { Src.given self.source ≡ 0 }
        requires is_called { S.is_called self.steps }
        requires in_one_way { S.in_one_way self.steps }
        requires gives { S.gives self.steps }
        requires gives_one { S.gives_one self.steps }
        ensures value { (f : S.From → Option S.To) → ((x : S.From) → S.makes self.steps x (f x)) → MatchResult result
            (λ o. (o ≡ first_of (filter_map f (Src.whole self.source).items)) × (o ≡ None → (Src.whole self.source).ending ≡ Some End))
            (SearchFails (first_of (filter_map f (Src.whole self.source).items) ≡ None) ⊥ 1 None (Src.whole self.source)) }
        ensures alone { IfErr result HasEnded }
    {
        let mut keeps = KeepFirst { item: None };
        let outcome = call_alone::<Src, S, First<S::To>>(self.source, self.steps, &mut keeps);
        told_first(keeps.item, outcome)
    }

    /// The item that the steps make at a position, the first of them at 0, if there is one (.NET's `ElementAtOrDefault`, Rust's `nth`).
    /// The source is left once it is known.
    ///
    /// # Errors
    ///
    /// As [`Query::first`].
    pub fn element_at(self, position: u64) -> Result<Option<S::To>, QueryFault>
        requires fresh { Src.given self.source ≡ 0 }
        requires is_called { S.is_called self.steps }
        requires in_one_way { S.in_one_way self.steps }
        requires gives { S.gives self.steps }
        requires gives_one { S.gives_one self.steps }
        ensures value { (f : S.From → Option S.To) → ((x : S.From) → S.makes self.steps x (f x)) → MatchResult result
            (λ o. (o ≡ first_of (drop position (filter_map f (Src.whole self.source).items))) × (o ≡ None → (Src.whole self.source).ending ≡ Some End))
            (SearchFails (first_of (drop position (filter_map f (Src.whole self.source).items)) ≡ None) ⊥ 1 None (Src.whole self.source)) }
        ensures alone { IfErr result HasEnded }
    {
        self.skip(position).first()
    }

    /// Whether the steps make this item (.NET's `Contains`). The source is left once it is found.
    ///
    /// # Errors
    ///
    /// As [`Query::first`].
    pub fn contains(self, item: S::To) -> Result<bool, QueryFault>
    where
        S::To: PartialEq,
        requires fresh { Src.given self.source ≡ 0 }
        requires is_called { S.is_called self.steps }
        requires in_one_way { S.in_one_way self.steps }
        requires gives { S.gives self.steps }
        requires gives_one { S.gives_one self.steps }
        ensures value { (f : S.From → Option S.To) → ((x : S.From) → S.makes self.steps x (f x)) → MatchResult result
            (λ is. (is ≡ list_any (λ y. S.To.eq y item) (filter_map f (Src.whole self.source).items))
            × (is ≡ false → (Src.whole self.source).ending ≡ Some End))
            (SearchFails (list_any (λ y. S.To.eq y item) (filter_map f (Src.whole self.source).items) ≡ false) ⊥ 1 None (Src.whole self.source)) }
        ensures alone { IfErr result HasEnded }
    {
        let Query { source, steps, by } = self;
        let equal = Query {
            source,
            steps: Equal {
                before: steps,
                to: item,
            },
            by,
        };
        told_found(equal.first())
    }

    /// Whether some item that the steps make passes (.NET's and Rust's `any`). The source is left once one has.
    ///
    /// # Errors
    ///
    /// As [`Query::first`].
    pub fn any<F>(self, by: F) -> Result<bool, QueryFault>
    where
        F: Fn(S::To) -> bool + Drop,
        requires fresh { Src.given self.source ≡ 0 }
        requires is_called { ((y : S.To) → F.pre by y) × S.is_called self.steps }
        requires in_one_way { ((y : S.To) (a b : F.pre by y) → a ≡ b) × S.in_one_way self.steps }
        requires gives { ((y : S.To) → (r : Bool) × F.post by y r) × S.gives self.steps }
        requires gives_one { ((y : S.To) (r q : Bool) → F.post by y r → F.post by y q → q ≡ r) × S.gives_one self.steps }
        ensures value { (f : S.From → Option S.To) → ((x : S.From) → S.makes self.steps x (f x)) → (p : S.To → Bool) → ((y : S.To) → F.post by y (p y))
            → MatchResult result
            (λ is. (is ≡ list_any p (filter_map f (Src.whole self.source).items)) × (is ≡ false → (Src.whole self.source).ending ≡ Some End))
            (SearchFails (list_any p (filter_map f (Src.whole self.source).items) ≡ false) ⊥ 1 None (Src.whole self.source)) }
        ensures alone { IfErr result HasEnded }
    {
        self.select(by).contains(true)
    }

    /// Whether every item that the steps make passes (.NET's and Rust's `all`); of no items it is true. The source is left once one
    /// has failed.
    ///
    /// # Errors
    ///
    /// As [`Query::first`].
    pub fn all<F>(self, by: F) -> Result<bool, QueryFault>
    where
        F: Fn(S::To) -> bool + Drop,
        requires fresh { Src.given self.source ≡ 0 }
        requires is_called { ((y : S.To) → F.pre by y) × S.is_called self.steps }
        requires in_one_way { ((y : S.To) (a b : F.pre by y) → a ≡ b) × S.in_one_way self.steps }
        requires gives { ((y : S.To) → (r : Bool) × F.post by y r) × S.gives self.steps }
        requires gives_one { ((y : S.To) (r q : Bool) → F.post by y r → F.post by y q → q ≡ r) × S.gives_one self.steps }
        ensures value { (f : S.From → Option S.To) → ((x : S.From) → S.makes self.steps x (f x)) → (p : S.To → Bool) → ((y : S.To) → F.post by y (p y))
            → MatchResult result
            (λ is. (is ≡ list_all p (filter_map f (Src.whole self.source).items)) × (is ≡ true → (Src.whole self.source).ending ≡ Some End))
            (SearchFails (list_all p (filter_map f (Src.whole self.source).items) ≡ true) ⊥ 1 None (Src.whole self.source)) }
        ensures alone { IfErr result HasEnded }
    {
        told_not(self.select(by).contains(false))
    }
}
