ghost use Rattle.std.specs.Prelude.{◌≡◌, false};

use crate::query::Query;
use plinq_steps::{
    Filtered, Indexed, Positional, Selected, Skipped, SkippedWhile, Start, Steps, Taken,
    TakenWhile, Then, Whole, Zipped,
};

/// A query whose items, once they are in the order of the source, go through steps by position on the thread that asks.
///
/// ```text
/// let some = from(SliceSource::new(&numbers)?)
///     .as_parallel()
///     .filter(|x: i64| -> bool ensures { result ≡ int_lt (pos 2) x } { x > 2 })
///     .skip(10)
///     .take(5)
///     .to_vec(&rt, alloc)?;
/// ```
#[derive(Drop)]
pub struct Merged<Src, S, B, L> {
    pub query: Query<Src, S, B>,
    pub then: L,
}

impl<Src, S: Steps, B> Query<Src, S, B> {
    /// The first items that the steps make, so many or all if there are fewer (.NET's `Take`, rayon's `take`). The source is left
    /// once they are there.
    pub fn take(self, count: u64) -> Merged<Src, S, B, Taken<Whole<S::To>>>
        ensures { (result.query ≡ self) × (result.then.left ≡ count) }
    {
        Merged {
            query: self,
            then: Taken {
                before: Whole::new(),
                left: count,
            },
        }
    }

    /// All but the first items that the steps make, so many (.NET's `Skip`, rayon's `skip`).
    pub fn skip(self, count: u64) -> Merged<Src, S, B, Skipped<Whole<S::To>>>
        ensures { (result.query ≡ self) × (result.then.left ≡ count) }
    {
        Merged {
            query: self,
            then: Skipped {
                before: Whole::new(),
                left: count,
            },
        }
    }

    /// The items before the first that a closure fails (.NET's `TakeWhile`, Rust's `take_while`). The source is left once it is
    /// there. rayon's `take_any_while` isn't the same: it keeps items that come after one that fails.
    pub fn take_while<F: Fn(S::To) -> bool>(
        self,
        by: F,
    ) -> Merged<Src, S, B, TakenWhile<Whole<S::To>, F>>
        ensures { (result.query ≡ self) × (result.then.by ≡ by) × (result.then.over ≡ false) }
    {
        Merged {
            query: self,
            then: TakenWhile {
                before: Whole::new(),
                by,
                over: false,
            },
        }
    }

    /// The first item that a closure fails, and all after it (.NET's `SkipWhile`, Rust's `skip_while`).
    pub fn skip_while<F: Fn(S::To) -> bool>(
        self,
        by: F,
    ) -> Merged<Src, S, B, SkippedWhile<Whole<S::To>, F>>
        ensures { (result.query ≡ self) × (result.then.by ≡ by) × (result.then.past ≡ false) }
    {
        Merged {
            query: self,
            then: SkippedWhile {
                before: Whole::new(),
                by,
                past: false,
            },
        }
    }

    /// Each item that the steps make beside its position, from 0 on (.NET's `Index`, Rust's `enumerate`).
    ///
    /// ```text
    /// let found = from(SliceSource::new(&lines)?)
    ///     .as_parallel()
    ///     .index()
    ///     .filter(|p: (u64, &str)| -> bool ensures { result ≡ nat_lt p.entry.0 100 } { p.0 < 100 })
    /// ```
    pub fn index(self) -> Merged<Src, S, B, Indexed<Whole<S::To>>>
        ensures { (result.query ≡ self) × (result.then.next ≡ 0) }
    {
        Merged {
            query: self,
            then: Indexed {
                before: Whole::new(),
                next: 0,
            },
        }
    }

    /// Each item that the steps make beside the one of a list that stands at its position, up to the end of either (.NET's `Zip`,
    /// rayon's `zip`). The source is left once the list is over.
    pub fn zip<'a, U: Copy>(self, with: &'a [U]) -> Merged<Src, S, B, Zipped<'a, Whole<S::To>, U>>
        ensures { (result.query ≡ self) × (result.then.with.now ≡ with.now) }
    {
        Merged {
            query: self,
            then: Zipped {
                before: Whole::new(),
                with,
            },
        }
    }
}

impl<Src, S, B, L: Positional> Merged<Src, S, B, L> {
    /// As [`Query::take`], of what the steps before it make.
    pub fn take(self, count: u64) -> Merged<Src, S, B, Taken<L>>
        ensures { (result.query ≡ self.query) × (result.then.before ≡ self.then) × (result.then.left ≡ count) }
    {
        Merged {
            query: self.query,
            then: Taken {
                before: self.then,
                left: count,
            },
        }
    }

    /// As [`Query::skip`], of what the steps before it make.
    pub fn skip(self, count: u64) -> Merged<Src, S, B, Skipped<L>>
        ensures { (result.query ≡ self.query) × (result.then.before ≡ self.then) × (result.then.left ≡ count) }
    {
        Merged {
            query: self.query,
            then: Skipped {
                before: self.then,
                left: count,
            },
        }
    }

    /// As [`Query::take_while`], of what the steps before it make.
    pub fn take_while<F: Fn(L::To) -> bool>(self, by: F) -> Merged<Src, S, B, TakenWhile<L, F>>
        ensures { (result.query ≡ self.query) × (result.then.before ≡ self.then) × (result.then.by ≡ by) × (result.then.over ≡ false) }
    {
        Merged {
            query: self.query,
            then: TakenWhile {
                before: self.then,
                by,
                over: false,
            },
        }
    }

    /// As [`Query::skip_while`], of what the steps before it make.
    pub fn skip_while<F: Fn(L::To) -> bool>(self, by: F) -> Merged<Src, S, B, SkippedWhile<L, F>>
        ensures { (result.query ≡ self.query) × (result.then.before ≡ self.then) × (result.then.by ≡ by) × (result.then.past ≡ false) }
    {
        Merged {
            query: self.query,
            then: SkippedWhile {
                before: self.then,
                by,
                past: false,
            },
        }
    }

    /// As [`Query::index`], of what the steps before it make.
    pub fn index(self) -> Merged<Src, S, B, Indexed<L>>
        ensures { (result.query ≡ self.query) × (result.then.before ≡ self.then) × (result.then.next ≡ 0) }
    {
        Merged {
            query: self.query,
            then: Indexed {
                before: self.then,
                next: 0,
            },
        }
    }

    /// As [`Query::zip`], of what the steps before it make.
    pub fn zip<'a, U: Copy>(self, with: &'a [U]) -> Merged<Src, S, B, Zipped<'a, L, U>>
        ensures { (result.query ≡ self.query) × (result.then.before ≡ self.then) × (result.then.with.now ≡ with.now) }
    {
        Merged {
            query: self.query,
            then: Zipped {
                before: self.then,
                with,
            },
        }
    }

    /// Makes something of each item that is left, of any type, on the thread that asks (.NET's `Select`).
    pub fn select<U: Copy, F: Fn(L::To) -> U>(
        self,
        by: F,
    ) -> Merged<Src, S, B, Then<L, Selected<Start<L::To>, F>>>
        ensures { (result.query ≡ self.query) × (result.then.before ≡ self.then) × (result.then.steps.by ≡ by) }
    {
        Merged {
            query: self.query,
            then: Then {
                before: self.then,
                steps: Selected {
                    before: Start::new(),
                    by,
                },
            },
        }
    }

    /// Keeps the items that pass, on the thread that asks (.NET's `Where`).
    pub fn filter<F: Fn(L::To) -> bool>(
        self,
        by: F,
    ) -> Merged<Src, S, B, Then<L, Filtered<Start<L::To>, F>>>
        ensures { (result.query ≡ self.query) × (result.then.before ≡ self.then) × (result.then.steps.by ≡ by) }
    {
        Merged {
            query: self.query,
            then: Then {
                before: self.then,
                steps: Filtered {
                    before: Start::new(),
                    by,
                },
            },
        }
    }
}
