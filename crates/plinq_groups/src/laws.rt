//! What groups and steps are, each law the contract of a function with nothing to do.
ghost use Rattle.std.specs.Prelude.{◌≡◌, ℕ, List, [], ◌∷◌, take, Option, None, Result, Ok};
ghost use Rattle.std.specs.List.{filter_map};
ghost use Rattle.plinq_aggregate.specs.Folding.{Folding, fold_of};
ghost use Rattle.plinq_groups.specs.Lasting.{last_of, picking_last};
ghost use Rattle.plinq_groups.specs.Singles.{being_single, only_of};
ghost use Rattle.plinq_groups.specs.Groups.{grouping};
ghost use Rattle.plinq_groups.specs.FirstGroup.{of_key, of_others};
ghost use Rattle.plinq_groups.specs.Topped.{topping, ranked_items};
ghost use Rattle.plinq_groups.specs.Mapping.{mapped_items};
ghost use Rattle.plinq_groups.specs.Composed.{then_made, two_passes};
ghost use Rattle.plinq_groups.specs.FoldedEach.{folding_each};

/// The first group has the key of the first item, and folds that item and all others of its key in their order. The other
/// groups are those of the items that have other keys. Of no items there are none.
pub fn first_group_is_of_the_first_item<K: Eq, T, A, O>()
    ensures first { (key : T → K) (f : Folding T A O) (x : T) (xs : List T) →
        fold_of (grouping K.eq key f) (x ∷ xs)
        ≡ (key x, fold_of f (x ∷ of_key K.eq key (key x) xs)) ∷ fold_of (grouping K.eq key f) (of_others K.eq key (key x) xs) }
    ensures none { (key : T → K) (f : Folding T A O) → fold_of (grouping K.eq key f) [] ≡ [] }
{}

/// The items of the greatest ranks are the first of all in descending order of rank, in which equal ones stand as they came.
pub fn top_is_the_first_of_the_ranked<K: Ord, T>()
    ensures { (rank : T → K) (n : ℕ) (xs : List T) → fold_of (topping rank K.cmp n) xs ≡ take n (ranked_items rank K.cmp xs) }
{}

/// What [`Last`](crate::Last) finds is the last item, if there is one.
pub fn last_is_the_last_item<T>()
    ensures { (xs : List T) → fold_of picking_last xs ≡ last_of xs }
{}

/// What [`Single`](crate::Single) finds is the only item, or that there is none or more than one.
pub fn single_is_the_only_item<T>()
    ensures { (xs : List T) → fold_of being_single xs ≡ only_of xs }
{}

/// Steps that never fault make what Rust's `filter_map` makes, in the order of the items.
pub fn steps_are_filter_map<T, B>()
    ensures { (step : T → Option B) (xs : List T) → mapped_items (λ x. Ok (step x)) xs ≡ (filter_map step xs, None) }
{}

/// Two steps on each item ([`Then`](crate::Then)) make what two passes make, the second over what the first has made. They end
/// with the code of the second pass, or else of the first.
pub fn two_steps_are_two_passes<A, B, C>()
    ensures { (first : A → Result (Option B) ℕ) (second : B → Result (Option C) ℕ) (xs : List A) →
        mapped_items (λ x. then_made (first x) second) xs ≡ two_passes first second xs }
{}

/// What [`FoldEach`](crate::FoldEach) folds is all that was made up to the first item that faults, whose code stands beside it.
pub fn what_is_made_is_folded<T, B, A, O>()
    ensures { (step : T → Result (Option B) ℕ) (f : Folding B A O) (xs : List T) →
        fold_of (folding_each step f) xs ≡ (fold_of f (mapped_items step xs).0, (mapped_items step xs).1) }
{}
