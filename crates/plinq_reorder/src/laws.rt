//! What the crates above rest on, of any intervals.
ghost use Rattle.std.specs.Prelude.{◌≡◌, ◌<◌, ◌≤◌, ◌||◌, ◌++◌, ℕ, List, Bool, true, false, All};
ghost use Rattle.plinq_reorder.specs.Intervals.{Interval, is_within, has_key, are_apart, IsFree, insert, unbroken_row, first_gap, IsRow};

/// What is true of each interval, and of one more, is true of all with that one.
pub fn each_stays_true<P>()
    ensures { (test : Interval P → Bool) (ps : List (Interval P)) (first end : ℕ) (payload : P) → All (λ p. test p ≡ true) ps →
        test (first, record { end = end; payload = payload }) ≡ true → All (λ p. test p ≡ true) (insert ps first end payload) }
{}

/// With one interval more there are its keys beside the others.
pub fn inserted_keys_are_there<P>()
    ensures { (start first end : ℕ) (payload : P) (ps : List (Interval P)) (key : ℕ) → are_apart start ps ≡ true → first < end →
        IsFree ps first end → has_key (insert ps first end payload) key ≡ (has_key ps key || is_within first end key) }
{}

/// Intervals stay apart with one more of free keys.
pub fn intervals_stay_apart<P>()
    ensures { (start first end : ℕ) (payload : P) (ps : List (Interval P)) → are_apart start ps ≡ true → start ≤ first → first < end →
        IsFree ps first end → are_apart start (insert ps first end payload) ≡ true }
{}

/// The key of the first gap is in no interval, and each key before it is in one.
pub fn the_first_gap_is_missing<P>()
    ensures missing { (key : ℕ) (ps : List (Interval P)) → are_apart key ps ≡ true → has_key ps (first_gap key ps) ≡ false }
    ensures covered { (key : ℕ) (ps : List (Interval P)) (k : ℕ) → key ≤ k → k < first_gap key ps → has_key ps k ≡ true }
{}

/// After a row of intervals, the unbroken row is that row and what follows it without a gap.
pub fn a_row_goes_on<P>()
    ensures { (from : ℕ) (done : List (Interval P)) (to : ℕ) (rest : List (Interval P)) → IsRow from done to →
        (unbroken_row from (done ++ rest) ≡ done ++ unbroken_row to rest) × (first_gap from (done ++ rest) ≡ first_gap to rest) }
{}
