ghost use Rattle.std.specs.Prelude.{◌≡◌, Option, IfSome, List, [], Bool, true, false, length, ◌≤◌};
ghost use Rattle.plinq_steps.specs.Enough.{IsEnough, Brings};
ghost use Rattle.plinq_steps.specs.Means.{GoesOn};

/// Steps that go by an item's position: items come to them one after another, and they remember what came.
pub trait Positional {
    /// What comes.
    type From: Copy;

    /// What the last step gives.
    type To: Copy;

    // Each closure may be called with each item.
    ghost is_called: { Self → Type 0 };

    // There is one way in which it may.
    ghost in_one_way: { Self → Type 0 };

    // Each closure has at most one answer to each item.
    ghost gives_one: { Self → Type 0 };

    // What the steps may make of the next item, nothing if one of them leaves it out, and what they are then.
    ghost turns: { Self → Self.From → Option Self.To → Self → Type 0 };

    // They make no more, whatever comes.
    ghost ended: { Self → Bool };

    // What they make of a list, and whether that is decided, whatever comes after the list.
    ghost means: { Self → (List Self.From → List Self.To) → (List Self.From → Bool) → Type 0 };

    /// Applies the steps to the next item. Nothing is made of one that is left out.
    fn next(&mut self, x: Self::From) -> Option<Self::To>
        requires { is_called self.old }
        ensures { turns self.old x result self.new };

    /// Whether they make no more, whatever comes.
    fn has_ended(&self) -> bool
        ensures { result ≡ ended self.now };

    /// After how many items it is decided what these steps make, if that is known before one comes. So no more need be asked for.
    fn enough(&self) -> Option<u64>
        ensures { IfSome result (λ n. IsEnough (means self.now) n) }
    {
        None
    }

    /// Of how many items these steps make so many, if that is known before one comes.
    fn needs(&self, count: u64) -> Option<u64>
        ensures { IfSome result (λ n. Brings (means self.now) count n) }
    {
        None
    }

    ghost one_call: { (s : Self) → in_one_way s → (a b : is_called s) → a ≡ b };

    ghost goes_on: { (s : Self) → gives_one s → ended s ≡ false → (g : List Self.From → List Self.To) (d : List Self.From → Bool) → means s g d
        → (x : Self.From) (o : Option Self.To) (t : Self) → turns s x o t → GoesOn (means t) g d x o };

    ghost at_end: { (s : Self) → ended s ≡ true → (g : List Self.From → List Self.To) (d : List Self.From → Bool) → means s g d
        → (xs : List Self.From) → (g xs ≡ []) × (d xs ≡ true) };

    ghost of_none: { (s : Self) → ended s ≡ false → (g : List Self.From → List Self.To) (d : List Self.From → Bool) → means s g d
        → (g [] ≡ []) × (d [] ≡ false) };

    ghost few: { (s : Self) (g : List Self.From → List Self.To) (d : List Self.From → Bool) → means s g d → (xs : List Self.From)
        → length (g xs) ≤ length xs };
}
