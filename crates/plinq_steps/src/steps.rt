ghost use Rattle.std.specs.Prelude.{◌≡◌, Option, true};
ghost use Rattle.plinq_steps.specs.Enough.{KeepsAll};

/// What the steps of a query make of an item of its source, each a closure.
pub trait Steps {
    /// What the source gives.
    type From: Copy;

    /// What the last step gives.
    type To: Copy;

    // Each closure may be called with each item.
    ghost is_called: { Self → Type 0 };

    // There is one way in which it may.
    ghost in_one_way: { Self → Type 0 };

    // Each closure has an answer to each item.
    ghost gives: { Self → Type 0 };

    // It has no other.
    ghost gives_one: { Self → Type 0 };

    // What the steps may make of an item: nothing if one of them leaves it out.
    ghost makes: { Self → Self.From → Option Self.To → Type 0 };

    /// Applies the steps to an item. Nothing is made of one that is left out.
    fn step(&self, x: Self::From) -> Option<Self::To>
        requires { is_called self.now }
        ensures { makes self.now x result };

    /// Whether something is made of each item, so far as that is known before one comes.
    fn keeps_all(&self) -> bool
        ensures { result ≡ true → KeepsAll (makes self.now) }
    {
        false
    }

    ghost one_call: { (s : Self) → in_one_way s → (a b : is_called s) → a ≡ b };

    ghost makes_some: { (s : Self) → gives s → (x : Self.From) → (r : Option Self.To) × makes s x r };

    ghost makes_one: { (s : Self) → gives_one s → (x : Self.From) (r q : Option Self.To) → makes s x r → makes s x q → q ≡ r };
}
