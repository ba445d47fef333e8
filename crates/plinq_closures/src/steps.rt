ghost use Rattle.std.specs.Prelude.{◌≡◌, ◌≤◌, ℕ, List, length, take, Bool, Result, IfSome, ⊤};
ghost use Rattle.plinq_lambda.specs.Block.{mapped_block, filtered_block, passing_block};
ghost use Rattle.plinq_lambda.specs.Meaning.{Meaning};
ghost use Rattle.plinq_ops.specs.declared.op.Op.{Op};
ghost use Rattle.plinq_closures.specs.BlockSteps.{GivesBlock};
ghost use Rattle.plinq_closures.specs.Steps.{kind_at, GivesSome, GivesOne, ComesTo};

use plinq_ops::Op;

/// The steps of a chain of closures, numbered from its last, which is 0.
pub trait Steps {
    /// What each step takes and gives.
    type Item: Copy;

    // Each closure may be called with each item.
    ghost is_called: { Self → Type 0 };

    // There is one way in which it may.
    ghost in_one_way: { Self → Type 0 };

    // Each closure has an answer to each item.
    ghost gives: { Self → Type 0 };

    // It has no other.
    ghost gives_one: { Self → Type 0 };

    // The steps are these operators.
    ghost does: { Self → List (Op (Meaning Self.Item)) → Type 0 };

    // What each step is, the last first.
    ghost kinds: { Self → List (Op ⊤) };

    // What a step may map an item to.
    ghost maps: { Self → ℕ → Self.Item → Result Self.Item ℕ → Type 0 };

    // What a step may say of an item that it tests.
    ghost tests: { Self → ℕ → Self.Item → Result Bool ℕ → Type 0 };

    /// How many steps there are.
    fn count(&self) -> Option<u64>
        ensures { IfSome result (λ n. n ≡ length (kinds self.now)) };

    /// What the step of this number is.
    fn kind(&self, at: u64) -> Op<()>
        ensures { result ≡ kind_at (kinds self.now) at };

    /// Maps an item by the step of this number.
    ///
    /// # Errors
    ///
    /// The code that the closure answers; 0 if the step doesn't map.
    fn map(&self, at: u64, x: Self::Item) -> Result<Self::Item, u32>
        requires { is_called self.now }
        ensures { maps self.now at x result };

    /// Tests an item by the step of this number.
    ///
    /// # Errors
    ///
    /// The code that the closure answers; 0 if the step doesn't test.
    fn test(&self, at: u64, x: Self::Item) -> Result<bool, u32>
        requires { is_called self.now }
        ensures { tests self.now at x result };

    /// Maps the items of a block in their places by the step of this number, as [`Lambda::map_block`](plinq_lambda::Lambda)
    /// does: the step is looked up once.
    fn map_block(&self, at: u64, block: &mut [Self::Item]) -> (usize, Option<u32>)
        requires { is_called self.now }
        ensures within { result.0 ≤ length block.new }
        ensures mapped { GivesBlock mapped_block (maps self.now at) block.old
            (record { items = take result.0 block.new; fault = result.1 }) };

    /// Brings the items of a block that pass the step of this number to its front, as `Lambda::filter_block` does.
    fn filter_block(&self, at: u64, block: &mut [Self::Item]) -> (usize, Option<u32>)
        requires { is_called self.now }
        ensures within { result.0 ≤ length block.new }
        ensures filtered { GivesBlock filtered_block (tests self.now at) block.old
            (record { items = take result.0 block.new; fault = result.1 }) };

    /// How many items of a block pass the step of this number before the first that doesn't, as `Lambda::count_passing` says.
    fn count_passing(&self, at: u64, block: &[Self::Item]) -> (usize, Option<u32>)
        requires { is_called self.now }
        ensures within { result.0 ≤ length block.now }
        ensures passing { GivesBlock passing_block (tests self.now at) block.now
            (record { items = take result.0 block.now; fault = result.1 }) };

    ghost one_call: { (s : Self) → in_one_way s → (a b : is_called s) → a ≡ b };

    ghost map_gives: { (s : Self) → gives s → GivesSome (maps s) };

    ghost test_gives: { (s : Self) → gives s → GivesSome (tests s) };

    ghost map_gives_one: { (s : Self) → gives_one s → GivesOne (maps s) };

    ghost test_gives_one: { (s : Self) → gives_one s → GivesOne (tests s) };

    ghost comes_to: { (s : Self) → gives_one s → ComesTo (kinds s) (maps s) (tests s) (does s) };
}
