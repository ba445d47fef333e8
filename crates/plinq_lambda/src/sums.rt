//! Blocks of numbers that are so near to zero that no sum gets too large.
ghost use Rattle.std.specs.Prelude.{◌≡◌, ◌≤◌, ◌^◌, ◌≤ℤ◌, neg_ℤ, pos, length, true, None};
ghost use Rattle.plinq_lambda.specs.Block.{mapped_block};
ghost use Rattle.plinq_lambda.specs.Formula.{formula_meaning};
ghost use Rattle.plinq_lambda.specs.declared.formula.Formula.TheVariants.{Add};
ghost use Rattle.plinq_lambda.specs.inner.Sums.{sums_fit};

/// Numbers from `-NEAR` up to, not including, `NEAR` have sums that are `i64`s.
pub(crate) const NEAR: i64 = 1 << 62;

/// Whether `c` may be added to each number of a block, as far as one look at all of them together shows.
pub(crate) fn are_near(c: i64, block: &[i64]) -> bool
    requires from { neg_ℤ (pos (2 ^ 62)) ≤ℤ c }
    requires to { c ≤ℤ pos (2 ^ 62) }
    ensures { result ≡ true → sums_fit c block.now ≡ true }
{
    let mut bits: u64 = 0;
    for at in 0..block.len() {
        bits |= block[at].cast_unsigned().wrapping_add(1 << 62);
    }
    bits < 1 << 63
}

/// Adds `c` to each number of a block in which that gives an `i64` each time.
pub(crate) fn add_each(c: i64, block: &mut [i64])
    requires { sums_fit c block.old ≡ true }
    ensures len { length block.new ≡ length block.old }
    ensures mapped { record { items = block.new; fault = None } ≡ mapped_block (formula_meaning (Add c)).map block.old }
{
    for item in block.iter_mut() {
        *item += c;
    }
}
