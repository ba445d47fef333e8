ghost use Rattle.std.specs.Prelude.{◌≡◌, ◌+ℤ◌};
ghost use Rattle.std.specs.Int.{int_max, int_min, int_wrap, w128};
ghost use Rattle.plinq_tally.specs.Figures.{first_figure, with_number};

use plinq_text::Number;

/// What numbers come to, in billionths: how many they are, their sum, the least and the greatest.
#[derive(Clone, Copy, Debug, PartialEq, Eq)]
pub struct Figure {
    /// How many came, modulo 2^64.
    pub count: u64,
    /// Their sum, modulo 2^128, from -2^127 on. No sum of 2^33 numbers that are less than 2^64 comes near the ends.
    pub sum: i128,
    /// The least.
    pub least: i128,
    /// The greatest.
    pub greatest: i128,
}

impl Figure {
    /// That of one number.
    pub(crate) fn of(number: Number) -> Figure
        ensures { result ≡ first_figure number.billionths }
    {
        Figure {
            count: 1,
            sum: number.billionths,
            least: number.billionths,
            greatest: number.billionths,
        }
    }

    /// With a number more.
    pub(crate) fn with(self, number: Number) -> Figure
        ensures { result ≡ with_number number.billionths self }
    {
        Figure {
            count: self.count.wrapping_add(1),
            sum: sum_of(self.sum, number.billionths),
            least: least_of(self.least, number.billionths),
            greatest: greatest_of(self.greatest, number.billionths),
        }
    }
}

fn sum_of(a: i128, b: i128) -> i128
    ensures { result ≡ int_wrap w128 (a +ℤ b) }
{
    a.wrapping_add(b)
}

fn least_of(a: i128, b: i128) -> i128
    ensures { result ≡ int_min a b }
{
    a.min(b)
}

fn greatest_of(a: i128, b: i128) -> i128
    ensures { result ≡ int_max a b }
{
    a.max(b)
}
