ghost use Rattle.std.specs.Prelude.{◌≡◌};
ghost use Rattle.std.specs.List.{fold};
ghost use Rattle.plinq_bench.specs.Spinning.{turn, spun, spin, mix};

const FACTOR: u64 = 6_364_136_223_846_793_005;

const SUMMAND: u64 = 1_442_695_040_888_963_407;

/// An element after so many turns of a generator of random numbers, 500 of which take about 0.7 microseconds.
#[inline(never)]
pub(crate) fn spin(x: i64, turns: u64) -> i64
    ensures { result ≡ spin x turns }
{
    spun(x.cast_unsigned(), turns).cast_signed()
}

fn spun(start: u64, turns: u64) -> u64
    ensures { result ≡ spun start turns }
{
    let mut h = start;
    for i in 0..turns {
        h = turn(h, i);
    }
    h
}

fn turn(h: u64, i: u64) -> u64
    ensures { result ≡ turn h i }
{
    (h ^ i).wrapping_mul(FACTOR).wrapping_add(SUMMAND)
}

/// A sum that depends on the order of the elements, with one more.
pub(crate) fn mix(sum: u64, x: i64) -> u64
    ensures { result ≡ mix sum x }
{
    sum.wrapping_mul(31).wrapping_add(x.cast_unsigned())
}

/// That sum with all of these.
pub(crate) fn mix_all(sum: u64, items: &[i64]) -> u64
    ensures { result ≡ fold mix sum items.now }
{
    items.iter().fold(sum, |sum, x| mix(sum, *x))
}
