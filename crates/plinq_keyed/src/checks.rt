ghost use Rattle.std.specs.Prelude.{◌≡◌, ◌<◌, ◌^◌};
ghost use Rattle.plinq_keyed.specs.Keys.{element_lists, key_lists, keys, ordered_in_each, ordered_across, rises};
ghost use Rattle.plinq_keyed.specs.inner.Sweeps.{all_from, least_after};

use crate::keyed::Keyed;

/// Whether each partition yields its elements by strictly rising keys (.NET's `KeysOrderedInEachPartition`).
///
/// Takes no memory, and one step an element.
pub fn check_in_each<T>(parts: &[Vec<Keyed<T>>]) -> bool
    ensures { result ≡ ordered_in_each (key_lists (element_lists parts.now)) }
{
    for part in parts {
        if !keys_rise(part) {
            return false;
        }
    }
    true
}

/// Whether each key of an earlier partition is below each key of a later one (.NET's
/// `KeysOrderedAcrossPartitions`).
///
/// Takes no memory, and two steps an element.
pub fn check_across<T>(parts: &[Vec<Keyed<T>>]) -> bool
    ensures { result ≡ ordered_across (key_lists (element_lists parts.now)) }
{
    let mut least: u128 = 0;
    for part in parts {
        if !keys_from(part, least) {
            return false;
        }
        least = least_above(part, least);
    }
    true
}

/// Whether the keys rise strictly.
fn keys_rise<T>(part: &[Keyed<T>]) -> bool
    ensures { result ≡ rises (keys part.now) }
{
    let mut least: u128 = 0;
    for element in part {
        let key = u128::from(element.key);
        if key < least {
            return false;
        }
        least = key + 1;
    }
    true
}

/// Whether each key is at least that number.
fn keys_from<T>(part: &[Keyed<T>], least: u128) -> bool
    ensures { result ≡ all_from least (keys part.now) }
{
    for element in part {
        if u128::from(element.key) < least {
            return false;
        }
    }
    true
}

/// The least number that is above each key, and not below the one that is given.
fn least_above<T>(part: &[Keyed<T>], given: u128) -> u128
    requires { given < 2 ^ 65 }
    ensures least { result ≡ least_after given (keys part.now) }
    ensures small { result < 2 ^ 65 }
{
    let mut least = given;
    for element in part {
        least = least.max(u128::from(element.key) + 1);
    }
    least
}
