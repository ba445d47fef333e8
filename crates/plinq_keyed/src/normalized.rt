ghost use Rattle.std.specs.Prelude.{◌≡◌, ◌&&◌, length, true};
ghost use Rattle.std.specs.List.{concat};
ghost use Rattle.plinq_keyed.specs.Keys.{element_lists, key_lists, keys, ordered_in_each, normalized, rises, is_among, are_distinct};
ghost use Rattle.plinq_keyed.specs.inner.Sweeps.{all_below, are_disjoint};

use crate::checks::check_in_each;
use crate::keyed::Keyed;

/// Whether the keys of all partitions are the numbers from 0 on, each once (.NET's `KeysNormalized`).
///
/// Takes no memory. If the keys of each partition rise, as those of every partitioner here do, each two partitions
/// are walked once. So the steps are at most the elements times the partitions. For keys in no order each is compared
/// with each, so the steps may be the square of the elements.
pub fn check_normalized<T>(parts: &[Vec<Keyed<T>>]) -> bool
    ensures { result ≡ normalized (key_lists (element_lists parts.now)) }
{
    if !all_keys_below(parts, count_elements(parts)) {
        false
    } else if check_in_each(parts) {
        rising_keys_differ(parts)
    } else {
        keys_differ(parts)
    }
}

/// How many elements there are, in 128 bits: nothing bounds what all partitions hold together.
fn count_elements<T>(parts: &[Vec<Keyed<T>>]) -> u128
    ensures { result ≡ length (concat (key_lists (element_lists parts.now))) }
{
    let mut count: u128 = 0;
    for part in parts {
        count += part.len() as u128;
    }
    count
}

/// Whether each key is below that number.
fn all_keys_below<T>(parts: &[Vec<Keyed<T>>], bound: u128) -> bool
    ensures { result ≡ all_below bound (concat (key_lists (element_lists parts.now))) }
{
    for part in parts {
        if !keys_below(part, bound) {
            return false;
        }
    }
    true
}

fn keys_below<T>(part: &[Keyed<T>], bound: u128) -> bool
    ensures { result ≡ all_below bound (keys part.now) }
{
    for element in part {
        if u128::from(element.key) >= bound {
            return false;
        }
    }
    true
}

/// Whether no key comes twice, if the keys of each partition rise.
fn rising_keys_differ<T>(parts: &[Vec<Keyed<T>>]) -> bool
    requires { ordered_in_each (key_lists (element_lists parts.now)) ≡ true }
    ensures { result ≡ are_distinct (concat (key_lists (element_lists parts.now))) }
{
    for place in 0..parts.len() {
        let (_, later) = parts.split_at(place + 1);
        if !are_disjoint_from_all(&parts[place], later) {
            return false;
        }
    }
    true
}

/// Whether a partition has no key of any of the others.
fn are_disjoint_from_all<T>(part: &[Keyed<T>], others: &[Vec<Keyed<T>>]) -> bool
    requires part { rises (keys part.now) ≡ true }
    requires others { ordered_in_each (key_lists (element_lists others.now)) ≡ true }
    ensures { result ≡ are_disjoint (keys part.now) (concat (key_lists (element_lists others.now))) }
{
    for other in others {
        if !are_disjoint(part, other) {
            return false;
        }
    }
    true
}

/// Whether two partitions have no key in common: both are walked at once, the one with the lower key first.
fn are_disjoint<T>(left: &[Keyed<T>], right: &[Keyed<T>]) -> bool
    requires left { rises (keys left.now) ≡ true }
    requires right { rises (keys right.now) ≡ true }
    ensures { result ≡ are_disjoint (keys left.now) (keys right.now) }
{
    let mut at = 0;
    let mut by = 0;
    while at < left.len() && by < right.len() {
        let key = left[at].key;
        let other = right[by].key;
        if key == other {
            return false;
        }
        if key < other {
            at += 1;
        } else {
            by += 1;
        }
    }
    true
}

/// Whether no key comes twice, each being looked for among all that come after it.
fn keys_differ<T>(parts: &[Vec<Keyed<T>>]) -> bool
    ensures { result ≡ are_distinct (concat (key_lists (element_lists parts.now))) }
{
    for place in 0..parts.len() {
        let (_, later) = parts.split_at(place + 1);
        if !are_found_once(&parts[place], later) {
            return false;
        }
    }
    true
}

/// Whether the keys of a partition differ from one another, and from all keys of later ones.
fn are_found_once<T>(part: &[Keyed<T>], later: &[Vec<Keyed<T>>]) -> bool
    ensures { result ≡ (are_distinct (keys part.now) && are_disjoint (keys part.now) (concat (key_lists (element_lists later.now)))) }
{
    for place in 0..part.len() {
        let key = part[place].key;
        let (_, following) = part.split_at(place + 1);
        if has_key(following, key) || some_has_key(later, key) {
            return false;
        }
    }
    true
}

fn some_has_key<T>(parts: &[Vec<Keyed<T>>], key: u64) -> bool
    ensures { result ≡ is_among (concat (key_lists (element_lists parts.now))) key }
{
    for part in parts {
        if has_key(part, key) {
            return true;
        }
    }
    false
}

fn has_key<T>(part: &[Keyed<T>], key: u64) -> bool
    ensures { result ≡ is_among (keys part.now) key }
{
    for element in part {
        if element.key == key {
            return true;
        }
    }
    false
}
