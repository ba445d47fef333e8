ghost use Rattle.std.specs.Prelude.{◌≡◌, option_map};
ghost use Rattle.serde_json.specs.View.{view, items_view};
ghost use Rattle.plinq_document.specs.JsonValues.{only_item, only_whole_number, only_count};

use serde_json::Value;

/// The only item, if there is just one.
pub(crate) fn only_item(items: &[Value]) -> Option<&Value>
    ensures { option_map (λ v. view v.now) result ≡ only_item (items_view items.now) }
{
    let (value, rest) = items.split_first()?;
    match rest.split_first() {
        None => Some(value),
        Some(_) => None,
    }
}

/// The only item, a whole number.
pub(crate) fn only_whole_number(items: &[Value]) -> Option<i64>
    ensures { result ≡ only_whole_number (items_view items.now) }
{
    only_item(items)?.as_i64()
}

/// The only item, a count.
pub(crate) fn only_count(items: &[Value]) -> Option<u64>
    ensures { result ≡ only_count (items_view items.now) }
{
    only_item(items)?.as_u64()
}
