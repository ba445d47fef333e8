/// The most items that a source may have.
pub(crate) const MOST_ITEMS: u64 = 1 << 40;
