use std::alloc::{AllocError, Global};

/// Some numbers that look like chance (xorshift).
pub fn numbers(alloc: Global, seed: u64, count: u64) -> Result<Vec<i64>, AllocError> {
    let mut number = seed;
    let mut items = Vec::new(alloc);
    for _item in 0..count {
        number ^= number << 13;
        number ^= number >> 7;
        number ^= number << 17;
        items.push((number % 1000) as i64)?;
    }
    Ok(items)
}
