use std::alloc::Global;
use std::fmt::Display;

/// Whether a fault has this text. In one place, since a text costs much to prove.
pub fn says<T: Display>(alloc: Global, fault: &T, text: &str) -> bool {
    match format!(in alloc; "{fault}") {
        Ok(words) => words.as_str() == text,
        Err(_) => false,
    }
}
