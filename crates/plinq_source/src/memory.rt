use std::alloc::{AllocError, AllocFailed};
use thiserror::Error;

/// Memory ran out: a growth that the call needed was refused.
#[derive(Clone, Copy, Debug, PartialEq, Eq, Error)]
#[error("out of memory")]
pub struct OutOfMemory;

impl From<AllocError> for OutOfMemory {
    fn from(_: AllocError) -> OutOfMemory {
        OutOfMemory
    }
}

impl<T: Drop> From<AllocFailed<T>> for OutOfMemory {
    fn from(_: AllocFailed<T>) -> OutOfMemory {
        OutOfMemory
    }
}
