use thiserror::Error;

/// A writer took no more: it answered an error, or took none of the bytes that it was given.
#[derive(Clone, Copy, Debug, PartialEq, Eq, Error)]
#[error("write failed")]
pub struct WriteFault;
