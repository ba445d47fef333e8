use thiserror::Error;

/// Why three numbers are no growth of chunks.
#[derive(Clone, Copy, Debug, PartialEq, Eq, Error)]
pub enum GrowthFault {
    /// One of the three numbers is 0.
    #[error("growth: zero")]
    Zero,
    /// The first size is above the largest.
    #[error("growth: first above max")]
    FirstAboveMax,
    /// The largest size is above 65,536.
    #[error("growth: max too large")]
    MaxTooLarge,
}
