use thiserror::Error;

/// Why a lock wasn't taken, or wasn't taken apart.
#[derive(Clone, Copy, Debug, PartialEq, Eq, Error)]
pub enum LockFault {
    /// All tickets were drawn: there are 2^62 of them, counted from 0.
    #[error("lock: tickets spent")]
    Spent,
    /// Others came before: tickets below `drawn` were drawn, and those below `served` have left.
    #[error("lock: busy, {served} served of {drawn} drawn")]
    Busy {
        /// How many tickets were served.
        served: u64,
        /// How many tickets were drawn.
        drawn: u64,
    },
    /// The passes that were given back have `have` records of `all`: some pass is missing.
    #[error("lock: incomplete, {have} records of {all}")]
    Incomplete {
        /// The records of the passes that were given back.
        have: u64,
        /// The records of the value.
        all: u64,
    },
    /// There was no memory to make it.
    #[error("lock: out of memory")]
    Memory,
    /// A pass waits or is inside, so the value isn't there.
    #[error("lock: away")]
    Away,
}
