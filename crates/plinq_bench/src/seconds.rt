use std::fmt;
use std::time::Duration;

/// A time, printed in seconds to the microsecond.
#[derive(Drop)]
pub(crate) struct Seconds(pub(crate) Duration);

impl fmt::Display for Seconds {
    fn fmt<W: fmt::Write>(&self, f: &mut fmt::Formatter<W>) -> fmt::Result {
        let took = micros(self.0);
        write!(f, "{}.{:06}", took / 1_000_000, took % 1_000_000)
    }
}

/// The microseconds of a time.
pub(crate) fn micros(time: Duration) -> u64 {
    u64::try_from(time.as_micros()).unwrap_or(u64::MAX)
}
