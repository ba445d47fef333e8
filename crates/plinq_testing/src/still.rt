use std::io;
use std::sync::Wait;
use std::thread::Threads;
use std::time::{Clock, Duration};

/// A runtime whose clock stands still, so that no chunk takes any time.
#[derive(Drop)]
pub struct Still<R> {
    pub rt: R,
}

impl<R: Threads> Threads for Still<R> {}

impl<R: Wait> Wait for Still<R> {}

impl<R> Clock for Still<R> {
    fn monotonic(&self) -> io::Result<Duration> {
        Ok(Duration::ZERO)
    }

    fn since_1970(&self) -> io::Result<Duration> {
        Ok(Duration::ZERO)
    }
}
