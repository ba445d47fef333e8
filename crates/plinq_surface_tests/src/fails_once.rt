use std::alloc::Global;
use std::io;
use std::io::{ErrorKind, Write};

/// A writer that takes three bytes at once, and whose call with this number fails, be it a write or a flush.
#[derive(Drop)]
pub(crate) struct FailsOnce {
    taken: Vec<u8>,
    failing: u64,
    pub(crate) calls: u64,
    pub(crate) flushes: u64,
}

impl FailsOnce {
    pub(crate) fn new(alloc: Global, failing: u64) -> FailsOnce {
        FailsOnce {
            taken: Vec::new(alloc),
            failing,
            calls: 0,
            flushes: 0,
        }
    }

    pub(crate) fn taken(&self) -> &[u8] {
        self.taken.as_slice()
    }

    fn count(&mut self) -> io::Result<()> {
        self.calls = self.calls.wrapping_add(1);
        if self.calls == self.failing {
            return Err(io::Error::from(ErrorKind::BrokenPipe));
        }
        Ok(())
    }
}

impl Write for FailsOnce {
    fn write(&mut self, buf: &[u8]) -> io::Result<usize> {
        self.count()?;
        let count = buf.len().min(3);
        self.taken.extend_from_slice(&buf[..count])?;
        Ok(count)
    }

    fn flush(&mut self) -> io::Result<()> {
        self.count()?;
        self.flushes = self.flushes.wrapping_add(1);
        Ok(())
    }
}
