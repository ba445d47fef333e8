use std::alloc::Global;
use std::io;
use std::io::{ErrorKind, Write};

/// A writer that takes only so many bytes in all, and only so many at once.
#[derive(Drop)]
pub(crate) struct Narrow {
    taken: Vec<u8>,
    room: usize,
    at_once: usize,
    /// Whether a flush succeeds.
    pub(crate) flushes: bool,
    /// Whether each write that takes bytes comes after an interrupted one.
    pub(crate) interrupts: bool,
    was_interrupted: bool,
}

impl Narrow {
    pub(crate) fn new(alloc: Global, room: usize, at_once: usize) -> Narrow {
        Narrow {
            taken: Vec::new(alloc),
            room,
            at_once,
            flushes: true,
            interrupts: false,
            was_interrupted: false,
        }
    }

    pub(crate) fn taken(&self) -> &[u8] {
        self.taken.as_slice()
    }
}

impl Write for Narrow {
    fn write(&mut self, buf: &[u8]) -> io::Result<usize> {
        self.was_interrupted = self.interrupts && !self.was_interrupted;
        if self.was_interrupted {
            return Err(io::Error::from(ErrorKind::Interrupted));
        }
        let count = buf.len().min(self.at_once).min(self.room);
        if count == 0 && !buf.is_empty() {
            return Err(io::Error::from(ErrorKind::BrokenPipe));
        }
        self.taken.extend_from_slice(&buf[..count])?;
        self.room -= count;
        Ok(count)
    }

    fn flush(&mut self) -> io::Result<()> {
        if self.flushes {
            Ok(())
        } else {
            Err(io::Error::from(ErrorKind::BrokenPipe))
        }
    }
}
