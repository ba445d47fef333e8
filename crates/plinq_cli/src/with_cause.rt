ghost use Rattle.std.specs.Prelude.{◌≡◌};

use std::io;
use std::io::{ErrorKind, Read, Write};

/// A reader or a writer that keeps why it failed last, for what is said of it.
///
/// ```text
/// let mut out = WithCause::new(rt.stdout());
/// out.write(b"4\n"); // Err: the disk is full
/// out.cause() // No space left on device (os error 28)
/// ```
#[derive(Drop)]
pub struct WithCause<T> {
    /// What is read or written.
    pub inner: T,
    /// The last error, but those of calls that were only interrupted.
    pub cause: Option<io::Error>,
}

impl<T> WithCause<T> {
    /// One that hasn't failed.
    pub fn new(inner: T) -> WithCause<T>
        ensures { result.inner ≡ inner }
    {
        WithCause { inner, cause: None }
    }

    /// Why it failed last, if it did.
    pub fn cause(&self) -> Option<&io::Error> {
        self.cause.as_ref()
    }

    /// Keeps an error, and gives one of the same kind.
    fn keep(&mut self, error: io::Error) -> io::Error
        ensures { self.new.inner ≡ self.old.inner }
    {
        let kind = error.kind();
        if kind != ErrorKind::Interrupted {
            self.cause = Some(error);
        }
        io::Error::from(kind)
    }
}

impl<R: Read> Read for WithCause<R> {
    ghost remaining = { λ r. R.remaining r.inner };

    fn read(&mut self, buf: &mut [u8]) -> io::Result<usize> {
        match self.inner.read(buf) {
            Ok(count) => Ok(count),
            Err(error) => Err(self.keep(error)),
        }
    }
}

impl<W: Write> Write for WithCause<W> {
    ghost contents = { λ w. W.contents w.inner };

    fn write(&mut self, buf: &[u8]) -> io::Result<usize> {
        match self.inner.write(buf) {
            Ok(count) => Ok(count),
            Err(error) => Err(self.keep(error)),
        }
    }

    fn flush(&mut self) -> io::Result<()> {
        match self.inner.flush() {
            Ok(()) => Ok(()),
            Err(error) => Err(self.keep(error)),
        }
    }
}
