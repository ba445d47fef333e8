use std::io;
use std::io::Read;

/// A reader that gives a line feed at its end, unless it ended in one or gave nothing: of several files one after another a last
/// line stays a line of its own.
#[derive(Drop)]
pub(crate) struct Ended<'a, R> {
    inner: &'a mut R,
    last: u8,
}

impl<'a, R> Ended<'a, R> {
    pub(crate) fn new(inner: &'a mut R) -> Ended<'a, R> {
        Ended { inner, last: b'\n' }
    }
}

impl<'a, R: Read> Read for Ended<'a, R> {
    fn read(&mut self, buf: &mut [u8]) -> io::Result<usize> {
        let count = self.inner.read(buf)?;
        if count > 0 {
            self.last = buf[count - 1];
            return Ok(count);
        }
        if self.last == b'\n' || buf.is_empty() {
            return Ok(0);
        }
        self.last = b'\n';
        buf[0] = b'\n';
        Ok(1)
    }
}
