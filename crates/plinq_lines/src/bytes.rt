ghost use Rattle.std.specs.Prelude.{};
ghost use Rattle.plinq_lines.specs.Written.{Writes};

use crate::write_fault::WriteFault;
use std::io;
use std::io::{ErrorKind, Write};

/// Writes all the bytes, each once. A call that was interrupted is made again.
///
/// std's `write_all` says nothing of the bytes after an `Err`, and so this is a loop of its own.
///
/// # Errors
///
/// [`WriteFault`] if the writer fails, or takes none of the bytes that are left. What it took is a beginning of them.
pub fn write_bytes<W: Write>(writer: &mut W, bytes: &[u8]) -> Result<(), WriteFault>
    ensures { Writes (W.contents writer.old) (W.contents writer.new) result bytes.now }
{
    let mut written = 0;
    for _ in 0..u64::MAX {
        if written == bytes.len() {
            return Ok(());
        }
        match writer.write(&bytes[written..]) {
            Ok(0) => return Err(WriteFault),
            Ok(n) => written += n,
            Err(e) if is_interrupted(&e) => {}
            Err(_) => return Err(WriteFault),
        }
    }
    Err(WriteFault)
}

/// Whether a call was interrupted. Apart, since the test brings a table of error kinds that each turn would set up.
#[cold]
#[inline(never)]
fn is_interrupted(error: &io::Error) -> bool {
    error.kind() == ErrorKind::Interrupted
}
