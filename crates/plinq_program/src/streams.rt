use crate::command_line::refuse_for_memory;
use plinq_cli::WithCause;
use std::io::{BufWriter, Stdout};

/// How many bytes of output are buffered.
const BUFFERED: usize = 65_536;

/// Standard output, buffered, with the reason of its last failure.
pub type Output = WithCause<BufWriter<Stdout>>;

/// Standard output.
///
/// # Errors
///
/// The exit status 5 if there is no memory for its buffer, which is said on standard error.
pub fn open_output(rt: &HostRuntime) -> Result<Output, u8> {
    match BufWriter::with_capacity(rt.alloc(), BUFFERED, rt.stdout()) {
        Ok(out) => Ok(WithCause::new(out)),
        Err(_) => Err(refuse_for_memory(rt)),
    }
}

/// Closes the output without writing what it still holds, which is what a failing write kept back. Dropped, it would be written after
/// the failure's line.
pub fn let_go(out: Output) {
    let WithCause { inner, .. } = out;
    let (_stdout, _unwritten) = inner.into_parts();
}
