use std::env::{Env, FillError};
use std::io::ErrorKind;
use std::{env, io};

/// What the scripts that start the program set if standard error is a terminal: a second line says why something failed.
const EXPLAIN: &str = "PLINQ_EXPLAIN";

/// The words of the command line, the program's name first.
///
/// # Errors
///
/// The exit status if there is no memory for them (5) or they aren't UTF-8 (2), which is said on standard error.
pub fn words(rt: &HostRuntime) -> Result<Vec<String>, u8> {
    match read_words(rt) {
        Ok(words) => Ok(words),
        Err(error) => Err(refuse(rt, &error)),
    }
}

/// Whether a second line of standard error is to explain what failed. Takes no memory.
pub fn explains(rt: &HostRuntime) -> bool {
    let mut start = [0; 1];
    match rt.var(EXPLAIN, &mut start) {
        Ok(_) | Err(FillError::TooLong) => true,
        Err(FillError::NotPresent) => false,
    }
}

pub(crate) fn refuse_for_memory(rt: &HostRuntime) -> u8 {
    let _ = eprintln!(rt; "plinq: out of memory");
    5
}

fn read_words(rt: &HostRuntime) -> io::Result<Vec<String>> {
    Ok(env::args(rt)?.collect(rt.alloc())?)
}

fn refuse(rt: &HostRuntime, error: &io::Error) -> u8 {
    if error.kind() == ErrorKind::OutOfMemory {
        return refuse_for_memory(rt);
    }
    let _ = eprintln!(rt; "error: invalid UTF-8 was detected in one or more arguments");
    2
}
