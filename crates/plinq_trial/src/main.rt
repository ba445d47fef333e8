//! The program for documents alone: what `./plinq` runs unproved as long as the program isn't built. Without the crates of
//! `plinq lines` the first answer comes sooner.
#![tactic(auto)]

use plinq_cli::{WithCause, perform};
use plinq_program::{explains, let_go, open_output, words};
use std::process::ExitCode;

fn main(rt: HostRuntime) -> ExitCode {
    let words = match words(&rt) {
        Ok(words) => words,
        Err(status) => return ExitCode::from(status),
    };
    let mut out = match open_output(&rt) {
        Ok(out) => out,
        Err(status) => return ExitCode::from(status),
    };
    let mut input = WithCause::new(rt.stdin());
    let mut err = rt.stderr();
    let status = perform(&rt, words, explains(&rt), &mut input, &mut out, &mut err);
    let_go(out);
    ExitCode::from(status)
}
