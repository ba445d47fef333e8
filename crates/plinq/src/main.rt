//! `plinq`: answers a PLINQ query over a JSON document, or a query over the lines of a text.
#![tactic(auto)]

ghost use Rattle.std.specs.Prelude.{◌≡◌, ◌≤◌, true, length};

use plinq_cli::{WithCause, perform};
use plinq_program::{explains, let_go, open_output, words};
use plinq_text_cli::perform_lines;
use std::process::ExitCode;

fn main(rt: HostRuntime) -> ExitCode {
    let words = match words(&rt) {
        Ok(words) => words,
        Err(status) => return ExitCode::from(status),
    };
    let mut out = match open_output(&rt) {
        Ok(out) => out,
        Err(status) => return ExitCode::from(status),
    };
    let mut input = WithCause::new(rt.stdin());
    let mut err = rt.stderr();
    let status = if asks_for_lines(&words) {
        perform_lines(&rt, &words[1..], &mut input, &mut out, &mut err)
    } else {
        perform(&rt, words, explains(&rt), &mut input, &mut out, &mut err)
    };
    let_go(out);
    ExitCode::from(status)
}

/// Whether the command is `lines`, whose words are its own.
fn asks_for_lines(words: &[String]) -> bool
    ensures { result ≡ true → 2 ≤ length words.now }
{
    match words {
        [_, command, ..] => command.as_str() == "lines",
        _ => false,
    }
}
