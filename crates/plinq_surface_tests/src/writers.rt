//! Runs of the program that write to what fails in other ways than its streams: in the middle of a line, or at each flush, also
//! if nothing was written.
use crate::narrow::Narrow;
use plinq_cli::{WithCause, perform};
use std::alloc::{AllocError, Global};
use std::sync::Wait;
use std::thread::Threads;
use std::time::Clock;

const ADD_ONE: &str =
    r#"{"version":1,"source":{"list":[3,1,4]},"query":[["as_ordered"],["select","add",1]]}"#;

fn words_of(alloc: Global, words: &[&str]) -> Result<Vec<String>, AllocError> {
    let mut all = Vec::new(alloc);
    for word in words {
        all.push(String::from_str(alloc, word)?)?;
    }
    Ok(all)
}

/// Whether a run ends with this status and says this. In one place, since a call of `perform` is dear to prove.
fn ends<R: AllocGlobal + Clock + Threads + Wait + Sync>(
    rt: &R,
    words: &[&str],
    document: &str,
    out: &mut WithCause<Narrow>,
    status: u8,
    line: &str,
) -> bool {
    let Ok(words) = words_of(rt.alloc(), words) else {
        return false;
    };
    let mut err = Vec::new(rt.alloc());
    let mut input = WithCause::new(document.as_bytes());
    let ended = perform(rt, words, false, &mut input, out, &mut err);
    ended == status && err.as_slice() == line.as_bytes()
}

const NOT: [&str; 4] = ["plinq", "run", "--merge", "not"];

const WRITE_FAILED: &str = "plinq: write failed\n";

/// Whether so much is taken with room for some of the bytes, some at once, if each write is interrupted.
fn writes<R: AllocGlobal + Clock + Threads + Wait + Sync>(
    rt: &R,
    room: usize,
    at_once: usize,
    taken: &str,
    status: u8,
) -> bool {
    let mut out = WithCause::new(Narrow::new(rt.alloc(), room, at_once));
    out.inner.interrupts = true;
    let line = if status == 0 { "" } else { WRITE_FAILED };
    ends(rt, &NOT, ADD_ONE, &mut out, status, line) && out.inner.taken() == taken.as_bytes()
}

#[test]
fn writes_that_fail(rt: HostRuntime) {
    for (room, at_once, taken, status) in [
        (100, 100, "4\n2\n5\nend\n", 0),
        (100, 1, "4\n2\n5\nend\n", 0),
        (3, 100, "4\n2", 5),
        (8, 1, "4\n2\n5\nen", 5),
        (0, 1, "", 5),
    ] {
        assert!(rt;
            writes(&rt, room, at_once, taken, status),
            "with room for {room}"
        );
    }
}

/// Whether at most so much is taken by one that takes all, and fails at each flush.
fn flushes<R: AllocGlobal + Clock + Threads + Wait + Sync>(
    rt: &R,
    words: &[&str],
    document: &str,
    taken: &str,
    status: u8,
    line: &str,
) -> bool {
    let mut out = WithCause::new(Narrow::new(rt.alloc(), 100, 100));
    out.inner.flushes = false;
    ends(rt, words, document, &mut out, status, line)
        && taken.as_bytes().starts_with(out.inner.taken())
}

/// Cancelled at once a run has written nothing, and all that fails is the last flush. A refused document comes before that.
#[test]
fn a_flush_that_fails(rt: HostRuntime) {
    assert!(rt; flushes(&rt, &NOT, ADD_ONE, "4\n2\n5\nend\n", 5, WRITE_FAILED));
    for (most, taken) in [("0", ""), ("1", "4\n"), ("3", "4\n2\n5\n")] {
        let words = ["plinq", "run", "--merge", "not", "--cancel-after", most];
        assert!(rt;
            flushes(&rt, &words, ADD_ONE, taken, 5, WRITE_FAILED),
            "{most}"
        );
    }
    assert!(rt; flushes(&rt, &NOT, "[", "", 2, "plinq: document: not JSON\n"));
}
