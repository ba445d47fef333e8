use crate::fails_once::FailsOnce;
use crate::narrow::Narrow;
use plinq_lines::{LineSink, WRITE_FAILED};
use plinq_merge::Sink;
use std::alloc::Global;

const LINES: &[u8] = b"-12 345\n6\n\n78\n";

/// What a sink answers to these batches, one after another.
fn take_all<K: Sink<Item = i64>>(sink: &mut K) -> Result<(), u32> {
    sink.batch(&[-12, 345])?;
    sink.batch(&[6])?;
    sink.batch(&[])?;
    sink.batch(&[78])
}

fn is_each_a_line(alloc: Global) -> bool {
    let mut out = Vec::new(alloc);
    let mut sink = LineSink::new(&mut out);
    let is_told = take_all(&mut sink).is_ok() && !sink.has_failed();
    let out = sink.into_writer();
    is_told && out.as_slice() == LINES
}

#[test]
fn each_batch_is_a_line(rt: HostRuntime) {
    assert!(rt; is_each_a_line(rt.alloc()));
}

fn fails_at(alloc: Global, room: usize) -> bool {
    let mut out = Narrow::new(alloc, room, 100);
    let mut sink = LineSink::new(&mut out);
    let told = take_all(&mut sink);
    let has_failed = told == Err(WRITE_FAILED) && sink.has_failed();
    let out = sink.into_writer();
    has_failed && out.taken().len() == room && LINES.starts_with(out.taken())
}

/// It fails at each place of each line.
#[test]
fn a_writer_that_fails_anywhere(rt: HostRuntime) {
    for room in 0..LINES.len() {
        assert!(rt; fails_at(rt.alloc(), room), "with room for {room}");
    }
}

/// It fails in the middle of the first line, and would take the second.
fn is_refused_afterwards(alloc: Global) -> bool {
    let mut out = FailsOnce::new(alloc, 2);
    let mut sink = LineSink::new(&mut out);
    let first = sink.batch(&[-12, 345]);
    let second = sink.batch(&[6]);
    sink.idle();
    let out = sink.into_writer();
    let are_refused = first == Err(WRITE_FAILED) && second == Err(WRITE_FAILED);
    are_refused && out.taken() == b"-12".as_slice() && out.calls == 2
}

/// The same of batches of one size that go in one call.
fn are_batches_refused_afterwards(alloc: Global) -> bool {
    let mut out = FailsOnce::new(alloc, 2);
    let mut sink = LineSink::new(&mut out);
    let first = sink.batches_of(1, &[-12, 345]);
    let has_failed = sink.has_failed();
    let second = sink.batches_of(1, &[6, 7]);
    let third = sink.batch(&[8]);
    sink.idle();
    let out = sink.into_writer();
    let are_refused = first == Err(WRITE_FAILED) && second == first && third == first;
    has_failed && are_refused && out.taken() == b"-12".as_slice() && out.calls == 2
}

#[test]
fn a_batch_after_a_failure(rt: HostRuntime) {
    assert!(rt; is_refused_afterwards(rt.alloc()));
    assert!(rt; are_batches_refused_afterwards(rt.alloc()));
}

fn is_flushed_twice(alloc: Global) -> bool {
    let mut out = FailsOnce::new(alloc, 0);
    let mut sink = LineSink::new(&mut out);
    sink.idle();
    let first = sink.batch(&[4]);
    let second = sink.batch(&[2]);
    sink.idle();
    sink.idle();
    let third = sink.batch(&[5]);
    sink.idle();
    let are_taken = first.is_ok() && second.is_ok() && third.is_ok() && !sink.has_failed();
    let out = sink.into_writer();
    are_taken && out.flushes == 2 && out.taken() == b"4\n2\n5\n".as_slice()
}

#[test]
fn only_what_was_written_is_flushed(rt: HostRuntime) {
    assert!(rt; is_flushed_twice(rt.alloc()));
}

fn is_refused_after_a_flush(alloc: Global) -> bool {
    let mut out = FailsOnce::new(alloc, 2);
    let mut sink = LineSink::new(&mut out);
    let first = sink.batch(&[4]);
    sink.idle();
    let has_failed = first.is_ok() && sink.has_failed();
    let second = sink.batch(&[2]);
    sink.idle();
    let out = sink.into_writer();
    has_failed && second == Err(WRITE_FAILED) && out.taken() == b"4\n".as_slice() && out.calls == 2
}

#[test]
fn a_batch_after_a_flush_that_fails(rt: HostRuntime) {
    assert!(rt; is_refused_after_a_flush(rt.alloc()));
}
