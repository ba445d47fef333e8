//! A sender that sleeps before a full queue.
ghost use Rattle.std.specs.Prelude.{◌≡◌, true, ⊤};
ghost use Rattle.std.specs.Thread.{IsSync};
ghost use Rattle.plinq_stream.specs.Passes.{IsPassOf, knowledge_of};
ghost use Rattle.plinq_stream.specs.Streams.{has};

use plinq_stream::{Admits, Stream, StreamPass};
use plinq_testing::lingers;
use std::process::Abort;
use std::sync::Wait;
use std::thread;
use std::thread::Threads;

/// Any number goes through.
struct AnyNumber;

impl Admits<u64> for AnyNumber {
    ghost admits = { λ _. ⊤ };
}

/// So many items have room, and so many are sent: too few for those that wait to be woken because many were received.
const ROOM: usize = 4;

const SENT: u64 = 11;

/// Sends the numbers from 0 on.
fn send_all<R: Wait>(rt: &R, stream: &Stream<u64, AnyNumber>, pass: StreamPass<u64>)
    requires of { IsPassOf stream.now pass }
    requires own { has 0 (knowledge_of pass).numbers ≡ true }
{
    let mut pass = pass;
    for item in 0..SENT {
        stream.send(rt, &mut pass, 0, item);
    }
}

/// Receives the numbers from 0 on, and if there is none only waits.
fn receive_all<R: Wait + Abort>(rt: &R, stream: &Stream<u64, AnyNumber>, pass: StreamPass<u64>)
    requires of { IsPassOf stream.now pass }
    requires receives { (knowledge_of pass).receives ≡ true }
{
    let mut pass = pass;
    let mut next = 0u64;
    lingers();
    for _ in rt.forever() {
        if next == SENT {
            return;
        }
        match stream.try_receive(&mut pass) {
            Some(sent) => {
                assert!(rt; sent.item == next);
                next = next.wrapping_add(1);
            }
            None => lingers(),
        }
    }
}

fn send_through<R: Threads + Wait + Sync + Abort>(
    rt: &R,
    stream: &Stream<u64, AnyNumber>,
    mine: StreamPass<u64>,
    theirs: StreamPass<u64>,
)
    requires mine { IsPassOf stream.now mine }
    requires receives { (knowledge_of mine).receives ≡ true }
    requires theirs { IsPassOf stream.now theirs }
    requires own { has 0 (knowledge_of theirs).numbers ≡ true }
{
    thread::join(
        rt,
        || receive_all(rt, stream, mine),
        || send_all(rt, stream, theirs),
    );
}

#[test]
fn a_sender_goes_on_once_the_queue_was_found_empty(rt: HostRuntime) {
    let Ok((stream, mut mine)) = Stream::<u64, AnyNumber>::new(rt.alloc(), ROOM) else {
        panic!(rt; "no room");
    };
    let theirs = stream.give_number(&mut mine);
    send_through(&rt, &stream, mine, theirs);
}
