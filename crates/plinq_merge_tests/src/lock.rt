ghost use Rattle.std.specs.Prelude.{IfSome};
ghost use Rattle.plinq_ticket.specs.Passes.{IsPassOf};

use crate::lock::notes::Notes;
use plinq_keyed::{Guarded, Record};
use plinq_testing::says;
use plinq_ticket::{
    LockFault, Pass, TicketLock, free_lock_has_handed_out_a_prefix, one_pass_is_inside,
};
use std::alloc::Global;
use std::sync::Wait;
use std::thread;
use std::thread::Threads;

mod notes;
mod when_free;

/// How a pass enters if others may be inside.
#[derive(Clone, Copy)]
enum Way {
    // It draws a ticket, and waits for its turn.
    InTurn,
    // It waits for the lock to be free.
    WhenFree,
    // It enters where the lock is free.
    AtOnce,
}

/// Tries to enter. Answers why it was refused, if it was.
fn try_in_vain(lock: &TicketLock<Notes>, pass: Pass<Notes>) -> (Pass<Notes>, Option<LockFault>)
    requires { IsPassOf lock.now pass }
    ensures { IsPassOf lock.now result.0 }
{
    match lock.try_enter(pass) {
        Err((pass, fault)) => (pass, Some(fault)),
        Ok(held) => (lock.leave(held), None),
    }
}

/// Enters, notes that it was there, and leaves. Returns the ticket.
fn visit<R: Wait>(
    rt: &R,
    lock: &TicketLock<Notes>,
    pass: Pass<Notes>,
    way: Way,
) -> (Pass<Notes>, Option<u64>)
    requires { IsPassOf lock.now pass }
    ensures { IsPassOf lock.now result.0 }
{
    let entered = match way {
        Way::InTurn => lock.enter(rt, pass),
        Way::WhenFree => lock.enter_when_free(rt, pass),
        Way::AtOnce => lock.try_enter(pass),
    };
    match entered {
        Err((pass, _)) => (pass, None),
        Ok(mut held) => {
            let ticket = held.ticket();
            let noted = held.value_mut().close(ticket).is_ok();
            let pass = lock.leave(held);
            (pass, if noted { Some(ticket) } else { None })
        }
    }
}

/// Enters a thousand times.
fn visit_often<R: Wait>(
    rt: &R,
    lock: &TicketLock<Notes>,
    pass: Pass<Notes>,
    way: Way,
) -> Pass<Notes>
    requires { IsPassOf lock.now pass }
    ensures { IsPassOf lock.now result }
{
    let mut pass = pass;
    for _turn in 0..1000 {
        pass = visit(rt, lock, pass, way).0;
    }
    pass
}

/// A lock round new notes, and its first pass.
fn lock_of(alloc: Global) -> Option<(TicketLock<Notes>, Pass<Notes>)>
    ensures { IfSome result (λ made. IsPassOf made.0 made.1) }
{
    match TicketLock::new(alloc, Notes::new(alloc)) {
        Ok(made) => Some(made),
        Err(_) => None,
    }
}

/// Whether the pass has all records, so many, under the tickets from that one on.
fn has_all(lock: TicketLock<Notes>, pass: Pass<Notes>, count: usize, first: u64) -> bool
    requires { IsPassOf lock pass }
{
    match lock.finish(pass) {
        Ok(notes) => are_in_turn(notes.records(), count, first),
        Err(_) => false,
    }
}

fn are_in_turn(records: &[Record], count: usize, first: u64) -> bool {
    let mut ticket = first;
    for record in records {
        if record.ticket != ticket {
            return false;
        }
        ticket = ticket.wrapping_add(1);
    }
    records.len() == count
}

/// Whether one that tries is told that another one is inside.
fn is_busy(told: Option<LockFault>) -> bool {
    matches!(
        told,
        Some(LockFault::Busy {
            served: 0,
            drawn: 1
        })
    )
}

/// The first is inside; the second, which tries, is told so, and enters after it in that way.
fn take_turns<R: Wait>(rt: &R, alloc: Global, way: Way) -> bool {
    let Some((lock, pass)) = lock_of(alloc) else {
        return false;
    };
    let (first, second) = lock.split(pass);
    let Ok(held) = lock.enter(rt, first) else {
        return false;
    };
    let (second, told) = try_in_vain(&lock, second);
    let first = lock.leave(held);
    let (second, _) = visit(rt, &lock, second, way);
    let pass = lock.join(first, second);
    let are_all = has_all(lock, pass, 1, 1);
    is_busy(told) && are_all
}

#[test]
fn passes_enter_in_the_order_of_tickets(rt: HostRuntime) {
    for way in [Way::WhenFree, Way::AtOnce] {
        assert!(rt; take_turns(&rt, rt.alloc(), way));
    }
}

/// The last ticket of each lock.
const LAST: u64 = 4_611_686_018_427_387_903;

/// Whether a lock is made and used, at the second attempt if the first is refused.
fn is_made<R: Wait>(rt: &R, alloc: Global) -> bool {
    let (lock, pass) = match lock_of(alloc) {
        Some(made) => made,
        None => match lock_of(alloc) {
            Some(made) => made,
            None => return false,
        },
    };
    let (pass, _) = visit(rt, &lock, pass, Way::InTurn);
    lock.finish(pass).is_ok()
}

/// Run with each allocation failing in turn.
#[test]
fn a_lock_that_is_refused_is_out_of_memory(rt: HostRuntime) {
    assert!(rt; is_made(&rt, rt.alloc()));
}

/// Two threads enter many times, each in its own way.
fn share<R: Threads + Wait + Sync>(rt: &R, alloc: Global, ways: (Way, Way)) -> bool {
    let Some((lock, pass)) = lock_of(alloc) else {
        return false;
    };
    let (first, second) = lock.split(pass);
    let shared = &lock;
    let (first, second) = thread::join(
        rt,
        || visit_often(rt, shared, first, ways.0),
        || visit_often(rt, shared, second, ways.1),
    );
    let pass = lock.join(first, second);
    has_all(lock, pass, 2000, 0)
}

#[test]
fn two_threads_share_a_lock(rt: HostRuntime) {
    for ways in [
        (Way::InTurn, Way::InTurn),
        (Way::InTurn, Way::WhenFree),
        (Way::WhenFree, Way::WhenFree),
    ] {
        assert!(rt; share(&rt, rt.alloc(), ways));
    }
}

#[test]
fn laws_can_be_called() {
    free_lock_has_handed_out_a_prefix::<Notes>();
    one_pass_is_inside::<Notes>();
}

#[test]
fn faults_in_words(rt: HostRuntime) {
    for (fault, text) in [
        (LockFault::Spent, "lock: tickets spent"),
        (
            LockFault::Busy {
                served: 3,
                drawn: 5,
            },
            "lock: busy, 3 served of 5 drawn",
        ),
        (
            LockFault::Incomplete { have: 1, all: 2 },
            "lock: incomplete, 1 records of 2",
        ),
        (LockFault::Memory, "lock: out of memory"),
        (LockFault::Away, "lock: away"),
    ] {
        assert!(rt; says(rt.alloc(), &fault, text), "{text}");
    }
}
