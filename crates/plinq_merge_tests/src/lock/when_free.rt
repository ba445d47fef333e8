//! Passes that wait for the lock to be free.
ghost use Rattle.std.specs.Thread.{IsSync};
ghost use Rattle.plinq_ticket.specs.Passes.{IsPassOf};

use crate::lock::notes::Notes;
use crate::lock::{LAST, Way, has_all, lock_of, try_in_vain, visit};
use plinq_testing::{lingers, waits_for};
use plinq_ticket::{LockFault, Pass, TicketLock};
use std::sync::Wait;
use std::sync::atomic::{AtomicU64, Ordering};
use std::thread;
use std::thread::{Threads, yield_now};

/// Where the threads of a test stand: 1 once the first is inside, and how many of the others are about to enter.
#[derive(Drop)]
struct Standing {
    inside: AtomicU64,
    coming: AtomicU64,
}

impl Standing {
    fn new() -> Standing {
        Standing {
            inside: AtomicU64::new(0),
            coming: AtomicU64::new(0),
        }
    }
}

/// How many tickets were drawn, as reported to a pass, while another one is inside.
fn drawn_now(lock: &TicketLock<Notes>, pass: Pass<Notes>) -> (Pass<Notes>, u64)
    requires { IsPassOf lock.now pass }
    ensures { IsPassOf lock.now result.0 }
{
    let (pass, told) = try_in_vain(lock, pass);
    match told {
        Some(LockFault::Busy { drawn, .. }) => (pass, drawn),
        _ => (pass, u64::MAX),
    }
}

/// Waits until so many tickets were drawn, but not for ever, and a while more. Returns how many there are then.
fn watch(lock: &TicketLock<Notes>, pass: Pass<Notes>, least: u64) -> (Pass<Notes>, u64)
    requires { IsPassOf lock.now pass }
    ensures { IsPassOf lock.now result.0 }
{
    let mut pass = pass;
    for _turn in 0..1_000_000 {
        let (back, drawn) = drawn_now(lock, pass);
        pass = back;
        if drawn >= least {
            break;
        }
        yield_now();
    }
    lingers();
    drawn_now(lock, pass)
}

/// Enters first, and stays until one of the others has drawn a ticket, and a while more. Returns how many were drawn by then.
fn stay_until_drawn<R: Wait>(
    rt: &R,
    lock: &TicketLock<Notes>,
    pass: Pass<Notes>,
    watching: Pass<Notes>,
    standing: &Standing,
) -> (Pass<Notes>, u64)
    requires pass { IsPassOf lock.now pass }
    requires watching { IsPassOf lock.now watching }
    ensures { IsPassOf lock.now result.0 }
{
    match lock.enter(rt, pass) {
        Err((pass, _)) => (lock.join(pass, watching), 0),
        Ok(held) => {
            standing.inside.store(1, Ordering::SeqCst);
            let (watching, drawn) = watch(lock, watching, 2);
            (lock.join(lock.leave(held), watching), drawn)
        }
    }
}

/// Enters first, and stays until so many others are about to enter, and a while more.
fn stay_until_there<R: Wait>(
    rt: &R,
    lock: &TicketLock<Notes>,
    pass: Pass<Notes>,
    standing: &Standing,
    others: u64,
) -> Pass<Notes>
    requires { IsPassOf lock.now pass }
    ensures { IsPassOf lock.now result }
{
    match lock.enter(rt, pass) {
        Err((pass, _)) => pass,
        Ok(held) => {
            standing.inside.store(1, Ordering::SeqCst);
            waits_for(&standing.coming, others);
            lingers();
            lock.leave(held)
        }
    }
}

/// Visits the lock once the first is inside.
fn come<R: Wait>(
    rt: &R,
    lock: &TicketLock<Notes>,
    pass: Pass<Notes>,
    standing: &Standing,
    way: Way,
) -> (Pass<Notes>, Option<u64>)
    requires { IsPassOf lock.now pass }
    ensures { IsPassOf lock.now result.0 }
{
    waits_for(&standing.inside, 1);
    standing.coming.fetch_add(1, Ordering::SeqCst);
    visit(rt, lock, pass, way)
}

/// Two others visit the lock, each in its own way. Returns the tickets.
fn two_come<R: Threads + Wait + Sync>(
    rt: &R,
    lock: &TicketLock<Notes>,
    pass: Pass<Notes>,
    standing: &Standing,
    ways: (Way, Way),
) -> (Pass<Notes>, [Option<u64>; 2])
    requires { IsPassOf lock.now pass }
    ensures { IsPassOf lock.now result.0 }
{
    let (first, second) = lock.split(pass);
    let (first, second) = thread::join(
        rt,
        || come(rt, lock, first, standing, ways.0),
        || come(rt, lock, second, standing, ways.1),
    );
    let (first, one) = first;
    let (second, two) = second;
    (lock.join(first, second), [one, two])
}

/// One is inside until another one has drawn a ticket, while two come, of which one waits for the lock to be free. Returns whether
/// their tickets are right.
fn goes_first<R: Threads + Wait + Sync>(
    rt: &R,
    lock: &TicketLock<Notes>,
    pass: Pass<Notes>,
) -> (Pass<Notes>, bool)
    requires { IsPassOf lock.now pass }
    ensures { IsPassOf lock.now result.0 }
{
    let (first, pass) = lock.split(pass);
    let (watching, others) = lock.split(pass);
    let standing = Standing::new();
    let they = &standing;
    let (first, others) = thread::join(
        rt,
        || stay_until_drawn(rt, lock, first, watching, they),
        || -> (Pass<Notes>, [Option<u64>; 2])
            requires { IsSync R.row × IsPassOf lock.now others }
            ensures { IsPassOf lock.entry.now result.0 }
        { two_come(rt, lock, others, they, (Way::InTurn, Way::WhenFree)) },
    );
    let (first, drawn) = first;
    let (others, tickets) = others;
    // (a pass that waits for the lock to be free has drawn none)
    let are_right = drawn == 2 && tickets == [Some(1), Some(2)];
    (lock.join(first, others), are_right)
}

#[test]
fn a_pass_that_has_a_ticket_goes_first(rt: HostRuntime) {
    let Some((lock, pass)) = lock_of(rt.alloc()) else {
        panic!(rt; "no room for a lock");
    };
    let (pass, are_right) = goes_first(&rt, &lock, pass);
    let are_all = has_all(lock, pass, 2, 1);
    assert!(rt; are_right && are_all);
}

/// How many of two are the last ticket; too many if another ticket is among them.
fn count_last(tickets: [Option<u64>; 2]) -> usize {
    let mut count = 0usize;
    for ticket in tickets {
        if let Some(ticket) = ticket {
            count = count.wrapping_add(if ticket == LAST { 1 } else { 9 });
        }
    }
    count
}

/// Four others wait for the lock to be free. Returns how many have drawn the last ticket.
fn four_come<R: Threads + Wait + Sync>(
    rt: &R,
    lock: &TicketLock<Notes>,
    pass: Pass<Notes>,
    standing: &Standing,
) -> (Pass<Notes>, usize)
    requires { IsPassOf lock.now pass }
    ensures { IsPassOf lock.now result.0 }
{
    let ways = (Way::WhenFree, Way::WhenFree);
    let (left, right) = lock.split(pass);
    let (left, right) = thread::join(
        rt,
        || -> (Pass<Notes>, [Option<u64>; 2])
            requires { IsSync R.row × IsPassOf lock.now left }
            ensures { IsPassOf lock.entry.now result.0 }
        { two_come(rt, lock, left, standing, ways) },
        || -> (Pass<Notes>, [Option<u64>; 2])
            requires { IsSync R.row × IsPassOf lock.now right }
            ensures { IsPassOf lock.entry.now result.0 }
        { two_come(rt, lock, right, standing, ways) },
    );
    let (left, ones) = left;
    let (right, others) = right;
    let count = count_last(ones).wrapping_add(count_last(others));
    (lock.join(left, right), count)
}

/// One is inside until four others wait. Returns how many of them have drawn the last ticket.
fn four_wait<R: Threads + Wait + Sync>(
    rt: &R,
    lock: &TicketLock<Notes>,
    pass: Pass<Notes>,
) -> (Pass<Notes>, usize)
    requires { IsPassOf lock.now pass }
    ensures { IsPassOf lock.now result.0 }
{
    let (first, others) = lock.split(pass);
    let standing = Standing::new();
    let they = &standing;
    let (first, others) = thread::join(
        rt,
        || stay_until_there(rt, lock, first, they, 4),
        || -> (Pass<Notes>, usize)
            requires { IsSync R.row × IsPassOf lock.now others }
            ensures { IsPassOf lock.entry.now result.0 }
        { four_come(rt, lock, others, they) },
    );
    let (others, count) = others;
    (lock.join(first, others), count)
}

/// One of those that sleep is woken, draws the last ticket, and leaves; that wakes another one, which wakes all.
#[test]
fn all_that_wait_are_told_that_tickets_are_spent(rt: HostRuntime) {
    let notes = Notes::new(rt.alloc());
    let Ok((lock, pass)) = TicketLock::with_first_ticket(rt.alloc(), notes, LAST - 1) else {
        panic!(rt; "no room for a lock");
    };
    let (pass, count) = four_wait(&rt, &lock, pass);
    let are_all = has_all(lock, pass, 1, LAST);
    assert!(rt; count == 1 && are_all);
}
