ghost use Rattle.std.specs.Prelude.{◌≡◌};
ghost use Rattle.plinq_keyed.specs.History.{tickets_below};

use plinq_enumerator::{Enumerator, Growth, GrowthFault};
use plinq_keyed::{Guarded, Record};
use plinq_source::ListSource;
use plinq_testing::says;
use std::alloc::Global;

/// Whether a ticket is above all recorded ones.
fn is_new_ticket(records: &[Record], ticket: u64) -> bool
    ensures { result ≡ tickets_below ticket records.now }
{
    records.iter().all(|record| record.ticket < ticket)
}

/// So many zeros, if there is room for them.
fn zeros(alloc: Global, count: usize) -> Option<Enumerator<ListSource<u64>>> {
    match vec![in alloc; 0; count] {
        Ok(list) => {
            if list.len() > 10_000 {
                return None;
            }
            Some(Enumerator::new(alloc, ListSource::new(alloc, list)))
        }
        Err(_) => None,
    }
}

/// How many records there are, read through the bound.
fn count_records<V: Guarded>(value: &V) -> usize {
    value.records().len()
}

/// Asks for so many items. Returns how many came, or that it was refused.
fn ask(zeros: &mut Enumerator<ListSource<u64>>, ticket: u64, n: u64) -> Option<usize> {
    if !is_new_ticket(zeros.records(), ticket) || n == 0 || n > 65_536 {
        return None;
    }
    match zeros.ask(ticket, n) {
        Ok(chunk) => Some(chunk.items.len()),
        Err(_) => None,
    }
}

/// Closes it. Returns whether that was refused.
fn is_close_refused(zeros: &mut Enumerator<ListSource<u64>>, ticket: u64) -> bool {
    !is_new_ticket(zeros.records(), ticket) || zeros.close(ticket).is_err()
}

/// Their numbers are words of the program.
#[test]
fn growths_have_names(rt: HostRuntime) {
    assert!(rt; Growth::new(1, 3, 512) == Ok(Growth::DEFAULT));
    assert!(rt; Growth::new(1, 1, 1) == Ok(Growth::ONE));
}

#[test]
fn growth_faults_in_words(rt: HostRuntime) {
    for (fault, text) in [
        (GrowthFault::Zero, "growth: zero"),
        (GrowthFault::FirstAboveMax, "growth: first above max"),
        (GrowthFault::MaxTooLarge, "growth: max too large"),
    ] {
        assert!(rt; says(rt.alloc(), &fault, text), "{text}");
    }
}

/// Asks for one item under each of so many tickets. Returns how many were refused.
fn refusals(zeros: &mut Enumerator<ListSource<u64>>, tickets: u64) -> usize {
    let mut refused = 0usize;
    for ticket in 0..tickets {
        if ask(zeros, ticket, 1).is_none() {
            refused = refused.wrapping_add(1);
        }
    }
    refused
}

/// A history of many records and a chunk of many items take no other path than short ones.
#[test]
fn many_are_handed_out_after_many_records(rt: HostRuntime) {
    let Some(mut many) = zeros(rt.alloc(), 10_000) else {
        panic!(rt; "no room");
    };
    assert!(rt; refusals(&mut many, 101) == 0 && ask(&mut many, 101, 65_536) == Some(9899));
    assert!(rt; count_records(&many) == 102);
}

/// Of three asks, a close and an ask after it one is refused at most, which adds no record. Run with each allocation failing in turn.
#[test]
fn a_refused_growth_changes_nothing(rt: HostRuntime) {
    let Some(mut three) = zeros(rt.alloc(), 3) else {
        return;
    };
    let asked = refusals(&mut three, 3);
    let closed = usize::from(is_close_refused(&mut three, 3));
    let last = usize::from(ask(&mut three, 4, 1).is_none());
    let refused = asked.wrapping_add(closed).wrapping_add(last);
    assert!(rt; refused <= 1 && count_records(&three).wrapping_add(refused) == 5);
}
