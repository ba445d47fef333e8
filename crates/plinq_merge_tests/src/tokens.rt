//! Tokens, and offers that they stop.
use crate::offers::{merger_of, ordered, result_of};
use plinq_lambda::Formula;
use plinq_merge::{
    Cancel, CancelAfter, CancelFlag, MergeFault, Merger, NeverCancel, Sink, WithCancellation,
};
use plinq_ops::MergeOption;
use plinq_testing::{Counted, Seen, Watched};
use std::alloc::Global;
use std::sync::atomic::Ordering;

/// Whether a token has told before it is asked, answers so, and has told then.
fn answers<C: Cancel>(token: &mut C, delivered: u64, wanted: (bool, bool, bool)) -> bool {
    let before = token.told();
    let answer = token.cancelled(delivered);
    before == wanted.0 && answer == wanted.1 && token.told() == wanted.2
}

fn is_seen() -> bool {
    let flag = CancelFlag::new();
    let mut early = flag.token();
    let is_unset = answers(&mut early, 0, (false, false, false));
    flag.cancel();
    let is_set = answers(&mut early, 0, (false, true, true));
    let is_set_still = answers(&mut early, 0, (true, true, true));
    flag.cancel();
    let mut late = true;
    // (whatever the number of batches)
    for delivered in 0..4u64 {
        late = late && answers(&mut flag.token(), delivered, (false, true, true));
    }
    is_unset && is_set && is_set_still && late
}

#[test]
fn each_token_of_a_flag_sees_it(rt: HostRuntime) {
    assert!(rt; is_seen());
}

#[test]
fn a_token_that_never_stops_anything(rt: HostRuntime) {
    assert!(rt; answers(&mut NeverCancel, u64::MAX, (false, false, false)));
}

/// How many batches of an offer of three are delivered, as its merger and its sink count them, if a token stops it after two.
fn delivered(alloc: Global) -> Option<(u64, u64)> {
    let query = ordered(alloc)?;
    let mut merger: Merger<'_, Formula> = merger_of(alloc, &query, MergeOption::NotBuffered)?;
    let offered = result_of(alloc, 0, &[4, 2, 5], None)?;
    let mut sink = Counted::numbers_from(0);
    let mut token = CancelAfter::new(2);
    match merger.offer_with(offered, &mut token, &mut sink) {
        Err(MergeFault::Cancelled) if token.told() => Some((merger.delivered(), sink.batches)),
        _ => None,
    }
}

#[test]
fn an_offer_stops_between_its_batches(rt: HostRuntime) {
    assert!(rt; delivered(rt.alloc()) == Some((2, 2)));
}

/// How often a sink is told that nothing comes, which a token may stop.
fn count_rests() -> u64 {
    let seen = Seen::new();
    let mut sink = Watched {
        sink: Counted::numbers_from(0),
        seen: &seen,
    };
    let mut token = CancelAfter::new(0);
    let mut with = WithCancellation {
        token: &mut token,
        sink: &mut sink,
        delivered: 0,
        is_stopped: false,
    };
    with.idle();
    seen.rests.load(Ordering::SeqCst)
}

#[test]
fn a_sink_that_a_token_may_stop_is_told_that_nothing_comes(rt: HostRuntime) {
    assert!(rt; count_rests() == 1);
}
