//! How often a concatenation asks its parts.
use plinq_source::{ConcatSource, RangeSource, Source};
use plinq_testing::Asked;
use std::sync::atomic::{AtomicU64, Ordering};

/// Two digits a step: how often the first of two parts was asked by then, and how often the second.
fn asked_by_step() -> Option<u64> {
    let first = AtomicU64::new(0);
    let second = AtomicU64::new(0);
    let a = Asked {
        source: RangeSource::new(1, 2).ok()?,
        times: &first,
    };
    let b = Asked {
        source: RangeSource::new(5, 1).ok()?,
        times: &second,
    };
    let mut source = ConcatSource::new(a, b);
    let mut told: u64 = 0;
    for _step in 0..5 {
        let _ = source.next();
        let asked = first.load(Ordering::SeqCst).wrapping_mul(10);
        let both = asked.wrapping_add(second.load(Ordering::SeqCst));
        told = told.wrapping_mul(100).wrapping_add(both);
    }
    Some(told)
}

#[test]
fn a_part_that_ended_is_not_asked_again(rt: HostRuntime) {
    assert!(rt; asked_by_step() == Some(1_020_313_233));
}
