//! How often one thread asks a source.
use crate::answers::source_of;
use crate::building::ordered;
use plinq_lambda::Formula;
use plinq_ops::{Op, sequential};
use plinq_source::Ending;
use plinq_testing::Asked;
use std::alloc::Global;
use std::sync::atomic::{AtomicU64, Ordering};

/// How often one thread asks the source for an answer of this list, if it ends so.
fn times_asked(
    alloc: Global,
    refusal: Option<u32>,
    ops: &[Op<Formula>],
    wanted: Ending,
) -> Option<u64> {
    let times = AtomicU64::new(0);
    let mut source = Asked {
        source: source_of(alloc, &[3, 1, 4], refusal)?,
        times: &times,
    };
    let query = ordered(alloc, ops)?;
    match sequential(alloc, &query, &mut source) {
        Ok((_, ending)) => {
            if ending == wanted {
                Some(times.load(Ordering::SeqCst))
            } else {
                None
            }
        }
        Err(_) => None,
    }
}

#[test]
fn a_source_that_has_ended_is_not_asked_again(rt: HostRuntime) {
    let alloc = rt.alloc();
    let refused = Ending::Refused(7);
    assert!(rt; times_asked(alloc, None, &[], Ending::End) == Some(4));
    assert!(rt; times_asked(alloc, Some(7), &[], refused) == Some(4));
    assert!(rt; times_asked(alloc, None, &[Op::Take(2)], Ending::End) == Some(2));
    assert!(rt; times_asked(alloc, None, &[Op::Take(0)], Ending::End) == Some(0));
}
