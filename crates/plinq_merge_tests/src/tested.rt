//! How many items a SkipWhile tests.
ghost use Rattle.std.specs.Prelude.{Ok, Err, pos, int_lt};

use plinq_lambda::{ExpandFault, Lambda};
use plinq_ops::{Op, Pipeline, Query, sequential};
use plinq_source::{Ending, ListSource};
use std::alloc::Global;
use std::sync::atomic::{AtomicU64, Ordering};

const LIST: [i64; 5] = [1, 2, 9, 3, 4];

/// A lambda that numbers below 9 pass, and that counts those which it tests.
#[derive(Clone, Copy)]
struct Counting<'a> {
    tested: &'a AtomicU64,
}

impl<'a> Lambda for Counting<'a> {
    type Item = i64;

    ghost meaning = { λ _. record { map = λ x. Ok x; test = λ x. Ok (int_lt x (pos 9)); expand = λ x. Err 1 } };

    ghost short = { λ _ _. tt };

    fn map(&self, x: i64) -> Result<i64, u32> {
        Ok(x)
    }

    fn test(&self, x: i64) -> Result<bool, u32> {
        self.tested.fetch_add(1, Ordering::SeqCst);
        Ok(x < 9)
    }

    fn expand(&self, _: Global, _: i64) -> Result<Vec<i64>, ExpandFault> {
        Err(ExpandFault::Code(1))
    }
}

/// What one thread answers of the list, and how many items it tests.
fn answered(alloc: Global) -> Option<(Vec<i64>, u64)> {
    let tested = AtomicU64::new(0);
    let Ok(query) = Query::new(alloc).skip_while(Counting { tested: &tested }) else {
        return None;
    };
    let list = Vec::from_slice(alloc, &LIST).ok()?;
    let mut source = ListSource::new(alloc, list);
    let (items, ending) = sequential(alloc, &query, &mut source).ok()?;
    if ending == Ending::End {
        Some((items, tested.load(Ordering::SeqCst)))
    } else {
        None
    }
}

/// Whether items were skipped by three tests, that of the first which fails among them.
fn are_skipped(told: Option<(Vec<i64>, u64)>) -> bool {
    match told {
        Some((items, tested)) => items.as_slice() == [9, 3, 4].as_slice() && tested == 3,
        None => false,
    }
}

#[test]
fn one_thread_tests_no_item_past_the_first_that_fails(rt: HostRuntime) {
    assert!(rt; are_skipped(answered(rt.alloc())));
}

/// What a pipeline gives for the list in blocks of that size, and how many items it tests.
fn fed(alloc: Global, size: usize) -> Option<(Vec<i64>, u64)> {
    let tested = AtomicU64::new(0);
    let ops = [Op::SkipWhile(Counting { tested: &tested })];
    let mut pipeline = Pipeline::new(alloc, &ops).ok()?;
    let mut out = Vec::new(alloc);
    for items in LIST.chunks(size.max(1)) {
        if pipeline.is_over() {
            break;
        }
        let mut block = Vec::from_slice(alloc, items).ok()?;
        let _ = pipeline.feed_block(alloc, &mut block, None).ok()?;
        out.append(&mut block).ok()?;
    }
    Some((out, tested.load(Ordering::SeqCst)))
}

#[test]
fn a_block_tests_no_item_past_the_first_that_fails(rt: HostRuntime) {
    for size in [1, 2, 3, 4, 5] {
        assert!(rt; are_skipped(fed(rt.alloc(), size)), "{size}");
    }
}
