use plinq_lambda::{ExpandFault, Formula, Lambda};
use plinq_testing::says;
use std::alloc::Global;

/// How many items come of one, or that they are refused.
fn count(alloc: Global, formula: Formula, x: i64) -> Option<usize> {
    match formula.expand(alloc, x) {
        Ok(items) => Some(items.len()),
        Err(_) => None,
    }
}

#[test]
fn expands_to_at_most_65536_items(rt: HostRuntime) {
    assert!(rt; count(rt.alloc(), Formula::Repeat(65_536), 7) == Some(65_536));
    assert!(rt; count(rt.alloc(), Formula::UpTo, 65_536) == Some(65_536));
}

/// What is made of one item, through the bound.
fn through<L: Lambda<Item = i64>>(alloc: Global, lambda: L, x: i64) -> bool {
    let is_expanded = match lambda.expand(alloc, x) {
        Ok(items) => items.len() == 1,
        Err(_) => false,
    };
    is_expanded && matches!((lambda.map(x), lambda.test(x)), (Ok(0), Ok(false)))
}

#[test]
fn answers_through_the_bound(rt: HostRuntime) {
    assert!(rt; through(rt.alloc(), Formula::Even, 5));
}

/// Each is asked twice, and of all of them one is refused at most. Run with each allocation refused in turn.
#[test]
fn expands_or_says_that_memory_ran_out(rt: HostRuntime) {
    let mut refused = 0usize;
    for (formula, wanted) in [
        (Formula::Add(1), 1),
        (Formula::Even, 1),
        (Formula::Repeat(0), 0),
        (Formula::Repeat(5), 5),
        (Formula::UpTo, 3),
    ] {
        for _turn in 0..2 {
            if count(rt.alloc(), formula, 3) != Some(wanted) {
                refused = refused.wrapping_add(1);
            }
        }
    }
    assert!(rt; refused <= 1);
}

#[test]
fn faults_in_words(rt: HostRuntime) {
    assert!(rt; says(rt.alloc(), &ExpandFault::Code(3), "fault 3"));
    assert!(rt; says(rt.alloc(), &ExpandFault::Memory, "out of memory"));
}
