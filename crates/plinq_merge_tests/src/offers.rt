//! What tests offer.
ghost use Rattle.std.specs.Prelude.{◌≤◌, ◌^◌, Ok, Err, true, IfSome};
ghost use Rattle.plinq_ops.specs.Tails.{end_of_result};

use plinq_keyed::Tail;
use plinq_lambda::{ExpandFault, Lambda};
use plinq_merge::Merger;
use plinq_ops::{ChunkResult, FragEnd, MergeOption, Query};
use std::alloc::Global;

/// A lambda over letters that leaves each as it is, and expands none.
#[derive(Clone, Copy)]
pub(crate) struct Same;

impl Lambda for Same {
    type Item = char;

    ghost meaning = { λ _. record { map = λ x. Ok x; test = λ _. Ok true; expand = λ _. Err 1 } };

    ghost short = { λ _ _. tt };

    fn map(&self, x: char) -> Result<char, u32> {
        Ok(x)
    }

    fn test(&self, _: char) -> Result<bool, u32> {
        Ok(true)
    }

    fn expand(&self, _: Global, _: char) -> Result<Vec<char>, ExpandFault> {
        Err(ExpandFault::Code(1))
    }
}

/// A query of no operators whose results are merged by key.
pub(crate) fn ordered<L: Lambda>(alloc: Global) -> Option<Query<L>> {
    match Query::new(alloc).as_ordered() {
        Ok(query) => Some(query),
        Err(_) => None,
    }
}

/// The merger of a query.
pub(crate) fn merger_of<L: Lambda>(
    alloc: Global,
    query: &Query<L>,
    option: MergeOption,
) -> Option<Merger<'_, L>> {
    match Merger::new(alloc, &query.split(), option) {
        Ok(merger) => Some(merger),
        Err(_) => None,
    }
}

/// The result of a chunk of as many elements as items, the first of which has this key.
pub(crate) fn result_of<T: Copy>(
    alloc: Global,
    first: u64,
    items: &[T],
    tail: Option<Tail>,
) -> Option<ChunkResult<T>>
    ensures { IfSome result (λ made. end_of_result made ≤ 2 ^ 40) }
{
    if first > 1_000_000 || items.len() > 1_000_000 {
        return None;
    }
    match Vec::from_slice(alloc, items) {
        Ok(list) => Some(ChunkResult {
            first,
            count: items.len() as u64,
            items: list,
            ending: FragEnd::More,
            stop: None,
            tail,
        }),
        Err(_) => None,
    }
}
