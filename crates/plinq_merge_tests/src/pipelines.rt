ghost use Rattle.std.specs.Prelude.{◌≡◌, Ok, not, [], ◌∷◌};
ghost use Rattle.std.proofs.Common.{arith};

use crate::building::ordered;
use plinq_keyed::Chunk;
use plinq_lambda::{ExpandFault, Formula, Lambda};
use plinq_ops::{FragEnd, Op, Pipeline, Query, chunk_result, fragment, sequential};
use plinq_source::{Ending, ListSource, Source, Step};
use std::alloc::Global;

/// A lambda over truth values, whose items have another size: mapped each is turned round, a yes passes, and each is
/// expanded to both; it never faults.
#[derive(Clone, Copy, Debug, PartialEq, Eq, Drop)]
struct Turning;

impl Lambda for Turning {
    type Item = bool;

    ghost meaning = { λ _. record { map = λ x. Ok (not x); test = λ x. Ok x; expand = λ x. Ok (x ∷ not x ∷ []) } };

    ghost short = { λ _ x. omega arith };

    fn map(&self, x: bool) -> Result<bool, u32> {
        Ok(!x)
    }

    fn test(&self, x: bool) -> Result<bool, u32> {
        Ok(x)
    }

    fn expand(&self, alloc: Global, x: bool) -> Result<Vec<bool>, ExpandFault> {
        Ok(vec![in alloc; x, !x]?)
    }
}

fn takes_in(alloc: Global) -> Option<bool> {
    let ops = [Op::Skip(1), Op::Take(4), Op::Select(Formula::Add(1))];
    let mut block = Vec::from_slice(alloc, &[6, 0]).ok()?;
    let mut out = Vec::new(alloc);
    let mut pipeline = Pipeline::at_key(alloc, &ops, 1).ok()?;
    if pipeline.is_over() {
        return None;
    }
    let after_one = pipeline.feed(alloc, 5, &mut out).ok()?;
    if pipeline.is_over() {
        return None;
    }
    let after_block = pipeline.feed_block(alloc, &mut block, None).ok()?;
    let is_open = after_one.is_none() && after_block.is_none();
    Some(is_open && out.as_slice() == [6].as_slice() && block.as_slice() == [7, 1].as_slice())
}

#[test]
fn a_pipeline_takes_in_items_and_blocks(rt: HostRuntime) {
    assert!(rt; takes_in(rt.alloc()) == Some(true));
}

/// An item, and then a refusal, one step after another.
fn hears_a_refusal(alloc: Global) -> Option<bool> {
    let ops = [Op::SelectMany(Formula::Repeat(2)), Op::Take(5)];
    let list = Vec::from_slice(alloc, &[7]).ok()?;
    let mut source = ListSource::refusing(alloc, list, 3);
    let mut out = Vec::new(alloc);
    let mut pipeline = Pipeline::new(alloc, &ops).ok()?;
    if pipeline.is_over() {
        return None;
    }
    let after_item = pipeline.feed_from(alloc, &mut source, &mut out).ok()?;
    if pipeline.is_over() {
        return None;
    }
    let after_all = pipeline.feed_from(alloc, &mut source, &mut out).ok()?;
    let is_told = after_item.is_none() && after_all == Some(Ending::Refused(3));
    Some(is_told && out.as_slice() == [7, 7].as_slice())
}

/// A block with the end after it.
fn hears_the_end_of_a_block(alloc: Global) -> Option<bool> {
    let ops = [Op::SelectMany(Formula::Repeat(2)), Op::Take(5)];
    let mut block = Vec::from_slice(alloc, &[4, 9]).ok()?;
    let mut pipeline = Pipeline::new(alloc, &ops).ok()?;
    if pipeline.is_over() {
        return None;
    }
    let ending = Some(Ending::Refused(3));
    let after_all = pipeline.feed_block(alloc, &mut block, ending).ok()?;
    Some(after_all == ending && block.as_slice() == [4, 4, 9, 9].as_slice())
}

/// The end alone, if a Take has items left to take.
fn hears_the_end(alloc: Global) -> Option<bool> {
    let ops = [Op::Select(Formula::Add(1)), Op::Take(5)];
    let mut out = Vec::new(alloc);
    let mut pipeline = Pipeline::new(alloc, &ops).ok()?;
    if pipeline.is_over() {
        return None;
    }
    let ending = pipeline.feed_end(alloc, Ending::End, &mut out).ok()?;
    Some(ending == Some(Ending::End) && out.is_empty())
}

#[test]
fn operators_hear_of_the_end(rt: HostRuntime) {
    assert!(rt; hears_a_refusal(rt.alloc()) == Some(true));
    assert!(rt; hears_the_end_of_a_block(rt.alloc()) == Some(true));
    assert!(rt; hears_the_end(rt.alloc()) == Some(true));
}

/// An ordered query of take_while, select_many and select, with a Take after them that no worker can apply.
fn turned_query(alloc: Global) -> Option<Query<Turning>> {
    let ops = [
        Op::TakeWhile(Turning),
        Op::SelectMany(Turning),
        Op::Select(Turning),
        Op::Take(5),
    ];
    ordered(alloc, &ops)
}

fn is_turned_by_one(alloc: Global) -> Option<bool> {
    let query = turned_query(alloc)?;
    let list = Vec::from_slice(alloc, &[true, true, false, true]).ok()?;
    let mut source = ListSource::new(alloc, list);
    let (items, ending) = sequential(alloc, &query, &mut source).ok()?;
    let is_right = items.as_slice() == [false, true, false, true].as_slice();
    Some(is_right && ending == Ending::End && source.next() == Step::Item(true))
}

#[test]
fn another_type_on_one_thread(rt: HostRuntime) {
    assert!(rt; is_turned_by_one(rt.alloc()) == Some(true));
}

fn is_turned_in_a_fragment(alloc: Global) -> Option<bool> {
    let query = turned_query(alloc)?;
    let plan = query.split();
    if plan.decided || plan.worker.len() != 3 || plan.after.len() != 1 {
        return None;
    }
    let given = fragment(alloc, plan.worker, 9, true).ok()?;
    let is_right = given.items.as_slice() == [false, true].as_slice();
    Some(is_right && given.ending == FragEnd::More)
}

#[test]
fn another_type_in_a_fragment(rt: HostRuntime) {
    assert!(rt; is_turned_in_a_fragment(rt.alloc()) == Some(true));
}

fn is_turned_in_a_chunk(alloc: Global) -> Option<bool> {
    let query = turned_query(alloc)?;
    let plan = query.split();
    let items = Vec::from_slice(alloc, &[true, false, true]).ok()?;
    if plan.decided || items.len() != 3 {
        return None;
    }
    let chunk = Chunk {
        first: 1,
        items,
        tail: None,
    };
    let given = chunk_result(alloc, &plan, &chunk, u64::MAX).ok()?;
    let is_right = given.items.as_slice() == [false, true].as_slice();
    Some(is_right && given.ending == FragEnd::End && given.stop == Some(2))
}

#[test]
fn another_type_in_a_chunk(rt: HostRuntime) {
    assert!(rt; is_turned_in_a_chunk(rt.alloc()) == Some(true));
}
