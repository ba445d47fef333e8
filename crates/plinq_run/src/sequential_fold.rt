//! The fold of a query's answer on one thread.
ghost use Rattle.std.specs.Prelude.{◌≡◌, false, IfOk, OnOk};
ghost use Rattle.std.specs.List.{fold};
ghost use Rattle.plinq_ops.specs.Operator.{stages_of};
ghost use Rattle.plinq_ops.specs.Pipeline.{stages};
ghost use Rattle.plinq_ops.specs.Sequential.{answer_of, IsLeastDeciding};
ghost use Rattle.plinq_ops.specs.Stage.{some_takes_none};
ghost use Rattle.plinq_run.specs.FinishedFold.{HasFinished};
ghost use Rattle.plinq_run.specs.inner.SequentialFold.{FoldsAll};

use crate::combined::Combined;
use plinq_aggregate::GrowingAggregator;
use plinq_lambda::Lambda;
use plinq_ops::{Pipeline, Query};
use plinq_source::{Ending, OutOfMemory, Source};
use std::alloc::{AllocError, Global};

/// After so many items a piece of the answer is folded.
const PIECE_ITEMS: usize = 512;

/// The fold of a query's answer on one thread, and how the answer ends. An item is folded and dropped soon after it comes, so
/// that no more are held than a piece has, or one element's expansion.
///
/// The source must have given nothing. It is asked for no element after the one that decides the answer.
///
/// # Errors
///
/// [`OutOfMemory`] if there is no room for what is left of the operators, for a piece or in the accumulator. The source may
/// have given some of its elements then.
///
/// ```text
/// let folded = fold_sequentially(alloc, &query, &mut source, &Sum)?;
/// Sum.result(folded.acc)    // the sum, if folded.ending is Ending::End
/// ```
pub fn fold_sequentially<L, S, A>(
    alloc: Global,
    query: &Query<L>,
    source: &mut S,
    aggregator: &A,
) -> Result<Combined<A::Acc>, OutOfMemory>
where
    L: Lambda,
    S: Source<Item = L::Item>,
    A: GrowingAggregator<Item = L::Item>,
    requires { S.given source.old ≡ 0 }
    ensures same { S.whole source.new ≡ S.whole source.old }
    ensures folded { IfOk result (HasFinished (A.folding aggregator.now) (answer_of L.meaning query.now.ops (S.whole source.old))) }
    ensures least { OnOk result (IsLeastDeciding
        (stages_of L.meaning query.now.ops) (S.whole source.old) (S.given source.new)) }
{
    if query.split().decided {
        return Ok(Combined {
            acc: aggregator.seed(alloc),
            ending: Ending::End,
        });
    }
    let mut pipeline = Pipeline::new(alloc, query.ops())?;
    fold_all(alloc, &mut pipeline, source, aggregator)
}

/// Sends what a source gives through a pipeline, up to the item that ends the run, or the ending, and folds what comes out.
fn fold_all<L, S, A>(
    alloc: Global,
    pipeline: &mut Pipeline<'_, L>,
    source: &mut S,
    aggregator: &A,
) -> Result<Combined<A::Acc>, OutOfMemory>
where
    L: Lambda,
    S: Source<Item = L::Item>,
    A: GrowingAggregator<Item = L::Item>,
    requires undecided { some_takes_none (stages L.meaning pipeline.old) ≡ false }
    requires fresh { S.given source.old ≡ 0 }
    ensures same { S.whole source.new ≡ S.whole source.old }
    ensures folds { IfOk result (FoldsAll (A.folding aggregator.now) (stages L.meaning pipeline.old) (S.whole source.old) (S.given source.new)) }
{
    let mut acc = aggregator.seed(alloc);
    let mut piece = Vec::new(alloc);
    loop {
        if let Some(ending) = pipeline.feed_from(alloc, source, &mut piece)? {
            let acc = fold_piece(alloc, aggregator, acc, &piece)?;
            return Ok(Combined { acc, ending });
        }
        acc = fold_full(alloc, aggregator, acc, &mut piece)?;
    }
}

/// Folds a piece of the answer.
fn fold_piece<A: GrowingAggregator>(
    alloc: Global,
    aggregator: &A,
    acc: A::Acc,
    piece: &Vec<A::Item>,
) -> Result<A::Acc, AllocError>
    ensures { IfOk result (λ after. after ≡ fold (A.folding aggregator.now).update acc piece.now.items) }
{
    aggregator.update_block(alloc, acc, piece.as_slice())
}

/// Folds a piece of the answer once it is full, and begins another. What the fold of both comes to stays the same.
#[inline(always)]
fn fold_full<A: GrowingAggregator>(
    alloc: Global,
    aggregator: &A,
    acc: A::Acc,
    piece: &mut Vec<A::Item>,
) -> Result<A::Acc, AllocError>
    ensures { IfOk result (λ after. fold (A.folding aggregator.now).update after piece.new.items
        ≡ fold (A.folding aggregator.now).update acc piece.old.items) }
{
    if piece.len() < PIECE_ITEMS {
        return Ok(acc);
    }
    let acc = fold_piece(alloc, aggregator, acc, &*piece)?;
    piece.clear();
    Ok(acc)
}
