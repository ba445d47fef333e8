//! Answers that one thread delivers, so many elements at a time.
ghost use Rattle.std.specs.Prelude.{◌≡◌, ◌<◌, [], false, OnOk};
ghost use Rattle.plinq_ops.specs.Pipeline.{stages};
ghost use Rattle.plinq_ops.specs.Stage.{some_takes_none};
ghost use Rattle.plinq_merge.specs.Buffer.{held_of, size_of, HasRoom};
ghost use Rattle.plinq_merge.specs.inner.Handing.{Fills};
ghost use Rattle.plinq_merge.specs.inner.OneThread.{DeliversAnswer};

use crate::buffer::Buffer;
use crate::delivery_fault::DeliveryFault;
use crate::sending::{deliver_full, deliver_rest};
use crate::singly::deliver_all;
use crate::sink::Sink;
use plinq_lambda::Lambda;
use plinq_ops::Pipeline;
use plinq_source::{Ending, Source};
use std::alloc::Global;

/// After so many blocks that fill no batch the sink is told that none is there: by blocks of 512, after 8,192 elements.
const QUIET_BLOCKS: u64 = 16;

/// Sends what a source gives through a pipeline, so many elements at a time, up to those that end the run, and delivers what
/// comes out.
#[tactic(auto, using(crate::proofs::Delivered::in_blocks))]
pub(crate) fn deliver_blocks<L, S, K>(
    alloc: Global,
    most: u64,
    pipeline: &mut Pipeline<'_, L>,
    buffer: &mut Buffer<L::Item>,
    source: &mut S,
    sink: &mut K,
) -> Result<Ending, DeliveryFault>
where
    L: Lambda,
    S: Source<Item = L::Item>,
    K: Sink<Item = L::Item>,
    requires some { 0 < most }
    requires undecided { some_takes_none (stages L.meaning pipeline.old) ≡ false }
    requires fresh { S.given source.old ≡ 0 }
    requires empty { held_of buffer.old ≡ [] }
    requires room { HasRoom buffer.old }
    ensures same { S.whole source.new ≡ S.whole source.old }
    ensures delivers { DeliversAnswer K.accepts K.refuses (size_of buffer.old) most
        (stages L.meaning pipeline.old) (S.whole source.old) sink.old (S.given source.new) result sink.new }
{
    // (one element at a time is faster by a loop of its own)
    if most == 1 {
        return deliver_all(alloc, pipeline, buffer, source, sink);
    }
    let mut block = Vec::new(alloc);
    let mut quiet = 0;
    loop {
        if let Some(ending) = pipeline.feed_block_from(alloc, source, most, &mut block)? {
            return deliver_rest(buffer, &block, ending, sink);
        }
        deliver_block(buffer, &mut block, &mut quiet, sink)?;
    }
}

/// Delivers the batches that a block of results fills, and empties it. After many blocks that filled none, the sink is told.
fn deliver_block<K: Sink>(
    buffer: &mut Buffer<K::Item>,
    block: &mut Vec<K::Item>,
    quiet: &mut u64,
    sink: &mut K,
) -> Result<(), DeliveryFault>
where
    K::Item: Copy,
    requires { HasRoom buffer.old }
    ensures empty { OnOk result (block.new.items ≡ []) }
    ensures fills { Fills K.accepts K.refuses buffer.old block.old.items sink.old result buffer.new sink.new }
{
    let fills = block.len() >= buffer.missing();
    deliver_full(buffer, block.as_slice(), sink)?;
    block.clear();
    *quiet = if fills { 0 } else { quiet.wrapping_add(1) };
    if *quiet == QUIET_BLOCKS {
        *quiet = 0;
        sink.idle();
    }
    Ok(())
}
