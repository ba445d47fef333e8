//! Answers that one thread delivers, element by element.
ghost use Rattle.std.specs.Prelude.{◌≡◌, [], false, OnOk};
ghost use Rattle.plinq_ops.specs.Pipeline.{stages};
ghost use Rattle.plinq_ops.specs.Stage.{some_takes_none};
ghost use Rattle.plinq_merge.specs.Buffer.{held_of, size_of, HasRoom};
ghost use Rattle.plinq_merge.specs.inner.Handing.{Fills, HandsOn};
ghost use Rattle.plinq_merge.specs.inner.OneThread.{DeliversAnswer};

use crate::buffer::Buffer;
use crate::delivery_fault::DeliveryFault;
use crate::sending::{deliver_full, deliver_rest, send};
use crate::sink::Sink;
use plinq_lambda::Lambda;
use plinq_ops::Pipeline;
use plinq_source::{Ending, Source};
use std::alloc::Global;

/// After so many items that fill no batch the sink is told that none is there.
const QUIET_ITEMS: u64 = 8_192;

/// Sends what a source gives through a pipeline, up to the item that ends the run, or the ending, and delivers what comes out.
#[tactic(auto, using(crate::proofs::Delivered::sending_on))]
pub(crate) fn deliver_all<L, S, K>(
    alloc: Global,
    pipeline: &mut Pipeline<'_, L>,
    buffer: &mut Buffer<L::Item>,
    source: &mut S,
    sink: &mut K,
) -> Result<Ending, DeliveryFault>
where
    L: Lambda,
    S: Source<Item = L::Item>,
    K: Sink<Item = L::Item>,
    requires undecided { some_takes_none (stages L.meaning pipeline.old) ≡ false }
    requires fresh { S.given source.old ≡ 0 }
    requires empty { held_of buffer.old ≡ [] }
    requires room { HasRoom buffer.old }
    ensures same { S.whole source.new ≡ S.whole source.old }
    ensures delivers { DeliversAnswer K.accepts K.refuses (size_of buffer.old) 1
        (stages L.meaning pipeline.old) (S.whole source.old) sink.old (S.given source.new) result sink.new }
{
    let mut made = Vec::new(alloc);
    let mut wanted = buffer.missing();
    let mut quiet = 0;
    loop {
        if let Some(ending) = pipeline.feed_from(alloc, source, &mut made)? {
            return deliver_rest(buffer, &made, ending, sink);
        }
        deliver_ready(buffer, &mut made, &mut wanted, &mut quiet, sink)?;
    }
}

/// Delivers the batches that these items fill once there are as many as wanted, which is when they fill one, and until then nothing.
#[inline(always)]
fn deliver_ready<K: Sink>(
    buffer: &mut Buffer<K::Item>,
    made: &mut Vec<K::Item>,
    wanted: &mut usize,
    quiet: &mut u64,
    sink: &mut K,
) -> Result<(), DeliveryFault>
where
    K::Item: Copy,
    requires { HasRoom buffer.old }
    ensures room { OnOk result (HasRoom buffer.new) }
    ensures size { size_of buffer.new ≡ size_of buffer.old }
    ensures handed { HandsOn K.accepts K.refuses (size_of buffer.old) (held_of buffer.old) made.old.items sink.old result
        (held_of buffer.new) made.new.items sink.new }
{
    if made.len() < *wanted {
        report_quiet(quiet, sink);
        return Ok(());
    }
    *quiet = 0;
    deliver_made(buffer, made.as_slice(), sink)?;
    made.clear();
    *wanted = buffer.missing();
    Ok(())
}

/// Delivers the batches that these items fill. If they are just one, it goes to the sink as it is.
#[inline(always)]
fn deliver_made<K: Sink>(
    buffer: &mut Buffer<K::Item>,
    made: &[K::Item],
    sink: &mut K,
) -> Result<(), DeliveryFault>
where
    K::Item: Copy,
    requires { HasRoom buffer.old }
    ensures { Fills K.accepts K.refuses buffer.old made.now sink.old result buffer.new sink.new }
{
    if buffer.is_filled_by(made.len()) {
        return send(made, sink);
    }
    deliver_full(buffer, made, sink)
}

/// Counts an item that fills no batch, and after many tells the sink.
#[inline(always)]
fn report_quiet<K: Sink>(quiet: &mut u64, sink: &mut K)
    ensures { sink.new ≡ sink.old }
{
    *quiet = quiet.wrapping_add(1);
    if *quiet == QUIET_ITEMS {
        *quiet = 0;
        sink.idle();
    }
}
