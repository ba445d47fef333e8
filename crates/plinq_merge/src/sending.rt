ghost use Rattle.std.specs.Prelude.{◌≡◌, [], ◌∷◌, ◌<◌, None, IfOk, OnOk};
ghost use Rattle.plinq_source.specs.Trace.{ended_trace};
ghost use Rattle.plinq_ops.specs.Batches.{batches_from, held_back, last_batch};
ghost use Rattle.plinq_merge.specs.Buffer.{held_of, size_of, HasRoom};
ghost use Rattle.plinq_merge.specs.Sending.{Delivers};
ghost use Rattle.plinq_merge.specs.declared.buffer.Buffer.TheVariants.{Ring};
ghost use Rattle.plinq_merge.specs.inner.Handing.{Fills};

use crate::buffer::Buffer;
use crate::delivery_fault::DeliveryFault;
use crate::sink::Sink;
use circular_buffer::HeapCircularBuffer;
use plinq_source::Ending;

/// Hands one batch to the sink.
pub(crate) fn send<K: Sink>(batch: &[K::Item], sink: &mut K) -> Result<(), DeliveryFault>
    ensures { Delivers K.accepts K.refuses sink.old (batch.now ∷ []) result sink.new }
{
    match sink.batch(batch) {
        Ok(()) => Ok(()),
        Err(code) => Err(DeliveryFault::Sink(code)),
    }
}

/// Hands out what is left in the buffer, if the answer ends and as its ending says.
fn deliver_last<K: Sink>(
    buffer: &mut Buffer<K::Item>,
    ending: Option<Ending>,
    sink: &mut K,
) -> Result<(), DeliveryFault>
    ensures same { ending ≡ None → buffer.new ≡ buffer.old }
    ensures size { size_of buffer.new ≡ size_of buffer.old }
    ensures sent { Delivers K.accepts K.refuses sink.old
        (last_batch (size_of buffer.old) (held_of buffer.old) ending) result sink.new }
{
    let Some(ending) = ending else {
        return Ok(());
    };
    match buffer {
        Buffer::Ring(ring) => {
            if ring.is_empty() {
                return Ok(());
            }
            send(ring.make_contiguous(), sink)
        }
        Buffer::All(items) => {
            if items.is_empty() || ending != Ending::End {
                return Ok(());
            }
            send(items.as_slice(), sink)
        }
    }
}

/// Hands out the batches that these items fill, and holds the rest back.
#[tactic(auto, using(crate::proofs::Delivered::buffering))]
pub(crate) fn deliver_full<K: Sink>(
    buffer: &mut Buffer<K::Item>,
    items: &[K::Item],
    sink: &mut K,
) -> Result<(), DeliveryFault>
where
    K::Item: Copy,
    requires { HasRoom buffer.old }
    ensures { Fills K.accepts K.refuses buffer.old items.now sink.old result buffer.new sink.new }
{
    match buffer {
        Buffer::Ring(ring) => {
            if ring.is_empty() {
                return hand_whole(ring, items, sink);
            }
            let taken = ring.fill_from_slice(items);
            if !ring.is_full() {
                return Ok(());
            }
            let sent = send(ring.make_contiguous(), sink);
            ring.clear();
            sent?;
            let (_, rest) = items.split_at(taken);
            hand_whole(ring, rest, sink)
        }
        Buffer::All(held) => {
            held.extend_from_slice(items)?;
            Ok(())
        }
    }
}

/// Hands out the batches that a piece of an answer fills, and all of them if the answer ends with it.
#[tactic(auto, using(crate::proofs::Delivered::delivering))]
pub(crate) fn deliver_piece<K: Sink>(
    buffer: &mut Buffer<K::Item>,
    items: &[K::Item],
    ending: Option<Ending>,
    sink: &mut K,
) -> Result<(), DeliveryFault>
where
    K::Item: Copy,
    requires { HasRoom buffer.old }
    ensures size { size_of buffer.new ≡ size_of buffer.old }
    ensures kept { OnOk result (ending ≡ None →
        HasRoom buffer.new × (held_of buffer.new ≡ held_back (size_of buffer.old) (held_of buffer.old) items.now)) }
    ensures sent { Delivers K.accepts K.refuses sink.old
        (batches_from (size_of buffer.old) (held_of buffer.old) (record { items = items.now; ending = ending })) result sink.new }
{
    deliver_full(buffer, items, sink)?;
    deliver_last(buffer, ending, sink)
}

/// Delivers what the last items fill and leave, and returns the ending.
#[tactic(auto, using(crate::proofs::Delivered::delivering))]
pub(crate) fn deliver_rest<K: Sink>(
    buffer: &mut Buffer<K::Item>,
    made: &Vec<K::Item>,
    ending: Ending,
    sink: &mut K,
) -> Result<Ending, DeliveryFault>
where
    K::Item: Copy,
    requires { HasRoom buffer.old }
    ensures ending { IfOk result (λ e. e ≡ ending) }
    ensures delivered { Delivers K.accepts K.refuses sink.old
        (batches_from (size_of buffer.old) (held_of buffer.old) (ended_trace made.now.items ending)) result sink.new }
{
    deliver_piece(buffer, made.as_slice(), Some(ending), sink)?;
    Ok(ending)
}

/// Hands out full batches as parts of the items themselves, and holds back what is left of them.
#[tactic(auto, using(crate::proofs::Delivered::delivering))]
fn hand_whole<K: Sink>(
    ring: &mut HeapCircularBuffer<K::Item>,
    items: &[K::Item],
    sink: &mut K,
) -> Result<(), DeliveryFault>
where
    K::Item: Copy,
    requires empty { ring.old.items ≡ [] }
    requires size { 0 < ring.old.capacity }
    ensures { Fills K.accepts K.refuses (Ring ring.old) items.now sink.old result (Ring ring.new) sink.new }
{
    let size = ring.capacity();
    if let Err(code) = sink.batches_of(size, items) {
        return Err(DeliveryFault::Sink(code));
    }
    let (_, rest) = items.split_at(items.len() - items.len() % size);
    ring.fill_from_slice(rest);
    Ok(())
}
