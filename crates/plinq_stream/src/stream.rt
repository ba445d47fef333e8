use crate::admits::Admits;
use crate::pass_knowledge::PassKnowledge;
use crate::sent::Sent;
use crossbeam_queue::RuledArrayQueue;
use crossbeam_queue::protocol::Protocol;
use plinq_wait::WaitQueue;
use std::marker::PhantomData;
use std::sync::atomic::{AtomicU64, Ordering};

/// The rule of the queue.
pub struct InOrder<C> {
    of: PhantomData<C>,
}

impl<T, C: Admits<T>> Protocol<Sent<T>, PassKnowledge<T>> for InOrder<C> {
    ghost use Rattle.plinq_stream.specs.Knowing.{first_known};
    ghost use Rattle.plinq_stream.specs.Streams.{IsStream};

    ghost holds = { IsStream C.admits };

    ghost first = { first_known };
}

/// A queue with room for so many items, which many send to and one receives from.
///
/// ```text
/// let (stream, mut mine) = Stream::<u64, C>::new(alloc, 64)?;     // receives, and has the numbers 0 to 63
/// let mut theirs = stream.give_number(&mut mine);                    // may send under number 0
/// stream.send(&rt, &mut theirs, 0, 5);
/// stream.receive(&rt, &mut mine)                                  // 5, under number 0
/// ```
#[derive(Drop)]
pub struct Stream<T, C: Admits<T>> {
    pub(crate) queue: RuledArrayQueue<Sent<T>, PassKnowledge<T>, InOrder<C>>,
    /// Those that wait for room to send.
    pub(crate) room: WaitQueue,
    /// How many items were received, which only says when to wake those.
    pub(crate) received: AtomicU64,
}

/// After so many items that were received one after another, those that wait for room are woken together.
const ROOM_FOR_ALL: u64 = 128;

impl<T, C: Admits<T>> Stream<T, C> {
    /// After an attempt to receive. Those that wait for room are woken if it found nothing, and after each so many items: one by
    /// one, each would be woken for a single item.
    pub(crate) fn make_room(&self, found: bool) {
        if found {
            let received = self.received.load(Ordering::SeqCst).wrapping_add(1);
            self.received.store(received, Ordering::SeqCst);
            if received % ROOM_FOR_ALL != 0 {
                return;
            }
        }
        self.room.wake_each();
    }
}
