ghost use Rattle.std.specs.Prelude.{◌≡◌, ◌<◌, [], true, false, IfOk, IfNone, IfSome, MatchOption};
ghost use Rattle.plinq_stream.specs.Knowing.{first_known, with_sent, with_received, without_first, with_first, together};
ghost use Rattle.plinq_stream.specs.Passes.{IsPassOf, knowledge_of};
ghost use Rattle.plinq_stream.specs.Streams.{has, MayHandOut, HasReceivedAll};

use crate::admits::Admits;
use crate::plays::{Comes, HandsOut, Sends, TakesIn};
use crate::sent::Sent;
use crate::stream::Stream;
use crate::stream_pass::StreamPass;
use crossbeam_queue::RuledArrayQueue;
use plinq_wait::WaitQueue;
use std::alloc::{AllocError, Global};
use std::sync::Wait;
use std::sync::atomic::AtomicU64;

impl<T: Drop, C: Admits<T>> Stream<T, C> {
    /// A stream with room for so many items, and the pass that receives, which has the numbers 0 to 63.
    ///
    /// # Errors
    ///
    /// [`AllocError`] if there is no room for the items.
    pub fn new(alloc: Global, room: usize) -> Result<(Stream<T, C>, StreamPass<T>), AllocError>
        requires { 0 < room }
        ensures pass { IfOk result (λ made. IsPassOf made.0 made.1) }
        ensures first { IfOk result (λ made. knowledge_of made.1 ≡ first_known) }
    {
        let (queue, pass) = RuledArrayQueue::ruled(alloc, room)?;
        let stream = Stream {
            queue,
            room: WaitQueue::new(),
            received: AtomicU64::new(0),
        };
        Ok((stream, StreamPass { pass }))
    }

    /// Sends an item under a number of the pass, and waits while the queue is full. For a while it tries again, and then it
    /// sleeps until an item was received.
    pub fn send<R: Wait>(&self, rt: &R, pass: &mut StreamPass<T>, number: u64, item: T)
        requires pass { IsPassOf self.now pass.old }
        requires own { has number (knowledge_of pass.old).numbers ≡ true }
        requires carried { C.admits item }
        ensures pass { IsPassOf self.now pass.new }
        ensures sent { knowledge_of pass.new ≡ with_sent (knowledge_of pass.old) (record { number = number; item = item }) }
    {
        let mut waiting = Sent { number, item };
        let waiter = self.room.exclusive_waiter();
        for _ in rt.forever() {
            let sleep = waiter.prepare();
            match self.queue.try_push_as::<Sends>(&mut pass.pass, waiting) {
                Ok(()) => return,
                Err(back) => waiting = back,
            }
            waiter.pause(rt, sleep);
        }
    }

    /// The next item, unless there is none now or another thread is in the way.
    pub fn try_receive(&self, pass: &mut StreamPass<T>) -> Option<Sent<T>>
        requires pass { IsPassOf self.now pass.old }
        requires receives { (knowledge_of pass.old).receives ≡ true }
        ensures pass { IsPassOf self.now pass.new }
        ensures received { MatchOption result (knowledge_of pass.new ≡ knowledge_of pass.old)
            (λ s. knowledge_of pass.new ≡ with_received (knowledge_of pass.old) s) }
        ensures carried { IfSome result (λ s. C.admits s.item) }
    {
        let received = self.queue.try_pop_as::<Comes<C>>(&mut pass.pass);
        self.make_room(received.is_some());
        received
    }

    /// The next item, or that there was none at one moment of the call.
    pub fn receive<R: Wait>(&self, rt: &R, pass: &mut StreamPass<T>) -> Option<Sent<T>>
        requires pass { IsPassOf self.now pass.old }
        requires receives { (knowledge_of pass.old).receives ≡ true }
        ensures pass { IsPassOf self.now pass.new }
        ensures received { MatchOption result (knowledge_of pass.new ≡ knowledge_of pass.old)
            (λ s. knowledge_of pass.new ≡ with_received (knowledge_of pass.old) s) }
        ensures carried { IfSome result (λ s. C.admits s.item) }
        ensures all { IfNone result (HasReceivedAll (knowledge_of pass.new)) }
    {
        let received = self.queue.pop_as::<Comes<C>, R>(rt, &mut pass.pass);
        self.make_room(received.is_some());
        received
    }

    /// A pass with the first number that this one has, which may send under it in place of this one.
    pub fn give_number(&self, pass: &mut StreamPass<T>) -> StreamPass<T>
        requires pass { IsPassOf self.now pass.old }
        requires first { MayHandOut (knowledge_of pass.old) }
        ensures pass { IsPassOf self.now pass.new }
        ensures left { knowledge_of pass.new ≡ without_first (knowledge_of pass.old) }
        ensures of { IsPassOf self.now result }
        ensures first { knowledge_of result ≡ with_first (knowledge_of pass.old) }
    {
        let pass = self.queue.another::<HandsOut>(&mut pass.pass);
        StreamPass { pass }
    }

    /// Takes in a pass that doesn't receive: its numbers, and what it sent.
    pub fn join(&self, pass: &mut StreamPass<T>, other: StreamPass<T>)
        requires pass { IsPassOf self.now pass.old }
        requires other { IsPassOf self.now other }
        requires sends { (knowledge_of other).receives ≡ false }
        ensures pass { IsPassOf self.now pass.new }
        ensures both { knowledge_of pass.new ≡ together (knowledge_of pass.old) (knowledge_of other) }
    {
        let StreamPass { pass: other } = other;
        self.queue.absorb::<TakesIn>(&mut pass.pass, other);
    }
}
