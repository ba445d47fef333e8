ghost use Rattle.std.specs.Prelude.{◌≡◌, ◌+◌, ◌≤◌, Some, IsSome, IfOk, IfErr, OnOk, OnErr};
ghost use Rattle.plinq_partition.specs.Faults.{take_fault_of};
ghost use Rattle.plinq_partition.specs.inner.Inside.{IsInside, holding_inside};
ghost use Rattle.plinq_partition.specs.Partitions.{IsPartitionOf, IsTaken, IsTakenOf, IsStopped, IsRefused, IsNotBusy, StaysOf, growth_of, holding_of};
ghost use Rattle.plinq_partition.specs.PartitionRecords.{drawn_at, served_at};
ghost use Rattle.plinq_enumerator.specs.Growing.{size_at};
ghost use Rattle.plinq_ticket.specs.Passes.{held_drawn, held_ticket};

use crate::chunked::Chunked;
use crate::partition::Partition;
use crate::take_fault::TakeFault;
use plinq_enumerator::Enumerator;
use plinq_keyed::Chunk;
use plinq_source::Source;
use plinq_ticket::{Held, LockFault, Pass};
use std::alloc::Global;
use std::sync::Wait;

impl<S: Source> Partition<S> {
    /// How many chunks it was given. Takes no memory.
    pub fn requests(&self) -> u64
        ensures { result ≡ (holding_of self.now).requests }
    {
        self.requests
    }

    /// How many items the next chunk has by the growth. Takes no memory.
    pub fn next_size(&self, chunked: &Chunked<S>) -> u64
        ensures size { result ≡ size_at (growth_of chunked.now) (holding_of self.now).requests }
        ensures least { 1 ≤ result }
        ensures most { result ≤ 65536 }
    {
        chunked.growth.size(self.requests)
    }

    /// The next chunk of the source, of as many items as the growth says for this request; the last one may be shorter
    /// and has the source's tail. Waits while another partition is inside, or waits with a ticket; those that take wait in no
    /// order.
    ///
    /// # Errors
    ///
    /// [`TakeFault::Spent`] if all tickets were drawn, else [`TakeFault::Memory`] if there is no room for the
    /// chunk, or else for its record. The partition is as it was, and the source wasn't asked; but a refusal for lack of
    /// memory uses up a ticket, since it comes from inside the lock.
    pub fn take<R: Wait>(
        &mut self,
        rt: &R,
        chunked: &Chunked<S>,
    ) -> Result<Chunk<S::Item>, TakeFault>
        requires { IsPartitionOf chunked.now self.old }
        ensures of { IsPartitionOf chunked.now self.new }
        ensures taken { IfOk result (IsTaken (growth_of chunked.now) (holding_of self.old) (holding_of self.new)) }
        ensures refused { IfErr result (IsRefused self.old self.new) }
        ensures waited { IfErr result IsNotBusy }
    {
        let n = self.next_size(chunked);
        self.take_up_to(rt, chunked, n)
    }

    /// The next chunk of the source, as [`Partition::take`] gives it, but of `n` items, whatever the growth says.
    ///
    /// ```text
    /// let n = partition.next_size(&chunked);
    /// let chunk = partition.take_up_to(&rt, &chunked, (2 * n).min(65_536))?;
    /// ```
    ///
    /// # Errors
    ///
    /// As of [`Partition::take`].
    pub fn take_up_to<R: Wait>(
        &mut self,
        rt: &R,
        chunked: &Chunked<S>,
        n: u64,
    ) -> Result<Chunk<S::Item>, TakeFault>
        requires of { IsPartitionOf chunked.now self.old }
        requires some { 1 ≤ n }
        requires few { n ≤ 65536 }
        ensures of { IsPartitionOf chunked.now self.new }
        ensures taken { IfOk result (IsTakenOf n (holding_of self.old) (holding_of self.new)) }
        ensures refused { IfErr result (IsRefused self.old self.new) }
        ensures waited { IfErr result IsNotBusy }
    {
        let pass = self.lend_pass();
        match chunked.lock.enter_when_free(rt, pass) {
            Ok(held) => self.ask(chunked, held, n),
            Err(refusal) => Err(self.have_back(refusal)),
        }
    }

    /// The next chunk, as [`Partition::take`] gives it, but only if no other partition is before this one.
    ///
    /// # Errors
    ///
    /// [`TakeFault::Spent`] if all tickets were drawn; [`TakeFault::Busy`] if another partition waits or is
    /// inside; else [`TakeFault::Memory`] as for `take`, which uses up a ticket. The partition is as it was, and the
    /// source wasn't asked.
    pub fn try_take(&mut self, chunked: &Chunked<S>) -> Result<Chunk<S::Item>, TakeFault>
        requires { IsPartitionOf chunked.now self.old }
        ensures of { IsPartitionOf chunked.now self.new }
        ensures taken { IfOk result (IsTaken (growth_of chunked.now) (holding_of self.old) (holding_of self.new)) }
        ensures refused { IfErr result (IsRefused self.old self.new) }
    {
        let n = self.next_size(chunked);
        self.try_take_up_to(chunked, n)
    }

    /// The next chunk of `n` items, but only if no other partition is before this one.
    fn try_take_up_to(&mut self, chunked: &Chunked<S>, n: u64) -> Result<Chunk<S::Item>, TakeFault>
        requires of { IsPartitionOf chunked.now self.old }
        requires some { 1 ≤ n }
        requires few { n ≤ 65536 }
        ensures of { IsPartitionOf chunked.now self.new }
        ensures taken { IfOk result (IsTakenOf n (holding_of self.old) (holding_of self.new)) }
        ensures refused { IfErr result (IsRefused self.old self.new) }
    {
        let pass = self.lend_pass();
        match chunked.lock.try_enter(pass) {
            Ok(held) => self.ask(chunked, held, n),
            Err(refusal) => Err(self.have_back(refusal)),
        }
    }

    /// Closes the source for all partitions: what they take from now on is empty, and has the tail
    /// [`Tail::Closed`](plinq_keyed::Tail::Closed). It is no request for a chunk.
    ///
    /// # Errors
    ///
    /// [`TakeFault::Spent`] if all tickets were drawn, else [`TakeFault::Memory`] if there is no room for the
    /// record, which uses up a ticket. The partition is as it was.
    pub fn stop<R: Wait>(&mut self, rt: &R, chunked: &Chunked<S>) -> Result<(), TakeFault>
        requires { IsPartitionOf chunked.now self.old }
        ensures of { IsPartitionOf chunked.now self.new }
        ensures stopped { OnOk result (IsStopped (holding_of self.old) (holding_of self.new)) }
        ensures refused { IfErr result (IsRefused self.old self.new) }
        ensures waited { IfErr result IsNotBusy }
    {
        let pass = self.lend_pass();
        match chunked.lock.enter(rt, pass) {
            Ok(held) => self.close(chunked, held),
            Err(refusal) => Err(self.have_back(refusal)),
        }
    }

    /// Keeps the list of a chunk that was worked off: the next chunk takes its room. So whoever gives each list back takes
    /// memory for the largest chunk alone. Takes no memory.
    ///
    /// ```text
    /// let chunk = partition.take(&rt, &chunked)?;
    /// ..
    /// partition.reuse(chunk.items);
    /// ```
    pub fn reuse(&mut self, list: Vec<S::Item>)
        ensures of { StaysOf self.old self.new }
        ensures same { holding_of self.new ≡ holding_of self.old }
    {
        self.spare = Some(list);
    }

    /// The pass, for good.
    pub(crate) fn into_pass(self) -> Pass<Enumerator<S>>
        requires there { IsSome self.pass }
        ensures { self.pass ≡ Some result }
    {
        let Partition { pass, .. } = self;
        match pass {
            Some(pass) => pass,
            None => unreachable!(),
        }
    }

    /// The pass, for a way through the lock.
    pub(crate) fn lend_pass(&mut self) -> Pass<Enumerator<S>>
        requires { IsSome self.old.pass }
        ensures pass { self.old.pass ≡ Some result }
        ensures requests { self.new.requests ≡ self.old.requests }
    {
        match self.pass.take() {
            Some(pass) => pass,
            None => unreachable!(),
        }
    }

    /// The pass comes back, and the lock's fault is reported.
    fn have_back(&mut self, refusal: (Pass<Enumerator<S>>, LockFault)) -> TakeFault
        ensures pass { self.new.pass ≡ Some refusal.0 }
        ensures requests { self.new.requests ≡ self.old.requests }
        ensures fault { result ≡ take_fault_of refusal.1 }
    {
        let (pass, fault) = refusal;
        self.pass = Some(pass);
        TakeFault::from(fault)
    }

    /// The list that was kept, or one without room.
    fn spare_list(&mut self, alloc: Global) -> Vec<S::Item>
        ensures pass { self.new.pass ≡ self.old.pass }
        ensures requests { self.new.requests ≡ self.old.requests }
    {
        match self.spare.take() {
            Some(list) => list,
            None => Vec::new(alloc),
        }
    }

    /// Takes a chunk of `n` items while inside, and leaves.
    fn ask(
        &mut self,
        chunked: &Chunked<S>,
        held: Held<Enumerator<S>>,
        n: u64,
    ) -> Result<Chunk<S::Item>, TakeFault>
        requires inside { IsInside chunked.now self.old.requests held }
        requires some { 1 ≤ n }
        requires few { n ≤ 65536 }
        ensures of { IsPartitionOf chunked.now self.new }
        ensures taken { IfOk result (IsTakenOf n (holding_inside self.old.requests held) (holding_of self.new)) }
        ensures same { OnErr result (holding_of self.new ≡ holding_inside self.old.requests held) }
        ensures memory { IfErr result (λ fault. fault ≡ TakeFault.Memory) }
        ensures left { (drawn_at self.new.pass ≡ held_drawn held) × (served_at self.new.pass ≡ held_ticket held + 1) }
    {
        let mut held = held;
        let ticket = held.ticket();
        let list = self.spare_list(chunked.alloc);
        let asked = held.value_mut().ask_into(ticket, n, list);
        self.pass = Some(chunked.lock.leave(held));
        let chunk = asked?;
        self.requests += 1;
        Ok(chunk)
    }

    /// Closes the enumerator while inside, and leaves.
    fn close(&mut self, chunked: &Chunked<S>, held: Held<Enumerator<S>>) -> Result<(), TakeFault>
        requires { IsInside chunked.now self.old.requests held }
        ensures of { IsPartitionOf chunked.now self.new }
        ensures stopped { OnOk result (IsStopped (holding_inside self.old.requests held) (holding_of self.new)) }
        ensures same { OnErr result (holding_of self.new ≡ holding_inside self.old.requests held) }
        ensures memory { IfErr result (λ fault. fault ≡ TakeFault.Memory) }
        ensures left { (drawn_at self.new.pass ≡ held_drawn held) × (served_at self.new.pass ≡ held_ticket held + 1) }
    {
        let mut held = held;
        let ticket = held.ticket();
        let closed = held.value_mut().close(ticket);
        self.pass = Some(chunked.lock.leave(held));
        Ok(closed?)
    }
}
