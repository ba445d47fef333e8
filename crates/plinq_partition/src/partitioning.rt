ghost use Rattle.std.specs.Prelude.{◌≡◌, ◌≤◌, ◌^◌, ◌==◌, true, false, [], length, All, IfOk, IfErr, if◌then◌else◌};
ghost use Rattle.plinq_partition.specs.declared.part_fault.PartFault.TheVariants.{NoPartitions, Memory};
ghost use Rattle.plinq_partition.specs.Partitions.{Holding, holding_of, IsPartitionOf, AreMadeFrom, growth_of, new_beside, all_shares};
ghost use Rattle.plinq_partition.specs.GivenBack.{IsGivenBack, common_origin};
ghost use Rattle.plinq_ticket.specs.Shares.{in_ticket_order};

use crate::chunked::Chunked;
use crate::part_fault::PartFault;
use crate::partition::Partition;
use crate::partitioner::OrderablePartitioner;
use crate::take_fault::TakeFault;
use plinq_enumerator::{Enumerator, Growth};
use plinq_keyed::{Guarded, KeyProperties};
use plinq_source::Source;
use plinq_ticket::TicketLock;
use std::alloc::Global;

impl<S: Source> Chunked<S> {
    /// A source that has given nothing yet, to be handed out in chunks that grow so, and its first partition.
    ///
    /// # Errors
    ///
    /// [`TakeFault::Memory`] if there is no room for the lock. The source is dropped then.
    pub fn new(
        alloc: Global,
        source: S,
        growth: Growth,
    ) -> Result<(Chunked<S>, Partition<S>), TakeFault>
        requires { S.given source ≡ 0 }
        ensures of { IfOk result (λ made. IsPartitionOf made.0 made.1) }
        ensures growth { IfOk result (λ made. growth_of made.0 ≡ growth) }
        ensures partition { IfOk result (λ made. holding_of made.1 ≡ record { origin = S.whole source; share = []; requests = 0 }) }
        ensures memory { IfErr result (λ fault. fault ≡ TakeFault.Memory) }
    {
        Chunked::with_first_ticket(alloc, source, growth, 0)
    }

    /// The same, with `first` as the first ticket.
    ///
    /// # Errors
    ///
    /// [`TakeFault::Memory`] if there is no room for the lock. The source is dropped then.
    pub fn with_first_ticket(
        alloc: Global,
        source: S,
        growth: Growth,
        first: u64,
    ) -> Result<(Chunked<S>, Partition<S>), TakeFault>
        requires new { S.given source ≡ 0 }
        requires within { first ≤ 2 ^ 62 }
        ensures of { IfOk result (λ made. IsPartitionOf made.0 made.1) }
        ensures growth { IfOk result (λ made. growth_of made.0 ≡ growth) }
        ensures partition { IfOk result (λ made. holding_of made.1 ≡ record { origin = S.whole source; share = []; requests = 0 }) }
        ensures memory { IfErr result (λ fault. fault ≡ TakeFault.Memory) }
    {
        let enumerator = Enumerator::new(alloc, source);
        let (lock, pass) = TicketLock::with_first_ticket(alloc, enumerator, first)?;
        let chunked = Chunked {
            alloc,
            lock,
            growth,
        };
        let partition = Partition {
            pass: Some(pass),
            requests: 0,
            spare: None,
        };
        Ok((chunked, partition))
    }

    /// A new partition beside this one, which was given nothing yet (.NET's `GetOrderableDynamicPartitions`). Takes no
    /// memory.
    pub fn dynamic(&self, partition: &mut Partition<S>) -> Partition<S>
        requires { IsPartitionOf self.now partition.old }
        ensures of { IsPartitionOf self.now partition.new × IsPartitionOf self.now result }
        ensures same { holding_of partition.new ≡ holding_of partition.old }
        ensures new { holding_of result ≡ new_beside (holding_of partition.old) }
    {
        let (pass, other) = self.lock.split(partition.lend_pass());
        partition.pass = Some(pass);
        Partition {
            pass: Some(other),
            requests: 0,
            spare: None,
        }
    }

    /// `n` partitions, the first being the one that is given (.NET's `GetOrderablePartitions`).
    ///
    /// # Errors
    ///
    /// [`PartFault::NoPartitions`] if `n` is 0, else [`PartFault::Memory`] if there is no room for them. The
    /// partition comes back as it was.
    pub fn partitions(
        &self,
        partition: Partition<S>,
        n: u64,
    ) -> Result<Vec<Partition<S>>, (Partition<S>, PartFault)>
        requires { IsPartitionOf self.now partition }
        ensures count { IfOk result (λ parts. length parts.items ≡ n) }
        ensures of { IfOk result (λ parts. All (IsPartitionOf self.now) parts.items) }
        ensures made { IfOk result (λ parts. AreMadeFrom (holding_of partition) parts.items) }
        ensures back { IfErr result (λ refused. IsPartitionOf self.now refused.0 × (holding_of refused.0 ≡ holding_of partition)) }
        ensures fault { IfErr result (λ refused. refused.1 ≡ (if n == 0 then NoPartitions else Memory)) }
    {
        if n == 0 {
            return Err((partition, PartFault::NoPartitions));
        }
        let Ok(mut partitions) = Vec::with_capacity(self.alloc, n as usize) else {
            return Err((partition, PartFault::Memory));
        };
        partitions.push_reserved(partition);
        for _ in 1..n {
            let new = self.dynamic(&mut partitions[0]);
            partitions.push_reserved(new);
        }
        Ok(partitions)
    }

    /// The enumerator, with the history of all that was taken, if all partitions are given back. Takes no memory.
    ///
    /// # Errors
    ///
    /// [`TakeFault::Incomplete`] if records are missing, since a partition that took some was dropped: the enumerator
    /// comes with it. [`TakeFault::Away`] if a partition is inside the lock; no caller brings that about.
    pub fn give_back(
        self,
        partitions: Vec<Partition<S>>,
    ) -> Result<Enumerator<S>, (Option<Enumerator<S>>, TakeFault)>
        requires some { 1 ≤ length partitions.items }
        requires of { All (IsPartitionOf self) partitions.items }
        ensures back { IsGivenBack partitions.items result }
        ensures whole { let held = ⟦<Enumerator<S> as Guarded>⟧ in
            IfOk result (λ e. (held.origin e ≡ common_origin partitions.items) × (held.history e ≡ in_ticket_order (all_shares partitions.items))) }
    {
        let Chunked { lock, .. } = self;
        let mut partitions = partitions;
        let Some(last) = partitions.pop() else {
            unreachable!()
        };
        let mut pass = last.into_pass();
        while let Some(partition) = partitions.pop() {
            pass = lock.join(partition.into_pass(), pass);
        }
        match lock.finish(pass) {
            Ok(enumerator) => Ok(enumerator),
            Err((enumerator, fault)) => Err((enumerator, TakeFault::from(fault))),
        }
    }
}

impl<S: Source> OrderablePartitioner for Chunked<S> {
    ghost promised = { λ _. record { in_each = true; across = false; normalized = true } };

    ghost on_demand = { λ _. true };

    fn properties(&self) -> KeyProperties {
        KeyProperties {
            in_each: true,
            across: false,
            normalized: true,
        }
    }

    fn supports_dynamic(&self) -> bool {
        true
    }
}
