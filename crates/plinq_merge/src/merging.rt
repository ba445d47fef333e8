ghost use Rattle.std.specs.Prelude.{◌≡◌, ◌≤◌, ◌<◌, ◌^◌, ℕ, List, [], true, false, None, IfOk, IfErr, is_some};
ghost use Rattle.std.specs.List.{list_any};
ghost use Rattle.plinq_ops.specs.Batches.{batch_size};
ghost use Rattle.plinq_ops.specs.Operator.{stages_of};
ghost use Rattle.plinq_ops.specs.Feeding.{is_empty_take};
ghost use Rattle.plinq_ops.specs.Tails.{end_of_result};
ghost use Rattle.plinq_merge.specs.declared.merge_fault.MergeFault.TheVariants.{Memory};
ghost use Rattle.plinq_merge.specs.OfferedKeys.{is_offered};
ghost use Rattle.plinq_merge.specs.Shown.{answer};
ghost use Rattle.plinq_merge.specs.Offering.{finish_of};
ghost use Rattle.plinq_merge.specs.Mergers.{plan_of, delivered_of, IsFor, SendsSome, Offers, tells_decided, tells_ending};

use crate::deliver::Deliver;
use crate::joiner::Joiner;
use crate::merge_fault::MergeFault;
use crate::merger::Merger;
use crate::more::More;
use crate::sink::Sink;
use plinq_lambda::Lambda;
use plinq_ops::{ChunkResult, MergeOption, Plan};
use plinq_source::Ending;
use std::alloc::Global;

impl<'a, L: Lambda> Merger<'a, L> {
    /// The merger of a plan, to which nothing was offered. The answer of a decided plan is decided.
    ///
    /// Any other plan has no Take of at most 0 after the merge; `Query::split` gives such plans.
    ///
    /// # Errors
    ///
    /// [`MergeFault::Memory`] if there is no room for what is left of the operators or for a batch.
    pub fn new(
        alloc: Global,
        plan: &Plan<'a, L>,
        option: MergeOption,
    ) -> Result<Merger<'a, L>, MergeFault>
        requires undecided { plan.now.decided ≡ false → list_any is_empty_take plan.now.after.now ≡ false }
        ensures plan { IfOk result (λ merger. plan_of merger ≡ record {
          after = stages_of L.meaning plan.now.after.now;
          order = plan.now.order;
          decided = plan.now.decided;
          size = batch_size option;
        }) }
        ensures nothing { IfOk result (λ merger. IsFor merger []) }
        ensures delivered { IfOk result (λ merger. delivered_of merger ≡ 0) }
        ensures err { IfErr result (λ fault. fault ≡ Memory) }
    {
        let taker = Deliver::new(alloc, plan.after, option)?;
        if plan.decided {
            return Ok(Merger {
                joiner: Joiner::decided_by(alloc, plan.order, taker, Ending::End),
                decided: true,
                delivered: 0,
            });
        }
        Ok(Merger {
            joiner: Joiner::new(alloc, plan.order, taker),
            decided: false,
            delivered: 0,
        })
    }

    /// Offers the result of a chunk to this sink, and counts no batch.
    pub(crate) fn offer_to<K: Sink<Item = L::Item>>(
        &mut self,
        offered: ChunkResult<L::Item>,
        sink: &mut K,
    ) -> Result<More, MergeFault>
        requires { end_of_result offered ≤ 2 ^ 40 }
        ensures plan { plan_of self.new ≡ plan_of self.old }
        ensures delivered { delivered_of self.new ≡ delivered_of self.old }
        ensures takes { Offers K.accepts K.refuses self.old offered sink.old result self.new sink.new }
        ensures sends { SendsSome K.accepts K.refuses sink.old result sink.new }
    {
        self.joiner.offer(offered, sink)
    }

    /// Whether the answer is decided; not after a failure. Takes no memory.
    pub fn decided(&self) -> bool
        ensures decided { result ≡ tells_decided self.now }
        ensures answer { (offers : List (ChunkResult L.Item)) → IsFor self.now offers →
            result ≡ is_some (answer (plan_of self.now) offers).ending }
    {
        self.joiner.decided()
    }

    /// The first key whose result is missing, while the answer is open: all results before it are merged, and what was
    /// offered after it waits. Takes no memory.
    pub fn next_key(&self) -> u64
        ensures { (offers : List (ChunkResult L.Item)) → IsFor self.now offers →
            (answer (plan_of self.now) offers).ending ≡ None →
            ((key : ℕ) → key < result → is_offered offers key ≡ true) × (is_offered offers result ≡ false) }
    {
        self.joiner.next_key()
    }

    /// How many items of results were merged so far; those of other results wait. Takes no memory.
    pub fn merged_items(&self) -> u64 {
        self.joiner.joined_items()
    }

    /// How the answer ends. Takes no memory.
    ///
    /// # Errors
    ///
    /// [`MergeFault::Gap`] if the answer isn't decided, [`MergeFault::Failed`] after a failure.
    pub fn finish(self) -> Result<Ending, MergeFault>
        ensures ending { result ≡ tells_ending self.entry }
        ensures answer { (offers : List (ChunkResult L.Item)) → IsFor self.entry offers →
            result ≡ finish_of (answer (plan_of self.entry) offers).ending }
    {
        self.joiner.ending()
    }
}
