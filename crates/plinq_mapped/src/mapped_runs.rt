ghost use Rattle.std.specs.Prelude.{◌≡◌, true};
ghost use Rattle.plinq_ops.specs.Answer.{MayAnswer};
ghost use Rattle.plinq_ops.specs.Query.{merge_in_force};
ghost use Rattle.plinq_ops.specs.Sequential.{answer_of};
ghost use Rattle.plinq_run.specs.Runs.{Runs};
ghost use Rattle.plinq_mapped.specs.Mapped.{made_of, RunsMadeOf};

use crate::deliver_made::DeliverMade;
use plinq_enumerator::Growth;
use plinq_groups::{MakeOf, MapEach};
use plinq_lambda::SharedLambda;
use plinq_merge::Sink;
use plinq_ops::Query;
use plinq_run::{Gate, RunFault, fold_into};
use plinq_source::{Ending, Source};
use std::alloc::Global;
use std::sync::Wait;
use std::thread::Threads;

/// Runs a query whose last steps make something else of each item, or leave it out (.NET's `Select` to another type and `Where`,
/// at a query's end): the sink gets the batches of what was made, by the query's merge option. Returns how the mapped answer
/// ended.
///
/// If all operators are the workers' own, the workers map. If operators stand after the merge, the caller's thread maps what
/// leaves these. The first item that faults ends the answer: its code is the ending's `Fault`, and what was made before it is
/// delivered, unless the query is FullyBuffered.
///
/// # Errors
///
/// As [`run`](plinq_run::run), [`RunFault::Memory`] also if there is no room for what is made.
///
/// ```text
/// let ending = run_mapped(&rt, alloc, &query, source, Growth::DEFAULT, &TimedGate::new(&rt), &MapEach { make }, &mut sink)?;
/// ```
pub fn run_mapped<L, S, G, M, K, R>(
    rt: &R,
    alloc: Global,
    query: &Query<L>,
    source: S,
    growth: Growth,
    gate: &G,
    mapping: &MapEach<M>,
    sink: &mut K,
) -> Result<Ending, RunFault>
where
    L: SharedLambda,
    S: Source<Item = L::Item>,
    G: Gate,
    M: MakeOf<Item = L::Item>,
    K: Sink<Item = M::Made>,
    R: Threads + Wait + Sync,
    requires { S.given source ≡ 0 }
    ensures ordered { query.now.ordered ≡ true → Runs K.accepts K.refuses (merge_in_force query.now.merge)
        (made_of (M.makes mapping.now.make) (answer_of L.meaning query.now.ops (S.whole source))) sink.old sink.new result }
    ensures runs { RunsMadeOf K.accepts K.refuses (merge_in_force query.now.merge) (M.makes mapping.now.make)
        (MayAnswer L.meaning query.now.ordered query.now.ops (S.whole source)) sink.old sink.new result }
{
    let taker = DeliverMade::new(alloc, query.merge_option());
    fold_into(rt, alloc, query, source, growth, gate, mapping, taker, sink)
}
