//! A run with last steps to another type that a token may stop.
ghost use Rattle.std.specs.Prelude.{◌≡◌, ◌||◌};
ghost use Rattle.plinq_ops.specs.Answer.{MayAnswer};
ghost use Rattle.plinq_ops.specs.Query.{merge_in_force};
ghost use Rattle.plinq_run.specs.Stopping.{is_stopped};
ghost use Rattle.plinq_stopping.specs.Outcomes.{RunsMadeOfWith};

use crate::outcomes::ending_of;
use crate::watched::Watched;
use plinq_crew::Gate;
use plinq_enumerator::Growth;
use plinq_groups::{MakeOf, MapEach};
use plinq_lambda::SharedLambda;
use plinq_mapped::DeliverMade;
use plinq_merge::{Cancel, Sink, WithCancellation};
use plinq_ops::Query;
use plinq_run::{RunFault, fold_into};
use plinq_source::{Ending, Source};
use std::alloc::Global;
use std::sync::Wait;
use std::thread::Threads;

/// Runs a query whose last steps make something else of each item, or leave it out, as [`run_mapped`](plinq_mapped::run_mapped) does,
/// unless its token stops it (.NET's `WithCancellation`).
///
/// The token is asked on the caller's thread: before each batch, each time before what was made of a chunk is merged, and once more
/// before an ending is reported. So a run that delivers nothing can be stopped as well. But if operators stand after the merge, it is
/// asked for the chunks from which something reaches these. It gets the number of batches delivered. Once it has returned `true` it
/// isn't asked again, nothing more is delivered, and the source is closed. The run returns once its workers have finished the chunks
/// that they have taken.
///
/// # Errors
///
/// [`RunFault::Cancelled`] if the token returned `true`: the batches that were delivered are the first of the answer. Others as
/// [`run_mapped`](plinq_mapped::run_mapped).
///
/// ```text
/// let flag = CancelFlag::new();    // another thread calls flag.cancel()
/// let ending = run_mapped_with(&rt, alloc, &query, source, Growth::DEFAULT, &TimedGate::new(&rt), &MapEach { make }, &mut flag.token(), &mut sink)?;
/// ```
pub fn run_mapped_with<L, S, G, M, C, K, R>(
    rt: &R,
    alloc: Global,
    query: &Query<L>,
    source: S,
    growth: Growth,
    gate: &G,
    mapping: &MapEach<M>,
    token: &mut C,
    sink: &mut K,
) -> Result<Ending, RunFault>
where
    L: SharedLambda,
    S: Source<Item = L::Item>,
    G: Gate,
    M: MakeOf<Item = L::Item>,
    C: Cancel,
    K: Sink<Item = M::Made>,
    R: Threads + Wait + Sync,
    requires { S.given source ≡ 0 }
    ensures told { C.has_told token.new ≡ (C.has_told token.old || is_stopped result) }
    ensures runs { RunsMadeOfWith C.asks K.accepts K.refuses (merge_in_force query.now.merge) (M.makes mapping.now.make)
        (MayAnswer L.meaning query.now.ordered query.now.ops (S.whole source)) token.old sink.old result token.new sink.new }
{
    let mut with = WithCancellation {
        token,
        sink,
        delivered: 0,
        is_stopped: false,
    };
    let taker = Watched {
        made: DeliverMade::new(alloc, query.merge_option()),
    };
    let outcome = fold_into(
        rt, alloc, query, source, growth, gate, mapping, taker, &mut with,
    );
    ending_of(&mut with, outcome)
}
