//! The run of a query that a token may stop.
ghost use Rattle.std.specs.Prelude.{◌≡◌, true, false, IfOk};
ghost use Rattle.std.specs.List.{list_any};
ghost use Rattle.plinq_keyed.specs.History.{IsLegalHistory};
ghost use Rattle.plinq_ops.specs.Answer.{MayAnswer};
ghost use Rattle.plinq_ops.specs.Feeding.{is_empty_take};
ghost use Rattle.plinq_ops.specs.Query.{merge_in_force};
ghost use Rattle.plinq_merge.specs.Lent.{AreSame};
ghost use Rattle.plinq_run.specs.Endings.{RunsDecidedWith};
ghost use Rattle.plinq_run.specs.Handed.{has_close};
ghost use Rattle.plinq_run.specs.Stopping.{is_stopped, ReportsSome};
ghost use Rattle.plinq_run.specs.inner.TokenReports.{IsAskedAtLast};

use crate::report::Report;
use crate::run_fault::RunFault;
use crate::running::run;
use plinq_crew::Gate;
use plinq_enumerator::Growth;
use plinq_lambda::SharedLambda;
use plinq_merge::{Cancel, Sink, WithCancellation};
use plinq_ops::Query;
use plinq_source::Source;
use std::alloc::Global;
use std::sync::Wait;
use std::thread::Threads;

/// Runs a query over a source, as [`run`] does, and asks the token before each batch and once more before it answers how the
/// answer ended, also of a decided query.
///
/// The token gets the number of batches delivered. Once it has answered `true` it isn't asked again, nothing more is
/// delivered, and the source is closed. While no batch comes it isn't asked: a run that is to stop goes on until its next
/// batch or its end.
///
/// # Errors
///
/// [`RunFault::Cancelled`] if the token answered `true`: the batches that were delivered are the first of the answer.
/// Others are those of [`run`]; after one of them the token isn't asked.
///
/// ```text
/// let flag = CancelFlag::new();    // another thread calls flag.cancel()
/// let report = run_with(&rt, alloc, &query, source, Growth::DEFAULT, &TimedGate::new(&rt), &mut flag.token(), &mut sink)?;
/// ```
pub fn run_with<L, S, G, C, K, R>(
    rt: &R,
    alloc: Global,
    query: &Query<L>,
    source: S,
    growth: Growth,
    gate: &G,
    token: &mut C,
    sink: &mut K,
) -> Result<Report, RunFault>
where
    L: SharedLambda,
    S: Source<Item = L::Item>,
    G: Gate,
    C: Cancel,
    K: Sink<Item = L::Item>,
    R: Threads + Wait + Sync,
    requires unasked { S.given source ≡ 0 }
    requires without_result { C.has_told token.old ≡ false }
    ensures legal { IfOk result (λ report. IsLegalHistory (S.whole source) report.records.items) }
    ensures decided { list_any is_empty_take query.now.ops ≡ true → RunsDecidedWith sink.old sink.new result }
    ensures closed { list_any is_empty_take query.now.ops ≡ false → IfOk result (λ report. has_close report.records.items ≡ true) }
    ensures told { C.has_told token.new ≡ is_stopped result }
    ensures reports { ReportsSome C.asks K.accepts K.refuses (merge_in_force query.now.merge)
        (MayAnswer L.meaning query.now.ordered query.now.ops) (S.whole source) token.old sink.old 0 result token.new sink.new }
{
    let mut with = WithCancellation {
        token,
        sink,
        delivered: 0,
        is_stopped: false,
    };
    let outcome = run(rt, alloc, query, source, growth, gate, &mut with);
    ask_at_last(&mut with, outcome)
}

/// What is reported of a run with this outcome: before an ending the token is asked once more.
fn ask_at_last<C: Cancel, K>(
    with: &mut WithCancellation<'_, C, K>,
    outcome: Result<Report, RunFault>,
) -> Result<Report, RunFault>
    ensures same { AreSame with.old with.new }
    ensures sink { with.new.sink.now ≡ with.old.sink.now }
    ensures asked { IsAskedAtLast C.asks with.old.is_stopped outcome with.old result with.new }
{
    if with.is_stopped {
        return Err(RunFault::Cancelled);
    }
    let report = outcome?;
    if with.stops() {
        return Err(RunFault::Cancelled);
    }
    Ok(report)
}
