//! The run of a query.
ghost use Rattle.std.specs.Prelude.{◌≡◌, true, false, IfOk};
ghost use Rattle.std.specs.List.{list_any};
ghost use Rattle.plinq_keyed.specs.History.{IsLegalHistory};
ghost use Rattle.plinq_ops.specs.Answer.{MayAnswer};
ghost use Rattle.plinq_ops.specs.Feeding.{is_empty_take};
ghost use Rattle.plinq_ops.specs.Query.{merge_in_force};
ghost use Rattle.plinq_run.specs.Endings.{RunsDecided};
ghost use Rattle.plinq_run.specs.Handed.{has_close};
ghost use Rattle.plinq_run.specs.Headline.{answers, HasDelivered};
ghost use Rattle.plinq_run.specs.Reports.{Reports};

use crate::report::Report;
use crate::reporting::report;
use crate::run_fault::RunFault;
use crate::run_request::RunRequest;
use crate::tasks::Unchanged;
use plinq_crew::Gate;
use plinq_enumerator::Growth;
use plinq_lambda::SharedLambda;
use plinq_merge::{Deliver, Sink};
use plinq_ops::Query;
use plinq_source::{Ending, Source};
use std::alloc::Global;
use std::marker::Brand;
use std::sync::Wait;
use std::thread::Threads;

/// Runs a query over a source: at most as many workers as its degree take chunks that grow by `growth`, and the sink gets the
/// batches of the answer as they are computed.
///
/// The caller's thread merges, and no thread is left when it returns. A decided query asks the source for nothing.
///
/// # Errors
///
/// [`RunFault::Sink`] if the sink refused a batch, else [`RunFault::Memory`], [`RunFault::Thread`],
/// [`RunFault::Tickets`] or [`RunFault::Incomplete`], in this order. The batches that were delivered are the first of the
/// answer.
///
/// ```text
/// let report = run(&rt, alloc, &query, source, Growth::DEFAULT, &TimedGate::new(&rt), &mut sink)?;
/// report.ending    // how the answer ended
/// ```
pub fn run<L, S, G, K, R>(
    rt: &R,
    alloc: Global,
    query: &Query<L>,
    source: S,
    growth: Growth,
    gate: &G,
    sink: &mut K,
) -> Result<Report, RunFault>
where
    L: SharedLambda,
    S: Source<Item = L::Item>,
    G: Gate,
    K: Sink<Item = L::Item>,
    R: Threads + Wait + Sync,
    requires { S.given source ≡ 0 }
    ensures legal { IfOk result (λ report. IsLegalHistory (S.whole source) report.records.items) }
    ensures decided { list_any is_empty_take query.now.ops ≡ true → RunsDecided sink.old sink.new result }
    ensures closed { list_any is_empty_take query.now.ops ≡ false → IfOk result (λ report. has_close report.records.items ≡ true) }
    ensures ordered { query.now.ordered ≡ true →
        HasDelivered K.accepts K.refuses query.now.merge (answers L.meaning query.now.ops (S.whole source)) sink.old sink.new result }
    ensures reports { Reports K.accepts K.refuses (merge_in_force query.now.merge) (MayAnswer L.meaning query.now.ordered query.now.ops)
        (S.whole source) sink.old sink.new result }
{
    let plan = query.split();
    if plan.decided {
        return Ok(Report {
            ending: Ending::End,
            records: Vec::new(alloc),
        });
    }
    let Ok(taker) = Deliver::new(alloc, plan.after, query.merge_option()) else {
        return Err(RunFault::Memory);
    };
    let request = RunRequest::<(L, S, G)> {
        alloc,
        plan: &plan,
        workers: query.degree(),
        source,
        growth,
        gate,
    };
    let task = Unchanged { gate };
    match request.conduct_plan::<Brand, _, _, _, _>(rt, &task, taker, sink) {
        Ok(conducted) => report(conducted),
        Err(fault) => Err(fault),
    }
}
