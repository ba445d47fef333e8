//! What a run and an aggregate say of a query with `as_ordered`, each the contract of a function with nothing to do.
//!
//! Such a query has one answer (`MayAnswer`), so each of them follows from the clause that says it of any query.
ghost use Rattle.std.specs.Prelude.{◌≡◌, ◌≤◌, List, ℕ, Bool, Result, IfOk, true, false};
ghost use Rattle.plinq_aggregate.specs.Folding.{Folding};
ghost use Rattle.plinq_merge.specs.declared.cancel_after.CancelAfter.{CancelAfter};
ghost use Rattle.plinq_merge.specs.declared.never_cancel.NeverCancel.{NeverCancel};
ghost use Rattle.plinq_merge.specs.Cancelling.{Delivery};
ghost use Rattle.plinq_merge.specs.Tokens.{most_of};
ghost use Rattle.plinq_ops.specs.declared.merge_option.MergeOption.{MergeOption};
ghost use Rattle.plinq_ops.specs.declared.op.Op.{Op};
ghost use Rattle.plinq_ops.specs.Answer.{MayAnswer};
ghost use Rattle.plinq_ops.specs.Batches.{batches};
ghost use Rattle.plinq_ops.specs.Sequential.{answer_of};
ghost use Rattle.plinq_source.specs.Trace.{Trace};
ghost use Rattle.plinq_run.specs.declared.aggregate_fault.AggregateFault.{AggregateFault};
ghost use Rattle.plinq_run.specs.declared.report.Report.{Report};
ghost use Rattle.plinq_run.specs.declared.run_fault.RunFault.{RunFault};
ghost use Rattle.plinq_run.specs.Aggregates.{Aggregates, AggregatesSome};
ghost use Rattle.plinq_run.specs.Endings.{reported_ending};
ghost use Rattle.plinq_run.specs.Handed.{handed_trace};
ghost use Rattle.plinq_run.specs.Reports.{Reports};
ghost use Rattle.plinq_run.specs.Runs.{Runs};
ghost use Rattle.plinq_run.specs.Stopping.{is_stopped, ReportsWith, RunsWith, StopsAfter};

use plinq_lambda::Lambda;
use plinq_merge::{Cancel, CancelAfter, NeverCancel, Sink};

/// The sink has taken exactly the batches of the sequential answer, in order, if the run reports its ending, and the first
/// of them after a fault.
pub fn ordered_run_is_sequential<L: Lambda, K: Sink<Item = L::Item>>()
    ensures { (option : MergeOption) (ops : List (Op L)) (t : Trace L.Item) (s s' : K) (result : Result Report RunFault) →
        Reports K.accepts K.refuses option (MayAnswer L.meaning true ops) t s s' result →
        Runs K.accepts K.refuses option (answer_of L.meaning ops t) s s' (reported_ending result) }
{}

/// The same of a run with a token. If that stopped the run, the sink has taken the first batches of the sequential answer,
/// as many as were reported to the token.
pub fn ordered_run_with_is_sequential<L: Lambda, C: Cancel, K: Sink<Item = L::Item>>()
    ensures { (option : MergeOption) (ops : List (Op L)) (t : Trace L.Item) (d d' : Delivery C K) (result : Result Report RunFault) →
        ReportsWith C.asks K.accepts K.refuses option (MayAnswer L.meaning true ops) t d d' result →
        RunsWith C.asks K.accepts K.refuses option (answer_of L.meaning ops t) d d' result }
{}

/// A run with a token that stops after so many batches is cancelled if the answer has as many, and then exactly so many were
/// delivered. It reports an ending if the answer has fewer. Of a run that another fault breaks off nothing is said.
pub fn cancel_after_stops_at_its_number<L: Lambda, K: Sink<Item = L::Item>>()
    ensures { (option : MergeOption) (u : Trace L.Item) (d d' : Delivery CancelAfter K) (result : Result Report RunFault) →
        d.delivered ≡ 0 → most_of d.token ≤ 18446744073709551615 →
        RunsWith ⟦<CancelAfter as Cancel>⟧.asks K.accepts K.refuses option u d d' result →
        StopsAfter K.accepts (most_of d.token) (batches option u) d.sink d'.sink result }
{}

/// A run with a token that never stops anything is a run without one.
pub fn run_with_never_is_run<L: Lambda, K: Sink<Item = L::Item>>()
    ensures { (option : MergeOption) (ordered : Bool) (ops : List (Op L)) (t : Trace L.Item) (d d' : Delivery NeverCancel K)
        (result : Result Report RunFault) →
        ReportsWith ⟦<NeverCancel as Cancel>⟧.asks K.accepts K.refuses option (MayAnswer L.meaning ordered ops) t d d' result →
        Reports K.accepts K.refuses option (MayAnswer L.meaning ordered ops) t d.sink d'.sink result }
{}

/// A run without a token is never cancelled.
pub fn run_is_never_cancelled<L: Lambda, K: Sink<Item = L::Item>>()
    ensures { (option : MergeOption) (ordered : Bool) (ops : List (Op L)) (t : Trace L.Item) (s s' : K) (result : Result Report RunFault) →
        Reports K.accepts K.refuses option (MayAnswer L.meaning ordered ops) t s s' result →
        is_stopped result ≡ false }
{}

/// What the records hand out has the same answer as the source.
pub fn records_account_for_the_answer<L: Lambda, K: Sink<Item = L::Item>>()
    ensures { (option : MergeOption) (ops : List (Op L)) (t : Trace L.Item) (s s' : K) (result : Result Report RunFault) →
        Reports K.accepts K.refuses option (MayAnswer L.meaning true ops) t s s' result →
        IfOk result (λ report. answer_of L.meaning ops (handed_trace t report.records.items) ≡ answer_of L.meaning ops t) }
{}

/// The value is that of the sequential answer's items, or the fault says how that answer ended.
pub fn ordered_aggregate_is_sequential<L: Lambda, A, O>()
    ensures { (f : Folding L.Item A O) (ops : List (Op L)) (t : Trace L.Item) (result : Result O AggregateFault) →
        AggregatesSome f (MayAnswer L.meaning true ops t) result →
        Aggregates f (answer_of L.meaning ops t) result }
{}
