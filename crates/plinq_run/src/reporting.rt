//! What is reported when all workers have been joined.
ghost use Rattle.std.specs.Prelude.{◌≡◌, ◌≤◌, length, None, All, IfOk, IfErr, IfSome};
ghost use Rattle.plinq_partition.specs.Partitions.{IsPartitionOf};
ghost use Rattle.plinq_run.specs.Runs.{Other, cause_of};
ghost use Rattle.plinq_run.specs.inner.Reported.{cause_in_merge, IsReportOf};
ghost use Rattle.plinq_run.specs.inner.FirstFault.{first_reported, AreSound};
ghost use Rattle.plinq_run.specs.inner.Finishing.{Finishes};

use crate::accepting::Merging;
use crate::planning::{Conducted, Ended};
use crate::report::Report;
use crate::run_fault::RunFault;
use plinq_crew::{Returned, WorkerCount, WorkerFaults};
use plinq_merge::{MergeFault, Taker};
use plinq_source::Source;

/// The first of the faults that aren't the merging thread's.
fn worker_fault(worker_faults: WorkerFaults, worker_count: WorkerCount) -> Option<RunFault>
    ensures first { result ≡ first_reported None worker_faults worker_count }
    ensures cause { IfSome result (λ fault. cause_of fault ≡ Other) }
    ensures sound { result ≡ None → AreSound worker_faults worker_count }
{
    if worker_faults.memory {
        return Some(RunFault::Memory);
    }
    if worker_count.started != worker_count.wanted {
        return Some(RunFault::Thread);
    }
    if worker_faults.tickets {
        return Some(RunFault::Tickets);
    }
    None
}

/// The first of all faults.
pub(crate) fn first_fault(
    fault: Option<MergeFault>,
    worker_faults: WorkerFaults,
    worker_count: WorkerCount,
) -> Option<RunFault>
    ensures first { result ≡ first_reported fault worker_faults worker_count }
    ensures cause { IfSome result (λ first. cause_of first ≡ cause_in_merge fault) }
    ensures none { result ≡ None → fault ≡ None }
    ensures sound { result ≡ None → AreSound worker_faults worker_count }
{
    match fault {
        Some(MergeFault::Sink(code)) => Some(RunFault::Sink(code)),
        Some(MergeFault::Memory) => Some(RunFault::Memory),
        Some(_) => match worker_fault(worker_faults, worker_count) {
            Some(fault) => Some(fault),
            None => Some(RunFault::Incomplete),
        },
        None => worker_fault(worker_faults, worker_count),
    }
}

/// What has taken the answer's items and how it ended, or the first of all faults.
pub(crate) fn finish<W: Taker, S: Source>(
    merging: Merging<W, W::Item>,
    back: Returned<S>,
) -> Result<Ended<S, W>, RunFault>
    ensures { Finishes merging back result }
{
    let Merging { joiner, fault } = merging;
    let Returned {
        partitions,
        worker_faults,
        worker_count,
    } = back;
    if let Some(first) = first_fault(fault, worker_faults, worker_count) {
        return Err(first);
    }
    let Ok(joined) = joiner.finish() else {
        return Err(RunFault::Incomplete);
    };
    Ok(Ended { partitions, joined })
}

/// The report of a run that has an answer, if its records are the whole history.
pub(crate) fn report<S: Source, W: Taker>(conducted: Conducted<S, W>) -> Result<Report, RunFault>
    requires some { 1 ≤ length conducted.ended.partitions.items }
    requires of { All (IsPartitionOf conducted.chunked) conducted.ended.partitions.items }
    ensures reports { IfOk result (IsReportOf conducted.ended.joined.ending conducted.ended.partitions.items) }
    ensures cause { IfErr result (λ fault. cause_of fault ≡ Other) }
{
    let Conducted { chunked, ended } = conducted;
    let Ended { partitions, joined } = ended;
    let ending = joined.ending;
    let Ok(enumerator) = chunked.give_back(partitions) else {
        return Err(RunFault::Incomplete);
    };
    let records = enumerator.into_records();
    Ok(Report { ending, records })
}
