ghost use Rattle.std.specs.Prelude.{◌≡◌, ◌≤◌, ◌<◌, length, All, None, IsSome, IfOk, IfErr};
ghost use Rattle.plinq_partition.specs.GivenBack.{common_origin};
ghost use Rattle.plinq_partition.specs.Partitions.{holding_of};
ghost use Rattle.plinq_cli.specs.Rounds.{AreShares, IsDone, IsOpen, left_of, told_ending};

use plinq_enumerator::{Enumerator, Growth};
use plinq_keyed::{Guarded, Record, Tail};
use plinq_partition::{Chunked, Partition, TakeFault};
use plinq_source::{Ending, Source};
use std::alloc::Global;
use std::collections::VecDeque;

/// Hands a source out to so many partitions, which take in turn until each has had a tail: the enumerator, with the
/// history of their requests. Waits for nobody.
///
/// # Errors
///
/// [`TakeFault::Memory`] if there is no room for the partitions or a chunk. The other faults are those of a lock that
/// others take as well, which nobody does here.
pub(crate) fn drive_partitions<S: Source>(
    alloc: Global,
    source: S,
    growth: Growth,
    degree: u64,
) -> Result<Enumerator<S>, TakeFault>
    requires fresh { S.given source ≡ 0 }
    requires some { 1 ≤ degree }
    ensures origin { IfOk result (λ e. ⟦<Enumerator<S> as Guarded>⟧.origin e ≡ S.whole source) }
    ensures shares { IfOk result (λ e. AreShares degree growth (⟦<Enumerator<S> as Guarded>⟧.history e)) }
{
    let (chunked, partition) = Chunked::new(alloc, source, growth)?;
    let Ok(partitions) = chunked.partitions(partition, degree) else {
        return Err(TakeFault::Memory);
    };
    let done = take_turns(alloc, &chunked, partitions)?;
    match chunked.give_back(done) {
        Ok(enumerator) => Ok(enumerator),
        Err((_, fault)) => Err(fault),
    }
}

/// Has partitions take in turn, until each has had a tail.
fn take_turns<S: Source>(
    alloc: Global,
    chunked: &Chunked<S>,
    partitions: Vec<Partition<S>>,
) -> Result<Vec<Partition<S>>, TakeFault>
    requires { All (IsOpen chunked.now (common_origin partitions.items)) partitions.items }
    ensures count { IfOk result (λ done. length done.items ≡ length partitions.items) }
    ensures done { IfOk result (λ done. All (IsDone chunked.now (common_origin partitions.items)) done.items) }
{
    let mut waiting = VecDeque::from(partitions);
    let Ok(mut done) = Vec::with_capacity(alloc, waiting.len()) else {
        return Err(TakeFault::Memory);
    };
    while let Some(next) = waiting.pop_front() {
        let mut partition = next;
        match take_once(chunked, &mut partition)? {
            Some(_) => done.push_reserved(partition),
            None => {
                if waiting.push_back(partition).is_err() {
                    return Err(TakeFault::Memory);
                }
            }
        }
    }
    Ok(done)
}

/// Has a partition take once, and reports the tail of its chunk.
fn take_once<S: Source>(
    chunked: &Chunked<S>,
    partition: &mut Partition<S>,
) -> Result<Option<Tail>, TakeFault>
    requires { IsOpen chunked.now (holding_of partition.old).origin partition.old }
    ensures goes_on { IfOk result (λ tail. tail ≡ None →
        IsOpen chunked.now (holding_of partition.old).origin partition.new × (left_of partition.new < left_of partition.old)) }
    ensures done { IfOk result (λ tail. IsSome tail → IsDone chunked.now (holding_of partition.old).origin partition.new) }
{
    let chunk = partition.try_take(chunked)?;
    Ok(chunk.tail)
}

/// How the source ended, by the first record that gives it.
pub(crate) fn told_ending(records: &[Record]) -> Option<Ending>
    ensures { result ≡ told_ending records.now }
{
    for entry in records {
        match entry.tail {
            None => {}
            Some(Tail::Ended) => return Some(Ending::End),
            Some(Tail::Refused(code)) => return Some(Ending::Refused(code)),
            Some(Tail::Closed) => return None,
        }
    }
    None
}
