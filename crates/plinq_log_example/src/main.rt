//! `plinq_log_example`: the errors of a log, with their times since its start, and the latest of them.
//!
//!     plinq_log_example < server.log
//!
//! An example of how the library is used, by 1 and 4 workers, made to be copied; docs/LIBRARY.md goes through it.
#![tactic(auto)]

mod collected;
mod errors;
mod latest;
mod record;

use crate::collected::Collected;
use crate::errors::Errors;
use crate::latest::Latest;
use crate::record::{Record, records_of};
use anyhow::{Context, Result, bail};
use plinq_enumerator::Growth;
use plinq_ops::{BuildFault, Query};
use plinq_run::{TimedGate, aggregate, run};
use plinq_source::{Ending, ListSource};
use std::alloc::Global;
use std::marker::PhantomData;
use std::sync::Wait;
use std::thread::Threads;
use std::time::Clock;

/// The errors of a log in their order, and the latest of them.
type Found<'a> = (Vec<Record<'a>>, Option<Record<'a>>);

fn main(rt: HostRuntime) -> Result<()> {
    let log = std::io::read_to_string(rt.alloc(), rt.stdin())?;
    let log = log.as_str();
    let found = by_workers(&rt, rt.alloc(), log, 1)?;
    if by_workers(&rt, rt.alloc(), log, 4)? != found || by_loop(rt.alloc(), log)? != found {
        bail!("the answers differ");
    }
    for record in &found.0 {
        println!(rt; "{} {}", record.millis, record.message)?;
    }
    println!(rt; "latest: {:?}", found.1.map(|record| record.message))?;
    Ok(())
}

fn by_workers<'a, R: Clock + Threads + Wait + Sync>(
    rt: &R,
    alloc: Global,
    log: &'a str,
    workers: u64,
) -> Result<Found<'a>> {
    let records = records_of(alloc, log)?;
    let Some(start) = records.first().copied() else {
        return Ok((records, None));
    };
    let query = query(alloc, Errors { start }, workers)?;
    let source = ListSource::new(alloc, records);
    let growth = Growth::DEFAULT;
    let gate = TimedGate::new(rt);
    let mut sink = Collected(Vec::new(alloc));
    let report = run(rt, alloc, &query, source, growth, &gate, &mut sink)?;
    if report.ending != Ending::End {
        bail!("an error from before the start");
    }
    let source = ListSource::new(alloc, records_of(alloc, log)?);
    let latest = Latest(PhantomData);
    let latest = aggregate(rt, alloc, &query, source, growth, &gate, &latest)?;
    Ok((sink.0, latest))
}

fn query(alloc: Global, errors: Errors<'_>, workers: u64) -> Result<Query<Errors<'_>>, BuildFault> {
    let query = Query::new(alloc).as_ordered()?.with_degree(workers)?;
    Ok(query.filter(errors)?.select(errors)?)
}

fn by_loop<'a>(alloc: Global, log: &'a str) -> Result<Found<'a>> {
    let records = records_of(alloc, log)?;
    let mut found: Found<'a> = (Vec::new(alloc), None);
    for record in &records {
        if record.severity <= 3 {
            let millis = record.millis.checked_sub(records[0].millis);
            let millis = millis.context("an error from before the start")?;
            let record = Record { millis, ..*record };
            found.0.push(record)?;
            if found.1.is_none_or(|latest| latest.millis <= millis) {
                found.1 = Some(record);
            }
        }
    }
    Ok(found)
}
