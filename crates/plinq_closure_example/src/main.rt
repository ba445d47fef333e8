//! `plinq_closure_example < server.log`: the errors of a log, with their times since its start, by closures in one file.
//! An example of how the library is used, made to be copied; docs/LIBRARY.md goes through it.
#![tactic(auto)]

ghost use Rattle.std.specs.Prelude.{◌≡◌, ◌-◌, nat_le, if◌then◌else◌, Ok, Err};

use anyhow::{Result, bail};
use plinq_closures::Chain;
use plinq_slice::list_source;
use plinq_source::Ending;
use std::alloc::Global;

/// A line of a log, such as `1250 3 disk is slow`, with a severity from 0, the worst, to 7.
#[derive(Clone, Copy)]
struct Record<'a> {
    millis: u64,
    severity: u8,
    message: &'a str,
}

fn main(rt: HostRuntime) -> Result<()> {
    let log = std::io::read_to_string(rt.alloc(), rt.stdin())?;
    let records = records_of(rt.alloc(), log.as_str())?;
    let start = records.first().map_or(0, |record| record.millis);
    let errors = Chain::new()
        .filter(
            |r: Record| -> Result<bool, u32>
                ensures { result ≡ Ok (nat_le r.entry.severity 3) }
            { Ok(r.severity <= 3) },
        )
        .select(
            |r: Record| -> Result<Record, u32>
                ensures { result ≡ (if nat_le start r.entry.millis then Ok (record r.entry { millis = r.entry.millis - start }) else Err 1) }
            {
                match r.millis.checked_sub(start) {
                    Some(millis) => Ok(Record { millis, ..r }),
                    None => Err(1),
                }
            },
        );
    let source = list_source(rt.alloc(), records)?;
    let (errors, ending) = errors.to_vec(&rt, rt.alloc(), 4, source)?;
    if ending != Ending::End {
        bail!("an error from before the start");
    }
    for record in &errors {
        println!(rt; "{} {}", record.millis, record.message)?;
    }
    Ok(())
}

fn records_of<'a>(alloc: Global, log: &'a str) -> Result<Vec<Record<'a>>> {
    let mut records = Vec::new(alloc);
    for line in log.lines() {
        if let Some(record) = record_of(line) {
            records.push(record)?;
        }
    }
    Ok(records)
}

fn record_of<'a>(line: &'a str) -> Option<Record<'a>> {
    let (millis, rest) = line.split_once(' ')?;
    let (severity, message) = rest.split_once(' ')?;
    Some(Record {
        millis: millis.parse::<u64>().ok()?,
        severity: severity.parse::<u8>().ok()?,
        message,
    })
}
