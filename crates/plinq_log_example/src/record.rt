ghost use Rattle.std.specs.Prelude.{◌≤◌, ◌^◌, vec_len, IfOk};

use anyhow::{Result, bail};
use std::alloc::Global;

/// A line of a log, such as `1250 3 disk is slow`, with a severity from 0, the worst, to 7. It borrows from the log's text.
#[derive(Clone, Copy, PartialEq, Eq)]
pub(crate) struct Record<'a> {
    pub(crate) millis: u64,
    pub(crate) severity: u8,
    pub(crate) message: &'a str,
}

/// The records of a log. Other lines are left out.
pub(crate) fn records_of<'a>(alloc: Global, log: &'a str) -> Result<Vec<Record<'a>>>
    ensures { IfOk result (λ records. vec_len records ≤ 2 ^ 40) }
{
    let mut records = Vec::new(alloc);
    for line in log.lines() {
        if let Some(record) = record_of(line) {
            records.push(record)?;
        }
    }
    if records.len() > 1 << 40 {
        bail!("more records than a source may have");
    }
    Ok(records)
}

fn record_of<'a>(line: &'a str) -> Option<Record<'a>> {
    let (millis, rest) = line.split_once(' ')?;
    let (severity, message) = rest.split_once(' ')?;
    Some(Record {
        millis: millis.parse::<u64>().ok()?,
        severity: severity.parse::<u8>().ok()?,
        message,
    })
}
