ghost use Rattle.std.specs.Prelude.{◌≡◌, IfOk};

use crate::workload::Workload;
use plinq_source::{RangeSource, Source, SourceFault};

/// A workload by so many workers, with so many items.
#[derive(Clone, Copy)]
pub(crate) struct Job {
    pub(crate) workload: Workload,
    pub(crate) workers: u64,
    pub(crate) items: i64,
}

impl Job {
    /// The source of a run.
    pub(crate) fn source(self) -> Result<RangeSource, SourceFault>
        ensures { IfOk result (λ source. ⟦<RangeSource as Source>⟧.given source ≡ 0) }
    {
        let length = self.workload.source_length(self.items.unsigned_abs());
        RangeSource::new(0, length)
    }
}
