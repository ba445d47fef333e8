ghost use Rattle.std.specs.Prelude.{◌≡◌, ◌≤◌, IfSome};
ghost use Rattle.plinq_ops.specs.Batches.{batch_size};
ghost use Rattle.plinq_ops.specs.MergeWords.{merge_name, merge_named};

use plinq_words::{Named, first_named};

/// How many elements AutoBuffered puts into a batch.
const AUTO_BUFFERED: usize = 16;

/// How a query's results are handed over, after `ParallelMergeOptions` of .NET.
#[derive(Clone, Copy, Debug, PartialEq, Eq)]
pub enum MergeOption {
    /// The system's choice, which is [`MergeOption::AutoBuffered`] here.
    Default,
    /// Each element as soon as it is computed.
    NotBuffered,
    /// Buffers of 16 elements, the last of which may be shorter.
    AutoBuffered,
    /// Nothing before all results are there, then all at once.
    FullyBuffered,
}

impl Named for MergeOption {
    ghost its_name = { merge_name };

    fn name(&self) -> &'static str {
        match self {
            MergeOption::Default => "default",
            MergeOption::NotBuffered => "not",
            MergeOption::AutoBuffered => "auto",
            MergeOption::FullyBuffered => "full",
        }
    }
}

impl MergeOption {
    /// The option of this name. Takes no memory.
    ///
    /// ```text
    /// MergeOption::named("not")    // Some(MergeOption::NotBuffered)
    /// MergeOption::named("none")   // None
    /// ```
    pub fn named(name: &str) -> Option<MergeOption>
        ensures { result ≡ merge_named name.now }
    {
        first_named(
            &[
                MergeOption::NotBuffered,
                MergeOption::AutoBuffered,
                MergeOption::FullyBuffered,
                MergeOption::Default,
            ],
            name,
        )
    }

    /// How many elements fill a batch; `None` if none does, and an answer that ends well is one batch, if it has any element.
    ///
    /// ```text
    /// MergeOption::AutoBuffered.batch_size()     // Some(16)
    /// MergeOption::FullyBuffered.batch_size()    // None
    /// ```
    pub fn batch_size(self) -> Option<usize>
        ensures size { result ≡ batch_size self }
        ensures some { IfSome result (λ size. 1 ≤ size) }
    {
        match self {
            MergeOption::Default | MergeOption::AutoBuffered => Some(AUTO_BUFFERED),
            MergeOption::NotBuffered => Some(1),
            MergeOption::FullyBuffered => None,
        }
    }
}
