ghost use Rattle.std.specs.Prelude.{◌≡◌, option_map};
ghost use Rattle.serde_json.specs.View.{view, items_view};
ghost use Rattle.plinq_document.specs.Growths.{growth_counts, three_counts, growth_of};

use crate::doc_fault::DocFault;
use crate::values::only_count;
use plinq_enumerator::Growth;
use serde_json::Value;

/// The three counts that stand for a growth of chunks.
#[derive(Clone, Copy, Debug, PartialEq, Eq)]
pub(crate) struct GrowthCounts {
    /// The size of the first chunks, in items.
    pub(crate) first: u64,
    /// After how many chunks the size doubles.
    pub(crate) repeat: u64,
    /// The largest size, in items.
    pub(crate) max: u64,
    /// Whether the document gives them.
    pub(crate) is_given: bool,
}

impl GrowthCounts {
    /// The growth of these counts, if they are one.
    pub(crate) fn growth(self) -> Result<Growth, DocFault>
        ensures { result ≡ growth_of self }
    {
        Ok(Growth::new(self.first, self.repeat, self.max)?)
    }
}

/// The counts that a document gives for its growth; if they are omitted, those of one item at first, doubling after
/// every third chunk up to 512.
pub(crate) fn growth_counts(document: &Value) -> Result<GrowthCounts, DocFault>
    ensures { result ≡ growth_counts (view document.now) }
{
    match document.get("growth") {
        None => Ok(GrowthCounts {
            first: 1,
            repeat: 3,
            max: 512,
            is_given: false,
        }),
        Some(counts) => three_counts(counts.as_array().ok_or(DocFault::Shape)?).ok_or(
            DocFault::Shape,
        ),
    }
}

fn three_counts(counts: &[Value]) -> Option<GrowthCounts>
    ensures { result ≡ three_counts (items_view counts.now) }
{
    let (first, counts) = counts.split_first()?;
    let first = first.as_u64()?;
    let (repeat, counts) = counts.split_first()?;
    let repeat = repeat.as_u64()?;
    let max = only_count(counts)?;
    Some(GrowthCounts {
        first,
        repeat,
        max,
        is_given: true,
    })
}
