ghost use Rattle.std.specs.Prelude.{◌≡◌, ◌++◌};

use crate::record::Record;
use plinq_merge::Sink;

/// A sink that collects what it takes. If memory runs out, it refuses the batch with 1 and stays as it is.
#[derive(Drop)]
pub(crate) struct Collected<'a>(pub(crate) Vec<Record<'a>>);

impl<'a> Sink for Collected<'a> {
    type Item = Record<'a>;

    ghost accepts = { λ s batch s'. s'.0.items ≡ s.0.items ++ batch };

    ghost refuses = { λ s batch code s'. s'.0.items ≡ s.0.items };

    fn batch(&mut self, batch: &[Record<'a>]) -> Result<(), u32> {
        self.0.extend_from_slice(batch).map_err(|_| 1)
    }
}
