ghost use Rattle.std.specs.Prelude.{◌≡◌};

use crate::query::Query;
use thiserror::Error;

/// Why a builder call of a query is refused; the query comes back unchanged.
#[derive(Clone, Copy, Debug, PartialEq, Eq, Error)]
pub enum BuildFault {
    /// `as_ordered` elsewhere than directly at the source.
    #[error("not at source")]
    NotAtSource,
    /// A second merge option.
    #[error("merge twice")]
    MergeTwice,
    /// A second degree of parallelism.
    #[error("degree twice")]
    DegreeTwice,
    /// A degree of parallelism outside 1 to 64.
    #[error("degree out of range")]
    DegreeOutOfRange,
    /// Memory ran out.
    #[error("out of memory")]
    Memory,
}

/// Drops the query, so that `?` after a builder call answers its fault.
impl<L: Drop> From<(Query<L>, BuildFault)> for BuildFault {
    ghost from_gives = { λ refused fault. fault ≡ refused.1 };

    fn from((_, fault): (Query<L>, BuildFault)) -> BuildFault {
        fault
    }
}
