ghost use Rattle.std.specs.Prelude.{◌≡◌, true, []};
ghost use Rattle.plinq_cut.specs.Views.{is_passing};

use crate::view::View;
use atomic_table::Seat;

/// The right to read and lower a cut. It has no bytes.
#[derive(Drop)]
pub struct CutPass {
    pub(crate) seat: Seat<(), View>,
    ghost passing: { is_passing seat.me.0 ≡ true },
    ghost empty: { seat.me.1 ≡ [] },
}
