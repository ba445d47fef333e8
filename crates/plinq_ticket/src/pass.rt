ghost use Rattle.std.specs.Prelude.{◌≡◌, ◌-◌, ◌^◌, [], length, min};
ghost use Rattle.plinq_ticket.specs.declared.phase.Phase.TheVariants.{Idle};

use crate::view::View;
use atomic_table::Seat;
use plinq_keyed::Guarded;

/// The right to enter one lock, with the records that were made under it: its share.
///
/// [`Pass`] is its name for a guarded value.
#[derive(Drop)]
pub struct Token<V, T> {
    pub(crate) seat: Seat<Option<V>, View<T>>,
    // How many records the share has.
    pub(crate) records: u64,
    ghost idle: { seat.me.0.standing.phase ≡ Idle },
    ghost empty: { seat.me.1 ≡ [] },
    ghost counted: { records ≡ min (length seat.me.0.share) (2 ^ 64 - 1) },
}

/// The right to enter a lock round a `V`. One that is dropped takes its records with it: the lock can't be finished then.
pub type Pass<V> = Token<V, <V as Guarded>::Item>;
