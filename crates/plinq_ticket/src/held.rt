ghost use Rattle.std.specs.Borrow.{sem};
ghost use Rattle.std.specs.Prelude.{◌≡◌, ◌-◌, ◌<◌, ◌^◌, [], ◌∷◌, length, min, None};
ghost use Rattle.plinq_ticket.specs.declared.phase.Phase.TheVariants.{Inside};

use crate::view::View;
use atomic_table::Seat;
use plinq_keyed::Guarded;

/// A pass that is inside, and whose value is out of the slot.
pub struct Stay<V, T> {
    pub(crate) seat: Seat<Option<V>, View<T>>,
    pub(crate) ticket: u64,
    // How many records the share had on entry.
    pub(crate) records: u64,
    // How many records the value had on entry.
    pub(crate) found: u64,
    ghost inside: { seat.me.0.standing.phase ≡ Inside ticket },
    ghost drawn: { ticket < 2 ^ 62 },
    ghost empty: { seat.me.1 ≡ (0, None) ∷ [] },
    ghost counted: { records ≡ length seat.me.0.share },
    ghost found_all: { found ≡ length seat.me.0.found },
}

/// The value of a lock, in the hands of the pass that is inside.
///
/// [`Held`] is its name for a guarded value.
pub struct Entry<V, T> {
    pub(crate) stay: Stay<V, T>,
    pub(crate) value: V,
}

/// The value of a lock, in the hands of the pass that is inside. It has to be spent by `leave`.
pub type Held<V> = Entry<V, <V as Guarded>::Item>;

impl<V, T> Entry<V, T> {
    ghost use Rattle.plinq_ticket.specs.Lending.{LendsValue};
    ghost use Rattle.plinq_ticket.specs.Passes.{held_value, held_ticket};

    /// The ticket under which the pass is inside.
    pub fn ticket(&self) -> u64
        ensures { result ≡ held_ticket self.now }
    {
        self.stay.ticket
    }

    /// The value.
    pub fn value(&self) -> &V
        ensures { result.now ≡ held_value self.now }
    {
        &self.value
    }

    /// The value, to be changed.
    pub fn value_mut(&mut self) -> &mut V
        ensures* writes_back { sem 𝓛 (LendsValue V.row T.row self.entry result) }
        ensures value { result.now ≡ held_value self.old }
    {
        &mut self.value
    }
}
