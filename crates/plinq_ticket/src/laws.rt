ghost use Rattle.std.specs.Prelude.{◌≡◌, [], ◌∷◌, Option};
ghost use mathlib.Core.Option.{some, none};
ghost use Rattle.atomic_table.specs.Table.{State};
ghost use Rattle.plinq_ticket.specs.Lawful.{FreeWhileHome, AloneInside, IsFree};

use crate::ticket_lock::Keeps;
use crate::view::View;
use atomic_table::TableRule;
use plinq_keyed::Guarded;
use std::snapshot::Snapshot;

/// Whenever the lock is free, what was handed out is a prefix of the source under the keys 0, 1, 2 and so on, each once.
///
/// Between any two steps of any passes at which the value is home, its history is legal, and is the records of all passes
/// in the order of their tickets. `home` says that of each lawful record. `lock` says it of what `holds` of a lock's table,
/// made round the value `key.value`: `atomic_table` keeps that between any two steps, since each step was proved to. This
/// function does nothing: it is there for the laws in its contract.
pub fn free_lock_has_handed_out_a_prefix<V: Guarded>()
    ensures home { FreeWhileHome V.origin V.history }
    ensures lock { (key : Snapshot V) (s : State (Option V) (View V.Item)) (value : V) →
        ⟦<Keeps as TableRule<Option<V>, View<V::Item>, Snapshot<V>>>⟧.holds key s → s.homes ≡ some (Some value) ∷ [] →
        IsFree V.origin V.history (V.origin key.value) value s.views }
{}

/// At most one pass is inside, and while it is, the value is out.
///
/// This function does nothing: it is there for the law in its contract.
pub fn one_pass_is_inside<V: Guarded>()
    ensures { AloneInside V.origin V.history }
{}
