//! What each step reports to the pass that makes it. These types are for the proofs alone.
ghost use Rattle.plinq_ticket.specs.inner.Steps.{SeesNext, Draws, SeesServing, Leaves, cut_view, together_with, spent_view};

use crate::view::View;
use atomic_table::{Join, Play, Split};
use plinq_keyed::Guarded;

/// A load of `next`.
pub struct SeeNext;

impl<V, T> Play<Option<V>, View<T>> for SeeNext {
    ghost then = { λ s a n b. SeesNext n a b };
}

/// A compare-exchange of `next`, from a ticket to the one after it.
pub struct Draw;

impl<V, T> Play<Option<V>, View<T>> for Draw {
    ghost then = { λ s a n b. Draws s.first n a b };
}

/// A load of `serving`: if it is the pass's own ticket, the slot is its own.
pub struct SeeServing;

impl<V: Guarded> Play<Option<V>, View<V::Item>> for SeeServing {
    ghost then = { λ s a n b. SeesServing V.origin V.history n a b };
}

/// A store of `serving`, with which the pass leaves and the slot is home again.
pub struct Leave;

impl<V: Guarded> Play<Option<V>, View<V::Item>> for Leave {
    ghost then = { λ s a n b. Leaves V.history n a b };
}

/// A pass becomes two, of which the second has no share.
pub struct Cut;

impl<T> Split<View<T>> for Cut {
    ghost left = { λ v. v };

    ghost right = { cut_view };
}

/// Two passes become one, with both shares.
pub struct Glue;

impl<T> Join<View<T>> for Glue {
    ghost both = { together_with };

    ghost spent = { spent_view };
}
