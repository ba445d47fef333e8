//! What each step reports to the pass that makes it. These types are for the proofs alone.
ghost use Rattle.std.specs.Prelude.{◌≡◌, min};
ghost use Rattle.plinq_cut.specs.Cutting.{Sees, together};
ghost use Rattle.plinq_cut.specs.declared.view.View.TheVariants.{Joined};

use crate::stop_keys::StopKeys;
use crate::view::View;
use atomic_table::{Join, Play, Split};
use std::marker::PhantomData;

/// A load of the word.
pub struct See<E> {
    of: PhantomData<E>,
}

impl<E: StopKeys> Play<(), View> for See<E> {
    ghost then = { λ s a n b. Sees E.stops_at n n a.0 b.0 × (b.1 ≡ a.1) };
}

/// The word becomes the lesser of itself and a key.
pub struct Lower<E> {
    of: PhantomData<E>,
}

impl<E: StopKeys> Play<(), View> for Lower<E> {
    ghost then = { λ s a n b. Sees E.stops_at n (min n s.first) a.0 b.0 × (b.1 ≡ a.1) };
}

/// A pass becomes two.
pub struct Cut;

impl Split<View> for Cut {
    ghost left = { λ a. a };

    ghost right = { λ a. a };
}

/// Two passes become one.
pub struct Glue;

impl Join<View> for Glue {
    ghost both = { together };

    ghost spent = { Joined };
}
