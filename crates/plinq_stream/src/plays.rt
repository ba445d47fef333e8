//! What each step reports to the pass that makes it. These types are for the proofs alone.
ghost use Rattle.std.specs.Prelude.{◌≡◌};
ghost use Rattle.plinq_stream.specs.Knowing.{with_sent, with_received, without_first, with_first, together, nothing_known};
ghost use Rattle.plinq_stream.specs.Streams.{HasReceived};

use crate::admits::Admits;
use crate::pass_knowledge::PassKnowledge;
use crate::sent::Sent;
use crossbeam_queue::protocol::{Join, Lesson, Outcome, Split};
use std::marker::PhantomData;

/// An item was sent.
pub struct Sends;

impl<T> Outcome<Sent<T>, PassKnowledge<T>> for Sends {
    ghost then = { λ a s b. b ≡ with_sent a s };
}

/// An item was received.
pub struct Comes<C> {
    of: PhantomData<C>,
}

impl<T, C: Admits<T>> Outcome<Sent<T>, PassKnowledge<T>> for Comes<C> {
    ghost then = { λ a s b. (b ≡ with_received a s) × C.admits s.item };
}

impl<T, C: Admits<T>> Lesson<Sent<T>, PassKnowledge<T>> for Comes<C> {
    ghost fact = { HasReceived };
}

/// A pass with the first number leaves.
pub struct HandsOut;

impl<T> Split<PassKnowledge<T>> for HandsOut {
    ghost left = { without_first };

    ghost right = { with_first };
}

/// A pass is taken in.
pub struct TakesIn;

impl<T> Join<PassKnowledge<T>> for TakesIn {
    ghost both = { together };

    ghost spent = { nothing_known };
}
