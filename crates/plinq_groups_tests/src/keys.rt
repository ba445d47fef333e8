//! Keys of numbers: their low bits, as they are or in a type all of whose values collide.
ghost use Rattle.std.specs.Prelude.{bit_and, []};
ghost use Rattle.std.specs.Int.{cast_unsigned, w64};
ghost use Rattle.plinq_groups_tests.specs.declared.keys.Colliding.{Colliding};

use plinq_groups::KeyOf;
use std::hash::{Hash, Hasher};

/// The bits of a number that a mask lets through.
#[derive(Clone, Copy)]
pub(crate) struct Masked {
    pub(crate) mask: u64,
}

impl KeyOf for Masked {
    type Item = i64;

    type Key = u64;

    ghost keys = { λ m x. bit_and (cast_unsigned w64 x) m.mask };

    fn key_of(&self, x: i64) -> u64 {
        x.cast_unsigned() & self.mask
    }
}

/// A number whose hash is that of any other.
#[derive(Clone, Copy, PartialEq, Eq)]
pub(crate) struct Colliding {
    bits: u64,
}

impl Hash for Colliding {
    ghost hash_input = { λ _. [] };

    ghost respects_eq = { λ x y same i. [] };

    fn hash<H: Hasher>(&self, state: &mut H) {}
}

/// The same bits, in a type all of whose values collide.
#[derive(Clone, Copy)]
pub(crate) struct MaskedToCollide {
    pub(crate) mask: u64,
}

impl KeyOf for MaskedToCollide {
    type Item = i64;

    type Key = Colliding;

    ghost keys = { λ m x. record { bits = bit_and (cast_unsigned w64 x) m.mask } };

    fn key_of(&self, x: i64) -> Colliding {
        Colliding {
            bits: x.cast_unsigned() & self.mask,
        }
    }
}
