ghost use Rattle.std.specs.Prelude.{◌≡◌, ◌≤◌};
ghost use Rattle.plinq_settings.specs.Degrees.{degree_of};

use std::marker::Model;

/// A degree of parallelism: a number of workers from 1 to 64.
#[derive(Clone, Copy, Debug, PartialEq, Eq)]
pub struct Degree {
    number: u64,
}

impl Model for Degree {
    ghost use Rattle.std.specs.Prelude.{ℕ, ◌≤◌};

    ghost Value = { ℕ };

    ghost view = { λ d. d.number };

    ghost invariant = { λ d. (1 ≤ d.number) × (d.number ≤ 64) };

    ghost inverse = { λ n. record { number = n } };
}

impl Degree {
    /// The degree of this number, if it is from 1 to 64.
    pub fn new(number: u64) -> Option<Degree>
        ensures { result ≡ degree_of number }
    {
        if number == 0 || number > 64 {
            return None;
        }
        Some(Degree { number })
    }

    /// How many workers.
    pub fn number(self) -> u64
        ensures value { result ≡ self }
        ensures some { 1 ≤ result }
        ensures few { result ≤ 64 }
    {
        self.number
    }
}
