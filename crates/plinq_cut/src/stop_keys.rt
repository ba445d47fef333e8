ghost use Rattle.std.specs.Prelude.{ℕ, Bool};

/// Which keys end the run of a query: those of a source at which a plan ends (`AreStopKeys`). It is for the proofs alone.
pub trait StopKeys {
    // Whether a key ends the run.
    ghost stops_at: { ℕ → Bool };
}
