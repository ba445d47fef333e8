ghost use Rattle.std.specs.Prelude.{◌≡◌, false};
ghost use Rattle.plinq_merge.specs.Tokens.{AsksAfter, most_of};

use crate::cancel::Cancel;

/// The token that stops a delivery once so many batches were delivered.
#[derive(Clone, Copy, Debug)]
pub struct CancelAfter {
    most: u64,
    has_told: bool,
}

impl CancelAfter {
    /// Stops after so many batches, and at 0 before the first.
    pub fn new(most: u64) -> CancelAfter
        ensures most { most_of result ≡ most }
        ensures untold { ⟦<CancelAfter as Cancel>⟧.has_told result ≡ false }
    {
        CancelAfter {
            most,
            has_told: false,
        }
    }
}

impl Cancel for CancelAfter {
    ghost asks = { AsksAfter };

    ghost has_told = { λ t. t.has_told };

    fn cancelled(&mut self, delivered: u64) -> bool {
        let answer = delivered >= self.most;
        self.has_told = self.has_told || answer;
        answer
    }

    fn told(&self) -> bool {
        self.has_told
    }

    ghost keeps_told = { λ t n answer t' asked. asked.told };
}
