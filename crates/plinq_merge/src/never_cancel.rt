ghost use Rattle.std.specs.Prelude.{◌≡◌, false};
ghost use Rattle.std.proofs.Common.{sym};

use crate::cancel::Cancel;

/// The token that never stops anything.
#[derive(Clone, Copy, Debug)]
pub struct NeverCancel;

impl Cancel for NeverCancel {
    ghost asks = { λ t n answer t'. answer ≡ false };

    ghost has_told = { λ t. false };

    fn cancelled(&mut self, _delivered: u64) -> bool {
        false
    }

    fn told(&self) -> bool {
        false
    }

    ghost keeps_told = { λ t n answer t' no. sym no };
}
