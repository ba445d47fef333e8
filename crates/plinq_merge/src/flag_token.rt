ghost use Rattle.std.specs.Prelude.{◌≡◌, ◌||◌, is_some, IfSome};
ghost use Rattle.std.proofs.Props.{props};

use crate::cancel::Cancel;
use crate::cancel_flag::CancelFlag;
use std::sync::OnceToken;

/// The token of a flag. It answers whether the flag is seen set, and what it has seen stands for that.
#[derive(Drop)]
pub struct FlagToken<'a> {
    pub(crate) flag: &'a CancelFlag,
    pub(crate) seen: Option<OnceToken<'a, ()>>,
    ghost of_flag: { IfSome seen (λ s. s.of ≡ flag.now.set.id) } by { Prim.hlevel props },
}

impl<'a> Cancel for FlagToken<'a> {
    ghost asks = { λ t n answer t'. is_some t'.seen ≡ (is_some t.seen || answer) };

    ghost has_told = { λ t. is_some t.seen };

    fn cancelled(&mut self, _delivered: u64) -> bool {
        match self.flag.set.witness() {
            Some(seen) => {
                self.seen = Some(seen);
                true
            }
            None => false,
        }
    }

    fn told(&self) -> bool {
        self.seen.is_some()
    }

    ghost keeps_told = { λ t n answer t' asked. asked };
}
