ghost use Rattle.std.specs.Prelude.{◌≡◌, false};

use crate::cancel::Cancel;
use crate::flag_token::FlagToken;
use std::sync::OnceLock;

/// A flag that any thread sets, for a run to stop at (.NET's `CancellationTokenSource`). It isn't taken back.
///
/// ```text
/// let flag = CancelFlag::new();
/// // one thread:     run_with(.., &mut flag.token(), &mut sink)
/// // another one:    flag.cancel()
/// ```
#[derive(Drop)]
pub struct CancelFlag {
    pub(crate) set: OnceLock<()>,
}

impl CancelFlag {
    /// It isn't set.
    pub fn new() -> CancelFlag {
        CancelFlag {
            set: OnceLock::new(),
        }
    }

    /// Sets it. If several threads do so at once, one of them sets it for all.
    pub fn cancel(&self) {
        let _ = self.set.try_set(());
    }

    /// The token of a run that is to stop once the flag is seen set.
    pub fn token(&self) -> FlagToken<'_>
        ensures flag { result.flag.now ≡ self.now }
        ensures untold { ⟦<FlagToken<'static> as Cancel>⟧.has_told result ≡ false }
    {
        FlagToken {
            flag: self,
            seen: None,
        }
    }
}
