ghost use Rattle.std.specs.Prelude.{◌≡◌};
ghost use Rattle.plinq_crew.specs.inner.Closing.{wants_close, is_closed};

/// How far the closing of the source has come.
#[derive(Clone, Copy)]
pub(crate) enum Closing {
    /// More is wanted.
    Open,
    /// It is to be closed: what comes from now on is dropped.
    Wanted,
    /// A poll has closed it.
    Closed,
}

impl Closing {
    /// Whether nothing more is wanted.
    pub(crate) fn wants_close(self) -> bool
        ensures { result ≡ wants_close self }
    {
        match self {
            Closing::Open => false,
            Closing::Wanted | Closing::Closed => true,
        }
    }

    pub(crate) fn is_closed(self) -> bool
        ensures { result ≡ is_closed self }
    {
        match self {
            Closing::Open | Closing::Wanted => false,
            Closing::Closed => true,
        }
    }
}
