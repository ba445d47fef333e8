ghost use Rattle.std.specs.Prelude.{◌≡◌};
ghost use Rattle.plinq_ops.specs.Chunk.{run_ending};

use plinq_source::Ending;

/// How the run of a fragment, or of a chunk's fragments, goes on.
#[derive(Clone, Copy, Debug, PartialEq, Eq)]
pub enum FragEnd {
    /// More elements may follow.
    More,
    /// An operator ended the run.
    End,
    /// A lambda faulted, with its code.
    Fault(u32),
    /// The rest was dropped, since the run has ended at an earlier key.
    Dropped,
}

impl FragEnd {
    /// How the run ended, as far as this says: nothing is said if the rest was dropped.
    pub fn run_ending(self) -> Option<Ending>
        ensures { result ≡ run_ending self }
    {
        match self {
            FragEnd::More | FragEnd::Dropped => None,
            FragEnd::End => Some(Ending::End),
            FragEnd::Fault(code) => Some(Ending::Fault(code)),
        }
    }
}
