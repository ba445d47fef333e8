use crate::any_source::AnySource;
use crate::kind::Kind;
use plinq_enumerator::Growth;
use plinq_lambda::Formula;
use plinq_ops::Query;
use plinq_source::Source;
use std::marker::Model;

/// What a document asks for.
#[derive(Drop)]
pub struct Job {
    /// The operators and settings.
    pub query: Query<Formula>,
    /// Where the elements come from, with nothing given yet.
    pub source: AnySource,
    /// How the chunks grow that partitions take from the source.
    pub growth: Growth,
    /// Whether the document says how they grow. If not, a run may choose other sizes, and `history` still shows those of
    /// [`Growth::DEFAULT`].
    pub has_growth: bool,
    /// What is reported of the answer in place of its items; if there is none, the items themselves.
    pub aggregate: Option<Kind>,
    /// After how many batches a run of it is cancelled, if it is.
    pub cancel_after: Option<u64>,
}

impl Model for Job {
    ghost use Rattle.std.specs.Prelude.{◌≡◌};
    ghost use Rattle.plinq_document.specs.Jobs.{JobView};

    ghost Value = { JobView };

    ghost view = { λ job. record {
      query = job.query;
      source = ⟦<AnySource as Source>⟧.whole job.source;
      growth = job.growth;
      has_growth = job.has_growth;
      aggregate = job.aggregate;
      cancel_after = job.cancel_after;
    } };

    ghost invariant = { λ job. ⟦<AnySource as Source>⟧.given job.source ≡ 0 };
}
