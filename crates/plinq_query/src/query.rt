ghost use Rattle.std.specs.Prelude.{◌≡◌, None, Some};
ghost use Rattle.plinq_ops.specs.declared.merge_option.MergeOption.TheVariants.{Default};

use plinq_merge::NeverCancel;
use plinq_ops::MergeOption;
use plinq_passing::ByThreads;
use plinq_source::Source;
use plinq_steps::{Filtered, Selected, Start, Steps};

/// A query on the thread that asks it.
#[derive(Clone, Copy, Drop)]
pub struct OneThread;

/// A source, the steps on its items, and how the query is run.
///
/// ```text
/// let big = from(SliceSource::new(&numbers)?)
///     .as_parallel()
///     .with_degree(4)
///     .select(|x: i64| -> (i64, bool) ensures { result ≡ (x, int_lt (pos 2) x) } { (x, x > 2) })
///     .filter(|p: (i64, bool)| -> bool ensures { result ≡ p.1 } { p.1 })
///     .to_vec(&rt, alloc)?;
/// ```
#[derive(Drop)]
pub struct Query<Src, S, B> {
    pub source: Src,
    pub steps: S,
    pub by: B,
}

/// A query over a source (C#'s `from x in xs`).
pub fn from<Src: Source>(source: Src) -> Query<Src, Start<Src::Item>, OneThread>
    ensures { result.source ≡ source }
{
    Query {
        source,
        steps: Start::new(),
        by: OneThread,
    }
}

impl<Src, S: Steps, B> Query<Src, S, B> {
    /// Makes something of each item, of any type (.NET's `Select`, rayon's `map`).
    pub fn select<U: Copy, F: Fn(S::To) -> U>(self, by: F) -> Query<Src, Selected<S, F>, B>
        ensures { (result.source ≡ self.source) × (result.steps.before ≡ self.steps) × (result.steps.by ≡ by) × (result.by ≡ self.by) }
    {
        Query {
            source: self.source,
            steps: Selected {
                before: self.steps,
                by,
            },
            by: self.by,
        }
    }

    /// Keeps the items that pass (.NET's `Where`, rayon's `filter`).
    pub fn filter<F: Fn(S::To) -> bool>(self, by: F) -> Query<Src, Filtered<S, F>, B>
        ensures { (result.source ≡ self.source) × (result.steps.before ≡ self.steps) × (result.steps.by ≡ by) × (result.by ≡ self.by) }
    {
        Query {
            source: self.source,
            steps: Filtered {
                before: self.steps,
                by,
            },
            by: self.by,
        }
    }
}

impl<Src, S> Query<Src, S, OneThread> {
    /// Has the query run by threads, as many as [`with_degree`](Query::with_degree) says, else 4 (.NET's `AsParallel`).
    pub fn as_parallel(self) -> Query<Src, S, ByThreads<NeverCancel>>
        ensures { (result.source ≡ self.source) × (result.steps ≡ self.steps) × (result.by.degree ≡ 4) × (result.by.growth ≡ None)
            × (result.by.merge ≡ Default) }
    {
        Query {
            source: self.source,
            steps: self.steps,
            by: ByThreads {
                degree: 4,
                growth: None,
                merge: MergeOption::Default,
                token: NeverCancel,
            },
        }
    }
}

impl<Src, S, C> Query<Src, S, ByThreads<C>> {
    /// Has the query run by the thread that asks it (.NET's `AsSequential`). The settings of a query by threads are dropped.
    pub fn as_sequential(self) -> Query<Src, S, OneThread>
    where
        C: Drop,
        ensures { (result.source ≡ self.source) × (result.steps ≡ self.steps) }
    {
        Query {
            source: self.source,
            steps: self.steps,
            by: OneThread,
        }
    }

    /// How many workers the query has, from 1 to 64 (.NET's `WithDegreeOfParallelism`).
    pub fn with_degree(self, degree: u64) -> Query<Src, S, ByThreads<C>>
        ensures { (result.source ≡ self.source) × (result.steps ≡ self.steps) × (result.by.degree ≡ degree) × (result.by.growth ≡ self.by.growth)
            × (result.by.merge ≡ self.by.merge) × (result.by.token ≡ self.by.token) }
    {
        Query {
            source: self.source,
            steps: self.steps,
            by: ByThreads { degree, ..self.by },
        }
    }

    /// How a worker's chunks grow: the first ones have `first` items, every `repeat` of them the size doubles, up to `max`.
    /// Without this setting they grow by how long they take.
    ///
    /// Numbers that make no growth are refused when the query is run ([`Growth`](plinq_enumerator::Growth) says which).
    pub fn with_growth(self, first: u64, repeat: u64, max: u64) -> Query<Src, S, ByThreads<C>>
        ensures { (result.source ≡ self.source) × (result.steps ≡ self.steps) × (result.by.degree ≡ self.by.degree)
            × (result.by.growth ≡ Some (first, repeat, max)) × (result.by.merge ≡ self.by.merge) × (result.by.token ≡ self.by.token) }
    {
        Query {
            source: self.source,
            steps: self.steps,
            by: ByThreads {
                growth: Some((first, repeat, max)),
                ..self.by
            },
        }
    }

    /// In which batches a sink gets what is made (.NET's `WithMergeOptions`): in runs of 16 without this setting. FullyBuffered
    /// delivers nothing of a query that doesn't end well.
    pub fn with_merge(self, option: MergeOption) -> Query<Src, S, ByThreads<C>>
        ensures { (result.source ≡ self.source) × (result.steps ≡ self.steps) × (result.by.degree ≡ self.by.degree)
            × (result.by.growth ≡ self.by.growth) × (result.by.merge ≡ option) × (result.by.token ≡ self.by.token) }
    {
        Query {
            source: self.source,
            steps: self.steps,
            by: ByThreads {
                merge: option,
                ..self.by
            },
        }
    }

    /// What may stop the query (.NET's `WithCancellation`): whichever call runs it asks the token, and once that has returned `true` the
    /// call fails with [`Cancelled`](plinq_run::RunFault::Cancelled).
    ///
    /// The token is asked on the calling thread: before each batch that a sink gets, before what the workers made of a chunk is used,
    /// and once more before the call returns. So a query of which nothing is left can be stopped as well. What was delivered by then is
    /// the beginning of what the call would deliver. The workers finish the chunks that they have taken.
    ///
    /// ```text
    /// let flag = CancelFlag::new();    // another thread calls flag.cancel()
    /// let count = query.with_token(flag.token()).count(&rt, alloc)?;
    /// ```
    pub fn with_token<D>(self, token: D) -> Query<Src, S, ByThreads<D>>
    where
        C: Drop,
        ensures { (result.source ≡ self.source) × (result.steps ≡ self.steps) × (result.by.degree ≡ self.by.degree)
            × (result.by.growth ≡ self.by.growth) × (result.by.merge ≡ self.by.merge) × (result.by.token ≡ token) }
    {
        Query {
            source: self.source,
            steps: self.steps,
            by: ByThreads {
                degree: self.by.degree,
                growth: self.by.growth,
                merge: self.by.merge,
                token,
            },
        }
    }
}
