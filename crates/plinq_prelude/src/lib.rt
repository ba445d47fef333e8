//! The library as one crate, with one `use`: what a program over items of its own needs of it.
//!
//!     use plinq_prelude::*;
//!
//! All is as it is in the crate that has it; `specs/Words.antt` has the words that contracts cite. Groups have a crate of
//! their own, `plinq_groups`; typed queries begin with `from`, and their types are in `plinq_query`. `Count` is
//! `plinq_aggregate::Count`, since a name that differs from `count` by its case alone is refused.
#![tactic(auto)]

pub use plinq_aggregate::{Aggregator, GrowingAggregator, Max, Min, Sum};
pub use plinq_closures::{Chain, ChainFault};
pub use plinq_collect::{
    Collect, EqualTo, Same, all, any, build, contains, count, element_at, first, for_each,
    run_into, sequentially, to_vec,
};
pub use plinq_enumerator::Growth;
pub use plinq_lambda::{ExpandFault, Formula, Lambda, SharedLambda};
pub use plinq_merge::{Cancel, CancelAfter, CancelFlag, Sink};
pub use plinq_ops::{BuildFault, MergeOption, Op, Query, sequential};
pub use plinq_query::{QueryFault, from};
pub use plinq_run::{
    AggregateFault, OpenGate, Report, RunFault, TimedGate, aggregate, run, run_with,
};
pub use plinq_slice::{IndexSource, ItemAt, SliceSource, lines_source, list_source};
pub use plinq_source::{
    ConcatSource, Ending, ListSource, OutOfMemory, RangeSource, RepeatSource, Source, SourceFault,
    Step, TextSource,
};
pub use plinq_stopping::aggregate_with;
