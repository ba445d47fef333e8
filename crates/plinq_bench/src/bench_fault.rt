use plinq_enumerator::GrowthFault;
use plinq_ops::BuildFault;
use plinq_run::{AggregateFault, RunFault};
use plinq_source::SourceFault;
use std::io;
use thiserror::Error;

/// Why a workload has no figure.
#[derive(Debug, Drop, Error)]
pub(crate) enum BenchFault {
    #[error("the query: {0}")]
    Build(#[from] BuildFault),
    #[error("{0}")]
    Growth(#[from] GrowthFault),
    #[error("the source: {0}")]
    Source(#[from] SourceFault),
    #[error("the run: {0}")]
    Run(#[from] RunFault),
    #[error("the aggregate: {0}")]
    Aggregate(#[from] AggregateFault),
    #[error("{0}")]
    Io(#[from] io::Error),
    #[error("the sums differ")]
    Sums,
    #[error("plinq_bench check | [stop] WORKLOAD WORKERS [ITEMS]")]
    Words,
}
