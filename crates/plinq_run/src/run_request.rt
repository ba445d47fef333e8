use crate::run_types::RunTypes;
use plinq_enumerator::Growth;
use plinq_ops::Plan;
use std::alloc::Global;

/// What a run is asked: a plan over a source, by up to so many workers, whose chunks grow so and who pass this gate.
#[derive(Drop)]
pub(crate) struct RunRequest<'p, Q: RunTypes> {
    pub(crate) alloc: Global,
    pub(crate) plan: &'p Plan<'p, Q::Lambda>,
    pub(crate) workers: u64,
    pub(crate) source: Q::Source,
    pub(crate) growth: Growth,
    pub(crate) gate: &'p Q::Gate,
}
