use plinq_ops::MergeOption;

/// The settings of a query that is run by threads.
#[derive(Drop)]
pub struct ByThreads<C> {
    pub degree: u64,
    // (the numbers of a growth, which is made of them when the query is run)
    pub growth: Option<(u64, u64, u64)>,
    pub merge: MergeOption,
    /// What may stop it.
    pub token: C,
}
