use plinq_source::Ending;

/// What a joiner has made of an answer.
#[derive(Drop)]
pub struct Joined<W> {
    /// What has taken the answer's items.
    pub taker: W,
    /// How the answer ends.
    pub ending: Ending,
}
