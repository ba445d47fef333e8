use crate::pass_knowledge::PassKnowledge;
use crate::sent::Sent;
use crossbeam_queue::Pass;

/// The right to send under some numbers, and perhaps to receive. It has no bytes.
#[derive(Drop)]
pub struct StreamPass<T> {
    pub(crate) pass: Pass<Sent<T>, PassKnowledge<T>>,
}
