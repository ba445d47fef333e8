use crate::sent::Sent;
use std::collections::LinkedList;

/// What a pass knows. No value of it is made.
pub struct PassKnowledge<T> {
    // Under which numbers it may send.
    pub numbers: LinkedList<u64>,
    // What it sent, and what those did that it took in.
    pub sent: LinkedList<Sent<T>>,
    // Whether it is the one that receives.
    pub receives: bool,
    // What it received.
    pub received: LinkedList<Sent<T>>,
}
