use crate::phase::Phase;

/// Where a pass stands, and the greatest numbers that it has seen. No value of it is made.
pub struct Standing {
    pub phase: Phase,
    // How many tickets were drawn.
    pub drawn: u64,
    // How many tickets were served.
    pub served: u64,
}
