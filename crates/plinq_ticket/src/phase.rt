/// Where a pass stands. No value of it is made.
pub enum Phase {
    // It has no ticket.
    Idle,
    // It has drawn that ticket.
    Waiting(u64),
    // Its ticket is served.
    Inside(u64),
    // Another pass has taken it in.
    Joined,
}
