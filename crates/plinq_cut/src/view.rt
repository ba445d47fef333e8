/// What a pass knows. No value of it is made.
pub enum View {
    // The least number that the pass has seen.
    Passing(u64),
    // Another pass has taken it in.
    Joined,
}
