/// How many workers are wanted, and how many were started.
#[derive(Clone, Copy)]
pub struct WorkerCount {
    pub wanted: u64,
    pub started: u64,
}
