/// What happens on a board. Each event names its worker.
#[derive(Clone, Copy, Debug, PartialEq, Eq)]
pub enum Event<Id> {
    /// The worker took a job.
    Claim(u32, Id),
    /// The worker gave the job what came of it.
    Finish(u32, Id),
    /// The worker stopped, and gave up the job that it had.
    Halt(u32),
}

/// Where a board stands.
#[derive(Clone, Copy, Debug, PartialEq, Eq)]
pub enum End {
    /// A job is ready or running.
    Running,
    /// No job is ready, none is running, and nobody halted.
    Ended,
    /// A worker halted.
    Halted,
}
