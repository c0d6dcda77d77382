//! What is done with each of many jobs.

/// What is done with each of many jobs, by many threads at once.
pub trait Work<J, X, E>: Sync {
    ghost use Rattle.std.specs.declared.result.Result.{Result};

    /// What it may answer to a job.
    ghost answers: { Self → J → Result X E → Type 0 };

    fn answer(&self, job: J) -> Result<X, E>
        ensures { answers self.now job result };
}
