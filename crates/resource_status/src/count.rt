//! The counts of one resource.
ghost use Rattle.std.specs.Prelude.{◌≡◌};
ghost use Rattle.resource_status.specs.Counts.{no_runs, one_more};

/// The number of runs of a resource that ended, and of those that failed. Counts saturate at 2^64 - 1.
#[derive(Clone, Copy)]
pub struct RunCount {
    pub runs: u64,
    pub failures: u64,
}

impl RunCount {
    /// The counts of no run.
    pub fn none() -> RunCount
        ensures { result ≡ no_runs }
    {
        RunCount {
            runs: 0,
            failures: 0,
        }
    }

    // The counts with one more run.
    pub(crate) fn one_more(self, failed: bool) -> RunCount
        ensures { result ≡ one_more failed self }
    {
        RunCount {
            runs: self.runs.saturating_add(1),
            failures: self.failures.saturating_add(u64::from(failed)),
        }
    }
}
