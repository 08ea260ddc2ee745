// What the lanes of a task share.

ghost use Rattle.std.specs.Prelude.{◌≡◌};
ghost use Rattle.lane_run.specs.Asked.{other_of, terms_at};

use race_cells::Cells;
use race_core::{JobTerms, job_at};
use sby_terms::{JobName, Mode};

/// When a task began, and its timeout, in milliseconds of its clock. With `wait`, no finding makes a job needless.
#[derive(Clone, Copy, Debug, PartialEq, Eq)]
pub struct Limit {
    pub start: u64,
    pub millis: Option<u64>,
    pub wait: bool,
}

/// What the lanes of a task share.
#[derive(Drop)]
pub struct Task<'a, M, T, C> {
    pub factory: &'a M,
    /// One cell for each job.
    pub cells: &'a Cells<T>,
    pub clock: &'a C,
    pub mode: Mode,
    pub limit: Limit,
}

impl<'a, M, T, C> Task<'a, M, T, C> {
    // What the job at a place is asked under.
    pub(crate) fn terms(&self, place: u32) -> JobTerms
        ensures { result ≡ terms_at self.now.mode self.now.limit place }
    {
        JobTerms {
            cell: place,
            job: job_at(self.mode, place),
            wait: self.limit.wait,
            start: self.limit.start,
            limit: self.limit.millis,
        }
    }
}

// The cell of another job that can make a job needless, and that job.
pub(crate) fn other_cell(job: JobName) -> Option<(u32, JobName)>
    ensures { result ≡ other_of job }
{
    match job {
        JobName::Step | JobName::Inv => Some((0, JobName::Base(0))),
        JobName::Base(_) | JobName::Cover(_) => None,
    }
}
