// The file of a job of a problem.

ghost use Rattle.std.specs.Prelude.{◌≡◌};
ghost use Rattle.judge.specs.Problem.{IsJob};

use judge::{JobText, Problem};
use sby_edge::{FileReader, JobFile, Source, Told};
use sby_terms::JobName;
use std::alloc::{AllocError, Global};
use std::marker::Model;

/// The text of a job's file that is still to come.
#[derive(Drop)]
pub struct FileText<'a> {
    text: JobText<'a>,
}

impl<'a> FileText<'a> {
    pub fn new(text: JobText<'a>) -> Self
        ensures { result.text ≡ text.entry }
    {
        FileText { text }
    }
}

impl<'a> Source for FileText<'a> {
    ghost rest = { λ t. t.text };

    fn next(&mut self, buffer: &mut [u8]) -> usize {
        self.text.next(buffer)
    }
}

/// The file of a job of a problem: the job's formula, or the pair of two neighbouring cycles. Contracts see the problem and the job.
#[derive(Drop)]
pub struct ProblemFile<'a> {
    problem: &'a Problem,
    job: JobName,
}

impl<'a> Model for ProblemFile<'a> {
    ghost use Rattle.judge.specs.Problem.{IsJob};
    ghost use Rattle.task_race.specs.Serving.{ProblemFileOf};

    ghost Value = { ProblemFileOf };

    ghost view = { λ f. record { problem = f.problem.now; job = f.job } };

    ghost invariant = { λ f. IsJob f.problem.now f.job };
}

impl<'a> ProblemFile<'a> {
    pub(crate) fn new(problem: &'a Problem, job: JobName) -> Self
        requires { IsJob problem.now job }
        ensures { result ≡ record { problem = problem.now; job = job } }
    {
        ProblemFile { problem, job }
    }
}

impl<'a> Told for ProblemFile<'a> {
    ghost use Rattle.task_race.specs.Serving.{file_of};

    ghost bytes = { λ f. file_of f.problem f.job };
}

impl<'a> JobFile for ProblemFile<'a> {
    fn read_by<R: FileReader>(&self, alloc: Global, reader: &mut R) -> Result<(), AllocError> {
        let file = self.problem.job_file(alloc, self.job)?;
        reader.read(&mut FileText::new(file.text()));
        Ok(())
    }
}
