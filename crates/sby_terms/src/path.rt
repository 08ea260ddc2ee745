// The names of jobs, and the paths of their files.

ghost use Rattle.std.specs.Prelude.{◌≡◌, IfOk, string_bytes};
ghost use Rattle.sby_terms.specs.Path.{job_path, job_text, path_text};

use crate::JobName;
use std::alloc::{AllocError, Global};

/// A job's name among the jobs of a task with this many slices: `base`, or `base0`, `base1`, .. where there are several; `step`;
/// `inv`; `cover0`, `cover1`, ..
#[tactic(auto, unfolding(crate::specs::Path::job_text))]
pub fn job_text(alloc: Global, slices: u32, job: JobName) -> Result<String, AllocError>
    ensures { IfOk result (λ t. string_bytes t ≡ job_text slices job) }
{
    match job {
        JobName::Base(_) if slices == 1 => String::from_str(alloc, "base"),
        JobName::Base(slice) => format!(in alloc; "base{slice}"),
        JobName::Step => String::from_str(alloc, "step"),
        JobName::Inv => String::from_str(alloc, "inv"),
        JobName::Cover(k) => format!(in alloc; "cover{k}"),
    }
}

#[tactic(auto, unfolding(crate::specs::Path::path_text))]
fn path_text(alloc: Global, folder: &str, job: &str) -> Result<String, AllocError>
    ensures { IfOk result (λ t. string_bytes t ≡ path_text folder.now job.now) }
{
    format!(in alloc; "{folder}/model/{job}.cnf")
}

/// The path of a job's file in the work folder of a task with this many slices: `FOLDER/model/JOB.cnf`.
pub fn job_path(
    alloc: Global,
    folder: &str,
    slices: u32,
    job: JobName,
) -> Result<String, AllocError>
    ensures { IfOk result (λ t. string_bytes t ≡ job_path folder.now slices job) }
{
    let job = job_text(alloc, slices, job)?;
    path_text(alloc, folder, job.as_str())
}
