// Faults before the lanes of a task.

use design_check::check::DesignFault;
use design_reader::ReadFault;
use sby_file::SbyFault;
use sby_task::TaskFault;
use sby_terms::JobName;

/// A fault before the lanes of a task.
#[derive(Drop)]
pub enum Early {
    /// A call of the file store failed at this path.
    File(String),
    /// The task file is refused.
    Sby(SbyFault),
    /// The task is.
    Task(TaskFault),
    /// The design's text is outside the grammar.
    Read(ReadFault),
    /// The design has a fault.
    Design(DesignFault),
    /// The job has more than 2^27 variables.
    TooMany(JobName),
    /// There are more streams than jobs.
    Streams,
    /// Memory ran out.
    Memory,
}
