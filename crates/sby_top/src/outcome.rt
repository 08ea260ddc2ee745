// The result of a call.

use judge::{Finding, Text};
use race_core::Report;
use sby_lines::Early;
use sby_terms::Status;

/// How a task ended, or a fault that was told in its place.
#[derive(Drop)]
pub struct TaskEnd {
    /// The work folder's text.
    pub name: String,
    /// MEMORY where memory ran out for a line or a trace file.
    pub status: Status,
    pub early: Option<Early>,
    /// The reading of the clock, in milliseconds, at which lanes under a time limit started.
    pub start: Option<u64>,
    /// One report for each lane; none after a fault before the lanes.
    pub reports: Vec<Report<Finding>>,
    /// The traces that couldn't be put, by the number of their cover statement, or 0.
    pub unput: Vec<u32>,
    /// The text of the accepted design; empty after a fault before the lanes.
    pub text: Text,
}

/// The result of a call.
#[derive(Drop)]
pub struct Done {
    /// The exit status: the bitwise or over the tasks, with 32 where the list of ends stops short; exactly 16 after a fault of the
    /// sink, or where the words are refused.
    pub rc: u8,
    /// One end for each task, in order; the list stops short where memory runs out even for an end.
    pub ends: Vec<TaskEnd>,
}
