// A task as it is run.

use sby_terms::{Engine, Expect, Mode, Span};

/// Where a design's text is.
#[derive(Drop)]
pub enum DesignAt {
    /// At this path of the file store.
    Stored(String),
    /// The text itself, which stands in the task file.
    Given(Vec<u8>),
}

/// What serves the jobs of a task.
#[derive(Drop)]
pub enum Service {
    /// Stored streams, by their paths, one for each of the first jobs.
    Streams(Vec<String>),
    /// Engines, one lane for each.
    Lanes(Vec<Engine>),
}

/// A task as it is run.
#[derive(Drop)]
pub struct Task {
    /// The work folder's text.
    pub name: String,
    pub mode: Mode,
    pub span: Span,
    pub expect: Expect,
    /// The timeout, in milliseconds.
    pub limit: Option<u64>,
    pub design: DesignAt,
    /// Every lane goes on when a job is settled.
    pub wait: bool,
    pub service: Service,
}
