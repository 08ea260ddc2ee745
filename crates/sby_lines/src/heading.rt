// What a task's lines show of the task itself.

use sby_terms::{Mode, Span};

/// A task as its lines show it.
#[derive(Clone, Copy, Debug)]
pub struct Heading<'a> {
    /// The work folder's text.
    pub name: &'a str,
    pub mode: Mode,
    pub span: Span,
    /// In milliseconds.
    pub limit: Option<u64>,
}
