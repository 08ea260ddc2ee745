//! What is asked of a model.

/// The statements that are asked beside all assumptions.
#[derive(Clone, Copy, Debug, PartialEq, Eq)]
pub enum Asked {
    /// All assertions.
    Asserts,
    /// All cover statements.
    Covers,
}
