// What is asked of a model.

/// Which statements are bad.
#[derive(Clone, Copy, Debug, PartialEq, Eq)]
pub enum Goal {
    /// Each assertion, where it is broken.
    Asserts,
    /// This cover statement, counted from 0, where it is reached.
    Cover(u32),
}
