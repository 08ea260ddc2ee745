// The headers of sections that stand once.

/// Which of them there were.
#[derive(Clone, Copy, Debug, PartialEq, Eq)]
pub struct Headers {
    pub tasks: bool,
    pub options: bool,
    pub engines: bool,
    pub script: bool,
    pub files: bool,
}
