// What is wrong with a design.

/// The kinds of fault, in the order in which they are looked for.
#[derive(Clone, Copy, Debug, PartialEq, Eq)]
pub enum FaultKind {
    UnknownCell,
    LeftOut,
    BadParameter,
    PortWidth,
    WidthLimit,
    MixedSign,
    TwoDrivers,
    MultiClock,
    InitConflict,
    Loop,
}
