// What drives bits within a cycle.

/// A driver within the cycle: the combinational cell or the register with an asynchronous reset at a place, or bit `.1` of the connect
/// at place `.0`, each counted from 0 in file order.
#[derive(Clone, Copy, Debug, PartialEq, Eq)]
pub enum Driver {
    Cell(usize),
    Connect(usize, usize),
}
