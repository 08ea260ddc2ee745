// Cells and connects in one file order.

/// A cell or a connect, by its place in its own list, counted from 0.
#[derive(Clone, Copy, Debug, PartialEq, Eq)]
pub enum Item {
    Cell(usize),
    Connect(usize),
}
