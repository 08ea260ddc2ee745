// Nodes and registers as they are kept.

use crate::model::Control;
use crate::op::Op;

/// The rows at A, B, S and Y stand in this order from `first` on.
#[derive(Clone, Copy)]
pub struct StoredNode {
    pub op: Op,
    pub first: usize,
    pub a: u32,
    pub b: u32,
    pub s: u32,
    pub y: u32,
}

/// The rows of what it takes and of its reset value stand in this order from `first` on, its state bits from `state` on.
#[derive(Clone, Copy)]
pub struct StoredRegister {
    pub first: usize,
    pub state: usize,
    pub width: u32,
    pub enable: Control,
    pub reset: Control,
    pub reset_first: bool,
}
