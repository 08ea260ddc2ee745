//! A design as a graph of its bits: what drives what, nets of connects, loops, an order of the drivers, and start digits.
#![tactic(auto)]

pub mod driver;
pub mod drivers;
pub mod edges;
pub mod item;
pub mod loops;
pub mod nets;
pub mod order;
pub mod starts;
