//! The outside for real: files, output, children, connections and the clock of the system. Thin; its forms tell no content to a contract.
#![tactic(auto)]

mod args;
mod child;
mod clock;
mod command;
mod either;
mod files;
mod log;
mod tcp_dial;
mod tcp_door;
mod tcp_link;
mod yard;

pub use args::arguments;
pub use child::{RealHold, RealPipe};
pub use clock::RealClock;
pub use either::Either;
pub use files::{RealFiles, StdSink};
pub use log::Log;
pub use tcp_dial::{TcpDial, TcpHost};
pub use tcp_door::{TcpDoor, TcpGuest};
pub use tcp_link::{TcpCut, TcpLink};
pub use yard::{LaneHold, LanePipe, RealBay, RealYard};

#[cfg(test)]
mod tcp_tests;
#[cfg(test)]
mod tests;
