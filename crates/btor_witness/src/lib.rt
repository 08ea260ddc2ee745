//! Witnesses in the format of BTOR2, read piece by piece. Of the bytes so far no more is kept than what the frames choose for a run of the
//! model, and of a line no more than its first numbers and the bits of its row.
#![tactic(auto)]

mod feeding;
mod frames;
mod laws;
mod line;
mod reading;
mod shape;
mod spot;
mod witnesses;
mod word;

pub use frames::Chosen;
pub use laws::{bytes_are_read, bytes_come_to_one, ends_stay, pieces_join, witnesses_are_kept};
pub use shape::{Shape, Slot, Slots};
pub use spot::Seen;
pub use witnesses::Witnesses;
