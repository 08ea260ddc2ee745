//! Whole runs of the top call over files and output in memory, as scenes: tests alone.
#![tactic(auto)]

#[cfg(test)]
mod by_hand;
#[cfg(test)]
mod cells;
#[cfg(test)]
mod designs;
#[cfg(test)]
mod faults;
#[cfg(test)]
mod invariants;
#[cfg(test)]
mod lanes;
#[cfg(test)]
mod modes;
#[cfg(test)]
mod names;
#[cfg(test)]
mod streams;
#[cfg(test)]
mod tasks;
#[cfg(test)]
mod together;
#[cfg(test)]
mod witnesses;
