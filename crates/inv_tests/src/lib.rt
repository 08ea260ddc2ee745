//! The files of small pairs, and streams of invariants of them, judged: tests alone.
#![tactic(auto)]

#[cfg(test)]
mod files;
#[cfg(test)]
mod pairs;
#[cfg(test)]
mod tests;
