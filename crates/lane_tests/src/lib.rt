//! Lanes of a problem over children of scripts: tests alone.
#![tactic(auto)]

#[cfg(test)]
mod child_tests;
#[cfg(test)]
mod load_tests;
#[cfg(test)]
mod net_tests;
#[cfg(test)]
mod race_tests;
#[cfg(test)]
mod short_tests;
#[cfg(test)]
mod task_tests;
#[cfg(test)]
mod tests;
