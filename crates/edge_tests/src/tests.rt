// The tests, by subject.

mod cells;
mod induction;
mod memory;
mod pools;
mod reports;
mod rings;
mod scripts;
mod settled;
mod terms;
