// The tests, by subject.

mod asking;
mod engine;
mod freezing;
mod hints;
mod serving;
mod solving;
