// The tests, by subject.

mod closing;
mod gates;
mod rows;
mod tables;
