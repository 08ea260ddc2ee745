// The tests, by subject.

mod answers;
mod engine;
mod requests;
mod serving;
mod starts;
mod tools;
