// The tests, by subject.

mod formulas;
mod judges;
mod pigeons;
mod propagation;
mod steps;
