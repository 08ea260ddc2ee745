//! Tests of the circuits of cells: their rows against `sby_bits`, by closing the clauses under the operands' bits.
#![tactic(auto)]

#[cfg(test)]
mod tests;
