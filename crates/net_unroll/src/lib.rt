//! What is asked of a net over some cycles, as a formula: a function of the net, of what is asked, and of the cycles.
#![tactic(auto)]

mod asking;
mod clauses;
mod cycles;
mod encoded;
mod encoding;
mod finishing;
mod laws;
mod making;

pub use asking::{Asked, Cycles};
pub use clauses::{Clause, clause_at, clause_count};
pub use encoded::Free;
pub use encoding::{Encoded, TooMany, bound, encode, encode_again};
pub use laws::{
    assignments_tell_what_solves, encodings_are_shared_and_folded,
    encodings_tell_what_can_be_solved, folded_gates_are_made, formulas_are_tight,
    formulas_have_texts, free_variables_are_open_bits, free_variables_fix_all,
    nothing_asked_is_empty, what_is_made_is_bounded, what_is_made_is_counted,
};
