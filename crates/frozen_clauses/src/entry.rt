// Entries of lists that find clauses.

use cnf_form::Lit;

// This many lists there are. A literal's is that of its index, modulo this: a prime, so that variables in even steps spread.
pub(crate) const LISTS: usize = 16_381;

// A clause in the list of one of its literals, with two more literals of it: where one of those isn't in another clause, this clause
// is no subset of that.
#[derive(Clone, Copy)]
pub(crate) struct Entry {
    pub clause: u32,
    pub second: Lit,
    pub third: Lit,
}
