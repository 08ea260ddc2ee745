// Gates, and what a call for one returns.

ghost use Rattle.std.specs.Prelude.{◌≡◌, OnOk, OnErr, ◌++◌};
ghost use Rattle.cnf_form.specs.Cnf.{LitWithin};
ghost use Rattle.gate_graph.specs.Folding.{asked, clauses_of, fold_and, fold_maj, fold_mux, fold_xor, key_maj, key_mux, operands, ordered_and as and_in_order, ordered_xor as xor_in_order, plain, sort_maj, majority, turned, same as same_lits, opposite as opposite_lits, is_true as true_lit, is_false as false_lit, below as lower};
ghost use Rattle.gate_graph.specs.Kept.{OthersWithin};

use cnf_form::{Formula, Lit};
use std::alloc::AllocError;

/// A gate over literals.
#[derive(Clone, Copy, Debug, PartialEq, Eq, Hash)]
pub enum Gate {
    /// True where both are.
    And(Lit, Lit),
    /// True where one of the two is, and not both.
    Xor(Lit, Lit),
    /// The third where the first is true, else the second.
    Mux(Lit, Lit, Lit),
    /// True where two of the three are.
    Maj(Lit, Lit, Lit),
}

// What a call for a gate returns.
#[derive(Clone, Copy, PartialEq, Eq)]
pub enum Asked {
    // A literal that is there.
    Is(Lit),
    // This gate, or its negation.
    Make(Gate, bool),
}

fn same(a: Lit, b: Lit) -> bool
    ensures { result ≡ same_lits a b }
{
    a.index() == b.index()
}

fn opposite(a: Lit, b: Lit) -> bool
    ensures { result ≡ opposite_lits a b }
{
    a.index() == b.negate().index()
}

fn is_true(a: Lit) -> bool
    ensures { result ≡ true_lit a }
{
    a.index() == 2
}

fn is_false(a: Lit) -> bool
    ensures { result ≡ false_lit a }
{
    a.index() == 3
}

fn below(a: Lit, b: Lit) -> bool
    ensures { result ≡ lower a b }
{
    a.index() < b.index()
}

// The literal without its sign.
fn plain_lit(l: Lit) -> Lit
    ensures { result ≡ plain l }
{
    if l.is_negated() { l.negate() } else { l }
}

// Whether two of the three are true.
fn majority_of(a: bool, b: bool, c: bool) -> bool
    ensures { result ≡ majority a b c }
{
    if a { b || c } else { b && c }
}

fn turned_ask(ask: Asked) -> Asked
    ensures { result ≡ turned ask }
{
    match ask {
        Asked::Is(l) => Asked::Is(l.negate()),
        Asked::Make(gate, negated) => Asked::Make(gate, !negated),
    }
}

// Operands in rising order.
fn ordered_and(a: Lit, b: Lit) -> Asked
    ensures { result ≡ and_in_order a b }
{
    if is_false(a) {
        Asked::Is(a)
    } else if is_true(a) {
        Asked::Is(b)
    } else if same(a, b) {
        Asked::Is(a)
    } else if opposite(a, b) {
        Asked::Is(Lit::new(1, true))
    } else {
        Asked::Make(Gate::And(a, b), false)
    }
}

fn and(a: Lit, b: Lit) -> Asked
    ensures { result ≡ fold_and a b }
{
    if below(b, a) {
        ordered_and(b, a)
    } else {
        ordered_and(a, b)
    }
}

// Operands in rising order.
fn ordered_xor(a: Lit, b: Lit) -> Asked
    ensures { result ≡ xor_in_order a b }
{
    let zero = Lit::new(1, true);
    if is_false(a) {
        Asked::Is(b)
    } else if is_true(a) {
        Asked::Is(b.negate())
    } else if same(a, b) {
        Asked::Is(zero)
    } else if opposite(a, b) {
        Asked::Is(zero.negate())
    } else {
        Asked::Make(
            Gate::Xor(plain_lit(a), plain_lit(b)),
            a.is_negated() != b.is_negated(),
        )
    }
}

fn xor(a: Lit, b: Lit) -> Asked
    ensures { result ≡ fold_xor a b }
{
    if below(b, a) {
        ordered_xor(b, a)
    } else {
        ordered_xor(a, b)
    }
}

fn maj_key(a: Lit, b: Lit, c: Lit) -> Asked
    ensures { result ≡ key_maj a b c }
{
    if majority_of(a.is_negated(), b.is_negated(), c.is_negated()) {
        Asked::Make(Gate::Maj(a.negate(), b.negate(), c.negate()), true)
    } else {
        Asked::Make(Gate::Maj(a, b, c), false)
    }
}

fn maj_sorted(a: Lit, b: Lit, c: Lit) -> Asked
    ensures { result ≡ sort_maj a b c }
{
    if below(a, b) {
        if below(b, c) {
            maj_key(a, b, c)
        } else if below(a, c) {
            maj_key(a, c, b)
        } else {
            maj_key(c, a, b)
        }
    } else if below(a, c) {
        maj_key(b, a, c)
    } else if below(b, c) {
        maj_key(b, c, a)
    } else {
        maj_key(c, b, a)
    }
}

fn maj(a: Lit, b: Lit, c: Lit) -> Asked
    ensures { result ≡ fold_maj a b c }
{
    if same(a, b) {
        Asked::Is(a)
    } else if same(a, c) {
        Asked::Is(a)
    } else if same(b, c) {
        Asked::Is(b)
    } else if opposite(a, b) {
        Asked::Is(c)
    } else if opposite(a, c) {
        Asked::Is(b)
    } else if opposite(b, c) {
        Asked::Is(a)
    } else if is_false(a) {
        and(b, c)
    } else if is_true(a) {
        turned_ask(and(b.negate(), c.negate()))
    } else if is_false(b) {
        and(a, c)
    } else if is_true(b) {
        turned_ask(and(a.negate(), c.negate()))
    } else if is_false(c) {
        and(a, b)
    } else if is_true(c) {
        turned_ask(and(a.negate(), b.negate()))
    } else {
        maj_sorted(a, b, c)
    }
}

fn mux_key(s: Lit, a: Lit, b: Lit) -> Asked
    ensures { result ≡ key_mux s a b }
{
    if a.is_negated() {
        Asked::Make(Gate::Mux(s, a.negate(), b.negate()), true)
    } else {
        Asked::Make(Gate::Mux(s, a, b), false)
    }
}

fn mux(s: Lit, a: Lit, b: Lit) -> Asked
    ensures { result ≡ fold_mux s a b }
{
    if is_true(s) {
        Asked::Is(b)
    } else if is_false(s) {
        Asked::Is(a)
    } else if same(a, b) {
        Asked::Is(a)
    } else if opposite(a, b) {
        xor(s, a)
    } else if is_false(a) {
        and(s, b)
    } else if same(a, s) {
        and(s, b)
    } else if is_true(a) {
        turned_ask(and(s, b.negate()))
    } else if opposite(a, s) {
        turned_ask(and(s, b.negate()))
    } else if is_false(b) {
        and(s.negate(), a)
    } else if opposite(b, s) {
        and(s.negate(), a)
    } else if is_true(b) {
        turned_ask(and(s.negate(), a.negate()))
    } else if same(b, s) {
        turned_ask(and(s.negate(), a.negate()))
    } else if s.is_negated() {
        mux_key(s.negate(), b, a)
    } else {
        mux_key(s, a, b)
    }
}

// What a call for the gate returns.
pub(crate) fn fold(gate: Gate) -> Asked
    ensures { result ≡ asked gate }
{
    match gate {
        Gate::And(a, b) => and(a, b),
        Gate::Xor(a, b) => xor(a, b),
        Gate::Mux(s, a, b) => mux(s, a, b),
        Gate::Maj(a, b, c) => maj(a, b, c),
    }
}
