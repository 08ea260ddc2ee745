// Rows that have another row's literals at other places: no gate is made.

ghost use Rattle.std.specs.Prelude.{◌≡◌, ◌*◌, ◌^◌, ◌+◌, ◌-◌, ◌<◌, ◌≤◌, ◌&&◌, false, All, length, map, not, IfOk, pos, slice_index_or};
ghost use Rattle.std.specs.Int.{int_div_euclid};
ghost use Rattle.cnf_form.specs.Cnf.{Assignment, LitWithin, lit_in};
ghost use Rattle.gate_graph.specs.Circuit.{Means};
ghost use Rattle.sby_bits.specs.Rows.{fit, num, top_bit, value};
ghost use Rattle.sby_bits.specs.Words.{filled_number};
ghost use Rattle.gate_rows.specs.Literals.{MeansRow, row_of};

use crate::bits::push;
use cnf_form::Lit;
use gate_graph::Gates;
use std::alloc::{AllocError, Global};

/// The literal that a word has in every place above its own: its last where it is signed, else 0.
pub fn fill_of(gates: &Gates, word: &[Lit], signed: bool) -> Lit
    requires { All (LitWithin gates.now.formula.vars) word.now }
    ensures within { LitWithin gates.now.formula.vars result }
    ensures means { Means gates.now result (λ x. signed && top_bit (row_of x word.now)) }
{
    match word {
        [.., last] if signed => *last,
        _ => gates.constant(false),
    }
}

// The literal at a place of a word, and `fill` past its end.
fn lit_or(word: &[Lit], place: usize, fill: Lit) -> Lit
    ensures { result ≡ slice_index_or word.now place fill }
{
    if place < word.len() {
        word[place]
    } else {
        fill
    }
}

/// The `y` bits of a row from the place `from` on, and `fill` past its end.
pub fn moved_down(
    alloc: Global,
    gates: &Gates,
    a: &[Lit],
    from: usize,
    fill: Lit,
    y: usize,
) -> Result<Vec<Lit>, AllocError>
    requires places { from + y < 2 ^ 64 }
    requires a { All (LitWithin gates.now.formula.vars) a.now }
    requires fill { LitWithin gates.now.formula.vars fill }
    ensures { let row = λ (x : Assignment). fit y (int_div_euclid (filled_number (row_of x a.now) (lit_in x fill)) (pos (2 ^ from))) in
        IfOk result (λ word. MeansRow gates.now row word.items) }
{
    let mut word = Vec::new(alloc);
    for place in 0..y {
        push(&mut word, lit_or(a, place + from, fill))?;
    }
    Ok(word)
}

// The literal of a place of a row that is moved up.
fn up_lit(a: &[Lit], place: usize, by: usize, zero: Lit) -> Lit
    ensures low { place < by → result ≡ zero }
    ensures high { by ≤ place → result ≡ slice_index_or a.now (place - by) zero }
{
    if place < by {
        zero
    } else {
        lit_or(a, place - by, zero)
    }
}

/// The `y` bits of a row moved up by `by` places, over zeros.
pub fn moved_up(
    alloc: Global,
    gates: &Gates,
    a: &[Lit],
    by: usize,
    y: usize,
) -> Result<Vec<Lit>, AllocError>
    requires a { All (LitWithin gates.now.formula.vars) a.now }
    ensures { let row = λ (x : Assignment). fit y (pos (num (row_of x a.now) * 2 ^ by)) in
        IfOk result (λ word. MeansRow gates.now row word.items) }
{
    let zero = gates.constant(false);
    let mut word = Vec::new(alloc);
    for place in 0..y {
        push(&mut word, up_lit(a, place, by, zero))?;
    }
    Ok(word)
}

/// The row at width `y`, by its sign where `signed`.
pub fn extended(
    alloc: Global,
    gates: &Gates,
    a: &[Lit],
    signed: bool,
    y: usize,
) -> Result<Vec<Lit>, AllocError>
    requires { All (LitWithin gates.now.formula.vars) a.now }
    ensures { let row = λ (x : Assignment). fit y (value signed (row_of x a.now)) in
        IfOk result (λ word. MeansRow gates.now row word.items) }
{
    let fill = fill_of(gates, a, signed);
    let word = moved_down(alloc, gates, a, 0, fill, y)?;
    Ok(word)
}

/// The negation of each literal.
pub fn negated(alloc: Global, gates: &Gates, a: &[Lit]) -> Result<Vec<Lit>, AllocError>
    requires { All (LitWithin gates.now.formula.vars) a.now }
    ensures { IfOk result (λ word. MeansRow gates.now (λ x. map not (row_of x a.now)) word.items) }
{
    let mut word = Vec::new(alloc);
    for i in 0..a.len() {
        let p = a[i];
        push(&mut word, p.negate())?;
    }
    Ok(word)
}
