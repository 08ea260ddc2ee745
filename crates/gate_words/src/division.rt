// Quotients and remainders of rows, by rows that grow by a place at a time.

ghost use Rattle.std.specs.Prelude.{◌≡◌, ◌+◌, ◌*◌, ◌<◌, ◌≤◌, ◌&&◌, All, length, max, cond, IfOk, pos, ◌-ℤ◌, unsigned_abs};
ghost use Rattle.cnf_form.specs.Cnf.{Assignment, LitWithin, lit_in};
ghost use Rattle.sby_bits.specs.Rows.{fit, num, value};
ghost use Rattle.sby_bits.specs.Words.{quotient, remainder};
ghost use Rattle.cell_table.specs.Cells.{divide_fn, either_one};
ghost use Rattle.gate_words.specs.Words.{Builds, IsFull, MeansBit, MeansRow, row_of, square};
ghost use Rattle.gate_words.specs.Division.{IsDivided, IsPlace, IsStep, IsZeros, divided_gates};

use crate::bitwise::difference;
use crate::choices::{concat, mux};
use cell_table::kind::Divide;
use cnf_form::Lit;
use gate_graph::{GateFault, Gates};
use gate_rows::{BitOp, add, chain, extended, fill_of, moved_up, negated, push};
use std::alloc::{AllocError, Global};

// Both of two literals.
fn both(gates: &mut Gates, a: Lit, b: Lit) -> Result<Lit, GateFault>
    requires a { LitWithin gates.old.formula.vars a }
    requires b { LitWithin gates.old.formula.vars b }
    ensures bit { IfOk result (MeansBit gates.new (λ x. lit_in x a && lit_in x b)) }
    ensures builds { Builds gates.old gates.new 1 }
    ensures too_many { result ≡ Err GateFault.TooMany → IsFull gates.old gates.new 1 }
{
    let lit = chain(gates, &BitOp::And, a, &[b])?;
    Ok(lit)
}

// For each number of places up to the length of `b`, whether that many of its highest bits are all 0.
fn zeros_above(alloc: Global, gates: &mut Gates, b: &[Lit]) -> Result<Vec<Lit>, GateFault>
    requires { All (LitWithin gates.old.formula.vars) b.now }
    ensures zeros { IfOk result (λ zeros. IsZeros gates.old gates.new b.now (length b.now) zeros.items) }
    ensures builds { Builds gates.old gates.new (length b.now) }
    ensures too_many { result ≡ Err GateFault.TooMany → IsFull gates.old gates.new (length b.now) }
{
    let mut last = gates.constant(true);
    let mut zeros = Vec::new(alloc);
    push(&mut zeros, last)?;
    for step in 0..b.len() {
        let bit = b[b.len() - 1 - step];
        last = both(gates, last, bit.negate())?;
        push(&mut zeros, last)?;
    }
    Ok(zeros)
}

// Whether a row is at least another of its length, which stands for the number where `zero` is true, and the row less it where it is.
fn subtracted(
    alloc: Global,
    gates: &mut Gates,
    top: &[Lit],
    low: &[Lit],
    zero: Lit,
) -> Result<(Lit, Vec<Lit>), GateFault>
    requires top { All (LitWithin gates.old.formula.vars) top.now }
    requires low { All (LitWithin gates.old.formula.vars) low.now }
    requires zero { LitWithin gates.old.formula.vars zero }
    requires as_many { length top.now ≡ length low.now }
    ensures step { IfOk result (λ r. IsStep gates.old gates.new top.now low.now zero r.0 r.1.items) }
    ensures builds { Builds gates.old gates.new (4 * length top.now + 1) }
    ensures too_many { result ≡ Err GateFault.TooMany → IsFull gates.old gates.new (4 * length top.now + 1) }
{
    let turned = negated(alloc, gates, low)?;
    let one = gates.constant(true);
    let (row, carry) = add(alloc, gates, top, &turned, one)?;
    let bit = both(gates, carry, zero)?;
    let rest = mux(alloc, gates, top, &row, bit)?;
    Ok((bit, rest))
}

// One place more, its digit below the rest of those above.
fn place(
    alloc: Global,
    gates: &mut Gates,
    digit: Lit,
    rest: &[Lit],
    b: &[Lit],
    zero: Lit,
) -> Result<(Lit, Vec<Lit>), GateFault>
    requires digit { LitWithin gates.old.formula.vars digit }
    requires rest { All (LitWithin gates.old.formula.vars) rest.now }
    requires b { All (LitWithin gates.old.formula.vars) b.now }
    requires zero { LitWithin gates.old.formula.vars zero }
    requires room { length rest.now < length b.now }
    ensures place { IfOk result (λ r. IsPlace gates.old gates.new digit rest.now b.now zero r.0 r.1.items) }
    ensures builds { Builds gates.old gates.new (4 * length b.now + 1) }
    ensures too_many { result ≡ Err GateFault.TooMany → IsFull gates.old gates.new (4 * length b.now + 1) }
{
    let top = concat(alloc, &[digit], rest)?;
    let (low, _) = b.split_at(top.len());
    let (bit, less) = subtracted(alloc, gates, &top, low, zero)?;
    Ok((bit, less))
}

// All places, from the highest, with what is left.
fn all_places(
    alloc: Global,
    gates: &mut Gates,
    a: &[Lit],
    b: &[Lit],
    zeros: &[Lit],
) -> Result<(Vec<Lit>, Vec<Lit>), GateFault>
    requires a { All (LitWithin gates.old.formula.vars) a.now }
    requires b { All (LitWithin gates.old.formula.vars) b.now }
    requires as_many { length a.now ≡ length b.now }
    requires zeros { IsZeros gates.old gates.old b.now (length b.now) zeros.now }
    ensures divided { IfOk result (λ r. IsDivided gates.old gates.new a.now b.now (length a.now) 0 r.0.items r.1.items) }
    ensures builds { Builds gates.old gates.new ((4 * length b.now + 1) * length a.now) }
    ensures too_many { result ≡ Err GateFault.TooMany → IsFull gates.old gates.new ((4 * length b.now + 1) * length a.now) }
{
    let mut rest = Vec::new(alloc);
    let mut bits = Vec::new(alloc);
    for step in 0..a.len() {
        let k = a.len() - 1 - step;
        let digit = a[k];
        let zero = zeros[k];
        let (bit, less) = place(alloc, gates, digit, &rest, b, zero)?;
        rest = less;
        push(&mut bits, bit)?;
    }
    Ok((bits, rest))
}

// The quotient of two rows of one length, and what is left; over zero all bits, and the row.
fn divided(
    alloc: Global,
    gates: &mut Gates,
    a: &[Lit],
    b: &[Lit],
) -> Result<(Vec<Lit>, Vec<Lit>), GateFault>
    requires a { All (LitWithin gates.old.formula.vars) a.now }
    requires b { All (LitWithin gates.old.formula.vars) b.now }
    requires as_many { length a.now ≡ length b.now }
    ensures quotient { let row = λ (x : Assignment). fit (length a.now) (quotient (pos (num (row_of x a.now))) (pos (num (row_of x b.now)))) in
        IfOk result (λ r. MeansRow gates.new row r.0.items) }
    ensures rest { let row = λ (x : Assignment). fit (length a.now) (remainder (pos (num (row_of x a.now))) (pos (num (row_of x b.now)))) in
        IfOk result (λ r. MeansRow gates.new row r.1.items) }
    ensures builds { Builds gates.old gates.new (divided_gates (length a.now)) }
    ensures too_many { result ≡ Err GateFault.TooMany → IsFull gates.old gates.new (divided_gates (length a.now)) }
{
    let zeros = zeros_above(alloc, gates, b)?;
    let (mut bits, rest) = all_places(alloc, gates, a, b, &zeros)?;
    bits.reverse();
    Ok((bits, rest))
}

// 0 less the row where `sign` is true, else the row.
fn turned_where(
    alloc: Global,
    gates: &mut Gates,
    a: &[Lit],
    sign: Lit,
) -> Result<Vec<Lit>, GateFault>
    requires a { All (LitWithin gates.old.formula.vars) a.now }
    requires sign { LitWithin gates.old.formula.vars sign }
    ensures row { let row = λ (x : Assignment). cond (lit_in x sign) (fit (length a.now) (pos 0 -ℤ pos (num (row_of x a.now)))) (row_of x a.now) in
        IfOk result (λ word. MeansRow gates.new row word.items) }
    ensures builds { Builds gates.old gates.new (4 * length a.now) }
    ensures too_many { result ≡ Err GateFault.TooMany → IsFull gates.old gates.new (4 * length a.now) }
{
    let zeros = moved_up(alloc, gates, &[], 0, a.len())?;
    let turned = difference(alloc, gates, &zeros, a)?;
    let word = mux(alloc, gates, a, &turned, sign)?;
    Ok(word)
}

// The size of a number at a width, without its sign.
fn size(
    alloc: Global,
    gates: &mut Gates,
    a: &[Lit],
    signed: bool,
    n: usize,
) -> Result<Vec<Lit>, GateFault>
    requires { All (LitWithin gates.old.formula.vars) a.now }
    ensures row { let row = λ (x : Assignment). fit n (pos (unsigned_abs (value signed (row_of x a.now)))) in
        IfOk result (λ word. MeansRow gates.new row word.items) }
    ensures builds { Builds gates.old gates.new (4 * n) }
    ensures too_many { result ≡ Err GateFault.TooMany → IsFull gates.old gates.new (4 * n) }
{
    let sign = fill_of(gates, a, signed);
    let wide = extended(alloc, gates, a, signed, n)?;
    let word = turned_where(alloc, gates, &wide, sign)?;
    Ok(word)
}

// The quotient of the sizes of two numbers at a width, and what is left.
fn sizes_divided(
    alloc: Global,
    gates: &mut Gates,
    a: &[Lit],
    b: &[Lit],
    signed: bool,
    n: usize,
) -> Result<(Vec<Lit>, Vec<Lit>), GateFault>
    requires a { All (LitWithin gates.old.formula.vars) a.now }
    requires b { All (LitWithin gates.old.formula.vars) b.now }
    requires a_wide { length a.now ≤ n }
    requires b_wide { length b.now ≤ n }
    ensures quotient { let row = λ (x : Assignment). fit n (quotient (pos (unsigned_abs (value signed (row_of x a.now)))) (pos (unsigned_abs (value signed (row_of x b.now))))) in
        IfOk result (λ r. MeansRow gates.new row r.0.items) }
    ensures rest { let row = λ (x : Assignment). fit n (remainder (pos (unsigned_abs (value signed (row_of x a.now)))) (pos (unsigned_abs (value signed (row_of x b.now))))) in
        IfOk result (λ r. MeansRow gates.new row r.1.items) }
    ensures builds { Builds gates.old gates.new (8 * n + divided_gates n) }
    ensures too_many { result ≡ Err GateFault.TooMany → IsFull gates.old gates.new (8 * n + divided_gates n) }
{
    let size_a = size(alloc, gates, a, signed, n)?;
    let size_b = size(alloc, gates, b, signed, n)?;
    let (bits, rest) = divided(alloc, gates, &size_a, &size_b)?;
    Ok((bits, rest))
}

// Exactly one of two literals.
fn differ(gates: &mut Gates, a: Lit, b: Lit) -> Result<Lit, GateFault>
    requires a { LitWithin gates.old.formula.vars a }
    requires b { LitWithin gates.old.formula.vars b }
    ensures bit { IfOk result (MeansBit gates.new (λ x. either_one (lit_in x a) (lit_in x b))) }
    ensures builds { Builds gates.old gates.new 1 }
    ensures too_many { result ≡ Err GateFault.TooMany → IsFull gates.old gates.new 1 }
{
    let lit = chain(gates, &BitOp::Xor, a, &[b])?;
    Ok(lit)
}

// The quotient's row where exactly one of the signs is set turned, else as it is.
fn quotient_signed(
    alloc: Global,
    gates: &mut Gates,
    bits: &[Lit],
    a: Lit,
    b: Lit,
) -> Result<Vec<Lit>, GateFault>
    requires bits { All (LitWithin gates.old.formula.vars) bits.now }
    requires a { LitWithin gates.old.formula.vars a }
    requires b { LitWithin gates.old.formula.vars b }
    ensures row { let row = λ (x : Assignment). cond (either_one (lit_in x a) (lit_in x b)) (fit (length bits.now) (pos 0 -ℤ pos (num (row_of x bits.now)))) (row_of x bits.now) in
        IfOk result (λ word. MeansRow gates.new row word.items) }
    ensures builds { Builds gates.old gates.new (4 * length bits.now + 1) }
    ensures too_many { result ≡ Err GateFault.TooMany → IsFull gates.old gates.new (4 * length bits.now + 1) }
{
    let sign = differ(gates, a, b)?;
    let word = turned_where(alloc, gates, bits, sign)?;
    Ok(word)
}

// The quotient of two numbers at a width that is at least theirs.
fn quotient_wide(
    alloc: Global,
    gates: &mut Gates,
    a: &[Lit],
    b: &[Lit],
    signed: bool,
    n: usize,
) -> Result<Vec<Lit>, GateFault>
    requires a { All (LitWithin gates.old.formula.vars) a.now }
    requires b { All (LitWithin gates.old.formula.vars) b.now }
    requires a_wide { length a.now ≤ n }
    requires b_wide { length b.now ≤ n }
    ensures row { let row = λ (x : Assignment). fit n (quotient (value signed (row_of x a.now)) (value signed (row_of x b.now))) in
        IfOk result (λ word. MeansRow gates.new row word.items) }
    ensures builds { Builds gates.old gates.new (12 * n + 1 + divided_gates n) }
    ensures too_many { result ≡ Err GateFault.TooMany → IsFull gates.old gates.new (12 * n + 1 + divided_gates n) }
{
    let sign_a = fill_of(gates, a, signed);
    let sign_b = fill_of(gates, b, signed);
    let (bits, _) = sizes_divided(alloc, gates, a, b, signed, n)?;
    let word = quotient_signed(alloc, gates, &bits, sign_a, sign_b)?;
    Ok(word)
}

// What is left of the first.
fn remainder_wide(
    alloc: Global,
    gates: &mut Gates,
    a: &[Lit],
    b: &[Lit],
    signed: bool,
    n: usize,
) -> Result<Vec<Lit>, GateFault>
    requires a { All (LitWithin gates.old.formula.vars) a.now }
    requires b { All (LitWithin gates.old.formula.vars) b.now }
    requires a_wide { length a.now ≤ n }
    requires b_wide { length b.now ≤ n }
    ensures row { let row = λ (x : Assignment). fit n (remainder (value signed (row_of x a.now)) (value signed (row_of x b.now))) in
        IfOk result (λ word. MeansRow gates.new row word.items) }
    ensures builds { Builds gates.old gates.new (12 * n + 1 + divided_gates n) }
    ensures too_many { result ≡ Err GateFault.TooMany → IsFull gates.old gates.new (12 * n + 1 + divided_gates n) }
{
    let sign = fill_of(gates, a, signed);
    let (_, rest) = sizes_divided(alloc, gates, a, b, signed, n)?;
    let word = turned_where(alloc, gates, &rest, sign)?;
    Ok(word)
}

// Either of them.
fn divided_wide(
    alloc: Global,
    gates: &mut Gates,
    kind: Divide,
    a: &[Lit],
    b: &[Lit],
    signed: bool,
    n: usize,
) -> Result<Vec<Lit>, GateFault>
    requires a { All (LitWithin gates.old.formula.vars) a.now }
    requires b { All (LitWithin gates.old.formula.vars) b.now }
    requires a_wide { length a.now ≤ n }
    requires b_wide { length b.now ≤ n }
    ensures row { let row = λ (x : Assignment). divide_fn kind n (value signed (row_of x a.now)) (value signed (row_of x b.now)) in
        IfOk result (λ word. MeansRow gates.new row word.items) }
    ensures builds { Builds gates.old gates.new (12 * n + 1 + divided_gates n) }
    ensures too_many { result ≡ Err GateFault.TooMany → IsFull gates.old gates.new (12 * n + 1 + divided_gates n) }
{
    match kind {
        Divide::Div => quotient_wide(alloc, gates, a, b, signed, n),
        Divide::Mod => remainder_wide(alloc, gates, a, b, signed, n),
    }
}

/// `$div` and `$mod` at the largest of the operands' widths and `y`, by the operands' signs where `signed`, then at width `y`: towards zero,
/// what is left having the sign of `a`. Over zero the quotient is -1 where `a` is at least 0, else 1, and `a` is left.
pub fn divide(
    alloc: Global,
    gates: &mut Gates,
    kind: Divide,
    a: &[Lit],
    b: &[Lit],
    signed: bool,
    y: u32,
) -> Result<Vec<Lit>, GateFault>
    requires a { All (LitWithin gates.old.formula.vars) a.now }
    requires b { All (LitWithin gates.old.formula.vars) b.now }
    requires some_a { 1 ≤ length a.now }
    requires some_y { 1 ≤ y }
    ensures row { let row = λ (x : Assignment). divide_fn kind y (value signed (row_of x a.now)) (value signed (row_of x b.now)) in
        IfOk result (λ word. MeansRow gates.new row word.items) }
    ensures builds { Builds gates.old gates.new (square (length a.now + length b.now + y)) }
    ensures too_many { result ≡ Err GateFault.TooMany → IsFull gates.old gates.new (square (length a.now + length b.now + y)) }
{
    let n = a.len().max(b.len()).max(y as usize);
    let wide = divided_wide(alloc, gates, kind, a, b, signed, n)?;
    let word = extended(alloc, gates, &wide, false, y as usize)?;
    Ok(word)
}
