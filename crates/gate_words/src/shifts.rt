// Rows that are moved by the number of another row.

ghost use Rattle.std.specs.Prelude.{◌≡◌, ◌+◌, ◌*◌, ◌<◌, ◌≤◌, ◌^◌, ℕ, All, length, max, take, IfOk, pos};
ghost use Rattle.cnf_form.specs.Cnf.{Assignment, LitWithin, lit_in};
ghost use Rattle.sby_bits.specs.Rows.{fit, num, snum, value};
ghost use Rattle.sby_bits.specs.Words.{moved_number};
ghost use Rattle.cell_table.specs.Cells.{any_shift_fn, left_shift_fn, mux_fn, right_shift_fn, sign_shift_fn};
ghost use Rattle.gate_words.specs.Words.{Builds, IsFull, MeansRow, moved_row, row_of, square, way_lits};

use crate::choices::{copied, mux};
use crate::predicates::any;
use cnf_form::Lit;
use gate_graph::{GateFault, Gates};
use gate_rows::{extended, fill_of, moved_down, moved_up, negated};
use std::alloc::{AllocError, Global};

/// Which way a row is moved: up over zeros, or down, the literal coming in.
#[derive(Clone, Copy, Debug, PartialEq, Eq)]
pub(crate) enum Way {
    Up,
    Down(Lit),
}

// Two to the power `k`.
fn power(k: usize) -> usize
    requires { k < 63 }
    ensures { result ≡ 2 ^ k }
{
    1 << k
}

// The number of bits of an amount that matter for a row of `n` bits: the least whose power of two is at least `n`, or all.
fn stages(n: usize, bits: usize) -> usize
    requires { n < 2 ^ 62 }
    ensures some { result ≤ bits }
    ensures few { result ≤ 62 }
    ensures places { (k : ℕ) → k < result → 2 ^ k < n }
    ensures enough { result < bits → n ≤ 2 ^ result }
{
    let most = bits.min(62);
    for k in 0..most {
        if n <= power(k) {
            return k;
        }
    }
    most
}

// The row moved by a fixed number of places.
fn moved(
    alloc: Global,
    gates: &Gates,
    way: &Way,
    a: &[Lit],
    places: usize,
) -> Result<Vec<Lit>, AllocError>
    requires way { All (LitWithin gates.now.formula.vars) (way_lits way.now) }
    requires a { All (LitWithin gates.now.formula.vars) a.now }
    requires places { places + length a.now < 2 ^ 64 }
    ensures { IfOk result (λ word. MeansRow gates.now (λ x. moved_row way.now x (row_of x a.now) places) word.items) }
{
    match *way {
        Way::Up => {
            let word = moved_up(alloc, gates, a, places, a.len())?;
            Ok(word)
        }
        Way::Down(fill) => {
            let word = moved_down(alloc, gates, a, places, fill, a.len())?;
            Ok(word)
        }
    }
}

// The row moved by a fixed number of places where `bit` is true.
fn stage(
    alloc: Global,
    gates: &mut Gates,
    way: &Way,
    a: &[Lit],
    places: usize,
    bit: Lit,
) -> Result<Vec<Lit>, GateFault>
    requires way { All (LitWithin gates.old.formula.vars) (way_lits way.now) }
    requires a { All (LitWithin gates.old.formula.vars) a.now }
    requires bit { LitWithin gates.old.formula.vars bit }
    requires places { places + length a.now < 2 ^ 64 }
    ensures row { let row = λ (x : Assignment). mux_fn (row_of x a.now) (moved_row way.now x (row_of x a.now) places) (lit_in x bit) in
        IfOk result (λ word. MeansRow gates.new row word.items) }
    ensures builds { Builds gates.old gates.new (length a.now) }
    ensures too_many { result ≡ Err GateFault.TooMany → IsFull gates.old gates.new (length a.now) }
{
    let other = moved(alloc, gates, way, a, places)?;
    let word = mux(alloc, gates, a, &other, bit)?;
    Ok(word)
}

// The row moved by the number of the first `many` bits of `by`.
fn moved_low(
    alloc: Global,
    gates: &mut Gates,
    way: &Way,
    a: &[Lit],
    by: &[Lit],
    many: usize,
) -> Result<Vec<Lit>, GateFault>
    requires way { All (LitWithin gates.old.formula.vars) (way_lits way.now) }
    requires a { All (LitWithin gates.old.formula.vars) a.now }
    requires by { All (LitWithin gates.old.formula.vars) by.now }
    requires many { many ≤ length by.now }
    requires few { many ≤ 62 }
    requires places { (k : ℕ) → k < many → 2 ^ k < length a.now }
    ensures row { let row = λ (x : Assignment). moved_row way.now x (row_of x a.now) (num (take many (row_of x by.now))) in
        IfOk result (λ word. MeansRow gates.new row word.items) }
    ensures builds { Builds gates.old gates.new (length a.now * many) }
    ensures too_many { result ≡ Err GateFault.TooMany → IsFull gates.old gates.new (length a.now * many) }
{
    let mut word = copied(alloc, a)?;
    for k in 0..many {
        let bit = by[k];
        word = stage(alloc, gates, way, &word, power(k), bit)?;
    }
    Ok(word)
}

// The row moved by the number of `by`.
fn moved_by(
    alloc: Global,
    gates: &mut Gates,
    way: &Way,
    a: &[Lit],
    by: &[Lit],
) -> Result<Vec<Lit>, GateFault>
    requires way { All (LitWithin gates.old.formula.vars) (way_lits way.now) }
    requires a { All (LitWithin gates.old.formula.vars) a.now }
    requires by { All (LitWithin gates.old.formula.vars) by.now }
    ensures row { let row = λ (x : Assignment). moved_row way.now x (row_of x a.now) (num (row_of x by.now)) in
        IfOk result (λ word. MeansRow gates.new row word.items) }
    ensures builds { Builds gates.old gates.new (length a.now * length by.now + length by.now + length a.now) }
    ensures too_many { result ≡ Err GateFault.TooMany → IsFull gates.old gates.new (length a.now * length by.now + length by.now + length a.now) }
{
    let many = stages(a.len(), by.len());
    let word = moved_low(alloc, gates, way, a, by, many)?;
    let past = any(gates, &by[many..])?;
    let none = moved(alloc, gates, way, a, a.len())?;
    let word = mux(alloc, gates, &word, &none, past)?;
    Ok(word)
}

// The row at width `n`, moved by the number of `b`, at width `y`.
fn moved_wide(
    alloc: Global,
    gates: &mut Gates,
    way: &Way,
    a: &[Lit],
    b: &[Lit],
    signed: bool,
    n: usize,
    y: u32,
) -> Result<Vec<Lit>, GateFault>
    requires way { All (LitWithin gates.old.formula.vars) (way_lits way.now) }
    requires a { All (LitWithin gates.old.formula.vars) a.now }
    requires b { All (LitWithin gates.old.formula.vars) b.now }
    requires width { n ≤ length a.now + y }
    ensures row { let row = λ (x : Assignment). fit y (pos (num (moved_row way.now x (fit n (value signed (row_of x a.now))) (num (row_of x b.now))))) in
        IfOk result (λ word. MeansRow gates.new row word.items) }
    ensures builds { Builds gates.old gates.new (square (length a.now + length b.now + y)) }
    ensures too_many { result ≡ Err GateFault.TooMany → IsFull gates.old gates.new (square (length a.now + length b.now + y)) }
{
    let wide = extended(alloc, gates, a, signed, n)?;
    let moved = moved_by(alloc, gates, way, &wide, b)?;
    let word = extended(alloc, gates, &moved, false, y as usize)?;
    Ok(word)
}

/// `$shl` and `$sshl`: `a` at width `y`, by its sign where `signed`, times two to the number of `b`.
pub fn shift_left(
    alloc: Global,
    gates: &mut Gates,
    a: &[Lit],
    b: &[Lit],
    signed: bool,
    y: u32,
) -> Result<Vec<Lit>, GateFault>
    requires a { All (LitWithin gates.old.formula.vars) a.now }
    requires b { All (LitWithin gates.old.formula.vars) b.now }
    ensures row { let row = λ (x : Assignment). left_shift_fn y (value signed (row_of x a.now)) (num (row_of x b.now)) in
        IfOk result (λ word. MeansRow gates.new row word.items) }
    ensures builds { Builds gates.old gates.new (square (length a.now + length b.now + y)) }
    ensures too_many { result ≡ Err GateFault.TooMany → IsFull gates.old gates.new (square (length a.now + length b.now + y)) }
{
    let word = moved_wide(alloc, gates, &Way::Up, a, b, signed, y as usize, y)?;
    Ok(word)
}

/// `$shr`: `a` at the larger of its width and `y`, by its sign where `signed`, moved down by the number of `b`, zeros coming in.
pub fn shift_right(
    alloc: Global,
    gates: &mut Gates,
    a: &[Lit],
    b: &[Lit],
    signed: bool,
    y: u32,
) -> Result<Vec<Lit>, GateFault>
    requires a { All (LitWithin gates.old.formula.vars) a.now }
    requires b { All (LitWithin gates.old.formula.vars) b.now }
    ensures row { let row = λ (x : Assignment). right_shift_fn y (max (length a.now) y) (value signed (row_of x a.now)) (num (row_of x b.now)) in
        IfOk result (λ word. MeansRow gates.new row word.items) }
    ensures builds { Builds gates.old gates.new (square (length a.now + length b.now + y)) }
    ensures too_many { result ≡ Err GateFault.TooMany → IsFull gates.old gates.new (square (length a.now + length b.now + y)) }
{
    let way = Way::Down(gates.constant(false));
    let n = a.len().max(y as usize);
    let word = moved_wide(alloc, gates, &way, a, b, signed, n, y)?;
    Ok(word)
}

/// `$sshr`: the same, and the sign of `a` comes in where `signed`.
pub fn shift_sign(
    alloc: Global,
    gates: &mut Gates,
    a: &[Lit],
    b: &[Lit],
    signed: bool,
    y: u32,
) -> Result<Vec<Lit>, GateFault>
    requires a { All (LitWithin gates.old.formula.vars) a.now }
    requires b { All (LitWithin gates.old.formula.vars) b.now }
    ensures row { let row = λ (x : Assignment). sign_shift_fn y (value signed (row_of x a.now)) (num (row_of x b.now)) in
        IfOk result (λ word. MeansRow gates.new row word.items) }
    ensures builds { Builds gates.old gates.new (square (length a.now + length b.now + y)) }
    ensures too_many { result ≡ Err GateFault.TooMany → IsFull gates.old gates.new (square (length a.now + length b.now + y)) }
{
    let way = Way::Down(fill_of(gates, a, signed));
    let n = a.len().max(y as usize);
    let word = moved_wide(alloc, gates, &way, a, b, signed, n, y)?;
    Ok(word)
}

// The row moved down by the number of `b` in two's complement, or up where that is below zero: one place, then the bits that `b` lacks.
fn moved_signed(
    alloc: Global,
    gates: &mut Gates,
    a: &[Lit],
    b: &[Lit],
) -> Result<Vec<Lit>, GateFault>
    requires a { All (LitWithin gates.old.formula.vars) a.now }
    requires b { All (LitWithin gates.old.formula.vars) b.now }
    ensures row { let row = λ (x : Assignment). fit (length a.now) (pos (moved_number (num (row_of x a.now)) (snum (row_of x b.now)))) in
        IfOk result (λ word. MeansRow gates.new row word.items) }
    ensures builds { Builds gates.old gates.new (2 * (length a.now * length b.now + length b.now + length a.now) + length a.now) }
    ensures too_many { result ≡ Err GateFault.TooMany → IsFull gates.old gates.new (2 * (length a.now * length b.now + length b.now + length a.now) + length a.now) }
{
    let way = Way::Down(gates.constant(false));
    let sign = fill_of(gates, b, true);
    let turned = negated(alloc, gates, b)?;
    let once = moved_up(alloc, gates, a, 1, a.len())?;
    let up = moved_by(alloc, gates, &Way::Up, &once, &turned)?;
    let down = moved_by(alloc, gates, &way, a, b)?;
    let word = mux(alloc, gates, &down, &up, sign)?;
    Ok(word)
}

// Shifts down by `b`; up where it is `signed` and negative.
fn moved_any(
    alloc: Global,
    gates: &mut Gates,
    a: &[Lit],
    b: &[Lit],
    signed: bool,
) -> Result<Vec<Lit>, GateFault>
    requires a { All (LitWithin gates.old.formula.vars) a.now }
    requires b { All (LitWithin gates.old.formula.vars) b.now }
    ensures row { let row = λ (x : Assignment). fit (length a.now) (pos (moved_number (num (row_of x a.now)) (value signed (row_of x b.now)))) in
        IfOk result (λ word. MeansRow gates.new row word.items) }
    ensures builds { Builds gates.old gates.new (2 * (length a.now * length b.now + length b.now + length a.now) + length a.now) }
    ensures too_many { result ≡ Err GateFault.TooMany → IsFull gates.old gates.new (2 * (length a.now * length b.now + length b.now + length a.now) + length a.now) }
{
    if signed {
        return moved_signed(alloc, gates, a, b);
    }
    let way = Way::Down(gates.constant(false));
    let word = moved_by(alloc, gates, &way, a, b)?;
    Ok(word)
}

/// `$shift` and `$shiftx`: `a` at the larger of its width and `y`, by its sign where `a_signed`, moved down by the number of `b`, which has
/// a sign where `b_signed`: below zero it moves up. Zeros come in from both sides.
pub fn shift_any(
    alloc: Global,
    gates: &mut Gates,
    a: &[Lit],
    b: &[Lit],
    a_signed: bool,
    b_signed: bool,
    y: u32,
) -> Result<Vec<Lit>, GateFault>
    requires a { All (LitWithin gates.old.formula.vars) a.now }
    requires b { All (LitWithin gates.old.formula.vars) b.now }
    ensures row { let row = λ (x : Assignment). any_shift_fn y (max (length a.now) y) (value a_signed (row_of x a.now)) (value b_signed (row_of x b.now)) in
        IfOk result (λ word. MeansRow gates.new row word.items) }
    ensures builds { Builds gates.old gates.new (square (length a.now + length b.now + y)) }
    ensures too_many { result ≡ Err GateFault.TooMany → IsFull gates.old gates.new (square (length a.now + length b.now + y)) }
{
    let n = a.len().max(y as usize);
    let wide = extended(alloc, gates, a, a_signed, n)?;
    let moved = moved_any(alloc, gates, &wide, b, b_signed)?;
    let word = extended(alloc, gates, &moved, false, y as usize)?;
    Ok(word)
}
