// Cells that give one bit.

ghost use Rattle.std.specs.Prelude.{◌≡◌, Bool, length, max};
ghost use Rattle.sby_bits.specs.Rows.{fit, num, value};
ghost use Rattle.sby_bits.specs.Words.{is_less};
ghost use Rattle.std.specs.Prelude.{eqb, int_lt};
ghost use Rattle.cell_table.specs.Cells.{bit_row, is_compared, is_logic, is_reduced};
ghost use Rattle.cell_rows.specs.Limits.{IsNarrow, ServesCompare};

use crate::arithmetic::MOST;
use crate::bitwise::{bit_at, fill_of};
use cell_table::kind::{Compare, Logic, Reduce};
use sby_bits::{extend, less, reduce_and, reduce_or, reduce_xor};

/// A bit, and zeros above it.
pub fn flag(bit: bool, y: &mut [bool])
    ensures { y.new ≡ bit_row (length y.old) bit }
{
    extend(&[bit], false, y);
}

/// `$reduce_and`, `$reduce_or`, `$reduce_xor`, `$reduce_xnor`, `$reduce_bool` and `$logic_not`.
pub fn reduce(kind: Reduce, a: &[bool]) -> bool
    ensures { result ≡ is_reduced kind a.now }
{
    match kind {
        Reduce::And => reduce_and(a),
        Reduce::Or | Reduce::Bool => reduce_or(a),
        Reduce::Xor => reduce_xor(a),
        Reduce::Xnor => !reduce_xor(a),
        Reduce::Not => !reduce_or(a),
    }
}

/// `$logic_and` and `$logic_or`.
pub fn logic(kind: Logic, a: &[bool], b: &[bool]) -> bool
    ensures { result ≡ is_logic kind a.now b.now }
{
    match kind {
        Logic::And => reduce_or(a) && reduce_or(b),
        Logic::Or => reduce_or(a) || reduce_or(b),
    }
}

// Whether both operands are one row at the larger width.
fn is_same(a: &[bool], b: &[bool], signed: bool) -> bool
    ensures { let w = max (length a.now) (length b.now) in
        result ≡ eqb (num (fit w (value signed a.now))) (num (fit w (value signed b.now))) }
{
    let fill_a = fill_of(a, signed);
    let fill_b = fill_of(b, signed);
    for i in 0..a.len().max(b.len()) {
        if bit_at(a, i, fill_a) != bit_at(b, i, fill_b) {
            return false;
        }
    }
    true
}

// Whether the first operand is below the second.
fn is_below(a: &[bool], b: &[bool], signed: bool) -> bool
    requires { IsNarrow (max (length a.now) (length b.now)) }
    ensures { result ≡ int_lt (value signed a.now) (value signed b.now) }
{
    let width = a.len().max(b.len());
    let mut left = [false; MOST];
    let mut right = [false; MOST];
    let (a_row, b_row) = (&mut left[..width], &mut right[..width]);
    extend(a, signed, a_row);
    extend(b, signed, b_row);
    less(a_row, b_row, signed)
}

/// `$eq`, `$ne`, `$eqx`, `$nex`, `$lt`, `$le`, `$gt` and `$ge`, both operands by their signs where `signed`.
pub fn compare(kind: Compare, a: &[bool], b: &[bool], signed: bool) -> bool
    requires { ServesCompare kind (max (length a.now) (length b.now)) }
    ensures { result ≡ is_compared kind (max (length a.now) (length b.now)) (value signed a.now) (value signed b.now) }
{
    match kind {
        Compare::Eq | Compare::Eqx => is_same(a, b, signed),
        Compare::Ne | Compare::Nex => !is_same(a, b, signed),
        Compare::Lt => is_below(a, b, signed),
        Compare::Le => !is_below(b, a, signed),
        Compare::Gt => is_below(b, a, signed),
        Compare::Ge => !is_below(a, b, signed),
    }
}
