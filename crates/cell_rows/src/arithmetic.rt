// Sums, products and divisions of rows of at most 128 bits.

ghost use Rattle.std.specs.Prelude.{◌≡◌, ◌+ℤ◌, ◌-ℤ◌, ◌*ℤ◌, length, pos};
ghost use Rattle.sby_bits.specs.Rows.{ext, fit, value};
ghost use Rattle.cell_table.specs.Cells.{divide_fn};
ghost use Rattle.cell_rows.specs.Limits.{IsNarrow};

use cell_table::kind::Divide;
use sby_bits::{add, div, extend, mul, rem, sub};

// The most bits of a row of numbers.
pub(crate) const MOST: usize = 128;

// 0 less the operand.
pub(crate) fn opposite(a: &[bool], signed: bool, y: &mut [bool])
    requires { IsNarrow (length y.old) }
    ensures { y.new ≡ fit (length y.old) (pos 0 -ℤ value signed a.now) }
{
    let mut row = [false; MOST];
    let wide = &mut row[..y.len()];
    extend(a, signed, wide);
    sub(&[], wide, y);
}

// The operands' sum.
pub(crate) fn sum(a: &[bool], b: &[bool], signed: bool, y: &mut [bool])
    requires { IsNarrow (length y.old) }
    ensures { y.new ≡ fit (length y.old) (value signed a.now +ℤ value signed b.now) }
{
    let mut left = [false; MOST];
    let mut right = [false; MOST];
    let (a_row, b_row) = (&mut left[..y.len()], &mut right[..y.len()]);
    extend(a, signed, a_row);
    extend(b, signed, b_row);
    add(a_row, b_row, y);
}

// The first operand less the second.
pub(crate) fn difference(a: &[bool], b: &[bool], signed: bool, y: &mut [bool])
    requires { IsNarrow (length y.old) }
    ensures { y.new ≡ fit (length y.old) (value signed a.now -ℤ value signed b.now) }
{
    let mut left = [false; MOST];
    let mut right = [false; MOST];
    let (a_row, b_row) = (&mut left[..y.len()], &mut right[..y.len()]);
    extend(a, signed, a_row);
    extend(b, signed, b_row);
    sub(a_row, b_row, y);
}

// The operands' product.
pub(crate) fn product(a: &[bool], b: &[bool], signed: bool, y: &mut [bool])
    requires { IsNarrow (length y.old) }
    ensures { y.new ≡ fit (length y.old) (value signed a.now *ℤ value signed b.now) }
{
    let mut left = [false; MOST];
    let mut right = [false; MOST];
    let (a_row, b_row) = (&mut left[..y.len()], &mut right[..y.len()]);
    extend(a, signed, a_row);
    extend(b, signed, b_row);
    mul(a_row, b_row, y);
}

/// `$div` and `$mod`, both operands by their signs where `signed`: towards zero, and over zero as the table says.
pub fn divide(kind: Divide, a: &[bool], b: &[bool], signed: bool, y: &mut [bool])
    requires a_narrow { IsNarrow (length a.now) }
    requires b_narrow { IsNarrow (length b.now) }
    requires y_narrow { IsNarrow (length y.old) }
    ensures { y.new ≡ divide_fn kind (length y.old) (value signed a.now) (value signed b.now) }
{
    match kind {
        Divide::Div => div(a, b, signed, y),
        Divide::Mod => rem(a, b, signed, y),
    }
}
