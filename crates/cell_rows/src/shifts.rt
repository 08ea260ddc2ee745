// Rows that are moved by the number of another row.

ghost use Rattle.std.specs.Prelude.{◌≡◌, length, max};
ghost use Rattle.sby_bits.specs.Rows.{num, value};
ghost use Rattle.cell_table.specs.Cells.{any_shift_fn, left_shift_fn, right_shift_fn, sign_shift_fn};
ghost use Rattle.cell_rows.specs.Limits.{IsNarrow};

use crate::arithmetic::MOST;
use crate::bitwise::fill_of;
use sby_bits::extend;

/// `$shl` and `$sshl`: up by the number of `by`, zeros coming in.
pub fn shift_left(a: &[bool], signed: bool, by: &[bool], y: &mut [bool])
    requires { IsNarrow (length y.old) }
    ensures { y.new ≡ left_shift_fn (length y.old) (value signed a.now) (num by.now) }
{
    let mut row = [false; MOST];
    let wide = &mut row[..y.len()];
    extend(a, signed, wide);
    sby_bits::shift_left(wide, by, y);
}

/// `$shr`: the operand, at the larger of its width and that of `y`, down by the number of `by`, zeros coming in.
pub fn shift_right(a: &[bool], signed: bool, by: &[bool], y: &mut [bool])
    requires { IsNarrow (max (length a.now) (length y.old)) }
    ensures { y.new ≡ right_shift_fn (length y.old) (max (length a.now) (length y.old)) (value signed a.now) (num by.now) }
{
    let mut row = [false; MOST];
    let wide = &mut row[..a.len().max(y.len())];
    extend(a, signed, wide);
    sby_bits::shift_right(wide, by, false, y);
}

/// `$sshr`: down by the number of `by`, the sign coming in where `signed`.
pub fn shift_sign(a: &[bool], signed: bool, by: &[bool], y: &mut [bool])
    ensures { y.new ≡ sign_shift_fn (length y.old) (value signed a.now) (num by.now) }
{
    sby_bits::shift_right(a, by, fill_of(a, signed), y);
}

/// `$shift` and `$shiftx`: the operand, at the larger of its width and that of `y`, down by the number of `by`, or up where that is
/// below zero; zeros come in.
pub fn shift_any(a: &[bool], signed: bool, by: &[bool], by_signed: bool, y: &mut [bool])
    requires { IsNarrow (max (length a.now) (length y.old)) }
    ensures { y.new ≡ any_shift_fn (length y.old) (max (length a.now) (length y.old)) (value signed a.now) (value by_signed by.now) }
{
    let mut row = [false; MOST];
    let wide = &mut row[..a.len().max(y.len())];
    extend(a, signed, wide);
    sby_bits::shift_any(wide, by, by_signed, y);
}
