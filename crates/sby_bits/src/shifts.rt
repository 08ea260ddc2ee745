// Shifts by the number of a row, of any size.

ghost use Rattle.std.specs.Prelude.{◌≡◌, ◌^◌, ◌-◌, length, min, map, not, if◌then◌else◌};
ghost use Rattle.sby_bits.specs.Rows.{num};
ghost use Rattle.sby_bits.specs.Words.{any_shift_row, left_shift_row, right_shift_row};

use crate::parts::{copy_down, copy_up, top_bit};

/// Fills `y` with `a` moved up by the number of `by`, zeros coming in.
pub fn shift_left(a: &[bool], by: &[bool], y: &mut [bool])
    ensures { y.new ≡ left_shift_row a.now by.now (length y.old) }
{
    copy_up(a, places(by, false), y);
}

/// Fills `y` with `a` moved down by the number of `by`, `fill` coming in at its end.
pub fn shift_right(a: &[bool], by: &[bool], fill: bool, y: &mut [bool])
    ensures { y.new ≡ right_shift_row a.now by.now fill (length y.old) }
{
    copy_down(a, places(by, false), fill, y);
}

/// Fills `y` with `a` moved down by the number of `by`, in two's complement where `by_signed`, or up where that is
/// below zero. Zeros come in from both sides.
pub fn shift_any(a: &[bool], by: &[bool], by_signed: bool, y: &mut [bool])
    ensures { y.new ≡ any_shift_row a.now by.now by_signed (length y.old) }
{
    if by_signed && top_bit(by) {
        copy_up(a, places(by, true).saturating_add(1), y);
    } else {
        copy_down(a, places(by, false), false, y);
    }
}

// The number of a row, or of its bits turned, where that is less than `usize::MAX`, else that.
fn places(by: &[bool], turned: bool) -> usize
    ensures { result ≡ min (num (if turned then map not by.now else by.now)) (2 ^ 64 - 1) }
{
    let mut places = 0usize;
    for (i, bit) in by.iter().enumerate() {
        if *bit != turned {
            places = if i < 64 {
                places.saturating_add(1 << i)
            } else {
                usize::MAX
            };
        }
    }
    places
}
