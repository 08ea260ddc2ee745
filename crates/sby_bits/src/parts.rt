// Rows cut, extended and joined.

ghost use Rattle.std.specs.Prelude.{◌≡◌, ◌+◌, ◌*◌, ◌^◌, ◌≤◌, ◌++◌, take, drop, length, pos};
ghost use Rattle.std.specs.Int.{int_div_euclid};
ghost use Rattle.sby_bits.specs.Rows.{ext, fit, num, top_bit};
ghost use Rattle.sby_bits.specs.Words.{concat_row, filled_number, slice_row};

/// Fills `y` with `a` at the length of `y`: cut, or extended by its last bit where `signed`, else by zeros.
pub fn extend(a: &[bool], signed: bool, y: &mut [bool])
    ensures { y.new ≡ ext a.now signed (length y.old) }
{
    copy_down(a, 0, signed && top_bit(a), y);
}

/// Fills `y` with `a` and, above it, `b`, cut to the length of `y` or extended by zeros.
pub fn concat(a: &[bool], b: &[bool], y: &mut [bool])
    ensures value { y.new ≡ concat_row a.now b.now (length y.old) }
    ensures whole { length y.old ≡ length a.now + length b.now → y.new ≡ a.now ++ b.now }
{
    for (i, bit) in y.iter_mut().enumerate() {
        *bit = if i < a.len() {
            a[i]
        } else {
            b.get(i - a.len()).copied().unwrap_or(false)
        };
    }
}

/// Fills `y` with the bits of `a` from place `offset` on, and zeros past its end.
pub fn slice(a: &[bool], offset: usize, y: &mut [bool])
    ensures value { y.new ≡ slice_row a.now offset (length y.old) }
    ensures inside { offset + length y.old ≤ length a.now → y.new ≡ take (length y.old) (drop offset a.now) }
{
    copy_down(a, offset, false, y);
}

// The sign of a row: its last bit, or false where it has none.
pub(crate) fn top_bit(a: &[bool]) -> bool
    ensures { result ≡ top_bit a.now }
{
    match a {
        [] => false,
        [.., last] => *last,
    }
}

// The bits of `a` from a place on, and `fill` past its end.
pub(crate) fn copy_down(a: &[bool], places: usize, fill: bool, y: &mut [bool])
    ensures { y.new ≡ fit (length y.old) (int_div_euclid (filled_number a.now fill) (pos (2 ^ places))) }
{
    for (i, bit) in y.iter_mut().enumerate() {
        *bit = a.get(i.saturating_add(places)).copied().unwrap_or(fill);
    }
}

// The bits of `a` above some zeros.
pub(crate) fn copy_up(a: &[bool], places: usize, y: &mut [bool])
    ensures { y.new ≡ fit (length y.old) (pos (num a.now * 2 ^ places)) }
{
    for (i, bit) in y.iter_mut().enumerate() {
        *bit = if i < places {
            false
        } else {
            a.get(i - places).copied().unwrap_or(false)
        };
    }
}
