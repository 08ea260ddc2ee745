// Arithmetic on rows of at most 128 bits, modulo the length of the result.

ghost use Rattle.std.specs.Prelude.{◌≡◌, ◌^◌, ◌≤◌, length, pos};
ghost use Rattle.sby_bits.specs.Rows.{fit, num, residue, snum, value};
ghost use Rattle.sby_bits.specs.Words.{
  difference_row,
  product_row,
  quotient,
  quotient_row,
  remainder,
  remainder_row,
  sum_row,
};

use crate::parts::top_bit;

/// Fills `y` with `a` plus `b`.
pub fn add(a: &[bool], b: &[bool], y: &mut [bool])
    requires a_in { length a.now ≤ 128 }
    requires b_in { length b.now ≤ 128 }
    requires y_in { length y.old ≤ 128 }
    ensures { y.new ≡ sum_row a.now b.now (length y.old) }
{
    write(number(a).wrapping_add(number(b)), y);
}

/// Fills `y` with `a` less `b`.
pub fn sub(a: &[bool], b: &[bool], y: &mut [bool])
    requires a_in { length a.now ≤ 128 }
    requires b_in { length b.now ≤ 128 }
    requires y_in { length y.old ≤ 128 }
    ensures { y.new ≡ difference_row a.now b.now (length y.old) }
{
    write(number(a).wrapping_sub(number(b)), y);
}

/// Fills `y` with `a` times `b`.
pub fn mul(a: &[bool], b: &[bool], y: &mut [bool])
    requires a_in { length a.now ≤ 128 }
    requires b_in { length b.now ≤ 128 }
    requires y_in { length y.old ≤ 128 }
    ensures { y.new ≡ product_row a.now b.now (length y.old) }
{
    write(number(a).wrapping_mul(number(b)), y);
}

/// Fills `y` with `a` over `b`, rounded towards zero, both in two's complement where `signed`.
/// Over zero it is -1, all ones, where `a` is at least 0, else 1.
pub fn div(a: &[bool], b: &[bool], signed: bool, y: &mut [bool])
    requires a_in { length a.now ≤ 128 }
    requires b_in { length b.now ≤ 128 }
    requires y_in { length y.old ≤ 128 }
    ensures { y.new ≡ quotient_row a.now b.now signed (length y.old) }
{
    let quotient = if signed {
        signed_quotient(signed_number(a), signed_number(b))
    } else {
        unsigned_quotient(number(a), number(b))
    };
    write(quotient, y);
}

/// Fills `y` with what `div` leaves of `a`, with the sign of `a`. Over zero it is `a`.
pub fn rem(a: &[bool], b: &[bool], signed: bool, y: &mut [bool])
    requires a_in { length a.now ≤ 128 }
    requires b_in { length b.now ≤ 128 }
    requires y_in { length y.old ≤ 128 }
    ensures { y.new ≡ remainder_row a.now b.now signed (length y.old) }
{
    let remainder = if signed {
        signed_remainder(signed_number(a), signed_number(b))
    } else {
        unsigned_remainder(number(a), number(b))
    };
    write(remainder, y);
}

// The quotient's lowest 128 bits.
fn signed_quotient(a: i128, b: i128) -> u128
    ensures { result ≡ residue (quotient a b) (2 ^ 128) }
{
    if b != 0 {
        a.wrapping_div(b).cast_unsigned()
    } else if a < 0 {
        1
    } else {
        u128::MAX
    }
}

fn unsigned_quotient(a: u128, b: u128) -> u128
    ensures { result ≡ residue (quotient (pos a) (pos b)) (2 ^ 128) }
{
    if b != 0 { a / b } else { u128::MAX }
}

// The remainder's lowest 128 bits.
fn signed_remainder(a: i128, b: i128) -> u128
    ensures { result ≡ residue (remainder a b) (2 ^ 128) }
{
    let remainder = if b != 0 { a.wrapping_rem(b) } else { a };
    remainder.cast_unsigned()
}

fn unsigned_remainder(a: u128, b: u128) -> u128
    ensures { result ≡ residue (remainder (pos a) (pos b)) (2 ^ 128) }
{
    if b != 0 { a % b } else { a }
}

fn number(a: &[bool]) -> u128
    requires { length a.now ≤ 128 }
    ensures { result ≡ num a.now }
{
    let mut n = 0u128;
    for (i, bit) in a.iter().enumerate() {
        if *bit {
            n += 1 << i;
        }
    }
    n
}

fn signed_number(a: &[bool]) -> i128
    requires { length a.now ≤ 128 }
    ensures { result ≡ snum a.now }
{
    let n = number(a);
    if !top_bit(a) {
        return n as i128;
    }
    let ones = u128::MAX >> (128 - a.len());
    -1 - (ones - n) as i128
}

// The lowest bits of `n`.
fn write(n: u128, y: &mut [bool])
    requires { length y.old ≤ 128 }
    ensures { y.new ≡ fit (length y.old) (pos n) }
{
    for (i, bit) in y.iter_mut().enumerate() {
        *bit = (n >> i) % 2 == 1;
    }
}
