// What one bit says of a row or of two.

ghost use Rattle.std.specs.Prelude.{◌≡◌, length, nat_lt};
ghost use Rattle.sby_bits.specs.Rows.{num};
ghost use Rattle.sby_bits.specs.Words.{every_bit, is_equal, is_less, odd_bits, some_bit};

use crate::parts::top_bit;

/// Whether `a` is below `b`, which has its length, both in two's complement where `signed`.
pub fn less(a: &[bool], b: &[bool], signed: bool) -> bool
    requires { length a.now ≡ length b.now }
    ensures { result ≡ is_less a.now b.now signed }
{
    if signed && top_bit(a) != top_bit(b) {
        top_bit(a)
    } else {
        below(a, b)
    }
}

fn below(a: &[bool], b: &[bool]) -> bool
    requires { length a.now ≡ length b.now }
    ensures { result ≡ nat_lt (num a.now) (num b.now) }
{
    let mut below = false;
    for (i, bit) in a.iter().enumerate() {
        if *bit != b[i] {
            below = b[i];
        }
    }
    below
}

/// Whether `a` and `b`, of one length, are the same row.
pub fn equal(a: &[bool], b: &[bool]) -> bool
    requires { length a.now ≡ length b.now }
    ensures { result ≡ is_equal a.now b.now }
{
    a == b
}

/// Whether every bit is set.
pub fn reduce_and(a: &[bool]) -> bool
    ensures { result ≡ every_bit a.now }
{
    !a.contains(&false)
}

/// Whether some bit is set.
pub fn reduce_or(a: &[bool]) -> bool
    ensures { result ≡ some_bit a.now }
{
    a.contains(&true)
}

/// Whether an odd number of bits is set.
pub fn reduce_xor(a: &[bool]) -> bool
    ensures { result ≡ odd_bits a.now }
{
    a.iter().filter(|bit| **bit).count() % 2 == 1
}
