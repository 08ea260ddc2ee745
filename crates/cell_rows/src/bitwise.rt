// Cells that go bit by bit, and sums and products.

ghost use Rattle.std.specs.Prelude.{◌≡◌, ◌&&◌, ◌-ℤ◌, length, negsuc, slice_index_or};
ghost use Rattle.sby_bits.specs.Rows.{ext, fit, top_bit, value};
ghost use Rattle.cell_table.specs.Cells.{binary_fn, bitwise, unary_fn};
ghost use Rattle.cell_rows.specs.Bits.{IsBitwise, bit_fn};
ghost use Rattle.cell_rows.specs.Limits.{ServesBinary, ServesUnary};

use crate::arithmetic::{difference, opposite, product, sum};
use cell_table::kind::{Binary, Unary};
use sby_bits::extend;

// What stands above an operand's bits.
pub(crate) fn fill_of(a: &[bool], signed: bool) -> bool
    ensures { result ≡ (signed && top_bit a.now) }
{
    match a {
        [] => false,
        [.., last] => signed && *last,
    }
}

// The operand's bit at a place.
pub(crate) fn bit_at(a: &[bool], place: usize, fill: bool) -> bool
    ensures { result ≡ slice_index_or a.now place fill }
{
    a.get(place).copied().unwrap_or(fill)
}

// All bits of the operand, negated.
fn complement(a: &[bool], signed: bool, y: &mut [bool])
    ensures { y.new ≡ fit (length y.old) (negsuc 0 -ℤ value signed a.now) }
{
    let fill = fill_of(a, signed);
    for (i, bit) in y.iter_mut().enumerate() {
        *bit = !bit_at(a, i, fill);
    }
}

/// `$not`, `$pos` and `$neg`, by the sign of `a` where `signed`.
pub fn unary(kind: Unary, a: &[bool], signed: bool, y: &mut [bool])
    requires { ServesUnary kind (length y.old) }
    ensures { y.new ≡ unary_fn kind (length y.old) (value signed a.now) }
{
    match kind {
        Unary::Not => complement(a, signed, y),
        Unary::Pos => extend(a, signed, y),
        Unary::Neg => opposite(a, signed, y),
    }
}

// One bit of a cell that goes bit by bit.
fn bit_of(kind: Binary, a: bool, b: bool) -> bool
    requires { IsBitwise kind }
    ensures { result ≡ bit_fn kind a b }
{
    match kind {
        Binary::And => a && b,
        Binary::Or => a || b,
        Binary::Xor => a != b,
        Binary::Xnor => a == b,
        Binary::Add | Binary::Sub | Binary::Mul => unreachable!(),
    }
}

// Both operands at the width of `y`, bit by bit.
fn bits(kind: Binary, a: &[bool], b: &[bool], signed: bool, y: &mut [bool])
    requires { IsBitwise kind }
    ensures { y.new ≡ bitwise (bit_fn kind) (ext a.now signed (length y.old)) (ext b.now signed (length y.old)) }
{
    let fill_a = fill_of(a, signed);
    let fill_b = fill_of(b, signed);
    for (i, bit) in y.iter_mut().enumerate() {
        *bit = bit_of(kind, bit_at(a, i, fill_a), bit_at(b, i, fill_b));
    }
}

/// `$and`, `$or`, `$xor`, `$xnor`, `$add`, `$sub` and `$mul`, both operands by their signs where `signed`.
pub fn binary(kind: Binary, a: &[bool], b: &[bool], signed: bool, y: &mut [bool])
    requires { ServesBinary kind (length y.old) }
    ensures { y.new ≡ binary_fn kind (length y.old) (value signed a.now) (value signed b.now) }
{
    match kind {
        Binary::And | Binary::Or | Binary::Xor | Binary::Xnor => bits(kind, a, b, signed, y),
        Binary::Add => sum(a, b, signed, y),
        Binary::Sub => difference(a, b, signed, y),
        Binary::Mul => product(a, b, signed, y),
    }
}
