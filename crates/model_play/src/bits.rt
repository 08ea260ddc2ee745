// What nodes give: the row of any, and the bit of those that need no rows.

ghost use Rattle.std.specs.Prelude.{◌≡◌, Bool, Some, [], ◌∷◌, length};
ghost use Rattle.sby_bits.specs.Rows.{value};
ghost use Rattle.cell_table.specs.Cells.{binary_fn};
ghost use Rattle.model_core.specs.Meaning.{node_fn, row_at};
ghost use Rattle.model_core.specs.Served.{HasWidths};
ghost use Rattle.model_core.specs.Shape.{AreBelow};
ghost use Rattle.model_play.specs.Playing.{cycle_of};

use cell_rows::{
    binary, bmux, compare, concat, divide, flag, logic, mux, pmux, reduce, shift_any, shift_left,
    shift_right, shift_sign, slice, unary,
};
use cell_table::kind::{Binary, Unary};
use model_core::op::Op;

// Fills `y` with what a node gives of the rows at A, B and S.
pub fn node_row(op: Op, a: &[bool], b: &[bool], s: &[bool], y: &mut [bool])
    requires { HasWidths op (length a.now) (length b.now) (length s.now) (length y.old) }
    ensures { y.new ≡ node_fn op (length y.old) a.now b.now s.now }
{
    match op {
        Op::Copy => y.copy_from_slice(a),
        Op::Unary(kind, signed) => unary(kind, a, signed, y),
        Op::Binary(kind, signed) => binary(kind, a, b, signed, y),
        Op::Reduce(kind) => flag(reduce(kind, a), y),
        Op::Logic(kind) => flag(logic(kind, a, b), y),
        Op::Compare(kind, signed) => flag(compare(kind, a, b, signed), y),
        Op::ShiftLeft(signed) => shift_left(a, signed, b, y),
        Op::ShiftRight(signed) => shift_right(a, signed, b, y),
        Op::ShiftSign(signed) => shift_sign(a, signed, b, y),
        Op::ShiftAny(signed, by_signed) => shift_any(a, signed, b, by_signed, y),
        Op::Divide(kind, signed) => divide(kind, a, b, signed, y),
        Op::Mux => mux(a, b, s[0], y),
        Op::Pmux => pmux(a, b, s, y),
        Op::Bmux => bmux(a, s, y),
        Op::Slice(offset) => slice(a, offset as usize, y),
        Op::Concat => concat(a, b, y),
    }
}

// What a cell that goes bit by bit gives of two bits.
fn binary_bit(kind: Binary, a: bool, b: bool) -> Option<bool>
    ensures { (x signed : Bool) → result ≡ Some x → binary_fn kind 1 (value signed (a ∷ [])) (value signed (b ∷ [])) ≡ x ∷ [] }
{
    match kind {
        Binary::And => Some(a && b),
        Binary::Or => Some(a || b),
        Binary::Xor => Some(a != b),
        Binary::Xnor => Some(a == b),
        Binary::Add | Binary::Sub | Binary::Mul => None,
    }
}

// The bit of a node of one bit by the table, where that takes no rows.
pub fn node_bit(op: Op, a: &[u32], b: &[u32], s: &[u32], table: &[bool]) -> Option<bool>
    requires a { AreBelow (length table.now) a.now }
    requires b { AreBelow (length table.now) b.now }
    requires s { AreBelow (length table.now) s.now }
    requires widths { HasWidths op (length a.now) (length b.now) (length s.now) 1 }
    ensures { (x : Bool) → result ≡ Some x → node_fn op 1 (row_at (cycle_of table.now) a.now) (row_at (cycle_of table.now) b.now) (row_at (cycle_of table.now) s.now) ≡ x ∷ [] }
{
    match op {
        Op::Copy => Some(table[a[0] as usize]),
        Op::Unary(Unary::Not, _) if a.len() == 1 => Some(!table[a[0] as usize]),
        Op::Binary(kind, _) if a.len() == 1 && b.len() == 1 => {
            binary_bit(kind, table[a[0] as usize], table[b[0] as usize])
        }
        Op::Mux => {
            let chosen = if table[s[0] as usize] { b } else { a };
            Some(table[chosen[0] as usize])
        }
        _ => None,
    }
}
