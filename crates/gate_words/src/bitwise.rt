// Words bit by bit, and sums.

ghost use Rattle.std.specs.Prelude.{◌≡◌, ◌+◌, ◌*◌, All, length, map, not, IfOk, pos, negsuc, ◌-ℤ◌, ◌+ℤ◌};
ghost use Rattle.cnf_form.specs.Cnf.{Assignment, LitWithin};
ghost use Rattle.sby_bits.specs.Rows.{fit, num, value};
ghost use Rattle.cell_table.specs.Cells.{binary_fn, bitwise, unary_fn};
ghost use Rattle.gate_words.specs.Words.{Builds, IsFull, MeansRow, binary_gates, made, made_gates, row_of, unary_gates};
ghost use Rattle.gate_rows.specs.Sums.{op_bit, op_lits};

use cell_table::kind::{Binary, Unary};
use cnf_form::Lit;
use gate_graph::{GateFault, Gates};
use gate_rows::{BitOp, add, each, extended, mul, negated};
use std::alloc::{AllocError, Global};

// The difference of two rows of length `y`, modulo two to the `y`.
pub(crate) fn difference(
    alloc: Global,
    gates: &mut Gates,
    a: &[Lit],
    b: &[Lit],
) -> Result<Vec<Lit>, GateFault>
    requires a { All (LitWithin gates.old.formula.vars) a.now }
    requires b { All (LitWithin gates.old.formula.vars) b.now }
    requires as_many { length a.now ≡ length b.now }
    ensures row { let row = λ (x : Assignment). fit (length a.now) (pos (num (row_of x a.now)) -ℤ pos (num (row_of x b.now))) in
        IfOk result (λ word. MeansRow gates.new row word.items) }
    ensures builds { Builds gates.old gates.new (3 * length a.now) }
    ensures too_many { result ≡ Err GateFault.TooMany → IsFull gates.old gates.new (3 * length a.now) }
{
    let turned = negated(alloc, gates, b)?;
    let one = gates.constant(true);
    let (row, _) = add(alloc, gates, a, &turned, one)?;
    Ok(row)
}

// The sum of two rows of one length, modulo two to that length.
fn sum(alloc: Global, gates: &mut Gates, a: &[Lit], b: &[Lit]) -> Result<Vec<Lit>, GateFault>
    requires a { All (LitWithin gates.old.formula.vars) a.now }
    requires b { All (LitWithin gates.old.formula.vars) b.now }
    requires as_many { length a.now ≡ length b.now }
    ensures row { let row = λ (x : Assignment). fit (length a.now) (pos (num (row_of x a.now)) +ℤ pos (num (row_of x b.now))) in
        IfOk result (λ word. MeansRow gates.new row word.items) }
    ensures builds { Builds gates.old gates.new (3 * length a.now) }
    ensures too_many { result ≡ Err GateFault.TooMany → IsFull gates.old gates.new (3 * length a.now) }
{
    let zero = gates.constant(false);
    let (row, _) = add(alloc, gates, a, b, zero)?;
    Ok(row)
}

// All bits of the operand at width `y`, negated.
fn complement(
    alloc: Global,
    gates: &Gates,
    a: &[Lit],
    signed: bool,
    y: u32,
) -> Result<Vec<Lit>, AllocError>
    requires { All (LitWithin gates.now.formula.vars) a.now }
    ensures { let row = λ (x : Assignment). fit y (negsuc 0 -ℤ value signed (row_of x a.now)) in
        IfOk result (λ word. MeansRow gates.now row word.items) }
{
    let wide = extended(alloc, gates, a, signed, y as usize)?;
    let word = negated(alloc, gates, &wide)?;
    Ok(word)
}

// 0 less the operand at width `y`.
fn opposite(
    alloc: Global,
    gates: &mut Gates,
    a: &[Lit],
    signed: bool,
    y: u32,
) -> Result<Vec<Lit>, GateFault>
    requires { All (LitWithin gates.old.formula.vars) a.now }
    ensures row { let row = λ (x : Assignment). fit y (pos 0 -ℤ value signed (row_of x a.now)) in
        IfOk result (λ word. MeansRow gates.new row word.items) }
    ensures builds { Builds gates.old gates.new (3 * y) }
    ensures too_many { result ≡ Err GateFault.TooMany → IsFull gates.old gates.new (3 * y) }
{
    let wide = extended(alloc, gates, a, signed, y as usize)?;
    let zeros = extended(alloc, gates, &[], false, y as usize)?;
    let word = difference(alloc, gates, &zeros, &wide)?;
    Ok(word)
}

/// `$not`, `$pos` and `$neg` at width `y`, by the sign of `a` where `signed`. The first two make no gate.
pub fn unary(
    alloc: Global,
    gates: &mut Gates,
    kind: Unary,
    a: &[Lit],
    signed: bool,
    y: u32,
) -> Result<Vec<Lit>, GateFault>
    requires a { All (LitWithin gates.old.formula.vars) a.now }
    ensures row { let row = λ (x : Assignment). unary_fn kind y (value signed (row_of x a.now)) in
        IfOk result (λ word. MeansRow gates.new row word.items) }
    ensures builds { Builds gates.old gates.new (unary_gates kind y) }
    ensures too_many { result ≡ Err GateFault.TooMany → IsFull gates.old gates.new (unary_gates kind y) }
{
    match kind {
        Unary::Not => {
            let word = complement(alloc, gates, a, signed, y)?;
            Ok(word)
        }
        Unary::Pos => {
            let word = extended(alloc, gates, a, signed, y as usize)?;
            Ok(word)
        }
        Unary::Neg => opposite(alloc, gates, a, signed, y),
    }
}

// The operation on two rows of length `y`.
fn of_width(
    alloc: Global,
    gates: &mut Gates,
    kind: Binary,
    a: &[Lit],
    b: &[Lit],
    y: u32,
) -> Result<Vec<Lit>, GateFault>
    requires a { All (LitWithin gates.old.formula.vars) a.now }
    requires b { All (LitWithin gates.old.formula.vars) b.now }
    requires as_many { length a.now ≡ length b.now }
    requires long { length a.now ≡ y }
    ensures row { let row = λ (x : Assignment). made kind (length a.now) (row_of x a.now) (row_of x b.now) in
        IfOk result (λ word. MeansRow gates.new row word.items) }
    ensures builds { Builds gates.old gates.new (made_gates kind (length a.now)) }
    ensures too_many { result ≡ Err GateFault.TooMany → IsFull gates.old gates.new (made_gates kind (length a.now)) }
{
    match kind {
        Binary::And => bits(alloc, gates, &BitOp::And, a, b),
        Binary::Or => bits(alloc, gates, &BitOp::Or, a, b),
        Binary::Xor => bits(alloc, gates, &BitOp::Xor, a, b),
        Binary::Xnor => bits(alloc, gates, &BitOp::Xnor, a, b),
        Binary::Add => sum(alloc, gates, a, b),
        Binary::Sub => difference(alloc, gates, a, b),
        Binary::Mul => mul(alloc, gates, a, b, y),
    }
}

// The operation bit by bit.
#[tactic(auto, using(crate::proofs::Folding::builds_more, crate::proofs::Folding::full_more))]
fn bits(
    alloc: Global,
    gates: &mut Gates,
    op: &BitOp,
    a: &[Lit],
    b: &[Lit],
) -> Result<Vec<Lit>, GateFault>
    requires op { All (LitWithin gates.old.formula.vars) (op_lits op.now) }
    requires a { All (LitWithin gates.old.formula.vars) a.now }
    requires b { All (LitWithin gates.old.formula.vars) b.now }
    requires as_many { length a.now ≡ length b.now }
    ensures row { let row = λ (x : Assignment). bitwise (op_bit op.now x) (row_of x a.now) (row_of x b.now) in
        IfOk result (λ word. MeansRow gates.new row word.items) }
    ensures builds { Builds gates.old gates.new (3 * length a.now) }
    ensures too_many { result ≡ Err GateFault.TooMany → IsFull gates.old gates.new (3 * length a.now) }
{
    each(alloc, gates, op, a, b)
}

/// `$and`, `$or`, `$xor`, `$xnor`, `$add`, `$sub` and `$mul` at width `y`, both operands by their signs where `signed`.
pub fn binary(
    alloc: Global,
    gates: &mut Gates,
    kind: Binary,
    a: &[Lit],
    b: &[Lit],
    signed: bool,
    y: u32,
) -> Result<Vec<Lit>, GateFault>
    requires a { All (LitWithin gates.old.formula.vars) a.now }
    requires b { All (LitWithin gates.old.formula.vars) b.now }
    ensures row { let row = λ (x : Assignment). binary_fn kind y (value signed (row_of x a.now)) (value signed (row_of x b.now)) in
        IfOk result (λ word. MeansRow gates.new row word.items) }
    ensures builds { Builds gates.old gates.new (binary_gates kind (length a.now + length b.now + y)) }
    ensures too_many { result ≡ Err GateFault.TooMany → IsFull gates.old gates.new (binary_gates kind (length a.now + length b.now + y)) }
{
    let wide_a = extended(alloc, gates, a, signed, y as usize)?;
    let wide_b = extended(alloc, gates, b, signed, y as usize)?;
    let word = of_width(alloc, gates, kind, &wide_a, &wide_b, y)?;
    Ok(word)
}
