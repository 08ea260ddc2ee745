// Words that have one bit, then zeros.

ghost use Rattle.std.specs.Prelude.{◌≡◌, ◌+◌, ◌*◌, All, length, max, cond, not, IfOk, leb, eqb, int_lt, pos, ◌<◌, ◌^◌};
ghost use Rattle.cnf_form.specs.Cnf.{Assignment, LitWithin, lit_in};
ghost use Rattle.sby_bits.specs.Rows.{fit, num, snum, value};
ghost use Rattle.sby_bits.specs.Words.{every_bit, odd_bits, some_bit};
ghost use Rattle.cell_table.specs.Cells.{bit_row, is_compared, is_logic, is_reduced};
ghost use Rattle.gate_words.specs.Words.{Builds, IsFull, IsTurned, MeansBit, MeansRow, linear, row_of};

use cell_table::kind::{Compare, Logic, Reduce};
use cnf_form::Lit;
use gate_graph::{GateFault, Gates};
use gate_rows::{BitOp, at_least, chain, each, extended, moved_up, negated};
use std::alloc::{AllocError, Global};

// Whether some bit of the row is set.
pub(crate) fn any(gates: &mut Gates, a: &[Lit]) -> Result<Lit, GateFault>
    requires { All (LitWithin gates.old.formula.vars) a.now }
    ensures bit { IfOk result (MeansBit gates.new (λ x. some_bit (row_of x a.now))) }
    ensures builds { Builds gates.old gates.new (length a.now) }
    ensures too_many { result ≡ Err GateFault.TooMany → IsFull gates.old gates.new (length a.now) }
{
    let zero = gates.constant(false);
    let lit = chain(gates, &BitOp::Or, zero, a)?;
    Ok(lit)
}

// Whether an odd number of its bits is set.
fn odd(gates: &mut Gates, a: &[Lit]) -> Result<Lit, GateFault>
    requires { All (LitWithin gates.old.formula.vars) a.now }
    ensures bit { IfOk result (MeansBit gates.new (λ x. odd_bits (row_of x a.now))) }
    ensures builds { Builds gates.old gates.new (length a.now) }
    ensures too_many { result ≡ Err GateFault.TooMany → IsFull gates.old gates.new (length a.now) }
{
    let zero = gates.constant(false);
    let lit = chain(gates, &BitOp::Xor, zero, a)?;
    Ok(lit)
}

// Whether each bit is set.
fn every(gates: &mut Gates, a: &[Lit]) -> Result<Lit, GateFault>
    requires { All (LitWithin gates.old.formula.vars) a.now }
    ensures bit { IfOk result (MeansBit gates.new (λ x. every_bit (row_of x a.now))) }
    ensures builds { Builds gates.old gates.new (length a.now) }
    ensures too_many { result ≡ Err GateFault.TooMany → IsFull gates.old gates.new (length a.now) }
{
    let one = gates.constant(true);
    let lit = chain(gates, &BitOp::And, one, a)?;
    Ok(lit)
}

// One bit, then zeros.
fn flag_word(alloc: Global, gates: &Gates, flag: Lit, y: u32) -> Result<Vec<Lit>, AllocError>
    requires { LitWithin gates.now.formula.vars flag }
    ensures { IfOk result (λ word. MeansRow gates.now (λ x. bit_row y (lit_in x flag)) word.items) }
{
    let word = moved_up(alloc, gates, &[flag], 0, y as usize)?;
    Ok(word)
}

// One bit of a row.
fn reduced(gates: &mut Gates, kind: Reduce, a: &[Lit]) -> Result<Lit, GateFault>
    requires { All (LitWithin gates.old.formula.vars) a.now }
    ensures bit { IfOk result (MeansBit gates.new (λ x. is_reduced kind (row_of x a.now))) }
    ensures builds { Builds gates.old gates.new (length a.now) }
    ensures too_many { result ≡ Err GateFault.TooMany → IsFull gates.old gates.new (length a.now) }
{
    match kind {
        Reduce::And => every(gates, a),
        Reduce::Or | Reduce::Bool => any(gates, a),
        Reduce::Xor => odd(gates, a),
        Reduce::Xnor => {
            let lit = odd(gates, a)?;
            Ok(lit.negate())
        }
        Reduce::Not => {
            let lit = any(gates, a)?;
            Ok(lit.negate())
        }
    }
}

/// `$reduce_and`, `$reduce_or`, `$reduce_xor`, `$reduce_xnor`, `$reduce_bool` and `$logic_not`: one bit, then zeros up to width `y`.
pub fn reduce(
    alloc: Global,
    gates: &mut Gates,
    kind: Reduce,
    a: &[Lit],
    y: u32,
) -> Result<Vec<Lit>, GateFault>
    requires { All (LitWithin gates.old.formula.vars) a.now }
    ensures row { let row = λ (x : Assignment). bit_row y (is_reduced kind (row_of x a.now)) in
        IfOk result (λ word. MeansRow gates.new row word.items) }
    ensures builds { Builds gates.old gates.new (length a.now) }
    ensures too_many { result ≡ Err GateFault.TooMany → IsFull gates.old gates.new (length a.now) }
{
    let flag = reduced(gates, kind, a)?;
    Ok(flag_word(alloc, gates, flag, y)?)
}

// One bit of two rows.
fn both(gates: &mut Gates, kind: Logic, a: &[Lit], b: &[Lit]) -> Result<Lit, GateFault>
    requires a { All (LitWithin gates.old.formula.vars) a.now }
    requires b { All (LitWithin gates.old.formula.vars) b.now }
    ensures bit { IfOk result (MeansBit gates.new (λ x. is_logic kind (row_of x a.now) (row_of x b.now))) }
    ensures builds { Builds gates.old gates.new (length a.now + length b.now + 1) }
    ensures too_many { result ≡ Err GateFault.TooMany → IsFull gates.old gates.new (length a.now + length b.now + 1) }
{
    let some_a = any(gates, a)?;
    let some_b = any(gates, b)?;
    let op = match kind {
        Logic::And => BitOp::And,
        Logic::Or => BitOp::Or,
    };
    let lit = chain(gates, &op, some_a, &[some_b])?;
    Ok(lit)
}

/// `$logic_and` and `$logic_or`: of the rows' numbers not being 0, one bit, then zeros up to width `y`.
pub fn logic(
    alloc: Global,
    gates: &mut Gates,
    kind: Logic,
    a: &[Lit],
    b: &[Lit],
    y: u32,
) -> Result<Vec<Lit>, GateFault>
    requires a { All (LitWithin gates.old.formula.vars) a.now }
    requires b { All (LitWithin gates.old.formula.vars) b.now }
    ensures row { let row = λ (x : Assignment). bit_row y (is_logic kind (row_of x a.now) (row_of x b.now)) in
        IfOk result (λ word. MeansRow gates.new row word.items) }
    ensures builds { Builds gates.old gates.new (length a.now + length b.now + 1) }
    ensures too_many { result ≡ Err GateFault.TooMany → IsFull gates.old gates.new (length a.now + length b.now + 1) }
{
    let flag = both(gates, kind, a, b)?;
    Ok(flag_word(alloc, gates, flag, y)?)
}

// Whether two rows of one length are one.
fn same(alloc: Global, gates: &mut Gates, a: &[Lit], b: &[Lit]) -> Result<Lit, GateFault>
    requires a { All (LitWithin gates.old.formula.vars) a.now }
    requires b { All (LitWithin gates.old.formula.vars) b.now }
    requires as_many { length a.now ≡ length b.now }
    ensures bit { IfOk result (MeansBit gates.new (λ x. eqb (num (row_of x a.now)) (num (row_of x b.now)))) }
    ensures builds { Builds gates.old gates.new (2 * length a.now) }
    ensures too_many { result ≡ Err GateFault.TooMany → IsFull gates.old gates.new (2 * length a.now) }
{
    let differ = each(alloc, gates, &BitOp::Xor, a, b)?;
    let lit = any(gates, &differ)?;
    Ok(lit.negate())
}

// Whether the number of one row is below that of another of its length.
fn less(gates: &mut Gates, a: &[Lit], b: &[Lit]) -> Result<Lit, GateFault>
    requires a { All (LitWithin gates.old.formula.vars) a.now }
    requires b { All (LitWithin gates.old.formula.vars) b.now }
    requires as_many { length a.now ≡ length b.now }
    ensures bit { IfOk result (MeansBit gates.new (λ x. int_lt (pos (num (row_of x a.now))) (pos (num (row_of x b.now))))) }
    ensures builds { Builds gates.old gates.new (length a.now) }
    ensures too_many { result ≡ Err GateFault.TooMany → IsFull gates.old gates.new (length a.now) }
{
    let lit = at_least(gates, a, b)?;
    Ok(lit.negate())
}

// Whether the one number is less than the other, in two's complement.
fn signed_less(alloc: Global, gates: &mut Gates, a: &[Lit], b: &[Lit]) -> Result<Lit, GateFault>
    requires a { All (LitWithin gates.old.formula.vars) a.now }
    requires b { All (LitWithin gates.old.formula.vars) b.now }
    requires as_many { length a.now ≡ length b.now }
    ensures bit { IfOk result (MeansBit gates.new (λ x. int_lt (snum (row_of x a.now)) (snum (row_of x b.now)))) }
    ensures builds { Builds gates.old gates.new (length a.now) }
    ensures too_many { result ≡ Err GateFault.TooMany → IsFull gates.old gates.new (length a.now) }
{
    let low = turned_top(alloc, a)?;
    let high = turned_top(alloc, b)?;
    let lit = at_least(gates, &low, &high)?;
    Ok(lit.negate())
}

// By their signs where `signed`.
fn below(
    alloc: Global,
    gates: &mut Gates,
    a: &[Lit],
    b: &[Lit],
    signed: bool,
) -> Result<Lit, GateFault>
    requires a { All (LitWithin gates.old.formula.vars) a.now }
    requires b { All (LitWithin gates.old.formula.vars) b.now }
    requires as_many { length a.now ≡ length b.now }
    ensures bit { IfOk result (MeansBit gates.new (λ x. int_lt (value signed (row_of x a.now)) (value signed (row_of x b.now)))) }
    ensures builds { Builds gates.old gates.new (length a.now) }
    ensures too_many { result ≡ Err GateFault.TooMany → IsFull gates.old gates.new (length a.now) }
{
    if signed {
        signed_less(alloc, gates, a, b)
    } else {
        less(gates, a, b)
    }
}

// The row with its last literal negated.
fn turned_top(alloc: Global, a: &[Lit]) -> Result<Vec<Lit>, AllocError>
    ensures { IfOk result (λ word. IsTurned a.now word.items) }
{
    let mut word = Vec::new(alloc);
    word.extend_from_slice(a)?;
    if let Some(last) = word.pop() {
        word.push(last.negate())?;
    }
    Ok(word)
}

// Whether two rows of one length are one, by their numbers.
fn equal(
    alloc: Global,
    gates: &mut Gates,
    a: &[Lit],
    b: &[Lit],
    signed: bool,
) -> Result<Lit, GateFault>
    requires a { All (LitWithin gates.old.formula.vars) a.now }
    requires b { All (LitWithin gates.old.formula.vars) b.now }
    requires as_many { length a.now ≡ length b.now }
    ensures bit { IfOk result (MeansBit gates.new (λ x. is_compared Compare.Eq (length a.now) (value signed (row_of x a.now)) (value signed (row_of x b.now)))) }
    ensures builds { Builds gates.old gates.new (2 * length a.now) }
    ensures too_many { result ≡ Err GateFault.TooMany → IsFull gates.old gates.new (2 * length a.now) }
{
    let lit = same(alloc, gates, a, b)?;
    Ok(lit)
}

// One bit of two rows of the larger of their widths.
#[tactic(auto, using(crate::proofs::Folding::builds_more, crate::proofs::Folding::full_more, crate::proofs::Folding::Bit_negated))]
fn compared(
    alloc: Global,
    gates: &mut Gates,
    kind: Compare,
    a: &[Lit],
    b: &[Lit],
    signed: bool,
) -> Result<Lit, GateFault>
    requires a { All (LitWithin gates.old.formula.vars) a.now }
    requires b { All (LitWithin gates.old.formula.vars) b.now }
    requires as_many { length a.now ≡ length b.now }
    ensures bit { IfOk result (MeansBit gates.new (λ x. is_compared kind (length a.now) (value signed (row_of x a.now)) (value signed (row_of x b.now)))) }
    ensures builds { Builds gates.old gates.new (2 * length a.now) }
    ensures too_many { result ≡ Err GateFault.TooMany → IsFull gates.old gates.new (2 * length a.now) }
{
    match kind {
        Compare::Eq | Compare::Eqx => equal(alloc, gates, a, b, signed),
        Compare::Ne | Compare::Nex => {
            let lit = equal(alloc, gates, a, b, signed)?;
            Ok(lit.negate())
        }
        Compare::Lt => below(alloc, gates, a, b, signed),
        Compare::Le => {
            let lit = below(alloc, gates, b, a, signed)?;
            Ok(lit.negate())
        }
        Compare::Gt => below(alloc, gates, b, a, signed),
        Compare::Ge => {
            let lit = below(alloc, gates, a, b, signed)?;
            Ok(lit.negate())
        }
    }
}

// One bit of two rows, at the larger of their widths.
fn wide_compared(
    alloc: Global,
    gates: &mut Gates,
    kind: Compare,
    a: &[Lit],
    b: &[Lit],
    signed: bool,
    width: usize,
) -> Result<Lit, GateFault>
    requires width { width ≡ max (length a.now) (length b.now) }
    requires a { All (LitWithin gates.old.formula.vars) a.now }
    requires b { All (LitWithin gates.old.formula.vars) b.now }
    ensures bit { IfOk result (MeansBit gates.new (λ x. is_compared kind (max (length a.now) (length b.now)) (value signed (row_of x a.now)) (value signed (row_of x b.now)))) }
    ensures builds { Builds gates.old gates.new (2 * (length a.now + length b.now)) }
    ensures too_many { result ≡ Err GateFault.TooMany → IsFull gates.old gates.new (2 * (length a.now + length b.now)) }
{
    let wide_a = extended(alloc, gates, a, signed, width)?;
    let wide_b = extended(alloc, gates, b, signed, width)?;
    let lit = compared(alloc, gates, kind, &wide_a, &wide_b, signed)?;
    Ok(lit)
}

/// `$eq`, `$ne`, `$eqx`, `$nex`, `$lt`, `$le`, `$gt` and `$ge` at the larger of the operands' widths, by their signs where `signed`: one
/// bit, then zeros up to width `y`.
pub fn compare(
    alloc: Global,
    gates: &mut Gates,
    kind: Compare,
    a: &[Lit],
    b: &[Lit],
    signed: bool,
    y: u32,
) -> Result<Vec<Lit>, GateFault>
    requires a { All (LitWithin gates.old.formula.vars) a.now }
    requires b { All (LitWithin gates.old.formula.vars) b.now }
    ensures row { let row = λ (x : Assignment). bit_row y (is_compared kind (max (length a.now) (length b.now)) (value signed (row_of x a.now)) (value signed (row_of x b.now))) in
        IfOk result (λ word. MeansRow gates.new row word.items) }
    ensures builds { Builds gates.old gates.new (2 * (length a.now + length b.now)) }
    ensures too_many { result ≡ Err GateFault.TooMany → IsFull gates.old gates.new (2 * (length a.now + length b.now)) }
{
    let width = a.len().max(b.len());
    let flag = wide_compared(alloc, gates, kind, a, b, signed, width)?;
    Ok(flag_word(alloc, gates, flag, y)?)
}
