// Each type of cell against the rows of `sby_bits`: at small widths for all operands, and at a width past every machine word.

ghost use Rattle.std.specs.Prelude.{◌≡◌, ◌≤◌, ◌<◌, ◌+◌, All, length};
ghost use Rattle.cnf_form.specs.Cnf.{LitWithin};

use super::closing::{inputs, is_row};
use cell_table::kind::{Binary, Compare, Divide, Kind, Logic, Reduce, Unary};
use cnf_form::Lit;
use gate_graph::{GateFault, Gates};
use gate_words::{
    binary, compare, divide, logic, reduce, shift_any, shift_left, shift_right, shift_sign, unary,
};
use std::alloc::{AllocError, Global};
use std::test::Fail;

const KINDS: [Kind; 32] = [
    Kind::Unary(Unary::Not),
    Kind::Unary(Unary::Pos),
    Kind::Unary(Unary::Neg),
    Kind::Binary(Binary::And),
    Kind::Binary(Binary::Or),
    Kind::Binary(Binary::Xor),
    Kind::Binary(Binary::Xnor),
    Kind::Binary(Binary::Add),
    Kind::Binary(Binary::Sub),
    Kind::Binary(Binary::Mul),
    Kind::Reduce(Reduce::And),
    Kind::Reduce(Reduce::Or),
    Kind::Reduce(Reduce::Xor),
    Kind::Reduce(Reduce::Xnor),
    Kind::Reduce(Reduce::Bool),
    Kind::Reduce(Reduce::Not),
    Kind::Logic(Logic::And),
    Kind::Logic(Logic::Or),
    Kind::Compare(Compare::Eq),
    Kind::Compare(Compare::Ne),
    Kind::Compare(Compare::Eqx),
    Kind::Compare(Compare::Nex),
    Kind::Compare(Compare::Lt),
    Kind::Compare(Compare::Le),
    Kind::Compare(Compare::Gt),
    Kind::Compare(Compare::Ge),
    Kind::ShiftLeft,
    Kind::ShiftRight,
    Kind::ShiftSign,
    Kind::ShiftAny,
    Kind::Divide(Divide::Div),
    Kind::Divide(Divide::Mod),
];

// The word of a cell of two operands, both signed or both not; of another cell the empty word.
pub fn word_of(
    alloc: Global,
    gates: &mut Gates,
    kind: Kind,
    a: &[Lit],
    b: &[Lit],
    signed: bool,
    y: u32,
) -> Result<Vec<Lit>, GateFault>
    requires a { All (LitWithin gates.old.formula.vars) a.now }
    requires b { All (LitWithin gates.old.formula.vars) b.now }
    requires some_a { 1 ≤ length a.now }
    requires some_y { 1 ≤ y }
{
    match kind {
        Kind::Unary(kind) => unary(alloc, gates, kind, a, signed, y),
        Kind::Binary(kind) => binary(alloc, gates, kind, a, b, signed, y),
        Kind::Reduce(kind) => reduce(alloc, gates, kind, a, y),
        Kind::Logic(kind) => logic(alloc, gates, kind, a, b, y),
        Kind::Compare(kind) => compare(alloc, gates, kind, a, b, signed, y),
        Kind::ShiftLeft => shift_left(alloc, gates, a, b, signed, y),
        Kind::ShiftRight => shift_right(alloc, gates, a, b, signed, y),
        Kind::ShiftSign => shift_sign(alloc, gates, a, b, signed, y),
        Kind::ShiftAny => shift_any(alloc, gates, a, b, signed, signed, y),
        Kind::Divide(kind) => divide(alloc, gates, kind, a, b, signed, y),
        _ => Ok(Vec::new(alloc)),
    }
}

// What the cell gives, where all widths are one and `sby_bits` has its row.
fn want(kind: Kind, a: &[bool], b: &[bool], signed: bool, y: &mut [bool])
    requires b { length b.now ≡ length a.now }
    requires y { length y.old ≡ length a.now }
{
    match kind {
        Kind::Unary(kind) => want_unary(kind, a, y),
        Kind::Binary(Binary::Add | Binary::Sub | Binary::Mul) | Kind::Divide(_) => {
            if a.len() <= 128 {
                want_number(kind, a, b, signed, y);
            }
        }
        Kind::Binary(kind) => want_bits(kind, a, b, y),
        Kind::Reduce(kind) => flag(want_reduce(kind, a), y),
        Kind::Logic(Logic::And) => flag(sby_bits::reduce_or(a) && sby_bits::reduce_or(b), y),
        Kind::Logic(Logic::Or) => flag(sby_bits::reduce_or(a) || sby_bits::reduce_or(b), y),
        Kind::Compare(kind) => flag(want_compare(kind, a, b, signed), y),
        Kind::ShiftLeft => sby_bits::shift_left(a, b, y),
        Kind::ShiftRight => sby_bits::shift_right(a, b, false, y),
        Kind::ShiftSign => sby_bits::shift_right(a, b, signed && a.last() == Some(&true), y),
        Kind::ShiftAny => sby_bits::shift_any(a, b, signed, y),
        _ => {}
    }
}

// The widest operands that are tried: past every machine word, or the most bits for which `sby_bits` has the cell's row.
fn widest(kind: Kind) -> u32
    ensures some { 1 ≤ result }
    ensures few { result ≤ 129 }
{
    match kind {
        Kind::Unary(Unary::Neg)
        | Kind::Binary(Binary::Add | Binary::Sub | Binary::Mul)
        | Kind::Divide(_) => 128,
        _ => 129,
    }
}

fn flag(bit: bool, y: &mut [bool])
    ensures { length y.new ≡ length y.old }
{
    sby_bits::extend(&[bit], false, y);
}

fn want_unary(kind: Unary, a: &[bool], y: &mut [bool]) {
    match kind {
        Unary::Not => {
            for (bit, p) in y.iter_mut().zip(a) {
                *bit = !*p;
            }
        }
        Unary::Pos => sby_bits::extend(a, false, y),
        Unary::Neg => {
            if a.len() <= 128 && y.len() <= 128 {
                sby_bits::sub(&[], a, y);
            }
        }
    }
}

fn want_number(kind: Kind, a: &[bool], b: &[bool], signed: bool, y: &mut [bool])
    requires a { length a.now ≤ 128 }
    requires b { length b.now ≤ 128 }
    requires y { length y.old ≤ 128 }
{
    match kind {
        Kind::Binary(Binary::Add) => sby_bits::add(a, b, y),
        Kind::Binary(Binary::Sub) => sby_bits::sub(a, b, y),
        Kind::Binary(Binary::Mul) => sby_bits::mul(a, b, y),
        Kind::Divide(Divide::Div) => sby_bits::div(a, b, signed, y),
        Kind::Divide(Divide::Mod) => sby_bits::rem(a, b, signed, y),
        _ => {}
    }
}

fn want_bits(kind: Binary, a: &[bool], b: &[bool], y: &mut [bool]) {
    for (bit, (p, q)) in y.iter_mut().zip(a.iter().zip(b)) {
        *bit = match kind {
            Binary::And => *p && *q,
            Binary::Or => *p || *q,
            Binary::Xor => *p != *q,
            _ => *p == *q,
        };
    }
}

fn want_reduce(kind: Reduce, a: &[bool]) -> bool {
    match kind {
        Reduce::And => sby_bits::reduce_and(a),
        Reduce::Or | Reduce::Bool => sby_bits::reduce_or(a),
        Reduce::Xor => sby_bits::reduce_xor(a),
        Reduce::Xnor => !sby_bits::reduce_xor(a),
        Reduce::Not => !sby_bits::reduce_or(a),
    }
}

fn want_compare(kind: Compare, a: &[bool], b: &[bool], signed: bool) -> bool
    requires { length a.now ≡ length b.now }
{
    match kind {
        Compare::Eq | Compare::Eqx => sby_bits::equal(a, b),
        Compare::Ne | Compare::Nex => !sby_bits::equal(a, b),
        Compare::Lt => sby_bits::less(a, b, signed),
        Compare::Le => !sby_bits::less(b, a, signed),
        Compare::Gt => sby_bits::less(b, a, signed),
        Compare::Ge => !sby_bits::less(a, b, signed),
    }
}

// The lowest ten bits of a number.
pub fn digits(n: u16) -> [bool; 10] {
    [
        n & 1 == 1,
        n & 2 == 2,
        n & 4 == 4,
        n & 8 == 8,
        n & 16 == 16,
        n & 32 == 32,
        n & 64 == 64,
        n & 128 == 128,
        n & 256 == 256,
        n & 512 == 512,
    ]
}

// A cell over operands of one width, with its circuit.
#[derive(Drop)]
struct Circuit {
    gates: Gates,
    kind: Kind,
    signed: bool,
    operands: Vec<Lit>,
    word: Vec<Lit>,
}

// The word of a cell over operands of one width, A's bits below B's.
fn word_over(
    alloc: Global,
    gates: &mut Gates,
    operands: &[Lit],
    kind: Kind,
    width: u32,
    signed: bool,
) -> Result<Vec<Lit>, GateFault>
    requires operands { All (LitWithin gates.old.formula.vars) operands.now }
    requires long { length operands.now ≡ width + width }
    requires some { 1 ≤ width }
{
    let (a, b) = operands.split_at(width as usize);
    word_of(alloc, gates, kind, a, b, signed, width)
}

impl Circuit {
    fn new(alloc: Global, kind: Kind, width: u32, signed: bool) -> Result<Circuit, GateFault>
        requires some { 1 ≤ width }
        requires few { width ≤ 129 }
    {
        let mut gates = Gates::new(alloc)?;
        let operands = inputs(alloc, &mut gates, (width + width) as usize)?;
        let word = word_over(alloc, &mut gates, &operands, kind, width, signed)?;
        Ok(Circuit {
            gates,
            kind,
            signed,
            operands,
            word,
        })
    }

    // Whether the word has its row where the operands have these bits, A's below B's.
    fn is_right(&self, alloc: Global, bits: &[bool]) -> Result<bool, AllocError> {
        let (a, b) = bits.split_at(bits.len() / 2);
        if a.len() != b.len() {
            return Ok(false);
        }
        let mut row = Vec::from_slice(alloc, a)?;
        want(self.kind, a, b, self.signed, row.as_mut_slice());
        is_row(alloc, &self.gates, &self.operands, bits, &self.word, &row)
    }

    // Whether the word has its row for all operands of fewer than ten bits in all.
    fn is_right_for_all(&self, alloc: Global, len: usize) -> Result<bool, AllocError>
        requires { len < 10 }
    {
        for n in 0..1u16 << len {
            let bits = digits(n);
            if !self.is_right(alloc, &bits[..len])? {
                return Ok(false);
            }
        }
        Ok(true)
    }
}

// Whether a kind is right at a small width for all operands, with or without a sign.
fn is_right_at(alloc: Global, kind: Kind, width: u32, signed: bool) -> Result<bool, GateFault>
    requires some { 1 ≤ width }
    requires few { width ≤ 4 }
{
    let circuit = Circuit::new(alloc, kind, width, signed)?;
    Ok(circuit.is_right_for_all(alloc, (width + width) as usize)?)
}

// Two wide operands: all ones; the top bits alone; ones and the number 128.
fn wide_bits(alloc: Global, width: u32, pattern: u8) -> Result<Vec<bool>, AllocError>
    requires { width ≤ 129 }
{
    let mut bits = Vec::new(alloc);
    for place in 0..width + width {
        bits.push(match pattern {
            0 => true,
            1 => place + 1 == width || place + 1 == width + width,
            _ => place < width || place == width + 7,
        })?;
    }
    Ok(bits)
}

// Whether a kind is right at its widest for some operands.
fn is_right_when_wide(alloc: Global, kind: Kind, signed: bool) -> Result<bool, GateFault> {
    let width = widest(kind);
    let circuit = Circuit::new(alloc, kind, width, signed)?;
    for pattern in 0..3 {
        let bits = wide_bits(alloc, width, pattern)?;
        if !circuit.is_right(alloc, &bits)? {
            return Ok(false);
        }
    }
    Ok(true)
}

// Whether a kind is right at widths 1 to 4 and at its widest.
fn is_right_for(alloc: Global, kind: Kind, signed: bool) -> Result<bool, GateFault> {
    for width in 1..5 {
        if !is_right_at(alloc, kind, width, signed)? {
            return Ok(false);
        }
    }
    is_right_when_wide(alloc, kind, signed)
}

// The first kind that isn't right.
fn first_wrong(alloc: Global, kinds: &[Kind]) -> Result<Option<Kind>, GateFault> {
    for kind in kinds {
        if !is_right_for(alloc, *kind, false)? || !is_right_for(alloc, *kind, true)? {
            return Ok(Some(*kind));
        }
    }
    Ok(None)
}

#[test]
fn words_have_their_rows(rt: HostRuntime) -> Result<(), Fail> {
    assert_eq!(rt; first_wrong(rt.alloc(), &KINDS)?, None);
    Ok(())
}
