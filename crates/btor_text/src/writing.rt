// A model's text.

ghost use Rattle.std.specs.Prelude.{◌≡◌, ◌+◌, ◌≤◌, ◌++◌, ◌∷◌, [], codes, decimal, length, take, drop, IfOk, OnOk, string_bytes};
ghost use Rattle.std.specs.List.{flat_map};
ghost use Rattle.btor_core.specs.declared.line.Body.TheVariants.{Value};
ghost use Rattle.btor_text.specs.Grammar.{bits_text, digit_of, IsText};
ghost use Rattle.btor_text.specs.Text.{line_text, text_of};

use crate::names::{binary_name, unary_name};
use btor_core::line::{Body, Line, Node};
use btor_core::model::BtorModel;
use sby_terms::numbers_are_decimal;
use std::alloc::{AllocError, Global};
use std::fmt::Write;

// Appends the digit of a bit.
fn push_digit(text: &mut String, bit: bool) -> Result<(), AllocError>
    ensures { OnOk result (string_bytes text.new ≡ string_bytes text.old ++ digit_of bit ∷ []) }
{
    if bit { text.push('1') } else { text.push('0') }
}

// Appends the bits' digits, the highest first.
fn push_bits(text: &mut String, bits: &[bool]) -> Result<(), AllocError>
    ensures { OnOk result (string_bytes text.new ≡ string_bytes text.old ++ bits_text bits.now) }
{
    let mut place = bits.len();
    while place > 0 {
        place -= 1;
        push_digit(text, bits[place])?;
    }
    Ok(())
}

// Appends the line of a constant with these bits.
fn push_constant(text: &mut String, nid: u32, sort: u32, bits: &[bool]) -> Result<(), AllocError>
    ensures { OnOk result (string_bytes text.new ≡ string_bytes text.old ++ (decimal nid ++ codes " const " ++ decimal sort ++ 32 ∷ (bits_text bits.now ++ 10 ∷ []))) }
{
    write!(text, "{nid} const {sort} ")?;
    push_bits(text, bits)?;
    text.push('\n')
}

// The bits of a constant of this width that begin at this place of the table.
fn bits_at(constants: &[bool], start: u32, width: u32) -> &[bool]
    ensures { result.now ≡ take width (drop start constants.now) }
{
    let first = (start as usize).min(constants.len());
    let rest = &constants[first..];
    let count = (width as usize).min(rest.len());
    &rest[..count]
}

// Appends the line of a value.
fn push_value(
    text: &mut String,
    constants: &[bool],
    nid: u32,
    sort: u32,
    width: u32,
    node: Node,
) -> Result<(), AllocError>
    ensures { OnOk result (string_bytes text.new ≡ string_bytes text.old ++ line_text constants.now (record { nid = nid; body = Value sort width node })) }
{
    match node {
        Node::Input => write!(text, "{nid} input {sort}\n"),
        Node::State => write!(text, "{nid} state {sort}\n"),
        Node::Const(start) => push_constant(text, nid, sort, bits_at(constants, start, width)),
        Node::Zero => write!(text, "{nid} zero {sort}\n"),
        Node::One => write!(text, "{nid} one {sort}\n"),
        Node::Ones => write!(text, "{nid} ones {sort}\n"),
        Node::Unary(k, a) => {
            let name = unary_name(k);
            write!(text, "{nid} {name} {sort} {a}\n")
        }
        Node::Binary(k, a, b) => {
            let name = binary_name(k);
            write!(text, "{nid} {name} {sort} {a} {b}\n")
        }
        Node::Slice(a, upper, lower) => write!(text, "{nid} slice {sort} {a} {upper} {lower}\n"),
        Node::Uext(a, by) => write!(text, "{nid} uext {sort} {a} {by}\n"),
        Node::Sext(a, by) => write!(text, "{nid} sext {sort} {a} {by}\n"),
        Node::Ite(s, a, b) => write!(text, "{nid} ite {sort} {s} {a} {b}\n"),
    }
}

// Appends a line.
fn push_line(text: &mut String, constants: &[bool], line: Line) -> Result<(), AllocError>
    ensures { OnOk result (string_bytes text.new ≡ string_bytes text.old ++ line_text constants.now line) }
{
    let nid = line.nid;
    match line.body {
        Body::Sort(width) => write!(text, "{nid} sort bitvec {width}\n"),
        Body::Value(sort, width, node) => push_value(text, constants, nid, sort, width, node),
        Body::Init(sort, state, value) => write!(text, "{nid} init {sort} {state} {value}\n"),
        Body::Next(sort, state, value) => write!(text, "{nid} next {sort} {state} {value}\n"),
        Body::Bad(of) => write!(text, "{nid} bad {of}\n"),
        Body::Constraint(of) => write!(text, "{nid} constraint {of}\n"),
    }
}

// The lines' text.
fn text_of_lines(alloc: Global, lines: &[Line], constants: &[bool]) -> Result<Vec<u8>, AllocError>
    ensures { IfOk result (λ bytes. bytes.items ≡ flat_map (line_text constants.now) lines.now) }
{
    let mut text = String::new(alloc);
    for line in lines {
        push_line(&mut text, constants, *line)?;
    }
    Ok(text.into_bytes())
}

/// The text of a model: the words of each line, one space between, each line ended by a line feed.
pub fn write(alloc: Global, model: &BtorModel) -> Result<Vec<u8>, AllocError>
    ensures text { IfOk result (λ bytes. bytes.items ≡ text_of model.now) }
    ensures grammar { IfOk result (λ bytes. IsText bytes.items model.now) }
{
    model.promise();
    numbers_are_decimal();
    let bytes = text_of_lines(alloc, model.lines(), model.constants())?;
    Ok(bytes)
}
