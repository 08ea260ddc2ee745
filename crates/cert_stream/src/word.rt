// Bytes of words.

ghost use Rattle.std.specs.Prelude.{◌≡◌, ◌≤◌, cond, Option, Some, None, IfOk};
ghost use Rattle.cnf_form.specs.declared.literal.TheConstants.{MAX_VARS};
ghost use Rattle.cert_stream.specs.Machine.{IsPartWithin, begins_literal, goes_on, spelling, with_digit};
ghost use Rattle.cert_stream.specs.Scan.{digit_next, first_next, part_next};
ghost use Rattle.cert_stream.specs.Text.{is_blank};

use crate::mode::{ParseFaultKind, Part};
use cnf_form::Lit;

pub(crate) fn is_blank(b: u8) -> bool
    ensures { result ≡ is_blank b }
{
    b == b' ' || b == b'\t' || b == b'\r'
}

pub(crate) fn spelling(n: u8) -> u8
    ensures { result ≡ spelling n }
{
    match n {
        0 => b'U',
        1 => b'N',
        2 => b'K',
        3 => b'N',
        4 => b'O',
        5 => b'W',
        6 => b'N',
        _ => 0,
    }
}

// Whether the number that these digits and this byte write is one of a variable.
fn with_digit(vars: u32, n: u32, b: u8) -> Option<u32>
    requires { vars ≤ MAX_VARS }
    ensures { result ≡ cond (goes_on vars n b) (Some (with_digit n b)) None }
{
    if !(b'0'..=b'9').contains(&b) {
        return None;
    }
    let value = 10 * n as u64 + (b - b'0') as u64;
    if value >= 1 && value <= vars as u64 {
        Some(value as u32)
    } else {
        None
    }
}

fn begins_literal(vars: u32, b: u8) -> bool
    requires { vars ≤ MAX_VARS }
    ensures { result ≡ begins_literal vars b }
{
    b == b'-' && vars >= 1 || with_digit(vars, 0, b).is_some()
}

fn digit_next(vars: u32, negated: bool, n: u32, b: u8) -> Result<Part, ParseFaultKind>
    requires { vars ≤ MAX_VARS }
    ensures next { result ≡ digit_next vars negated n b }
    ensures within { IfOk result (IsPartWithin vars) }
{
    match with_digit(vars, n, b) {
        Some(value) => Ok(Part::Digits(Lit::new(value, negated))),
        None => Err(ParseFaultKind::BadLiteral),
    }
}

fn first_next(vars: u32, full: bool, b: u8) -> Result<Part, ParseFaultKind>
    requires { vars ≤ MAX_VARS }
    ensures next { result ≡ first_next vars full b }
    ensures within { IfOk result (IsPartWithin vars) }
{
    if b == b'0' {
        return Ok(Part::Zero);
    }
    if !begins_literal(vars, b) {
        return Err(ParseFaultKind::BadLiteral);
    }
    if full {
        return Err(ParseFaultKind::LineTooLong);
    }
    if b == b'-' {
        Ok(Part::Minus)
    } else {
        digit_next(vars, false, 0, b)
    }
}

// What a part of a list's word is with one byte more; `full` tells that the line has as many literals as there are variables.
pub(crate) fn part_next(vars: u32, full: bool, part: Part, b: u8) -> Result<Part, ParseFaultKind>
    requires { vars ≤ MAX_VARS }
    ensures next { result ≡ part_next vars full part b }
    ensures within { IfOk result (IsPartWithin vars) }
{
    match part {
        Part::Gap => first_next(vars, full, b),
        Part::Minus => digit_next(vars, true, 0, b),
        Part::Zero => Err(ParseFaultKind::BadLiteral),
        Part::Digits(l) => digit_next(vars, l.is_negated(), l.var(), b),
    }
}
