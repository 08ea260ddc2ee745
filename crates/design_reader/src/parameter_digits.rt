// What a cell keeps of a parameter's constant.

ghost use Rattle.std.specs.Prelude.{◌≡◌, ◌+◌, ◌<◌, ◌≤◌, ◌^◌, ◌++◌, true, map, replicate, reverse, length, IfOk, IfSome, OnOk};
ghost use Rattle.design_core.specs.Digits.{above_digits, number_digits};
ghost use Rattle.rtlil_constant.specs.Constants.{is_fill, open_digits};
ghost use Rattle.design_reader.specs.Grammar.{numbered_digits, plain_digit};
ghost use Rattle.design_reader.specs.Runs.{free_digits};

use design_core::digit::{Constant, Digit, Extension};
use rtlil_constant::constant::Constant as Written;
use rtlil_constant::digits::{Digits, is_open};
use std::alloc::{AllocError, Global};

/// A digit that no free bit stands for.
fn plain_digit(c: u8) -> Digit
    ensures { result ≡ plain_digit c }
{
    match c {
        b'0' => Digit::Const(false),
        b'1' => Digit::Const(true),
        _ => Digit::Marker,
    }
}

/// The number of at most 64 digits, each 0 or 1.
fn binary_number(digits: &[u8]) -> Option<u64>
    requires { length digits.now ≤ 64 }
    ensures fits { IfSome result (λ n. n < 2 ^ length digits.now) }
    ensures digits { IfSome result (λ n. number_digits (length digits.now) n ≡ map plain_digit (reverse digits.now)) }
    ensures closed { IfSome result (λ n. open_digits digits.now ≡ 0) }
{
    let mut number = 0u64;
    for digit in digits {
        if *digit != b'0' && *digit != b'1' {
            return None;
        }
        number = number * 2 + u64::from(*digit - b'0');
    }
    Some(number)
}

/// A number and its width.
#[derive(Clone, Copy)]
struct Number {
    value: u64,
    width: u32,
}

/// How many zeros stand above the digits that are written.
fn zeros_above<'a>(digits: &'a Digits) -> Option<(u32, &'a [u8])>
    ensures { IfSome result (λ r. digits.now ≡ replicate r.0 48 ++ r.1.now) }
{
    let (fill, fills, written) = digits.parts();
    if fills == 0 {
        return Some((0, written));
    }
    if fill != b'0' {
        return None;
    }
    Some((fills, written))
}

/// The digits as a number, where they are at most 64, each 0 or 1.
fn short_number(digits: &Digits) -> Option<Number>
    ensures short { IfSome result (λ n. n.width ≤ 64) }
    ensures fits { IfSome result (λ n. n.value < 2 ^ n.width) }
    ensures digits { IfSome result (λ n. number_digits n.width n.value ≡ map plain_digit (reverse digits.now)) }
    ensures closed { IfSome result (λ n. open_digits digits.now ≡ 0) }
{
    let (zeros, written) = zeros_above(digits)?;
    let width = zeros as usize + written.len();
    if width > 64 {
        return None;
    }
    let value = binary_number(written)?;
    Some(Number {
        value,
        width: width as u32,
    })
}

/// What the digits that extend a constant are to a parameter in which x, z and - have no value.
fn above(fill: u8, count: u32) -> Extension
    requires { is_fill fill ≡ true }
    ensures { above_digits result ≡ replicate count (plain_digit fill) }
{
    if fill == b'0' {
        Extension::Zeros(count)
    } else {
        Extension::Markers(count)
    }
}

/// The digits of a parameter, lowest first, in which x, z and - have no value.
fn plain_digits(alloc: Global, digits: &Digits) -> Result<Constant, AllocError>
    ensures { IfOk result (λ kept. kept ≡ map plain_digit (reverse digits.now)) }
{
    let (fill, fills, written) = digits.parts();
    let row = written_row(alloc, written)?;
    Constant::extended(alloc, row, above(fill, fills))
}

fn written_row(alloc: Global, digits: &[u8]) -> Result<Vec<Digit>, AllocError>
    ensures { IfOk result (λ row. row.items ≡ map plain_digit (reverse digits.now)) }
{
    digits.iter().rev().map(|c| plain_digit(*c)).collect(alloc)
}

/// Adds free bits, numbered from `first` on.
fn push_free(row: &mut Vec<Digit>, first: u32, count: u32) -> Result<(), AllocError>
    requires { first + count < 2 ^ 32 }
    ensures { OnOk result (row.new.items ≡ row.old.items ++ free_digits first count) }
{
    for place in 0..count {
        row.push(Digit::Free(first + place))?;
    }
    Ok(())
}

/// Adds digits, of which each x, z or - is a free bit, numbered from `first` on.
fn push_numbered(row: &mut Vec<Digit>, first: u32, digits: &[u8]) -> Result<(), AllocError>
    requires { first + open_digits digits.now < 2 ^ 32 }
    ensures { OnOk result (row.new.items ≡ row.old.items ++ numbered_digits first digits.now) }
{
    let mut number = first;
    for digit in digits {
        let digit = if is_open(*digit) {
            number += 1;
            Digit::Free(number - 1)
        } else {
            plain_digit(*digit)
        };
        row.push(digit)?;
    }
    Ok(())
}

/// The digits below zeros, lowest first.
fn row_below_zeros(alloc: Global, first: u32, written: &[u8]) -> Result<Vec<Digit>, AllocError>
    requires { first + open_digits written.now < 2 ^ 32 }
    ensures { IfOk result (λ row. row.items ≡ reverse (numbered_digits first written.now)) }
{
    let mut row = Vec::new(alloc);
    push_numbered(&mut row, first, written)?;
    row.reverse();
    Ok(row)
}

/// The digits below free bits, and these, lowest first.
fn row_below_free(
    alloc: Global,
    first: u32,
    count: u32,
    written: &[u8],
) -> Result<Vec<Digit>, AllocError>
    requires { first + count + open_digits written.now < 2 ^ 32 }
    ensures { IfOk result (λ row. row.items ≡ reverse (free_digits first count ++ numbered_digits (first + count) written.now)) }
{
    let mut row = Vec::new(alloc);
    push_free(&mut row, first, count)?;
    push_numbered(&mut row, first + count, written)?;
    row.reverse();
    Ok(row)
}

/// The digits of a parameter, lowest first, where each x, z or - is a free bit, numbered from `first` on.
fn numbered_digits(alloc: Global, first: u32, digits: &Digits) -> Result<Constant, AllocError>
    requires { first + open_digits digits.now < 2 ^ 32 }
    ensures { IfOk result (λ kept. kept ≡ reverse (numbered_digits first digits.now)) }
{
    let (fill, fills, written) = digits.parts();
    if is_open(fill) {
        let row = row_below_free(alloc, first, fills, written)?;
        return Constant::new(alloc, row);
    }
    let row = row_below_zeros(alloc, first, written)?;
    Constant::extended(alloc, row, Extension::Zeros(fills))
}

/// A parameter's constant, in which x, z and - have no value.
pub fn plain_constant(alloc: Global, constant: &Written) -> Result<Constant, AllocError>
    ensures { IfOk result (λ kept. kept ≡ map plain_digit (reverse constant.now)) }
{
    if let Some(number) = constant.decimal() {
        return Ok(Constant::number_of(u64::from(number), 32));
    }
    let digits = constant.digits(alloc)?;
    if let Some(number) = short_number(&digits) {
        return Ok(Constant::number_of(number.value, number.width));
    }
    plain_digits(alloc, &digits)
}

/// A parameter's constant, in which each x, z or - is a free bit, numbered from `first` on.
pub fn numbered_constant(alloc: Global, first: u32, digits: &Digits) -> Result<Constant, AllocError>
    requires { first + open_digits digits.now < 2 ^ 32 }
    ensures { IfOk result (λ kept. kept ≡ reverse (numbered_digits first digits.now)) }
{
    if let Some(number) = short_number(digits) {
        return Ok(Constant::number_of(number.value, number.width));
    }
    numbered_digits(alloc, first, digits)
}
