// Digits as the bits of a signal.

ghost use Rattle.std.specs.Prelude.{◌≡◌, true, cond, ◌+◌, ◌<◌, ◌≤◌, ◌^◌, ◌∷◌, length, map, OnOk};
ghost use Rattle.design_signals.specs.Chunks.{HasRoom};
ghost use Rattle.design_signals.specs.declared.sig_bit.SigBit.TheVariants.{Free};
ghost use Rattle.rtlil_constant.specs.Constants.{is_open, open_digits};
ghost use Rattle.design_reader.specs.Grammar.{numbered_bits, plain_bit};
ghost use Rattle.design_reader.specs.Runs.{below, bits_run, plain_run};

use design_signals::segments::Segments;
use design_signals::sig_bit::SigBit;
use rtlil_constant::digits::{Digits, is_open};
use std::alloc::AllocError;

/// The number of the next free bit after one digit, this many times.
pub fn number_behind(first: u32, digit: u8, count: u32) -> u32
    requires { is_open digit ≡ true → first + count < 2 ^ 32 }
    ensures { result ≡ cond (is_open digit) (first + count) first }
{
    if is_open(digit) { first + count } else { first }
}

/// The bit of a digit, where the next free bit has this number.
fn numbered_bit(number: u32, digit: u8) -> SigBit
    ensures bit { result ≡ cond (is_open digit) (Free number) (plain_bit digit) }
    ensures room { HasRoom result 1 }
{
    if is_open(digit) {
        SigBit::Free(number)
    } else {
        SigBit::Const(digit == b'1')
    }
}

/// A row of one digit, this many times, without free bits.
fn push_plain_run(segments: &mut Segments, digit: u8, count: u32) -> Result<(), AllocError>
    ensures { OnOk result (segments.new ≡ plain_run digit count ∷ segments.old) }
{
    if count == 0 {
        segments.open()
    } else {
        segments.push_const(digit == b'1', count)
    }
}

/// A row of one digit, this many times; an x, z or - is a free bit each time, numbered from `first` on.
fn push_run(segments: &mut Segments, first: u32, digit: u8, count: u32) -> Result<(), AllocError>
    requires { is_open digit ≡ true → first + count ≤ 2 ^ 32 }
    ensures { OnOk result (segments.new ≡ bits_run first digit count ∷ segments.old) }
{
    if is_open(digit) && count > 0 {
        segments.push_free(first, count)
    } else {
        push_plain_run(segments, digit, count)
    }
}

/// Adds the bits of digits below the last row, without free bits.
fn plain_below(segments: &mut Segments, digits: &[u8]) -> Result<(), AllocError>
    requires { 1 ≤ length segments.old }
    ensures { OnOk result (segments.new ≡ below segments.old (map plain_bit digits.now)) }
{
    for digit in digits {
        segments.push_bit(SigBit::Const(*digit == b'1'))?;
    }
    Ok(())
}

/// Adds the bits of digits below the last row, of which each x, z or - is a free bit, numbered from `first` on.
fn numbered_below(segments: &mut Segments, first: u32, digits: &[u8]) -> Result<(), AllocError>
    requires some { 1 ≤ length segments.old }
    requires fits { first + open_digits digits.now < 2 ^ 32 }
    ensures { OnOk result (segments.new ≡ below segments.old (numbered_bits first digits.now)) }
{
    let mut number = first;
    for digit in digits {
        let bit = numbered_bit(number, *digit);
        number = number_behind(number, *digit, 1);
        segments.push_bit(bit)?;
    }
    Ok(())
}

/// Adds the bits of digits as a row, without free bits.
pub fn push_plain(segments: &mut Segments, digits: &Digits) -> Result<(), AllocError>
    ensures { OnOk result (segments.new ≡ map plain_bit digits.now ∷ segments.old) }
{
    let (fill, fills, written) = digits.parts();
    push_plain_run(segments, fill, fills)?;
    plain_below(segments, written)
}

/// Adds the bits of digits as a row, where each x, z or - is a free bit, numbered from `first` on.
pub fn push_numbered(segments: &mut Segments, first: u32, digits: &Digits) -> Result<(), AllocError>
    requires { first + open_digits digits.now < 2 ^ 32 }
    ensures { OnOk result (segments.new ≡ numbered_bits first digits.now ∷ segments.old) }
{
    let (fill, fills, written) = digits.parts();
    let behind = number_behind(first, fill, fills);
    push_run(segments, first, fill, fills)?;
    numbered_below(segments, behind, written)
}
