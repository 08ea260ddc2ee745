// Parameters as numbers of any size, and how many bits signals have.

ghost use Rattle.std.specs.Prelude.{◌≡◌, ◌+◌, ◌-◌, ◌*◌, ◌<◌, ◌≤◌, ◌^◌, All, drop, leb, length};
ghost use Rattle.design_core.specs.Asked.{has_number, number_at};
ghost use Rattle.design_core.specs.Digits.{digit_number, digits_number};
ghost use Rattle.design_check.specs.Faults.{flag};
ghost use Rattle.design_check.specs.Numbers.{IsNumber};
ghost use Rattle.design_signals.specs.Chunks.{IsChunk, bits_of};

use design_core::cell::Cell;
use design_core::digit::{Constant, Digit};
use design_core::names::ParameterName;
use design_signals::chunk::Chunk;

fn digit_number(digit: Digit) -> u64
    ensures value { result ≡ digit_number digit }
    ensures bit { result ≤ 1 }
{
    match digit {
        Digit::Const(true) => 1,
        Digit::Const(false) | Digit::Free(_) | Digit::Marker => 0,
    }
}

// The digit at a place as a number; 0 where there is none.
fn digit_at(constant: &Constant, place: usize) -> u64
    ensures digit { digits_number (drop place constant.now) ≡ result + 2 * digits_number (drop (place + 1) constant.now) }
    ensures bit { result ≤ 1 }
{
    if place < constant.len() {
        digit_number(constant.digit(place))
    } else {
        0
    }
}

// A constant's number, if 64 bits hold it; a digit that isn't 1 counts as 0.
fn value(constant: &Constant) -> Option<u64>
    ensures { IsNumber result (digits_number constant.now) }
{
    if let Some(number) = constant.number() {
        return Some(number);
    }
    let mut number = 0u64;
    for place in (0..constant.kept()).rev() {
        let digit = digit_at(constant, place);
        if number > (u64::MAX - digit) / 2 {
            return None;
        }
        number = 2 * number + digit;
    }
    Some(number)
}

// A cell's parameter as a number, if 64 bits hold it; 0 where it isn't there.
pub(crate) fn number(cell: &Cell, name: ParameterName) -> Option<u64>
    ensures { IsNumber result (number_at cell.now.parameters name) }
{
    match cell.parameter(name) {
        Some(constant) => value(constant),
        None => Some(0),
    }
}

// Whether a parameter is there and has no digit but 0 and 1.
pub(crate) fn has_number(cell: &Cell, name: ParameterName) -> bool
    ensures { result ≡ has_number cell.now.parameters name }
{
    match cell.parameter(name) {
        Some(constant) => constant.is_number(),
        None => false,
    }
}

// Whether a parameter isn't 0.
pub(crate) fn flag(cell: &Cell, name: ParameterName) -> bool
    ensures { result ≡ flag cell.now name }
{
    number(cell, name) != Some(0)
}

// Whether the sum of two numbers of any size is at most a third: digit by digit from the highest, what is left over, from -1 to 2,
// and 1 more.
pub(crate) fn is_sum_within(left: &Constant, right: &Constant, whole: &Constant) -> bool
    ensures { result ≡ leb (digits_number left.now + digits_number right.now) (digits_number whole.now) }
{
    let mut spare = 1u64;
    let places = left.kept().max(right.kept()).max(whole.kept());
    for place in (0..places).rev() {
        let more = 2 * spare + digit_at(whole, place);
        let less = 1 + digit_at(left, place) + digit_at(right, place);
        spare = more.saturating_sub(less).min(3);
    }
    spare > 0
}

fn chunk_width(chunk: Chunk) -> u128
    ensures width { result ≡ chunk.width }
    ensures few { result < 2 ^ 32 }
{
    u128::from(chunk.width)
}

// How many bits chunks have.
pub(crate) fn bit_count(chunks: &[Chunk]) -> u128
    ensures count { result ≡ length (bits_of chunks.now) }
    ensures few { result < 2 ^ 96 }
{
    let mut count = 0u128;
    for chunk in chunks {
        count += chunk_width(*chunk);
    }
    count
}
