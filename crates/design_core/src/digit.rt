// The constants of parameters.

ghost use Rattle.std.specs.Prelude.{◌≡◌, ◌≤◌, ◌<◌, ◌^◌, ◌⊎◌, ◌++◌, drop, length, slice_get, Some, IfOk, IfSome, IfNone, true, false};
ghost use Rattle.std.specs.List.{list_all};
ghost use Rattle.design_core.specs.Digits.{digit_number, digits_number, is_binary, is_number, is_value, number_digits};
ghost use Rattle.design_core.specs.Digits.{above_digit, above_digits};

use std::alloc::{AllocError, Global};
use std::marker::Model;

/// A digit of a parameter: 0 or 1; an x, z or -, which is a free bit; or an m, which has no value.
#[derive(Clone, Copy, Debug, PartialEq, Eq)]
pub enum Digit {
    Const(bool),
    Free(u32),
    Marker,
}

/// What stands above the digits that are kept one by one: this many zeros, or digits without a value.
#[derive(Clone, Copy, Debug, PartialEq, Eq)]
pub enum Extension {
    Zeros(u32),
    Markers(u32),
}

/// Digits, lowest first, and what stands above them.
#[derive(Drop)]
pub struct LongDigits {
    pub digits: Vec<Digit>,
    pub above: Extension,
}

/// How a constant is kept: a number below two to its width, or its digits.
#[derive(Drop)]
pub enum ConstantParts {
    Number(u64, u32),
    Digits(Box<LongDigits>),
}

/// A constant: its digits, lowest first.
#[derive(Drop)]
pub struct Constant {
    parts: ConstantParts,
}

impl Model for Constant {
    ghost use Rattle.std.specs.Prelude.{List};
    ghost use Rattle.design_core.specs.declared.digit.Digit.{Digit};
    ghost use Rattle.design_core.specs.Constants.{IsConstant, digits_in};

    ghost Value = { List Digit };

    ghost view = { λ a. digits_in a.parts };

    ghost invariant = { λ a. IsConstant a.parts };
}

impl Constant {
    /// A number of this many digits.
    pub fn number_of(value: u64, width: u32) -> Constant
        requires short { width ≤ 64 }
        requires fits { value < 2 ^ width }
        ensures { result ≡ number_digits width value }
    {
        Constant {
            parts: ConstantParts::Number(value, width),
        }
    }

    /// A constant of these digits, lowest first.
    pub fn new(alloc: Global, digits: Vec<Digit>) -> Result<Constant, AllocError>
        ensures { IfOk result (λ constant. constant ≡ digits.items) }
    {
        Constant::extended(alloc, digits, Extension::Zeros(0))
    }

    /// A constant of these digits, lowest first, and of those above them, which take no room.
    pub fn extended(
        alloc: Global,
        digits: Vec<Digit>,
        above: Extension,
    ) -> Result<Constant, AllocError>
        ensures { IfOk result (λ constant. constant ≡ digits.items ++ above_digits above) }
    {
        let long = LongDigits { digits, above };
        Ok(Constant {
            parts: ConstantParts::Digits(Box::new(alloc, long)?),
        })
    }

    /// How many digits it has.
    pub fn len(&self) -> usize
        ensures { result ≡ length self.now }
    {
        match &self.parts {
            ConstantParts::Number(_, width) => *width as usize,
            ConstantParts::Digits(long) => long.digits.len() + above_count(long.above),
        }
    }

    /// The digit at a place, the lowest at 0.
    pub fn digit(&self, place: usize) -> Digit
        requires { place < length self.now }
        ensures { slice_get self.now place ≡ Some result }
    {
        match &self.parts {
            ConstantParts::Number(value, _) => Digit::Const((*value >> place) % 2 == 1),
            ConstantParts::Digits(long) => long_digit(long.digits.as_slice(), long.above, place),
        }
    }

    /// Whether it has no digit but 0 and 1.
    pub fn is_number(&self) -> bool
        ensures { result ≡ is_number self.now }
    {
        match &self.parts {
            ConstantParts::Number(_, _) => true,
            ConstantParts::Digits(long) => {
                are_binary(long.digits.as_slice()) && has_values(long.above)
            }
        }
    }

    /// Whether each digit is 0, 1 or a free bit.
    pub fn are_values(&self) -> bool
        ensures { result ≡ list_all is_value self.now }
    {
        match &self.parts {
            ConstantParts::Number(_, _) => true,
            ConstantParts::Digits(long) => are_values(long.digits.as_slice())
                && has_values(long.above),
        }
    }

    /// How many of its digits, from the lowest, are kept one by one: none above them counts for its number.
    pub fn kept(&self) -> usize
        ensures within { result ≤ length self.now }
        ensures above { digits_number (drop result self.now) ≡ 0 }
    {
        match &self.parts {
            ConstantParts::Number(_, width) => *width as usize,
            ConstantParts::Digits(long) => long.digits.as_slice().len(),
        }
    }

    /// The constant as a number, where it has no digit but 0 and 1, and 64 bits hold it.
    pub fn number(&self) -> Option<u64>
        ensures some { IfSome result (λ n. (is_number self.now ≡ true) × (n ≡ digits_number self.now)) }
        ensures none { IfNone result ((is_number self.now ≡ false) ⊎ (2 ^ 64 ≤ digits_number self.now)) }
    {
        match &self.parts {
            ConstantParts::Number(value, _) => Some(*value),
            ConstantParts::Digits(long) => long_number(long.digits.as_slice(), long.above),
        }
    }
}

fn above_count(above: Extension) -> usize
    ensures count { result ≡ length (above_digits above) }
    ensures few { result < 2 ^ 32 }
{
    match above {
        Extension::Zeros(count) | Extension::Markers(count) => count as usize,
    }
}

// Whether each digit that stands above others, if there are some, has a value: it is 0.
fn has_values(above: Extension) -> bool
    ensures binary { result ≡ is_number (above_digits above) }
    ensures values { result ≡ list_all is_value (above_digits above) }
{
    match above {
        Extension::Zeros(_) => true,
        Extension::Markers(count) => count == 0,
    }
}

fn above_digit(above: Extension) -> Digit
    ensures { result ≡ above_digit above }
{
    match above {
        Extension::Zeros(_) => Digit::Const(false),
        Extension::Markers(_) => Digit::Marker,
    }
}

fn long_digit(digits: &[Digit], above: Extension, place: usize) -> Digit
    requires { place < length (digits.now ++ above_digits above) }
    ensures { slice_get (digits.now ++ above_digits above) place ≡ Some result }
{
    if place < digits.len() {
        digits[place]
    } else {
        above_digit(above)
    }
}

// The number of digits and those above them, where each is 0 or 1, and 64 bits hold it.
fn long_number(digits: &[Digit], above: Extension) -> Option<u64>
    ensures some { IfSome result (λ n. (is_number (digits.now ++ above_digits above) ≡ true) × (n ≡ digits_number (digits.now ++ above_digits above))) }
    ensures none { IfNone result ((is_number (digits.now ++ above_digits above) ≡ false) ⊎ (2 ^ 64 ≤ digits_number (digits.now ++ above_digits above))) }
{
    match above {
        Extension::Zeros(_) => number_in(digits),
        Extension::Markers(count) if count > 0 => None,
        Extension::Markers(_) => number_in(digits),
    }
}

// Digits as a number, where each is 0 or 1, and 64 bits hold it.
fn number_in(digits: &[Digit]) -> Option<u64>
    ensures some { IfSome result (λ n. (is_number digits.now ≡ true) × (n ≡ digits_number digits.now)) }
    ensures none { IfNone result ((is_number digits.now ≡ false) ⊎ (2 ^ 64 ≤ digits_number digits.now)) }
{
    if are_binary(digits) {
        binary_number(digits)
    } else {
        None
    }
}

// The number of digits, if 64 bits hold it; a digit that isn't 1 counts as 0.
fn binary_number(digits: &[Digit]) -> Option<u64>
    ensures some { IfSome result (λ n. n ≡ digits_number digits.now) }
    ensures none { IfNone result (2 ^ 64 ≤ digits_number digits.now) }
{
    let mut number = 0u64;
    for place in (0..digits.len()).rev() {
        let digit = digit_number(digits[place]);
        if number > (u64::MAX - digit) / 2 {
            return None;
        }
        number = 2 * number + digit;
    }
    Some(number)
}

fn digit_number(digit: Digit) -> u64
    ensures value { result ≡ digit_number digit }
    ensures bit { result ≤ 1 }
{
    match digit {
        Digit::Const(true) => 1,
        Digit::Const(false) | Digit::Free(_) | Digit::Marker => 0,
    }
}

fn are_binary(digits: &[Digit]) -> bool
    ensures { result ≡ is_number digits.now }
{
    digits.iter().all(|digit| is_binary(*digit))
}

fn are_values(digits: &[Digit]) -> bool
    ensures { result ≡ list_all is_value digits.now }
{
    digits.iter().all(|digit| is_value(*digit))
}

fn is_value(digit: Digit) -> bool
    ensures { result ≡ is_value digit }
{
    matches!(digit, Digit::Const(_) | Digit::Free(_))
}

fn is_binary(digit: Digit) -> bool
    ensures { result ≡ is_binary digit }
{
    matches!(digit, Digit::Const(_))
}
