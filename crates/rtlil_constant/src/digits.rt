// The digits of a constant.

ghost use Rattle.std.specs.Prelude.{◌≡◌, true, ◌++◌, ◌≤◌, length, replicate};
ghost use Rattle.std.specs.List.{list_all, list_any};
ghost use Rattle.rtlil_constant.specs.Constants.{is_digit, is_fill, is_marker, is_open, open_digits};
ghost use Rattle.rtlil_constant.specs.Views.{written_digits};

use std::marker::Model;

/// x, z and -, which have no value.
pub fn is_open(c: u8) -> bool
    ensures { result ≡ is_open c }
{
    c == b'x' || c == b'z' || c == b'-'
}

/// m, which stands for no bit.
fn is_marker(c: u8) -> bool
    ensures { result ≡ is_marker c }
{
    c == b'm'
}

fn is_digit(c: u8) -> bool
    ensures { result ≡ is_digit c }
{
    c == b'0' || c == b'1' || is_open(c) || is_marker(c)
}

pub fn are_digits(digits: &[u8]) -> bool
    ensures { result ≡ list_all is_digit digits.now }
{
    digits.iter().all(|c| is_digit(*c))
}

fn any_marker(digits: &[u8]) -> bool
    ensures { result ≡ list_any is_marker digits.now }
{
    digits.iter().any(|c| is_marker(*c))
}

/// How many of the digits are x, z or -.
pub fn open_digits(digits: &[u8]) -> usize
    ensures count { result ≡ open_digits digits.now }
    ensures few { result ≤ length digits.now }
{
    let mut count = 0;
    for digit in digits {
        if is_open(*digit) {
            count += 1;
        }
    }
    count
}

/// Digits as they stand in the text, or as they are made from it.
#[derive(Drop)]
pub enum Written<'a> {
    Text(&'a [u8]),
    Made(Vec<u8>),
}

/// The digits of a constant, highest first, each one of `01xzm-`: one digit, this many times, and those that stand below it.
#[derive(Drop)]
pub struct Digits<'a> {
    fill: u8,
    fills: u32,
    written: Written<'a>,
}

impl<'a> Model for Digits<'a> {
    ghost use Rattle.std.specs.Prelude.{◌≡◌, true, List, ℕ, ◌++◌, replicate};
    ghost use Rattle.rtlil_constant.specs.Constants.{is_fill};
    ghost use Rattle.rtlil_constant.specs.Views.{written_digits};

    ghost Value = { List ℕ };

    ghost view = { λ a. replicate a.fills a.fill ++ written_digits a.written };

    ghost invariant = { λ a. is_fill a.fill ≡ true };
}

impl<'a> Digits<'a> {
    /// A digit, this many times, and digits below it.
    pub fn new(fill: u8, fills: u32, written: Written<'a>) -> Digits<'a>
        requires { is_fill fill ≡ true }
        ensures { result ≡ replicate fills fill ++ written_digits written.entry }
    {
        Digits {
            fill,
            fills,
            written,
        }
    }

    /// The digit that stands highest, how often it does, and the digits below.
    pub fn parts(&self) -> (u8, u32, &[u8])
        ensures digits { self.now ≡ replicate result.1 result.0 ++ result.2.now }
        ensures fill { is_fill result.0 ≡ true }
    {
        let written = match &self.written {
            Written::Text(digits) => digits,
            Written::Made(digits) => digits.as_slice(),
        };
        (self.fill, self.fills, written)
    }

    /// How many digits there are.
    pub fn len(&self) -> usize
        ensures { result ≡ length self.now }
    {
        let (_, fills, written) = self.parts();
        fills as usize + written.len()
    }

    /// Whether there is an m among the digits.
    pub fn has_marker(&self) -> bool
        ensures { result ≡ list_any is_marker self.now }
    {
        let (fill, fills, written) = self.parts();
        if fills > 0 {
            return is_marker(fill) || any_marker(written);
        }
        any_marker(written)
    }

    /// How many of the digits are x, z or -.
    pub fn open_count(&self) -> usize
        ensures { result ≡ open_digits self.now }
    {
        let (fill, fills, written) = self.parts();
        if is_open(fill) {
            fills as usize + open_digits(written)
        } else {
            open_digits(written)
        }
    }
}
