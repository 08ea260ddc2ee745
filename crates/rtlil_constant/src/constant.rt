// Constants.

ghost use Rattle.std.specs.Prelude.{◌≡◌, true, ℕ, ◌≤◌, ◌^◌, List, length, None, Some, Ok, IfOk, IfErr, IfSome, MatchOption, is_some};
ghost use Rattle.rtlil_constant.specs.Constants.{number_of, binary, fill, is_fill, unmarked, sized_digits, decimal_digits, negative_digits, constant_of};
ghost use Rattle.rtlil_constant.specs.Views.{IsForm, IsRefused, digits_of};

use crate::digits::{Digits, Written, are_digits, is_open};
use crate::escape::{push_binary, text_digits};
use crate::number::{cut, number};
use std::alloc::{AllocError, Global};
use std::marker::Model;

/// No list of this many digits fits in memory.
const HUGE: u64 = 1 << 32;

/// What a constant's word says: a number of 32 bits, the text of a string, or a width, at most `u64::MAX`, and digits.
#[derive(Clone, Copy)]
pub enum Form<'a> {
    Decimal(u32),
    Text(&'a [u8]),
    Sized(u64, &'a [u8]),
}

/// What a constant's word says, with a width that memory has room for.
#[derive(Clone, Copy, Drop)]
pub enum Kept<'a> {
    Decimal(u32),
    Text(&'a [u8]),
    Sized(u32, &'a [u8]),
}

/// Why a word gives no constant.
#[derive(Clone, Copy, Debug, PartialEq, Eq)]
pub enum ConstantFault {
    /// It is no constant.
    Syntax,
    /// It has 2^32 digits or more.
    TooLong,
}

/// A constant, as a list of its digits, highest first. It costs no more than its word.
#[derive(Drop)]
pub struct Constant<'a> {
    kept: Kept<'a>,
}

impl<'a> Model for Constant<'a> {
    ghost use Rattle.std.specs.Prelude.{List, ℕ};
    ghost use Rattle.rtlil_constant.specs.Views.{digits_of};

    ghost Value = { List ℕ };

    ghost view = { λ a. digits_of a.kept };
}

/// What stands above digits that are fewer than their width.
fn fill(digits: &[u8]) -> u8
    ensures digit { result ≡ fill digits.now }
    ensures fill { is_fill result ≡ true }
{
    match digits {
        [first, ..] if is_open(*first) => *first,
        _ => b'0',
    }
}

/// The digits without an `s` before them.
fn unmarked(digits: &[u8]) -> &[u8]
    ensures { result.now ≡ unmarked digits.now }
{
    match digits {
        [b's', rest @ ..] => rest,
        _ => digits,
    }
}

/// `width'digits`, from what stands before and after the quote.
fn sized_form<'a>(least: usize, width: &[u8], written: &'a [u8]) -> Option<Form<'a>>
    ensures { MatchOption result (sized_digits least (number_of width.now) (unmarked written.now) ≡ None)
        (λ f. (ds : List ℕ) × (sized_digits least (number_of width.now) (unmarked written.now) ≡ Some ds) × IsForm f ds) }
{
    let number = number(width)?;
    let digits = unmarked(written);
    if digits.len() >= least && digits.len() as u64 <= number && are_digits(digits) {
        Some(Form::Sized(number, digits))
    } else {
        None
    }
}

/// A decimal from 0.
fn decimal_form<'a>(word: &[u8]) -> Option<Form<'a>>
    ensures { MatchOption result (decimal_digits (number_of word.now) ≡ None)
        (λ f. (ds : List ℕ) × (decimal_digits (number_of word.now) ≡ Some ds) × IsForm f ds) }
{
    let number = number(word)?;
    if number < 1 << 31 {
        Some(Form::Decimal(number as u32))
    } else {
        None
    }
}

/// A decimal below 0, from the digits after its minus.
fn negative_form<'a>(digits: &[u8]) -> Option<Form<'a>>
    ensures { MatchOption result (negative_digits (number_of digits.now) ≡ None)
        (λ f. (ds : List ℕ) × (negative_digits (number_of digits.now) ≡ Some ds) × IsForm f ds) }
{
    let number = number(digits)?;
    if number == 0 {
        Some(Form::Decimal(0))
    } else if number <= 1 << 31 {
        Some(Form::Decimal((HUGE - number) as u32))
    } else {
        None
    }
}

/// A constant with at least `least` digits after its width.
fn form_of(least: usize, word: &[u8]) -> Option<Form<'_>>
    ensures { MatchOption result (constant_of least word.now ≡ None)
        (λ f. (ds : List ℕ) × (constant_of least word.now ≡ Some ds) × IsForm f ds) }
{
    match word {
        [] => None,
        [b'"', text @ ..] => Some(Form::Text(&text[..text.len().saturating_sub(1)])),
        [b'-', digits @ ..] => negative_form(digits),
        _ => match cut(word, b'\'') {
            Some((width, digits)) => sized_form(least, width, digits),
            None => decimal_form(word),
        },
    }
}

/// Whether the word is a constant.
pub fn is_constant(least: usize, word: &[u8]) -> bool
    ensures { result ≡ is_some (constant_of least word.now) }
{
    form_of(least, word).is_some()
}

/// The constant of a word, with at least `least` digits after its width.
///
/// A decimal has 32 digits, in two's complement, a string eight for each byte; fewer digits than the width are extended on the
/// left, by 0 or by the leftmost where that is x, z or -.
pub fn parse(least: usize, word: &[u8]) -> Result<Constant<'_>, ConstantFault>
    ensures ok { IfOk result (λ c. constant_of least word.now ≡ Some c) }
    ensures err { IfErr result (λ e. IsRefused e (constant_of least word.now)) }
{
    match form_of(least, word) {
        None => Err(ConstantFault::Syntax),
        Some(form) => with_room(form),
    }
}

/// A form whose width has room in memory.
fn with_room<'a>(form: Form<'a>) -> Result<Constant<'a>, ConstantFault>
    requires { (ds : List ℕ) × IsForm form ds }
    ensures ok { IfOk result (λ c. (ds : List ℕ) → IsForm form.entry ds → c ≡ ds) }
    ensures err { IfErr result (λ e. (ds : List ℕ) → IsForm form.entry ds → IsRefused e (Some ds)) }
{
    let kept = match form {
        Form::Decimal(number) => Kept::Decimal(number),
        Form::Text(inside) => Kept::Text(inside),
        Form::Sized(width, digits) => {
            if width >= HUGE {
                return Err(ConstantFault::TooLong);
            }
            Kept::Sized(width as u32, digits)
        }
    };
    Ok(Constant { kept })
}

impl<'a> Constant<'a> {
    /// The number below 2^32 of a constant that is written as a decimal.
    pub fn decimal(&self) -> Option<u32>
        ensures { IfSome result (λ n. self.now ≡ binary 32 n) }
    {
        match self.kept {
            Kept::Decimal(number) => Some(number),
            Kept::Text(_) | Kept::Sized(_, _) => None,
        }
    }

    /// The digits, one by one but for those that extend it.
    pub fn digits(&self, alloc: Global) -> Result<Digits<'a>, AllocError>
        ensures { IfOk result (λ digits. digits ≡ self.now) }
    {
        match self.kept {
            Kept::Decimal(number) => {
                let mut digits = Vec::new(alloc);
                push_binary(&mut digits, 32, u64::from(number))?;
                Ok(Digits::new(b'0', 0, Written::Made(digits)))
            }
            Kept::Text(inside) => {
                let digits = text_digits(alloc, inside)?;
                Ok(Digits::new(b'0', 0, Written::Made(digits)))
            }
            Kept::Sized(width, digits) => {
                let fills = (width as usize).saturating_sub(digits.len());
                Ok(Digits::new(fill(digits), fills as u32, Written::Text(digits)))
            }
        }
    }
}
