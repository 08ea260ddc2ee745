// The start digits of wires.

ghost use Rattle.std.specs.Prelude.{◌≡◌, map, reverse, take, IfOk};
ghost use Rattle.design_reader.specs.Grammar.{start_digit, start_digits};

use crate::copies::push_copies;
use design_core::wire::StartDigits;
use rtlil_constant::constant::Constant;
use rtlil_constant::digits::Digits;
use std::alloc::{AllocError, Global};

fn start_digit(digit: u8) -> Option<bool>
    ensures { result ≡ start_digit digit }
{
    match digit {
        b'0' => Some(false),
        b'1' => Some(true),
        _ => None,
    }
}

/// The lowest digits of those that are written, at most `width` of them, lowest first.
fn written_start(
    alloc: Global,
    width: usize,
    digits: &[u8],
) -> Result<Vec<Option<bool>>, AllocError>
    ensures { IfOk result (λ start. start.items ≡ map start_digit (take width (reverse digits.now))) }
{
    digits
        .iter()
        .rev()
        .take(width)
        .map(|c| start_digit(*c))
        .collect(alloc)
}

/// The start digits of a wire of `width` bits.
fn start(alloc: Global, width: u32, digits: &Digits) -> Result<StartDigits, AllocError>
    ensures { IfOk result (λ start. start ≡ start_digits width digits.now) }
{
    let (fill, fills, written) = digits.parts();
    let width = width as usize;
    let mut start = written_start(alloc, width, written)?;
    let more = (width - start.len()).min(fills as usize);
    push_copies(&mut start, start_digit(fill), more)?;
    Ok(StartDigits::new(start))
}

/// The start digits of each `\init` attribute of a wire of `width` bits.
pub fn starts(alloc: Global, width: u32, inits: &[Constant]) -> Result<Vec<StartDigits>, AllocError>
    ensures { IfOk result (λ starts. starts.items ≡ map (λ digits. start_digits width digits) inits.now) }
{
    let mut starts = Vec::new(alloc);
    for init in inits {
        let digits = init.digits(alloc)?;
        let start = start(alloc, width, &digits)?;
        let Ok(()) = starts.push(start) else {
            return Err(AllocError);
        };
    }
    Ok(starts)
}
