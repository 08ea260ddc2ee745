// The text of strings.

ghost use Rattle.std.specs.Prelude.{◌≡◌, ◌≤◌, ◌++◌, true, length, IfOk, OnOk};
ghost use Rattle.rtlil_constant.specs.Constants.{is_octal, is_octal_escape, octal_number, character, escaped, escape_length, unescaped, string_digits, binary};

use std::alloc::{AllocError, Global};

/// Adds the lowest `count` bits of a number, the highest of them first.
pub fn push_binary(digits: &mut Vec<u8>, count: u32, number: u64) -> Result<(), AllocError>
    requires { count ≤ 32 }
    ensures { OnOk result (digits.new.items ≡ digits.old.items ++ binary count number) }
{
    let mut place = count;
    'bits: while place > 0 {
        place -= 1;
        let bit = (number >> place) % 2;
        let Ok(()) = digits.push(b'0' + bit as u8) else {
            return Err(AllocError);
        };
    }
    Ok(())
}

fn is_octal(c: u8) -> bool
    ensures { result ≡ is_octal c }
{
    48 <= c && c <= 55
}

/// Whether three octal digits come.
fn is_octal_escape(bytes: &[u8]) -> bool
    ensures { result ≡ is_octal_escape bytes.now }
{
    match bytes {
        [a, b, c, ..] => is_octal(*a) && is_octal(*b) && is_octal(*c),
        _ => false,
    }
}

/// What a character after a backslash stands for.
fn character(c: u8) -> u8
    ensures { result ≡ character c }
{
    match c {
        b'n' => b'\n',
        b't' => b'\t',
        _ => c,
    }
}

/// The number of three octal digits.
fn octal_number(bytes: &[u8]) -> u64
    requires { is_octal_escape bytes.now ≡ true }
    ensures { result ≡ octal_number bytes.now }
{
    match bytes {
        [a, b, c, ..] => u64::from(*a - 48) * 64 + u64::from(*b - 48) * 8 + u64::from(*c - 48),
        _ => unreachable!(),
    }
}

/// What the bytes after a backslash stand for, and how many of them do.
fn escape(bytes: &[u8]) -> (u64, usize)
    ensures byte { result.0 ≡ escaped bytes.now }
    ensures len { result.1 ≡ escape_length bytes.now }
    ensures within { result.1 ≤ length bytes.now }
{
    match bytes {
        [] => (u64::from(b'\\'), 0),
        [first, ..] => {
            if is_octal_escape(bytes) {
                (octal_number(bytes), 3)
            } else {
                (u64::from(character(*first)), 1)
            }
        }
    }
}

/// The digits of a string's text, eight for each byte.
pub fn text_digits(alloc: Global, inside: &[u8]) -> Result<Vec<u8>, AllocError>
    ensures { IfOk result (λ digits. digits.items ≡ string_digits (unescaped 0 inside.now)) }
{
    let mut digits = Vec::new(alloc);
    let mut rest = inside;
    'bytes: while let [first, after @ ..] = rest {
        if *first == b'\\' {
            let (byte, len) = escape(after);
            push_binary(&mut digits, 8, byte)?;
            rest = &after[len..];
        } else {
            push_binary(&mut digits, 8, u64::from(*first))?;
            rest = after;
        }
    }
    Ok(digits)
}
