// Words that are numbers.

ghost use Rattle.std.specs.Prelude.{◌≡◌, IfSome, IsTrue, IsSome, ◌↔◌, ◌||◌, codes, bytes_eq};
ghost use Rattle.sby_terms.specs.Number.{is_number};
ghost use Rattle.btor_text.specs.Reading.{is_numeral, number_of};

use sby_terms::number_upto;

fn is_digits(word: &[u8]) -> bool
    ensures { result ≡ is_number word.now }
{
    if word.is_empty() {
        return false;
    }
    if word[0] == b'0' {
        return false;
    }
    for b in word {
        if !b.is_ascii_digit() {
            return false;
        }
    }
    true
}

// The number that a word writes; the greatest of 32 bits for all past it.
pub(crate) fn number(word: &[u8]) -> Option<u32>
    ensures { result ≡ number_of word.now }
{
    if word == b"0".as_slice() {
        return Some(0);
    }
    if let Some(n) = number_upto(u32::MAX, word) {
        return Some(n);
    }
    if is_digits(word) {
        Some(u32::MAX)
    } else {
        None
    }
}
