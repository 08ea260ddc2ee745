// Numbers and indices.

ghost use Rattle.std.specs.Prelude.{◌≡◌, ℕ, None, Some, MatchOption, min, is_some};
ghost use Rattle.rtlil_constant.specs.Constants.{number_of, unsigned, cut, slice_of, two_indices};
ghost use Rattle.rtlil_constant.specs.Views.{AreIndices, cut_view};

/// The number of a word of decimal digits, at most `u64::MAX`.
pub fn number(word: &[u8]) -> Option<u64>
    ensures { MatchOption result (number_of word.now ≡ None)
        (λ x. (n : ℕ) × (number_of word.now ≡ Some n) × (x ≡ min n 18446744073709551615)) }
{
    if word.is_empty() {
        return None;
    }
    let mut value = 0u64;
    let mut rest = word;
    'digits: while let [digit, after @ ..] = rest {
        if !digit.is_ascii_digit() {
            return None;
        }
        value = value
            .saturating_mul(10)
            .saturating_add(u64::from(*digit - b'0'));
        rest = after;
    }
    Some(value)
}

/// Whether the word is a number.
pub fn is_number(word: &[u8]) -> bool
    ensures { result ≡ is_some (number_of word.now) }
{
    number(word).is_some()
}

/// Whether the word is a number, perhaps with a minus before it.
pub fn is_signed_number(word: &[u8]) -> bool
    ensures { result ≡ is_some (number_of (unsigned word.now)) }
{
    match word {
        [b'-', digits @ ..] => is_number(digits),
        _ => is_number(word),
    }
}

/// What stands before and after the first of these bytes.
pub fn cut(word: &[u8], mark: u8) -> Option<(&[u8], &[u8])>
    ensures { cut_view result ≡ cut mark word.now }
{
    let mut rest = word;
    'bytes: while let [first, after @ ..] = rest {
        if *first == mark {
            return Some((&word[..word.len() - rest.len()], after));
        }
        rest = after;
    }
    None
}

/// The indices of `[n]` or `[n:m]`, the highest and the lowest, each at most `u64::MAX`.
pub fn slice_indices(word: &[u8]) -> Option<(u64, u64)>
    ensures { AreIndices result (slice_of word.now) }
{
    match word {
        [b'[', inside @ .., b']'] => match cut(inside, b':') {
            Some((high, low)) => two_indices(high, low),
            None => {
                let index = number(inside)?;
                Some((index, index))
            }
        },
        _ => None,
    }
}

fn two_indices(high: &[u8], low: &[u8]) -> Option<(u64, u64)>
    ensures { AreIndices result (two_indices (number_of high.now) (number_of low.now)) }
{
    let high = number(high)?;
    let low = number(low)?;
    Some((high, low))
}
