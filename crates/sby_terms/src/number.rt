// Decimal numbers, as options, words and streams write them.

ghost use Rattle.std.specs.Prelude.{◌≡◌, ◌↔◌, ◌≤◌, ℕ, List, Some};
ghost use Rattle.std.specs.Fmt.{decimal};
ghost use Rattle.sby_terms.specs.Number.{number_upto};

/// The number that the digits write, without a leading 0, where it is from 1 to `most`.
pub fn number_upto(most: u32, digits: &[u8]) -> Option<u32>
    ensures { result ≡ number_upto most digits.now }
{
    if digits.is_empty() {
        return None;
    }
    if digits[0] == b'0' {
        return None;
    }
    let mut value = 0u64;
    for b in digits {
        if !b.is_ascii_digit() {
            return None;
        }
        value = value * 10 + u64::from(*b - b'0');
        if value > u64::from(most) {
            return None;
        }
    }
    Some(value as u32)
}

/// A law: a word writes a number from 1 to `most` exactly where it is the number's decimal text.
pub fn numbers_are_decimal()
    ensures { (most n : ℕ) (word : List ℕ) → most ≤ 18446744073709551615
        → (number_upto most word ≡ Some n) ↔ ((word ≡ decimal n) × (1 ≤ n) × (n ≤ most)) }
{}
