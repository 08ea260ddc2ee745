// The words that ask to serve connections.

ghost use Rattle.std.specs.Prelude.{◌≡◌, ℕ, List, [], ◌∷◌, codes, map, string_bytes, IfNone, IfSome};
ghost use Rattle.cdcl_words.specs.Asking.{AsksToServe};

use sby_terms::{is_address, number_upto, numbers_are_decimal};

/// The most connections that may be asked for.
pub const MAX_CONNECTIONS: u32 = 1_000_000;

/// What the words ask for: to serve a number of connections that come to an address.
#[derive(Clone, Copy)]
pub struct Serving<'a> {
    pub address: &'a str,
    pub count: u32,
}

// The address and the number of connections of `--serve`, an address, `--count` and a number.
fn read_parts<'a>(words: &'a [String]) -> Option<(&'a String, &'a String)>
    ensures some { IfSome result (λ a. map string_bytes words.now ≡ codes "--serve" ∷ string_bytes a.0.now ∷ codes "--count" ∷ string_bytes a.1.now ∷ []) }
    ensures none { IfNone result ((address number : List ℕ) → map string_bytes words.now ≡ codes "--serve" ∷ address ∷ codes "--count" ∷ number ∷ [] → ⊥) }
{
    match words {
        [serve, address, count, number]
            if serve.as_str() == "--serve" && count.as_str() == "--count" => {
            Some((address, number))
        }
        _ => None,
    }
}

/// Reads the words after the program's name: `--serve`, a host and a port from 1 to 65,535 with a colon between them, `--count` and a
/// number of connections from 1 to `MAX_CONNECTIONS`.
pub fn read_serving(words: &[String]) -> Option<Serving<'_>>
    ensures some { IfSome result (λ a. AsksToServe (map string_bytes words.now) a.address.now a.count) }
    ensures none { IfNone result ((address : List ℕ) (count : ℕ) → AsksToServe (map string_bytes words.now) address count → ⊥) }
{
    let (address, number) = read_parts(words)?;
    if !is_address(address.as_bytes()) {
        return None;
    }
    numbers_are_decimal();
    match number_upto(MAX_CONNECTIONS, number.as_bytes()) {
        Some(count) => Some(Serving {
            address: address.as_str(),
            count,
        }),
        None => None,
    }
}
