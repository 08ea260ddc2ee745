// The address of a connection.

ghost use Rattle.std.specs.Prelude.{◌≡◌, ◌↔◌, ℕ, List, IsTrue, true};
ghost use Rattle.sby_terms.specs.Address.{IsAddress, is_address};

use crate::number::{number_upto, numbers_are_decimal};
use memchr::memrchr;

// The greatest port.
const MAX_PORT: u32 = 65535;

/// Whether a word is a host, a colon and a port from 1 to 65,535, without a leading 0.
pub fn is_address(word: &[u8]) -> bool
    ensures { IsTrue result ↔ IsAddress word.now }
{
    let Some(at) = memrchr(b':', word) else {
        return false;
    };
    if at == 0 {
        return false;
    }
    numbers_are_decimal();
    number_upto(MAX_PORT, word.split_at(at + 1).1).is_some()
}

/// A law: some colon that isn't a word's first byte has a port after it to the end exactly where the word is a host, a colon and a
/// port.
pub fn addresses_are_told()
    ensures { (word : List ℕ) → (is_address word ≡ true) ↔ IsAddress word }
{}
