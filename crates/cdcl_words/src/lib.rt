//! The words of the engines' programs.
#![tactic(auto)]

mod serving;

ghost use Rattle.std.specs.Prelude.{◌≡◌, ℕ, Bool, true, List, Option, codes, map, string_bytes, IfSome, IfNone};
ghost use Rattle.cdcl_words.specs.Asking.{Asks, AsksPlainly};

use sby_terms::{number_upto, numbers_are_decimal};
pub use serving::{Serving, read_serving};

/// The most conflicts that may be asked for.
pub const MAX_CONFLICTS: u32 = 1_000_000_000;

/// What the words ask for: to solve the formula of a file, within a number of conflicts where one is given, and with hints if they are
/// wanted.
#[derive(Clone, Copy)]
pub struct Asked<'a> {
    pub hinted: bool,
    pub conflicts: Option<u32>,
    pub file: &'a str,
}

/// Reads the words after a program's name that are a file, or `--conflicts`, a number from 1 to `MAX_CONFLICTS` and a file.
pub fn read_plain_words(words: &[String]) -> Option<(Option<u32>, &str)>
    ensures some { IfSome result (λ a. AsksPlainly (map string_bytes words.now) a.0 a.1.now) }
    ensures none { IfNone result ((conflicts : Option ℕ) (file : List ℕ) → AsksPlainly (map string_bytes words.now) conflicts file → ⊥) }
{
    match words {
        [file] => Some((None, file.as_str())),
        [option, number, file] => {
            if option.as_str() != "--conflicts" {
                return None;
            }
            numbers_are_decimal();
            match number_upto(MAX_CONFLICTS, number.as_bytes()) {
                Some(conflicts) => Some((Some(conflicts), file.as_str())),
                None => None,
            }
        }
        _ => None,
    }
}

// Reads the words after `--hints`, if that is the first.
fn read_hinted<'a>(option: &str, rest: &'a [String]) -> Option<Asked<'a>>
    ensures some { IfSome result (λ a. (a.hinted ≡ true) × (option.now ≡ codes "--hints") × AsksPlainly (map string_bytes rest.now) a.conflicts a.file.now) }
    ensures none { IfNone result (option.now ≡ codes "--hints" → (conflicts : Option ℕ) (file : List ℕ) → AsksPlainly (map string_bytes rest.now) conflicts file → ⊥) }
{
    if option != "--hints" {
        return None;
    }
    match read_plain_words(rest) {
        Some((conflicts, file)) => Some(Asked {
            hinted: true,
            conflicts,
            file,
        }),
        None => None,
    }
}

/// Reads the words after the program's name: a file, or `--conflicts`, a number from 1 to `MAX_CONFLICTS` and a file; before either
/// `--hints` may stand.
pub fn read_words(words: &[String]) -> Option<Asked<'_>>
    ensures some { IfSome result (λ a. Asks (map string_bytes words.now) a.hinted a.conflicts a.file.now) }
    ensures none { IfNone result ((hinted : Bool) (conflicts : Option ℕ) (file : List ℕ) → Asks (map string_bytes words.now) hinted conflicts file → ⊥) }
{
    if let Some((conflicts, file)) = read_plain_words(words) {
        return Some(Asked {
            hinted: false,
            conflicts,
            file,
        });
    }
    match words.split_first() {
        Some((option, rest)) => read_hinted(option.as_str(), rest),
        None => None,
    }
}
