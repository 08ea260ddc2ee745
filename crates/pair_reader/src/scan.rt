// The words of a pair's lines.

ghost use Rattle.std.specs.Prelude.{◌≡◌, ◌≢◌, ◌++◌, ◌∷◌, ◌<◌, ◌≤◌, ℕ, All, IfNone, IfSome, List, MatchOption, Some, decimal, length};
ghost use Rattle.cnf_form.specs.Cnf.{LitOf, LitWithin};
ghost use Rattle.cnf_form.specs.Dimacs.{literal_text};
ghost use Rattle.cnf_form.specs.declared.literal.TheConstants.{MAX_VARS};

use cnf_form::{Lit, MAX_VARS};
use sby_terms::{number_upto, numbers_are_decimal};

// A word up to a byte, and what follows that byte.
#[derive(Clone, Copy)]
pub struct Word<'a> {
    pub bytes: &'a [u8],
    pub rest: &'a [u8],
}

// A number, and what follows the byte that ends it.
#[derive(Clone, Copy)]
pub struct Number<'a> {
    pub value: u32,
    pub rest: &'a [u8],
}

// A literal, and what follows the byte that ends it.
#[derive(Clone, Copy)]
pub struct Literal<'a> {
    pub lit: Lit,
    pub rest: &'a [u8],
}

// Cuts the bytes at the first one that is `end`.
pub fn next_word(bytes: &[u8], end: u8) -> Option<Word<'_>>
    ensures word { (word rest : List ℕ) → All (λ b. b ≢ end) word → bytes.now ≡ word ++ end ∷ rest
        → MatchOption result ⊥ (λ w. (w.bytes.now ≡ word) × (w.rest.now ≡ rest)) }
    ensures shorter { IfSome result (λ w. length w.rest.now < length bytes.now) }
{
    for (at, b) in bytes.iter().enumerate() {
        if *b == end {
            return Some(Word {
                bytes: &bytes[..at],
                rest: &bytes[at + 1..],
            });
        }
    }
    None
}

// What follows a text with which the bytes begin.
pub fn after<'a>(bytes: &'a [u8], text: &[u8]) -> Option<&'a [u8]>
    ensures some { IfSome result (λ rest. bytes.now ≡ text.now ++ rest.now) }
    ensures none { IfNone result ((rest : List ℕ) → bytes.now ≡ text.now ++ rest → ⊥) }
{
    if bytes.len() < text.len() {
        return None;
    }
    let (front, rest) = bytes.split_at(text.len());
    if front == text { Some(rest) } else { None }
}

// Reads a number from 1 to `most`, and the byte that ends it, which is white space.
pub fn read_number(bytes: &[u8], end: u8, most: u32) -> Option<Number<'_>>
    requires { end ≤ 32 }
    ensures most { IfSome result (λ n. n.value ≤ most) }
    ensures shorter { IfSome result (λ n. length n.rest.now < length bytes.now) }
    ensures number { (value : ℕ) (rest : List ℕ) → 0 < value → value ≤ most → bytes.now ≡ decimal value ++ end ∷ rest
        → MatchOption result ⊥ (λ n. (n.value ≡ value) × (n.rest.now ≡ rest)) }
{
    numbers_are_decimal();
    let word = next_word(bytes, end)?;
    let value = number_upto(most, word.bytes)?;
    Some(Number {
        value,
        rest: word.rest,
    })
}

// The literal that a word writes, of a variable from 1 to `vars`.
#[tactic(auto, using(crate::proofs::Words::lit_is, crate::proofs::Words::number_reads, crate::proofs::Words::number_within, crate::proofs::Words::plain_text))]
fn literal_of(word: &[u8], vars: u32) -> Option<Lit>
    requires { vars ≤ MAX_VARS }
    ensures within { IfSome result (LitWithin vars) }
    ensures lit { (l : LitOf) → LitWithin vars l → word.now ≡ literal_text l → result ≡ Some l }
{
    numbers_are_decimal();
    match after(word, b"-") {
        Some(digits) => {
            let var = number_upto(vars, digits)?;
            Some(Lit::new(var, true))
        }
        None => {
            let var = number_upto(vars, word)?;
            Some(Lit::new(var, false))
        }
    }
}

// Reads a literal of a variable from 1 to `vars`, and the byte that ends it, which is white space.
pub fn read_literal(bytes: &[u8], end: u8, vars: u32) -> Option<Literal<'_>>
    requires vars { vars ≤ MAX_VARS }
    requires end { end ≤ 32 }
    ensures within { IfSome result (λ w. LitWithin vars w.lit) }
    ensures shorter { IfSome result (λ w. length w.rest.now < length bytes.now) }
    ensures lit { (l : LitOf) (rest : List ℕ) → LitWithin vars l → bytes.now ≡ literal_text l ++ end ∷ rest
        → MatchOption result ⊥ (λ w. (w.lit ≡ l) × (w.rest.now ≡ rest)) }
{
    let word = next_word(bytes, end)?;
    let lit = literal_of(word.bytes, vars)?;
    Some(Literal {
        lit,
        rest: word.rest,
    })
}
