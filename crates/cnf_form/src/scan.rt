// The words of a DIMACS text.

ghost use Rattle.std.specs.Prelude.{◌≡◌, ◌↔◌, ℕ, ◌<◌, ◌≤◌, ◌≢◌, List, [], length, take, drop, All, IsTrue, IfSome, IfNone};
ghost use Rattle.std.specs.Str.Parse.{AllDigits};
ghost use Rattle.cnf_form.specs.Cnf.{LitOf, LitWithin};
ghost use Rattle.cnf_form.specs.Dimacs.{IsSpace, IsWordByte, EndsWord, EndsLine, IsNumber, IsLiteral};
ghost use Rattle.cnf_form.specs.Reading.{Gap, Parts};
ghost use Rattle.cnf_form.specs.declared.literal.TheConstants.{MAX_VARS};

use crate::literal::{Lit, MAX_VARS};
use sby_terms::number_upto;

// A text from its next word on, that word and what follows it. At the text's end all are empty.
#[derive(Clone, Copy)]
pub(crate) struct Found<'a> {
    pub(crate) front: &'a [u8],
    pub(crate) word: &'a [u8],
    pub(crate) rest: &'a [u8],
}

fn is_space(b: u8) -> bool
    ensures { IsTrue result ↔ IsSpace b }
{
    b == b' ' || b == b'\n' || b == b'\t' || b == b'\r'
}

// How many bytes stand before the first line feed.
fn line_len(bytes: &[u8]) -> usize
    ensures within { result ≤ length bytes.now }
    ensures clean { All (λ b. b ≢ 10) (take result bytes.now) }
    ensures ends { EndsLine (drop result bytes.now) }
{
    for (len, b) in bytes.iter().enumerate() {
        if *b == b'\n' {
            return len;
        }
    }
    bytes.len()
}

// How many bytes stand before the first white space.
fn word_len(bytes: &[u8]) -> usize
    ensures within { result ≤ length bytes.now }
    ensures visible { All IsWordByte (take result bytes.now) }
    ensures ends { EndsWord (drop result bytes.now) }
{
    for (len, b) in bytes.iter().enumerate() {
        if is_space(*b) {
            return len;
        }
    }
    bytes.len()
}

// How many bytes stand before the next word. Comment lines are passed over where they are allowed; `fresh` tells whether
// one may begin at once.
fn gap_len(bytes: &[u8], comments: bool, fresh: bool) -> usize
    ensures within { result ≤ length bytes.now }
    ensures gap { Gap comments fresh bytes.now (drop result bytes.now) }
{
    let mut at = 0;
    let mut fresh = fresh;
    'gap: while at < bytes.len() {
        let b = bytes[at];
        if b == b'\n' {
            fresh = comments;
        } else if !is_space(b) {
            if !fresh {
                return at;
            }
            if b != b'c' {
                return at;
            }
            at += line_len(&bytes[at + 1..]);
            fresh = false;
        }
        at += 1;
    }
    at
}

// The next word, after what `gap_len` passes over.
pub(crate) fn next_word(bytes: &[u8], comments: bool, fresh: bool) -> Found<'_>
    ensures gap { Gap comments fresh bytes.now result.front.now }
    ensures parts { Parts result.front.now result.word.now result.rest.now }
{
    let start = gap_len(bytes, comments, fresh);
    let front = &bytes[start..];
    let len = word_len(front);
    Found {
        front,
        word: &front[..len],
        rest: &front[len..],
    }
}

// Whether the two words are the same.
pub(crate) fn is_word(word: &[u8], text: &[u8]) -> bool
    ensures { IsTrue result ↔ (word.now ≡ text.now) }
{
    word == text
}

fn are_digits(word: &[u8]) -> bool
    ensures { IsTrue result ↔ AllDigits 10 word.now }
{
    for b in word {
        if !b.is_ascii_digit() {
            return false;
        }
    }
    true
}

// Whether the word is a number.
pub(crate) fn is_number(word: &[u8]) -> bool
    ensures { IsTrue result ↔ (n : ℕ) × IsNumber word.now n }
{
    if word.is_empty() {
        return false;
    }
    if word[0] == b'0' {
        return word.len() == 1;
    }
    are_digits(word)
}

// The number that a word writes, from 0 to `MAX_VARS`.
pub(crate) fn vars_of(word: &[u8]) -> Option<u32>
    ensures some { IfSome result (λ n. IsNumber word.now n × (n ≤ MAX_VARS)) }
    ensures none { IfNone result ((n : ℕ) → IsNumber word.now n → n ≤ MAX_VARS → ⊥) }
{
    if word.is_empty() {
        return None;
    }
    if word[0] == b'0' {
        return if word.len() == 1 { Some(0) } else { None };
    }
    number_upto(MAX_VARS, word)
}

// The literal that a word writes, of a variable from 1 to `vars`.
pub(crate) fn literal_of(word: &[u8], vars: u32) -> Option<Lit>
    requires { vars ≤ MAX_VARS }
    ensures some { IfSome result (λ l. IsLiteral word.now l × LitWithin vars l) }
    ensures none { IfNone result ((l : LitOf) → IsLiteral word.now l → LitWithin vars l → ⊥) }
{
    if word.is_empty() {
        return None;
    }
    if word[0] == b'-' {
        return match number_upto(vars, &word[1..]) {
            Some(var) => Some(Lit::new(var, true)),
            None => None,
        };
    }
    match number_upto(vars, word) {
        Some(var) => Some(Lit::new(var, false)),
        None => None,
    }
}
