// The text of a line: its comment, its white space and its words.

ghost use Rattle.std.specs.Prelude.{◌≡◌, ◌≤◌, ◌+◌, ◌-◌, ◌∷◌, [], Bool, true, List, ℕ, length, map, take, drop, string_bytes, IfOk, IsTrue};
ghost use Rattle.std.specs.Str.{IsCharBoundary};
ghost use Rattle.std.specs.List.{suffix_len};
ghost use Rattle.sby_file.specs.Text.{is_blank, blanks_before, visible_before, comment_place, uncommented, front_trimmed, back_trimmed, trimmed, is_bracketed, bracket_inside, words_of};

use sby_terms::Words;
use std::alloc::{AllocError, Global};

fn is_blank(b: u8) -> bool
    ensures { result ≡ is_blank b }
{
    b == b' ' || b == b'\t' || b == b'\r'
}

fn comment_place(text: &str) -> usize
    ensures place { result ≡ comment_place true text.now }
    ensures within { result ≤ length text.now }
    ensures boundary { IsCharBoundary text.now result }
{
    let mut after_blank = true;
    for (i, b) in text.as_bytes().iter().enumerate() {
        if after_blank && *b == b'#' {
            return i;
        }
        after_blank = is_blank(*b);
    }
    text.len()
}

/// A line without its comment.
pub fn uncommented(text: &str) -> &str
    ensures { result.now ≡ uncommented text.now }
{
    &text[..comment_place(text)]
}

fn blanks_before(text: &str) -> usize
    ensures count { result ≡ blanks_before text.now }
    ensures within { result ≤ length text.now }
    ensures boundary { IsCharBoundary text.now result }
{
    for (i, b) in text.as_bytes().iter().enumerate() {
        if !is_blank(*b) {
            return i;
        }
    }
    text.len()
}

fn visible_end(text: &str) -> usize
    ensures count { result ≡ length text.now - suffix_len is_blank text.now }
    ensures within { result ≤ length text.now }
    ensures boundary { IsCharBoundary text.now result }
{
    let bytes = text.as_bytes();
    let mut end = bytes.len();
    while end > 0 && is_blank(bytes[end - 1]) {
        end -= 1;
    }
    end
}

fn front_trimmed(text: &str) -> &str
    ensures { result.now ≡ front_trimmed text.now }
{
    &text[blanks_before(text)..]
}

fn back_trimmed(text: &str) -> &str
    ensures { result.now ≡ back_trimmed text.now }
{
    &text[..visible_end(text)]
}

/// A text without the white space around it.
pub fn trimmed(text: &str) -> &str
    ensures { result.now ≡ trimmed text.now }
{
    back_trimmed(front_trimmed(text))
}

/// Whether a text begins with `[` and ends with `]`.
pub fn is_bracketed(text: &str) -> bool
    ensures { result ≡ is_bracketed text.now }
{
    let bytes = text.as_bytes();
    bytes.len() >= 2 && bytes[0] == b'[' && bytes[bytes.len() - 1] == b']'
}

/// What stands between the brackets.
pub fn bracket_inside(text: &str) -> &str
    requires { IsTrue (is_bracketed text.now) }
    ensures { result.now ≡ bracket_inside text.now }
{
    let end = text.len() - 1;
    &text[1..end]
}

fn visible_before(text: &str) -> usize
    ensures count { result ≡ visible_before text.now }
    ensures within { result ≤ length text.now }
    ensures boundary { IsCharBoundary text.now result }
{
    for (i, b) in text.as_bytes().iter().enumerate() {
        if is_blank(*b) {
            return i;
        }
    }
    text.len()
}

/// The words of a line.
pub fn words(alloc: Global, text: &str) -> Result<Words, AllocError>
    ensures { IfOk result (λ words. words ≡ words_of text.now) }
{
    let mut words = Vec::new(alloc);
    let mut rest = front_trimmed(text);
    while !rest.is_empty() {
        let (word, behind) = rest.split_at(visible_before(rest));
        words.push(String::from_str(alloc, word)?)?;
        rest = front_trimmed(behind);
    }
    Ok(Words::new(words))
}
