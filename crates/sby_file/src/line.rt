// What a line is, by the section in which it stands.

ghost use Rattle.std.specs.Prelude.{◌≡◌, Bool, true, false, IfOk, MatchOption};
ghost use Rattle.std.specs.Str.{is_utf8};
ghost use Rattle.sby_file.specs.Line.{line_of, file_line_of, plain_line_of};

use crate::text::{bracket_inside, is_bracketed, trimmed, uncommented, words};
use sby_terms::Words;
use std::alloc::{AllocError, Global};
use std::marker::Model;

/// Bytes of a text. Contracts see their list.
#[derive(Drop, Debug)]
pub struct Bytes {
    bytes: Vec<u8>,
}

impl Model for Bytes {
    ghost use Rattle.std.specs.Prelude.{ℕ, List};

    ghost Value = { List ℕ };

    ghost view = { λ b. b.bytes.items };
}

impl Bytes {
    pub fn new(bytes: Vec<u8>) -> Self
        ensures { result ≡ bytes.items }
    {
        Bytes { bytes }
    }

    pub fn as_slice(&self) -> &[u8]
        ensures { result.now ≡ self.now }
    {
        &self.bytes
    }

    /// The bytes, as they were given.
    pub fn into_vec(self) -> Vec<u8>
        ensures { result.items ≡ self }
    {
        self.bytes
    }

    /// Equal bytes, or out of memory.
    pub fn copy(&self) -> Result<Self, AllocError>
        ensures { IfOk result (λ copied. copied ≡ self.now) }
    {
        let bytes = self.bytes.clone()?;
        Ok(Bytes { bytes })
    }
}

/// What a line says.
#[derive(Drop, Debug)]
pub enum Line {
    /// It is not UTF-8.
    NotText,
    /// A header, by the words between its brackets.
    Header(Words),
    /// The words of a line outside a file, without its comment.
    Content(Words),
    /// A line of a file.
    Raw(Bytes),
}

fn file_line(alloc: Global, text: &str) -> Result<Line, AllocError>
    ensures { IfOk result (λ line. line ≡ file_line_of text.now) }
{
    let bytes = text.as_bytes();
    let visible = trimmed(text);
    if is_bracketed(visible) && bytes.first() == Some(&b'[') {
        Ok(Line::Header(words(alloc, bracket_inside(visible))?))
    } else {
        Ok(Line::Raw(Bytes::new(bytes.to_vec(alloc)?)))
    }
}

fn plain_line(alloc: Global, text: &str) -> Result<Line, AllocError>
    ensures { IfOk result (λ line. line ≡ plain_line_of text.now) }
{
    let visible = trimmed(uncommented(text));
    if is_bracketed(visible) {
        Ok(Line::Header(words(alloc, bracket_inside(visible))?))
    } else {
        Ok(Line::Content(words(alloc, visible)?))
    }
}

// The bytes as text, where they are UTF-8.
fn as_text(bytes: &[u8]) -> Option<&str>
    ensures { MatchOption result (is_utf8 bytes.now ≡ false) (λ text. (is_utf8 bytes.now ≡ true) × (text.now ≡ bytes.now)) }
{
    match str::from_utf8(bytes) {
        Ok(text) => Some(text),
        Err(_) => None,
    }
}

/// What a line says, in a file or elsewhere.
pub fn line_of(alloc: Global, in_file: bool, bytes: &[u8]) -> Result<Line, AllocError>
    ensures { IfOk result (λ line. line ≡ line_of in_file bytes.now) }
{
    match as_text(bytes) {
        None => Ok(Line::NotText),
        Some(text) if in_file => file_line(alloc, text),
        Some(text) => plain_line(alloc, text),
    }
}
