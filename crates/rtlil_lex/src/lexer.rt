// The lexer.

ghost use Rattle.std.specs.Prelude.{◌≡◌, ◌⊎◌, ℕ, ◌+◌, ◌≤◌, ◌↔◌, List, [], ◌∷◌, length, Ok, Some, None, IfOk, IfErr, IfSome, OnErr};
ghost use Rattle.rtlil_lex.specs.Tokens.{Begins, Gap, TokenOf, lexer_at, IsStart, IsTokens, Left, left, IsNext, IsFault};
ghost use Rattle.rtlil_lex.specs.TokenView.{token_of};

use crate::scan::{after_gap, after_token};
use std::marker::Model;

/// A token of RTLIL text: a name, a string or another word.
#[derive(Clone, Copy, Debug)]
pub struct Token<'a> {
    /// At which byte of the whole text it starts, counted from 0.
    pub start: usize,
    /// Its bytes, a string's with the quotes.
    pub text: &'a [u8],
}

/// A string begins at this byte that doesn't end as a token.
#[derive(Clone, Copy, Debug, PartialEq, Eq)]
pub struct LexFault {
    pub byte: u64,
}

/// Takes the tokens of a text, one after the other.
///
/// Tokens are parted by white space: space, tab, carriage return and line feed. A name begins with `\` or `$` and runs to
/// white space. A string stands in double quotes, where a backslash takes the next byte with it. Any other word runs to white
/// space or `#`. A comment runs from a `#` outside names and strings to the line's end.
#[derive(Drop)]
pub struct Lexer<'a> {
    bytes: &'a [u8],
    place: usize,
}

impl<'a> Model for Lexer<'a> {
    ghost use Rattle.std.specs.Prelude.{◌≤◌, length};
    ghost use Rattle.rtlil_lex.specs.Tokens.{LexerOf, lexer_at};

    ghost Value = { LexerOf };

    ghost view = { λ a. lexer_at a.bytes.now a.place };

    ghost invariant = { λ a. a.place ≤ length a.bytes.now };
}

fn token_from(bytes: &[u8], place: usize) -> Result<Option<Token<'_>>, LexFault>
    requires { place ≤ length bytes.now }
    ensures token { IfOk result (λ found. IfSome found (λ t.
        IsNext (lexer_at bytes.now place) (lexer_at bytes.now (t.start + length t.text.now)) (token_of t))) }
    ensures end { (result ≡ Ok None) ↔ Gap [] (left (lexer_at bytes.now place)) }
    ensures fault { IfErr result (λ f. IsFault (lexer_at bytes.now place) f.byte) }
    ensures left_after { IfOk result (λ found. IfSome found (λ t. (ts : List TokenOf) → Left (lexer_at bytes.now place) ts
        ↔ ((us : List TokenOf) × (ts ≡ token_of t ∷ us) × Left (lexer_at bytes.now (t.start + length t.text.now)) us))) }
    ensures none_left { result ≡ Ok None → (ts : List TokenOf) → Left (lexer_at bytes.now place) ts ↔ (ts ≡ []) }
    ensures no_tokens { IfErr result (λ f. (ts : List TokenOf) → Left (lexer_at bytes.now place) ts → ⊥) }
{
    let rest = after_gap(&bytes[place..]);
    if rest.is_empty() {
        return Ok(None);
    }
    let start = bytes.len() - rest.len();
    match after_token(rest) {
        None => Err(LexFault { byte: start as u64 }),
        Some(after) => {
            let len = rest.len() - after.len();
            Ok(Some(Token {
                start,
                text: &rest[..len],
            }))
        }
    }
}

impl<'a> Lexer<'a> {
    /// Before the first token of a text.
    pub fn new(bytes: &'a [u8]) -> Self
        ensures { result ≡ lexer_at bytes.now 0 }
    {
        Lexer { bytes, place: 0 }
    }

    /// The next token, or None exactly where only white space and comments are left. A fault leaves the lexer as it was.
    pub fn next(&mut self) -> Result<Option<Token<'a>>, LexFault>
        ensures token { IfOk result (λ found. IfSome found (λ t. IsNext self.old self.new (token_of t))) }
        ensures end { (result ≡ Ok None) ↔ Gap [] (left self.old) }
        ensures fault { IfErr result (λ f. IsFault self.old f.byte) }
        // The tokens left before the call are this one and those left after it.
        ensures left_after { IfOk result (λ found. IfSome found (λ t. (ts : List TokenOf) →
            Left self.old ts ↔ ((us : List TokenOf) × (ts ≡ token_of t ∷ us) × Left self.new us))) }
        ensures none_left { result ≡ Ok None → (ts : List TokenOf) → Left self.old ts ↔ (ts ≡ []) }
        ensures no_tokens { IfErr result (λ f. (ts : List TokenOf) → Left self.old ts → ⊥) }
        ensures at_end { result ≡ Ok None → self.new ≡ self.old }
        ensures err { OnErr result (self.new ≡ self.old) }
    {
        let found = token_from(self.bytes, self.place)?;
        if let Some(token) = &found {
            self.place = token.start + token.text.len();
        }
        Ok(found)
    }
}

/// A text has at most one list of tokens.
pub fn one_list_of_tokens()
    ensures { (bytes : List ℕ) (ts us : List TokenOf) → IsTokens bytes ts → IsTokens bytes us → ts ≡ us }
{}

/// Of two lists of first tokens of a text, one goes on where the other ends.
pub fn first_tokens_agree()
    ensures { (bytes : List ℕ) (ts us : List TokenOf) → Begins bytes ts → Begins bytes us → IsStart ts us ⊎ IsStart us ts }
{}
