// Words, byte by byte.

ghost use Rattle.std.specs.Prelude.{◌≡◌, true};
ghost use Rattle.btor_witness.specs.Grammar.{is_digit};
ghost use Rattle.btor_witness.specs.Machine.{first_token, grown, is_bad, token_entry, token_number, with_digit};

use crate::line::Entry;

/// What the number after it is of.
#[derive(Clone, Copy, Debug, PartialEq, Eq)]
pub enum Tag {
    Bad,
    States,
    Inputs,
}

/// What was read of a word.
#[derive(Clone, Copy, Debug, PartialEq, Eq)]
pub enum Token {
    /// Digits, which write this number.
    Number(u64),
    /// A tag, without its number.
    Begun(Tag),
    Tagged(Tag, u64),
    Dot,
    S,
    Sa,
    Sat,
    /// The beginning of no such word.
    Other,
}

fn is_digit(b: u8) -> bool
    ensures { result ≡ is_digit b }
{
    b >= b'0' && b <= b'9'
}

// One digit more; the greatest number stands for all past it.
fn with_digit(n: u64, b: u8) -> u64
    requires { is_digit b ≡ true }
    ensures { result ≡ with_digit n b }
{
    n.saturating_mul(10).saturating_add((b - b'0') as u64)
}

impl Token {
    // A word's first byte.
    pub(crate) fn first(b: u8) -> Token
        ensures { result ≡ first_token b }
    {
        match b {
            _ if is_digit(b) => Token::Number((b - b'0') as u64),
            b'b' => Token::Begun(Tag::Bad),
            b'#' => Token::Begun(Tag::States),
            b'@' => Token::Begun(Tag::Inputs),
            b'.' => Token::Dot,
            b's' => Token::S,
            _ => Token::Other,
        }
    }

    // One byte more.
    pub(crate) fn grown(self, b: u8) -> Token
        ensures { result ≡ grown self b }
    {
        match self {
            Token::Number(n) if is_digit(b) => Token::Number(with_digit(n, b)),
            Token::Begun(tag) if is_digit(b) => Token::Tagged(tag, (b - b'0') as u64),
            Token::Tagged(tag, n) if is_digit(b) => Token::Tagged(tag, with_digit(n, b)),
            Token::S if b == b'a' => Token::Sa,
            Token::Sa if b == b't' => Token::Sat,
            _ => Token::Other,
        }
    }

    // Whether the word names a bad.
    pub(crate) fn is_bad(self) -> bool
        ensures { result ≡ is_bad self }
    {
        matches!(self, Token::Tagged(Tag::Bad, _))
    }

    pub(crate) fn number(self) -> Option<u64>
        ensures { result ≡ token_number self }
    {
        match self {
            Token::Number(n) => Some(n),
            _ => None,
        }
    }

    // What a line of this word alone is, if one of a witness.
    pub(crate) fn entry(self) -> Option<Entry>
        ensures { result ≡ token_entry self }
    {
        match self {
            Token::Sat => Some(Entry::Sat),
            Token::Tagged(Tag::Bad, k) => Some(Entry::Bads(k)),
            Token::Tagged(Tag::States, t) => Some(Entry::States(t)),
            Token::Tagged(Tag::Inputs, t) => Some(Entry::Inputs(t)),
            Token::Dot => Some(Entry::End),
            _ => None,
        }
    }
}
