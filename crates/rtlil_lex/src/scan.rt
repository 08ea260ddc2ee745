// Steps over the bytes: each answers what is left of them.

ghost use Rattle.std.specs.Prelude.{◌≡◌, option_map};
ghost use Rattle.rtlil_lex.specs.Tokens.{is_space, is_feed, is_break, ends_at, Gap};
ghost use Rattle.rtlil_lex.specs.Steps.{run_ends, after_run_of, after_quote_of, after_token_of, Stops};

use memchr::memchr;

/// What a run of bytes goes up to.
#[derive(Clone, Copy)]
pub enum UpTo {
    Space,
    Break,
}

pub fn is_space_byte(b: u8) -> bool
    ensures { result ≡ is_space b }
{
    b == b' ' || b == b'\t' || b == b'\n' || b == b'\r'
}

fn ends_run(up_to: UpTo, b: u8) -> bool
    ensures { result ≡ run_ends up_to b }
{
    match up_to {
        UpTo::Space => is_space_byte(b),
        UpTo::Break => is_space_byte(b) || b == b'#',
    }
}

/// From the first byte on that ends the run.
pub fn after_run(bytes: &[u8], up_to: UpTo) -> &[u8]
    ensures { result.now ≡ after_run_of (run_ends up_to) bytes.now }
{
    let mut rest = bytes;
    'run: while let [b, after @ ..] = rest {
        if ends_run(up_to, *b) {
            break;
        }
        rest = after;
    }
    rest
}

/// From the line feed on that ends a comment.
fn after_comment(bytes: &[u8]) -> &[u8]
    ensures { result.now ≡ after_run_of is_feed bytes.now }
{
    match memchr(b'\n', bytes) {
        Some(place) => &bytes[place..],
        None => &[],
    }
}

/// After white space and comments.
pub fn after_gap(bytes: &[u8]) -> &[u8]
    ensures gap { Gap result.now bytes.now }
    ensures stops { Stops result.now }
{
    let mut rest = bytes;
    'gap: while let [b, after @ ..] = rest {
        if is_space_byte(*b) {
            rest = after;
        } else if *b == b'#' {
            rest = after_comment(after);
        } else {
            break;
        }
    }
    rest
}

/// After the quote that closes a string, if there is one.
pub fn after_quote(bytes: &[u8]) -> Option<&[u8]>
    ensures { option_map (λ x. x.now) result ≡ after_quote_of bytes.now }
{
    let mut rest = bytes;
    'string: while let [b, after @ ..] = rest {
        if *b == b'"' {
            return Some(after);
        }
        rest = match after {
            [_, behind @ ..] if *b == b'\\' => behind,
            _ => after,
        };
    }
    None
}

fn ends_string(rest: &[u8]) -> bool
    ensures { result ≡ ends_at is_break rest.now }
{
    match rest {
        [] => true,
        [b, ..] => ends_run(UpTo::Break, *b),
    }
}

/// After the token that the bytes begin with, if they begin with one.
pub fn after_token(bytes: &[u8]) -> Option<&[u8]>
    ensures { option_map (λ x. x.now) result ≡ after_token_of bytes.now }
{
    let (first, rest) = bytes.split_first()?;
    match *first {
        b'\\' | b'$' => Some(after_run(rest, UpTo::Space)),
        b'"' => {
            let after = after_quote(rest)?;
            if ends_string(after) {
                Some(after)
            } else {
                None
            }
        }
        _ => Some(after_run(rest, UpTo::Break)),
    }
}
