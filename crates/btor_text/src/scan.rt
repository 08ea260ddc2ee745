// Lines of a text, and words of a line.

ghost use Rattle.std.specs.Prelude.{◌≡◌, ◌<◌, ◌≤◌, ◌+◌, ◌∷◌, [], length, suc, take, drop, not};
ghost use Rattle.std.specs.List.{position_or_len};
ghost use Rattle.btor_text.specs.Grammar.{is_blank, is_comment, is_feed, lines_of, uncommented, words_of};
ghost use Rattle.btor_text.specs.Reading.{cons_word};

// A text's first line or a line's first word, and what follows it.
#[derive(Clone, Copy)]
pub(crate) struct Cut<'a> {
    pub(crate) first: &'a [u8],
    pub(crate) rest: &'a [u8],
}

fn is_blank(b: u8) -> bool
    ensures { result ≡ is_blank b }
{
    b == b' ' || (b == b'\t' || b == b'\r')
}

// How many bytes stand before the first line feed.
fn to_feed(text: &[u8]) -> usize
    ensures place { result ≡ position_or_len is_feed text.now }
    ensures within { result ≤ length text.now }
{
    for (i, b) in text.iter().enumerate() {
        if *b == b'\n' {
            return i;
        }
    }
    text.len()
}

// How many bytes stand before the first comment.
fn to_comment(text: &[u8]) -> usize
    ensures place { result ≡ position_or_len is_comment text.now }
    ensures within { result ≤ length text.now }
{
    for (i, b) in text.iter().enumerate() {
        if *b == b';' {
            return i;
        }
    }
    text.len()
}

// How many blanks stand in front.
fn to_visible(text: &[u8]) -> usize
    ensures place { result ≡ position_or_len (λ b. not (is_blank b)) text.now }
    ensures within { result ≤ length text.now }
{
    for (i, b) in text.iter().enumerate() {
        if !is_blank(*b) {
            return i;
        }
    }
    text.len()
}

// How many bytes stand before the first blank.
fn to_blank(text: &[u8]) -> usize
    ensures place { result ≡ position_or_len is_blank text.now }
    ensures within { result ≤ length text.now }
{
    for (i, b) in text.iter().enumerate() {
        if is_blank(*b) {
            return i;
        }
    }
    text.len()
}

// What stands after the byte at this place, or nothing where none is there.
fn after(text: &[u8], place: usize) -> &[u8]
    requires { place ≤ length text.now }
    ensures { result.now ≡ drop (suc place) text.now }
{
    if place < text.len() {
        text.split_at(place + 1).1
    } else {
        text.split_at(place).1
    }
}

// The first line, without its comment, and the lines after it.
pub(crate) fn next_line(text: &[u8]) -> Cut<'_>
    requires { 0 < length text.now }
    ensures cut { lines_of text.now ≡ take (position_or_len is_feed text.now) text.now ∷ lines_of result.rest.now }
    ensures first { result.first.now ≡ uncommented (take (position_or_len is_feed text.now) text.now) }
    ensures shorter { length result.rest.now < length text.now }
{
    let end = to_feed(text);
    let line = text.split_at(end).0;
    Cut {
        first: line.split_at(to_comment(line)).0,
        rest: after(text, end),
    }
}

// The first word, empty where there is none, and what follows it.
pub(crate) fn next_word(text: &[u8]) -> Cut<'_>
    ensures word { words_of text.now ≡ cons_word result.first.now (words_of result.rest.now) }
    ensures none { result.first.now ≡ [] → words_of text.now ≡ [] }
{
    let visible = text.split_at(to_visible(text)).1;
    let (first, rest) = visible.split_at(to_blank(visible));
    Cut { first, rest }
}
