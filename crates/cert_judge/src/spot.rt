// Where the bytes of an output end in their line.

ghost use Rattle.std.specs.Prelude.{◌≡◌, ◌+◌, IsTrue, ◌||◌, ◌&&◌, Bool, cond, eqb, leb};
ghost use Rattle.cert_stream.specs.Text.{is_blank};
ghost use Rattle.cert_judge.specs.Spots.{IsWithin, amid_next, amid_unknown, ends_word, head_given, is_letter, is_values, next_spot, parted, next_values, values_at_end};
ghost use Rattle.cert_judge.specs.Output.{is_claim};

/// Where the bytes so far end in their line.
#[derive(Clone, Copy, Debug, PartialEq, Eq)]
pub enum Spot {
    /// Before its first visible byte.
    Start,
    /// After that byte, an s or v that may be a word alone.
    Held(u8),
    /// Further on.
    Within,
    /// In a line of values, or after one, which lacks its 0.
    Amid(AmidSpot),
}

/// Where they end amid values.
#[derive(Clone, Copy, Debug, PartialEq, Eq)]
pub enum AmidSpot {
    /// Before the line's first visible byte.
    Start,
    /// After that byte, an s or v that may be a word alone.
    Held(u8),
    /// Further on, in no status line.
    Within,
    /// In a status line, after this many letters of UNKNOWN.
    Spelled(u8),
    /// After UNKNOWN and white space.
    Whole,
    /// Where a status line says something else.
    Passed,
}

const UNKNOWN: [u8; 7] = *b"UNKNOWN";

pub(crate) fn is_blank(b: u8) -> bool
    ensures { result ≡ is_blank b }
{
    b == b' ' || b == b'\t' || b == b'\r'
}

pub(crate) fn ends_word(b: u8) -> bool
    ensures { result ≡ ends_word b }
{
    b == b'\n' || is_blank(b)
}

pub(crate) fn is_claim(b: u8) -> bool
    ensures { result ≡ is_claim b }
{
    b == b's' || b == b'v'
}

fn is_letter(count: u8, b: u8) -> bool
    ensures { result ≡ is_letter count b }
{
    match UNKNOWN.get(count as usize) {
        None => false,
        Some(letter) => *letter == b,
    }
}

/// Within a line that is handed on as it is.
pub(crate) fn is_within(spot: Spot) -> bool
    ensures { IsTrue result → IsWithin spot }
{
    matches!(spot, Spot::Within | Spot::Amid(AmidSpot::Within))
}

/// What is handed on for a line's first visible byte, an s or v, before this one.
pub(crate) fn head_given(head: u8, b: u8) -> u8
    ensures { result ≡ head_given head b }
{
    if ends_word(b) { head } else { b'c' }
}

fn parted(count: u8) -> AmidSpot
    ensures { result ≡ parted count }
{
    if count == 0 {
        AmidSpot::Spelled(0)
    } else if count >= 7 {
        AmidSpot::Whole
    } else {
        AmidSpot::Passed
    }
}

// After a byte more that is no white space and no line feed.
fn spelled(count: u8, b: u8) -> AmidSpot
    ensures { result ≡ cond (is_letter count b) (AmidSpot.Spelled (count + 1)) AmidSpot.Passed }
{
    if is_letter(count, b) {
        AmidSpot::Spelled(count + 1)
    } else {
        AmidSpot::Passed
    }
}

fn amid_start(b: u8) -> AmidSpot
    ensures { result ≡ amid_next AmidSpot.Start b }
{
    if is_blank(b) {
        AmidSpot::Start
    } else if is_claim(b) {
        AmidSpot::Held(b)
    } else {
        AmidSpot::Within
    }
}

// After one byte more that is no line feed.
fn amid_next(spot: AmidSpot, b: u8) -> AmidSpot
    ensures { result ≡ amid_next spot b }
{
    match spot {
        AmidSpot::Start => amid_start(b),
        AmidSpot::Held(head) if head == b's' && is_blank(b) => AmidSpot::Spelled(0),
        AmidSpot::Held(_) | AmidSpot::Within => AmidSpot::Within,
        AmidSpot::Spelled(count) if is_blank(b) => parted(count),
        AmidSpot::Spelled(count) => spelled(count, b),
        AmidSpot::Whole if is_blank(b) => AmidSpot::Whole,
        AmidSpot::Whole | AmidSpot::Passed => AmidSpot::Passed,
    }
}

// After a line feed, after a line's first visible byte.
fn after_head(head: u8) -> Spot
    ensures { result ≡ cond (is_values head) (Spot.Amid AmidSpot.Start) Spot.Start }
{
    if head == b'v' {
        Spot::Amid(AmidSpot::Start)
    } else {
        Spot::Start
    }
}

/// After one more byte.
pub(crate) fn next_spot(spot: Spot, b: u8) -> Spot
    ensures { result ≡ next_spot spot b }
{
    match spot {
        Spot::Start if ends_word(b) => Spot::Start,
        Spot::Start if is_claim(b) => Spot::Held(b),
        Spot::Start => Spot::Within,
        Spot::Held(head) if b == b'\n' => after_head(head),
        Spot::Held(head) if head == b'v' && is_blank(b) => Spot::Amid(AmidSpot::Within),
        Spot::Within if b == b'\n' => Spot::Start,
        Spot::Held(_) | Spot::Within => Spot::Within,
        Spot::Amid(_) if b == b'\n' => Spot::Amid(AmidSpot::Start),
        Spot::Amid(amid) => Spot::Amid(amid_next(amid, b)),
    }
}

/// Amid values, what stands for a line feed: the line s UNKNOWN is at fault there.
pub(crate) fn amid_feed(spot: AmidSpot) -> u8
    ensures { result ≡ cond (amid_unknown spot) 115 10 }
{
    match spot {
        AmidSpot::Spelled(count) if count >= 7 => b's',
        AmidSpot::Whole => b's',
        _ => b'\n',
    }
}

/// What stands for a line's first visible byte, an s or v, where the line ends with it, amid values.
pub(crate) fn amid_head(head: u8) -> u8
    ensures { result ≡ cond (eqb head 115) 32 head }
{
    if head == b's' { b' ' } else { head }
}

/// Whether a line of values is among those so far, after one more byte.
pub(crate) fn next_values(spot: Spot, values: bool, b: u8) -> bool
    ensures { result ≡ next_values spot values b }
{
    match spot {
        Spot::Held(head) => values || head == b'v' && ends_word(b),
        Spot::Start | Spot::Within | Spot::Amid(_) => values,
    }
}

/// And where the output ends.
pub(crate) fn values_at_end(spot: Spot, values: bool) -> bool
    ensures { result ≡ values_at_end spot values }
{
    match spot {
        Spot::Held(head) => values || head == b'v',
        Spot::Start | Spot::Within | Spot::Amid(_) => values,
    }
}
