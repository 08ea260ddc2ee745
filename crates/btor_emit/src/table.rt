// Where the bits of a model stand, and rows of them that become words.

ghost use Rattle.std.specs.Prelude.{◌≡◌, ◌⊎◌, ◌+◌, ◌-◌, ◌*◌, ◌<◌, ◌≤◌, ◌^◌, ℕ, IfOk, Some, IsTrue, Contains, length, set, take, drop, slice_get};
ghost use Rattle.btor_core.specs.Fits.{IsBtor, IsWidth};
ghost use Rattle.btor_words.specs.Emitting.{Emits};
ghost use Rattle.btor_emit.specs.Emitting.{AreAliased};
ghost use Rattle.btor_emit.specs.Table.{AreIn, AreSeats, Puts, cycle_of, seat_at};
ghost use Rattle.btor_emit.specs.Stretching.{IsDigit, IsReseated, IsSeated, IsStretch, digit_in, later};
ghost use Rattle.model_core.specs.Meaning.{row_at};

use btor_core::draft::{Draft, DraftFault};
use btor_core::line::Word;
use btor_words::{above, constant, slice};

/// Where a bit stands.
#[derive(Clone, Copy, Debug, PartialEq, Eq)]
pub enum Seat {
    /// It is this digit in each cycle.
    Digit(bool),
    /// It is this bit of a word.
    Bit(Word, u32),
}

// Where a place stands.
fn seat_at(table: &[Seat], place: u32) -> Seat
    requires { place < length table.now }
    ensures { result ≡ seat_at table.now place }
{
    table[place as usize]
}

// Whether a seat is this many bits after another.
fn follows(first: Seat, more: usize, seat: Seat) -> bool
    requires { more < 2 ^ 32 }
    ensures { IsTrue result → seat ≡ later first more }
{
    match (first, seat) {
        (Seat::Bit(word, bit), Seat::Bit(other, at)) => {
            word == other && at as usize == bit as usize + more
        }
        _ => false,
    }
}

// Where the stretch ends that begins at this place of the list: bits of one word, one after the other.
fn stretch(table: &[Seat], places: &[u32], first: usize, seat: Seat) -> usize
    requires inside { AreIn table.now places.now }
    requires few { length places.now < 2 ^ 32 }
    requires first { first < length places.now }
    requires seat { (p : ℕ) → slice_get places.now first ≡ Some p → seat_at table.now p ≡ later seat 0 }
    ensures some { first < result }
    ensures most { result ≤ length places.now }
    ensures each { IsStretch table.now places.now first result seat }
{
    let mut end = first + 1;
    while end < places.len() {
        if !follows(seat, end - first, seat_at(table, places[end])) {
            return end;
        }
        end += 1;
    }
    end
}

// What a seat's digit is; 0 where it has none.
fn digit(seat: Seat) -> bool
    ensures { result ≡ digit_in seat }
{
    match seat {
        Seat::Digit(digit) => digit,
        Seat::Bit(_, _) => false,
    }
}

// Whether a seat is a digit.
fn is_digit(seat: Seat) -> bool
    ensures { IsTrue result → IsDigit seat }
{
    match seat {
        Seat::Digit(_) => true,
        Seat::Bit(_, _) => false,
    }
}

// Where the digits end that begin at this place of the list.
fn digits_end(table: &[Seat], places: &[u32], first: usize) -> usize
    requires inside { AreIn table.now places.now }
    requires first { first < length places.now }
    requires digit { (p : ℕ) → slice_get places.now first ≡ Some p → IsDigit (seat_at table.now p) }
    ensures some { first < result }
    ensures most { result ≤ length places.now }
    ensures each { (k p : ℕ) → first ≤ k → k < result → slice_get places.now k ≡ Some p → IsDigit (seat_at table.now p) }
{
    let mut end = first + 1;
    while end < places.len() {
        if !is_digit(seat_at(table, places[end])) {
            return end;
        }
        end += 1;
    }
    end
}

// The constant of places that are digits.
fn digits_part(draft: &mut Draft, table: &[Seat], places: &[u32]) -> Result<Word, DraftFault>
    requires inside { AreIn table.now places.now }
    requires width { IsWidth (length places.now) }
    requires digits { (k p : ℕ) → slice_get places.now k ≡ Some p → IsDigit (seat_at table.now p) }
    ensures row { IfOk result (λ r. Emits draft.old draft.new r (length places.now) 2 (λ vs. row_at (cycle_of table.now vs) places.now)) }
{
    let mut bits = [false; 4096];
    for k in 0..places.len() {
        bits[k] = digit(seat_at(table, places[k]));
    }
    let word = constant(draft, &bits[..places.len()])?;
    Ok(word)
}

// The word of the longest stretch of one word's bits, or of digits, from this place of the list on, and where it ends.
fn part_at(
    draft: &mut Draft,
    table: &[Seat],
    places: &[u32],
    first: usize,
) -> Result<(Word, usize), DraftFault>
    requires btor { IsBtor draft.old }
    requires seats { AreSeats draft.old table.now }
    requires inside { AreIn table.now places.now }
    requires first { first < length places.now }
    requires width { IsWidth (length places.now) }
    ensures some { IfOk result (λ x. first < x.1) }
    ensures most { IfOk result (λ x. x.1 ≤ length places.now) }
    ensures row { IfOk result (λ x. Emits draft.old draft.new x.0 (x.1 - first) 2 (λ vs. row_at (cycle_of table.now vs) (take (x.1 - first) (drop first places.now)))) }
{
    let seat = seat_at(table, places[first]);
    match seat {
        Seat::Digit(_) => {
            let end = digits_end(table, places, first);
            let part = digits_part(draft, table, &places[first..end])?;
            Ok((part, end))
        }
        Seat::Bit(word, bit) => {
            let end = stretch(table, places, first, seat);
            let part = slice(draft, word, bit, (end - first) as u32)?;
            Ok((part, end))
        }
    }
}

// The word of these places' bits: one word itself where they are it, else parts of words, one above the other.
fn put_together(draft: &mut Draft, table: &[Seat], places: &[u32]) -> Result<Word, DraftFault>
    requires btor { IsBtor draft.old }
    requires seats { AreSeats draft.old table.now }
    requires inside { AreIn table.now places.now }
    requires width { IsWidth (length places.now) }
    ensures row { IfOk result (λ r. Emits draft.old draft.new r (length places.now) (4 * length places.now) (λ vs. row_at (cycle_of table.now vs) places.now)) }
{
    let (mut row, mut done) = part_at(draft, table, places, 0)?;
    while done < places.len() {
        let (part, end) = part_at(draft, table, places, done)?;
        row = above(draft, row, part)?;
        done = end;
    }
    Ok(row)
}

// A place that stands in a word of one bit stands in this seat.
fn move_bit(table: &mut [Seat], place: u32, seat: Seat)
    requires { place < length table.old }
    ensures { (table.new ≡ set table.old place seat) ⊎ (table.new ≡ table.old) }
{
    if let Seat::Bit(word, _) = table[place as usize] {
        if word.width == 1 {
            table[place as usize] = seat;
        }
    }
}

// Places that stood in words of one bit stand in the row that was put together of them, so that its later readers find it.
fn reseat(table: &mut [Seat], places: &[u32], row: Word)
    requires inside { AreIn table.old places.now }
    requires width { length places.now ≡ row.width }
    ensures { IsReseated table.old table.new places.now row }
{
    for (bit, place) in places.iter().enumerate() {
        move_bit(table, *place, Seat::Bit(row, bit as u32));
    }
}

/// The word of these places' bits. Where it was put together, its bits stand in it from then on.
pub fn gather(draft: &mut Draft, table: &mut [Seat], places: &[u32]) -> Result<Word, DraftFault>
    requires btor { IsBtor draft.old }
    requires seats { AreSeats draft.old table.old }
    requires inside { AreIn table.old places.now }
    requires width { IsWidth (length places.now) }
    ensures row { IfOk result (λ r. Puts draft.old draft.new table.old table.new r (length places.now) (4 * length places.now) (λ vs. row_at (cycle_of table.old vs) places.now)) }
{
    let row = put_together(draft, table, places)?;
    reseat(table, places, row);
    Ok(row)
}

/// The places get the word's bits, the lowest first.
pub fn give(table: &mut [Seat], places: &[u32], word: Word)
    requires inside { AreIn table.old places.now }
    requires width { length places.now ≡ word.width }
    ensures { IsSeated table.old table.new places.now word }
{
    for (bit, place) in places.iter().enumerate() {
        table[*place as usize] = Seat::Bit(word, bit as u32);
    }
}

// A place stands where another one stands.
fn stand(table: &mut [Seat], place: u32, other: u32)
    requires place { place < length table.old }
    requires other { other < length table.old }
    ensures { table.new ≡ set table.old place (seat_at table.old other) }
{
    table[place as usize] = table[other as usize];
}

/// Each of these places stands where the place of the other list stands.
pub fn alias(table: &mut [Seat], places: &[u32], others: &[u32])
    requires inside { AreIn table.old places.now }
    requires others { AreIn table.old others.now }
    requires same { length others.now ≡ length places.now }
    requires apart { (p : ℕ) → Contains places.now p → Contains others.now p → ⊥ }
    ensures { AreAliased table.old table.new places.now others.now }
{
    for bit in 0..places.len() {
        stand(table, places[bit], others[bit]);
    }
}
