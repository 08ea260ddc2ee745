// The pieces of a pair's text: a comment line, the header, or a literal of a clause at a time.

ghost use Rattle.std.specs.Prelude.{◌≡◌, ◌+◌, ◌<◌, ◌≤◌, ◌++◌, ◌∷◌, [], List, Some, drop, length, slice_get, codes};
ghost use Rattle.arrayvec.specs.ArrayString.{array_string_len};
ghost use Rattle.cnf_form.specs.Dimacs.{header_text, literal_text};
ghost use Rattle.pair_form.specs.Text.{IsFront, IsPlace, bit_text, clauses_text, named_text, rest_of, text_from};

use crate::pair::{BitLits, Pair};
use arrayvec::ArrayString;
use cnf_form::Lit;
use itoa::Buffer;

// Where a piece begins.
#[derive(Clone, Copy, Debug, PartialEq, Eq)]
pub enum Place {
    // The lines of the state bits from this place on.
    Bit(usize),
    Start,
    Next,
    Bad,
    // The header of the formula.
    Head,
    // A clause, and a literal of it, or its end.
    Literal(usize, usize),
    // The end of the text.
    End,
}

// A piece, for which 80 bytes are room enough, how many of its bytes have been given, and what comes after it.
#[derive(Clone, Copy, Drop)]
pub struct Front {
    pub piece: ArrayString<80>,
    pub given: usize,
    pub next: Place,
}

// Puts a literal after what is there.
fn push_lit(text: &mut ArrayString<80>, lit: Lit)
    requires { array_string_len text.old + 11 ≤ 80 }
    ensures bytes { text.new.bytes ≡ text.old.bytes ++ literal_text lit }
    ensures few { array_string_len text.new ≤ array_string_len text.old + 11 }
{
    if lit.is_negated() {
        text.push_str("-");
    }
    let mut digits = Buffer::new();
    text.push_str(digits.format(lit.var()));
}

// The line of a state bit.
fn bit_piece(number: u64, lits: BitLits) -> ArrayString<80>
    ensures { result.bytes ≡ bit_text number lits }
{
    let mut text = ArrayString::new();
    text.push_str("c bit ");
    let mut digits = Buffer::new();
    text.push_str(digits.format(number));
    text.push_str(" ");
    push_lit(&mut text, lits.first);
    text.push_str(" ");
    push_lit(&mut text, lits.second);
    text.push_str("\n");
    text
}

fn start_piece(lit: Lit) -> ArrayString<80>
    ensures { result.bytes ≡ named_text (codes "c start ") lit }
{
    let mut text = ArrayString::new();
    text.push_str("c start ");
    push_lit(&mut text, lit);
    text.push_str("\n");
    text
}

fn next_piece(lit: Lit) -> ArrayString<80>
    ensures { result.bytes ≡ named_text (codes "c next ") lit }
{
    let mut text = ArrayString::new();
    text.push_str("c next ");
    push_lit(&mut text, lit);
    text.push_str("\n");
    text
}

fn bad_piece(lit: Lit) -> ArrayString<80>
    ensures { result.bytes ≡ named_text (codes "c bad ") lit }
{
    let mut text = ArrayString::new();
    text.push_str("c bad ");
    push_lit(&mut text, lit);
    text.push_str("\n");
    text
}

// The header of this many variables and clauses.
fn head_piece(vars: u32, count: usize) -> ArrayString<80>
    ensures { result.bytes ≡ header_text vars count }
{
    let mut text = ArrayString::new();
    text.push_str("p cnf ");
    let mut digits = Buffer::new();
    text.push_str(digits.format(vars));
    text.push_str(" ");
    text.push_str(digits.format(count));
    text.push_str("\n");
    text
}

// A literal and a space.
fn lit_piece(lit: Lit) -> ArrayString<80>
    ensures { result.bytes ≡ literal_text lit ++ 32 ∷ [] }
{
    let mut text = ArrayString::new();
    push_lit(&mut text, lit);
    text.push_str(" ");
    text
}

// A clause's end.
fn end_piece() -> ArrayString<80>
    ensures { result.bytes ≡ 48 ∷ 10 ∷ [] }
{
    let mut text = ArrayString::new();
    text.push_str("0\n");
    text
}

// Where the clauses from this one on begin.
fn clause_place(pair: &Pair, clause: usize) -> Place
    ensures place { IsPlace pair.now result }
    ensures text { text_from pair.now result ≡ clauses_text (drop clause pair.now.formula.clauses) 0 }
{
    if clause < pair.formula().clauses().len() {
        Place::Literal(clause, 0)
    } else {
        Place::End
    }
}

// The line of the next state bit that has literals, or that of the start, and what comes after it.
fn bit_front(pair: &Pair, place: usize) -> Front
    requires { place ≤ length pair.now.bits }
    ensures front { IsFront pair.now result }
    ensures rest { rest_of pair.now result ≡ text_from pair.now (Place.Bit place) }
    ensures some { result.given < length result.piece.bytes }
{
    let bits = pair.bits();
    for at in place..bits.len() {
        if let Some(lits) = bits[at] {
            return Front {
                piece: bit_piece(at as u64 + 1, lits),
                given: 0,
                next: Place::Bit(at + 1),
            };
        }
    }
    start_front(pair)
}

// The line of the start, and what comes after it.
fn start_front(pair: &Pair) -> Front
    ensures front { IsFront pair.now result }
    ensures rest { rest_of pair.now result ≡ text_from pair.now Place.Start }
    ensures some { result.given < length result.piece.bytes }
{
    Front {
        piece: start_piece(pair.start()),
        given: 0,
        next: Place::Next,
    }
}

// A literal of a clause, or its end, and what comes after it.
fn literal_front(pair: &Pair, clause: usize, place: usize) -> Front
    requires { IsPlace pair.now (Place.Literal clause place) }
    ensures front { IsFront pair.now result }
    ensures rest { rest_of pair.now result ≡ text_from pair.now (Place.Literal clause place) }
    ensures some { result.given < length result.piece.bytes }
{
    let lits = pair.formula().clauses().get(clause);
    if place < lits.len() {
        Front {
            piece: lit_piece(lits[place]),
            given: 0,
            next: Place::Literal(clause, place + 1),
        }
    } else {
        Front {
            piece: end_piece(),
            given: 0,
            next: clause_place(pair, clause + 1),
        }
    }
}

// The header, and what comes after it.
fn head_front(pair: &Pair) -> Front
    ensures front { IsFront pair.now result }
    ensures rest { rest_of pair.now result ≡ text_from pair.now Place.Head }
    ensures some { result.given < length result.piece.bytes }
{
    let formula = pair.formula();
    Front {
        piece: head_piece(formula.vars(), formula.clauses().len()),
        given: 0,
        next: clause_place(pair, 0),
    }
}

// The piece at a place, and what comes after it.
fn front_at(pair: &Pair, place: Place) -> Front
    requires { IsPlace pair.now place }
    ensures front { IsFront pair.now result }
    ensures rest { rest_of pair.now result ≡ text_from pair.now place }
    ensures some { length result.piece.bytes ≤ result.given → text_from pair.now place ≡ [] }
{
    match place {
        Place::Bit(at) => bit_front(pair, at),
        Place::Start => start_front(pair),
        Place::Next => Front {
            piece: next_piece(pair.next()),
            given: 0,
            next: Place::Bad,
        },
        Place::Bad => Front {
            piece: bad_piece(pair.bad()),
            given: 0,
            next: Place::Head,
        },
        Place::Head => head_front(pair),
        Place::Literal(clause, at) => literal_front(pair, clause, at),
        Place::End => Front {
            piece: ArrayString::new(),
            given: 0,
            next: Place::End,
        },
    }
}

// Puts the next piece where all of the piece at hand has been given.
pub fn refill(pair: &Pair, front: &mut Front)
    requires { IsFront pair.now front.old }
    ensures front { IsFront pair.now front.new }
    ensures rest { rest_of pair.now front.new ≡ rest_of pair.now front.old }
    ensures some { length front.new.piece.bytes ≤ front.new.given → rest_of pair.now front.old ≡ [] }
{
    if front.given >= front.piece.len() {
        *front = front_at(pair, front.next);
    }
}

// The beginning of the text.
pub fn first() -> Front
    ensures next { result.next ≡ Place.Bit 0 }
    ensures given { result.given ≡ 0 }
    ensures piece { result.piece.bytes ≡ [] }
{
    Front {
        piece: ArrayString::new(),
        given: 0,
        next: Place::Bit(0),
    }
}
