// The pieces of a formula's text: the header, then a clause of a gate, or a literal of the last clause, at a time.

ghost use Rattle.std.specs.Prelude.{◌≡◌, ◌+◌, ◌<◌, ◌≤◌, ◌++◌, ◌∷◌, [], List, cond, drop, length, Some, slice_get, true};
ghost use Rattle.arrayvec.specs.ArrayString.{array_string_len};
ghost use Rattle.cnf_form.specs.Dimacs.{clause_text, header_text, literal_text};
ghost use Rattle.cnf_form.specs.Cnf.{LitOf};
ghost use Rattle.gate_graph.specs.declared.gate.Gate.{Gate as GateOf};
ghost use Rattle.gate_graph.specs.Folding.{clauses_of};
ghost use Rattle.gate_graph.specs.Kept.{lit_of};
ghost use Rattle.net_unroll.specs.Clauses.{lits_of};
ghost use Rattle.net_text.specs.Text.{IsFront, IsPlace, count_of, gates_text, rest_of, text_from};

use arrayvec::ArrayString;
use cnf_form::Lit;
use itoa::Buffer;
use net_unroll::{Clause, Encoded, clause_at, clause_count};

// Where a piece begins.
#[derive(Clone, Copy, Debug, PartialEq, Eq)]
pub enum Place {
    // The header, with the clause that comes first.
    Head,
    // A clause of a gate: the gate's place, and the clause's among those of the gate.
    Clause(usize, usize),
    // A literal of the last clause, or its end.
    Goal(usize),
    // The end of the text.
    End,
}

// A piece, for which 80 bytes are room enough, how many of its bytes have been given, and what comes after it.
#[derive(Clone, Copy, Drop)]
pub struct Front {
    pub piece: ArrayString<80>,
    pub given: usize,
    pub next: Place,
}

// Puts a literal and a space after what is there.
fn push_lit(text: &mut ArrayString<80>, lit: Lit)
    requires { array_string_len text.old + 12 ≤ 80 }
    ensures bytes { text.new.bytes ≡ text.old.bytes ++ (literal_text lit ++ 32 ∷ []) }
    ensures few { array_string_len text.new ≤ array_string_len text.old + 12 }
{
    if lit.is_negated() {
        text.push_str("-");
    }
    let mut digits = Buffer::new();
    text.push_str(digits.format(lit.var()));
    text.push_str(" ");
}

// The text of a clause.
fn clause_piece(clause: Clause) -> ArrayString<80>
    ensures { result.bytes ≡ clause_text (lits_of clause) }
{
    let mut text = ArrayString::new();
    match clause {
        Clause::Two(a, b) => {
            push_lit(&mut text, a);
            push_lit(&mut text, b);
        }
        Clause::Three(a, b, c) => {
            push_lit(&mut text, a);
            push_lit(&mut text, b);
            push_lit(&mut text, c);
        }
    }
    text.push_str("0\n");
    text
}

// The text of a literal and a space.
fn lit_piece(lit: Lit) -> ArrayString<80>
    ensures { result.bytes ≡ literal_text lit ++ 32 ∷ [] }
{
    let mut text = ArrayString::new();
    push_lit(&mut text, lit);
    text
}

// The text of a clause's end.
fn end_piece() -> ArrayString<80>
    ensures { result.bytes ≡ clause_text [] }
{
    let mut text = ArrayString::new();
    text.push_str("0\n");
    text
}

// The header of this many variables and clauses, and the clause after it: that variable 1 is true, or the empty clause.
fn head_piece(vars: u32, count: u128, asks: bool) -> ArrayString<80>
    ensures { result.bytes ≡ header_text vars count ++ clause_text (cond asks (lit_of 1 true ∷ []) []) }
{
    let mut text = ArrayString::new();
    text.push_str("p cnf ");
    let mut digits = Buffer::new();
    text.push_str(digits.format(vars));
    text.push_str(" ");
    text.push_str(digits.format(count));
    text.push_str("\n");
    if asks {
        push_lit(&mut text, Lit::new(1, false));
    }
    text.push_str("0\n");
    text
}

// Where the gates from this one on begin.
fn gate_place(encoded: &Encoded, gate: usize) -> Place
    requires { gate ≤ length encoded.now.gates }
    ensures place { IsPlace encoded.now result }
    ensures text { text_from encoded.now result ≡ gates_text (drop gate encoded.now.gates) 0 ++ clause_text encoded.now.goals }
{
    if gate < encoded.gates().len() {
        Place::Clause(gate, 0)
    } else {
        Place::Goal(0)
    }
}

// What comes after a clause of a gate.
fn after_clause(encoded: &Encoded, gate: usize, clause: usize) -> Place
    requires { IsPlace encoded.now (Place.Clause gate clause) }
    ensures place { IsPlace encoded.now result }
    ensures text { (x : GateOf × LitOf) (c : List LitOf) → slice_get encoded.now.gates gate ≡ Some x → slice_get (clauses_of x.1 x.0) clause ≡ Some c
        → text_from encoded.now (Place.Clause gate clause) ≡ clause_text c ++ text_from encoded.now result }
{
    let next = clause + 1;
    if next < clause_count(&encoded.gates()[gate].0) {
        Place::Clause(gate, next)
    } else {
        gate_place(encoded, gate + 1)
    }
}

// The header, and what comes after it.
fn head_front(encoded: &Encoded, count: u128) -> Front
    requires { count ≡ count_of encoded.now }
    ensures front { IsFront encoded.now result }
    ensures rest { rest_of encoded.now result ≡ text_from encoded.now Place.Head }
    ensures some { result.given < length result.piece.bytes }
{
    if encoded.asks() {
        Front {
            piece: head_piece(encoded.vars(), count, true),
            given: 0,
            next: gate_place(encoded, 0),
        }
    } else {
        Front {
            piece: head_piece(encoded.vars(), count, false),
            given: 0,
            next: Place::End,
        }
    }
}

// A clause of a gate, and what comes after it.
fn clause_front(encoded: &Encoded, gate: usize, clause: usize) -> Front
    requires { IsPlace encoded.now (Place.Clause gate clause) }
    ensures front { IsFront encoded.now result }
    ensures rest { rest_of encoded.now result ≡ text_from encoded.now (Place.Clause gate clause) }
    ensures some { result.given < length result.piece.bytes }
{
    let entry = encoded.gates()[gate];
    Front {
        piece: clause_piece(clause_at(&entry.0, entry.1, clause)),
        given: 0,
        next: after_clause(encoded, gate, clause),
    }
}

// A literal of the last clause, or its end, and what comes after it.
fn goal_front(encoded: &Encoded, place: usize) -> Front
    requires { IsPlace encoded.now (Place.Goal place) }
    ensures front { IsFront encoded.now result }
    ensures rest { rest_of encoded.now result ≡ text_from encoded.now (Place.Goal place) }
    ensures some { result.given < length result.piece.bytes }
{
    let goals = encoded.goals();
    if place < goals.len() {
        Front {
            piece: lit_piece(goals[place]),
            given: 0,
            next: Place::Goal(place + 1),
        }
    } else {
        Front {
            piece: end_piece(),
            given: 0,
            next: Place::End,
        }
    }
}

// The piece at a place, and what comes after it.
fn front_at(encoded: &Encoded, count: u128, place: Place) -> Front
    requires count { count ≡ count_of encoded.now }
    requires place { IsPlace encoded.now place }
    ensures front { IsFront encoded.now result }
    ensures rest { rest_of encoded.now result ≡ text_from encoded.now place }
    ensures some { length result.piece.bytes ≤ result.given → text_from encoded.now place ≡ [] }
{
    match place {
        Place::Head => head_front(encoded, count),
        Place::Clause(gate, clause) => clause_front(encoded, gate, clause),
        Place::Goal(place) => goal_front(encoded, place),
        Place::End => Front {
            piece: ArrayString::new(),
            given: 0,
            next: Place::End,
        },
    }
}

// Puts the next piece where all of the piece at hand has been given.
pub fn refill(encoded: &Encoded, count: u128, front: &mut Front)
    requires count { count ≡ count_of encoded.now }
    requires front { IsFront encoded.now front.old }
    ensures front { IsFront encoded.now front.new }
    ensures rest { rest_of encoded.now front.new ≡ rest_of encoded.now front.old }
    ensures some { length front.new.piece.bytes ≤ front.new.given → rest_of encoded.now front.old ≡ [] }
{
    if front.given >= front.piece.len() {
        *front = front_at(encoded, count, front.next);
    }
}

// The beginning of the text.
pub fn first() -> Front
    ensures next { result.next ≡ Place.Head }
    ensures given { result.given ≡ 0 }
    ensures piece { result.piece.bytes ≡ [] }
{
    Front {
        piece: ArrayString::new(),
        given: 0,
        next: Place::Head,
    }
}

// How many clauses there are: more than a `usize` counts, for all that is known of the gates.
pub fn count_clauses(encoded: &Encoded) -> u128
    ensures { result ≡ count_of encoded.now }
{
    if !encoded.asks() {
        return 1;
    }
    let gates = encoded.gates();
    let many = gates.len();
    let mut count = 2;
    for place in 0..many {
        count += clause_count(&gates[place].0) as u128;
    }
    count
}
