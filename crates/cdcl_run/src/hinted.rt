// The lines of the hinted proof.

ghost use Rattle.std.specs.Prelude.{◌≡◌, ◌≤◌, ◌++◌, ◌∷◌, [], codes, decimal, OnErr, OnOk};
ghost use Rattle.sby_edge.specs.Cause.{greatest};
ghost use Rattle.cdcl_run.specs.HintedText.{addition_text, ids_text, literals_text};
ghost use Rattle.cdcl_run.specs.Output.{Breaks, Puts};

use crate::output::put;
use crate::piece::Piece;
use crate::proof::put_words;
use cnf_form::Lit;
use itoa::Buffer;
use sby_edge::{Failed, Sink};

// Gathers an id and a space.
fn put_id<S: Sink>(sink: &mut S, piece: &mut Piece, id: u64) -> Result<(), Failed>
    ensures ok { OnOk result (Puts
        (record { taken = S.taken sink.old; faults = S.faults sink.old; gathered = piece.old })
        (record { taken = S.taken sink.new; faults = S.faults sink.new; gathered = piece.new }) (decimal id ++ 32 ∷ [])) }
    ensures failed { OnErr result (Breaks
        (record { taken = S.taken sink.old; faults = S.faults sink.old; gathered = piece.old })
        (record { taken = S.taken sink.new; faults = S.faults sink.new; gathered = piece.new }) (decimal id ++ 32 ∷ [])) }
    ensures later { S.faults sink.old ≤ S.faults sink.new }
    ensures stays { S.faults sink.old ≡ greatest → S.faults sink.new ≡ S.faults sink.old }
{
    let mut digits = Buffer::new();
    let number = digits.format(id);
    put(sink, piece, number.as_bytes())?;
    put(sink, piece, b" ")
}

// Gathers ids, 0 and a line feed.
fn put_ids<S: Sink>(sink: &mut S, piece: &mut Piece, ids: &[u64]) -> Result<(), Failed>
    ensures ok { OnOk result (Puts
        (record { taken = S.taken sink.old; faults = S.faults sink.old; gathered = piece.old })
        (record { taken = S.taken sink.new; faults = S.faults sink.new; gathered = piece.new }) (ids_text ids.now)) }
    ensures failed { OnErr result (Breaks
        (record { taken = S.taken sink.old; faults = S.faults sink.old; gathered = piece.old })
        (record { taken = S.taken sink.new; faults = S.faults sink.new; gathered = piece.new }) (ids_text ids.now)) }
    ensures later { S.faults sink.old ≤ S.faults sink.new }
    ensures stays { S.faults sink.old ≡ greatest → S.faults sink.new ≡ S.faults sink.old }
{
    for id in ids {
        put_id(sink, piece, *id)?;
    }
    put(sink, piece, b"0\n")
}

// Gathers literals, 0 and a space.
fn put_literals<S: Sink>(sink: &mut S, piece: &mut Piece, clause: &[Lit]) -> Result<(), Failed>
    ensures ok { OnOk result (Puts
        (record { taken = S.taken sink.old; faults = S.faults sink.old; gathered = piece.old })
        (record { taken = S.taken sink.new; faults = S.faults sink.new; gathered = piece.new }) (literals_text clause.now)) }
    ensures failed { OnErr result (Breaks
        (record { taken = S.taken sink.old; faults = S.faults sink.old; gathered = piece.old })
        (record { taken = S.taken sink.new; faults = S.faults sink.new; gathered = piece.new }) (literals_text clause.now)) }
    ensures later { S.faults sink.old ≤ S.faults sink.new }
    ensures stays { S.faults sink.old ≡ greatest → S.faults sink.new ≡ S.faults sink.old }
{
    put_words(sink, piece, clause, b"0 ")
}

// Gathers the line of a clause.
pub(crate) fn put_hinted<S: Sink>(
    sink: &mut S,
    piece: &mut Piece,
    clause: &[Lit],
    id: u64,
    hints: &[u64],
) -> Result<(), Failed>
    ensures ok { OnOk result (Puts
        (record { taken = S.taken sink.old; faults = S.faults sink.old; gathered = piece.old })
        (record { taken = S.taken sink.new; faults = S.faults sink.new; gathered = piece.new }) (addition_text clause.now id hints.now)) }
    ensures failed { OnErr result (Breaks
        (record { taken = S.taken sink.old; faults = S.faults sink.old; gathered = piece.old })
        (record { taken = S.taken sink.new; faults = S.faults sink.new; gathered = piece.new }) (addition_text clause.now id hints.now)) }
    ensures later { S.faults sink.old ≤ S.faults sink.new }
    ensures stays { S.faults sink.old ≡ greatest → S.faults sink.new ≡ S.faults sink.old }
{
    put_id(sink, piece, id)?;
    put_literals(sink, piece, clause)?;
    put_ids(sink, piece, hints)
}

// Gathers the line of a deletion.
pub(crate) fn put_hinted_deletion<S: Sink>(
    sink: &mut S,
    piece: &mut Piece,
    id: u64,
) -> Result<(), Failed>
    ensures ok { OnOk result (Puts
        (record { taken = S.taken sink.old; faults = S.faults sink.old; gathered = piece.old })
        (record { taken = S.taken sink.new; faults = S.faults sink.new; gathered = piece.new }) (codes "1 d " ++ ids_text (id ∷ []))) }
    ensures failed { OnErr result (Breaks
        (record { taken = S.taken sink.old; faults = S.faults sink.old; gathered = piece.old })
        (record { taken = S.taken sink.new; faults = S.faults sink.new; gathered = piece.new }) (codes "1 d " ++ ids_text (id ∷ []))) }
    ensures later { S.faults sink.old ≤ S.faults sink.new }
    ensures stays { S.faults sink.old ≡ greatest → S.faults sink.new ≡ S.faults sink.old }
{
    put(sink, piece, b"1 d ")?;
    put_ids(sink, piece, &[id])
}
