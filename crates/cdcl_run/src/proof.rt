// The lines of the proof.

ghost use Rattle.std.specs.Prelude.{◌≡◌, ◌≤◌, ◌++◌, ◌∷◌, [], codes, OnErr, OnOk};
ghost use Rattle.cnf_form.specs.Dimacs.{literal_text, clause_text};
ghost use Rattle.sby_edge.specs.Cause.{greatest};
ghost use Rattle.cdcl_run.specs.Output.{Breaks, Puts};
ghost use Rattle.cdcl_run.specs.Text.{words_text};

use crate::output::{put, put_literal};
use crate::piece::Piece;
use cnf_form::Lit;
use sby_edge::{Failed, Sink};

// Gathers a literal and a space.
pub(crate) fn put_word<S: Sink>(sink: &mut S, piece: &mut Piece, l: Lit) -> Result<(), Failed>
    ensures ok { OnOk result (Puts
        (record { taken = S.taken sink.old; faults = S.faults sink.old; gathered = piece.old })
        (record { taken = S.taken sink.new; faults = S.faults sink.new; gathered = piece.new }) (literal_text l ++ 32 ∷ [])) }
    ensures failed { OnErr result (Breaks
        (record { taken = S.taken sink.old; faults = S.faults sink.old; gathered = piece.old })
        (record { taken = S.taken sink.new; faults = S.faults sink.new; gathered = piece.new }) (literal_text l ++ 32 ∷ [])) }
    ensures later { S.faults sink.old ≤ S.faults sink.new }
    ensures stays { S.faults sink.old ≡ greatest → S.faults sink.new ≡ S.faults sink.old }
{
    put_literal(sink, piece, l)?;
    put(sink, piece, b" ")
}

// Gathers literals, each with a space after it, and an end.
pub(crate) fn put_words<S: Sink>(
    sink: &mut S,
    piece: &mut Piece,
    clause: &[Lit],
    end: &[u8],
) -> Result<(), Failed>
    ensures ok { OnOk result (Puts
        (record { taken = S.taken sink.old; faults = S.faults sink.old; gathered = piece.old })
        (record { taken = S.taken sink.new; faults = S.faults sink.new; gathered = piece.new }) (words_text clause.now ++ end.now)) }
    ensures failed { OnErr result (Breaks
        (record { taken = S.taken sink.old; faults = S.faults sink.old; gathered = piece.old })
        (record { taken = S.taken sink.new; faults = S.faults sink.new; gathered = piece.new }) (words_text clause.now ++ end.now)) }
    ensures later { S.faults sink.old ≤ S.faults sink.new }
    ensures stays { S.faults sink.old ≡ greatest → S.faults sink.new ≡ S.faults sink.old }
{
    for l in clause {
        put_word(sink, piece, *l)?;
    }
    put(sink, piece, end)
}

// Gathers the line of a clause.
pub(crate) fn put_clause<S: Sink>(
    sink: &mut S,
    piece: &mut Piece,
    clause: &[Lit],
) -> Result<(), Failed>
    ensures ok { OnOk result (Puts
        (record { taken = S.taken sink.old; faults = S.faults sink.old; gathered = piece.old })
        (record { taken = S.taken sink.new; faults = S.faults sink.new; gathered = piece.new }) (clause_text clause.now)) }
    ensures failed { OnErr result (Breaks
        (record { taken = S.taken sink.old; faults = S.faults sink.old; gathered = piece.old })
        (record { taken = S.taken sink.new; faults = S.faults sink.new; gathered = piece.new }) (clause_text clause.now)) }
    ensures later { S.faults sink.old ≤ S.faults sink.new }
    ensures stays { S.faults sink.old ≡ greatest → S.faults sink.new ≡ S.faults sink.old }
{
    put_words(sink, piece, clause, b"0\n")
}

// Gathers the line of a deletion.
pub(crate) fn put_deletion<S: Sink>(
    sink: &mut S,
    piece: &mut Piece,
    clause: &[Lit],
) -> Result<(), Failed>
    ensures ok { OnOk result (Puts
        (record { taken = S.taken sink.old; faults = S.faults sink.old; gathered = piece.old })
        (record { taken = S.taken sink.new; faults = S.faults sink.new; gathered = piece.new }) (codes "d " ++ clause_text clause.now)) }
    ensures failed { OnErr result (Breaks
        (record { taken = S.taken sink.old; faults = S.faults sink.old; gathered = piece.old })
        (record { taken = S.taken sink.new; faults = S.faults sink.new; gathered = piece.new }) (codes "d " ++ clause_text clause.now)) }
    ensures later { S.faults sink.old ≤ S.faults sink.new }
    ensures stays { S.faults sink.old ≡ greatest → S.faults sink.new ≡ S.faults sink.old }
{
    put(sink, piece, b"d ")?;
    put_clause(sink, piece, clause)
}
