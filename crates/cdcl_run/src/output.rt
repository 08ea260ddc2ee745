// Output: texts are gathered, and written in whole pieces.

ghost use Rattle.std.specs.Prelude.{◌≡◌, ◌≤◌, ◌++◌, ◌∷◌, [], OnErr, OnOk};
ghost use Rattle.cnf_form.specs.Dimacs.{literal_text};
ghost use Rattle.sby_edge.specs.Cause.{Rose, greatest};
ghost use Rattle.cdcl_run.specs.Output.{Breaks, GrownBySome, Puts, grown};
ghost use Rattle.cdcl_run.specs.Text.{sign_text};

use crate::piece::Piece;
use cnf_form::Lit;
use itoa::Buffer;
use sby_edge::{Failed, Sink};

/// Offers a text until it is taken whole. It fails where a call of the sink does, and a part of the text may have been taken.
pub fn offer<S: Sink>(sink: &mut S, text: &[u8]) -> Result<(), Failed>
    ensures whole { OnOk result (S.taken sink.new ≡ grown (S.taken sink.old) text.now) }
    ensures part { OnErr result (GrownBySome (S.taken sink.old) (S.taken sink.new) text.now) }
    ensures still { OnOk result (S.faults sink.new ≡ S.faults sink.old) }
    ensures failed { OnErr result (Rose (S.faults sink.old) (S.faults sink.new)) }
    ensures later { S.faults sink.old ≤ S.faults sink.new }
    ensures stays { S.faults sink.old ≡ greatest → S.faults sink.new ≡ S.faults sink.old }
{
    let mut at = 0;
    while at < text.len() {
        let count = sink.write(text.split_at(at).1)?;
        if count == 0 {
            return Err(Failed);
        }
        at += count;
    }
    Ok(())
}

// Writes what was gathered.
pub(crate) fn flush<S: Sink>(sink: &mut S, piece: &mut Piece) -> Result<(), Failed>
    ensures ok { OnOk result (Puts
        (record { taken = S.taken sink.old; faults = S.faults sink.old; gathered = piece.old })
        (record { taken = S.taken sink.new; faults = S.faults sink.new; gathered = piece.new }) []) }
    ensures empty { OnOk result (piece.new ≡ []) }
    ensures failed { OnErr result (Breaks
        (record { taken = S.taken sink.old; faults = S.faults sink.old; gathered = piece.old })
        (record { taken = S.taken sink.new; faults = S.faults sink.new; gathered = piece.new }) []) }
    ensures later { S.faults sink.old ≤ S.faults sink.new }
    ensures stays { S.faults sink.old ≡ greatest → S.faults sink.new ≡ S.faults sink.old }
{
    offer(sink, piece.bytes())?;
    piece.clear();
    Ok(())
}

// Gathers a text. Before a byte for which there is no room, the whole piece is written.
pub(crate) fn put<S: Sink>(sink: &mut S, piece: &mut Piece, text: &[u8]) -> Result<(), Failed>
    ensures ok { OnOk result (Puts
        (record { taken = S.taken sink.old; faults = S.faults sink.old; gathered = piece.old })
        (record { taken = S.taken sink.new; faults = S.faults sink.new; gathered = piece.new }) text.now) }
    ensures failed { OnErr result (Breaks
        (record { taken = S.taken sink.old; faults = S.faults sink.old; gathered = piece.old })
        (record { taken = S.taken sink.new; faults = S.faults sink.new; gathered = piece.new }) text.now) }
    ensures later { S.faults sink.old ≤ S.faults sink.new }
    ensures stays { S.faults sink.old ≡ greatest → S.faults sink.new ≡ S.faults sink.old }
{
    let mut at = piece.gather(text);
    while at < text.len() {
        flush(sink, piece)?;
        at += piece.gather(text.split_at(at).1);
    }
    Ok(())
}

// Gathers the sign of a literal.
fn put_sign<S: Sink>(sink: &mut S, piece: &mut Piece, l: Lit) -> Result<(), Failed>
    ensures ok { OnOk result (Puts
        (record { taken = S.taken sink.old; faults = S.faults sink.old; gathered = piece.old })
        (record { taken = S.taken sink.new; faults = S.faults sink.new; gathered = piece.new }) (sign_text l)) }
    ensures failed { OnErr result (Breaks
        (record { taken = S.taken sink.old; faults = S.faults sink.old; gathered = piece.old })
        (record { taken = S.taken sink.new; faults = S.faults sink.new; gathered = piece.new }) (sign_text l)) }
    ensures later { S.faults sink.old ≤ S.faults sink.new }
    ensures stays { S.faults sink.old ≡ greatest → S.faults sink.new ≡ S.faults sink.old }
{
    if l.is_negated() {
        return put(sink, piece, b"-");
    }
    Ok(())
}

// Gathers a literal.
pub(crate) fn put_literal<S: Sink>(sink: &mut S, piece: &mut Piece, l: Lit) -> Result<(), Failed>
    ensures ok { OnOk result (Puts
        (record { taken = S.taken sink.old; faults = S.faults sink.old; gathered = piece.old })
        (record { taken = S.taken sink.new; faults = S.faults sink.new; gathered = piece.new }) (literal_text l)) }
    ensures failed { OnErr result (Breaks
        (record { taken = S.taken sink.old; faults = S.faults sink.old; gathered = piece.old })
        (record { taken = S.taken sink.new; faults = S.faults sink.new; gathered = piece.new }) (literal_text l)) }
    ensures later { S.faults sink.old ≤ S.faults sink.new }
    ensures stays { S.faults sink.old ≡ greatest → S.faults sink.new ≡ S.faults sink.old }
{
    let mut digits = Buffer::new();
    let number = digits.format(l.var());
    put_sign(sink, piece, l)?;
    put(sink, piece, number.as_bytes())
}
