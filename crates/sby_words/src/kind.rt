// The kinds of stored streams.

ghost use Rattle.sby_words.specs.Kinds.{IsKindNamed};

use cert_judge::{Kind, StreamKind};

/// The kind of a stored stream by its name: `.lrat`, `.proof`, `.proofb`, `.wit` or `.inv` at its end, and else DRUP.
pub fn stream_kind(name: &str) -> Kind
    ensures { IsKindNamed name.now result }
{
    if name.ends_with(".lrat") {
        Kind::Certificate(StreamKind::Lrat)
    } else if name.ends_with(".proof") {
        Kind::Certificate(StreamKind::Proof)
    } else if name.ends_with(".proofb") {
        Kind::Certificate(StreamKind::ProofBinary)
    } else if name.ends_with(".wit") {
        Kind::Witness
    } else if name.ends_with(".inv") {
        Kind::Invariant
    } else {
        Kind::Certificate(StreamKind::Drup)
    }
}
