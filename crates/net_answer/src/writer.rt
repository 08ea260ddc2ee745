// Writing an answer that is known whole.

ghost use Rattle.std.specs.Prelude.{◌≡◌, ◌≤◌, OnErr, OnOk, length};
ghost use Rattle.sby_edge.specs.Cause.{Rose};
ghost use Rattle.net_link.specs.Frame.{Pieces, ending, framed};
ghost use Rattle.net_link.specs.Link.{Grew};
ghost use Rattle.net_answer.specs.Written.{Wrote};

use net_link::{Link, offer};
use sby_edge::Failed;

// How many bytes of the stream a piece has at most.
pub(crate) const PIECE: usize = 65536;

// Writes a piece, with its length before it.
fn write_piece<L: Link>(link: &mut L, piece: &[u8]) -> Result<(), Failed>
    requires { length piece.now ≤ 65536 }
    ensures written { OnOk result (Grew (L.written link.old) (L.written link.new) (framed piece.now)) }
    ensures failed { OnErr result (Rose (L.faults link.old) (L.faults link.new)) }
    ensures still { OnOk result (L.faults link.new ≡ L.faults link.old) }
    ensures later { L.faults link.old ≤ L.faults link.new }
{
    let head = (piece.len() as u32).to_be_bytes();
    offer(link, &head)?;
    offer(link, piece)
}

// Writes the last piece, where it isn't empty, and the mark.
fn write_end<L: Link>(link: &mut L, last: &[u8]) -> Result<(), Failed>
    requires { length last.now ≤ 65536 }
    ensures written { OnOk result (Grew (L.written link.old) (L.written link.new) (ending last.now)) }
    ensures failed { OnErr result (Rose (L.faults link.old) (L.faults link.new)) }
    ensures later { L.faults link.old ≤ L.faults link.new }
{
    if last.len() > 0 {
        write_piece(link, last)?;
    }
    offer(link, &[0, 0, 0, 0])
}

/// Writes the answer of this stream. It fails where a call of the link does, or takes nothing; a part of the answer may then be written.
pub fn write_answer<L: Link>(link: &mut L, stream: &[u8]) -> Result<(), Failed>
    ensures written { OnOk result (Wrote (L.written link.old) (L.written link.new) (Pieces stream.now)) }
    ensures failed { OnErr result (Rose (L.faults link.old) (L.faults link.new)) }
    ensures later { L.faults link.old ≤ L.faults link.new }
{
    let mut at = 0;
    while stream.len() - at > PIECE {
        let (_, rest) = stream.split_at(at);
        let (piece, _) = rest.split_at(PIECE);
        write_piece(link, piece)?;
        at += PIECE;
    }
    write_end(link, stream.split_at(at).1)
}
