// Writing all of some bytes.

ghost use Rattle.std.specs.Prelude.{◌≡◌, ◌≤◌, OnErr, OnOk};
ghost use Rattle.sby_edge.specs.Cause.{Rose};
ghost use Rattle.net_link.specs.Link.{Grew};

use crate::link::Link;
use sby_edge::Failed;

/// Writes all of these bytes to the link. It fails where a call does, or takes none of them; some of them may then be written.
pub fn offer<L: Link>(link: &mut L, bytes: &[u8]) -> Result<(), Failed>
    ensures written { OnOk result (Grew (L.written link.old) (L.written link.new) bytes.now) }
    ensures left { L.left link.new ≡ L.left link.old }
    ensures failed { OnErr result (Rose (L.faults link.old) (L.faults link.new)) }
    ensures still { OnOk result (L.faults link.new ≡ L.faults link.old) }
    ensures later { L.faults link.old ≤ L.faults link.new }
{
    let mut at = 0;
    while at < bytes.len() {
        let count = link.write(bytes.split_at(at).1)?;
        if count == 0 {
            return Err(Failed);
        }
        at += count;
    }
    Ok(())
}
