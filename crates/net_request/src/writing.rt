// Writing a request.

ghost use Rattle.std.specs.Prelude.{◌≡◌, ◌≤◌, OnErr, OnOk, length};
ghost use Rattle.sby_edge.specs.Cause.{Rose};
ghost use Rattle.net_link.specs.Frame.{request};
ghost use Rattle.net_link.specs.Link.{Grew};

use net_link::{Link, offer};
use sby_edge::{Failed, Source, fill};

// How many bytes of a job are written at once.
const PIECE: usize = 4096;

// Writes all that a source gives.
#[tactic(auto, using(crate::proofs::Sends::sent_none, crate::proofs::Sends::sent_more, crate::proofs::Sends::sent_all))]
fn write_all<L: Link, S: Source>(link: &mut L, source: &mut S) -> Result<(), Failed>
    ensures written { OnOk result (Grew (L.written link.old) (L.written link.new) (S.rest source.old)) }
    ensures left { L.left link.new ≡ L.left link.old }
    ensures still { OnOk result (L.faults link.new ≡ L.faults link.old) }
    ensures failed { OnErr result (Rose (L.faults link.old) (L.faults link.new)) }
{
    let mut buffer = [0u8; PIECE];
    loop {
        let count = fill(source, &mut buffer);
        offer(link, &buffer[..count])?;
        if count < buffer.len() {
            return Ok(());
        }
    }
}

/// Writes the request for a job of `count` bytes, which the source gives, within a budget of conflicts. It fails where a call of the
/// link does, or takes nothing; a part of the request may then be written.
pub fn write_request<L: Link, S: Source>(
    link: &mut L,
    budget: u64,
    count: u64,
    job: &mut S,
) -> Result<(), Failed>
    ensures written { count ≡ length (S.rest job.old) → OnOk result (Grew (L.written link.old) (L.written link.new) (request budget (S.rest job.old))) }
    ensures left { L.left link.new ≡ L.left link.old }
    ensures still { OnOk result (L.faults link.new ≡ L.faults link.old) }
    ensures failed { OnErr result (Rose (L.faults link.old) (L.faults link.new)) }
{
    offer(link, b"SBYJOB1\n")?;
    offer(link, &budget.to_be_bytes())?;
    offer(link, &count.to_be_bytes())?;
    write_all(link, job)
}
