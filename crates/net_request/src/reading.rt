// Reading a request.

ghost use Rattle.std.specs.Prelude.{◌≡◌, ℕ, ◌<◌, ◌≤◌, IfOk, IfSome, OnErr, Err, length, option_map, take};
ghost use lib.ListN.{get_or};
ghost use Rattle.sby_edge.specs.Cause.{Rose};
ghost use Rattle.sby_edge.specs.declared.outside.Fail.TheVariants as fail;
ghost use Rattle.net_link.specs.Frame.{CanAsk, Framed, Unframed, request};
ghost use Rattle.net_link.specs.Link.{IsOut, Took};
ghost use Rattle.net_request.specs.Reading.{AreBytes, IsNumber, IsWord};
ghost use Rattle.net_request.specs.declared.reading.RequestFault.TheVariants as fault;

use net_link::Link;
use sby_edge::{Fail, Failed};
use std::alloc::Global;

// The first bytes of a request, SBYJOB1 and a line feed, as a number.
const FIRST: u64 = 0x5342_594a_4f42_310a;

// The most conflicts that may be asked for.
const MOST_BUDGET: u64 = 1_000_000_000;

// The most bytes of a job.
const MOST_JOB: u64 = 1 << 32;

// How many bytes of a job are read at once.
const PIECE: usize = 4096;

/// What a request asks: an answer for a job's bytes, at most 2^32, within a budget of 1 to 1,000,000,000 conflicts.
#[derive(Drop)]
pub struct Request {
    pub budget: u64,
    pub job: Vec<u8>,
}

/// Why there is no request.
#[derive(Clone, Copy, Debug, PartialEq, Eq)]
pub enum RequestFault {
    /// The bytes are no request: other first bytes, a budget or a length out of range, or too few bytes.
    BadFrame,
    /// A call of the link failed; its count of faults rose.
    Failed,
    /// Out of memory.
    Memory,
}

// Reads until the buffer is full or no byte is left. Answers how many bytes.
#[tactic(auto, using(crate::proofs::Fronts::took_none, crate::proofs::Fronts::took_next, crate::proofs::Fronts::receives_out))]
fn read_whole<L: Link>(link: &mut L, buf: &mut [u8]) -> Result<usize, Failed>
    ensures took { IfOk result (λ n. Took (L.left link.old) (L.left link.new) (take n buf.new)) }
    ensures out { IfOk result (λ n. n < length buf.old → IsOut (L.left link.new)) }
    ensures fits { IfOk result (λ n. n ≤ length buf.old) }
    ensures are_bytes { (i : ℕ) → get_or buf.new i 0 < 256 }
    ensures written { L.written link.new ≡ L.written link.old }
    ensures still { IfOk result (λ _. L.faults link.new ≡ L.faults link.old) }
    ensures failed { OnErr result (Rose (L.faults link.old) (L.faults link.new)) }
    ensures later { L.faults link.old ≤ L.faults link.new }
{
    let mut at = 0;
    while at < buf.len() {
        let (_, rest) = buf.split_at_mut(at);
        let count = link.read(rest)?;
        if count == 0 {
            break;
        }
        at += count;
    }
    Ok(at)
}

// Eight bytes, if there are that many.
#[tactic(auto, using(crate::proofs::Fronts::took_fewer))]
fn read_word<L: Link>(link: &mut L) -> Result<Option<[u8; 8]>, Failed>
    ensures word { IfOk result (IsWord (L.left link.old) (L.left link.new)) }
    ensures written { L.written link.new ≡ L.written link.old }
    ensures still { IfOk result (λ _. L.faults link.new ≡ L.faults link.old) }
    ensures failed { OnErr result (Rose (L.faults link.old) (L.faults link.new)) }
    ensures later { L.faults link.old ≤ L.faults link.new }
{
    let mut word = [0u8; 8];
    let count = read_whole(link, &mut word)?;
    if count < 8 {
        return Ok(None);
    }
    Ok(Some(word))
}

// A number of eight bytes between these bounds, if there is one.
#[tactic(auto, using(crate::proofs::Fronts::number_short, crate::proofs::Fronts::number_off))]
fn read_number<L: Link>(link: &mut L, least: u64, most: u64) -> Result<Option<u64>, Failed>
    ensures number { IfOk result (IsNumber (L.left link.old) (L.left link.new) least most) }
    ensures written { L.written link.new ≡ L.written link.old }
    ensures still { IfOk result (λ _. L.faults link.new ≡ L.faults link.old) }
    ensures failed { OnErr result (Rose (L.faults link.old) (L.faults link.new)) }
    ensures later { L.faults link.old ≤ L.faults link.new }
{
    let Some(word) = read_word(link)? else {
        return Ok(None);
    };
    let number = u64::from_be_bytes(word);
    if number < least || most < number {
        return Ok(None);
    }
    Ok(Some(number))
}

// Reads this many bytes, if there are that many. Memory is taken as they come, so that it costs nothing to announce many.
#[tactic(auto, using(crate::proofs::Fronts::took_none, crate::proofs::Fronts::took_more, crate::proofs::Fronts::receives_out, crate::proofs::Fronts::took_fewer))]
fn read_bytes<L: Link>(alloc: Global, link: &mut L, count: u64) -> Result<Option<Vec<u8>>, Fail>
    ensures bytes { IfOk result (λ bytes. AreBytes (L.left link.old) (L.left link.new) count (option_map (λ v. v.items) bytes)) }
    ensures written { L.written link.new ≡ L.written link.old }
    ensures still { IfOk result (λ _. L.faults link.new ≡ L.faults link.old) }
    ensures failed { result ≡ Err fail.Failed → Rose (L.faults link.old) (L.faults link.new) }
    ensures later { L.faults link.old ≤ L.faults link.new }
{
    let mut bytes = Vec::new(alloc);
    let mut buffer = [0u8; PIECE];
    while (bytes.len() as u64) < count {
        let want = (count - bytes.len() as u64).min(PIECE as u64) as usize;
        let (front, _) = buffer.split_at_mut(want);
        let given = match link.read(front) {
            Ok(given) => given,
            Err(Failed) => return Err(Fail::Failed),
        };
        if given == 0 {
            return Ok(None);
        }
        bytes.extend_from_slice(&buffer[..given])?;
    }
    Ok(Some(bytes))
}

/// Reads a request. No byte after it is read, and where a number of it is refused, no byte after that number.
#[tactic(auto, using(crate::proofs::Fronts::first_took, crate::proofs::Fronts::unframed_first, crate::proofs::Fronts::unframed_budget, crate::proofs::Fronts::unframed_count, crate::proofs::Fronts::unframed_job, crate::proofs::Fronts::took_request, crate::proofs::Fronts::framed_so))]
pub fn read_request<L: Link>(alloc: Global, link: &mut L) -> Result<Request, RequestFault>
    ensures framed { IfOk result (λ r. IfSome (L.left link.old) (λ bytes. Framed bytes r.budget r.job.items)) }
    ensures took { IfOk result (λ r. Took (L.left link.old) (L.left link.new) (request r.budget r.job.items)) }
    ensures can_ask { IfOk result (λ r. CanAsk r.budget r.job.items) }
    ensures bad_frame { result ≡ Err fault.BadFrame → IfSome (L.left link.old) Unframed }
    ensures failed { result ≡ Err fault.Failed → Rose (L.faults link.old) (L.faults link.new) }
    ensures still { IfOk result (λ _. L.faults link.new ≡ L.faults link.old) }
    ensures written { L.written link.new ≡ L.written link.old }
    ensures later { L.faults link.old ≤ L.faults link.new }
{
    match read_number(link, FIRST, FIRST) {
        Ok(Some(_)) => {}
        Ok(None) => return Err(RequestFault::BadFrame),
        Err(Failed) => return Err(RequestFault::Failed),
    }
    let budget = match read_number(link, 1, MOST_BUDGET) {
        Ok(Some(budget)) => budget,
        Ok(None) => return Err(RequestFault::BadFrame),
        Err(Failed) => return Err(RequestFault::Failed),
    };
    let count = match read_number(link, 0, MOST_JOB) {
        Ok(Some(count)) => count,
        Ok(None) => return Err(RequestFault::BadFrame),
        Err(Failed) => return Err(RequestFault::Failed),
    };
    match read_bytes(alloc, link, count) {
        Ok(Some(job)) => Ok(Request { budget, job }),
        Ok(None) => Err(RequestFault::BadFrame),
        Err(Fail::Failed) => Err(RequestFault::Failed),
        Err(Fail::Memory) => Err(RequestFault::Memory),
    }
}
