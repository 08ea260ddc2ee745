// A connection to an engine that is asked for a job's answer.

ghost use Rattle.std.specs.Prelude.{◌≡◌, ◌⊎◌, ◌<◌, ◌≤◌, ◌^◌, [], None, false, Err, IfOk, IfSome, length, map, option_map, string_bytes};
ghost use Rattle.sby_edge.specs.Cause.{Rose};
ghost use Rattle.sby_edge.specs.declared.outside.Fail.TheVariants as fail;
ghost use Rattle.sby_edge.specs.declared.script.Exit.TheVariants.{Code};
ghost use Rattle.net_link.specs.Frame.{Sizing, request};
ghost use Rattle.net_link.specs.Link.{Grew};
ghost use Rattle.net_answer.specs.Piped.{IsPlaced, piped};
ghost use Rattle.net_lane.specs.Asked.{AsksFor, IsAsked, Unasked};

use crate::hold::NetHold;
use crate::sending::{count_file, send_file};
use crate::words::read_words;
use net_answer::NetPipe;
use net_link::{Cut, Dial, Link};
use sby_edge::{Fail, JobFile};
use std::alloc::Global;

// What a start asks for: an engine at an address, a budget of conflicts, and an answer to a job of `count` bytes.
#[derive(Clone, Copy)]
pub(crate) struct JobRequest<'a> {
    pub address: &'a str,
    budget: u64,
    count: u64,
}

impl<'a> JobRequest<'a> {
    // Reads the words, and counts the bytes of the job's file. It fails where no request asks so.
    #[tactic(auto, using(crate::proofs::Asking::asks_for, crate::proofs::Asking::too_long))]
    pub(crate) fn new<F: JobFile>(
        alloc: Global,
        words: &'a [String],
        file: &F,
    ) -> Result<Self, Fail>
        ensures asks { IfOk result (λ asked. AsksFor (map string_bytes words.now) (F.bytes file.now) asked.address.now asked.budget asked.count) }
        ensures failed { result ≡ Err fail.Failed → Unasked (map string_bytes words.now) (F.bytes file.now) }
    {
        let Some(asked) = read_words(words) else {
            return Err(Fail::Failed);
        };
        let Some(count) = count_file(alloc, file)? else {
            return Err(Fail::Failed);
        };
        Ok(JobRequest {
            address: asked.address,
            budget: asked.budget(),
            count,
        })
    }

    // Writes the request to a connection, with the job's bytes from its file. Where that fails, a call of the link did.
    pub(crate) fn send<L: Link + Drop, C: Cut + Drop, F: JobFile>(
        &self,
        alloc: Global,
        link: L,
        cut: C,
        file: &F,
        place: Option<usize>,
    ) -> Result<(NetPipe<L>, NetHold<C>), Fail>
        requires counted { self.now.count ≡ length (F.bytes file.now) }
        requires fits { IfSome (L.left link) (λ bytes. length bytes < 2 ^ 64) }
        requires placed { IsPlaced place (L.left link) }
        ensures written { IfOk result (λ child. Grew (L.written link) child.0.written (request self.now.budget (F.bytes file.now))) }
        ensures pipe { IfOk result (λ child. child.0.told ≡ piped (L.left link) (Sizing []) place 0) }
        ensures exit { IfOk result (λ child. child.1.exit ≡ option_map (λ _. Code 0) place) }
        ensures fresh { IfOk result (λ child. (child.1.killed ≡ None) × (child.1.is_reaped ≡ false) × (child.0.faults ≡ 0) × (child.1.faults ≡ 0)) }
        ensures counts { IfOk result (λ child. (child.0.link_faults ≡ L.faults link) × (child.1.cut_faults ≡ C.faults cut)) }
        ensures failed { result ≡ Err fail.Failed → (now : L) × (L.left now ≡ L.left link) × Rose (L.faults link) (L.faults now) }
    {
        let link = send_file(alloc, link, self.budget, self.count, file)?;
        Ok((
            NetPipe::new(link, place),
            NetHold::new(cut, place.is_some()),
        ))
    }
}

/// Opens a connection to an engine, as the words ask: `net`, a host and a port with a colon between them, and after it maybe
/// `--conflicts` and a number from 1 to 1,000,000,000. Writes the request of the job's file, which is read twice, to count its bytes and
/// to send them, so that it never stands in memory as a whole. It fails where the words are others, where the file has more than 2^32
/// bytes, and where the dial or the connection does. `place` is the place of the start among those of a bay that tells; without one the
/// pipe and the hold tell nothing.
#[tactic(auto, using(crate::proofs::Asking::asked_so))]
pub fn open<D: Dial, F: JobFile>(
    dial: &mut D,
    alloc: Global,
    words: &[String],
    file: &F,
    place: Option<usize>,
) -> Result<(NetPipe<D::Link>, NetHold<D::Cut>), Fail>
    requires { IsPlaced place (D.told dial.old) }
    ensures told { D.told dial.new ≡ D.told dial.old }
    ensures asked { IfOk result (λ child. IsAsked (map string_bytes words.now) (F.bytes file.now) child.0.written) }
    ensures pipe { IfOk result (λ child. child.0.told ≡ piped (D.told dial.old) (Sizing []) place 0) }
    ensures exit { IfOk result (λ child. child.1.exit ≡ option_map (λ _. Code 0) place) }
    ensures fresh { IfOk result (λ child. (child.1.killed ≡ None) × (child.1.is_reaped ≡ false) × (child.0.faults ≡ 0) × (child.1.faults ≡ 0)) }
    ensures counts { IfOk result (λ child. (child.0.link_faults ≡ 0) × (child.1.cut_faults ≡ 0)) }
    ensures failed { result ≡ Err fail.Failed → Unasked (map string_bytes words.now) (F.bytes file.now)
        ⊎ Rose (D.faults dial.old) (D.faults dial.new)
        ⊎ ((link : D.Link) × (D.Link.left link ≡ D.told dial.old) × Rose 0 (D.Link.faults link)) }
    ensures dialed { IfOk result (λ _. D.faults dial.new ≡ D.faults dial.old) }
    ensures later { D.faults dial.old ≤ D.faults dial.new }
{
    let asked = JobRequest::new(alloc, words, file)?;
    let (link, cut) = dial.dial(alloc, asked.address)?;
    asked.send(alloc, link, cut, file, place)
}
