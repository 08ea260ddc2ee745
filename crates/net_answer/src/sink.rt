// The writer of an answer as the engine's output.

ghost use Rattle.std.specs.Prelude.{◌≡◌, ℕ, ◌+◌, ◌<◌, ◌≤◌, [], ◌++◌, List, None, Some, IfErr, IfOk, IfSome, OnErr, OnOk, length, option_map, take};
ghost use Rattle.sby_edge.specs.Cause.{Rose, greatest};
ghost use Rattle.net_link.specs.Frame.{Pieces, framed};
ghost use Rattle.net_answer.specs.Sent.{Ends, IsAnswered, Sends};

use crate::writer::PIECE;
use net_link::{Link, offer};
use sby_edge::{Failed, Sink};
use std::alloc::Global;
use std::marker::Model;

// The next bytes to send of a piece with its length before it.
#[tactic(auto, using(crate::proofs::Answers::head_left, crate::proofs::Answers::body_left))]
fn left_of<'a>(head: &'a [u8; 4], body: &'a [u8], sent: usize) -> &'a [u8]
    requires { sent < 4 + length body.now }
    ensures some { 0 < length result.now }
    ensures front { (count : ℕ) → count ≤ length result.now → take (sent + count) (head.now ++ body.now) ≡ take sent (head.now ++ body.now) ++ take count result.now }
    ensures within { sent + length result.now ≤ 4 + length body.now }
{
    if sent < 4 {
        head.split_at(sent).1
    } else {
        body.split_at(sent - 4).1
    }
}

// Sends the rest of a piece with its length before it, of which this many bytes were sent.
#[tactic(auto, using(crate::proofs::Answers::sends_none, crate::proofs::Answers::sends_more))]
fn send<L: Link>(link: &mut L, body: &[u8], sent: &mut usize) -> Result<(), Failed>
    requires fits { length body.now ≤ 65536 }
    requires sent { sent.old ≤ 4 + length body.now }
    ensures sends { Sends (L.written link.old) (L.written link.new) (framed body.now) sent.old sent.new }
    ensures all { OnOk result (sent.new ≡ 4 + length body.now) }
    ensures within { sent.new ≤ 4 + length body.now }
    ensures still { OnOk result (L.faults link.new ≡ L.faults link.old) }
    ensures failed { OnErr result (Rose (L.faults link.old) (L.faults link.new)) }
    ensures later { L.faults link.old ≤ L.faults link.new }
    ensures stays { L.faults link.old ≡ greatest → L.faults link.new ≡ L.faults link.old }
{
    let head = (body.len() as u32).to_be_bytes();
    while *sent < 4 + body.len() {
        let count = link.write(left_of(&head, body, *sent))?;
        if count == 0 {
            return Err(Failed);
        }
        *sent += count;
    }
    Ok(())
}

// Sends what is left of the last piece, where it isn't empty, and the mark.
#[tactic(auto, using(crate::proofs::Sinks::ends_empty, crate::proofs::Sinks::ends_full))]
fn send_end<L: Link>(link: &mut L, body: &[u8], sent: &mut usize) -> Result<(), Failed>
    requires fits { length body.now ≤ 65536 }
    requires sent { sent.old ≤ 4 + length body.now }
    ensures ends { OnOk result (Ends (L.written link.old) (L.written link.new) body.now sent.old) }
    ensures failed { OnErr result (Rose (L.faults link.old) (L.faults link.new)) }
    ensures later { L.faults link.old ≤ L.faults link.new }
{
    if body.len() > 0 {
        send(link, body, sent)?;
    }
    offer(link, &[0, 0, 0, 0])
}

/// Takes a stream, and writes it to a link as an answer. A whole piece is sent when more comes; where that fails, the next call goes on
/// where it failed, so that nothing is sent twice. Contracts see the stream so far, where the link tells, how many bytes of it the next
/// piece has, and the link's count of faults.
#[derive(Drop)]
pub struct FramedSink<L: Link + Drop> {
    link: L,
    body: Vec<u8>,
    sent: usize,
}

impl<L: Link + Drop> Model for FramedSink<L> {
    ghost use Rattle.std.specs.Prelude.{◌≡◌, ℕ, ◌+◌, ◌<◌, ◌≤◌, length, vec_capacity};
    ghost use Rattle.net_answer.specs.Sent.{AnswerOf, HoldsSo, answered};

    ghost Value = { AnswerOf };

    ghost view = { λ s. record { told = answered (L.written s.link) s.body.items s.sent; waits = length s.body.items; faults = L.faults s.link } };

    ghost invariant = { λ s. HoldsSo (L.written s.link) s.body.items s.sent × (0 < s.sent → length s.body.items ≡ 65536) × (length s.body.items ≤ 65536) × (s.sent ≤ 4 + length s.body.items) × (65536 ≤ vec_capacity s.body) };
}

impl<L: Link + Drop> FramedSink<L> {
    #[tactic(auto, using(crate::proofs::Sinks::holds_none, crate::proofs::Sinks::told_none))]
    /// A sink that has taken nothing, on a link to which nothing was written. Out of memory the link comes back.
    pub fn new(alloc: Global, link: L) -> Result<Self, L>
        requires { IfSome (L.written link) (λ w. w ≡ []) }
        ensures fresh { IfOk result (λ s. s ≡ record { told = option_map (λ _. []) (L.written link); waits = 0; faults = L.faults link }) }
        ensures given_back { IfErr result (λ back. back ≡ link) }
    {
        match Vec::with_capacity(alloc, PIECE) {
            Ok(body) => Ok(FramedSink {
                link,
                body,
                sent: 0,
            }),
            Err(_) => Err(link),
        }
    }

    // Sends the whole piece.
    #[tactic(auto, using(crate::proofs::Sinks::sent_some, crate::proofs::Sinks::sent_all, crate::proofs::Sinks::told_some, crate::proofs::Sinks::told_all))]
    fn send_piece(&mut self) -> Result<(), Failed>
        ensures told { self.new.told ≡ self.old.told }
        ensures room { OnOk result (self.new.waits < 65536) }
        ensures still { OnOk result (self.new.faults ≡ self.old.faults) }
        ensures failed { OnErr result (Rose self.old.faults self.new.faults) }
        ensures later { self.old.faults ≤ self.new.faults }
        ensures stays { self.old.faults ≡ greatest → self.new.faults ≡ self.old.faults }
    {
        if self.body.len() < PIECE {
            return Ok(());
        }
        send(&mut self.link, &self.body, &mut self.sent)?;
        self.body.clear();
        self.sent = 0;
        Ok(())
    }

    #[tactic(auto, using(crate::proofs::Sinks::ends_whole))]
    /// Sends the rest and the mark, and gives the link back.
    pub fn finish(self) -> (L, Result<(), Failed>)
        ensures whole { OnOk result.1 (IsAnswered self.told (L.written result.0)) }
        ensures failed { OnErr result.1 (Rose self.faults (L.faults result.0)) }
        ensures later { self.faults ≤ L.faults result.0 }
    {
        let FramedSink {
            mut link,
            body,
            mut sent,
        } = self;
        let answer = send_end(&mut link, &body, &mut sent);
        (link, answer)
    }

    /// Gives the link back, with what was sent so far.
    pub fn into_link(self) -> L
        ensures { L.faults result ≡ self.faults }
    {
        let FramedSink {
            link,
            body: _,
            sent: _,
        } = self;
        link
    }

    // Takes as much as there is room for in the next piece.
    #[tactic(auto, using(crate::proofs::Sinks::gathered_holds, crate::proofs::Sinks::gathered_told))]
    fn gather(&mut self, piece: &[u8]) -> usize
        requires { self.old.waits < 65536 }
        ensures some { 0 < length piece.now → 0 < result }
        ensures told { self.new.told ≡ option_map (λ told. told ++ take result piece.now) self.old.told }
        ensures faults { self.new.faults ≡ self.old.faults }
        ensures fits { result ≤ length piece.now }
    {
        let count = piece.len().min(PIECE - self.body.len());
        self.body.extend_from_slice(&piece[..count]).unwrap();
        count
    }
}

impl<L: Link + Drop> Sink for FramedSink<L> {
    ghost taken = { λ s. s.told };

    ghost faults = { λ s. s.faults };

    ghost ended = { λ _. None };

    fn write(&mut self, piece: &[u8]) -> Result<usize, Failed> {
        if piece.is_empty() {
            return Ok(0);
        }
        self.send_piece()?;
        Ok(self.gather(piece))
    }
}
