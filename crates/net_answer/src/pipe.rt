// The reader of an answer as a lane's pipe.

ghost use Rattle.std.specs.Prelude.{◌≡◌, ℕ, ◌<◌, ◌≤◌, ◌^◌, [], IfOk, IfSome, OnErr, length, option_map};
ghost use Rattle.sby_edge.specs.Cause.{HasPlainCause, Rose};
ghost use Rattle.sby_edge.specs.Child.{Reads};
ghost use Rattle.net_link.specs.Frame.{Sizing};
ghost use Rattle.net_answer.specs.Piped.{IsPlaced, piped};

use crate::reader::AnswerReader;
use net_link::Link;
use sby_edge::{Failed, Pipe};
use std::marker::Model;

/// Reads an answer: the bytes of its pieces, up to its mark, a length above 65,536 or the link's end, whichever is first. Contracts see
/// what a pipe tells, what was written to the link, how many reads failed, and the link's count of faults.
#[derive(Drop)]
pub struct NetPipe<L: Link + Drop> {
    reader: AnswerReader<L>,
    // The place of its start among those of its bay, where it tells.
    place: Option<usize>,
    // How many bytes it gave, where the link tells.
    given: usize,
    faults: u64,
}

impl<L: Link + Drop> Model for NetPipe<L> {
    ghost use Rattle.net_answer.specs.Piped.{IsCounted, IsPlaced, NetPipeOf, piped, stage_of};

    ghost Value = { NetPipeOf };

    ghost view = { λ p. record {
      told = piped (L.left p.reader.link) (stage_of p.reader.is_over p.reader.head p.reader.got p.reader.left) p.place p.given;
      written = L.written p.reader.link;
      faults = p.faults;
      link_faults = L.faults p.reader.link;
    } };

    ghost invariant = { λ p. IsCounted (L.left p.reader.link) (stage_of p.reader.is_over p.reader.head p.reader.got p.reader.left) p.given × IsPlaced p.place (L.left p.reader.link) };
}

impl<L: Link + Drop> NetPipe<L> {
    /// A pipe that has read nothing of the answer. Where the link tells, `place` may tell the place of its start among those of its bay;
    /// without one the pipe tells nothing.
    #[tactic(auto, using(crate::proofs::Pipes::counted_first))]
    pub fn new(link: L, place: Option<usize>) -> Self
        requires fits { IfSome (L.left link) (λ bytes. length bytes < 2 ^ 64) }
        requires placed { IsPlaced place (L.left link) }
        ensures { result ≡ record { told = piped (L.left link) (Sizing []) place 0; written = L.written link; faults = 0; link_faults = L.faults link } }
    {
        NetPipe {
            reader: AnswerReader::new(link),
            place,
            given: 0,
            faults: 0,
        }
    }

    /// The place of its start, where it tells.
    #[tactic(auto, using(crate::proofs::Pipes::place_told))]
    pub fn place(&self) -> Option<usize>
        ensures { result ≡ option_map (λ pipe. pipe.place) self.now.told }
    {
        self.place
    }

    /// How many bytes it gave, where the link tells.
    #[tactic(auto, using(crate::proofs::Pipes::given_told))]
    pub fn given(&self) -> usize
        ensures { IfSome self.now.told (λ pipe. result ≡ pipe.given) }
    {
        self.given
    }

    /// How many reads failed; it stays at the greatest u64.
    pub fn faults(&self) -> u64
        ensures { result ≡ self.now.faults }
    {
        self.faults
    }
}

impl<L: Link + Drop> Pipe for NetPipe<L> {
    ghost told = { λ p. p.told };

    ghost faults = { λ p. p.faults };

    #[tactic(auto, using(crate::proofs::Pipes::reads_so, crate::proofs::Pipes::told_still, crate::proofs::Pipes::counted_on, crate::proofs::Pipes::counted_still, crate::proofs::Pipes::placed_on))]
    fn read(&mut self, buf: &mut [u8]) -> Result<usize, Failed>
        requires { 0 < length buf.old }
        ensures bytes { Reads self.old.told self.new.told buf.new result }
        ensures fits { IfOk result (λ count. count ≤ length buf.old) }
        ensures cause { HasPlainCause self.old.faults self.new.faults result }
        ensures link { OnErr result (Rose self.old.link_faults self.new.link_faults) }
        ensures still { IfOk result (λ _. self.new.link_faults ≡ self.old.link_faults) }
        ensures written { self.new.written ≡ self.old.written }
    {
        match self.reader.read(buf) {
            Ok(count) => {
                self.given = self.given.saturating_add(count);
                Ok(count)
            }
            Err(Failed) => {
                self.faults = self.faults.saturating_add(1);
                Err(Failed)
            }
        }
    }
}
