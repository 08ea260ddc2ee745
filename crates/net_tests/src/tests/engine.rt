// An engine in memory, and connections to it.

ghost use Rattle.std.specs.Prelude.{◌≡◌, ◌<◌, ◌≤◌, None, IfOk, length};

use super::tools::link;
use net_link::{Cut, Dial, Link, MemLink};
use net_serve::{Answers, serve_conn};
use sby_edge::{Fail, Failed, Sink};
use std::alloc::{AllocError, Global};

// Answers with the job's bytes.
pub(crate) struct Echo;

impl Answers for Echo {
    ghost may_answer = { λ _ _ _ _. Unit {0} };

    fn answer<S: Sink>(
        &self,
        _alloc: Global,
        job: Vec<u8>,
        _budget: u64,
        sink: &mut S,
    ) -> Result<(), Fail> {
        match sink.write(&job) {
            Ok(_) => Ok(()),
            Err(Failed) => Err(Fail::Failed),
        }
    }
}

// A connection to an engine, which answers when it is first read.
#[derive(Drop)]
pub(crate) struct EngineLink {
    alloc: Global,
    request: Vec<u8>,
    answer: Option<MemLink>,
    faults: u64,
}

impl EngineLink {
    // What the engine writes to a connection on which the request came.
    fn serve(&self) -> Result<MemLink, AllocError> {
        let asked = link(self.alloc, &self.request, 4096, None)?;
        let (answered, _) = serve_conn(self.alloc, asked, &Echo);
        link(self.alloc, answered.written(), 7, None)
    }

    // Reads what it wrote, and has it write that first.
    fn read_answer(&mut self, buf: &mut [u8]) -> Result<usize, Failed>
        requires { 0 < length buf.old }
        ensures fits { IfOk result (λ count. count ≤ length buf.old) }
        ensures faults { self.new.faults ≡ self.old.faults }
    {
        if self.answer.is_none() {
            self.answer = self.serve().ok();
        }
        match &mut self.answer {
            Some(answer) => answer.read(buf),
            None => Err(Failed),
        }
    }
}

impl Link for EngineLink {
    ghost left = { λ _. None };

    ghost written = { λ _. None };

    ghost faults = { λ l. l.faults };

    fn read(&mut self, buf: &mut [u8]) -> Result<usize, Failed> {
        match self.read_answer(buf) {
            Ok(count) => Ok(count),
            Err(Failed) => {
                self.faults = self.faults.saturating_add(1);
                Err(Failed)
            }
        }
    }

    fn write(&mut self, piece: &[u8]) -> Result<usize, Failed> {
        match self.request.extend_from_slice(piece) {
            Ok(()) => Ok(piece.len()),
            Err(_) => {
                self.faults = self.faults.saturating_add(1);
                Err(Failed)
            }
        }
    }
}

// Cuts nothing.
#[derive(Drop)]
pub(crate) struct NoCut;

impl Cut for NoCut {
    ghost faults = { λ _. 0 };

    fn cut(&mut self) -> Result<(), Failed> {
        Ok(())
    }
}

// Connects to the engine, whatever the address.
#[derive(Drop)]
pub(crate) struct EngineDial;

impl Dial for EngineDial {
    type Link = EngineLink;

    type Cut = NoCut;

    ghost told = { λ _. None };

    ghost faults = { λ _. 0 };

    fn tells(&self) -> bool {
        false
    }

    fn dial(&mut self, alloc: Global, _address: &str) -> Result<(EngineLink, NoCut), Fail> {
        Ok((
            EngineLink {
                alloc,
                request: Vec::new(alloc),
                answer: None,
                faults: 0,
            },
            NoCut,
        ))
    }
}
