// Connections in memory that are asked for, and cut.

ghost use Rattle.std.specs.Prelude.{◌≡◌, [], IfOk, Some};
ghost use Rattle.sby_edge.specs.Calls.{uncalled};

use crate::dial::{Cut, Dial};
use crate::mem_link::{LinkScript, MemLink};
use sby_edge::{Calls, Fail, Failed};
use std::alloc::{AllocError, Global};

/// What cuts a link in memory, of which it takes no notice. Contracts see its calls.
#[derive(Drop)]
pub struct MemCut {
    calls: Calls,
}

impl Cut for MemCut {
    ghost faults = { λ c. c.calls.faults };

    fn cut(&mut self) -> Result<(), Failed> {
        self.calls.call(true)
    }
}

/// Makes links in memory, each of one script, whatever the address. The calls that its maker lists fail.
#[derive(Drop)]
pub struct MemDial {
    script: LinkScript,
    calls: Calls,
}

impl MemDial {
    /// Makes links of this script. The listed calls of `dial` fail, counted from 1.
    pub fn new(script: LinkScript, failing: Vec<u64>) -> Self
        ensures script { result.script ≡ script }
        ensures faults { result.calls.faults ≡ 0 }
    {
        MemDial {
            script,
            calls: Calls::new(failing),
        }
    }

    // A link at its beginning, and its cut.
    fn connect(&self, alloc: Global) -> Result<(MemLink, MemCut), AllocError>
        ensures { IfOk result (λ pair. (pair.0 ≡ record { left = self.now.script.bytes.items; written = []; room = self.now.script.room; calls = uncalled self.now.script.failing.items }) × (pair.1.calls.faults ≡ 0)) }
    {
        let link = MemLink::new(alloc, &self.script)?;
        let failing = Vec::from_slice(alloc, &self.script.failing_cuts)?;
        Ok((
            link,
            MemCut {
                calls: Calls::new(failing),
            },
        ))
    }
}

impl Dial for MemDial {
    type Link = MemLink;

    type Cut = MemCut;

    ghost told = { λ d. Some d.script.bytes.items };

    ghost faults = { λ d. d.calls.faults };

    fn tells(&self) -> bool {
        true
    }

    fn dial(&mut self, alloc: Global, _address: &str) -> Result<(MemLink, MemCut), Fail> {
        let pair = self.connect(alloc)?;
        match self.calls.call(true) {
            Ok(()) => Ok(pair),
            Err(Failed) => Err(Fail::Failed),
        }
    }
}
