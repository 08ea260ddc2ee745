// Connections in memory that are taken in.

ghost use Rattle.std.specs.Prelude.{◌≡◌, ◌≤◌, [], None, Some, IfOk, IfSome, OnErr, OnOk, drop, length, map, option_map, string_bytes};
ghost use Rattle.net_link.specs.Doors.{returned};

use crate::dial::Door;
use crate::mem_link::{LinkScript, MemLink};
use sby_edge::{Calls, Fail, Failed, Memory};
use std::alloc::Global;

/// Takes in links in memory, one for each script, in their order, and keeps those that come back. The calls that its maker lists fail,
/// and so does `next` where no more are to come.
#[derive(Drop)]
pub struct MemDoor {
    // Where it listens.
    address: Option<String>,
    scripts: Vec<LinkScript>,
    // How many links came.
    at: usize,
    back: Vec<MemLink>,
    backs: u64,
    calls: Calls,
    ghost within: { at ≤ length scripts.items },
}

impl MemDoor {
    /// A door to which links of these scripts come. The listed calls of `listen` and `next` fail, counted together from 1.
    pub fn new(alloc: Global, scripts: Vec<LinkScript>, failing: Vec<u64>) -> Self
        ensures listens { result.address ≡ None }
        ensures scripts { (result.scripts ≡ scripts) × (result.at ≡ 0) }
        ensures back { (result.back.items ≡ []) × (result.backs ≡ 0) }
        ensures faults { result.calls.faults ≡ 0 }
    {
        MemDoor {
            address: None,
            scripts,
            at: 0,
            back: Vec::new(alloc),
            backs: 0,
            calls: Calls::new(failing),
        }
    }

    /// The address at which it listens, if it does.
    pub fn listens_at(&self) -> Option<&str>
        ensures { option_map (λ a. a.now) result ≡ option_map string_bytes self.now.address }
    {
        self.address.as_deref()
    }

    /// The links that came back, the first one first.
    pub fn came_back(&self) -> &[MemLink]
        ensures { result.now ≡ self.now.back.items }
    {
        &self.back
    }
}

impl Door for MemDoor {
    type Link = MemLink;

    ghost listens_at = { λ d. Some (option_map string_bytes d.address) };

    ghost coming = { λ d. Some (map (λ s. s.bytes.items) (drop d.at d.scripts.items)) };

    ghost came_back = { λ d. Some (map (λ l. returned (Some l.written) l.calls.faults) d.back.items) };

    ghost backs = { λ d. d.backs };

    ghost faults = { λ d. d.calls.faults };

    fn listen(&mut self, alloc: Global, address: &str) -> Result<(), Fail> {
        let address = String::from_str(alloc, address)?;
        match self.calls.call(true) {
            Ok(()) => {
                self.address = Some(address);
                Ok(())
            }
            Err(Failed) => Err(Fail::Failed),
        }
    }

    fn next(&mut self, alloc: Global) -> Result<MemLink, Fail> {
        if self.at == self.scripts.len() {
            let _ = self.calls.call(false);
            return Err(Fail::Failed);
        }
        let link = MemLink::new(alloc, &self.scripts[self.at])?;
        match self.calls.call(true) {
            Ok(()) => {
                self.at += 1;
                Ok(link)
            }
            Err(Failed) => Err(Fail::Failed),
        }
    }

    fn back(&mut self, link: MemLink) -> Result<(), Memory> {
        self.back.push(link)?;
        self.backs = self.backs.saturating_add(1);
        Ok(())
    }
}
