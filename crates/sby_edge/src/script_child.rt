// The children of a yard of scripts.

ghost use Rattle.std.specs.Prelude.{◌≡◌, ◌<◌, ◌≤◌, ◌+◌, ◌⊎◌, true, None, Some, IsSomeAnd, length, option_copied, drop, take, unwrap_or};
ghost use Rattle.std.specs.Option.{ForSome};
ghost use Rattle.sby_edge.specs.Cause.{HasPlainCause, greatest};
ghost use Rattle.sby_edge.specs.Child.{Learns, PipeOf, Reads};

use crate::script::{Call, Exit, Script};
use crate::stage::{Stage, Turn};
use crate::{Failed, Hold, Pipe};
use std::sync::Wait;
use std::thread;
use std::time::{Clock as SystemClock, Duration};

// A turn gives the processor away for a millisecond.
fn turn<R: SystemClock>(rt: &R) {
    thread::sleep(rt, Duration::from_millis(1));
}

/// The output of a child of a script. It tells the bytes that are left.
pub struct ScriptPipe<'a, R: Wait + SystemClock> {
    pub(crate) rt: &'a R,
    pub(crate) stage: &'a Stage,
    pub(crate) script: &'a Script,
    pub(crate) actor: usize,
    // The place of its start among those of its bay.
    pub(crate) place: usize,
    pub(crate) stream: &'a [u8],
    // The other stream, while the gate isn't decided.
    pub(crate) instead: Option<&'a [u8]>,
    pub(crate) given: usize,
    pub(crate) reads: u32,
    pub(crate) faults: u64,
    pub(crate) ghost within: { given ≤ length stream.now },
    pub(crate) ghost undecided: { ForSome instead (λ _. given ≡ 0) },
}

impl<'a, R: Wait + SystemClock> ScriptPipe<'a, R> {
    // Waits for the child that the gate names, and then takes the one stream or the other.
    fn decide(&mut self)
        ensures given { self.new.given ≡ self.old.given }
        ensures place { self.new.place ≡ self.old.place }
        ensures faults { self.new.faults ≡ self.old.faults }
        ensures decided { self.new.instead ≡ None }
        ensures stream { (self.new.stream.now ≡ self.old.stream.now)
            ⊎ IsSomeAnd self.old.instead (λ other. other.now ≡ self.new.stream.now) }
    {
        let Some(instead) = self.instead else {
            return;
        };
        if !self.meets() {
            self.stream = instead;
        }
        self.instead = None;
    }

    fn meets(&self) -> bool {
        let script = self.script;
        let turns = match &script.gate {
            Some(gate) => gate.turns,
            None => 0,
        };
        for _ in 0..turns {
            if self.has_met() {
                return true;
            }
            turn(self.rt);
        }
        self.has_met()
    }

    fn has_met(&self) -> bool {
        match self.stage.standing(self.rt, self.actor) {
            Some(standing) => standing.has_met,
            None => false,
        }
    }

    // How many of the bytes that are left a read gives that has room for this many.
    fn portion(&self, room: usize) -> usize
        ensures left { self.now.given + result ≤ length self.now.stream.now }
        ensures room { result ≤ room }
        ensures some { 0 < room → result ≡ 0 → self.now.given ≡ length self.now.stream.now }
    {
        let script = self.script;
        let left = self.stream.len() - self.given;
        let count = left.min(room);
        match script.cut {
            Some(cut) if (self.given as u64) < cut => (cut - self.given as u64).min(
                count as u64,
            ) as usize,
            _ => count,
        }
    }

    // At the stream's end: a child that stalls there waits until it is killed.
    fn close(&self) {
        let script = self.script;
        if script.stalls == Some(self.given as u64) {
            for _ in self.rt.forever() {
                match self.stage.standing(self.rt, self.actor) {
                    Some(standing) if !standing.is_killed => turn(self.rt),
                    _ => break,
                }
            }
        }
        self.stage.take(self.rt, self.actor, Turn::Ended);
    }
}

// Copies the bytes of a stream from a place on.
fn copy_from(stream: &[u8], given: usize, count: usize, buf: &mut [u8])
    requires left { given + count ≤ length stream.now }
    requires room { count ≤ length buf.old }
    ensures { take count buf.new ≡ take count (drop given stream.now) }
{
    buf[..count].copy_from_slice(&stream[given..given + count]);
}

impl<'a, R: Wait + SystemClock> Pipe for ScriptPipe<'a, R> {
    ghost told = { λ p. Some (record { place = p.place; given = p.given; bytes = drop p.given p.stream.now; instead = option_copied p.instead }) };

    ghost faults = { λ p. p.faults };

    fn read(&mut self, buf: &mut [u8]) -> Result<usize, Failed> {
        self.reads = self.reads.saturating_add(1);
        if self.script.fails(Call::Read, self.reads) {
            self.faults = self.faults.saturating_add(1);
            return Err(Failed);
        }
        self.decide();
        let count = self.portion(buf.len());
        if count == 0 {
            self.close();
        }
        copy_from(self.stream, self.given, count, buf);
        self.given += count;
        self.stage.take(self.rt, self.actor, Turn::Gave(self.given));
        Ok(count)
    }
}

/// A child of a script. It tells its exit.
pub struct ScriptHold<'a, R: Wait> {
    pub(crate) rt: &'a R,
    pub(crate) stage: &'a Stage,
    pub(crate) script: &'a Script,
    pub(crate) actor: usize,
    // How many bytes its pipe had given when it was first killed, if it was.
    pub(crate) killed: Option<usize>,
    pub(crate) is_reaped: bool,
    pub(crate) polls: u32,
    pub(crate) kills: u32,
    pub(crate) reaps: u32,
    pub(crate) faults: u64,
}

impl<'a, R: Wait> ScriptHold<'a, R> {
    // How many bytes its pipe has given by now.
    fn given(&self) -> usize {
        match self.stage.standing(self.rt, self.actor) {
            Some(standing) => standing.given,
            None => 0,
        }
    }

    // Asks the child to end, whose pipe has given this many bytes.
    pub(crate) fn kill_at(&mut self, given: usize) -> Result<(), Failed>
        ensures killed { self.new.killed ≡ Some (unwrap_or self.old.killed given) }
        ensures reaped { self.new.is_reaped ≡ self.old.is_reaped }
        ensures script { self.new.script ≡ self.old.script }
        ensures cause { HasPlainCause self.old.faults self.new.faults result }
    {
        self.killed = Some(self.killed.unwrap_or(given));
        self.kills = self.kills.saturating_add(1);
        self.stage.take(self.rt, self.actor, Turn::Killed);
        if self.script.fails(Call::Kill, self.kills) {
            self.faults = self.faults.saturating_add(1);
            return Err(Failed);
        }
        Ok(())
    }
}

impl<'a, R: Wait> Hold for ScriptHold<'a, R> {
    ghost killed = { λ h. h.killed };

    ghost is_reaped = { λ h. h.is_reaped };

    ghost exit = { λ h. Some h.script.now.exit };

    ghost faults = { λ h. h.faults };

    fn poll(&mut self) -> Result<Option<Exit>, Failed> {
        self.polls = self.polls.saturating_add(1);
        if self.script.fails(Call::Poll, self.polls) {
            self.faults = self.faults.saturating_add(1);
            return Err(Failed);
        }
        match self.stage.standing(self.rt, self.actor) {
            Some(standing) if standing.is_killed || standing.has_ended => Ok(Some(
                self.script.exit(),
            )),
            _ => Ok(None),
        }
    }

    fn kill(&mut self) -> Result<(), Failed> {
        let given = self.given();
        self.kill_at(given)
    }

    fn reap(&mut self) -> Result<Exit, Failed> {
        self.is_reaped = true;
        self.reaps = self.reaps.saturating_add(1);
        self.stage.take(self.rt, self.actor, Turn::Reaped);
        if self.script.fails(Call::Reap, self.reaps) {
            self.faults = self.faults.saturating_add(1);
            return Err(Failed);
        }
        Ok(self.script.exit())
    }
}
