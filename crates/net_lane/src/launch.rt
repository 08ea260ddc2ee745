// Starts on an engine elsewhere.

ghost use Rattle.std.specs.Prelude.{◌≡◌, ◌⊎◌, [], None, false, Err, IfOk, length, map, option_map, string_bytes};
ghost use Rattle.sby_edge.specs.Cause.{HasCause, RisesBy, Rose, counted};
ghost use Rattle.sby_edge.specs.Child.{pipe_of, started};
ghost use Rattle.sby_edge.specs.declared.outside.Fail.TheVariants as fail;
ghost use Rattle.net_lane.specs.Asked.{IsAsked, Unasked};
ghost use Rattle.net_lane.specs.Launch.{told_by};

use crate::hold::NetHold;
use crate::log::StartLog;
use crate::opening::JobRequest;
use net_answer::NetPipe;
use net_link::Dial;
use sby_edge::{Fail, Failed, Got, JobFile, Launch};
use sby_terms::JobName;
use std::alloc::Global;
use std::marker::Model;

/// Starts the jobs of one lane on engines elsewhere. Contracts see what a bay tells, where the dial tells what its connections give, and
/// its counts of failed starts, of pipes with a fault and of holds with one, and the dial's count.
#[derive(Drop)]
pub struct NetLaunch<D: Dial + Drop> {
    dial: D,
    task: u32,
    lane: u32,
    log: StartLog,
    read_faults: u64,
    hold_faults: u64,
}

impl<D: Dial + Drop> Model for NetLaunch<D> {
    ghost use Rattle.net_lane.specs.Launch.{NetLaunchOf};

    ghost Value = { NetLaunchOf };

    ghost view = { λ b. record { gives = D.told b.dial; task = b.task; lane = b.lane; started = b.log.started.items; starts = b.log.faults; reads = b.read_faults; holds = b.hold_faults; dial_faults = D.faults b.dial } };
}

// The count after a part with this many faults is spent.
fn risen(count: u64, part: u64) -> u64
    ensures { RisesBy part count result }
{
    if part > 0 {
        count.saturating_add(1)
    } else {
        count
    }
}

impl<D: Dial + Drop> NetLaunch<D> {
    /// The bay of a lane of a task, before its first start.
    pub fn new(alloc: Global, dial: D, task: u32, lane: u32) -> Self
        ensures { result ≡ record { gives = D.told dial; task = task; lane = lane; started = []; starts = 0; reads = 0; holds = 0; dial_faults = D.faults dial } }
    {
        NetLaunch {
            dial,
            task,
            lane,
            log: StartLog::new(alloc),
            read_faults: 0,
            hold_faults: 0,
        }
    }
}

impl<D: Dial + Drop> Launch for NetLaunch<D> {
    type Pipe = NetPipe<D::Link>;

    type Hold = NetHold<D::Cut>;

    ghost told = { λ b. told_by b };

    ghost start_faults = { λ b. b.starts };

    ghost read_faults = { λ b. b.reads };

    ghost hold_faults = { λ b. b.holds };

    // Each step of `open` stands here, since no function of a dial can be called here.
    #[tactic(auto, using(crate::proofs::Asking::asked_so, crate::proofs::Starts::place_so, crate::proofs::Starts::opened_ok, crate::proofs::Starts::opened_failed, crate::proofs::Starts::taken_back, crate::proofs::Starts::opened_memory, crate::proofs::Starts::pipe_so, crate::proofs::Starts::placed_so, crate::proofs::Starts::exit_so))]
    fn start<F: JobFile>(
        &mut self,
        alloc: Global,
        job: JobName,
        words: &[String],
        file: &F,
    ) -> Result<(NetPipe<D::Link>, NetHold<D::Cut>), Fail>
        ensures told { told_by self.new ≡ option_map (started result job (map string_bytes words.now) (F.bytes file.now)) (told_by self.old) }
        ensures pipe { IfOk result (λ child. child.0.told ≡ option_map (λ bay. pipe_of (bay.scripts job) (length bay.starts)) (told_by self.old)) }
        ensures exit { IfOk result (λ child. child.1.exit ≡ option_map (λ bay. (bay.scripts job).exit) (told_by self.old)) }
        ensures fresh { IfOk result (λ child. (child.1.killed ≡ None) × (child.1.is_reaped ≡ false) × (child.0.faults ≡ 0) × (child.1.faults ≡ 0)) }
        ensures asked { IfOk result (λ child. IsAsked (map string_bytes words.now) (F.bytes file.now) child.0.written) }
        ensures failed { result ≡ Err fail.Failed → Unasked (map string_bytes words.now) (F.bytes file.now)
            ⊎ Rose self.old.dial_faults self.new.dial_faults
            ⊎ ((link : D.Link) × (D.Link.left link ≡ self.old.gives) × Rose 0 (D.Link.faults link)) }
        ensures starts { HasCause self.old.starts self.new.starts result }
        ensures reads { self.new.reads ≡ self.old.reads }
        ensures holds { self.new.holds ≡ self.old.holds }
    {
        let count = self.log.len();
        let tells = self.dial.tells();
        let place = self.log.keep(tells, alloc, job, words, file)?;
        let asked = match JobRequest::new(alloc, words, file) {
            Ok(asked) => asked,
            Err(fault) => return Err(self.log.fail(count, fault)),
        };
        let (link, cut) = match self.dial.dial(alloc, asked.address) {
            Ok(pair) => pair,
            Err(fault) => return Err(self.log.fail(count, fault)),
        };
        match asked.send(alloc, link, cut, file, place) {
            Ok(child) => Ok(child),
            Err(fault) => Err(self.log.fail(count, fault)),
        }
    }

    // No engine elsewhere leaves a proof file here.
    fn proof(&mut self, _alloc: Global, _job: JobName, _path: &str, _most: u64) -> Result<Got, Fail>
        ensures fails { result ≡ Err fail.Failed }
        ensures counts { self.new ≡ record self.old { reads = counted self.old.reads } }
        ensures reads { HasCause self.old.reads self.new.reads result }
    {
        self.read_faults = self.read_faults.saturating_add(1);
        Err(Fail::Failed)
    }

    fn kill(&self, pipe: &NetPipe<D::Link>, hold: &mut NetHold<D::Cut>) -> Result<(), Failed> {
        hold.kill_at(pipe.given())
    }

    #[tactic(auto, using(crate::proofs::Starts::finished_so))]
    fn finish(&mut self, pipe: NetPipe<D::Link>, hold: NetHold<D::Cut>) {
        if let Some(place) = pipe.place() {
            self.log.finish(place, pipe.given(), hold.killed());
        }
        self.read_faults = risen(self.read_faults, pipe.faults());
        self.hold_faults = risen(self.hold_faults, hold.faults());
        hold.end();
    }
}
