// A yard of scripts, and its bays.

ghost use Rattle.std.specs.Prelude.{◌≡◌, ◌<◌, ◌≤◌, [], ◌∷◌, ◌++◌, None, Some, IfOk, OnErr, length, map, option_map, string_bytes};
ghost use Rattle.sby_edge.specs.Cause.{HasCause, RisesBy};
ghost use Rattle.sby_edge.specs.Child.{IsLogged, gave, with_given};
ghost use Rattle.sby_edge.specs.Scripts.{script_at};

use crate::memory::cut;
use crate::none::risen;
use crate::script::{Call, Script};
use crate::script_child::{ScriptHold, ScriptPipe};
use crate::scripted::{Scripted, script_for};
use crate::stage::{Role, Stage};
use crate::told::{Told, ToldBytes};
use crate::{Fail, Failed, Got, JobFile, Launch, Memory, Yard};
use sby_terms::JobName;
use std::alloc::{AllocError, Global};
use std::marker::Model;
use std::sync::Wait;
use std::time::Clock as SystemClock;

/// A start that was asked for, with the job's bytes that it was given; from its finish on how many bytes its pipe gave, and how many it
/// had given when the child was killed, if it was.
#[derive(Drop)]
pub struct Started {
    pub job: JobName,
    pub words: Vec<String>,
    pub bytes: ToldBytes,
    pub given: Option<usize>,
    pub killed: Option<usize>,
}

impl Model for Started {
    ghost use Rattle.std.specs.Prelude.{map, string_bytes};
    ghost use Rattle.sby_edge.specs.Child.{StartOf};

    ghost Value = { StartOf };

    ghost view = { λ s. record { job = s.job; words = map string_bytes s.words.items; bytes = s.bytes.bytes; given = s.given; killed = s.killed } };
}

impl Started {
    /// A start of the job with these words and this file, which isn't finished.
    pub fn new<F: Told>(
        alloc: Global,
        job: JobName,
        words: &[String],
        file: &F,
    ) -> Result<Self, AllocError>
        ensures { IfOk result (λ started. started ≡ record { job = job; words = map string_bytes words.now; bytes = F.bytes file.now; given = None; killed = None }) }
    {
        let mut copied = Vec::with_capacity(alloc, words.len())?;
        for word in words {
            copied.push(String::from_str(alloc, word.as_str())?)?;
        }
        Ok(Started {
            job,
            words: copied,
            bytes: ToldBytes::of(file),
            given: None,
            killed: None,
        })
    }

    /// Its finish: how many bytes its pipe gave, and how many it had given when the child was killed, if it was.
    pub fn finish(&mut self, given: usize, killed: Option<usize>)
        ensures { self.new ≡ gave given killed self.old }
    {
        self.given = Some(given);
        self.killed = killed;
    }
}

/// The bay of a lane in a yard of scripts.
#[derive(Drop)]
pub struct ScriptBay<'a, R: Wait + SystemClock> {
    rt: &'a R,
    stage: &'a Stage,
    scripts: &'a [Scripted],
    other: &'a Script,
    task: u32,
    lane: u32,
    started: Vec<Started>,
    start_faults: u64,
    read_faults: u64,
    hold_faults: u64,
}

impl<'a, R: Wait + SystemClock> ScriptBay<'a, R> {
    /// Its starts, the first one first.
    pub fn started(&self) -> &[Started]
        ensures { result.now ≡ self.now.started.items }
    {
        &self.started
    }

    // How often the job's child was asked for, this time included.
    fn times(&self, job: JobName) -> u32 {
        let mut times = 1u32;
        for started in &self.started {
            if started.job == job {
                times = times.saturating_add(1);
            }
        }
        times
    }
}

// Puts what the pipe of a start gave at its place.
#[tactic(auto, using(crate::proofs::ScriptLemmas::given_set, crate::proofs::ScriptLemmas::given_past))]
fn put_given(started: &mut Vec<Started>, place: usize, given: usize, killed: Option<usize>)
    ensures { started.new.items ≡ with_given place given killed started.old.items }
{
    if place < started.len() {
        started[place].finish(given, killed);
    }
}

impl<'a, R: Wait + SystemClock + Sync> Launch for ScriptBay<'a, R> {
    type Pipe = ScriptPipe<'a, R>;

    type Hold = ScriptHold<'a, R>;

    ghost told = { λ b. Some (record { task = b.task; lane = b.lane; scripts = script_at b.scripts.now b.other.now b.task b.lane; starts = b.started.items }) };

    ghost start_faults = { λ b. b.start_faults };

    ghost read_faults = { λ b. b.read_faults };

    ghost hold_faults = { λ b. b.hold_faults };

    fn start<F: JobFile>(
        &mut self,
        alloc: Global,
        job: JobName,
        words: &[String],
        file: &F,
    ) -> Result<(ScriptPipe<'a, R>, ScriptHold<'a, R>), Fail> {
        let script = script_for(self.scripts, self.other, self.task, self.lane, job);
        let times = self.times(job);
        let place = self.started.len();
        let started = Started::new(alloc, job, words, file)?;
        if script.fails(Call::Start, times) {
            self.started.push(started)?;
            self.start_faults = self.start_faults.saturating_add(1);
            return Err(Fail::Failed);
        }
        self.started.reserve(1)?;
        let role = Role {
            task: self.task,
            lane: self.lane,
            job,
        };
        let actor = self
            .stage
            .enter(self.rt, role, script.partner(self.task, job))?;
        self.started.push(started)?;
        let pipe = ScriptPipe {
            rt: self.rt,
            stage: self.stage,
            script,
            actor,
            place,
            stream: script.stream(),
            instead: script.instead(),
            given: 0,
            reads: 0,
            faults: 0,
        };
        let hold = ScriptHold {
            rt: self.rt,
            stage: self.stage,
            script,
            actor,
            killed: None,
            is_reaped: false,
            polls: 0,
            kills: 0,
            reaps: 0,
            faults: 0,
        };
        Ok((pipe, hold))
    }

    fn proof(&mut self, alloc: Global, job: JobName, _path: &str, most: u64) -> Result<Got, Fail> {
        let script = script_for(self.scripts, self.other, self.task, self.lane, job);
        Ok(cut(alloc, script.proof(), most)?)
    }

    fn kill(&self, pipe: &ScriptPipe<'a, R>, hold: &mut ScriptHold<'a, R>) -> Result<(), Failed> {
        hold.kill_at(pipe.given)
    }

    fn finish(&mut self, pipe: ScriptPipe<'a, R>, hold: ScriptHold<'a, R>) {
        let ScriptPipe {
            rt: _,
            stage: _,
            script: _,
            actor: _,
            place,
            stream: _,
            instead: _,
            given,
            reads: _,
            faults: reads,
        } = pipe;
        let ScriptHold {
            rt: _,
            stage: _,
            script: _,
            actor: _,
            killed,
            is_reaped: _,
            polls: _,
            kills: _,
            reaps: _,
            faults: holds,
        } = hold;
        put_given(&mut self.started, place, given, killed);
        self.read_faults = risen(self.read_faults, reads);
        self.hold_faults = risen(self.hold_faults, holds);
    }
}

/// What a bay that came back has left: its task and its lane, its starts, the first one first, and its counts of failed calls.
#[derive(Drop)]
pub struct LaneStarts {
    pub task: u32,
    pub lane: u32,
    pub started: Vec<Started>,
    pub start_faults: u64,
    pub read_faults: u64,
    pub hold_faults: u64,
}

impl Model for LaneStarts {
    ghost use Rattle.sby_edge.specs.Child.{LaneOf};

    ghost Value = { LaneOf };

    ghost view = { λ l. record { task = l.task; lane = l.lane; starts = l.started.items; counts = record { starts = l.start_faults; reads = l.read_faults; holds = l.hold_faults } } };
}

/// A yard in which each child plays its script: the first of the list for its task, lane and job, or that of all others. Children
/// of bays in other threads are live on one stage.
#[derive(Drop)]
pub struct ScriptYard<'a, R: Wait + SystemClock> {
    rt: &'a R,
    stage: &'a Stage,
    scripts: &'a [Scripted],
    other: &'a Script,
    // How many bays are out.
    out: usize,
    // What the bays that came back have left, as long as memory sufficed to keep it.
    lanes: Option<Vec<LaneStarts>>,
    start_faults: u64,
    read_faults: u64,
    hold_faults: u64,
}

impl<'a, R: Wait + SystemClock> ScriptYard<'a, R> {
    pub fn new(
        rt: &'a R,
        alloc: Global,
        stage: &'a Stage,
        scripts: &'a [Scripted],
        other: &'a Script,
    ) -> Self
        ensures scripts { result.scripts.now ≡ scripts.now }
        ensures other { result.other.now ≡ other.now }
        ensures lanes { option_map (λ v. v.items) result.lanes ≡ Some [] }
        ensures counts { (result.start_faults ≡ 0) × (result.read_faults ≡ 0) × (result.hold_faults ≡ 0) }
    {
        ScriptYard {
            rt,
            stage,
            scripts,
            other,
            out: 0,
            lanes: Some(Vec::new(alloc)),
            start_faults: 0,
            read_faults: 0,
            hold_faults: 0,
        }
    }
}

impl<'a, R: Wait + SystemClock> ScriptYard<'a, R> {
    /// What the bays that came back have left, the first one first; none where memory ran out to keep it.
    pub fn lanes(&self) -> Option<&[LaneStarts]>
        ensures { option_map (λ lanes. lanes.now) result ≡ option_map (λ v. v.items) self.now.lanes }
    {
        match &self.lanes {
            Some(lanes) => Some(lanes.as_slice()),
            None => None,
        }
    }

    // Takes the room for what one more bay leaves.
    fn take_room(&mut self) -> Result<(), Memory>
        ensures same { self.new ≡ record self.old { lanes = self.new.lanes } }
        ensures lanes { option_map (λ v. v.items) self.new.lanes ≡ option_map (λ v. v.items) self.old.lanes }
    {
        match &mut self.lanes {
            Some(lanes) => Ok(lanes.reserve(self.out.saturating_add(1))?),
            None => Ok(()),
        }
    }
}

// With what one more bay has left, where memory suffices.
fn logged(lanes: Option<Vec<LaneStarts>>, lane: LaneStarts) -> Option<Vec<LaneStarts>>
    ensures { IsLogged (lane ∷ []) (option_map (λ v. v.items) lanes) (option_map (λ v. v.items) result) }
{
    let mut lanes = lanes?;
    match lanes.push(lane) {
        Ok(()) => Some(lanes),
        Err(_) => None,
    }
}

impl<'a, R: Wait + SystemClock + Sync> Yard for ScriptYard<'a, R> {
    type Bay = ScriptBay<'a, R>;

    ghost told = { λ y. Some (script_at y.scripts.now y.other.now) };

    ghost started = { λ y. option_map (λ v. v.items) y.lanes };

    ghost start_faults = { λ y. y.start_faults };

    ghost read_faults = { λ y. y.read_faults };

    ghost hold_faults = { λ y. y.hold_faults };

    fn bay(&mut self, alloc: Global, task: u32, lane: u32) -> Result<ScriptBay<'a, R>, Memory> {
        self.take_room()?;
        self.out = self.out.saturating_add(1);
        Ok(ScriptBay {
            rt: self.rt,
            stage: self.stage,
            scripts: self.scripts,
            other: self.other,
            task,
            lane,
            started: Vec::new(alloc),
            start_faults: 0,
            read_faults: 0,
            hold_faults: 0,
        })
    }

    fn back(&mut self, bay: ScriptBay<'a, R>) {
        let ScriptBay {
            rt: _,
            stage: _,
            scripts: _,
            other: _,
            task,
            lane,
            started,
            start_faults: starts,
            read_faults: reads,
            hold_faults: holds,
        } = bay;
        let left = LaneStarts {
            task,
            lane,
            started,
            start_faults: starts,
            read_faults: reads,
            hold_faults: holds,
        };
        self.out = self.out.saturating_sub(1);
        self.lanes = logged(self.lanes.take(), left);
        self.start_faults = risen(self.start_faults, starts);
        self.read_faults = risen(self.read_faults, reads);
        self.hold_faults = risen(self.hold_faults, holds);
    }
}
