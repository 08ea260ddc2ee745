// Children of scenes.

use crate::texts::{Named, text_of};
use sby_edge::{Call, CallFault, Exit, Gate, Script, Scripted};
use sby_terms::JobName;
use std::alloc::{AllocError, Global};

/// What the child of a task's lane does for a job: the sources of what it writes and of the proof file that it leaves; after how many bytes it
/// stalls; the lane, of another task where one is told, whose child must be live beside it within this many turns, or it doesn't know; and the kind
/// of call of which the first fails.
#[derive(Clone, Copy)]
pub struct Child<'a> {
    pub task: u32,
    pub lane: u32,
    pub job: JobName,
    pub text: &'a str,
    pub proof: &'a str,
    pub stall: Option<u64>,
    pub gate: Option<u32>,
    pub other: Option<u32>,
    pub turns: u64,
    pub fault: Option<Call>,
}

/// It writes a certificate of a job that unit propagation refutes.
pub const FINDS: Child<'static> = Child {
    task: 0,
    lane: 0,
    job: JobName::Base(0),
    text: "0|",
    proof: "",
    stall: None,
    gate: None,
    other: None,
    turns: 10_000,
    fault: None,
};

fn call_of(word: &str) -> Option<Call> {
    match word {
        "start" => Some(Call::Start),
        "read" => Some(Call::Read),
        "poll" => Some(Call::Poll),
        "kill" => Some(Call::Kill),
        "reap" => Some(Call::Reap),
        _ => None,
    }
}

impl<'a> Child<'a> {
    // The child with one of its parts told; None where there is no such part or value.
    fn with(self, part: &str, value: &'a str) -> Option<Child<'a>> {
        let mut child = self;
        match part {
            "task" => child.task = value.parse::<u32>().ok()?,
            "lane" => child.lane = value.parse::<u32>().ok()?,
            "gate" => child.gate = Some(value.parse::<u32>().ok()?),
            "other" => child.other = Some(value.parse::<u32>().ok()?),
            "turns" => child.turns = value.parse::<u64>().ok()?,
            "stall" => child.stall = Some(value.parse::<u64>().ok()?),
            "fault" => child.fault = Some(call_of(value)?),
            "text" => child.text = value,
            "proof" => child.proof = value,
            "step" => child.job = JobName::Step,
            "inv" => child.job = JobName::Inv,
            _ => return None,
        }
        Some(child)
    }

    /// The child whose parts are told between semicolons, each as `PART=VALUE`; the others are as in `FINDS`.
    pub fn read(told: &'a str) -> Option<Child<'a>> {
        let mut child: Child<'a> = FINDS;
        if told.is_empty() {
            return Some(child);
        }
        for part in told.split(';') {
            let (name, value) = part.split_once('=')?;
            child = child.with(name, value)?;
        }
        Some(child)
    }

    /// Its script.
    pub fn scripted(self, alloc: Global, names: &[Named]) -> Result<Scripted, AllocError> {
        let mut script = script_of(alloc, text_of(alloc, names, self.text)?);
        script.stalls = self.stall;
        script.proof = text_of(alloc, names, self.proof)?;
        script.gate = self.gate_of(alloc)?;
        script.faults = faults_of(alloc, self.fault)?;
        Ok(Scripted {
            task: self.task,
            lane: self.lane,
            job: self.job,
            script,
        })
    }

    fn gate_of(self, alloc: Global) -> Result<Option<Gate>, AllocError> {
        match self.gate {
            Some(lane) => Ok(Some(Gate {
                task: self.other,
                lane,
                turns: self.turns,
                instead: Vec::from_slice(alloc, b"s UNKNOWN\n")?,
            })),
            None => Ok(None),
        }
    }
}

fn faults_of(alloc: Global, call: Option<Call>) -> Result<Vec<CallFault>, AllocError> {
    let mut faults = Vec::new(alloc);
    if let Some(call) = call {
        faults.push(CallFault { call, nth: 1 })?;
    }
    Ok(faults)
}

/// A child that writes this, and is ended by a signal.
pub fn script_of(alloc: Global, bytes: Vec<u8>) -> Script {
    Script {
        bytes,
        stalls: None,
        gate: None,
        exit: Exit::Signal,
        faults: Vec::new(alloc),
        cut: None,
        proof: Vec::new(alloc),
    }
}
