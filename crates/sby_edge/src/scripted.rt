// The scripts of a yard, each for one child.

ghost use Rattle.std.specs.Prelude.{◌≡◌, ◌↔◌, IsTrue, option_map, option_copied};
ghost use Rattle.sby_edge.specs.Child.{up_to};
ghost use Rattle.sby_edge.specs.Scripts.{is_for, is_job, script_at};

use crate::script::{Call, CallFault, Exit, Gate, Script};
use crate::stage::Role;
use sby_terms::JobName;
use std::marker::Model;

/// The script of the child of a lane of a task for a job.
#[derive(Drop, Debug)]
pub struct Scripted {
    pub task: u32,
    pub lane: u32,
    pub job: JobName,
    pub script: Script,
}

impl Model for Scripted {
    ghost use Rattle.sby_edge.specs.Scripts.{ScriptedOf};

    ghost Value = { ScriptedOf };

    ghost view = { λ s. record { task = s.task; lane = s.lane; job = s.job; script = s.script } };
}

fn is_same(one: JobName, other: JobName) -> bool
    ensures { result ≡ is_job one other }
{
    match (one, other) {
        (JobName::Base(m), JobName::Base(n)) => m == n,
        (JobName::Step, JobName::Step) | (JobName::Inv, JobName::Inv) => true,
        (JobName::Cover(m), JobName::Cover(n)) => m == n,
        _ => false,
    }
}

impl Scripted {
    fn is_for(&self, task: u32, lane: u32, job: JobName) -> bool
        ensures { result ≡ is_for self.now task lane job }
    {
        self.task == task && self.lane == lane && is_same(self.job, job)
    }

    fn script(&self) -> &Script
        ensures { result.now ≡ self.now.script }
    {
        &self.script
    }
}

// The script of a child: the first of the list that is for it, or that of all others.
#[tactic(auto, using(crate::proofs::ScriptLemmas::script_here, crate::proofs::ScriptLemmas::script_next))]
pub fn script_for<'a>(
    scripts: &'a [Scripted],
    other: &'a Script,
    task: u32,
    lane: u32,
    job: JobName,
) -> &'a Script
    ensures { result.now ≡ script_at scripts.now other.now task lane job }
{
    for scripted in scripts {
        if scripted.is_for(task, lane, job) {
            return scripted.script();
        }
    }
    other
}

// The bytes up to the stall, where there is one.
fn cut_at(stalls: Option<u64>, bytes: &[u8]) -> &[u8]
    ensures { result.now ≡ up_to stalls bytes.now }
{
    match stalls {
        Some(stall) if stall < bytes.len() as u64 => &bytes[..stall as usize],
        _ => bytes,
    }
}

impl Script {
    // The bytes that the child gives.
    pub(crate) fn stream(&self) -> &[u8]
        ensures { result.now ≡ up_to self.now.stalls self.now.bytes }
    {
        cut_at(self.stalls, &self.bytes)
    }

    // The bytes that it gives where it doesn't meet whom its gate names.
    pub(crate) fn instead(&self) -> Option<&[u8]>
        ensures { option_copied result ≡ option_map (λ gate. up_to self.now.stalls gate.instead) self.now.gate }
    {
        match &self.gate {
            Some(gate) => Some(cut_at(self.stalls, gate.instead())),
            None => None,
        }
    }

    pub(crate) fn exit(&self) -> Exit
        ensures { result ≡ self.now.exit }
    {
        self.exit
    }

    pub(crate) fn proof(&self) -> &[u8]
        ensures { result.now ≡ self.now.proof }
    {
        &self.proof
    }

    // Whom its gate names, for a child of this task and job.
    pub(crate) fn partner(&self, task: u32, job: JobName) -> Option<Role> {
        self.gate.as_ref().map(|gate| Role {
            task: gate.task.unwrap_or(task),
            lane: gate.lane,
            job,
        })
    }

    // Whether the nth call of this kind fails.
    pub(crate) fn fails(&self, call: Call, nth: u32) -> bool {
        self.faults.contains(&CallFault { call, nth })
    }
}

impl Gate {
    fn instead(&self) -> &[u8]
        ensures { result.now ≡ self.now.instead }
    {
        &self.instead
    }
}
