// The starts of a bay.

ghost use Rattle.std.specs.Prelude.{◌≡◌, ◌≤◌, [], ◌∷◌, ◌++◌, None, Some, IfOk, OnErr, cond, length, map, string_bytes, take};
ghost use Rattle.sby_edge.specs.Cause.{counted};
ghost use Rattle.sby_edge.specs.Child.{with_given};

use sby_edge::{Fail, JobFile, Started};
use sby_terms::JobName;
use std::alloc::{AllocError, Global};

// The starts of a bay whose dial tells, the first one first, and how many starts failed.
#[derive(Drop)]
pub(crate) struct StartLog {
    started: Vec<Started>,
    faults: u64,
}

impl StartLog {
    // No start yet.
    pub(crate) fn new(alloc: Global) -> Self
        ensures { (result.started.items ≡ []) × (result.faults ≡ 0) }
    {
        StartLog {
            started: Vec::new(alloc),
            faults: 0,
        }
    }

    pub(crate) fn len(&self) -> usize
        ensures { result ≡ length self.now.started.items }
    {
        self.started.len()
    }

    // Keeps a start where the dial tells, and answers its place.
    pub(crate) fn keep<F: JobFile>(
        &mut self,
        tells: bool,
        alloc: Global,
        job: JobName,
        words: &[String],
        file: &F,
    ) -> Result<Option<usize>, AllocError>
        ensures place { IfOk result (λ place. place ≡ cond tells (Some (length self.old.started.items)) None) }
        ensures kept { IfOk result (λ _. self.new.started.items ≡ cond tells (self.old.started.items ++ record { job = job; words = map string_bytes words.now; bytes = F.bytes file.now; given = None; killed = None } ∷ []) self.old.started.items) }
        ensures refused { OnErr result (self.new.started.items ≡ self.old.started.items) }
        ensures faults { self.new.faults ≡ self.old.faults }
    {
        if !tells {
            return Ok(None);
        }
        let place = self.started.len();
        let start = Started::new(alloc, job, words, file)?;
        self.started.push(start)?;
        Ok(Some(place))
    }

    // Ends a start that failed. Out of memory it wasn't asked for, and `count` starts were before it.
    pub(crate) fn fail(&mut self, count: usize, fault: Fail) -> Fail
        ensures same { result ≡ fault }
        ensures later { self.old.faults ≤ self.new.faults }
        ensures failed { fault ≡ Fail.Failed → (self.new.started.items ≡ self.old.started.items) × (self.new.faults ≡ counted self.old.faults) }
        ensures memory { fault ≡ Fail.Memory → (self.new.started.items ≡ take count self.old.started.items) × (self.new.faults ≡ self.old.faults) }
    {
        match fault {
            Fail::Failed => self.faults = self.faults.saturating_add(1),
            Fail::Memory => self.started.truncate(count),
        }
        fault
    }

    // Ends the start at a place: how many bytes its pipe gave, and how many it had given when it was killed, if it was.
    #[tactic(auto, using(sby_edge::proofs::ScriptLemmas::given_set, sby_edge::proofs::ScriptLemmas::given_past))]
    pub(crate) fn finish(&mut self, place: usize, given: usize, killed: Option<usize>)
        ensures started { self.new.started.items ≡ with_given place given killed self.old.started.items }
        ensures faults { self.new.faults ≡ self.old.faults }
    {
        if place < self.started.len() {
            self.started[place].finish(given, killed);
        }
    }
}
