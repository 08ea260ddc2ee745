// Children, from the yard down to a child's pipe and hold; and the clock.

ghost use Rattle.std.specs.Prelude.{◌≡◌, ℕ, ◌<◌, ◌≤◌, List, Option, None, Some, Bool, true, false, IfOk, OnErr, length, map, option_map, string_bytes};
ghost use Rattle.sby_edge.specs.Cause.{HasCause, HasPlainCause, RisesBy};
ghost use Rattle.sby_edge.specs.Child.{BayOf, IsLogged, Kills, KillsAt, LaneOf, PipeOf, YardOf, Learns, ProofFrom, Reads, finished, left_by, new_bay, pipe_of, started};
ghost use Rattle.sby_edge.specs.Files.{GotFits};
ghost use Rattle.sby_edge.specs.declared.script.Exit.{Exit};

use crate::{Exit, Fail, Failed, Got, JobFile, Memory};
use sby_terms::JobName;
use std::alloc::Global;

/// A child's output.
pub trait Pipe {
    /// The bytes left, with what was given so far, where they are told.
    ghost told: { Self → Option PipeOf };

    /// How often a call failed; it stays at the greatest u64.
    ghost faults: { Self → ℕ };

    /// Reads into the front of the buffer, and answers how many bytes. That is 0 only where none is left, or at the script's stall.
    fn read(&mut self, buf: &mut [u8]) -> Result<usize, Failed>
        requires { 0 < length buf.old }
        ensures bytes { Reads (told self.old) (told self.new) buf.new result }
        ensures fits { IfOk result (λ count. count ≤ length buf.old) }
        ensures cause { HasPlainCause (faults self.old) (faults self.new) result };
}

/// A child. It is linear: nothing that knows it by this trait can drop it, and `Launch::finish` is its only end.
pub trait Hold {
    /// How many bytes the child's pipe had given when it was first killed, if it was.
    ghost killed: { Self → Option ℕ };

    /// Whether `reap` was called.
    ghost is_reaped: { Self → Bool };

    /// The child's exit, where it is told or a call gave it.
    ghost exit: { Self → Option Exit };

    /// How often a call failed; it stays at the greatest u64.
    ghost faults: { Self → ℕ };

    /// The child's exit, if it has ended. Doesn't wait.
    fn poll(&mut self) -> Result<Option<Exit>, Failed>
        ensures killed { killed self.new ≡ killed self.old }
        ensures reaped { is_reaped self.new ≡ is_reaped self.old }
        ensures exit { IfOk result (λ given. Learns (exit self.old) (exit self.new) given) }
        ensures err { OnErr result (exit self.new ≡ exit self.old) }
        ensures cause { HasPlainCause (faults self.old) (faults self.new) result };

    /// Asks the child to end, while its pipe may be read beside this.
    fn kill(&mut self) -> Result<(), Failed>
        ensures killed { Kills (killed self.old) (killed self.new) }
        ensures reaped { is_reaped self.new ≡ is_reaped self.old }
        ensures exit { exit self.new ≡ exit self.old }
        ensures cause { HasPlainCause (faults self.old) (faults self.new) result };

    /// Waits until the child has ended. After a `poll` that gave an exit it answers that exit.
    fn reap(&mut self) -> Result<Exit, Failed>
        ensures killed { killed self.new ≡ killed self.old }
        ensures reaped { is_reaped self.new ≡ true }
        ensures exit { IfOk result (λ given. Learns (exit self.old) (exit self.new) (Some given)) }
        ensures err { OnErr result (exit self.new ≡ exit self.old) }
        ensures cause { HasPlainCause (faults self.old) (faults self.new) result };
}

/// A bay: it starts the children of one lane.
pub trait Launch {
    type Pipe: Pipe + Send;

    type Hold: Hold + Send;

    /// The scripts of its lane, and its starts, where they are told.
    ghost told: { Self → Option BayOf };

    /// How often a start failed. This count and the next two stay at the greatest u64.
    ghost start_faults: { Self → ℕ };

    /// How many finished children had a pipe with a fault, and how many proof files weren't got.
    ghost read_faults: { Self → ℕ };

    /// How many finished children had a hold with a fault.
    ghost hold_faults: { Self → ℕ };

    /// Starts the job's child with these words. A child on this machine reads the job's file at the path among its words; one that is
    /// reached over a connection is sent it.
    fn start<F: JobFile>(
        &mut self,
        alloc: Global,
        job: JobName,
        words: &[String],
        file: &F,
    ) -> Result<(Self::Pipe, Self::Hold), Fail>
        ensures told { told self.new ≡ option_map (started result job (map string_bytes words.now) (F.bytes file.now)) (told self.old) }
        ensures pipe { IfOk result (λ child. Self.Pipe.told child.0
            ≡ option_map (λ bay. pipe_of (bay.scripts job) (length bay.starts)) (told self.old)) }
        ensures exit { IfOk result (λ child. Self.Hold.exit child.1 ≡ option_map (λ bay. (bay.scripts job).exit) (told self.old)) }
        ensures fresh { IfOk result (λ child. (Self.Hold.killed child.1 ≡ None) × (Self.Hold.is_reaped child.1 ≡ false)
            × (Self.Pipe.faults child.0 ≡ 0) × (Self.Hold.faults child.1 ≡ 0)) }
        ensures starts { HasCause (start_faults self.old) (start_faults self.new) result }
        ensures reads { read_faults self.new ≡ read_faults self.old }
        ensures holds { hold_faults self.new ≡ hold_faults self.old };

    /// The proof file that the job's child left at this path: all of it, or its first `most + 1` bytes exactly where it is longer than
    /// `most`.
    fn proof(&mut self, alloc: Global, job: JobName, path: &str, most: u64) -> Result<Got, Fail>
        ensures content { IfOk result (λ got. ProofFrom (told self.old) job most got) }
        ensures fits { IfOk result (λ got. GotFits most got) }
        ensures told { told self.new ≡ told self.old }
        ensures starts { start_faults self.new ≡ start_faults self.old }
        ensures reads { HasCause (read_faults self.old) (read_faults self.new) result }
        ensures holds { hold_faults self.new ≡ hold_faults self.old };

    /// Asks a child to end whose pipe is read no more.
    fn kill(&self, pipe: &Self::Pipe, hold: &mut Self::Hold) -> Result<(), Failed>
        ensures killed { KillsAt (Self.Pipe.told pipe.now) (Self.Hold.killed hold.old) (Self.Hold.killed hold.new) }
        ensures reaped { Self.Hold.is_reaped hold.new ≡ Self.Hold.is_reaped hold.old }
        ensures exit { Self.Hold.exit hold.new ≡ Self.Hold.exit hold.old }
        ensures cause { HasPlainCause (Self.Hold.faults hold.old) (Self.Hold.faults hold.new) result };

    /// The end of a child that was reaped.
    fn finish(&mut self, pipe: Self::Pipe, hold: Self::Hold)
        requires { Self.Hold.is_reaped hold ≡ true }
        ensures told { told self.new ≡ option_map (finished (Self.Pipe.told pipe) (Self.Hold.killed hold)) (told self.old) }
        ensures starts { start_faults self.new ≡ start_faults self.old }
        ensures reads { RisesBy (Self.Pipe.faults pipe) (read_faults self.old) (read_faults self.new) }
        ensures holds { RisesBy (Self.Hold.faults hold) (hold_faults self.old) (hold_faults self.new) };
}

/// What makes the bays of a run, one for each lane of each task. Tasks are counted from 0 in the order in which they run.
pub trait Yard {
    type Bay: Launch + Send;

    /// The script of each task, lane and job, where they are told.
    ghost told: { Self → Option YardOf };

    /// What the bays that came back have left, in the order in which they did, where that is told.
    ghost started: { Self → Option (List LaneOf) };

    /// How many bays came back with a failed start. This count and the next two stay at the greatest u64.
    ghost start_faults: { Self → ℕ };

    /// How many bays came back with a fault of a read.
    ghost read_faults: { Self → ℕ };

    /// How many bays came back with a fault of a hold.
    ghost hold_faults: { Self → ℕ };

    /// The bay of a lane of a task.
    fn bay(&mut self, alloc: Global, task: u32, lane: u32) -> Result<Self::Bay, Memory>
        ensures bay { IfOk result (λ bay. Self.Bay.told bay ≡ new_bay (told self.old) task lane) }
        ensures fresh { IfOk result (λ bay. (Self.Bay.start_faults bay ≡ 0)
            × (Self.Bay.read_faults bay ≡ 0) × (Self.Bay.hold_faults bay ≡ 0)) }
        ensures told { told self.new ≡ told self.old }
        ensures started { started self.new ≡ started self.old }
        ensures starts { start_faults self.new ≡ start_faults self.old }
        ensures reads { read_faults self.new ≡ read_faults self.old }
        ensures holds { hold_faults self.new ≡ hold_faults self.old };

    /// Takes a bay back, with its starts and its counts.
    fn back(&mut self, bay: Self::Bay)
        ensures told { told self.new ≡ told self.old }
        ensures started { IsLogged (left_by (Self.Bay.told bay) (record { starts = Self.Bay.start_faults bay; reads = Self.Bay.read_faults bay; holds = Self.Bay.hold_faults bay }))
            (started self.old) (started self.new) }
        ensures starts { RisesBy (Self.Bay.start_faults bay) (start_faults self.old) (start_faults self.new) }
        ensures reads { RisesBy (Self.Bay.read_faults bay) (read_faults self.old) (read_faults self.new) }
        ensures holds { RisesBy (Self.Bay.hold_faults bay) (hold_faults self.old) (hold_faults self.new) };
}

/// A clock that counts milliseconds.
pub trait Clock: Sync {
    /// A reading that `now` may give. Generic code knows it of a number only where `now` gave that number.
    ghost may_read: { Self → ℕ → Type 0 };

    fn now(&self) -> u64
        ensures { may_read self.now result };

    /// Gives others a turn, for about this many milliseconds.
    fn pause(&self, millis: u32);
}
