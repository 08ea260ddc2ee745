//! The program `sby`.
#![tactic(auto)]

ghost use Rattle.std.specs.Prelude.{◌≡◌, map, string_bytes};
ghost use Rattle.sby_top.specs.Promise.{Promises};
ghost use Rattle.sby_top.specs.Run.{Did};
ghost use Rattle.sby_top.specs.World.{world_at};
ghost use Rattle.sby_top.specs.declared.outcome.Done.{Done};

use child_edge::{Log, RealClock, RealFiles, RealYard, StdSink, arguments};
use sby_edge::{Clock, Files, Sink, Yard};
use sby_top::run_sby;
use std::alloc::Global;
use std::io;
use std::process::ExitCode;
use std::sync::Wait;
use std::thread::Threads;

const OUT_OF_MEMORY: u8 = 32;

/// Does all that the program does, and answers its exit status: what a call of `run_sby` for these words does over this outside, with all that
/// it promises a reader of the output.
fn run_program<R: Threads + Wait + Sync, F: Files, S: Sink, Y: Yard, C: Clock>(
    rt: &R,
    alloc: Global,
    words: &[String],
    files: &mut F,
    out: &mut S,
    yard: &mut Y,
    clock: &C,
) -> u8
    ensures { (done : Done)
        × Did (C.may_read clock.now)
        (world_at (F.told files.old) (F.faults files.old) (F.blamed files.old) (S.taken out.old) (S.faults out.old) (S.ended out.old) (record { scripts = Y.told yard.old; started = Y.started yard.old; counts = record { starts = Y.start_faults yard.old; reads = Y.read_faults yard.old; holds = Y.hold_faults yard.old } }))
        (world_at (F.told files.new) (F.faults files.new) (F.blamed files.new) (S.taken out.new) (S.faults out.new) (S.ended out.new) (record { scripts = Y.told yard.new; started = Y.started yard.new; counts = record { starts = Y.start_faults yard.new; reads = Y.read_faults yard.new; holds = Y.hold_faults yard.new } }))
        (map string_bytes words.now) done
        × Promises (C.may_read clock.now)
        (world_at (F.told files.old) (F.faults files.old) (F.blamed files.old) (S.taken out.old) (S.faults out.old) (S.ended out.old) (record { scripts = Y.told yard.old; started = Y.started yard.old; counts = record { starts = Y.start_faults yard.old; reads = Y.read_faults yard.old; holds = Y.hold_faults yard.old } }))
        (world_at (F.told files.new) (F.faults files.new) (F.blamed files.new) (S.taken out.new) (S.faults out.new) (S.ended out.new) (record { scripts = Y.told yard.new; started = Y.started yard.new; counts = record { starts = Y.start_faults yard.new; reads = Y.read_faults yard.new; holds = Y.hold_faults yard.new } }))
        (map string_bytes words.now) done
        × (result ≡ done.rc) }
{
    let done = run_sby(rt, alloc, words, files, out, yard, clock);
    done.rc
}

// The program over the real files, a real output, the children of the system and its clock.
fn main(rt: HostRuntime) -> ExitCode {
    let alloc = rt.alloc();
    let (Ok(words), Ok(log)) = (arguments(&rt, alloc), Log::asked(&rt, alloc)) else {
        return ExitCode::from(OUT_OF_MEMORY);
    };
    let mut files = RealFiles::logged(&rt, &log);
    let mut out = StdSink::new(io::writer(&rt));
    let mut yard = RealYard::new(&rt, &log);
    let clock = RealClock::new(&rt);
    let rc = run_program(&rt, alloc, &words, &mut files, &mut out, &mut yard, &clock);
    ExitCode::from(rc)
}
