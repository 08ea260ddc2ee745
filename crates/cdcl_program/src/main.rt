//! The program `cdcl_program`.
#![tactic(auto)]

ghost use Rattle.std.specs.Prelude.{map, string_bytes};
ghost use Rattle.std.specs.Process.{exit_status};
ghost use Rattle.cdcl_program.specs.Program.{IsExit, IsProgramExit};

use cdcl_run::run_engine;
use child_edge::{RealFiles, StdSink, TcpDoor, arguments};
use std::alloc::{AllocError, Global};
use std::io;
use std::process::ExitCode;

const OUT_OF_MEMORY: u8 = 32;

// Runs the engine over the real files, a real output, and connections of the system.
fn run_real(rt: &HostRuntime, alloc: Global, words: &[String]) -> u8
    ensures { IsExit (map string_bytes words.now) result }
{
    let mut files = RealFiles::new(rt);
    let mut sink = StdSink::new(io::writer(rt));
    let mut door = TcpDoor::new(rt);
    run_engine(alloc, words, &mut files, &mut sink, &mut door)
}

// Runs the program for the words that it was given.
fn run(rt: &HostRuntime) -> ExitCode
    ensures { IsProgramExit (exit_status result) }
{
    let alloc = rt.alloc();
    match arguments(rt, alloc) {
        Ok(words) => ExitCode::from(run_real(rt, alloc, &words)),
        Err(AllocError) => ExitCode::from(OUT_OF_MEMORY),
    }
}

fn main(rt: HostRuntime) -> ExitCode {
    run(&rt)
}
