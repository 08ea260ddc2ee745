//! The program `pdr_program`.
#![tactic(auto)]

ghost use Rattle.std.specs.Prelude.{map, string_bytes};
ghost use Rattle.std.specs.Process.{exit_status};
ghost use Rattle.pdr_program.specs.Program.{IsExit, IsProgramExit};

use child_edge::{RealFiles, StdSink, arguments};
use pdr_run::run_pdr;
use std::alloc::{AllocError, Global};
use std::io;
use std::process::ExitCode;

const OUT_OF_MEMORY: u8 = 32;

// Runs the engine over the real files and a real output.
fn run_real(rt: &HostRuntime, alloc: Global, words: &[String]) -> u8
    ensures { IsExit (map string_bytes words.now) result }
{
    let mut files = RealFiles::new(rt);
    let mut sink = StdSink::new(io::writer(rt));
    run_pdr(alloc, words, &mut files, &mut sink)
}

// Runs the program for the words that it was given.
fn run(rt: &HostRuntime) -> ExitCode
    ensures { IsProgramExit (exit_status result) }
{
    let alloc = rt.alloc();
    match arguments(rt, alloc) {
        Ok(words) => ExitCode::from(run_real(rt, alloc, &words)),
        Err(AllocError) => ExitCode::from(OUT_OF_MEMORY),
    }
}

fn main(rt: HostRuntime) -> ExitCode {
    run(&rt)
}
