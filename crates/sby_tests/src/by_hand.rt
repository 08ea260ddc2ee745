// Runs that no scene can tell: into other output, and of other bytes.

ghost use Rattle.std.specs.Prelude.{None};

use crate::names::NAMES;
use run_scenes::{Placed, Scene, is_as_told, owned, read_scene, run, run_into};
use sby_edge::{Failed, Files, MemFiles, Sink, StillClock};
use std::alloc::{AllocError, Global};
use std::sync::Wait;
use std::test::Fail;
use std::thread::Threads;
use std::time::Clock as SystemClock;
use test_designs::T;

// Output that takes at most seven bytes at a time.
#[derive(Drop)]
struct SlowSink {
    taken: Vec<u8>,
    faults: u64,
}

impl Sink for SlowSink {
    ghost taken = { λ _. None };

    ghost faults = { λ s. s.faults };

    ghost ended = { λ _. None };

    fn write(&mut self, piece: &[u8]) -> Result<usize, Failed> {
        let count = piece.len().min(7);
        match self.taken.extend_from_slice(&piece[..count]) {
            Ok(()) => Ok(count),
            Err(_) => {
                self.faults = self.faults.saturating_add(1);
                Err(Failed)
            }
        }
    }
}

const SLOWLY: &str =
    "SBY [t] design: 1 register bits, 1 assert, 0 assume, 0 cover\nSBY [t] base: UNSAT\nSBY [t] DONE (PASS, rc=0)\n";

fn stored(alloc: Global) -> Result<MemFiles, Fail> {
    let mut files = MemFiles::new(alloc, Vec::new(alloc));
    files.put(alloc, "t.il", T.as_bytes())?;
    files.put(alloc, "s0", b"0\n")?;
    Ok(files)
}

// The exit status of a run into a slow sink.
fn run_slowly<H: Threads + Wait + SystemClock + Sync + Alloc<A = Global>>(
    rt: &H,
    out: &mut SlowSink,
) -> Result<u8, Fail> {
    let mut files = stored(rt.alloc())?;
    let words = owned(rt.alloc(), "--judge t.il bmc 1 s0")?;
    Ok(run_into(rt, &mut files, &words, out, &[], &StillClock(0))?.rc)
}

#[test]
fn a_slow_sink_is_offered_the_rest(rt: HostRuntime) -> Result<(), Fail> {
    let mut out = SlowSink {
        taken: Vec::new(rt.alloc()),
        faults: 0,
    };
    assert!(rt; run_slowly(&rt, &mut out)? == 0);
    assert!(rt; out.taken.as_slice() == SLOWLY.as_bytes());
    Ok(())
}

// A scene of these lines, with a file of these bytes.
fn scene_of(
    alloc: Global,
    head: &str,
    told: &str,
    path: &str,
    bytes: Vec<u8>,
) -> Result<Option<Scene>, AllocError> {
    let Some(mut scene) = read_scene(alloc, NAMES, head, told)? else {
        return Ok(None);
    };
    let path = String::from_str(alloc, path)?;
    scene.files.push(Placed { path, bytes })?;
    Ok(Some(scene))
}

fn is_told<H: Threads + Wait + SystemClock + Sync + Alloc<A = Global>>(
    rt: &H,
    head: &str,
    told: &str,
    path: &str,
    bytes: Vec<u8>,
) -> Result<bool, Fail> {
    match scene_of(rt.alloc(), head, told, path, bytes)? {
        Some(scene) => Ok(is_as_told(&scene, &run(rt, &scene)?)),
        None => Ok(false),
    }
}

const NOT_TEXT: &str = "> SBY [two] ERROR: sby line 1: NotText\n> SBY [two] DONE (ERROR, rc=16)";

const LIMIT: &str = "> SBY [two] ERROR: sby line 0: Limit\n> SBY [two] DONE (ERROR, rc=16)";

#[test]
fn other_bytes_are_refused(rt: HostRuntime) -> Result<(), Fail> {
    // The last two: the most bytes of a task file, and one more.
    for (size, told) in [(3, NOT_TEXT), (0x100_0000, NOT_TEXT), (0x100_0001, LIMIT)] {
        let bytes = vec![in rt.alloc(); 0xffu8; size]?;
        assert!(rt;
            is_told(&rt, "rc 16\nwords two.sby", told, "two.sby", bytes)?,
            "{size}"
        );
    }
    Ok(())
}

const STREAM: &str = "file t.il <T>
words --judge t.il bmc 1 s0
> SBY [t] design: 1 register bits, 1 assert, 0 assume, 0 cover";

const PASSED: &str = "> SBY [t] base: UNSAT\n> SBY [t] DONE (PASS, rc=0)";

const ENDED: &str = "rc 16
> SBY [t] engine_0 base: certificate EarlyEnd at byte 65536
> SBY [t] DONE (ERROR, rc=16)";

const BROKEN: &str = "rc 16
> SBY [t] engine_0 base: certificate BadLine at byte 131073
> SBY [t] DONE (ERROR, rc=16)";

#[test]
fn long_streams_are_judged(rt: HostRuntime) -> Result<(), Fail> {
    // Empty lines, then the last line: within the piece that is got first, as its end, and after one and two such pieces.
    for (lines, last, told) in [
        (65_534, "0\n", PASSED),
        (65_535, "0\n", PASSED),
        (65_536, "", ENDED),
        (65_536, "0", PASSED),
        (131_073, "x", BROKEN),
        (200_000, "0\n", PASSED),
    ] {
        let mut bytes = vec![in rt.alloc(); b'\n'; lines]?;
        bytes.extend_from_slice(last.as_bytes())?;
        assert!(rt; is_told(&rt, STREAM, told, "s0", bytes)?, "{lines}");
    }
    Ok(())
}
