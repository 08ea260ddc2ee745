// Children of scripts at work, each through the bound of its trait.

ghost use Rattle.std.specs.Prelude.{◌≡◌, ◌<◌, true, length};

use sby_edge::{
    Call, CallFault, Clock, Exit, Fail, Gate, Got, Hold, Launch, ListClock, Memory, Nothing, Pipe,
    Script, ScriptYard, Scripted, Stage, Yard,
};
use sby_terms::JobName;
use std::alloc::{AllocError, Global};
use std::sync::Wait;
use std::test::Fail as TestFail;
use std::time::Clock as SystemClock;

fn script_of(alloc: Global, bytes: &[u8]) -> Result<Script, AllocError> {
    Ok(Script {
        bytes: Vec::from_slice(alloc, bytes)?,
        stalls: None,
        gate: None,
        exit: Exit::Code(20),
        faults: Vec::new(alloc),
        cut: None,
        proof: Vec::from_slice(alloc, b"1 0")?,
    })
}

// What two reads gave, and the exit; a failed call ends the child.
fn play<L: Launch>(bay: &mut L, alloc: Global) -> Result<(usize, usize, Exit), Fail> {
    let words = Vec::<String>::new(alloc);
    let (mut pipe, mut hold) = bay.start(alloc, JobName::Base(0), &words, &Nothing)?;
    let mut buffer = [0u8; 8];
    let _polled = hold.poll();
    let killed = hold.kill();
    let one = pipe.read(&mut buffer);
    let two = pipe.read(&mut buffer);
    let exit = hold.reap();
    bay.finish(pipe, hold);
    match (killed, one, two, exit) {
        (Ok(()), Ok(one), Ok(two), Ok(exit)) => Ok((one, two, exit)),
        _ => Err(Fail::Failed),
    }
}

fn played<Y: Yard>(yard: &mut Y, alloc: Global, lane: u32) -> Result<(usize, usize, Exit), Fail> {
    let mut bay = yard.bay(alloc, 0, lane)?;
    let answer = play(&mut bay, alloc);
    yard.back(bay);
    answer
}

// The scripts of lanes 1 and 2: one that is cut into two pieces, and one that stalls and dies by a signal.
fn push_two(alloc: Global, scripts: &mut Vec<Scripted>) -> Result<(), AllocError> {
    let whole = script_of(alloc, b"c ab\n0\n")?;
    push_script(
        scripts,
        1,
        Script {
            cut: Some(5),
            ..whole
        },
    )?;
    let whole = script_of(alloc, b"c ab\n0\n")?;
    push_script(
        scripts,
        2,
        Script {
            stalls: Some(4),
            exit: Exit::Signal,
            ..whole
        },
    )
}

fn push_script(scripts: &mut Vec<Scripted>, lane: u32, script: Script) -> Result<(), AllocError> {
    scripts.push(Scripted {
        task: 0,
        lane,
        job: JobName::Base(0),
        script,
    })?;
    Ok(())
}

#[test]
fn children_play_their_scripts(rt: HostRuntime) -> Result<(), TestFail> {
    let alloc = rt.alloc();
    let stage = Stage::new(alloc);
    let other = script_of(alloc, b"c ab\n0\n")?;
    let mut scripts = Vec::new(alloc);
    push_two(alloc, &mut scripts)?;
    let mut yard = ScriptYard::new(&rt, alloc, &stage, &scripts, &other);
    let answers = [
        played(&mut yard, alloc, 0),
        played(&mut yard, alloc, 1),
        played(&mut yard, alloc, 2),
    ];
    assert_eq!(rt;
        answers,
        [
            Ok((7, 0, Exit::Code(20))),
            Ok((5, 2, Exit::Code(20))),
            Ok((4, 0, Exit::Signal)),
        ]
    );
    Ok(())
}

// How a child ends whose first such call fails.
fn failing(
    alloc: Global,
    rt: &(impl Wait + SystemClock + Sync),
    call: Call,
) -> Result<(usize, usize, Exit), Fail> {
    let stage = Stage::new(alloc);
    let mut other = script_of(alloc, b"0\n")?;
    other.faults.push(CallFault { call, nth: 1 })?;
    let scripts = Vec::<Scripted>::new(alloc);
    let mut yard = ScriptYard::new(rt, alloc, &stage, &scripts, &other);
    played(&mut yard, alloc, 0)
}

#[test]
fn listed_calls_fail(rt: HostRuntime) {
    for call in [Call::Start, Call::Read, Call::Kill, Call::Reap] {
        assert_eq!(rt;
            failing(rt.alloc(), &rt, call),
            Err(Fail::Failed),
            "{call:?}"
        );
    }
}

// The first bytes of two children: both started before either is read, or one after the other.
fn first_bytes<L: Launch>(
    alloc: Global,
    one: &mut L,
    two: &mut L,
    beside: bool,
) -> Result<[usize; 2], Fail> {
    let words = Vec::<String>::new(alloc);
    let (mut pipe, mut hold) = one.start(alloc, JobName::Step, &words, &Nothing)?;
    let mut buffer = [0u8; 8];
    let mut counts = [0, 0];
    if !beside {
        counts[0] = pipe.read(&mut buffer).unwrap_or(0);
        let _reaped = hold.reap();
    }
    let started = two.start(alloc, JobName::Step, &words, &Nothing);
    if beside {
        counts[0] = pipe.read(&mut buffer).unwrap_or(0);
    }
    let _reaped = hold.reap();
    one.finish(pipe, hold);
    let (mut pipe, mut hold) = started?;
    counts[1] = pipe.read(&mut buffer).unwrap_or(0);
    let _reaped = hold.reap();
    two.finish(pipe, hold);
    Ok(counts)
}

fn in_two_bays<Y: Yard>(yard: &mut Y, alloc: Global, beside: bool) -> Result<[usize; 2], Fail> {
    let mut one = yard.bay(alloc, 3, 0)?;
    let counts = match yard.bay(alloc, 3, 1) {
        Ok(mut two) => {
            let counts = first_bytes(alloc, &mut one, &mut two, beside);
            yard.back(two);
            counts
        }
        Err(Memory) => Err(Fail::Memory),
    };
    yard.back(one);
    counts
}

// A script that waits for the other of two lanes.
fn push_gated(alloc: Global, scripts: &mut Vec<Scripted>, lane: u32) -> Result<(), AllocError>
    requires { lane < 2 }
{
    let whole = script_of(alloc, b"abc")?;
    let gate = Gate {
        task: None,
        lane: 1 - lane,
        turns: 1,
        instead: Vec::from_slice(alloc, b"abcde")?,
    };
    scripts.push(Scripted {
        task: 3,
        lane,
        job: JobName::Step,
        script: Script {
            gate: Some(gate),
            ..whole
        },
    })?;
    Ok(())
}

fn gated(
    alloc: Global,
    rt: &(impl Wait + SystemClock + Sync),
    beside: bool,
) -> Result<[usize; 2], Fail> {
    let stage = Stage::new(alloc);
    let other = script_of(alloc, b"0\n")?;
    let mut scripts = Vec::new(alloc);
    push_gated(alloc, &mut scripts, 0)?;
    push_gated(alloc, &mut scripts, 1)?;
    let mut yard = ScriptYard::new(rt, alloc, &stage, &scripts, &other);
    in_two_bays(&mut yard, alloc, beside)
}

#[test]
fn gates_see_who_is_live(rt: HostRuntime) {
    assert_eq!(rt; gated(rt.alloc(), &rt, true), Ok([3, 3]));
    assert_eq!(rt; gated(rt.alloc(), &rt, false), Ok([5, 5]));
}

// All of a proof file, or not; and how many bytes were got.
fn proof_of<L: Launch>(bay: &mut L, alloc: Global, most: u64) -> Result<(bool, usize), Fail> {
    match bay.proof(alloc, JobName::Step, "step.proof", most)? {
        Got::All(bytes) => Ok((true, bytes.len())),
        Got::Long(bytes) => Ok((false, bytes.len())),
    }
}

#[test]
fn bays_keep_starts_and_get_proofs(rt: HostRuntime) -> Result<(), TestFail> {
    let alloc = rt.alloc();
    let stage = Stage::new(alloc);
    let other = script_of(alloc, b"0\n")?;
    let scripts = Vec::<Scripted>::new(alloc);
    let mut yard = ScriptYard::new(&rt, alloc, &stage, &scripts, &other);
    if let Ok(mut bay) = yard.bay(alloc, 0, 0) {
        let played = play(&mut bay, alloc);
        let given = bay.started().first().map(|start| start.given);
        let killed = bay.started().first().map(|start| start.killed);
        let proofs = [proof_of(&mut bay, alloc, 3), proof_of(&mut bay, alloc, 1)];
        yard.back(bay);
        assert_eq!(rt; played, Ok((2, 0, Exit::Code(20))));
        assert_eq!(rt; given, Some(Some(2)));
        assert_eq!(rt; killed, Some(Some(0)));
        assert_eq!(rt; yard.lanes().map(|lanes| lanes.len()), Some(1));
        assert_eq!(rt; proofs, [Ok((true, 3)), Ok((false, 2))]);
        return Ok(());
    }
    panic!(rt; "no bay")
}

fn reading<C: Clock>(clock: &C) -> u64 {
    clock.pause(1);
    clock.now()
}

#[test]
fn list_clocks_end_with_their_last(rt: HostRuntime) -> Result<(), TestFail> {
    let mut readings = vec![in rt.alloc(); 0]?;
    readings.push(400)?;
    let clock = ListClock::new(readings);
    for wanted in [0, 400, 400] {
        assert_eq!(rt; reading(&clock), wanted);
    }
    Ok(())
}
