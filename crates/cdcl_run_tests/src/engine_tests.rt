// Whole runs with the streams of the engine: scenes, each after the work folder and the jobs whose files are put there.

use cdcl_run::run_engine;
use net_link::MemDoor;
use run_scenes::{Named, Placed, Scene, is_as_told, read_scene, run, script_of};
use sby_edge::{MemFiles, MemSink, Scripted};
use sby_terms::JobName;
use std::alloc::{AllocError, Global};
use std::sync::Wait;
use std::test::Fail;
use std::thread::Threads;
use std::time::Clock as SystemClock;
use test_designs::{ASSERT, COUNTED, COVERED, END, HEAD, INITIAL, NOT, REGISTER, T};

// All jobs of the scenes, by the names of their files.
const JOBS: [(&str, JobName); 8] = [
    ("base", JobName::Base(0)),
    ("base0", JobName::Base(0)),
    ("base1", JobName::Base(1)),
    ("base2", JobName::Base(2)),
    ("step", JobName::Step),
    ("cover0", JobName::Cover(0)),
    ("cover1", JobName::Cover(1)),
    ("cover2", JobName::Cover(2)),
];

// What the engine writes for a job.
fn answer(alloc: Global, files: &mut MemFiles, path: &str) -> Result<MemSink, Fail> {
    let mut words = Vec::new(alloc);
    words.push(String::from_str(alloc, path)?)?;
    let mut sink = MemSink::new(alloc, 1 << 22, Vec::new(alloc))?;
    let mut door = MemDoor::new(alloc, Vec::new(alloc), Vec::new(alloc));
    match run_engine(alloc, &words, files, &mut sink, &mut door) {
        10 | 20 => Ok(sink),
        _ => Err(Fail::from("no answer")),
    }
}

// Adds a stream for a job: by its name after the words of `--judge`, and as what the children of the first task's two lanes write.
fn add_stream(
    alloc: Global,
    scene: &mut Scene,
    name: &str,
    job: JobName,
    bytes: &[u8],
) -> Result<(), AllocError> {
    scene.files.push(Placed {
        path: String::from_str(alloc, name)?,
        bytes: Vec::from_slice(alloc, bytes)?,
    })?;
    if scene.words.iter().any(|word| word.as_str() == "--judge") {
        scene.words.push(String::from_str(alloc, name)?)?;
    }
    for lane in 0..2 {
        scene.scripts.push(Scripted {
            task: 0,
            lane,
            job,
            script: script_of(alloc, Vec::from_slice(alloc, bytes)?),
        })?;
    }
    Ok(())
}

// Adds the engine's streams for the jobs whose files stand in a work folder; these jobs are told.
fn add_streams(
    alloc: Global,
    scene: &mut Scene,
    files: &mut MemFiles,
    folder: &str,
) -> Result<String, Fail> {
    let mut told = String::from_str(alloc, folder)?;
    for (name, job) in JOBS {
        let path = format!(in alloc; "{folder}/model/{name}.cnf")?;
        if files.content(path.as_str()).is_some() {
            let sink = answer(alloc, files, path.as_str())?;
            add_stream(alloc, scene, name, job, sink.bytes())?;
            told.push_str(" ")?;
            told.push_str(name)?;
        }
    }
    Ok(told)
}

// Whether the scene's run puts the files of these jobs, and goes on as told with the engine's streams for them.
fn is_run<H: Threads + Wait + SystemClock + Sync + Alloc<A = Global>>(
    rt: &H,
    scene: Scene,
    jobs: &str,
) -> Result<bool, Fail> {
    let mut scene = scene;
    let mut before = run(rt, &scene)?;
    let (folder, _) = jobs.split_once(' ').unwrap_or((jobs, ""));
    let told = add_streams(rt.alloc(), &mut scene, &mut before.files, folder)?;
    Ok(told.as_str() == jobs && is_as_told(&scene, &run(rt, &scene)?))
}

// The first of the scenes between empty lines that can't be read or isn't as told.
fn first_wrong<H: Threads + Wait + SystemClock + Sync + Alloc<A = Global>>(
    rt: &H,
    scenes: &'static str,
) -> Result<Option<&'static str>, Fail> {
    for text in scenes.split("\n\n") {
        let (jobs, lines) = text.split_once('\n').unwrap_or((text, ""));
        let is_right = match read_scene(rt.alloc(), NAMES, "", lines)? {
            Some(scene) => is_run(rt, scene, jobs)?,
            None => false,
        };
        if !is_right {
            return Ok(Some(text));
        }
    }
    Ok(None)
}

// A register that can only fall, which is assumed to start at 0 and must stay there.
const FALLING: &str = r"module \t
  wire input 1 \clk
  wire input 2 \x
  wire \i
  wire \q
  wire \d
  wire \ok
  cell $initstate $i connect \Y \i end
  cell $and $c
    parameter \A_SIGNED 0 parameter \A_WIDTH 1 parameter \B_SIGNED 0 parameter \B_WIDTH 1 parameter \Y_WIDTH 1
    connect \A \q connect \B \x connect \Y \d
  end
  cell $dff $r
    parameter \CLK_POLARITY 1'1 parameter \WIDTH 1
    connect \CLK \clk connect \D \d connect \Q \q
  end
  cell $not $n
    parameter \A_SIGNED 0 parameter \A_WIDTH 1 parameter \Y_WIDTH 1
    connect \A \q connect \Y \ok
  end
  cell $assume \s0 connect \A \ok connect \EN \i end
  cell $assert \a0 connect \A \ok connect \EN 1'1 end
end
";

// A register beside the statement's cone, after an input of its own.
const ADDED_WIRES: &str = " wire input 2 \\zi\n wire \\z\n";

const ADDED: &str =
    " cell $dff $z\n parameter \\CLK_POLARITY 1'1\n parameter \\WIDTH 1\n connect \\CLK \\clk\n connect \\D \\zi\n connect \\Q \\z\n end\n";

// An assumption that brings it in.
const ASSUME: &str = " cell $assume \\s0\n connect \\A \\z\n connect \\EN 1'1\n end\n";

// The register keeps its 0.
const KEPT: &str =
    " cell $dff $r\n parameter \\CLK_POLARITY 1'1\n parameter \\WIDTH 1\n connect \\CLK \\clk\n connect \\D \\q\n connect \\Q \\q\n end\n";

const TURNS: &str = "cycle 0\n\\clk 0\n\\q 0\n\\d 1\ncycle 1\n\\clk 0\n\\q 1\n\\d 0\n";

const COUNTS: &str =
    "cycle 0\n\\clk 0\n\\c 00\n\\n 01\n\\ok 1\ncycle 1\n\\clk 0\n\\c 01\n\\n 10\n\\ok 1\ncycle 2\n\\clk 0\n\\c 10\n\\n 11\n\\ok 1\ncycle 3\n\\clk 0\n\\c 11\n\\n 00\n\\ok 0\n";

// The first two cycles of the counter with cover statements.
const VALUES: &str =
    "cycle 0\n\\clk 0\n\\c 00\n\\n 01\n\\e1 0\n\\e2 0\n\\e3 0\ncycle 1\n\\clk 0\n\\c 01\n\\n 10\n\\e1 1\n\\e2 0\n\\e3 0\n";

const VALUE_2: &str = "cycle 2\n\\clk 0\n\\c 10\n\\n 11\n\\e1 0\n\\e2 1\n\\e3 0\n";

const VALUE_3: &str = "cycle 3\n\\clk 0\n\\c 11\n\\n 00\n\\e1 0\n\\e2 0\n\\e3 1\n";

const REST: &str = "[script]\nread_rtlil t.il\n[files]\nt.il\n";

const NAMES: &[Named] = &[
    ("<HEAD>", HEAD),
    ("<NOT>", NOT),
    ("<REGISTER>", REGISTER),
    ("<ASSERT>", ASSERT),
    ("<END>", END),
    ("<T>", T),
    ("<COUNTED>", COUNTED),
    ("<INITIAL>", INITIAL),
    ("<COVERED>", COVERED),
    ("<FALLING>", FALLING),
    ("<ADDED_WIRES>", ADDED_WIRES),
    ("<ADDED>", ADDED),
    ("<ASSUME>", ASSUME),
    ("<KEPT>", KEPT),
    ("<TURNS>", TURNS),
    ("<COUNTS>", COUNTS),
    ("<VALUES>", VALUES),
    ("<VALUE_2>", VALUE_2),
    ("<VALUE_3>", VALUE_3),
    ("<REST>", REST),
];

// Streams by their names. Of the added register nothing is asked, or nothing reads its last input: it is 0, which the engine tries first.
const STORED: &str = "t base
file t.il <COUNTED>
words --judge t.il bmc 3
> SBY [t] design: 2 register bits, 1 assert, 0 assume, 0 cover
> SBY [t] base: UNSAT
> SBY [t] DONE (PASS, rc=0)

t base
file t.il <COUNTED>
words --judge t.il bmc 4
rc 2
> SBY [t] design: 2 register bits, 1 assert, 0 assume, 0 cover
> SBY [t] base: SAT
> SBY [t] broken: \\a0 at cycle 3
lines <COUNTS>
> SBY [t] DONE (FAIL, rc=2)

t base step
file t.il <INITIAL>
words --judge t.il prove 2
rc 4
> SBY [t] design: 2 register bits, 1 assert, 0 assume, 0 cover
> SBY [t] base: UNSAT
> SBY [t] step: SAT
> SBY [t] DONE (UNKNOWN, rc=4)

t base step
file t.il <INITIAL>
words --judge t.il prove 3
rc 2
> SBY [t] design: 2 register bits, 1 assert, 0 assume, 0 cover
> SBY [t] base: SAT
> SBY [t] broken: \\a0 at cycle 2
> cycle 0
> \\clk 0
> \\i 1
> \\p1 0
> \\p2 0
> \\ok 1
> cycle 1
> \\clk 0
> \\i 0
> \\p1 1
> \\p2 0
> \\ok 1
> cycle 2
> \\clk 0
> \\i 0
> \\p1 0
> \\p2 1
> \\ok 0
> SBY [t] DONE (FAIL, rc=2)

t cover0 cover1 cover2
file t.il <COVERED>
words --judge t.il cover 3
rc 2
> SBY [t] design: 2 register bits, 0 assert, 0 assume, 3 cover
> SBY [t] cover0: SAT
> SBY [t] cover1: SAT
> SBY [t] cover2: UNSAT
> SBY [t] reached: \\v1 at cycle 1
lines <VALUES>
> SBY [t] reached: \\v2 at cycle 2
lines <VALUES>|<VALUE_2>
> SBY [t] unreached: \\v3
> SBY [t] DONE (FAIL, rc=2)

t cover0 cover1 cover2
file t.il <COVERED>
words --judge t.il cover 4
> SBY [t] design: 2 register bits, 0 assert, 0 assume, 3 cover
> SBY [t] cover0: SAT
> SBY [t] cover1: SAT
> SBY [t] cover2: SAT
> SBY [t] reached: \\v1 at cycle 1
lines <VALUES>
> SBY [t] reached: \\v2 at cycle 2
lines <VALUES>|<VALUE_2>
> SBY [t] reached: \\v3 at cycle 3
lines <VALUES>|<VALUE_2>|<VALUE_3>
> SBY [t] DONE (PASS, rc=0)

t
file t.il <T>
words --judge t.il cover 3
> SBY [t] design: 1 register bits, 1 assert, 0 assume, 0 cover
> SBY [t] DONE (PASS, rc=0)

t base
file t.il <HEAD>|<NOT>|<REGISTER>|<END>
words --judge t.il bmc 5
> SBY [t] design: 1 register bits, 0 assert, 0 assume, 0 cover
> SBY [t] base: UNSAT
> SBY [t] DONE (PASS, rc=0)

t base step
file t.il <HEAD>|<NOT>|<REGISTER>|<END>
words --judge t.il prove 5
> SBY [t] design: 1 register bits, 0 assert, 0 assume, 0 cover
> SBY [t] base: UNSAT
> SBY [t] step: UNSAT
> SBY [t] DONE (PASS, rc=0)

t
file t.il <HEAD>|<NOT>|<REGISTER>|<END>
words --judge t.il cover 5
> SBY [t] design: 1 register bits, 0 assert, 0 assume, 0 cover
> SBY [t] DONE (PASS, rc=0)

t base
file t.il <HEAD>|<ADDED_WIRES>|<NOT>|<REGISTER>|<ASSERT>|<ADDED>|<END>
words --judge t.il bmc 1
> SBY [t] design: 2 register bits, 1 assert, 0 assume, 0 cover
> SBY [t] base: UNSAT
> SBY [t] DONE (PASS, rc=0)

t base
file t.il <HEAD>|<ADDED_WIRES>|<NOT>|<REGISTER>|<ASSERT>|<ADDED>|<END>
words --judge t.il bmc 2
rc 2
> SBY [t] design: 2 register bits, 1 assert, 0 assume, 0 cover
> SBY [t] base: SAT
> SBY [t] broken: \\a0 at cycle 1
> cycle 0
> \\clk 0
> \\q 0
> \\d 1
> \\zi 0
> \\z 0
> cycle 1
> \\clk 0
> \\q 1
> \\d 0
> \\zi 0
> \\z 0
> SBY [t] DONE (FAIL, rc=2)

t base
file t.il <HEAD>|<ADDED_WIRES>|<NOT>|<REGISTER>|<ASSERT>|<ADDED>|<ASSUME>|<END>
words --judge t.il bmc 2
rc 2
> SBY [t] design: 2 register bits, 1 assert, 1 assume, 0 cover
> SBY [t] base: SAT
> SBY [t] broken: \\a0 at cycle 1
> cycle 0
> \\clk 0
> \\q 0
> \\d 1
> \\zi 1
> \\z 1
> cycle 1
> \\clk 0
> \\q 1
> \\d 0
> \\zi 0
> \\z 1
> SBY [t] DONE (FAIL, rc=2)";

#[test]
fn stored_streams_of_the_engine_are_judged(rt: HostRuntime) -> Result<(), Fail> {
    assert_eq!(rt; first_wrong(&rt, STORED)?, None);
    Ok(())
}

// Lanes whose children write the streams. In the second the statement breaks before the cycles that are looked at.
const RACES: &str = "t base step
file t.il <HEAD>|<NOT>|<KEPT>|<ASSERT>|<END>
file t.sby [options]|mode prove|depth 1|[engines]|sat|drup solver|<REST>
words t.sby
> SBY [t] design: 1 register bits, 1 assert, 0 assume, 0 cover
> SBY [t] base: UNSAT
> SBY [t] step: UNSAT
> SBY [t] DONE (PASS, rc=0)

t base
file t.il <COUNTED>
file t.sby [options]|mode bmc|depth 6|skip 4|[engines]|sat|<REST>
words t.sby
> SBY [t] design: 2 register bits, 1 assert, 0 assume, 0 cover
> SBY [t] skipped: cycles 0 to 3
> SBY [t] base: UNSAT
> SBY [t] DONE (PASS, rc=0)

t base0 base1
file t.il <T>
file t.sby [options]|mode bmc|depth 5|skip 2|stride 2|[engines]|sat|<REST>
words t.sby
rc 2
> SBY [t] design: 1 register bits, 1 assert, 0 assume, 0 cover
> SBY [t] skipped: cycles 0 to 1
> SBY [t] base0: SAT
> SBY [t] broken: \\a0 at cycle 3
lines <TURNS>
> cycle 2
> \\clk 0
> \\q 0
> \\d 1
> cycle 3
> \\clk 0
> \\q 1
> \\d 0
> SBY [t] DONE (FAIL, rc=2)

t base0 base1 base2
file t.il <COUNTED>
file t.sby [options]|mode bmc|depth 6|stride 2|[engines]|sat|<REST>
words t.sby
rc 2
> SBY [t] design: 2 register bits, 1 assert, 0 assume, 0 cover
> SBY [t] base0: UNSAT
> SBY [t] base1: SAT
> SBY [t] broken: \\a0 at cycle 3
lines <COUNTS>
> SBY [t] DONE (FAIL, rc=2)

gen_8 base step
words --gen 8
> SBY [gen_8] design: 8 register bits, 8 assert, 0 assume, 0 cover
> SBY [gen_8] base: UNSAT
> SBY [gen_8] step: UNSAT
> SBY [gen_8] DONE (PASS, rc=0)

gen_200 base step
words --gen 200
> SBY [gen_200] design: 200 register bits, 200 assert, 0 assume, 0 cover
> SBY [gen_200] base: UNSAT
> SBY [gen_200] step: UNSAT
> SBY [gen_200] DONE (PASS, rc=0)";

#[test]
fn children_write_streams_of_the_engine(rt: HostRuntime) -> Result<(), Fail> {
    assert_eq!(rt; first_wrong(&rt, RACES)?, None);
    Ok(())
}

const LONG: &str = "t base
file t.il <FALLING>
words --judge t.il bmc 1100
> SBY [t] design: 1 register bits, 1 assert, 1 assume, 0 cover
> SBY [t] base: UNSAT
> SBY [t] DONE (PASS, rc=0)";

#[test]
fn many_frames_are_refuted(rt: HostRuntime) -> Result<(), Fail> {
    assert_eq!(rt; first_wrong(&rt, LONG)?, None);
    Ok(())
}
