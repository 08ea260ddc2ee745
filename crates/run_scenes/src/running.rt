// Scenes, run.

use crate::child::script_of;
use crate::reading::read_scene;
use crate::scene::Scene;
use crate::texts::Named;
use sby_edge::{
    Clock, Fail, Files, LaneStarts, ListClock, MemFiles, MemSink, ScriptYard, Scripted, Sink,
    Stage, StillClock,
};
use sby_top::run_sby;
use std::alloc::{AllocError, Global};
use std::sync::Wait;
use std::thread::Threads;
use std::time::Clock as SystemClock;

/// How a run ended: its exit status, and the words of each child that was started, between single spaces.
#[derive(Drop)]
pub struct Ended {
    pub rc: u8,
    pub starts: Vec<String>,
}

/// What a run printed, the files after it, and how it ended.
#[derive(Drop)]
pub struct Ran {
    pub ended: Ended,
    pub printed: MemSink,
    pub files: MemFiles,
}

// Words between single spaces.
fn line_of(alloc: Global, words: &[String]) -> Result<String, AllocError> {
    let mut line = String::new(alloc);
    for word in words {
        if !line.is_empty() {
            line.push_str(" ")?;
        }
        line.push_str(word.as_str())?;
    }
    Ok(line)
}

// The words of each start of these lanes.
fn starts_of(alloc: Global, lanes: &[LaneStarts]) -> Result<Vec<String>, AllocError> {
    let mut starts = Vec::new(alloc);
    for lane in lanes {
        for started in &lane.started {
            starts.push(line_of(alloc, &started.words)?)?;
        }
    }
    Ok(starts)
}

/// The end of a run into a sink, over children of these scripts; all others say that they don't know.
pub fn run_into<H: Threads + Wait + SystemClock + Sync + Alloc<A = Global>, S: Sink, C: Clock>(
    rt: &H,
    files: &mut MemFiles,
    words: &[String],
    out: &mut S,
    scripts: &[Scripted],
    clock: &C,
) -> Result<Ended, AllocError> {
    let alloc = rt.alloc();
    let unknown = script_of(alloc, Vec::from_slice(alloc, b"s UNKNOWN\n")?);
    let stage = Stage::new(alloc);
    let mut yard = ScriptYard::new(rt, alloc, &stage, scripts, &unknown);
    let rc = run_sby(rt, alloc, words, files, out, &mut yard, clock).rc;
    let starts = starts_of(alloc, yard.lanes().unwrap_or(&[]))?;
    Ok(Ended { rc, starts })
}

// The store before the run.
fn stored(alloc: Global, scene: &Scene) -> Result<MemFiles, Fail> {
    let mut files = MemFiles::new(alloc, Vec::from_slice(alloc, &scene.failing)?);
    for file in &scene.files {
        files.put(alloc, &file.path, &file.bytes)?;
    }
    Ok(files)
}

fn clock_of(alloc: Global, last: u64) -> Result<ListClock, AllocError> {
    let mut readings = vec![in alloc; 0]?;
    readings.push(400)?;
    readings.push(last)?;
    Ok(ListClock::new(readings))
}

fn sink_of(alloc: Global, cut: &[u64]) -> Result<MemSink, AllocError> {
    MemSink::new(alloc, 2000, Vec::from_slice(alloc, cut)?)
}

// The end of a run under a clock that goes on.
fn run_timed<H: Threads + Wait + SystemClock + Sync + Alloc<A = Global>>(
    rt: &H,
    scene: &Scene,
    ran: &mut Ran,
    last: u64,
) -> Result<Ended, AllocError> {
    let clock = clock_of(rt.alloc(), last)?;
    let (words, scripts) = (&scene.words, &scene.scripts);
    run_into(rt, &mut ran.files, words, &mut ran.printed, scripts, &clock)
}

// Runs a scene over its files and output.
fn run_over<H: Threads + Wait + SystemClock + Sync + Alloc<A = Global>>(
    rt: &H,
    scene: &Scene,
    ran: &mut Ran,
) -> Result<(), AllocError> {
    let (words, scripts, clock) = (&scene.words, &scene.scripts, StillClock(0));
    ran.ended = match scene.last {
        Some(last) => run_timed(rt, scene, ran, last)?,
        None => run_into(rt, &mut ran.files, words, &mut ran.printed, scripts, &clock)?,
    };
    Ok(())
}

/// Runs a scene. The sink has room for 2,000 bytes.
pub fn run<H: Threads + Wait + SystemClock + Sync + Alloc<A = Global>>(
    rt: &H,
    scene: &Scene,
) -> Result<Ran, Fail> {
    let files = stored(rt.alloc(), scene)?;
    let printed = sink_of(rt.alloc(), &scene.cut)?;
    let ended = Ended {
        rc: 0,
        starts: Vec::new(rt.alloc()),
    };
    let mut ran = Ran {
        ended,
        printed,
        files,
    };
    run_over(rt, scene, &mut ran)?;
    Ok(ran)
}

/// Whether a run of the scene printed and left what it must, and with its exit status.
pub fn is_as_told(scene: &Scene, ran: &Ran) -> bool {
    for file in &scene.left {
        if ran.files.content(&file.path) != Some(file.bytes.as_slice()) {
            return false;
        }
    }
    for path in &scene.missing {
        if ran.files.content(path).is_some() {
            return false;
        }
    }
    for start in &scene.starts {
        if !ran.ended.starts.contains(start) {
            return false;
        }
    }
    ran.ended.rc == scene.rc && ran.printed.bytes() == scene.printed.as_slice()
}

/// The first of the scenes between empty lines that can't be read or isn't as told. Each begins with the lines of the head.
pub fn first_wrong<'a, H: Threads + Wait + SystemClock + Sync + Alloc<A = Global>>(
    rt: &H,
    names: &[Named],
    head: &str,
    scenes: &'a str,
) -> Result<Option<&'a str>, Fail> {
    for text in scenes.split("\n\n") {
        if !is_right(rt, names, head, text)? {
            return Ok(Some(text));
        }
    }
    Ok(None)
}

fn is_right<H: Threads + Wait + SystemClock + Sync + Alloc<A = Global>>(
    rt: &H,
    names: &[Named],
    head: &str,
    text: &str,
) -> Result<bool, Fail> {
    match read_scene(rt.alloc(), names, head, text)? {
        Some(scene) => Ok(is_as_told(&scene, &run(rt, &scene)?)),
        None => Ok(false),
    }
}
