// Words that are asked, and words that are refused.

use cert_judge::{Kind, StreamKind};
use run_scenes::owned;
use sby_terms::Mode;
use sby_words::{Asked, JudgeWords, TaskWords, asked_of, stream_kind};
use std::alloc::{AllocError, Global};
use std::test::Fail;

// Lines of words; the first has none.
const REFUSED: &str = "
.sby
--help
-h
--gen 1
--gen 10001
--gen 2 3
--dumptasks
--dumptasks t.sby a
-d w --dumptasks t.sby
-d a -d b t.sby
-j
t.sby -j
-j 2
-j 0 t.sby
-j 65 t.sby
-j x t.sby
-j 01 t.sby
-j +1 t.sby
-j -1 t.sby
-j  t.sby
-j 4294967297 t.sby
-j 2 -j 2 t.sby
-j 2 --gen 5
-j 2 --judge t.il bmc 1
-j 2 --dumptasks t.sby
--judge --gen t.il bmc 1
--judge t.il live 1
--judge t.il bmc
--judge t.il bmc 0
--judge t.il bmc 01
--judge t.il bmc +1
--judge t.il bmc 1x
--judge t.il bmc 100001
--judge .il bmc 1
-d out --judge .rtlil bmc 1
-d  --judge t.il bmc 1
--judge --judge t.il bmc 1
--judge t.il bmc 1 -d
--judge t.il bmc 1 -x";

#[test]
fn other_words_are_refused(rt: HostRuntime) -> Result<(), Fail> {
    for line in REFUSED.split('\n') {
        let words = owned(rt.alloc(), line)?;
        assert!(rt; asked_of(rt.alloc(), &words)?.is_none(), "{line}");
    }
    Ok(())
}

// Words, and after a colon the folder, the design, the mode, the depth and the streams that they ask for.
const ASKED: &str = "--judge t.il bmc 1 : t t.il bmc 1
--judge t.il prove 1 : t t.il prove 1
--judge t.il cover 1 : t t.il cover 1
-d out --judge a/b.il bmc 3 x y : out a/b.il bmc 3 x y
a/b.rtlil -f bmc --judge 100000 x -d o : o a/b.rtlil bmc 100000 x
--judge a/b.rtlil bmc 20 t.drup : a/b a/b.rtlil bmc 20 t.drup
--judge t.il prove 2 t.wit s0 : t t.il prove 2 t.wit s0
--judge t.il prove-inv 1 s0 t.inv : t t.il prove-inv 1 s0 t.inv
--judge -fdo t bmc 1 : o t bmc 1
--judge -- t.il.il bmc 7 : t.il t.il.il bmc 7";

fn word_of(mode: Mode) -> &'static str {
    match mode {
        Mode::Bmc => "bmc",
        Mode::Prove => "prove",
        Mode::ProveInv => "prove-inv",
        Mode::Cover => "cover",
    }
}

fn told(alloc: Global, asked: &JudgeWords) -> Result<String, AllocError> {
    let (folder, design) = (asked.folder.as_str(), asked.design.as_str());
    let (mode, depth) = (word_of(asked.mode), asked.depth);
    let mut text = format!(in alloc; "{folder} {design} {mode} {depth}")?;
    for stream in &asked.streams {
        text.push_str(" ")?;
        text.push_str(stream.as_str())?;
    }
    Ok(text)
}

fn told_run(alloc: Global, asked: &TaskWords) -> Result<String, AllocError> {
    let mut text = match asked.jobs {
        Some(jobs) => format!(in alloc; "{jobs}")?,
        None => String::from_str(alloc, "-")?,
    };
    for part in [
        match &asked.directory {
            Some(directory) => directory.as_str(),
            None => "-",
        },
        asked.file.as_str(),
    ] {
        text.push_str(" ")?;
        text.push_str(part)?;
    }
    for name in &asked.names {
        text.push_str(" ")?;
        text.push_str(name.as_str())?;
    }
    Ok(text)
}

// Whether the words of a line ask for what stands after its colon.
fn is_asked(alloc: Global, line: &str) -> Result<bool, AllocError> {
    let Some((words, want)) = line.split_once(" : ") else {
        return Ok(false);
    };
    match asked_of(alloc, &owned(alloc, words)?)? {
        Some(Asked::Judge(asked)) => Ok(told(alloc, &asked)?.as_str() == want),
        Some(Asked::Tasks(asked)) => Ok(told_run(alloc, &asked)?.as_str() == want),
        Some(Asked::Names(_) | Asked::Gen(_)) | None => Ok(false),
    }
}

#[test]
fn judged_designs_are_asked(rt: HostRuntime) -> Result<(), Fail> {
    for line in ASKED.split('\n') {
        assert!(rt; is_asked(rt.alloc(), line)?, "{line}");
    }
    Ok(())
}

// Words, and after a colon M or `-`, DIR or `-`, the task file and the tasks that they ask for.
const RUN: &str = "t.sby : - - t.sby
-d out t.sby a b : - out t.sby a b
-j 1 t.sby : 1 - t.sby
-j 64 t.sby a b : 64 - t.sby a b
-f -j 2 -d out a/t.sby : 2 out a/t.sby
-d out t.sby a -j 8 : 8 out t.sby a
-fj10 t : 10 - t
-j 3 -- -j : 3 - -j";

#[test]
fn runs_are_asked(rt: HostRuntime) -> Result<(), Fail> {
    for line in RUN.split('\n') {
        assert!(rt; is_asked(rt.alloc(), line)?, "{line}");
    }
    Ok(())
}

#[test]
fn streams_are_of_the_kinds_of_their_names(rt: HostRuntime) -> Result<(), Fail> {
    for (name, kind) in [
        ("t.lrat", StreamKind::Lrat),
        ("a/t.proof", StreamKind::Proof),
        (".proofb", StreamKind::ProofBinary),
        ("t.drup", StreamKind::Drup),
        ("t.proofb.gz", StreamKind::Drup),
        ("lrat", StreamKind::Drup),
        ("", StreamKind::Drup),
    ] {
        assert_eq!(rt; stream_kind(name), Kind::Certificate(kind), "{name}");
    }
    assert_eq!(rt; stream_kind("a/t.wit"), Kind::Witness);
    assert_eq!(rt; stream_kind("a/t.inv"), Kind::Invariant);
    Ok(())
}
