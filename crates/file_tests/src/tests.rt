// Task files, whole and at fault.

use sby_file::{SbyFault, SbyKind, read};
use sby_task::{TaskFault, TaskKind, expand};
use sby_terms::{Mode, Span, Status};
use std::process::Abort;
use std::test::Fail;

const TWO: &str =
    "[tasks]\na quick\nb\n[options]\nmode bmc\nquick: depth 1\n~a: depth 3\nb: expect fail\n[engines]\nsat\n[script]\nread_rtlil t.il\n[files]\nt.il\n";

// A file with CRLF ends, in which a design stands.
const WINDOWS: &str =
    "\t[options] # any\r\nmode bmc # note\r\n\r\n[script]\r\nread_rtlil a#b.il\r\n[file a#b.il]\r\n # kept\r\n[engines]\r\nsat";

#[test]
fn files_are_read(rt: HostRuntime) -> Result<(), Fail> {
    let blocks = "[engines]\n~a b:\nsat\nb: sat --conflicts 3\n--\n[tasks]\na b\n";
    for (text, count) in [(TWO, 2), (WINDOWS, 0), (blocks, 1), ("", 0), ("#\n \n", 0)] {
        match read(rt.alloc(), text.as_bytes())? {
            Ok(config) => assert_eq!(rt; config.tasks().len(), count, "{text}"),
            Err(fault) => panic!(rt; "{fault}: {text}"),
        }
    }
    Ok(())
}

#[test]
fn the_first_fault_is_named(rt: HostRuntime) -> Result<(), Fail> {
    for (text, line, kind) in [
        (b"[tasks]\n\xff\n".as_slice(), 2, SbyKind::NotText),
        (b"# a\nmode bmc\n[options]\n", 2, SbyKind::StrayLine),
        (b"[options]\n--\n", 2, SbyKind::StrayLine),
        (
            b"[tasks]\na\n[options]\na:\na:\n--\n",
            5,
            SbyKind::StrayLine,
        ),
        (
            b"[tasks]\na\n[options]\na:\nz: depth 1\n",
            4,
            SbyKind::StrayLine,
        ),
        (b"[tasks]\na-b\n", 2, SbyKind::StrayLine),
        (b"[options]\n[file]\n", 2, SbyKind::UnknownSection),
        (b"[files]\n[ files ]\n", 2, SbyKind::DoubleSection),
        (b"[tasks]\na\nb\na\n", 4, SbyKind::DoubleTask),
        (b"[file a]\n [file a]\n[file a]\n", 3, SbyKind::DoubleFile),
        (b"[options]\na: depth 1\n", 2, SbyKind::PrefixWithoutTasks),
        (
            b"[options]\n~z: depth 1\n[tasks]\na b\n",
            2,
            SbyKind::UnknownTask,
        ),
    ] {
        match read(rt.alloc(), text)? {
            Ok(_) => panic!(rt; "{text:?}"),
            Err(fault) => assert_eq!(rt; fault, SbyFault { line, kind }, "{text:?}"),
        }
    }
    Ok(())
}

#[test]
fn tasks_are_expanded(rt: HostRuntime) -> Result<(), Fail> {
    let Ok(config) = read(rt.alloc(), TWO.as_bytes())? else {
        panic!(rt; "two tasks");
    };
    for (name, depth, expected) in [("a", 1, Status::Pass), ("b", 3, Status::Fail)] {
        match expand(rt.alloc(), &config, Some(name))? {
            Err(fault) => panic!(rt; "{fault}"),
            Ok(task) => {
                assert_eq!(rt; task.name.as_str(), name);
                assert_eq!(rt; task.mode, Mode::Bmc);
                assert_eq!(rt; task.span, Span::whole(depth));
                assert_eq!(rt; task.expect.statuses().len(), 1);
                assert!(rt; task.expect.statuses().contains(&expected));
                assert_eq!(rt; task.engines.as_slice().len(), 1);
                assert_eq!(rt; task.design_path.as_str(), "t.il");
                assert!(rt; task.design_bytes.is_none() && task.timeout.is_none() && !task.wait);
            }
        }
    }
    Ok(())
}

// A file without tasks, of which these lines stand first.
const REST: &str =
    "[engines]\nsat --conflicts 1000000000\ndrup solver -q\nbtor pono\n[script]\nread_rtlil t.il\n[files]\nd/t.il\n";

#[test]
fn a_design_may_stand_in_the_file(rt: HostRuntime) -> Result<(), Fail> {
    let Ok(config) = read(rt.alloc(), WINDOWS.as_bytes())? else {
        panic!(rt; "no tasks");
    };
    match expand(rt.alloc(), &config, None)? {
        Err(fault) => panic!(rt; "{fault}"),
        Ok(task) => {
            assert_eq!(rt; task.mode, Mode::Bmc);
            assert_eq!(rt; task.span, Span::whole(20));
            assert_eq!(rt; task.design_path.as_str(), "a#b.il");
            match &task.design_bytes {
                None => panic!(rt; "no design"),
                Some(bytes) => assert!(rt; bytes.as_slice() == b" # kept\r\n".as_slice()),
            }
        }
    }
    Ok(())
}

#[test]
fn the_first_fault_of_an_option_is_named(rt: HostRuntime) -> Result<(), Fail> {
    for (options, line, kind) in [
        ("", 0, None),
        (
            "depth 100000 # note\ntimeout 1000000\nexpect pass, FAIL\nwait on\nmulticlock off\n",
            0,
            None,
        ),
        ("width 3\n", 3, Some(TaskKind::UnknownOption)),
        ("by invariant\n", 0, None),
        (
            "by invariant\nby invariant\n",
            4,
            Some(TaskKind::DoubleOption),
        ),
        ("by magic\n", 3, Some(TaskKind::BadValue)),
        ("depth 1\ndepth 2\n", 4, Some(TaskKind::DoubleOption)),
        ("depth 100001\n", 3, Some(TaskKind::BadValue)),
        ("depth 0\n", 3, Some(TaskKind::BadValue)),
        ("timeout 1000001\n", 3, Some(TaskKind::BadValue)),
        ("expect pass fail\n", 3, Some(TaskKind::BadValue)),
        ("expect pass,\n", 3, Some(TaskKind::BadValue)),
        ("multiclock on\n", 3, Some(TaskKind::BadValue)),
        ("skip 0\n", 0, Some(TaskKind::Slices)),
        ("stride 1\n", 0, Some(TaskKind::Slices)),
        ("[engines x\n", 3, Some(TaskKind::UnknownOption)),
    ] {
        let text = format!(in rt.alloc(); "[options]\nmode prove\n{options}{REST}")?;
        expands_to(&rt, text.as_str(), line, kind)?;
    }
    Ok(())
}

#[test]
fn the_first_fault_of_slices_is_named(rt: HostRuntime) -> Result<(), Fail> {
    for (options, line, kind) in [
        ("depth 5\nskip 2\nstride 2\n", 0, None),
        ("depth 6\nskip 4\n", 0, None),
        ("depth 4\nskip 4\n", 0, Some(TaskKind::Slices)),
        ("by induction\n", 3, Some(TaskKind::BadValue)),
        ("skip 0\nstride 100000\n", 0, None),
        ("skip 99999\n", 0, Some(TaskKind::Slices)),
        ("skip 99999\ndepth 100000\n", 0, None),
        ("skip 100000\n", 3, Some(TaskKind::BadValue)),
        ("skip 00\n", 3, Some(TaskKind::BadValue)),
        ("skip 1\nskip 1\n", 4, Some(TaskKind::DoubleOption)),
        ("stride 0\n", 3, Some(TaskKind::BadValue)),
        ("stride 100001\n", 3, Some(TaskKind::BadValue)),
        ("depth 1000\nstride 1\n", 0, None),
        ("depth 1001\nstride 1\n", 0, Some(TaskKind::Slices)),
        ("depth 100000\nskip 1\nstride 100\n", 0, None),
    ] {
        let text = format!(in rt.alloc(); "[options]\nmode bmc\n{options}{REST}")?;
        expands_to(&rt, text.as_str(), line, kind)?;
    }
    Ok(())
}

#[test]
fn the_first_fault_of_an_engine_is_named(rt: HostRuntime) -> Result<(), Fail> {
    for (engine, kind) in [
        ("abc pdr", Some(TaskKind::LeftOutEngine)),
        ("z3", Some(TaskKind::UnknownEngine)),
        ("drup", Some(TaskKind::BadValue)),
        ("inv", Some(TaskKind::BadValue)),
        ("inv finder -v", None),
        ("sat --conflicts 1000000001", Some(TaskKind::BadValue)),
        ("lrat", Some(TaskKind::BadValue)),
        ("lrat solver -q", None),
        ("proof", Some(TaskKind::BadValue)),
        ("proof solver {cnf} {proof}", None),
        ("proof solver {cnf} {cnf} {proof}", Some(TaskKind::Marks)),
        ("proof solver {cnf}", Some(TaskKind::Marks)),
        ("proofb", Some(TaskKind::BadValue)),
        ("proofb sh{cnf} -o{proof}.out", None),
        ("proofb {proof}{cnf}", None),
        ("proofb solver {proof}", Some(TaskKind::Marks)),
        ("proofb solver {cnf} a{proof}{proof}", Some(TaskKind::Marks)),
        ("proofb solver { cnf } {proof}", Some(TaskKind::Marks)),
        ("net host:1", None),
        ("net host:1 --conflicts 7", None),
        ("net [::1]:7000", None),
        ("net", Some(TaskKind::BadValue)),
        ("net host", Some(TaskKind::BadValue)),
        ("net :1", Some(TaskKind::BadValue)),
        ("net host:0", Some(TaskKind::BadValue)),
        ("net host:65536", Some(TaskKind::BadValue)),
        ("net host:1 7", Some(TaskKind::BadValue)),
        ("net host:1 --conflicts", Some(TaskKind::BadValue)),
        ("net host:1 --conflicts 0", Some(TaskKind::BadValue)),
        (
            "net host:1 --conflicts 1000000001",
            Some(TaskKind::BadValue),
        ),
    ] {
        let text = format!(in rt.alloc(); "[engines]\n{engine}\n")?;
        let (line, first) = match kind {
            None => (0, TaskKind::NoMode),
            Some(kind) => (2, kind),
        };
        expands_to(&rt, text.as_str(), line, Some(first))?;
    }
    Ok(())
}

#[test]
fn the_first_fault_of_a_task_is_named(rt: HostRuntime) -> Result<(), Fail> {
    for (text, line, kind) in [
        ("", 0, TaskKind::NoMode),
        ("[options]\nmode cover\n", 0, TaskKind::NoEngine),
        ("[options]\nmode bmc\n[engines]\nsat\n", 0, TaskKind::Script),
        ("[script]\nprep\n", 2, TaskKind::Script),
        (
            "[script]\nread_rtlil a\nread_rtlil a\n[files]\na\n",
            3,
            TaskKind::Script,
        ),
        ("[script]\nread_rtlil a\n", 2, TaskKind::MissingFile),
        ("[files]\na b c\n", 2, TaskKind::BadValue),
        ("[tasks]\na\n", 0, TaskKind::UnknownTask),
    ] {
        expands_to(&rt, text, line, Some(kind))?;
    }
    Ok(())
}

// The nameless task of this file is refused there, or not at all.
fn expands_to(
    rt: &(impl Abort + AllocGlobal),
    text: &str,
    line: usize,
    kind: Option<TaskKind>,
) -> Result<(), Fail> {
    let Ok(config) = read(rt.alloc(), text.as_bytes())? else {
        panic!(rt; "{text}");
    };
    match expand(rt.alloc(), &config, None)? {
        Ok(_) => assert_eq!(rt; kind, None, "{text}"),
        Err(fault) => {
            assert_eq!(rt; Some(fault.kind), kind, "{text}");
            assert_eq!(rt; fault.line, line, "{text}");
        }
    }
    Ok(())
}
