// Many lanes over long streams.

use super::tests::{FREE, Kind, TURNS, Terms, problem_of, raced, script_of};
use sby_edge::{Script, Scripted};
use sby_terms::Verdict;
use std::alloc::{AllocError, Global};
use std::test::Fail;

// A certificate after a megabyte of blank lines.
fn long_script(alloc: Global) -> Result<Script, AllocError> {
    let mut bytes = vec![in alloc; b'\n'; 1 << 20]?;
    bytes.extend_from_slice(b"0\n")?;
    Ok(Script {
        bytes,
        ..script_of(alloc, "")?
    })
}

#[test]
fn all_lanes_end_and_are_reaped(rt: HostRuntime) -> Result<(), Fail> {
    let problem = problem_of(rt.alloc(), TURNS, 1)?;
    let script = long_script(rt.alloc())?;
    let scripts = Vec::<Scripted>::new(rt.alloc());
    let terms = Terms { wait: true, ..FREE };
    let course = raced(
        &rt,
        rt.alloc(),
        &problem,
        Kind::Sat,
        64,
        terms,
        &scripts,
        &script,
    )?;
    assert_eq!(rt; course.finders, 64);
    assert_eq!(rt; course.verdict, Some(Verdict::Pass));
    Ok(())
}
