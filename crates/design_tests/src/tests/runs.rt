// A run of one cycle, made and read back.

use design_meaning::run::{Cycle, Row, Run, Shown};
use std::alloc::{AllocError, Global};
use std::test::Fail;

fn row(alloc: Global, bits: &[bool]) -> Result<Row, AllocError> {
    Ok(Row::new(Vec::from_slice(alloc, bits)?))
}

fn cycle(alloc: Global) -> Result<Cycle, AllocError> {
    let wires = row(alloc, &[true, false])?;
    let free = row(alloc, &[true])?;
    Ok(Cycle::new(wires, free, row(alloc, &[false, false, true])?))
}

fn is_made(cycle: &Cycle) -> bool {
    cycle.wires() == [true, false].as_slice()
        && cycle.free() == [true].as_slice()
        && cycle.kept() == [false, false, true].as_slice()
}

#[test]
fn run_is_as_made(rt: HostRuntime) -> Result<(), Fail> {
    let mut run = Run::new(rt.alloc());
    run.push(cycle(rt.alloc())?)?;
    assert!(rt; run.cycles().len() == 1 && run.cycles().iter().all(is_made));
    let mut rows = Vec::new(rt.alloc());
    rows.push(row(rt.alloc(), &[true])?)?;
    assert!(rt; Shown::new(rows).rows().len() == 1, "other rows");
    Ok(())
}
