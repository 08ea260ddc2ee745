// Cells and notes at work: what no clause says, that an empty cell is won and that fresh notes find what another thread settled.

ghost use Rattle.std.specs.Prelude.{◌<◌, length};

use crate::tests::settled::Given;
use race_cells::{Cells, Settling};
use sby_terms::JobName;
use std::alloc::{AllocError, Global};
use std::test::Fail;
use std::thread;
use std::thread::Threads;

fn given(by: u32) -> Given {
    let job = JobName::Base(0);
    Given { job, by }
}

// Settles a cell by notes of its own, and answers whether it won, and who is found there.
fn offer(alloc: Global, cells: &Cells<Given>, by: u32) -> Result<(bool, Option<u32>), AllocError>
    requires { 0 < length cells.now }
{
    let mut notes = cells.notes(alloc)?;
    let won = match cells.settle(alloc, 0, given(by), &mut notes)? {
        Settling::Won => true,
        Settling::Lost(_) => false,
    };
    Ok((won, cells.look(0, &mut notes).map(|given| given.by)))
}

#[test]
fn the_first_wins(rt: HostRuntime) -> Result<(), Fail> {
    let alloc = rt.alloc();
    let cells = Cells::new(alloc, 2)?;
    let mut notes = cells.notes(alloc)?;
    assert!(rt; cells.look(1, &mut notes).is_none());
    let first = cells.settle(alloc, 1, given(7), &mut notes)?;
    assert!(rt; matches!(first, Settling::Won));
    let second = cells.settle(alloc, 1, given(8), &mut notes)?;
    assert!(rt; matches!(second, Settling::Lost(Given { by: 8, .. })));
    let mut fresh = cells.notes(alloc)?;
    assert!(rt; matches!(cells.look(1, &mut fresh), Some(Given { by: 7, .. })));
    assert!(rt; cells.look(0, &mut fresh).is_none());
    Ok(())
}

// Two threads settle one cell.
fn race<R: Threads + Sync>(
    rt: &R,
    alloc: Global,
    cells: &Cells<Given>,
) -> Result<[(bool, Option<u32>); 2], AllocError>
    requires { 0 < length cells.now }
{
    let (one, two) = thread::join(
        rt,
        || -> Result<(bool, Option<u32>), AllocError>
            requires { 0 < length cells.now }
        { offer(alloc, cells, 1) },
        || -> Result<(bool, Option<u32>), AllocError>
            requires { 0 < length cells.now }
        { offer(alloc, cells, 2) },
    );
    Ok([one?, two?])
}

#[test]
fn one_of_two_wins(rt: HostRuntime) -> Result<(), Fail> {
    let cells = Cells::new(rt.alloc(), 1)?;
    let [one, two] = race(&rt, rt.alloc(), &cells)?;
    assert!(rt; one.0 != two.0 && one.1 == two.1);
    assert!(rt; one.1 == Some(if one.0 { 1 } else { 2 }));
    Ok(())
}

#[test]
fn notes_are_joined(rt: HostRuntime) -> Result<(), Fail> {
    let alloc = rt.alloc();
    let cells = Cells::new(alloc, 2)?;
    let mut notes = cells.notes(alloc)?;
    let mut other = notes.again(alloc)?;
    cells.settle(alloc, 0, given(1), &mut notes)?;
    cells.settle(alloc, 1, given(2), &mut other)?;
    notes.agree(&mut other);
    notes.join(other);
    assert!(rt; matches!(cells.look(0, &mut notes), Some(Given { by: 1, .. })));
    assert!(rt; matches!(cells.look(1, &mut notes), Some(Given { by: 2, .. })));
    Ok(())
}
