// Runs of wires alone, written and read.

ghost use Rattle.std.specs.Prelude.{◌≤◌};
ghost use Rattle.design_meaning.specs.Runs.{IsRunOf, shown_of};

use crate::tests::flat_of;
use design_check::flat::Flat;
use design_meaning::run::{Cycle, Row, Run};
use design_trace::{VcdText, Waveform, cycle_text, read_text, text};
use std::alloc::{AllocError, Global};
use std::test::Fail;

const WIRES: &str = r"module \t wire \clk wire \q wire \d end";

// A run of two cycles of these wires as a trace file, and as a text.
const CHANGES: &str =
    "$scope module t $end\n$var wire 1 w0 clk $end\n$var wire 1 w1 q $end\n$var wire 1 w2 d $end\n\
$upscope $end\n$enddefinitions $end\n#0\n0w0\n0w1\n1w2\n#1\n0w0\n1w1\n0w2\n#2\n";

const TRACE: &str = "cycle 0\n\\clk 0\n\\q 0\n\\d 1\ncycle 1\n\\clk 0\n\\q 1\n\\d 0\n";

const ROWS: [[bool; 3]; 2] = [[false, false, true], [false, true, false]];

fn cycle_of(alloc: Global, bits: &[bool]) -> Result<Cycle, AllocError> {
    Ok(Cycle::new(
        Row::new(Vec::from_slice(alloc, bits)?),
        Row::new(Vec::new(alloc)),
        Row::new(Vec::new(alloc)),
    ))
}

fn run_of(alloc: Global, rows: &[[bool; 3]]) -> Result<Run, Fail> {
    let mut run = Run::new(alloc);
    for row in rows {
        run.push(cycle_of(alloc, row)?)?;
    }
    Ok(run)
}

// What the wires of a run have.
#[derive(Drop)]
struct Wires<'a> {
    run: &'a Run,
}

impl<'a> Waveform for Wires<'a> {
    ghost rows = { λ w. shown_of w.run.now };

    #[tactic(auto, using(design_trace::proofs::Lines::shown_length))]
    fn cycles(&self) -> usize {
        self.run.cycles().len()
    }

    #[tactic(auto, using(design_trace::proofs::Lines::shown_length, crate::proofs::Shown::shown_row))]
    fn bit(&self, cycle: usize, place: u32) -> bool {
        self.run.cycles()[cycle].wires()[place as usize]
    }
}

// The trace file of a run, got by pieces of this many bytes.
#[tactic(auto, using(design_trace::proofs::Lines::shown_fits))]
fn trace_file(alloc: Global, flat: &Flat, run: &Run, most: usize) -> Result<Vec<u8>, AllocError>
    requires run { IsRunOf flat.now run.now }
    requires most { most ≤ 64 }
{
    let mut text = VcdText::new(flat, Wires { run });
    let mut buffer = [0u8; 64];
    let mut bytes = Vec::new(alloc);
    for _ in 0..1000 {
        let count = text.next(&mut buffer[..most]);
        bytes.extend_from_slice(&buffer[..count])?;
    }
    Ok(bytes)
}

// Whether the trace file of a run is this one, by pieces of each length.
fn is_trace_file(alloc: Global, flat: &Flat, run: &Run, want: &str) -> Result<bool, AllocError>
    requires { IsRunOf flat.now run.now }
{
    for most in 1..65 {
        if trace_file(alloc, flat, run, most)?.as_slice() != want.as_bytes() {
            return Ok(false);
        }
    }
    Ok(true)
}

fn is_written(alloc: Global, flat: &Flat, run: &Run) -> Result<bool, AllocError> {
    Ok(
        flat.fits(run)
            && text(alloc, flat, run)?.as_slice() == TRACE.as_bytes()
            && is_trace_file(alloc, flat, run, CHANGES)?,
    )
}

// Whether these rows are read from the text.
fn is_read(alloc: Global, flat: &Flat, rows: &[[bool; 3]]) -> Result<bool, AllocError> {
    let Ok(shown) = read_text(alloc, flat, TRACE.as_bytes())? else {
        return Ok(false);
    };
    let shown = shown.rows();
    Ok(
        shown.len() == rows.len()
            && shown
                .iter()
                .zip(rows)
                .all(|(row, want)| row.as_slice() == want.as_slice()),
    )
}

#[test]
fn a_run_is_written_and_read(rt: HostRuntime) -> Result<(), Fail> {
    let flat = flat_of(rt.alloc(), WIRES)?;
    let run = run_of(rt.alloc(), &ROWS)?;
    assert!(rt; is_written(rt.alloc(), &flat, &run)?);
    assert!(rt; is_read(rt.alloc(), &flat, &ROWS)?);
    Ok(())
}

// A run of one cycle of a wire of three bits and one of one as a trace file.
const WIDE_CHANGES: &str =
    "$scope module t $end\n$var wire 3 w0 c $end\n$var wire 1 w1 d $end\n$upscope $end\n$enddefinitions $end\n\
#0\nb011 w0\n1w1\n#1\n";

// Whether the run's text and its trace file are these.
fn is_wide_written(alloc: Global, flat: &Flat, run: &Run) -> Result<bool, AllocError> {
    let [cycle] = run.cycles() else {
        return Ok(false);
    };
    Ok(
        flat.fits(run)
            && cycle_text(alloc, flat, cycle, 0)?.as_slice()
                == b"cycle 0\n\\c 011\n\\d 1\n".as_slice()
            && is_trace_file(alloc, flat, run, WIDE_CHANGES)?,
    )
}

#[test]
fn bits_are_written_highest_first(rt: HostRuntime) -> Result<(), Fail> {
    let flat = flat_of(rt.alloc(), r"module \t wire width 3 \c wire \d end")?;
    let mut run = Run::new(rt.alloc());
    run.push(cycle_of(rt.alloc(), &[true, true, false, true])?)?;
    assert!(rt; is_wide_written(rt.alloc(), &flat, &run)?);
    Ok(())
}

// The byte at which a text of these wires has a fault.
fn fault_of(alloc: Global, flat: &Flat, text: &str) -> Result<Option<u64>, AllocError> {
    match read_text(alloc, flat, text.as_bytes())? {
        Ok(_) => Ok(None),
        Err(fault) => Ok(Some(fault.byte)),
    }
}

#[test]
fn other_bytes_are_faults(rt: HostRuntime) -> Result<(), Fail> {
    let flat = flat_of(rt.alloc(), WIRES)?;
    for (text, byte) in [
        ("", 0),
        (
            "cycle 0\n\\clk 0\n\\q 0\n\\d 1\ncycle 1\n\\clk 0\n\\q 1\n\\d 0",
            49,
        ),
        ("cycle", 5),
        ("cycle 1\n", 6),
        ("cycle 0\n\\clk 2\n", 13),
        ("cycle 0\n\\clk 00\n", 14),
        ("cycle 0\n\\q 0\n", 9),
        (
            "cycle 0\n\\clk 0\n\\q 0\n\\d 1\ncycle 1\n\\clk 0\n\\q 1\n\\d 0\ncycle 3\n",
            56,
        ),
    ] {
        assert_eq!(rt; fault_of(rt.alloc(), &flat, text)?, Some(byte), "{text}");
    }
    Ok(())
}
