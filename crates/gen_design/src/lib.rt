//! The generated design, a ring of enabled registers, and the task file that runs it.
#![tactic(auto)]

ghost use Rattle.std.specs.Prelude.{◌≡◌, ◌+◌, ◌-◌, ◌%◌, ◌++◌, ◌<◌, ◌≤◌, OnOk, IfOk, string_bytes};
ghost use Rattle.gen_design.specs.Ring.{text_of, wires, register, both, not_both, assertion, cells, design_lines, task_lines};

use std::alloc::{AllocError, Global};

// Appends the wires of register `i`: what it holds, and what is made of it.
fn put_wires(text: &mut String, i: u32) -> Result<(), AllocError>
    ensures { OnOk result (string_bytes text.new ≡ string_bytes text.old ++ text_of (wires i)) }
{
    let start = u32::from(i == 0);
    write!(
        text,
        r"  attribute \init 1'{start}
  wire \q{i}
  wire \y{i}
  wire \ok{i}
"
    )
}

// The register before register `i` of a ring of `n`: a sum of both can need more than 32 bits.
fn register_before(n: u32, i: u32) -> u32
    requires { i < n }
    ensures { result ≡ (i + n - 1) % n }
{
    let before = (u64::from(i) + u64::from(n) - 1) % u64::from(n);
    before as u32
}

// Appends register `i` of a ring of `n`, which takes what the one before it holds.
fn put_register(text: &mut String, n: u32, i: u32) -> Result<(), AllocError>
    requires { i < n }
    ensures { OnOk result (string_bytes text.new ≡ string_bytes text.old ++ text_of (register n i)) }
{
    let before = register_before(n, i);
    write!(
        text,
        r"  cell $dffe $r{i}
    parameter \CLK_POLARITY 1'1
    parameter \EN_POLARITY 1'1
    parameter \WIDTH 1
    connect \CLK \clk
    connect \D \q{before}
    connect \EN \en
    connect \Q \q{i}
  end
"
    )
}

// Appends the gate that sees register `i` and the one after it both at 1.
fn put_both(text: &mut String, n: u32, i: u32) -> Result<(), AllocError>
    requires { i < n }
    ensures { OnOk result (string_bytes text.new ≡ string_bytes text.old ++ text_of (both n i)) }
{
    let after = (i + 1) % n;
    write!(
        text,
        r"  cell $and $c{i}
    parameter \A_SIGNED 0
    parameter \A_WIDTH 1
    parameter \B_SIGNED 0
    parameter \B_WIDTH 1
    parameter \Y_WIDTH 1
    connect \A \q{i}
    connect \B \q{after}
    connect \Y \y{i}
  end
"
    )
}

// Appends the assertion that they aren't both at 1, and its gate.
fn put_assertion(text: &mut String, i: u32) -> Result<(), AllocError>
    ensures { OnOk result (string_bytes text.new ≡ string_bytes text.old ++ text_of (not_both i ++ assertion i)) }
{
    write!(
        text,
        r"  cell $not $n{i}
    parameter \A_SIGNED 0
    parameter \A_WIDTH 1
    parameter \Y_WIDTH 1
    connect \A \y{i}
    connect \Y \ok{i}
  end
  cell $assert \a{i}
    connect \A \ok{i}
    connect \EN 1'1
  end
"
    )
}

// Appends the cells of register `i` of a ring of `n`.
fn put_cells(text: &mut String, n: u32, i: u32) -> Result<(), AllocError>
    requires { i < n }
    ensures { OnOk result (string_bytes text.new ≡ string_bytes text.old ++ text_of (cells n i)) }
{
    put_register(text, n, i)?;
    put_both(text, n, i)?;
    put_assertion(text, i)
}

// Appends the text of a ring of `n`.
fn put_design(text: &mut String, n: u32) -> Result<(), AllocError>
    ensures { OnOk result (string_bytes text.new ≡ string_bytes text.old ++ text_of (design_lines n)) }
{
    text.push_str("module \\gen\n  wire input 1 \\clk\n  wire input 2 \\en\n")?;
    for i in 0..n {
        put_wires(text, i)?;
    }
    for i in 0..n {
        put_cells(text, n, i)?;
    }
    text.push_str("end\n")?;
    Ok(())
}

/// The RTLIL text of the design `\gen`, a ring of `n` enabled registers, `n` from 2 on. One register
/// starts at 1; each assertion says that a register and the next aren't both at 1.
///
/// # Errors
///
/// Only where memory runs out.
pub fn design(alloc: Global, n: u32) -> Result<Vec<u8>, AllocError>
    requires { 2 ≤ n }
    ensures { IfOk result (λ text. text.items ≡ text_of (design_lines n)) }
{
    let mut text = String::new(alloc);
    put_design(&mut text, n)?;
    Ok(text.into_bytes())
}

/// The task file that proves [`design`]`(n)` by k-induction in two lanes, at a depth of 4, `n` from 2 on. It holds
/// the design's text, as the file `gen.il`.
///
/// # Errors
///
/// Only where memory runs out.
pub fn task_file(alloc: Global, n: u32) -> Result<Vec<u8>, AllocError>
    requires { 2 ≤ n }
    ensures { IfOk result (λ text. text.items ≡ text_of (task_lines n)) }
{
    let mut text = String::new(alloc);
    text.push_str(
        r"[options]
mode prove
depth 4
[engines]
sat
sat
[script]
read_rtlil gen.il
[file gen.il]
",
    )?;
    put_design(&mut text, n)?;
    Ok(text.into_bytes())
}
