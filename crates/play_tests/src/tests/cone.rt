// What stands beside the cone of a design's statements, bit by bit, leaves a job's formula as it is, byte for byte.

use crate::tests::played::flat_of;
use cnf_form::write_dimacs;
use model_cone::asked::Asked;
use net_jobs::encode;
use sby_terms::{JobName, Span};
use std::alloc::Global;
use std::test::Fail;
use task_net::TaskNet;
use word_model::build::build;

// A register that turns over in each cycle, with an assertion on what it takes next.
const WIRES: &str = r"module \t
  wire input 1 \clk
  attribute \init 1'0
  wire \q
  wire \d
";

const CELLS: &str = r"  cell $not $n
    parameter \A_SIGNED 0 parameter \A_WIDTH 1 parameter \Y_WIDTH 1
    connect \A \q connect \Y \d
  end
  cell $dff $r
    parameter \CLK_POLARITY 1'1 parameter \WIDTH 1
    connect \CLK \clk connect \D \d connect \Q \q
  end
  cell $assert \a0 connect \A \d connect \EN 1'1 end
";

// A chain of two registers beside it, after an input of its own.
const CHAIN_WIRES: &str = r"  wire input 2 \zi
  wire \y
  wire \z
";

const CHAIN: &str = r"  cell $dff $ry
    parameter \CLK_POLARITY 1'1 parameter \WIDTH 1
    connect \CLK \clk connect \D \zi connect \Q \y
  end
  cell $dff $rz
    parameter \CLK_POLARITY 1'1 parameter \WIDTH 1
    connect \CLK \clk connect \D \y connect \Q \z
  end
";

const ASSUMED: &str = r"  cell $assume \s0 connect \A \z connect \EN 1'1 end
";

const END: &str = "end\n";

// A sum of four bits, of which the lowest alone is asserted, and a sum of one bit.
const WIDE_SUM: &str = r"module \t
  wire width 4 input 1 \a
  wire width 4 input 2 \b
  wire width 4 \y
  cell $add $s
    parameter \A_SIGNED 0 parameter \B_SIGNED 0
    parameter \A_WIDTH 4 parameter \B_WIDTH 4 parameter \Y_WIDTH 4
    connect \A \a connect \B \b connect \Y \y
  end
  cell $assert \a0 connect \A \y [0] connect \EN 1'1 end
";

const NARROW_SUM: &str = r"module \t
  wire input 1 \a
  wire input 2 \b
  wire \y
  cell $add $s
    parameter \A_SIGNED 0 parameter \B_SIGNED 0
    parameter \A_WIDTH 1 parameter \B_WIDTH 1 parameter \Y_WIDTH 1
    connect \A \a connect \B \b connect \Y \y
  end
  cell $assert \a0 connect \A \y connect \EN 1'1 end
";

// A register of four bits, of which the second alone is asserted, and a register of one bit.
const WIDE_REGISTER: &str = r"module \t
  wire input 1 \clk
  wire width 4 input 2 \a
  attribute \init 4'0010
  wire width 4 \q
  cell $dff $r
    parameter \CLK_POLARITY 1'1 parameter \WIDTH 4
    connect \CLK \clk connect \D \a connect \Q \q
  end
  cell $assert \a0 connect \A \q [1] connect \EN 1'1 end
";

const NARROW_REGISTER: &str = r"module \t
  wire input 1 \clk
  wire input 2 \a
  attribute \init 1'1
  wire \q
  cell $dff $r
    parameter \CLK_POLARITY 1'1 parameter \WIDTH 1
    connect \CLK \clk connect \D \a connect \Q \q
  end
  cell $assert \a0 connect \A \q connect \EN 1'1 end
";

// The text of the formula of Base over two cycles of the design in these parts.
fn base_of(alloc: Global, parts: &[&str]) -> Result<Vec<u8>, Fail> {
    let mut text = String::new(alloc);
    for part in parts {
        text.push_str(part)?;
    }
    let flat = flat_of(alloc, text.as_str())?;
    let model = build(alloc, &flat)?;
    let Ok(net) = TaskNet::new(alloc, &model, Asked::Asserts)? else {
        return Err(Fail::from("too many variables"));
    };
    let Ok(encoded) = encode(alloc, net.net(), JobName::Base(0), Span::whole(2))? else {
        return Err(Fail::from("too many variables"));
    };
    let formula = encoded.formula(alloc)?;
    Ok(write_dimacs(alloc, &formula)?)
}

#[test]
fn only_the_cone_is_encoded(rt: HostRuntime) -> Result<(), Fail> {
    let alloc = rt.alloc();
    let alone = base_of(alloc, &[WIRES, CELLS, END])?;
    let beside = base_of(alloc, &[WIRES, CHAIN_WIRES, CELLS, CHAIN, END])?;
    let assumed = base_of(alloc, &[WIRES, CHAIN_WIRES, CELLS, CHAIN, ASSUMED, END])?;
    assert!(rt; beside == alone);
    assert!(rt; assumed != alone);
    Ok(())
}

#[test]
fn gates_that_no_goal_rests_on_are_left_out(rt: HostRuntime) -> Result<(), Fail> {
    let alloc = rt.alloc();
    let wide = base_of(alloc, &[WIDE_SUM, END])?;
    let narrow = base_of(alloc, &[NARROW_SUM, END])?;
    assert!(rt; wide == narrow);
    Ok(())
}

#[test]
fn bits_of_a_register_that_are_not_asked_are_left_out(rt: HostRuntime) -> Result<(), Fail> {
    let alloc = rt.alloc();
    let wide = base_of(alloc, &[WIDE_REGISTER, END])?;
    let narrow = base_of(alloc, &[NARROW_REGISTER, END])?;
    assert!(rt; wide == narrow);
    Ok(())
}
