// Each fault of a design, the one that is named where there are several, and designs without a fault.

use crate::tests::{checked, flat_of};
use design_check::flat::Flat;
use design_graph::driver::Driver;
use design_meaning::run::{Cycle, Row, Run};
use design_signals::sig_bit::SigBit;
use std::alloc::Global;
use std::test::Fail;

// Two clocks, two start digits, and what cells and connects name.
const WIRES: &str = r"module \t
    wire input 1 \clk
    wire input 2 \ck2
    attribute \init 1'0
    wire \p
    attribute \init 1'1
    wire \q
    wire \x
    wire \y
    wire \z
    wire input 3 width 2 \in
    wire width 200 \v
";

/// The fault and the name of what is at fault, and below them what stands after the wires.
const FAULTS: &str = r"UnknownCell $c
cell $nothing $c end

LeftOut $c
cell $lut $c end

BadParameter $c
cell $mux $c end

BadParameter $c
cell $slice $c
    parameter \OFFSET 200 parameter \A_WIDTH 200 parameter \Y_WIDTH 1
    connect \A \v connect \Y \x
end

PortWidth $c
cell $assume $c end

PortWidth $c
cell $bmux $c
    parameter \WIDTH 1 parameter \S_WIDTH 64
    connect \S \v [63:0] connect \Y \x
end

BadParameter $c
cell $ff $c parameter \WIDTH 4294967295'x connect \D \p connect \Q \x end

BadParameter $c
cell $sdff $c
    parameter \CLK_POLARITY 1 parameter \SRST_POLARITY 1 parameter \SRST_VALUE 4294967295'1 parameter \WIDTH 1
    connect \CLK \clk connect \D \p connect \Q \x connect \SRST \y
end

PortWidth $c
cell $ff $c parameter \WIDTH 4294967295'1 connect \D \in connect \Q \x end

PortWidth \p
connect \x \p
connect \p \in

WidthLimit $c
cell $not $c
    parameter \A_SIGNED 0 parameter \A_WIDTH 4097 parameter \Y_WIDTH 1
    connect \A 4097'1 connect \Y \x
end

WidthLimit $c
cell $neg $c
    parameter \A_SIGNED 0 parameter \A_WIDTH 129 parameter \Y_WIDTH 1
    connect \A \v [128:0] connect \Y \x
end

MixedSign $c
cell $and $c
    parameter \A_SIGNED 1 parameter \A_WIDTH 1 parameter \B_SIGNED 0 parameter \B_WIDTH 1 parameter \Y_WIDTH 1
    connect \A \p connect \B \q connect \Y \x
end

TwoDrivers \y [0]
cell $not $a parameter \A_SIGNED 0 parameter \A_WIDTH 1 parameter \Y_WIDTH 1 connect \A \p connect \Y \y end
cell $not $b parameter \A_SIGNED 0 parameter \A_WIDTH 1 parameter \Y_WIDTH 1 connect \A \q connect \Y \y end
cell $not $l parameter \A_SIGNED 0 parameter \A_WIDTH 1 parameter \Y_WIDTH 1 connect \A \z connect \Y \z end
cell $dff $r parameter \CLK_POLARITY 1'1 parameter \WIDTH 1 connect \D \y connect \CLK \clk connect \Q \p end
cell $dff $s parameter \CLK_POLARITY 1'1 parameter \WIDTH 1 connect \D \y connect \CLK \ck2 connect \Q \q end

TwoDrivers \x [0]
connect \x \p
connect \x \q

TwoDrivers \in [0]
connect \x \p
connect \in \v [1:0]

TwoDrivers \q
connect \x \p
connect 1'1 \q

MultiClock $s
cell $not $a parameter \A_SIGNED 0 parameter \A_WIDTH 1 parameter \Y_WIDTH 1 connect \A \p connect \Y \y end
cell $not $l parameter \A_SIGNED 0 parameter \A_WIDTH 1 parameter \Y_WIDTH 1 connect \A \z connect \Y \z end
cell $dff $r parameter \CLK_POLARITY 1'1 parameter \WIDTH 1 connect \D \y connect \CLK \clk connect \Q \p end
cell $dff $s parameter \CLK_POLARITY 1'1 parameter \WIDTH 1 connect \D \y connect \CLK \ck2 connect \Q \q end

Loop $l
cell $not $a parameter \A_SIGNED 0 parameter \A_WIDTH 1 parameter \Y_WIDTH 1 connect \A \p connect \Y \y end
cell $not $l parameter \A_SIGNED 0 parameter \A_WIDTH 1 parameter \Y_WIDTH 1 connect \A \z connect \Y \z end
cell $dff $r parameter \CLK_POLARITY 1'1 parameter \WIDTH 1 connect \D \y connect \CLK \clk connect \Q \p end
cell $dff $s parameter \CLK_POLARITY 1'1 parameter \WIDTH 1 connect \D \y connect \CLK \clk connect \Q \q end

Loop $c
cell $adff $c
    parameter \ARST_POLARITY 1 parameter \ARST_VALUE 64'0 parameter \CLK_POLARITY 1 parameter \WIDTH 64
    connect \ARST \v [0] connect \CLK \clk connect \D 64'1 connect \Q \v [63:0]
end

Loop $n
cell $not $n parameter \A_SIGNED 0 parameter \A_WIDTH 1 parameter \Y_WIDTH 1 connect \A \x connect \Y \y end
connect { \z \x } { \z \y }

Loop \x
connect { \y \x } { \x \y }

Loop \q
connect \q \x
connect \x \q

InitConflict \x [0]
cell $dff $r parameter \CLK_POLARITY 1'1 parameter \WIDTH 1 connect \D \y connect \CLK \clk connect \Q \x end
connect { \q \p } { \p \x }

InitConflict \p [0]
cell $ff $f parameter \WIDTH 1 connect \D \x connect \Q \p end
cell $not $n parameter \A_SIGNED 0 parameter \A_WIDTH 1 parameter \Y_WIDTH 1 connect \A \p connect \Y \x end
connect \q \p";

fn whole(alloc: Global, text: &str) -> Result<String, Fail> {
    Ok(format!(in alloc; "{WIRES}{text}\nend\n")?)
}

// What the check of a design with these lines answers.
fn answered(alloc: Global, text: &str) -> Result<String, Fail> {
    match checked(alloc, whole(alloc, text)?.as_str())? {
        Ok(_) => Ok(String::new(alloc)),
        Err(fault) => Ok(format!(in alloc; "{:?} {}", fault.kind(), fault.name())?),
    }
}

#[test]
fn refuses_each_fault(rt: HostRuntime) -> Result<(), Fail> {
    for row in FAULTS.split("\n\n") {
        let (fault, text) = row.split_once('\n').unwrap_or((row, ""));
        assert_eq!(rt; answered(rt.alloc(), text)?.as_str(), fault);
    }
    Ok(())
}

// A register after connects whose chain ends at a start digit.
const CHAINED: &str = r"
    cell $dff $r parameter \CLK_POLARITY 1'1 parameter \WIDTH 1 connect \D \y connect \CLK \clk connect \Q \z end
    connect { \q \x } { \z \q }
    cell $not $n parameter \A_SIGNED 0 parameter \A_WIDTH 1 parameter \Y_WIDTH 1 connect \A \x connect \Y \y end
    cell $assert \a0 connect \A \y connect \EN 1'1 end";

// A register with a start digit of its own.
const DIRECT: &str = r"
    cell $ff $f parameter \WIDTH 1 connect \D \x connect \Q \p end
    cell $not $n parameter \A_SIGNED 0 parameter \A_WIDTH 1 parameter \Y_WIDTH 1 connect \A \p connect \Y \x end
    cell $assert \a0 connect \A \p connect \EN 1'1 end";

// A wire's lowest bit starts with this.
fn starts(flat: &Flat, wire: u32, start: bool) -> bool {
    let bit = SigBit::Wire(wire, 0);
    flat.design().declares(bit) && flat.start(bit) == Some(start)
}

#[test]
fn accepts_flat_designs(rt: HostRuntime) -> Result<(), Fail> {
    let flat = flat_of(rt.alloc(), whole(rt.alloc(), CHAINED)?.as_str())?;
    let order = flat.order();
    assert!(rt;
        order.len() == 3 && order[0] == Driver::Connect(0, 1) && order[2] == Driver::Cell(1)
    );
    assert!(rt; starts(&flat, 6, true));
    assert!(rt; breaks_last(rt.alloc(), &flat)?);
    let flat = flat_of(rt.alloc(), whole(rt.alloc(), DIRECT)?.as_str())?;
    assert!(rt; flat.order() == [Driver::Cell(1)].as_slice());
    assert!(rt; starts(&flat, 2, false));
    assert!(rt; breaks_last(rt.alloc(), &flat)?);
    Ok(())
}

// A cycle whose wires all have this bit.
fn cycle_of(alloc: Global, flat: &Flat, bit: bool) -> Result<Cycle, Fail> {
    let wires = vec![in alloc; bit; flat.design().bits() as usize]?;
    Ok(Cycle::new(
        Row::new(wires),
        Row::new(Vec::new(alloc)),
        Row::new(Vec::new(alloc)),
    ))
}

// Whether a run that breaks the assertion in its last cycle alone is found to.
fn breaks_last(alloc: Global, flat: &Flat) -> Result<bool, Fail> {
    let mut run = Run::new(alloc);
    run.push(cycle_of(alloc, flat, true)?)?;
    run.push(cycle_of(alloc, flat, false)?)?;
    Ok(flat.fits(&run) && !run.cycles().is_empty() && flat.broken(&run) == Some(0))
}
