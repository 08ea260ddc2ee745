// Small designs with one register, lowered, and one that has no room for it.

use crate::tests::design_of;
use cell_table::kind::Kind;
use design_core::design::Design;
use design_core::wire::Wire;
use design_lower::lower;
use std::alloc::Global;
use std::test::Fail;

const RESET: &str = r"parameter \ARST_POLARITY 1 parameter \ARST_VALUE 2'x1 connect \ARST \rst [0]";

const ENABLED: &str = r"parameter \ARST_POLARITY 1 parameter \ARST_VALUE 2'x1 connect \ARST \rst [0]
    parameter \EN_POLARITY 1 connect \EN \en [0]";

// A register of two bits with these lines, bit 0 of whose output starts at 1, in a design with one more wire of this name, lowered.
fn lowered(alloc: Global, kind: &str, lines: &str, other: &str) -> Result<Design, Fail> {
    let text = format!(in alloc;
        "module \\t wire width 2 \\clk wire width 2 \\rst wire width 2 \\en wire width 2 \\d
        attribute \\init 2'x1 wire width 2 \\q wire width 2 {other}
        cell {kind} \\r
            parameter \\CLK_POLARITY 1 parameter \\WIDTH 2 connect \\CLK \\clk [0] connect \\D \\d connect \\Q \\q
            {lines}
        end end"
    )?;
    match lower(alloc, &design_of(alloc, text.as_str())?)? {
        Some(low) => Ok(low),
        None => Err(Fail::from("no room")),
    }
}

// Whether a wire is the row that a register keeps: it starts like the output.
fn is_row(wire: &Wire, name: &str) -> bool {
    let [zeros, ones] = wire.inits() else {
        return false;
    };
    wire.name() == name
        && wire.width() == 2
        && zeros.as_slice() == [None, None].as_slice()
        && ones.as_slice() == [Some(true), None].as_slice()
}

// Whether the register is one of this kind, beside a `$mux` and a row of this name.
fn has_row(low: &Design, name: &str, kind: Kind) -> bool {
    let ([.., wire], [register, mux]) = (low.wires(), low.cells()) else {
        return false;
    };
    is_row(wire, name) && register.kind() == kind && mux.kind() == Kind::Mux && low.free() == 1
}

#[test]
fn registers_are_lowered(rt: HostRuntime) -> Result<(), Fail> {
    for (kind, lines, other, name, register) in [
        ("$adff", RESET, "\\o", "$kept_0", Kind::Sdff),
        ("$adffe", ENABLED, "\\o", "$kept_0", Kind::Sdffe),
        ("$adff", RESET, "$kept_0", "$kept_1", Kind::Sdff),
    ] {
        let low = lowered(rt.alloc(), kind, lines, other)?;
        assert!(rt; has_row(&low, name, register), "{kind}");
    }
    Ok(())
}

#[test]
fn others_stay(rt: HostRuntime) -> Result<(), Fail> {
    let low = lowered(rt.alloc(), "$dff", "", "\\o")?;
    let [cell] = low.cells() else {
        return Err(Fail::from("other cells"));
    };
    assert!(rt; cell.kind() == Kind::Dff && cell.name() == "\\r");
    assert!(rt; low.wires().len() == 6 && low.bits() == 12, "other wires");
    Ok(())
}

/// Registers with this many bits together, all of one wire, that the lowered design would be past 2^21 bits.
const MANY: &str = r"module \t wire \c wire width 700000 \q
cell $adff \r parameter \ARST_POLARITY 1 parameter \ARST_VALUE 700000'0 parameter \CLK_POLARITY 1 parameter \WIDTH 700000
connect \ARST \c connect \CLK \c connect \D \q connect \Q \q end
cell $adff \s parameter \ARST_POLARITY 1 parameter \ARST_VALUE 700000'0 parameter \CLK_POLARITY 1 parameter \WIDTH 700000
connect \ARST \c connect \CLK \c connect \D \q connect \Q \q end
end";

#[test]
fn many_bits_have_no_room(rt: HostRuntime) -> Result<(), Fail> {
    let design = design_of(rt.alloc(), MANY)?;
    assert!(rt;
        lower(rt.alloc(), &design)?.is_none(),
        "lowered past the limits"
    );
    Ok(())
}
