// What is read of texts.

use crate::tests::designs::{BITS, FORMAL, SHIFTER, SUB};
use design_core::design::Design;
use design_reader::read;
use std::test::*;

/// Texts, and what is read from them: how many wires, wire bits, cells and connects, and from which bits the last connect
/// drives, lowest first; or the byte and the kind of the refusal. The counts of the long ones are those that Yosys prints.
const TEXTS: [(&str, &str); 22] = [
    (
        r"module \t wire width 2 \a wire width 3 \b connect { \a \b } { \a [0] 1'x \b } end",
        "2 wires, 5 bits, 0 cells, 1 connects",
    ),
    (
        r"module \t wire width 2 \a connect \a 2's1 end",
        "1 wires, 2 bits, 0 cells, 1 connects",
    ),
    (BITS, "11 wires, 43 bits, 7 cells, 2 connects"),
    (SHIFTER, "11 wires, 48 bits, 8 cells, 0 connects"),
    (FORMAL, "15 wires, 33 bits, 16 cells, 0 connects"),
    (SUB, "19 wires, 96 bits, 12 cells, 6 connects"),
    ("", "byte 0: no module"),
    ("autoidx", "byte 7: no module"),
    (r"module \t", "byte 9: syntax"),
    ("module \\t \"", "byte 10: syntax"),
    (r"module \t end module", "byte 14: several modules"),
    (r"module \t module", "byte 10: several modules"),
    (r"module \t cell $not \n module", "byte 23: several modules"),
    (r"module \t wire width 0 \w", "byte 21: left out"),
    (r"module \t process", "byte 10: left out"),
    (r"module \t parameter signed \P 1 end", "byte 20: syntax"),
    (
        r"module \t wire \a wire \a",
        "byte 23: name is there already",
    ),
    (
        r"module \t wire \a connect \a \nowhere",
        "byte 29: wire is not declared",
    ),
    (
        r"module \t wire \a connect \a [1]",
        "byte 29: index is past the signal",
    ),
    (r"module \t wire \a connect \a 2'101", "byte 29: syntax"),
    (r"module \t wire width 1048577 \a", "byte 21: limit"),
    (r"module \t end", "0 wires, 0 bits, 0 cells, 0 connects"),
];

fn described(rt: &HostRuntime, design: &Design) -> Result<String, Fail> {
    let wires = design.wires().len();
    let bits = design.bits();
    let cells = design.cells().len();
    let connects = design.connects().len();
    Ok(format!(in rt.alloc(); "{wires} wires, {bits} bits, {cells} cells, {connects} connects")?)
}

fn answered(rt: &HostRuntime, text: &[u8]) -> Result<String, Fail> {
    match read(rt.alloc(), text)? {
        Ok(design) => described(rt, &design),
        Err(fault) => Ok(format!(in rt.alloc(); "{fault}")?),
    }
}

#[test]
fn texts(rt: HostRuntime) -> Result<(), Fail> {
    for (text, answer) in TEXTS {
        assert_eq!(rt; answered(&rt, text.as_bytes())?.as_str(), answer);
    }
    let bytes = [b'm', b'o', b'd', b'u', b'l', b'e', b' ', b'\\', 0xff];
    assert_eq!(rt;
        answered(&rt, &bytes)?.as_str(),
        "byte 7: name is not UTF-8"
    );
    Ok(())
}
