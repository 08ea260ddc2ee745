// Designs over each cell that is served. No bit of them is free, so that unit propagation refutes a job, and the stream `0` is a
// certificate, exactly where no assertion breaks within the depth.

use crate::names::NAMES;
use run_scenes::first_wrong;
use std::alloc::{AllocError, Global};
use std::test::Fail;

// A cell on constants whose output is compared with the constant that it is, and then with another.
const SCENES: &str =
    "file t.il module \\t| wire width {w} \\y| wire \\e|{cell} connect \\Y \\y| end| cell $eq \\k| parameter \\A_SIGNED 0| parameter \\B_SIGNED 0| parameter \\A_WIDTH {w}| parameter \\B_WIDTH {w}| parameter \\Y_WIDTH 1| connect \\A \\y| connect \\B {y}| connect \\Y \\e| end| cell $assert \\p| connect \\A \\e| connect \\EN 1'1| end|end|
file s0 0|
words --judge t.il bmc 1 s0
> SBY [t] design: 0 register bits, 1 assert, 0 assume, 0 cover
> SBY [t] base: UNSAT
> SBY [t] DONE (PASS, rc=0)

file t.il module \\t| wire width {w} \\y| wire \\e|{cell} connect \\Y \\y| end| cell $eq \\k| parameter \\A_SIGNED 0| parameter \\B_SIGNED 0| parameter \\A_WIDTH {w}| parameter \\B_WIDTH {w}| parameter \\Y_WIDTH 1| connect \\A \\y| connect \\B {o}| connect \\Y \\e| end| cell $assert \\p| connect \\A \\e| connect \\EN 1'1| end|end|
file s0 0|
words --judge t.il bmc 1 s0
rc 16
> SBY [t] design: 0 register bits, 1 assert, 0 assume, 0 cover
> SBY [t] engine_0 base: certificate NotRup at byte 0
> SBY [t] DONE (ERROR, rc=16)";

const ONE_OPERAND: &str =
    " cell {k} \\c| parameter \\A_SIGNED {s}| parameter \\A_WIDTH {m}| parameter \\Y_WIDTH {w}| connect \\A {a}|";

const TWO_OPERANDS: &str =
    " cell {k} \\c| parameter \\A_SIGNED {s}| parameter \\B_SIGNED {s}| parameter \\A_WIDTH {m}| parameter \\B_WIDTH {n}| parameter \\Y_WIDTH {w}| connect \\A {a}| connect \\B {b}|";

const SELECTED: &str =
    " cell {k} \\c| parameter \\WIDTH {w}| connect \\A {a}| connect \\B {b}| connect \\S {s}|";

// The marks of a row's words: the cell's type, whether it is signed, or its select; A, B and Y, each with its width; and the other constant.
const MARKS: [&str; 9] = [
    "{k}", "{s}", "{a}", "{m}", "{b}", "{n}", "{y}", "{w}", "{o}",
];

const OF_ONE_OPERAND: &str = "$not 0 2'10 2 - - 4'1101 4 4'0001
$not 1 2'10 2 - - 4'0001 4 4'1101";

const OF_TWO_OPERANDS: &str = "$and 0 2'10 2 4'1111 4 4'0010 4 4'1110
$and 1 2'10 2 4'1111 4 4'1110 4 4'0010
$or 0 2'10 2 4'0001 4 4'0011 4 4'1111
$or 1 2'10 2 4'0001 4 4'1111 4 4'0011
$xor 0 2'10 2 4'1100 4 4'1110 4 4'0010
$xor 1 2'10 2 4'1100 4 4'0010 4 4'1110
$xor 0 4'1100 4 4'1010 4 2'10 2 2'01
$eq 0 2'10 2 4'0010 4 3'001 3 3'111
$eq 1 2'10 2 4'0010 4 3'000 3 3'001
$eq 1 2'10 2 4'1110 4 1'1 1 1'0
$eq 0 4'1010 4 4'0010 4 1'0 1 1'1";

const OF_SELECTED: &str = "$mux 1'0 3'001 3 3'110 3 3'001 3 3'110
$mux 1'1 3'001 3 3'110 3 3'110 3 3'001";

// The scenes of a cell with a row's words.
fn filled(alloc: Global, cell: &str, row: &str) -> Result<String, AllocError> {
    let mut text = SCENES.replace(alloc, "{cell}", cell)?;
    for (mark, word) in MARKS.iter().zip(row.split(' ')) {
        text = text.as_str().replace(alloc, *mark, word)?;
    }
    Ok(text)
}

#[test]
fn cells_give_their_rows(rt: HostRuntime) -> Result<(), Fail> {
    for (cell, rows) in [
        (ONE_OPERAND, OF_ONE_OPERAND),
        (TWO_OPERANDS, OF_TWO_OPERANDS),
        (SELECTED, OF_SELECTED),
    ] {
        for row in rows.split('\n') {
            let scenes = filled(rt.alloc(), cell, row)?;
            assert_eq!(rt; first_wrong(&rt, NAMES, "", scenes.as_str())?, None);
        }
    }
    Ok(())
}
