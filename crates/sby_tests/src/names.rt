// The texts that scenes name.

use run_scenes::Named;
use test_designs::{ASSERT, END, HEAD, NOT, REGISTER, T};

const OPEN_HEAD: &str = "module \\t\n wire input 1 \\clk\n wire \\q\n wire \\d\n";

const TWO: &str =
    " cell $not $m\n parameter \\A_SIGNED 0\n parameter \\A_WIDTH 1\n parameter \\Y_WIDTH 1\n connect \\A \\q\n connect \\Y \\d\n end\n";

const LOOP: &str =
    " cell $not $n\n parameter \\A_SIGNED 0\n parameter \\A_WIDTH 1\n parameter \\Y_WIDTH 1\n connect \\A \\d\n connect \\Y \\d\n end\n";

const NO_WIDTH: &str =
    " cell $not $n\n parameter \\A_SIGNED 0\n parameter \\A_WIDTH 1\n connect \\A \\q\n connect \\Y \\d\n end\n";

const NO_PORT: &str =
    " cell $not $n\n parameter \\A_SIGNED 0\n parameter \\A_WIDTH 1\n parameter \\Y_WIDTH 1\n connect \\A \\q\n end\n";

const NO_TYPE: &str = " cell $nothing $n\n connect \\A \\q\n connect \\Y \\d\n end\n";

const FALLING: &str =
    " cell $dff $s\n parameter \\CLK_POLARITY 1'0\n parameter \\WIDTH 1\n connect \\CLK \\clk\n connect \\D \\q\n connect \\Q \\d\n end\n";

const USAGE: &str =
    "usage: sby [-f] [-j M] [-d DIR] FILE.sby [TASK ..] | sby [-d DIR] --judge DESIGN MODE DEPTH [STREAM ..] | sby --dumptasks FILE.sby | sby [-d DIR] --gen N";

const KEPT: &str =
    " cell $dff $r\n parameter \\CLK_POLARITY 1'1\n parameter \\WIDTH 1\n connect \\CLK \\clk\n connect \\D \\q\n connect \\Q \\q\n end\n";

const COVERS: &str =
    " cell $cover \\c0\n connect \\A \\q\n connect \\EN 1'1\n end\n cell $cover \\c1\n connect \\A \\q\n connect \\EN \\d\n end\n";

const TASKS: &str = "[tasks]\na quick\nb\n";

const OPTIONS: &str = "[options]\nmode bmc\nquick: depth 1\n~a: depth 3\n";

const REST: &str = "[engines]\nsat\n[script]\nread_rtlil t.il\n[files]\nt.il\n";

const THIRTEEN: &str = "sat\nsat\nsat\nsat\nsat\nsat\nsat\nsat\nsat\nsat\nsat\nsat\nsat\n";

const FREE: &str =
    "[tasks]\na quick\nb\n[options]\nmode bmc\nquick: depth 1\n~a: depth 3\nb: expect fail\n[engines]\nsat\n[script]\nread_rtlil t.il\n[files]\nt.il\n";

const LIMITED: &str =
    "[tasks]\na quick\nb\n[options]\nmode bmc\nquick: depth 1\n~a: depth 3\nb: expect fail\na: timeout 1\n[engines]\nsat\n[script]\nread_rtlil t.il\n[files]\nt.il\n";

const PASSES: &str =
    "SBY [two_a] design: 1 register bits, 1 assert, 0 assume, 0 cover\nSBY [two_a] base: UNSAT\nSBY [two_a] DONE (PASS, rc=0)\n";

const FAILS: &str =
    "SBY [two_b] design: 1 register bits, 1 assert, 0 assume, 0 cover\nSBY [two_b] base: SAT\nSBY [two_b] broken: \\a0 at cycle 1\ncycle 0\n\\clk 0\n\\q 0\n\\d 1\ncycle 1\n\\clk 0\n\\q 1\n\\d 0\nSBY [two_b] DONE (FAIL, rc=0)\n";

const COUNTER: &str = " wire width 2 \\d
 wire \\three
 wire \\ok
 connect \\alias \\q
 cell $not \\n
 parameter \\A_SIGNED 0
 parameter \\A_WIDTH 1
 parameter \\Y_WIDTH 1
 connect \\A \\alias [0]
 connect \\Y \\d [0]
 end
 cell $xor \\x
 parameter \\A_SIGNED 0
 parameter \\B_SIGNED 0
 parameter \\A_WIDTH 1
 parameter \\B_WIDTH 1
 parameter \\Y_WIDTH 1
 connect \\A \\alias [1]
 connect \\B \\alias [0]
 connect \\Y \\d [1]
 end
 cell $dff \\r
 parameter \\CLK_POLARITY 1
 parameter \\WIDTH 2
 connect \\CLK \\clk
 connect \\D \\d
 connect \\Q \\q
 end
 cell $eq \\k
 parameter \\A_SIGNED 0
 parameter \\B_SIGNED 0
 parameter \\A_WIDTH 2
 parameter \\B_WIDTH 2
 parameter \\Y_WIDTH 1
 connect \\A \\alias
 connect \\B 2'11
 connect \\Y \\three
 end
 cell $not \\m
 parameter \\A_SIGNED 0
 parameter \\A_WIDTH 1
 parameter \\Y_WIDTH 1
 connect \\A \\three
 connect \\Y \\ok
 end
 cell $assert \\p
 connect \\A \\ok
 connect \\EN ";

const PLAIN: &str =
    "module \\t\n wire input 1 \\clk\n attribute \\init 2'00\n wire width 2 \\q\n wire width 2 \\alias\n";

const ALIASED: &str =
    "module \\t\n wire input 1 \\clk\n wire width 2 \\q\n attribute \\init 2'00\n wire width 2 \\alias\n";

const OPEN: &str = "module \\t\n wire input 1 \\clk\n wire width 2 \\q\n wire width 2 \\alias\n";

/// Their names.
pub const NAMES: &[Named] = &[
    ("<HEAD>", HEAD),
    ("<OPEN_HEAD>", OPEN_HEAD),
    ("<NOT>", NOT),
    ("<REGISTER>", REGISTER),
    ("<ASSERT>", ASSERT),
    ("<END>", END),
    ("<TWO>", TWO),
    ("<LOOP>", LOOP),
    ("<NO_WIDTH>", NO_WIDTH),
    ("<NO_PORT>", NO_PORT),
    ("<NO_TYPE>", NO_TYPE),
    ("<FALLING>", FALLING),
    ("<USAGE>", USAGE),
    ("<T>", T),
    ("<KEPT>", KEPT),
    ("<COVERS>", COVERS),
    ("<TASKS>", TASKS),
    ("<OPTIONS>", OPTIONS),
    ("<REST>", REST),
    ("<THIRTEEN>", THIRTEEN),
    ("<FREE>", FREE),
    ("<LIMITED>", LIMITED),
    ("<PASSES>", PASSES),
    ("<FAILS>", FAILS),
    ("<COUNTER>", COUNTER),
    ("<PLAIN>", PLAIN),
    ("<ALIASED>", ALIASED),
    ("<OPEN>", OPEN),
];
