// Lanes over the children of scripts.

use crate::names::NAMES;
use run_scenes::first_wrong;
use std::test::Fail;

// Lanes, hinted proofs, and proof files.
const LANES: &str = "file t.il <T>
file two.sby [options]|mode bmc|depth 1|[engines]|drup solver|[script]|read_rtlil t.il|[files]|t.il|
child
clock 1000
> SBY [two] design: 1 register bits, 1 assert, 0 assume, 0 cover
> SBY [two] base: UNSAT
> SBY [two] DONE (PASS, rc=0)

file t.il <T>
file two.sby [options]|mode bmc|depth 1|[engines]|net host:7000 --conflicts 9|[script]|read_rtlil t.il|[files]|t.il|
child
clock 1000
starts net host:7000 --conflicts 9
> SBY [two] design: 1 register bits, 1 assert, 0 assume, 0 cover
> SBY [two] base: UNSAT
> SBY [two] DONE (PASS, rc=0)

file t.il <T>
file two.sby [options]|mode bmc|depth 1|[engines]|drup solver|[script]|read_rtlil t.il|[files]|t.il|
child text=s UNSATISFIABLE|
clock 1000
rc 16
> SBY [two] design: 1 register bits, 1 assert, 0 assume, 0 cover
> SBY [two] engine_0 base: certificate EarlyEnd at byte 16
> SBY [two] DONE (ERROR, rc=16)

file t.il <T>
file two.sby [options]|mode bmc|depth 1|[engines]|drup solver|[script]|read_rtlil t.il|[files]|t.il|
child text=0|@@@ rubbish
clock 1000
> SBY [two] design: 1 register bits, 1 assert, 0 assume, 0 cover
> SBY [two] base: UNSAT
> SBY [two] DONE (PASS, rc=0)

file t.il <T>
file two.sby [options]|mode bmc|depth 1|timeout 1|[engines]|drup solver|[script]|read_rtlil t.il|[files]|t.il|
child text=c half|;stall=7
clock 1000
rc 8
> SBY [two] design: 1 register bits, 1 assert, 0 assume, 0 cover
> SBY [two] stopped at 1000, started at 0, limit 1000
> SBY [two] DONE (TIMEOUT, rc=8)

file t.il <T>
file two.sby [options]|mode bmc|depth 1|timeout 1|[engines]|drup solver|sat|[script]|read_rtlil t.il|[files]|t.il|
child text=c half|;stall=7
child lane=1
clock 999
> SBY [two] design: 1 register bits, 1 assert, 0 assume, 0 cover
> SBY [two] base: UNSAT
> SBY [two] DONE (PASS, rc=0)

file t.il <T>
file two.sby [options]|mode bmc|depth 1|[engines]|drup solver|sat|[script]|read_rtlil t.il|[files]|t.il|
child fault=start
child lane=1
clock 1000
> SBY [two] design: 1 register bits, 1 assert, 0 assume, 0 cover
> SBY [two] base: UNSAT
> SBY [two] DONE (PASS, rc=0)

file t.il <T>
file two.sby [options]|mode bmc|depth 1|[engines]|drup solver|sat|[script]|read_rtlil t.il|[files]|t.il|
child gate=1
child lane=1;text=s UNKNOWN|;gate=0
clock 1000
> SBY [two] design: 1 register bits, 1 assert, 0 assume, 0 cover
> SBY [two] base: UNSAT
> SBY [two] DONE (PASS, rc=0)

file t.il <T>
file two.sby [options]|mode bmc|depth 1|[engines]|btor solver|drup solver|[script]|read_rtlil t.il|[files]|t.il|
clock 1000
rc 4
> SBY [two] design: 1 register bits, 1 assert, 0 assume, 0 cover
> SBY [two] engine_0 base: unknown
> SBY [two] engine_1 base: unknown
> SBY [two] DONE (UNKNOWN, rc=4)

file t.il <HEAD>|<NOT>|<KEPT>|<ASSERT>|<END>
file two.sby [options]|mode prove|depth 1|[engines]|drup solver|sat|[script]|read_rtlil t.il|[files]|t.il|
child
child lane=1;step=
clock 1000
> SBY [two] design: 1 register bits, 1 assert, 0 assume, 0 cover
> SBY [two] base: UNSAT
> SBY [two] step: UNSAT
> SBY [two] DONE (PASS, rc=0)

file t.il <HEAD>|<NOT>|<KEPT>|<ASSERT>|<END>
file two.sby [options]|mode prove|depth 1|[engines]|drup solver|sat|[script]|read_rtlil t.il|[files]|t.il|
child
clock 1000
rc 4
> SBY [two] design: 1 register bits, 1 assert, 0 assume, 0 cover
> SBY [two] base: UNSAT
> SBY [two] engine_0 step: unknown
> SBY [two] engine_1 step: unknown
> SBY [two] DONE (UNKNOWN, rc=4)

file t.il <HEAD>|<NOT>|<REGISTER>|<END>
file two.sby [options]|mode bmc|depth 1|[engines]|lrat solver|[script]|read_rtlil t.il|[files]|t.il|
child text=2 0 1 0|
clock 1000
> SBY [two] design: 1 register bits, 0 assert, 0 assume, 0 cover
> SBY [two] base: UNSAT
> SBY [two] DONE (PASS, rc=0)

file t.il <HEAD>|<NOT>|<REGISTER>|<END>
file two.sby [options]|mode bmc|depth 1|[engines]|lrat solver|[script]|read_rtlil t.il|[files]|t.il|
child text=2 0 0|
clock 1000
rc 16
> SBY [two] design: 1 register bits, 0 assert, 0 assume, 0 cover
> SBY [two] engine_0 base: certificate NotHinted at byte 0
> SBY [two] DONE (ERROR, rc=16)

file t.il <HEAD>|<NOT>|<REGISTER>|<END>
file two.sby [options]|mode bmc|depth 1|[engines]|lrat solver|[script]|read_rtlil t.il|[files]|t.il|
child text=2 0 -1 0|
clock 1000
rc 16
> SBY [two] design: 1 register bits, 0 assert, 0 assume, 0 cover
> SBY [two] engine_0 base: certificate BadHint at byte 4
> SBY [two] DONE (ERROR, rc=16)

file t.il <T>
file two.sby [options]|mode bmc|depth 1|[engines]|proof solver {cnf} {proof}|[script]|read_rtlil t.il|[files]|t.il|
child text=s UNSATISFIABLE|
clock 1000
> SBY [two] design: 1 register bits, 1 assert, 0 assume, 0 cover
> SBY [two] base: UNSAT
> SBY [two] DONE (PASS, rc=0)

file t.il <T>
file two.sby [options]|mode bmc|depth 2|[engines]|proof solver {cnf} {proof}|[script]|read_rtlil t.il|[files]|t.il|
child text=s UNSATISFIABLE|
clock 1000
rc 16
> SBY [two] design: 1 register bits, 1 assert, 0 assume, 0 cover
> SBY [two] engine_0 base: certificate EarlyEnd at byte 0
> SBY [two] DONE (ERROR, rc=16)

file t.il <T>
file two.sby [options]|mode bmc|depth 1|[engines]|proof solver {cnf} {proof}|[script]|read_rtlil t.il|[files]|t.il|
child text=s UNKNOWN|
clock 1000
rc 4
> SBY [two] design: 1 register bits, 1 assert, 0 assume, 0 cover
> SBY [two] engine_0 base: unknown
> SBY [two] DONE (UNKNOWN, rc=4)

file t.il <T>
file two.sby [options]|mode bmc|depth 2|[engines]|proof solver {cnf} {proof}|[script]|read_rtlil t.il|[files]|t.il|
child text=s SATISFIABLE|v 1 0|
clock 1000
rc 2
> SBY [two] design: 1 register bits, 1 assert, 0 assume, 0 cover
> SBY [two] base: SAT
> SBY [two] broken: \\a0 at cycle 1
> cycle 0
> \\clk 0
> \\q 0
> \\d 1
> cycle 1
> \\clk 0
> \\q 1
> \\d 0
> SBY [two] DONE (FAIL, rc=2)

file t.il <T>
file two.sby [options]|mode bmc|depth 1|[engines]|proofb solver --out={proof} {cnf}|[script]|read_rtlil t.il|[files]|t.il|
child text=s UNSATISFIABLE|;proof=a\u{3}\0a\0
clock 1000
> SBY [two] design: 1 register bits, 1 assert, 0 assume, 0 cover
> SBY [two] base: UNSAT
> SBY [two] DONE (PASS, rc=0)

file t.il <T>
file two.sby [options]|mode bmc|depth 1|[engines]|proofb solver --out={proof} {cnf}|[script]|read_rtlil t.il|[files]|t.il|
child text=s UNSATISFIABLE|;proof=b
clock 1000
rc 16
> SBY [two] design: 1 register bits, 1 assert, 0 assume, 0 cover
> SBY [two] engine_0 base: certificate BadLine at byte 0
> SBY [two] DONE (ERROR, rc=16)

file t.il <T>
file two.sby [options]|mode bmc|depth 1|[engines]|proofb solver --out={proof} {cnf}|[script]|read_rtlil t.il|[files]|t.il|
child text=s UNSATISFIABLE|;proof=a\u{1}
clock 1000
rc 16
> SBY [two] design: 1 register bits, 1 assert, 0 assume, 0 cover
> SBY [two] engine_0 base: certificate BadLiteral at byte 1
> SBY [two] DONE (ERROR, rc=16)

file t.il <T>
file two.sby [options]|mode bmc|depth 1|[engines]|proof solver {cnf} {proof}|[script]|read_rtlil t.il|[files]|t.il|
child text=s UNSATISFIABLE|;proof=a\u{3}\0a\0
clock 1000
rc 16
> SBY [two] design: 1 register bits, 1 assert, 0 assume, 0 cover
> SBY [two] engine_0 base: certificate BadLine at byte 0
> SBY [two] DONE (ERROR, rc=16)";

#[test]
fn lanes_are_raced(rt: HostRuntime) -> Result<(), Fail> {
    assert_eq!(rt; first_wrong(&rt, NAMES, "words two.sby", LANES)?, None);
    Ok(())
}
