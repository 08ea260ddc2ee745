// Prove and cover, and streams of all kinds by their names.

use crate::names::NAMES;
use run_scenes::first_wrong;
use std::test::Fail;

// The streams of both jobs of prove, and of two statements of cover.
const MODES: &str = "file t.il <HEAD>|<NOT>|<KEPT>|<ASSERT>|<END>
file s0 0|
file s1 0|
words --judge t.il prove 1 s0 s1
> SBY [t] design: 1 register bits, 1 assert, 0 assume, 0 cover
> SBY [t] base: UNSAT
> SBY [t] step: UNSAT
> SBY [t] DONE (PASS, rc=0)

file t.il <HEAD>|<NOT>|<KEPT>|<ASSERT>|<END>
file s0 0|
words --judge t.il prove 1 s0
rc 4
> SBY [t] design: 1 register bits, 1 assert, 0 assume, 0 cover
> SBY [t] base: UNSAT
> SBY [t] engine_0 step: not served
> SBY [t] DONE (UNKNOWN, rc=4)

file t.il <HEAD>|<NOT>|<KEPT>|<ASSERT>|<END>
file s0 0|
file s1 1 0|
words --judge t.il prove 1 s0 s1
rc 16
> SBY [t] design: 1 register bits, 1 assert, 0 assume, 0 cover
> SBY [t] base: UNSAT
> SBY [t] engine_0 step: certificate EarlyEnd at byte 4
> SBY [t] DONE (ERROR, rc=16)

file t.il <HEAD>|<NOT>|<KEPT>|<ASSERT>|<END>
file s0 s UNKNOWN|
file s1 0|
words --judge t.il prove 1 s0 s1
rc 4
> SBY [t] design: 1 register bits, 1 assert, 0 assume, 0 cover
> SBY [t] step: UNSAT
> SBY [t] engine_0 base: unknown
> SBY [t] DONE (UNKNOWN, rc=4)

file t.il <T>
file s0 0|
file s1 v 1 0|
words --judge t.il prove 1 s0 s1
rc 4
> SBY [t] design: 1 register bits, 1 assert, 0 assume, 0 cover
> SBY [t] base: UNSAT
> SBY [t] step: SAT
> SBY [t] DONE (UNKNOWN, rc=4)

file t.il <T>
file s0 v 1 0|
words --judge t.il prove 2 s0
rc 2
> SBY [t] design: 1 register bits, 1 assert, 0 assume, 0 cover
> SBY [t] base: SAT
> SBY [t] broken: \\a0 at cycle 1
> cycle 0
> \\clk 0
> \\q 0
> \\d 1
> cycle 1
> \\clk 0
> \\q 1
> \\d 0
> SBY [t] DONE (FAIL, rc=2)

file t.il <T>
file s0 v 1 0|
file s1 0|
words --judge t.il prove 2 s0 s1
rc 2
> SBY [t] design: 1 register bits, 1 assert, 0 assume, 0 cover
> SBY [t] base: SAT
> SBY [t] broken: \\a0 at cycle 1
> cycle 0
> \\clk 0
> \\q 0
> \\d 1
> cycle 1
> \\clk 0
> \\q 1
> \\d 0
> SBY [t] DONE (FAIL, rc=2)

file t.il <HEAD>|<NOT>|<REGISTER>|<COVERS>|<END>
file s0 v 1 0|
file s1 0|
words --judge t.il cover 2 s0 s1
rc 2
> SBY [t] design: 1 register bits, 0 assert, 0 assume, 2 cover
> SBY [t] cover0: SAT
> SBY [t] cover1: UNSAT
> SBY [t] reached: \\c0 at cycle 1
> cycle 0
> \\clk 0
> \\q 0
> \\d 1
> cycle 1
> \\clk 0
> \\q 1
> \\d 0
> SBY [t] unreached: \\c1
> SBY [t] DONE (FAIL, rc=2)

file t.il <HEAD>|<NOT>|<REGISTER>|<COVERS>|<END>
file s0 v 1 0|
words --judge t.il cover 2 s0
rc 4
> SBY [t] design: 1 register bits, 0 assert, 0 assume, 2 cover
> SBY [t] cover0: SAT
> SBY [t] engine_0 cover1: not served
> SBY [t] reached: \\c0 at cycle 1
> cycle 0
> \\clk 0
> \\q 0
> \\d 1
> cycle 1
> \\clk 0
> \\q 1
> \\d 0
> SBY [t] DONE (UNKNOWN, rc=4)

file t.il <HEAD>|<NOT>|<REGISTER>|<COVERS>|<END>
file s0 0|
file s1 0|
words --judge t.il cover 1 s0 s1
rc 2
> SBY [t] design: 1 register bits, 0 assert, 0 assume, 2 cover
> SBY [t] cover0: UNSAT
> SBY [t] cover1: UNSAT
> SBY [t] unreached: \\c0
> SBY [t] unreached: \\c1
> SBY [t] DONE (FAIL, rc=2)

file t.il <HEAD>|<NOT>|<REGISTER>|<COVERS>|<END>
file s0 v 1 0|
file s1 0|
words --judge t.il cover 1 s0 s1
rc 2
> SBY [t] design: 1 register bits, 0 assert, 0 assume, 2 cover
> SBY [t] cover1: UNSAT
> SBY [t] unreached: \\c1
> SBY [t] DONE (FAIL, rc=2)";

// Streams by their names.
const KINDS: &str = "file t.il <HEAD>|<NOT>|<REGISTER>|<END>
file s.lrat 2 0 1 0|
words --judge t.il bmc 5 s.lrat
> SBY [t] design: 1 register bits, 0 assert, 0 assume, 0 cover
> SBY [t] base: UNSAT
> SBY [t] DONE (PASS, rc=0)

file t.il <HEAD>|<NOT>|<REGISTER>|<END>
file s.lrat 2 0 0|
words --judge t.il bmc 5 s.lrat
rc 16
> SBY [t] design: 1 register bits, 0 assert, 0 assume, 0 cover
> SBY [t] engine_0 base: certificate NotHinted at byte 0
> SBY [t] DONE (ERROR, rc=16)

file t.il <HEAD>|<NOT>|<REGISTER>|<END>
file s.lrat 1 0 1 0|
words --judge t.il bmc 5 s.lrat
rc 16
> SBY [t] design: 1 register bits, 0 assert, 0 assume, 0 cover
> SBY [t] engine_0 base: certificate BadId at byte 0
> SBY [t] DONE (ERROR, rc=16)

file t.il <HEAD>|<NOT>|<REGISTER>|<END>
file s.lrat 2 0 -1 0|
words --judge t.il bmc 5 s.lrat
rc 16
> SBY [t] design: 1 register bits, 0 assert, 0 assume, 0 cover
> SBY [t] engine_0 base: certificate BadHint at byte 4
> SBY [t] DONE (ERROR, rc=16)

file t.il <HEAD>|<NOT>|<REGISTER>|<END>
file s.lrat.drup 0|
words --judge t.il bmc 5 s.lrat.drup
> SBY [t] design: 1 register bits, 0 assert, 0 assume, 0 cover
> SBY [t] base: UNSAT
> SBY [t] DONE (PASS, rc=0)

file t.il <T>
file s.proof
words --judge t.il bmc 1 s.proof
> SBY [t] design: 1 register bits, 1 assert, 0 assume, 0 cover
> SBY [t] base: UNSAT
> SBY [t] DONE (PASS, rc=0)

file t.il <T>
file s.proof
words --judge t.il bmc 2 s.proof
rc 16
> SBY [t] design: 1 register bits, 1 assert, 0 assume, 0 cover
> SBY [t] engine_0 base: certificate EarlyEnd at byte 0
> SBY [t] DONE (ERROR, rc=16)

file t.il <T>
file s.proof s UNSATISFIABLE|
words --judge t.il bmc 1 s.proof
rc 16
> SBY [t] design: 1 register bits, 1 assert, 0 assume, 0 cover
> SBY [t] engine_0 base: certificate BadLine at byte 0
> SBY [t] DONE (ERROR, rc=16)

file t.il <T>
file s.proofb a\u{3}\0a\0
words --judge t.il bmc 1 s.proofb
> SBY [t] design: 1 register bits, 1 assert, 0 assume, 0 cover
> SBY [t] base: UNSAT
> SBY [t] DONE (PASS, rc=0)

file t.il <T>
file s.proofb b
words --judge t.il bmc 1 s.proofb
rc 16
> SBY [t] design: 1 register bits, 1 assert, 0 assume, 0 cover
> SBY [t] engine_0 base: certificate BadLine at byte 0
> SBY [t] DONE (ERROR, rc=16)

file t.il <T>
file s.proofb a\u{1}
words --judge t.il bmc 1 s.proofb
rc 16
> SBY [t] design: 1 register bits, 1 assert, 0 assume, 0 cover
> SBY [t] engine_0 base: certificate BadLiteral at byte 1
> SBY [t] DONE (ERROR, rc=16)

file t.il <T>
file s.lrat v 1 0|
words --judge t.il bmc 2 s.lrat
rc 2
> SBY [t] design: 1 register bits, 1 assert, 0 assume, 0 cover
> SBY [t] base: SAT
> SBY [t] broken: \\a0 at cycle 1
> cycle 0
> \\clk 0
> \\q 0
> \\d 1
> cycle 1
> \\clk 0
> \\q 1
> \\d 0
> SBY [t] DONE (FAIL, rc=2)

file t.il x
file s.proof x
words --judge t.il bmc 1 s.proof
rc 16
> SBY [t] ERROR: rtlil byte 0: Syntax
> SBY [t] DONE (ERROR, rc=16)

file t.il <T>
file b.proof
file s.lrat v 1 0|
words --judge t.il prove 1 b.proof s.lrat
rc 4
> SBY [t] design: 1 register bits, 1 assert, 0 assume, 0 cover
> SBY [t] base: UNSAT
> SBY [t] step: SAT
> SBY [t] DONE (UNKNOWN, rc=4)

file t.il <T>
file b.proof
file s.lrat v 1 0|
words --judge t.il prove 1 b.proof s.proofb
rc 16
> SBY [t] ERROR: file s.proofb
> SBY [t] DONE (ERROR, rc=16)";

#[test]
fn modes_and_kinds_are_judged(rt: HostRuntime) -> Result<(), Fail> {
    for (head, scenes) in [("", MODES), ("", KINDS)] {
        assert_eq!(rt; first_wrong(&rt, NAMES, head, scenes)?, None);
    }
    Ok(())
}
