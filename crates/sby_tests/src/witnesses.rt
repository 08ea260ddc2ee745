// Witnesses of BTOR2, stored and by the children of scripts.

use crate::names::NAMES;
use run_scenes::first_wrong;
use std::test::Fail;

// A register that turns is set in cycle 1: a whole witness, one for fewer cycles, one that is a frame short, and streams that are none.
const STORED: &str = "file t.il <T>
file s.wit sat|b0|#0|@0|@1|.|
words --judge t.il bmc 2 s.wit
rc 2
> SBY [t] design: 1 register bits, 1 assert, 0 assume, 0 cover
> SBY [t] base: SAT
> SBY [t] broken: \\a0 at cycle 1
> cycle 0
> \\clk 0
> \\q 0
> \\d 1
> cycle 1
> \\clk 0
> \\q 1
> \\d 0
> SBY [t] DONE (FAIL, rc=2)
left t/model/base.cnf p cnf 1 2|1 0|-1 1 0|

file t.il <T>
file s.wit sat|b0|#0|@0|@1|.|
words --judge t.il bmc 1 s.wit
rc 16
> SBY [t] design: 1 register bits, 1 assert, 0 assume, 0 cover
> SBY [t] engine_0 base: certificate NotPlaying frame 1
> SBY [t] DONE (ERROR, rc=16)

file t.il <T>
file s.wit sat|b0|#0|@0|.|
words --judge t.il bmc 2 s.wit
rc 16
> SBY [t] design: 1 register bits, 1 assert, 0 assume, 0 cover
> SBY [t] engine_0 base: certificate NotPlaying frame 0
> SBY [t] DONE (ERROR, rc=16)

file t.il <T>
file s.wit unsat|
words --judge t.il bmc 2 s.wit
rc 4
> SBY [t] design: 1 register bits, 1 assert, 0 assume, 0 cover
> SBY [t] engine_0 base: unknown
> SBY [t] DONE (UNKNOWN, rc=4)

file t.il <T>
file s.wit sat|j0|
words --judge t.il bmc 2 s.wit
rc 16
> SBY [t] design: 1 register bits, 1 assert, 0 assume, 0 cover
> SBY [t] engine_0 base: certificate BadWitness at byte 4
> SBY [t] DONE (ERROR, rc=16)

file t.il <T>
file s.wit sat|b0|#0|@0|@1|
words --judge t.il bmc 2 s.wit
rc 16
> SBY [t] design: 1 register bits, 1 assert, 0 assume, 0 cover
> SBY [t] engine_0 base: certificate EarlyEnd at byte 16
> SBY [t] DONE (ERROR, rc=16)

file t.il <T>
file s.wit sat|b0|#0|@0|@1|.|
words --judge t.il bmc 2
rc 4
> SBY [t] design: 1 register bits, 1 assert, 0 assume, 0 cover
> SBY [t] engine_0 base: not served
> SBY [t] DONE (UNKNOWN, rc=4)
missing t/model/base.btor";

// A witness for Step isn't got, and lines are put for the jobs alone whose stream is a witness.
const PLACES: &str = "file t.il <HEAD>|<NOT>|<KEPT>|<ASSERT>|<END>
file s.wit unsat|
words --judge t.il prove 1 s.wit none.wit
rc 4
> SBY [t] design: 1 register bits, 1 assert, 0 assume, 0 cover
> SBY [t] engine_0 base: unknown
> SBY [t] engine_0 step: not served
> SBY [t] DONE (UNKNOWN, rc=4)
missing t/model/step.btor

file t.il <T>
file s0 s UNKNOWN|
words --judge t.il prove 1 s0 none.wit
rc 4
> SBY [t] design: 1 register bits, 1 assert, 0 assume, 0 cover
> SBY [t] engine_0 base: unknown
> SBY [t] engine_0 step: not served
> SBY [t] DONE (UNKNOWN, rc=4)
missing t/model/base.btor

file t.il <HEAD>|<NOT>|<REGISTER>|<COVERS>|<END>
file s.wit sat|b0|#0|@0|@1|.|
file s1 s UNKNOWN|
words --judge t.il cover 2 s.wit s1
rc 4
> SBY [t] design: 1 register bits, 0 assert, 0 assume, 2 cover
> SBY [t] cover0: SAT
> SBY [t] engine_0 cover1: unknown
> SBY [t] reached: \\c0 at cycle 1
> cycle 0
> \\clk 0
> \\q 0
> \\d 1
> cycle 1
> \\clk 0
> \\q 1
> \\d 0
> SBY [t] DONE (UNKNOWN, rc=4)
missing t/model/cover1.btor

file t.il <T>
words --judge t.il bmc 2 none.wit
rc 16
> SBY [t] ERROR: file none.wit
> SBY [t] DONE (ERROR, rc=16)";

// An engine line `btor` beside one that doesn't know: it serves Base, and Step isn't served.
const CHILDREN: &str = "file t.il <T>
file two.sby [options]|mode bmc|depth 2|[engines]|drup solver|btor checker -v|[script]|read_rtlil t.il|[files]|t.il|
child text=s UNKNOWN|
child lane=1;text=sat|b0|#0|@0|@1|.|
clock 1000
rc 2
> SBY [two] design: 1 register bits, 1 assert, 0 assume, 0 cover
> SBY [two] base: SAT
> SBY [two] broken: \\a0 at cycle 1
> cycle 0
> \\clk 0
> \\q 0
> \\d 1
> cycle 1
> \\clk 0
> \\q 1
> \\d 0
> SBY [two] DONE (FAIL, rc=2)

file t.il <HEAD>|<NOT>|<KEPT>|<ASSERT>|<END>
file two.sby [options]|mode prove|depth 1|[engines]|btor checker|[script]|read_rtlil t.il|[files]|t.il|
child text=sat|b0|@0|@1|.|
clock 1000
rc 16
> SBY [two] design: 1 register bits, 1 assert, 0 assume, 0 cover
> SBY [two] engine_0 base: certificate NotPlaying frame 1
> SBY [two] engine_0 step: not served
> SBY [two] DONE (ERROR, rc=16)
missing two/model/step.btor

file t.il <HEAD>|<NOT>|<KEPT>|<ASSERT>|<END>
file two.sby [options]|mode prove|depth 1|[engines]|btor checker|drup solver|[script]|read_rtlil t.il|[files]|t.il|
child text=unsat|
child lane=1
child lane=1;step=
clock 1000
> SBY [two] design: 1 register bits, 1 assert, 0 assume, 0 cover
> SBY [two] base: UNSAT
> SBY [two] step: UNSAT
> SBY [two] DONE (PASS, rc=0)";

#[test]
fn witnesses_are_judged(rt: HostRuntime) -> Result<(), Fail> {
    for (head, scenes) in [("", STORED), ("", PLACES), ("words two.sby", CHILDREN)] {
        assert_eq!(rt; first_wrong(&rt, NAMES, head, scenes)?, None);
    }
    Ok(())
}
