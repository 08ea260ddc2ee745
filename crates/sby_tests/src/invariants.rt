// Inductive invariants, stored and by the children of scripts.

use crate::names::NAMES;
use run_scenes::first_wrong;
use std::test::Fail;

// A register that keeps its 0, by streams of both jobs: the invariant alone decides, and where it is none, it says nothing.
const STORED: &str = "file t.il <HEAD>|<NOT>|<KEPT>|<ASSERT>|<END>
file s0 0|
file s.inv inv|-1 0|start|step|safe|0|
words --judge t.il prove-inv 1 s0 s.inv
rc 0
> SBY [t] design: 1 register bits, 1 assert, 0 assume, 0 cover
> SBY [t] base: UNSAT
> SBY [t] inv: UNSAT
> SBY [t] DONE (PASS, rc=0)
missing t/model/step.cnf

file t.il <HEAD>|<NOT>|<KEPT>|<ASSERT>|<END>
file s0 s UNKNOWN|
file s.inv inv|-1 0|start|step|safe|0|
words --judge t.il prove-inv 1 s0 s.inv
rc 0
> SBY [t] design: 1 register bits, 1 assert, 0 assume, 0 cover
> SBY [t] inv: UNSAT
> SBY [t] DONE (PASS, rc=0)

file t.il <HEAD>|<NOT>|<KEPT>|<ASSERT>|<END>
file s0 0|
words --judge t.il prove-inv 1 s0
rc 4
> SBY [t] design: 1 register bits, 1 assert, 0 assume, 0 cover
> SBY [t] base: UNSAT
> SBY [t] engine_0 inv: not served
> SBY [t] DONE (UNKNOWN, rc=4)

file t.il <T>
file s0 0|
file s.inv inv|-1 0|start|step|safe|0|
words --judge t.il prove-inv 1 s0 s.inv
rc 16
> SBY [t] design: 1 register bits, 1 assert, 0 assume, 0 cover
> SBY [t] base: UNSAT
> SBY [t] engine_0 inv: certificate NotInvariant at byte 20
> SBY [t] DONE (ERROR, rc=16)

file t.il <T>
file s0 0|
file s.inv -1 0|
words --judge t.il prove-inv 1 s0 s.inv
rc 16
> SBY [t] design: 1 register bits, 1 assert, 0 assume, 0 cover
> SBY [t] base: UNSAT
> SBY [t] engine_0 inv: certificate BadPart at byte 0
> SBY [t] DONE (ERROR, rc=16)

file t.il <T>
file s0 v 1 0|
file s.inv s UNKNOWN|
words --judge t.il prove-inv 2 s0 s.inv
rc 2
> SBY [t] design: 1 register bits, 1 assert, 0 assume, 0 cover
> SBY [t] base: SAT
> SBY [t] broken: \\a0 at cycle 1
> cycle 0
> \\clk 0
> \\q 0
> \\d 1
> cycle 1
> \\clk 0
> \\q 1
> \\d 0
> SBY [t] DONE (FAIL, rc=2)";

// A stream of another kind isn't got for Inv, nor one of an invariant for other jobs.
const PLACES: &str = "file t.il <HEAD>|<NOT>|<KEPT>|<ASSERT>|<END>
file s0 0|
words --judge t.il prove-inv 1 s0 none
rc 4
> SBY [t] design: 1 register bits, 1 assert, 0 assume, 0 cover
> SBY [t] base: UNSAT
> SBY [t] engine_0 inv: not served
> SBY [t] DONE (UNKNOWN, rc=4)

file t.il <HEAD>|<NOT>|<KEPT>|<ASSERT>|<END>
file s.inv inv|-1 0|start|step|safe|0|
words --judge t.il prove 1 none.inv none.inv
rc 4
> SBY [t] design: 1 register bits, 1 assert, 0 assume, 0 cover
> SBY [t] engine_0 base: not served
> SBY [t] engine_0 step: not served
> SBY [t] DONE (UNKNOWN, rc=4)

file t.il <HEAD>|<NOT>|<KEPT>|<ASSERT>|<END>
file s0 0|
words --judge t.il prove-inv 1 s0 none.inv
rc 16
> SBY [t] ERROR: file none.inv
> SBY [t] DONE (ERROR, rc=16)

file t.il <HEAD>|<NOT>|<END>
file s.inv inv|start|step|safe|0|
words --judge t.il prove-inv 1 none.wit s.inv
rc 16
> SBY [t] ERROR: file none.wit
> SBY [t] DONE (ERROR, rc=16)";

// An engine line `inv` beside another: it serves Inv, the other serves Base. By induction it serves nothing.
const CHILDREN: &str = "file t.il <HEAD>|<NOT>|<KEPT>|<ASSERT>|<END>
file two.sby [options]|mode prove|by invariant|depth 1|[engines]|drup solver|inv finder -v|[script]|read_rtlil t.il|[files]|t.il|
child
child lane=1;inv=;text=inv|-1 0|start|step|safe|0|
clock 1000
rc 0
> SBY [two] design: 1 register bits, 1 assert, 0 assume, 0 cover
> SBY [two] base: UNSAT
> SBY [two] inv: UNSAT
> SBY [two] DONE (PASS, rc=0)

file t.il <HEAD>|<NOT>|<KEPT>|<ASSERT>|<END>
file two.sby [options]|by induction|mode prove|depth 1|[engines]|inv finder|[script]|read_rtlil t.il|[files]|t.il|
clock 1000
rc 4
> SBY [two] design: 1 register bits, 1 assert, 0 assume, 0 cover
> SBY [two] engine_0 base: not served
> SBY [two] engine_0 step: not served
> SBY [two] DONE (UNKNOWN, rc=4)

file t.il <HEAD>|<NOT>|<KEPT>|<ASSERT>|<END>
file two.sby [options]|mode prove|by invariant|depth 1|[engines]|drup solver|[script]|read_rtlil t.il|[files]|t.il|
child
clock 1000
rc 4
> SBY [two] design: 1 register bits, 1 assert, 0 assume, 0 cover
> SBY [two] base: UNSAT
> SBY [two] engine_0 inv: not served
> SBY [two] DONE (UNKNOWN, rc=4)

file t.il <T>
file two.sby [options]|mode bmc|by invariant|depth 1|[engines]|drup solver|[script]|read_rtlil t.il|[files]|t.il|
rc 16
> SBY [two] ERROR: sby line 3: BadValue
> SBY [two] DONE (ERROR, rc=16)";

#[test]
fn invariants_are_judged(rt: HostRuntime) -> Result<(), Fail> {
    for (head, scenes) in [("", STORED), ("", PLACES), ("words two.sby", CHILDREN)] {
        assert_eq!(rt; first_wrong(&rt, NAMES, head, scenes)?, None);
    }
    Ok(())
}
