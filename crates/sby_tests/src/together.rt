// Tasks and lanes under an allowance.

use crate::names::NAMES;
use run_scenes::first_wrong;
use std::test::Fail;

// Lanes of one task that need each other, under two places and under one.
const LANES_SHARE: &str =
    "file two.sby [options]|mode bmc|depth 1|[engines]|drup solver|sat|[script]|read_rtlil t.il|[files]|t.il|
child gate=1
child lane=1;text=s UNKNOWN|;gate=0
words -j 2 two.sby
> SBY [two] design: 1 register bits, 1 assert, 0 assume, 0 cover
> SBY [two] base: UNSAT
> SBY [two] DONE (PASS, rc=0)

file two.sby [options]|mode bmc|depth 1|[engines]|drup solver|sat|[script]|read_rtlil t.il|[files]|t.il|
child gate=1;turns=100
child lane=1;text=s UNKNOWN|;gate=0;turns=100
words -j 1 two.sby
rc 4
> SBY [two] design: 1 register bits, 1 assert, 0 assume, 0 cover
> SBY [two] engine_0 base: unknown
> SBY [two] engine_1 base: unknown
> SBY [two] DONE (UNKNOWN, rc=4)";

#[test]
fn lanes_share_places(rt: HostRuntime) -> Result<(), Fail> {
    assert_eq!(rt;
        first_wrong(&rt, NAMES, "file t.il <T>\nclock 1000", LANES_SHARE)?,
        None
    );
    Ok(())
}

// Tasks that need each other: at the same time, and one after the other.
const TASKS_BESIDE: &str =
    "file two.sby [tasks]|a|b|[options]|mode bmc|depth 1|[engines]|drup solver|[script]|read_rtlil t.il|[files]|t.il|
child gate=0;other=1
child task=1;gate=0;other=0
words -j 2 two.sby
> SBY [two_a] design: 1 register bits, 1 assert, 0 assume, 0 cover
> SBY [two_a] base: UNSAT
> SBY [two_a] DONE (PASS, rc=0)
> SBY [two_b] design: 1 register bits, 1 assert, 0 assume, 0 cover
> SBY [two_b] base: UNSAT
> SBY [two_b] DONE (PASS, rc=0)

file two.sby [tasks]|a|b|[options]|mode bmc|depth 1|[engines]|drup solver|[script]|read_rtlil t.il|[files]|t.il|
child gate=0;other=1
child task=1;gate=0;other=0
words two.sby
rc 4
> SBY [two_a] design: 1 register bits, 1 assert, 0 assume, 0 cover
> SBY [two_a] engine_0 base: unknown
> SBY [two_a] DONE (UNKNOWN, rc=4)
> SBY [two_b] design: 1 register bits, 1 assert, 0 assume, 0 cover
> SBY [two_b] engine_0 base: unknown
> SBY [two_b] DONE (UNKNOWN, rc=4)

file two.sby [tasks]|a|b|[options]|mode bmc|depth 1|[engines]|drup solver|[script]|read_rtlil t.il|[files]|t.il|
child gate=0;other=1
child task=1;gate=0;other=0
words -d w -j 64 two.sby b
rc 4
> SBY [w_b] design: 1 register bits, 1 assert, 0 assume, 0 cover
> SBY [w_b] engine_0 base: unknown
> SBY [w_b] DONE (UNKNOWN, rc=4)";

#[test]
fn tasks_run_at_the_same_time(rt: HostRuntime) -> Result<(), Fail> {
    assert_eq!(rt;
        first_wrong(&rt, NAMES, "file t.il <T>\nclock 1000", TASKS_BESIDE)?,
        None
    );
    Ok(())
}

// Lines in the order of tasks, faults, and an output that fails: as without an allowance.
const AS_ALONE: &str = "file two.sby <FREE>
child
child task=1;text=v 1 0|
words -j 1 two.sby
lines <PASSES>
lines <FAILS>

file two.sby <FREE>
child text=v 1 0|
child task=2
words -j 3 two.sby b zz a
rc 16
lines <FAILS>
> SBY [two] ERROR: sby line 0: UnknownTask
> SBY [two] DONE (ERROR, rc=16)
lines <PASSES>

file two.sby <FREE>
child
child task=1;text=v 1 0|
words -j 2 two.sby
cut 2
rc 16
> SBY [two_a] design: 1 register bits, 1 assert, 0 assume, 0 cover

file two.sby x|
words -j 2 two.sby
rc 16
> SBY [two] ERROR: sby line 1: StrayLine
> SBY [two] DONE (ERROR, rc=16)

file two.sby <FREE>
words -j 0 two.sby
rc 16
> <USAGE>

file two.sby <FREE>
words -j 65 two.sby
rc 16
> <USAGE>";

#[test]
fn told_as_alone(rt: HostRuntime) -> Result<(), Fail> {
    assert_eq!(rt;
        first_wrong(&rt, NAMES, "file t.il <T>\nclock 1000", AS_ALONE)?,
        None
    );
    Ok(())
}
