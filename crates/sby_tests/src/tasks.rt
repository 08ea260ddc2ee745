// Task files.

use crate::names::NAMES;
use run_scenes::first_wrong;
use std::test::Fail;

// Tasks, in their order.
const TASKS_TOLD: &str = "file two.sby <TASKS>|<OPTIONS>|b: expect fail|<REST>
words two.sby
rc 4
> SBY [two_a] design: 1 register bits, 1 assert, 0 assume, 0 cover
> SBY [two_a] engine_0 base: unknown
> SBY [two_a] DONE (UNKNOWN, rc=4)
> SBY [two_b] design: 1 register bits, 1 assert, 0 assume, 0 cover
> SBY [two_b] engine_0 base: unknown
> SBY [two_b] DONE (UNKNOWN, rc=4)

file two.sby <TASKS>|<OPTIONS>|expect unknown|<REST>
words two.sby
> SBY [two_a] design: 1 register bits, 1 assert, 0 assume, 0 cover
> SBY [two_a] engine_0 base: unknown
> SBY [two_a] DONE (UNKNOWN, rc=0)
> SBY [two_b] design: 1 register bits, 1 assert, 0 assume, 0 cover
> SBY [two_b] engine_0 base: unknown
> SBY [two_b] DONE (UNKNOWN, rc=0)

file two.sby <TASKS>|<OPTIONS>|expect unknown|<REST>
words two.sby b zz quick
rc 16
> SBY [two_b] design: 1 register bits, 1 assert, 0 assume, 0 cover
> SBY [two_b] engine_0 base: unknown
> SBY [two_b] DONE (UNKNOWN, rc=0)
> SBY [two] ERROR: sby line 0: UnknownTask
> SBY [two] DONE (ERROR, rc=16)
> SBY [two] ERROR: sby line 0: UnknownTask
> SBY [two] DONE (ERROR, rc=16)

file two.sby <TASKS>|<OPTIONS>|a: expect error|a: timeout 0|<REST>
words two.sby
rc 20
> SBY [two_a] ERROR: sby line 9: BadValue
> SBY [two_a] DONE (ERROR, rc=16)
> SBY [two_b] design: 1 register bits, 1 assert, 0 assume, 0 cover
> SBY [two_b] engine_0 base: unknown
> SBY [two_b] DONE (UNKNOWN, rc=4)

file two.sby <TASKS>|<OPTIONS>|<REST>
words --dumptasks two.sby
> a
> b

file two.sby [options]|mode bmc|depth 1000|[engines]|sat|[script]|read_rtlil t.il|[files]|t.il|
words --dumptasks two.sby

file two.sby x|
words --dumptasks two.sby
rc 16
> SBY [two] ERROR: sby line 1: StrayLine
> SBY [two] DONE (ERROR, rc=16)

file two.sby [options]|mode bmc|depth 1000|[engines]|sat|[script]|read_rtlil t.il|[files]|t.il|
words --dumptasks v.sby
rc 16
> SBY [v] ERROR: file v.sby
> SBY [v] DONE (ERROR, rc=16)

file two.sby [options]|mode bmc|depth 1000|[engines]|sat|[script]|read_rtlil t.il|[files]|t.il|
words v.sby a
rc 16
> SBY [v] ERROR: file v.sby
> SBY [v] DONE (ERROR, rc=16)

file two.sby [tasks]\r|a quick\r|b\r|[options]\r|mode bmc\r|depth 20 # note\r|[engines]\r|sat\r|[script]\r|read_rtlil t.il\r|[files]\r|t.il\r|
words -d w two.sby a
rc 4
> SBY [w_a] design: 1 register bits, 1 assert, 0 assume, 0 cover
> SBY [w_a] engine_0 base: unknown
> SBY [w_a] DONE (UNKNOWN, rc=4)

file two.sby [options]|mode bmc|depth 1000|[engines]|sat|[script]|read_rtlil t.il|[files]|t.il|
words two.sby
rc 4
> SBY [two] design: 1 register bits, 1 assert, 0 assume, 0 cover
> SBY [two] engine_0 base: unknown
> SBY [two] DONE (UNKNOWN, rc=4)

file two.sby [options]|mode bmc|expect error|[engines]|sat|[script]|read_rtlil u.il|[files]|d/u.il|
words two.sby
> SBY [two] ERROR: design TwoDrivers \\d [0]
> SBY [two] DONE (ERROR, rc=0)

file two.sby [options]|mode prove|expect Unknown, pass|[engines]|sat|drup p|[script]|read_rtlil t.il|[file t.il]|<HEAD>|<NOT>|<REGISTER>|<END>
words two.sby
> SBY [two] design: 1 register bits, 0 assert, 0 assume, 0 cover
> SBY [two] engine_0 base: unknown
> SBY [two] engine_0 step: unknown
> SBY [two] engine_1 base: unknown
> SBY [two] engine_1 step: unknown
> SBY [two] DONE (UNKNOWN, rc=0)";

// Calls that fail: two calls put the files, and two get the task file and the design.
const OUTSIDE: &str = "cut 2
rc 16
> SBY [two_a] design: 1 register bits, 1 assert, 0 assume, 0 cover

fail 5
rc 20
> SBY [two_a] ERROR: file two_a/model/base.cnf
> SBY [two_a] DONE (ERROR, rc=16)
> SBY [two_b] design: 1 register bits, 1 assert, 0 assume, 0 cover
> SBY [two_b] engine_0 base: unknown
> SBY [two_b] DONE (UNKNOWN, rc=4)";

// Generated designs.
const SIZES: &str = "words --gen 2
rc 4
> SBY [gen_2] design: 2 register bits, 2 assert, 0 assume, 0 cover
> SBY [gen_2] engine_0 base: unknown
> SBY [gen_2] engine_0 step: unknown
> SBY [gen_2] engine_1 base: unknown
> SBY [gen_2] engine_1 step: unknown
> SBY [gen_2] DONE (UNKNOWN, rc=4)

words --gen 200
rc 4
> SBY [gen_200] design: 200 register bits, 200 assert, 0 assume, 0 cover
> SBY [gen_200] engine_0 base: unknown
> SBY [gen_200] engine_0 step: unknown
> SBY [gen_200] engine_1 base: unknown
> SBY [gen_200] engine_1 step: unknown
> SBY [gen_200] DONE (UNKNOWN, rc=4)";

// Task files that are refused.
const REFUSALS: &str = "file two.sby mode bmc|
rc 16
> SBY [two] ERROR: sby line 1: StrayLine
> SBY [two] DONE (ERROR, rc=16)

file two.sby [options]|--|
rc 16
> SBY [two] ERROR: sby line 2: StrayLine
> SBY [two] DONE (ERROR, rc=16)

file two.sby [tasks]|a|[options]|a:|mode bmc|[engines]|
rc 16
> SBY [two] ERROR: sby line 4: StrayLine
> SBY [two] DONE (ERROR, rc=16)

file two.sby [tasks]|a b-c|
rc 16
> SBY [two] ERROR: sby line 2: StrayLine
> SBY [two] DONE (ERROR, rc=16)

file two.sby [autotune]|
rc 16
> SBY [two] ERROR: sby line 1: UnknownSection
> SBY [two] DONE (ERROR, rc=16)

file two.sby [options]|[options]|
rc 16
> SBY [two] ERROR: sby line 2: DoubleSection
> SBY [two] DONE (ERROR, rc=16)

file two.sby [tasks]|a|a|
rc 16
> SBY [two] ERROR: sby line 3: DoubleTask
> SBY [two] DONE (ERROR, rc=16)

file two.sby [options]|a: mode bmc|
rc 16
> SBY [two] ERROR: sby line 2: PrefixWithoutTasks
> SBY [two] DONE (ERROR, rc=16)

file two.sby [tasks]|a|[options]|b: mode bmc|
rc 16
> SBY [two] ERROR: sby line 4: UnknownTask
> SBY [two] DONE (ERROR, rc=16)

file two.sby [file x]|[file x]|
rc 16
> SBY [two] ERROR: sby line 2: DoubleFile
> SBY [two] DONE (ERROR, rc=16)

file two.sby [options]|mode bmc|[engines]|<THIRTEEN>|<THIRTEEN>|<THIRTEEN>|<THIRTEEN>|<THIRTEEN>
rc 16
> SBY [two] ERROR: sby line 68: Limit
> SBY [two] DONE (ERROR, rc=16)

file two.sby [options]|mode bmc|skipp 1|
rc 16
> SBY [two] ERROR: sby line 3: UnknownOption
> SBY [two] DONE (ERROR, rc=16)

file two.sby [options]|mode bmc|mode bmc|
rc 16
> SBY [two] ERROR: sby line 3: DoubleOption
> SBY [two] DONE (ERROR, rc=16)

file two.sby [options]|mode live|
rc 16
> SBY [two] ERROR: sby line 2: BadValue
> SBY [two] DONE (ERROR, rc=16)

file two.sby [options]|mode bmc|depth 100001|
rc 16
> SBY [two] ERROR: sby line 3: BadValue
> SBY [two] DONE (ERROR, rc=16)

file two.sby
rc 16
> SBY [two] ERROR: sby line 0: NoMode
> SBY [two] DONE (ERROR, rc=16)

file two.sby [options]|mode bmc|
rc 16
> SBY [two] ERROR: sby line 0: NoEngine
> SBY [two] DONE (ERROR, rc=16)

file two.sby [options]|mode bmc|[engines]|smtbmc|
rc 16
> SBY [two] ERROR: sby line 4: LeftOutEngine
> SBY [two] DONE (ERROR, rc=16)

file two.sby [options]|mode bmc|[engines]|solver|
rc 16
> SBY [two] ERROR: sby line 4: UnknownEngine
> SBY [two] DONE (ERROR, rc=16)

file two.sby [options]|mode bmc|[engines]|drup|
rc 16
> SBY [two] ERROR: sby line 4: BadValue
> SBY [two] DONE (ERROR, rc=16)

file two.sby [options]|mode bmc|[engines]|sat --conflicts 0|
rc 16
> SBY [two] ERROR: sby line 4: BadValue
> SBY [two] DONE (ERROR, rc=16)

file two.sby [options]|mode bmc|expect pass, memory|
rc 16
> SBY [two] ERROR: sby line 3: BadValue
> SBY [two] DONE (ERROR, rc=16)

file two.sby [files]|t.il a/t.il b|
rc 16
> SBY [two] ERROR: sby line 2: BadValue
> SBY [two] DONE (ERROR, rc=16)

file two.sby [options]|mode bmc|[engines]|proof p {cnf}|
rc 16
> SBY [two] ERROR: sby line 4: Marks
> SBY [two] DONE (ERROR, rc=16)

file two.sby [options]|mode bmc|[engines]|sat|
rc 16
> SBY [two] ERROR: sby line 0: Script
> SBY [two] DONE (ERROR, rc=16)

file two.sby [options]|mode bmc|[engines]|sat|[script]|prep|
rc 16
> SBY [two] ERROR: sby line 6: Script
> SBY [two] DONE (ERROR, rc=16)

file two.sby [file t.il]|[script]|read_rtlil t.il|read_rtlil t.il|
rc 16
> SBY [two] ERROR: sby line 4: Script
> SBY [two] DONE (ERROR, rc=16)

file two.sby [options]|mode bmc|[engines]|sat|[script]|read_rtlil t.il|
rc 16
> SBY [two] ERROR: sby line 6: MissingFile
> SBY [two] DONE (ERROR, rc=16)

file two.sby [options]|mode bmc|depth 2|skip 2|[engines]|sat|[script]|read_rtlil t.il|[files]|t.il|
rc 16
> SBY [two] ERROR: sby line 0: Slices
> SBY [two] DONE (ERROR, rc=16)

file two.sby [options]|mode prove|skip 1|[engines]|sat|[script]|read_rtlil t.il|[files]|t.il|
rc 16
> SBY [two] ERROR: sby line 0: Slices
> SBY [two] DONE (ERROR, rc=16)

file two.sby [options]|mode bmc|[engines]|sat|[script]|read_rtlil t.il|[files]|x/t.il|
rc 16
> SBY [two] ERROR: file x/t.il
> SBY [two] DONE (ERROR, rc=16)";

#[test]
fn task_files_are_run(rt: HostRuntime) -> Result<(), Fail> {
    for (head, scenes) in [
        (
            "file t.il <T>
file d/u.il <HEAD>|<NOT>|<TWO>|<END>",
            TASKS_TOLD,
        ),
        (
            "file t.il <T>
file two.sby <TASKS>|<OPTIONS>|<REST>
words two.sby",
            OUTSIDE,
        ),
        ("", SIZES),
        ("words two.sby", REFUSALS),
    ] {
        assert_eq!(rt; first_wrong(&rt, NAMES, head, scenes)?, None);
    }
    Ok(())
}
