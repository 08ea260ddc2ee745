// A run of two tasks, each of whose calls outside fails in turn.

use crate::names::NAMES;
use run_scenes::first_wrong;
use std::test::Fail;

// Each call of the sink, and each of the file store: two calls put the files.
const FAILURES: &str = "cut 1
rc 16
lines <PASSES>|<FAILS>
first 0

cut 2
rc 16
lines <PASSES>|<FAILS>
first 1

cut 3
rc 16
lines <PASSES>|<FAILS>
first 2

cut 4
rc 16
lines <PASSES>|<FAILS>
first 3

cut 5
rc 16
lines <PASSES>|<FAILS>
first 4

cut 6
rc 16
lines <PASSES>|<FAILS>
first 5

cut 7
rc 16
lines <PASSES>|<FAILS>
first 6

cut 8
rc 16
lines <PASSES>|<FAILS>
first 7

cut 9
rc 16
lines <PASSES>|<FAILS>
first 8

cut 10
rc 16
lines <PASSES>|<FAILS>
first 9

cut 11
rc 16
lines <PASSES>|<FAILS>
first 10

cut 12
rc 16
lines <PASSES>|<FAILS>
first 11

cut 13
rc 16
lines <PASSES>|<FAILS>
first 12

cut 14
rc 16
lines <PASSES>|<FAILS>
first 13

cut 15
rc 16
lines <PASSES>|<FAILS>
first 14

cut 16
lines <PASSES>|<FAILS>
first 15

fail 3
rc 16
> SBY [two] ERROR: file two.sby
> SBY [two] DONE (ERROR, rc=16)

fail 4
rc 16
> SBY [two_a] ERROR: file t.il
> SBY [two_a] DONE (ERROR, rc=16)
lines <FAILS>

fail 5
rc 16
> SBY [two_a] ERROR: file two_a/model/base.cnf
> SBY [two_a] DONE (ERROR, rc=16)
lines <FAILS>

fail 6
rc 16
lines <PASSES>
> SBY [two_b] ERROR: file t.il
> SBY [two_b] DONE (ERROR, rc=16)

fail 7
rc 16
lines <PASSES>
> SBY [two_b] ERROR: file two_b/model/base.cnf
> SBY [two_b] DONE (ERROR, rc=16)

fail 8
lines <PASSES>
> SBY [two_b] design: 1 register bits, 1 assert, 0 assume, 0 cover
> SBY [two_b] base: SAT
> SBY [two_b] broken: \\a0 at cycle 1
> cycle 0
> \\clk 0
> \\q 0
> \\d 1
> cycle 1
> \\clk 0
> \\q 1
> \\d 0
> SBY [two_b] not written: two_b/trace.vcd
> SBY [two_b] DONE (FAIL, rc=0)";

// The calls for the first task's child.
const FAULTS: &str = "file two.sby <FREE>
child fault=start
child task=1;text=v 1 0|
rc 16
> SBY [two_a] design: 1 register bits, 1 assert, 0 assume, 0 cover
> SBY [two_a] engine_0 base: start failed
> SBY [two_a] DONE (ERROR, rc=16)
lines <FAILS>

file two.sby <FREE>
child fault=read
child task=1;text=v 1 0|
rc 16
> SBY [two_a] design: 1 register bits, 1 assert, 0 assume, 0 cover
> SBY [two_a] engine_0 base: read failed
> SBY [two_a] DONE (ERROR, rc=16)
lines <FAILS>

file two.sby <LIMITED>
child text=;stall=0;fault=poll
child task=1;text=v 1 0|
rc 16
> SBY [two_a] design: 1 register bits, 1 assert, 0 assume, 0 cover
> SBY [two_a] engine_0 base: hold failed
> SBY [two_a] DONE (ERROR, rc=16)
lines <FAILS>

file two.sby <LIMITED>
child text=;stall=0;fault=kill
child task=1;text=v 1 0|
rc 8
> SBY [two_a] design: 1 register bits, 1 assert, 0 assume, 0 cover
> SBY [two_a] stopped at 1000, started at 0, limit 1000
> SBY [two_a] DONE (TIMEOUT, rc=8)
lines <FAILS>

file two.sby <LIMITED>
child text=;stall=0;fault=reap
child task=1;text=v 1 0|
rc 8
> SBY [two_a] design: 1 register bits, 1 assert, 0 assume, 0 cover
> SBY [two_a] stopped at 1000, started at 0, limit 1000
> SBY [two_a] DONE (TIMEOUT, rc=8)
lines <FAILS>

file two.sby <LIMITED>
child fault=poll
child task=1;text=v 1 0|
lines <PASSES>
lines <FAILS>

file two.sby <LIMITED>
child fault=kill
child task=1;text=v 1 0|
lines <PASSES>
lines <FAILS>

file two.sby <LIMITED>
child fault=reap
child task=1;text=v 1 0|
lines <PASSES>
lines <FAILS>";

#[test]
fn failed_calls_cost_their_task(rt: HostRuntime) -> Result<(), Fail> {
    for (head, scenes) in [
        (
            "file t.il <T>
file two.sby <FREE>
child
child task=1;text=v 1 0|
clock 1000
words two.sby",
            FAILURES,
        ),
        (
            "file t.il <T>
clock 1000
words two.sby",
            FAULTS,
        ),
    ] {
        assert_eq!(rt; first_wrong(&rt, NAMES, head, scenes)?, None);
    }
    Ok(())
}
