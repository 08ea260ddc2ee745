// Runs of stored streams.

use crate::names::NAMES;
use run_scenes::first_wrong;
use std::test::Fail;

// Streams, one by one, for a register that turns.
const STREAMS: &str = "file s0 0|
words --judge t.il bmc 1 s0
> SBY [t] design: 1 register bits, 1 assert, 0 assume, 0 cover
> SBY [t] base: UNSAT
> SBY [t] DONE (PASS, rc=0)

file s0 s UNSATISFIABLE|
words --judge t.il bmc 1 s0
rc 16
> SBY [t] design: 1 register bits, 1 assert, 0 assume, 0 cover
> SBY [t] engine_0 base: certificate EarlyEnd at byte 16
> SBY [t] DONE (ERROR, rc=16)

file s0 c x|0|
words --judge t.il bmc 2 s0
rc 16
> SBY [t] design: 1 register bits, 1 assert, 0 assume, 0 cover
> SBY [t] engine_0 base: certificate NotRup at byte 4
> SBY [t] DONE (ERROR, rc=16)
left t/model/base.cnf p cnf 1 2|1 0|-1 1 0|

file s0 c hello|-1 0|0|
words --judge t.il bmc 1 s0
> SBY [t] design: 1 register bits, 1 assert, 0 assume, 0 cover
> SBY [t] base: UNSAT
> SBY [t] DONE (PASS, rc=0)

file s0 c hello|-1 0|0
words --judge t.il bmc 1 s0
> SBY [t] design: 1 register bits, 1 assert, 0 assume, 0 cover
> SBY [t] base: UNSAT
> SBY [t] DONE (PASS, rc=0)

file s0 c hello|-1 0|
words --judge t.il bmc 1 s0
rc 16
> SBY [t] design: 1 register bits, 1 assert, 0 assume, 0 cover
> SBY [t] engine_0 base: certificate EarlyEnd at byte 13
> SBY [t] DONE (ERROR, rc=16)

file s0 c hel
words --judge t.il bmc 1 s0
rc 16
> SBY [t] design: 1 register bits, 1 assert, 0 assume, 0 cover
> SBY [t] engine_0 base: certificate EarlyEnd at byte 5
> SBY [t] DONE (ERROR, rc=16)

file s0 0|@@@ rubbish
words --judge t.il bmc 1 s0
> SBY [t] design: 1 register bits, 1 assert, 0 assume, 0 cover
> SBY [t] base: UNSAT
> SBY [t] DONE (PASS, rc=0)

file s0 0|
words --judge t.il bmc 1000 s0
rc 16
> SBY [t] design: 1 register bits, 1 assert, 0 assume, 0 cover
> SBY [t] engine_0 base: certificate NotRup at byte 0
> SBY [t] DONE (ERROR, rc=16)

file s0 s UNKNOWN
words --judge t.il bmc 1 s0
rc 4
> SBY [t] design: 1 register bits, 1 assert, 0 assume, 0 cover
> SBY [t] engine_0 base: unknown
> SBY [t] DONE (UNKNOWN, rc=4)

file s0 s UNKNOWN x|0|
words --judge t.il bmc 1 s0
> SBY [t] design: 1 register bits, 1 assert, 0 assume, 0 cover
> SBY [t] base: UNSAT
> SBY [t] DONE (PASS, rc=0)

file s0 sx
words --judge t.il bmc 1 s0
rc 16
> SBY [t] design: 1 register bits, 1 assert, 0 assume, 0 cover
> SBY [t] engine_0 base: certificate BadLine at byte 1
> SBY [t] DONE (ERROR, rc=16)

file s0 1 |
words --judge t.il bmc 1 s0
rc 16
> SBY [t] design: 1 register bits, 1 assert, 0 assume, 0 cover
> SBY [t] engine_0 base: certificate BadLine at byte 2
> SBY [t] DONE (ERROR, rc=16)

file s0 d 1|
words --judge t.il bmc 1 s0
rc 16
> SBY [t] design: 1 register bits, 1 assert, 0 assume, 0 cover
> SBY [t] engine_0 base: certificate BadLine at byte 3
> SBY [t] DONE (ERROR, rc=16)

file s0 -0
words --judge t.il bmc 1 s0
rc 16
> SBY [t] design: 1 register bits, 1 assert, 0 assume, 0 cover
> SBY [t] engine_0 base: certificate BadLiteral at byte 1
> SBY [t] DONE (ERROR, rc=16)

file s0 01 0
words --judge t.il bmc 1 s0
rc 16
> SBY [t] design: 1 register bits, 1 assert, 0 assume, 0 cover
> SBY [t] engine_0 base: certificate BadLiteral at byte 1
> SBY [t] DONE (ERROR, rc=16)

file s0 d 1 0|0|
words --judge t.il bmc 1 s0
> SBY [t] design: 1 register bits, 1 assert, 0 assume, 0 cover
> SBY [t] base: UNSAT
> SBY [t] DONE (PASS, rc=0)

file s0
words --judge t.il bmc 1 s0
rc 16
> SBY [t] design: 1 register bits, 1 assert, 0 assume, 0 cover
> SBY [t] engine_0 base: certificate EarlyEnd at byte 0
> SBY [t] DONE (ERROR, rc=16)

file s0 c
words --judge t.il bmc 1 s0
rc 16
> SBY [t] design: 1 register bits, 1 assert, 0 assume, 0 cover
> SBY [t] engine_0 base: certificate EarlyEnd at byte 1
> SBY [t] DONE (ERROR, rc=16)

file s0 c 
words --judge t.il bmc 1 s0
rc 16
> SBY [t] design: 1 register bits, 1 assert, 0 assume, 0 cover
> SBY [t] engine_0 base: certificate EarlyEnd at byte 2
> SBY [t] DONE (ERROR, rc=16)

file s0 c h
words --judge t.il bmc 1 s0
rc 16
> SBY [t] design: 1 register bits, 1 assert, 0 assume, 0 cover
> SBY [t] engine_0 base: certificate EarlyEnd at byte 3
> SBY [t] DONE (ERROR, rc=16)

file s0 c he
words --judge t.il bmc 1 s0
rc 16
> SBY [t] design: 1 register bits, 1 assert, 0 assume, 0 cover
> SBY [t] engine_0 base: certificate EarlyEnd at byte 4
> SBY [t] DONE (ERROR, rc=16)

file s0 c hel
words --judge t.il bmc 1 s0
rc 16
> SBY [t] design: 1 register bits, 1 assert, 0 assume, 0 cover
> SBY [t] engine_0 base: certificate EarlyEnd at byte 5
> SBY [t] DONE (ERROR, rc=16)

file s0 c hell
words --judge t.il bmc 1 s0
rc 16
> SBY [t] design: 1 register bits, 1 assert, 0 assume, 0 cover
> SBY [t] engine_0 base: certificate EarlyEnd at byte 6
> SBY [t] DONE (ERROR, rc=16)

file s0 c hello
words --judge t.il bmc 1 s0
rc 16
> SBY [t] design: 1 register bits, 1 assert, 0 assume, 0 cover
> SBY [t] engine_0 base: certificate EarlyEnd at byte 7
> SBY [t] DONE (ERROR, rc=16)

file s0 c hello|
words --judge t.il bmc 1 s0
rc 16
> SBY [t] design: 1 register bits, 1 assert, 0 assume, 0 cover
> SBY [t] engine_0 base: certificate EarlyEnd at byte 8
> SBY [t] DONE (ERROR, rc=16)

file s0 c hello|-
words --judge t.il bmc 1 s0
rc 16
> SBY [t] design: 1 register bits, 1 assert, 0 assume, 0 cover
> SBY [t] engine_0 base: certificate EarlyEnd at byte 9
> SBY [t] DONE (ERROR, rc=16)

file s0 c hello|-1
words --judge t.il bmc 1 s0
rc 16
> SBY [t] design: 1 register bits, 1 assert, 0 assume, 0 cover
> SBY [t] engine_0 base: certificate EarlyEnd at byte 10
> SBY [t] DONE (ERROR, rc=16)

file s0 c hello|-1 
words --judge t.il bmc 1 s0
rc 16
> SBY [t] design: 1 register bits, 1 assert, 0 assume, 0 cover
> SBY [t] engine_0 base: certificate EarlyEnd at byte 11
> SBY [t] DONE (ERROR, rc=16)

file s0 c hello|-1 0
words --judge t.il bmc 1 s0
rc 16
> SBY [t] design: 1 register bits, 1 assert, 0 assume, 0 cover
> SBY [t] engine_0 base: certificate EarlyEnd at byte 12
> SBY [t] DONE (ERROR, rc=16)

file s0 c hello|-1 0|
words --judge t.il bmc 1 s0
rc 16
> SBY [t] design: 1 register bits, 1 assert, 0 assume, 0 cover
> SBY [t] engine_0 base: certificate EarlyEnd at byte 13
> SBY [t] DONE (ERROR, rc=16)

file s0 v 1 0|
words --judge t.il bmc 2 s0
rc 2
> SBY [t] design: 1 register bits, 1 assert, 0 assume, 0 cover
> SBY [t] base: SAT
> SBY [t] broken: \\a0 at cycle 1
> cycle 0
> \\clk 0
> \\q 0
> \\d 1
> cycle 1
> \\clk 0
> \\q 1
> \\d 0
> SBY [t] DONE (FAIL, rc=2)

file s0 v|v 1|v 0|
words --judge t.il bmc 2 s0
rc 2
> SBY [t] design: 1 register bits, 1 assert, 0 assume, 0 cover
> SBY [t] base: SAT
> SBY [t] broken: \\a0 at cycle 1
> cycle 0
> \\clk 0
> \\q 0
> \\d 1
> cycle 1
> \\clk 0
> \\q 1
> \\d 0
> SBY [t] DONE (FAIL, rc=2)";

// Words, and calls that fail: three calls put the files.
const CALLS: &str = "words
rc 16
> <USAGE>

words --judge t.il live 1
rc 16
> <USAGE>

words --gen 1
rc 16
> <USAGE>

words --help
rc 16
> <USAGE>

words -j
rc 16
> <USAGE>

words -j 0 two.sby
rc 16
> <USAGE>

words -j 65 two.sby
rc 16
> <USAGE>

words -j x two.sby
rc 16
> <USAGE>

words -j 2 --gen 5
rc 16
> <USAGE>

words -j 2 --judge t.il bmc 1
rc 16
> <USAGE>

words -j 2 --dumptasks two.sby
rc 16
> <USAGE>

words -d w --judge t.il bmc 1 s0
> SBY [w] design: 1 register bits, 1 assert, 0 assume, 0 cover
> SBY [w] base: UNSAT
> SBY [w] DONE (PASS, rc=0)

words --judge t.il bmc 1
rc 4
> SBY [t] design: 1 register bits, 1 assert, 0 assume, 0 cover
> SBY [t] engine_0 base: not served
> SBY [t] DONE (UNKNOWN, rc=4)

words --judge t.il bmc 1 s0 s1
rc 16
> SBY [t] ERROR: streams
> SBY [t] DONE (ERROR, rc=16)

words --judge u.il bmc 1 s0
rc 16
> SBY [u] ERROR: file u.il
> SBY [u] DONE (ERROR, rc=16)

words --judge t.il bmc 1 s2
rc 16
> SBY [t] ERROR: file s2
> SBY [t] DONE (ERROR, rc=16)

fail 4
words --judge t.il bmc 1 s0
rc 16
> SBY [t] ERROR: file t.il
> SBY [t] DONE (ERROR, rc=16)

fail 5
words --judge t.il bmc 1 s0
rc 16
> SBY [t] ERROR: file t/model/base.cnf
> SBY [t] DONE (ERROR, rc=16)

fail 6
words --judge t.il bmc 1 s0
rc 16
> SBY [t] ERROR: file s0
> SBY [t] DONE (ERROR, rc=16)

cut 1
words --judge t.il bmc 1 s0
rc 16

cut 2
words --judge t.il bmc 1 s0
rc 16
> SBY [t] design: 1 register bits, 1 assert, 0 assume, 0 cover

cut 3
words --judge t.il bmc 1 s0
rc 16
> SBY [t] design: 1 register bits, 1 assert, 0 assume, 0 cover
> SBY [t] base: UNSAT

cut 4
words --judge t.il bmc 1 s0
> SBY [t] design: 1 register bits, 1 assert, 0 assume, 0 cover
> SBY [t] base: UNSAT
> SBY [t] DONE (PASS, rc=0)";

// A run that breaks the assertion leaves a trace file: three calls put files, two get files, and one puts that of the job.
const TRACES: &str = "rc 2
> SBY [t] design: 1 register bits, 1 assert, 0 assume, 0 cover
> SBY [t] base: SAT
> SBY [t] broken: \\a0 at cycle 1
> cycle 0
> \\clk 0
> \\q 0
> \\d 1
> cycle 1
> \\clk 0
> \\q 1
> \\d 0
> SBY [t] DONE (FAIL, rc=2)
left t/trace.vcd $scope module t $end|$var wire 1 w0 clk $end|$var wire 1 w1 q $end|$var wire 1 w2 d $end|$upscope $end|$enddefinitions $end|#0|0w0|0w1|1w2|#1|0w0|1w1|0w2|#2|

fail 7
rc 2
> SBY [t] design: 1 register bits, 1 assert, 0 assume, 0 cover
> SBY [t] base: SAT
> SBY [t] broken: \\a0 at cycle 1
> cycle 0
> \\clk 0
> \\q 0
> \\d 1
> cycle 1
> \\clk 0
> \\q 1
> \\d 0
> SBY [t] not written: t/trace.vcd
> SBY [t] DONE (FAIL, rc=2)
missing t/trace.vcd";

#[test]
fn stored_streams_are_judged(rt: HostRuntime) -> Result<(), Fail> {
    for (head, scenes) in [
        ("file t.il <T>", STREAMS),
        (
            "file t.il <T>
file s0 0|
file s1 0|",
            CALLS,
        ),
        (
            "file t.il <T>
file s0 v 1 0|
file s1 v 1 0|
words --judge t.il bmc 2 s0",
            TRACES,
        ),
    ] {
        assert_eq!(rt; first_wrong(&rt, NAMES, head, scenes)?, None);
    }
    Ok(())
}
