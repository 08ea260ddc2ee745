// Designs, and their faults.

use crate::names::NAMES;
use run_scenes::first_wrong;
use std::test::Fail;

// Statements, start digits, faults of designs, and inverters after each other.
const DESIGNS: &str = "file t.il <HEAD>|<NOT>|<REGISTER>|<END>
file s0 0|
words --judge t.il bmc 5 s0
> SBY [t] design: 1 register bits, 0 assert, 0 assume, 0 cover
> SBY [t] base: UNSAT
> SBY [t] DONE (PASS, rc=0)
left t/model/base.cnf p cnf 1 1|0|

file t.il <OPEN_HEAD>|<NOT>|<REGISTER>|<ASSERT>|<END>
file s0 0|
words --judge t.il bmc 1 s0
rc 16
> SBY [t] design: 1 register bits, 1 assert, 0 assume, 0 cover
> SBY [t] engine_0 base: certificate NotRup at byte 0
> SBY [t] DONE (ERROR, rc=16)

file t.il x
file s0 0|
words --judge t.il bmc 1 s0
rc 16
> SBY [t] ERROR: rtlil byte 0: Syntax
> SBY [t] DONE (ERROR, rc=16)
missing t/model/base.cnf

file t.il <HEAD>|<NO_TYPE>|<END>
file s0 0|
words --judge t.il bmc 1 s0
rc 16
> SBY [t] ERROR: design UnknownCell $n
> SBY [t] DONE (ERROR, rc=16)

file t.il <HEAD>|<NO_WIDTH>|<END>
file s0 0|
words --judge t.il bmc 1 s0
rc 16
> SBY [t] ERROR: design BadParameter $n
> SBY [t] DONE (ERROR, rc=16)

file t.il <HEAD>|<NO_PORT>|<END>
file s0 0|
words --judge t.il bmc 1 s0
rc 16
> SBY [t] ERROR: design PortWidth $n
> SBY [t] DONE (ERROR, rc=16)

file t.il <HEAD>|<NOT>|<TWO>|<END>
file s0 0|
words --judge t.il bmc 1 s0
rc 16
> SBY [t] ERROR: design TwoDrivers \\d [0]
> SBY [t] DONE (ERROR, rc=16)
missing t/model/base.cnf

file t.il <HEAD>|<REGISTER>|<FALLING>|<END>
file s0 0|
words --judge t.il bmc 1 s0
rc 16
> SBY [t] ERROR: design MultiClock $s
> SBY [t] DONE (ERROR, rc=16)

file t.il <HEAD>|<LOOP>|<END>
file s0 0|
words --judge t.il bmc 1 s0
rc 16
> SBY [t] ERROR: design Loop $n
> SBY [t] DONE (ERROR, rc=16)

file t.il <HEAD>|<NOT>|<REGISTER>|<END>
file s0 v 0|
words --judge t.il bmc 5 s0
rc 16
> SBY [t] design: 1 register bits, 0 assert, 0 assume, 0 cover
> SBY [t] engine_0 base: certificate NotSatisfying clause 1
> SBY [t] DONE (ERROR, rc=16)

file t.il module \\t| wire input 1 \\clk| attribute \\init 1'1| wire \\w| wire \\wa| wire \\wb| wire \\wc| wire \\wd| wire \\we| wire \\wf| wire \\wg| wire \\wh| wire \\wi| wire \\wj| wire \\wk| wire \\wl| wire \\wm| wire \\wn| wire \\wo| wire \\wp| wire \\wq| wire \\wr| wire \\ws| wire \\wt| wire \\wu| wire \\wv| wire \\ww| wire \\wx| wire \\wy| wire \\wz| cell $not $na| parameter \\A_SIGNED 0| parameter \\A_WIDTH 1| parameter \\Y_WIDTH 1| connect \\A \\w| connect \\Y \\wa| end| cell $not $nb| parameter \\A_SIGNED 0| parameter \\A_WIDTH 1| parameter \\Y_WIDTH 1| connect \\A \\wa| connect \\Y \\wb| end| cell $not $nc| parameter \\A_SIGNED 0| parameter \\A_WIDTH 1| parameter \\Y_WIDTH 1| connect \\A \\wb| connect \\Y \\wc| end| cell $not $nd| parameter \\A_SIGNED 0| parameter \\A_WIDTH 1| parameter \\Y_WIDTH 1| connect \\A \\wc| connect \\Y \\wd| end| cell $not $ne| parameter \\A_SIGNED 0| parameter \\A_WIDTH 1| parameter \\Y_WIDTH 1| connect \\A \\wd| connect \\Y \\we| end| cell $not $nf| parameter \\A_SIGNED 0| parameter \\A_WIDTH 1| parameter \\Y_WIDTH 1| connect \\A \\we| connect \\Y \\wf| end| cell $not $ng| parameter \\A_SIGNED 0| parameter \\A_WIDTH 1| parameter \\Y_WIDTH 1| connect \\A \\wf| connect \\Y \\wg| end| cell $not $nh| parameter \\A_SIGNED 0| parameter \\A_WIDTH 1| parameter \\Y_WIDTH 1| connect \\A \\wg| connect \\Y \\wh| end| cell $not $ni| parameter \\A_SIGNED 0| parameter \\A_WIDTH 1| parameter \\Y_WIDTH 1| connect \\A \\wh| connect \\Y \\wi| end| cell $not $nj| parameter \\A_SIGNED 0| parameter \\A_WIDTH 1| parameter \\Y_WIDTH 1| connect \\A \\wi| connect \\Y \\wj| end| cell $not $nk| parameter \\A_SIGNED 0| parameter \\A_WIDTH 1| parameter \\Y_WIDTH 1| connect \\A \\wj| connect \\Y \\wk| end| cell $not $nl| parameter \\A_SIGNED 0| parameter \\A_WIDTH 1| parameter \\Y_WIDTH 1| connect \\A \\wk| connect \\Y \\wl| end| cell $not $nm| parameter \\A_SIGNED 0| parameter \\A_WIDTH 1| parameter \\Y_WIDTH 1| connect \\A \\wl| connect \\Y \\wm| end| cell $not $nn| parameter \\A_SIGNED 0| parameter \\A_WIDTH 1| parameter \\Y_WIDTH 1| connect \\A \\wm| connect \\Y \\wn| end| cell $not $no| parameter \\A_SIGNED 0| parameter \\A_WIDTH 1| parameter \\Y_WIDTH 1| connect \\A \\wn| connect \\Y \\wo| end| cell $not $np| parameter \\A_SIGNED 0| parameter \\A_WIDTH 1| parameter \\Y_WIDTH 1| connect \\A \\wo| connect \\Y \\wp| end| cell $not $nq| parameter \\A_SIGNED 0| parameter \\A_WIDTH 1| parameter \\Y_WIDTH 1| connect \\A \\wp| connect \\Y \\wq| end| cell $not $nr| parameter \\A_SIGNED 0| parameter \\A_WIDTH 1| parameter \\Y_WIDTH 1| connect \\A \\wq| connect \\Y \\wr| end| cell $not $ns| parameter \\A_SIGNED 0| parameter \\A_WIDTH 1| parameter \\Y_WIDTH 1| connect \\A \\wr| connect \\Y \\ws| end| cell $not $nt| parameter \\A_SIGNED 0| parameter \\A_WIDTH 1| parameter \\Y_WIDTH 1| connect \\A \\ws| connect \\Y \\wt| end| cell $not $nu| parameter \\A_SIGNED 0| parameter \\A_WIDTH 1| parameter \\Y_WIDTH 1| connect \\A \\wt| connect \\Y \\wu| end| cell $not $nv| parameter \\A_SIGNED 0| parameter \\A_WIDTH 1| parameter \\Y_WIDTH 1| connect \\A \\wu| connect \\Y \\wv| end| cell $not $nw| parameter \\A_SIGNED 0| parameter \\A_WIDTH 1| parameter \\Y_WIDTH 1| connect \\A \\wv| connect \\Y \\ww| end| cell $not $nx| parameter \\A_SIGNED 0| parameter \\A_WIDTH 1| parameter \\Y_WIDTH 1| connect \\A \\ww| connect \\Y \\wx| end| cell $not $ny| parameter \\A_SIGNED 0| parameter \\A_WIDTH 1| parameter \\Y_WIDTH 1| connect \\A \\wx| connect \\Y \\wy| end| cell $not $nz| parameter \\A_SIGNED 0| parameter \\A_WIDTH 1| parameter \\Y_WIDTH 1| connect \\A \\wy| connect \\Y \\wz| end| cell $dff $r| parameter \\CLK_POLARITY 1'1| parameter \\WIDTH 1| connect \\CLK \\clk| connect \\D \\wz| connect \\Q \\w| end| cell $assert \\a0| connect \\A \\wz| connect \\EN 1'1| end|end|
file s0 0|
words --judge t.il bmc 1 s0
> SBY [t] design: 1 register bits, 1 assert, 0 assume, 0 cover
> SBY [t] base: UNSAT
> SBY [t] DONE (PASS, rc=0)";

// A counter of two bits that must not reach 3: its first wires, the assertion's EN, the depth, and with an assumption.
const COUNTERS: &str = "file t.il <PLAIN>|<COUNTER>|1'1| end|end|
words --judge t.il bmc 3 s0
> SBY [t] design: 2 register bits, 1 assert, 0 assume, 0 cover
> SBY [t] base: UNSAT
> SBY [t] DONE (PASS, rc=0)

file t.il <PLAIN>|<COUNTER>|1'1| end|end|
words --judge t.il bmc 4 s0
rc 16
> SBY [t] design: 2 register bits, 1 assert, 0 assume, 0 cover
> SBY [t] engine_0 base: certificate NotRup at byte 0
> SBY [t] DONE (ERROR, rc=16)

file t.il <ALIASED>|<COUNTER>|1'1| end|end|
words --judge t.il bmc 3 s0
> SBY [t] design: 2 register bits, 1 assert, 0 assume, 0 cover
> SBY [t] base: UNSAT
> SBY [t] DONE (PASS, rc=0)

file t.il <ALIASED>|<COUNTER>|1'1| end|end|
words --judge t.il bmc 4 s0
rc 16
> SBY [t] design: 2 register bits, 1 assert, 0 assume, 0 cover
> SBY [t] engine_0 base: certificate NotRup at byte 0
> SBY [t] DONE (ERROR, rc=16)

file t.il <OPEN>|<COUNTER>|1'1| end|end|
words --judge t.il bmc 1 s0
rc 16
> SBY [t] design: 2 register bits, 1 assert, 0 assume, 0 cover
> SBY [t] engine_0 base: certificate NotRup at byte 0
> SBY [t] DONE (ERROR, rc=16)

file t.il <PLAIN>|<COUNTER>|\\q [0]| end|end|
words --judge t.il bmc 4 s0
rc 16
> SBY [t] design: 2 register bits, 1 assert, 0 assume, 0 cover
> SBY [t] engine_0 base: certificate NotRup at byte 0
> SBY [t] DONE (ERROR, rc=16)

file t.il <PLAIN>|<COUNTER>|\\d [0]| end|end|
words --judge t.il bmc 8 s0
> SBY [t] design: 2 register bits, 1 assert, 0 assume, 0 cover
> SBY [t] base: UNSAT
> SBY [t] DONE (PASS, rc=0)

file t.il <PLAIN>|<COUNTER>|1'1| end| cell $assume \\s| connect \\A \\ok| connect \\EN 1'1| end|end|
words --judge t.il bmc 4 s0
> SBY [t] design: 2 register bits, 1 assert, 1 assume, 0 cover
> SBY [t] base: UNSAT
> SBY [t] DONE (PASS, rc=0)

file t.il <PLAIN>|<COUNTER>|1'1| end| cell $assume \\s| connect \\A \\d [0]| connect \\EN 1'1| end|end|
words --judge t.il bmc 4 s0
> SBY [t] design: 2 register bits, 1 assert, 1 assume, 0 cover
> SBY [t] base: UNSAT
> SBY [t] DONE (PASS, rc=0)

file t.il <PLAIN>|<COUNTER>|1'1| end| cell $assume \\s| connect \\A \\d [0]| connect \\EN \\three| end|end|
words --judge t.il bmc 4 s0
> SBY [t] design: 2 register bits, 1 assert, 1 assume, 0 cover
> SBY [t] base: UNSAT
> SBY [t] DONE (PASS, rc=0)

file t.il <PLAIN>|<COUNTER>|1'1| end| cell $assume \\s| connect \\A \\q [0]| connect \\EN \\three| end|end|
words --judge t.il bmc 4 s0
rc 16
> SBY [t] design: 2 register bits, 1 assert, 1 assume, 0 cover
> SBY [t] engine_0 base: certificate NotRup at byte 0
> SBY [t] DONE (ERROR, rc=16)";

#[test]
fn designs_are_judged(rt: HostRuntime) -> Result<(), Fail> {
    for (head, scenes) in [("", DESIGNS), ("file s0 0|", COUNTERS)] {
        assert_eq!(rt; first_wrong(&rt, NAMES, head, scenes)?, None);
    }
    Ok(())
}
