// The rows of whole runs.

use crate::tests::played::{play, trace};
use std::test::Fail;
use test_designs::{COUNTED, COVERED, INITIAL};

const COUNTED_RUN: &str = r"cycle 0
\clk 0
\c 00
\n 01
\ok 1
cycle 1
\clk 1
\c 01
\n 10
\ok 1
cycle 2
\clk 1
\c 10
\n 11
\ok 1
cycle 3
\clk 0
\c 11
\n 00
\ok 0
cycle 4
\clk 1
\c 00
\n 01
\ok 1
";

const COVERED_RUN: &str = r"cycle 0
\clk 1
\c 00
\n 01
\e1 0
\e2 0
\e3 0
cycle 1
\clk 0
\c 01
\n 10
\e1 1
\e2 0
\e3 0
cycle 2
\clk 0
\c 10
\n 11
\e1 0
\e2 1
\e3 0
cycle 3
\clk 1
\c 11
\n 00
\e1 0
\e2 0
\e3 1
";

const INITIAL_RUN: &str = r"cycle 0
\clk 1
\i 1
\p1 0
\p2 0
\ok 1
cycle 1
\clk 0
\i 0
\p1 1
\p2 0
\ok 1
cycle 2
\clk 1
\i 0
\p1 0
\p2 1
\ok 0
cycle 3
\clk 1
\i 0
\p1 0
\p2 0
\ok 1
";

// Designs, their inputs cycle by cycle, the rows of the run, and what statements say.
const RUNS: [(&str, &[&str], &str, &str); 3] = [
    (COUNTED, &["0", "1", "1", "0", "1"], COUNTED_RUN, "...0."),
    (COVERED, &["1", "0", "0", "1"], COVERED_RUN, ".abc"),
    (INITIAL, &["1", "0", "1", "1"], INITIAL_RUN, "..0."),
];

#[test]
fn rows_are_played(rt: HostRuntime) -> Result<(), Fail> {
    for (text, inputs, rows, said) in RUNS {
        let played = play(rt.alloc(), text, inputs)?;
        assert_eq!(rt; trace(rt.alloc(), &played)?.as_slice(), rows.as_bytes());
        assert_eq!(rt; played.said.as_str(), said);
    }
    Ok(())
}
