// A reset in the cycle in which it is read, and in the next.

use crate::tests::played::{play, trace};
use std::alloc::Global;
use std::test::Fail;

// A register that starts with 1 and keeps it but for a reset to 0, whose negation is asserted and whose reset is assumed.
fn text_of(alloc: Global, kind: &str, port: &str) -> Result<String, Fail> {
    Ok(format!(in alloc;
        "module \\t wire input 1 \\clk wire input 2 \\rst attribute \\init 1'1 wire \\q wire \\d
        cell $not $n
          parameter \\A_SIGNED 0 parameter \\A_WIDTH 1 parameter \\Y_WIDTH 1
          connect \\A \\q connect \\Y \\d
        end
        cell {kind} $r
          parameter \\CLK_POLARITY 1'1 parameter \\WIDTH 1 parameter \\{port}_POLARITY 1'1 parameter \\{port}_VALUE 1'0
          connect \\CLK \\clk connect \\{port} \\rst connect \\D \\q connect \\Q \\q
        end
        cell $assert \\a0 connect \\A \\d connect \\EN 1'1 end
        cell $assume \\s0 connect \\A \\rst connect \\EN 1'1 end
        end\n"
    )?)
}

// The register's type and its reset's port, the clock and the reset in each cycle, the rows of the run, and what statements say.
const RUNS: [(&str, &str, &[&str], &str, &str); 3] = [
    (
        "$adff",
        "ARST",
        &["01", "00"],
        "cycle 0\n\\clk 0\n\\rst 1\n\\q 0\n\\d 1\ncycle 1\n\\clk 0\n\\rst 0\n\\q 0\n\\d 1\n",
        ".-",
    ),
    (
        "$adff",
        "ARST",
        &["00", "11"],
        "cycle 0\n\\clk 0\n\\rst 0\n\\q 1\n\\d 0\ncycle 1\n\\clk 1\n\\rst 1\n\\q 0\n\\d 1\n",
        "x.",
    ),
    (
        "$sdff",
        "SRST",
        &["01", "00"],
        "cycle 0\n\\clk 0\n\\rst 1\n\\q 1\n\\d 0\ncycle 1\n\\clk 0\n\\rst 0\n\\q 0\n\\d 1\n",
        "0-",
    ),
];

#[test]
fn resets_are_read(rt: HostRuntime) -> Result<(), Fail> {
    let alloc = rt.alloc();
    for (kind, port, inputs, rows, said) in RUNS {
        let played = play(alloc, &text_of(alloc, kind, port)?, inputs)?;
        assert!(rt;
            trace(alloc, &played)?.as_slice() == rows.as_bytes(),
            "{kind}"
        );
        assert!(rt; played.said.as_str() == said, "{kind}");
    }
    Ok(())
}
