// Generated rings and their task files, byte by byte.

use gen_design::{design, task_file};
use std::test::Fail;

const RING_OF_TWO: &str = r"module \gen
  wire input 1 \clk
  wire input 2 \en
  attribute \init 1'1
  wire \q0
  wire \y0
  wire \ok0
  attribute \init 1'0
  wire \q1
  wire \y1
  wire \ok1
  cell $dffe $r0
    parameter \CLK_POLARITY 1'1
    parameter \EN_POLARITY 1'1
    parameter \WIDTH 1
    connect \CLK \clk
    connect \D \q1
    connect \EN \en
    connect \Q \q0
  end
  cell $and $c0
    parameter \A_SIGNED 0
    parameter \A_WIDTH 1
    parameter \B_SIGNED 0
    parameter \B_WIDTH 1
    parameter \Y_WIDTH 1
    connect \A \q0
    connect \B \q1
    connect \Y \y0
  end
  cell $not $n0
    parameter \A_SIGNED 0
    parameter \A_WIDTH 1
    parameter \Y_WIDTH 1
    connect \A \y0
    connect \Y \ok0
  end
  cell $assert \a0
    connect \A \ok0
    connect \EN 1'1
  end
  cell $dffe $r1
    parameter \CLK_POLARITY 1'1
    parameter \EN_POLARITY 1'1
    parameter \WIDTH 1
    connect \CLK \clk
    connect \D \q0
    connect \EN \en
    connect \Q \q1
  end
  cell $and $c1
    parameter \A_SIGNED 0
    parameter \A_WIDTH 1
    parameter \B_SIGNED 0
    parameter \B_WIDTH 1
    parameter \Y_WIDTH 1
    connect \A \q1
    connect \B \q0
    connect \Y \y1
  end
  cell $not $n1
    parameter \A_SIGNED 0
    parameter \A_WIDTH 1
    parameter \Y_WIDTH 1
    connect \A \y1
    connect \Y \ok1
  end
  cell $assert \a1
    connect \A \ok1
    connect \EN 1'1
  end
end
";

const TASK_OF_TWO: &str = r"[options]
mode prove
depth 4
[engines]
sat
sat
[script]
read_rtlil gen.il
[file gen.il]
";

// The last lines of a ring of 10,000.
const LAST_LINES: &str = r"
  cell $and $c9999
    parameter \A_SIGNED 0
    parameter \A_WIDTH 1
    parameter \B_SIGNED 0
    parameter \B_WIDTH 1
    parameter \Y_WIDTH 1
    connect \A \q9999
    connect \B \q0
    connect \Y \y9999
  end
  cell $not $n9999
    parameter \A_SIGNED 0
    parameter \A_WIDTH 1
    parameter \Y_WIDTH 1
    connect \A \y9999
    connect \Y \ok9999
  end
  cell $assert \a9999
    connect \A \ok9999
    connect \EN 1'1
  end
end
";

#[test]
fn writes_a_ring_of_two(rt: HostRuntime) -> Result<(), Fail> {
    let ring = design(rt.alloc(), 2)?;
    assert!(rt; ring.as_slice() == RING_OF_TWO.as_bytes());
    let mut wanted = String::new(rt.alloc());
    wanted.push_str(TASK_OF_TWO)?;
    wanted.push_str(RING_OF_TWO)?;
    let task = task_file(rt.alloc(), 2)?;
    assert!(rt; task.as_slice() == wanted.as_bytes());
    Ok(())
}

#[test]
fn writes_a_ring_of_ten_thousand(rt: HostRuntime) -> Result<(), Fail> {
    let ring = design(rt.alloc(), 10_000)?;
    assert_eq!(rt; ring.len(), 6_963_405);
    assert!(rt; ring.as_slice().ends_with(LAST_LINES.as_bytes()));
    Ok(())
}
