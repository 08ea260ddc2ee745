//! Designs as text, for tests.
#![tactic(auto)]

/// The first lines of a design: a clock, and a register's wires.
pub const HEAD: &str =
    "module \\t\n wire input 1 \\clk\n attribute \\init 1'0\n wire \\q\n wire \\d\n";

/// The register's value turned round.
pub const NOT: &str =
    " cell $not $n\n parameter \\A_SIGNED 0\n parameter \\A_WIDTH 1\n parameter \\Y_WIDTH 1\n connect \\A \\q\n connect \\Y \\d\n end\n";

/// The register.
pub const REGISTER: &str =
    " cell $dff $r\n parameter \\CLK_POLARITY 1'1\n parameter \\WIDTH 1\n connect \\CLK \\clk\n connect \\D \\d\n connect \\Q \\q\n end\n";

/// The register must not reach 1.
pub const ASSERT: &str = " cell $assert \\a0\n connect \\A \\d\n connect \\EN 1'1\n end\n";

/// The last line.
pub const END: &str = "end\n";

/// A register that turns over in each cycle, from 0, and must not reach 1.
pub const T: &str =
    "module \\t\n wire input 1 \\clk\n attribute \\init 1'0\n wire \\q\n wire \\d\n cell $not $n\n parameter \\A_SIGNED 0\n parameter \\A_WIDTH 1\n parameter \\Y_WIDTH 1\n connect \\A \\q\n connect \\Y \\d\n end\n cell $dff $r\n parameter \\CLK_POLARITY 1'1\n parameter \\WIDTH 1\n connect \\CLK \\clk\n connect \\D \\d\n connect \\Q \\q\n end\n cell $assert \\a0\n connect \\A \\d\n connect \\EN 1'1\n end\nend\n";

/// A counter of two bits that must not come to 3.
pub const COUNTED: &str = r"module \t
  wire input 1 \clk
  attribute \init 2'00
  wire width 2 \c
  wire width 2 \n
  wire \ok
  cell $add $n
    parameter \A_SIGNED 0 parameter \A_WIDTH 2 parameter \B_SIGNED 0 parameter \B_WIDTH 2 parameter \Y_WIDTH 2
    connect \A \c connect \B 2'01 connect \Y \n
  end
  cell $dff $r
    parameter \CLK_POLARITY 1'1 parameter \WIDTH 2
    connect \CLK \clk connect \D \n connect \Q \c
  end
  cell $ne $k
    parameter \A_SIGNED 0 parameter \A_WIDTH 2 parameter \B_SIGNED 0 parameter \B_WIDTH 2 parameter \Y_WIDTH 1
    connect \A \c connect \B 2'11 connect \Y \ok
  end
  cell $assert \a0 connect \A \ok connect \EN 1'1 end
end
";

/// A counter of two bits, with a cover statement for each value but 0.
pub const COVERED: &str = r"module \t
  wire input 1 \clk
  attribute \init 2'00
  wire width 2 \c
  wire width 2 \n
  wire \e1
  wire \e2
  wire \e3
  cell $add $n
    parameter \A_SIGNED 0 parameter \A_WIDTH 2 parameter \B_SIGNED 0 parameter \B_WIDTH 2 parameter \Y_WIDTH 2
    connect \A \c connect \B 2'01 connect \Y \n
  end
  cell $dff $r
    parameter \CLK_POLARITY 1'1 parameter \WIDTH 2
    connect \CLK \clk connect \D \n connect \Q \c
  end
  cell $eq $k1
    parameter \A_SIGNED 0 parameter \A_WIDTH 2 parameter \B_SIGNED 0 parameter \B_WIDTH 2 parameter \Y_WIDTH 1
    connect \A \c connect \B 2'01 connect \Y \e1
  end
  cell $eq $k2
    parameter \A_SIGNED 0 parameter \A_WIDTH 2 parameter \B_SIGNED 0 parameter \B_WIDTH 2 parameter \Y_WIDTH 1
    connect \A \c connect \B 2'10 connect \Y \e2
  end
  cell $eq $k3
    parameter \A_SIGNED 0 parameter \A_WIDTH 2 parameter \B_SIGNED 0 parameter \B_WIDTH 2 parameter \Y_WIDTH 1
    connect \A \c connect \B 2'11 connect \Y \e3
  end
  cell $cover \v1 connect \A \e1 connect \EN 1'1 end
  cell $cover \v2 connect \A \e2 connect \EN 1'1 end
  cell $cover \v3 connect \A \e3 connect \EN 1'1 end
end
";

/// `$initstate` through two registers, which must not come through.
pub const INITIAL: &str = r"module \t
  wire input 1 \clk
  wire \i
  attribute \init 1'0
  wire \p1
  attribute \init 1'0
  wire \p2
  wire \ok
  cell $initstate $i connect \Y \i end
  cell $dff $r1
    parameter \CLK_POLARITY 1'1 parameter \WIDTH 1
    connect \CLK \clk connect \D \i connect \Q \p1
  end
  cell $dff $r2
    parameter \CLK_POLARITY 1'1 parameter \WIDTH 1
    connect \CLK \clk connect \D \p1 connect \Q \p2
  end
  cell $not $n
    parameter \A_SIGNED 0 parameter \A_WIDTH 1 parameter \Y_WIDTH 1
    connect \A \p2 connect \Y \ok
  end
  cell $assert \a0 connect \A \ok connect \EN 1'1 end
end
";
