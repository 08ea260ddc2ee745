// Designs as text of BTOR2.

use btor_emit::emit::emit;
use btor_emit::goal::Goal;
use btor_text::write;
use design_check::check::check;
use design_check::flat::Flat;
use design_reader::read;
use source_rows::source_rows;
use std::alloc::Global;
use std::test::Fail;
use test_designs::{COUNTED, T};
use word_model::build::build;

const TURNED_LINES: &str =
    "1 sort bitvec 1\n2 zero 1\n3 state 1\n4 init 1 3 2\n5 not 1 3\n6 next 1 3 5\n7 ones 1\n8 not 1 5\n9 and 1 7 8\n10 bad 9\n";

// A register of three bits, of which the middle one may start with either value, with an enable, under an assumption on an input.
const KEPT: &str = r"module \t
  wire input 1 \clk
  wire input 2 \e
  wire width 3 input 3 \d
  attribute \init 3'1x0
  wire width 3 \q
  cell $dffe $r
    parameter \CLK_POLARITY 1'1 parameter \EN_POLARITY 1'0 parameter \WIDTH 3
    connect \CLK \clk connect \D \d connect \EN \e connect \Q \q
  end
  cell $assume \m connect \A \e connect \EN \d [0] end
  cell $cover \v connect \A \q [1] connect \EN \q [2] end
end
";

const COUNTED_LINES: &str =
    "1 sort bitvec 2\n2 zero 1\n3 state 1\n4 init 1 3 2\n5 const 1 01\n6 add 1 3 5\n7 ones 1\n\
8 sort bitvec 1\n9 neq 8 3 7\n10 next 1 3 6\n11 ones 8\n12 not 8 9\n13 and 8 11 12\n14 bad 13\n";

const KEPT_LINES: &str =
    "1 sort bitvec 1\n2 zero 1\n3 state 1\n4 init 1 3 2\n5 state 1\n6 ones 1\n7 state 1\n8 init 1 7 6\n\
9 input 1\n10 input 1\n11 input 1\n12 input 1\n13 sort bitvec 2\n14 concat 13 11 10\n15 sort bitvec 3\n16 concat 15 12 14\n\
17 concat 13 5 3\n18 concat 15 7 17\n19 ite 15 9 18 16\n20 slice 1 19 0 0\n21 next 1 3 20\n22 slice 1 19 1 1\n23 next 1 5 22\n\
24 slice 1 19 2 2\n25 next 1 7 24\n26 slice 1 16 0 0\n27 not 1 26\n28 or 1 27 9\n29 constraint 28\n\
30 slice 1 18 1 1\n31 slice 1 18 2 2\n32 and 1 31 30\n33 bad 32\n";

// A word of three bits that has any row in each cycle, and must not be 101 where an input is 1.
const DRIVEN: &str = r"module \t
  wire input 1 \go
  wire width 3 \s
  wire \ok
  cell $anyseq \x parameter \WIDTH 3 connect \Y \s end
  cell $ne \k
    parameter \A_SIGNED 0 parameter \A_WIDTH 3 parameter \B_SIGNED 0 parameter \B_WIDTH 3 parameter \Y_WIDTH 1
    connect \A \s connect \B 3'101 connect \Y \ok
  end
  cell $assert \a0 connect \A \ok connect \EN \go end
end
";

const DRIVEN_LINES: &str =
    "1 sort bitvec 3\n2 input 1\n3 sort bitvec 1\n4 input 3\n5 const 1 101\n6 neq 3 2 5\n7 not 3 6\n8 and 3 4 7\n9 bad 8\n";

// Of such a word one bit alone is read, of another one none.
const PARTLY: &str = r"module \t
  wire width 3 \s
  wire width 2 \unread
  cell $anyseq \x parameter \WIDTH 3 connect \Y \s end
  cell $anyseq \z parameter \WIDTH 2 connect \Y \unread end
  cell $assert \a0 connect \A \s [1] connect \EN 1'1 end
end
";

const PARTLY_LINES: &str =
    "1 sort bitvec 3\n2 input 1\n3 sort bitvec 1\n4 slice 3 2 1 1\n5 ones 3\n6 not 3 4\n7 and 3 5 6\n8 bad 7\n";

// A word whose bits are those of one wire below a bit of the wire before it, of which the other bit is free.
const TURNED_ROUND: &str = r"module \t
  wire width 2 \u
  wire width 2 \v
  cell $anyseq \x parameter \WIDTH 3 connect \Y { \u [0] \v } end
  cell $assert \a0 connect \A \u [0] connect \EN \v [1] end
  cell $assert \a1 connect \A \u [1] connect \EN \v [0] end
end
";

const TURNED_ROUND_LINES: &str =
    "1 sort bitvec 3\n2 input 1\n3 sort bitvec 1\n4 input 3\n5 slice 3 2 2 2\n6 slice 3 2 1 1\n7 not 3 5\n8 and 3 6 7\n9 bad 8\n\
10 slice 3 2 0 0\n11 not 3 4\n12 and 3 10 11\n13 bad 12\n";

fn flat_of(alloc: Global, text: &str) -> Result<Flat, Fail> {
    let Ok(design) = read(alloc, text.as_bytes())? else {
        return Err(Fail::from("not read"));
    };
    match check(alloc, design)? {
        Ok(flat) => Ok(flat),
        Err(_) => Err(Fail::from("not flat")),
    }
}

fn text_of(alloc: Global, design: &str, goal: Goal) -> Result<Vec<u8>, Fail> {
    let flat = flat_of(alloc, design)?;
    let model = build(alloc, &flat)?;
    let rows = source_rows(alloc, &flat)?;
    let emitted = emit(alloc, &model, &rows, goal)?;
    let text = write(alloc, &emitted.model)?;
    Ok(text)
}

#[test]
fn designs_are_written_whole(rt: HostRuntime) -> Result<(), Fail> {
    let text = text_of(rt.alloc(), T, Goal::Asserts)?;
    assert!(rt; text.as_slice() == TURNED_LINES.as_bytes());
    let text = text_of(rt.alloc(), COUNTED, Goal::Asserts)?;
    assert!(rt; text.as_slice() == COUNTED_LINES.as_bytes());
    let text = text_of(rt.alloc(), KEPT, Goal::Cover(0))?;
    assert!(rt; text.as_slice() == KEPT_LINES.as_bytes());
    Ok(())
}

#[test]
fn sources_are_inputs_of_their_width(rt: HostRuntime) -> Result<(), Fail> {
    for (design, lines) in [
        (DRIVEN, DRIVEN_LINES),
        (PARTLY, PARTLY_LINES),
        (TURNED_ROUND, TURNED_ROUND_LINES),
    ] {
        let text = text_of(rt.alloc(), design, Goal::Asserts)?;
        assert!(rt; text.as_slice() == lines.as_bytes());
    }
    Ok(())
}
