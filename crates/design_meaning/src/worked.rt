//! Worked examples of the table of cells, as laws of its definitions: each function does nothing.

ghost use Rattle.std.specs.Prelude.{◌≡◌, [], true, false};
ghost use Rattle.cell_table.specs.declared.kind.Divide.TheVariants.{Div, Mod};
ghost use Rattle.cell_table.specs.declared.kind.Kind.TheVariants.{
  Adffe,
  Bmux,
  Concat,
  Dffe,
  Divide,
  Pmux,
  Sdffce,
  Sdffe,
  ShiftAny,
  ShiftLeft,
  ShiftRight,
  ShiftSign,
  Slice,
};
ghost use Rattle.design_core.specs.Cells.{cell_fn, next_fn};
ghost use Rattle.design_meaning.specs.Worked.{below_zero, controls, inputs, of_width, word};

/// Shifts of four bits: the sign comes in at `$sshr` alone, and `$shift` moves up by a number below zero.
pub fn worked_shifts()
    ensures sign { cell_fn ShiftSign (of_width true 4) (inputs (word 4 8) (word 4 6) []) ≡ word 4 15 }
    ensures no_sign { cell_fn ShiftSign (of_width false 4) (inputs (word 4 8) (word 4 6) []) ≡ word 4 0 }
    ensures zeros { cell_fn ShiftRight (of_width true 4) (inputs (word 4 8) (word 4 3) []) ≡ word 4 1 }
    ensures left { cell_fn ShiftLeft (of_width false 4) (inputs (word 4 5) (word 4 2) []) ≡ word 4 4 }
    ensures up { cell_fn ShiftAny (of_width true 4) (inputs (word 4 3) (word 2 3) []) ≡ word 4 6 }
{}

/// Quotients and remainders of four bits, by zero too.
pub fn worked_divisions()
    ensures by_zero { cell_fn (Divide Div) (of_width false 4) (inputs (word 4 7) (word 4 0) []) ≡ word 4 15 }
    ensures negative_by_zero { cell_fn (Divide Div) (of_width true 4) (inputs (below_zero 4 3) (word 4 0) []) ≡ word 4 1 }
    ensures positive_by_zero { cell_fn (Divide Div) (of_width true 4) (inputs (word 4 3) (word 4 0) []) ≡ word 4 15 }
    ensures least { cell_fn (Divide Div) (of_width true 4) (inputs (below_zero 4 8) (below_zero 4 1) []) ≡ word 4 8 }
    ensures left_by_zero { cell_fn (Divide Mod) (of_width false 4) (inputs (word 4 7) (word 4 0) []) ≡ word 4 7 }
    ensures left_negative { cell_fn (Divide Mod) (of_width true 4) (inputs (below_zero 4 7) (word 4 2) []) ≡ word 4 15 }
{}

/// Choices and parts of rows: `$pmux` takes the lowest set select, `$bmux` slice number S, `$concat` has B above A.
pub fn worked_choices()
    ensures lowest { cell_fn Pmux (of_width false 2) (inputs (word 2 0) (word 4 6) (word 2 3)) ≡ word 2 2 }
    ensures none { cell_fn Pmux (of_width false 2) (inputs (word 2 1) (word 4 6) (word 2 0)) ≡ word 2 1 }
    ensures number { cell_fn Bmux (of_width false 2) (inputs (word 8 228) [] (word 2 2)) ≡ word 2 2 }
    ensures part { cell_fn Slice (of_width false 2) (inputs (word 4 6) [] []) ≡ word 2 3 }
    ensures joined { cell_fn Concat (of_width false 2) (inputs (word 2 1) (word 2 2) []) ≡ word 4 9 }
{}

/// What registers hold next: `$sdffe` and `$adffe` are reset though they aren't enabled, `$sdffce` isn't.
pub fn worked_registers()
    ensures reset { next_fn Sdffe (of_width false 4) (controls (word 4 9) false true) (word 4 3) ≡ word 4 5 }
    ensures reset_at_once { next_fn Adffe (of_width false 4) (controls (word 4 9) false true) (word 4 3) ≡ word 4 5 }
    ensures enable_first { next_fn Sdffce (of_width false 4) (controls (word 4 9) false true) (word 4 3) ≡ word 4 3 }
    ensures held { next_fn Dffe (of_width false 4) (controls (word 4 9) false false) (word 4 3) ≡ word 4 3 }
    ensures enabled { next_fn Dffe (of_width false 4) (controls (word 4 9) true false) (word 4 3) ≡ word 4 9 }
{}
