//! Laws of the definitions: each function's contract is a law, and its body is empty.

ghost use Rattle.std.specs.Prelude.{◌≡◌, ◌⊎◌, ◌<◌, ◌≤◌, ℕ, map, slice_get, Some, Contains};
ghost use Rattle.design_core.specs.Shape.{CellOf, DesignOf, WireOf};
ghost use Rattle.design_meaning.specs.Claims.{NeverBreak, NoBreak, Shows};
ghost use Rattle.design_meaning.specs.Meaning.{Chain, Frame, Run, Valuation, bit_in, held_row};
ghost use Rattle.design_meaning.specs.States.{given, input_bits, state_in, state_of};
ghost use Rattle.design_signals.specs.declared.sig_bit.SigBit.{SigBit};

/// What doesn't break within a span of cycles doesn't break within any span inside it.
pub fn no_break_narrows()
    ensures { (d : DesignOf) (k n l m : ℕ) → NoBreak d k n → k ≤ l → m ≤ n → NoBreak d l m }
{}

/// What breaks in none of two spans that meet doesn't break within both together.
pub fn neighbouring_spans_join()
    ensures { (d : DesignOf) (k m n : ℕ) → NoBreak d k m → NoBreak d m n → NoBreak d k n }
{}

/// Never to break is not to break within any number of cycles.
pub fn never_break_is_every_no_break()
    ensures never { (d : DesignOf) → ((n : ℕ) → NoBreak d 0 n) → NeverBreak d }
    ensures every { (d : DesignOf) → NeverBreak d → (k n : ℕ) → NoBreak d k n }
{}

/// A run that is cut after any of its cycles is a run.
pub fn cut_run_is_run()
    ensures { (d : DesignOf) (n : ℕ) (vs : ℕ → Valuation) → Run d n vs → (m : ℕ) → 0 < m → m ≤ n → Run d m vs }
{}

/// A run that shows a break within a span contradicts that nothing breaks within it.
pub fn shown_break_contradicts_no_break()
    ensures { (d : DesignOf) (k n m : ℕ) (vs : ℕ → Valuation) (a : ℕ) → NoBreak d k n → k < m → m ≤ n → Shows d m vs a → ⊥ }
{}

/// In each cycle the two ends of a chain of connects have one value.
pub fn chains_are_equal()
    ensures { (d : DesignOf) (v : Valuation) → Frame d v → (n : ℕ) (b a : SigBit) → Chain d n b a → bit_in v b ≡ bit_in v a }
{}

/// A cell's state bits are what it holds, bit by bit.
pub fn state_bits_are_held()
    ensures { (v : Valuation) (i : ℕ) (c : CellOf) → map (state_in v) (state_of (i, c)) ≡ held_row v i c }
{}

/// Each bit of a wire is given a value by a cell or a connect, or is an input, and none is both.
pub fn bits_are_given_or_inputs()
    ensures some { (d : DesignOf) (w b : ℕ) (x : WireOf) → slice_get d.wires w ≡ Some x → b < x.width
        → Contains (given d) (SigBit.Wire w b) ⊎ Contains (input_bits d) (SigBit.Wire w b) }
    ensures one { (d : DesignOf) (w b : ℕ) → Contains (given d) (SigBit.Wire w b) → Contains (input_bits d) (SigBit.Wire w b) → ⊥ }
{}
