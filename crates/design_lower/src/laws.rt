//! Laws of lowering: each function's contract is a law, and its body is empty.

ghost use Rattle.std.specs.Prelude.{◌≡◌, ◌↔◌, ◌+◌, ◌≤◌, ◌^◌, ℕ, List, length};
ghost use Rattle.design_core.specs.Shape.{DesignOf, IsDesign, wire_bits};
ghost use Rattle.design_meaning.specs.Claims.{NeverBreak, NoBreak, NoReach, ReachRun, Shows};
ghost use Rattle.design_meaning.specs.Meaning.{Run, Valuation};
ghost use Rattle.design_check.specs.Faults.{IsFlat};
ghost use Rattle.design_reader.specs.Grammar.{Reads};
ghost use Rattle.design_lower.specs.Lowering.{IsLowered};
ghost use Rattle.design_lower.specs.Room.{HasRoom};
ghost use Rattle.design_lower.specs.Seen.{IsSeen};

/// A design is flat exactly where the lowered one is.
pub fn lowering_keeps_flatness()
    ensures { (d e : DesignOf) → IsDesign d → IsLowered d e → IsFlat d ↔ IsFlat e }
{}

/// Each run of the lowered design, looked at on the design's wires and free bits, is a run of the design, and each run of the design is
/// so looked at from one of the lowered design.
pub fn lowered_runs_are_runs()
    ensures from { (d e : DesignOf) → IsDesign d → IsLowered d e → (n : ℕ) (ws : ℕ → Valuation) → Run e n ws
        → (vs : ℕ → Valuation) × Run d n vs × ((t : ℕ) → IsSeen d e (vs t) (ws t)) }
    ensures to { (d e : DesignOf) → IsDesign d → IsLowered d e → (n : ℕ) (vs : ℕ → Valuation) → Run d n vs
        → (ws : ℕ → Valuation) × Run e n ws × ((t : ℕ) → IsSeen d e (vs t) (ws t)) }
{}

/// No claim tells a design from the lowered one.
pub fn lowering_keeps_claims()
    ensures spans { (d e : DesignOf) → IsDesign d → IsLowered d e → (k n : ℕ) → NoBreak d k n ↔ NoBreak e k n }
    ensures never { (d e : DesignOf) → IsDesign d → IsLowered d e → NeverBreak d ↔ NeverBreak e }
    ensures shown { (d e : DesignOf) → IsDesign d → IsLowered d e → (n a : ℕ)
        → ((vs : ℕ → Valuation) × Shows d n vs a) ↔ ((ws : ℕ → Valuation) × Shows e n ws a) }
    ensures unreached { (d e : DesignOf) → IsDesign d → IsLowered d e → (n k : ℕ) → NoReach d n k ↔ NoReach e n k }
    ensures reached { (d e : DesignOf) → IsDesign d → IsLowered d e → (n k : ℕ)
        → ((vs : ℕ → Valuation) × ReachRun d n vs k) ↔ ((ws : ℕ → Valuation) × ReachRun e n ws k) }
{}

/// A design has room exactly where the lowered one is within the limits of a design; so where `lower` gives none, no design is the
/// lowered one.
pub fn room_is_for_the_lowered_design()
    ensures { (d e : DesignOf) → IsDesign d → IsLowered d e → HasRoom d ↔ IsDesign e }
{}

/// A flat design with up to half as many bits and cells as a design may have is lowered: no more registers are in it than wire bits.
pub fn flat_designs_have_room()
    ensures { (d : DesignOf) → IsDesign d → IsFlat d → wire_bits d + d.free + wire_bits d ≤ 2 ^ 21 → length d.cells + wire_bits d ≤ 2 ^ 27 → HasRoom d }
{}

/// A design that is read has 2^20 bits and 2^26 cells at most.
pub fn designs_that_are_read_are_small()
    ensures bits { (text : List ℕ) (d : DesignOf) → Reads text d → wire_bits d + d.free ≤ 2 ^ 20 }
    ensures cells { (text : List ℕ) (d : DesignOf) → Reads text d → length d.cells ≤ 2 ^ 26 }
{}

/// So one that is flat is lowered.
pub fn designs_that_are_read_have_room()
    ensures { (text : List ℕ) (d : DesignOf) → IsDesign d → Reads text d → IsFlat d → HasRoom d }
{}
