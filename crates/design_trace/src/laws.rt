// Laws of the text and of the trace file of a run.

ghost use Rattle.std.specs.Prelude.{◌≡◌, ◌<◌, ℕ, List, [], ◌∷◌, ◌++◌, length};
ghost use Rattle.std.specs.List.{enumerate_from, flat_map};
ghost use Rattle.sby_bits.specs.Rows.{Row};
ghost use Rattle.design_meaning.specs.Runs.{CycleOf, IsRunOf, shown_of, valuations};
ghost use Rattle.design_core.specs.Shape.{DesignOf};
ghost use Rattle.design_trace.specs.Changes.{time_line, vcd, vcd_cycle, vcd_head};
ghost use Rattle.design_trace.specs.Printed.{Prints, PrintsChanges};
ghost use Rattle.design_trace.specs.Trace.{IsTrace, cycle_text, trace};

/// Bytes are the text of what the wires have in at most one way. So to read the text of a run gives that run's wires.
pub fn text_has_one_run()
    ensures { (d : DesignOf) (a b : List Row) (bytes : List ℕ) → IsTrace d a bytes → IsTrace d b bytes → a ≡ b }
{}

/// The text of a run of at least one cycle is a trace, of what its wires have.
pub fn written_run_is_trace()
    ensures { (d : DesignOf) (run : List CycleOf) → IsRunOf d run → 0 < length run → IsTrace d (shown_of run) (trace d (shown_of run)) }
{}

/// The text of a run shows, cycle by cycle and wire by wire, the values of which claims on this run speak.
pub fn text_shows_the_run()
    ensures { (d : DesignOf) (run : List CycleOf) → IsRunOf d run → Prints d (length run) (valuations d run) (trace d (shown_of run)) }
{}

/// The text of a run is the texts of its cycles, one after the other, from cycle 0 on; with one cycle more, that cycle's text comes
/// after.
pub fn text_is_its_cycles()
    ensures whole { (d : DesignOf) (rows : List Row) → trace d rows ≡ flat_map (λ p. cycle_text d p.0 p.1) (enumerate_from 0 rows) }
    ensures more { (d : DesignOf) (rows : List Row) (row : Row) → trace d (rows ++ row ∷ []) ≡ trace d rows ++ cycle_text d (length rows) row }
{}

/// A trace file is its head, its cycles, one after the other, from cycle 0 on, and its end.
pub fn vcd_is_its_pieces()
    ensures { (d : DesignOf) (rows : List Row) → vcd d rows ≡ vcd_head d ++ (flat_map (λ p. vcd_cycle d p.0 p.1) (enumerate_from 0 rows) ++ time_line (length rows)) }
{}

/// The trace file of a run shows, cycle by cycle and wire by wire, the values of which claims on this run speak.
pub fn vcd_shows_the_run()
    ensures { (d : DesignOf) (run : List CycleOf) → IsRunOf d run → PrintsChanges d (length run) (valuations d run) (vcd d (shown_of run)) }
{}
