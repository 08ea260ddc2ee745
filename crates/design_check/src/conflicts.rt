// Registers' bits with two start digits.

ghost use Rattle.std.specs.Prelude.{◌≡◌, ◌<◌, ℕ, All, IfNone, IfSome, MatchOption, Some, slice_get, false, true};
ghost use Rattle.design_core.specs.Shape.{IsDeclared, IsDesign};
ghost use Rattle.design_graph.specs.Edges.{IsStartMarks};
ghost use Rattle.design_graph.specs.Starts.{IsRegisterStart};
ghost use Rattle.design_signals.specs.Chunks.{IsChunk, bits_of};
ghost use Rattle.design_signals.specs.declared.sig_bit.SigBit.{SigBit};
ghost use Rattle.design_check.specs.Faults.{IsConflict};
ghost use Rattle.design_check.specs.Conflicts.{IsFirstConflict, IsFirstTwice, IsTwice};

use design_core::design::Design;
use design_graph::starts::{StartMarks, is_conflict, is_register};
use design_signals::bits::Bits;
use design_signals::chunk::Chunk;
use design_signals::sig_bit::SigBit;

// The first of these bits that has two start digits.
fn first_twice(design: &Design, marks: &StartMarks, bits: &[Chunk]) -> Option<SigBit>
    requires shape { IsDesign design.now }
    requires marks { IsStartMarks design.now marks.now.leaders.items marks.now.registers.items marks.now.low.items marks.now.high.items }
    requires declared { All (IsDeclared design.now.wires design.now.free) (bits_of bits.now) }
    requires chunks { All IsChunk bits.now }
    ensures none { IfNone result ((k : ℕ) → IsTwice design.now (bits_of bits.now) k → ⊥) }
    ensures some { IfSome result (IsFirstTwice design.now (bits_of bits.now)) }
{
    let mut left = Bits::new(bits);
    'bits: while let Some(bit) = left.next() {
        if is_conflict(design, marks, design.place(bit)) {
            return Some(bit);
        }
    }
    None
}

// The first register with a bit that has two start digits, and that bit.
pub(crate) fn first_conflict(design: &Design, marks: &StartMarks) -> Option<(usize, SigBit)>
    requires { IsStartMarks design.now marks.now.leaders.items marks.now.registers.items marks.now.low.items marks.now.high.items }
    ensures { MatchOption result ((i k : ℕ) → IsConflict design.now i k → ⊥) (λ r. IsFirstConflict design.now r.0 r.1) }
{
    let cells = design.cells();
    for place in 0..cells.len() {
        let cell = &cells[place];
        if is_register(cell.kind()) {
            if let Some(bit) = first_twice(design, marks, cell.output()) {
                return Some((place, bit));
            }
        }
    }
    None
}
