// The clocks of registers.

ghost use Rattle.std.specs.Prelude.{◌≡◌, ◌↔◌, ◌<◌, ℕ, [], ◌∷◌, All, IfNone, IfSome, IsTrue, MatchOption, Some, position, slice_get};
ghost use Rattle.design_core.specs.Shape.{CellOf, IsCellOf, IsDeclared};
ghost use Rattle.design_core.specs.Table.{is_clocked};
ghost use Rattle.design_graph.specs.Edges.{IsNets, IsOneNet};
ghost use Rattle.design_signals.specs.Chunks.{IsChunk, bits_of};
ghost use Rattle.design_signals.specs.declared.sig_bit.SigBit.{SigBit};
ghost use Rattle.design_check.specs.Faults.{IsOneClock, IsOtherClock};

use crate::numbers::flag;
use design_core::cell::Cell;
use design_core::design::Design;
use design_core::names::{ParameterName, PortName};
use design_core::table::is_clocked;
use design_graph::nets::is_one_net;
use design_signals::bits::Bits;
use design_signals::chunk::Chunk;
use design_signals::sig_bit::SigBit;

// The first register with a clock.
fn first_clocked(cells: &[Cell]) -> Option<usize>
    ensures { result ≡ position (λ c. is_clocked c.kind) cells.now }
{
    cells.iter().position(|cell| is_clocked(cell.kind()))
}

// The bit of a signal that has just one.
fn only_bit(signal: &[Chunk]) -> Option<SigBit>
    requires { All IsChunk signal.now }
    ensures some { IfSome result (λ a. bits_of signal.now ≡ a ∷ []) }
    ensures none { IfNone result ((a : SigBit) → bits_of signal.now ≡ a ∷ [] → ⊥) }
{
    let mut left = Bits::new(signal);
    let bit = left.next()?;
    match left.next() {
        None => Some(bit),
        Some(_) => None,
    }
}

// Whether two signals are one bit each, of one net.
fn is_one_clock_net(design: &Design, leaders: &[usize], left: &[Chunk], right: &[Chunk]) -> bool
    requires nets { IsNets design.now leaders.now }
    requires left { All (IsDeclared design.now.wires design.now.free) (bits_of left.now) }
    requires left_chunks { All IsChunk left.now }
    requires right { All (IsDeclared design.now.wires design.now.free) (bits_of right.now) }
    requires right_chunks { All IsChunk right.now }
    ensures { IsTrue result ↔ ((a : SigBit) × (b : SigBit) × (bits_of left.now ≡ a ∷ []) × (bits_of right.now ≡ b ∷ []) × IsOneNet design.now a b) }
{
    match (only_bit(left), only_bit(right)) {
        (Some(left), Some(right)) => is_one_net(design, leaders, left, right),
        _ => false,
    }
}

// Whether two registers are clocked by one edge of one net.
fn is_one_clock(design: &Design, leaders: &[usize], first: &Cell, other: &Cell) -> bool
    requires nets { IsNets design.now leaders.now }
    requires first { IsCellOf design.now.wires design.now.free first.now }
    requires other { IsCellOf design.now.wires design.now.free other.now }
    ensures { IsTrue result ↔ IsOneClock design.now first.now other.now }
{
    is_one_clock_net(
        design,
        leaders,
        first.signal(PortName::Clk),
        other.signal(PortName::Clk),
    ) && flag(first, ParameterName::ClkPolarity) == flag(other, ParameterName::ClkPolarity)
}

// The first register whose clock differs from that of the first register with a clock.
pub(crate) fn first_multi_clock(design: &Design, leaders: &[usize]) -> Option<usize>
    requires { IsNets design.now leaders.now }
    ensures { MatchOption result
        ((i : ℕ) (c : CellOf) → slice_get design.now.cells i ≡ Some c → IsOtherClock design.now c → ⊥)
        (λ r. ((c : CellOf) × (slice_get design.now.cells r ≡ Some c) × IsOtherClock design.now c) × ((i : ℕ) (c : CellOf) → i < r → slice_get design.now.cells i ≡ Some c → IsOtherClock design.now c → ⊥)) }
{
    let cells = design.cells();
    let Some(first) = first_clocked(cells) else {
        return None;
    };
    let clock = &cells[first];
    for place in 0..cells.len() {
        let cell = &cells[place];
        if is_clocked(cell.kind()) && !is_one_clock(design, leaders, clock, cell) {
            return Some(place);
        }
    }
    None
}
