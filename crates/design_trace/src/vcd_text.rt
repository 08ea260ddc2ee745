//! A trace file, as it is still to come.

ghost use Rattle.std.specs.Prelude.{◌≡◌, ◌<◌, ◌≤◌, ◌++◌, [], length, take};
ghost use Rattle.design_meaning.specs.Runs.{IsShownOf};
ghost use Rattle.design_trace.specs.Changes.{vcd};

use crate::vcd_lines::Line;
use crate::waveform::Waveform;
use design_check::flat::Flat;
use design_core::design::Design;
use std::marker::Model;

/// The bytes of a trace file, VCD of IEEE 1364, that are still to come: the head, the cycles from 0 on, and the last time, which is the
/// number of cycles. The head declares each wire, in file order, by its width, its identifier `w` and its number from 0, and its name,
/// which loses the `\` that it begins with. A cycle is its time, then for each wire in file order its bits, highest first, and its
/// identifier. All of it is made as it is asked for.
#[derive(Drop)]
pub struct VcdText<'a, V: Waveform + Drop> {
    design: &'a Design,
    waveform: V,
    line: Line<'a>,
}

impl<'a, V: Waveform + Drop> Model for VcdText<'a, V> {
    ghost use Rattle.std.specs.Prelude.{List, ℕ};
    ghost use Rattle.design_meaning.specs.Runs.{IsShownOf};
    ghost use Rattle.design_trace.specs.Coming.{IsLine, IsPlace, rest_of};

    ghost Value = { List ℕ };

    ghost view = { λ t. rest_of t.design.now (V.rows t.waveform) t.line };

    ghost invariant = { λ t. IsShownOf t.design.now (V.rows t.waveform) × IsLine (V.rows t.waveform) t.line × IsPlace t.design.now (V.rows t.waveform) t.line.next };
}

impl<'a, V: Waveform + Drop> VcdText<'a, V> {
    /// The whole trace file.
    pub fn new(flat: &'a Flat, waveform: V) -> Self
        requires { IsShownOf flat.now (V.rows waveform) }
        ensures { result ≡ vcd flat.now (V.rows waveform) }
    {
        VcdText {
            design: flat.design(),
            waveform,
            line: Line::first(),
        }
    }

    /// Fills the front of the buffer, and answers how many bytes it did: 0 only where none is left, or for an empty buffer.
    pub fn next(&mut self, buffer: &mut [u8]) -> usize
        ensures fits { result ≤ length buffer.new }
        ensures piece { self.old ≡ take result buffer.new ++ self.new }
        ensures ends { result ≡ 0 → 0 < length buffer.new → self.old ≡ [] }
    {
        let count = self.line.give(&self.waveform, buffer);
        if count > 0 || buffer.is_empty() {
            return count;
        }
        self.line = Line::at(self.design, &self.waveform, self.line.next);
        self.line.give(&self.waveform, buffer)
    }
}
