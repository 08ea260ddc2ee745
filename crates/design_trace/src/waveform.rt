// What the wires of a run have.

ghost use Rattle.std.specs.Prelude.{◌≡◌, ◌<◌, List, [], false, length, slice_index_or};
ghost use Rattle.sby_bits.specs.Rows.{Row};

/// What the wires of a design have in the cycles of a run, bit by bit.
pub trait Waveform {
    /// The rows of the wires' bits, in file order, lowest first, from cycle 0 on.
    ghost rows: { Self → List Row };

    /// How many cycles there are.
    fn cycles(&self) -> usize
        ensures { result ≡ length (rows self.now) };

    /// The bit at a place of a cycle's row, both counted from 0.
    fn bit(&self, cycle: usize, place: u32) -> bool
        requires cycle { cycle < length (rows self.now) }
        requires place { place < length (slice_index_or (rows self.now) cycle []) }
        ensures { result ≡ slice_index_or (slice_index_or (rows self.now) cycle []) place false };
}
