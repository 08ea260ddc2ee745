// Which cycles a task looks at, and its slices.

ghost use Rattle.std.specs.Prelude.{◌≡◌, ◌↔◌, ◌<◌, ◌≤◌, ℕ, IsTrue};
ghost use Rattle.sby_terms.specs.Span.{IsSpan, first_of, last_of, slices_of, whole};

/// A task looks at most at this many cycles.
pub const MAX_DEPTH: u32 = 100_000;

/// A stream has at most this many bytes.
pub const MAX_STREAM: u64 = 1 << 32;

/// A task has at most this many slices.
pub const MAX_SLICES: u32 = 1000;

/// The cycles at which a task looks: those from `skip` to `depth` less one, in slices of `stride` cycles where one is given.
#[derive(Clone, Copy, Debug, PartialEq, Eq)]
pub struct Span {
    pub skip: u32,
    pub depth: u32,
    pub stride: Option<u32>,
}

impl Span {
    /// All cycles below `depth`, as one slice.
    pub fn whole(depth: u32) -> Self
        ensures { result ≡ whole depth }
    {
        Span {
            skip: 0,
            depth,
            stride: None,
        }
    }

    /// How many slices it has.
    pub fn slices(&self) -> u32
        requires { IsSpan self.now }
        ensures slices { result ≡ slices_of self.now }
        ensures some { 0 < result }
        ensures few { result ≤ 1000 }
    {
        match self.stride {
            None => 1,
            Some(stride) => (self.depth - self.skip - 1) / stride + 1,
        }
    }

    /// How many cycles stand before slice i.
    pub fn first(&self, i: u32) -> u32
        requires span { IsSpan self.now }
        requires slice { i < slices_of self.now }
        ensures first { result ≡ first_of self.now i }
        ensures below { result < last_of self.now i }
    {
        match self.stride {
            None => self.skip,
            Some(stride) => self.skip + i * stride,
        }
    }

    /// How many cycles stand before the end of slice i.
    pub fn last(&self, i: u32) -> u32
        requires span { IsSpan self.now }
        requires slice { i < slices_of self.now }
        ensures last { result ≡ last_of self.now i }
        ensures within { result ≤ self.now.depth }
    {
        match self.stride {
            None => self.depth,
            Some(stride) => {
                let first = self.skip + i * stride;
                if self.depth - first < stride {
                    self.depth
                } else {
                    first + stride
                }
            }
        }
    }
}
