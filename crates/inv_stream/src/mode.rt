// How the reading of a line stands.

ghost use Rattle.std.specs.Prelude.{◌≡◌};
ghost use Rattle.inv_stream.specs.Spelling.{grown, is_next, named, place_of};

use cert_stream::ParseFaultKind;

/// The parts of a stream, each of which begins after a line that is its word alone, but for the head, which has no word.
#[derive(Clone, Copy, Debug, PartialEq, Eq)]
pub enum Part {
    Head,
    /// The clauses of the invariant.
    Inv,
    /// A proof that they hold at a start.
    Start,
    /// A proof that they go on.
    Step,
    /// A proof that nothing is broken under them.
    Safe,
}

/// The beginning of a part's word.
#[derive(Clone, Copy, Debug, PartialEq, Eq)]
pub enum Spell {
    I,
    In,
    Inv,
    S,
    St,
    Sta,
    Star,
    Start,
    Ste,
    Step,
    Sa,
    Saf,
    Safe,
}

/// What is wrong where no stream goes on.
#[derive(Clone, Copy, Debug, PartialEq, Eq)]
pub enum InvFaultKind {
    /// A part's word out of order, or a clause before the first.
    BadPart,
    /// What a stream of DRUP text may have too.
    Parse(ParseFaultKind),
}

/// A fault, and the number of its byte in the stream, counted from 0.
#[derive(Clone, Copy, Debug, PartialEq, Eq)]
pub struct InvFault {
    pub kind: InvFaultKind,
    pub byte: u64,
}

/// What was read of a line.
#[derive(Clone, Copy, Debug, PartialEq, Eq)]
pub enum Line {
    /// White space alone.
    Start,
    /// An s, which begins a part's word or a status line.
    Letter,
    /// The beginning of a part's word.
    Word(Spell),
    /// The word of the next part, and white space.
    Named(Part),
    /// The beginning of a line of DRUP text.
    Inside,
    Refused(InvFault),
    /// Memory ran out.
    Lost,
}

impl Part {
    // Its number among the parts, from 0.
    pub(crate) fn place(self) -> u8
        ensures { result ≡ place_of self }
    {
        match self {
            Part::Head => 0,
            Part::Inv => 1,
            Part::Start => 2,
            Part::Step => 3,
            Part::Safe => 4,
        }
    }

    // Whether the other part comes right after this one.
    pub(crate) fn is_next(self, other: Part) -> bool
        ensures { result ≡ is_next self other }
    {
        other.place() == self.place() + 1
    }
}

impl Spell {
    // With one byte more, if a part's word begins so.
    pub(crate) fn grown(self, b: u8) -> Option<Spell>
        ensures { result ≡ grown self b }
    {
        match self {
            Spell::I if b == b'n' => Some(Spell::In),
            Spell::In if b == b'v' => Some(Spell::Inv),
            Spell::S if b == b't' => Some(Spell::St),
            Spell::S if b == b'a' => Some(Spell::Sa),
            Spell::St if b == b'a' => Some(Spell::Sta),
            Spell::St if b == b'e' => Some(Spell::Ste),
            Spell::Sta if b == b'r' => Some(Spell::Star),
            Spell::Star if b == b't' => Some(Spell::Start),
            Spell::Ste if b == b'p' => Some(Spell::Step),
            Spell::Sa if b == b'f' => Some(Spell::Saf),
            Spell::Saf if b == b'e' => Some(Spell::Safe),
            _ => None,
        }
    }

    // The part of which it is the whole word, if there is one.
    pub(crate) fn named(self) -> Option<Part>
        ensures { result ≡ named self }
    {
        match self {
            Spell::Inv => Some(Part::Inv),
            Spell::Start => Some(Part::Start),
            Spell::Step => Some(Part::Step),
            Spell::Safe => Some(Part::Safe),
            _ => None,
        }
    }
}
