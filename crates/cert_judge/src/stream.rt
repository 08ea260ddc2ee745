// Streams, and the outcomes of judging them.

ghost use Rattle.std.specs.Prelude.{◌≡◌, IfNone, IfSome};
ghost use Rattle.cert_judge.specs.Fate.{cert_kind};
ghost use Rattle.cert_judge.specs.Numbers.{kind_of, number_of};
ghost use Rattle.cert_judge.specs.declared.stream.CertKind.{CertKind};

use cert_stream::ParseFaultKind;

/// What a stream is written in.
#[derive(Clone, Copy, Debug, PartialEq, Eq)]
pub enum StreamKind {
    /// DRUP over DIMACS, or values.
    Drup,
    /// A hinted proof (LRAT without negative hints), or values.
    Lrat,
    /// A proof file in text.
    Proof,
    /// A proof file in binary.
    ProofBinary,
}

/// What a stream is judged as: a certificate, written in one of these ways; a witness: a run of the design, by what it leaves open; or an
/// inductive invariant of the design, with its proofs.
#[derive(Clone, Copy, Debug, PartialEq, Eq)]
pub enum Kind {
    Certificate(StreamKind),
    Witness,
    Invariant,
}

/// Why a stream, of whatever kind, is no certificate.
#[derive(Clone, Copy, Debug, PartialEq, Eq)]
pub enum CertKind {
    /// The line's kind, its end, or what stands after its 0.
    BadLine,
    /// A word of the line is no literal.
    BadLiteral,
    /// The line has more literals than there are variables, or too many hints.
    LineTooLong,
    /// Unit propagation doesn't admit the clause.
    NotRup,
    /// The values don't satisfy the formula.
    NotSatisfying,
    /// The witness's run doesn't show what the job asks.
    NotPlaying,
    /// The stream has more bytes than are taken.
    TooLong,
    /// The stream ends without a certificate.
    EarlyEnd,
    /// The line is none of a witness.
    BadWitness,
    /// The clause's id isn't above all earlier ones.
    BadId,
    /// A hint is negative, or no clause has its id.
    BadHint,
    /// The hints don't admit the clause.
    NotHinted,
    /// A part's word is out of order, or a clause comes before the first.
    BadPart,
    /// Some clause of the invariant isn't admitted where a part ends.
    NotInvariant,
}

impl CertKind {
    /// Its number, from 41 to 62.
    pub fn number(self) -> u8
        ensures { result ≡ number_of self }
    {
        match self {
            CertKind::BadLine => 41,
            CertKind::BadLiteral => 42,
            CertKind::LineTooLong => 43,
            CertKind::NotRup => 44,
            CertKind::NotSatisfying => 45,
            CertKind::NotPlaying => 46,
            CertKind::TooLong => 47,
            CertKind::EarlyEnd => 48,
            CertKind::BadWitness => 49,
            CertKind::BadId => 58,
            CertKind::BadHint => 59,
            CertKind::NotHinted => 60,
            CertKind::BadPart => 61,
            CertKind::NotInvariant => 62,
        }
    }

    /// The kind with this number, if there is one.
    #[tactic(auto, using(crate::proofs::Numbering::no_other_number, crate::proofs::Numbering::none_numbered))]
    pub fn of_number(number: u8) -> Option<CertKind>
        ensures kind { result ≡ kind_of number }
        ensures some { IfSome result (λ kind. number_of kind ≡ number) }
        ensures none { IfNone result ((kind : CertKind) → number_of kind ≡ number → ⊥) }
    {
        match number {
            41 => Some(CertKind::BadLine),
            42 => Some(CertKind::BadLiteral),
            43 => Some(CertKind::LineTooLong),
            44 => Some(CertKind::NotRup),
            45 => Some(CertKind::NotSatisfying),
            46 => Some(CertKind::NotPlaying),
            47 => Some(CertKind::TooLong),
            48 => Some(CertKind::EarlyEnd),
            49 => Some(CertKind::BadWitness),
            58 => Some(CertKind::BadId),
            59 => Some(CertKind::BadHint),
            60 => Some(CertKind::NotHinted),
            61 => Some(CertKind::BadPart),
            62 => Some(CertKind::NotInvariant),
            _ => None,
        }
    }
}

/// The kind of a reader's fault.
pub fn cert_kind(kind: ParseFaultKind) -> CertKind
    ensures { result ≡ cert_kind kind }
{
    match kind {
        ParseFaultKind::BadLine => CertKind::BadLine,
        ParseFaultKind::BadLiteral => CertKind::BadLiteral,
        ParseFaultKind::LineTooLong => CertKind::LineTooLong,
    }
}

/// A stream is no certificate: why, and where. The place is a byte of the stream, counted from 0; for values a clause, counted
/// from 1; for a witness that doesn't play a frame, counted from 0.
#[derive(Clone, Copy, Debug, PartialEq, Eq)]
pub struct BadCert {
    pub kind: CertKind,
    pub at: u64,
}

/// The outcome of judging a stream.
#[derive(Clone, Copy, Debug, PartialEq, Eq)]
pub enum Outcome {
    /// An empty clause was admitted: no values satisfy the formula.
    Refuted,
    /// The values satisfy it.
    Satisfied,
    /// The engine doesn't know.
    Unknown,
    Bad(BadCert),
}
