// What the search finds, judged.

ghost use Rattle.std.specs.Prelude.{◌≡◌, IfOk, IfSome, true};
ghost use Rattle.pdr_core.specs.Work.{GoesOn};
ghost use Rattle.pdr_run.specs.Answer.{IsInvariantStream};
ghost use Rattle.pdr_run.specs.Deciding.{IsOutcome};

use crate::breaking::breaks;
use inv_judge::{InvJudge, InvOutcome};
use pair_form::Pair;
use pdr_core::{Candidate, Invariant, Work, find_candidate, write_stream};
use std::alloc::{AllocError, Global};

// The most bytes that a stream may have.
const MOST: usize = 1 << 32;

// What is decided of a pair.
#[derive(Drop)]
pub(crate) enum Outcome {
    // The bytes of a certificate that an invariant holds.
    Proved(Vec<u8>),
    // A run of this length breaks an assertion.
    Broken(usize),
    // All that might be spent was spent.
    Spent,
}

// A copy of the pair.
fn copy(alloc: Global, pair: &Pair) -> Result<Pair, AllocError>
    ensures { IfOk result (λ copy. copy ≡ pair.now) }
{
    pair.promise();
    let formula = pair.formula().copy(alloc)?;
    let bits = Vec::from_slice(alloc, pair.bits())?;
    Ok(Pair::new(formula, pair.start(), pair.next(), pair.bad(), bits))
}

// Whether a stream is a certificate that an invariant holds.
fn is_certificate(alloc: Global, pair: &Pair, stream: &[u8]) -> Result<bool, AllocError>
    ensures { IfOk result (λ found. found ≡ true → IsInvariantStream pair.now stream.now) }
{
    if stream.is_empty() || stream.len() > MOST {
        return Ok(false);
    }
    let mut judge = InvJudge::new(alloc, copy(alloc, pair)?, stream.len() as u64);
    judge.feed(stream)?;
    let outcome = judge.end()?;
    Ok(matches!(outcome, InvOutcome::Found))
}

// A certificate that the clauses are an invariant, if the judge finds that it is one.
fn certify(
    alloc: Global,
    pair: &Pair,
    invariant: &Invariant,
    work: &mut Work,
) -> Result<Option<Vec<u8>>, AllocError>
    ensures goes_on { GoesOn work.old work.new }
    ensures stream { IfOk result (λ o. IfSome o (λ stream. IsInvariantStream pair.now stream.items)) }
{
    let Some(stream) = write_stream(alloc, pair, invariant, work)? else {
        return Ok(None);
    };
    if is_certificate(alloc, pair, &stream)? {
        Ok(Some(stream))
    } else {
        Ok(None)
    }
}

// What a candidate is found to be, if it is what it is to be.
fn judged(
    alloc: Global,
    pair: &Pair,
    candidate: Candidate,
    work: &mut Work,
) -> Result<Option<Outcome>, AllocError>
    ensures goes_on { GoesOn work.old work.new }
    ensures outcome { IfOk result (λ o. IfSome o (IsOutcome pair.now work.new)) }
{
    match candidate {
        Candidate::Invariant(invariant) => {
            let stream = certify(alloc, pair, &invariant, work)?;
            Ok(stream.map(Outcome::Proved))
        }
        Candidate::Run(cycles) if breaks(pair, &cycles) => Ok(Some(Outcome::Broken(cycles.len()))),
        Candidate::Run(_) | Candidate::Spent => Ok(None),
    }
}

// Searches until what is found is what it is to be, or nothing is left to spend.
pub(crate) fn decide(alloc: Global, pair: &Pair, work: &mut Work) -> Result<Outcome, AllocError>
    ensures goes_on { GoesOn work.old work.new }
    ensures outcome { IfOk result (IsOutcome pair.now work.new) }
{
    while work.count_query() {
        let candidate = find_candidate(alloc, pair, work)?;
        if let Some(outcome) = judged(alloc, pair, candidate, work)? {
            return Ok(outcome);
        }
    }
    Ok(Outcome::Spent)
}
