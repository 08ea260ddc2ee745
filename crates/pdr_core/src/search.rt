// The result of a search, and the stream of an invariant.

ghost use Rattle.std.specs.Prelude.{◌≡◌, ◌≢◌, Ok, Some};
ghost use Rattle.pdr_core.specs.Work.{GoesOn, IsSpent};
ghost use Rattle.pdr_core.specs.declared.search.Candidate.{Candidate};
ghost use Rattle.pdr_core.specs.declared.search.Candidate.TheVariants.{Spent};

use crate::blocking::{Reached, Search};
use crate::meter::{Meter, Stop};
use crate::replay::find_run;
use crate::stream::write;
use crate::trimming::trim;
use crate::work::Work;
use cnf_form::Lit;
use pair_form::Pair;
use std::alloc::{AllocError, Global};

/// Cubes over the numbers of state bits, whose negations are to be an invariant.
#[derive(Drop)]
pub struct Invariant {
    cubes: Vec<Vec<Lit>>,
}

/// The result of a search. Nothing is promised of an invariant or a run: who asks has them judged.
#[derive(Drop)]
pub enum Candidate {
    Invariant(Invariant),
    /// The values of all variables of the formula, that of each at its number, in each cycle of a run whose last breaks an assertion.
    Run(Vec<Vec<bool>>),
    /// Nothing is left to spend.
    Spent,
}

// Searches within what is left. None where the result isn't what it is to be.
fn attempt(alloc: Global, pair: &Pair, meter: &mut Meter) -> Result<Option<Candidate>, Stop>
    ensures { result ≢ Ok (Some Candidate.Spent) }
{
    let mut search = Search::new(alloc, pair, meter.left())?;
    let reached = search.run();
    meter.add(&search.queries.meter);
    match reached? {
        Reached::Met(entry) => match find_run(&search, entry, meter)? {
            Some(cycles) => Ok(Some(Candidate::Run(cycles))),
            None => Ok(None),
        },
        Reached::Closed(level) => {
            let cubes = search.frames.above(alloc, level)?;
            let cubes = trim(alloc, pair, cubes, meter)?;
            Ok(Some(Candidate::Invariant(Invariant { cubes })))
        }
    }
}

// An attempt whose conflicts and queries are counted as work. None also where it spent all.
fn attempt_counted(
    alloc: Global,
    pair: &Pair,
    work: &mut Work,
) -> Result<Option<Candidate>, AllocError>
    ensures goes_on { GoesOn work.old work.new }
    ensures found { result ≢ Ok (Some Candidate.Spent) }
{
    let mut meter = Meter::new(work.left());
    let found = attempt(alloc, pair, &mut meter);
    work.spend(meter.conflicts(), meter.queries());
    match found {
        Ok(found) => Ok(found),
        Err(Stop::Spent) => Ok(None),
        Err(Stop::OutOfMemory) => Err(AllocError),
    }
}

/// Searches for an invariant of the pair, or a run that breaks an assertion. Conflicts and queries are counted in `work`. It fails at out
/// of memory alone.
pub fn find_candidate(alloc: Global, pair: &Pair, work: &mut Work) -> Result<Candidate, AllocError>
    ensures goes_on { GoesOn work.old work.new }
    ensures spent { result ≡ Ok Candidate.Spent → IsSpent work.new }
{
    while work.count_query() {
        if let Some(candidate) = attempt_counted(alloc, pair, work)? {
            return Ok(candidate);
        }
    }
    Ok(Candidate::Spent)
}

/// The bytes of a stream that is to show that the clauses are an invariant of the pair; none where it doesn't, or nothing is left to
/// spend. Conflicts and queries are counted in `work`. It fails at out of memory alone.
pub fn write_stream(
    alloc: Global,
    pair: &Pair,
    invariant: &Invariant,
    work: &mut Work,
) -> Result<Option<Vec<u8>>, AllocError>
    ensures goes_on { GoesOn work.old work.new }
{
    let mut meter = Meter::new(work.left());
    let written = write(alloc, pair, &invariant.cubes, &mut meter);
    work.spend(meter.conflicts(), meter.queries());
    match written {
        Ok(text) => Ok(text),
        Err(Stop::Spent) => Ok(None),
        Err(Stop::OutOfMemory) => Err(AllocError),
    }
}
