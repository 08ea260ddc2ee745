// A judge fed by hand: streams in three pieces at each place, and what the end answers after that.

ghost use Rattle.std.specs.Prelude.{◌≡◌, ◌≤◌, ◌^◌, ℕ, List, IfOk, None, Ok};
ghost use Rattle.judge.specs.Fates.{Serves};
ghost use Rattle.judge.specs.Judging.{Took};
ghost use Rattle.judge.specs.Problem.{IsJob};

use cert_judge::{BadCert, Kind, StreamKind};
use judge::{Finding, Judge, Problem, Progress};
use sby_terms::{Answer, JobName, Mode, Settled, Span};
use std::alloc::{AllocError, Global};
use std::test::Fail;
use test_designs::{ASSERT, END, HEAD, NOT, T};

// What a judge told: by a letter, for a finding with the number of its run's cycles, or by a refusal's number and byte.
type Told = (u8, u64);

// What a copy of a finding tells.
fn found(finding: &Finding) -> Told {
    let Ok(copy) = finding.copy() else {
        return (b'M', 0);
    };
    match (copy.answer(), copy.run()) {
        (Answer::Unsat, _) => (b'U', 0),
        (Answer::Sat, Some(run)) => (b'S', run.cycles() as u64),
        (Answer::Sat, None) => (b'S', 0),
    }
}

// None where more is wanted.
fn told(answer: &Result<Result<Progress, BadCert>, AllocError>) -> Option<Told>
    ensures { result ≡ None → answer.now ≡ Ok (Ok Progress.More) }
{
    match answer {
        Ok(Ok(Progress::More)) => None,
        Ok(Ok(Progress::Done(finding))) => Some(found(finding)),
        Ok(Ok(Progress::Unknown)) => Some((b'N', 0)),
        Ok(Err(bad)) => Some((bad.kind.number(), bad.at)),
        Err(_) => Some((b'M', 0)),
    }
}

fn fed(judge: &mut Judge, piece: &[u8]) -> Option<Told>
    requires { (bytes : List ℕ) × Took judge.old bytes }
    ensures { result ≡ None → (bytes : List ℕ) × Took judge.new bytes }
{
    told(&judge.feed(piece))
}

// What is told of three pieces, and at the end again.
fn fed_whole(judge: &mut Judge, one: &[u8], two: &[u8], three: &[u8]) -> Option<Told>
    requires { (bytes : List ℕ) × Took judge.old bytes }
{
    let before = fed_pieces(judge, one, two, three);
    let end = told(&judge.end());
    if before.is_some() && before != end {
        return None;
    }
    end
}

fn fed_pieces(judge: &mut Judge, one: &[u8], two: &[u8], three: &[u8]) -> Option<Told>
    requires { (bytes : List ℕ) × Took judge.old bytes }
{
    if let Some(told) = fed(judge, one) {
        return Some(told);
    }
    if let Some(told) = fed(judge, two) {
        return Some(told);
    }
    fed(judge, three)
}

fn judged(
    alloc: Global,
    problem: &Problem,
    job: JobName,
    kind: Kind,
    most: u32,
    one: &[u8],
    two: &[u8],
    three: &[u8],
) -> Result<Option<Told>, AllocError>
    requires job { IsJob problem.now job }
    requires serves { Serves kind job }
{
    let most = u64::from(most.max(1));
    let mut judge = Judge::new(alloc, problem, job, kind, most)?;
    Ok(fed_whole(&mut judge, one, two, three))
}

// Whether a stream is judged as this, wherever one byte of it is a piece of its own.
fn comes_to(
    alloc: Global,
    problem: &Problem,
    job: JobName,
    kind: Kind,
    most: u32,
    stream: &[u8],
    wanted: Told,
) -> Result<bool, AllocError>
    requires job { IsJob problem.now job }
    requires serves { Serves kind job }
{
    for cut in 0..=stream.len() {
        let (one, rest) = stream.split_at(cut.min(stream.len()));
        let (two, three) = rest.split_at(rest.len().min(1));
        if judged(alloc, problem, job, kind, most, one, two, three)? != Some(wanted) {
            return Ok(false);
        }
    }
    Ok(true)
}

fn problem_of(alloc: Global, depth: u32) -> Result<Problem, Fail>
    requires least { 1 ≤ depth }
    requires most { depth ≤ 100000 }
    ensures { IfOk result (λ p. IsJob p (JobName.Base 0)) }
{
    let text = Vec::from_slice(alloc, T.as_bytes())?;
    match Problem::new(alloc, text, Mode::Bmc, Span::whole(depth))? {
        Ok(problem) => Ok(problem),
        Err(_) => Err(Fail::from("refused")),
    }
}

// The problem that asks for an invariant of a design.
fn invariant_of(alloc: Global, design: &str) -> Result<Problem, Fail>
    ensures { IfOk result (λ p. IsJob p JobName.Inv) }
{
    let text = Vec::from_slice(alloc, design.as_bytes())?;
    match Problem::new(alloc, text, Mode::ProveInv, Span::whole(1))? {
        Ok(problem) => Ok(problem),
        Err(_) => Err(Fail::from("refused")),
    }
}

// Of these streams, each with the most bytes that are taken of it, the first that is judged as something else.
fn wrong_row<'a>(
    alloc: Global,
    problem: &Problem,
    job: JobName,
    kind: Kind,
    rows: &[(u32, &'a str, Told)],
) -> Result<Option<&'a str>, AllocError>
    requires job { IsJob problem.now job }
    requires serves { Serves kind job }
{
    for (most, stream, wanted) in rows {
        if !comes_to(alloc, problem, job, kind, *most, stream.as_bytes(), *wanted)? {
            return Ok(Some(*stream));
        }
    }
    Ok(None)
}

// The job's formula has one variable, so that these are all values.
const OF_ONE_CYCLE: [(u32, &str, Told); 9] = [
    (100, "c hello\n-1 0\n0\n", (b'U', 0)),
    (100, "c hello\n-1 0\n", (48, 13)),
    (100, "s UNKNOWN\n", (b'N', 0)),
    (100, "x", (41, 0)),
    (100, "v -1 0\n", (45, 1)),
    (100, "v 1 0\n", (45, 2)),
    (4, "c x\n0\n", (47, 4)),
    (5, "c x\n0\n", (47, 5)),
    (6, "c x\n0\n", (b'U', 0)),
];

const OF_TWO_CYCLES: [(u32, &str, Told); 3] = [
    (100, "0\n", (44, 0)),
    (100, "v\nv 1 0\n", (b'S', 2)),
    (100, "v -1 0\n", (45, 1)),
];

// Witnesses of two cycles: the design has one state, which starts, and no input that is read.
const WITNESSES: [(u32, &str, Told); 9] = [
    (100, "log\nsat\nb0\n#0\n@0\n@1\n.\nrest", (b'S', 2)),
    (100, "sat\nb0\n@0\n.\n", (46, 0)),
    (100, "sat\nb1\n@0\n@1\n.\n", (46, 1)),
    (100, "sat\nb0\n@0\n@1\n@2\n.\n", (46, 2)),
    (100, "sat\nj0\n", (49, 4)),
    (100, "unsat\n", (b'N', 0)),
    (100, "sat\nb0\n#0\n", (48, 10)),
    (10, "sat\nb0\n#0\n@0\n", (47, 10)),
    (15, "sat\nb0\n@0\n@1\n.\n", (b'S', 2)),
];

#[test]
fn pieces_change_nothing(rt: HostRuntime) -> Result<(), Fail> {
    let (base, drup) = (JobName::Base(0), Kind::Certificate(StreamKind::Drup));
    let problem = problem_of(rt.alloc(), 1)?;
    assert_eq!(rt;
        wrong_row(rt.alloc(), &problem, base, drup, &OF_ONE_CYCLE)?,
        None
    );
    let problem = problem_of(rt.alloc(), 2)?;
    assert_eq!(rt;
        wrong_row(rt.alloc(), &problem, base, drup, &OF_TWO_CYCLES)?,
        None
    );
    assert_eq!(rt;
        wrong_row(rt.alloc(), &problem, base, Kind::Witness, &WITNESSES)?,
        None
    );
    Ok(())
}

// A register that keeps its value.
const KEPT: &str =
    " cell $dff $r\n parameter \\CLK_POLARITY 1'1\n parameter \\WIDTH 1\n connect \\CLK \\clk\n connect \\D \\q\n connect \\Q \\q\n end\n";

// Streams for the pair of a register that keeps its 0: one that is a certificate, and streams that are none.
const INVARIANTS: [(u32, &str, Told); 9] = [
    (100, "inv\n-1 0\nstart\nstep\nsafe\n0\n", (b'U', 0)),
    (100, "c x\ninv\n-1 0\nstart\nstep\nsafe\n0\nrest", (b'U', 0)),
    (100, "inv\nstart\nstep\nsafe\n0\n", (44, 20)),
    (100, "inv\n1 0\nstart\nstep\nsafe\n0\n", (62, 14)),
    (100, "-1 0\n", (61, 0)),
    (100, "inv\n2 0\n", (42, 4)),
    (100, "s UNKNOWN\n", (b'N', 0)),
    (100, "inv\n-1 0\nstart\n", (48, 15)),
    (8, "inv\n-1 0\nstart\n", (47, 8)),
];

// And for that of one that turns: it is set in cycle 1.
const NO_INVARIANTS: [(u32, &str, Told); 1] = [(
    100,
    "inv\n-1 0\nstart\nstep\nsafe\n0\n",
    (62, 20),
)];

#[test]
fn invariants_of_registers_in_pieces(rt: HostRuntime) -> Result<(), Fail> {
    let (inv, kind) = (JobName::Inv, Kind::Invariant);
    let kept = format!(in rt.alloc(); "{HEAD}{NOT}{KEPT}{ASSERT}{END}")?;
    let problem = invariant_of(rt.alloc(), kept.as_str())?;
    assert_eq!(rt;
        wrong_row(rt.alloc(), &problem, inv, kind, &INVARIANTS)?,
        None
    );
    let problem = invariant_of(rt.alloc(), T)?;
    assert_eq!(rt;
        wrong_row(rt.alloc(), &problem, inv, kind, &NO_INVARIANTS)?,
        None
    );
    Ok(())
}
