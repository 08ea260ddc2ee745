// The text that is put as a job's file is, byte by byte, that of the formula from which the judge takes its clauses.

ghost use Rattle.std.specs.Prelude.{◌≡◌, ◌≤◌, ◌++◌, ◌∷◌, [], IsTrue, OnOk};
ghost use Rattle.clause_source.specs.Given.{lits_of};
ghost use Rattle.cnf_form.specs.Cnf.{ClauseWithin};
ghost use Rattle.judge.specs.Problem.{IsJob};
ghost use Rattle.net_jobs.specs.Jobs.{IsOfSpan};
ghost use Rattle.sby_terms.specs.Span.{IsSpan};

use clause_source::{ClauseSource, Given};
use cnf_form::{Formula, write_dimacs};
use design_check::flat::Flat;
use judge::Problem;
use model_cone::asked::Asked;
use net_jobs::encode;
use net_text::EncodedClauses;
use sby_terms::{JobName, Mode, Span};
use std::alloc::{AllocError, Global};
use std::test::Fail;
use task_net::TaskNet;
use word_model::build::build;

// As many bytes of a file are written at a time.
const PIECE: usize = 65_536;

// The text of a job's file, by the pieces in which it is put.
fn put_text(alloc: Global, problem: &Problem, job: JobName) -> Result<Vec<u8>, AllocError>
    requires { IsJob problem.now job }
{
    let file = problem.job_file(alloc, job)?;
    let mut text = file.text();
    let mut bytes = Vec::new(alloc);
    let mut buffer = vec![in alloc; 0u8; PIECE]?;
    for _ in 0..1_000_000u32 {
        let count = text.next(&mut buffer);
        if count == 0 {
            break;
        }
        bytes.extend_from_slice(&buffer[..count])?;
    }
    Ok(bytes)
}

fn push_given(formula: &mut Formula, given: Given<'_>) -> Result<(), AllocError>
    requires { ClauseWithin formula.old.vars (lits_of given) }
    ensures { OnOk result (formula.new ≡ record formula.old { clauses = formula.old.clauses ++ lits_of given.entry ∷ [] }) }
{
    match given {
        Given::One(a) => formula.push(&[a]),
        Given::Two(a, b) => formula.push(&[a, b]),
        Given::Three(a, b, c) => formula.push(&[a, b, c]),
        Given::All(clause) => formula.push(clause),
    }
}

// The formula whose clauses a source gives.
fn formula_of<S: ClauseSource>(alloc: Global, source: &S) -> Result<Formula, AllocError> {
    let mut formula = Formula::new(alloc, source.vars());
    let mut place = source.first();
    for number in 0..source.count() {
        push_given(&mut formula, source.next(&mut place))?;
    }
    Ok(formula)
}

// Whether a job is made of cycles that are told one after the other.
fn is_of_span(job: JobName, span: Span) -> bool
    requires { IsSpan span }
    ensures { IsTrue result → IsOfSpan job span }
{
    match job {
        JobName::Base(slice) => slice < span.slices(),
        JobName::Step | JobName::Cover(_) => true,
        JobName::Inv => false,
    }
}

// The text of the formula from which the judge takes its clauses.
fn judged_text(alloc: Global, net: &TaskNet, job: JobName, span: Span) -> Result<Vec<u8>, Fail>
    requires span { IsSpan span }
    requires most { span.depth ≤ 100000 }
{
    if !is_of_span(job, span) {
        return Err(Fail::from("no job of cycles"));
    }
    let Ok(encoded) = encode(alloc, net.net(), job, span)? else {
        return Err(Fail::from("too many variables"));
    };
    let clauses = EncodedClauses::new(encoded)?;
    let formula = formula_of(alloc, &clauses)?;
    Ok(write_dimacs(alloc, &formula)?)
}

fn problem_of(alloc: Global, design: &str, mode: Mode, depth: u32) -> Result<Problem, Fail>
    requires least { 1 ≤ depth }
    requires most { depth ≤ 100000 }
{
    let text = Vec::from_slice(alloc, design.as_bytes())?;
    match Problem::new(alloc, text, mode, Span::whole(depth))? {
        Ok(problem) => Ok(problem),
        Err(_) => Err(Fail::from("refused")),
    }
}

fn net_of(alloc: Global, flat: &Flat, mode: Mode) -> Result<TaskNet, Fail> {
    let asked = match mode {
        Mode::Bmc | Mode::Prove | Mode::ProveInv => Asked::Asserts,
        Mode::Cover => Asked::Covers,
    };
    let model = build(alloc, flat)?;
    match TaskNet::new(alloc, &model, asked)? {
        Ok(net) => Ok(net),
        Err(_) => Err(Fail::from("too many variables")),
    }
}

// The first job of a task of this depth whose file has another text.
fn wrong_job(alloc: Global, design: &str, mode: Mode, depth: u32) -> Result<Option<JobName>, Fail>
    requires least { 1 ≤ depth }
    requires most { depth ≤ 100000 }
{
    let problem = problem_of(alloc, design, mode, depth)?;
    let net = net_of(alloc, problem.flat(), mode)?;
    for place in 0..problem.jobs() {
        let job = problem.job(place);
        let put = put_text(alloc, &problem, job)?;
        if put != judged_text(alloc, &net, job, Span::whole(depth))? {
            return Ok(Some(job));
        }
    }
    Ok(None)
}

// The designs of examples/counter.sby, with and without the late bug.
const LATE: &str = r"module \counter
  wire \_0_
  wire width 4 \_1_
  wire width 4 \_2_
  wire width 4 \_3_
  wire input 1 \clk
  attribute \init 4'0000
  wire width 4 \hour
  wire width 4 \next
  wire input 2 \step
  wire input 3 \twice
  wire \wraps
  cell $mux \_10_
    parameter \WIDTH 4
    connect \A \next connect \B 4'0000 connect \S \wraps connect \Y \_3_
  end
  cell $add \_4_
    parameter \A_SIGNED 0 parameter \A_WIDTH 4 parameter \B_SIGNED 0 parameter \B_WIDTH 1 parameter \Y_WIDTH 4
    connect \A \hour connect \B 1'1 connect \Y \_2_
  end
  cell $add \_5_
    parameter \A_SIGNED 0 parameter \A_WIDTH 4 parameter \B_SIGNED 0 parameter \B_WIDTH 1 parameter \Y_WIDTH 4
    connect \A \_2_ connect \B \twice connect \Y \next
  end
  cell $eq \_6_
    parameter \A_SIGNED 0 parameter \A_WIDTH 4 parameter \B_SIGNED 0 parameter \B_WIDTH 4 parameter \Y_WIDTH 1
    connect \A \hour connect \B 4'1011 connect \Y \wraps
  end
  cell $lt \_7_
    parameter \A_SIGNED 0 parameter \A_WIDTH 4 parameter \B_SIGNED 0 parameter \B_WIDTH 4 parameter \Y_WIDTH 1
    connect \A \hour connect \B 4'1100 connect \Y \_0_
  end
  cell $dff \_8_
    parameter \CLK_POLARITY 1'1 parameter \WIDTH 4
    connect \CLK \clk connect \D \_1_ connect \Q \hour
  end
  cell $mux \_9_
    parameter \WIDTH 4
    connect \A \hour connect \B \_3_ connect \S \step connect \Y \_1_
  end
  cell $cover \eleven connect \A \wraps connect \EN 1'1 end
  cell $assert \in_range connect \A \_0_ connect \EN 1'1 end
end
";

const MENDED: &str = r"module \counter
  wire \_0_
  wire \_1_
  wire width 4 \_2_
  wire width 4 \_3_
  wire width 4 \_4_
  wire width 4 \_5_
  wire input 1 \clk
  attribute \init 4'0000
  wire width 4 \hour
  wire width 4 \next
  wire input 2 \step
  wire input 3 \twice
  wire \wraps
  cell $lt \_10_
    parameter \A_SIGNED 0 parameter \A_WIDTH 4 parameter \B_SIGNED 0 parameter \B_WIDTH 4 parameter \Y_WIDTH 1
    connect \A \hour connect \B 4'1100 connect \Y \_0_
  end
  cell $dff \_11_
    parameter \CLK_POLARITY 1'1 parameter \WIDTH 4
    connect \CLK \clk connect \D \_2_ connect \Q \hour
  end
  cell $mux \_12_
    parameter \WIDTH 4
    connect \A \hour connect \B \_5_ connect \S \step connect \Y \_2_
  end
  cell $sub \_13_
    parameter \A_SIGNED 0 parameter \A_WIDTH 4 parameter \B_SIGNED 0 parameter \B_WIDTH 4 parameter \Y_WIDTH 4
    connect \A \next connect \B 4'1100 connect \Y \_4_
  end
  cell $mux \_14_
    parameter \WIDTH 4
    connect \A \next connect \B \_4_ connect \S \wraps connect \Y \_5_
  end
  cell $add \_6_
    parameter \A_SIGNED 0 parameter \A_WIDTH 4 parameter \B_SIGNED 0 parameter \B_WIDTH 1 parameter \Y_WIDTH 4
    connect \A \hour connect \B 1'1 connect \Y \_3_
  end
  cell $add \_7_
    parameter \A_SIGNED 0 parameter \A_WIDTH 4 parameter \B_SIGNED 0 parameter \B_WIDTH 1 parameter \Y_WIDTH 4
    connect \A \_3_ connect \B \twice connect \Y \next
  end
  cell $eq \_8_
    parameter \A_SIGNED 0 parameter \A_WIDTH 4 parameter \B_SIGNED 0 parameter \B_WIDTH 4 parameter \Y_WIDTH 1
    connect \A \hour connect \B 4'1011 connect \Y \_1_
  end
  cell $ge \_9_
    parameter \A_SIGNED 0 parameter \A_WIDTH 4 parameter \B_SIGNED 0 parameter \B_WIDTH 4 parameter \Y_WIDTH 1
    connect \A \next connect \B 4'1100 connect \Y \wraps
  end
  cell $cover \eleven connect \A \_1_ connect \EN 1'1 end
  cell $assert \in_range connect \A \_0_ connect \EN 1'1 end
end
";

// The tasks of that file, and one whose text takes several pieces.
#[test]
fn files_say_what_is_judged(rt: HostRuntime) -> Result<(), Fail> {
    for (design, mode, depth) in [
        (LATE, Mode::Bmc, 6u32),
        (LATE, Mode::Bmc, 7),
        (MENDED, Mode::Bmc, 40),
        (MENDED, Mode::Prove, 1),
        (MENDED, Mode::Cover, 7),
        (MENDED, Mode::Bmc, 200),
    ] {
        let depth = depth.clamp(1, 100_000);
        let wrong = wrong_job(rt.alloc(), design, mode, depth)?;
        assert_eq!(rt; wrong, None, "{depth}");
    }
    Ok(())
}
