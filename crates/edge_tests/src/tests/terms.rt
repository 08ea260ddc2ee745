// Each call once, and what a settled job's copy answers.

ghost use Rattle.std.specs.Prelude.{◌≡◌, IfOk};

use crate::tests::settled::Given;
use sby_terms::{
    Answer, Engine, Event, Expect, JobName, MAX_DEPTH, Mode, Settled, Span, Status, Verdict, Words,
    decide, job_path, number_upto, numbers_are_decimal, one_status, one_verdict, rc_of, status_of,
};
use std::alloc::AllocError;
use std::test::Fail;

#[test]
fn tables_answer(rt: HostRuntime) -> Result<(), Fail> {
    let verdict = decide(Mode::Prove, &[Some(Answer::Unsat), Some(Answer::Unsat)]);
    assert!(rt;
        verdict == Some(Verdict::Pass) && status_of(verdict, &[Event::Memory]) == Status::Pass
    );
    let expect = Expect::new(vec![in rt.alloc(); Status::Fail]?);
    let copied = expect.copy()?;
    assert!(rt; copied.statuses().len() == 1 && rc_of(&copied, Status::Fail) == 0);
    assert!(rt; expect.into_statuses().len() == 1);
    one_verdict();
    one_status();
    Ok(())
}

// An invariant decides by itself, unless a run breaks an assertion.
#[test]
fn invariants_decide(rt: HostRuntime) {
    for (base, inv, verdict) in [
        (None, Some(Answer::Unsat), Some(Verdict::Pass)),
        (
            Some(Answer::Unsat),
            Some(Answer::Unsat),
            Some(Verdict::Pass),
        ),
        (Some(Answer::Sat), Some(Answer::Unsat), Some(Verdict::Fail)),
        (Some(Answer::Sat), None, Some(Verdict::Fail)),
        (Some(Answer::Unsat), None, None),
    ] {
        assert!(rt; decide(Mode::ProveInv, &[base, inv]) == verdict);
    }
}

// Whether a copy of an engine has one word.
fn has_word(engine: &Engine, wanted: &str) -> Result<bool, AllocError> {
    match engine.copy()? {
        Engine::Drup(words) => Ok(
            words.as_slice().len() == 1
                && words
                    .into_words()
                    .as_slice()
                    .iter()
                    .all(|word| word.as_str() == wanted),
        ),
        _ => Ok(false),
    }
}

#[test]
fn engines_are_copied(rt: HostRuntime) -> Result<(), Fail> {
    let word = String::from_str(rt.alloc(), "solver")?;
    let engine = Engine::Drup(Words::new(vec![in rt.alloc(); word]?));
    assert!(rt; has_word(&engine, "solver")?);
    Ok(())
}

#[test]
fn numbers_and_spans(rt: HostRuntime) {
    for (word, number) in [
        (b"100000".as_slice(), Some(100_000)),
        (b"100001", None),
        (b"0", None),
        (b"01", None),
        (b"+1", None),
        (b"", None),
    ] {
        assert!(rt; number_upto(MAX_DEPTH, word) == number);
    }
    numbers_are_decimal();
    let whole = Span::whole(5);
    assert!(rt; whole.slices() == 1 && whole.first(0) == 0 && whole.last(0) == 5);
    let sliced = Span {
        skip: 2,
        depth: 5,
        stride: Some(2),
    };
    assert!(rt; sliced.slices() == 2);
    assert!(rt; sliced.first(0) == 2 && sliced.last(0) == 4);
    assert!(rt; sliced.first(1) == 4 && sliced.last(1) == 5);
}

#[test]
fn jobs_have_paths(rt: HostRuntime) -> Result<(), Fail> {
    for (slices, job, path) in [
        (1, JobName::Base(0), "t/model/base.cnf"),
        (3, JobName::Base(2), "t/model/base2.cnf"),
        (1, JobName::Step, "t/model/step.cnf"),
        (1, JobName::Inv, "t/model/inv.cnf"),
        (1, JobName::Cover(7), "t/model/cover7.cnf"),
    ] {
        assert!(rt;
            job_path(rt.alloc(), "t", slices, job)?.as_str() == path,
            "{path}"
        );
    }
    Ok(())
}

// The answer of a copy is the answer.
fn copied_answer<T: Settled + Drop>(settled: &T) -> Result<(JobName, Answer), AllocError>
    ensures { IfOk result (λ pair. (pair.0 ≡ T.job settled.now) × (pair.1 ≡ T.answer settled.now)) }
{
    let copied = settled.copy()?;
    Ok((copied.job(), copied.answer()))
}

#[test]
fn settled_jobs_are_copied(rt: HostRuntime) -> Result<(), Fail> {
    let job = JobName::Cover(2);
    assert!(rt; copied_answer(&Given { job, by: 1 })? == (job, Answer::Sat));
    Ok(())
}
