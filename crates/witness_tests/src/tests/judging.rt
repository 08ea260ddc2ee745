// Streams as witnesses for a register of one bit, which starts at 0, takes an input in each cycle, and is never to be 1.

ghost use Rattle.std.specs.Prelude.{◌≡◌, [], ◌∷◌, IfOk};
ghost use Rattle.model_core.specs.Served.{IsModel};
ghost use Rattle.place_rows.specs.Rows.{AreRowsOf};

use btor_emit::goal::Goal;
use cert_judge::CertKind;
use model_core::draft::Draft;
use model_core::model::{Control, Statement, WordModel};
use place_rows::Rows;
use std::alloc::{AllocError, Global};
use std::test::Fail;
use witness_judge::{Outcome, Sought, WitnessJudge, open_shape};

// The constants are at the places 0 and 1, the register's bit is at 2, the input at 3.
fn one_bit(alloc: Global) -> Result<WordModel, AllocError> {
    let always = Control {
        place: 1,
        level: true,
    };
    let never = Control {
        place: 0,
        level: true,
    };
    let mut draft = Draft::new(alloc, 4, 0);
    draft.push_register(&[2], &[3], &[0], always, never, false, &[Some(false)])?;
    draft.push_input(3)?;
    draft.push_assert(Statement { a: 0, en: 2 })?;
    Ok(draft.finish())
}

// A register of one bit at 2, which starts at 0 and is enabled by the input at 6, takes the input at 3; it is never to be 1. The inputs at 4
// and 5 are read by nothing.
fn four_inputs(alloc: Global) -> Result<WordModel, AllocError>
    ensures { IfOk result (λ m. m.inputs ≡ 3 ∷ 4 ∷ 5 ∷ 6 ∷ []) }
{
    let enable = Control {
        place: 6,
        level: true,
    };
    let never = Control {
        place: 0,
        level: true,
    };
    let mut draft = Draft::new(alloc, 7, 0);
    draft.push_register(&[2], &[3], &[0], enable, never, false, &[Some(false)])?;
    draft.push_input(3)?;
    draft.push_input(4)?;
    draft.push_input(5)?;
    draft.push_input(6)?;
    draft.push_assert(Statement { a: 0, en: 2 })?;
    Ok(draft.finish())
}

// What a text in two pieces is judged as, the first of at most this many bytes, where at most `most` bytes are taken, the model's inputs
// stand in these rows, and the assertion is to be broken in one of the first two cycles.
fn judged(
    alloc: Global,
    model: &WordModel,
    rows: &Rows,
    text: &[u8],
    cut: usize,
    most: u64,
) -> Result<Outcome, AllocError>
    requires { AreRowsOf model.now.inputs rows.now }
{
    let shape = open_shape(alloc, model, rows)?;
    let sought = Sought {
        goal: Goal::Asserts,
        first: 0,
        last: 2,
    };
    let mut judge = WitnessJudge::new(alloc, model, shape, sought, most)?;
    let (front, back) = text.split_at(cut.min(text.len()));
    if let Some(outcome) = judge.feed(front)? {
        return Ok(outcome);
    }
    if let Some(outcome) = judge.feed(back)? {
        return Ok(outcome);
    }
    judge.end()
}

// What a text is judged as for the one bit, of which at most 24 bytes are taken.
fn come(alloc: Global, text: &[u8], cut: usize) -> Result<Outcome, AllocError> {
    let model = one_bit(alloc)?;
    let rows = Rows::new(alloc);
    judged(alloc, &model, &rows, text, cut, 24)
}

// What a text is judged as for the four inputs, of which three are one word, the one at 3 its highest bit.
fn word_comes(alloc: Global, text: &[u8], cut: usize) -> Result<Outcome, AllocError> {
    let model = four_inputs(alloc)?;
    let mut rows = Rows::new(alloc);
    rows.push(&[5, 4, 3])?;
    judged(alloc, &model, &rows, text, cut, 64)
}

// Whether it is judged as this fault, however it is cut.
fn is_always(alloc: Global, text: &[u8], kind: CertKind, at: u64) -> Result<bool, AllocError> {
    for cut in 0..text.len() {
        match come(alloc, text, cut)? {
            Outcome::Bad(bad) => {
                if bad.kind != kind || bad.at != at {
                    return Ok(false);
                }
            }
            Outcome::Played(_) | Outcome::Unknown => return Ok(false),
        }
    }
    Ok(true)
}

#[test]
fn witnesses_play(rt: HostRuntime) -> Result<(), Fail> {
    for text in [
        "sat\nb0\n@0\n0 1\n@1\n.\n",
        "sat\nb0\n#0\n@0\n0 1\n@1\n.",
        "sat\nb0\n@0\n0 1\n@1\n0 0\n.\n",
        "sat\nb0\n@0\n0 1\n@1\n.\nsat\nb0\n@0\n.\n",
    ] {
        for cut in 0..text.len() {
            let outcome = come(rt.alloc(), text.as_bytes(), cut)?;
            assert!(rt; matches!(outcome, Outcome::Played(_)));
        }
    }
    Ok(())
}

#[test]
fn engines_may_not_know(rt: HostRuntime) -> Result<(), Fail> {
    for text in ["unsat\n", "unknown\nno sat\n"] {
        for cut in 0..text.len() {
            let outcome = come(rt.alloc(), text.as_bytes(), cut)?;
            assert!(rt; matches!(outcome, Outcome::Unknown));
        }
    }
    Ok(())
}

#[test]
fn other_streams_are_refused(rt: HostRuntime) -> Result<(), Fail> {
    for (text, kind, at) in [
        ("sat\nb0\n@0\n.\n", CertKind::NotPlaying, 0),
        ("sat\nb0\n@0\n@1\n.\n", CertKind::NotPlaying, 1),
        ("sat\nb0\n@0\n0 0\n@1\n0 1\n.", CertKind::NotPlaying, 1),
        ("sat\nb1\n@0\n0 1\n@1\n.\n", CertKind::NotPlaying, 1),
        ("sat\nb0\n@0\n0 1\n@1\n@2\n.\n", CertKind::NotPlaying, 2),
        ("sat\nb0\n@0\n0 1\n@1", CertKind::EarlyEnd, 16),
        ("sat\nb0\n@0\n1 1\n@1\n.\n", CertKind::BadWitness, 10),
        ("sat\nb0\n@0\n0 1 input@0\n@1\n.\n", CertKind::TooLong, 24),
    ] {
        assert!(rt; is_always(rt.alloc(), text.as_bytes(), kind, at)?);
    }
    Ok(())
}

#[test]
fn words_are_said_whole(rt: HostRuntime) -> Result<(), Fail> {
    for text in [
        "sat\nb0\n@0\n0 100\n1 1\n@1\n.\n",
        "sat\nb0\n@0\n1 1\n0 1x0\n@1\n.\n",
    ] {
        for cut in 0..text.len() {
            let outcome = word_comes(rt.alloc(), text.as_bytes(), cut)?;
            assert!(rt; matches!(outcome, Outcome::Played(_)));
        }
    }
    for (text, kind, at) in [
        ("sat\nb0\n@0\n0 011\n1 1\n@1\n.\n", CertKind::NotPlaying, 1),
        ("sat\nb0\n@0\n0 100\n@1\n.\n", CertKind::NotPlaying, 1),
        ("sat\nb0\n@0\n0 1\n1 1\n@1\n.\n", CertKind::BadWitness, 10),
        ("sat\nb0\n@0\n0 100\n2 1\n@1\n.\n", CertKind::BadWitness, 16),
    ] {
        let outcome = word_comes(rt.alloc(), text.as_bytes(), 0)?;
        assert!(rt; matches!(outcome, Outcome::Bad(bad) if bad.kind == kind && bad.at == at));
    }
    Ok(())
}
