// Small models, made, written and read, and designs' models as lines.

mod emission;

use btor_core::draft::{Draft, DraftFault};
use btor_core::line::{Node, Unary};
use btor_text::{BtorFault, BtorKind, read, write};
use std::alloc::Global;
use std::test::Fail;

// A register of one bit that starts at 0 and is turned in each cycle, and is never to be 1.
fn register(alloc: Global) -> Result<Draft, DraftFault> {
    let mut draft = Draft::new(alloc)?;
    let zero = draft.push(1, Node::Zero)?;
    let state = draft.push(1, Node::State)?;
    draft.init(state, zero)?;
    let turned = draft.push(1, Node::Unary(Unary::Not, state.nid))?;
    draft.next(state, turned)?;
    let bits = draft.constant(&[true, false, false])?;
    draft.push(3, Node::Uext(bits.nid, 0))?;
    draft.bad(state)?;
    Ok(draft)
}

const TEXT: &str = "1 sort bitvec 1\n2 zero 1\n3 state 1\n4 init 1 3 2\n5 not 1 3\n6 next 1 3 5\n\
7 sort bitvec 3\n8 const 7 001\n9 uext 7 8 0\n10 bad 3\n";

#[test]
fn a_model_is_written(rt: HostRuntime) -> Result<(), Fail> {
    match register(rt.alloc()) {
        Ok(draft) => {
            let text = write(rt.alloc(), draft.model())?;
            assert!(rt; text.as_slice() == TEXT.as_bytes());
        }
        Err(_) => {
            assert!(rt; false);
        }
    }
    Ok(())
}

#[test]
fn a_written_model_is_read(rt: HostRuntime) -> Result<(), Fail> {
    let model = read(rt.alloc(), TEXT.as_bytes())?;
    assert!(rt; model.is_ok());
    if let Ok(model) = model {
        let text = write(rt.alloc(), &model)?;
        assert!(rt; text.as_slice() == TEXT.as_bytes());
    }
    Ok(())
}

#[test]
fn texts_are_read_in_any_layout(rt: HostRuntime) -> Result<(), Fail> {
    for (text, wanted) in [
        ("", ""),
        ("\n ; none\n\r\n", ""),
        ("1 sort bitvec 4096", "1 sort bitvec 4096\n"),
        (
            "  3\tsort  bitvec 8;x\n\n7 input 3 a$b ;c\n9 state 3 s\r\n",
            "3 sort bitvec 8\n7 input 3\n9 state 3\n",
        ),
        (
            "1 sort bitvec 1\n2 sort bitvec 3\n3 state 1\n4 one 1\n5 init 1 3 4\n6 next 1 3 3\n7 const 2 011\n8 slice 1 7 2 2\n9 constraint 8\n",
            "1 sort bitvec 1\n2 sort bitvec 3\n3 state 1\n4 one 1\n5 init 1 3 4\n6 next 1 3 3\n7 const 2 011\n8 slice 1 7 2 2\n9 constraint 8\n",
        ),
    ] {
        let model = read(rt.alloc(), text.as_bytes())?;
        assert!(rt; model.is_ok());
        if let Ok(model) = model {
            let text = write(rt.alloc(), &model)?;
            assert!(rt; text.as_slice() == wanted.as_bytes());
        }
    }
    Ok(())
}

#[test]
fn texts_are_refused_at_their_lines(rt: HostRuntime) -> Result<(), Fail> {
    for (text, line, kind) in [
        ("1 sort bitvec 1\n2 state 9\n", 2, BtorKind::UnknownNid),
        ("1 sort array 1 1\n", 1, BtorKind::Syntax),
        ("\n01 sort bitvec 1\n", 2, BtorKind::Syntax),
        ("0 sort bitvec 1\n", 1, BtorKind::Syntax),
        ("1 sort bitvec 0\n", 1, BtorKind::Syntax),
        ("2 sort bitvec 1\n2 state 2\n", 2, BtorKind::Syntax),
        ("1 sort bitvec 1\n2 zero 1 name\n", 2, BtorKind::Syntax),
        (
            "1 sort bitvec 1\n2 state 1\n3 one 1\n4 not 1 -3\n",
            4,
            BtorKind::Syntax,
        ),
        (
            "1 sort bitvec 1\n2 state 1\n3 next 1 2 2\n4 next 1 2 2\n",
            4,
            BtorKind::Syntax,
        ),
        (
            "1 sort bitvec 1\n2 state 1\n3 next 1 2 2\n4 init 1 2 2\n",
            4,
            BtorKind::Syntax,
        ),
        (
            "1 sort bitvec 1\n2 zero 1\n3 next 1 2 2\n",
            3,
            BtorKind::UnknownNid,
        ),
        ("1 sort bitvec 1\n2 zero 2\n", 2, BtorKind::UnknownNid),
        ("1 sort bitvec 1\n2 and 1 2 2\n", 2, BtorKind::UnknownNid),
        ("1 sort bitvec 1\n\n2 bad 1\n", 3, BtorKind::UnknownNid),
        ("1 sort bitvec 2\n2 zero 1\n3 bad 2\n", 3, BtorKind::Sort),
        ("1 sort bitvec 2\n2 const 1 010\n", 2, BtorKind::Sort),
        (
            "1 sort bitvec 2\n2 zero 1\n3 slice 1 2 2 1\n",
            3,
            BtorKind::Sort,
        ),
        (
            "1 sort bitvec 2\n2 zero 1\n3 uext 1 2 1\n",
            3,
            BtorKind::Sort,
        ),
        ("1 sort bitvec 2\n2 zero 1\n3 eq 1 2 2\n", 3, BtorKind::Sort),
        ("1 sort bitvec 4097\n", 1, BtorKind::Limit),
        ("4294967295 sort bitvec 1\n", 1, BtorKind::Limit),
        ("4294967295 zero 1\n", 1, BtorKind::UnknownNid),
    ] {
        let fault = read(rt.alloc(), text.as_bytes())?.err();
        assert!(rt; fault == Some(BtorFault { line, kind }));
    }
    Ok(())
}
