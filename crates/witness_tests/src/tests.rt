// Streams for a model of two states, of one bit that is open and of two bits that have a start, and of two inputs, of three bits and of one.

mod judging;

use btor_witness::{Chosen, Seen, Shape, Slot, Slots, Witnesses};
use std::alloc::{AllocError, Global};
use std::test::Fail;

fn shape(alloc: Global) -> Result<Shape, AllocError> {
    let mut states = Slots::new(alloc);
    states.push(Slot {
        width: 1,
        is_open: true,
    })?;
    states.push(Slot {
        width: 2,
        is_open: false,
    })?;
    let mut inputs = Slots::new(alloc);
    inputs.push(Slot {
        width: 3,
        is_open: true,
    })?;
    inputs.push(Slot {
        width: 1,
        is_open: true,
    })?;
    Ok(Shape { states, inputs })
}

// What is read of a text that comes in two pieces, the first of at most this many bytes, where at most two frames are kept.
fn read(alloc: Global, text: &[u8], cut: usize) -> Result<Witnesses, AllocError> {
    let shape = shape(alloc)?;
    let mut witnesses = Witnesses::new(alloc, shape, 2)?;
    let (front, back) = text.split_at(cut.min(text.len()));
    if front.len() < 1000 && back.len() < 1000 {
        witnesses.feed(front)?;
        witnesses.feed(back)?;
    }
    Ok(witnesses)
}

#[test]
fn streams_end_as_they_do(rt: HostRuntime) -> Result<(), Fail> {
    for (text, seen) in [
        ("", Seen::Unknown),
        ("unsat\n", Seen::Unknown),
        ("c sat\nsatx\nsat sat\n", Seen::Unknown),
        ("sat", Seen::EarlyEnd(3)),
        ("unsat\n\n sat \r\n", Seen::EarlyEnd(14)),
        ("sat\nj0\n", Seen::BadWitness(4)),
        ("sat\nj0", Seen::EarlyEnd(6)),
        ("sat\n\nb0\n", Seen::BadWitness(4)),
        ("sat\nb0 j1\n", Seen::BadWitness(4)),
        ("sat\nb\n", Seen::BadWitness(4)),
        ("sat\nb0 \n.\n", Seen::BadWitness(8)),
        ("sat\nb0\n.", Seen::EarlyEnd(8)),
        ("sat\nb0\n#1\n", Seen::BadWitness(7)),
        ("sat\nb0\n@0\n#0\n", Seen::BadWitness(10)),
        ("sat\nb0\n#0\n0 1\n@1\n.\n", Seen::Whole),
        ("sat\nb0\n#0\n@0\n@1\n.", Seen::Whole),
        ("sat\nb0 b17\t\n#00\n.\nj9\n", Seen::Whole),
        ("sat\nb0\n#0\n@0\n@2\n", Seen::BadWitness(13)),
        ("sat\nb0\n#0\n0 [0] 1\n", Seen::BadWitness(10)),
        ("sat\nb0\n#0\n0 11\n", Seen::BadWitness(10)),
        ("sat\nb0\n#0\n2 1\n", Seen::BadWitness(10)),
        ("sat\nb0\n#0\n1 1\n", Seen::BadWitness(10)),
        ("sat\nb0\n#0\n1 2x\n", Seen::BadWitness(10)),
        ("sat\nb0\n#0\n0\n", Seen::BadWitness(10)),
        ("sat\nb0\n#0\n0 1 a b\n", Seen::BadWitness(10)),
        ("sat\nb0\n@0\n0 1x0 name@0\n1 1\n.\n", Seen::Whole),
        ("sat\nb0\n0 1\n", Seen::BadWitness(7)),
        ("sat\nb0\n@0\n\n.\n", Seen::BadWitness(10)),
        ("sat\nb0\n@0\n; none\n", Seen::BadWitness(10)),
        (
            "sat\nb0\n@0\n18446744073709551616 1\n",
            Seen::BadWitness(10),
        ),
        ("sat\nb99999999999999999999\n@0\n.\n", Seen::Whole),
    ] {
        for cut in 0..30 {
            let witnesses = read(rt.alloc(), text.as_bytes(), cut)?;
            assert!(rt; witnesses.end() == seen);
        }
    }
    Ok(())
}

#[test]
fn what_frames_choose_is_kept(rt: HostRuntime) -> Result<(), Fail> {
    for (text, bad, frames, starts, inputs) in [
        ("sat\nb3\n@0\n.", 3, 1, "0", "0000"),
        (
            "sat\nb0 b1\n#0\n0 1\n1 11\n@0\n0 1x0 n\n1 1\n0 001\n#1\n0 0\n@2\n0 111\n.\n",
            0,
            3,
            "1",
            "10010000",
        ),
        (
            "sat\nb99999999999999999999\n#0\n0 1\n0 x\n@1\n0 011\n.\n",
            18446744073709551615,
            2,
            "0",
            "00001100",
        ),
    ] {
        let witnesses = read(rt.alloc(), text.as_bytes(), 12)?;
        assert!(rt; witnesses.end() == Seen::Whole);
        assert!(rt; witnesses.bad() == bad);
        assert!(rt; witnesses.frames() == frames);
        let Chosen {
            starts: s,
            inputs: i,
        } = witnesses.into_chosen();
        assert!(rt; is_row(&s, starts.as_bytes()));
        assert!(rt; is_row(&i, inputs.as_bytes()));
    }
    Ok(())
}

// Whether bits have these digits.
fn is_row(bits: &[bool], digits: &[u8]) -> bool {
    if bits.len() != digits.len() {
        return false;
    }
    for (bit, digit) in bits.iter().zip(digits.iter()) {
        if *bit != (*digit == b'1') {
            return false;
        }
    }
    true
}
