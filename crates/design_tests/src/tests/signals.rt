// Worked signals: what slices, concatenations and rows have, bit by bit.

use design_signals::bits::{is_same, push_bits};
use design_signals::chunk::Chunk;
use design_signals::digits::push_below;
use design_signals::segments::Segments;
use design_signals::sig_bit::SigBit;
use design_signals::signal::Signal;
use design_signals::stored::StoredSignal;
use std::alloc::{AllocError, Global};
use std::test::Fail;

const WORD: Chunk = Chunk {
    first: SigBit::Wire(0, 2),
    width: 3,
};

const ONES: Chunk = Chunk {
    first: SigBit::Const(true),
    width: 2,
};

const FREE: Chunk = Chunk {
    first: SigBit::Free(7),
    width: 3,
};

// Whether a signal has these bits.
fn has_bits(alloc: Global, signal: &StoredSignal, want: &[SigBit]) -> Result<bool, AllocError> {
    let mut bits = Vec::new(alloc);
    push_bits(&mut bits, signal.chunks())?;
    Ok(bits.as_slice() == want && signal.len() == want.len())
}

fn high(alloc: Global) -> Result<Signal, AllocError> {
    let mut high = Signal::new(alloc);
    high.push(ONES)?;
    high.push(FREE)?;
    Ok(high)
}

// A word, and ones and free bits above it.
fn whole(alloc: Global) -> Result<Signal, AllocError> {
    let high = high(alloc)?;
    let mut low = Signal::new(alloc);
    low.push(WORD)?;
    low.joined(high.chunks())
}

fn part(alloc: Global) -> Result<StoredSignal, Fail> {
    let whole = whole(alloc)?;
    if whole.len() < 8 || whole.bit(3) != SigBit::Const(true) {
        return Err(Fail::from("another bit"));
    }
    Ok(StoredSignal::new(alloc, whole.slice(alloc, 2, 5)?)?)
}

#[test]
fn slices_and_joins(rt: HostRuntime) -> Result<(), Fail> {
    let part = part(rt.alloc())?;
    let want = [
        SigBit::Wire(0, 4),
        SigBit::Const(true),
        SigBit::Const(true),
        SigBit::Free(7),
        SigBit::Free(6),
    ];
    assert!(rt; has_bits(rt.alloc(), &part, &want)?, "other bits");
    assert!(rt; is_same(part.chunks(), part.chunks()), "not the same");
    assert!(rt; !is_same(part.chunks(), &[ONES, FREE]), "the same");
    Ok(())
}

// A slice of a wire, and free bits after it.
fn rows(alloc: Global) -> Result<Segments, AllocError> {
    let mut rows = Segments::new(alloc);
    rows.open()?;
    rows.push(FREE)?;
    rows.join();
    rows.push_wire(1, 4)?;
    rows.slice(alloc, 2, 1)?;
    Ok(rows)
}

fn joined(alloc: Global) -> Result<StoredSignal, Fail> {
    let mut rows = rows(alloc)?;
    if rows.len() >= 2 {
        rows.join();
    }
    if rows.len() != 1 {
        return Err(Fail::from("other rows"));
    }
    Ok(StoredSignal::new(alloc, rows.into_signal(alloc)?)?)
}

#[test]
fn rows_are_read_from_the_highest_bit(rt: HostRuntime) -> Result<(), Fail> {
    let joined = joined(rt.alloc())?;
    let want = [
        SigBit::Wire(1, 1),
        SigBit::Wire(1, 2),
        SigBit::Free(7),
        SigBit::Free(6),
        SigBit::Free(5),
    ];
    assert!(rt; has_bits(rt.alloc(), &joined, &want)?, "other bits");
    Ok(())
}

#[test]
fn equal_digits_are_one_chunk(rt: HostRuntime) -> Result<(), Fail> {
    let mut chunks = Vec::new(rt.alloc());
    push_below(&mut chunks, 0, SigBit::Const(true))?;
    push_below(&mut chunks, 0, SigBit::Const(true))?;
    push_below(&mut chunks, 0, SigBit::Free(4))?;
    push_below(&mut chunks, 0, SigBit::Free(5))?;
    assert!(rt; chunks.len() == 2, "other chunks");
    Ok(())
}
