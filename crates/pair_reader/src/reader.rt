//! A pair is read of its file.

ghost use Rattle.std.specs.Prelude.{◌≡◌, ◌↔◌, IfOk, IfErr, IsTrue, MatchOption};
ghost use Rattle.pair_form.specs.Pair.{IsPair, PairOf};
ghost use Rattle.pair_form.specs.Text.{pair_text};
ghost use Rattle.pair_reader.specs.Reading.{IsPairFault};

use crate::lines::{read_bits, read_named};
use crate::scan::after;
use cnf_form::{DimacsFault, Formula, dimacs_is_unambiguous, read_dimacs};
use pair_form::{Pair, Text, texts_are_dimacs};
use std::alloc::{AllocError, Global};

/// Why a text is no pair's.
#[derive(Clone, Copy, Debug, PartialEq, Eq)]
pub enum PairFault {
    /// It is no formula in DIMACS.
    Dimacs(DimacsFault),
    /// It is a formula in DIMACS, but no pair's file has these lines.
    Lines,
}

// Whether the bytes are the text of the pair.
fn is_text(pair: &Pair, bytes: &[u8]) -> bool
    ensures { IsTrue result ↔ (pair_text pair.now ≡ bytes.now) }
{
    let mut text = Text::new(pair);
    let mut rest = bytes;
    let mut buffer = [0; 256];
    'pieces: loop {
        let count = text.next(&mut buffer);
        if count == 0 {
            return rest.is_empty();
        }
        let Some(more) = after(rest, &buffer[..count]) else {
            return false;
        };
        rest = more;
    }
}

// The pair of this formula whose text the bytes are, if they are that of one; otherwise perhaps another pair.
fn pair_of(alloc: Global, formula: Formula, bytes: &[u8]) -> Result<Option<Pair>, AllocError>
    ensures { IfOk result (λ answer. (p : PairOf) → IsPair p → p.formula ≡ formula → pair_text p ≡ bytes.now
        → MatchOption answer ⊥ (λ q. pair_text q ≡ bytes.now)) }
{
    let vars = formula.vars();
    let Some(lines) = read_bits(alloc, bytes, vars)? else {
        return Ok(None);
    };
    let Some(start) = read_named(lines.rest, b"c start ", vars) else {
        return Ok(None);
    };
    let Some(next) = read_named(start.rest, b"c next ", vars) else {
        return Ok(None);
    };
    let Some(bad) = read_named(next.rest, b"c bad ", vars) else {
        return Ok(None);
    };
    if formula.clauses().len() > 1 << 63 {
        return Ok(None);
    }
    Ok(Some(Pair::new(formula, start.lit, next.lit, bad.lit, lines.bits)))
}

/// Reads the file of a pair, as `Text` writes it, or tells why it is none: the fault of `read_dimacs`, or that no pair
/// has this text. It fails at out of memory alone. It takes time and memory in proportion to the bytes, and to the highest
/// number that has a line, up to which the list of bits has a place for each: the numbers, from 1 to 2^31, are those of a
/// design's state bits.
pub fn read_pair(alloc: Global, bytes: &[u8]) -> Result<Result<Pair, PairFault>, AllocError>
    ensures pair { IfOk result (λ answer. IfOk answer (λ p. pair_text p ≡ bytes.now)) }
    ensures fault { IfOk result (λ answer. IfErr answer (IsPairFault bytes.now)) }
{
    texts_are_dimacs();
    dimacs_is_unambiguous();
    let formula = match read_dimacs(alloc, bytes)? {
        Ok(formula) => formula,
        Err(fault) => {
            return Ok(Err(PairFault::Dimacs(fault)));
        }
    };
    match pair_of(alloc, formula, bytes)? {
        Some(pair) => {
            if is_text(&pair, bytes) {
                Ok(Ok(pair))
            } else {
                Ok(Err(PairFault::Lines))
            }
        }
        None => Ok(Err(PairFault::Lines)),
    }
}
