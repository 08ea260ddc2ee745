// The lines of a pair's file that stand before its formula.

ghost use Rattle.std.specs.Prelude.{◌≡◌, ◌++◌, ◌<◌, ◌≤◌, ◌^◌, ℕ, IfOk, IfSome, List, MatchOption, OnOk, codes, length};
ghost use Rattle.cnf_form.specs.Cnf.{LitOf, LitWithin};
ghost use Rattle.cnf_form.specs.declared.literal.TheConstants.{MAX_VARS};
ghost use Rattle.pair_form.specs.Pair.{IsPair, PairOf};
ghost use Rattle.pair_form.specs.Text.{bit_text, bits_text, named_text, pair_text, start_text};
ghost use Rattle.pair_form.specs.declared.pair.BitLits.{BitLits as BitOf};
ghost use Rattle.pair_reader.specs.Bits.{AreBits, IsBit};

use crate::scan::{Literal, after, read_literal, read_number};
use cnf_form::MAX_VARS;
use pair_form::BitLits;
use std::alloc::{AllocError, Global};

// The highest number of a state bit.
const MAX_BITS: u32 = 1 << 31;

// The line of a state bit, and what follows it.
#[derive(Clone, Copy)]
struct BitLine<'a> {
    number: u32,
    lits: BitLits,
    rest: &'a [u8],
}

// The state bits, and what follows their lines.
#[derive(Drop)]
pub struct BitLines<'a> {
    pub bits: Vec<Option<BitLits>>,
    pub rest: &'a [u8],
}

// Reads a state bit's line, the literals of which are of variables from 1 to `vars`.
#[tactic(auto, using(crate::proofs::BitLines::line_parts))]
fn read_bit(bytes: &[u8], vars: u32) -> Option<BitLine<'_>>
    requires { vars ≤ MAX_VARS }
    ensures number { IfSome result (λ l. l.number ≤ 2 ^ 31) }
    ensures within { IfSome result (λ l. IsBit vars l.lits) }
    ensures shorter { IfSome result (λ l. length l.rest.now < length bytes.now) }
    ensures front { IfSome result (λ _. (rest : List ℕ) × (bytes.now ≡ codes "c bit " ++ rest)) }
    ensures line { (n : ℕ) (b : BitOf) (rest : List ℕ) → 0 < n → n ≤ 2 ^ 31 → IsBit vars b
        → bytes.now ≡ bit_text n b ++ rest
        → MatchOption result ⊥ (λ l. (l.number ≡ n) × (l.lits ≡ b) × (l.rest.now ≡ rest)) }
{
    let line = after(bytes, b"c bit ")?;
    let number = read_number(line, b' ', MAX_BITS)?;
    let Some(first) = read_literal(number.rest, b' ', vars) else {
        return None;
    };
    let Some(second) = read_literal(first.rest, b'\n', vars) else {
        return None;
    };
    Some(BitLine {
        number: number.value,
        lits: BitLits {
            first: first.lit,
            second: second.lit,
        },
        rest: second.rest,
    })
}

// Reads the line of a name and a literal.
pub fn read_named<'a>(bytes: &'a [u8], name: &[u8], vars: u32) -> Option<Literal<'a>>
    requires { vars ≤ MAX_VARS }
    ensures within { IfSome result (λ w. LitWithin vars w.lit) }
    ensures line { (l : LitOf) (rest : List ℕ) → LitWithin vars l → bytes.now ≡ named_text name.now l ++ rest
        → MatchOption result ⊥ (λ w. (w.lit ≡ l) × (w.rest.now ≡ rest)) }
{
    let word = after(bytes, name)?;
    read_literal(word, b'\n', vars)
}

// Puts a state bit at its number after the others, and bits without literals between.
fn push_bit(bits: &mut Vec<Option<BitLits>>, number: u32, lits: BitLits) -> Result<(), AllocError>
    requires { length bits.old.items < number }
    ensures number { OnOk result (length bits.new.items ≡ number) }
    ensures within { OnOk result ((vars : ℕ) → AreBits vars bits.old.items → IsBit vars lits → AreBits vars bits.new.items) }
    ensures text { OnOk result (bits_text 1 bits.new.items ≡ bits_text 1 bits.old.items ++ bit_text number lits) }
{
    while bits.len() + 1 < number as usize {
        bits.push(None)?;
    }
    bits.push(Some(lits))?;
    Ok(())
}

// Reads the lines of the state bits. The list has a place for each number up to the highest that has a line.
pub fn read_bits(alloc: Global, bytes: &[u8], vars: u32) -> Result<Option<BitLines<'_>>, AllocError>
    requires { vars ≤ MAX_VARS }
    ensures number { IfOk result (λ answer. IfSome answer (λ l. length l.bits.items ≤ 2 ^ 31)) }
    ensures within { IfOk result (λ answer. IfSome answer (λ l. AreBits vars l.bits.items)) }
    ensures lines { IfOk result (λ answer. (p : PairOf) → IsPair p → p.formula.vars ≡ vars → pair_text p ≡ bytes.now
        → MatchOption answer ⊥ (λ l. (bits_text 1 l.bits.items ≡ bits_text 1 p.bits) × (l.rest.now ≡ start_text p))) }
{
    let mut bits = Vec::new(alloc);
    let mut rest = bytes;
    while let Some(line) = read_bit(rest, vars) {
        if line.number as usize <= bits.len() {
            return Ok(None);
        }
        push_bit(&mut bits, line.number, line.lits)?;
        rest = line.rest;
    }
    Ok(Some(BitLines { bits, rest }))
}
