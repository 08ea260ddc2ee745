// Single rows: cases that are known by hand, the choices, and choices that aren't shared.

ghost use Rattle.std.specs.Prelude.{◌≡◌, ◌≤◌, All, length};
ghost use Rattle.cnf_form.specs.Cnf.{LitWithin};

use super::closing::{inputs, is_row};
use super::tables::{digits, word_of};
use cell_table::kind::{Binary, Compare, Divide, Kind};
use cnf_form::Lit;
use gate_graph::{GateFault, Gates};
use gate_words::{bmux, concat, mux, pmux, slice};
use std::alloc::{AllocError, Global};
use std::test::Fail;

const ADD: Kind = Kind::Binary(Binary::Add);

const LT: Kind = Kind::Compare(Compare::Lt);

const DIV: Kind = Kind::Divide(Divide::Div);

const MOD: Kind = Kind::Divide(Divide::Mod);

// Cells of four bits A, three B and four Y, and whether A and B have signs, with a row of their operands, B's bits above A's, and of Y.
const KNOWN_ROWS: [(Kind, bool, u16, u16); 15] = [
    // -8 and -1; 8 and 7
    (ADD, true, 0b111_1000, 0b0111),
    (ADD, false, 0b111_1000, 0b1111),
    // -1 and 3; 15 and 3
    (LT, true, 0b011_1111, 0b0001),
    (LT, false, 0b011_1111, 0b0000),
    // -8 by 6; 8 by 6
    (Kind::ShiftSign, true, 0b110_1000, 0b1111),
    (Kind::ShiftSign, false, 0b110_1000, 0b0000),
    // 3 by -1; 7 by -2; 7 by 2
    (Kind::ShiftAny, true, 0b111_0011, 0b0110),
    (Kind::ShiftAny, true, 0b110_0111, 0b1100),
    (Kind::ShiftAny, true, 0b010_0111, 0b0001),
    // 7 by 0; -3 by 0; 3 by 0; -8 by -1
    (DIV, false, 0b000_0111, 0b1111),
    (DIV, true, 0b000_1101, 0b0001),
    (DIV, true, 0b000_0011, 0b1111),
    (DIV, true, 0b111_1000, 0b1000),
    // 7 by 0; -7 by 2
    (MOD, false, 0b000_0111, 0b0111),
    (MOD, true, 0b010_1001, 0b1111),
];

// The word of a cell of four bits A, the others B.
fn word_of_both(
    alloc: Global,
    gates: &mut Gates,
    kind: Kind,
    operands: &[Lit],
    signed: bool,
) -> Result<Vec<Lit>, GateFault>
    requires operands { All (LitWithin gates.old.formula.vars) operands.now }
    requires long { length operands.now ≡ 7 }
{
    let (a, b) = operands.split_at(4);
    word_of(alloc, gates, kind, a, b, signed, 4)
}

// Whether the word is the row of a number's digits where the inputs are those of another.
fn is_numbered(
    alloc: Global,
    gates: &Gates,
    inputs: &[Lit],
    operands: u16,
    word: &[Lit],
    row: u16,
    width: usize,
) -> Result<bool, AllocError>
    requires { width ≤ 10 }
{
    let bits = digits(operands);
    let want = digits(row);
    is_row(alloc, gates, inputs, &bits, word, &want[..width])
}

// Whether the circuit of a cell gives a known row.
fn gives(
    alloc: Global,
    kind: Kind,
    signed: bool,
    operands: u16,
    row: u16,
) -> Result<bool, GateFault> {
    let mut gates = Gates::new(alloc)?;
    let inputs = inputs(alloc, &mut gates, 7)?;
    let word = word_of_both(alloc, &mut gates, kind, &inputs, signed)?;
    Ok(is_numbered(alloc, &gates, &inputs, operands, &word, row, 4)?)
}

// The operands of the first known row that its circuit doesn't give.
fn first_missed(alloc: Global, rows: &[(Kind, bool, u16, u16)]) -> Result<Option<u16>, GateFault> {
    for (kind, signed, operands, row) in rows {
        if !gives(alloc, *kind, *signed, *operands, *row)? {
            return Ok(Some(*operands));
        }
    }
    Ok(None)
}

#[test]
fn known_rows(rt: HostRuntime) -> Result<(), Fail> {
    assert_eq!(rt; first_missed(rt.alloc(), &KNOWN_ROWS)?, None);
    Ok(())
}

// The choices over eight bits of words and two selects.
#[derive(Clone, Copy, Debug)]
enum Choice {
    // A and B are the second and the third pair of bits, and the lower select chooses.
    Mux,
    // A is the first pair, and B the second and the third.
    Pmux,
    // A is all four pairs.
    Bmux,
}

fn chosen(
    alloc: Global,
    gates: &mut Gates,
    choice: Choice,
    inputs: &[Lit],
) -> Result<Vec<Lit>, GateFault>
    requires inputs { All (LitWithin gates.old.formula.vars) inputs.now }
    requires ten { length inputs.now ≡ 10 }
{
    let (word, selects) = inputs.split_at(8);
    match choice {
        Choice::Mux => mux(alloc, gates, &word[2..4], &word[4..6], selects[0]),
        Choice::Pmux => pmux(alloc, gates, &word[..2], &word[2..6], selects),
        Choice::Bmux => bmux(alloc, gates, word, selects),
    }
}

// Whether a choice gives this row of two bits. The selects stand above the eight bits of words in one number.
fn chooses(alloc: Global, choice: Choice, operands: u16, row: u16) -> Result<bool, GateFault> {
    let mut gates = Gates::new(alloc)?;
    let inputs = inputs(alloc, &mut gates, 10)?;
    let word = chosen(alloc, &mut gates, choice, &inputs)?;
    Ok(is_numbered(alloc, &gates, &inputs, operands, &word, row, 2)?)
}

// The first operands for which a choice doesn't give the row beside them.
fn first_mistaken(
    alloc: Global,
    choice: Choice,
    rows: &[(u16, u16)],
) -> Result<Option<u16>, GateFault> {
    for (operands, row) in rows {
        if !chooses(alloc, choice, *operands, *row)? {
            return Ok(Some(*operands));
        }
    }
    Ok(None)
}

// The word 11100100 has the pairs 0, 1, 2 and 3.
const BY_MUX: [(u16, u16); 3] = [(0b00_11100100, 1), (0b01_11100100, 2), (0b10_11100100, 1)];

// The last with A 00, B 0110 and both selects: the lower one's slice.
const BY_PMUX: [(u16, u16); 4] = [
    (0b00_11100100, 0),
    (0b01_11100100, 1),
    (0b10_11100100, 2),
    (0b11_00011000, 2),
];

const BY_BMUX: [(u16, u16); 4] = [
    (0b00_11100100, 0),
    (0b01_11100100, 1),
    (0b10_11100100, 2),
    (0b11_11100100, 3),
];

#[test]
fn mux_takes_one_of_two(rt: HostRuntime) -> Result<(), Fail> {
    assert_eq!(rt; first_mistaken(rt.alloc(), Choice::Mux, &BY_MUX)?, None);
    Ok(())
}

#[test]
fn pmux_takes_the_lowest(rt: HostRuntime) -> Result<(), Fail> {
    assert_eq!(rt; first_mistaken(rt.alloc(), Choice::Pmux, &BY_PMUX)?, None);
    Ok(())
}

#[test]
fn bmux_takes_the_numbered(rt: HostRuntime) -> Result<(), Fail> {
    assert_eq!(rt; first_mistaken(rt.alloc(), Choice::Bmux, &BY_BMUX)?, None);
    Ok(())
}

// Whether two parts of a word of 129 bits, joined again, are the word, and the two bits about the seam are its own.
fn are_parts(alloc: Global, word: &[Lit]) -> Result<bool, AllocError>
    requires { length word.now ≡ 129 }
{
    let (low, high) = word.split_at(128);
    let whole = concat(alloc, low, high)?;
    let seam = slice(alloc, word, 127, 2)?;
    Ok(whole.as_slice() == word && seam.as_slice() == &word[127..])
}

fn are_parts_right(alloc: Global) -> Result<bool, GateFault> {
    let mut gates = Gates::new(alloc)?;
    let word = inputs(alloc, &mut gates, 129)?;
    Ok(are_parts(alloc, &word)?)
}

// Whether a choice between the same two in the other order is another gate.
fn is_kept_apart(gates: &mut Gates) -> Result<bool, GateFault> {
    let s = gates.input()?;
    let a = gates.input()?;
    let b = gates.input()?;
    let chosen = gates.mux(s, a, b)?;
    let swapped = gates.mux(s, b, a)?;
    Ok(swapped != chosen && swapped != gates.not(chosen))
}

#[test]
fn parts_are_of_their_word(rt: HostRuntime) -> Result<(), Fail> {
    assert!(rt; are_parts_right(rt.alloc())?);
    Ok(())
}

#[test]
fn other_choices_are_kept_apart(rt: HostRuntime) -> Result<(), Fail> {
    let mut gates = Gates::new(rt.alloc())?;
    assert!(rt; is_kept_apart(&mut gates)?);
    Ok(())
}
