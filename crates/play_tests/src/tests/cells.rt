// Each line of the table of cells by rows that were worked out apart from this project.

ghost use Rattle.std.specs.Prelude.{◌≡◌, ◌+◌, ◌∷◌, [], IfOk, OnOk, length};
ghost use Rattle.model_core.specs.Choices.{open_states, without_digit};

use crate::tests::played::{flat_of, play};
use crate::tests::table::{
    BMUX, CONCAT, Cells, DIVISIONS_BY_ZERO, FLAGS, INITIAL, MUX, ONE_OPERAND, PARTS_PAST_THE_WORD,
    PMUX, REGISTERS_ARST_CLK_D, REGISTERS_ARST_CLK_D_EN, REGISTERS_CLK_D, REGISTERS_CLK_D_EN,
    REGISTERS_CLK_D_EN_SRST, REGISTERS_CLK_D_SRST, REGISTERS_D, SEVERAL_SELECTS, SHIFTS,
    SHIFTS_BY_SIGNED, SLICE, SOURCES, TWO_OPERANDS,
};
use model_core::model::WordModel;
use model_play::player::Player;
use std::alloc::{AllocError, Global};
use std::test::Fail;
use word_model::build::build;

// A design of one cell at wires. A row has the start digits of a register's Q.
fn text_of(alloc: Global, cells: &Cells, cell: &str, row: &str) -> Result<String, AllocError> {
    let (inputs, output) = row.split_once("= ").unwrap_or((row, ""));
    let mut text = String::from_str(alloc, "module \\t\n")?;
    for (port, word) in cells.inputs.iter().zip(inputs.split(' ')) {
        let wire = format!(in alloc; "wire width {} input 1 \\{port}\n", word.len())?;
        text.push_str(&wire)?;
    }
    let (port, width) = (cells.output, output.len());
    let wire = format!(in alloc;
        "attribute \\init {width}'{output} wire width {width} \\{port}\n"
    )?;
    text.push_str(&wire)?;
    push_cell(alloc, &mut text, cells, cell)?;
    text.push_str("end\n")?;
    Ok(text)
}

// The cell, with each port at the wire of its name.
fn push_cell(
    alloc: Global,
    text: &mut String,
    cells: &Cells,
    cell: &str,
) -> Result<(), AllocError> {
    let (kind, values) = cell.split_once(' ').unwrap_or((cell, ""));
    text.push_str(&format!(in alloc; "cell {kind} \\c\n")?)?;
    for (parameter, value) in cells.parameters.iter().zip(values.split(' ')) {
        text.push_str(&format!(in alloc; "parameter \\{parameter} {value}\n")?)?;
    }
    for port in cells.inputs {
        text.push_str(&format!(in alloc; "connect \\{port} \\{port}\n")?)?;
    }
    let port = cells.output;
    text.push_str(&format!(in alloc; "connect \\{port} \\{port}\nend\n")?)
}

// The bits of words of digits, each word's lowest first.
fn bits_of(alloc: Global, row: &str) -> Result<Vec<bool>, AllocError> {
    let mut bits = Vec::new(alloc);
    for word in row.split(' ') {
        for digit in word.as_bytes().iter().rev() {
            match *digit {
                b'0' => bits.push(false)?,
                b'1' => bits.push(true)?,
                _ => {}
            }
        }
    }
    Ok(bits)
}

// What a row has at these places.
fn bits_at(alloc: Global, places: &[u32], row: &[bool]) -> Result<Vec<bool>, AllocError>
    ensures { IfOk result (λ bits. length bits.items ≡ length places.now) }
{
    let mut bits = Vec::new(alloc);
    for place in places {
        bits.push(row.get(*place as usize) == Some(&true))?;
    }
    Ok(bits)
}

// Adds what a row has at a place, where it has no start digit.
fn push_open(
    bits: &mut Vec<bool>,
    row: &[bool],
    place: u32,
    start: Option<bool>,
) -> Result<(), AllocError>
    ensures { OnOk result (length bits.new.items ≡ length bits.old.items + length (without_digit (place ∷ []) (start ∷ []))) }
{
    if start.is_none() {
        bits.push(row.get(place as usize) == Some(&true))?;
    }
    Ok(())
}

// What a row has at the state bits without a start digit.
fn open_bits(alloc: Global, model: &WordModel, row: &[bool]) -> Result<Vec<bool>, AllocError>
    ensures { IfOk result (λ bits. length bits.items ≡ length (open_states model.now)) }
{
    let _ = model.size();
    let (places, starts) = (model.states(), model.starts());
    let mut bits = Vec::new(alloc);
    for k in 0..places.len() {
        push_open(&mut bits, row, places[k], starts[k])?;
    }
    Ok(bits)
}

// The first of some rows.
fn first_of(rows: &str) -> &str {
    rows.split_once(", ").unwrap_or((rows, "")).0
}

// Whether the rows are those of a run's cycles; what is open in it is taken from them.
fn is_played(alloc: Global, model: &WordModel, rows: &str) -> Result<bool, Fail> {
    let mut player = Player::new(alloc, model)?;
    player.begin(&open_bits(alloc, model, &bits_of(alloc, first_of(rows))?)?);
    for row in rows.split(", ") {
        let bits = bits_of(alloc, row)?;
        player.step(&bits_at(alloc, model.inputs(), &bits)?);
        if player.row().get(..bits.len()) != Some(bits.as_slice()) {
            return Ok(false);
        }
    }
    Ok(true)
}

fn has_rows(alloc: Global, cells: &Cells, line: &str) -> Result<bool, Fail> {
    let (cell, rows) = line.split_once(": ").unwrap_or((line, ""));
    let text = text_of(alloc, cells, cell, first_of(rows))?;
    let flat = flat_of(alloc, &text)?;
    let model = build(alloc, &flat)?;
    is_played(alloc, &model, rows)
}

// The first line whose cell doesn't have its rows.
fn first_wrong(alloc: Global, table: &[Cells]) -> Result<Option<&'static str>, Fail> {
    for cells in table {
        for line in cells.lines.split('\n') {
            if !has_rows(alloc, cells, line)? {
                return Ok(Some(line));
            }
        }
    }
    Ok(None)
}

#[test]
fn cells_of_one_operand_have_their_rows(rt: HostRuntime) -> Result<(), Fail> {
    let groups = [ONE_OPERAND];
    assert_eq!(rt; first_wrong(rt.alloc(), &groups)?, None);
    Ok(())
}

#[test]
fn cells_of_two_operands_have_their_rows(rt: HostRuntime) -> Result<(), Fail> {
    let groups = [TWO_OPERANDS];
    assert_eq!(rt; first_wrong(rt.alloc(), &groups)?, None);
    Ok(())
}

#[test]
fn shifts_have_their_rows(rt: HostRuntime) -> Result<(), Fail> {
    let groups = [SHIFTS];
    assert_eq!(rt; first_wrong(rt.alloc(), &groups)?, None);
    Ok(())
}

#[test]
fn selects_and_parts_have_their_rows(rt: HostRuntime) -> Result<(), Fail> {
    let groups = [MUX, PMUX, BMUX, SLICE, CONCAT];
    assert_eq!(rt; first_wrong(rt.alloc(), &groups)?, None);
    Ok(())
}

#[test]
fn registers_have_their_rows(rt: HostRuntime) -> Result<(), Fail> {
    let groups = [
        REGISTERS_D,
        REGISTERS_CLK_D,
        REGISTERS_CLK_D_EN,
        REGISTERS_CLK_D_SRST,
        REGISTERS_CLK_D_EN_SRST,
    ];
    assert_eq!(rt; first_wrong(rt.alloc(), &groups)?, None);
    Ok(())
}

#[test]
fn registers_with_asynchronous_resets_have_their_rows(rt: HostRuntime) -> Result<(), Fail> {
    let groups = [REGISTERS_ARST_CLK_D, REGISTERS_ARST_CLK_D_EN];
    assert_eq!(rt; first_wrong(rt.alloc(), &groups)?, None);
    Ok(())
}

#[test]
fn cells_without_a_value_in_yosys_have_their_rows(rt: HostRuntime) -> Result<(), Fail> {
    let groups = [
        DIVISIONS_BY_ZERO,
        SHIFTS_BY_SIGNED,
        PARTS_PAST_THE_WORD,
        SEVERAL_SELECTS,
        FLAGS,
        SOURCES,
        INITIAL,
    ];
    assert_eq!(rt; first_wrong(rt.alloc(), &groups)?, None);
    Ok(())
}

// What statements say where EN and A are 0 and 0, 0 and 1, 1 and 0, 1 and 1.
const STATEMENTS: [(&str, &str); 3] = [
    ("$assert", "..0."),
    ("$assume", "..-."),
    ("$cover", "...a"),
];

#[test]
fn statements_have_their_rows(rt: HostRuntime) -> Result<(), Fail> {
    for (kind, said) in STATEMENTS {
        let text = format!(in rt.alloc();
            "module \\t wire input 1 \\en wire input 2 \\a
            cell {kind} \\s connect \\A \\a connect \\EN \\en end end\n"
        )?;
        let played = play(rt.alloc(), &text, &["00", "01", "10", "11"])?;
        assert!(rt; played.said.as_str() == said, "{kind}");
    }
    Ok(())
}
