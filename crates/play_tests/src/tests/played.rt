// Designs, played cycle by cycle.

ghost use Rattle.std.specs.Prelude.{◌≡◌, ◌≤◌, All, IsSome, IsTrue, length};
ghost use Rattle.model_play.specs.declared.player.Stage.TheVariants.{Stepped};

use design_check::check::check;
use design_check::flat::Flat;
use design_meaning::run::{Cycle, Row, Run};
use design_reader::read;
use model_core::model::WordModel;
use model_play::player::Player;
use std::alloc::Global;
use std::test::Fail;
use word_model::build::build;

/// A run that was played: its cycles, and a sign for what the statements say in each.
#[derive(Drop)]
pub struct Played {
    pub flat: Flat,
    pub run: Run,
    pub said: String,
}

/// The flat design that a text reads.
pub fn flat_of(alloc: Global, text: &str) -> Result<Flat, Fail> {
    let Ok(design) = read(alloc, text.as_bytes())? else {
        return Err(Fail::from("not read"));
    };
    match check(alloc, design)? {
        Ok(flat) => Ok(flat),
        Err(_) => Err(Fail::from("not flat")),
    }
}

// Whether each state bit has a digit that it starts with.
fn all_start(starts: &[Option<bool>]) -> bool
    ensures { IsTrue result → All IsSome starts.now }
{
    starts.iter().all(|start| start.is_some())
}

// The bits of digits `0` and `1`.
fn bits_of(alloc: Global, digits: &str) -> Result<Vec<bool>, Fail> {
    let mut bits = Vec::new(alloc);
    for digit in digits.as_bytes() {
        bits.push(*digit == b'1')?;
    }
    Ok(bits)
}

fn part(alloc: Global, row: &[bool], from: usize, to: usize) -> Result<Row, Fail> {
    match row.get(from..to) {
        Some(bits) => Ok(Row::new(Vec::from_slice(alloc, bits)?)),
        None => Err(Fail::from("a row of another length")),
    }
}

// The cycle whose bits stand in a row: those of the wires, the free bits, the two constants, and what registers keep.
fn cycle_of(alloc: Global, flat: &Flat, row: &[bool]) -> Result<Cycle, Fail> {
    let wires = flat.design().bits() as usize;
    let free = wires + flat.design().free() as usize;
    Ok(Cycle::new(
        part(alloc, row, 0, wires)?,
        part(alloc, row, wires, free)?,
        part(alloc, row, free + 2, row.len())?,
    ))
}

// The first assertion that is broken in the player's cycle.
fn first_broken(player: &Player, asserts: u32) -> Option<u32>
    requires there { asserts ≤ length player.now.model.asserts }
    requires stepped { player.now.stage ≡ Stepped }
{
    for place in 0..asserts {
        if player.broken(place) {
            return Some(place);
        }
    }
    None
}

// The first cover statement that is reached in it.
fn first_reached(player: &Player, covers: u32) -> Option<u32>
    requires there { covers ≤ length player.now.model.covers }
    requires stepped { player.now.stage ≡ Stepped }
{
    for place in 0..covers {
        if player.reached(place) {
            return Some(place);
        }
    }
    None
}

// What statements say in a cycle: `.` nothing, `-` that it isn't assumed, `0` that the first assertion breaks, `x` both, and a letter
// which cover statement is reached.
fn sign(is_assumed: bool, broken: Option<u32>, reached: Option<u32>) -> &'static str {
    match (is_assumed, broken, reached) {
        (true, None, None) => ".",
        (false, None, None) => "-",
        (true, Some(0), None) => "0",
        (false, Some(0), None) => "x",
        (true, None, Some(0)) => "a",
        (true, None, Some(1)) => "b",
        (true, None, Some(2)) => "c",
        _ => "?",
    }
}

fn said_in(player: &Player, model: &WordModel) -> &'static str
    requires model { player.now.model ≡ model.now }
    requires stepped { player.now.stage ≡ Stepped }
{
    let (Ok(asserts), Ok(covers)) = (
        u32::try_from(model.asserts().len()),
        u32::try_from(model.covers().len()),
    ) else {
        return "?";
    };
    sign(
        player.assumed(),
        first_broken(player, asserts),
        first_reached(player, covers),
    )
}

/// The run with these inputs, for each cycle a digit for each input. Each state bit has to have a digit that it starts with.
pub fn play(alloc: Global, text: &str, inputs: &[&str]) -> Result<Played, Fail> {
    let flat = flat_of(alloc, text)?;
    let model = build(alloc, &flat)?;
    if !all_start(model.starts()) {
        return Err(Fail::from("a state bit is open"));
    }
    let mut player = Player::new(alloc, &model)?;
    player.begin(&[]);
    let mut run = Run::new(alloc);
    let mut said = String::new(alloc);
    for digits in inputs {
        let bits = bits_of(alloc, digits)?;
        if bits.len() != model.inputs().len() {
            return Err(Fail::from("inputs of another length"));
        }
        player.step(&bits);
        run.push(cycle_of(alloc, &flat, player.row())?)?;
        said.push_str(said_in(&player, &model))?;
    }
    Ok(Played { flat, run, said })
}

/// The text of the run.
pub fn trace(alloc: Global, played: &Played) -> Result<Vec<u8>, Fail> {
    if !played.flat.fits(&played.run) {
        return Err(Fail::from("no run of this design"));
    }
    Ok(design_trace::text(alloc, &played.flat, &played.run)?)
}
