//! A player of a model.

ghost use Rattle.std.specs.Prelude.{◌≡◌, ◌≢◌, ◌↔◌, ◌<◌, ◌++◌, [], ◌∷◌, ◌&&◌, ℕ, IfOk, IsTrue, length, not};
ghost use Rattle.model_core.specs.Choices.{ChoicesOf, open_states};
ghost use Rattle.model_core.specs.Meaning.{Assumed, Broken, Frame, Reached, next_states, row_at};
ghost use Rattle.model_core.specs.Served.{IsModel};
ghost use Rattle.model_core.specs.Shape.{states};
ghost use Rattle.model_play.specs.Players.{HasRoom, IsTable};
ghost use Rattle.model_play.specs.Playing.{IsLast, IsPlaying, cycle_of};

use crate::registers::{fill_starts, next_rows};
use crate::table::{write_row, zeros};
use crate::walk::drive_all;
use model_core::model::{Statement, WordModel};
use std::alloc::{AllocError, Global};
use std::marker::Model;

// Room for the rows of a node at A, B, S and Y, of at most 4096 bits each.
const ROOM: usize = 16384;

/// How far a player has come: it is new, has begun a run, or has stepped since it began one.
#[derive(Clone, Copy, Debug, PartialEq, Eq)]
pub enum Stage {
    New,
    Begun,
    Stepped,
}

/// Plays runs of a model, cycle by cycle.
///
/// `begin` takes the bits with which open state bits start, `step` those of the inputs in a cycle, and `row` then has what all places
/// have in that cycle. Only `new` takes memory.
#[derive(Drop)]
pub struct Player<'a> {
    model: &'a WordModel,
    stage: Stage,
    // what each place has in the last cycle
    table: Vec<bool>,
    // what the state bits have in the cycle to come
    held: Vec<bool>,
    scratch: Vec<bool>,
}

impl<'a> Model for Player<'a> {
    ghost use Rattle.model_play.specs.Playing.{PlayerOf};
    ghost use Rattle.model_play.specs.Players.{IsPlayer};

    ghost Value = { PlayerOf };

    ghost view = { λ a. record { model = a.model.now; stage = a.stage; row = a.table.items; held = a.held.items } };

    ghost invariant = { λ a. IsPlayer a.model.now a.table.items a.held.items a.scratch.items };
}

// A table in which each bit but the constant 1 is 0.
fn new_table(alloc: Global, model: &WordModel) -> Result<Vec<bool>, AllocError>
    requires { IsModel model.now }
    ensures { IfOk result (λ table. IsTable model.now table.items) }
{
    let mut table = zeros(alloc, model.size() as usize)?;
    table[model.zero() as usize + 1] = true;
    Ok(table)
}

// Gives the state bits what they hold and the inputs these bits, then all other places what nodes give, and keeps what the state bits
// have next.
fn turn(
    model: &WordModel,
    inputs: &[bool],
    table: &mut [bool],
    held: &mut [bool],
    scratch: &mut [bool],
)
    requires model { IsModel model.now }
    requires inputs { length inputs.now ≡ length model.now.inputs }
    requires table { IsTable model.now table.old }
    requires held { length held.old ≡ length (states model.now) }
    requires room { HasRoom scratch.old }
    ensures table { IsTable model.now table.new }
    ensures frame { Frame model.now (cycle_of table.new) }
    ensures held { row_at (cycle_of table.new) (states model.now) ≡ held.old }
    ensures inputs { row_at (cycle_of table.new) model.now.inputs ≡ inputs.now }
    ensures next { held.new ≡ next_states model.now (cycle_of table.new) }
{
    write_row(table, model.states(), held);
    write_row(table, model.inputs(), inputs);
    drive_all(model, table, scratch);
    next_rows(model, table, held);
}

// Whether a statement has EN 1 and A 0.
fn fails(table: &[bool], statement: Statement) -> bool
    requires a { statement.a < length table.now }
    requires en { statement.en < length table.now }
    ensures { result ≡ (cycle_of table.now statement.en && not (cycle_of table.now statement.a)) }
{
    table[statement.en as usize] && !table[statement.a as usize]
}

impl<'a> Player<'a> {
    /// A player of this model, which has not begun.
    pub fn new(alloc: Global, model: &'a WordModel) -> Result<Player<'a>, AllocError>
        ensures model { IfOk result (λ p. p.model ≡ model.now) }
        ensures stage { IfOk result (λ p. p.stage ≡ Stage.New) }
    {
        let _ = model.size();
        let table = new_table(alloc, model)?;
        let held = zeros(alloc, model.states().len())?;
        let scratch = zeros(alloc, ROOM)?;
        Ok(Player {
            model,
            stage: Stage::New,
            table,
            held,
            scratch,
        })
    }

    /// Begins a run with these start bits, one for each open state bit.
    pub fn begin(&mut self, start_bits: &[bool])
        requires { length start_bits.now ≡ length (open_states self.old.model) }
        ensures model { self.new.model ≡ self.old.model }
        ensures stage { self.new.stage ≡ Stage.Begun }
        ensures playing { IsPlaying self.new (record { starts = start_bits.now; inputs = [] }) }
    {
        fill_starts(self.model, start_bits, self.held.as_mut_slice());
        self.stage = Stage::Begun;
    }

    /// Plays a cycle with these bits, one for each input.
    pub fn step(&mut self, inputs: &[bool])
        requires begun { self.old.stage ≢ Stage.New }
        requires inputs { length inputs.now ≡ length self.old.model.inputs }
        ensures model { self.new.model ≡ self.old.model }
        ensures stage { self.new.stage ≡ Stage.Stepped }
        ensures frame { Frame self.new.model (cycle_of self.new.row) }
        ensures held { row_at (cycle_of self.new.row) (states self.new.model) ≡ self.old.held }
        ensures inputs { row_at (cycle_of self.new.row) self.new.model.inputs ≡ inputs.now }
        ensures playing { (c : ChoicesOf) → IsPlaying self.old c → IsPlaying self.new (record c { inputs = c.inputs ++ inputs.now ∷ [] }) }
    {
        turn(
            self.model,
            inputs,
            self.table.as_mut_slice(),
            self.held.as_mut_slice(),
            self.scratch.as_mut_slice(),
        );
        self.stage = Stage::Stepped;
    }

    /// What all places have in the last cycle.
    pub fn row(&self) -> &[bool]
        requires { self.now.stage ≡ Stage.Stepped }
        ensures row { result.now ≡ self.now.row }
        ensures size { length result.now ≡ self.now.model.size }
        ensures last { (c : ChoicesOf) → IsPlaying self.now c → IsLast self.now.model c result.now }
    {
        self.table.as_slice()
    }

    /// Whether assertion `i`, counted from 0, has EN 1 and A 0 in the last cycle.
    pub fn broken(&self, i: u32) -> bool
        requires stepped { self.now.stage ≡ Stage.Stepped }
        requires there { i < length self.now.model.asserts }
        ensures { IsTrue result ↔ Broken self.now.model (cycle_of self.now.row) i }
    {
        fails(&self.table, self.model.asserts()[i as usize])
    }

    /// Whether each assumption has EN 0 or A 1 in the last cycle.
    pub fn assumed(&self) -> bool
        requires { self.now.stage ≡ Stage.Stepped }
        ensures { IsTrue result ↔ Assumed self.now.model (cycle_of self.now.row) }
    {
        let statements = self.model.assumes();
        for statement in statements {
            if fails(&self.table, *statement) {
                return false;
            }
        }
        true
    }

    /// Whether cover statement `i`, counted from 0, has EN 1 and A 1 in the last cycle.
    pub fn reached(&self, i: u32) -> bool
        requires stepped { self.now.stage ≡ Stage.Stepped }
        requires there { i < length self.now.model.covers }
        ensures { IsTrue result ↔ Reached self.now.model (cycle_of self.now.row) i }
    {
        let statement = self.model.covers()[i as usize];
        self.table[statement.en as usize] && self.table[statement.a as usize]
    }
}
