// What state bits start with, and what they have next.

ghost use Rattle.std.specs.Prelude.{◌≡◌, ◌<◌, ℕ, Bool, List, ◌∷◌, Option, None, Some, length, slice_get};
ghost use Rattle.model_core.specs.Choices.{open_states, start_row, without_digit};
ghost use Rattle.model_core.specs.Meaning.{is_active, next_row, next_states, row_at};
ghost use Rattle.model_core.specs.Served.{IsModel};
ghost use Rattle.model_core.specs.Shape.{AreBelow, RegisterOf, states};
ghost use Rattle.model_play.specs.Playing.{cycle_of};

use crate::table::read_row;
use model_core::model::{Control, WordModel};

// Whether a control bit has its level.
fn is_active(table: &[bool], control: Control) -> bool
    requires { control.place < length table.now }
    ensures { result ≡ is_active (cycle_of table.now) control }
{
    table[control.place as usize] == control.level
}

// The places from which a register takes what it has next.
fn next_places<'a>(model: &'a WordModel, register: usize, table: &[bool]) -> &'a [u32]
    requires model { IsModel model.now }
    requires register { register < length model.now.registers }
    requires table { length table.now ≡ model.now.size }
    ensures below { AreBelow model.now.size result.now }
    ensures width { (r : RegisterOf) → slice_get model.now.registers register ≡ Some r → length result.now ≡ length r.q }
    ensures next { (r : RegisterOf) → slice_get model.now.registers register ≡ Some r → row_at (cycle_of table.now) result.now ≡ next_row (cycle_of table.now) r }
{
    let enabled = is_active(table, model.enable(register));
    let reset = is_active(table, model.reset(register));
    if reset && (enabled || model.reset_first(register)) {
        model.value(register)
    } else if enabled {
        model.d(register)
    } else {
        model.q(register)
    }
}

// Puts what the state bits have in the next cycle into a row.
pub fn next_rows(model: &WordModel, table: &[bool], held: &mut [bool])
    requires model { IsModel model.now }
    requires table { length table.now ≡ model.now.size }
    requires held { length held.old ≡ length (states model.now) }
    ensures { held.new ≡ next_states model.now (cycle_of table.now) }
{
    let mut end = 0;
    for register in 0..model.registers() {
        let places = next_places(model, register, table);
        let start = end;
        end += places.len();
        read_row(table, places, &mut held[start..end]);
    }
}

// The next start bit, and those that are left: the digit, or else the first of these.
fn next_start(digit: Option<bool>, rest: &[bool]) -> (bool, &[bool])
    requires { digit ≡ None → 0 < length rest.now }
    ensures row { (digits : List (Option Bool)) → start_row (digit ∷ digits) rest.now ≡ result.0 ∷ start_row digits result.1.now }
    ensures left { (p : ℕ) (ps : List ℕ) (digits : List (Option Bool)) → length rest.now ≡ length (without_digit (p ∷ ps) (digit ∷ digits))
        → length result.1.now ≡ length (without_digit ps digits) }
{
    match digit {
        Some(x) => (x, rest),
        None => (rest[0], &rest[1..]),
    }
}

// Puts what the state bits start with into a row: their digits, and these bits for those without one.
pub fn fill_starts(model: &WordModel, bits: &[bool], held: &mut [bool])
    requires model { IsModel model.now }
    requires bits { length bits.now ≡ length (open_states model.now) }
    requires held { length held.old ≡ length (states model.now) }
    ensures { held.new ≡ start_row model.now.starts bits.now }
{
    let digits = model.starts();
    let mut rest = bits;
    for (k, digit) in digits.iter().enumerate() {
        let (bit, left) = next_start(*digit, rest);
        held[k] = bit;
        rest = left;
    }
}
