// A model as lines.

ghost use Rattle.std.specs.Prelude.{◌≡◌, ℕ, suc, [], eqb, IfOk, OnOk, length};
ghost use Rattle.btor_core.specs.Fits.{IsBtor};
ghost use Rattle.btor_core.specs.Shape.{bads, constraints};
ghost use Rattle.btor_emit.specs.Emission.{IsEmission};
ghost use Rattle.btor_emit.specs.Emitting.{AreStates};
ghost use Rattle.btor_emit.specs.Goals.{goals};
ghost use Rattle.btor_emit.specs.Said.{AreSaid, goal_bit};
ghost use Rattle.btor_emit.specs.Table.{AreSeats, seat_at};
ghost use Rattle.btor_emit.specs.declared.table.Seat.TheVariants.{Digit};
ghost use Rattle.model_core.specs.Served.{IsModel};
ghost use Rattle.place_rows.specs.Rows.{AreRowsOf};

use crate::goal::Goal;
use crate::inputs::push_inputs;
use crate::nodes::push_nodes;
use crate::registers::push_nexts;
use crate::rows::read_rows;
use crate::shape::Shape;
use crate::statements::{push_asserts, push_assumes, push_cover};
use crate::states::push_states;
use crate::table::Seat;
use btor_core::draft::{Draft, DraftFault};
use btor_core::model::BtorModel;
use model_core::model::WordModel;
use place_rows::Rows;
use std::alloc::{AllocError, Global};

/// The lines of a model, and what they leave open.
#[derive(Drop)]
pub struct Emitted {
    pub model: BtorModel,
    pub shape: Shape,
}

// Where the bits stand at first: the constants in their digits, all else in 0.
fn first_table(alloc: Global, model: &WordModel) -> Result<Vec<Seat>, AllocError>
    requires { IsModel model.now }
    ensures size { IfOk result (λ table. length table.items ≡ model.now.size) }
    ensures seats { IfOk result (λ table. (p : ℕ) → seat_at table.items p ≡ Digit (eqb p (suc model.now.zero))) }
{
    let one = model.zero() as usize + 1;
    let mut table = vec![in alloc; Seat::Digit(false); model.size() as usize]?;
    table[one] = Seat::Digit(true);
    Ok(table)
}

// What is asked, as bads.
fn push_goal(
    draft: &mut Draft,
    table: &mut [Seat],
    model: &WordModel,
    goal: Goal,
) -> Result<(), DraftFault>
    requires model { IsModel model.now }
    requires btor { IsBtor draft.old }
    requires seats { AreSeats draft.old table.old }
    requires size { length table.old ≡ model.now.size }
    ensures { OnOk result (AreSaid bads constraints draft.old draft.new table.old table.new (goals model.now goal) (goal_bit goal)) }
{
    match goal {
        Goal::Asserts => push_asserts(draft, table, model.asserts())?,
        Goal::Cover(k) => push_cover(draft, table, model.covers(), k)?,
    }
    Ok(())
}

// Adds all lines to none, over a table of constants alone.
fn draw(
    alloc: Global,
    draft: &mut Draft,
    table: &mut [Seat],
    model: &WordModel,
    rows: &Rows,
    goal: Goal,
) -> Result<Shape, DraftFault>
    requires model { IsModel model.now }
    requires rows { AreRowsOf model.now.inputs rows.now }
    requires none { AreStates model.now draft.old table.old [] 0 }
    ensures { IfOk result (λ s. IsEmission model.now rows.now goal draft.new s.states.items s.inputs) }
{
    let inputs = read_rows(alloc, model, rows)?;
    let states = push_states(alloc, draft, table, model)?;
    push_inputs(draft, table, &inputs)?;
    push_nodes(draft, table, model)?;
    push_nexts(draft, table, model, &states)?;
    push_assumes(draft, table, model.assumes())?;
    push_goal(draft, table, model, goal)?;
    Ok(Shape { states, inputs })
}

// The lines, and their shape.
fn make(
    alloc: Global,
    model: &WordModel,
    rows: &Rows,
    goal: Goal,
) -> Result<(Draft, Shape), DraftFault>
    requires { AreRowsOf model.now.inputs rows.now }
    ensures { IfOk result (λ x. IsEmission model.now rows.now goal x.0 x.1.states.items x.1.inputs) }
{
    let _size = model.size();
    let mut draft = Draft::new(alloc)?;
    draft.promise();
    let mut table = first_table(alloc, model)?;
    let shape = draw(alloc, &mut draft, &mut table, model, rows, goal)?;
    Ok((draft, shape))
}

/// The model as lines of BTOR2, with an input for each of these rows of the model's inputs, and for each other input, of which a bit is
/// read. Where there would be 2^32 - 1 lines, memory is out too.
pub fn emit(
    alloc: Global,
    model: &WordModel,
    rows: &Rows,
    goal: Goal,
) -> Result<Emitted, AllocError>
    requires { AreRowsOf model.now.inputs rows.now }
    ensures { IfOk result (λ x. IsEmission model.now rows.now goal x.model x.shape.states.items x.shape.inputs) }
{
    match make(alloc, model, rows, goal) {
        Ok((draft, shape)) => Ok(Emitted {
            model: draft.finish(),
            shape,
        }),
        Err(_) => Err(AllocError),
    }
}
