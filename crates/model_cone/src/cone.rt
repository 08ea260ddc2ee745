// The cone of influence.

ghost use Rattle.std.specs.Prelude.{◌≡◌, IfOk, length, [], OnOk};
ghost use Rattle.model_core.specs.Served.{IsModel};
ghost use Rattle.model_cone.specs.Cone.{IsCone};
ghost use Rattle.model_cone.specs.Marking.{AreGivers, IsSpread};
ghost use Rattle.model_cone.specs.Slice.{kept_by};

use crate::asked::Asked;
use crate::givers::{Giver, givers};
use crate::marking::{Marking, mark_reads, mark_roots};
use model_core::model::WordModel;
use std::alloc::{AllocError, Global};

// Visits each place that is marked, and marks what it rests on.
fn spread(
    marking: &mut Marking,
    model: &WordModel,
    givers: &[Giver],
    asked: Asked,
) -> Result<(), AllocError>
    requires model { IsModel model.now }
    requires givers { AreGivers model.now givers.now }
    requires begun { IsSpread model.now asked marking.old.marks.items marking.old.stack.items }
    ensures { OnOk result (IsSpread model.now asked marking.new.marks.items []) }
{
    'places: while let Some(place) = marking.stack.pop() {
        mark_reads(marking, model, givers[place as usize])?;
    }
    Ok(())
}

/// A mark for each place of the model, set where the place is in the cone of what is asked.
pub fn cone(alloc: Global, model: &WordModel, asked: Asked) -> Result<Vec<bool>, AllocError>
    ensures model { IfOk result (λ marks. IsModel model.now) }
    ensures size { IfOk result (λ marks. length marks.items ≡ model.now.size) }
    ensures cone { IfOk result (λ marks. IsCone model.now asked (kept_by marks.items)) }
{
    let givers = givers(alloc, model)?;
    let mut marks = Vec::new(alloc);
    marks.resize(model.size() as usize, false)?;
    let mut marking = Marking {
        marks,
        stack: Vec::new(alloc),
    };
    mark_roots(&mut marking, model, asked)?;
    spread(&mut marking, model, &givers, asked)?;
    Ok(marking.marks)
}
