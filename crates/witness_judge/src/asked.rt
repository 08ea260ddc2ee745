// What a stream is judged for.

ghost use Rattle.std.specs.Prelude.{◌≡◌, IfOk};
ghost use Rattle.btor_emit.specs.States.{AreStretches};
ghost use Rattle.btor_witness.specs.Grammar.{WitnessOf};
ghost use Rattle.btor_witness.specs.Machine.{fresh};
ghost use Rattle.btor_witness.specs.declared.spot.Seen.TheVariants.{Whole};
ghost use Rattle.place_rows.specs.Rows.{AreRowsOf};
ghost use Rattle.witness_judge.specs.Choosing.{shape_of};
ghost use Rattle.witness_judge.specs.Settling.{HasChosen, Settles};

use crate::inputs::choices;
use crate::outcome::{Outcome, bad, not_playing};
use crate::playing::outcome;
use crate::slots::witness_shape;
use crate::sought::Sought;
use btor_emit::shape::Shape;
use btor_witness::{Seen, Witnesses};
use cert_judge::CertKind;
use model_core::model::WordModel;
use model_play::whole::play;
use std::alloc::{AllocError, Global};
use std::marker::Model;

/// A model, its states and inputs as its lines have them, and what is sought in a run.
#[derive(Drop)]
pub(crate) struct Asked<'m> {
    alloc: Global,
    model: &'m WordModel,
    shape: Shape,
    sought: Sought,
}

impl<'m> Model for Asked<'m> {
    ghost use Rattle.witness_judge.specs.Choosing.{AskedOf, IsAsked};

    ghost Value = { AskedOf };

    ghost view = { λ a. record { model = a.model.now; states = a.shape.states.items; inputs = a.shape.inputs; sought = a.sought } };

    ghost invariant = { λ a. IsAsked (record { model = a.model.now; states = a.shape.states.items; inputs = a.shape.inputs; sought = a.sought }) };
}

impl<'m> Asked<'m> {
    pub(crate) fn new(
        alloc: Global,
        model: &'m WordModel,
        shape: Shape,
        sought: Sought,
    ) -> Asked<'m>
        requires states { AreStretches model.now shape.states.items }
        requires inputs { AreRowsOf model.now.inputs shape.inputs }
        ensures { result ≡ record { model = model.now; states = shape.states.items; inputs = shape.inputs; sought = sought } }
    {
        Asked {
            alloc,
            model,
            shape,
            sought,
        }
    }

    /// A reader of a stream.
    pub(crate) fn reader(&self) -> Result<Witnesses, AllocError>
        ensures { IfOk result (λ w. w ≡ fresh (shape_of self.now) self.now.sought.last) }
    {
        let slots = witness_shape(self.alloc, &self.shape)?;
        Witnesses::new(self.alloc, slots, u64::from(self.sought.last))
    }

    // Plays a whole witness.
    fn play(&self, reader: Witnesses) -> Result<Outcome, AllocError>
        requires { (x : WitnessOf) × HasChosen self.now reader x }
        ensures { IfOk result (Settles self.now reader Whole) }
    {
        let last = u64::from(self.sought.last);
        let frames = reader.frames();
        if frames > last {
            return Ok(not_playing(last));
        }
        let _size = self.model.size();
        let bad = reader.bad();
        let chosen = reader.into_chosen();
        let choices = choices(
            self.alloc,
            self.model,
            self.shape.inputs.places(),
            chosen,
            frames as usize,
        )?;
        let run = play(self.alloc, self.model, &choices)?;
        Ok(outcome(self.model, run, self.sought, bad))
    }

    /// The outcome of a stream in which this is seen.
    pub(crate) fn settle(&self, reader: Witnesses, seen: Seen) -> Result<Outcome, AllocError>
        requires { seen ≡ Whole → (x : WitnessOf) × HasChosen self.now reader x }
        ensures { IfOk result (Settles self.now reader seen) }
    {
        match seen {
            Seen::Whole => self.play(reader),
            Seen::More | Seen::Unknown => Ok(Outcome::Unknown),
            Seen::EarlyEnd(byte) => Ok(bad(CertKind::EarlyEnd, byte)),
            Seen::BadWitness(byte) => Ok(bad(CertKind::BadWitness, byte)),
        }
    }
}
