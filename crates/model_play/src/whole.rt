//! A whole run, played.

ghost use Rattle.std.specs.Prelude.{◌≡◌, ◌<◌, All, IfOk, length};
ghost use Rattle.model_core.specs.Choices.{AreChoicesFor, Plays};
ghost use Rattle.model_play.specs.Playing.{cycles_of};

use crate::choices::Choices;
use crate::kept::{Kept, add_row};
use crate::player::Player;
use model_core::model::WordModel;
use std::alloc::{AllocError, Global};

/// The run with these choices, of one cycle for each row of inputs.
pub fn play(alloc: Global, model: &WordModel, choices: &Choices) -> Result<Kept, AllocError>
    requires fits { AreChoicesFor model.now choices.now }
    requires some { 0 < length choices.now.inputs }
    ensures plays { IfOk result (λ kept. Plays model.now choices.now (cycles_of kept)) }
    ensures cycles { IfOk result (λ kept. length kept ≡ length choices.now.inputs) }
    ensures rows { IfOk result (λ kept. All (λ row. length row ≡ model.now.size) kept) }
{
    let size = model.size();
    let mut player = Player::new(alloc, model)?;
    player.begin(choices.starts());
    let mut words = Vec::new(alloc);
    let cycles = choices.cycles();
    for cycle in 0..cycles {
        player.step(choices.inputs(cycle));
        add_row(&mut words, player.row())?;
    }
    Ok(Kept::of_words(words, size, cycles))
}
