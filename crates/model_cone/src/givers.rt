// What gives each place its value.

ghost use Rattle.std.specs.Prelude.{IfOk, length};
ghost use Rattle.model_core.specs.Shape.{AreBelow};
ghost use Rattle.model_cone.specs.Marking.{AreGivers, IsGiven};

use model_core::model::WordModel;
use std::alloc::{AllocError, Global};

// What gives a place its value, by its number.
#[derive(Clone, Copy, Debug, PartialEq, Eq)]
pub enum Giver {
    Node(usize),
    /// A register, and which of its bits the place is.
    Bit(usize, usize),
    /// The place is a constant or an input.
    Other,
}

// Puts a node at its places.
fn give_node(givers: &mut Vec<Giver>, places: &[u32], node: usize)
    requires { AreBelow (length givers.old.items) places.now }
    ensures { IsGiven places.now (λ k. Giver.Node node) givers.old.items givers.new.items }
{
    for place in places {
        givers[*place as usize] = Giver::Node(node);
    }
}

// Puts the bits of a register at their places.
fn give_bits(givers: &mut Vec<Giver>, places: &[u32], register: usize)
    requires { AreBelow (length givers.old.items) places.now }
    ensures { IsGiven places.now (λ k. Giver.Bit register k) givers.old.items givers.new.items }
{
    for (bit, place) in places.iter().enumerate() {
        givers[*place as usize] = Giver::Bit(register, bit);
    }
}

// The giver of each place.
pub fn givers(alloc: Global, model: &WordModel) -> Result<Vec<Giver>, AllocError>
    ensures { IfOk result (λ g. AreGivers model.now g.items) }
{
    let mut givers = Vec::new(alloc);
    givers.resize(model.size() as usize, Giver::Other)?;
    for i in 0..model.nodes() {
        give_node(&mut givers, model.y(i), i);
    }
    for i in 0..model.registers() {
        give_bits(&mut givers, model.q(i), i);
    }
    Ok(givers)
}
