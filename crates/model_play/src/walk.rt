// One walk over the nodes.

ghost use Rattle.std.specs.Prelude.{◌≡◌, ◌<◌, ℕ, Bool, Contains, Some, [], ◌∷◌, length, slice_get};
ghost use Rattle.model_core.specs.Meaning.{row_at, row_of_node};
ghost use Rattle.model_core.specs.Served.{IsModel};
ghost use Rattle.model_core.specs.Shape.{NodeOf, sources};
ghost use Rattle.model_play.specs.Players.{HasRoom};
ghost use Rattle.model_play.specs.Playing.{cycle_of};

use crate::bits::{node_bit, node_row};
use crate::table::{read_row, write_row};
use model_core::model::WordModel;

// The bit of a node of one bit, where that takes no rows.
fn bit_of(model: &WordModel, node: usize, table: &[bool]) -> Option<bool>
    requires model { IsModel model.now }
    requires node { node < length model.now.nodes }
    requires table { length table.now ≡ model.now.size }
    ensures { (n : NodeOf) (x : Bool) → slice_get model.now.nodes node ≡ Some n → result ≡ Some x → row_of_node (cycle_of table.now) n ≡ x ∷ [] }
{
    if model.y(node).len() == 1 {
        node_bit(
            model.op(node),
            model.a(node),
            model.b(node),
            model.s(node),
            table,
        )
    } else {
        None
    }
}

// Gives a node's places what the node gives, by rows.
fn drive_rows(model: &WordModel, node: usize, table: &mut [bool], scratch: &mut [bool])
    requires model { IsModel model.now }
    requires node { node < length model.now.nodes }
    requires table { length table.old ≡ model.now.size }
    requires room { HasRoom scratch.old }
    ensures row { (n : NodeOf) → slice_get model.now.nodes node ≡ Some n → row_at (cycle_of table.new) n.y ≡ row_of_node (cycle_of table.old) n }
    ensures others { (n : NodeOf) → slice_get model.now.nodes node ≡ Some n → (p : ℕ) → (Contains n.y p → ⊥) → cycle_of table.new p ≡ cycle_of table.old p }
{
    let (a, b, s, y) = (model.a(node), model.b(node), model.s(node), model.y(node));
    let (a_row, rest) = scratch.split_at_mut(a.len());
    let (b_row, rest) = rest.split_at_mut(b.len());
    let (s_row, rest) = rest.split_at_mut(s.len());
    let y_row = &mut rest[..y.len()];
    read_row(table, a, a_row);
    read_row(table, b, b_row);
    read_row(table, s, s_row);
    node_row(model.op(node), a_row, b_row, s_row, y_row);
    write_row(table, y, y_row);
}

// Gives a node's places what the node gives.
fn drive(model: &WordModel, node: usize, table: &mut [bool], scratch: &mut [bool])
    requires model { IsModel model.now }
    requires node { node < length model.now.nodes }
    requires table { length table.old ≡ model.now.size }
    requires room { HasRoom scratch.old }
    ensures row { (n : NodeOf) → slice_get model.now.nodes node ≡ Some n → row_at (cycle_of table.new) n.y ≡ row_of_node (cycle_of table.old) n }
    ensures others { (n : NodeOf) → slice_get model.now.nodes node ≡ Some n → (p : ℕ) → (Contains n.y p → ⊥) → cycle_of table.new p ≡ cycle_of table.old p }
{
    match bit_of(model, node, table) {
        Some(bit) => table[model.y(node)[0] as usize] = bit,
        None => drive_rows(model, node, table, scratch),
    }
}

// Gives all nodes' places what the nodes give, each after those that it reads.
pub fn drive_all(model: &WordModel, table: &mut [bool], scratch: &mut [bool])
    requires model { IsModel model.now }
    requires table { length table.old ≡ model.now.size }
    requires room { HasRoom scratch.old }
    ensures nodes { (i : ℕ) (n : NodeOf) → slice_get model.now.nodes i ≡ Some n → row_at (cycle_of table.new) n.y ≡ row_of_node (cycle_of table.new) n }
    ensures sources { (p : ℕ) → Contains (sources model.now) p → cycle_of table.new p ≡ cycle_of table.old p }
{
    for node in 0..model.nodes() {
        drive(model, node, table, scratch);
    }
}
