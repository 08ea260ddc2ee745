//! Variables by levels.

ghost use Rattle.std.specs.Prelude.{◌≡◌, ◌<◌, ◌≤◌, All, length};
ghost use Rattle.bit_net.specs.Levels.{prefix_of};

use std::marker::Model;

/// The variables on which some literals rest, by register steps, and in each level in rising order.
#[derive(Drop)]
pub struct Levels {
    order: Vec<u32>,
    // How many stand in the first levels: in none, in the first, and so on.
    ends: Vec<usize>,
}

impl Model for Levels {
    ghost use Rattle.std.specs.Prelude.{◌≤◌, All, length};
    ghost use Rattle.bit_net.specs.Levels.{LevelsOf};

    ghost Value = { LevelsOf };

    ghost view = { λ l. record { order = l.order.items; ends = l.ends.items } };

    ghost invariant = { λ l. All (λ e. e ≤ length l.order.items) l.ends.items };
}

impl Levels {
    // These variables, this many in the first levels.
    pub fn new(order: Vec<u32>, ends: Vec<usize>) -> Levels
        requires { All (λ e. e ≤ length order.items) ends.items }
        ensures { result ≡ record { order = order.items; ends = ends.items } }
    {
        Levels { order, ends }
    }

    /// The variables of the first levels, one level after the other.
    pub fn prefix(&self, many: u32) -> &[u32]
        requires { many < length self.now.ends }
        ensures { result.now ≡ prefix_of self.now many }
    {
        &self.order[..self.ends[many as usize]]
    }
}
