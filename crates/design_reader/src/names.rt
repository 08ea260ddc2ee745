// Names in file order, and where each stands.

ghost use Rattle.std.specs.Prelude.{◌≡◌, [], ◌∷◌, ◌++◌, map, position, bytes_eq, false, ◌<◌, length, IfSome, OnOk};
ghost use Rattle.std.specs.List.{list_any};

use indexmap::IndexSet;
use std::alloc::{AllocError, Global};
use std::marker::Model;

/// Different names in file order.
#[derive(Drop)]
pub struct Names<'a> {
    names: IndexSet<&'a str>,
}

impl<'a> Model for Names<'a> {
    ghost use Rattle.std.specs.Prelude.{List, ℕ, map};

    ghost Value = { List (List ℕ) };

    ghost view = { λ a. map (λ n. n.now) a.names.keys };
}

impl<'a> Names<'a> {
    pub fn new(alloc: Global) -> Self
        ensures { result ≡ [] }
    {
        Names {
            names: IndexSet::new(alloc),
        }
    }

    /// At which place the name stands.
    pub fn place(&self, name: &str) -> Option<usize>
        ensures place { result ≡ position (λ n. bytes_eq n name.now) self.now }
        ensures within { IfSome result (λ i. i < length self.now) }
    {
        self.names.get_index_of(name)
    }

    pub fn has(&self, name: &str) -> bool
        ensures { result ≡ list_any (λ n. bytes_eq n name.now) self.now }
    {
        self.names.contains(name)
    }

    /// Adds a new name after the others.
    pub fn push(&mut self, name: &'a str) -> Result<(), AllocError>
        requires { list_any (λ n. bytes_eq n name.now) self.old ≡ false }
        ensures { OnOk result (self.new ≡ self.old ++ name.now ∷ []) }
    {
        self.names.insert(name)?;
        Ok(())
    }
}
