// Names that can be looked up.

ghost use Rattle.std.specs.Prelude.{◌≡◌, ℕ, ◌||◌, [], List, map, string_bytes, bytes_eq, IfOk};
ghost use Rattle.std.specs.List.{list_any};
ghost use Rattle.sby_file.specs.Names.{has, with_name};

use indexmap::IndexSet;
use std::alloc::{AllocError, Global};
use std::marker::Model;

/// Names, each once. Contracts see their list.
#[derive(Drop)]
pub struct Names {
    set: IndexSet<String>,
}

impl Model for Names {
    ghost use Rattle.std.specs.Prelude.{ℕ, List, map, string_bytes};

    ghost Value = { List (List ℕ) };

    ghost view = { λ n. map string_bytes n.set.keys };
}

impl Names {
    pub fn new(alloc: Global) -> Self
        ensures { result ≡ [] }
    {
        Names {
            set: IndexSet::new(alloc),
        }
    }

    pub fn contains(&self, name: &str) -> bool
        ensures { result ≡ has self.now name.now }
    {
        self.set.contains(name)
    }

    pub fn insert(&mut self, name: String) -> Result<(), AllocError>
        ensures names { IfOk result (λ _. self.new ≡ with_name self.old (string_bytes name)) }
        ensures has { IfOk result (λ _. (other : List ℕ) → has self.new other ≡ (has self.old other || bytes_eq other (string_bytes name))) }
    {
        self.set.insert(name)?;
        Ok(())
    }

    pub fn insert_all(&mut self, names: &[String]) -> Result<(), AllocError>
        ensures { IfOk result (λ _. (other : List ℕ) → has self.new other ≡ (has self.old other || has (map string_bytes names.now) other)) }
    {
        for name in names {
            self.insert(name.clone()?)?;
        }
        Ok(())
    }
}
