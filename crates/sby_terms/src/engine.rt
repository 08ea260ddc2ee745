// Engine lines.

ghost use Rattle.std.specs.Prelude.{◌≡◌, map, string_bytes, IfOk};

use std::alloc::AllocError;
use std::marker::Model;

/// The words of an engine's command: its program and the program's arguments. Contracts see the list of their bytes.
#[derive(Drop, Debug)]
pub struct Words {
    words: Vec<String>,
}

impl Model for Words {
    ghost use Rattle.std.specs.Prelude.{ℕ, List, map, string_bytes};

    ghost Value = { List (List ℕ) };

    ghost view = { λ w. map string_bytes w.words.items };
}

impl Words {
    pub fn new(words: Vec<String>) -> Self
        ensures { result ≡ map string_bytes words.items }
    {
        Words { words }
    }

    /// The words, as they were given.
    pub fn into_words(self) -> Vec<String>
        ensures { map string_bytes result.items ≡ self }
    {
        self.words
    }

    pub fn as_slice(&self) -> &[String]
        ensures { map string_bytes result.now ≡ self.now }
    {
        &self.words
    }

    /// Equal words, or out of memory.
    pub fn copy(&self) -> Result<Self, AllocError>
        ensures { IfOk result (λ copied. copied ≡ self.now) }
    {
        let words = self.words.clone()?;
        Ok(Words { words })
    }
}

/// An engine line of a task.
#[derive(Drop, Debug)]
pub enum Engine {
    /// The project's own solver, with a budget of conflicts where one is given.
    Sat(Option<u32>),
    /// A program that writes DRUP over DIMACS CNF.
    Drup(Words),
    /// A program that writes BTOR2 witnesses.
    Btor(Words),
    /// A program that writes inductive invariants.
    Inv(Words),
    /// A program that writes a hinted proof.
    Lrat(Words),
    /// A program that writes its answer, and a proof file in text.
    Proof(Words),
    /// A program that writes its answer, and a proof file in binary.
    ProofBinary(Words),
    /// An engine that is reached over a connection. All words of the line stand here: `net`, the address, and after it `--conflicts` and
    /// a budget where one is given.
    Net(Words),
}

impl Engine {
    /// An equal engine line, or out of memory.
    pub fn copy(&self) -> Result<Self, AllocError>
        ensures { IfOk result (λ copied. copied ≡ self.now) }
    {
        match self {
            Engine::Sat(conflicts) => Ok(Engine::Sat(*conflicts)),
            Engine::Drup(words) => {
                let words = words.copy()?;
                Ok(Engine::Drup(words))
            }
            Engine::Btor(words) => {
                let words = words.copy()?;
                Ok(Engine::Btor(words))
            }
            Engine::Inv(words) => {
                let words = words.copy()?;
                Ok(Engine::Inv(words))
            }
            Engine::Lrat(words) => {
                let words = words.copy()?;
                Ok(Engine::Lrat(words))
            }
            Engine::Proof(words) => {
                let words = words.copy()?;
                Ok(Engine::Proof(words))
            }
            Engine::ProofBinary(words) => {
                let words = words.copy()?;
                Ok(Engine::ProofBinary(words))
            }
            Engine::Net(words) => {
                let words = words.copy()?;
                Ok(Engine::Net(words))
            }
        }
    }
}
