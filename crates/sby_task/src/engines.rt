// Engine lines.

ghost use Rattle.std.specs.Prelude.{◌≡◌, List, map, string_bytes, IfOk, [], ◌∷◌, ◌++◌, length, ◌==◌};
ghost use Rattle.sby_task.specs.Engines.{engine_name, sat_of, is_net, program_of, marked_of, engine_of};

use crate::marks::are_marked;
use crate::task_fault::TaskKind;
use crate::values::number_of;
use sby_file::copied_words;
use sby_terms::{Engine, addresses_are_told, is_address};
use std::alloc::{AllocError, Global};
use std::marker::Model;

/// The most conflicts of the project's own solver.
const MAX_CONFLICTS: u32 = 1_000_000_000;

/// The first word of an engine line.
#[derive(Clone, Copy, Debug, PartialEq, Eq)]
pub enum EngineName {
    Sat,
    Drup,
    Btor,
    Inv,
    Lrat,
    Proof,
    ProofBinary,
    Net,
    /// An engine that hands over no certificate.
    LeftOut,
    Unknown,
}

fn engine_name(word: &str) -> EngineName
    ensures { result ≡ engine_name word.now }
{
    match word {
        "sat" => EngineName::Sat,
        "drup" => EngineName::Drup,
        "btor" => EngineName::Btor,
        "inv" => EngineName::Inv,
        "lrat" => EngineName::Lrat,
        "proof" => EngineName::Proof,
        "proofb" => EngineName::ProofBinary,
        "net" => EngineName::Net,
        "smtbmc" | "abc" | "aiger" | "itp" | "none" => EngineName::LeftOut,
        _ => EngineName::Unknown,
    }
}

fn sat_of(words: &[String]) -> Result<Engine, TaskKind>
    ensures { result ≡ sat_of (map string_bytes words.now) }
{
    match words {
        [] => Ok(Engine::Sat(None)),
        [option, value @ ..] => {
            if option.as_str() != "--conflicts" {
                return Err(TaskKind::BadValue);
            }
            match number_of(MAX_CONFLICTS, value) {
                Some(conflicts) => Ok(Engine::Sat(Some(conflicts))),
                None => Err(TaskKind::BadValue),
            }
        }
    }
}

// Whether an address stands after `net`, and after it what may stand after `sat`.
fn is_net(arguments: &[String]) -> bool
    ensures { result ≡ is_net (map string_bytes arguments.now) }
{
    addresses_are_told();
    match arguments {
        [] => false,
        [address, budget @ ..] => is_address(address.as_bytes()) && sat_of(budget).is_ok(),
    }
}

/// The engine that a line names.
pub fn engine_of(alloc: Global, words: &[String]) -> Result<Result<Engine, TaskKind>, AllocError>
    ensures { IfOk result (λ engine. engine ≡ engine_of (map string_bytes words.now)) }
{
    match words {
        [] => Ok(Err(TaskKind::UnknownEngine)),
        [name, arguments @ ..] => match engine_name(name.as_str()) {
            EngineName::Sat => Ok(sat_of(arguments)),
            EngineName::LeftOut => Ok(Err(TaskKind::LeftOutEngine)),
            EngineName::Unknown => Ok(Err(TaskKind::UnknownEngine)),
            EngineName::Drup
            | EngineName::Btor
            | EngineName::Inv
            | EngineName::Lrat
            | EngineName::Proof
            | EngineName::ProofBinary
                if arguments.is_empty() => { Ok(Err(TaskKind::BadValue)) }
            EngineName::Proof | EngineName::ProofBinary if !are_marked(arguments) => {
                Ok(Err(TaskKind::Marks))
            }
            EngineName::Net if !is_net(arguments) => Ok(Err(TaskKind::BadValue)),
            EngineName::Drup => Ok(Ok(Engine::Drup(copied_words(alloc, arguments)?))),
            EngineName::Btor => Ok(Ok(Engine::Btor(copied_words(alloc, arguments)?))),
            EngineName::Inv => Ok(Ok(Engine::Inv(copied_words(alloc, arguments)?))),
            EngineName::Lrat => Ok(Ok(Engine::Lrat(copied_words(alloc, arguments)?))),
            EngineName::Proof => Ok(Ok(Engine::Proof(copied_words(alloc, arguments)?))),
            EngineName::ProofBinary => Ok(Ok(Engine::ProofBinary(copied_words(alloc, arguments)?))),
            EngineName::Net => Ok(Ok(Engine::Net(copied_words(alloc, words)?))),
        },
    }
}

/// The engines of a task, in file order. Contracts see their list.
#[derive(Drop, Debug)]
pub struct Engines {
    engines: Vec<Engine>,
}

impl Model for Engines {
    ghost use Rattle.std.specs.Prelude.{List};
    ghost use Rattle.sby_terms.specs.declared.engine.Engine.{Engine};

    ghost Value = { List Engine };

    ghost view = { λ e. e.engines.items };
}

impl Engines {
    pub fn new(engines: Vec<Engine>) -> Self
        ensures { result ≡ engines.items }
    {
        Engines { engines }
    }

    /// The engines, as they were given.
    pub fn into_engines(self) -> Vec<Engine>
        ensures { result.items ≡ self }
    {
        self.engines
    }

    pub fn as_slice(&self) -> &[Engine]
        ensures { result.now ≡ self.now }
    {
        &self.engines
    }

    pub fn len(&self) -> usize
        ensures { result ≡ length self.now }
    {
        self.engines.len()
    }

    pub fn is_empty(&self) -> bool
        ensures { result ≡ (length self.now == 0) }
    {
        self.engines.is_empty()
    }

    pub fn push(&mut self, engine: Engine) -> Result<(), AllocError>
        ensures { IfOk result (λ _. self.new ≡ self.old ++ engine ∷ []) }
    {
        self.engines.push(engine)?;
        Ok(())
    }
}
