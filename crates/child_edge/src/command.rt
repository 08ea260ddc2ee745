// What is started for an engine's words.

ghost use Rattle.std.specs.Prelude.{◌≡◌, ℕ, List, ◌∷◌, ◌++◌, IfOk, IfSome, map, string_bytes};
ghost use Rattle.std.specs.Process.{command_args};
ghost use Rattle.child_edge.specs.Engine.{IsOwn, IsProgram};

use std::alloc::{AllocError, Global};
use std::env::{self, Env, VarError};
use std::fs;
use std::os::unix::fs::PermissionsExt;
use std::path::AsPath;
use std::process::{Command, Stdio};
use std::rt::Files as SystemFiles;

// The words that stand for the engines of this repository, and the variables that name other programs in their place.
const SOLVER: &str = "cdcl_program";

const SOLVER_VARIABLE: &str = "SBY_ENGINE";

const FINDER: &str = "pdr_program";

const FINDER_VARIABLE: &str = "SBY_PDR";

// Where programs are looked for if the variable PATH isn't set.
const DEFAULT_PATH: &str = "/bin:/usr/bin";

// Any of the three rights to execute.
const EXECUTE: u32 = 0o111;

// Starts the guard in a session of its own, so that a terminal's signals don't reach it.
const SESSION: &str = "setsid";

// The guard: it starts the engine in a session of its own, with no input, and ends with the engine's status. Once its input ends,
// because the child is to be killed or the runner is gone, it kills all that the engine has started in that session; so it does once
// the engine has ended. The guard itself lets go of the output, which ends as soon as the engine's own does.
const GUARD: &str = "exec 3<&0
setsid \"$@\" </dev/null 3<&- & engine=$!
{ read -r _ <&3; kill -s KILL -- \"-$engine\" \"$engine\"; } >/dev/null 2>&1 & watch=$!
exec 3<&- >&-
wait \"$engine\"; status=$?
kill -s KILL -- \"-$engine\" \"$watch\" 2>/dev/null
exit \"$status\"";

// Whether a file that may be executed has this path.
fn is_program<R: SystemFiles>(rt: &R, path: &str) -> bool {
    match fs::metadata(rt, path) {
        Ok(found) => found.is_file() && found.permissions().mode() & EXECUTE != 0,
        Err(_) => false,
    }
}

// The variable for a word that stands for an engine of this repository.
fn variable_for(word: &str) -> Option<&'static str>
    ensures { IfSome result (λ _. IsOwn word.now) }
{
    if word == SOLVER {
        Some(SOLVER_VARIABLE)
    } else if word == FINDER {
        Some(FINDER_VARIABLE)
    } else {
        None
    }
}

// The engine of this name beside the running program, if there is one.
fn beside<R: SystemFiles + Alloc<A = Global>>(
    rt: &R,
    alloc: Global,
    name: &str,
) -> Result<Option<String>, AllocError> {
    let Ok(own) = env::current_exe(rt) else {
        return Ok(None);
    };
    let own = own.as_path();
    let Some((folder, _)) = own.path_text().rsplit_once('/') else {
        return Ok(None);
    };
    let path = format!(in alloc; "{folder}/{name}")?;
    match fs::exists(rt, path.as_str()) {
        Ok(true) => Ok(Some(path)),
        _ => Ok(None),
    }
}

// The program that a word names: the word itself, but for an engine of this repository. That is the variable's, where it is set,
// else the one beside the running program, else looked for in the path.
fn program_named<R: SystemFiles + Env + Alloc<A = Global>>(
    rt: &R,
    alloc: Global,
    word: &str,
) -> Result<String, AllocError>
    ensures { (IsOwn word.now → ⊥) → IfOk result (λ program. string_bytes program ≡ word.now) }
{
    if let Some(variable) = variable_for(word) {
        match env::var(rt, variable) {
            Ok(path) => return Ok(path),
            Err(VarError::OutOfMemory) => return Err(AllocError),
            Err(_) => {}
        }
        if let Some(path) = beside(rt, alloc, word)? {
            return Ok(path);
        }
    }
    String::from_str(alloc, word)
}

// The folders in which programs are looked for, as the variable PATH has them.
fn search_path<R: SystemFiles + Env + Alloc<A = Global>>(
    rt: &R,
    alloc: Global,
) -> Result<String, AllocError> {
    match env::var(rt, "PATH") {
        Ok(path) => Ok(path),
        Err(VarError::OutOfMemory) => Err(AllocError),
        Err(_) => String::from_str(alloc, DEFAULT_PATH),
    }
}

// The path of a program of this name in a folder; an empty name of a folder is the current one's.
fn path_in(alloc: Global, folder: &str, name: &str) -> Result<String, AllocError>
    ensures { IfOk result (λ path. (front : List ℕ) × (string_bytes path ≡ front ++ 47 ∷ name.now)) }
{
    let folder = if folder.is_empty() { "." } else { folder };
    format!(in alloc; "{folder}/{name}")
}

/// The path of the program that an engine's first word names, or nothing where there is no such program.
pub fn find_program<R: SystemFiles + Env + Alloc<A = Global>>(
    rt: &R,
    alloc: Global,
    word: &str,
) -> Result<Option<String>, AllocError>
    ensures { IfOk result (λ found. IfSome found (λ program. IsProgram word.now (string_bytes program))) }
{
    let name = program_named(rt, alloc, word)?;
    if name.as_str().contains('/') {
        if is_program(rt, name.as_str()) {
            return Ok(Some(name));
        }
        return Ok(None);
    }
    let path = search_path(rt, alloc)?;
    for folder in path.as_str().split(':') {
        let found = path_in(alloc, folder, name.as_str())?;
        if is_program(rt, found.as_str()) {
            return Ok(Some(found));
        }
    }
    Ok(None)
}

// Adds words after those of a command.
fn add_words(command: &mut Command, words: &[String]) -> Result<(), AllocError>
    ensures { IfOk result (λ _. command_args command.new ≡ command_args command.old ++ map string_bytes words.now) }
{
    for word in words {
        command.arg(word.as_str())?;
    }
    Ok(())
}

/// The command for a program and the words after it: no input, its output on a pipe.
pub fn plain_command(alloc: Global, program: &str, words: &[String]) -> Result<Command, AllocError>
    ensures { IfOk result (λ command. command_args command ≡ map string_bytes words.now) }
{
    let mut command = Command::new(alloc, program)?;
    add_words(&mut command, words)?;
    command.stdin(Stdio::null());
    command.stdout(Stdio::piped());
    Ok(command)
}

/// The command by which the guard runs a program with the words after it: its input is a pipe, at whose end it kills the program and
/// all that it has started, and its output is the program's.
pub fn guarded_command(
    alloc: Global,
    program: &str,
    words: &[String],
) -> Result<Command, AllocError>
    ensures { IfOk result (λ command. (guard : List (List ℕ)) × (command_args command ≡ guard ++ program.now ∷ map string_bytes words.now)) }
{
    let mut command = Command::new(alloc, SESSION)?;
    for word in ["sh", "-c", GUARD, "guard"] {
        command.arg(word)?;
    }
    command.arg(program)?;
    add_words(&mut command, words)?;
    command.stdin(Stdio::piped());
    command.stdout(Stdio::piped());
    Ok(command)
}
