// The words of a lane's child.

ghost use Rattle.std.specs.Prelude.{◌≡◌, ◌<◌, ◌∷◌, ℕ, List, length, ◌++◌, [], IfOk, Some, None, MatchOption, map, string_bytes};
ghost use Rattle.std.specs.Fmt.{decimal};
ghost use Rattle.task_race.specs.Words.{budget_word, file_text, formula_mark, btor_path, btor_file, parted, path_of, proof_mark, proof_path, proof_text, replaced, solver_word, with_paths, words_of};
ghost use Rattle.sby_terms.specs.declared.engine.Engine.TheVariants as engine;

use sby_terms::{Engine, JobName, Words, job_path, job_text};
use std::alloc::{AllocError, Global};

#[tactic(auto, unfolding(crate::specs::Words::solver_word))]
fn solver_word(alloc: Global) -> Result<String, AllocError>
    ensures { IfOk result (λ t. string_bytes t ≡ solver_word) }
{
    String::from_str(alloc, "cdcl_program")
}

#[tactic(auto, unfolding(crate::specs::Words::budget_word))]
fn budget_word(alloc: Global) -> Result<String, AllocError>
    ensures { IfOk result (λ t. string_bytes t ≡ budget_word) }
{
    String::from_str(alloc, "--conflicts")
}

fn decimal_word(alloc: Global, number: u32) -> Result<String, AllocError>
    ensures { IfOk result (λ t. string_bytes t ≡ decimal number) }
{
    format!(in alloc; "{number}")
}

// These words, and one more.
fn with_word(words: Vec<String>, word: String) -> Result<Vec<String>, AllocError>
    ensures { IfOk result (λ w. map string_bytes w.items ≡ map string_bytes words.items ++ string_bytes word ∷ []) }
{
    let mut words = words;
    words.push(word)?;
    Ok(words)
}

// The words of the project's own solver.
fn solver_words(
    alloc: Global,
    conflicts: Option<u32>,
    path: String,
) -> Result<Vec<String>, AllocError>
    ensures { (proof : List ℕ) → IfOk result (λ w. map string_bytes w.items ≡ words_of (engine.Sat conflicts) (string_bytes path) proof) }
{
    let words = with_word(Vec::new(alloc), solver_word(alloc)?)?;
    let words = match conflicts {
        None => words,
        Some(most) => {
            let words = with_word(words, budget_word(alloc)?)?;
            with_word(words, decimal_word(alloc, most)?)?
        }
    };
    with_word(words, path)
}

fn program_words(words: &Words, path: String) -> Result<Vec<String>, AllocError>
    ensures { IfOk result (λ w. map string_bytes w.items ≡ words.now ++ string_bytes path ∷ []) }
{
    with_word(words.copy()?.into_words(), path)
}

#[tactic(auto, unfolding(crate::specs::Words::formula_mark))]
fn formula_mark() -> &'static str
    ensures mark { result.now ≡ formula_mark }
    ensures some { 0 < length result.now }
{
    "{cnf}"
}

#[tactic(auto, unfolding(crate::specs::Words::proof_mark))]
fn proof_mark() -> &'static str
    ensures mark { result.now ≡ proof_mark }
    ensures some { 0 < length result.now }
{
    "{proof}"
}

// What stands before a mark in a word and after it, at its first place.
fn parted<'t>(word: &'t str, mark: &str) -> Option<(&'t str, &'t str)>
    requires { 0 < length mark.now }
    ensures { MatchOption result (parted mark.now word.now ≡ None) (λ p. parted mark.now word.now ≡ Some (p.0.now, p.1.now)) }
{
    word.split_once(mark)
}

fn joined(alloc: Global, front: &str, path: &str, back: &str) -> Result<String, AllocError>
    ensures { IfOk result (λ t. string_bytes t ≡ front.now ++ path.now ++ back.now) }
{
    format!(in alloc; "{front}{path}{back}")
}

// A word with a path in place of a mark.
fn replaced(alloc: Global, word: &str, mark: &str, path: &str) -> Result<String, AllocError>
    requires { 0 < length mark.now }
    ensures { IfOk result (λ t. string_bytes t ≡ replaced mark.now path.now word.now) }
{
    match parted(word, mark) {
        None => String::from_str(alloc, word),
        Some((front, back)) => joined(alloc, front, path, back),
    }
}

// A word with these paths in place of the marks.
fn with_paths(alloc: Global, word: &str, path: &str, proof: &str) -> Result<String, AllocError>
    ensures { IfOk result (λ t. string_bytes t ≡ with_paths path.now proof.now word.now) }
{
    let Some((front, back)) = parted(word, formula_mark()) else {
        return replaced(alloc, word, proof_mark(), proof);
    };
    let front = replaced(alloc, front, proof_mark(), proof)?;
    let back = replaced(alloc, back, proof_mark(), proof)?;
    joined(alloc, front.as_str(), path, back.as_str())
}

// The words of a program that leaves a proof file.
fn marked_words(
    alloc: Global,
    words: &[String],
    path: &str,
    proof: &str,
) -> Result<Vec<String>, AllocError>
    ensures { IfOk result (λ w. map string_bytes w.items ≡ map (with_paths path.now proof.now) (map string_bytes words.now)) }
{
    let mut replaced = Vec::new(alloc);
    for word in words {
        let marked = with_paths(alloc, word.as_str(), path, proof)?;
        replaced.push(marked)?;
    }
    Ok(replaced)
}

// The words of an engine's child, for the job's file and the proof file at these paths; of a `net` line as they stand.
pub(crate) fn words_of(
    alloc: Global,
    engine: &Engine,
    path: String,
    proof: &str,
) -> Result<Vec<String>, AllocError>
    ensures { IfOk result (λ w. map string_bytes w.items ≡ words_of engine.now (string_bytes path) proof.now) }
{
    match engine {
        Engine::Sat(conflicts) => solver_words(alloc, *conflicts, path),
        Engine::Drup(words) | Engine::Lrat(words) | Engine::Btor(words) | Engine::Inv(words) => {
            program_words(words, path)
        }
        Engine::Net(words) => Ok(words.copy()?.into_words()),
        Engine::Proof(words) | Engine::ProofBinary(words) => {
            marked_words(alloc, words.as_slice(), path.as_str(), proof)
        }
    }
}

#[tactic(auto, unfolding(crate::specs::Words::btor_file))]
fn btor_file(alloc: Global, folder: &str, job: &str) -> Result<String, AllocError>
    ensures { IfOk result (λ t. string_bytes t ≡ btor_file folder.now job.now) }
{
    format!(in alloc; "{folder}/model/{job}.btor")
}

/// The path of a job's model in BTOR2 in the work folder of a task with this many slices: `FOLDER/model/JOB.btor`.
pub fn btor_path(
    alloc: Global,
    folder: &str,
    slices: u32,
    job: JobName,
) -> Result<String, AllocError>
    ensures { IfOk result (λ t. string_bytes t ≡ btor_path folder.now slices job) }
{
    let job = job_text(alloc, slices, job)?;
    btor_file(alloc, folder, job.as_str())
}

// The path of the file that an engine's child reads for a job: the model in BTOR2, or the job's formula.
pub(crate) fn path_of(
    alloc: Global,
    engine: &Engine,
    folder: &str,
    slices: u32,
    job: JobName,
) -> Result<String, AllocError>
    ensures { IfOk result (λ t. string_bytes t ≡ path_of engine.now folder.now slices job) }
{
    match engine {
        Engine::Btor(_) => btor_path(alloc, folder, slices, job),
        Engine::Sat(_)
        | Engine::Drup(_)
        | Engine::Inv(_)
        | Engine::Lrat(_)
        | Engine::Net(_)
        | Engine::Proof(_)
        | Engine::ProofBinary(_) => job_path(alloc, folder, slices, job),
    }
}

#[tactic(auto, unfolding(crate::specs::Words::proof_text))]
fn proof_text(alloc: Global, folder: &str, file: &str) -> Result<String, AllocError>
    ensures { IfOk result (λ t. string_bytes t ≡ proof_text folder.now file.now) }
{
    format!(in alloc; "{folder}/model/{file}.proof")
}

#[tactic(auto, unfolding(crate::specs::Words::file_text))]
fn file_text(alloc: Global, lane: u32, job: &str) -> Result<String, AllocError>
    ensures { IfOk result (λ t. string_bytes t ≡ file_text lane job.now) }
{
    format!(in alloc; "engine_{lane}_{job}")
}

// The path of the proof file that a lane's child leaves for a job of a task with this many slices.
pub(crate) fn proof_path(
    alloc: Global,
    folder: &str,
    lane: u32,
    slices: u32,
    job: JobName,
) -> Result<String, AllocError>
    ensures { IfOk result (λ t. string_bytes t ≡ proof_path folder.now lane slices job) }
{
    let job = job_text(alloc, slices, job)?;
    let file = file_text(alloc, lane, job.as_str())?;
    proof_text(alloc, folder, file.as_str())
}
