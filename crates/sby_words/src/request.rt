// What the matches of the words ask, form by form.

ghost use Rattle.std.specs.Prelude.{◌≡◌, [], ℕ, List, Option, IfOk, MatchOption, map, option_map, string_bytes};
ghost use Rattle.clap.specs.Matches.{found_of};
ghost use Rattle.clap.specs.Walk.{rows_of, texts};
ghost use Rattle.sby_terms.specs.declared.names.Mode.{Mode};
ghost use Rattle.sby_words.specs.declared.form.Form.TheVariants as form;
ghost use Rattle.sby_words.specs.Answers.{IsMeant, IsSaid, request_of};
ghost use Rattle.sby_words.specs.Requests.{GenRequest, JudgeRequest, TaskRequest};
ghost use Rattle.sby_words.specs.Words.{Generates, IsLimit, IsNumber, Judges, Lists, Runs, mode_word};

use crate::asked::{Asked, GenWords, JudgeWords, TaskWords};
use crate::folder::{has_stem, is_placed, judge_folder};
use crate::form::{Form, form_by};
use clap::ArgMatches;
use sby_terms::{MAX_DEPTH, Mode, number_upto, numbers_are_decimal};
use std::alloc::{AllocError, Global};

/// The sizes of generated task files.
const MIN_SIZE: u32 = 2;

const MAX_SIZE: u32 = 10_000;

/// How many children may run at a time, at most.
const MAX_JOBS: u32 = 64;

/// The parts of `--judge`, where they stand in the words.
#[derive(Clone, Copy)]
struct JudgeParts<'m, 'a> {
    folder: &'a str,
    design: &'a str,
    mode: Mode,
    depth: u32,
    streams: &'m [&'a str],
}

/// The parts of a run, where they stand in the words.
#[derive(Clone, Copy)]
struct TaskParts<'m, 'a> {
    jobs: Option<u32>,
    file: &'a str,
    names: &'m [&'a str],
}

fn mode_of(word: &str) -> Option<Mode>
    ensures { MatchOption result ((mode : Mode) → word.now ≡ mode_word mode → ⊥) (λ mode. word.now ≡ mode_word mode) }
{
    match word {
        "bmc" => Some(Mode::Bmc),
        "prove" => Some(Mode::Prove),
        "prove-inv" => Some(Mode::ProveInv),
        "cover" => Some(Mode::Cover),
        _ => None,
    }
}

fn depth_of(word: &str) -> Option<u32>
    ensures { MatchOption result ((depth : ℕ) → IsNumber 1 100000 word.now depth → ⊥) (IsNumber 1 100000 word.now) }
{
    numbers_are_decimal();
    number_upto(MAX_DEPTH, word.as_bytes())
}

fn size_of(word: &str) -> Option<u32>
    ensures { MatchOption result ((size : ℕ) → IsNumber 2 10000 word.now size → ⊥) (IsNumber 2 10000 word.now) }
{
    numbers_are_decimal();
    match number_upto(MAX_SIZE, word.as_bytes()) {
        Some(size) if size >= MIN_SIZE => Some(size),
        _ => None,
    }
}

fn count_of(word: &str) -> Option<u32>
    ensures { MatchOption result ((count : ℕ) → IsNumber 1 64 word.now count → ⊥) (IsNumber 1 64 word.now) }
{
    numbers_are_decimal();
    number_upto(MAX_JOBS, word.as_bytes())
}

// M where it is given, and `None` where it is no count.
fn limit_of(jobs: Option<&str>) -> Option<Option<u32>>
    ensures { MatchOption result
        ((limit : Option ℕ) → IsLimit (option_map (λ s. s.now) jobs.entry) limit → ⊥)
        (IsLimit (option_map (λ s. s.now) jobs.entry)) }
{
    match jobs {
        Some(word) => match count_of(word) {
            Some(count) => Some(Some(count)),
            None => None,
        },
        None => Some(None),
    }
}

fn judge_parts<'m, 'a>(
    directory: Option<&'a str>,
    jobs: Option<&str>,
    list: &'m [&'a str],
) -> Option<JudgeParts<'m, 'a>>
    ensures { MatchOption result
        ((r : JudgeRequest) → Judges (option_map (λ s. s.now) directory.entry) (option_map (λ s. s.now) jobs.entry) (texts list.entry.now) r → ⊥)
        (λ p. Judges (option_map (λ s. s.now) directory.entry) (option_map (λ s. s.now) jobs.entry) (texts list.entry.now) (record {
          folder = p.folder.now;
          design = p.design.now;
          mode = p.mode;
          depth = p.depth;
          streams = texts p.streams.now;
        })) }
{
    let [design, mode, word, streams @ ..] = list else {
        return None;
    };
    if jobs.is_some() {
        return None;
    }
    let Some(mode) = mode_of(mode) else {
        return None;
    };
    let Some(depth) = depth_of(word) else {
        return None;
    };
    let Some(folder) = judge_folder(directory, design) else {
        return None;
    };
    Some(JudgeParts {
        folder,
        design,
        mode,
        depth,
        streams,
    })
}

fn task_parts<'m, 'a>(
    directory: Option<&'a str>,
    jobs: Option<&str>,
    list: &'m [&'a str],
) -> Option<TaskParts<'m, 'a>>
    ensures { MatchOption result
        ((r : TaskRequest) → Runs (option_map (λ s. s.now) directory.entry) (option_map (λ s. s.now) jobs.entry) (texts list.entry.now) r → ⊥)
        (λ p. Runs (option_map (λ s. s.now) directory.entry) (option_map (λ s. s.now) jobs.entry) (texts list.entry.now) (record {
          directory = option_map (λ s. s.now) directory.entry;
          jobs = p.jobs;
          file = p.file.now;
          names = texts p.names.now;
        })) }
{
    let [file, names @ ..] = list else {
        return None;
    };
    if !has_stem(file) || !is_placed(directory) {
        return None;
    }
    let Some(jobs) = limit_of(jobs) else {
        return None;
    };
    Some(TaskParts { jobs, file, names })
}

fn names_file<'a>(
    directory: Option<&'a str>,
    jobs: Option<&str>,
    list: &[&'a str],
) -> Option<&'a str>
    ensures { MatchOption result
        ((file : List ℕ) → Lists (option_map (λ s. s.now) directory.entry) (option_map (λ s. s.now) jobs.entry) (texts list.entry.now) file → ⊥)
        (λ file. Lists (option_map (λ s. s.now) directory.entry) (option_map (λ s. s.now) jobs.entry) (texts list.entry.now) file.now) }
{
    let [file] = list else {
        return None;
    };
    if !has_stem(file) || directory.is_some() || jobs.is_some() {
        return None;
    }
    Some(file)
}

fn gen_size(directory: Option<&str>, jobs: Option<&str>, list: &[&str]) -> Option<u32>
    ensures { MatchOption result
        ((r : GenRequest) → Generates (option_map (λ s. s.now) directory.entry) (option_map (λ s. s.now) jobs.entry) (texts list.now) r → ⊥)
        (λ size. Generates (option_map (λ s. s.now) directory.entry) (option_map (λ s. s.now) jobs.entry) (texts list.now) (record {
          directory = option_map (λ s. s.now) directory.entry;
          size = size;
        })) }
{
    let [word] = list else {
        return None;
    };
    if !is_placed(directory) || jobs.is_some() {
        return None;
    }
    size_of(word)
}

fn owned(alloc: Global, list: &[&str]) -> Result<Vec<String>, AllocError>
    ensures { IfOk result (λ r. map string_bytes r.items ≡ texts list.now) }
{
    let mut all = Vec::new(alloc);
    for text in list {
        all.push(String::from_str(alloc, text)?)?;
    }
    Ok(all)
}

fn owned_directory(alloc: Global, directory: Option<&str>) -> Result<Option<String>, AllocError>
    ensures { IfOk result (λ r. option_map string_bytes r ≡ option_map (λ s. s.now) directory.entry) }
{
    match directory {
        Some(text) => Ok(Some(String::from_str(alloc, text)?)),
        None => Ok(None),
    }
}

fn judge_asked(
    alloc: Global,
    directory: Option<&str>,
    jobs: Option<&str>,
    list: &[&str],
) -> Result<Option<Asked>, AllocError>
    ensures { IfOk result (λ asked. IsSaid form.Judge (option_map (λ s. s.now) directory.entry) (option_map (λ s. s.now) jobs.entry) (texts list.now) (option_map request_of asked)) }
{
    let Some(parts) = judge_parts(directory, jobs, list) else {
        return Ok(None);
    };
    Ok(Some(Asked::Judge(JudgeWords {
        folder: String::from_str(alloc, parts.folder)?,
        design: String::from_str(alloc, parts.design)?,
        mode: parts.mode,
        depth: parts.depth,
        streams: owned(alloc, parts.streams)?,
    })))
}

fn tasks_asked(
    alloc: Global,
    directory: Option<&str>,
    jobs: Option<&str>,
    list: &[&str],
) -> Result<Option<Asked>, AllocError>
    ensures { IfOk result (λ asked. IsSaid form.Tasks (option_map (λ s. s.now) directory.entry) (option_map (λ s. s.now) jobs.entry) (texts list.now) (option_map request_of asked)) }
{
    let Some(parts) = task_parts(directory, jobs, list) else {
        return Ok(None);
    };
    Ok(Some(Asked::Tasks(TaskWords {
        directory: owned_directory(alloc, directory)?,
        jobs: parts.jobs,
        file: String::from_str(alloc, parts.file)?,
        names: owned(alloc, parts.names)?,
    })))
}

fn names_asked(
    alloc: Global,
    directory: Option<&str>,
    jobs: Option<&str>,
    list: &[&str],
) -> Result<Option<Asked>, AllocError>
    ensures { IfOk result (λ asked. IsSaid form.Names (option_map (λ s. s.now) directory.entry) (option_map (λ s. s.now) jobs.entry) (texts list.now) (option_map request_of asked)) }
{
    let Some(file) = names_file(directory, jobs, list) else {
        return Ok(None);
    };
    Ok(Some(Asked::Names(String::from_str(alloc, file)?)))
}

fn gen_asked(
    alloc: Global,
    directory: Option<&str>,
    jobs: Option<&str>,
    list: &[&str],
) -> Result<Option<Asked>, AllocError>
    ensures { IfOk result (λ asked. IsSaid form.Gen (option_map (λ s. s.now) directory.entry) (option_map (λ s. s.now) jobs.entry) (texts list.now) (option_map request_of asked)) }
{
    let Some(size) = gen_size(directory, jobs, list) else {
        return Ok(None);
    };
    Ok(Some(Asked::Gen(GenWords {
        directory: owned_directory(alloc, directory)?,
        size,
    })))
}

/// What the matches ask.
pub fn asked_by(alloc: Global, matches: &ArgMatches<'_>) -> Result<Option<Asked>, AllocError>
    ensures { IfOk result (λ asked. IsMeant (rows_of (found_of matches.now)) (option_map request_of asked)) }
{
    let Some(form) = form_by(matches) else {
        return Ok(None);
    };
    let Some(list) = matches.get_strs("words") else {
        return Ok(None);
    };
    let directory = matches.get_str("folder");
    let jobs = matches.get_str("jobs");
    match form {
        Form::Judge => judge_asked(alloc, directory, jobs, list),
        Form::Tasks => tasks_asked(alloc, directory, jobs, list),
        Form::Names => names_asked(alloc, directory, jobs, list),
        Form::Gen => gen_asked(alloc, directory, jobs, list),
    }
}
