// Stems of paths, and work folders.

ghost use Rattle.std.specs.Prelude.{◌≡◌, ◌↔◌, List, ℕ, IfOk, IfSome, IsTrue, MatchOption, option_map, string_bytes};
ghost use Rattle.sby_words.specs.Folders.{HasStem, IsDesignStem, IsFolder, IsNamed, IsStem, task_folder};

use std::alloc::{AllocError, Global};

fn design_stem(design: &str) -> &str
    ensures { IsDesignStem design.now result.now }
{
    match design.strip_suffix(".il") {
        Some(stem) => stem,
        None => match design.strip_suffix(".rtlil") {
            Some(stem) => stem,
            None => design,
        },
    }
}

/// The work folder of `--judge`, and `None` where DIR or the design's stem is empty.
pub fn judge_folder<'a>(directory: Option<&'a str>, design: &'a str) -> Option<&'a str>
    ensures { MatchOption result
        ((folder : List ℕ) → IsFolder (option_map (λ s. s.now) directory.entry) design.entry.now folder → ⊥)
        (λ folder. IsFolder (option_map (λ s. s.now) directory.entry) design.entry.now folder.now) }
{
    let stem = design_stem(design);
    let folder = directory.unwrap_or(stem);
    if stem.is_empty() || folder.is_empty() {
        None
    } else {
        Some(folder)
    }
}

/// The path of a task file without a final `.sby`.
pub fn stem_of(file: &str) -> &str
    ensures { IsStem file.now result.now }
{
    match file.strip_suffix(".sby") {
        Some(stem) => stem,
        None => file,
    }
}

/// A law: a path has one stem.
pub fn files_have_one_stem()
    ensures { (file s t : List ℕ) → IsStem file s → IsStem file t → s ≡ t }
{}

/// Whether the stem of a task file names a folder.
pub fn has_stem(file: &str) -> bool
    ensures { IsTrue result ↔ HasStem file.now }
{
    !stem_of(file).is_empty()
}

/// Whether DIR names a folder, where it is given.
pub fn is_placed(directory: Option<&str>) -> bool
    ensures { IsTrue result ↔ IfSome (option_map (λ s. s.now) directory.entry) IsNamed }
{
    match directory {
        Some(text) => !text.is_empty(),
        None => true,
    }
}

/// The work folder of a task: DIR where it is given, else the stem, followed by `_TASK` where the task has a name.
pub fn folder_of(
    alloc: Global,
    stem: &str,
    directory: Option<&str>,
    task: &str,
) -> Result<String, AllocError>
    ensures { IfOk result (λ folder. string_bytes folder ≡ task_folder stem.now (option_map (λ s. s.now) directory.entry) task.now) }
{
    let front = directory.unwrap_or(stem);
    if task.is_empty() {
        String::from_str(alloc, front)
    } else {
        format!(in alloc; "{front}_{task}")
    }
}
