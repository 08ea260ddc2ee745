// Tasks of a file.

ghost use Rattle.std.specs.Prelude.{◌≡◌, ◌∷◌, List, map, string_bytes, IfOk};
ghost use Rattle.sby_task.specs.Draft.{Becomes};
ghost use Rattle.sby_task.specs.Task.{row_after, script_after, is_found};

use crate::draft::Draft;
use crate::files::{bytes_in, path_in};
use crate::task_fault::TaskKind;
use sby_file::{Name, Row, Section, StoredFile};
use std::alloc::{AllocError, Global};

// Whether a design of this name stands in the file or is named by a line.
fn is_found(
    alloc: Global,
    files: &[StoredFile],
    rows: &[Row],
    name: &str,
) -> Result<bool, AllocError>
    ensures { IfOk result (λ found. found ≡ is_found files.now rows.now name.now) }
{
    if bytes_in(files, name).is_some() {
        return Ok(true);
    }
    Ok(path_in(alloc, rows, name)?.is_some())
}

// Reads a line of the script, and sees whether its design is there.
fn read_script(
    alloc: Global,
    draft: &mut Draft,
    files: &[StoredFile],
    rows: &[Row],
    words: &[String],
) -> Result<Result<(), TaskKind>, AllocError>
    ensures { IfOk result (λ read. Becomes read draft.new (script_after files.now rows.now draft.old (map string_bytes words.now))) }
{
    if let Err(kind) = draft.set_script(words)? {
        return Ok(Err(kind));
    }
    match &draft.script {
        None => Ok(Ok(())),
        Some(name) => {
            if is_found(alloc, files, rows, name.as_str())? {
                Ok(Ok(()))
            } else {
                Ok(Err(TaskKind::MissingFile))
            }
        }
    }
}

/// Reads a line that holds for the task.
pub fn read_row(
    alloc: Global,
    draft: &mut Draft,
    files: &[StoredFile],
    rows: &[Row],
    row: &Row,
) -> Result<Result<(), TaskKind>, AllocError>
    ensures { IfOk result (λ read. Becomes read draft.new (row_after files.now rows.now draft.old row.now)) }
{
    let words = row.words.as_slice();
    match row.section {
        Section::Options => draft.set_option(alloc, rows, words),
        Section::Engines => draft.add_engine(alloc, words),
        Section::Script => read_script(alloc, draft, files, rows, words),
        Section::Files => {
            if words.len() > 2 {
                Ok(Err(TaskKind::BadValue))
            } else {
                Ok(Ok(()))
            }
        }
        _ => Ok(Ok(())),
    }
}
