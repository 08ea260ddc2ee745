// Where a design stands.

ghost use Rattle.std.specs.Prelude.{◌≡◌, List, None, map, string_bytes, IfOk};
ghost use Rattle.std.specs.Option.{option_copied};
ghost use Rattle.sby_task.specs.Files.{part_of, is_path_named, path_after, path_in, path_of, bytes_in};

use sby_file::{Bytes, Name, Row, Section, StoredFile};
use std::alloc::{AllocError, Global};

// A path's part after its last `/`.
fn part_of(alloc: Global, path: &[u8]) -> Result<Vec<u8>, AllocError>
    ensures { IfOk result (λ part. part.items ≡ part_of path.now) }
{
    let mut part = Vec::new(alloc);
    for b in path {
        if *b == b'/' {
            part.clear();
        } else {
            part.push(*b)?;
        }
    }
    Ok(part)
}

fn is_path_named(alloc: Global, path: &str, name: &str) -> Result<bool, AllocError>
    ensures { IfOk result (λ named. named ≡ is_path_named path.now name.now) }
{
    let part = part_of(alloc, path.as_bytes())?;
    Ok(part.as_slice() == name.as_bytes())
}

// The path of a line of `[files]`, where it has this name.
fn path_of(alloc: Global, row: &Row, name: &str) -> Result<Option<Name>, AllocError>
    ensures { IfOk result (λ path. path ≡ path_of row.now name.now) }
{
    if !matches!(row.section, Section::Files) {
        return Ok(None);
    }
    match row.words.as_slice() {
        [path] => {
            if is_path_named(alloc, path.as_str(), name)? {
                Ok(Some(Name::new(path.clone()?)))
            } else {
                Ok(None)
            }
        }
        [given, path] => {
            if given.as_str() == name {
                Ok(Some(Name::new(path.clone()?)))
            } else {
                Ok(None)
            }
        }
        _ => Ok(None),
    }
}

/// The path of this name, of the last line of `[files]` that has it.
pub fn path_in(alloc: Global, rows: &[Row], name: &str) -> Result<Option<Name>, AllocError>
    ensures { IfOk result (λ path. path ≡ path_in None rows.now name.now) }
{
    let mut found = None;
    for row in rows {
        if let Some(path) = path_of(alloc, row, name)? {
            found = Some(path);
        }
    }
    Ok(found)
}

/// The bytes of the section `[file NAME]`, where there is one.
pub fn bytes_in<'a>(files: &'a [StoredFile], name: &str) -> Option<&'a Bytes>
    ensures { option_copied result ≡ bytes_in files.now name.now }
{
    for file in files {
        if file.name.as_str() == name {
            return Some(&file.bytes);
        }
    }
    None
}
