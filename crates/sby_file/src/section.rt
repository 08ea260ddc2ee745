// Sections and their headers.

ghost use Rattle.std.specs.Prelude.{◌≡◌, ◌∷◌, ◌++◌, List, map, string_bytes, IfOk};
ghost use Rattle.std.specs.List.{flat_map};
ghost use Rattle.sby_file.specs.Section.{section_named, plain_section, is_file, is_scoped, name_of};

use std::alloc::{AllocError, Global};

/// Where a line stands.
#[derive(Clone, Copy, Debug, PartialEq, Eq)]
pub enum Section {
    /// Before the first header.
    Nowhere,
    Tasks,
    Options,
    Engines,
    Script,
    Files,
    /// A section `[file NAME]`.
    File,
    /// A section of another name.
    Unknown,
}

impl Section {
    pub fn is_file(self) -> bool
        ensures { result ≡ is_file self }
    {
        matches!(self, Section::File)
    }

    /// Whether the section's lines may have prefixes.
    pub fn is_scoped(self) -> bool
        ensures { result ≡ is_scoped self }
    {
        matches!(
            self,
            Section::Options | Section::Engines | Section::Script | Section::Files
        )
    }
}

fn plain_section(name: &str) -> Section
    ensures { result ≡ plain_section name.now }
{
    match name {
        "tasks" => Section::Tasks,
        "options" => Section::Options,
        "engines" => Section::Engines,
        "script" => Section::Script,
        "files" => Section::Files,
        _ => Section::Unknown,
    }
}

/// The section that a header of this name starts.
pub fn section_named(name: &[String]) -> Section
    ensures { result ≡ section_named (map string_bytes name.now) }
{
    match name {
        [] => Section::Unknown,
        [only] => plain_section(only.as_str()),
        [first, ..] => {
            if first.as_str() == "file" {
                Section::File
            } else {
                Section::Unknown
            }
        }
    }
}

/// The NAME of a header `file NAME`.
pub fn name_of(alloc: Global, header: &[String]) -> Result<String, AllocError>
    ensures { IfOk result (λ name. string_bytes name ≡ name_of (map string_bytes header.now)) }
{
    match header {
        [_, first, more @ ..] => spaced(first, more),
        _ => Ok(String::new(alloc)),
    }
}

// Words with one space between them.
fn spaced(first: &String, more: &[String]) -> Result<String, AllocError>
    ensures { IfOk result (λ name. string_bytes name ≡ string_bytes first.now ++ flat_map (λ next. 32 ∷ next) (map string_bytes more.now)) }
{
    let mut name = first.clone()?;
    for next in more {
        name.push(' ')?;
        name.push_str(next.as_str())?;
    }
    Ok(name)
}
