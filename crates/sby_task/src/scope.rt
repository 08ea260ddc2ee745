// The lines that hold for a task.

ghost use Rattle.std.specs.Prelude.{◌≡◌, List, map, string_bytes, IfOk, true};
ghost use Rattle.sby_file.specs.Names.{has};
ghost use Rattle.sby_task.specs.Scope.{word_holds, holds, kept, any_holds, rest_of};

use sby_file::{
    Names, Row, copied_words, is_block_end, is_negated, mark_name, opens_block, prefix_length,
};
use std::alloc::{AllocError, Global};

fn word_holds(names: &Names, word: &str) -> bool
    ensures { result ≡ word_holds (has names.now) word.now }
{
    names.contains(mark_name(word)) != is_negated(word)
}

fn any_holds(names: &Names, prefix: &[String]) -> bool
    ensures { result ≡ any_holds (has names.now) (map string_bytes prefix.now) }
{
    for word in prefix {
        if word_holds(names, word.as_str()) {
            return true;
        }
    }
    false
}

/// Whether the prefix of a line holds.
fn holds(names: &Names, words: &[String]) -> bool
    ensures { result ≡ holds (has names.now) (map string_bytes words.now) }
{
    let length = prefix_length(words);
    length == 0 || any_holds(names, &words[..length])
}

// The line without its prefix.
fn rest_of(alloc: Global, row: &Row) -> Result<Row, AllocError>
    ensures { IfOk result (λ rest. rest ≡ rest_of row.now) }
{
    let words = row.words.as_slice();
    let length = prefix_length(words);
    Ok(Row {
        number: row.number,
        section: row.section,
        words: copied_words(alloc, &words[length..])?,
    })
}

/// The lines that hold for a task of these names.
pub fn kept(alloc: Global, names: &Names, rows: &[Row]) -> Result<Vec<Row>, AllocError>
    ensures { IfOk result (λ lines. lines.items ≡ kept (has names.now) true rows.now) }
{
    let mut lines = Vec::new(alloc);
    let mut block_holds = true;
    for row in rows {
        let words = row.words.as_slice();
        if is_block_end(words) {
            block_holds = true;
        } else if opens_block(words) {
            block_holds = holds(names, words);
        } else if block_holds && holds(names, words) {
            lines.push(rest_of(alloc, row)?)?;
        }
    }
    Ok(lines)
}
