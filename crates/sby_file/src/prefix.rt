// Prefixes of lines: words with `~` in front, perhaps, and a colon after the last.

ghost use Rattle.std.specs.Prelude.{◌≡◌, ◌≤◌, Bool, List, length, map, string_bytes};
ghost use Rattle.std.specs.List.{list_all, list_any};
ghost use Rattle.sby_file.specs.Names.{has};
ghost use Rattle.sby_file.specs.Prefix.{is_name_byte, is_name, is_negated, ends_prefix, mark_name, is_mark, is_last_mark, prefix_length, are_known, is_block_end, opens_block, without_tilde, without_colon};

use crate::names::Names;

fn is_name_byte(b: u8) -> bool
    ensures { result ≡ is_name_byte b }
{
    (b'a'..=b'z').contains(&b)
        || (b'A'..=b'Z').contains(&b)
        || (b'0'..=b'9').contains(&b)
        || b == b'_'
}

/// Whether a word can name a task or a tag.
pub fn is_name(word: &str) -> bool
    ensures { result ≡ is_name word.now }
{
    let bytes = word.as_bytes();
    !bytes.is_empty() && bytes.iter().all(|b| is_name_byte(*b))
}

/// Whether a word of a prefix begins with `~`.
pub fn is_negated(word: &str) -> bool
    ensures { result ≡ is_negated word.now }
{
    let bytes = word.as_bytes();
    !bytes.is_empty() && bytes[0] == b'~'
}

fn ends_prefix(word: &str) -> bool
    ensures { result ≡ ends_prefix word.now }
{
    let bytes = word.as_bytes();
    !bytes.is_empty() && bytes[bytes.len() - 1] == b':'
}

fn without_tilde(word: &str) -> &str
    ensures { result.now ≡ without_tilde word.now }
{
    if is_negated(word) { &word[1..] } else { word }
}

fn without_colon(word: &str) -> &str
    ensures { result.now ≡ without_colon word.now }
{
    if ends_prefix(word) {
        let end = word.len() - 1;
        &word[..end]
    } else {
        word
    }
}

/// The name that a word of a prefix speaks of.
pub fn mark_name(word: &str) -> &str
    ensures { result.now ≡ mark_name word.now }
{
    without_tilde(without_colon(word))
}

fn is_mark(word: &str) -> bool
    ensures { result ≡ is_mark word.now }
{
    !ends_prefix(word) && is_name(mark_name(word))
}

fn is_last_mark(word: &str) -> bool
    ensures { result ≡ is_last_mark word.now }
{
    ends_prefix(word) && is_name(mark_name(word))
}

/// How many words are a line's prefix.
pub fn prefix_length(words: &[String]) -> usize
    ensures count { result ≡ prefix_length (map string_bytes words.now) }
    ensures within { result ≤ length words.now }
{
    for (i, word) in words.iter().enumerate() {
        if is_last_mark(word.as_str()) {
            return i + 1;
        }
        if !is_mark(word.as_str()) {
            return 0;
        }
    }
    0
}

/// Whether a line ends a block.
pub fn is_block_end(words: &[String]) -> bool
    ensures { result ≡ is_block_end (map string_bytes words.now) }
{
    match words {
        [word] => word.as_str() == "--",
        _ => false,
    }
}

/// Whether a line opens a block.
pub fn opens_block(words: &[String]) -> bool
    ensures { result ≡ opens_block (map string_bytes words.now) }
{
    let length = prefix_length(words);
    length != 0 && length == words.len()
}

/// Whether each word of a prefix speaks of a known name.
pub fn are_known(known: &Names, prefix: &[String]) -> bool
    ensures { result ≡ are_known (has known.now) (map string_bytes prefix.now) }
{
    prefix
        .iter()
        .all(|word| known.contains(mark_name(word.as_str())))
}

/// Whether each word can name a task or a tag.
pub fn are_names(words: &[String]) -> bool
    ensures { result ≡ list_all is_name (map string_bytes words.now) }
{
    words.iter().all(|word| is_name(word.as_str()))
}
