// The values of options.

ghost use Rattle.std.specs.Prelude.{◌≡◌, ◌<◌, ◌≤◌, ◌+◌, ◌∷◌, Some, IfOk, IfSome, List, length, map, string_bytes};
ghost use Rattle.sby_task.specs.Values.{number_of, count_of, word_count, word_by, by_of, mode_by, word_mode, mode_of, word_switch, switch_of, status_of, piece_status, pieces_of, statuses_from, statuses_of, words_text, later_pieces, pieces_left};

use crate::draft::By;
use memchr::memchr;
use sby_file::words;
use sby_terms::{Expect, Mode, Status, Words, number_upto};
use std::alloc::{AllocError, Global};

/// A value of one word that is a number from 1 to `most`.
pub fn number_of(most: u32, value: &[String]) -> Option<u32>
    ensures { result ≡ number_of most (map string_bytes value.now) }
{
    match value {
        [word] => number_upto(most, word.as_bytes()),
        _ => None,
    }
}

fn word_count(most: u32, word: &str) -> Option<u32>
    ensures { result ≡ word_count most word.now }
{
    if word == "0" {
        Some(0)
    } else {
        number_upto(most, word.as_bytes())
    }
}

/// A value of one word that is a number from 0 to `most`.
pub fn count_of(most: u32, value: &[String]) -> Option<u32>
    ensures { result ≡ count_of most (map string_bytes value.now) }
{
    match value {
        [word] => word_count(most, word.as_str()),
        _ => None,
    }
}

fn word_mode(word: &str) -> Option<Mode>
    ensures { result ≡ word_mode word.now }
{
    match word {
        "bmc" => Some(Mode::Bmc),
        "prove" => Some(Mode::Prove),
        "cover" => Some(Mode::Cover),
        _ => None,
    }
}

pub fn mode_of(value: &[String]) -> Option<Mode>
    ensures { result ≡ mode_of (map string_bytes value.now) }
{
    match value {
        [word] => word_mode(word.as_str()),
        _ => None,
    }
}

fn word_by(word: &str) -> Option<By>
    ensures { result ≡ word_by word.now }
{
    match word {
        "induction" => Some(By::Induction),
        "invariant" => Some(By::Invariant),
        _ => None,
    }
}

pub fn by_of(value: &[String]) -> Option<By>
    ensures { result ≡ by_of (map string_bytes value.now) }
{
    match value {
        [word] => word_by(word.as_str()),
        _ => None,
    }
}

/// The mode, by how it is proved that nothing breaks.
pub fn mode_by(mode: Mode, by: Option<By>) -> Mode
    ensures { result ≡ mode_by mode by }
{
    match (mode, by) {
        (Mode::Prove, Some(By::Invariant)) => Mode::ProveInv,
        (mode, _) => mode,
    }
}

fn word_switch(word: &str) -> Option<bool>
    ensures { result ≡ word_switch word.now }
{
    match word {
        "on" => Some(true),
        "off" => Some(false),
        _ => None,
    }
}

pub fn switch_of(value: &[String]) -> Option<bool>
    ensures { result ≡ switch_of (map string_bytes value.now) }
{
    match value {
        [word] => word_switch(word.as_str()),
        _ => None,
    }
}

fn status_of(word: &str) -> Option<Status>
    ensures { result ≡ status_of word.now }
{
    if word.eq_ignore_ascii_case("pass") {
        Some(Status::Pass)
    } else if word.eq_ignore_ascii_case("fail") {
        Some(Status::Fail)
    } else if word.eq_ignore_ascii_case("unknown") {
        Some(Status::Unknown)
    } else if word.eq_ignore_ascii_case("error") {
        Some(Status::Error)
    } else if word.eq_ignore_ascii_case("timeout") {
        Some(Status::Timeout)
    } else {
        None
    }
}

// The status that a piece between commas names.
fn piece_status(alloc: Global, piece: &str) -> Result<Option<Status>, AllocError>
    ensures { IfOk result (λ status. status ≡ piece_status piece.now) }
{
    let words = words(alloc, piece)?;
    match words.as_slice() {
        [word] => Ok(status_of(word.as_str())),
        _ => Ok(None),
    }
}

// The piece before the first comma, and what is after it.
fn first_piece(text: &str) -> (&str, Option<&str>)
    ensures pieces { pieces_of text.now ≡ result.0.now ∷ later_pieces result.1 }
    ensures less { pieces_left result.1 < 1 + length text.now }
{
    match memchr(b',', text.as_bytes()) {
        Some(end) => (&text[..end], Some(&text[end + 1..])),
        None => (text, None),
    }
}

// The words with a space after each.
fn words_text(alloc: Global, words: &[String]) -> Result<String, AllocError>
    ensures { IfOk result (λ text. string_bytes text ≡ words_text (map string_bytes words.now)) }
{
    let mut text = String::new(alloc);
    for word in words {
        text.push_str(word.as_str())?;
        text.push(' ')?;
    }
    Ok(text)
}

/// The statuses of a list with commas.
pub fn statuses_of(alloc: Global, value: &[String]) -> Result<Option<Expect>, AllocError>
    ensures { IfOk result (λ statuses. statuses ≡ statuses_of (map string_bytes value.now)) }
{
    let text = words_text(alloc, value)?;
    let mut statuses = Vec::new(alloc);
    let mut rest = Some(text.as_str());
    'pieces: while let Some(pieces) = rest {
        let (piece, later) = first_piece(pieces);
        let Some(status) = piece_status(alloc, piece)? else {
            return Ok(None);
        };
        statuses.push(status)?;
        rest = later;
    }
    Ok(Some(Expect::new(statuses)))
}
