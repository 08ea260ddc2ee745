// Texts of scenes.

use std::alloc::{AllocError, Global};

/// A name in angle brackets, and the text that it stands for.
pub type Named = (&'static str, &'static str);

fn named(names: &[Named], piece: &str) -> Option<&'static str> {
    for (name, text) in names {
        if *name == piece {
            return Some(*text);
        }
    }
    None
}

/// Adds the text of a source, whose bars stand for line feeds. A name between bars stands for its text, without a line feed after it.
pub fn push_text(bytes: &mut Vec<u8>, names: &[Named], source: &str) -> Result<(), AllocError> {
    let mut is_open = false;
    for piece in source.split('|') {
        if is_open {
            bytes.push(b'\n')?;
        }
        let text = named(names, piece);
        is_open = text.is_none();
        bytes.extend_from_slice(text.unwrap_or(piece).as_bytes())?;
    }
    Ok(())
}

/// The text of a source.
pub fn text_of(alloc: Global, names: &[Named], source: &str) -> Result<Vec<u8>, AllocError> {
    let mut bytes = Vec::new(alloc);
    push_text(&mut bytes, names, source)?;
    Ok(bytes)
}

/// The parts of a text after each other.
pub fn joined(alloc: Global, parts: &[&str]) -> Result<Vec<u8>, AllocError> {
    let mut bytes = Vec::new(alloc);
    for part in parts {
        bytes.extend_from_slice(part.as_bytes())?;
    }
    Ok(bytes)
}

/// The words of a line, between single spaces; of an empty line none.
pub fn owned(alloc: Global, line: &str) -> Result<Vec<String>, AllocError> {
    let mut words = Vec::new(alloc);
    if line.is_empty() {
        return Ok(words);
    }
    for word in line.split(' ') {
        words.push(String::from_str(alloc, word)?)?;
    }
    Ok(words)
}
