// Pairs by their files.

use pair_form::{Pair, Text};
use pair_reader::read_pair;
use std::alloc::{AllocError, Global};
use std::test::Fail;

// The pair of a file.
pub fn pair_of(alloc: Global, file: &str) -> Result<Pair, Fail> {
    match read_pair(alloc, file.as_bytes())? {
        Ok(pair) => Ok(pair),
        Err(_) => Err(Fail::from("no pair")),
    }
}

// The file of a pair.
pub fn file_of(alloc: Global, pair: &Pair) -> Result<Vec<u8>, AllocError> {
    let mut file = Vec::new(alloc);
    let mut text = Text::new(pair);
    let mut buffer = [0; 64];
    for _ in 0..u32::MAX {
        let count = text.next(&mut buffer);
        if count == 0 {
            break;
        }
        file.extend_from_slice(&buffer[..count])?;
    }
    Ok(file)
}
