// The engine at work.

use pdr_run::run_pdr;
use sby_edge::{Files, MemFiles, MemSink};
use std::alloc::{AllocError, Global};
use std::test::Fail;

fn words(alloc: Global, text: &str) -> Result<Vec<String>, AllocError> {
    let mut words = Vec::new(alloc);
    for word in text.split(' ') {
        words.push(String::from_str(alloc, word)?)?;
    }
    Ok(words)
}

// The exit status, and what a sink took, for words and a file f.cnf.
pub fn run(alloc: Global, asked: &str, file: &str, sink: MemSink) -> Result<(u8, MemSink), Fail> {
    let words = words(alloc, asked)?;
    let mut files = MemFiles::new(alloc, Vec::new(alloc));
    if files.put(alloc, "f.cnf", file.as_bytes()).is_err() {
        return Err(Fail::from("no file"));
    }
    let mut sink = sink;
    let exit = run_pdr(alloc, &words, &mut files, &mut sink);
    Ok((exit, sink))
}

// An output that takes this many bytes.
pub fn output(alloc: Global, room: usize) -> Result<MemSink, AllocError> {
    MemSink::new(alloc, room, Vec::new(alloc))
}
