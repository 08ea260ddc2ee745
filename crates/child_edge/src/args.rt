// The arguments of a program.

use std::alloc::{AllocError, Global};
use std::env::{self, Env};
use std::io::ErrorKind;

/// The arguments after the program's name. Arguments that aren't all UTF-8 count as none.
pub fn arguments<R: Env + Alloc<A = Global>>(
    rt: &R,
    alloc: Global,
) -> Result<Vec<String>, AllocError> {
    let mut words = Vec::new(alloc);
    let args = match env::args(rt) {
        Ok(args) => args,
        Err(error) if error.kind() == ErrorKind::OutOfMemory => return Err(AllocError),
        Err(_) => return Ok(words),
    };
    for word in args.skip(1) {
        if words.push(word).is_err() {
            return Err(AllocError);
        }
    }
    Ok(words)
}
