// Links, files and bytes for the tests.

ghost use Rattle.std.specs.Prelude.{◌≡◌, [], IfOk};

use net_link::{LinkScript, MemLink};
use sby_edge::{Bytes, FileReader, JobFile, Pipe, Told};
use std::alloc::{AllocError, Global};

// A job's file of these bytes.
#[derive(Drop)]
pub(crate) struct GivenFile<'a> {
    pub bytes: &'a [u8],
}

impl<'a> Told for GivenFile<'a> {
    ghost bytes = { λ f. f.bytes.now };
}

impl<'a> JobFile for GivenFile<'a> {
    fn read_by<R: FileReader>(&self, _alloc: Global, reader: &mut R) -> Result<(), AllocError> {
        reader.read(&mut Bytes::new(self.bytes));
        Ok(())
    }
}

// A link whose other end sends these bytes, and that moves at most `most` of them in a call; one of its calls fails, if any.
pub(crate) fn link(
    alloc: Global,
    bytes: &[u8],
    most: usize,
    failing: Option<u64>,
) -> Result<MemLink, AllocError>
    ensures { IfOk result (λ link. link.written ≡ []) }
{
    MemLink::new(alloc, &script(alloc, bytes, most, failing)?)
}

pub(crate) fn script(
    alloc: Global,
    bytes: &[u8],
    most: usize,
    failing: Option<u64>,
) -> Result<LinkScript, AllocError> {
    let mut list = Vec::new(alloc);
    if let Some(call) = failing {
        list.push(call)?;
    }
    Ok(LinkScript {
        bytes: Vec::from_slice(alloc, bytes)?,
        room: 1 << 18,
        most,
        failing: list,
        failing_cuts: Vec::new(alloc),
    })
}

// The bytes one after the other.
pub(crate) fn joined(alloc: Global, parts: &[&[u8]]) -> Result<Vec<u8>, AllocError> {
    let mut bytes = Vec::new(alloc);
    for part in parts {
        bytes.extend_from_slice(part)?;
    }
    Ok(bytes)
}

// All that a pipe gives, by reads of at most `most` bytes.
pub(crate) fn all_of<P: Pipe>(
    alloc: Global,
    pipe: &mut P,
    room: usize,
) -> Result<Vec<u8>, AllocError> {
    let mut buffer = vec![in alloc; 0u8; room.max(1)]?;
    let mut bytes = Vec::new(alloc);
    for _ in 0..1_000_000u32 {
        match pipe.read(&mut buffer) {
            Ok(count) if count > 0 => bytes.extend_from_slice(&buffer[..count])?,
            _ => break,
        }
    }
    Ok(bytes)
}
