// The file of a job, as a start is given it.

ghost use Rattle.std.specs.Prelude.{◌≡◌, ℕ, List, OnErr, OnOk};

use crate::source::{Bytes, Source};
use crate::told::{Nothing, Told};
use std::alloc::{AllocError, Global};

/// What reads a file from its beginning to its end.
pub trait FileReader {
    /// What it is once it has read a file of these bytes.
    ghost has_read: { Self → List ℕ → Self → Type 0 };

    /// Reads all that the source gives.
    fn read<S: Source>(&mut self, source: &mut S)
        ensures { has_read self.old (S.rest source.old) self.new };
}

/// A job's file, which is made for each reader of it, and of which nothing is kept.
pub trait JobFile: Told {
    /// Makes the file, and lets it be read. Out of memory nothing was read.
    fn read_by<R: FileReader>(&self, alloc: Global, reader: &mut R) -> Result<(), AllocError>
        ensures read { OnOk result (R.has_read reader.old (Self.bytes self.now) reader.new) }
        ensures refused { OnErr result (reader.new ≡ reader.old) };
}

impl JobFile for Nothing {
    fn read_by<R: FileReader>(&self, _alloc: Global, reader: &mut R) -> Result<(), AllocError> {
        reader.read(&mut Bytes::new(b""));
        Ok(())
    }
}
