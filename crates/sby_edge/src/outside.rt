// Files and output.

ghost use Rattle.std.specs.Prelude.{◌≡◌, ℕ, ◌<◌, ◌≤◌, ◌⊎◌, [], List, Option, IfOk, OnOk, OnErr, length, option_map};
ghost use Rattle.sby_edge.specs.declared.outside.Fail.TheVariants.{Memory as FailMemory};
ghost use Rattle.sby_edge.specs.Cause.{HasCause, HasPlainCause, Rose};
ghost use Rattle.sby_edge.specs.Files.{Blames, GotFits, GotFrom, PieceFrom, Store, put_at};
ghost use Rattle.sby_edge.specs.Sink.{EndsAt, Takes};

use crate::Source;
use std::alloc::{AllocError, AllocFailed, Global};

/// A call of the outside failed; the object's count of faults rose.
#[derive(Clone, Copy, Debug, PartialEq, Eq)]
pub struct Failed;

/// Out of memory.
#[derive(Clone, Copy, Debug, PartialEq, Eq)]
pub struct Memory;

/// Why a call that takes memory has no answer.
#[derive(Clone, Copy, Debug, PartialEq, Eq)]
pub enum Fail {
    Failed,
    Memory,
}

impl From<AllocError> for Fail {
    ghost from_gives = { λ _ e. e ≡ FailMemory };

    fn from(_: AllocError) -> Self {
        Fail::Memory
    }
}

impl<T: Drop> From<AllocFailed<T>> for Fail {
    ghost from_gives = { λ _ e. e ≡ FailMemory };

    fn from(_: AllocFailed<T>) -> Self {
        Fail::Memory
    }
}

impl From<Memory> for Fail {
    ghost from_gives = { λ _ e. e ≡ FailMemory };

    fn from(_: Memory) -> Self {
        Fail::Memory
    }
}

impl From<AllocError> for Memory {
    ghost from_gives = { λ _ _. Unit {0} };

    fn from(_: AllocError) -> Self {
        Memory
    }
}

impl<T: Drop> From<AllocFailed<T>> for Memory {
    ghost from_gives = { λ _ _. Unit {0} };

    fn from(_: AllocFailed<T>) -> Self {
        Memory
    }
}

/// The content of a file: all of it, or its first bytes where it is longer than was asked for.
#[derive(Drop, Debug)]
pub enum Got {
    All(Vec<u8>),
    Long(Vec<u8>),
}

/// A map from path to bytes.
pub trait Files {
    /// What each path has, where it is told.
    ghost told: { Self → Option Store };

    /// How often a call failed; it stays at the greatest u64.
    ghost faults: { Self → ℕ };

    /// The path at which a call last failed, where it is told.
    ghost blamed: { Self → Option (List ℕ) };

    /// All of the content, or its first `most + 1` bytes exactly where it is longer than `most`. A missing path is a fault.
    fn get(&mut self, alloc: Global, path: &str, most: u64) -> Result<Got, Fail>
        ensures content { IfOk result (λ got. GotFrom (told self.old) path.now most got) }
        ensures fits { IfOk result (λ got. GotFits most got) }
        ensures same { told self.new ≡ told self.old }
        ensures cause { HasCause (faults self.old) (faults self.new) result }
        ensures blames { Blames (blamed self.old) (blamed self.new) path.now result };

    /// The bytes of the content from place `from` on, at most `most` of them: fewer exactly where it ends before. A missing path is a
    /// fault.
    fn get_piece(
        &mut self,
        alloc: Global,
        path: &str,
        from: u64,
        most: usize,
    ) -> Result<Vec<u8>, Fail>
        ensures content { IfOk result (λ piece. PieceFrom (told self.old) path.now from most piece.items) }
        ensures fits { IfOk result (λ piece. length piece.items ≤ most) }
        ensures same { told self.new ≡ told self.old }
        ensures cause { HasCause (faults self.old) (faults self.new) result }
        ensures blames { Blames (blamed self.old) (blamed self.new) path.now result };

    /// Replaces the content of one path.
    fn put(&mut self, alloc: Global, path: &str, bytes: &[u8]) -> Result<(), Fail>
        ensures ok { OnOk result (told self.new ≡ option_map (put_at path.now bytes.now) (told self.old)) }
        ensures err { OnErr result (told self.new ≡ told self.old) }
        ensures cause { HasCause (faults self.old) (faults self.new) result }
        ensures blames { Blames (blamed self.old) (blamed self.new) path.now result };

    /// Replaces the content of one path by all that the source gives, which never stands in memory as a whole where the store is a
    /// real one. After a failure the old content stands, and the source may have given some of its bytes.
    fn put_from<S: Source>(&mut self, alloc: Global, path: &str, source: &mut S) -> Result<(), Fail>
        ensures ok { OnOk result (told self.new ≡ option_map (put_at path.now (S.rest source.old)) (told self.old)) }
        ensures spent { OnOk result (S.rest source.new ≡ []) }
        ensures err { OnErr result (told self.new ≡ told self.old) }
        ensures cause { HasCause (faults self.old) (faults self.new) result }
        ensures blames { Blames (blamed self.old) (blamed self.new) path.now result };
}

/// Output.
pub trait Sink {
    /// The bytes taken so far, where they are told.
    ghost taken: { Self → Option (List ℕ) };

    /// How often a call failed, or took nothing of a piece that isn't empty; it stays at the greatest u64.
    ghost faults: { Self → ℕ };

    /// How many bytes it had taken when a call last did so, where it is told.
    ghost ended: { Self → Option ℕ };

    /// Takes a prefix of the piece, and answers its length.
    fn write(&mut self, piece: &[u8]) -> Result<usize, Failed>
        ensures taken { Takes (taken self.old) (taken self.new) piece.now result }
        ensures fits { IfOk result (λ count. count ≤ length piece.now) }
        ensures some { IfOk result (λ count. count ≡ 0 → 0 < length piece.now → Rose (faults self.old) (faults self.new)) }
        ensures stands { IfOk result (λ count. (0 < count) ⊎ (length piece.now ≡ 0) → faults self.new ≡ faults self.old) }
        ensures cause { HasPlainCause (faults self.old) (faults self.new) result }
        ensures ends { EndsAt (ended self.old) (ended self.new) (taken self.new) piece.now result };
}
