//! A run that is kept in few bytes.

ghost use Rattle.std.specs.Prelude.{◌≡◌, ◌+◌, ◌*◌, ◌<◌, ◌≤◌, ℕ, All, OnOk, length, slice_index, slice_index_or, false, []};
ghost use Rattle.sby_bits.specs.Rows.{Row, num};
ghost use Rattle.model_play.specs.Packed.{packed_bit, packed_rows, words_of};

use std::alloc::AllocError;
use std::marker::Model;

/// A run of a model as a row for each cycle, with a bit for each place; eight places take one byte.
#[derive(Drop)]
pub struct Kept {
    words: Vec<u64>,
    width: u32,
    cycles: usize,
}

impl Model for Kept {
    ghost use Rattle.std.specs.Prelude.{◌≡◌, ◌*◌, List, length};
    ghost use Rattle.sby_bits.specs.Rows.{Row};
    ghost use Rattle.model_play.specs.Packed.{packed_rows, words_of};

    ghost Value = { List Row };

    ghost view = { λ a. packed_rows a.words.items a.width a.cycles };

    ghost invariant = { λ a. length a.words.items ≡ a.cycles * words_of a.width };
}

impl Kept {
    // The run of the rows that were packed.
    pub(crate) fn of_words(words: Vec<u64>, width: u32, cycles: usize) -> Kept
        requires { length words.items ≡ cycles * words_of width }
        ensures { result ≡ packed_rows words.items width cycles }
    {
        Kept {
            words,
            width,
            cycles,
        }
    }

    /// How many cycles there are.
    pub fn cycles(&self) -> usize
        ensures { result ≡ length self.now }
    {
        self.cycles
    }

    /// What a place has in a cycle, both counted from 0.
    pub fn get(&self, cycle: usize, place: u32) -> bool
        requires cycle { cycle < length self.now }
        requires place { place < length (slice_index_or self.now cycle []) }
        ensures { result ≡ slice_index_or (slice_index_or self.now cycle []) place false }
    {
        let first = cycle * words_of(self.width);
        let place = place as usize;
        (self.words[first + place / 64] >> (place % 64)) % 2 == 1
    }
}

// How many words a row takes.
fn words_of(width: u32) -> usize
    ensures { result ≡ words_of width }
{
    (width as usize).div_ceil(64)
}

// The number of at most 64 bits.
fn pack(bits: &[bool]) -> u64
    requires { length bits.now ≤ 64 }
    ensures { result ≡ num bits.now }
{
    let mut word = 0;
    for (i, bit) in bits.iter().enumerate() {
        if *bit {
            word += 1u64 << i;
        }
    }
    word
}

// Packs a row after the others.
pub(crate) fn add_row(words: &mut Vec<u64>, row: &[bool]) -> Result<(), AllocError>
    ensures size { OnOk result (length words.new.items ≡ length words.old.items + words_of (length row.now)) }
    ensures row { OnOk result ((p : ℕ) → p < length row.now → packed_bit words.new.items (length words.old.items) p ≡ slice_index_or row.now p false) }
    ensures before { OnOk result ((k : ℕ) → k < length words.old.items → slice_index words.new.items k ≡ slice_index words.old.items k) }
{
    let count = row.len().div_ceil(64);
    for k in 0..count {
        let start = 64 * k;
        let end = row.len().min(start + 64);
        words.push(pack(&row[start..end]))?;
    }
    Ok(())
}
