//! What the definitions of rows mean: laws, each on a function that does nothing.

ghost use Rattle.std.specs.Prelude.{
  ◌≡◌,
  ◌≢◌,
  ℕ,
  suc,
  ◌+◌,
  ◌*◌,
  ◌^◌,
  ◌<◌,
  ◌≤◌,
  ◌&&◌,
  Bool,
  true,
  false,
  length,
  slice_index_or,
  ℤ,
  pos,
  ◌+ℤ◌,
  ◌-ℤ◌,
  ◌*ℤ◌,
  ◌≤ℤ◌,
  ◌<ℤ◌,
  unsigned_abs,
};
ghost use Rattle.std.specs.Int.{int_div_euclid, int_rem_euclid};
ghost use Rattle.sby_bits.specs.Rows.{Row, ext, fit, num, residue, snum, top_bit, value};
ghost use Rattle.sby_bits.specs.Words.{
  any_shift_row,
  bit_at,
  concat_row,
  left_shift_row,
  quotient,
  remainder,
  right_shift_row,
  slice_row,
};

/// The rows of a length are the numbers below two to that length: each row has such a number, no two have the same,
/// and `fit` gives back the row, or the row of the number modulo two to the length.
pub fn rows_are_numbers()
    ensures bound { (r : Row) → num r < 2 ^ length r }
    ensures one_row { (a b : Row) → length a ≡ length b → num a ≡ num b → a ≡ b }
    ensures row_again { (r : Row) → fit (length r) (pos (num r)) ≡ r }
    ensures signed_again { (r : Row) → fit (length r) (snum r) ≡ r }
    ensures fit_length { (y : ℕ) (z : ℤ) → length (fit y z) ≡ y }
    ensures fit_number { (y : ℕ) (z : ℤ) → num (fit y z) ≡ residue z (2 ^ y) }
    ensures modulo { (z : ℤ) (m : ℕ) → pos (residue z m) ≡ int_rem_euclid z (pos m) }
{}

/// In two's complement a row of a length from 1 on stands for a number from -2^(length - 1) to 2^(length - 1) - 1.
pub fn signed_range()
    ensures least { (r : Row) (y : ℕ) → length r ≡ suc y → (pos 0 -ℤ pos (2 ^ y)) ≤ℤ snum r }
    ensures most { (r : Row) (y : ℕ) → length r ≡ suc y → snum r <ℤ pos (2 ^ y) }
{}

/// A row at another length keeps its value where the value fits that length, and so at any greater length.
pub fn extension_keeps_value()
    ensures unsigned { (r : Row) (y : ℕ) → num r < 2 ^ y → num (ext r false y) ≡ num r }
    ensures signed { (r : Row) (y : ℕ) → (pos 0 -ℤ pos (2 ^ y)) ≤ℤ snum r → snum r <ℤ pos (2 ^ y)
        → snum (ext r true (suc y)) ≡ snum r }
    ensures longer { (r : Row) (signed : Bool) (y : ℕ) → length r ≤ y → value signed (ext r signed y) ≡ value signed r }
{}

/// Which bit stands at each place of a row that was extended, moved, joined or cut.
pub fn places_of_bits()
    ensures extended { (r : Row) (signed : Bool) (y i : ℕ) → i < y
        → slice_index_or (ext r signed y) i false ≡ slice_index_or r i (signed && top_bit r) }
    ensures left { (a by : Row) (y i : ℕ) → i < y
        → slice_index_or (left_shift_row a by y) i false ≡ bit_at a (pos i -ℤ pos (num by)) }
    ensures right { (a by : Row) (fill : Bool) (y i : ℕ) → i < y
        → slice_index_or (right_shift_row a by fill y) i false ≡ slice_index_or a (i + num by) fill }
    ensures any { (a by : Row) (by_signed : Bool) (y i : ℕ) → i < y
        → slice_index_or (any_shift_row a by by_signed y) i false ≡ bit_at a (pos i +ℤ value by_signed by) }
    ensures slice { (a : Row) (offset y i : ℕ) → i < y
        → slice_index_or (slice_row a offset y) i false ≡ slice_index_or a (i + offset) false }
    ensures concat_low { (a b : Row) (y i : ℕ) → i < y → i < length a
        → slice_index_or (concat_row a b y) i false ≡ slice_index_or a i false }
    ensures concat_high { (a b : Row) (y i : ℕ) → length a + i < y
        → slice_index_or (concat_row a b y) (length a + i) false ≡ slice_index_or b i false }
{}

/// A shift down that brings in zeros divides the number, and one that brings in the sign divides the number in two's
/// complement, both rounded down.
pub fn right_shift_divides()
    ensures zeros { (a by : Row) (y : ℕ)
        → right_shift_row a by false y ≡ fit y (int_div_euclid (pos (num a)) (pos (2 ^ num by))) }
    ensures sign { (a by : Row) (y : ℕ)
        → right_shift_row a by (top_bit a) y ≡ fit y (int_div_euclid (snum a) (pos (2 ^ num by))) }
{}

/// A number is its quotient times the divisor and the remainder, which is smaller than the divisor and never of the other sign
/// than the number.
pub fn quotient_and_remainder()
    ensures whole { (m n : ℤ) → quotient m n *ℤ n +ℤ remainder m n ≡ m }
    ensures small { (m n : ℤ) → n ≢ pos 0 → unsigned_abs (remainder m n) < unsigned_abs n }
    ensures not_negative { (m n : ℤ) → pos 0 ≤ℤ m → pos 0 ≤ℤ remainder m n }
    ensures not_positive { (m n : ℤ) → m ≤ℤ pos 0 → remainder m n ≤ℤ pos 0 }
{}
