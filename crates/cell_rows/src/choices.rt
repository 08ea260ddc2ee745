// Rows that are chosen, cut and joined.

ghost use Rattle.std.specs.Prelude.{◌≡◌, ◌+◌, ◌*◌, ◌^◌, ◌<◌, ◌≤◌, ◌++◌, length};
ghost use Rattle.sby_bits.specs.Rows.{num};
ghost use Rattle.cell_table.specs.Cells.{bmux_fn, mux_fn, pmux_fn, slice_fn, slice_number};

/// `$mux`: `b` where `select`, else `a`.
pub fn mux(a: &[bool], b: &[bool], select: bool, y: &mut [bool])
    requires a { length a.now ≡ length y.old }
    requires b { length b.now ≡ length y.old }
    ensures { y.new ≡ mux_fn a.now b.now select }
{
    y.copy_from_slice(if select { b } else { a });
}

// The slice of a word that a number counts, from the lowest.
fn slice_number(word: &[bool], width: usize, place: usize) -> &[bool]
    requires { width * place + width ≤ length word.now }
    ensures bits { result.now ≡ slice_number width word.now place }
    ensures width { length result.now ≡ width }
{
    &word[width * place..][..width]
}

/// `$pmux`: the slice of `b` of the lowest select bit that is set, or `a` where none is.
pub fn pmux(a: &[bool], b: &[bool], s: &[bool], y: &mut [bool])
    requires a { length a.now ≡ length y.old }
    requires b { length b.now ≡ length y.old * length s.now }
    ensures { y.new ≡ pmux_fn (length y.old) a.now b.now s.now }
{
    for (place, select) in s.iter().enumerate() {
        if *select {
            y.copy_from_slice(slice_number(b, y.len(), place));
            return;
        }
    }
    y.copy_from_slice(a);
}

// The number of a row of less than 64 bits.
fn number(s: &[bool]) -> usize
    requires { 2 ^ length s.now < 2 ^ 64 }
    ensures { result ≡ num s.now }
{
    let mut count = 0;
    let mut place = s.len();
    while place > 0 {
        place -= 1;
        count = 2 * count + if s[place] { 1 } else { 0 };
    }
    count
}

/// `$bmux`: the slice of `a` that the number of `s` counts.
pub fn bmux(a: &[bool], s: &[bool], y: &mut [bool])
    requires some { 1 ≤ length y.old }
    requires a { length a.now ≡ length y.old * 2 ^ length s.now }
    ensures { y.new ≡ bmux_fn (length y.old) a.now s.now }
{
    let place = number(s);
    y.copy_from_slice(slice_number(a, y.len(), place));
}

/// `$slice`: the bits of `a` from place `offset` on.
pub fn slice(a: &[bool], offset: usize, y: &mut [bool])
    requires { offset + length y.old ≤ length a.now }
    ensures { y.new ≡ slice_fn (length y.old) offset a.now }
{
    sby_bits::slice(a, offset, y);
}

/// `$concat`: `a`, and `b` above it.
pub fn concat(a: &[bool], b: &[bool], y: &mut [bool])
    requires { length y.old ≡ length a.now + length b.now }
    ensures { y.new ≡ a.now ++ b.now }
{
    sby_bits::concat(a, b, y);
}
