// Choices between words, and parts of words.

ghost use Rattle.std.specs.Prelude.{◌≡◌, ◌+◌, ◌*◌, ◌/◌, ◌^◌, ◌≤◌, ◌++◌, All, length, take, drop, IfOk};
ghost use Rattle.cnf_form.specs.Cnf.{Assignment, LitWithin, lit_in};
ghost use Rattle.cell_table.specs.Cells.{bmux_fn, mux_fn, pmux_fn, slice_fn};
ghost use Rattle.gate_words.specs.Words.{Builds, IsFull, MeansRow, row_of};

use cnf_form::Lit;
use gate_graph::{GateFault, Gates};
use gate_rows::{BitOp, each};
use std::alloc::{AllocError, Global};

/// `$mux`: `b` where `select` is true, else `a`, which is as wide.
pub fn mux(
    alloc: Global,
    gates: &mut Gates,
    a: &[Lit],
    b: &[Lit],
    select: Lit,
) -> Result<Vec<Lit>, GateFault>
    requires a { All (LitWithin gates.old.formula.vars) a.now }
    requires b { All (LitWithin gates.old.formula.vars) b.now }
    requires select { LitWithin gates.old.formula.vars select }
    requires width { length a.now ≡ length b.now }
    ensures row { let row = λ (x : Assignment). mux_fn (row_of x a.now) (row_of x b.now) (lit_in x select) in
        IfOk result (λ word. MeansRow gates.new row word.items) }
    ensures builds { Builds gates.old gates.new (length a.now) }
    ensures too_many { result ≡ Err GateFault.TooMany → IsFull gates.old gates.new (length a.now) }
{
    let word = each(alloc, gates, &BitOp::Mux(select), a, b)?;
    Ok(word)
}

// Returns a copy of the literals.
pub(crate) fn copied(alloc: Global, a: &[Lit]) -> Result<Vec<Lit>, AllocError>
    ensures { IfOk result (λ word. word.items ≡ a.now) }
{
    let mut word = Vec::new(alloc);
    word.extend_from_slice(a)?;
    Ok(word)
}

// The slice of `b` from a place on where `select` is true, else the row.
fn chosen(
    alloc: Global,
    gates: &mut Gates,
    a: &[Lit],
    b: &[Lit],
    from: usize,
    select: Lit,
) -> Result<Vec<Lit>, GateFault>
    requires a { All (LitWithin gates.old.formula.vars) a.now }
    requires b { All (LitWithin gates.old.formula.vars) b.now }
    requires select { LitWithin gates.old.formula.vars select }
    requires inside { from + length a.now ≤ length b.now }
    ensures row { let row = λ (x : Assignment). mux_fn (row_of x a.now) (take (length a.now) (drop from (row_of x b.now))) (lit_in x select) in
        IfOk result (λ word. MeansRow gates.new row word.items) }
    ensures builds { Builds gates.old gates.new (length a.now) }
    ensures too_many { result ≡ Err GateFault.TooMany → IsFull gates.old gates.new (length a.now) }
{
    let part = &b[from..from + a.len()];
    let word = mux(alloc, gates, a, part, select)?;
    Ok(word)
}

/// `$pmux`: `a` where no select is true, else the slice of `b` that belongs to the lowest of those that are.
pub fn pmux(
    alloc: Global,
    gates: &mut Gates,
    a: &[Lit],
    b: &[Lit],
    s: &[Lit],
) -> Result<Vec<Lit>, GateFault>
    requires a { All (LitWithin gates.old.formula.vars) a.now }
    requires b { All (LitWithin gates.old.formula.vars) b.now }
    requires s { All (LitWithin gates.old.formula.vars) s.now }
    requires width { length b.now ≡ length a.now * length s.now }
    ensures row { let row = λ (x : Assignment). pmux_fn (length a.now) (row_of x a.now) (row_of x b.now) (row_of x s.now) in
        IfOk result (λ word. MeansRow gates.new row word.items) }
    ensures builds { Builds gates.old gates.new (length b.now) }
    ensures too_many { result ≡ Err GateFault.TooMany → IsFull gates.old gates.new (length b.now) }
{
    let mut word = copied(alloc, a)?;
    let mut from = b.len();
    for step in 0..s.len() {
        from -= a.len();
        let select = s[s.len() - 1 - step];
        word = chosen(alloc, gates, &word, b, from, select)?;
    }
    Ok(word)
}

// The upper half of a row where `select` is true, else the lower.
fn half(alloc: Global, gates: &mut Gates, a: &[Lit], select: Lit) -> Result<Vec<Lit>, GateFault>
    requires a { All (LitWithin gates.old.formula.vars) a.now }
    requires select { LitWithin gates.old.formula.vars select }
    requires even { length a.now ≡ 2 * (length a.now / 2) }
    ensures row { let row = λ (x : Assignment). mux_fn (take (length a.now / 2) (row_of x a.now)) (drop (length a.now / 2) (row_of x a.now)) (lit_in x select) in
        IfOk result (λ word. MeansRow gates.new row word.items) }
    ensures builds { Builds gates.old gates.new (length a.now / 2) }
    ensures too_many { result ≡ Err GateFault.TooMany → IsFull gates.old gates.new (length a.now / 2) }
{
    let (low, high) = a.split_at(a.len() / 2);
    let word = mux(alloc, gates, low, high, select)?;
    Ok(word)
}

/// `$bmux`: the slice of `a` whose number the selects are; its width is the whole quotient of the length of `a` and the number of slices.
pub fn bmux(alloc: Global, gates: &mut Gates, a: &[Lit], s: &[Lit]) -> Result<Vec<Lit>, GateFault>
    requires a { All (LitWithin gates.old.formula.vars) a.now }
    requires s { All (LitWithin gates.old.formula.vars) s.now }
    requires width { length a.now ≡ length a.now / 2 ^ length s.now * 2 ^ length s.now }
    ensures row { let row = λ (x : Assignment). bmux_fn (length a.now / 2 ^ length s.now) (row_of x a.now) (row_of x s.now) in
        IfOk result (λ word. MeansRow gates.new row word.items) }
    ensures builds { Builds gates.old gates.new (length a.now) }
    ensures too_many { result ≡ Err GateFault.TooMany → IsFull gates.old gates.new (length a.now) }
{
    let mut word = copied(alloc, a)?;
    for step in 0..s.len() {
        let upper = s[s.len() - 1 - step];
        word = half(alloc, gates, &word, upper)?;
    }
    Ok(word)
}

/// `$slice`: the `y` literals of `a` from the place `offset` on.
pub fn slice(alloc: Global, a: &[Lit], offset: u32, y: u32) -> Result<Vec<Lit>, AllocError>
    requires { offset + y ≤ length a.now }
    ensures literals { IfOk result (λ word. word.items ≡ take y (drop offset a.now)) }
    ensures row { IfOk result (λ word. (x : Assignment) → row_of x word.items ≡ slice_fn y offset (row_of x a.now)) }
{
    let word = copied(alloc, &a[offset as usize..offset as usize + y as usize])?;
    Ok(word)
}

/// `$concat`: `b` above `a`.
pub fn concat(alloc: Global, a: &[Lit], b: &[Lit]) -> Result<Vec<Lit>, AllocError>
    ensures literals { IfOk result (λ word. word.items ≡ a.now ++ b.now) }
    ensures row { IfOk result (λ word. (x : Assignment) → row_of x word.items ≡ row_of x a.now ++ row_of x b.now) }
{
    let mut word = copied(alloc, a)?;
    word.extend_from_slice(b)?;
    Ok(word)
}
