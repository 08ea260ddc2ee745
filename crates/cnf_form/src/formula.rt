// A formula, whose literals all lie in one list.

ghost use Rattle.std.specs.Prelude.{◌≡◌, ◌↔◌, ℕ, ◌+◌, ◌<◌, ◌≤◌, List, [], ◌∷◌, ◌++◌, length, remove, IsTrue, OnOk, OnErr, IfOk, IfSome, slice_get, Some, Contains};
ghost use Rattle.cnf_form.specs.Cnf.{LitOf, FormulaOf, ClauseWithin, Within};
ghost use Rattle.cnf_form.specs.declared.literal.TheConstants.{MAX_VARS};

use crate::literal::{Lit, MAX_VARS};
use std::alloc::{AllocError, Global};
use std::marker::Model;

// Where the literals of a clause lie. More literals than a place can count are answered as out of memory.
#[derive(Clone, Copy)]
struct Span {
    start: u32,
    end: u32,
}

// The place of a clause that is added after the others, if its end can be counted.
fn span_after(lits: &[Lit], clause: &[Lit]) -> Option<Span>
    ensures { IfSome result (λ s. (s.start ≡ length lits.now) × (s.end ≡ length lits.now + length clause.now)) }
{
    let start = u32::try_from(lits.len()).ok()?;
    let count = u32::try_from(clause.len()).ok()?;
    let end = start.checked_add(count)?;
    Some(Span { start, end })
}

/// A formula in conjunctive normal form: clauses over the variables from 1 to `vars`, each a set of literals, perhaps
/// empty.
#[derive(Drop)]
pub struct Formula {
    vars: u32,
    lits: Vec<Lit>,
    spans: Vec<Span>,
}

impl Model for Formula {
    ghost use Rattle.cnf_form.specs.Cnf.{FormulaOf};
    ghost use Rattle.cnf_form.specs.Arena.{clauses_at, IsArena};

    ghost Value = { FormulaOf };

    ghost view = { λ f. record { vars = f.vars; clauses = clauses_at f.lits.items f.spans.items } };

    ghost invariant = { λ f. IsArena f.vars f.lits.items f.spans.items };
}

/// The clauses of a formula, each at its place from 0.
#[derive(Drop)]
pub struct Clauses<'a> {
    lits: &'a [Lit],
    spans: &'a [Span],
}

impl<'a> Model for Clauses<'a> {
    ghost use Rattle.std.specs.Prelude.{List};
    ghost use Rattle.cnf_form.specs.Cnf.{LitOf};
    ghost use Rattle.cnf_form.specs.Arena.{clauses_at, AreSpans};

    ghost Value = { List (List LitOf) };

    ghost view = { λ c. clauses_at c.lits.now c.spans.now };

    ghost invariant = { λ c. AreSpans c.lits.now c.spans.now };
}

impl Formula {
    /// A formula that has no clause yet, over the variables from 1 to `vars`, at most `MAX_VARS`.
    pub fn new(alloc: Global, vars: u32) -> Self
        requires { vars ≤ MAX_VARS }
        ensures { result ≡ record { vars = vars; clauses = [] } }
    {
        Formula {
            vars,
            lits: Vec::new(alloc),
            spans: Vec::new(alloc),
        }
    }

    /// A copy of the formula.
    pub fn copy(&self, alloc: Global) -> Result<Self, AllocError>
        ensures { IfOk result (λ copy. copy ≡ self.now) }
    {
        let lits = Vec::from_slice(alloc, self.lits.as_slice())?;
        let spans = Vec::from_slice(alloc, self.spans.as_slice())?;
        Ok(Formula {
            vars: self.vars,
            lits,
            spans,
        })
    }

    /// The number of variables, which are numbered from 1.
    pub fn vars(&self) -> u32
        ensures vars { result ≡ self.now.vars }
        ensures limit { self.now.vars ≤ MAX_VARS }
    {
        self.vars
    }

    /// The same clauses over the variables from 1 to `vars`, at most `MAX_VARS`.
    pub fn with_vars(self, vars: u32) -> Self
        requires limit { vars ≤ MAX_VARS }
        requires within { Within vars self.clauses }
        ensures { result ≡ record self { vars = vars } }
    {
        let Formula { lits, spans, .. } = self;
        Formula { vars, lits, spans }
    }

    /// Its clauses, in the order in which they were pushed.
    pub fn clauses(&self) -> Clauses<'_>
        ensures clauses { result ≡ self.now.clauses }
        ensures within { Within self.now.vars self.now.clauses }
    {
        Clauses {
            lits: self.lits.as_slice(),
            spans: self.spans.as_slice(),
        }
    }

    /// Puts a clause after the others. If memory runs out, the formula is as it was.
    pub fn push(&mut self, clause: &[Lit]) -> Result<(), AllocError>
        requires { ClauseWithin self.old.vars clause.now }
        ensures ok { OnOk result (self.new ≡ record self.old { clauses = self.old.clauses ++ clause.now ∷ [] }) }
        ensures err { OnErr result (self.new ≡ self.old) }
    {
        let Some(span) = span_after(&self.lits, clause) else {
            return Err(AllocError);
        };
        self.lits.extend_from_slice(clause)?;
        self.spans.push(span)?;
        Ok(())
    }

    /// Takes the clause at a place out. The later ones move down.
    pub fn remove(&mut self, place: usize)
        requires { place < length self.old.clauses }
        ensures { self.new ≡ record self.old { clauses = remove self.old.clauses place } }
    {
        let _ = self.spans.remove(place);
    }
}

impl<'a> Clauses<'a> {
    /// The number of clauses.
    pub fn len(&self) -> usize
        ensures { result ≡ length self.now }
    {
        self.spans.len()
    }

    /// Whether there is none.
    pub fn is_empty(&self) -> bool
        ensures { IsTrue result ↔ (self.now ≡ []) }
    {
        self.spans.is_empty()
    }

    /// The literals of the clause at a place.
    pub fn get(&self, place: usize) -> &'a [Lit]
        requires { place < length self.now }
        ensures clause { slice_get self.now place ≡ Some result.now }
        ensures within { Contains self.now result.now }
    {
        let spans = self.spans;
        let span = spans[place];
        &self.lits[span.start as usize..span.end as usize]
    }
}
