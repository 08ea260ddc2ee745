// The live clauses by their ids, which rise from each line to the next.

ghost use Rattle.std.specs.Prelude.{◌≡◌, ℕ, ◌<◌, ◌≤◌, ◌++◌, ◌∷◌, [], Some, None, is_some, IfOk, IfSome, IfNone, OnOk, OnErr, Contains, length, filter, slice_index_or};
ghost use Rattle.std.specs.Option.{MatchOption};
ghost use Rattle.clause_source.specs.Given.{lits_of};
ghost use Rattle.lrat_check.specs.Hints.{numbered, put};
ghost use Rattle.lrat_check.specs.Table.{Entry, IsPlaceOf, IsUpto, held};

use clause_source::{ClauseSource, Given};
use cnf_form::Lit;
use std::alloc::{AllocError, Global};
use std::marker::Model;

// The memory of deleted clauses is kept while they are no more than this, or than the live ones.
const FEW: usize = 1024;

// Where the literals of a clause lie.
#[derive(Clone, Copy)]
struct Span {
    start: u32,
    end: u32,
}

// An id, and where its clause lies until that is deleted.
#[derive(Clone, Copy)]
struct Slot {
    id: u64,
    span: Option<Span>,
}

// The literals of all clauses stand in one list. No hashing: whoever writes a proof chooses the ids. An id is looked for where it
// stands if no id is left out, and else by binary search.
#[derive(Drop)]
pub(crate) struct Table {
    alloc: Global,
    lits: Vec<Lit>,
    slots: Vec<Slot>,
    // The literals of the clauses that were deleted, and their number.
    dead: usize,
}

impl Model for Table {
    ghost use Rattle.std.specs.Prelude.{List};
    ghost use Rattle.lrat_check.specs.Table.{Entry};
    ghost use Rattle.lrat_check.specs.Arena.{entries_of, IsArena};

    ghost Value = { List Entry };

    ghost view = { λ t. entries_of t.lits.items t.slots.items };

    ghost invariant = { λ t. IsArena t.lits.items t.slots.items };
}

impl Table {
    pub(crate) fn new(alloc: Global) -> Self
        ensures { result ≡ [] }
    {
        Table {
            alloc,
            lits: Vec::new(alloc),
            slots: Vec::new(alloc),
            dead: 0,
        }
    }

    // The place of an id, by binary search.
    fn search(&self, id: u64) -> Option<usize>
        ensures some { IfSome result (IsPlaceOf self.now id) }
        ensures none { IfNone result (held self.now id ≡ None) }
    {
        match self.slots.binary_search_by_key(&id, |s| s.id) {
            Ok(place) => Some(place),
            Err(_) => None,
        }
    }

    // The place of an id.
    fn place(&self, id: u64) -> Option<usize>
        ensures some { IfSome result (IsPlaceOf self.now id) }
        ensures none { IfNone result (held self.now id ≡ None) }
    {
        if self.slots.is_empty() {
            return None;
        }
        let guess = id.saturating_sub(self.slots[0].id);
        if guess < self.slots.len() as u64 && self.slots[guess as usize].id == id {
            return Some(guess as usize);
        }
        self.search(id)
    }

    // The clause at a place.
    fn clause(&self, place: usize) -> Option<&[Lit]>
        requires { place < length self.now }
        ensures { MatchOption result ((d : Entry) → (slice_index_or self.now place d).clause ≡ None)
            (λ c. (d : Entry) → (slice_index_or self.now place d).clause ≡ Some c.now) }
    {
        match self.slots[place].span {
            Some(Span { start, end }) => Some(&self.lits[start as usize..end as usize]),
            None => None,
        }
    }

    // The clause that an id has.
    pub(crate) fn get(&self, id: u64) -> Option<&[Lit]>
        ensures { MatchOption result (held self.now id ≡ None) (λ c. held self.now id ≡ Some c.now) }
    {
        match self.place(id) {
            Some(place) => self.clause(place),
            None => None,
        }
    }

    // Adds a clause under an id above all others.
    pub(crate) fn push(&mut self, id: u64, clause: &[Lit]) -> Result<(), AllocError>
        requires { (e : Entry) → Contains self.old e → e.id < id }
        ensures entries { OnOk result (self.new ≡ self.old ++ (record { id = id; clause = Some clause.now }) ∷ []) }
        ensures held { OnOk result ((n : ℕ) → held self.new n ≡ put (held self.old) id (Some clause.now) n) }
        ensures ids { OnOk result (IsUpto self.new id) }
        ensures err { OnErr result (self.new ≡ self.old) }
    {
        let start = self.lits.len();
        let end = start.saturating_add(clause.len());
        if end > u32::MAX as usize {
            return Err(AllocError);
        }
        self.lits.extend_from_slice(clause)?;
        let span = Span {
            start: start as u32,
            end: end as u32,
        };
        let slot = Slot {
            id,
            span: Some(span),
        };
        if self.slots.push(slot).is_err() {
            self.lits.truncate(start);
            return Err(AllocError);
        }
        Ok(())
    }

    // The live clauses alone.
    fn live(&self) -> Result<Table, AllocError>
        ensures { IfOk result (λ t. t ≡ filter (λ e. is_some e.clause) self.now) }
    {
        let mut live = Table::new(self.alloc);
        for place in 0..self.slots.len() {
            if let Some(clause) = self.clause(place) {
                live.push(self.slots[place].id, clause)?;
            }
        }
        Ok(live)
    }

    // Gives back the memory of deleted clauses where most of it is theirs, if there is memory for that; else it is tried again after
    // as many more deletions.
    fn collect(&mut self)
        ensures held { (n : ℕ) → held self.new n ≡ held self.old n }
        ensures ids { (last : ℕ) → IsUpto self.old last → IsUpto self.new last }
    {
        let all = self.lits.len().saturating_add(self.slots.len());
        if self.dead <= FEW || self.dead <= all / 2 {
            return;
        }
        self.dead = 0;
        if let Ok(live) = self.live() {
            *self = live;
        }
    }

    // Deletes the clause of an id, if it has one.
    pub(crate) fn remove(&mut self, id: u64)
        ensures held { (n : ℕ) → held self.new n ≡ put (held self.old) id None n }
        ensures ids { (last : ℕ) → IsUpto self.old last → IsUpto self.new last }
    {
        let Some(place) = self.place(id) else {
            return;
        };
        let size = self.clause(place).map_or(0, |clause| clause.len());
        self.slots[place].span = None;
        self.dead = self.dead.saturating_add(size).saturating_add(1);
        self.collect();
    }
}

// Adds the clause that a source gives under an id above all others.
fn push_given(table: &mut Table, id: u64, given: Given<'_>) -> Result<(), AllocError>
    requires { (e : Entry) → Contains table.old e → e.id < id }
    ensures held { OnOk result ((n : ℕ) → held table.new n ≡ put (held table.old) id (Some (lits_of given.entry)) n) }
    ensures ids { OnOk result (IsUpto table.new id) }
{
    match given {
        Given::One(a) => table.push(id, &[a]),
        Given::Two(a, b) => table.push(id, &[a, b]),
        Given::Three(a, b, c) => table.push(id, &[a, b, c]),
        Given::All(clause) => table.push(id, clause),
    }
}

// The clauses of a source's formula, with the ids from 1.
pub(crate) fn numbered_clauses<S: ClauseSource>(
    alloc: Global,
    source: &S,
    count: usize,
) -> Result<Table, AllocError>
    requires { count ≡ length (S.formula source.now).clauses }
    ensures numbered { IfOk result (λ t. (n : ℕ) → held t n ≡ numbered (S.formula source.now).clauses n) }
    ensures upto { IfOk result (λ t. IsUpto t (length (S.formula source.now).clauses)) }
{
    let mut table = Table::new(alloc);
    let mut place = source.first();
    for number in 0..count {
        push_given(&mut table, number as u64 + 1, source.next(&mut place))?;
    }
    Ok(table)
}
