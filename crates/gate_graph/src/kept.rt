// The gates that were made, with their literals.

ghost use Rattle.std.specs.Prelude.{◌≡◌, ◌<◌, ◌≤◌, ◌+◌, ◌-◌, ◌^◌, ◌++◌, ◌∷◌, [], ℕ, List, Contains, IfNone, IfOk, IfSome, OnErr, OnOk, Some, length, replicate, slice_get, take};
ghost use Rattle.cnf_form.specs.Cnf.{LitOf};
ghost use Rattle.gate_graph.specs.Places.{AreLinked, HasPlaces, IsTable, mixed, number_of, place_of};

use crate::gate::Gate;
use cnf_form::Lit;
use std::alloc::{AllocError, Global};
use std::marker::Model;

// The places of a table at first, and at most. There are at most two entries for each place.
const FIRST_PLACES: usize = 16;

const MOST_PLACES: usize = 1 << 30;

// Gates with their literals, which are found by the gate.
#[derive(Drop)]
pub(crate) struct Kept {
    alloc: Global,
    entries: Vec<(Gate, Lit)>,
    // Entries are numbered from 1. For each place the number of its last entry, and for each entry that of the one before it at its
    // place; 0 where there is none.
    heads: Vec<u32>,
    links: Vec<u32>,
}

impl Model for Kept {
    ghost use Rattle.std.specs.Prelude.{List};
    ghost use Rattle.cnf_form.specs.Cnf.{LitOf};
    ghost use Rattle.gate_graph.specs.declared.gate.Gate.{Gate};
    ghost use Rattle.gate_graph.specs.Places.{IsTable};

    ghost Value = { List (Gate × LitOf) };

    ghost view = { λ t. t.entries.items };

    ghost invariant = { λ t. IsTable t.heads.items t.links.items t.entries.items };
}

// Mixes a literal into a number.
fn mixed(number: u64, l: Lit) -> u64
    ensures { result ≡ mixed number l }
{
    number
        .wrapping_add(l.index() as u64)
        .wrapping_mul(11_400_714_819_323_198_485)
}

fn number_of(gate: &Gate) -> u64
    ensures { result ≡ number_of gate.now }
{
    match *gate {
        Gate::And(a, b) => mixed(mixed(1, a), b),
        Gate::Xor(a, b) => mixed(mixed(2, a), b),
        Gate::Mux(s, a, b) => mixed(mixed(mixed(3, s), a), b),
        Gate::Maj(a, b, c) => mixed(mixed(mixed(4, a), b), c),
    }
}

// The place of a gate among this many: a share of its number's high half, without a division (Lemire, "Fast random integer generation
// in an interval", 2019).
fn place_of(places: usize, gate: &Gate) -> usize
    requires some { 1 ≤ places }
    requires few { places ≤ 2 ^ 30 }
    ensures place { result ≡ place_of places gate.now }
    ensures inside { result < places }
{
    let half = number_of(gate) >> 32;
    (half * places as u64 >> 32) as usize
}

fn zeros(alloc: Global, count: usize) -> Result<Vec<u32>, AllocError>
    ensures { IfOk result (λ zeros. zeros.items ≡ replicate count 0) }
{
    let mut zeros = Vec::new(alloc);
    zeros.resize(count, 0)?;
    Ok(zeros)
}

// Links the entry after the first `count`, which has this gate.
fn link(heads: &mut [u32], links: &mut [u32], count: usize, gate: &Gate)
    requires places { HasPlaces heads.old links.old (count + 1) }
    ensures places { HasPlaces heads.new links.new (count + 1) }
    ensures size { length heads.new ≡ length heads.old }
    ensures chains { length links.new ≡ length links.old }
    ensures linked { (entries : List (Gate × LitOf)) (l : LitOf) → slice_get entries count ≡ Some (gate.now, l) → AreLinked (place_of (length heads.old)) heads.old links.old entries count
        → AreLinked (place_of (length heads.old)) heads.new links.new entries (count + 1) }
{
    let place = place_of(heads.len(), gate);
    links[count] = heads[place];
    heads[place] = count as u32 + 1;
}

// Links all entries.
fn link_all(heads: &mut [u32], links: &mut [u32], entries: &[(Gate, Lit)])
    requires places { HasPlaces heads.old links.old (length entries.now) }
    requires empty { heads.old ≡ replicate (length heads.old) 0 }
    ensures chains { length links.new ≡ length links.old }
    ensures table { IsTable heads.new links.new entries.now }
{
    for (count, entry) in entries.iter().enumerate() {
        link(heads, links, count, &entry.0);
    }
}

impl Kept {
    // No gate.
    pub fn new(alloc: Global) -> Result<Kept, AllocError>
        ensures { IfOk result (λ kept. kept ≡ []) }
    {
        let heads = zeros(alloc, FIRST_PLACES)?;
        Ok(Kept {
            alloc,
            entries: Vec::new(alloc),
            heads,
            links: Vec::new(alloc),
        })
    }

    // The literal that is kept for a gate.
    pub fn get(&self, gate: &Gate) -> Option<Lit>
        ensures found { IfSome result (λ l. Contains self.now (gate.now, l)) }
        ensures missing { IfNone result ((l : LitOf) → Contains self.now (gate.now, l) → ⊥) }
    {
        let mut link = self.heads[place_of(self.heads.len(), gate)];
        'links: while link > 0 {
            let number = link as usize - 1;
            let (kept, l) = self.entries[number];
            if kept == *gate {
                return Some(l);
            }
            link = self.links[number];
        }
        None
    }

    // Twice the places, if there may be this many. The entries are linked again in the same lists, so that no second table is held.
    fn grow(&mut self) -> Result<(), AllocError>
        ensures same { self.new ≡ self.old }
    {
        let places = 2 * self.heads.len();
        if places > MOST_PLACES {
            return Ok(());
        }
        self.heads.resize(places, 0)?;
        self.heads.fill(0);
        link_all(&mut self.heads, &mut self.links, &self.entries);
        Ok(())
    }

    // Keeps a literal for a gate. If memory runs out, the gates are as they were.
    pub fn push(&mut self, gate: Gate, l: Lit) -> Result<(), AllocError>
        ensures ok { OnOk result (self.new ≡ self.old ++ (gate, l) ∷ []) }
        ensures err { OnErr result (self.new ≡ self.old) }
    {
        if self.entries.len() == 2 * self.heads.len() {
            self.grow()?;
        }
        let count = self.entries.len();
        if count >= 2 * self.heads.len() {
            return Err(AllocError);
        }
        self.links.push(0)?;
        self.entries.push((gate, l))?;
        link(&mut self.heads, &mut self.links, count, &gate);
        Ok(())
    }

    // The gates with their literals, in the order in which they were pushed.
    pub fn entries(&self) -> &[(Gate, Lit)]
        ensures { result.now ≡ self.now }
    {
        self.entries.as_slice()
    }

    // Returns the entries alone.
    pub fn into_entries(self) -> Vec<(Gate, Lit)>
        ensures { result.items ≡ self }
    {
        let Kept { entries, .. } = self;
        entries
    }
}
