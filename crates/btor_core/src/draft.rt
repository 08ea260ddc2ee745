//! A model while it is made: lines are numbered, and sorts are shared.

ghost use Rattle.std.specs.Prelude.{◌≡◌, ◌↔◌, ◌⊎◌, ◌<◌, ◌≤◌, ◌+◌, ◌-◌, ◌^◌, suc, [], Err, length, IfOk, IsTrue, OnErr, OnOk};
ghost use Rattle.btor_core.specs.declared.draft.DraftFault.TheVariants.{Full, Memory};
ghost use Rattle.btor_core.specs.declared.line.Body.TheVariants.{Bad, Constraint, Init, Next, Sort};
ghost use Rattle.btor_core.specs.Growth.{Grows, IsNumbered, KeepsLists, Pushed, PushedBits, sort_nid, with_bits, with_body, with_constant, with_sort, with_value};
ghost use Rattle.btor_core.specs.Shape.{sort_at, sort_width, width_at};
ghost use Rattle.btor_core.specs.Fits.{BodyFits, IsBtor, IsWidth, MayGoOn, MayStart, NodeFits};

use crate::line::{Body, Line, Node, Word};
use crate::model::BtorModel;
use std::alloc::{AllocError, Global};
use std::marker::Model;

/// Why a call added nothing that counts.
#[derive(Clone, Copy, Debug, PartialEq, Eq)]
pub enum DraftFault {
    /// There would be 2^32 - 1 lines, or a constant past 2^32 bits of constants. The model is as it was.
    Full,
    /// Memory ran out. The model may have a sort's line more, of which no other line speaks.
    Memory,
}

impl From<AllocError> for DraftFault {
    ghost use Rattle.std.specs.Prelude.{◌≡◌};
    ghost use Rattle.btor_core.specs.declared.draft.DraftFault.TheVariants.{Memory};

    ghost from_gives = { λ _ e. e ≡ Memory };

    fn from(_: AllocError) -> Self {
        DraftFault::Memory
    }
}

/// A model whose lines are numbered from 1 without a gap. The line of a sort is added where it is first needed.
#[derive(Drop)]
pub struct Draft {
    model: BtorModel,
    // For each width the nid of its sort, or 0.
    sorts: Vec<u32>,
}

impl Model for Draft {
    ghost use Rattle.btor_core.specs.Shape.{BtorOf};
    ghost use Rattle.btor_core.specs.Kept.{IsKept};

    ghost Value = { BtorOf };

    ghost view = { λ d. d.model };

    ghost invariant = { λ d. IsKept d.model d.sorts.items };
}

impl Draft {
    /// A model without lines.
    pub fn new(alloc: Global) -> Result<Draft, AllocError>
        ensures { IfOk result (λ d. d ≡ record { lines = []; constants = [] }) }
    {
        let sorts = vec![in alloc; 0u32; 4097]?;
        Ok(Draft {
            model: BtorModel::new(alloc),
            sorts,
        })
    }

    /// The model so far.
    pub fn model(&self) -> &BtorModel
        ensures { result.now ≡ self.now }
    {
        &self.model
    }

    /// The model that was made.
    pub fn finish(self) -> BtorModel
        ensures { result ≡ self }
    {
        let Draft { model, .. } = self;
        model
    }

    /// What holds of all drafts.
    pub fn promise(&self)
        ensures btor { IsBtor self.now }
        ensures numbered { IsNumbered self.now.lines }
        ensures limit { length self.now.lines < 2 ^ 32 - 1 }
    {
        self.model.promise();
    }

    // Whether this many more lines have numbers.
    fn has_room(&self, lines: usize) -> bool
        requires { lines ≤ 2 }
        ensures { IsTrue result ↔ (length self.now.lines + lines < 2 ^ 32 - 1) }
    {
        self.model.lines().len() + lines < u32::MAX as usize
    }

    // The nid of the sort of this width, 0 where there is none.
    fn known_sort(&self, width: u32) -> u32
        requires { IsWidth width }
        ensures { result ≡ sort_nid self.now.lines width }
    {
        self.sorts[width as usize]
    }

    // Adds a line with the next number, which is no sort.
    fn push_body(&mut self, body: Body) -> Result<u32, AllocError>
        requires room { length self.old.lines + 1 < 2 ^ 32 - 1 }
        requires fits { BodyFits self.old.constants self.old.lines body }
        requires plain { sort_width body ≡ 0 }
        ensures ok { OnOk result (self.new ≡ with_body self.old body) }
        ensures nid { IfOk result (λ nid. nid ≡ suc (length self.old.lines)) }
        ensures err { OnErr result (self.new ≡ self.old) }
    {
        let nid = self.model.lines().len() as u32 + 1;
        self.model.push(Line { nid, body })?;
        Ok(nid)
    }

    // Adds the sort of this width, which isn't there.
    fn push_sort(&mut self, width: u32) -> Result<u32, AllocError>
        requires room { length self.old.lines + 1 < 2 ^ 32 - 1 }
        requires width { IsWidth width }
        requires new { sort_nid self.old.lines width ≡ 0 }
        ensures ok { OnOk result (self.new ≡ with_body self.old (Sort width)) }
        ensures nid { IfOk result (λ nid. nid ≡ sort_nid self.new.lines width) }
        ensures err { OnErr result (self.new ≡ self.old) }
    {
        let nid = self.model.lines().len() as u32 + 1;
        let body = Body::Sort(width);
        self.model.push(Line { nid, body })?;
        self.sorts[width as usize] = nid;
        Ok(nid)
    }

    // The nid of the sort of this width, which is added where there is none.
    fn sort(&mut self, width: u32) -> Result<u32, AllocError>
        requires room { length (with_sort self.old width).lines < 2 ^ 32 - 1 }
        requires width { IsWidth width }
        ensures ok { OnOk result (self.new ≡ with_sort self.old width) }
        ensures nid { IfOk result (λ nid. nid ≡ sort_nid self.new.lines width) }
        ensures err { OnErr result (self.new ≡ self.old) }
    {
        let known = self.known_sort(width);
        if known > 0 {
            return Ok(known);
        }
        self.push_sort(width)
    }

    // Whether a value of this width has a number, and its sort, if that isn't there.
    fn has_room_for(&self, width: u32) -> bool
        requires { IsWidth width }
        ensures { IsTrue result ↔ (suc (length (with_sort self.now width).lines) < 2 ^ 32 - 1) }
    {
        if self.known_sort(width) > 0 {
            self.has_room(1)
        } else {
            self.has_room(2)
        }
    }

    /// Adds a value of this many bits.
    pub fn push(&mut self, width: u32, node: Node) -> Result<Word, DraftFault>
        requires width { IsWidth width }
        requires fits { NodeFits self.old.constants self.old.lines width node }
        ensures ok { OnOk result (self.new ≡ with_value self.old width node) }
        ensures word { IfOk result (λ a. a ≡ record { nid = length self.new.lines; width = width }) }
        ensures pushed { IfOk result (Pushed self.old self.new width node) }
        ensures full { (result ≡ Err Full) ↔ (2 ^ 32 - 1 ≤ length (with_value self.old width node).lines) }
        ensures unchanged { result ≡ Err Full → self.new ≡ self.old }
        ensures memory { result ≡ Err Memory → Grows self.old self.new × KeepsLists self.old self.new }
    {
        if !self.has_room_for(width) {
            return Err(DraftFault::Full);
        }
        self.promise();
        let sort = self.sort(width)?;
        self.promise();
        let nid = self.push_body(Body::Value(sort, width, node))?;
        Ok(Word { nid, width })
    }

    // Adds the line of a constant of this sort, with the next number, and its bits.
    fn push_bits(&mut self, sort: u32, bits: &[bool]) -> Result<u32, AllocError>
        requires room { length self.old.lines + 1 < 2 ^ 32 - 1 }
        requires width { IsWidth (length bits.now) }
        requires sort { sort_at self.old.lines sort ≡ length bits.now }
        requires bits { length self.old.constants < 2 ^ 32 }
        ensures ok { OnOk result (self.new ≡ with_bits self.old sort bits.now) }
        ensures nid { IfOk result (λ nid. nid ≡ suc (length self.old.lines)) }
        ensures err { OnErr result (self.new ≡ self.old) }
    {
        let nid = self.model.lines().len() as u32 + 1;
        self.model.push_constant(nid, sort, bits)?;
        Ok(nid)
    }

    /// Adds a constant with these bits, the lowest first.
    pub fn constant(&mut self, bits: &[bool]) -> Result<Word, DraftFault>
        requires width { IsWidth (length bits.now) }
        ensures ok { OnOk result (self.new ≡ with_constant self.old bits.now) }
        ensures word { IfOk result (λ a. a ≡ record { nid = length self.new.lines; width = length bits.now }) }
        ensures pushed { IfOk result (PushedBits self.old self.new bits.now) }
        ensures full { (result ≡ Err Full) ↔ ((2 ^ 32 ≤ length self.old.constants) ⊎ (2 ^ 32 - 1 ≤ length (with_constant self.old bits.now).lines)) }
        ensures unchanged { result ≡ Err Full → self.new ≡ self.old }
        ensures memory { result ≡ Err Memory → Grows self.old self.new × KeepsLists self.old self.new }
    {
        let width = bits.len() as u32;
        if self.model.constants().len() > u32::MAX as usize || !self.has_room_for(width) {
            return Err(DraftFault::Full);
        }
        self.promise();
        let sort = self.sort(width)?;
        self.promise();
        let nid = self.push_bits(sort, bits)?;
        Ok(Word { nid, width })
    }

    // Adds a line that isn't a sort or a value.
    fn say(&mut self, body: Body) -> Result<(), DraftFault>
        requires fits { BodyFits self.old.constants self.old.lines body }
        requires plain { sort_width body ≡ 0 }
        ensures ok { OnOk result (self.new ≡ with_body self.old body) }
        ensures full { (result ≡ Err Full) ↔ (2 ^ 32 - 1 ≤ suc (length self.old.lines)) }
        ensures err { OnErr result (self.new ≡ self.old) }
    {
        if !self.has_room(1) {
            return Err(DraftFault::Full);
        }
        self.push_body(body)?;
        Ok(())
    }

    /// In the first cycle the state is as the value. If there is an error, the model is as it was.
    pub fn init(&mut self, state: Word, value: Word) -> Result<(), DraftFault>
        requires { MayStart self.old.lines state value }
        ensures ok { OnOk result (self.new ≡ with_body self.old (Init (sort_nid self.old.lines state.width) state.nid value.nid)) }
        ensures full { (result ≡ Err Full) ↔ (2 ^ 32 - 1 ≤ suc (length self.old.lines)) }
        ensures err { OnErr result (self.new ≡ self.old) }
    {
        self.promise();
        let sort = self.known_sort(state.width);
        self.say(Body::Init(sort, state.nid, value.nid))
    }

    /// In the next cycle the state is as the value is in this one. If there is an error, the model is as it was.
    pub fn next(&mut self, state: Word, value: Word) -> Result<(), DraftFault>
        requires { MayGoOn self.old.lines state value }
        ensures ok { OnOk result (self.new ≡ with_body self.old (Next (sort_nid self.old.lines state.width) state.nid value.nid)) }
        ensures full { (result ≡ Err Full) ↔ (2 ^ 32 - 1 ≤ suc (length self.old.lines)) }
        ensures err { OnErr result (self.new ≡ self.old) }
    {
        self.promise();
        let sort = self.known_sort(state.width);
        self.say(Body::Next(sort, state.nid, value.nid))
    }

    /// The word, of one bit, is set in each cycle. If there is an error, the model is as it was.
    pub fn constraint(&mut self, word: Word) -> Result<(), DraftFault>
        requires { width_at self.old.lines word.nid ≡ 1 }
        ensures ok { OnOk result (self.new ≡ with_body self.old (Constraint word.nid)) }
        ensures full { (result ≡ Err Full) ↔ (2 ^ 32 - 1 ≤ suc (length self.old.lines)) }
        ensures err { OnErr result (self.new ≡ self.old) }
    {
        self.say(Body::Constraint(word.nid))
    }

    /// The word, of one bit, is one more bad. If there is an error, the model is as it was.
    pub fn bad(&mut self, word: Word) -> Result<(), DraftFault>
        requires { width_at self.old.lines word.nid ≡ 1 }
        ensures ok { OnOk result (self.new ≡ with_body self.old (Bad word.nid)) }
        ensures full { (result ≡ Err Full) ↔ (2 ^ 32 - 1 ≤ suc (length self.old.lines)) }
        ensures err { OnErr result (self.new ≡ self.old) }
    {
        self.say(Body::Bad(word.nid))
    }
}
