// Literals that are assumed or follow, each marked, and what they leave of a clause.

ghost use Rattle.std.specs.Prelude.{◌≡◌, ◌+◌, ◌*◌, ◌<◌, ◌≤◌, ◌++◌, ◌∷◌, [], true, All, List, length, map, MatchBool, IfOk, OnOk};
ghost use Rattle.cnf_form.specs.Cnf.{LitOf, negate, index_of};
ghost use Rattle.lrat_check.specs.Hints.{IsContradictory};
ghost use Rattle.lrat_check.specs.Marks.{is_marked, HasPlaces, IsClear, IsConsistent, Marks};
ghost use Rattle.hint_chain.specs.Standing.{Stands};

use cnf_form::Lit;
use std::alloc::{AllocError, Global};

// How many literals of a clause are not negated.
pub(crate) enum Standing {
    Negated,
    OneLeft(Lit),
    MoreLeft,
}

// The literals, in order, and a table that has two places for each variable.
#[derive(Drop)]
pub(crate) struct Marked {
    pub(crate) marks: Vec<bool>,
    pub(crate) trail: Vec<Lit>,
}

impl Marked {
    pub fn new(alloc: Global) -> Self
        ensures marked { Marks result.marks.items result.trail.items }
    {
        Marked {
            marks: Vec::new(alloc),
            trail: Vec::new(alloc),
        }
    }

    // Whether a literal is marked.
    pub fn has(&self, l: Lit) -> bool
        requires { HasPlaces self.now.marks.items l }
        ensures { result ≡ is_marked self.now.marks.items l }
    {
        self.marks[l.index()]
    }

    // Marks a literal.
    pub fn push(&mut self, l: Lit) -> Result<(), AllocError>
        requires marked { Marks self.old.marks.items self.old.trail.items }
        requires places { HasPlaces self.old.marks.items l }
        ensures marked { Marks self.new.marks.items self.new.trail.items }
        ensures sized { length self.new.marks.items ≡ length self.old.marks.items }
        ensures trail { OnOk result (self.new.trail.items ≡ self.old.trail.items ++ l ∷ []) }
    {
        self.trail.push(l)?;
        self.marks[l.index()] = true;
        Ok(())
    }

    // Takes back all marks.
    fn clear(&mut self)
        requires marked { Marks self.old.marks.items self.old.trail.items }
        ensures clear { IsClear self.new.marks.items }
        ensures trail { self.new.trail.items ≡ [] }
        ensures sized { length self.new.marks.items ≡ length self.old.marks.items }
    {
        for k in 0..self.trail.len() {
            let l = self.trail[k];
            self.marks[l.index()] = false;
        }
        self.trail.clear();
    }

    // Makes room for literals of this many variables, none of which is marked.
    fn reach(&mut self, vars: u32) -> Result<(), AllocError>
        requires clear { IsClear self.old.marks.items }
        ensures clear { IsClear self.new.marks.items }
        ensures trail { self.new.trail ≡ self.old.trail }
        ensures sized { OnOk result (2 * vars + 2 ≤ length self.new.marks.items) }
    {
        let places = 2 * vars as usize + 2;
        if self.marks.len() < places {
            self.marks.resize(places, false)?;
        }
        Ok(())
    }

    // Marks the negations of a clause's literals, unless two of these are a literal and its negation.
    fn mark_negations(&mut self, clause: &[Lit]) -> Result<bool, AllocError>
        requires clear { IsClear self.old.marks.items }
        requires none { self.old.trail.items ≡ [] }
        requires places { All (HasPlaces self.old.marks.items) clause.now }
        ensures marked { Marks self.new.marks.items self.new.trail.items }
        ensures sized { length self.new.marks.items ≡ length self.old.marks.items }
        ensures cases { IfOk result (λ b. MatchBool b
            ((self.new.trail.items ≡ map negate clause.now) × IsConsistent self.new.trail.items)
            (IsContradictory (map negate clause.now))) }
    {
        for l in clause {
            let l = *l;
            if self.has(l) {
                return Ok(false);
            }
            self.push(l.negate())?;
        }
        Ok(true)
    }

    // Takes back all marks, and marks the negations of a clause's literals, unless two of these are a literal and its negation.
    pub fn begin(&mut self, vars: u32, clause: &[Lit]) -> Result<bool, AllocError>
        requires marked { Marks self.old.marks.items self.old.trail.items }
        requires within { All (λ l. l.var ≤ vars) clause.now }
        ensures marked { Marks self.new.marks.items self.new.trail.items }
        ensures sized { OnOk result (2 * vars + 2 ≤ length self.new.marks.items) }
        ensures cases { IfOk result (λ b. MatchBool b
            ((self.new.trail.items ≡ map negate clause.now) × IsConsistent self.new.trail.items)
            (IsContradictory (map negate clause.now))) }
    {
        self.clear();
        self.reach(vars)?;
        self.mark_negations(clause)
    }

    // What is left of a clause.
    pub fn standing(&self, clause: &[Lit]) -> Standing
        requires { All (HasPlaces self.now.marks.items) clause.now }
        ensures { Stands (λ l. is_marked self.now.marks.items l ≡ true) clause.now result }
    {
        let mut open = None;
        for l in clause {
            let l = *l;
            if !self.has(l.negate()) {
                match open {
                    None => {
                        open = Some(l);
                    }
                    Some(other) => {
                        if other != l {
                            return Standing::MoreLeft;
                        }
                    }
                }
            }
        }
        match open {
            None => Standing::Negated,
            Some(l) => Standing::OneLeft(l),
        }
    }
}
