// Which part of a stream is read, with the clauses that are present in it.

ghost use Rattle.std.specs.Prelude.{◌≡◌, ℕ, IfOk};
ghost use Rattle.cnf_form.specs.Cnf.{ClauseWithin, Deletes};
ghost use Rattle.inv_judge.specs.Claim.{Adds, IsStage, part_of, present_of};

use cnf_form::Lit;
use drup_check::{Added, Checker};
use std::alloc::AllocError;

// The parts that are proofs.
#[derive(Clone, Copy, Debug, PartialEq, Eq)]
pub(crate) enum Proof {
    Start,
    Step,
    Safe,
}

// The part, and where it is a proof the checker that has the present clauses.
#[derive(Drop)]
pub(crate) enum Stage {
    Head,
    Inv,
    Proves(Proof, Checker),
}

impl Stage {
    // Adds a clause to the present ones, if there is a proof and it is admitted.
    pub(crate) fn add(&mut self, lits: &[Lit]) -> Result<Option<Added>, AllocError>
        requires { (vars : ℕ) × IsStage vars self.old × ClauseWithin vars lits.now }
        ensures stage { (vars : ℕ) → IsStage vars self.old → IsStage vars self.new }
        ensures part { part_of self.new ≡ part_of self.old }
        ensures adds { IfOk result (λ added. Adds (part_of self.old) (present_of self.old) lits.now (present_of self.new) added) }
    {
        match self {
            Stage::Head | Stage::Inv => Ok(None),
            Stage::Proves(_, checker) => {
                let added = checker.add(lits)?;
                Ok(Some(added))
            }
        }
    }

    // Takes a clause out of the present ones.
    pub(crate) fn delete(&mut self, lits: &[Lit])
        requires { (vars : ℕ) × IsStage vars self.old × ClauseWithin vars lits.now }
        ensures stage { (vars : ℕ) → IsStage vars self.old → IsStage vars self.new }
        ensures part { part_of self.new ≡ part_of self.old }
        ensures deletes { Deletes (present_of self.old) lits.now (present_of self.new) }
    {
        match self {
            Stage::Head | Stage::Inv => {}
            Stage::Proves(_, checker) => checker.delete(lits),
        }
    }
}
