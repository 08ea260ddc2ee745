// What a stream has said, as a claim about a pair.

ghost use Rattle.std.specs.Prelude.{◌≡◌, ◌↔◌, ◌++◌, ◌∷◌, [], Some, IfOk, IsTrue, is_some};
ghost use Rattle.cnf_form.specs.Cnf.{ClauseWithin};
ghost use Rattle.pair_form.specs.Pair.{clauses_over};
ghost use Rattle.inv_fate.specs.Fate.{AreAdmitted, IsOverBits, fault_kind};
ghost use Rattle.inv_stream.specs.declared.mode.Part.{Part as PartOf};
ghost use Rattle.inv_judge.specs.Claim.{HearsPart, HearsSaying, Passes, begun, concluded, start, with_outcome};
ghost use Rattle.inv_judge.specs.Judging.{outcome_or};
ghost use Rattle.inv_judge.specs.declared.outcome.InvOutcome.{InvOutcome as OutcomeOf};

use crate::asking::all_admitted;
use crate::opening::open;
use crate::outcome::InvOutcome;
use crate::stage::{Proof, Stage};
use cert_judge::{BadCert, CertKind, cert_kind};
use cert_stream::{Fed, Receiver};
use cnf_form::{Formula, Lit};
use drup_check::{Added, Checker};
use inv_stream::{InvFault, InvFaultKind, InvReceiver};
use pair_form::{Frame, Pair};
use std::alloc::{AllocError, Global};
use std::marker::Model;
use std::mem::replace;

/// The clauses of the invariant so far, the part with those that are present, and the outcome once there is one.
#[derive(Drop)]
pub(crate) struct Claim {
    alloc: Global,
    pair: Pair,
    stage: Stage,
    invariant: Formula,
    // What a clause says of a cycle.
    said: Vec<Lit>,
    outcome: Option<InvOutcome>,
}

impl Model for Claim {
    ghost use Rattle.std.specs.Prelude.{◌≡◌};
    ghost use Rattle.inv_judge.specs.Claim.{ClaimOf, IsStage, part_of, present_of};

    ghost Value = { ClaimOf };

    ghost view = { λ a. record { pair = a.pair; part = part_of a.stage; invariant = a.invariant.clauses; present = present_of a.stage; outcome = a.outcome } };

    ghost invariant = { λ a. (a.invariant.vars ≡ a.pair.formula.vars) × IsStage a.pair.formula.vars a.stage };
}

// Whether each literal is of a state bit that has literals.
fn is_over_bits(pair: &Pair, lits: &[Lit]) -> bool
    ensures { IsTrue result ↔ IsOverBits pair.now lits.now }
{
    for lit in lits {
        if pair.bit(lit.var(), Frame::First).is_none() {
            return false;
        }
    }
    true
}

// The kind of a reader's fault.
fn fault_kind(kind: InvFaultKind) -> CertKind
    ensures { result ≡ fault_kind kind }
{
    match kind {
        InvFaultKind::BadPart => CertKind::BadPart,
        InvFaultKind::Parse(kind) => cert_kind(kind),
    }
}

impl Claim {
    /// Before anything is said.
    pub(crate) fn new(alloc: Global, pair: Pair) -> Self
        ensures { result ≡ start pair }
    {
        let invariant = Formula::new(alloc, pair.formula().vars());
        Claim {
            alloc,
            pair,
            stage: Stage::Head,
            invariant,
            said: Vec::new(alloc),
            outcome: None,
        }
    }

    /// The formula's variables are from 1 to this one.
    pub(crate) fn vars(&self) -> u32
        ensures { result ≡ self.now.pair.formula.vars }
    {
        self.pair.formula().vars()
    }

    pub(crate) fn outcome(&self) -> Option<InvOutcome>
        ensures { result ≡ self.now.outcome }
    {
        self.outcome
    }

    pub(crate) fn settle(&mut self, outcome: InvOutcome)
        ensures { self.new ≡ with_outcome self.old outcome }
    {
        self.outcome = Some(outcome);
    }

    pub(crate) fn refuse(&mut self, kind: CertKind, at: u64)
        ensures { self.new ≡ with_outcome self.old (OutcomeOf.Bad (record { kind = kind; at = at })) }
    {
        self.settle(InvOutcome::Bad(BadCert { kind, at }));
    }

    /// Where there is no outcome yet, it is this fault; answers the outcome.
    pub(crate) fn outcome_or(&mut self, kind: CertKind, at: u64) -> InvOutcome
        ensures outcome { self.new.outcome ≡ Some result }
        ensures new { self.new ≡ outcome_or self.old self.old.outcome (OutcomeOf.Bad (record { kind = kind; at = at })) }
    {
        if let Some(outcome) = self.outcome {
            return outcome;
        }
        let outcome = InvOutcome::Bad(BadCert { kind, at });
        self.settle(outcome);
        outcome
    }

    /// A fault ends what can be said.
    pub(crate) fn conclude(&mut self, fed: Result<Fed, InvFault>)
        ensures { self.new ≡ concluded self.old fed }
    {
        if let Err(fault) = fed {
            self.refuse(fault_kind(fault.kind), fault.byte);
        }
    }

    // A clause of the invariant.
    fn list(&mut self, lits: &[Lit], place: u64) -> Result<(), AllocError>
        requires within { ClauseWithin self.old.pair.formula.vars lits.now }
        ensures bits { IsOverBits self.old.pair lits.now → IfOk result (λ _. self.new ≡ record self.old { invariant = self.old.invariant ++ lits.now ∷ [] }) }
        ensures none { (IsOverBits self.old.pair lits.now → ⊥) → IfOk result (λ _. self.new ≡ with_outcome self.old (OutcomeOf.Bad (record { kind = CertKind.BadLiteral; at = place }))) }
    {
        if !is_over_bits(&self.pair, lits) {
            self.refuse(CertKind::BadLiteral, place);
            return Ok(());
        }
        self.invariant.push(lits)
    }

    fn is_head(&self) -> bool
        ensures { IsTrue result ↔ (self.now.part ≡ PartOf.Head) }
    {
        matches!(self.stage, Stage::Head)
    }

    fn is_safe(&self) -> bool
        ensures { IsTrue result ↔ (self.now.part ≡ PartOf.Safe) }
    {
        matches!(self.stage, Stage::Proves(Proof::Safe, _))
    }

    // A proof's part begins.
    fn begin(&mut self, proof: Proof) -> Result<(), AllocError>
        ensures { IfOk result (λ _. self.new ≡ begun self.old proof) }
    {
        let checker = open(
            self.alloc,
            &mut self.said,
            &self.pair,
            &self.invariant,
            proof,
        )?;
        self.stage = Stage::Proves(proof, checker);
        Ok(())
    }

    // Whether a checker's clauses admit the invariant's as they are said of a cycle. The checker is dropped, so that there is one at a time.
    fn is_shown(&mut self, checker: Checker, frame: Frame) -> Result<bool, AllocError>
        requires { checker.vars ≡ self.old.pair.formula.vars }
        ensures same { self.new ≡ self.old }
        ensures exact { IfOk result (λ b. IsTrue b ↔ AreAdmitted checker.clauses (clauses_over self.old.pair frame self.old.invariant)) }
    {
        let mut checker = checker;
        all_admitted(
            &mut checker,
            &mut self.said,
            &self.pair,
            frame,
            &self.invariant,
        )
    }

    // Another proof's part begins, if the checker's clauses admit the invariant's as they are said of a cycle.
    fn pass(
        &mut self,
        checker: Checker,
        frame: Frame,
        proof: Proof,
        place: u64,
    ) -> Result<(), AllocError>
        requires { checker.vars ≡ self.old.pair.formula.vars }
        ensures { IfOk result (λ _. Passes self.old checker.clauses frame proof place self.new) }
    {
        if !self.is_shown(checker, frame)? {
            self.refuse(CertKind::NotInvariant, place);
            return Ok(());
        }
        self.begin(proof)
    }
}

impl Receiver for Claim {
    ghost vars = { λ a. a.pair.formula.vars };

    ghost gets = { HearsSaying };

    ghost stops = { λ a. is_some a.outcome };

    fn clause(&mut self, lits: &[Lit], place: u64) -> Result<bool, AllocError> {
        match self.stage.add(lits)? {
            None if self.is_head() => self.refuse(CertKind::BadPart, place),
            None => self.list(lits, place)?,
            Some(Added::NotRup) => self.refuse(CertKind::NotRup, place),
            Some(Added::Admitted) if self.is_safe() && lits.is_empty() => {
                self.settle(InvOutcome::Found);
            }
            Some(Added::Admitted) => {}
        }
        Ok(self.outcome.is_some())
    }

    fn delete(&mut self, lits: &[Lit]) -> Result<bool, AllocError> {
        self.stage.delete(lits);
        Ok(self.outcome.is_some())
    }

    fn value(&mut self, _l: Lit) -> Result<bool, AllocError> {
        Ok(self.outcome.is_some())
    }

    fn values_end(&mut self) -> Result<bool, AllocError> {
        Ok(self.outcome.is_some())
    }

    fn unknown(&mut self) -> Result<bool, AllocError> {
        self.settle(InvOutcome::Unknown);
        Ok(self.outcome.is_some())
    }
}

impl InvReceiver for Claim {
    ghost parts = { HearsPart };

    fn part(&mut self, place: u64) -> Result<bool, AllocError> {
        match replace(&mut self.stage, Stage::Head) {
            Stage::Head => self.stage = Stage::Inv,
            Stage::Inv => self.begin(Proof::Start)?,
            Stage::Proves(Proof::Start, checker) => {
                self.pass(checker, Frame::First, Proof::Step, place)?;
            }
            Stage::Proves(Proof::Step, checker) => {
                self.pass(checker, Frame::Second, Proof::Safe, place)?;
            }
            Stage::Proves(Proof::Safe, _) => self.refuse(CertKind::BadPart, place),
        }
        Ok(self.outcome.is_some())
    }
}
