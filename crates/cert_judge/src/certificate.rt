// A certificate as far as it was said.

ghost use Rattle.std.specs.Prelude.{◌≡◌, ◌↔◌, ◌≤◌, ◌<◌, ◌+◌, ◌++◌, List, [], length, ℕ, Option, Some, None, IfNone, IfOk, IfSome, OnOk, is_some, true, false};
ghost use Rattle.cnf_form.specs.Cnf.{ClauseWithin, FormulaOf, Satisfies};
ghost use Rattle.drup_check.specs.Checking.{start};
ghost use Rattle.lrat_check.specs.Checking.{Starts, live_of};
ghost use Rattle.cert_judge.specs.Certificate.{CertificateOf, outcome_or, with_outcome};
ghost use Rattle.cert_judge.specs.Leading.{Hears, Tries, concluded, ended_at};
ghost use Rattle.cert_judge.specs.declared.stream.Outcome.{Outcome};
ghost use Rattle.cert_judge.specs.Lrat.{first_bad, ids_of, without};
ghost use Rattle.cert_judge.specs.Reading.{drup_meaning, lrat_meaning};
ghost use Rattle.cert_judge.specs.Values.{values_of, IsFirstUnsatisfied};

use crate::stream::{BadCert, CertKind, Outcome, cert_kind};
use crate::values::Values;
use cert_stream::lrat::{Hint, LratReceiver};
use cert_stream::{Fed, ParseFault, Receiver};
use clause_source::ClauseSource;
use cnf_form::Lit;
use drup_check::{Added, Checker};
use lrat_check::Hinted;
use std::alloc::{AllocError, Global};
use std::marker::Model;

/// Checks a proof's clauses.
pub(crate) trait ProofChecker: Drop {
    /// Its clauses' variables are from 1 to this one.
    ghost vars: { Self → ℕ };

    /// It has the clauses of the formula alone.
    ghost starts: { FormulaOf → Self → Type 0 };

    fn start<S: ClauseSource>(alloc: Global, source: &S) -> Result<Self, AllocError>
        ensures vars { IfOk result (λ c. vars c ≡ (S.formula source.now).vars) }
        ensures starts { IfOk result (starts (S.formula source.now)) };
}

impl ProofChecker for Checker {
    ghost vars = { λ c. c.vars };

    ghost starts = { λ f c. c ≡ start f };

    fn start<S: ClauseSource>(alloc: Global, source: &S) -> Result<Self, AllocError> {
        Checker::new(alloc, source)
    }
}

impl ProofChecker for Hinted {
    ghost vars = { λ c. c.vars };

    ghost starts = { Starts };

    fn start<S: ClauseSource>(alloc: Global, source: &S) -> Result<Self, AllocError> {
        Hinted::new(alloc, source)
    }
}

/// The clauses that are present and the values so far, for a source's formula, and the outcome once there is one.
#[derive(Drop)]
pub(crate) struct Certificate<C: ProofChecker, S: ClauseSource> {
    source: S,
    checker: C,
    values: Values,
    outcome: Option<Outcome>,
    // The ids of the last line's hints, kept so that a line takes no memory of its own.
    ids: Vec<u64>,
}

impl<C: ProofChecker, S: ClauseSource> Model for Certificate<C, S> {
    ghost use Rattle.std.specs.Prelude.{◌≡◌, ◌+◌, length};
    ghost use Rattle.cert_judge.specs.Certificate.{CertificateOf};

    ghost Value = { CertificateOf C };

    ghost view = { λ a. record { formula = S.formula a.source; checker = a.checker; bits = a.values; outcome = a.outcome } };

    ghost invariant = { λ a. (C.vars a.checker ≡ (S.formula a.source).vars) × (length a.values ≡ (S.formula a.source).vars + 1) };
}

impl<C: ProofChecker, S: ClauseSource> Certificate<C, S> {
    /// Before anything is said.
    pub(crate) fn new(alloc: Global, source: S) -> Result<Self, AllocError>
        ensures formula { IfOk result (λ c. c.formula ≡ S.formula source) }
        ensures checker { IfOk result (λ c. C.starts (S.formula source) c.checker) }
        ensures size { IfOk result (λ c. length c.bits ≡ (S.formula source).vars + 1) }
        ensures unnamed { IfOk result (λ c. (v : ℕ) → values_of c.bits v ≡ false) }
        ensures undecided { IfOk result (λ c. c.outcome ≡ None) }
    {
        let checker = C::start(alloc, &source)?;
        let values = Values::new(alloc, source.vars())?;
        Ok(Certificate {
            source,
            checker,
            values,
            outcome: None,
            ids: Vec::new(alloc),
        })
    }

    pub(crate) fn outcome(&self) -> Option<Outcome>
        ensures { result ≡ self.now.outcome }
    {
        self.outcome
    }

    /// A bit for each variable, at its number; place 0 is no variable's.
    pub(crate) fn bits(&self) -> &[bool]
        ensures { result.now ≡ self.now.bits }
    {
        self.values.bits()
    }

    pub(crate) fn settle(&mut self, outcome: Outcome)
        ensures { self.new ≡ with_outcome self.old outcome }
    {
        self.outcome = Some(outcome);
    }

    pub(crate) fn refuse(&mut self, kind: CertKind, at: u64)
        ensures { self.new ≡ with_outcome self.old (Outcome.Bad (record { kind = kind; at = at })) }
    {
        self.settle(Outcome::Bad(BadCert { kind, at }));
    }

    /// Where there is no outcome yet, it is this fault; answers the outcome.
    pub(crate) fn outcome_or(&mut self, kind: CertKind, at: u64) -> Outcome
        ensures outcome { self.new.outcome ≡ Some result }
        ensures new { self.new ≡ outcome_or self.old self.old.outcome (Outcome.Bad (record { kind = kind; at = at })) }
    {
        if let Some(outcome) = self.outcome {
            return outcome;
        }
        let outcome = Outcome::Bad(BadCert { kind, at });
        self.settle(outcome);
        outcome
    }

    /// A fault ends what can be said.
    pub(crate) fn conclude(&mut self, fed: Result<Fed, ParseFault>)
        ensures { self.new ≡ concluded self.old fed }
    {
        if let Err(fault) = fed {
            self.refuse(cert_kind(fault.kind), fault.byte);
        }
    }
}

impl<S: ClauseSource> Receiver for Certificate<Checker, S> {
    ghost vars = { λ a. a.formula.vars };

    ghost gets = { Hears drup_meaning };

    ghost stops = { λ a. is_some a.outcome };

    fn clause(&mut self, lits: &[Lit], place: u64) -> Result<bool, AllocError> {
        match self.checker.add(lits)? {
            Added::NotRup => self.refuse(CertKind::NotRup, place),
            Added::Admitted if lits.is_empty() => self.settle(Outcome::Refuted),
            Added::Admitted => {}
        }
        Ok(self.outcome.is_some())
    }

    fn delete(&mut self, lits: &[Lit]) -> Result<bool, AllocError> {
        self.checker.delete(lits);
        Ok(self.outcome.is_some())
    }

    fn value(&mut self, l: Lit) -> Result<bool, AllocError> {
        self.values.name(l);
        Ok(self.outcome.is_some())
    }

    fn values_end(&mut self) -> Result<bool, AllocError> {
        match self.values.first_unsatisfied(&self.source) {
            None => self.settle(Outcome::Satisfied),
            Some(clause) => self.refuse(CertKind::NotSatisfying, clause),
        }
        Ok(self.outcome.is_some())
    }

    fn unknown(&mut self) -> Result<bool, AllocError> {
        self.settle(Outcome::Unknown);
        Ok(self.outcome.is_some())
    }
}

impl<S: ClauseSource> Certificate<Checker, S> {
    /// Takes an empty clause where there is no outcome yet.
    pub(crate) fn try_empty(&mut self, place: u64) -> Result<(), AllocError>
        ensures tries { IfOk result (λ _. Tries self.old self.old.outcome place self.new) }
        ensures formula { IfOk result (λ _. self.new.formula ≡ self.old.formula) }
    {
        if self.outcome.is_some() {
            return Ok(());
        }
        match self.checker.add(&[])? {
            Added::NotRup => self.refuse(CertKind::NotRup, place),
            Added::Admitted => self.settle(Outcome::Refuted),
        }
        Ok(())
    }

    /// What is bad at a file's end, byte number `count`, is an early end.
    pub(crate) fn end_at(&mut self, count: u64)
        ensures { self.new ≡ ended_at count self.old self.old.outcome }
    {
        if let Some(Outcome::Bad(bad)) = self.outcome {
            if bad.at == count {
                self.refuse(CertKind::EarlyEnd, count);
            }
        }
    }
}

impl<S: ClauseSource> LratReceiver for Certificate<Hinted, S> {
    ghost vars = { λ a. a.formula.vars };

    ghost gets = { Hears lrat_meaning };

    ghost stops = { λ a. is_some a.outcome };

    #[tactic(auto, using(crate::proofs::LratHearing::good_ids))]
    fn clause(
        &mut self,
        id: u64,
        lits: &[Lit],
        hints: &[Hint],
        place: u64,
    ) -> Result<bool, AllocError> {
        if id <= self.checker.last_id() {
            self.refuse(CertKind::BadId, place);
            return Ok(true);
        }
        if let Some(hint) = first_bad(&self.checker, hints) {
            self.refuse(CertKind::BadHint, hint.place);
            return Ok(true);
        }
        fill_ids(&mut self.ids, hints)?;
        match self.checker.add(id, lits, &self.ids)? {
            lrat_check::Added::NotHinted => self.refuse(CertKind::NotHinted, place),
            lrat_check::Added::Admitted if lits.is_empty() => self.settle(Outcome::Refuted),
            lrat_check::Added::Admitted => {}
        }
        Ok(self.outcome.is_some())
    }

    fn delete(&mut self, ids: &[Hint]) -> Result<bool, AllocError> {
        delete_all(&mut self.checker, ids);
        Ok(self.outcome.is_some())
    }

    fn value(&mut self, l: Lit) -> Result<bool, AllocError> {
        self.values.name(l);
        Ok(self.outcome.is_some())
    }

    fn values_end(&mut self) -> Result<bool, AllocError> {
        match self.values.first_unsatisfied(&self.source) {
            None => self.settle(Outcome::Satisfied),
            Some(clause) => self.refuse(CertKind::NotSatisfying, clause),
        }
        Ok(self.outcome.is_some())
    }

    fn unknown(&mut self) -> Result<bool, AllocError> {
        self.settle(Outcome::Unknown);
        Ok(self.outcome.is_some())
    }
}

// The first hint that is negative, or whose id no live clause has.
fn first_bad(checker: &Hinted, hints: &[Hint]) -> Option<Hint>
    ensures { result ≡ first_bad (live_of checker.now) hints.now }
{
    for hint in hints {
        if hint.negated || !checker.live(hint.id) {
            return Some(*hint);
        }
    }
    None
}

// Makes the list that of the hints' ids.
fn fill_ids(ids: &mut Vec<u64>, hints: &[Hint]) -> Result<(), AllocError>
    ensures { OnOk result (ids.new.items ≡ ids_of hints.now) }
{
    ids.clear();
    for hint in hints {
        ids.push(hint.id)?;
    }
    Ok(())
}

fn delete_all(checker: &mut Hinted, ids: &[Hint])
    ensures live { live_of checker.new ≡ without (live_of checker.old) ids.now }
    ensures rest { checker.new ≡ record checker.old { clauses = checker.new.clauses } }
{
    for id in ids {
        checker.delete(id.id);
    }
}
