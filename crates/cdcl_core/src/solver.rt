// The solver: conflict-driven clause learning (Marques-Silva and Sakallah, 1996), with two watched literals (Moskewicz and others,
// 2001) in the crate unit_propagation.

ghost use Rattle.std.specs.Prelude.{◌≡◌, ◌+◌, ◌-◌, ◌^◌, ◌<◌, ◌≤◌, [], length, IfOk, IfErr, IfSome, IfNone, OnOk, OnErr, Ok, Err};
ghost use Rattle.sby_edge.specs.Cause.{Rose};
ghost use Rattle.cdcl_core.specs.Lines.{held_first};
ghost use Rattle.cdcl_core.specs.Searching.{AreRight, EndsBy, HasLogged, IsNamedBy, IsOf, IsRight, IsSolver, StepFits, Stops, present_of};
ghost use Rattle.cdcl_core.specs.Solving.{IsStopped, SolvedFits};

use crate::analysis::Analysis;
use crate::choose::has_goal;
use crate::eliminator::Eliminator;
use crate::learnts::Learnts;
use crate::load::load;
use crate::log::Log;
use crate::minimizer::Minimizer;
use crate::restarts::Restarts;
use crate::search::Found;
use crate::stop::Stop;
use crate::vivifier::Vivifier;
use cnf_form::Formula;
use decision_order::Order;
use frozen_clauses::Frozen;
use hint_chain::{Chain, Ids};
use std::alloc::{AllocError, Global};
use unit_propagation::Propagator;

/// What the solver answers.
#[derive(Drop, Debug)]
pub enum Solved {
    /// Values that satisfy the formula: that of each variable at its number.
    Sat(Vec<bool>),
    /// There are no such values. The empty clause was logged last.
    Unsat,
    /// As many conflicts were counted as the budget has.
    Budget,
    /// The log failed.
    LogFailed,
}

// The result of a step: an answer, a clause that was learnt, or a frozen one that was thawed, since it is a subset of what would have
// been learnt.
pub(crate) enum Step {
    Answered(Solved),
    Learnt,
    Thawed,
}

// What a search stands on: the watched clauses with the trail; the frozen clauses; the number of a falsified clause; how many clauses
// were logged, one for each conflict and each resolvent, and how many of them were deleted. Where the log wants hints, `ids` has the
// ids of all clauses, and `chain` finds hints. The rest chooses, and nothing is promised of it: `vivifier` says which learnt clauses are
// to be made shorter, and `eliminator` which variables are eliminated, by which resolvents; `fixed` is how many literals level 0 had
// when frozen clauses were last thawed, which is done again after `settle_due` conflicts, and `noted` how many of them were noted as
// facts.
#[derive(Drop)]
pub(crate) struct Solver {
    pub(crate) alloc: Global,
    pub(crate) core: Propagator,
    pub(crate) frozen: Frozen,
    pub(crate) pending: Option<u32>,
    pub(crate) conflicts: u64,
    pub(crate) deletions: u64,
    pub(crate) analysis: Analysis,
    pub(crate) minimizer: Minimizer,
    pub(crate) order: Order,
    pub(crate) restarts: Restarts,
    pub(crate) learnts: Learnts,
    pub(crate) fixed: usize,
    pub(crate) settle_due: u64,
    pub(crate) ids: Ids,
    pub(crate) chain: Chain,
    pub(crate) noted: usize,
    pub(crate) vivifier: Vivifier,
    pub(crate) eliminator: Eliminator,
}

impl Solver {
    fn new(alloc: Global, formula: &Formula, hinted: bool) -> Result<Self, AllocError>
        ensures solver { IfOk result (λ s. IsSolver s) }
        ensures of { IfOk result (λ s. IsOf formula.now s) }
        ensures present { IfOk result (λ s. present_of s ≡ formula.now.clauses) }
        ensures conflicts { IfOk result (λ s. s.conflicts ≡ 0) }
        ensures deletions { IfOk result (λ s. s.deletions ≡ 0) }
        ensures wanted { IfOk result (λ s. s.ids.wanted ≡ hinted) }
        ensures named { IfOk result (λ s. IsNamedBy (held_first formula.now.clauses) s) }
    {
        let vars = formula.vars();
        let analysis = Analysis::new(alloc, vars)?;
        let has_goal = has_goal(formula);
        let order = Order::new(alloc, vars, has_goal)?;
        let restarts = Restarts::new(alloc, vars, has_goal)?;
        let minimizer = Minimizer::new(alloc, vars)?;
        let frozen = Frozen::new(alloc, vars)?;
        let vivifier = Vivifier::new(alloc, vars)?;
        let eliminator = Eliminator::new(alloc, vars)?;
        let ids = Ids::new(alloc, hinted, vars, formula.clauses().len())?;
        Ok(Solver {
            alloc,
            core: load(alloc, formula)?,
            frozen,
            pending: None,
            conflicts: 0,
            deletions: 0,
            analysis,
            minimizer,
            order,
            restarts,
            learnts: Learnts::new(alloc, formula),
            fixed: 0,
            settle_due: 0,
            ids,
            chain: Chain::new(alloc),
            noted: 0,
            vivifier,
            eliminator,
        })
    }

    // Goes on until there is an answer, a clause was learnt, or a frozen one was thawed.
    fn step<L: Log>(&mut self, formula: &Formula, log: &mut L) -> Result<Step, Stop>
        requires solver { IsSolver self.old }
        requires room { self.old.conflicts < 2 ^ 64 - 1 }
        ensures solver { OnOk result (IsSolver self.new) }
        ensures fits { IfOk result (λ s. StepFits L.takes L.fails L.faults self.old self.new log.old log.new s) }
        ensures right { IfOk result (λ s. IsRight formula.now s) }
        ensures stopped { IfErr result (λ e. Stops L.takes L.fails L.faults self.old log.old log.new e) }
    {
        self.restart_if_due()?;
        match self.find(formula)? {
            Found::Assigned => match self.answer(formula)? {
                Some(values) => Ok(Step::Answered(Solved::Sat(values))),
                None => Ok(Step::Thawed),
            },
            Found::Refuted => {
                self.refute(log)?;
                Ok(Step::Answered(Solved::Unsat))
            }
            Found::Falsified(k) => self.learn(log, k),
        }
    }

    // Goes on until there is an answer, or a clause was learnt.
    fn next_conflict<L: Log>(
        &mut self,
        formula: &Formula,
        log: &mut L,
    ) -> Result<Option<Solved>, Stop>
        requires solver { IsSolver self.old }
        requires room { self.old.conflicts < 2 ^ 64 - 1 }
        ensures solver { OnOk result (IsSolver self.new) }
        ensures answered { IfOk result (λ o. IfSome o (λ s. StepFits L.takes L.fails L.faults self.old self.new log.old log.new (Step.Answered s))) }
        ensures right { IfOk result (λ o. IfSome o (λ s. AreRight formula.now s)) }
        ensures learnt { IfOk result (λ o. IfNone o (StepFits L.takes L.fails L.faults self.old self.new log.old log.new Step.Learnt)) }
        ensures stopped { IfErr result (λ e. Stops L.takes L.fails L.faults self.old log.old log.new e) }
    {
        loop {
            match self.step(formula, log)? {
                Step::Answered(solved) => return Ok(Some(solved)),
                Step::Learnt => return Ok(None),
                Step::Thawed => {}
            }
        }
    }

    // Goes on until there is an answer, or the budget is spent.
    fn search<L: Log>(
        &mut self,
        formula: &Formula,
        budget: u64,
        log: &mut L,
    ) -> Result<Solved, Stop>
        requires solver { IsSolver self.old }
        requires none { self.old.conflicts ≡ 0 }
        requires logged { HasLogged L.takes formula.now log.old log.old self.old }
        ensures solved { IfOk result (λ s. SolvedFits L.takes L.fails self.old.ids.wanted formula.now budget log.old log.new s) }
        ensures stopped { IfErr result (λ e. EndsBy L.takes L.fails self.old.ids.wanted formula.now budget log.old log.new e) }
        ensures cause { result ≡ Err Stop.Failed → Rose (L.faults log.old) (L.faults log.new) }
        ensures never { result ≡ Ok Solved.LogFailed → ⊥ }
    {
        while self.conflicts < budget {
            self.reduce_if_due(log)?;
            self.eliminate_if_due(formula, budget, log)?;
            if let Some(solved) = self.next_conflict(formula, log)? {
                return Ok(solved);
            }
        }
        Ok(Solved::Budget)
    }
}

/// Searches for values that satisfy the formula, and logs what it learns, until as many conflicts above level 0 and resolvents were
/// counted as the budget has. Each logged clause is admitted by those that are present, none of those is a subset of it, and it is no
/// tautology; it has at most as many literals as there are variables. Where the log wants hints, each line's hints admit its clause,
/// and each literal of level 0 is noted as a fact, which is no conflict. An answer that there are no values ends with the empty
/// clause. An error is out of memory; what was logged until then is the beginning of such a search.
pub fn solve<L: Log>(
    alloc: Global,
    formula: &Formula,
    budget: u64,
    log: &mut L,
) -> Result<Solved, AllocError>
    ensures solved { IfOk result (λ s. SolvedFits L.takes L.fails L.hinted formula.now budget log.old log.new s) }
    ensures cause { result ≡ Ok Solved.LogFailed → Rose (L.faults log.old) (L.faults log.new) }
    ensures memory { OnErr result (IsStopped L.takes L.hinted formula.now budget log.old log.new) }
{
    let mut solver = Solver::new(alloc, formula, log.is_hinted())?;
    match solver.search(formula, budget, log) {
        Ok(solved) => Ok(solved),
        Err(Stop::Failed) => Ok(Solved::LogFailed),
        Err(Stop::OutOfMemory) => Err(AllocError),
    }
}
