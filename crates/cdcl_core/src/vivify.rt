// Vivification of learnt clauses (Piette, Hamadi and Saïs, 2008; of learnt ones: Luo and others, 2017): from level 0 the negations of a
// clause's literals are decided one after another. Where that falsifies a clause or makes another of its literals true before all are
// decided, the clause that is learnt from it has only some of the literals.

ghost use Rattle.std.specs.Prelude.{◌≡◌, false, IfOk, IfSome, IfNone, OnOk};
ghost use Rattle.cdcl_core.specs.Levels.{IsJustified, FoundFits};
ghost use Rattle.cdcl_core.specs.declared.search.Found.TheVariants.{Falsified};

use crate::learn::{backtrack_to, restart};
use crate::learnts::Learnts;
use crate::search::decide;
use crate::vivifier::Vivifier;
use cnf_form::Lit;
use decision_order::{Order, is_unassigned};
use std::alloc::AllocError;
use unit_propagation::Propagator;

// Decides those of these literals that are unassigned, until a clause is falsified or one of them is false. Returns that clause.
fn decide_each(core: &mut Propagator, lits: &[Lit]) -> Result<Option<u32>, AllocError>
    requires justified { IsJustified core.old }
    requires conflict { core.old.conflict ≡ false }
    ensures vars { core.new.vars ≡ core.old.vars }
    ensures slots { core.new.slots ≡ core.old.slots }
    ensures justified { OnOk result (IsJustified core.new) }
    ensures falsified { IfOk result (λ o. IfSome o (λ k. FoundFits core.new (Falsified k))) }
    ensures none { IfOk result (λ o. IfNone o (core.new.conflict ≡ false)) }
{
    for l in lits {
        let l = *l;
        if l.var() == 0 || l.var() > core.vars() || core.is_true(l.negate()) {
            return Ok(None);
        }
        if is_unassigned(core, l) {
            if let Some(k) = decide(core, l)? {
                return Ok(Some(k));
            }
        }
    }
    Ok(None)
}

// Decides the negations of a clause's literals; the first levels stay where they are decided so. Where another literal of the clause
// becomes true its negation is decided first then, so that a clause is falsified. Returns that one.
fn probe(
    core: &mut Propagator,
    order: &mut Order,
    vivifier: &mut Vivifier,
) -> Result<Option<u32>, AllocError>
    requires justified { IsJustified core.old }
    requires conflict { core.old.conflict ≡ false }
    ensures vars { core.new.vars ≡ core.old.vars }
    ensures slots { core.new.slots ≡ core.old.slots }
    ensures justified { OnOk result (IsJustified core.new) }
    ensures falsified { IfOk result (λ o. IfSome o (λ k. FoundFits core.new (Falsified k))) }
    ensures none { IfOk result (λ o. IfNone o (core.new.conflict ≡ false)) }
{
    let shared = vivifier.shared_levels(core);
    if shared < core.levels() {
        backtrack_to(core, order, shared)?;
    }
    vivifier.begin(core);
    if let Some(k) = decide_each(core, vivifier.plan())? {
        return Ok(Some(k));
    }
    if !vivifier.turn(core)? {
        return Ok(None);
    }
    restart(core, order)?;
    decide_each(core, vivifier.plan())
}

// At level 0: vivifies one clause after another, until a clause is falsified. Returns that one.
pub(crate) fn probe_learnts(
    core: &mut Propagator,
    order: &mut Order,
    learnts: &mut Learnts,
    vivifier: &mut Vivifier,
) -> Result<Option<u32>, AllocError>
    requires justified { IsJustified core.old }
    requires conflict { core.old.conflict ≡ false }
    ensures vars { core.new.vars ≡ core.old.vars }
    ensures slots { core.new.slots ≡ core.old.slots }
    ensures justified { OnOk result (IsJustified core.new) }
    ensures falsified { IfOk result (λ o. IfSome o (λ k. FoundFits core.new (Falsified k))) }
    ensures none { IfOk result (λ o. IfNone o (core.new.conflict ≡ false)) }
{
    if core.levels() > 0 {
        return Ok(None);
    }
    let count = vivifier.list(core, learnts)?;
    for _ in 0..count {
        if !vivifier.next(core)? {
            break;
        }
        order.set_probing(true);
        if let Some(k) = probe(core, order, vivifier)? {
            return Ok(Some(k));
        }
    }
    restart(core, order)?;
    vivifier.end();
    order.set_probing(false);
    Ok(None)
}
