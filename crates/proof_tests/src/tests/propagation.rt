// Clauses under unit propagation, at work.

ghost use Rattle.std.specs.Prelude.{◌≡◌, []};

use cnf_form::Lit;
use std::alloc::AllocError;
use std::test::Fail;
use unit_propagation::Propagator;

// The clauses {1, 2}, {-1, 2} and {-2, 3}, of which the first is removed and its memory given back.
fn collected(p: &mut Propagator) -> Result<bool, AllocError>
    requires vars { p.old.vars ≡ 3 }
    requires level { p.old.limits ≡ [] }
{
    let a = Lit::new(1, false);
    let b = Lit::new(2, false);
    p.add_clause(&[a, b])?;
    p.add_clause(&[a.negate(), b])?;
    p.add_clause(&[b.negate(), Lit::new(3, false)])?;
    if p.is_empty() {
        return Ok(false);
    }
    p.remove_clause(0);
    p.collect()?;
    if p.len() != 2 || p.conflict() {
        return Ok(false);
    }
    let is_next = p.clause(0) == Some(&[a.negate(), b][..]);
    p.assume(&[a])?;
    Ok(is_next && p.is_true(Lit::new(3, false)))
}

#[test]
fn removed_clauses_give_back_their_memory(rt: HostRuntime) -> Result<(), Fail> {
    let mut p = Propagator::new(rt.alloc(), 3)?;
    assert!(rt; collected(&mut p)?);
    Ok(())
}
