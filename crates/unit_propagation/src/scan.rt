// Where a clause stands under a trail.

ghost use Rattle.std.specs.Prelude.{◌≡◌, ◌≢◌, ◌≤◌, All, Contains};
ghost use Rattle.cnf_form.specs.Cnf.{LitOf, negate};
ghost use Rattle.unit_propagation.specs.Marks.{IsBelow};
ghost use Rattle.unit_propagation.specs.Scanned.{StandingFits};

use crate::trail::Trail;
use cnf_form::Lit;

pub(crate) enum Standing {
    Falsified,
    Satisfied,
    // One literal is unassigned, and all others are false.
    One(Lit),
    // Two literals are unassigned, and no literal before the second is true.
    Two(Lit, Lit),
}

pub(crate) fn scan_clause(clause: &[Lit], trail: &Trail) -> Standing
    requires { All (IsBelow trail.now.vars) clause.now }
    ensures { StandingFits trail.now.lits clause.now result }
{
    let mut open = None;
    for l in clause {
        let l = *l;
        if trail.is_true(l) {
            return Standing::Satisfied;
        }
        if !trail.is_true(l.negate()) {
            match open {
                None => {
                    open = Some(l);
                }
                Some(other) => {
                    if other != l {
                        return Standing::Two(other, l);
                    }
                }
            }
        }
    }
    match open {
        None => Standing::Falsified,
        Some(l) => Standing::One(l),
    }
}
