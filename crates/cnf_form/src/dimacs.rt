// DIMACS text.

ghost use Rattle.std.specs.Prelude.{◌≡◌, ℕ, List, [], ◌++◌, ◌∷◌, length, IfOk, OnOk, string_bytes};
ghost use Rattle.cnf_form.specs.Cnf.{FormulaOf};
ghost use Rattle.cnf_form.specs.Dimacs.{IsDimacs, literal_text, clause_text, dimacs_text};

use crate::formula::Formula;
use crate::literal::Lit;
use itoa::Buffer;
use std::alloc::{AllocError, Global};
use std::fmt::Write;

fn push_literal(text: &mut String, l: Lit) -> Result<(), AllocError>
    ensures { OnOk result (string_bytes text.new ≡ string_bytes text.old ++ (literal_text l ++ 32 ∷ [])) }
{
    if l.is_negated() {
        text.push('-')?;
    }
    let mut digits = Buffer::new();
    text.push_str(digits.format(l.var()))?;
    text.push(' ')
}

fn push_clause(text: &mut String, clause: &[Lit]) -> Result<(), AllocError>
    ensures { OnOk result (string_bytes text.new ≡ string_bytes text.old ++ clause_text clause.now) }
{
    for l in clause {
        push_literal(text, *l)?;
    }
    text.push_str("0\n")
}

/// The formula in DIMACS: `p cnf`, the number of variables and of clauses, then one clause a line, each literal followed
/// by one space, then `0` and a line feed.
pub fn write_dimacs(alloc: Global, formula: &Formula) -> Result<Vec<u8>, AllocError>
    ensures grammar { IfOk result (λ bytes. IsDimacs bytes.items formula.now) }
    ensures text { IfOk result (λ bytes. bytes.items ≡ dimacs_text formula.now) }
{
    let vars = formula.vars();
    let clauses = formula.clauses();
    let count = clauses.len();
    let mut text = String::new(alloc);
    write!(text, "p cnf {vars} {count}\n")?;
    for place in 0..count {
        push_clause(&mut text, clauses.get(place))?;
    }
    Ok(text.into_bytes())
}

/// Bytes are at most one formula.
pub fn dimacs_is_unambiguous()
    ensures { (bytes : List ℕ) (f g : FormulaOf) → IsDimacs bytes f → IsDimacs bytes g → f ≡ g }
{}
