// Clauses kept, and DIMACS read and written.

use cnf_form::{Formula, Lit, read_dimacs, write_dimacs};
use std::alloc::{AllocError, Global};
use std::test::Fail;

fn two_clauses(alloc: Global) -> Result<Formula, AllocError> {
    let mut formula = Formula::new(alloc, 2);
    formula.push(&[Lit::new(1, false), Lit::new(2, true)])?;
    formula.push(&[])?;
    Ok(formula)
}

// Whether a copy is as it was, and the formula without its first clause.
fn is_copied(formula: &mut Formula, copy: &Formula) -> bool {
    if formula.clauses().is_empty() {
        return false;
    }
    formula.remove(0);
    let (left, clauses) = (formula.clauses(), copy.clauses());
    left.len() == 1
        && left.get(0).is_empty()
        && copy.vars() == 2
        && clauses.len() == 2
        && clauses.get(0) == [Lit::new(1, false), Lit::new(2, true)].as_slice()
}

#[test]
fn holds_clauses(rt: HostRuntime) -> Result<(), Fail> {
    let mut formula = two_clauses(rt.alloc())?;
    let copy = formula.copy(rt.alloc())?;
    assert!(rt; is_copied(&mut formula, &copy));
    let lit = Lit::new(2, true);
    assert!(rt; lit.var() == 2 && lit.is_negated() && lit.negate().index() == 4);
    Ok(())
}

// After a mark what is written of the formula that is read, or the fault and its byte; and the text.
const TEXTS: &str = "p cnf 0 0\n=p cnf 0 0\n\
#p cnf 1 1\n0\n=p cnf 1 1\n0\n\
#p cnf 134217728 2\n10 -134217728 0\n-1 0\n=p cnf 134217728 2\n10 -134217728 0\n-1 0\n\
#p cnf 3 4\n1 1 -1 0\n0\n3 0\n-2 -3 0\n=p cnf 3 4\n1 1 -1 0\n0\n3 0\n-2 -3 0\n\
#p cnf 2 2\n1 -2 0\n2 0\n=c a\n \tc b\r\np\ncnf\t2\n2\nc c\n1\n-2\n0 2 0\nc d\
#Header 0=#Header 5=c a\n #Header 0=x#Header 2=p\nc a\ncnf 1 1\n#Header 5=p cnf#Header 6=p cnf 134217729 1\n\
#Header 6=p cnf 01 1\n#Header 8=p cnf 1 -1\n#Literal 10=p cnf 1 1\n2 0\n#Literal 10=p cnf 1 1 c\n1 0\n\
#Literal 12=p cnf 2 9\n1\nc a\n2 0\n#Literal 10=p cnf 2 1\n-0 0\n#Literal 14=p cnf 2 1\n1 0 c\n#Count 13=p cnf 2 1\n1 2\
#Count 10=p cnf 2 1\n#Count 18=p cnf 2 1\n1 0 2 0\n#Count 33=p cnf 2 99999999999999999999\n1 0\n";

// What is written of a text's formula, or its fault.
fn answered(alloc: Global, text: &str) -> Result<Vec<u8>, AllocError> {
    match read_dimacs(alloc, text.as_bytes())? {
        Ok(formula) => write_dimacs(alloc, &formula),
        Err(fault) => Ok(format!(in alloc; "{:?} {}", fault.kind, fault.byte)?.into_bytes()),
    }
}

#[test]
fn texts_are_read_and_written(rt: HostRuntime) -> Result<(), Fail> {
    for row in TEXTS.split('#') {
        let (wanted, text) = row.split_once('=').unwrap_or((row, ""));
        assert_eq!(rt;
            answered(rt.alloc(), text)?.as_slice(),
            wanted.as_bytes(),
            "{row}"
        );
    }
    Ok(())
}
