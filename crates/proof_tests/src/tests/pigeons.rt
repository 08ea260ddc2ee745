// A proof as a solver writes it: five pigeons don't fit into four holes.

use super::judges::{formula_of, stream_told};
use cert_judge::StreamKind;
use cnf_form::Formula;
use std::alloc::{AllocError, Global};
use std::test::Fail;

// Each pigeon is in a hole, and no two are in the same. Pigeon i is in hole j, both counted from 0, where variable
// 4 i + 1 + (j - i modulo 4) is true.
const PIGEONS: &str = "\
p cnf 20 45\n1 2 3 4 0\n8 5 6 7 0\n11 12 9 10 0\n14 15 16 13 0\n17 18 19 20 0\n-1 -8 0\n-1 -11 0\n-1 -14 0\n\
-1 -17 0\n-8 -11 0\n-8 -14 0\n-8 -17 0\n-11 -14 0\n-11 -17 0\n-14 -17 0\n-2 -5 0\n-2 -12 0\n-2 -15 0\n-2 -18 0\n\
-5 -12 0\n-5 -15 0\n-5 -18 0\n-12 -15 0\n-12 -18 0\n-15 -18 0\n-3 -6 0\n-3 -9 0\n-3 -16 0\n-3 -19 0\n-6 -9 0\n\
-6 -16 0\n-6 -19 0\n-9 -16 0\n-9 -19 0\n-16 -19 0\n-4 -7 0\n-4 -10 0\n-4 -13 0\n-4 -20 0\n-7 -10 0\n-7 -13 0\n\
-7 -20 0\n-10 -13 0\n-10 -20 0\n-13 -20 0\n";

// The proof that CaDiCaL sc2021 writes of this formula, by `cadical -q --no-binary`.
const PROOF: &str = "\
-18 -19 -20 0\n-14 -19 -20 0\n-19 -20 0\nd -14 -19 -20 0\nd -18 -19 -20 0\n-1 -15 -20 0\n-15 -20 0\n\
d -1 -15 -20 0\n-3 -14 -20 0\n-14 -20 0\nd -3 -14 -20 0\n-11 -20 0\n-20 0\n-8 -12 3 0\n-4 8 18 15 5 0\n-12 3 0\n\
d -8 -12 3 0\n-19 -13 4 8 3 0\n-5 19 4 3 0\n-13 4 8 3 0\nd -19 -13 4 8 3 0\n-14 4 8 3 0\n-16 4 8 3 0\n4 8 3 0\n\
d -16 4 8 3 0\nd -14 4 8 3 0\nd -13 4 8 3 0\n-19 13 10 7 8 12 0\n-5 19 13 10 12 0\n8 3 0\nd 4 8 3 0\n-4 3 0\n\
3 0\n-6 0\n-9 0\n-16 0\n-19 0\n-11 7 0\n-13 0\n-12 0\n-17 7 0\n7 0\n-10 0\n-5 0\n11 0\n-1 0\n-8 0\n-14 0\n\
-17 0\n15 0\n18 0\n-2 0\n0\n";

// A line of the proof, what stands in its place, and what the proof is then judged as: as it is; without a line of its middle
// on which a later one rests; with a negated literal; and with the empty clause in the place of the last clause that is
// needed, after which unit propagation alone reaches a conflict and any clause is admitted.
const CHANGES: [(&str, &str, &str); 4] = [
    ("\n0\n", "\n0\n", "refuted"),
    ("\n-15 -20 0\n", "\n", "NotRup 136"),
    ("\n-12 0\n", "\n12 0\n", "NotRup 440"),
    ("\n7 0\n", "\n0\n", "NotRup 454"),
];

// What the proof is judged as where something stands in the place of a line.
fn changed_told(
    alloc: Global,
    formula: &Formula,
    line: &str,
    changed: &str,
) -> Result<String, AllocError> {
    let (front, back) = PROOF.split_once(line).unwrap_or(("", ""));
    let front = format!(in alloc; "{front}{changed}")?;
    let pieces = (front.as_bytes(), back.as_bytes());
    stream_told(alloc, formula, StreamKind::Drup, 65_536, pieces)
}

#[test]
fn pigeons_have_no_holes(rt: HostRuntime) -> Result<(), Fail> {
    let formula = formula_of(rt.alloc(), PIGEONS)?;
    for (line, changed, wanted) in CHANGES {
        let told = changed_told(rt.alloc(), &formula, line, changed)?;
        assert_eq!(rt; told.as_str(), wanted, "{line}");
    }
    Ok(())
}
