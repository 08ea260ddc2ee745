//! Laws of the definitions: each function's contract is a law, and its body is empty.

ghost use Rattle.std.specs.Prelude.{◌≡◌, ◌↔◌, ◌^◌, ◌≤◌, ◌∷◌, [], None, false, ℕ};
ghost use Rattle.cnf_form.specs.Cnf.{Assignment, Satisfies};
ghost use Rattle.cnf_form.specs.Dimacs.{IsDimacs, dimacs_text};
ghost use Rattle.bit_net.specs.Net.{IsNet, NetOf};
ghost use Rattle.gate_graph.specs.declared.gate.Gate.{Gate};
ghost use Rattle.gate_graph.specs.declared.gate.Asked.TheVariants.{Make};
ghost use Rattle.gate_graph.specs.Folding.{asked, operands};
ghost use Rattle.gate_graph.specs.Kept.{OthersWithin};
ghost use Rattle.net_unroll.specs.Asking.{AreCycles, Solvable, Solves, goal_of};
ghost use Rattle.net_unroll.specs.Counting.{most_made};
ghost use Rattle.net_unroll.specs.Encoding.{bound, encoding, formula_of, made};
ghost use Rattle.net_unroll.specs.Promises.{CanBeSatisfied, Folded, HasOrigins, IsFolded, IsTold, Propagates, Shared, Tight, cycles_told};

use crate::asking::{Asked, Cycles};

/// Where there is nothing to ask for, the formula has one variable and the empty clause.
pub fn nothing_asked_is_empty()
    ensures { (n : NetOf) (a : Asked) (c : Cycles) → goal_of n a ≡ None → formula_of (encoding n a c) ≡ record { vars = 1; clauses = [] ∷ [] } }
{}

/// No more variables are made than there are inputs and gates in the cycles' parts, and gates that watch what is asked.
pub fn what_is_made_is_bounded()
    ensures { (n : NetOf) (a : Asked) (c : Cycles) → made n a c ≤ bound n a c }
{}

/// No more variables are made than counting tells: that which is true, the states, and for each cycle the inputs, the gates, and four.
pub fn what_is_made_is_counted()
    ensures { (n : NetOf) (a : Asked) (c : Cycles) → made n a c ≤ most_made n c.count }
{}

/// The text of the formula is one of it in DIMACS.
pub fn formulas_have_texts()
    ensures { (n : NetOf) (a : Asked) (c : Cycles) → IsNet n → made n a c ≤ 2 ^ 27 → IsDimacs (dimacs_text (formula_of (encoding n a c))) (formula_of (encoding n a c)) }
{}

/// The formula can be satisfied exactly where what is asked can be solved.
pub fn encodings_tell_what_can_be_solved()
    ensures { (n : NetOf) (a : Asked) (c : Cycles) → IsNet n → made n a c ≤ 2 ^ 27 → CanBeSatisfied (formula_of (encoding n a c)) ↔ Solvable n a c }
{}

/// Whatever an assignment says, there are cycles that have the bits that it tells. Where it satisfies the formula, they are no more than are
/// asked about, and all such cycles solve what is asked.
pub fn assignments_tell_what_solves()
    ensures some { (n : NetOf) (a : Asked) (c : Cycles) → IsNet n → made n a c ≤ 2 ^ 27 → (x : Assignment)
        → (xs : ℕ → Assignment) × AreCycles c.start n (cycles_told c (encoding n a c) x) xs × IsTold n c (encoding n a c) x xs }
    ensures few { (n : NetOf) (a : Asked) (c : Cycles) → IsNet n → made n a c ≤ 2 ^ 27 → (x : Assignment) → Satisfies x (formula_of (encoding n a c)).clauses → cycles_told c (encoding n a c) x ≤ c.count }
    ensures solves { (n : NetOf) (a : Asked) (c : Cycles) → IsNet n → made n a c ≤ 2 ^ 27 → (x : Assignment) (xs : ℕ → Assignment) → Satisfies x (formula_of (encoding n a c)).clauses
        → AreCycles c.start n (cycles_told c (encoding n a c) x) xs → IsTold n c (encoding n a c) x xs → Solves n a c (cycles_told c (encoding n a c) x) xs }
{}

/// Free variables stand for open bits on which what is asked rests, no two for one.
pub fn free_variables_are_open_bits()
    ensures { (n : NetOf) (a : Asked) (c : Cycles) → IsNet n → made n a c ≤ 2 ^ 27 → HasOrigins n a c (encoding n a c) }
{}

/// Unit propagation from the free variables fixes every variable.
pub fn free_variables_fix_all()
    ensures { (n : NetOf) (a : Asked) (c : Cycles) → IsNet n → made n a c ≤ 2 ^ 27 → Propagates (encoding n a c) }
{}

/// No variable is idle: each is one of the last clause, or one on which these rest, by a clause.
pub fn formulas_are_tight()
    ensures vars { (n : NetOf) (a : Asked) (c : Cycles) → IsNet n → made n a c ≤ 2 ^ 27 → (1 ≤ (formula_of (encoding n a c)).vars) × ((formula_of (encoding n a c)).vars ≤ made n a c) }
    ensures tight { (n : NetOf) (a : Asked) (c : Cycles) → IsNet n → made n a c ≤ 2 ^ 27 → Tight (formula_of (encoding n a c)) }
{}

/// No gate is there twice, and none that folds: no operand is constant, no two are of one variable, and their order and signs are in normal
/// form.
pub fn encodings_are_shared_and_folded()
    ensures shared { (n : NetOf) (a : Asked) (c : Cycles) → IsNet n → made n a c ≤ 2 ^ 27 → Shared (encoding n a c) }
    ensures folded { (n : NetOf) (a : Asked) (c : Cycles) → IsNet n → made n a c ≤ 2 ^ 27 → Folded (encoding n a c) }
{}

/// A gate is in normal form exactly where a call for it makes it as it is.
pub fn folded_gates_are_made()
    ensures { (v : ℕ) (g : Gate) → OthersWithin v (operands g) → IsFolded g ↔ (asked g ≡ Make g false) }
{}
