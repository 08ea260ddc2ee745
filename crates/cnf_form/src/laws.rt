// Laws of unit propagation and of proofs.

ghost use Rattle.std.specs.Prelude.{◌≡◌, ◌↔◌, true, Bool, List, [], ◌∷◌, ◌++◌, Contains};
ghost use Rattle.cnf_form.specs.Cnf.{LitOf, Assignment, Satisfies, SatisfiesClause, IsUnsatisfiable, Closure, IsClosed, IsAdmitted, SameClause, Includes, Deletes, Line, Addition, Drup};

/// The closure is the least set that is closed under unit propagation.
pub fn closure_is_least()
    ensures { (F : List (List LitOf)) (s : LitOf → Bool) → IsClosed F s
        → (l : LitOf) → Closure F l → s l ≡ true }
{}

/// What satisfies the clauses makes an admitted clause true.
pub fn admitted_is_true()
    ensures { (F : List (List LitOf)) (c : List LitOf) → IsAdmitted F c
        → (x : Assignment) → Satisfies x F → SatisfiesClause x c }
{}

/// Admission is monotone in the clauses, and reads them and the clause itself as sets: neither order nor repetition
/// matters.
pub fn admission_is_monotone()
    ensures { (F G : List (List LitOf)) (c d : List LitOf) → Includes F G → SameClause c d
        → IsAdmitted F c → IsAdmitted G d }
{}

/// A deletion never changes the closure.
pub fn deletion_keeps_closure()
    ensures { (F G : List (List LitOf)) (c : List LitOf) → Deletes F c G
        → (l : LitOf) → Closure F l ↔ Closure G l }
{}

/// What satisfies the clauses satisfies what the lines of a proof lead to.
pub fn proof_keeps_models()
    ensures { (F G : List (List LitOf)) (lines : List Line) → Drup F lines G
        → (x : Assignment) → Satisfies x F → Satisfies x G }
{}

/// Where the lines of a proof end in the empty clause, or lead to clauses that admit it, no assignment satisfies the
/// clauses.
pub fn proof_is_sound()
    ensures ends { (F G : List (List LitOf)) (lines : List Line)
        → Drup F (lines ++ Addition [] ∷ []) G → IsUnsatisfiable F }
    ensures admits { (F G : List (List LitOf)) (lines : List Line)
        → Drup F lines G → IsAdmitted G [] → IsUnsatisfiable F }
{}
