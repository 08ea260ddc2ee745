// Laws of what a search logs.

ghost use Rattle.std.specs.Prelude.{◌≡◌, ◌*◌, ◌≤◌, ℕ, List};
ghost use Rattle.cnf_form.specs.Cnf.{LitOf, Line, Drup};
ghost use Rattle.cdcl_core.specs.Logged.{Logged, additions, deletions};

/// The logged lines are a proof that leads to the present clauses; the counts are those of its additions and deletions, and
/// these are at most half of those.
pub fn logged_lines_are_a_proof()
    ensures proof { (F G : List (List LitOf)) (lines : List Line) (n d : ℕ) → Logged F lines G n d → Drup F lines G }
    ensures added { (F G : List (List LitOf)) (lines : List Line) (n d : ℕ) → Logged F lines G n d → additions lines ≡ n }
    ensures deleted { (F G : List (List LitOf)) (lines : List Line) (n d : ℕ) → Logged F lines G n d → deletions lines ≡ d }
    ensures half { (F G : List (List LitOf)) (lines : List Line) (n d : ℕ) → Logged F lines G n d → 2 * d ≤ n }
{}
