//! Laws of the definitions: each function's contract is a law, and its body is empty.

ghost use Rattle.std.specs.Prelude.{◌≡◌, ◌↔◌, ◌-◌, ◌<◌, ◌≤◌, All, Bool, List, Some, slice_get, ℕ, suc, true, Contains};
ghost use Rattle.cnf_form.specs.Cnf.{Assignment, LitOf, LitWithin};
ghost use Rattle.gate_graph.specs.declared.gate.Gate.{Gate};
ghost use Rattle.gate_graph.specs.Folding.{operands};
ghost use Rattle.bit_net.specs.Net.{Frame, IsNet, NetOf, Run, Starts, Window, gate_var, state_var, vars};
ghost use Rattle.bit_net.specs.Needs.{Extends, IsNeed, PartRun, PartWindow};
ghost use Rattle.bit_net.specs.Reaching.{IsReach, is_needed, levels, nearer, reached};
ghost use Rattle.bit_net.specs.declared.node.State.{State};

/// Whatever the states and the inputs have, there is a cycle of the net in which they have it, and only one.
pub fn every_choice_has_a_frame()
    ensures some { (n : NetOf) (x : Assignment) → IsNet n → (y : Assignment) × Frame n y × ((v : ℕ) → 1 < v → v < gate_var n 0 → y v ≡ x v) }
    ensures one { (n : NetOf) (x y : Assignment) → IsNet n → Frame n x → Frame n y → ((v : ℕ) → 1 < v → v < gate_var n 0 → x v ≡ y v) → (v : ℕ) → 0 < v → v ≤ vars n → x v ≡ y v }
{}

/// A window of the net is one of each part of it.
pub fn windows_are_parts()
    ensures window { (n : NetOf) (count : ℕ) (need : ℕ → ℕ → Bool) (xs : ℕ → Assignment) → Window n count xs → PartWindow n count need xs }
    ensures run { (n : NetOf) (count : ℕ) (need : ℕ → ℕ → Bool) (xs : ℕ → Assignment) → Run n count xs → PartRun n count need xs }
{}

/// A window of a part extends to one of the net: the same at what is needed in each cycle, and as chosen at each other input, and at each
/// other state in the first cycle. A run of a part extends to a run, where the choices for the first cycle keep the start digits.
pub fn parts_extend()
    ensures window { (n : NetOf) (count : ℕ) (need : ℕ → ℕ → Bool) (rest xs : ℕ → Assignment) → IsNet n → IsNeed n count need → PartWindow n count need xs
        → (ys : ℕ → Assignment) × Extends n count need rest xs ys }
    ensures run { (n : NetOf) (count : ℕ) (need : ℕ → ℕ → Bool) (rest xs : ℕ → Assignment) → IsNet n → IsNeed n count need → PartRun n count need xs → Starts n (rest 0)
        → (ys : ℕ → Assignment) × Extends n count need rest xs ys × Run n count ys }
{}

/// What is reached by this many register steps: the literals themselves, with a gate what it reads, with a state, one step further, what it
/// takes next, and nothing else.
pub fn levels_are_reached()
    ensures now { (n : NetOf) (now before : List LitOf) (d : ℕ) (l : LitOf) → Contains now l → reached n now before d l.var ≡ true }
    ensures before { (n : NetOf) (now before : List LitOf) (d : ℕ) (l : LitOf) → Contains before l → reached n now before (suc d) l.var ≡ true }
    ensures gates { (n : NetOf) (now before : List LitOf) (d k : ℕ) (g : Gate) (o : LitOf) → IsNet n → slice_get n.gates k ≡ Some g → reached n now before d (gate_var n k) ≡ true
        → Contains (operands g) o → reached n now before d o.var ≡ true }
    ensures states { (n : NetOf) (now before : List LitOf) (d k : ℕ) (s : State) → slice_get n.states k ≡ Some s → reached n now before d (state_var k) ≡ true
        → reached n now before (suc d) s.next.var ≡ true }
    ensures further { (n : NetOf) (now before : List LitOf) (d v : ℕ) → reached n now before d v ≡ true → reached n now before (suc d) v ≡ true }
    ensures least { (n : NetOf) (now before : List LitOf) (test : ℕ → ℕ → Bool) → IsReach n now before test → (d v : ℕ) → reached n now before d v ≡ true → test d v ≡ true }
{}

/// The variables of the first levels are those that are reached, but for that which is true, each once.
pub fn levels_are_parts()
    ensures { (n : NetOf) (now before : List LitOf) (many v : ℕ) → 1 < v → v ≤ vars n → Contains (levels n now before many) v ↔ (nearer n now before many v ≡ true) }
{}

/// What the levels of a window's cycles hold may be needed alone: of as many cycles each needs the levels of the cycles that are left.
pub fn levels_are_needs()
    ensures { (n : NetOf) (now before : List LitOf) (count : ℕ) → IsNet n → IsNeed n count (λ t v. nearer n now before (count - t) v) }
{}

/// Where up to a cycle fewer literals are asked for, what is needed is a need as well.
pub fn two_levels_are_needs()
    ensures { (n : NetOf) (goals asks : List LitOf) (first count : ℕ) → IsNet n → IsNeed n count (is_needed n goals asks first count) }
{}
