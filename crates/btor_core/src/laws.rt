//! Laws of the definitions: each function's contract is a law, and its body is empty.

ghost use Rattle.std.specs.Prelude.{◌≡◌, ◌≤◌, ◌++◌, ℕ, suc, length};
ghost use Rattle.btor_core.specs.Choices.{Agree, AreChoices};
ghost use Rattle.btor_core.specs.Growth.{GoesFurther, Grows, with_body};
ghost use Rattle.btor_core.specs.Meaning.{Holds, Values};
ghost use Rattle.btor_core.specs.Shape.{BtorOf, constant_node_width, bads, bads_of, constraints, constraints_of, inits, inits_of, nexts, nexts_of, open_words, open_words_of, sort_at, state_at, width_at};
ghost use Rattle.btor_core.specs.Fits.{HasValue, IsBtor, NodeFits};
ghost use Rattle.btor_core.specs.declared.line.Body.{Body};
ghost use Rattle.btor_core.specs.declared.line.Node.{Node};

/// Whatever is chosen for inputs and states, the lines have values with it.
pub fn every_choice_has_values()
    ensures { (m : BtorOf) (choice : Values) → IsBtor m → AreChoices (open_words m.lines) choice
        → (vs : Values) × Holds m vs × Agree (open_words m.lines) choice vs }
{}

/// Values that are the same at inputs and states are the same at each line.
pub fn one_choice_has_one_value()
    ensures { (m : BtorOf) (vs us : Values) → IsBtor m → Holds m vs → Holds m us → Agree (open_words m.lines) vs us
        → (k : ℕ) → HasValue m.lines k → us k ≡ vs k }
{}

/// Each value is as wide as its line says.
pub fn values_have_their_widths()
    ensures { (m : BtorOf) (vs : Values) → IsBtor m → Holds m vs → (k : ℕ) → HasValue m.lines k → length (vs k) ≡ width_at m.lines k }
{}

/// What lines mean doesn't depend on lines after them: values of a model are values of its first lines, and each of these go on with
/// any choice for the inputs and states that were added.
pub fn first_lines_keep_their_values()
    ensures front { (m n : BtorOf) → IsBtor m → Grows m n → (vs : Values) → Holds n vs → Holds m vs }
    ensures on { (m n : BtorOf) → IsBtor m → IsBtor n → (g : Grows m n) → (vs choice : Values) → Holds m vs
        → AreChoices (open_words g.more) choice → (us : Values) × GoesFurther m n g.more vs choice us }
{}

/// Widths of values, sorts and states stay as lines and constants are added, and a node that fits goes on fitting, but for a constant,
/// whose place in the table is that of one line.
pub fn widths_stay()
    ensures values { (m n : BtorOf) → Grows m n → (k : ℕ) → HasValue m.lines k → width_at n.lines k ≡ width_at m.lines k }
    ensures sorts { (m n : BtorOf) → Grows m n → (k w : ℕ) → sort_at m.lines k ≡ w → 1 ≤ w → sort_at n.lines k ≡ w }
    ensures states { (m n : BtorOf) → Grows m n → (k w : ℕ) → state_at m.lines k ≡ w → 1 ≤ w → state_at n.lines k ≡ w }
    ensures nodes { (m n : BtorOf) → Grows m n → (w : ℕ) (x : Node) → 1 ≤ w → constant_node_width w x ≡ 0 → NodeFits m.constants m.lines w x
        → NodeFits n.constants n.lines w x }
{}

/// What a line more adds to each of the lists.
pub fn lists_grow()
    ensures inits { (m : BtorOf) (b : Body) → inits (with_body m b).lines ≡ inits m.lines ++ inits_of b }
    ensures nexts { (m : BtorOf) (b : Body) → nexts (with_body m b).lines ≡ nexts m.lines ++ nexts_of b }
    ensures constraints { (m : BtorOf) (b : Body) → constraints (with_body m b).lines ≡ constraints m.lines ++ constraints_of b }
    ensures bads { (m : BtorOf) (b : Body) → bads (with_body m b).lines ≡ bads m.lines ++ bads_of b }
    ensures open_words { (m : BtorOf) (b : Body) → open_words (with_body m b).lines ≡ open_words m.lines ++ open_words_of (suc (length m.lines)) b }
{}
