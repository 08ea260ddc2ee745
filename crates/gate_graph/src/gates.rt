// A formula that grows by inputs and gates, of which the gates are kept and not the clauses.

ghost use Rattle.std.specs.Prelude.{◌≡◌, ◌↔◌, ◌<◌, ◌≤◌, ◌+◌, Bool, ◌&&◌, not, if◌then◌else◌, true, false, [], IfOk, IfErr, IfSome, IfNone, IsFalse, IsTrue, OnOk, Contains};
ghost use Rattle.cnf_form.specs.Cnf.{Assignment, LitOf, LitWithin, lit_in, negate};
ghost use Rattle.cnf_form.specs.declared.literal.TheConstants.{MAX_VARS};
ghost use Rattle.gate_graph.specs.Circuit.{GatesOf, IsGates, MakesGate, MakesInput, Means};
ghost use Rattle.gate_graph.specs.Folding.{asked, bit, constant, majority, operands, xor};
ghost use Rattle.gate_graph.specs.Kept.{AreKept, HasRoom, IsFull, IsNew, IsRefused, IsRising, OthersWithin, Settles, lit_of, out_of_memory, with_gate, with_input};

use crate::clauses::push_clauses;
use crate::gate::{Asked, Gate, fold};
use crate::kept::Kept;
use cnf_form::{Formula, Lit, MAX_VARS};
use std::alloc::{AllocError, Global};
use std::marker::Model;

/// Why a call made no gate.
#[derive(Clone, Copy, Debug, PartialEq, Eq)]
pub enum GateFault {
    /// The next gate would be one variable more than there may be.
    TooMany,
    /// Memory ran out, in this call or before.
    Memory,
}

impl From<AllocError> for GateFault {
    ghost use Rattle.std.specs.Prelude.{◌≡◌};
    ghost use Rattle.gate_graph.specs.declared.gates.GateFault.TheVariants.{Memory};

    ghost from_gives = { λ _ e. e ≡ Memory };

    fn from(_: AllocError) -> Self {
        GateFault::Memory
    }
}

/// Inputs and gates over them, which stand for the clauses that say what each gate is. A gate that is asked for again has the literal
/// that it had, and what an operand decides alone (a constant, an equal or an opposite one) is no gate.
///
/// Once a call wanted memory, each later call for an input or a gate answers `Memory`; nothing that was there is lost.
#[derive(Drop)]
pub struct Gates {
    // The variables so far, of which variable 1 is true, and how many there may be.
    vars: u32,
    most: u32,
    inputs: Vec<u32>,
    // The gates that were made, each with its literal.
    kept: Kept,
    // Whether memory ran out.
    spent: bool,
}

impl Model for Gates {
    ghost use Rattle.gate_graph.specs.Circuit.{GatesOf};
    ghost use Rattle.gate_graph.specs.Kept.{clauses_from, gates_of, IsKept};

    ghost Value = { GatesOf };

    ghost view = { λ g. gates_of g.vars g.most (clauses_from g.kept) g.inputs.items g.kept g.spent };

    ghost invariant = { λ g. IsKept g.vars g.most g.inputs.items g.kept };
}

impl Gates {
    /// No input and no gate, but the literals of the constants, and room for `MAX_VARS` variables.
    pub fn new(alloc: Global) -> Result<Self, AllocError>
        ensures vars { IfOk result (λ g. g.formula.vars ≡ 1) }
        ensures most { IfOk result (λ g. g.most ≡ MAX_VARS) }
        ensures inputs { IfOk result (λ g. g.inputs ≡ []) }
        ensures kept { IfOk result (λ g. g.kept ≡ []) }
        ensures live { IfOk result (λ g. g.spent ≡ false) }
    {
        Gates::within(alloc, MAX_VARS)
    }

    /// No input and no gate, but the literals of the constants, which take one variable. There may be `most` variables, from 1 to `MAX_VARS`.
    pub fn within(alloc: Global, most: u32) -> Result<Self, AllocError>
        requires some { 1 ≤ most }
        requires limit { most ≤ MAX_VARS }
        ensures vars { IfOk result (λ g. g.formula.vars ≡ 1) }
        ensures most { IfOk result (λ g. g.most ≡ most) }
        ensures inputs { IfOk result (λ g. g.inputs ≡ []) }
        ensures kept { IfOk result (λ g. g.kept ≡ []) }
        ensures live { IfOk result (λ g. g.spent ≡ false) }
    {
        let kept = Kept::new(alloc)?;
        Ok(Gates {
            vars: 1,
            most,
            inputs: Vec::new(alloc),
            kept,
            spent: false,
        })
    }

    /// The number of variables, which are numbered from 1.
    pub fn vars(&self) -> u32
        ensures { result ≡ self.now.formula.vars }
    {
        self.vars
    }

    /// Whether all variables are taken: then an input, and each gate that is neither folded nor kept, is refused.
    pub fn is_full(&self) -> bool
        ensures full { IsTrue result ↔ (self.now.formula.vars ≡ self.now.most) }
        ensures room { IsFalse result ↔ (self.now.formula.vars < self.now.most) }
    {
        self.vars == self.most
    }

    /// The variables of the inputs, in the order in which they were made.
    pub fn inputs(&self) -> &[u32]
        ensures { result.now ≡ self.now.inputs }
    {
        self.inputs.as_slice()
    }

    /// What holds of all gates.
    pub fn promise(&self)
        ensures gates { IsGates self.now }
        ensures kept { AreKept self.now }
        ensures room { HasRoom self.now }
        ensures rising { IsRising self.now.formula.vars self.now.inputs self.now.kept }
    {
        let _ = &self.vars;
    }

    /// The literal that has this value.
    pub fn constant(&self, value: bool) -> Lit
        ensures literal { result ≡ constant value }
        ensures means { Means self.now result (λ _. value) }
        ensures within { LitWithin self.now.formula.vars result }
    {
        let _ = &self.vars;
        Lit::new(1, !value)
    }

    /// The literal that is true where `l` is not.
    pub fn not(&self, l: Lit) -> Lit
        ensures negation { result ≡ negate l }
        ensures means { (x : Assignment) → lit_in x result ≡ not (lit_in x l) }
    {
        l.negate()
    }

    /// A literal that may have either value: a variable, and not its negation. After `TooMany` the gates are as they were.
    pub fn input(&mut self) -> Result<Lit, GateFault>
        ensures input { IfOk result (MakesInput self.old self.new) }
        ensures new { OnOk result (self.new ≡ with_input self.old) }
        ensures too_many { (result ≡ Err GateFault.TooMany) ↔ IsFull self.old }
        ensures refused { result ≡ Err GateFault.TooMany → self.new ≡ self.old }
        ensures memory { result ≡ Err GateFault.Memory → self.new ≡ out_of_memory self.old }
        ensures for_good { self.old.spent ≡ true → result ≡ Err GateFault.Memory }
    {
        if self.spent {
            return Err(GateFault::Memory);
        }
        if self.is_full() {
            return Err(GateFault::TooMany);
        }
        // Until all of it is there.
        self.spent = true;
        let input = Lit::new(self.vars + 1, false);
        match self.inputs.push(input.var()) {
            Ok(()) => {}
            Err(_) => return Err(GateFault::Memory),
        }
        self.vars += 1;
        self.spent = false;
        Ok(input)
    }

    /// The literal that is true where both are. After `TooMany` the gates are as they were.
    pub fn and(&mut self, a: Lit, b: Lit) -> Result<Lit, GateFault>
        requires a { LitWithin self.old.formula.vars a }
        requires b { LitWithin self.old.formula.vars b }
        ensures settles { IfOk result (Settles self.old (asked (Gate.And a b)) self.new) }
        ensures gate { IfOk result (MakesGate self.old self.new (λ x. lit_in x a && lit_in x b)) }
        ensures too_many { (result ≡ Err GateFault.TooMany) ↔ IsRefused self.old (asked (Gate.And a b)) }
        ensures full { result ≡ Err GateFault.TooMany → IsFull self.old }
        ensures refused { result ≡ Err GateFault.TooMany → self.new ≡ self.old }
        ensures memory { result ≡ Err GateFault.Memory → self.new ≡ out_of_memory self.old }
        ensures for_good { self.old.spent ≡ true → result ≡ Err GateFault.Memory }
    {
        self.gate(Gate::And(a, b))
    }

    /// The literal that is true where one of the two is, and not both. After `TooMany` the gates are as they were.
    pub fn xor(&mut self, a: Lit, b: Lit) -> Result<Lit, GateFault>
        requires a { LitWithin self.old.formula.vars a }
        requires b { LitWithin self.old.formula.vars b }
        ensures settles { IfOk result (Settles self.old (asked (Gate.Xor a b)) self.new) }
        ensures gate { IfOk result (MakesGate self.old self.new (λ x. xor (lit_in x a) (lit_in x b))) }
        ensures too_many { (result ≡ Err GateFault.TooMany) ↔ IsRefused self.old (asked (Gate.Xor a b)) }
        ensures full { result ≡ Err GateFault.TooMany → IsFull self.old }
        ensures refused { result ≡ Err GateFault.TooMany → self.new ≡ self.old }
        ensures memory { result ≡ Err GateFault.Memory → self.new ≡ out_of_memory self.old }
        ensures for_good { self.old.spent ≡ true → result ≡ Err GateFault.Memory }
    {
        self.gate(Gate::Xor(a, b))
    }

    /// The literal that is `b` where `s` is true, and else `a`. After `TooMany` the gates are as they were.
    pub fn mux(&mut self, s: Lit, a: Lit, b: Lit) -> Result<Lit, GateFault>
        requires s { LitWithin self.old.formula.vars s }
        requires a { LitWithin self.old.formula.vars a }
        requires b { LitWithin self.old.formula.vars b }
        ensures settles { IfOk result (Settles self.old (asked (Gate.Mux s a b)) self.new) }
        ensures gate { let chosen = λ (x : Assignment). if lit_in x s then lit_in x b else lit_in x a in
            IfOk result (MakesGate self.old self.new chosen) }
        ensures too_many { (result ≡ Err GateFault.TooMany) ↔ IsRefused self.old (asked (Gate.Mux s a b)) }
        ensures full { result ≡ Err GateFault.TooMany → IsFull self.old }
        ensures refused { result ≡ Err GateFault.TooMany → self.new ≡ self.old }
        ensures memory { result ≡ Err GateFault.Memory → self.new ≡ out_of_memory self.old }
        ensures for_good { self.old.spent ≡ true → result ≡ Err GateFault.Memory }
    {
        self.gate(Gate::Mux(s, a, b))
    }

    /// The literal that is true where two of the three are. After `TooMany` the gates are as they were.
    pub fn maj(&mut self, a: Lit, b: Lit, c: Lit) -> Result<Lit, GateFault>
        requires a { LitWithin self.old.formula.vars a }
        requires b { LitWithin self.old.formula.vars b }
        requires c { LitWithin self.old.formula.vars c }
        ensures settles { IfOk result (Settles self.old (asked (Gate.Maj a b c)) self.new) }
        ensures gate { IfOk result (MakesGate self.old self.new (λ x. majority (lit_in x a) (lit_in x b) (lit_in x c))) }
        ensures too_many { (result ≡ Err GateFault.TooMany) ↔ IsRefused self.old (asked (Gate.Maj a b c)) }
        ensures full { result ≡ Err GateFault.TooMany → IsFull self.old }
        ensures refused { result ≡ Err GateFault.TooMany → self.new ≡ self.old }
        ensures memory { result ≡ Err GateFault.Memory → self.new ≡ out_of_memory self.old }
        ensures for_good { self.old.spent ≡ true → result ≡ Err GateFault.Memory }
    {
        self.gate(Gate::Maj(a, b, c))
    }

    /// The literal of a gate: one that is there where it is folded or was made before, else a new variable's. Refused only where it
    /// is neither, and would be one variable too many; the gates are then as they were.
    pub fn gate(&mut self, gate: Gate) -> Result<Lit, GateFault>
        requires within { OthersWithin self.old.formula.vars (operands gate) }
        ensures settles { IfOk result (Settles self.old (asked gate) self.new) }
        ensures gate { IfOk result (MakesGate self.old self.new (bit gate)) }
        ensures too_many { (result ≡ Err GateFault.TooMany) ↔ IsRefused self.old (asked gate) }
        ensures full { result ≡ Err GateFault.TooMany → IsFull self.old }
        ensures refused { result ≡ Err GateFault.TooMany → self.new ≡ self.old }
        ensures memory { result ≡ Err GateFault.Memory → self.new ≡ out_of_memory self.old }
        ensures for_good { self.old.spent ≡ true → result ≡ Err GateFault.Memory }
    {
        if self.spent {
            return Err(GateFault::Memory);
        }
        match fold(gate) {
            Asked::Is(l) => Ok(l),
            Asked::Make(key, negated) => {
                let l = self.find_or_make(key)?;
                Ok(if negated { l.negate() } else { l })
            }
        }
    }

    /// The formula of what has been built so far, remade. A clause that is pushed after says what is to hold of the gates.
    pub fn formula(&self, alloc: Global) -> Result<Formula, AllocError>
        ensures { IfOk result (λ f. f ≡ self.now.formula) }
    {
        let mut formula = Formula::new(alloc, self.vars);
        formula.push(&[Lit::new(1, false)])?;
        for entry in self.kept.entries() {
            push_clauses(&mut formula, &entry.0, entry.1)?;
        }
        Ok(formula)
    }

    /// The gates that were made, each with its literal, in the order in which they were made. What else there is is dropped.
    pub fn into_kept(self) -> Vec<(Gate, Lit)>
        ensures { result.items ≡ self.kept }
    {
        let Gates { kept, .. } = self;
        kept.into_entries()
    }

    // The literal of a gate that is not folded.
    fn find_or_make(&mut self, key: Gate) -> Result<Lit, GateFault>
        requires live { self.old.spent ≡ false }
        requires within { OthersWithin self.old.formula.vars (operands key) }
        ensures found { IfOk result (λ l. Settles self.old (Asked.Make key false) self.new l) }
        ensures too_many { (result ≡ Err GateFault.TooMany) ↔ IsRefused self.old (Asked.Make key false) }
        ensures refused { result ≡ Err GateFault.TooMany → self.new ≡ self.old }
        ensures memory { result ≡ Err GateFault.Memory → self.new ≡ out_of_memory self.old }
    {
        if let Some(l) = self.find(&key) {
            return Ok(l);
        }
        if self.is_full() {
            return Err(GateFault::TooMany);
        }
        self.make(key)
    }

    // The literal that was made for a gate.
    fn find(&self, key: &Gate) -> Option<Lit>
        ensures found { IfSome result (λ l. Contains self.now.kept (key.now, l)) }
        ensures missing { IfNone result (IsNew self.now key.now) }
    {
        self.kept.get(key)
    }

    // One more variable, which is this gate.
    fn make(&mut self, key: Gate) -> Result<Lit, GateFault>
        requires live { self.old.spent ≡ false }
        requires room { self.old.formula.vars < self.old.most }
        requires within { OthersWithin self.old.formula.vars (operands key) }
        requires new { IsNew self.old key }
        ensures made { IfOk result (λ l. (l ≡ lit_of (self.old.formula.vars + 1) true) × (self.new ≡ with_gate self.old key)) }
        ensures memory { IfErr result (λ e. (e ≡ GateFault.Memory) × (self.new ≡ out_of_memory self.old)) }
    {
        // Until all of it is there.
        self.spent = true;
        let l = Lit::new(self.vars + 1, false);
        self.kept.push(key, l)?;
        self.vars += 1;
        self.spent = false;
        Ok(l)
    }
}
