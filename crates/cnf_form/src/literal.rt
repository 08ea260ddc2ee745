// Literals.

ghost use Rattle.std.specs.Prelude.{◌≡◌, ◌↔◌, ℕ, ◌+◌, ◌*◌, ◌<◌, ◌≤◌, IsTrue};
ghost use Rattle.cnf_form.specs.Cnf.{LitOf, negate, index_of};

use std::marker::Model;

/// A formula has at most this many variables, numbered from 1.
pub const MAX_VARS: u32 = 1 << 27;

/// A literal: a variable, or its negation.
#[derive(Clone, Copy, Debug, PartialEq, Eq, Hash)]
pub struct Lit {
    // Twice the variable, and one more where it is negated.
    code: u32,
}

impl Model for Lit {
    ghost use Rattle.std.specs.Prelude.{◌≤◌, ◌<◌, ◌^◌};
    ghost use Rattle.std.proofs.Common.{ap};
    ghost use Rattle.cnf_form.specs.Cnf.{LitOf, index_of};
    ghost use Rattle.cnf_form.specs.Coding.{lit_from, index_of-lit_from};

    ghost Value = { LitOf };

    ghost use Rattle.cnf_form.specs.declared.literal.Lit.TheInside.{Inside};

    ghost view = { λ a. lit_from a.code };

    ghost invariant = { λ a. a.code < 2 ^ 29 };

    ghost inverse = { λ l. record { code = index_of l } };

    ghost inverse_ok = { λ a h. ap (λ n. let i : Inside = record { code = n } in i) (index_of-lit_from a.code) };
}

impl Lit {
    /// The literal of a variable, from 1 to `MAX_VARS`.
    pub fn new(var: u32, negated: bool) -> Self
        requires above { 0 < var }
        requires limit { var ≤ MAX_VARS }
        ensures var { result.var ≡ var }
        ensures negated { result.negated ≡ negated }
    {
        let sign = if negated { 1 } else { 0 };
        Lit {
            code: 2 * var + sign,
        }
    }

    /// Its variable.
    pub fn var(self) -> u32
        ensures { result ≡ self.var }
    {
        self.code / 2
    }

    /// Whether it is the variable's negation.
    pub fn is_negated(self) -> bool
        ensures { result ≡ self.negated }
    {
        self.code % 2 == 1
    }

    /// The literal of the same variable with the other sign.
    pub fn negate(self) -> Self
        ensures { result ≡ negate self }
    {
        let code = if self.is_negated() {
            self.code - 1
        } else {
            self.code + 1
        };
        Lit { code }
    }

    /// Its place in a table that has two places for each variable: twice the variable, and one more where it is negated.
    pub fn index(self) -> usize
        ensures { result ≡ index_of self }
    {
        self.code as usize
    }
}

/// Two literals that have one place are the same.
pub fn places_differ()
    ensures { (l m : LitOf) → index_of l ≡ index_of m → l ≡ m }
{}
