// Laws of a pair's text.

ghost use Rattle.std.specs.Prelude.{◌≡◌};
ghost use Rattle.cnf_form.specs.Dimacs.{IsDimacs};
ghost use Rattle.pair_form.specs.Pair.{IsPair, IsSamePair, PairOf};
ghost use Rattle.pair_form.specs.Text.{pair_text};

/// A pair's text is its formula in DIMACS.
#[tactic(auto, using(crate::proofs::Leading::text_is_dimacs))]
pub fn texts_are_dimacs()
    ensures { (p : PairOf) → IsPair p → IsDimacs (pair_text p) p.formula }
{}

/// Two pairs of one text are the same, but for bits without literals after the last that has some.
#[tactic(auto, using(crate::proofs::Unambiguous::one_pair))]
pub fn texts_have_one_pair()
    ensures { (p q : PairOf) → IsPair p → IsPair q → pair_text p ≡ pair_text q → IsSamePair p q }
{}
