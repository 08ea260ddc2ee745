//! Each operator at words of four bits, worked out by hand, as laws of its definition: each function does nothing.

ghost use Rattle.std.specs.Prelude.{◌≡◌, [], ◌∷◌, false, true};
ghost use Rattle.btor_core.specs.declared.line.Binary.TheVariants.{
  Add,
  And,
  Concat,
  Eq,
  Mul,
  Neq,
  Or,
  Sdiv,
  Sll,
  Slt,
  Slte,
  Sra,
  Srem,
  Srl,
  Sub,
  Udiv,
  Ult,
  Ulte,
  Urem,
  Xor,
};
ghost use Rattle.btor_core.specs.declared.line.Node.TheVariants.{Const, Ite, One, Ones, Sext, Slice, Uext, Zero};
ghost use Rattle.btor_core.specs.declared.line.Unary.TheVariants.{Neg, Not, Redand, Redor, Redxor};
ghost use Rattle.btor_core.specs.Meaning.{NodeHolds, binary_row, unary_row};
ghost use Rattle.btor_core.specs.Worked.{three, word};

/// Of 6, which is `0110`, and of its bits.
pub fn worked_unary()
    ensures not { unary_row Not 4 (word 4 6) ≡ word 4 9 }
    ensures neg { unary_row Neg 4 (word 4 6) ≡ word 4 10 }
    ensures neg_least { unary_row Neg 4 (word 4 8) ≡ word 4 8 }
    ensures redand { unary_row Redand 1 (word 4 6) ≡ word 1 0 }
    ensures redand_ones { unary_row Redand 1 (word 4 15) ≡ word 1 1 }
    ensures redor { unary_row Redor 1 (word 4 6) ≡ word 1 1 }
    ensures redxor { unary_row Redxor 1 (word 4 6) ≡ word 1 0 }
    ensures redxor_odd { unary_row Redxor 1 (word 4 7) ≡ word 1 1 }
{}

/// Of 12 and 10, `1100` and `1010`; sums and products are cut to four bits.
pub fn worked_arithmetic()
    ensures and { binary_row And 4 (word 4 12) (word 4 10) ≡ word 4 8 }
    ensures or { binary_row Or 4 (word 4 12) (word 4 10) ≡ word 4 14 }
    ensures xor { binary_row Xor 4 (word 4 12) (word 4 10) ≡ word 4 6 }
    ensures add { binary_row Add 4 (word 4 12) (word 4 10) ≡ word 4 6 }
    ensures sub { binary_row Sub 4 (word 4 10) (word 4 12) ≡ word 4 14 }
    ensures mul { binary_row Mul 4 (word 4 12) (word 4 10) ≡ word 4 8 }
{}

/// Quotients and remainders, of 9 as such and as -7, by 2 and by 0.
pub fn worked_divisions()
    ensures udiv { binary_row Udiv 4 (word 4 9) (word 4 2) ≡ word 4 4 }
    ensures urem { binary_row Urem 4 (word 4 9) (word 4 2) ≡ word 4 1 }
    ensures sdiv { binary_row Sdiv 4 (word 4 9) (word 4 2) ≡ word 4 13 }
    ensures srem { binary_row Srem 4 (word 4 9) (word 4 2) ≡ word 4 15 }
    ensures udiv_zero { binary_row Udiv 4 (word 4 9) (word 4 0) ≡ word 4 15 }
    ensures urem_zero { binary_row Urem 4 (word 4 9) (word 4 0) ≡ word 4 9 }
    ensures sdiv_zero { binary_row Sdiv 4 (word 4 9) (word 4 0) ≡ word 4 1 }
    ensures sdiv_zero_positive { binary_row Sdiv 4 (word 4 7) (word 4 0) ≡ word 4 15 }
    ensures srem_zero { binary_row Srem 4 (word 4 9) (word 4 0) ≡ word 4 9 }
    ensures sdiv_least { binary_row Sdiv 4 (word 4 8) (word 4 15) ≡ word 4 8 }
{}

/// Shifts of 10, `1010`, and past the width.
pub fn worked_shifts()
    ensures sll { binary_row Sll 4 (word 4 10) (word 4 1) ≡ word 4 4 }
    ensures srl { binary_row Srl 4 (word 4 10) (word 4 1) ≡ word 4 5 }
    ensures sra { binary_row Sra 4 (word 4 10) (word 4 1) ≡ word 4 13 }
    ensures sll_past { binary_row Sll 4 (word 4 10) (word 4 5) ≡ word 4 0 }
    ensures srl_past { binary_row Srl 4 (word 4 10) (word 4 5) ≡ word 4 0 }
    ensures sra_past { binary_row Sra 4 (word 4 10) (word 4 5) ≡ word 4 15 }
{}

/// Comparisons of 3 and 12, which is -4.
pub fn worked_comparisons()
    ensures eq { binary_row Eq 1 (word 4 3) (word 4 12) ≡ word 1 0 }
    ensures neq { binary_row Neq 1 (word 4 3) (word 4 12) ≡ word 1 1 }
    ensures ult { binary_row Ult 1 (word 4 3) (word 4 12) ≡ word 1 1 }
    ensures ulte { binary_row Ulte 1 (word 4 12) (word 4 3) ≡ word 1 0 }
    ensures slt { binary_row Slt 1 (word 4 3) (word 4 12) ≡ word 1 0 }
    ensures slte { binary_row Slte 1 (word 4 12) (word 4 3) ≡ word 1 1 }
    ensures ulte_same { binary_row Ulte 1 (word 4 3) (word 4 3) ≡ word 1 1 }
    ensures slte_same { binary_row Slte 1 (word 4 12) (word 4 12) ≡ word 1 1 }
{}

/// Constants, and parts and choices of 2, `10`, in line 1, 1, `01`, in line 2, and a set bit in line 3.
pub fn worked_parts()
    ensures constant { NodeHolds (false ∷ true ∷ true ∷ []) (three [] [] []) 2 (word 2 3) (Const 1) }
    ensures zero { NodeHolds [] (three [] [] []) 2 (word 2 0) Zero }
    ensures one { NodeHolds [] (three [] [] []) 2 (word 2 1) One }
    ensures ones { NodeHolds [] (three [] [] []) 2 (word 2 3) Ones }
    ensures concat { binary_row Concat 4 (word 2 2) (word 2 1) ≡ word 4 9 }
    ensures slice { NodeHolds [] (three (word 2 2) (word 2 1) (word 1 1)) 1 (word 1 1) (Slice 1 1 1) }
    ensures uext { NodeHolds [] (three (word 2 2) (word 2 1) (word 1 1)) 4 (word 4 2) (Uext 1 2) }
    ensures sext { NodeHolds [] (three (word 2 2) (word 2 1) (word 1 1)) 4 (word 4 14) (Sext 1 2) }
    ensures ite { NodeHolds [] (three (word 2 2) (word 2 1) (word 1 1)) 2 (word 2 2) (Ite 3 1 2) }
    ensures ite_else { NodeHolds [] (three (word 2 2) (word 2 1) (word 1 0)) 2 (word 2 1) (Ite 3 1 2) }
{}
