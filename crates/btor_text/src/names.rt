// Names of operators.

ghost use Rattle.std.specs.Prelude.{◌≡◌};
ghost use Rattle.btor_text.specs.Grammar.{binary_name, unary_name};

use btor_core::line::{Binary, Unary};

pub(crate) fn unary_name(k: Unary) -> &'static str
    ensures { result.now ≡ unary_name k }
{
    match k {
        Unary::Not => "not",
        Unary::Neg => "neg",
        Unary::Redand => "redand",
        Unary::Redor => "redor",
        Unary::Redxor => "redxor",
    }
}

pub(crate) fn binary_name(k: Binary) -> &'static str
    ensures { result.now ≡ binary_name k }
{
    match k {
        Binary::And => "and",
        Binary::Or => "or",
        Binary::Xor => "xor",
        Binary::Add => "add",
        Binary::Sub => "sub",
        Binary::Mul => "mul",
        Binary::Udiv => "udiv",
        Binary::Urem => "urem",
        Binary::Sdiv => "sdiv",
        Binary::Srem => "srem",
        Binary::Sll => "sll",
        Binary::Srl => "srl",
        Binary::Sra => "sra",
        Binary::Eq => "eq",
        Binary::Neq => "neq",
        Binary::Ult => "ult",
        Binary::Ulte => "ulte",
        Binary::Slt => "slt",
        Binary::Slte => "slte",
        Binary::Concat => "concat",
    }
}
