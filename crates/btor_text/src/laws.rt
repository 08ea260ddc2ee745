//! Laws of the text: each function's contract is a law, and its body is empty.

ghost use Rattle.std.specs.Prelude.{◌≡◌, ℕ, List};
ghost use Rattle.btor_core.specs.Fits.{IsBtor};
ghost use Rattle.btor_core.specs.Shape.{BtorOf};
ghost use Rattle.btor_text.specs.Grammar.{IsText};
ghost use Rattle.btor_text.specs.Refusals.{HasRoom, IsModel};
ghost use Rattle.btor_text.specs.Text.{text_of};

use sby_terms::numbers_are_decimal;

/// Bytes are the text of at most one model.
pub fn text_is_of_one_model()
    ensures { (bytes : List ℕ) (m n : BtorOf) → IsBtor m → IsBtor n → IsText bytes m → IsText bytes n → m ≡ n }
{}

/// The text that is written of a model is read as that model, whose constants begin within the first 2^32 bits of their table.
pub fn what_is_written_is_read()
    ensures { (m : BtorOf) → IsBtor m → HasRoom m.lines → IsModel (text_of m) m }
{
    numbers_are_decimal();
}
