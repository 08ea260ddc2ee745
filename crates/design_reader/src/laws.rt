//! Laws of the grammar: each function's contract is a law, and its body is empty.

ghost use Rattle.std.specs.Prelude.{◌≡◌, ◌++◌, ◌-◌, ◌≤◌, ◌^◌, ◌∷◌, [], ℕ, IsFalse, List, Ok, drop, length, take};
ghost use Rattle.design_core.specs.Shape.{DesignOf};
ghost use Rattle.rtlil_lex.specs.Tokens.{Front, IsQuoted, IsToken, TokenOf, is_break};
ghost use Rattle.design_reader.specs.Beginnings.{BeginsText, EndsTexts, IsText};
ghost use Rattle.rtlil_constant.specs.Constants.{Word};
ghost use Rattle.design_reader.specs.Faults.{IsReadFault};
ghost use Rattle.design_reader.specs.Grammar.{Reads, reading};
ghost use Rattle.design_reader.specs.Parts.{DraftOf};
ghost use Rattle.design_reader.specs.declared.fault.ReadFaultKind.{ReadFaultKind};
ghost use Rattle.design_reader.specs.declared.spot.Spot.{Spot};

/// Where the first tokens of a text are read, some text of the grammar begins with the bytes up to the end of the last.
pub fn each_reading_goes_on()
    ensures { (text left : List ℕ) (ts : List TokenOf) (d : DraftOf) (s : Spot) → Front (length text) left text ts
        → reading ts ≡ Ok (d, s) → BeginsText (take (length text - length left) text) }
{}

/// A text that isn't too long is refused at the first token after which no text of the grammar can go on: some text of the
/// grammar begins with the bytes before it, and none with these bytes and the token that stands there, or a string there
/// whose end nothing parts from what follows. A quote that none closes is refused where it stands.
pub fn refused_where_no_text_goes_on()
    ensures before { (text : List ℕ) (byte : ℕ) (kind : ReadFaultKind) → length text ≤ 2 ^ 26 → IsReadFault text byte kind
        → BeginsText (take byte text) }
    ensures token { (text : List ℕ) (byte : ℕ) (kind : ReadFaultKind) → length text ≤ 2 ^ 26 → IsReadFault text byte kind
        → (word rest : List ℕ) → drop byte text ≡ word ++ rest → IsToken word rest → EndsTexts (take byte text) word }
    ensures string { (text : List ℕ) (byte : ℕ) (kind : ReadFaultKind) → length text ≤ 2 ^ 26 → IsReadFault text byte kind
        → (quoted rest : List ℕ) (b : ℕ) → drop byte text ≡ 34 ∷ (quoted ++ b ∷ rest) → IsQuoted quoted → IsFalse (is_break b)
        → BeginsText (take byte text ++ 34 ∷ (quoted ++ b ∷ [])) → ⊥ }
{}

/// A text is read where it is of the grammar and isn't too long.
pub fn texts_are_read()
    ensures reads { (text : List ℕ) → length text ≤ 2 ^ 26 → IsText text → (d : DesignOf) × Reads text d }
    ensures text { (text : List ℕ) (d : DesignOf) → Reads text d → IsText text }
{}
