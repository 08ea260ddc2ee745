//! Laws of the grammar and the printed form: each function's contract is a law, and its body is empty.

ghost use Rattle.std.specs.Prelude.{◌≡◌, ◌++◌, ◌+◌, ◌<◌, ◌≤◌, ◌^◌, ◌∷◌, [], ℕ, All, Bool, IsTrue, List, Some, bytes_eq, false, length, reverse, true};
ghost use Rattle.std.specs.List.{IsDistinct, list_any, range_with_len};
ghost use Rattle.design_core.specs.Shape.{CellOf, DesignOf, IsDesign, WireOf, wire_bits};
ghost use Rattle.design_signals.specs.declared.sig_bit.SigBit.{SigBit};
ghost use Rattle.rtlil_constant.specs.Constants.{Word, constant_of};
ghost use Rattle.rtlil_lex.specs.Tokens.{IsToken, IsTokens, TokenOf, ends_at, is_break};
ghost use Rattle.design_reader.specs.Grammar.{Reads, is_ignored_target, steps, wire_names, with_attribute, with_cell, with_free, with_wire, words_of};
ghost use Rattle.design_reader.specs.Parts.{AttributesOf, DraftOf, no_attributes};
ghost use Rattle.design_reader.specs.declared.spot.Spot.TheVariants as spot;
ghost use Rattle.design_reader.specs.declared.spot.Spot.TheVariants.{Part, Signal};
ghost use Rattle.design_reader.specs.declared.spot.Target.{Target};
ghost use Rattle.design_reader.specs.declared.spot.Target.TheVariants.{Left, Right};
ghost use Rattle.reader_law.specs.CellTexts.{IsCellText, IsIgnoredText};
ghost use Rattle.reader_law.specs.ConstantTexts.{IsAttributeText, IsConstantText, State, state_digits};
ghost use Rattle.reader_law.specs.FileTexts.{IsFileText};
ghost use Rattle.reader_law.specs.Printed.{IsIdentifier, IsPrintable, Line, constant_word, design_numbers, design_words, printed};
ghost use Rattle.reader_law.specs.SignalTexts.{IsSignalText};
ghost use Rattle.reader_law.specs.WireTexts.{IsWireText};

/// A printable design is read from its printed form, if that isn't longer than a text may be, and from each text with the same
/// words, whatever white space and comments part them. The printed form is one of a design's texts: all wires stand first, each
/// with its width, then cells with their parameters first, and constants are sized, with digits 0, 1, x and m. Texts of other
/// forms are read by the other laws.
pub fn printed_designs_are_read()
    ensures printed { (d : DesignOf) → IsPrintable d → length (printed d) ≤ 2 ^ 26 → Reads (printed d) d }
    ensures words { (d : DesignOf) (text : List ℕ) (ts : List TokenOf) → IsPrintable d → length text ≤ 2 ^ 26 → IsTokens text ts
        → words_of ts ≡ design_words d → Reads text d }
{}

/// Each text of a constant is one token, and is read as its states, highest first: as an attribute's constant, where only that of
/// `\init` is kept, and as that of a parameter of the module, which is passed over. `signal_texts_are_read` says it of signals,
/// `cell_texts_are_read` of a cell's parameters. The printed form's constants are among these texts.
pub fn constant_texts_are_read()
    ensures token { (w : Word) (states : List State) (rest : List ℕ) → IsAttributeText w states → IsTrue (ends_at is_break rest) → IsToken w rest }
    ensures printed { (states : List State) → 0 < length states → length states < 2 ^ 64 → IsConstantText (constant_word (state_digits states)) states }
    ensures attribute { (d : DraftOf) (a : AttributesOf) (is_init : Bool) (w : Word) (states : List State) (rest : List Word) → IsAttributeText w states
        → steps d (spot.Value a is_init) (w ∷ rest) ≡ steps d (spot.Line (with_attribute a is_init (state_digits states))) rest }
    ensures file_attribute { (d : DraftOf) (behind : Bool) (w : Word) (states : List State) (rest : List Word) → IsAttributeText w states
        → steps d (spot.FileValue behind) (w ∷ rest) ≡ steps d (spot.File behind) rest }
    ensures module_parameter { (d : DraftOf) (w : Word) (states : List State) (rest : List Word) → IsConstantText w states
        → steps d spot.ModuleParameterValue (w ∷ rest) ≡ steps d (spot.Line no_attributes) rest }
{}

/// Each token that is read as a constant is a text of one, in an attribute or elsewhere, and its digits are those of the states.
pub fn read_constants_have_texts()
    ensures constant { (w : Word) (digits : List ℕ) (rest : List ℕ) → IsToken w rest → constant_of 1 w ≡ Some digits
        → (states : List State) × IsConstantText w states × (digits ≡ state_digits states) }
    ensures attribute { (w : Word) (digits : List ℕ) (rest : List ℕ) → IsToken w rest → constant_of 0 w ≡ Some digits
        → (states : List State) × IsAttributeText w states × (digits ≡ state_digits states) }
{}

/// Each text of a signal is read as its bits, where the wires have identifiers of their own and the text's free bits come next, of
/// which it has none in an ignored cell: after its words the row is the signal, highest bit first. It begins at a port or on the
/// left of a connect, or on the right of a connect, after the row of the left.
pub fn signal_texts_are_read()
    ensures at_port_or_left { (d : DraftOf) (t : Target) (ws : Line) (signal : List SigBit) (count : ℕ) (rest : List Word)
        → All (λ w. IsIdentifier w.name) d.design.wires → IsDistinct bytes_eq (wire_names d.design.wires) → (is_ignored_target t ≡ true → count ≡ 0)
        → IsSignalText d.design.wires false ws signal (range_with_len d.design.free count) → wire_bits d.design + (d.design.free + count) ≤ 2 ^ 20
        → steps d (Signal t []) (ws ++ rest) ≡ steps (with_free d count) (Part t (reverse signal ∷ [])) rest }
    ensures on_the_right { (d : DraftOf) (row : List SigBit) (ws : Line) (signal : List SigBit) (count : ℕ) (rest : List Word)
        → All (λ w. IsIdentifier w.name) d.design.wires → IsDistinct bytes_eq (wire_names d.design.wires)
        → IsSignalText d.design.wires false ws signal (range_with_len d.design.free count) → wire_bits d.design + (d.design.free + count) ≤ 2 ^ 20
        → steps d (Part Left (row ∷ [])) (ws ++ rest) ≡ steps (with_free d count) (Part (Right (reverse row)) (reverse signal ∷ [])) rest }
{}

/// Each text of a cell is read as that cell, whatever the order of its lines, where the wires have identifiers of their own, no cell
/// before it has its name, and its free bits come next. Of an ignored cell the name is left. Attributes before it say nothing.
pub fn cell_texts_are_read()
    ensures kept { (d : DraftOf) (a : AttributesOf) (ws : Line) (c : CellOf) (count : ℕ) (rest : List Word)
        → All (λ w. IsIdentifier w.name) d.design.wires → IsDistinct bytes_eq (wire_names d.design.wires) → list_any (λ n. bytes_eq n c.name) d.cells ≡ false
        → IsCellText d.design.wires ws c (range_with_len d.design.free count) → wire_bits d.design + (d.design.free + count) ≤ 2 ^ 20
        → steps d (spot.Line a) (ws ++ rest) ≡ steps (with_cell (record (with_free d count) { cells = d.cells ++ c.name ∷ [] }) c) (spot.Line no_attributes) rest }
    ensures ignored { (d : DraftOf) (a : AttributesOf) (ws : Line) (name : Word) (rest : List Word)
        → All (λ w. IsIdentifier w.name) d.design.wires → IsDistinct bytes_eq (wire_names d.design.wires) → list_any (λ n. bytes_eq n name) d.cells ≡ false
        → IsIgnoredText d.design.wires ws name → wire_bits d.design + d.design.free ≤ 2 ^ 20
        → steps d (spot.Line a) (ws ++ rest) ≡ steps (record d { cells = d.cells ++ name ∷ [] }) (spot.Line no_attributes) rest }
{}

/// Each text of a wire is read as that wire, whatever the order of its attributes and options, where no wire before it has its name
/// and there is room for its bits.
pub fn wire_texts_are_read()
    ensures { (d : DraftOf) (ws : Line) (x : WireOf) (rest : List Word) → IsWireText ws x → list_any (λ n. bytes_eq n x.name) (wire_names d.design.wires) ≡ false
        → wire_bits d.design + d.design.free + x.width ≤ 2 ^ 20 → steps d (spot.Line no_attributes) (ws ++ rest) ≡ steps (with_wire d x) (spot.Line no_attributes) rest }
{}

/// A text with the words of a file's text is read as the file's design, whatever white space and comments part them: lines beside
/// the module, attributes but for `\init` on a wire, and parameters of the module say nothing, and wires, cells and connects may
/// alternate. The printed form of a design is such a text. Texts with an x, z or - in a signal of an ignored cell are not among
/// them.
pub fn file_texts_are_read()
    ensures read { (text : List ℕ) (ts : List TokenOf) (ws : Line) (d : DesignOf) → IsFileText ws d → length text ≤ 2 ^ 26 → IsTokens text ts
        → words_of ts ≡ ws → Reads text d }
    ensures printed { (d : DesignOf) → IsPrintable d → length (printed d) ≤ 2 ^ 26 → IsFileText (design_words d) d }
{}

/// A design that is read has a printed form if its free bits are numbered in the order of its lines. They aren't where ports
/// of a cell with free bits stand before parameters with some, and where free bits are sliced off or stand at a port that the
/// table of cells doesn't know. `IsDesign` holds of each `Design`.
pub fn read_designs_are_printable()
    ensures { (text : List ℕ) (d : DesignOf) → Reads text d → IsDesign d → design_numbers d ≡ range_with_len 0 d.free → IsPrintable d }
{}
