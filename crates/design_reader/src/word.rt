// Words that the grammar names.

ghost use Rattle.std.specs.Prelude.{◌≡◌, bytes_eq};

/// Whether the word is this one.
pub fn is_word(word: &[u8], text: &str) -> bool
    ensures { result ≡ bytes_eq word.now text.now }
{
    word == text.as_bytes()
}
