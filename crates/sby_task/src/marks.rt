// The marks on an engine line whose program writes a proof file.

ghost use Rattle.std.specs.Prelude.{◌≡◌, ◌≤◌, length, eqb, map, string_bytes};
ghost use Rattle.sby_task.specs.Marks.{are_marked, count, count_in};

// Stands for the path of the job's file.
const FORMULA_MARK: &str = "{cnf}";

// Stands for the path of the proof file.
const PROOF_MARK: &str = "{proof}";

// How often a mark stands in a word.
fn count_in(mark: &str, word: &str) -> usize
    ensures count { result ≡ count_in mark.now word.now }
    ensures within { result ≤ length word.now }
{
    let bytes = word.as_bytes();
    let mut count = 0;
    for i in 0..bytes.len() {
        if bytes[i..].starts_with(mark.as_bytes()) {
            count += 1;
        }
    }
    count
}

// Whether a mark stands exactly once over all words.
fn stands_once(mark: &str, words: &[String]) -> bool
    ensures { result ≡ eqb (count mark.now (map string_bytes words.now)) 1 }
{
    let mut seen = false;
    for word in words {
        match count_in(mark, word.as_str()) {
            0 => {}
            1 if !seen => seen = true,
            _ => return false,
        }
    }
    seen
}

/// Whether both marks stand exactly once over all words.
pub fn are_marked(words: &[String]) -> bool
    ensures { result ≡ are_marked (map string_bytes words.now) }
{
    stands_once(FORMULA_MARK, words) && stands_once(PROOF_MARK, words)
}
