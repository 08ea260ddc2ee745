// Whether some line of a task gives the mode prove.

ghost use Rattle.std.specs.Prelude.{◌≡◌, map, string_bytes};
ghost use Rattle.sby_task.specs.Proved.{are_mode_prove, gives_prove, is_proved};

use sby_file::{Row, Section};

fn are_mode_prove(words: &[String]) -> bool
    ensures { result ≡ are_mode_prove (map string_bytes words.now) }
{
    match words {
        [name, value] => name.as_str() == "mode" && value.as_str() == "prove",
        _ => false,
    }
}

fn gives_prove(row: &Row) -> bool
    ensures { result ≡ gives_prove row.now }
{
    match row.section {
        Section::Options => are_mode_prove(row.words.as_slice()),
        _ => false,
    }
}

/// Whether one of these lines gives the mode prove.
pub fn is_proved(rows: &[Row]) -> bool
    ensures { result ≡ is_proved rows.now }
{
    for row in rows {
        if gives_prove(row) {
            return true;
        }
    }
    false
}
