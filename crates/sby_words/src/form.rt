// The form of the words, by their flags.

ghost use Rattle.std.specs.Prelude.{◌≡◌, ◌↔◌, IsTrue, MatchOption, codes};
ghost use Rattle.clap.specs.Matches.{found_of};
ghost use Rattle.clap.specs.Walk.{rows_of};
ghost use Rattle.sby_words.specs.Command.{IsGiven};
ghost use Rattle.sby_words.specs.Words.{HasForm};

use clap::ArgMatches;

/// The forms of the words.
#[derive(Clone, Copy)]
pub enum Form {
    /// `--judge DESIGN MODE DEPTH [STREAM ..]`
    Judge,
    /// `FILE.sby [TASK ..]`
    Tasks,
    /// `--dumptasks FILE.sby`
    Names,
    /// `--gen N`
    Gen,
}

fn is_given(matches: &ArgMatches<'_>, id: &str) -> bool
    ensures { IsTrue result ↔ IsGiven id.now (rows_of (found_of matches.now)) }
{
    match matches.get_str(id) {
        Some(text) => text == "true",
        None => false,
    }
}

/// The form whose flag the matches have, and `None` where they have flags of several forms.
pub fn form_by(matches: &ArgMatches<'_>) -> Option<Form>
    ensures { MatchOption result
        ((form : Form) → HasForm (rows_of (found_of matches.now)) form → ⊥)
        (HasForm (rows_of (found_of matches.now))) }
{
    let flags = (
        is_given(matches, "judge"),
        is_given(matches, "dumptasks"),
        is_given(matches, "gen"),
    );
    match flags {
        (true, false, false) => Some(Form::Judge),
        (false, false, false) => Some(Form::Tasks),
        (false, true, false) => Some(Form::Names),
        (false, false, true) => Some(Form::Gen),
        _ => None,
    }
}
