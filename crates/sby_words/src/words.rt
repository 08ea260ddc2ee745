// What the words ask, and its laws.

ghost use Rattle.std.specs.Prelude.{◌≡◌, List, ℕ, Bool, map, option_map, string_bytes, Option, Some, IfOk, IfSome, All};
ghost use Rattle.sby_words.specs.Answers.{request_of};
ghost use Rattle.sby_words.specs.Requests.{Request};
ghost use Rattle.sby_words.specs.Words.{IsAsked, IsPlain, Says, form_of, plain_words};

use crate::asked::Asked;
use crate::command::command;
use crate::request::asked_by;
use clap::error::ErrorKind;
use std::alloc::{AllocError, Global};

/// What the words after the program's name ask, and `None` where they are refused: `clap` doesn't take them, or they are of
/// none of the four forms. `-f` is taken in each form and changes nothing. MODE is `bmc`, `prove` or `cover`, DEPTH from 1 to
/// `MAX_DEPTH`, N from 2 to 10,000, M from 1 to 64, and neither DIR nor the stem of DESIGN or FILE may be empty.
pub fn asked_of(alloc: Global, words: &[String]) -> Result<Option<Asked>, AllocError>
    ensures { IfOk result (λ asked. IsAsked (map string_bytes words.now) (option_map request_of asked)) }
{
    match command(alloc)?.try_get_matches_from(words) {
        Ok(matches) => asked_by(alloc, &matches),
        Err(error) => match error.kind() {
            ErrorKind::OutOfMemory => Err(AllocError),
            _ => Ok(None),
        },
    }
}

/// Words never ask two things, nor are they both asked and refused.
pub fn words_have_one_request()
    ensures { (words : List (List ℕ)) (a b : Option Request) → IsAsked words a → IsAsked words b → a ≡ b }
{}

/// Plain words of each form, with `-f`, `-j M` and `-d DIR` in front or without, ask what they say.
pub fn plain_words_are_asked()
    ensures { (force : Bool) (directory jobs : Option (List ℕ)) (list : List (List ℕ)) (r : Request)
        → IfSome directory IsPlain → IfSome jobs IsPlain → All IsPlain list → Says directory jobs list r
        → IsAsked (plain_words force directory jobs (form_of r) list) (Some r) }
{}
