// The command that the words are read by.

ghost use Rattle.std.specs.Prelude.{◌≡◌, IfOk, false};
ghost use Rattle.clap.specs.Walk.{rule_of};
ghost use Rattle.clap.specs.Simple.{app_of};
ghost use Rattle.sby_words.specs.Command.{bare, command, long_flag, short_flag, short_option};

use clap::{Arg, ArgAction, Command};
use std::alloc::{AllocError, Global};

fn short_flag<'a>(alloc: Global, id: &'a str, letter: char) -> Arg<'a>
    ensures rule { rule_of result ≡ short_flag id.entry.now letter }
    ensures local { result.global ≡ false }
{
    Arg::new(alloc, id).short(letter).action(ArgAction::SetTrue)
}

fn long_flag<'a>(alloc: Global, name: &'a str) -> Arg<'a>
    ensures rule { rule_of result ≡ long_flag name.entry.now }
    ensures local { result.global ≡ false }
{
    Arg::new(alloc, name).long(name).action(ArgAction::SetTrue)
}

fn short_option<'a>(alloc: Global, id: &'a str, letter: char) -> Arg<'a>
    ensures rule { rule_of result ≡ short_option id.entry.now letter }
    ensures local { result.global ≡ false }
{
    Arg::new(alloc, id).short(letter).action(ArgAction::Set)
}

fn bare<'a>(alloc: Global) -> Command<'a>
    ensures { app_of result ≡ bare }
{
    Command::new(alloc, "sby")
        .no_binary_name(true)
        .disable_help_flag(true)
}

/// Four flags, two options, and one list of all other words.
pub fn command<'a>(alloc: Global) -> Result<Command<'a>, AllocError>
    ensures { IfOk result (λ c. app_of c ≡ command) }
{
    let words = Arg::new(alloc, "words").action(ArgAction::Append);
    bare(alloc)
        .arg(short_flag(alloc, "force", 'f'))?
        .arg(short_option(alloc, "folder", 'd'))?
        .arg(short_option(alloc, "jobs", 'j'))?
        .arg(long_flag(alloc, "judge"))?
        .arg(long_flag(alloc, "dumptasks"))?
        .arg(long_flag(alloc, "gen"))?
        .arg(words)
}
