//! The values of the options, taken by clap: one command without subcommands, whose arguments all take one value. Of
//! words of the plain form clap finds each value under its option's name, and it refuses them only if out of memory.
ghost use Rattle.std.specs.Prelude.{◌≡◌, ◌<◌, List, ℕ, length, drop, map, string_bytes, IfOk, IsTrue};
ghost use Rattle.clap.specs.Words.{app_of};
ghost use Rattle.kad_words.specs.Table.{Word};
ghost use Rattle.kad_words.specs.Listed.{entries_of};
ghost use Rattle.kad_words.specs.Plain.{InPairs, pairs_of, values_of};
ghost use Rattle.kad_words.specs.Taken.{app, are_names, names_of, taken_of};

use crate::choice::Choice;
use clap::error::ErrorKind;
use clap::{Arg, ArgMatches, Command};
use kad_base::NoMemory;
use std::alloc::Global;

/// The values of the options, by their names. The first word is passed over.
pub(crate) fn matched<'a>(
    alloc: Global,
    words: &'a [String],
    choices: &'a [Choice],
) -> Result<ArgMatches<'a>, NoMemory>
    requires some { 0 < length words.now }
    requires names { IsTrue (are_names (names_of choices.now)) }
    requires plain { let rest = drop 1 (map (λ w. string_bytes w) words.now) in
        InPairs (entries_of choices.now) rest (pairs_of rest) }
    ensures { let pairs = pairs_of (drop 1 (map (λ w. string_bytes w) words.entry.now)) in
        IfOk result (λ m. (name : Word) → taken_of m name ≡ values_of pairs name) }
{
    let command = command_of(alloc, choices)?;
    match command.try_get_matches_from(words) {
        Ok(matches) => Ok(matches),
        Err(error) => match error.kind() {
            ErrorKind::OutOfMemory => Err(NoMemory),
            _ => unreachable!(),
        },
    }
}

/// The command that has these options.
fn command_of<'a>(alloc: Global, choices: &'a [Choice]) -> Result<Command<'a>, NoMemory>
    ensures { IfOk result (λ c. app_of c ≡ app (names_of choices.entry.now)) }
{
    let mut command = Command::new(alloc, "nolzavirt").disable_help_flag(true);
    for choice in choices {
        let arg = Arg::new(alloc, choice.name).long(choice.name);
        command = command.arg(arg)?;
    }
    Ok(command)
}
