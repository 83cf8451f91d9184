//! From the words of a command line to a command.
ghost use Rattle.std.specs.Prelude.{◌≡◌, List, IfErr, IfOk, MatchOption, map, string_bytes};
ghost use Rattle.kad_words.specs.Table.{Says, Word, kind_word, options_of, word_of};
ghost use Rattle.kad_words.specs.Plain.{CommandOf, IsPlain};
ghost use Rattle.kad_words.specs.declared.command.Command.{Command};
ghost use Rattle.kad_words.specs.Fitting.{AllFit, IsPlainBy};
ghost use Rattle.kad_words.specs.Taken.{taken_of};

use crate::command::{Command, CommandKind, WordsFault, command_for, kind_named, options};
use crate::grammar::is_plain;
use crate::matched::matched;
use clap::ArgMatches;
use kad_base::NoMemory;
use std::alloc::Global;

/// Reads the words of a command line, those after the program's name. `Usage` comes exactly if they aren't of the
/// plain form, whatever memory there is.
pub fn read(alloc: Global, words: &[String]) -> Result<Command, WordsFault>
    ensures command { IfOk result (λ c. CommandOf (map (λ w. string_bytes w) words.now) c) }
    ensures usage { let texts = map (λ w. string_bytes w) words.now in
        IfErr result (λ fault. fault ≡ WordsFault.Usage → ¬ IsPlain texts) }
    ensures memory { let texts = map (λ w. string_bytes w) words.now in
        IfErr result (λ fault. fault ≡ WordsFault.NoMemory → IsPlain texts) }
{
    let Some(kind) = plain_kind(words) else {
        return Err(WordsFault::Usage);
    };
    match matched(alloc, words, options(kind)) {
        Ok(matches) => made(alloc, kind, &matches),
        Err(NoMemory) => Err(WordsFault::NoMemory),
    }
}

/// The command of this kind, from the values of its options.
fn made(alloc: Global, kind: CommandKind, matches: &ArgMatches) -> Result<Command, WordsFault>
    requires { AllFit (options_of (kind_word kind)) (taken_of matches.now) }
    ensures says { IfOk result (λ command. Says (taken_of matches.now) command) }
    ensures word { IfOk result (λ command. word_of command ≡ kind_word kind) }
    ensures fault { IfErr result (λ fault. fault ≡ WordsFault.NoMemory) }
{
    match command_for(alloc, kind, matches) {
        Ok(command) => Ok(command),
        Err(NoMemory) => Err(WordsFault::NoMemory),
    }
}

/// The command that words name, if they are of the plain form.
fn plain_kind(words: &[String]) -> Option<CommandKind>
    ensures { let texts = map (λ w. string_bytes w) words.now in
        MatchOption result (¬ IsPlain texts) (λ kind. IsPlainBy kind texts) }
{
    let (first, rest) = words.split_first()?;
    let kind = kind_named(first.as_str())?;
    is_plain(rest, options(kind)).then_some(kind)
}

/// Words ask for one command, and then they are of the plain form.
pub fn one_command()
    ensures one { (words : List Word) (a b : Command) → CommandOf words a → CommandOf words b
        → a ≡ b }
    ensures plain { (words : List Word) (c : Command) → CommandOf words c → IsPlain words }
{}
