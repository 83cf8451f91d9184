//! Which command the words ask for.
ghost use Rattle.std.specs.Prelude.{◌≡◌, ◌⊎◌, IfOk, IfErr};
ghost use Rattle.kad_words.specs.Plain.{CommandOf};
ghost use Rattle.command_base.specs.Endings.{number_of};
ghost use Rattle.node_top.specs.Asked.{Asks, bytes_of};

use command_base::Status;
use kad_words::{Command, WordsFault, read};
use std::alloc::Global;

/// The command that the words ask for. Words that ask for none are told apart without memory.
pub(crate) fn read_command(alloc: Global, words: &[String]) -> Result<Command, Status>
    ensures command { IfOk result (CommandOf (bytes_of words.now)) }
    ensures usage { IfErr result (λ status. status ≡ Status.Usage → ¬ Asks (bytes_of words.now)) }
    ensures no_memory { IfErr result (λ status. status ≡ Status.NoMemory
        → Asks (bytes_of words.now)) }
    ensures plain { ¬ Asks (bytes_of words.now) → IfErr result (λ status. number_of status ≡ 2) }
    ensures none_else { IfErr result (λ status. (status ≡ Status.Usage)
        ⊎ (status ≡ Status.NoMemory)) }
{
    match read(alloc, words) {
        Ok(command) => Ok(command),
        Err(WordsFault::Usage) => Err(Status::Usage),
        Err(WordsFault::NoMemory) => Err(Status::NoMemory),
    }
}
