//! The top calls: one command, its output and its status.
ghost use Rattle.std.specs.Prelude.{◌≡◌, ◌≢◌, ◌≤◌, ◌⊎◌, ◌↔◌, None};
ghost use Rattle.kad_base.specs.Failing.{FailsLast};
ghost use Rattle.node_top.specs.Asked.{Asks, AsksPlain, bytes_of};
ghost use Rattle.command_base.specs.Called.{called_plainly, called_with};
ghost use Rattle.command_base.specs.Shown.{shown, shown_link, nowhere, IsTold, HasFailed};
ghost use Rattle.command_base.specs.Input.{ReadsAtMost, ReadsTooMuch};
ghost use Rattle.node_top.specs.Commands.{GoesPlainlyWell, GoesWell, HasBegun, HasBadLine, HasBadProof, HasBadValue, HasNoLastStray, HasNoSeeds, HasNothing, HasStart, HasStrays, HasUnsound, EndsInStrays};
ghost use Rattle.node_top.specs.Commands.{IsDone, ReadsInput};
ghost use Rattle.command_base.specs.Endings.{last_status, EndsUnasked, OrNoMemory};
ghost use Rattle.node_top.specs.Endings.{CutShort, EndsByCommand, WritesLine};

use crate::commands::{asked_output, asked_plainly};
use command_base::Call;
use command_base::output::{write_line, write_output};
use kad_base::{Check, Link, Sink, Source};
use path_worker::PacedCheck;
use seal_tags::{GroupSeal, Seal, SealCheck};
use std::alloc::Global;
use std::hash::RandomState;
use std::sync::Wait;
use std::thread::Threads;

/// Does the command that the words ask for, and answers the status that the program ends with. `words` are those after
/// the program's name; `random` are 32 bytes that nobody else knows, from which the node's identifier (unless a word
/// names it) and the transaction ids are drawn. `rt` is the runtime: if the check is slow, what a round of a lookup gave
/// is settled on several threads, which wait for each other in turn.
/// Strangers choose what the lookup keeps an index of, so its `hasher` is handed in; nothing that is written depends on it.
/// `seal` is the group's: a command that the words say is sealed believes no reply without a tag that it accepts, and tags
/// what it says; no other asks it for anything.
///
/// Each command's module says what it writes, `status` the number and line of each ending without output, and
/// `docs/COMMANDS.md` both; `kad_words` says which words a command takes. At 0 the output was written whole, and at 5 only
/// its beginning. The commands that take no link are done as by `run_plain`.
pub fn run<
    R: Threads + Wait + Sync,
    S: Source,
    K: Sink,
    L: Link,
    C: PacedCheck + Sync,
    G: Seal + SealCheck + Sync,
>(
    rt: &R,
    alloc: Global,
    words: &[String],
    source: &mut S,
    link: &mut L,
    sink: &mut K,
    random: &[u8; 32],
    check: &C,
    hasher: RandomState,
    seal: &G,
) -> u8
    // The text that was written is the command's own: a lookup's is that of a legal journal which the link's events tell
    // and whose paths have run out, that of several lookups at once has one such journal for each, that of a node which
    // served counts what they tell, and that of a refresh is the saved text of the table which they leave of the input's.
    ensures done { result ≡ 0 → IsDone (bytes_of words.now)
        (called_with random.now (C.slow check.now) (G.accepted seal.now) (G.tag_of seal.now))
        (shown S.left S.faults source.old source.new)
        (shown_link L.told L.recv_faults L.send_faults link.old link.new)
        (shown K.written K.faults sink.old sink.new) }

    // Words that ask for no command end with 2, and only they.
    ensures usage { result ≡ 2 ↔ ¬ Asks (bytes_of words.now) }

    // Each other status but 9 comes only with its cause.
    ensures bad_line { result ≡ 3 → ReadsInput (bytes_of words.now)
        × HasBadLine (bytes_of words.now) (shown S.left S.faults source.old source.new) }
    ensures link_fault { result ≡ 4 → HasFailed (shown_link L.told L.recv_faults L.send_faults link.old link.new) }
    ensures few_strays { result ≡ 4 → HasNoLastStray (bytes_of words.now)
        (called_with random.now (C.slow check.now) (G.accepted seal.now) (G.tag_of seal.now))
        (shown S.left S.faults source.old source.new)
        (shown_link L.told L.recv_faults L.send_faults link.old link.new) }
    ensures sink_fault { result ≡ 5 → HasFailed (shown K.written K.faults sink.old sink.new) }
    ensures source_fault { result ≡ 6 → ReadsInput (bytes_of words.now)
        × HasFailed (shown S.left S.faults source.old source.new) }
    ensures strays { result ≡ 7 → HasStrays (bytes_of words.now)
        (called_with random.now (C.slow check.now) (G.accepted seal.now) (G.tag_of seal.now))
        (shown S.left S.faults source.old source.new)
        (shown_link L.told L.recv_faults L.send_faults link.old link.new) }
    ensures begun { (result ≡ 4) ⊎ (result ≡ 7) → HasStart (bytes_of words.now)
        (called_with random.now (C.slow check.now) (G.accepted seal.now) (G.tag_of seal.now))
        (shown S.left S.faults source.old source.new) }
    ensures unfinished { (result ≡ 4) ⊎ (result ≡ 7) → HasBegun (bytes_of words.now)
        (called_with random.now (C.slow check.now) (G.accepted seal.now) (G.tag_of seal.now))
        (shown S.left S.faults source.old source.new)
        (shown_link L.told L.recv_faults L.send_faults link.old link.new) }
    ensures no_memory { result ≡ 9 → HasBegun (bytes_of words.now)
        (called_with random.now (C.slow check.now) (G.accepted seal.now) (G.tag_of seal.now))
        (shown S.left S.faults source.old source.new)
        (shown_link L.told L.recv_faults L.send_faults link.old link.new) ⊎ (link.new ≡ link.old) }
    ensures no_seeds { result ≡ 8 → HasNoSeeds (bytes_of words.now)
        (called_with random.now (C.slow check.now) (G.accepted seal.now) (G.tag_of seal.now))
        (shown S.left S.faults source.old source.new) }
    ensures unminted { result ≡ 10 → HasNothing (bytes_of words.now) random.now }
    ensures too_long { result ≡ 11 → ReadsInput (bytes_of words.now)
        × ReadsTooMuch (S.left source.old) (S.left source.new) }
    ensures bad_value { result ≡ 12 → HasBadValue (bytes_of words.now) }
    ensures unsound { result ≡ 13 → HasUnsound (bytes_of words.now)
        (shown S.left S.faults source.old source.new) }
    ensures bad_proof { result ≡ 15 → HasBadProof (bytes_of words.now) random.now }

    // If the source, or the link, tells to the end, each of these causes brings its status, or that of out of memory.
    ensures bad_line_comes { let input = shown S.left S.faults source.old source.new in
        IsTold input → ¬ HasFailed input → HasBadLine (bytes_of words.now) input
        → OrNoMemory result 3 }
    ensures no_seeds_come { let input = shown S.left S.faults source.old source.new in
        IsTold input → ¬ HasFailed input → HasNoSeeds (bytes_of words.now)
        (called_with random.now (C.slow check.now) (G.accepted seal.now) (G.tag_of seal.now)) input
        → OrNoMemory result 8 }
    ensures strays_come { let told = shown_link L.told L.recv_faults L.send_faults link.old link.new in
        IsTold told → EndsInStrays (bytes_of words.now)
        (called_with random.now (C.slow check.now) (G.accepted seal.now) (G.tag_of seal.now)) told
        → OrNoMemory result 7 }
    ensures unminted_comes { HasNothing (bytes_of words.now) random.now → OrNoMemory result 10 }
    ensures too_long_comes { S.left source.new ≢ None
        → ReadsTooMuch (S.left source.old) (S.left source.new)
        → OrNoMemory result 11 }
    ensures bad_value_comes { HasBadValue (bytes_of words.now) → OrNoMemory result 12 }
    ensures bad_proof_comes { HasBadProof (bytes_of words.now) random.now → OrNoMemory result 15 }
    ensures unsound_comes { let input = shown S.left S.faults source.old source.new in
        IsTold input → ¬ HasFailed input → HasUnsound (bytes_of words.now) input
        → OrNoMemory result 13 }

    // With what it needs, and no failure, a command is done, unless it is out of memory.
    ensures complete { GoesWell (bytes_of words.now)
        (called_with random.now (C.slow check.now) (G.accepted seal.now) (G.tag_of seal.now))
        (shown S.left S.faults source.old source.new)
        (shown_link L.told L.recv_faults L.send_faults link.old link.new)
        (shown K.written K.faults sink.old sink.new)
        → OrNoMemory result 0 }

    // What was written: the line of the status, or at 5 only the beginning of the text.
    ensures line { result ≢ 0 → result ≢ 5 → WritesLine (bytes_of words.now) result
        (shown S.left S.faults source.old source.new)
        (shown K.written K.faults sink.old sink.new) }
    ensures cut_short { result ≡ 5 → CutShort (bytes_of words.now)
        (called_with random.now (C.slow check.now) (G.accepted seal.now) (G.tag_of seal.now))
        (shown S.left S.faults source.old source.new)
        (shown_link L.told L.recv_faults L.send_faults link.old link.new)
        (shown K.written K.faults sink.old sink.new) }

    // What was not called: the source at 2, 12 and 15, and for a command that reads no input; and the link at each status
    // that comes before it is first called, and for a command that takes none.
    ensures unread { (result ≡ 2) ⊎ (result ≡ 12) ⊎ (result ≡ 15) → source.new ≡ source.old }
    ensures no_input { ¬ ReadsInput (bytes_of words.now) → source.new ≡ source.old }
    ensures at_most { ReadsAtMost (S.left source.old) (S.left source.new) }
    ensures unasked { EndsUnasked result → link.new ≡ link.old }
    ensures no_link { AsksPlain (bytes_of words.now) → link.new ≡ link.old }

    // The link keeps its ghost value, so each receive had a buffer of exactly 4,097 bytes.
    ensures kept { L.kept link.new ≡ L.kept link.old }

    // No failed call is ignored: a read failed only at 6, a receive only at 4, and no write at 0.
    ensures reads_well { result ≢ 6 → S.faults source.new ≡ S.faults source.old }
    ensures reads_last { result ≡ 6 → FailsLast S.left S.faults source.old source.new }
    ensures hears_well { result ≢ 4 → L.recv_faults link.new ≡ L.recv_faults link.old }
    ensures hears_last { result ≡ 4 → FailsLast L.told L.recv_faults link.old link.new }
    ensures writes_well { result ≡ 0 → K.faults sink.new ≡ K.faults sink.old }
    ensures writes_last { result ≡ 5 → FailsLast K.written K.faults sink.old sink.new }
    ensures by_command { EndsByCommand (bytes_of words.now) result }
    ensures statuses { (result ≤ last_status) × (result ≢ 1) × (result ≢ 14) }
{
    let call = Call {
        random: *random,
        check,
        seal,
        hasher,
    };
    match asked_output(rt, alloc, words, source, link, &call) {
        Ok(output) => write_output(sink, output.as_slice()),
        Err(status) => write_line(sink, &status),
    }
}

/// Does the command that the words ask for, if it takes no link, and answers the status that the program ends with: what
/// `run` does for these commands, without a link. `words` are those after the program's name; `random` are 32 bytes that
/// nobody else knows. It waits for nobody. A command that keeps an index, as `sim` does, takes the `hasher` for it; nothing
/// that is written depends on it.
///
/// `check` writes of each contact line of the source whether its contact passes the puzzles, and then how many do. `table`
/// writes the saved text of the routing table that the contact lines of the source make. `mint` reads nothing, and writes
/// an identifier that solves both puzzles, with its key and X. `sim` reads nothing, looks up in a network in memory that is
/// made from a seed, and writes the counts of the lookup and how many of the closest nodes that aren't hostile it found. It
/// waits by the network's own clock, which takes no time.
///
/// The statuses and their lines are those of `run`. 2 comes also if the words ask for another command; 4, 7, 8, 12, 13
/// and 15 don't come.
pub fn run_plain<S: Source, K: Sink, C: Check>(
    alloc: Global,
    words: &[String],
    source: &mut S,
    sink: &mut K,
    random: &[u8; 32],
    check: &C,
    hasher: RandomState,
) -> u8
    // The text that was written is the command's own.
    ensures done { result ≡ 0 → AsksPlain (bytes_of words.now)
        × IsDone (bytes_of words.now) (called_plainly random.now)
        (shown S.left S.faults source.old source.new) nowhere
        (shown K.written K.faults sink.old sink.new) }

    // Words that ask for no such command end with 2, and only they.
    ensures usage { result ≡ 2 ↔ ¬ AsksPlain (bytes_of words.now) }

    // Each other status but 9 comes only with its cause.
    ensures bad_line { result ≡ 3 → ReadsInput (bytes_of words.now)
        × HasBadLine (bytes_of words.now) (shown S.left S.faults source.old source.new) }
    ensures sink_fault { result ≡ 5 → HasFailed (shown K.written K.faults sink.old sink.new) }
    ensures source_fault { result ≡ 6 → ReadsInput (bytes_of words.now)
        × HasFailed (shown S.left S.faults source.old source.new) }
    ensures unminted { result ≡ 10 → HasNothing (bytes_of words.now) random.now }
    ensures too_long { result ≡ 11 → ReadsInput (bytes_of words.now)
        × ReadsTooMuch (S.left source.old) (S.left source.new) }

    // If the source tells to the end, each of these causes brings its status, or that of out of memory.
    ensures bad_line_comes { let input = shown S.left S.faults source.old source.new in
        AsksPlain (bytes_of words.now) → IsTold input → ¬ HasFailed input
        → HasBadLine (bytes_of words.now) input → OrNoMemory result 3 }
    ensures unminted_comes { HasNothing (bytes_of words.now) random.now → OrNoMemory result 10 }
    ensures too_long_comes { S.left source.new ≢ None
        → ReadsTooMuch (S.left source.old) (S.left source.new)
        → OrNoMemory result 11 }

    // With what it needs, and no failure, a command is done, unless it is out of memory.
    ensures complete { GoesPlainlyWell (bytes_of words.now) (called_plainly random.now)
        (shown S.left S.faults source.old source.new)
        (shown K.written K.faults sink.old sink.new)
        → OrNoMemory result 0 }

    // What was written: the line of the status, or at 5 only the beginning of the text.
    ensures line { result ≢ 0 → result ≢ 5 → WritesLine (bytes_of words.now) result
        (shown S.left S.faults source.old source.new)
        (shown K.written K.faults sink.old sink.new) }
    ensures cut_short { result ≡ 5 → AsksPlain (bytes_of words.now)
        × CutShort (bytes_of words.now) (called_plainly random.now)
        (shown S.left S.faults source.old source.new) nowhere
        (shown K.written K.faults sink.old sink.new) }

    // The source was not called at 2, nor for a command that reads no input.
    ensures unread { result ≡ 2 → source.new ≡ source.old }
    ensures no_input { ¬ ReadsInput (bytes_of words.now) → source.new ≡ source.old }
    ensures at_most { ReadsAtMost (S.left source.old) (S.left source.new) }

    // No failed call is ignored: a read failed only at 6, and no write at 0.
    ensures reads_well { result ≢ 6 → S.faults source.new ≡ S.faults source.old }
    ensures reads_last { result ≡ 6 → FailsLast S.left S.faults source.old source.new }
    ensures writes_well { result ≡ 0 → K.faults sink.new ≡ K.faults sink.old }
    ensures writes_last { result ≡ 5 → FailsLast K.written K.faults sink.old sink.new }
    ensures by_command { AsksPlain (bytes_of words.now)
        → EndsByCommand (bytes_of words.now) result }
    ensures statuses { (result ≤ last_status) × (result ≢ 1) × (result ≢ 4) × (result ≢ 7) × (result ≢ 8)
        × (result ≢ 12) × (result ≢ 13) × (result ≢ 14) × (result ≢ 15) }
{
    let seal = GroupSeal::new([0; 32]);
    let call = Call {
        random: *random,
        check,
        seal: &seal,
        hasher,
    };
    match asked_plainly(alloc, words, source, &call) {
        Ok(output) => write_output(sink, output.as_slice()),
        Err(status) => write_line(sink, &status),
    }
}
