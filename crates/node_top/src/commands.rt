//! The commands: a module of a crate below each, and an arm here; and what the words ask for, done.
ghost use Rattle.std.specs.Prelude.{◌≡◌, ◌≢◌, ◌⊎◌, Bool, IfOk, IfErr, IsTrue, IsErrOf};
ghost use Rattle.kad_base.specs.Failing.{FailsLast};
ghost use Rattle.kad_base.specs.declared.types.Event.{Event};
ghost use Rattle.lookup_core.specs.Sealed.{Accepts};
ghost use Rattle.node_serve.specs.Sealing.{Tags};
ghost use Rattle.command_base.specs.Called.{called_plainly, called_with};
ghost use Rattle.node_top.specs.Asked.{Asks, AsksPlain, bytes_of};
ghost use Rattle.node_top.specs.Commands.{promise_of, HasBegun, HasCause, HasText, ReadsInput};
ghost use Rattle.command_base.specs.Endings.{EndsUnasked, number_of};
ghost use Rattle.command_base.specs.Input.{ReadsAtMost};
ghost use Rattle.command_base.specs.Shown.{Shown, shown, shown_link, nowhere};

use crate::asked::read_command;
use command_base::{Call, Status};
use kad_base::{Bytes, Check, Link, Source};
use kad_words::{Command, takes_link};
use lookup_commands::{get, lookup, peers, put};
use node_commands::node;
use path_worker::PacedCheck;
use plain_commands::{check, mint, sim};
use seal_tags::{Seal, SealCheck};
use serve_commands::serve;
use std::alloc::Global;
use std::sync::Wait;
use std::thread::Threads;
use table_commands::{refresh, table};

/// Does a command, and makes its output. Nothing is written yet.
fn output_of<
    R: Threads + Wait + Sync,
    S: Source,
    L: Link,
    C: PacedCheck + Sync,
    G: Seal + SealCheck + Sync,
>(
    rt: &R,
    alloc: Global,
    command: &Command,
    source: &mut S,
    link: &mut L,
    call: &Call<'_, C, G>,
) -> Result<Bytes, Status>
    requires ranges { (promise_of command.now).ranges }
    ensures ok { IfOk result ((promise_of command.now).text
        (called_with call.now.random (C.slow call.now.check.now) (G.accepted call.now.seal.now)
        (G.tag_of call.now.seal.now))
        (shown S.left S.faults source.old source.new)
        (shown_link L.told L.recv_faults L.send_faults link.old link.new)) }
    ensures cause { IfErr result ((promise_of command.now).cause
        (called_with call.now.random (C.slow call.now.check.now) (G.accepted call.now.seal.now)
        (G.tag_of call.now.seal.now))
        (shown S.left S.faults source.old source.new)
        (shown_link L.told L.recv_faults L.send_faults link.old link.new)) }
    ensures unread { IfErr result (λ status. number_of status ≡ 12 → source.new ≡ source.old) }
    ensures unproved { IfErr result (λ status. number_of status ≡ 15 → source.new ≡ source.old) }
    ensures early { IfErr result (λ status. EndsUnasked (number_of status) → link.new ≡ link.old) }
    ensures kept { L.kept link.new ≡ L.kept link.old }
    ensures hears_well { ¬ IsErrOf result Status.LinkFault
        → L.recv_faults link.new ≡ L.recv_faults link.old }
    ensures hears_last { IsErrOf result Status.LinkFault
        → FailsLast L.told L.recv_faults link.old link.new }
    ensures at_most { ReadsAtMost (S.left source.old) (S.left source.new) }
    ensures reads_well { ¬ IsErrOf result Status.SourceFault
        → S.faults source.new ≡ S.faults source.old }
    ensures reads_last { IsErrOf result Status.SourceFault
        → FailsLast S.left S.faults source.old source.new }
    ensures no_memory { IfErr result (λ status. status ≡ Status.NoMemory →
        (promise_of command.now).begun
        (called_with call.now.random (C.slow call.now.check.now) (G.accepted call.now.seal.now)
        (G.tag_of call.now.seal.now))
        (shown S.left S.faults source.old source.new)
        (shown_link L.told L.recv_faults L.send_faults link.old link.new) ⊎ (link.new ≡ link.old)) }
    ensures no_input { ¬ IsTrue (promise_of command.now).reads → source.new ≡ source.old }
    ensures no_link { ¬ IsTrue (promise_of command.now).links → link.new ≡ link.old }
{
    match *command {
        Command::Lookup { look } => lookup::lookup(rt, alloc, &look, source, link, call),
        Command::Peers {
            look,
            announce,
            spread,
        } => peers::peers(rt, alloc, &look, announce, spread, source, link, call),
        Command::Get { look } => get::get(rt, alloc, &look, source, link, call),
        Command::Put {
            look,
            ref value,
            ref spread,
        } => put::put(
            rt,
            alloc,
            &look,
            value.as_slice(),
            *spread,
            source,
            link,
            call,
        ),
        Command::Serve { words } => serve::serve(rt, alloc, &words, source, link, call),
        Command::Node { words } => node::node(rt, alloc, &words, source, link, call),
        Command::Refresh { words } => refresh::refresh(alloc, &words, source, link, call),
        _ => plain_output_of(alloc, command, source, call),
    }
}

/// Does a command that takes no link, and makes its output. Nothing is written yet.
fn plain_output_of<S: Source, C: Check, G: Seal + SealCheck>(
    alloc: Global,
    command: &Command,
    source: &mut S,
    call: &Call<'_, C, G>,
) -> Result<Bytes, Status>
    requires plain { ¬ IsTrue (promise_of command.now).links }
    requires ranges { (promise_of command.now).ranges }
    ensures ok { (slow : Bool) (accepts : Accepts) (tags : Tags) (link : Shown Event) → IfOk result
        ((promise_of command.now).text (called_with call.now.random slow accepts tags)
        (shown S.left S.faults source.old source.new) link) }
    ensures cause { (slow : Bool) (accepts : Accepts) (tags : Tags) (link : Shown Event) → IfErr result
        ((promise_of command.now).cause (called_with call.now.random slow accepts tags)
        (shown S.left S.faults source.old source.new) link) }
    ensures no_input { ¬ IsTrue (promise_of command.now).reads → source.new ≡ source.old }
    ensures at_most { ReadsAtMost (S.left source.old) (S.left source.new) }
    ensures reads_well { ¬ IsErrOf result Status.SourceFault
        → S.faults source.new ≡ S.faults source.old }
    ensures reads_last { IsErrOf result Status.SourceFault
        → FailsLast S.left S.faults source.old source.new }
{
    match *command {
        Command::Table { words } => table::table(alloc, &words, source, call),
        Command::Check { policy } => check::check(alloc, policy, source, call),
        Command::Mint { words } => mint::mint(alloc, &words, &call.random),
        Command::Sim { words } => sim::sim(alloc, &words, call),
        _ => Err(Status::Usage),
    }
}

/// Does the command that the words ask for, and makes its output. Nothing is written yet.
pub(crate) fn asked_output<
    R: Threads + Wait + Sync,
    S: Source,
    L: Link,
    C: PacedCheck + Sync,
    G: Seal + SealCheck + Sync,
>(
    rt: &R,
    alloc: Global,
    words: &[String],
    source: &mut S,
    link: &mut L,
    call: &Call<'_, C, G>,
) -> Result<Bytes, Status>
    ensures ok { IfOk result (HasText (bytes_of words.now)
        (called_with call.now.random (C.slow call.now.check.now) (G.accepted call.now.seal.now)
        (G.tag_of call.now.seal.now))
        (shown S.left S.faults source.old source.new)
        (shown_link L.told L.recv_faults L.send_faults link.old link.new)) }
    ensures cause { IfErr result (HasCause (Asks (bytes_of words.now)) (bytes_of words.now)
        (called_with call.now.random (C.slow call.now.check.now) (G.accepted call.now.seal.now)
        (G.tag_of call.now.seal.now))
        (shown S.left S.faults source.old source.new)
        (shown_link L.told L.recv_faults L.send_faults link.old link.new)) }
    ensures unread { IfErr result (λ status. (number_of status ≡ 2) ⊎ (number_of status ≡ 12)
        ⊎ (number_of status ≡ 15) → source.new ≡ source.old) }
    ensures early { IfErr result (λ status. EndsUnasked (number_of status) → link.new ≡ link.old) }
    ensures kept { L.kept link.new ≡ L.kept link.old }
    ensures hears_well { ¬ IsErrOf result Status.LinkFault
        → L.recv_faults link.new ≡ L.recv_faults link.old }
    ensures hears_last { IsErrOf result Status.LinkFault
        → FailsLast L.told L.recv_faults link.old link.new }
    ensures at_most { ReadsAtMost (S.left source.old) (S.left source.new) }
    ensures reads_well { ¬ IsErrOf result Status.SourceFault
        → S.faults source.new ≡ S.faults source.old }
    ensures reads_last { IsErrOf result Status.SourceFault
        → FailsLast S.left S.faults source.old source.new }
    ensures no_memory { IfErr result (λ status. status ≡ Status.NoMemory →
        HasBegun (bytes_of words.now)
        (called_with call.now.random (C.slow call.now.check.now) (G.accepted call.now.seal.now)
        (G.tag_of call.now.seal.now))
        (shown S.left S.faults source.old source.new)
        (shown_link L.told L.recv_faults L.send_faults link.old link.new) ⊎ (link.new ≡ link.old)) }
    ensures plain { ¬ Asks (bytes_of words.now) → IfErr result (λ status. number_of status ≡ 2) }
    ensures no_input { ¬ ReadsInput (bytes_of words.now) → source.new ≡ source.old }
    ensures no_link { AsksPlain (bytes_of words.now) → link.new ≡ link.old }
{
    let command = read_command(alloc, words)?;
    output_of(rt, alloc, &command, source, link, call)
}

/// Does the command that the words ask for, if it takes no link, and makes its output. Nothing is written yet.
pub(crate) fn asked_plainly<S: Source, C: Check, G: Seal + SealCheck>(
    alloc: Global,
    words: &[String],
    source: &mut S,
    call: &Call<'_, C, G>,
) -> Result<Bytes, Status>
    ensures asks { IfOk result (λ text. AsksPlain (bytes_of words.now)) }
    ensures ok { IfOk result (HasText (bytes_of words.now) (called_plainly call.now.random)
        (shown S.left S.faults source.old source.new) nowhere) }
    ensures cause { IfErr result (HasCause (AsksPlain (bytes_of words.now)) (bytes_of words.now)
        (called_plainly call.now.random) (shown S.left S.faults source.old source.new) nowhere) }
    ensures unread { IfErr result (λ status. number_of status ≡ 2 → source.new ≡ source.old) }
    ensures plain { ¬ AsksPlain (bytes_of words.now)
        → IfErr result (λ status. number_of status ≡ 2) }
    ensures no_input { ¬ ReadsInput (bytes_of words.now) → source.new ≡ source.old }
    ensures no_link { IfErr result (λ status. (number_of status ≢ 4)
        × (number_of status ≢ 7) × (number_of status ≢ 8) × (number_of status ≢ 12)
        × (number_of status ≢ 13) × (number_of status ≢ 15)) }
    ensures at_most { ReadsAtMost (S.left source.old) (S.left source.new) }
    ensures reads_well { ¬ IsErrOf result Status.SourceFault
        → S.faults source.new ≡ S.faults source.old }
    ensures reads_last { IsErrOf result Status.SourceFault
        → FailsLast S.left S.faults source.old source.new }
{
    if takes_link(words) {
        return Err(Status::Usage);
    }
    let command = read_command(alloc, words)?;
    plain_output_of(alloc, &command, source, call)
}
