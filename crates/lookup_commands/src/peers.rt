//! The command `peers`: looks for peers of a key, makes the text of those that the answers named, and if it is told a
//! port announces it to the contacts of the result, or spread over the paths to the k closest of each.
ghost use Rattle.std.specs.Prelude.{◌≡◌, ◌≤◌, ◌<◌, ◌⊎◌, ◌^◌, true, None, IfOk, IfErr, OnErr, IsErrOf};
ghost use Rattle.kad_base.specs.Failing.{FailsLast};
ghost use Rattle.kad_base.specs.Outside.{Grows};
ghost use Rattle.lookup_core.specs.declared.quest.AskKind.TheVariants.{GetPeers};
ghost use Rattle.command_base.specs.Called.{called_with};
ghost use Rattle.command_base.specs.Input.{ReadsAtMost};
ghost use Rattle.follow_ups.specs.Announced.{owed, Announces, AnnouncesSome, sent_in};
ghost use Rattle.command_base.specs.Endings.{EndsUnasked, number_of};
ghost use Rattle.lookup_commands.specs.Followed.{chosen};
ghost use Rattle.lookup_commands.specs.Peered.{PeersText, PeersBegun, peers_promise};
ghost use Rattle.command_base.specs.Started.{IsInRange};
ghost use Rattle.command_base.specs.Shown.{shown, shown_link};

use crate::follow::follow_up;
use crate::printed::print_peers;
use crate::run_lookup::{Reached, run_lookup};
use command_base::{Call, Status};
use follow_ups::announce::Said;
use id_puzzles::Words;
use kad_base::{Bytes, Id, Link, NoMemory, Source};
use kad_words::LookWords;
use lookup_run::{AskKind, Outcome};
use path_worker::PacedCheck;
use seal_tags::{Seal, SealCheck};
use std::alloc::Global;
use std::sync::Wait;
use std::thread::Threads;

/// Announces what the words tell to announce, and answers how many datagrams were sent: none if no port was told.
fn announce_told<L: Link>(
    alloc: Global,
    link: &mut L,
    words: &mut Words,
    own: Id,
    look: &LookWords,
    port: Option<u16>,
    spread: bool,
    outcome: &Outcome,
) -> Result<usize, NoMemory>
    requires { words.old.place < 2 ^ 59 }
    ensures ok { let all = owed port own look.now.target
        (chosen spread look.now outcome.now) outcome.now.tokens in
        IfOk result (λ sent. Grows (L.told link.old) (L.told link.new)
        (λ es. Announces true None words.old.seed words.old.place all es × (sent ≡ sent_in es))) }
    ensures err { let all = owed port own look.now.target
        (chosen spread look.now outcome.now) outcome.now.tokens in
        OnErr result (Grows (L.told link.old) (L.told link.new)
        (AnnouncesSome true None words.old.seed words.old.place all)) }
    ensures send_faults { L.send_faults link.old ≤ L.send_faults link.new }
    ensures recv_faults { L.recv_faults link.new ≡ L.recv_faults link.old }
    ensures kept { L.kept link.new ≡ L.kept link.old }
{
    let Some(port) = port else {
        return Ok(0);
    };
    let said = Said::Peer {
        own,
        key: look.target,
        port,
    };
    follow_up(alloc, link, words, &said, look, spread, outcome)
}

/// Looks for peers, announces, and makes the text of what was found, or says why there is none. Nothing is written yet.
pub fn peers<
    R: Threads + Wait + Sync,
    S: Source,
    L: Link,
    C: PacedCheck + Sync,
    G: Seal + SealCheck,
>(
    rt: &R,
    alloc: Global,
    look: &LookWords,
    port: Option<u16>,
    spread: bool,
    source: &mut S,
    link: &mut L,
    call: &Call<'_, C, G>,
) -> Result<Bytes, Status>
    requires { IsInRange look.now }
    ensures ok { IfOk result (PeersText look.now port spread
        (called_with call.now.random (C.slow call.now.check.now) (G.accepted call.now.seal.now)
        (G.tag_of call.now.seal.now))
        (shown S.left S.faults source.old source.new)
        (shown_link L.told L.recv_faults L.send_faults link.old link.new)) }
    ensures cause { IfErr result ((peers_promise look.now port spread).cause
        (called_with call.now.random (C.slow call.now.check.now) (G.accepted call.now.seal.now)
        (G.tag_of call.now.seal.now))
        (shown S.left S.faults source.old source.new)
        (shown_link L.told L.recv_faults L.send_faults link.old link.new)) }
    ensures no_memory { IfErr result (λ status. status ≡ Status.NoMemory →
        PeersBegun look.now port spread
        (called_with call.now.random (C.slow call.now.check.now) (G.accepted call.now.seal.now)
        (G.tag_of call.now.seal.now))
        (shown S.left S.faults source.old source.new)
        (shown_link L.told L.recv_faults L.send_faults link.old link.new) ⊎ (link.new ≡ link.old)) }
    ensures early { IfErr result (λ status. EndsUnasked (number_of status) → link.new ≡ link.old) }
    ensures kept { L.kept link.new ≡ L.kept link.old }
    ensures hears_well { ¬ IsErrOf result Status.LinkFault
        → L.recv_faults link.new ≡ L.recv_faults link.old }
    ensures hears_last { IsErrOf result Status.LinkFault
        → FailsLast L.told L.recv_faults link.old link.new }
    ensures at_most { ReadsAtMost (S.left source.old) (S.left source.new) }
    ensures reads_well { ¬ IsErrOf result Status.SourceFault
        → S.faults source.new ≡ S.faults source.old }
    ensures reads_last { IsErrOf result Status.SourceFault
        → FailsLast S.left S.faults source.old source.new }
{
    let kind = AskKind::GetPeers;
    let reached = run_lookup(rt, alloc, kind, look, source, link, call)?;
    let Reached {
        own,
        outcome,
        mut words,
    } = reached;
    let announced = announce_told(alloc, link, &mut words, own, look, port, spread, &outcome)?;
    Ok(print_peers(
        alloc,
        outcome.peers.as_slice(),
        outcome.found.len(),
        &outcome.counts,
        announced,
    )?)
}
