//! What every command that looks up does first: it reads the contacts of the input, tells a new routing table of them, and
//! looks up from its closest until every path has run out.
ghost use Rattle.std.specs.Prelude.{◌≡◌, ◌≢◌, ◌⊎◌, [], IfOk, IfErr, IsErrOf};
ghost use Rattle.kad_base.specs.Failing.{FailsLast};
ghost use Rattle.command_base.specs.Called.{called_with};
ghost use Rattle.command_base.specs.Endings.{EndsUnasked, number_of};
ghost use Rattle.command_base.specs.Input.{Reads, ReadsAtMost};
ghost use Rattle.lookup_commands.specs.Looked.{LookupCause, InputCause, LookupBegun};
ghost use Rattle.lookup_commands.specs.Reached.{Reaches};
ghost use Rattle.command_base.specs.Started.{IsInRange};
ghost use Rattle.command_base.specs.Shown.{shown, shown_link};

use command_base::bootstrap::{FIRST_TX, setting_for, table_of};
use command_base::input::{admitted, read_reports};
use command_base::{Call, Status};
use id_puzzles::Words;
use kad_base::{Check, Contacts, Family, Id, Link, Policy, Source};
use kad_words::LookWords;
use lookup_run::{AskKind, LookFault, Outcome, look_up};
use path_worker::PacedCheck;
use seal_tags::{Seal, SealCheck};
use std::alloc::Global;
use std::sync::Wait;
use std::thread::Threads;

/// Who looked up, what was found, and the words from which its transaction ids were drawn, if any were.
#[derive(Drop)]
pub struct Reached {
    pub own: Id,
    pub outcome: Outcome,
    pub words: Words,
}

/// The contacts that the input gives, if there are some.
pub fn read_contacts<S: Source, C: Check>(
    alloc: Global,
    source: &mut S,
    own: &Id,
    family: Family,
    policy: Policy,
    check: &C,
) -> Result<Contacts, Status>
    ensures ok { IfOk result (Reads own.now family policy (shown S.left S.faults source.old source.new)) }
    ensures some_one { IfOk result (λ contacts. contacts ≢ []) }
    ensures cause { IfErr result (InputCause own.now family policy
        (shown S.left S.faults source.old source.new)) }
    ensures at_most { ReadsAtMost (S.left source.old) (S.left source.new) }
    ensures reads_well { ¬ IsErrOf result Status.SourceFault
        → S.faults source.new ≡ S.faults source.old }
    ensures reads_last { IsErrOf result Status.SourceFault
        → FailsLast S.left S.faults source.old source.new }
{
    let reports = read_reports(alloc, source)?;
    let contacts = admitted(alloc, own, family, policy, check, reports.as_slice())?;
    if contacts.as_slice().is_empty() {
        return Err(Status::NoSeeds);
    }
    Ok(contacts)
}

/// Looks the target up by this query, or says why it was not found out.
pub fn run_lookup<
    R: Threads + Wait + Sync,
    S: Source,
    L: Link,
    C: PacedCheck + Sync,
    G: Seal + SealCheck,
>(
    rt: &R,
    alloc: Global,
    kind: AskKind,
    look: &LookWords,
    source: &mut S,
    link: &mut L,
    call: &Call<'_, C, G>,
) -> Result<Reached, Status>
    requires { IsInRange look.now }
    ensures ok { IfOk result (Reaches kind look.now
        (called_with call.now.random (C.slow call.now.check.now) (G.accepted call.now.seal.now)
        (G.tag_of call.now.seal.now))
        (shown S.left S.faults source.old source.new)
        (shown_link L.told L.recv_faults L.send_faults link.old link.new)) }
    ensures cause { IfErr result (LookupCause kind look.now
        (called_with call.now.random (C.slow call.now.check.now) (G.accepted call.now.seal.now)
        (G.tag_of call.now.seal.now))
        (shown S.left S.faults source.old source.new)
        (shown_link L.told L.recv_faults L.send_faults link.old link.new)) }
    ensures no_memory { IfErr result (λ status. status ≡ Status.NoMemory →
        LookupBegun kind look.now
        (called_with call.now.random (C.slow call.now.check.now) (G.accepted call.now.seal.now)
        (G.tag_of call.now.seal.now))
        (shown S.left S.faults source.old source.new)
        (shown_link L.told L.recv_faults L.send_faults link.old link.new) ⊎ (link.new ≡ link.old)) }
    ensures early { IfErr result (λ status. EndsUnasked (number_of status) → link.new ≡ link.old) }
    ensures kept { L.kept link.new ≡ L.kept link.old }
    ensures hears_well { ¬ IsErrOf result Status.LinkFault
        → L.recv_faults link.new ≡ L.recv_faults link.old }
    ensures hears_last { IsErrOf result Status.LinkFault
        → FailsLast L.told L.recv_faults link.old link.new }
    ensures at_most { ReadsAtMost (S.left source.old) (S.left source.new) }
    ensures reads_well { ¬ IsErrOf result Status.SourceFault
        → S.faults source.new ≡ S.faults source.old }
    ensures reads_last { IsErrOf result Status.SourceFault
        → FailsLast S.left S.faults source.old source.new }
{
    let setting = setting_for(kind, look, &call.random);
    let contacts = read_contacts(
        alloc,
        source,
        &setting.own,
        setting.family,
        setting.policy,
        call.check,
    )?;
    let table = table_of(
        alloc,
        setting.own,
        look.k,
        look.bits,
        0,
        contacts.as_slice(),
    )?;
    let mut words = Words::new(&call.random, FIRST_TX);
    let (_, ended) = look_up(
        rt,
        alloc,
        link,
        &mut words,
        table,
        &setting,
        call.check,
        call.seal,
        call.hasher,
    );
    match ended {
        Ok(outcome) => Ok(Reached {
            own: setting.own,
            outcome,
            words,
        }),
        Err(LookFault::LinkFault) => Err(Status::LinkFault),
        Err(LookFault::Strays) => Err(Status::Strays),
        Err(LookFault::NoMemory) => Err(Status::NoMemory),
    }
}
