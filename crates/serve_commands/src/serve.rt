//! The command `serve`: a node that answers queries, by one worker or several at once, and in the end the text of how
//! many datagrams came and how many replies it sent, and of its routing table where the words ask for it.
ghost use Rattle.std.specs.Prelude.{◌≡◌, ◌≢◌, ◌≤◌, ◌⊎◌, Err, IfOk, IfErr, IsErrOf};
ghost use Rattle.std.specs.List.{All};
ghost use Rattle.kad_base.specs.Failing.{FailsLast};
ghost use Rattle.kad_base.specs.Puzzles.{Passes};
ghost use Rattle.node_serve.specs.declared.service.ServeFault.{ServeFault};
ghost use Rattle.command_base.specs.Called.{called_with};
ghost use Rattle.command_base.specs.Input.{ReadsAtMost};
ghost use Rattle.command_base.specs.Endings.{EndsUnasked, number_of};
ghost use Rattle.command_base.specs.Promise.{ReportsCause};
ghost use Rattle.serve_commands.specs.Printed.{WithTable, printed_served};
ghost use Rattle.serve_commands.specs.Served.{AreServiceBounds, HasServed, HasServedSome, Hosts, ServeBegun, ServeText, lasting_of, serve_promise};
ghost use Rattle.command_base.specs.Started.{AreTableBounds, own_of};
ghost use Rattle.command_base.specs.Shown.{shown, shown_link, HasFailed};

use crate::printed::{add_table, served_line};
use command_base::bootstrap::{own_id, table_of};
use command_base::input::{admitted, kept, read_reports};
use command_base::printed::add_line;
use command_base::{Call, Status};
use contact_table::Table;
use kad_base::{Bytes, Check, Family, Id, Link, List, NoMemory, Reports, Source};
use kad_words::ServeWords;
use node_serve::{Lasting, Node, Profile, ServeCounts, ServeFault, ServeSetting, serve_loop};
use node_tokens::Tokens;
use path_worker::PacedCheck;
use seal_tags::{Seal, SealCheck};
use serve_batches::{Duty, serve_many};
use std::alloc::Global;
use std::sync::Wait;
use std::thread::Threads;

/// What a node begins with: its routing table, and the reports that it keeps.
#[derive(Drop)]
struct Host {
    table: Table,
    proofs: Reports,
}

/// Reads the contacts of the input, tells a new routing table, with the limit of one host that the words say, of those of IPv4,
/// and keeps the reports that have a proof.
fn read_host<S: Source, C: Check, G: Seal + SealCheck>(
    alloc: Global,
    service: &ServeWords,
    own: Id,
    source: &mut S,
    call: &Call<'_, C, G>,
) -> Result<Host, Status>
    requires ranges { AreTableBounds service.now.k service.now.bits }
    requires own { own ≡ own_of service.now.own call.now.random }
    ensures ok { IfOk result (λ host. Hosts service.now call.now.random
        (shown S.left S.faults source.old source.new) host.table host.proofs) }
    ensures cause { IfErr result (ReportsCause (shown S.left S.faults source.old source.new)) }
    ensures at_most { ReadsAtMost (S.left source.old) (S.left source.new) }
    ensures reads_well { ¬ IsErrOf result Status.SourceFault
        → S.faults source.new ≡ S.faults source.old }
    ensures reads_last { IsErrOf result Status.SourceFault
        → FailsLast S.left S.faults source.old source.new }
{
    let reports = read_reports(alloc, source)?;
    let read = reports.as_slice();
    let contacts = admitted(alloc, &own, Family::Four, service.policy, call.check, read)?;
    let proofs = kept(alloc, &own, Family::Four, service.policy, call.check, read)?;
    let table = table_of(
        alloc,
        own,
        service.k,
        service.bits,
        service.per_address,
        contacts.as_slice(),
    )?;
    Ok(Host { table, proofs })
}

/// The output of a node that served, and has this table in the end.
fn text_of(
    alloc: Global,
    with_table: bool,
    table: &Table,
    counts: ServeCounts,
) -> Result<Bytes, NoMemory>
    ensures { IfOk result (WithTable with_table table.now
        (printed_served counts.received counts.replied)) }
{
    let mut output = List::new(alloc);
    let Ok(line) = served_line(alloc, u64::from(counts.received), u64::from(counts.replied)) else {
        return Err(NoMemory);
    };
    add_line(&mut output, line.as_str())?;
    add_table(alloc, with_table, table, &mut output)?;
    Ok(output)
}

/// How long it serves.
fn lasts(service: &ServeWords) -> Lasting
    ensures { result ≡ lasting_of service.now }
{
    Lasting {
        receives: service.receives,
        minutes: service.minutes,
    }
}

/// Serves on one thread, from a first look at the link's clock on.
fn serve_alone<L: Link, C: PacedCheck, G: Seal + SealCheck>(
    alloc: Global,
    service: &ServeWords,
    own: Id,
    host: Host,
    link: &mut L,
    call: &Call<'_, C, G>,
) -> (Table, Result<ServeCounts, ServeFault>)
    requires ranges { AreServiceBounds service.now }
    requires alone { service.now.workers ≡ 1 }
    requires own { own ≡ own_of service.now.own call.now.random }
    requires table { host.table.own ≡ own }
    requires proofs { All (Passes service.now.policy) host.proofs }
    ensures ok { IfOk result.1 (λ counts. HasServed service.now
        (called_with call.now.random (C.slow call.now.check.now) (G.accepted call.now.seal.now)
        (G.tag_of call.now.seal.now))
        (shown_link L.told L.recv_faults L.send_faults link.old link.new) host.table result.0
        host.proofs counts.received counts.replied) }
    ensures begun { IfErr result.1 (λ fault. HasServedSome service.now
        (called_with call.now.random (C.slow call.now.check.now) (G.accepted call.now.seal.now)
        (G.tag_of call.now.seal.now))
        (shown_link L.told L.recv_faults L.send_faults link.old link.new) host.table host.proofs) }
    ensures well { result.1 ≢ Err ServeFault.LinkFault
        → L.recv_faults link.new ≡ L.recv_faults link.old }
    ensures link_fault { result.1 ≡ Err ServeFault.LinkFault
        → HasFailed (shown_link L.told L.recv_faults L.send_faults link.old link.new) }
    ensures last { result.1 ≡ Err ServeFault.LinkFault
        → FailsLast L.told L.recv_faults link.old link.new }
    ensures kept { L.kept link.new ≡ L.kept link.old }
{
    let Host { table, proofs } = host;
    let began = link.now();
    let profile = Profile {
        own,
        k: service.k,
        policy: service.policy,
        began,
        sealed: service.sealed,
    };
    let node = Node::new(alloc, profile, table, proofs, &call.random);
    serve_loop(link, node, call.seal, began, lasts(service))
}

/// Serves by several workers at once, from a first look at the link's clock on.
fn serve_at_once<R: Threads + Wait + Sync, L: Link, C: PacedCheck, G: Seal + SealCheck + Sync>(
    rt: &R,
    alloc: Global,
    service: &ServeWords,
    own: Id,
    host: Host,
    link: &mut L,
    call: &Call<'_, C, G>,
) -> (Table, Result<ServeCounts, ServeFault>)
    requires ranges { AreServiceBounds service.now }
    requires several { 2 ≤ service.now.workers }
    requires own { own ≡ own_of service.now.own call.now.random }
    requires proofs { All (Passes service.now.policy) host.proofs }
    ensures ok { IfOk result.1 (λ counts. HasServed service.now
        (called_with call.now.random (C.slow call.now.check.now) (G.accepted call.now.seal.now)
        (G.tag_of call.now.seal.now))
        (shown_link L.told L.recv_faults L.send_faults link.old link.new) host.table result.0
        host.proofs counts.received counts.replied) }
    ensures begun { IfErr result.1 (λ fault. HasServedSome service.now
        (called_with call.now.random (C.slow call.now.check.now) (G.accepted call.now.seal.now)
        (G.tag_of call.now.seal.now))
        (shown_link L.told L.recv_faults L.send_faults link.old link.new) host.table host.proofs) }
    ensures well { result.1 ≢ Err ServeFault.LinkFault
        → L.recv_faults link.new ≡ L.recv_faults link.old }
    ensures link_fault { result.1 ≡ Err ServeFault.LinkFault
        → HasFailed (shown_link L.told L.recv_faults L.send_faults link.old link.new) }
    ensures last { result.1 ≡ Err ServeFault.LinkFault
        → FailsLast L.told L.recv_faults link.old link.new }
    ensures kept { L.kept link.new ≡ L.kept link.old }
{
    let Host { table, proofs } = host;
    let began = link.now();
    let setting = ServeSetting {
        own,
        k: service.k,
        policy: service.policy,
        proofs,
        tokens: Tokens::limited(&call.random, 0, service.per_address as usize),
        sealed: service.sealed,
        proof: None,
    };
    let duty = Duty {
        workers: service.workers,
        began,
        lasting: lasts(service),
    };
    serve_many(rt, alloc, link, call.seal, setting, table, duty)
}

/// Serves by as many workers as the words say.
fn serve_by<R: Threads + Wait + Sync, L: Link, C: PacedCheck, G: Seal + SealCheck + Sync>(
    rt: &R,
    alloc: Global,
    service: &ServeWords,
    own: Id,
    host: Host,
    link: &mut L,
    call: &Call<'_, C, G>,
) -> (Table, Result<ServeCounts, ServeFault>)
    requires ranges { AreServiceBounds service.now }
    requires own { own ≡ own_of service.now.own call.now.random }
    requires table { host.table.own ≡ own }
    requires proofs { All (Passes service.now.policy) host.proofs }
    ensures ok { IfOk result.1 (λ counts. HasServed service.now
        (called_with call.now.random (C.slow call.now.check.now) (G.accepted call.now.seal.now)
        (G.tag_of call.now.seal.now))
        (shown_link L.told L.recv_faults L.send_faults link.old link.new) host.table result.0
        host.proofs counts.received counts.replied) }
    ensures begun { IfErr result.1 (λ fault. HasServedSome service.now
        (called_with call.now.random (C.slow call.now.check.now) (G.accepted call.now.seal.now)
        (G.tag_of call.now.seal.now))
        (shown_link L.told L.recv_faults L.send_faults link.old link.new) host.table host.proofs) }
    ensures well { result.1 ≢ Err ServeFault.LinkFault
        → L.recv_faults link.new ≡ L.recv_faults link.old }
    ensures link_fault { result.1 ≡ Err ServeFault.LinkFault
        → HasFailed (shown_link L.told L.recv_faults L.send_faults link.old link.new) }
    ensures last { result.1 ≡ Err ServeFault.LinkFault
        → FailsLast L.told L.recv_faults link.old link.new }
    ensures kept { L.kept link.new ≡ L.kept link.old }
{
    if service.workers == 1 {
        return serve_alone(alloc, service, own, host, link, call);
    }
    serve_at_once(rt, alloc, service, own, host, link, call)
}

/// Serves, and makes the text of how much was served, and of the table if that is wanted, or says why there is none. Nothing is
/// written yet.
pub fn serve<
    R: Threads + Wait + Sync,
    S: Source,
    L: Link,
    C: PacedCheck,
    G: Seal + SealCheck + Sync,
>(
    rt: &R,
    alloc: Global,
    service: &ServeWords,
    source: &mut S,
    link: &mut L,
    call: &Call<'_, C, G>,
) -> Result<Bytes, Status>
    requires { AreServiceBounds service.now }
    ensures ok { IfOk result (ServeText service.now
        (called_with call.now.random (C.slow call.now.check.now) (G.accepted call.now.seal.now)
        (G.tag_of call.now.seal.now))
        (shown S.left S.faults source.old source.new)
        (shown_link L.told L.recv_faults L.send_faults link.old link.new)) }
    ensures cause { IfErr result ((serve_promise service.now).cause
        (called_with call.now.random (C.slow call.now.check.now) (G.accepted call.now.seal.now)
        (G.tag_of call.now.seal.now))
        (shown S.left S.faults source.old source.new)
        (shown_link L.told L.recv_faults L.send_faults link.old link.new)) }
    ensures no_memory { IfErr result (λ status. status ≡ Status.NoMemory →
        ServeBegun service.now
        (called_with call.now.random (C.slow call.now.check.now) (G.accepted call.now.seal.now)
        (G.tag_of call.now.seal.now))
        (shown S.left S.faults source.old source.new)
        (shown_link L.told L.recv_faults L.send_faults link.old link.new) ⊎ (link.new ≡ link.old)) }
    ensures early { IfErr result (λ status. EndsUnasked (number_of status) → link.new ≡ link.old) }
    ensures kept { L.kept link.new ≡ L.kept link.old }
    ensures hears_well { ¬ IsErrOf result Status.LinkFault
        → L.recv_faults link.new ≡ L.recv_faults link.old }
    ensures hears_last { IsErrOf result Status.LinkFault
        → FailsLast L.told L.recv_faults link.old link.new }
    ensures at_most { ReadsAtMost (S.left source.old) (S.left source.new) }
    ensures reads_well { ¬ IsErrOf result Status.SourceFault
        → S.faults source.new ≡ S.faults source.old }
    ensures reads_last { IsErrOf result Status.SourceFault
        → FailsLast S.left S.faults source.old source.new }
{
    let own = own_id(service.own, &call.random);
    let host = read_host(alloc, service, own, source, call)?;
    let (table, answer) = serve_by(rt, alloc, service, own, host, link, call);
    let counts = match answer {
        Ok(counts) => counts,
        Err(ServeFault::LinkFault) => return Err(Status::LinkFault),
        Err(ServeFault::NoMemory) => return Err(Status::NoMemory),
    };
    Ok(text_of(alloc, service.table, &table, counts)?)
}
