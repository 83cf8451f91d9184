//! The command `node`: does several jobs at once, while it answers queries, and makes the text of what it found.
ghost use Rattle.std.specs.Prelude.{◌≡◌, ◌≢◌, ◌⊎◌, ◌↔◌, ◌++◌, ◌≤◌, [], length, IfOk, IfErr, OnOk, IsErrOf, IsTrue};
ghost use Rattle.std.specs.List.{All, AllByRecursion};
ghost use Rattle.kad_base.specs.Failing.{FailsLast};
ghost use Rattle.kad_base.specs.Contacts.{IsUsable};
ghost use Rattle.contact_table.specs.TableStep.{contacts_of};
ghost use Rattle.kad_base.specs.Puzzles.{Passes};
ghost use Rattle.kad_base.specs.Limits.{max_lookups};
ghost use Rattle.look_many.specs.Job.{MaySayOf};
ghost use Rattle.look_many.specs.ManyLooked.{CountsUnsent, journals_of};
ghost use Rattle.command_base.specs.Called.{called_with};
ghost use Rattle.node_commands.specs.Several.{Begun, HasLookedTo, HasStopped, IsPrinted, Names, NamesCause, NodeBegun, NodeText, Starts, StartsCause, lasting_of, node_promise};
ghost use Rattle.serve_commands.specs.Printed.{WithTable};
ghost use Rattle.command_base.specs.Endings.{EndsUnasked, number_of};
ghost use Rattle.command_base.specs.Input.{ReadsAtMost};
ghost use Rattle.command_base.specs.Shown.{shown, shown_link, HasFailed};
ghost use Rattle.command_base.specs.Started.{own_of, IsInRange};
ghost use Rattle.command_base.specs.Vouched.{Vouches};

use crate::job_text::print_each;
use crate::jobs::{NodeInput, read_input};
use command_base::bootstrap::{FIRST_TX, own_id, table_of};
use command_base::input::{admitted, kept, read_whole};
use command_base::printed::add_line;
use command_base::vouch::is_vouched;
use command_base::{Call, Status};
use contact_table::Table;
use id_puzzles::Words;
use kad_base::{Bytes, Check, Contact, Family, Id, Link, NoMemory, Proof, Reports, Source};
use kad_text::lines::LinesFault;
use kad_words::{LookWords, NodeWords};
use look_many::{Given, Job, Jobs, Many, ManyFault, ManySetting, Wanted, look_many};
use node_serve::{Lasting, ServeSetting};
use node_tokens::Tokens;
use path_worker::PacedCheck;
use seal_tags::{Seal, SealCheck};
use serve_commands::printed::{add_table, served_line};
use std::alloc::Global;
use std::sync::Wait;
use std::thread::Threads;

/// What a node begins with: its routing table, the reports that it keeps, and what it looks for.
#[derive(Drop)]
struct Start {
    table: Table,
    proofs: Reports,
    jobs: Jobs,
}

/// What a node found, and its routing table then.
#[derive(Drop)]
struct Looked {
    table: Table,
    many: Many,
}

/// Reads the lines of the input.
fn read_names<S: Source>(alloc: Global, source: &mut S) -> Result<NodeInput, Status>
    ensures ok { IfOk result (λ input. Names (shown S.left S.faults source.old source.new) input.reports input.jobs) }
    ensures cause { IfErr result (NamesCause (shown S.left S.faults source.old source.new)) }
    ensures at_most { ReadsAtMost (S.left source.old) (S.left source.new) }
    ensures reads_well { ¬ IsErrOf result Status.SourceFault
        → S.faults source.new ≡ S.faults source.old }
    ensures reads_last { IsErrOf result Status.SourceFault
        → FailsLast S.left S.faults source.old source.new }
{
    let bytes = read_whole(alloc, source)?;
    match read_input(alloc, bytes.as_slice()) {
        Ok(input) => Ok(input),
        Err(LinesFault::Bad { line }) => Err(Status::BadLine { line }),
        Err(LinesFault::NoMemory) => Err(Status::NoMemory),
    }
}

/// Whether there is something to look for, and nobody to begin with.
fn is_nobody(jobs: &[Job], contacts: &[Contact]) -> bool
    ensures { IsTrue result ↔ (jobs.now ≢ []) × (contacts.now ≡ []) }
{
    !jobs.is_empty() && contacts.is_empty()
}

/// Reads the input, tells a new routing table, with the limit of one host that the words say, of its contacts of IPv4, and keeps
/// the reports that have a proof.
fn read_start<S: Source, C: Check, G: Seal + SealCheck>(
    alloc: Global,
    look: &LookWords,
    own: Id,
    source: &mut S,
    call: &Call<'_, C, G>,
) -> Result<Start, Status>
    requires ranges { IsInRange look.now }
    requires own { own ≡ own_of look.now.own call.now.random }
    ensures ok { IfOk result (λ start. Starts look.now call.now.random
        (shown S.left S.faults source.old source.new) start.jobs start.table start.proofs) }
    ensures cause { IfErr result (StartsCause look.now call.now.random
        (shown S.left S.faults source.old source.new)) }
    ensures at_most { ReadsAtMost (S.left source.old) (S.left source.new) }
    ensures reads_well { ¬ IsErrOf result Status.SourceFault
        → S.faults source.new ≡ S.faults source.old }
    ensures reads_last { IsErrOf result Status.SourceFault
        → FailsLast S.left S.faults source.old source.new }
{
    let input = read_names(alloc, source)?;
    let NodeInput { reports, jobs } = input;
    let read = reports.as_slice();
    let contacts = admitted(alloc, &own, Family::Four, look.policy, call.check, read)?;
    if is_nobody(jobs.as_slice(), contacts.as_slice()) {
        return Err(Status::NoSeeds);
    }
    let proofs = kept(alloc, &own, Family::Four, look.policy, call.check, read)?;
    let table = table_of(
        alloc,
        own,
        look.k,
        look.bits,
        look.per_address,
        contacts.as_slice(),
    )?;
    Ok(Start {
        table,
        proofs,
        jobs,
    })
}

/// Does the jobs, while it answers queries, from this table on.
fn look_all<'a, R: Threads + Wait + Sync, L: Link, C: PacedCheck + Sync, G: Seal + SealCheck>(
    rt: &'a R,
    alloc: Global,
    look: &LookWords,
    lasting: Lasting,
    proof: Option<Proof>,
    own: Id,
    table: Table,
    proofs: Reports,
    jobs: &[Job],
    link: &mut L,
    call: &Call<'a, C, G>,
) -> Result<Looked, ManyFault>
    requires ranges { IsInRange look.now }
    requires own { own ≡ own_of look.now.own call.now.random }
    requires few { length jobs.now ≤ max_lookups }
    requires carried { AllByRecursion MaySayOf jobs.now }
    requires usable { All (IsUsable own) (contacts_of table) }
    requires proofs { All (Passes look.now.policy) proofs }
    ensures ok { IfOk result (λ looked. HasLookedTo looked.table look.now lasting proof
        (called_with call.now.random (C.slow call.now.check.now) (G.accepted call.now.seal.now)
        (G.tag_of call.now.seal.now)) jobs.now table proofs
        (shown_link L.told L.recv_faults L.send_faults link.old link.new) looked.many) }
    ensures stopped { IfErr result (HasStopped look.now lasting proof
        (called_with call.now.random (C.slow call.now.check.now) (G.accepted call.now.seal.now)
        (G.tag_of call.now.seal.now)) jobs.now table proofs
        (shown_link L.told L.recv_faults L.send_faults link.old link.new)) }
    ensures refused { IfOk result (λ looked. CountsUnsent (journals_of looked.many.outcomes)
        (L.send_faults link.old) (L.send_faults link.new)) }
    ensures well { ¬ IsErrOf result ManyFault.LinkFault
        → L.recv_faults link.new ≡ L.recv_faults link.old }
    ensures link_fault { IsErrOf result ManyFault.LinkFault
        → HasFailed (shown_link L.told L.recv_faults L.send_faults link.old link.new) }
    ensures last { IsErrOf result ManyFault.LinkFault
        → FailsLast L.told L.recv_faults link.old link.new }
    ensures kept { L.kept link.new ≡ L.kept link.old }
{
    let server = ServeSetting {
        own,
        k: look.k,
        policy: look.policy,
        proofs,
        tokens: Tokens::limited(&call.random, 0, look.per_address as usize),
        sealed: look.sealed,
        proof,
    };
    let setting = ManySetting {
        paths: look.paths,
        alpha: look.alpha,
        timeout: look.timeout,
        per_address: look.per_address,
        claim: look.claim,
    };
    let mut words = Words::new(&call.random, FIRST_TX);
    let given = Given {
        rt,
        alloc,
        server: &server,
        check: call.check,
        seal: call.seal,
    };
    let wanted = Wanted {
        jobs,
        setting,
        lasting,
    };
    let (after, ended) = look_many(&given, link, &mut words, table, &wanted, call.hasher);
    match ended {
        Ok(many) => Ok(Looked { table: after, many }),
        Err(fault) => Err(fault),
    }
}

/// The output of a node, and the saved text of its table behind it where that is wanted.
fn text_of(
    alloc: Global,
    jobs: &[Job],
    looked: &Looked,
    with_table: bool,
) -> Result<Bytes, NoMemory>
    requires { length jobs.now ≡ length looked.now.many.outcomes }
    ensures { IfOk result (λ text. IsPrinted with_table looked.now.table jobs.now looked.now.many text) }
{
    let many = &looked.many;
    let mut output = print_each(alloc, jobs, many.outcomes.as_slice())?;
    let Ok(line) = served_line(alloc, many.received, many.replied) else {
        return Err(NoMemory);
    };
    add_line(&mut output, line.as_str())?;
    add_table(alloc, with_table, &looked.table, &mut output)?;
    Ok(output)
}

/// Whether the proof of the words, if they have one, shows that the node's own identifier was made.
fn is_fit(words: &NodeWords, random: &[u8; 32]) -> bool
    ensures { IsTrue result ↔ Vouches words.now.look words.now.proof random.now }
{
    let own = own_id(words.look.own, random);
    is_vouched(words.look.policy, own, words.proof)
}

/// Does the jobs that the input names, and makes the text of what was found, or says why there is none. Nothing is written yet.
/// A proof that doesn't show that the node's own identifier was made is refused before anything is read or sent.
pub fn node<
    R: Threads + Wait + Sync,
    S: Source,
    L: Link,
    C: PacedCheck + Sync,
    G: Seal + SealCheck,
>(
    rt: &R,
    alloc: Global,
    words: &NodeWords,
    source: &mut S,
    link: &mut L,
    call: &Call<'_, C, G>,
) -> Result<Bytes, Status>
    requires { IsInRange words.now.look }
    ensures ok { IfOk result ((node_promise words.now).text
        (called_with call.now.random (C.slow call.now.check.now) (G.accepted call.now.seal.now)
        (G.tag_of call.now.seal.now))
        (shown S.left S.faults source.old source.new)
        (shown_link L.told L.recv_faults L.send_faults link.old link.new)) }
    ensures cause { IfErr result ((node_promise words.now).cause
        (called_with call.now.random (C.slow call.now.check.now) (G.accepted call.now.seal.now)
        (G.tag_of call.now.seal.now))
        (shown S.left S.faults source.old source.new)
        (shown_link L.told L.recv_faults L.send_faults link.old link.new)) }
    ensures no_memory { IfErr result (λ status. status ≡ Status.NoMemory →
        NodeBegun words.now.look (lasting_of words.now) words.now.proof
        (called_with call.now.random (C.slow call.now.check.now) (G.accepted call.now.seal.now)
        (G.tag_of call.now.seal.now))
        (shown S.left S.faults source.old source.new)
        (shown_link L.told L.recv_faults L.send_faults link.old link.new) ⊎ (link.new ≡ link.old)) }
    ensures unread { IfErr result (λ status. number_of status ≡ 15 → source.new ≡ source.old) }
    ensures early { IfErr result (λ status. EndsUnasked (number_of status) → link.new ≡ link.old) }
    ensures kept { L.kept link.new ≡ L.kept link.old }
    ensures hears_well { ¬ IsErrOf result Status.LinkFault
        → L.recv_faults link.new ≡ L.recv_faults link.old }
    ensures hears_last { IsErrOf result Status.LinkFault
        → FailsLast L.told L.recv_faults link.old link.new }
    ensures at_most { ReadsAtMost (S.left source.old) (S.left source.new) }
    ensures reads_well { ¬ IsErrOf result Status.SourceFault
        → S.faults source.new ≡ S.faults source.old }
    ensures reads_last { IsErrOf result Status.SourceFault
        → FailsLast S.left S.faults source.old source.new }
{
    match is_fit(words, &call.random) {
        true => do_jobs(rt, alloc, words, source, link, call),
        false => Err(Status::BadProof),
    }
}

/// The same of words whose proof is good.
fn do_jobs<R: Threads + Wait + Sync, S: Source, L: Link, C: PacedCheck + Sync, G: Seal + SealCheck>(
    rt: &R,
    alloc: Global,
    words: &NodeWords,
    source: &mut S,
    link: &mut L,
    call: &Call<'_, C, G>,
) -> Result<Bytes, Status>
    requires { IsInRange words.now.look }
    ensures ok { IfOk result (NodeText words.now.look (lasting_of words.now) words.now.proof words.now.table
        (called_with call.now.random (C.slow call.now.check.now) (G.accepted call.now.seal.now)
        (G.tag_of call.now.seal.now))
        (shown S.left S.faults source.old source.new)
        (shown_link L.told L.recv_faults L.send_faults link.old link.new)) }
    ensures cause { IfErr result (Begun words.now
        (called_with call.now.random (C.slow call.now.check.now) (G.accepted call.now.seal.now)
        (G.tag_of call.now.seal.now))
        (shown S.left S.faults source.old source.new)
        (shown_link L.told L.recv_faults L.send_faults link.old link.new)) }
    ensures no_memory { IfErr result (λ status. status ≡ Status.NoMemory →
        NodeBegun words.now.look (lasting_of words.now) words.now.proof
        (called_with call.now.random (C.slow call.now.check.now) (G.accepted call.now.seal.now)
        (G.tag_of call.now.seal.now))
        (shown S.left S.faults source.old source.new)
        (shown_link L.told L.recv_faults L.send_faults link.old link.new) ⊎ (link.new ≡ link.old)) }
    ensures early { IfErr result (λ status. EndsUnasked (number_of status) → link.new ≡ link.old) }
    ensures kept { L.kept link.new ≡ L.kept link.old }
    ensures hears_well { ¬ IsErrOf result Status.LinkFault
        → L.recv_faults link.new ≡ L.recv_faults link.old }
    ensures hears_last { IsErrOf result Status.LinkFault
        → FailsLast L.told L.recv_faults link.old link.new }
    ensures at_most { ReadsAtMost (S.left source.old) (S.left source.new) }
    ensures reads_well { ¬ IsErrOf result Status.SourceFault
        → S.faults source.new ≡ S.faults source.old }
    ensures reads_last { IsErrOf result Status.SourceFault
        → FailsLast S.left S.faults source.old source.new }
{
    let own = own_id(words.look.own, &call.random);
    let start = read_start(alloc, &words.look, own, source, call)?;
    let Start {
        table,
        proofs,
        jobs,
    } = start;
    let lasting = Lasting {
        receives: words.receives,
        minutes: words.minutes,
    };
    let ended = look_all(
        rt,
        alloc,
        &words.look,
        lasting,
        words.proof,
        own,
        table,
        proofs,
        jobs.as_slice(),
        link,
        call,
    );
    let looked = match ended {
        Ok(looked) => looked,
        Err(ManyFault::LinkFault) => return Err(Status::LinkFault),
        Err(ManyFault::Strays) => return Err(Status::Strays),
        Err(ManyFault::NoMemory) => return Err(Status::NoMemory),
    };
    Ok(text_of(alloc, jobs.as_slice(), &looked, words.table)?)
}
