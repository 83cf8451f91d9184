//! The command `sim`: looks up in a network that follows from a seed, and makes the line of what it found. It reads
//! nothing, and opens no socket.
ghost use Rattle.std.specs.Prelude.{◌≡◌, ◌≤◌, map, length, IfOk, IfErr, string_bytes};
ghost use Rattle.kad_base.specs.Contacts.{among};
ghost use Rattle.fake_net.specs.Network.{numbers};
ghost use Rattle.command_base.specs.Printed.{line_of};
ghost use Rattle.plain_commands.specs.Simulated.{network_of, look_to, simulation_of, IsSimulable, report_of, count_among, sim_text, Begins, SimText};

use crate::mint::seed_for;
use command_base::bootstrap::{FIRST_TX, setting_for, table_of};
use command_base::input::admitted;
use command_base::printed::add_line;
use command_base::{Call, Status};
use contact_table::Table;
use fake_net::SimNet;
use id_puzzles::Words;
use kad_base::{
    Bytes, Check, ClaimRule, Contact, Contacts, Id, List, NoMemory, Report, Reports, is_same,
};
use kad_words::{LookWords, SimWords, plain_look};
use lookup_run::{AskKind, LookFault, LookSetting, Outcome, look_up_alone};
use seal_tags::{GroupSeal, Seal, SealCheck};
use std::alloc::{AllocError, Global};

/// What a network is made from, and how is looked up in it.
#[derive(Clone, Copy, Debug)]
pub struct Simulation {
    pub seed: [u8; 32],
    pub nodes: u32,
    pub hostile: u8,
    pub k: u8,
    pub paths: u8,
    pub alpha: u8,
    pub timeout: u32,
    pub claim: ClaimRule,
}

/// The options of the lookup of a target.
fn look_to(target: Id, simulation: &Simulation) -> LookWords
    ensures { result ≡ look_to target simulation.now }
{
    plain_look(
        target,
        simulation.k,
        simulation.paths,
        simulation.alpha,
        simulation.timeout,
        simulation.claim,
    )
}

/// The first nodes of the network, as reports without a proof.
fn first_nodes(alloc: Global, net: &SimNet, count: u32) -> Result<Reports, NoMemory>
    requires { count ≤ net.now.network.count }
    ensures { IfOk result (λ reports. reports ≡ map (report_of net.now.network.seed)
        (numbers count)) }
{
    let mut reports = List::new(alloc);
    for i in 0..count {
        reports.push(Report {
            contact: net.contact(i),
            proof: None,
        })?;
    }
    Ok(reports)
}

/// Whether the contact is among those.
fn is_among(contacts: &[Contact], contact: &Contact) -> bool
    ensures { result ≡ among contacts.now contact.now }
{
    contacts.iter().any(|other| is_same(contact, other))
}

/// How many of the contacts that were found are among those.
fn count_among(near: &[Contact], found: &[Contact]) -> usize
    ensures { result ≡ count_among near.now found.now }
{
    found
        .iter()
        .filter(|contact| is_among(near, contact))
        .count()
}

fn print_counts(
    alloc: Global,
    found: usize,
    asked: u32,
    failed: u32,
    turned: u32,
    honest: usize,
) -> Result<String, AllocError>
    ensures { IfOk result (λ text. string_bytes text ≡ sim_text found asked failed turned honest) }
{
    format!(in alloc; "found {found} asked {asked} failed {failed} turned {turned} honest {honest}")
}

/// The line of what a lookup found. `near` is what it was to find.
fn line_for(alloc: Global, outcome: &Outcome, near: &[Contact]) -> Result<Bytes, NoMemory>
    ensures { let counts = outcome.now.counts in
        let found = outcome.now.found in
        IfOk result (λ text. text ≡ line_of (sim_text
        (length found) counts.asked counts.failed counts.turned (count_among near.now found))) }
{
    let counts = outcome.counts;
    let found = outcome.found.as_slice();
    let honest = count_among(near, found);
    let Ok(line) = print_counts(
        alloc,
        found.len(),
        counts.asked,
        counts.failed,
        counts.turned,
        honest,
    ) else {
        return Err(NoMemory);
    };
    let mut output = List::new(alloc);
    add_line(&mut output, line.as_str())?;
    Ok(output)
}

/// What a lookup begins with: its setting, the table that was told of the first nodes, and what it is to find.
#[derive(Drop)]
pub struct Start {
    pub setting: LookSetting,
    pub table: Table,
    pub near: Contacts,
}

/// What the lookup in the network begins with.
fn begin<C: Check>(
    alloc: Global,
    simulation: &Simulation,
    net: &SimNet,
    check: &C,
) -> Result<Start, NoMemory>
    requires range { IsSimulable simulation.now }
    requires network { net.now.network ≡ network_of simulation.now }
    ensures { IfOk result (Begins simulation.now) }
{
    let target = net.target();
    let look = look_to(target, simulation);
    let setting = setting_for(AskKind::FindNode, &look, &simulation.seed);
    let near = net.closest_honest(&setting.target, look.k)?;
    let count = simulation.nodes.min(u32::from(simulation.k));
    let reports = first_nodes(alloc, net, count)?;
    let contacts = admitted(
        alloc,
        &setting.own,
        setting.family,
        setting.policy,
        check,
        reports.as_slice(),
    )?;
    let table = table_of(
        alloc,
        setting.own,
        look.k,
        look.bits,
        0,
        contacts.as_slice(),
    )?;
    Ok(Start {
        setting,
        table,
        near,
    })
}

/// Looks the network's target up from its first k nodes, or from all if there are fewer, and makes the line of what was
/// found. Nothing is written yet. The network never fails, and gives fewer datagrams than a lookup takes strays, so that
/// it ends early only if out of memory. A network that is short has lost events, and so gives no line.
fn simulate<C: Check, G: Seal + SealCheck>(
    alloc: Global,
    simulation: &Simulation,
    call: &Call<'_, C, G>,
) -> Result<Bytes, Status>
    requires { IsSimulable simulation.now }
    ensures ok { IfOk result (SimText simulation.now) }
    ensures cause { IfErr result (λ status. status ≡ Status.NoMemory) }
{
    let mut net = SimNet::new(
        alloc,
        &simulation.seed,
        simulation.nodes,
        simulation.hostile,
    )?;
    let start = begin(alloc, simulation, &net, call.check)?;
    let Start {
        setting,
        table,
        near,
    } = start;
    let mut words = Words::new(&simulation.seed, FIRST_TX);
    let seal = GroupSeal::new([0; 32]);
    let (_, ended) = look_up_alone(
        alloc,
        &mut net,
        &mut words,
        table,
        &setting,
        call.check,
        &seal,
        call.hasher,
    );
    if net.short() {
        return Err(Status::NoMemory);
    }
    match ended {
        Ok(outcome) => Ok(line_for(alloc, &outcome, near.as_slice())?),
        Err(LookFault::NoMemory) => Err(Status::NoMemory),
        Err(LookFault::LinkFault) => unreachable!(),
        Err(LookFault::Strays) => unreachable!(),
    }
}

/// The simulation of the words, by the random bytes where they name no seed.
fn simulation_for(words: &SimWords, random: &[u8; 32]) -> Simulation
    ensures { result ≡ simulation_of words.now random.now }
{
    Simulation {
        seed: seed_for(words.seed, random),
        nodes: words.nodes,
        hostile: words.hostile,
        k: words.k,
        paths: words.paths,
        alpha: words.alpha,
        timeout: words.timeout,
        claim: words.claim,
    }
}

/// Looks up in the network of the words, and makes the line of what was found. Nothing is written yet.
pub fn sim<C: Check, G: Seal + SealCheck>(
    alloc: Global,
    words: &SimWords,
    call: &Call<'_, C, G>,
) -> Result<Bytes, Status>
    requires { IsSimulable (simulation_of words.now call.now.random) }
    ensures ok { IfOk result (SimText (simulation_of words.now call.now.random)) }
    ensures cause { IfErr result (λ status. status ≡ Status.NoMemory) }
{
    let simulation = simulation_for(words, &call.random);
    simulate(alloc, &simulation, call)
}
