//! Lookups, one after the other, and what became of them.
ghost use Rattle.std.specs.Prelude.{◌≡◌, ◌≤◌, IfOk, IfSome};
ghost use Rattle.std.specs.List.{All};
ghost use Rattle.kad_base.specs.Contacts.{IsUsable};
ghost use Rattle.contact_table.specs.TableStep.{contacts_of};
ghost use Rattle.lookup_run.specs.Lookup.{IsWithinLimits};
ghost use Rattle.path_study.specs.declared.study.StudyFault.{StudyFault};

use crate::draws::Draws;
use crate::link::StudyLink;
use crate::network::Network;
use crate::words::StudySetting;
use contact_table::{Table, TableCall, holds_what_it_was_told};
use id_puzzles::{Sha1Check, Words};
use kad_base::limits::{DEFAULT_TIMEOUT, MAX_ALPHA, MAX_K, MAX_PATHS};
use kad_base::{ClaimRule, Contact, Family, Id, NoMemory, Policy, Serial, is_usable};
use kad_distance::k_least;
use lookup_run::{AskKind, LookSetting, Outcome, look_up_alone};
use seal_tags::GroupSeal;
use std::alloc::{AllocError, Global};
use std::fmt;
use std::hash::RandomState;
use thiserror::Error;

/// Why there is no tally.
#[derive(Clone, Copy, Debug, Drop, PartialEq, Eq, Error)]
pub enum StudyFault {
    #[error("no start")]
    Start,
    #[error("usage: path_study [--seed 64 hex digits] [--nodes 1-20000] [--share 0-100] [--attack silent|misroute|dead] [--k 1-20] [--paths 1-8] [--alpha 1-4] [--lookups 1-1000000]")]
    Usage,
    #[error("no memory")]
    Memory,
}

impl StudyFault {
    /// The exit status of the program.
    pub fn status(self) -> u8
        ensures start { self ≡ StudyFault.Start → result ≡ 1 }
        ensures usage { self ≡ StudyFault.Usage → result ≡ 2 }
        ensures memory { self ≡ StudyFault.Memory → result ≡ 9 }
    {
        match self {
            StudyFault::Start => 1,
            StudyFault::Usage => 2,
            StudyFault::Memory => 9,
        }
    }
}

impl From<AllocError> for StudyFault {
    fn from(_: AllocError) -> Self {
        StudyFault::Memory
    }
}

impl From<NoMemory> for StudyFault {
    fn from(_: NoMemory) -> Self {
        StudyFault::Memory
    }
}

/// What became of a study's lookups.
#[derive(Clone, Copy, Debug, Drop, PartialEq, Eq)]
pub struct Tally {
    /// How many were made.
    pub lookups: u64,
    /// Of these, how many have the honest node that is closest to the target in their result.
    pub closest: u64,
    /// How many had an answer from each of the k closest honest nodes.
    pub all: u64,
    /// How many queries they made together.
    pub asked: u64,
    /// Of these, how many went to hostile nodes and to contacts that they invented.
    pub hostile: u64,
}

impl fmt::Display for Tally {
    fn fmt<W: fmt::Write>(&self, f: &mut fmt::Formatter<W>) -> fmt::Result {
        let lookups = self.lookups;
        let closest = self.closest;
        let all = self.all;
        let asked = self.asked;
        let hostile = self.hostile;
        write!(
            f,
            "lookups {lookups} closest {closest} all {all} asked {asked} hostile {hostile}"
        )
    }
}

impl Tally {
    fn new() -> Tally {
        Tally {
            lookups: 0,
            closest: 0,
            all: 0,
            asked: 0,
            hostile: 0,
        }
    }

    /// Counts a lookup that has ended. `wanted` are the k closest honest nodes, nearest first.
    fn count(&mut self, wanted: &[Contact], outcome: &Outcome, link: &StudyLink<'_>) {
        self.lookups = self.lookups.saturating_add(1);
        self.asked = self.asked.saturating_add(u64::from(outcome.counts.asked));
        self.hostile = self.hostile.saturating_add(link.misled());
        let Some(closest) = wanted.first() else {
            return;
        };
        if outcome.found.as_slice().contains(closest) {
            self.closest = self.closest.saturating_add(1);
        }
        if wanted.iter().all(|contact| link.has_answered(contact)) {
            self.all = self.all.saturating_add(1);
        }
    }
}

/// What a lookup of the study is set to; `None` if the numbers are not within a lookup's limits.
fn look_setting(setting: &StudySetting, own: Id, target: Id) -> Option<LookSetting>
    ensures limits { IfSome result IsWithinLimits }
    ensures some { IfSome result (λ look. 1 ≤ look.k) }
{
    if setting.k < 1 || setting.k > MAX_K {
        return None;
    }
    if setting.paths < 1 || setting.paths > MAX_PATHS {
        return None;
    }
    if setting.alpha < 1 || setting.alpha > MAX_ALPHA {
        return None;
    }
    Some(LookSetting {
        own,
        target,
        k: setting.k,
        paths: setting.paths,
        alpha: setting.alpha,
        policy: Policy::Plain,
        timeout: DEFAULT_TIMEOUT,
        kind: AskKind::FindNode,
        family: Family::Four,
        sealed: false,
        per_address: 0,
        claim: ClaimRule::Named,
    })
}

/// A routing table that was told of these contacts, of which those are passed over that the node can't ask.
fn table_of(alloc: Global, own: Id, k: u8, seeds: &[Contact]) -> Result<Table, NoMemory>
    requires some { 1 ≤ k }
    requires few { k ≤ 20 }
    ensures { IfOk result (λ table. All (IsUsable own) (contacts_of table)) }
{
    let mut table = Table::new(alloc, own, k, 1)?;
    for contact in seeds {
        if !is_usable(&own, contact) {
            continue;
        }
        let contact = *contact;
        let _reply = table.apply(0, TableCall::Seen { contact });
    }
    holds_what_it_was_told();
    Ok(table)
}

/// Some nodes of the network, as many as a lookup looks for.
fn drawn_seeds(
    alloc: Global,
    network: &Network,
    draws: &mut Draws,
    k: u8,
) -> Result<Vec<Contact>, AllocError> {
    let mut seeds = Vec::new(alloc);
    for number in draws.some_below(alloc, network.len(), usize::from(k))? {
        if let Some(node) = network.node(number) {
            seeds.push(node.contact)?;
        }
    }
    Ok(seeds)
}

/// Makes one lookup from these seeds, and counts it.
fn look_once(
    alloc: Global,
    network: &Network,
    setting: &StudySetting,
    look: &LookSetting,
    seeds: &[Contact],
    hasher: RandomState,
    tally: &mut Tally,
) -> Result<(), StudyFault>
    requires limits { IsWithinLimits look.now }
    requires some { 1 ≤ look.now.k }
{
    let wanted = k_least(alloc, &look.target, look.k, network.honest.as_slice())?;
    let mut link = StudyLink::new(alloc, network, setting.attack, look.target, look.k)?;
    let table = table_of(alloc, look.own, look.k, seeds)?;
    let mut words = Words::new(&setting.seed, 5);
    let seal = GroupSeal::new([0; 32]);
    let (_table, result) = look_up_alone(
        alloc, &mut link, &mut words, table, look, &Sha1Check, &seal, hasher,
    );
    match result {
        Ok(outcome) => {
            tally.count(wanted.as_slice(), &outcome, &link);
            Ok(())
        }
        Err(_) => Err(StudyFault::Memory),
    }
}

/// Makes the network and the lookups of a study. The network, the targets and the seeds are those of its seed, its
/// number of nodes and its k, whatever the share, the attack, the paths and alpha are.
pub fn run(
    alloc: Global,
    setting: &StudySetting,
    hasher: RandomState,
) -> Result<Tally, StudyFault> {
    let mut draws = Draws::new(&setting.seed);
    let network = Network::new(alloc, &mut draws, setting.nodes, setting.share)?;
    let own = draws.id();
    let mut tally = Tally::new();
    for _ in 0..setting.lookups {
        let target = draws.id();
        let seeds = drawn_seeds(alloc, &network, &mut draws, setting.k)?;
        let Some(look) = look_setting(setting, own, target) else {
            return Err(StudyFault::Usage);
        };
        look_once(
            alloc,
            &network,
            setting,
            &look,
            seeds.as_slice(),
            hasher,
            &mut tally,
        )?;
    }
    Ok(tally)
}
