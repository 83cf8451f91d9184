//! The commands: what each asks for, its word, its options, and how it is made of their values.
ghost use Rattle.std.specs.Prelude.{◌≡◌, IfOk, MatchOption};
ghost use Rattle.kad_words.specs.Table.{check, get, lookup, mint, node, peers, put, refresh, serve, sim, table, family_option, kind_word, key_of, links, made_by, named_or_made, options_of, per_address_option, plain_look, word_of, IsLook, IsLookAt, Says};
ghost use Rattle.kad_words.specs.Listed.{entries_of, entry_of};
ghost use Rattle.kad_words.specs.Taken.{taken_of};
ghost use Rattle.kad_words.specs.Fitting.{AllFit, Fits, LookFits};
ghost use Rattle.kad_words.specs.declared.command.CommandKind.{CommandKind};

use crate::choice::{Choice, Kind, Need};
use crate::options::{
    ALL, ALPHA, ANNOUNCE, BIND, BITS, C1, C2, CLAIM, FAMILY, GROUP, HOSTILE, K, KEY, MINUTES,
    NODE_RECEIVES, NODES, OWN, PATHS, PER_ADDRESS, PROOF, RECEIVES, SEED, SPREAD, TARGET, TIMEOUT,
    TRIES, VALUE, WITH_TABLE, WORKERS,
};
use crate::values::{
    claim, family, id, needed_bytes, needed_id, number, policy, port, proof, says_yes, seed, small,
    stands,
};
use clap::ArgMatches;
use kad_base::{Bytes, ClaimRule, Family, Id, NoMemory, Policy, Proof};
use sha1::Sha1;
use std::alloc::Global;
use thiserror::Error;

/// A command, with a value for each of its options. `--bind` is in none (see `bind_of`), and of `--group` only that it
/// is given (see `group_of`).
#[derive(Debug, Drop, PartialEq, Eq)]
pub enum Command {
    /// Look for the nodes closest to an identifier.
    Lookup {
        look: LookWords,
    },
    /// Look for peers; the target is the value of `--key`. `announce` is the port to announce, 0 for an implied one, and
    /// `spread` whether each path's closest nodes are told it.
    Peers {
        look: LookWords,
        announce: Option<u16>,
        spread: bool,
    },
    /// Look for an immutable item (BEP 44); the target is the value of `--key`.
    Get {
        look: LookWords,
    },
    /// Store an immutable item (BEP 44) at the nodes closest to its key, or if `spread` at each path's closest nodes. `value`
    /// is the written form of its value as the words have it, be it one or not, and the target is its key.
    Put {
        look: LookWords,
        value: Bytes,
        spread: bool,
    },
    /// Answer queries.
    Serve {
        words: ServeWords,
    },
    /// Look for several identifiers at once, which the input names, and answer queries meanwhile.
    Node {
        words: NodeWords,
    },
    /// Make the routing table of the IPv4 contacts of contact lines, and print it as a saved text.
    Table {
        words: TableWords,
    },
    /// Ping the least recently seen contact of each bucket of a saved table, or all live ones, and save what results.
    Refresh {
        words: RefreshWords,
    },
    /// Say which contact lines pass a policy.
    Check {
        policy: Policy,
    },
    /// Find an identifier that solves both puzzles, from a seed.
    Mint {
        words: MintWords,
    },
    /// Look up in a network that is made from a seed.
    Sim {
        words: SimWords,
    },
}

/// The options that every lookup has: the target, the node's own identifier if it is named, Kademlia's k, the
/// disjoint paths, alpha on each, how long to wait for an answer, in milliseconds, Kademlia's b, which contacts pass, the
/// network it is in, which BEP 32 keeps apart by family, whether an answer has to carry a group's tag, how many contacts of
/// one host a path has at most (0: as many as come; so always in `sim`), and from when on a contact is a path's. In `node` its
/// table takes no more of one host either, and its stores keep no more peers and items of one host.
#[derive(Clone, Copy, Debug, PartialEq, Eq)]
pub struct LookWords {
    pub target: Id,
    pub own: Option<Id>,
    pub k: u8,
    pub paths: u8,
    pub alpha: u8,
    pub timeout: u32,
    pub bits: u8,
    pub policy: Policy,
    pub family: Family,
    pub sealed: bool,
    pub per_address: u8,
    pub claim: ClaimRule,
}

/// The options of `serve`: the node's own identifier where it is named, Kademlia's k and b, which contacts pass, how many
/// contacts, peers and items of one host it holds at most, of each (0: as many as come), how many receive calls are made,
/// after how many minutes it ends at the latest (0: it doesn't end by time), how many workers answer, whether replies carry a
/// group's tag, and whether the routing table is printed at the end.
#[derive(Clone, Copy, Debug, PartialEq, Eq)]
pub struct ServeWords {
    pub own: Option<Id>,
    pub k: u8,
    pub bits: u8,
    pub policy: Policy,
    pub per_address: u8,
    pub receives: u32,
    pub minutes: u32,
    pub workers: u8,
    pub sealed: bool,
    pub table: bool,
}

/// The options of `node`: those of its lookups, whose target is 20 zero bytes and whose family is that of IPv4; the proof of
/// its own identifier where one is given (and where `--own` names none, that identifier is the hash of the proof's key), how many
/// receive calls it makes at least, after how many minutes it ends at the latest once its lookups are over (0: it doesn't
/// end by time), and whether the routing table is printed at the end.
#[derive(Clone, Copy, Debug, PartialEq, Eq)]
pub struct NodeWords {
    pub look: LookWords,
    pub proof: Option<Proof>,
    pub receives: u32,
    pub minutes: u32,
    pub table: bool,
}

/// The options of `table`: the table's own identifier where it is named, Kademlia's k and b, and which contacts pass.
#[derive(Clone, Copy, Debug, PartialEq, Eq)]
pub struct TableWords {
    pub own: Option<Id>,
    pub k: u8,
    pub bits: u8,
    pub policy: Policy,
}

/// The options of `refresh`: how long to wait for a reply, in milliseconds, whether a reply has to carry a group's tag, and
/// whether all live contacts are pinged, not only the first of each bucket.
#[derive(Clone, Copy, Debug, PartialEq, Eq)]
pub struct RefreshWords {
    pub timeout: u32,
    pub sealed: bool,
    pub all: bool,
}

/// The options of `mint`: the seed where it is named, how many bits each puzzle asks for, and in how many tries.
#[derive(Clone, Copy, Debug, PartialEq, Eq)]
pub struct MintWords {
    pub seed: Option<[u8; 32]>,
    pub c1: u8,
    pub c2: u8,
    pub tries: u32,
}

/// The options of `sim`: the seed where it is named, how many nodes the network has, of which `hostile` in a hundred are
/// hostile; and of the lookup Kademlia's k, the disjoint paths, alpha on each, how long to wait for an answer, in
/// milliseconds, and from when on a contact is a path's.
#[derive(Clone, Copy, Debug, PartialEq, Eq)]
pub struct SimWords {
    pub seed: Option<[u8; 32]>,
    pub nodes: u32,
    pub hostile: u8,
    pub k: u8,
    pub paths: u8,
    pub alpha: u8,
    pub timeout: u32,
    pub claim: ClaimRule,
}

/// The options of a lookup over IPv4 that names these, draws its own identifier, splits buckets by one bit, and takes every
/// report.
pub fn plain_look(
    target: Id,
    k: u8,
    paths: u8,
    alpha: u8,
    timeout: u32,
    claim: ClaimRule,
) -> LookWords
    ensures { result ≡ plain_look target k paths alpha timeout claim }
{
    LookWords {
        target,
        own: None,
        k,
        paths,
        alpha,
        timeout,
        bits: 1,
        policy: Policy::Plain,
        family: Family::Four,
        sealed: false,
        per_address: 0,
        claim,
    }
}

/// Why words give no command.
#[derive(Clone, Copy, Debug, Drop, Error, PartialEq, Eq)]
pub enum WordsFault {
    /// They are not of the plain form.
    #[error("usage")]
    Usage,
    /// The allocator gave no memory.
    #[error("no memory")]
    NoMemory,
}

static LOOKUP: [Choice; 14] = [
    TARGET,
    OWN,
    K,
    PATHS,
    ALPHA,
    TIMEOUT,
    BITS,
    C1,
    C2,
    FAMILY,
    PER_ADDRESS,
    CLAIM,
    BIND,
    GROUP,
];

static PEERS: [Choice; 16] = [
    KEY,
    OWN,
    K,
    PATHS,
    ALPHA,
    TIMEOUT,
    BITS,
    C1,
    C2,
    FAMILY,
    PER_ADDRESS,
    CLAIM,
    BIND,
    GROUP,
    ANNOUNCE,
    SPREAD,
];

static GET: [Choice; 14] = [
    KEY,
    OWN,
    K,
    PATHS,
    ALPHA,
    TIMEOUT,
    BITS,
    C1,
    C2,
    FAMILY,
    PER_ADDRESS,
    CLAIM,
    BIND,
    GROUP,
];

static PUT: [Choice; 15] = [
    VALUE,
    OWN,
    K,
    PATHS,
    ALPHA,
    TIMEOUT,
    BITS,
    C1,
    C2,
    FAMILY,
    PER_ADDRESS,
    CLAIM,
    BIND,
    GROUP,
    SPREAD,
];

static SERVE: [Choice; 12] = [
    OWN,
    K,
    BITS,
    C1,
    C2,
    PER_ADDRESS,
    BIND,
    GROUP,
    RECEIVES,
    MINUTES,
    WORKERS,
    WITH_TABLE,
];

static NODE: [Choice; 16] = [
    OWN,
    PROOF,
    K,
    PATHS,
    ALPHA,
    TIMEOUT,
    BITS,
    C1,
    C2,
    PER_ADDRESS,
    CLAIM,
    BIND,
    GROUP,
    NODE_RECEIVES,
    MINUTES,
    WITH_TABLE,
];

static TABLE: [Choice; 5] = [OWN, K, BITS, C1, C2];

static REFRESH: [Choice; 4] = [TIMEOUT, BIND, GROUP, ALL];

static CHECK: [Choice; 2] = [C1, C2];

static MINT: [Choice; 4] = [C1, C2, SEED, TRIES];

static SIM: [Choice; 8] = [K, PATHS, ALPHA, TIMEOUT, CLAIM, SEED, NODES, HOSTILE];

/// Which command it is.
#[derive(Clone, Copy, Debug, PartialEq, Eq)]
pub enum CommandKind {
    Lookup,
    Peers,
    Get,
    Put,
    Serve,
    Node,
    Table,
    Refresh,
    Check,
    Mint,
    Sim,
}

/// The command of a word.
pub(crate) fn kind_named(word: &str) -> Option<CommandKind>
    ensures { MatchOption result ((kind : CommandKind) → ¬ (word.now ≡ kind_word kind))
        (λ kind. word.now ≡ kind_word kind) }
{
    match word {
        "lookup" => Some(CommandKind::Lookup),
        "peers" => Some(CommandKind::Peers),
        "get" => Some(CommandKind::Get),
        "put" => Some(CommandKind::Put),
        "serve" => Some(CommandKind::Serve),
        "node" => Some(CommandKind::Node),
        "table" => Some(CommandKind::Table),
        "refresh" => Some(CommandKind::Refresh),
        "check" => Some(CommandKind::Check),
        "mint" => Some(CommandKind::Mint),
        "sim" => Some(CommandKind::Sim),
        _ => None,
    }
}

/// Whether a command asks over a link.
pub(crate) fn links(kind: CommandKind) -> bool
    ensures { result ≡ links kind }
{
    matches!(
        kind,
        CommandKind::Lookup
            | CommandKind::Peers
            | CommandKind::Get
            | CommandKind::Put
            | CommandKind::Serve
            | CommandKind::Node
            | CommandKind::Refresh
    )
}

/// The options of a command.
pub(crate) fn options(kind: CommandKind) -> &'static [Choice]
    ensures { entries_of result.now ≡ options_of (kind_word kind) }
{
    match kind {
        CommandKind::Lookup => &LOOKUP,
        CommandKind::Peers => &PEERS,
        CommandKind::Get => &GET,
        CommandKind::Put => &PUT,
        CommandKind::Serve => &SERVE,
        CommandKind::Node => &NODE,
        CommandKind::Table => &TABLE,
        CommandKind::Refresh => &REFRESH,
        CommandKind::Check => &CHECK,
        CommandKind::Mint => &MINT,
        CommandKind::Sim => &SIM,
    }
}

/// The command of this kind, from the values of its options.
pub(crate) fn command_for(
    alloc: Global,
    kind: CommandKind,
    matches: &ArgMatches,
) -> Result<Command, NoMemory>
    requires { AllFit (options_of (kind_word kind)) (taken_of matches.now) }
    ensures says { IfOk result (λ command. Says (taken_of matches.now) command) }
    ensures word { IfOk result (λ command. word_of command ≡ kind_word kind) }
{
    match kind {
        CommandKind::Lookup => Ok(lookup(matches)),
        CommandKind::Peers => Ok(peers(matches)),
        CommandKind::Get => Ok(get(matches)),
        CommandKind::Put => put(alloc, matches),
        CommandKind::Serve => Ok(serve(matches)),
        CommandKind::Node => Ok(node(matches)),
        CommandKind::Table => Ok(table(matches)),
        CommandKind::Refresh => Ok(refresh(matches)),
        CommandKind::Check => Ok(check(matches)),
        CommandKind::Mint => Ok(mint(matches)),
        CommandKind::Sim => Ok(sim(matches)),
    }
}

/// The options of a lookup, whose target is that of `goal`.
fn look(matches: &ArgMatches, goal: &Choice) -> LookWords
    requires target { Fits (entry_of goal.now) (taken_of matches.now goal.now.name.now) }
    requires kind { goal.now.kind ≡ Kind.Identifier }
    requires need { goal.now.need ≡ Need.Required }
    requires family { Fits family_option.entry (taken_of matches.now family_option.entry.name) }
    requires per_address { Fits per_address_option.entry
        (taken_of matches.now per_address_option.entry.name) }
    requires fits { LookFits (taken_of matches.now) }
    ensures { IsLook (entry_of goal.now) (taken_of matches.now) result }
{
    look_at(
        matches,
        needed_id(matches, goal),
        id(matches, &OWN),
        family(matches, &FAMILY),
        small(matches, &PER_ADDRESS),
    )
}

/// The options of a lookup with this target and its own identifier, in the network of this family, with so many contacts of
/// one host on a path at most.
fn look_at(
    matches: &ArgMatches,
    target: Id,
    own: Option<Id>,
    family: Family,
    per_address: u8,
) -> LookWords
    requires { LookFits (taken_of matches.now) }
    ensures look { IsLookAt target (taken_of matches.now) result }
    ensures own { result.own ≡ own }
    ensures family { result.family ≡ family }
    ensures per_address { result.per_address ≡ per_address }
{
    LookWords {
        target,
        own,
        k: small(matches, &K),
        paths: small(matches, &PATHS),
        alpha: small(matches, &ALPHA),
        timeout: number(matches, &TIMEOUT),
        bits: small(matches, &BITS),
        policy: policy(matches),
        family,
        sealed: stands(matches, &GROUP),
        per_address,
        claim: claim(matches, &CLAIM),
    }
}

fn lookup(matches: &ArgMatches) -> Command
    requires { AllFit (options_of lookup) (taken_of matches.now) }
    ensures says { Says (taken_of matches.now) result }
    ensures word { word_of result ≡ lookup }
{
    Command::Lookup {
        look: look(matches, &TARGET),
    }
}

fn peers(matches: &ArgMatches) -> Command
    requires { AllFit (options_of peers) (taken_of matches.now) }
    ensures says { Says (taken_of matches.now) result }
    ensures word { word_of result ≡ peers }
{
    Command::Peers {
        look: look(matches, &KEY),
        announce: port(matches, &ANNOUNCE),
        spread: says_yes(matches, &SPREAD),
    }
}

fn get(matches: &ArgMatches) -> Command
    requires { AllFit (options_of get) (taken_of matches.now) }
    ensures says { Says (taken_of matches.now) result }
    ensures word { word_of result ≡ get }
{
    Command::Get {
        look: look(matches, &KEY),
    }
}

fn put(alloc: Global, matches: &ArgMatches) -> Result<Command, NoMemory>
    requires { AllFit (options_of put) (taken_of matches.now) }
    ensures says { IfOk result (λ command. Says (taken_of matches.now) command) }
    ensures word { IfOk result (λ command. word_of command ≡ put) }
{
    let value = needed_bytes(alloc, matches, &VALUE)?;
    Ok(Command::Put {
        look: look_at(
            matches,
            key_of(value.as_slice()),
            id(matches, &OWN),
            family(matches, &FAMILY),
            small(matches, &PER_ADDRESS),
        ),
        value,
        spread: says_yes(matches, &SPREAD),
    })
}

/// The key of an immutable item (BEP 44): the SHA-1 of the written form of its value.
#[tactic(auto, unfolding(kad_base::specs::Puzzles::hash))]
fn key_of(value: &[u8]) -> Id
    ensures { result ≡ key_of value.now }
{
    Id(Sha1::digest(value))
}

fn serve(matches: &ArgMatches) -> Command
    requires { AllFit (options_of serve) (taken_of matches.now) }
    ensures says { Says (taken_of matches.now) result }
    ensures word { word_of result ≡ serve }
{
    let words = ServeWords {
        own: id(matches, &OWN),
        k: small(matches, &K),
        bits: small(matches, &BITS),
        policy: policy(matches),
        per_address: small(matches, &PER_ADDRESS),
        receives: number(matches, &RECEIVES),
        minutes: number(matches, &MINUTES),
        workers: small(matches, &WORKERS),
        sealed: stands(matches, &GROUP),
        table: says_yes(matches, &WITH_TABLE),
    };
    Command::Serve { words }
}

fn node(matches: &ArgMatches) -> Command
    requires { AllFit (options_of node) (taken_of matches.now) }
    ensures says { Says (taken_of matches.now) result }
    ensures word { word_of result ≡ node }
{
    let given = proof(matches, &PROOF);
    let own = named_or_made(id(matches, &OWN), given);
    let per_address = small(matches, &PER_ADDRESS);
    let words = NodeWords {
        look: look_at(matches, Id([0; 20]), own, Family::Four, per_address),
        proof: given,
        receives: number(matches, &NODE_RECEIVES),
        minutes: number(matches, &MINUTES),
        table: says_yes(matches, &WITH_TABLE),
    };
    Command::Node { words }
}

/// A node's own identifier: the one that is named, or if none is, the one that its proof makes.
fn named_or_made(named: Option<Id>, proof: Option<Proof>) -> Option<Id>
    ensures { result ≡ named_or_made named proof }
{
    match named {
        Some(id) => Some(id),
        None => match proof {
            Some(proof) => Some(made_by(proof)),
            None => None,
        },
    }
}

/// The identifier that the key of a proof makes: its SHA-1.
#[tactic(auto, unfolding(kad_base::specs::Puzzles::hash))]
fn made_by(proof: Proof) -> Id
    ensures { result ≡ made_by proof }
{
    Id(Sha1::digest(&proof.key))
}

fn table(matches: &ArgMatches) -> Command
    requires { AllFit (options_of table) (taken_of matches.now) }
    ensures says { Says (taken_of matches.now) result }
    ensures word { word_of result ≡ table }
{
    let words = TableWords {
        own: id(matches, &OWN),
        k: small(matches, &K),
        bits: small(matches, &BITS),
        policy: policy(matches),
    };
    Command::Table { words }
}

fn refresh(matches: &ArgMatches) -> Command
    requires { AllFit (options_of refresh) (taken_of matches.now) }
    ensures says { Says (taken_of matches.now) result }
    ensures word { word_of result ≡ refresh }
{
    let words = RefreshWords {
        timeout: number(matches, &TIMEOUT),
        sealed: stands(matches, &GROUP),
        all: says_yes(matches, &ALL),
    };
    Command::Refresh { words }
}

fn check(matches: &ArgMatches) -> Command
    requires { AllFit (options_of check) (taken_of matches.now) }
    ensures says { Says (taken_of matches.now) result }
    ensures word { word_of result ≡ check }
{
    Command::Check {
        policy: policy(matches),
    }
}

fn mint(matches: &ArgMatches) -> Command
    requires { AllFit (options_of mint) (taken_of matches.now) }
    ensures says { Says (taken_of matches.now) result }
    ensures word { word_of result ≡ mint }
{
    let words = MintWords {
        seed: seed(matches, &SEED),
        c1: small(matches, &C1),
        c2: small(matches, &C2),
        tries: number(matches, &TRIES),
    };
    Command::Mint { words }
}

fn sim(matches: &ArgMatches) -> Command
    requires { AllFit (options_of sim) (taken_of matches.now) }
    ensures says { Says (taken_of matches.now) result }
    ensures word { word_of result ≡ sim }
{
    let words = SimWords {
        seed: seed(matches, &SEED),
        nodes: number(matches, &NODES),
        hostile: small(matches, &HOSTILE),
        k: small(matches, &K),
        paths: small(matches, &PATHS),
        alpha: small(matches, &ALPHA),
        timeout: number(matches, &TIMEOUT),
        claim: claim(matches, &CLAIM),
    };
    Command::Sim { words }
}
