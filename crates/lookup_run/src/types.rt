//! What a lookup is given, what it answers, and what it keeps between two calls on its link.
ghost use Rattle.std.specs.Prelude.{◌≡◌};
ghost use Rattle.lookup_run.specs.Lookup.{setting_of, quest_of};

use claim_book::{Counts, Journal, Setting};
use contact_table::Table;
use kad_base::{Addrs, ClaimRule, Contacts, Family, Id, NoMemory, Policy};
use lookup_core::{AskKind, Gathered, ItemList, Lookup, Quest, Tokened};
use thiserror::Error;

/// What a lookup is given. `own` is the node that asks; each of `paths` disjoint paths (S/Kademlia, section 4.4) has at
/// most `alpha` queries open and ends when its `k` closest contacts have answered (Kademlia, section 2.3). `policy` says
/// which reports may be believed, `timeout` how long to wait for an answer, in milliseconds, and `sealed` whether a reply
/// has to carry a tag that the seal accepts. `family` is the network, of which there are two apart (BEP 32): in that of
/// IPv6 queries ask for contacts of IPv6, and of answers the parts with these are read. A path has at most `per_address`
/// contacts of one host (`kad_base::Host`), lost ones among them; 0 is no limit. `claim` says from when on a contact is the
/// path's that has it.
#[derive(Clone, Copy, Debug, PartialEq, Eq)]
pub struct LookSetting {
    pub own: Id,
    pub target: Id,
    pub k: u8,
    pub paths: u8,
    pub alpha: u8,
    pub policy: Policy,
    pub timeout: u32,
    pub kind: AskKind,
    pub family: Family,
    pub sealed: bool,
    pub per_address: u8,
    pub claim: ClaimRule,
}

impl LookSetting {
    /// What the book is set to.
    pub(crate) fn setting(&self) -> Setting
        ensures { result ≡ setting_of self.now }
    {
        Setting {
            own: self.own,
            target: self.target,
            k: self.k,
            paths: self.paths,
            alpha: self.alpha,
            policy: self.policy,
            per_address: self.per_address,
            claim: self.claim,
        }
    }

    /// What the lookup asks, and what it believes.
    pub(crate) fn quest(&self) -> Quest
        ensures { result ≡ quest_of self.now }
    {
        Quest {
            own: self.own,
            target: self.target,
            policy: self.policy,
            kind: self.kind,
            family: self.family,
            timeout: self.timeout,
            sealed: self.sealed,
            read_only: true,
            proof: None,
        }
    }
}

/// What a lookup found: the closest contacts, its numbers, the journal that they are of, the peers that the answers
/// named, each once and in order, the tokens, and the items that they gave, both in the order of the answers. There are
/// peers only where those were asked for, items only where one was, and tokens in both cases.
#[derive(Debug, Drop)]
pub struct Outcome {
    pub found: Contacts,
    pub counts: Counts,
    pub journal: Journal,
    pub peers: Addrs,
    pub tokens: Tokened,
    pub items: ItemList,
}

/// Why a lookup ended early.
#[derive(Clone, Copy, Debug, PartialEq, Eq, Error)]
pub enum LookFault {
    /// A receive failed.
    #[error("a receive failed")]
    LinkFault,
    /// The last stray that a lookup takes was received.
    #[error("too many datagrams were no replies")]
    Strays,
    #[error("no memory")]
    NoMemory,
}

impl From<NoMemory> for LookFault {
    ghost use Rattle.std.specs.Prelude.{◌≡◌};
    ghost use Rattle.lookup_run.specs.declared.types.LookFault.TheVariants as fault;

    ghost from_gives = { λ _ e. e ≡ fault.NoMemory };

    fn from(_: NoMemory) -> Self {
        LookFault::NoMemory
    }
}

/// Where a lookup stands between two calls on its link: the last told moment, how many receives its round has had (0
/// where the next one begins a round), and how many datagrams were strays.
#[derive(Clone, Copy, Debug)]
pub(crate) struct Progress {
    pub moment: u64,
    pub receives: u32,
    pub strays: u32,
}

/// What a driver keeps: the lookup, the table, where the link stands, and what was gathered.
#[derive(Drop)]
pub(crate) struct LookupState {
    pub lookup: Lookup,
    pub table: Table,
    pub progress: Progress,
    pub gathered: Gathered,
}
