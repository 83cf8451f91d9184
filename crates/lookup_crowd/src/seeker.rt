//! What the driver of several lookups keeps.
use contact_table::Table;
use kad_base::NoMemory;
use lookup_core::{Gathered, Lookup, Quest};
use serve_crew::ServeWorker;
use thiserror::Error;
use turn_book::Pass;

/// Why several lookups ended early.
#[derive(Clone, Copy, Debug, PartialEq, Eq, Error)]
pub enum ManyFault {
    /// A receive failed.
    #[error("a receive failed")]
    LinkFault,
    /// The last datagram for no lookup was received that is taken while a query is open.
    #[error("too many datagrams were for no lookup")]
    Strays,
    #[error("no memory")]
    NoMemory,
}

/// One of the lookups: what it asks and believes, what it keeps, what it gathered beside contacts, by which pass it tells the
/// table who answered, and how its last settling ended.
#[derive(Drop)]
pub struct Seeker {
    pub quest: Quest,
    pub lookup: Lookup,
    pub gathered: Gathered,
    pub pass: Pass<Table>,
    pub settled: Result<(), NoMemory>,
}

/// Where the link stands between two calls: the last told moment, how many receives the round has had (0 where the next
/// one begins a round), how many datagrams were for no lookup, how many receives are still wanted, the moment at which
/// serving on ends (`None` where no moment does), how many datagrams came in all, how many replies were sent, and how many
/// follow-ups have still to go out (0 while lookups are open).
#[derive(Clone, Copy, Debug)]
pub struct Progress {
    pub moment: u64,
    pub receives: u32,
    pub foreign: u64,
    pub left: u32,
    pub end: Option<u64>,
    pub received: u64,
    pub replied: u64,
    pub unsaid: u64,
}

/// Who drives the lookups: the worker by which the node answers meanwhile and tells the table whom they lost, and where its
/// link stands.
#[derive(Drop)]
pub struct Driver {
    pub host: ServeWorker,
    pub progress: Progress,
}
