//! Why a refresh ends early, what it is given, and where it stands.
use contact_table::Table;
use kad_base::{Id, NoMemory};
use thiserror::Error;

/// Why a refresh ended early.
#[derive(Clone, Copy, Debug, PartialEq, Eq, Error)]
pub enum RefreshFault {
    /// A receive failed.
    #[error("a receive failed")]
    LinkFault,
    /// The last stray that a refresh takes was received: the 1,000,000th.
    #[error("too many datagrams were no replies")]
    Strays,
    #[error("no memory")]
    NoMemory,
}

impl From<NoMemory> for RefreshFault {
    ghost use Rattle.std.specs.Prelude.{◌≡◌};
    ghost use Rattle.table_refresh.specs.declared.types.RefreshFault.TheVariants as fault;

    ghost from_gives = { λ _ e. e ≡ fault.NoMemory };

    fn from(_: NoMemory) -> Self {
        RefreshFault::NoMemory
    }
}

/// How a table is refreshed: how long a try waits for its reply, in milliseconds, whether a reply has to carry a tag that the
/// seal accepts, and whether all live contacts of a bucket are pinged, not only its least recently seen.
#[derive(Clone, Copy, Debug, PartialEq, Eq)]
pub struct RefreshSetting {
    pub timeout: u32,
    pub sealed: bool,
    pub all: bool,
}

/// The same, and who pings.
#[derive(Clone, Copy)]
pub(crate) struct Setting {
    pub own: Id,
    pub timeout: u32,
    pub sealed: bool,
    pub all: bool,
}

/// Where a refresh stands between two calls on its link: the table, the last told moment, and how many datagrams were
/// strays.
#[derive(Drop)]
pub(crate) struct Progress {
    pub table: Table,
    pub moment: u64,
    pub strays: u32,
}

/// What a receive left of a try.
#[derive(Clone, Copy)]
pub(crate) enum Tried {
    /// The ping still waits for its reply.
    Waits,
    /// The try is over; `kept` says that the contact failed, and that the table keeps it all the same.
    Over { kept: bool },
}
