//! The calls of a book, and what it replies.
use crate::types::{Cause, Counts};
use crate::verdict::Checked;
use kad_base::{Contact, Contacts, Report, Reports};

/// Role 0, the driver of the lookup, makes the first four; role p + 1, the worker of path p, makes the others.
#[derive(Debug, Drop)]
pub enum BookCall {
    /// What can this path ask?
    Next { path: u8 },
    /// The contact answered, and named these others, at most 16.
    Heard { contact: Contact, reports: Reports },
    /// The contact will not answer.
    Lost { contact: Contact, cause: Cause },
    /// What did the lookup find?
    Finish,
    /// What is there to settle on this role's path?
    Pull,
    /// The contact that answered was noted.
    Note { contact: Contact },
    /// The report was checked: where does its contact go?
    Settle { checked: Checked },
}

#[derive(Debug, Drop, PartialEq, Eq)]
pub enum BookReply {
    /// Ask this contact. It counts as asked.
    Ask { contact: Contact },
    /// The path has run out.
    RunOut,
    /// The path waits for answers, or for its worker.
    Later,
    /// It stands in the journal.
    Kept,
    /// The contact was not asked, or is heard or lost already.
    NotOpen,
    /// All paths have run out: the closest contacts, and how many were asked, lost and turned away.
    Found { found: Contacts, counts: Counts },
    /// The first path that has not run out.
    NotYet { path: u8 },
    /// This contact answered: note it.
    Alive { contact: Contact },
    /// Check this report, and settle it.
    Report { report: Report },
    /// Nothing is left to settle on the path.
    Idle,
    /// Something else is the first thing to settle, or the report was checked under another policy.
    NotFront,
    /// The path has the contact now.
    Taken,
    /// This path has the contact already, or asked it.
    Held { path: u8 },
    /// The path is full, or has as many contacts of this host as it may.
    Turned,
    /// The report does not pass.
    Rejected,
    /// The contact is this node itself, or has no port.
    Skipped,
    /// The allocator gave no memory; the book is as it was.
    NoMemory,
}
