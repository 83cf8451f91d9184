//! What each path has where an ask is the claim, as rows that change with each entry: the paths' lists, and the one asker of
//! each contact. It is what the book's index is tried against under that rule.
use super::plain_book::push;
use claim_book::{Entry, Setting};
use kad_base::{Contact, Contacts, NoMemory};
use kad_distance::k_least;
use std::alloc::Global;

/// A contact, and the path that has it or asked it.
#[derive(Clone, Copy)]
struct Row {
    path: u8,
    contact: Contact,
}

#[derive(Drop)]
pub(super) struct Shortlists {
    /// All that each path was dealt or took.
    told: Vec<Row>,
    /// Those of them that the path may still find: neither lost nor asked by another.
    listed: Vec<Row>,
    /// Who asked, one path for each contact.
    askers: Vec<Row>,
}

impl Shortlists {
    pub(super) fn new(alloc: Global) -> Shortlists {
        Shortlists {
            told: Vec::new(alloc),
            listed: Vec::new(alloc),
            askers: Vec::new(alloc),
        }
    }

    /// The entry was made.
    pub(super) fn follow(&mut self, entry: &Entry) -> Result<(), NoMemory> {
        match entry {
            Entry::Seed { path, contact } | Entry::Taken { path, contact } => {
                let row = Row {
                    path: *path,
                    contact: *contact,
                };
                push(&mut self.told, row)?;
                push(&mut self.listed, row)
            }
            Entry::Ask { path, contact } => {
                self.listed
                    .retain(|row| row.path == *path || row.contact != *contact);
                push(
                    &mut self.askers,
                    Row {
                        path: *path,
                        contact: *contact,
                    },
                )
            }
            Entry::Lost { contact, .. } => {
                self.listed.retain(|row| row.contact != *contact);
                Ok(())
            }
            _ => Ok(()),
        }
    }

    /// Who holds the contact against the path that is told of it: the path where its list has it, and else the asker.
    pub(super) fn holder(&self, path: u8, contact: &Contact) -> Option<u8> {
        if self
            .told
            .iter()
            .any(|row| row.path == path && row.contact == *contact)
        {
            return Some(path);
        }
        self.asker(contact)
    }

    fn asker(&self, contact: &Contact) -> Option<u8> {
        for row in &self.askers {
            if row.contact == *contact {
                return Some(row.path);
            }
        }
        None
    }

    /// The k closest that the path may find.
    pub(super) fn nearest(
        &self,
        alloc: Global,
        setting: &Setting,
        path: u8,
    ) -> Result<Contacts, NoMemory> {
        let mut contacts = Vec::new(alloc);
        for row in &self.listed {
            if row.path == path {
                push(&mut contacts, row.contact)?;
            }
        }
        k_least(alloc, &setting.target, setting.k, contacts.as_slice())
    }

    /// Whether each contact was asked once.
    pub(super) fn ask_once(&self) -> bool {
        for row in &self.askers {
            let asks = self
                .askers
                .iter()
                .filter(|other| other.contact == row.contact);
            if asks.count() != 1 {
                return false;
            }
        }
        true
    }

    /// Whether two paths have a contact.
    pub(super) fn share_some(&self) -> bool {
        for row in &self.told {
            if self.told.iter().any(|other| other.contact == row.contact
                && other.path != row.path)
            {
                return true;
            }
        }
        false
    }
}
