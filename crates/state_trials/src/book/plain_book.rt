//! The book as filters over its journal, with no index: what the index is tried against. Each call costs more as the
//! journal grows. Where an ask is the claim, rows of lists and askers stand in the place of the filters that differ.
use super::shortlists::Shortlists;
use claim_book::{BookCall, BookReply, Cause, Checked, Counts, Entry, Setting, Thing};
use kad_base::limits::MAX_PATH_CONTACTS;
use kad_base::{ClaimRule, Contact, Contacts, NoMemory, Reports, host_of, is_usable};
use kad_distance::k_least;
use std::alloc::Global;

#[derive(Drop)]
pub(super) struct PlainBook {
    pub(super) setting: Setting,
    pub(super) journal: Vec<Entry>,
    pub(super) lists: Shortlists,
}

/// The path and the contact of an entry by which a path got one.
fn gained(entry: &Entry) -> Option<(u8, Contact)> {
    match entry {
        Entry::Seed { path, contact } | Entry::Taken { path, contact } => Some((*path, *contact)),
        _ => None,
    }
}

fn asks(entry: &Entry, one: &Contact) -> bool {
    matches!(entry, Entry::Ask { contact, .. } if contact == one)
}

fn answers(entry: &Entry, one: &Contact) -> bool {
    matches!(entry, Entry::Heard { contact, .. } if contact == one)
}

fn fails(entry: &Entry, one: &Contact) -> bool {
    matches!(entry, Entry::Lost { contact, .. } if contact == one)
}

fn is_asked(journal: &[Entry], one: &Contact) -> bool {
    journal.iter().any(|entry| asks(entry, one))
}

fn is_answered(journal: &[Entry], one: &Contact) -> bool {
    journal.iter().any(|entry| answers(entry, one))
}

fn is_failed(journal: &[Entry], one: &Contact) -> bool {
    journal.iter().any(|entry| fails(entry, one))
}

/// The path that has an open query of the contact.
pub(super) fn open_path(journal: &[Entry], one: &Contact) -> Option<u8> {
    if is_answered(journal, one) || is_failed(journal, one) {
        return None;
    }
    for entry in journal {
        if let Entry::Ask { path, contact } = entry {
            if contact == one {
                return Some(*path);
            }
        }
    }
    None
}

fn holder(journal: &[Entry], one: &Contact) -> Option<u8> {
    for entry in journal {
        if let Some((path, contact)) = gained(entry) {
            if contact == *one {
                return Some(path);
            }
        }
    }
    None
}

fn count_path(journal: &[Entry], one: u8) -> usize {
    let mut contacts = 0usize;
    for entry in journal {
        if let Some((path, _)) = gained(entry) {
            if path == one {
                contacts = contacts.saturating_add(1);
            }
        }
    }
    contacts
}

/// Whether the path has as many contacts of the contact's host as the setting says.
fn is_crowded(setting: &Setting, journal: &[Entry], one: u8, contact: &Contact) -> bool {
    let host = host_of(&contact.addr);
    let mut contacts = 0usize;
    for entry in journal {
        if let Some((path, other)) = gained(entry) {
            if path == one && host_of(&other.addr) == host {
                contacts = contacts.saturating_add(1);
            }
        }
    }
    setting.per_address > 0 && contacts >= setting.per_address as usize
}

fn count_open(journal: &[Entry], one: u8) -> usize {
    let mut opens = 0usize;
    for entry in journal {
        if let Entry::Ask { path, contact } = entry {
            if *path == one && !is_answered(journal, contact) && !is_failed(journal, contact) {
                opens = opens.saturating_add(1);
            }
        }
    }
    opens
}

fn settles(entry: &Entry, one: u8) -> bool {
    match entry {
        Entry::Note { path, .. }
        | Entry::Taken { path, .. }
        | Entry::Held { path, .. }
        | Entry::Turned { path, .. }
        | Entry::Rejected { path, .. }
        | Entry::Skipped { path, .. } => *path == one,
        _ => false,
    }
}

/// Puts in what the entry gives the path to settle.
fn give(things: &mut Vec<Thing>, entry: &Entry, one: u8) -> Result<(), NoMemory> {
    if let Entry::Heard {
        path,
        contact,
        reports,
    } = entry
    {
        if *path == one {
            push(things, Thing::Responder { contact: *contact })?;
            for report in reports.as_slice() {
                push(things, Thing::Told { report: *report })?;
            }
        }
    }
    Ok(())
}

pub(super) fn push<T: Drop>(items: &mut Vec<T>, item: T) -> Result<(), NoMemory> {
    match items.push(item) {
        Ok(()) => Ok(()),
        Err(_) => Err(NoMemory),
    }
}

/// The first thing of the path that is not settled.
pub(super) fn front(alloc: Global, journal: &[Entry], one: u8) -> Result<Option<Thing>, NoMemory> {
    let mut things = Vec::new(alloc);
    for entry in journal {
        give(&mut things, entry, one)?;
    }
    let settled = journal.iter().filter(|entry| settles(entry, one)).count();
    Ok(things.get(settled).copied())
}

/// The k closest contacts of the path, or of all paths, that were not lost.
fn nearest(
    alloc: Global,
    setting: &Setting,
    journal: &[Entry],
    one: Option<u8>,
) -> Result<Contacts, NoMemory> {
    let mut contacts = Vec::new(alloc);
    for entry in journal {
        if let Some((path, contact)) = gained(entry) {
            let is_ours = match one {
                Some(one) => path == one,
                None => true,
            };
            if is_ours && !is_failed(journal, &contact) {
                push(&mut contacts, contact)?;
            }
        }
    }
    k_least(alloc, &setting.target, setting.k, contacts.as_slice())
}

impl PlainBook {
    pub(super) fn new(
        alloc: Global,
        setting: Setting,
        seeds: &[Contact],
    ) -> Result<PlainBook, NoMemory> {
        let mut book = PlainBook {
            setting,
            journal: Vec::new(alloc),
            lists: Shortlists::new(alloc),
        };
        let mut path = 0u8;
        for contact in seeds {
            let contact = *contact;
            if !is_crowded(&setting, book.journal.as_slice(), path, &contact) {
                book.append(Entry::Seed { path, contact })?;
            }
            path = path.wrapping_add(1);
            if path >= setting.paths {
                path = 0;
            }
        }
        Ok(book)
    }

    fn append(&mut self, entry: Entry) -> Result<(), NoMemory> {
        self.lists.follow(&entry)?;
        push(&mut self.journal, entry)
    }

    /// The k closest that the path may find, by the rule of claims.
    fn nearest_on(&self, alloc: Global, path: u8) -> Result<Contacts, NoMemory> {
        match self.setting.claim {
            ClaimRule::Named => nearest(alloc, &self.setting, self.journal.as_slice(), Some(path)),
            ClaimRule::Asked => self.lists.nearest(alloc, &self.setting, path),
        }
    }

    /// Who holds the contact against the path, by the rule of claims.
    fn holder(&self, path: u8, contact: &Contact) -> Option<u8> {
        match self.setting.claim {
            ClaimRule::Named => holder(self.journal.as_slice(), contact),
            ClaimRule::Asked => self.lists.holder(path, contact),
        }
    }

    pub(super) fn apply(
        &mut self,
        alloc: Global,
        role: u8,
        call: BookCall,
    ) -> Result<BookReply, NoMemory> {
        let path = role.wrapping_sub(1);
        match call {
            BookCall::Next { path } => self.next(alloc, path),
            BookCall::Heard { contact, reports } => self.heard(contact, reports),
            BookCall::Lost { contact, cause } => self.lost(contact, cause),
            BookCall::Finish => self.finish(alloc),
            BookCall::Pull => self.pull(alloc, path),
            BookCall::Note { contact } => self.note(alloc, path, contact),
            BookCall::Settle { checked } => self.settle(alloc, path, checked),
        }
    }

    fn has_run_out(&self, alloc: Global, path: u8) -> Result<bool, NoMemory> {
        let journal = self.journal.as_slice();
        if count_open(journal, path) > 0 || front(alloc, journal, path)?.is_some() {
            return Ok(false);
        }
        let near = self.nearest_on(alloc, path)?;
        Ok(
            near.as_slice()
                .iter()
                .all(|contact| is_answered(journal, contact)),
        )
    }

    fn may_ask(&self, alloc: Global, path: u8) -> Result<Option<Contact>, NoMemory> {
        let journal = self.journal.as_slice();
        if count_open(journal, path) >= self.setting.alpha as usize {
            return Ok(None);
        }
        let near = self.nearest_on(alloc, path)?;
        for contact in near.as_slice() {
            if !is_asked(journal, contact) {
                return Ok(Some(*contact));
            }
        }
        Ok(None)
    }

    fn next(&mut self, alloc: Global, path: u8) -> Result<BookReply, NoMemory> {
        if let Some(contact) = self.may_ask(alloc, path)? {
            self.append(Entry::Ask { path, contact })?;
            return Ok(BookReply::Ask { contact });
        }
        if self.has_run_out(alloc, path)? {
            return Ok(BookReply::RunOut);
        }
        Ok(BookReply::Later)
    }

    fn heard(&mut self, contact: Contact, reports: Reports) -> Result<BookReply, NoMemory> {
        match open_path(self.journal.as_slice(), &contact) {
            Some(path) => {
                self.append(Entry::Heard {
                    path,
                    contact,
                    reports,
                })?;
                Ok(BookReply::Kept)
            }
            None => Ok(BookReply::NotOpen),
        }
    }

    fn lost(&mut self, contact: Contact, cause: Cause) -> Result<BookReply, NoMemory> {
        match open_path(self.journal.as_slice(), &contact) {
            Some(path) => {
                self.append(Entry::Lost {
                    path,
                    contact,
                    cause,
                })?;
                Ok(BookReply::Kept)
            }
            None => Ok(BookReply::NotOpen),
        }
    }

    fn finish(&self, alloc: Global) -> Result<BookReply, NoMemory> {
        for path in 0..self.setting.paths {
            if !self.has_run_out(alloc, path)? {
                return Ok(BookReply::NotYet { path });
            }
        }
        let journal = self.journal.as_slice();
        let found = nearest(alloc, &self.setting, journal, None)?;
        let mut counts = Counts {
            asked: 0,
            failed: 0,
            turned: 0,
        };
        for entry in journal {
            match entry {
                Entry::Ask { .. } => counts.asked = counts.asked.saturating_add(1),
                Entry::Lost { .. } => counts.failed = counts.failed.saturating_add(1),
                Entry::Turned { .. } => counts.turned = counts.turned.saturating_add(1),
                _ => {}
            }
        }
        Ok(BookReply::Found { found, counts })
    }

    fn pull(&self, alloc: Global, path: u8) -> Result<BookReply, NoMemory> {
        Ok(match front(alloc, self.journal.as_slice(), path)? {
            Some(Thing::Responder { contact }) => BookReply::Alive { contact },
            Some(Thing::Told { report }) => BookReply::Report { report },
            None => BookReply::Idle,
        })
    }

    fn note(&mut self, alloc: Global, path: u8, contact: Contact) -> Result<BookReply, NoMemory> {
        if front(alloc, self.journal.as_slice(), path)? != Some(Thing::Responder { contact }) {
            return Ok(BookReply::NotFront);
        }
        self.append(Entry::Note { path, contact })?;
        Ok(BookReply::Kept)
    }

    fn settle(&mut self, alloc: Global, path: u8, checked: Checked) -> Result<BookReply, NoMemory> {
        let report = checked.report();
        if front(alloc, self.journal.as_slice(), path)? != Some(Thing::Told { report })
            || checked.policy() != self.setting.policy
        {
            return Ok(BookReply::NotFront);
        }
        let (entry, reply) = self.judge(path, &checked);
        self.append(entry)?;
        Ok(reply)
    }

    /// The first rule that fits a report that may be settled.
    fn judge(&self, path: u8, checked: &Checked) -> (Entry, BookReply) {
        let report = checked.report();
        let contact = report.contact;
        let journal = self.journal.as_slice();
        if !is_usable(&self.setting.own, &contact) {
            (Entry::Skipped { path, report }, BookReply::Skipped)
        } else if !checked.passes() {
            (Entry::Rejected { path, report }, BookReply::Rejected)
        } else if let Some(by) = self.holder(path, &contact) {
            (
                Entry::Held { path, contact, by },
                BookReply::Held { path: by },
            )
        } else if count_path(journal, path) == MAX_PATH_CONTACTS
            || is_crowded(&self.setting, journal, path, &contact)
        {
            (Entry::Turned { path, contact }, BookReply::Turned)
        } else {
            (Entry::Taken { path, contact }, BookReply::Taken)
        }
    }
}
