//! How a book grows by one entry: each change writes the entry and what the index says of it.
ghost use Rattle.std.specs.Prelude.{◌≡◌, ◌<◌, ◌≤◌, ◌+◌, ◌*◌, ◌++◌, ◌∷◌, [], Some, true, length, get_or, ℕ, vec_len, vec_capacity, OnOk, OnErr, IsSome};
ghost use Rattle.std.specs.List.{All};
ghost use Rattle.std.specs.VecDeque.{deque_capacity};
ghost use Rattle.kad_base.specs.Limits.{max_reports};
ghost use Rattle.kad_base.specs.Contacts.{among};
ghost use Rattle.claim_book.specs.declared.types.Entry.TheVariants.{Ask, Heard, Lost, Taken, Turned};
ghost use Rattle.claim_book.specs.declared.types.Thing.TheVariants.{Told};
ghost use Rattle.claim_book.specs.Journal.{may_ask, open_on};
ghost use Rattle.claim_book.specs.Legal.{Fits};
ghost use Rattle.claim_book.specs.Room.{frees};
ghost use Rattle.claim_book.specs.State.{added};
ghost use Rattle.claim_book.specs.Claims.{IsKnown, Keeps};
ghost use Rattle.claim_book.specs.declared.path.Path.{Path};
ghost use Rattle.claim_book.specs.Index.{IsSettledOnly, Lent};

use crate::claim_map::{Claims, is_on, learn, mark_asked, mark_ended, mark_taken, place_of};
use crate::path::{Path, ask_one, hear_one, lend_one, lose_one, settle_one, take_one, widen};
use crate::state::Book;
use crate::types::{Cause, Entry, Setting};
use kad_base::{ClaimRule, Contact, NoMemory, Report, Reports};

impl Book {
    /// The path asks the contact. Takes no memory.
    pub(crate) fn ask(&mut self, path: u8, contact: Contact)
        requires { may_ask self.old.setting path self.old.journal ≡ Some contact }
        ensures { self.new ≡ added self.old (Ask path contact) }
    {
        put(
            &mut self.journal,
            &mut self.owed,
            Entry::Ask { path, contact },
        );
        let place = place_of(&self.claims, &contact);
        mark_asked(&mut self.claims, self.setting.claim, path, place, &contact);
        ask_one(&mut self.paths[path as usize], &contact);
        self.counts.asked += 1;
        if self.setting.claim == ClaimRule::Asked {
            lend(
                &mut self.paths,
                &self.claims,
                self.setting.paths,
                path,
                &contact,
            );
        }
    }

    /// The contact that the path asked answered. Takes the memory for all later calls on what it reported.
    pub(crate) fn hear(
        &mut self,
        path: u8,
        place: usize,
        contact: Contact,
        reports: Reports,
    ) -> Result<(), NoMemory>
        requires asks { among (open_on path self.old.journal) contact ≡ true }
        requires few { length reports ≤ max_reports }
        ensures ok { OnOk result (self.new ≡ added self.old (Heard path contact reports)) }
        ensures err { OnErr result (self.new ≡ self.old) }
    {
        make_room(
            &mut self.journal,
            self.owed,
            &mut self.claims,
            &mut self.paths[path as usize],
            &self.setting,
            path,
            reports.as_slice(),
        )?;
        mark_ended(&mut self.claims, place, &contact);
        hear_one(&mut self.paths[path as usize], &contact, reports.as_slice());
        self.owed += 3 * reports.len() + 1;
        put(
            &mut self.journal,
            &mut self.owed,
            Entry::Heard {
                path,
                contact,
                reports,
            },
        );
        Ok(())
    }

    /// The contact that the path asked will not answer. Takes no memory.
    pub(crate) fn lose(&mut self, path: u8, place: usize, contact: Contact, cause: Cause)
        requires { among (open_on path self.old.journal) contact ≡ true }
        ensures { self.new ≡ added self.old (Lost path contact cause) }
    {
        put(
            &mut self.journal,
            &mut self.owed,
            Entry::Lost {
                path,
                contact,
                cause,
            },
        );
        mark_ended(&mut self.claims, place, &contact);
        lose_one(&mut self.paths[path as usize], &contact);
        self.counts.failed += 1;
    }

    /// The reported contact that stands first is now the path's. Takes no memory.
    pub(crate) fn take(&mut self, path: u8, contact: Contact)
        requires { Fits self.old.setting self.old.journal (Taken path contact) }
        ensures { self.new ≡ added self.old (Taken path contact) }
    {
        let place = self.first_place(path);
        put(
            &mut self.journal,
            &mut self.owed,
            Entry::Taken { path, contact },
        );
        mark_taken(&mut self.claims, &self.setting, path, place, &contact);
        take_one(&mut self.paths[path as usize], &self.setting, &contact);
    }

    /// The reported contact that stands first finds the path full, or crowded by its host. Takes no memory.
    pub(crate) fn turn_away(&mut self, path: u8, contact: Contact)
        requires { Fits self.old.setting self.old.journal (Turned path contact) }
        ensures { self.new ≡ added self.old (Turned path contact) }
    {
        put(
            &mut self.journal,
            &mut self.owed,
            Entry::Turned { path, contact },
        );
        settle_one(&mut self.paths[path as usize]);
        self.counts.turned += 1;
    }

    /// What stands first on the path is settled, and no more comes of it. Takes no memory.
    pub(crate) fn settle_only(&mut self, path: u8, entry: Entry)
        requires fits { Fits self.old.setting self.old.journal entry }
        requires only { IsSettledOnly path entry }
        ensures { self.new ≡ added self.old entry }
    {
        put(&mut self.journal, &mut self.owed, entry);
        settle_one(&mut self.paths[path as usize]);
    }
}

/// The path asks the contact, so no other path that has it asks it or looks for it any more.
fn lend(paths: &mut Vec<Path>, claims: &Claims, count: u8, asker: u8, contact: &Contact)
    requires all { count ≡ length paths.old.items }
    ensures len { length paths.new.items ≡ length paths.old.items }
    ensures each { (p : ℕ) (d : Path) → p < length paths.new.items → Lent claims.now asker
        contact.now p (get_or paths.old.items p d) (get_or paths.new.items p d) }
{
    for path in 0..count {
        if path == asker || !is_on(claims, path, contact) {
            continue;
        }
        lend_one(&mut paths[path as usize], contact);
    }
}

/// How many entries less may still come once this one stands.
fn freed(entry: &Entry) -> usize
    ensures { result ≡ frees entry.now }
{
    match entry {
        Entry::Held { .. }
        | Entry::Turned { .. }
        | Entry::Rejected { .. }
        | Entry::Skipped { .. } => 3,
        _ => 1,
    }
}

/// Appends one of the entries that are owed, for which there is room.
fn put(journal: &mut Vec<Entry>, owed: &mut usize, entry: Entry)
    requires some { frees entry ≤ owed.old }
    requires room { vec_len journal.old + owed.old ≤ vec_capacity journal.old }
    ensures items { journal.new.items ≡ journal.old.items ++ entry ∷ [] }
    ensures owed { owed.new + frees entry ≡ owed.old }
    ensures room { length journal.new.items + owed.new ≤ vec_capacity journal.new }
{
    *owed -= freed(&entry);
    match journal.push(entry) {
        Ok(()) => {}
        Err(_) => unreachable!(),
    }
}

/// Makes room for all that an answer can lead to. Whatever it returns, all that is there stays.
fn make_room(
    journal: &mut Vec<Entry>,
    owed: usize,
    claims: &mut Claims,
    path: &mut Path,
    setting: &Setting,
    number: u8,
    reports: &[Report],
) -> Result<(), NoMemory>
    requires few { length reports.now ≤ max_reports }
    requires fits { length journal.old.items + owed ≤ vec_capacity journal.old }
    ensures journal { journal.new.items ≡ journal.old.items }
    ensures room { length journal.new.items + owed ≤ vec_capacity journal.new }
    ensures more_room { OnOk result (length journal.new.items + (owed + (3 * length
        reports.now + 1)) ≤ vec_capacity journal.new) }
    ensures kept { Keeps claims.old claims.new }
    ensures known { OnOk result (All (λ r. IsKnown setting.now number claims.new (Told r))
        reports.now) }
    ensures near { path.new.near ≡ path.old.near }
    ensures fresh { path.new.fresh ≡ path.old.fresh }
    ensures count { path.new.count ≡ path.old.count }
    ensures opens { path.new.opens ≡ path.old.opens }
    ensures queue { path.new.queue.items ≡ path.old.queue.items }
    ensures wide { OnOk result (length path.new.queue.items + (length reports.now + 1)
        ≤ deque_capacity path.new.queue) }
{
    journal.reserve(owed + (3 * reports.len() + 1))?;
    widen(path, reports.len() + 1)?;
    learn(claims, setting, number, reports, &mut path.places)
}
