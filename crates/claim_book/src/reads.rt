//! What a book says of its paths and contacts, by its index.
ghost use Rattle.std.specs.Prelude.{◌≡◌, ◌↔◌, ◌<◌, ℕ, IsTrue, Some, MatchOption, true, false, length, slice_get, IfOk};
ghost use Rattle.kad_base.specs.Limits.{max_path_contacts};
ghost use Rattle.kad_base.specs.Contacts.{among};
ghost use Rattle.claim_book.specs.declared.types.Thing.TheVariants.{Responder, Told};
ghost use Rattle.claim_book.specs.Journal.{path as path_of_journal, open_any, first_unsettled, first_unasked, may_ask};
ghost use Rattle.claim_book.specs.Legal.{IsHeldBy, IsFree};
ghost use Rattle.claim_book.specs.RunOut.{RunOut};
ghost use Rattle.claim_book.specs.Result.{result_of};
ghost use Rattle.claim_book.specs.Crowded.{IsCrowded};
ghost use Rattle.claim_book.specs.Calls.{asker, Counted, IsNotYet, IsSound, SettleStep};

use crate::calls::BookReply;
use crate::claim_map::{claim_at, is_crowded, is_on};
use crate::path::{first_fresh, first_place, first_thing};
use crate::starting::nearest_lists;
use crate::state::Book;
use crate::types::{Counts, Thing};
use crate::verdict::Checked;
use kad_base::limits::MAX_PATH_CONTACTS;
use kad_base::{ClaimRule, Contact, Contacts, NoMemory, Report, is_usable};
use lookup_merge::merge;

impl Book {
    /// Where the map has the contact of the first thing of the path that is not settled, as a guess.
    pub(crate) fn first_place(&self, path: u8) -> usize {
        match self.paths.get(path as usize) {
            Some(here) => first_place(here),
            None => 0,
        }
    }

    /// Which path holds the contact against the path that is told of it, if any does.
    fn holder(&self, path: u8, place: usize, contact: &Contact) -> Option<u8>
        ensures { MatchOption result
            (IsFree self.now.setting.claim self.now.journal path contact.now)
            (λ q. IsHeldBy self.now.setting.claim self.now.journal path contact.now q) }
    {
        if self.setting.claim == ClaimRule::Asked && is_on(&self.claims, path, contact) {
            return Some(path);
        }
        claim_at(&self.claims, place, contact).by
    }

    /// The path that asked a contact which is neither heard nor lost.
    pub(crate) fn open_path(&self, place: usize, contact: &Contact) -> Option<u8>
        ensures { MatchOption result (among (open_any self.now.journal) contact.now ≡ false)
            (λ p. (among (open_any self.now.journal) contact.now ≡ true)
            × (p ≡ asker contact.now self.now.journal)) }
    {
        let claim = claim_at(&self.claims, place, contact);
        if claim.ended {
            return None;
        }
        if !claim.asked {
            return None;
        }
        claim.by
    }

    /// Whom the path may ask.
    pub(crate) fn may_ask(&self, path: u8) -> Option<Contact>
        ensures { result ≡ may_ask self.now.setting path self.now.journal }
    {
        if path >= self.setting.paths {
            return None;
        }
        if self.paths[path as usize].opens >= self.setting.alpha as usize {
            return None;
        }
        self.first_unasked(path)
    }

    /// Of the k closest contacts of the path that were not lost, the first that nobody asked.
    fn first_unasked(&self, path: u8) -> Option<Contact>
        requires { path < self.now.setting.paths }
        ensures { result ≡ first_unasked self.now.setting path self.now.journal }
    {
        let here = &self.paths[path as usize];
        first_fresh(
            &self.setting.target,
            here.near.as_slice(),
            here.fresh.as_slice(),
            self.setting.k as usize,
        )
    }

    /// Whether the path has run out.
    pub(crate) fn has_run_out(&self, path: u8) -> bool
        ensures { IsTrue result ↔ RunOut self.now.setting path self.now.journal }
    {
        if path >= self.setting.paths {
            return true;
        }
        let here = &self.paths[path as usize];
        if here.opens > 0 {
            return false;
        }
        if first_thing(here).is_some() {
            return false;
        }
        self.first_unasked(path).is_none()
    }

    /// The first path that has not run out.
    pub(crate) fn first_running(&self) -> Option<u8>
        ensures { MatchOption result ((p : ℕ) → p < self.now.setting.paths
            → RunOut self.now.setting p self.now.journal)
            (λ p. IsNotYet self.now.setting self.now.journal p) }
    {
        for path in 0..self.setting.paths {
            if !self.has_run_out(path) {
                return Some(path);
            }
        }
        None
    }

    /// The numbers of the journal.
    pub(crate) fn numbers(&self) -> Counts
        ensures { Counted self.now.journal result }
    {
        self.counts
    }

    /// The k closest contacts of all paths that were not lost, merged from the k closest of each.
    pub(crate) fn found(&self) -> Result<Contacts, NoMemory>
        ensures { IfOk result (λ found. found ≡ result_of self.now.setting self.now.journal) }
    {
        let alloc = *self.journal.allocator();
        let lists = nearest_lists(alloc, self.paths.as_slice(), self.setting.k as usize)?;
        merge(
            alloc,
            &self.setting.target,
            self.setting.k,
            lists.as_slice(),
        )
    }

    /// The first thing of the path that is not settled.
    pub(crate) fn front(&self, path: u8) -> Option<Thing>
        ensures { result ≡ first_unsettled path self.now.journal }
    {
        if path >= self.setting.paths {
            return None;
        }
        first_thing(&self.paths[path as usize])
    }

    /// Whether the contact's answer is the first thing of the path that is not settled.
    pub(crate) fn is_next(&self, path: u8, contact: &Contact) -> bool
        ensures { IsTrue result ↔ (first_unsettled path self.now.journal ≡ Some
            (Responder contact.now)) }
    {
        match self.front(path) {
            Some(Thing::Responder { contact: first }) => first == *contact,
            _ => false,
        }
    }

    /// Whether the report is the first thing of the path that is not settled.
    fn is_front(&self, path: u8, report: &Report) -> bool
        ensures { IsTrue result ↔ (first_unsettled path self.now.journal ≡ Some (Told report.now)) }
    {
        match self.front(path) {
            Some(Thing::Told { report: first }) => first == *report,
            _ => false,
        }
    }

    /// Whether the path has as many contacts as a path can have, those that were lost among them.
    fn is_full(&self, path: u8) -> bool
        ensures full { result ≡ true → length (path_of_journal path self.now.journal)
            ≡ max_path_contacts }
        ensures room { result ≡ false → length (path_of_journal path self.now.journal)
            < max_path_contacts }
    {
        if path >= self.setting.paths {
            return false;
        }
        self.paths[path as usize].count == MAX_PATH_CONTACTS
    }

    /// Whether the path has as many contacts of the contact's host as it may, those that were lost among them.
    fn is_crowded(&self, path: u8, contact: &Contact) -> bool
        ensures { IsTrue result ↔ IsCrowded self.now.setting self.now.journal path contact.now }
    {
        is_crowded(&self.claims, self.setting.per_address, path, contact)
    }

    /// The first rule that fits a checked report.
    pub(crate) fn judge(&self, path: u8, checked: &Checked) -> BookReply
        ensures { SettleStep self.now.setting self.now.journal path checked.now result }
    {
        let report = checked.report();
        if !self.is_front(path, &report) || checked.policy() != self.setting.policy {
            return BookReply::NotFront;
        }
        if !is_usable(&self.setting.own, &report.contact) {
            return BookReply::Skipped;
        }
        if !checked.passes() {
            return BookReply::Rejected;
        }
        self.judge_sound(path, checked)
    }

    /// The first rule that fits a report that may be believed.
    fn judge_sound(&self, path: u8, checked: &Checked) -> BookReply
        requires { IsSound self.now.setting self.now.journal path checked.now }
        ensures { SettleStep self.now.setting self.now.journal path checked.now result }
    {
        let report = checked.report();
        match self.holder(path, self.first_place(path), &report.contact) {
            Some(by) => BookReply::Held { path: by },
            None => {
                if self.is_full(path) {
                    return BookReply::Turned;
                }
                if self.is_crowded(path, &report.contact) {
                    return BookReply::Turned;
                }
                BookReply::Taken
            }
        }
    }
}
