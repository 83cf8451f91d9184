//! The book: its journal, and what its calls do.
ghost use Rattle.std.specs.Prelude.{◌≡◌, ℕ, ◌≤◌, ◌<◌, ◌^◌, length, IfOk, OnOk};
ghost use Rattle.std.specs.List.{All};
ghost use Rattle.std.specs.List.Sorted.{IsStrictlySortedBy};
ghost use Rattle.kad_base.specs.Limits.{max_reports};
ghost use Rattle.kad_base.specs.Contacts.{IsUsable};
ghost use Rattle.kad_distance.specs.Order.{closeness};
ghost use Rattle.claim_book.specs.declared.types.Entry.TheVariants.{Heard, Lost, Note};
ghost use Rattle.claim_book.specs.Journal.{unsettled};

use crate::calls::BookReply;
use crate::claim_map::{Claims, no_claims, place_of};
use crate::path::Path;
use crate::starting::{new_paths, seed};
use crate::types::{Cause, Counts, Entry, Journal, Setting, Thing};
use crate::verdict::Checked;
use kad_base::{Contact, List, NoMemory, Reports};
use std::alloc::Global;
use std::hash::RandomState;
use std::marker::Model;

/// The book of one lookup: its journal, and an index of it by which each call is answered.
#[derive(Drop)]
pub struct Book {
    pub(crate) setting: Setting,
    pub(crate) journal: Vec<Entry>,
    /// How many entries may still come, if no further contact answers: there is room for them.
    pub(crate) owed: usize,
    /// What came of each contact that a path has or a report named.
    pub(crate) claims: Claims,
    pub(crate) paths: Vec<Path>,
    pub(crate) counts: Counts,
}

impl Model for Book {
    ghost use Rattle.claim_book.specs.State.{BookState};

    ghost Value = { BookState };

    ghost use Rattle.std.specs.Prelude.{vec_capacity};
    ghost use Rattle.claim_book.specs.Index.{IsWhole};

    ghost view = { λ b. record { setting = b.setting; journal = b.journal.items } };

    ghost invariant = { λ b. IsWhole b.setting b.journal.items b.owed (vec_capacity b.journal) b.claims b.paths.items b.counts };
}

impl Book {
    ghost use Rattle.claim_book.specs.Legal.{Legal, seeded};
    ghost use Rattle.claim_book.specs.Lineage.{GoesByOwnAnswers};
    ghost use Rattle.claim_book.specs.Calls.{NextStep, EndStep, HeardStep, FinishStep, PullStep, NoteStep, SettleStep, after_next, after_kept, after_settle, asker};

    /// A book of a lookup that starts with these contacts, the closest that the routing table has. It takes the memory
    /// for all later calls on them. The seeds are dealt to the paths in turn (S/Kademlia, section 4.4), so there has to
    /// be a path; of those of one host a path keeps the first `per_address`, and the others are no path's. Strangers choose
    /// the contacts, so the hasher is handed in.
    pub fn new(
        alloc: Global,
        setting: Setting,
        seeds: &[Contact],
        hasher: RandomState,
    ) -> Result<Book, NoMemory>
        requires some_path { 0 < setting.paths }
        requires few { length seeds.now ≤ setting.k }
        requires in_order { IsStrictlySortedBy (closeness setting.target) seeds.now }
        requires usable { All (IsUsable setting.own) seeds.now }
        ensures setting { IfOk result (λ book. book.setting ≡ setting) }
        ensures journal { IfOk result (λ book. book.journal ≡ seeded setting.per_address
            setting.paths seeds.now) }
        ensures legal { IfOk result (λ book. Legal book.setting book.journal) }
    {
        let owed = 2 * seeds.len();
        let mut journal = Vec::with_capacity(alloc, seeds.len() + owed)?;
        let mut claims = no_claims(alloc, hasher);
        let mut paths = new_paths(alloc, setting.paths)?;
        seed(&mut journal, &mut claims, &mut paths, &setting, seeds)?;
        Ok(Book {
            setting,
            journal,
            owed,
            claims,
            paths,
            counts: Counts {
                asked: 0,
                failed: 0,
                turned: 0,
            },
        })
    }

    /// The law of the book: its journal is legal, whoever made the calls. It does nothing, and is called where a proof
    /// needs the law.
    pub fn legal(&self)
        ensures { Legal self.now.setting self.now.journal }
    {
        let _ = &self.owed;
    }

    /// The law of the book: what each path has to settle can be counted. It does nothing, and is called where a proof
    /// needs the law.
    pub fn few_unsettled(&self)
        ensures { (p : ℕ) → length (unsettled p self.now.journal) < 2 ^ 32 }
    {
        let _ = &self.owed;
    }

    /// Ends the book. In its journal what a path holds and asks came from that path's own seeds and answers, and nothing that
    /// may be believed was dropped. Takes no memory.
    pub fn into_journal(self) -> Journal
        ensures journal { result ≡ self.journal }
        ensures legal { Legal self.setting self.journal }
        ensures own_answers { GoesByOwnAnswers self.setting self.journal }
    {
        List::from_vec(self.journal)
    }

    /// What the path can ask. Takes no memory.
    #[inline(never)]
    pub(crate) fn next(&mut self, path: u8) -> BookReply
        ensures step { NextStep self.old.setting self.old.journal path result }
        ensures after { self.new ≡ after_next self.old path result }
    {
        if let Some(contact) = self.may_ask(path) {
            self.ask(path, contact);
            return BookReply::Ask { contact };
        }
        if self.has_run_out(path) {
            return BookReply::RunOut;
        }
        BookReply::Later
    }

    /// The contact answered. Takes the memory for all later calls on what it reported.
    #[inline(never)]
    pub(crate) fn heard(&mut self, contact: Contact, reports: Reports) -> BookReply
        requires { length reports ≤ max_reports }
        ensures step { HeardStep self.old.journal contact result }
        ensures after { self.new ≡ after_kept self.old
            (Heard (asker contact self.old.journal) contact reports) result }
    {
        let place = place_of(&self.claims, &contact);
        let path = match self.open_path(place, &contact) {
            Some(path) => path,
            None => return BookReply::NotOpen,
        };
        match self.hear(path, place, contact, reports) {
            Ok(()) => BookReply::Kept,
            Err(NoMemory) => BookReply::NoMemory,
        }
    }

    /// The contact will not answer. Takes no memory.
    #[inline(never)]
    pub(crate) fn lost(&mut self, contact: Contact, cause: Cause) -> BookReply
        ensures step { EndStep self.old.journal contact result }
        ensures after { self.new ≡ after_kept self.old
            (Lost (asker contact self.old.journal) contact cause) result }
    {
        let place = place_of(&self.claims, &contact);
        match self.open_path(place, &contact) {
            Some(path) => {
                self.lose(path, place, contact, cause);
                BookReply::Kept
            }
            None => BookReply::NotOpen,
        }
    }

    /// What the lookup found, where all paths have run out.
    #[inline(never)]
    pub(crate) fn finish(&mut self) -> BookReply
        ensures step { FinishStep self.old.setting self.old.journal result }
        ensures after { self.new ≡ self.old }
    {
        if let Some(path) = self.first_running() {
            return BookReply::NotYet { path };
        }
        let counts = self.numbers();
        match self.found() {
            Ok(found) => BookReply::Found { found, counts },
            Err(NoMemory) => BookReply::NoMemory,
        }
    }

    /// What the path has to settle. Takes no memory.
    #[inline(never)]
    pub(crate) fn pull(&self, path: u8) -> BookReply
        ensures { PullStep self.now.journal path result }
    {
        match self.front(path) {
            Some(Thing::Responder { contact }) => BookReply::Alive { contact },
            Some(Thing::Told { report }) => BookReply::Report { report },
            None => BookReply::Idle,
        }
    }

    /// The contact that answered was noted. Takes no memory.
    #[inline(never)]
    pub(crate) fn note(&mut self, path: u8, contact: Contact) -> BookReply
        ensures step { NoteStep self.old.journal path contact result }
        ensures after { self.new ≡ after_kept self.old (Note path contact) result }
    {
        if !self.is_next(path, &contact) {
            return BookReply::NotFront;
        }
        self.settle_only(path, Entry::Note { path, contact });
        BookReply::Kept
    }

    /// The report was checked, and is settled by the first rule that fits. Takes no memory.
    #[inline(never)]
    pub(crate) fn settle(&mut self, path: u8, checked: Checked) -> BookReply
        ensures step { SettleStep self.old.setting self.old.journal path checked result }
        ensures after { self.new ≡ after_settle self.old path checked result }
    {
        let report = checked.report();
        let contact = report.contact;
        match self.judge(path, &checked) {
            BookReply::Taken => {
                self.take(path, contact);
                BookReply::Taken
            }
            BookReply::Turned => {
                self.turn_away(path, contact);
                BookReply::Turned
            }
            BookReply::Held { path: by } => {
                self.settle_only(path, Entry::Held { path, contact, by });
                BookReply::Held { path: by }
            }
            BookReply::Rejected => {
                self.settle_only(path, Entry::Rejected { path, report });
                BookReply::Rejected
            }
            BookReply::Skipped => {
                self.settle_only(path, Entry::Skipped { path, report });
                BookReply::Skipped
            }
            _ => BookReply::NotFront,
        }
    }
}
