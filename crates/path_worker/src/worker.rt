//! A worker of one path: it settles what its path's answers gave, at a turn over the book and one over the table.
ghost use Rattle.std.specs.Prelude.{◌+◌, ◌≡◌, ◌≢◌, ◌++◌, ◌∷◌, [], MatchBool, false, IfOk, IfErr};
ghost use Rattle.kad_base.specs.Serial.{made, IsRun};
ghost use Rattle.turn_book.specs.Turns.{mine};
ghost use Rattle.claim_book.specs.Legal.{Legal};
ghost use Rattle.claim_book.specs.Calls.{BookMay, BookStep, book_after};
ghost use Rattle.claim_book.specs.declared.types.Thing.TheVariants.{Responder, Told};
ghost use Rattle.path_worker.specs.Hand.{Hand, HasRole, SameHand};
ghost use Rattle.path_worker.specs.Burst.{IsOpened, Emptied, Stopped, Pulled, HasSettled, ToldOf, SettledOf, DidOne, FoundNothing, FoundNoMemory};

use crate::calls::{note, pull, settle};
use claim_book::{Book, BookCall, BookReply, Checked};
use contact_table::{Table, TableCall, TableReply};
use kad_base::{Check, Contact, NoMemory, Policy, Report};
use std::marker::Model;
use std::sync::Wait;
use turn_book::{Pass, Turn};

/// The worker of one path, with a pass at the turn over the book and one at the turn over the routing table. It checks
/// reports under its policy.
#[derive(Drop)]
pub struct Worker {
    path: u8,
    book: Pass<Book>,
    table: Pass<Table>,
    policy: Policy,
}

impl Model for Worker {
    ghost use Rattle.path_worker.specs.Hand.{Hand, HasRole};

    ghost Value = { Hand };

    ghost view = { λ w. record { path = w.path; book = w.book; table = w.table; policy = w.policy } };

    ghost invariant = { λ w. HasRole (record { path = w.path; book = w.book; table = w.table; policy = w.policy }) };
}

impl Worker {
    /// The worker of this path. Role 0 is the driver's, so that both passes have role `path + 1`.
    pub fn new(path: u8, book: Pass<Book>, table: Pass<Table>, policy: Policy) -> Worker
        requires book { book.role ≡ path + 1 }
        requires table { table.role ≡ path + 1 }
        ensures { result ≡ record { path = path; book = book; table = table; policy = policy } }
    {
        Worker {
            path,
            book,
            table,
            policy,
        }
    }

    /// The passes of the book and of the table, so that the turns can be closed.
    pub fn into_passes(self) -> (Pass<Book>, Pass<Table>)
        ensures book { result.0 ≡ self.book }
        ensures table { result.1 ≡ self.table }
        ensures role { HasRole self }
    {
        (self.book, self.table)
    }

    /// Tells the table a contact that answered, and then notes it.
    fn note<R: Wait>(
        &mut self,
        rt: &R,
        book: &Turn<Book>,
        table: &Turn<Table>,
        contact: Contact,
    ) -> Result<(), NoMemory>
        requires book { self.old.book.turn ≡ book.now.id }
        requires table { self.old.table.turn ≡ table.now.id }
        requires legal { Legal book.now.start.setting book.now.start.journal }
        requires front { Pulled book.now.start self.old.book (Responder contact) }
        ensures same { SameHand self.old self.new }
        ensures run { IsRun BookMay BookStep book_after book.now.start self.new.book.seen }
        ensures noted { IfOk result (λ u. mine self.new.book
            ≡ mine self.old.book ++ made self.old.book.role
            (BookCall.Note contact) BookReply.Kept ∷ []) }
        ensures told { IfOk result (λ u. ToldOf contact self.old.table self.new.table) }
        ensures stopped { IfErr result (λ e. (self.new.book ≡ self.old.book)
            × (mine self.new.table ≡ mine self.old.table ++ made self.old.table.role
            (TableCall.Seen contact) TableReply.NoMemory ∷ [])) }
    {
        let reply = table.call(rt, &mut self.table, TableCall::Seen { contact });
        if let TableReply::NoMemory = reply {
            return Err(NoMemory);
        }
        note(rt, book, &mut self.book, contact);
        Ok(())
    }

    /// Checks a report outside the turn, and settles it.
    fn settle<R: Wait, C: Check>(&mut self, rt: &R, book: &Turn<Book>, check: &C, report: Report)
        requires book { self.old.book.turn ≡ book.now.id }
        requires policy { self.old.policy ≡ book.now.start.setting.policy }
        requires legal { Legal book.now.start.setting book.now.start.journal }
        requires front { Pulled book.now.start self.old.book (Told report) }
        ensures same { SameHand self.old self.new }
        ensures run { IsRun BookMay BookStep book_after book.now.start self.new.book.seen }
        ensures settled { SettledOf self.old.policy report self.old.book self.new.book }
        ensures table { self.new.table ≡ self.old.table }
    {
        let checked = Checked::of(check, self.policy, report);
        settle(rt, book, &mut self.book, checked);
    }

    /// Does the first unsettled thing of the path, if there is one.
    fn step<R: Wait, C: Check>(
        &mut self,
        rt: &R,
        book: &Turn<Book>,
        table: &Turn<Table>,
        check: &C,
    ) -> Result<bool, NoMemory>
        requires book { self.old.book.turn ≡ book.now.id }
        requires table { self.old.table.turn ≡ table.now.id }
        requires policy { self.old.policy ≡ book.now.start.setting.policy }
        requires opened { IsOpened book.now.start }
        ensures same { SameHand self.old self.new }
        ensures run { IsRun BookMay BookStep book_after book.now.start self.new.book.seen }
        ensures done { IfOk result (λ more. MatchBool more (DidOne self.old self.new)
            (FoundNothing self.old self.new)) }
        ensures idle { IfOk result (λ more. more ≡ false
            → HasSettled book.now.start self.new.book) }
        ensures stopped { IfErr result (λ e. FoundNoMemory self.old self.new) }
    {
        match pull(rt, book, &mut self.book) {
            BookReply::Alive { contact } => {
                self.note(rt, book, table, contact)?;
                return Ok(true);
            }
            BookReply::Report { report } => {
                self.settle(rt, book, check, report);
                return Ok(true);
            }
            _ => {}
        }
        Ok(false)
    }

    /// Settles all that the path has, and answers how many things that was: pulls until nothing is left, tells the table
    /// of each contact that answered and then notes it, and checks each report outside the turn before it settles it.
    /// `NoMemory` comes where the table had none for a contact that answered, who stays unsettled.
    pub fn burst<R: Wait, C: Check>(
        &mut self,
        rt: &R,
        book: &Turn<Book>,
        table: &Turn<Table>,
        check: &C,
    ) -> Result<u32, NoMemory>
        requires book { self.old.book.turn ≡ book.now.id }
        requires table { self.old.table.turn ≡ table.now.id }
        requires policy { self.old.policy ≡ book.now.start.setting.policy }
        requires opened { IsOpened book.now.start }
        ensures same { SameHand self.old self.new }
        ensures emptied { IfOk result (Emptied self.old self.new) }
        ensures settled { IfOk result (λ n. HasSettled book.now.start self.new.book) }
        ensures stopped { IfErr result (λ e. Stopped self.old self.new) }
    {
        let mut count: u32 = 0;
        for _ in rt.forever() {
            if !self.step(rt, book, table, check)? {
                return Ok(count);
            }
            count += 1;
        }
        unreachable!()
    }
}
