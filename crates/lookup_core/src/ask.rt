//! Asking: what the book says may be asked becomes an open query, which its driver sends.
ghost use Rattle.std.specs.Prelude.{◌≡◌, ◌≤◌, ◌<◌, ◌+◌, ◌^◌, ◌∷◌, ◌++◌, [], length, List, None, IfSome, IfNone};
ghost use Rattle.std.specs.List.{AllByRecursion};
ghost use Rattle.kad_base.specs.Limits.{max_open};
ghost use Rattle.kad_base.specs.Words.{word};
ghost use Rattle.query_book.specs.declared.Query.{Query};
ghost use Rattle.query_book.specs.Queries.{IsFirstFree};
ghost use Rattle.claim_book.specs.declared.types.Cause.TheVariants.{SendFault};
ghost use Rattle.claim_book.specs.declared.types.Entry.TheVariants.{Lost};
ghost use Rattle.claim_book.specs.Calls.{asker};
ghost use Rattle.claim_book.specs.Journal.{may_ask};
ghost use Rattle.claim_book.specs.Legal.{Legal};
ghost use Rattle.claim_book.specs.State.{added};
ghost use Rattle.lookup_core.specs.Timeouts.{deadline_of};
ghost use Rattle.lookup_core.specs.LookupSteps.{Holds, asked_more, CanAsk, AsksNext, IsLastOpened, IsJustOpened};

use crate::on_reply::lose;
use crate::quest::Quest;
use crate::state::{DRIVER, Lookup};
use claim_book::{Book, BookCall, BookReply, Cause};
use id_puzzles::Words;
use kad_base::{Contact, Serial};
use query_book::{Full, Queries};

/// A query that was opened: whom it is to, and its transaction id.
#[derive(Clone, Copy, Debug, PartialEq, Eq)]
pub struct Asked {
    pub contact: Contact,
    pub tx: u32,
}

/// The contact that the path asks now; `None` if it may ask none.
fn next(book: &mut Book, path: u8) -> Option<Contact>
    ensures contact { result ≡ may_ask book.old.setting path book.old.journal }
    ensures after { book.new ≡ asked_more path book.old result }
    ensures legal { Legal book.old.setting book.old.journal }
{
    book.legal();
    match book.apply(DRIVER, BookCall::Next { path }) {
        BookReply::Ask { contact } => Some(contact),
        _ => None,
    }
}

/// Opens a query to the contact under the next drawn transaction id that is free, and answers the id.
fn open(
    queries: &mut Queries,
    words: &mut Words,
    timeout: u32,
    moment: u64,
    contact: Contact,
) -> u32
    requires room { length queries.old < max_open }
    requires deadlines { AllByRecursion (λ q. q.deadline ≤ deadline_of moment timeout) queries.old }
    requires place { words.old.place < 2 ^ 60 }
    ensures queries { queries.new ≡ queries.old ++ record {
      tx = result;
      contact = contact;
      deadline = deadline_of moment timeout;
    } ∷ [] }
    ensures id { IsFirstFree queries.old (word words.old.seed words.old.place) result }
    ensures words { words.new ≡ record words.old { place = words.old.place + 1 } }
{
    let deadline = moment.saturating_add(timeout as u64);
    match queries.open(words.next(), contact, deadline) {
        Ok(tx) => tx,
        Err(Full) => unreachable!(),
    }
}

impl Lookup {
    /// Opens a query to the contact that the path asks now, under the next word; `None` if it may ask none, and
    /// then no word is drawn. The caller sends it, and says by `unsent` where it can't.
    pub fn ask(&mut self, words: &mut Words, quest: &Quest, moment: u64, path: u8) -> Option<Asked>
        requires { CanAsk quest.now moment words.old self.old }
        ensures some { IfSome result (AsksNext (word words.old.seed words.old.place)
            (deadline_of moment quest.now.timeout) path self.old self.new) }
        ensures holds { Holds self.new }
        ensures drawn { IfSome result
            (λ asked. words.new ≡ record words.old { place = words.old.place + 1 }) }
        ensures none { IfNone result
            (may_ask self.old.book.setting path self.old.book.journal ≡ None) }
        ensures same { IfNone result (self.new ≡ self.old) }
        ensures same_words { IfNone result (words.new ≡ words.old) }
    {
        let contact = match next(&mut self.book, path) {
            Some(contact) => contact,
            None => return None,
        };
        let tx = open(&mut self.queries, words, quest.timeout, moment, contact);
        Some(Asked { contact, tx })
    }

    /// The query that was opened last could not be sent: it is closed again, and its contact is lost.
    pub fn unsent(&mut self, asked: Asked)
        requires { IsJustOpened asked self.old }
        ensures queries { (before : List Query) → IsLastOpened asked before self.old
            → self.new.queries ≡ before }
        ensures book { self.new.book ≡ added self.old.book
            (Lost (asker asked.contact self.old.book.journal) asked.contact SendFault) }
        ensures holds { Holds self.old → Holds self.new }
    {
        self.book.legal();
        self.queries.take(asked.tx, asked.contact.addr);
        lose(&mut self.book, asked.contact, Cause::SendFault);
    }
}
