//! Hearing: what a datagram is to the open queries, and what a reply gives the book.
ghost use Rattle.std.specs.Prelude.{◌≡◌, ◌≤◌, ◌<◌, ◌↔◌, ℕ, List, IsTrue, length, true, MatchOption, IfOk, OnOk, OnErr};
ghost use Rattle.kad_base.specs.Contacts.{among};
ghost use Rattle.kad_base.specs.Limits.{max_reports};
ghost use Rattle.kad_krpc.specs.Views.{answer_seen};
ghost use Rattle.claim_book.specs.declared.types.Entry.TheVariants.{Heard, Lost};
ghost use Rattle.claim_book.specs.Journal.{open_any};
ghost use Rattle.claim_book.specs.Calls.{asker};
ghost use Rattle.claim_book.specs.State.{added};
ghost use Rattle.lookup_core.specs.Reply as Reply;
ghost use Rattle.lookup_core.specs.Reply.{reply_seen, said_seen};
ghost use Rattle.lookup_core.specs.Says.{IsRead};
ghost use Rattle.lookup_core.specs.LookupSteps.{Holds, HearsReply, HearsAt, IsPlaceOf, RepliesToNone, Takes};

use crate::quest::Quest;
use crate::reply::{ReplyView, SaidView, read_reply};
use crate::sealed::is_sealed;
use crate::state::{DRIVER, Lookup};
use claim_book::{Book, BookCall, BookReply, Cause};
use kad_base::{Addr, Contact, Id, NoMemory, Reports, Serial};
use kad_krpc::AnswerView;
use seal_tags::SealCheck;
use std::alloc::Global;

/// A contact that answered in its own name, and its answer where it stands.
#[derive(Drop)]
pub struct Answered<'a> {
    pub contact: Contact,
    pub answer: AnswerView<'a>,
}

/// What a datagram was to a lookup.
#[derive(Drop)]
pub enum Taken<'a> {
    /// It replied to no open query, and nothing changed.
    Stray,
    /// An answer that was heard. What it gives beside contacts is the caller's.
    Heard(Answered<'a>),
    /// An error message or an answer in another name: the contact is lost.
    Lost,
}

/// Whether the two identifiers are one.
fn is_own(id: &Id, asked: &Id) -> bool
    ensures { IsTrue result ↔ (id.now ≡ asked.now) }
{
    id == asked
}

/// The contact, whose query is open in the journal, will not answer.
pub(crate) fn lose(book: &mut Book, contact: Contact, cause: Cause)
    requires { among (open_any book.old.journal) contact ≡ true }
    ensures { book.new ≡ added book.old (Lost (asker contact book.old.journal) contact cause) }
{
    book.legal();
    book.apply(DRIVER, BookCall::Lost { contact, cause });
}

/// The contact, whose query is open in the journal, answered. Without memory the book is as it was.
fn tell_heard(book: &mut Book, contact: Contact, reports: Reports) -> Result<(), NoMemory>
    requires is_open { among (open_any book.old.journal) contact ≡ true }
    requires few { length reports ≤ max_reports }
    ensures ok { OnOk result (book.new ≡ added book.old
        (Heard (asker contact book.old.journal) contact reports)) }
    ensures err { OnErr result (book.new ≡ book.old) }
{
    book.legal();
    match book.apply(DRIVER, BookCall::Heard { contact, reports }) {
        BookReply::NoMemory => Err(NoMemory),
        _ => Ok(()),
    }
}

/// Tells the book what the contact answered: it is heard if it answers in its own name, and lost if the answer has another
/// identifier. Without memory the book is as it was.
fn hear_answer<'a>(
    alloc: Global,
    book: &mut Book,
    quest: &Quest,
    contact: Contact,
    answer: AnswerView<'a>,
) -> Result<Taken<'a>, NoMemory>
    requires { among (open_any book.old.journal) contact ≡ true }
    ensures hears { IfOk result (HearsReply quest.now contact (Reply.Answer (answer_seen answer.entry))
        book.old book.new) }
    ensures err { OnErr result (book.new ≡ book.old) }
{
    if !is_own(&answer.id, &contact.id) {
        lose(book, contact, Cause::WrongId);
        return Ok(Taken::Lost);
    }
    let reports = quest.reports_in(alloc, &answer)?;
    tell_heard(book, contact, reports)?;
    Ok(Taken::Heard(Answered { contact, answer }))
}

/// Tells the book the reply of the contact, whose query is open. Without memory the book is as it was.
fn on_reply<'a>(
    alloc: Global,
    book: &mut Book,
    quest: &Quest,
    contact: Contact,
    reply: ReplyView<'a>,
) -> Result<Taken<'a>, NoMemory>
    requires { among (open_any book.old.journal) contact ≡ true }
    ensures hears { IfOk result (HearsReply quest.now contact (reply_seen reply.entry) book.old
        book.new) }
    ensures err { OnErr result (book.new ≡ book.old) }
{
    match reply {
        ReplyView::Answer(answer) => hear_answer(alloc, book, quest, contact, answer),
        ReplyView::Error { code } => {
            lose(book, contact, Cause::Error { code });
            Ok(Taken::Lost)
        }
    }
}

impl Lookup {
    /// The place of the open query that the reply, which was read in a datagram from that address, is to, if it is sealed as the
    /// lookup asks for; `None` if it is to none. Tags are looked at last, and only in a sealed lookup; only that takes memory.
    pub fn place_of<G: SealCheck>(
        &self,
        alloc: Global,
        quest: &Quest,
        seal: &G,
        from: Addr,
        said: &SaidView,
    ) -> Result<Option<usize>, NoMemory>
        requires { Holds self.now }
        ensures { IfOk result (λ place. (bytes : List ℕ) → IsRead bytes said.now → MatchOption place
            (RepliesToNone quest.now (G.accepted seal.now) from bytes self.now)
            (IsPlaceOf quest.now (G.accepted seal.now) from bytes (said_seen said.now) self.now)) }
    {
        // No two open queries have one transaction id.
        let _ = self.queries.len();
        let place = match self.queries.position(said.tx, from) {
            Some(place) => place,
            None => return Ok(None),
        };
        let contact = self.queries.at(place).contact;
        let sealed = is_sealed(alloc, quest.sealed, seal, &contact, said)?;
        if !sealed {
            return Ok(None);
        }
        Ok(Some(place))
    }

    /// Closes the query at that place, and tells the book the reply to it. Without memory all is as it was.
    pub fn hear<'a>(
        &mut self,
        alloc: Global,
        quest: &Quest,
        place: usize,
        reply: ReplyView<'a>,
    ) -> Result<Taken<'a>, NoMemory>
        requires holds { Holds self.old }
        requires open { place < length self.old.queries }
        ensures hears { IfOk result (HearsAt quest.now place (reply_seen reply.entry) self.old self.new) }
        ensures holds { OnOk result (Holds self.new) }
        ensures err { OnErr result (self.new ≡ self.old) }
    {
        self.book.legal();
        let contact = self.queries.at(place).contact;
        let taken = on_reply(alloc, &mut self.book, quest, contact, reply)?;
        self.queries.remove(place);
        Ok(taken)
    }

    /// Matches the datagram with the open query that it replies to, which is closed, and tells the book the reply; else
    /// it is a stray. The cheapest test comes first: whether who sent it was asked, what it says, which takes no memory,
    /// whether that is to an open query, and its tag, only in a sealed lookup. Without memory all is as it was.
    pub fn take<'a, G: SealCheck>(
        &mut self,
        alloc: Global,
        quest: &Quest,
        seal: &G,
        from: Addr,
        bytes: &'a [u8],
    ) -> Result<Taken<'a>, NoMemory>
        requires { Holds self.old }
        ensures takes { IfOk result (Takes quest.now (G.accepted seal.now) from bytes.now self.old
            self.new) }
        ensures holds { OnOk result (Holds self.new) }
        ensures err { OnErr result (self.new ≡ self.old) }
    {
        if !self.queries.is_asked(from) {
            return Ok(Taken::Stray);
        }
        let said = match read_reply(bytes) {
            Some(said) => said,
            None => return Ok(Taken::Stray),
        };
        match self.place_of(alloc, quest, seal, from, &said)? {
            Some(place) => self.hear(alloc, quest, place, said.reply),
            None => Ok(Taken::Stray),
        }
    }
}
