// The book as an object whose calls are steps.
ghost use Rattle.claim_book.specs.Calls.{BookMay, BookStep, book_after};

use crate::calls::{BookCall, BookReply};
use crate::state::Book;
use kad_base::Serial;

impl Serial for Book {
    type Call = BookCall;

    type Reply = BookReply;

    ghost may = { BookMay };

    ghost step = { BookStep };

    ghost after = { book_after };

    #[inline(always)]
    fn apply(&mut self, role: u8, call: BookCall) -> BookReply {
        match call {
            BookCall::Next { path } => self.next(path),
            BookCall::Heard { contact, reports } => self.heard(contact, reports),
            BookCall::Lost { contact, cause } => self.lost(contact, cause),
            BookCall::Finish => self.finish(),
            BookCall::Pull => self.pull(role - 1),
            BookCall::Note { contact } => self.note(role - 1, contact),
            BookCall::Settle { checked } => self.settle(role - 1, checked),
        }
    }
}
