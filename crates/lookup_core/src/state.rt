//! What one lookup keeps.
ghost use Rattle.std.specs.Prelude.{◌≡◌, []};

use claim_book::Book;
use query_book::Queries;

/// The role of the driver in the calls of a book.
pub(crate) const DRIVER: u8 = 0;

/// One lookup: the book of its journal, and the queries that wait for an answer.
#[derive(Drop)]
pub struct Lookup {
    pub book: Book,
    pub queries: Queries,
}

impl Lookup {
    /// A lookup that has asked nobody yet.
    pub fn new(book: Book) -> Lookup
        ensures book { result.book ≡ book }
        ensures queries { result.queries ≡ [] }
    {
        Lookup {
            book,
            queries: Queries::new(),
        }
    }
}
