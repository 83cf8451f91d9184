//! The queries that wait for an answer: a list of at most 32, oldest first. It takes no memory, and knows no socket and
//! no clock: who calls it says what the moment is.
#![tactic(auto)]

mod search;

ghost use Rattle.std.specs.Prelude.{◌≡◌, ◌<◌, ◌≤◌, ◌↔◌, [], ◌∷◌, ◌++◌, length, All, Any, IfOk, OnErr, IsErr, IsTrue, IfSome, IfNone, IsNone, Some, slice_get, remove};
ghost use Rattle.std.specs.Option.{option_map};
ghost use Rattle.kad_base.specs.Limits.{max_open};

use arrayvec::ArrayVec;
use kad_base::limits::MAX_OPEN;
use kad_base::{Addr, Contact, Id, Ip};
use std::marker::Model;

/// A query that was sent: its transaction id, whom it was sent to, and the moment, in milliseconds, from which on it is
/// overdue.
#[derive(Clone, Copy, Debug, PartialEq, Eq)]
pub struct Query {
    pub tx: u32,
    pub contact: Contact,
    pub deadline: u64,
}

/// What a place holds that no query has.
impl Default for Query {
    fn default() -> Query {
        let addr = Addr {
            ip: Ip::V4([0; 4]),
            port: 0,
        };
        Query {
            tx: 0,
            contact: Contact {
                id: Id([0; 20]),
                addr,
            },
            deadline: 0,
        }
    }
}

/// Each of the 32 places has an open query.
#[derive(Clone, Copy, Debug, PartialEq, Eq)]
pub struct Full;

/// The open queries, oldest first. No two have one transaction id, and none is due before an older one.
#[derive(Debug, Drop)]
pub struct Queries {
    queries: ArrayVec<Query, MAX_OPEN>,
}

impl Model for Queries {
    ghost use Rattle.std.specs.Prelude.{List};
    ghost use Rattle.query_book.specs.declared.Query.{Query};
    ghost use Rattle.query_book.specs.Queries.{IsQueries};

    ghost Value = { List Query };

    ghost view = { λ q. q.queries.items };

    ghost invariant = { λ q. IsQueries q.queries.items };
}

impl Queries {
    ghost use Rattle.query_book.specs.Queries.{IsQueries, IsFirstFree, IsOf, IsOfAt, Closes, ClosesOldest};

    /// No query is open.
    pub fn new() -> Queries
        ensures { result ≡ [] }
    {
        Queries {
            queries: ArrayVec::new(),
        }
    }

    /// How many are open.
    pub fn len(&self) -> usize
        ensures count { result ≡ length self.now }
        ensures valid { IsQueries self.now }
    {
        self.queries.len()
    }

    pub fn is_empty(&self) -> bool
        ensures { IsTrue result ↔ (self.now ≡ []) }
    {
        self.queries.is_empty()
    }

    /// Opens a query, and answers its transaction id: the first from `word` on, wrapping, that no open query has.
    pub fn open(&mut self, word: u32, contact: Contact, deadline: u64) -> Result<u32, Full>
        requires { All (λ q. q.deadline ≤ deadline) self.old }
        ensures opened { IfOk result (λ tx. self.new
            ≡ self.old ++ record { tx = tx; contact = contact; deadline = deadline } ∷ []) }
        ensures id { IfOk result (IsFirstFree self.old word) }
        ensures full { IsErr result ↔ (length self.old ≡ max_open) }
        ensures err { OnErr result (self.new ≡ self.old) }
    {
        if self.queries.is_full() {
            return Err(Full);
        }
        let tx = search::first_free(self.queries.as_slice(), word);
        self.queries.push(Query {
            tx,
            contact,
            deadline,
        });
        Ok(tx)
    }

    /// Whether a query was sent to that address.
    pub fn is_asked(&self, from: Addr) -> bool
        ensures { IsTrue result ↔ Any (λ q. q.contact.addr ≡ from) self.now }
    {
        search::is_asked(self.queries.as_slice(), &from)
    }

    /// The place of the query with that transaction id that was sent to that address.
    pub fn position(&self, tx: u32, from: Addr) -> Option<usize>
        ensures some { IfSome result (IsOfAt tx from self.now) }
        ensures none { IsNone result ↔ All (λ q. ¬ IsOf tx from q) self.now }
    {
        search::position(self.queries.as_slice(), tx, &from)
    }

    /// The query at that place.
    pub fn at(&self, place: usize) -> Query
        requires { place < length self.now }
        ensures { slice_get self.now place ≡ Some result }
    {
        self.queries.as_slice()[place]
    }

    /// Closes the query at that place.
    pub fn remove(&mut self, place: usize) -> Query
        requires { place < length self.old }
        ensures query { slice_get self.old place ≡ Some result }
        ensures others { self.new ≡ remove self.old place }
    {
        self.queries.remove(place)
    }

    /// Whom the query with that transaction id was sent to, if that is who answers.
    pub fn find(&self, tx: u32, from: Addr) -> Option<Contact>
        ensures some { IfSome result (λ contact. Any
            (λ q. IsOf tx from q × (q.contact ≡ contact)) self.now) }
        ensures none { IsNone result ↔ All (λ q. ¬ IsOf tx from q) self.now }
    {
        let place = search::position(self.queries.as_slice(), tx, &from)?;
        Some(self.queries.as_slice()[place].contact)
    }

    /// Closes the query with that transaction id, if who answers is whom it was sent to.
    pub fn take(&mut self, tx: u32, from: Addr) -> Option<Contact>
        ensures some { IfSome result (λ contact. Closes tx from contact self.old self.new) }
        ensures none { IsNone result ↔ All (λ q. ¬ IsOf tx from q) self.old }
        ensures same { IfNone result (self.new ≡ self.old) }
    {
        let place = search::position(self.queries.as_slice(), tx, &from)?;
        Some(self.queries.remove(place).contact)
    }

    /// Closes the oldest query that is overdue at that moment.
    pub fn overdue(&mut self, at: u64) -> Option<Contact>
        ensures some { IfSome result (λ contact. ClosesOldest at contact self.old self.new) }
        ensures none { IsNone result ↔ All (λ q. at < q.deadline) self.old }
        ensures same { IfNone result (self.new ≡ self.old) }
    {
        let oldest = self.queries.as_slice().first()?;
        if at < oldest.deadline {
            return None;
        }
        Some(self.queries.remove(0).contact)
    }

    /// The earliest deadline, which is that of the oldest query.
    pub fn next_deadline(&self) -> Option<u64>
        ensures oldest { result ≡ option_map (λ q. q.deadline) (slice_get self.now 0) }
        ensures earliest { IfSome result (λ deadline. All (λ q. deadline ≤ q.deadline) self.now) }
        ensures none { IsNone result ↔ (self.now ≡ []) }
    {
        let oldest = self.queries.as_slice().first()?;
        Some(oldest.deadline)
    }
}

impl Default for Queries {
    ghost is_default = { λ q. q ≡ [] };

    fn default() -> Queries {
        Queries::new()
    }
}
