//! Searches among the open queries.
ghost use Rattle.std.specs.Prelude.{◌≡◌, ◌<◌, ◌≤◌, ◌^◌, ◌↔◌, length, All, Any, IfSome, IsNone, IsTrue};
ghost use Rattle.query_book.specs.Queries.{HasId, IsFirstFree, IsOf, IsOfAt};

use crate::Query;
use kad_base::Addr;

/// The place of the query with that transaction id that was sent to that address.
pub(crate) fn position(queries: &[Query], tx: u32, from: &Addr) -> Option<usize>
    ensures some { IfSome result (IsOfAt tx from.now queries.now) }
    ensures none { IsNone result ↔ All (λ q. ¬ IsOf tx from.now q) queries.now }
{
    for (place, query) in queries.iter().enumerate() {
        if is_of(query, tx, from) {
            return Some(place);
        }
    }
    None
}

fn is_of(query: &Query, tx: u32, from: &Addr) -> bool
    ensures { IsTrue result ↔ IsOf tx from.now query.now }
{
    query.tx == tx && query.contact.addr == *from
}

/// Whether a query was sent to that address.
pub(crate) fn is_asked(queries: &[Query], from: &Addr) -> bool
    ensures { IsTrue result ↔ Any (λ q. q.contact.addr ≡ from.now) queries.now }
{
    queries.iter().any(|query| query.contact.addr == *from)
}

fn has_id(queries: &[Query], tx: u32) -> bool
    ensures { IsTrue result ↔ HasId queries.now tx }
{
    queries.iter().any(|query| query.tx == tx)
}

/// The first transaction id from `word` on that no query has. One of the first ids is free, one more than there are
/// queries.
pub(crate) fn first_free(queries: &[Query], word: u32) -> u32
    requires { length queries.now < 2 ^ 32 }
    ensures { IsFirstFree queries.now word result }
{
    let mut steps = 0;
    while has_id(queries, word.wrapping_add(steps)) {
        steps += 1;
    }
    word.wrapping_add(steps)
}
