//! What is said to the contacts that were found, as a list of queries: for whoever sends them one by one.
ghost use Rattle.std.specs.Prelude.{◌≡◌, ◌++◌, map, IfOk, OnOk};
ghost use Rattle.follow_ups.specs.Announced.{asks_of, announcement, first_from, announcements};

use crate::announce::{Announcement, Said, ask_for, place_from};
use kad_base::{Contact, List, NoMemory};
use lookup_core::Token;
use std::alloc::Global;

/// Appends what is said to the contact, by the first token that it gave; nothing if it gave none.
fn list_one(
    alloc: Global,
    list: &mut List<Announcement>,
    said: &Said<'_>,
    contact: &Contact,
    tokens: &[Token],
) -> Result<(), NoMemory>
    ensures { OnOk result (list.new ≡ list.old ++ map (announcement (asks_of said.now))
        (first_from tokens.now contact.now)) }
{
    match place_from(tokens, contact) {
        Some(place) => {
            let token = &tokens[place];
            let ask = ask_for(alloc, said, token)?;
            list.push(Announcement {
                to: token.contact.addr,
                ask,
            })
        }
        None => Ok(()),
    }
}

/// What is said to each of these contacts that gave a token, in order, each by the first token that it gave.
pub fn announcements(
    alloc: Global,
    said: &Said<'_>,
    found: &[Contact],
    tokens: &[Token],
) -> Result<List<Announcement>, NoMemory>
    ensures { IfOk result (λ list. list ≡ announcements (asks_of said.now) found.now tokens.now) }
{
    let mut list = List::new(alloc);
    for contact in found {
        list_one(alloc, &mut list, said, contact, tokens)?;
    }
    Ok(list)
}
