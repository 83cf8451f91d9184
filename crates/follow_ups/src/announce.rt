//! Announcing: whoever gave a token is told that this node is a peer of the key (BEP 5), or is given an item to keep (BEP 44).
//! Nobody waits for answers.
ghost use Rattle.std.specs.Prelude.{◌≡◌, ◌≤◌, ◌<◌, ◌+◌, ◌^◌, [], ◌∷◌, length, map, MatchOption, IfOk, OnOk, OnErr};
ghost use Rattle.kad_base.specs.Contacts.{same};
ghost use Rattle.kad_base.specs.Outside.{Grows};
ghost use Rattle.follow_ups.specs.Announced.{port_of, asks_of, MaySay, announcement, first_from, IsFirstFrom, announcements, tried, asking, Announces, AnnouncesSome, sent_in};

use id_puzzles::Words;
use kad_base::{Addr, Bytes, Contact, Id, Link, List, NoMemory, Proof, is_same};
use kad_krpc::{Ask, Message, Port, encode};
use lookup_core::{Token, brought};
use std::alloc::Global;

/// What is said to whoever gave a token.
#[derive(Clone, Copy)]
pub enum Said<'a> {
    /// That the node `own` is a peer of the key, at this port. Port 0 means the one that the datagram comes from.
    Peer { own: Id, key: Id, port: u16 },
    /// That the immutable item whose written form is `v` be kept. The node `own` says so.
    Item { own: Id, v: &'a [u8] },
}

/// What is asked of whoever gave a token, and at which address.
#[derive(Debug, Drop, PartialEq, Eq)]
pub struct Announcement {
    pub to: Addr,
    pub ask: Ask,
}

fn port_for(number: u16) -> Port
    ensures { result ≡ port_of number }
{
    match number {
        0 => Port::Implied,
        _ => Port::Given(number),
    }
}

/// The query that says it, and brings the token along.
pub(crate) fn ask_for(alloc: Global, said: &Said<'_>, token: &Token) -> Result<Ask, NoMemory>
    ensures { IfOk result (λ ask. ask ≡ asks_of said.now token.now.token) }
{
    let token = List::from_slice(alloc, token.token.as_slice())?;
    match *said {
        Said::Peer { own, key, port } => Ok(Ask::AnnouncePeer {
            id: own,
            info_hash: key,
            port: port_for(port),
            token,
        }),
        Said::Item { own, v } => Ok(Ask::Put {
            id: own,
            token,
            v: List::from_slice(alloc, v)?,
            mutable: false,
        }),
    }
}

/// What is said as a datagram: a query, which is read-only or not (BEP 43), and brings the proof of who asks unless it is.
fn datagram(
    alloc: Global,
    said: &Said<'_>,
    read_only: bool,
    proof: Option<Proof>,
    tx: u32,
    token: &Token,
) -> Result<Bytes, NoMemory>
    requires { MaySay said.now }
    ensures { IfOk result (λ bytes. bytes
        ≡ asking read_only proof tx (announcement (asks_of said.now) token.now).ask) }
{
    let message = Message::Query {
        tx: List::from_slice(alloc, &tx.to_le_bytes())?,
        read_only,
        proof: brought(read_only, &proof),
        ask: ask_for(alloc, said, token)?,
    };
    encode(alloc, &message)
}

/// Says it to the contact that gave the token, by one datagram under the transaction id `tx`; false if the link refused it.
/// `read_only` says that the sender answers no queries (BEP 43), and brings no proof then.
pub fn send_one<L: Link>(
    alloc: Global,
    link: &mut L,
    said: &Said<'_>,
    read_only: bool,
    proof: Option<Proof>,
    tx: u32,
    token: &Token,
) -> Result<bool, NoMemory>
    requires { MaySay said.now }
    ensures ok { let a = announcement (asks_of said.now) token.now in
        IfOk result (λ sent. Grows (L.told link.old) (L.told link.new)
        (λ es. es ≡ tried sent a.to (asking read_only proof tx a.ask) ∷ [])) }
    ensures err { OnErr result (link.new ≡ link.old) }
    ensures recv_faults { L.recv_faults link.new ≡ L.recv_faults link.old }
    ensures send_faults { L.send_faults link.old ≤ L.send_faults link.new }
    ensures kept { L.kept link.new ≡ L.kept link.old }
{
    let bytes = datagram(alloc, said, read_only, proof, tx, token)?;
    match link.send(token.contact.addr, bytes.as_slice()) {
        Ok(()) => Ok(true),
        Err(_) => Ok(false),
    }
}

/// Whether the contact gave the token.
fn is_from(token: &Token, contact: &Contact) -> bool
    ensures { result ≡ same token.now.contact contact.now }
{
    is_same(&token.contact, contact)
}

/// The place of the first token that the contact gave.
pub fn place_from(tokens: &[Token], contact: &Contact) -> Option<usize>
    ensures { MatchOption result (first_from tokens.now contact.now ≡ [])
        (IsFirstFrom tokens.now contact.now) }
{
    for (place, token) in tokens.iter().enumerate() {
        if is_from(token, contact) {
            return Some(place);
        }
    }
    None
}

/// Announces to the contact by the first token that it gave, under the next drawn word, and answers how many datagrams
/// were sent: at most one. Nothing is drawn or sent if it gave none. Out of memory, a word may have been drawn.
pub fn announce_to<L: Link>(
    alloc: Global,
    link: &mut L,
    words: &mut Words,
    said: &Said<'_>,
    read_only: bool,
    proof: Option<Proof>,
    contact: &Contact,
    tokens: &[Token],
) -> Result<usize, NoMemory>
    requires place { words.old.place < 2 ^ 60 }
    requires say { MaySay said.now }
    ensures most { IfOk result (λ sent. sent ≤ 1) }
    ensures ok { let all = map (announcement (asks_of said.now))
        (first_from tokens.now contact.now) in
        IfOk result (λ sent. Grows (L.told link.old) (L.told link.new)
        (λ es. Announces read_only proof words.old.seed words.old.place all es × (sent ≡ sent_in es))) }
    ensures drawn { OnOk result (words.new ≡ record words.old
        { place = words.old.place + length (first_from tokens.now contact.now) }) }
    ensures err { OnErr result (link.new ≡ link.old) }
    ensures recv_faults { L.recv_faults link.new ≡ L.recv_faults link.old }
    ensures send_faults { L.send_faults link.old ≤ L.send_faults link.new }
    ensures kept { L.kept link.new ≡ L.kept link.old }
{
    match place_from(tokens, contact) {
        Some(place) => {
            let tx = words.next();
            let sent = send_one(alloc, link, said, read_only, proof, tx, &tokens[place])?;
            Ok(usize::from(sent))
        }
        None => Ok(0),
    }
}

/// Announces to each contact of the result that gave a token, in order, each under the next drawn word, and answers how
/// many datagrams were sent. The link may refuse some. Without memory no more is sent.
pub fn announce<L: Link>(
    alloc: Global,
    link: &mut L,
    words: &mut Words,
    said: &Said<'_>,
    read_only: bool,
    proof: Option<Proof>,
    found: &[Contact],
    tokens: &[Token],
) -> Result<usize, NoMemory>
    requires place { words.old.place + length found.now ≤ 2 ^ 60 }
    requires say { MaySay said.now }
    ensures ok { let all = announcements (asks_of said.now) found.now tokens.now in
        IfOk result (λ sent. Grows (L.told link.old) (L.told link.new)
        (λ es. Announces read_only proof words.old.seed words.old.place all es × (sent ≡ sent_in es))) }
    ensures err { let all = announcements (asks_of said.now) found.now tokens.now in
        OnErr result (Grows (L.told link.old) (L.told link.new)
        (AnnouncesSome read_only proof words.old.seed words.old.place all)) }
    ensures recv_faults { L.recv_faults link.new ≡ L.recv_faults link.old }
    ensures send_faults { L.send_faults link.old ≤ L.send_faults link.new }
    ensures kept { L.kept link.new ≡ L.kept link.old }
{
    let mut sent = 0;
    for contact in found {
        sent += announce_to(alloc, link, words, said, read_only, proof, contact, tokens)?;
    }
    Ok(sent)
}
