//! What the answers give beside contacts: peers, tokens and items.
ghost use Rattle.std.specs.Prelude.{◌≡◌, ◌∷◌, ◌++◌, [], true, option_copied, option_map, OnOk, Contains, Any};
ghost use Rattle.std.specs.List.{flat_map};
ghost use Rattle.std.specs.Ordering.{is_eq};
ghost use Rattle.std.specs.List.Sorted.{IsStrictlySortedBy};
ghost use Rattle.kad_bencode.specs.Spelling.{text_of};
ghost use Rattle.kad_krpc.specs.Fields.{peers_in};
ghost use Rattle.lookup_core.specs.Quest.{part_of};
ghost use Rattle.lookup_core.specs.Reply.{answered_seen};
ghost use Rattle.lookup_core.specs.Gathered.{tokens_in, items_in, values_of, item_of, IsEachOnce, KeepsAlso, KeepsFor};

use crate::on_reply::Answered;
use crate::quest::AskKind;
use kad_base::{Addrs, Bytes, Contact, List, NoMemory};
use kad_bencode::{Items, Piece};
use kad_krpc::push_peers;
use std::alloc::Global;

/// The token that a contact gave: what a later `announce_peer` (BEP 5) or `put` (BEP 44) to it has to bring along.
#[derive(Debug, Drop, PartialEq, Eq)]
pub struct Token {
    pub contact: Contact,
    pub token: Bytes,
}

pub type Tokened = List<Token>;

/// What a contact gave as the item that was asked for: `v` is its written form (BEP 44), of whatever length, and its
/// hash need not be the key.
#[derive(Debug, Drop, PartialEq, Eq)]
pub struct Item {
    pub contact: Contact,
    pub v: Bytes,
}

pub type ItemList = List<Item>;

/// What the heard answers of a lookup gave beside contacts, in the order of the answers: the peers that they named, which
/// may stand there more than once, the tokens, and the items.
#[derive(Debug, Drop)]
pub struct Gathered {
    pub peers: Addrs,
    pub tokens: Tokened,
    pub items: ItemList,
}

/// Keeps the peers that the answer names.
fn keep_values(peers: &mut Addrs, values: Option<Items>) -> Result<(), NoMemory>
    ensures { OnOk result (peers.new ≡ peers.old ++ part_of (peers_in values.entry)) }
{
    match values {
        Some(values) => push_peers(peers, values),
        None => Ok(()),
    }
}

/// Keeps the token that the answer gives.
fn keep_token(
    alloc: Global,
    gathered: &mut Gathered,
    contact: Contact,
    token: Option<&[u8]>,
) -> Result<(), NoMemory>
    ensures peers { gathered.new.peers ≡ gathered.old.peers }
    ensures items { gathered.new.items ≡ gathered.old.items }
    ensures tokens { OnOk result (gathered.new.tokens
        ≡ gathered.old.tokens ++ tokens_in contact (option_copied token.entry)) }
{
    match token {
        Some(text) => {
            let token = List::from_slice(alloc, text)?;
            gathered.tokens.push(Token { contact, token })
        }
        None => Ok(()),
    }
}

/// Keeps the item that the answer gives, in its written form.
fn keep_item(
    alloc: Global,
    gathered: &mut Gathered,
    contact: Contact,
    value: Option<Piece>,
) -> Result<(), NoMemory>
    ensures peers { gathered.new.peers ≡ gathered.old.peers }
    ensures tokens { gathered.new.tokens ≡ gathered.old.tokens }
    ensures items { OnOk result (gathered.new.items
        ≡ gathered.old.items ++ items_in contact (option_map text_of value.entry)) }
{
    match value {
        Some(value) => {
            let v = value.written(alloc)?;
            gathered.items.push(Item { contact, v })
        }
        None => Ok(()),
    }
}

/// Keeps the peers and the token that the answer gives.
fn gather_peers(alloc: Global, gathered: &mut Gathered, answered: Answered) -> Result<(), NoMemory>
    ensures { OnOk result (KeepsAlso (answered_seen answered.entry ∷ [])
        (flat_map values_of (answered_seen answered.entry ∷ [])) [] gathered.old gathered.new) }
{
    let Answered { contact, answer } = answered;
    keep_values(&mut gathered.peers, answer.values)?;
    keep_token(alloc, gathered, contact, answer.token)
}

/// Keeps the item and the token that the answer gives.
fn gather_items(alloc: Global, gathered: &mut Gathered, answered: Answered) -> Result<(), NoMemory>
    ensures { OnOk result (KeepsAlso (answered_seen answered.entry ∷ []) []
        (flat_map item_of (answered_seen answered.entry ∷ [])) gathered.old gathered.new) }
{
    let Answered { contact, answer } = answered;
    keep_item(alloc, gathered, contact, answer.v)?;
    keep_token(alloc, gathered, contact, answer.token)
}

/// Copies of an answer that was heard what a lookup of this kind asks for beside contacts, and nothing else. Without memory
/// some of it may have been kept.
pub fn keep(
    alloc: Global,
    gathered: &mut Gathered,
    kind: AskKind,
    answered: Answered,
) -> Result<(), NoMemory>
    ensures { OnOk result (KeepsFor kind (answered_seen answered.entry ∷ []) gathered.old
        gathered.new) }
{
    match kind {
        AskKind::FindNode => Ok(()),
        AskKind::GetPeers => gather_peers(alloc, gathered, answered),
        AskKind::GetItem => gather_items(alloc, gathered, answered),
    }
}

/// The different members of the list, in order. Takes no memory.
fn each_once<T: Ord + Drop>(items: Vec<T>) -> Vec<T>
    ensures in_order { IsStrictlySortedBy T.cmp result.items }
    ensures of_list { (x : T) → Contains result.items x → Contains items.items x }
    ensures all { (x : T) → Contains items.items x
        → Any (λ y. is_eq (T.cmp x y) ≡ true) result.items }
{
    let mut items = items;
    items.sort_unstable();
    items.dedup();
    items
}

/// The different addresses, in order: IPv4 first, by the bytes of the address and then the port. Takes no memory.
pub fn in_order(peers: Addrs) -> Addrs
    ensures { IsEachOnce peers result }
{
    let items = each_once(peers.into_vec());
    List::from_vec(items)
}

/// Nothing yet. Takes no memory.
pub fn nothing(alloc: Global) -> Gathered
    ensures peers { result.peers ≡ [] }
    ensures tokens { result.tokens ≡ [] }
    ensures items { result.items ≡ [] }
{
    Gathered {
        peers: List::new(alloc),
        tokens: List::new(alloc),
        items: List::new(alloc),
    }
}
