//! Lookups for an item (BEP 44), and what of the same answers other lookups keep. The target is identifier 0.
use crate::lookup::{are, gives};
use contact_table::Table;
use fake_net::ScriptLink;
use kad_base::NoMemory;
use lookup_run::{AskKind, Item, Outcome, Token};
use std::alloc::Global;
use std::test::Fail;
use trial_kit::{contact, link_from, local, port};

/// Contact 1 answers the first query of the generator of 32 zero bytes with the item `5:hello` and a token.
const FIRST: &[u8] =
    b"d1:rd2:id20:\0\0\0\0\0\0\0\0\0\0\0\0\0\0\0\0\0\0\0\x015:token1:a1:v5:helloe1:t4:\xa0\x8d\xed\x1a1:y1:re";

/// Contact 2 answers the second with a token and a peer, and has no item.
const SECOND: &[u8] =
    b"d1:rd2:id20:\0\0\0\0\0\0\0\0\0\0\0\0\0\0\0\0\0\0\0\x025:token1:b6:valuesl6:\x7f\0\0\x01\x1bXee1:t4:\xa8\x36\xef\xcc1:y1:re";

/// Contact 3 answers the third with another item, and without a token.
const THIRD: &[u8] =
    b"d1:rd2:id20:\0\0\0\0\0\0\0\0\0\0\0\0\0\0\0\0\0\0\0\x031:vl5:jelloi7eee1:t4:\x8b\x77\x0d\xc71:y1:re";

fn three_answers(alloc: Global) -> Result<ScriptLink, NoMemory> {
    let datagrams: [(u16, &[u8]); 3] = [(port(1), FIRST), (port(2), SECOND), (port(3), THIRD)];
    link_from(alloc, &datagrams, &[], &[])
}

fn are_items(items: &[Item], wanted: &[(u8, &[u8])]) -> bool {
    items.len() == wanted.len()
        && items.iter().zip(wanted).all(|(item, (n, v))| item.contact == contact(*n)
            && item.v.as_slice() == *v)
}

fn are_tokens(tokens: &[Token], wanted: &[(u8, &[u8])]) -> bool {
    tokens.len() == wanted.len()
        && tokens.iter().zip(wanted).all(|(token, (n, text))| token.contact == contact(*n)
            && token.token.as_slice() == *text)
}

const TOKENS: [(u8, &[u8]); 2] = [(1, b"a"), (2, b"b")];

fn keeps_items(_table: &mut Table, outcome: &Outcome) -> bool {
    let items: [(u8, &[u8]); 2] = [(1, b"5:hello"), (3, b"l5:jelloi7ee")];
    are_items(outcome.items.as_slice(), &items)
        && are_tokens(outcome.tokens.as_slice(), &TOKENS)
        && outcome.peers.len() == 0
}

#[test]
fn items_stand_as_they_came_with_their_contacts(rt: HostRuntime) -> Result<(), Fail> {
    let link = three_answers(rt.alloc());
    assert!(rt; gives(&rt, &[1, 2, 3], 1, AskKind::GetItem, link, keeps_items)?);
    Ok(())
}

fn keeps_no_items(_table: &mut Table, outcome: &Outcome) -> bool {
    outcome.items.len() == 0
        && are_tokens(outcome.tokens.as_slice(), &TOKENS)
        && outcome.peers.as_slice() == [local(7000)].as_slice()
}

#[test]
fn a_lookup_for_peers_keeps_no_items(rt: HostRuntime) -> Result<(), Fail> {
    let link = three_answers(rt.alloc());
    assert!(rt; gives(&rt, &[1, 2, 3], 1, AskKind::GetPeers, link, keeps_no_items)?);
    Ok(())
}

fn keeps_contacts_alone(_table: &mut Table, outcome: &Outcome) -> bool {
    outcome.items.len() == 0
        && outcome.tokens.len() == 0
        && outcome.peers.len() == 0
        && are(outcome.found.as_slice(), &[1, 2, 3])
}

#[test]
fn a_lookup_for_contacts_keeps_contacts_alone(rt: HostRuntime) -> Result<(), Fail> {
    let link = three_answers(rt.alloc());
    assert!(rt;
        gives(
            &rt,
            &[1, 2, 3],
            1,
            AskKind::FindNode,
            link,
            keeps_contacts_alone
        )?
    );
    Ok(())
}
