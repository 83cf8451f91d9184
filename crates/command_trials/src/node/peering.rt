//! Searches for peers over a scripted link: which peers are printed, and who is told of this node.
//! The bytes of the answers and of the announcements were written by hand from BEP 5.
use crate::node::trial::Outside::From;
use crate::node::trial::Wanted::{Anything, Sends};
use crate::node::trial::{SILENT, Trial, plays};
use crate::node::{PEERS, TWO_LINES};
use run_kit::shows;
use std::alloc::Global;
use std::test::Fail;
use trial_kit::{LINE_1, link_from};

/// The search, and the port 6882 is announced.
const ANNOUNCE: &[&str] = &[
    "peers",
    "--key",
    "0000000000000000000000000000000000000000",
    "--own",
    "ffffffffffffffffffffffffffffffffffffffff",
    "--paths",
    "1",
    "--announce",
    "6882",
];

/// The search, and the port that the datagram comes from is announced.
const IMPLY: &[&str] = &[
    "peers",
    "--key",
    "0000000000000000000000000000000000000000",
    "--own",
    "ffffffffffffffffffffffffffffffffffffffff",
    "--paths",
    "1",
    "--announce",
    "0",
];

/// The search for one contact, and the port 6882 is announced.
const ONE_FOUND: &[&str] = &[
    "peers",
    "--key",
    "0000000000000000000000000000000000000000",
    "--own",
    "ffffffffffffffffffffffffffffffffffffffff",
    "--paths",
    "1",
    "--announce",
    "6882",
    "--k",
    "1",
];

/// The line of contact 2.
const LINE_2: &str = "0000000000000000000000000000000000000002 127.0.0.1:6002\n";

/// The peers of the answers of contacts 1 and 2.
const THREE_PEERS: &str =
    "10.0.0.9:1\n127.0.0.1:80\n127.0.0.1:6881\npeers 3 found 2 asked 2 failed 0 turned 0 announced 2\n";

/// Contact 1 answers the first query with the token `aoeusnth` and one peer, 127.0.0.1 and port
/// 6881.
const ONE_PEER: &[u8] =
    b"d1:rd2:id20:\0\0\0\0\0\0\0\0\0\0\0\0\0\0\0\0\0\0\0\x015:token8:aoeusnth6:valuesl6:\x7f\0\0\x01\x1a\xe1ee1:t4:\xa0\x8d\xed\x1a1:y1:re";

/// Contact 2 answers the second query with another token and four peers: 127.0.0.1:6881,
/// 10.0.0.9:1, 127.0.0.1:80 and the first again.
const FOUR_PEERS: &[u8] =
    b"d1:rd2:id20:\0\0\0\0\0\0\0\0\0\0\0\0\0\0\0\0\0\0\0\x025:token3:abc6:valuesl6:\x7f\0\0\x01\x1a\xe16:\x0a\0\0\x09\0\x016:\x7f\0\0\x01\0\x506:\x7f\0\0\x01\x1a\xe1ee1:t4:\xa8\x36\xef\xcc1:y1:re";

/// Contact 1 gives a peer with port 0, one of five bytes and one of seven, a number, and no token.
const ODD_PEERS: &[u8] =
    b"d1:rd2:id20:\0\0\0\0\0\0\0\0\0\0\0\0\0\0\0\0\0\0\0\x016:valuesl6:\x7f\0\0\x01\0\x005:\x7f\0\0\x01\x1a7:\x7f\0\0\x01\x1a\xe1\0i7eee1:t4:\xa0\x8d\xed\x1a1:y1:re";

/// Contact 2 answers the first query with a token and names contact 1.
const NAMING_1: &[u8] =
    b"d1:rd2:id20:\0\0\0\0\0\0\0\0\0\0\0\0\0\0\0\0\0\0\0\x025:nodes26:\0\0\0\0\0\0\0\0\0\0\0\0\0\0\0\0\0\0\0\x01\x7f\0\0\x01\x17\x715:token3:abce1:t4:\xa0\x8d\xed\x1a1:y1:re";

/// Contact 1 answers the second query with a token.
const SECOND_ANSWER: &[u8] =
    b"d1:rd2:id20:\0\0\0\0\0\0\0\0\0\0\0\0\0\0\0\0\0\0\0\x015:token8:aoeusnthe1:t4:\xa8\x36\xef\xcc1:y1:re";

/// Contact 1 answers the second query with a token and one peer.
const SECOND_PEER: &[u8] =
    b"d1:rd2:id20:\0\0\0\0\0\0\0\0\0\0\0\0\0\0\0\0\0\0\0\x015:token8:aoeusnth6:valuesl6:\x7f\0\0\x01\x1a\xe1ee1:t4:\xa8\x36\xef\xcc1:y1:re";

/// Contact 1 answers the first query in the name of identifier 7, with a token and one peer.
const POSING: &[u8] =
    b"d1:rd2:id20:\0\0\0\0\0\0\0\0\0\0\0\0\0\0\0\0\0\0\0\x075:token8:aoeusnth6:valuesl6:\x7f\0\0\x01\x1a\xe1ee1:t4:\xa0\x8d\xed\x1a1:y1:re";

/// The query to contact 1, under the sixth word of the generator of 32 zero bytes.
const QUERY: &[u8] =
    b"d1:ad2:id20:\xff\xff\xff\xff\xff\xff\xff\xff\xff\xff\xff\xff\xff\xff\xff\xff\xff\xff\xff\xff9:info_hash20:\0\0\0\0\0\0\0\0\0\0\0\0\0\0\0\0\0\0\0\0e1:q9:get_peers2:roi1e1:t4:\xa0\x8d\xed\x1a1:y1:qe";

/// The announcement to contact 1, under the seventh word.
const ANNOUNCED: &[u8] =
    b"d1:ad2:id20:\xff\xff\xff\xff\xff\xff\xff\xff\xff\xff\xff\xff\xff\xff\xff\xff\xff\xff\xff\xff9:info_hash20:\0\0\0\0\0\0\0\0\0\0\0\0\0\0\0\0\0\0\0\x004:porti6882e5:token8:aoeusnthe1:q13:announce_peer2:roi1e1:t4:\xa8\x36\xef\xcc1:y1:qe";

/// The same of the port that the datagram comes from.
const IMPLIED: &[u8] =
    b"d1:ad2:id20:\xff\xff\xff\xff\xff\xff\xff\xff\xff\xff\xff\xff\xff\xff\xff\xff\xff\xff\xff\xff12:implied_porti1e9:info_hash20:\0\0\0\0\0\0\0\0\0\0\0\0\0\0\0\0\0\0\0\x004:porti1e5:token8:aoeusnthe1:q13:announce_peer2:roi1e1:t4:\xa8\x36\xef\xcc1:y1:qe";

/// The announcement to contact 1 where two queries came before, under the eighth word.
const THIRD: &[u8] =
    b"d1:ad2:id20:\xff\xff\xff\xff\xff\xff\xff\xff\xff\xff\xff\xff\xff\xff\xff\xff\xff\xff\xff\xff9:info_hash20:\0\0\0\0\0\0\0\0\0\0\0\0\0\0\0\0\0\0\0\x004:porti6882e5:token8:aoeusnthe1:q13:announce_peer2:roi1e1:t4:\x8b\x77\x0d\xc71:y1:qe";

/// The announcement to contact 2 after that one, under the ninth word.
const FOURTH: &[u8] =
    b"d1:ad2:id20:\xff\xff\xff\xff\xff\xff\xff\xff\xff\xff\xff\xff\xff\xff\xff\xff\xff\xff\xff\xff9:info_hash20:\0\0\0\0\0\0\0\0\0\0\0\0\0\0\0\0\0\0\0\x004:porti6882e5:token3:abce1:q13:announce_peer2:roi1e1:t4:\xda\x41\x59\x7c1:y1:qe";

/// Contact 1 gives a peer, and the port 6882 is announced to it.
const ANNOUNCING: Trial<'static> = Trial {
    words: ANNOUNCE,
    input: LINE_1,
    outside: &[From(10, 6001, ONE_PEER)],
    text: "127.0.0.1:6881\npeers 1 found 1 asked 1 failed 0 turned 0 announced 1\n",
    told: Sends(2, &[(0, 6001, QUERY), (1, 6001, ANNOUNCED)]),
    ..SILENT
};

#[test]
fn a_peer_is_printed(rt: HostRuntime) -> Result<(), Fail> {
    const TRIAL: &Trial<'static> = &Trial {
        words: PEERS,
        text: "127.0.0.1:6881\npeers 1 found 1 asked 1 failed 0 turned 0 announced 0\n",
        told: Sends(1, &[(0, 6001, QUERY)]),
        ..ANNOUNCING
    };
    plays(&rt, TRIAL)
}

#[test]
fn a_port_is_announced_with_the_token(rt: HostRuntime) -> Result<(), Fail> {
    const TRIAL: &Trial<'static> = &ANNOUNCING;
    plays(&rt, TRIAL)
}

#[test]
fn port_0_announces_the_one_that_the_datagram_comes_from(rt: HostRuntime) -> Result<(), Fail> {
    const TRIAL: &Trial<'static> = &Trial {
        words: IMPLY,
        told: Sends(2, &[(1, 6001, IMPLIED)]),
        ..ANNOUNCING
    };
    plays(&rt, TRIAL)
}

#[test]
fn a_refused_announcement_is_not_counted(rt: HostRuntime) -> Result<(), Fail> {
    const TRIAL: &Trial<'static> = &Trial {
        refused: &[1],
        text: "127.0.0.1:6881\npeers 1 found 1 asked 1 failed 0 turned 0 announced 0\n",
        told: Sends(1, &[]),
        ..ANNOUNCING
    };
    plays(&rt, TRIAL)
}

/// Two contacts give the same peer, one of them twice and among others: each stands once, in the
/// order of addresses, and both contacts are told, in the order of the result.
#[test]
fn peers_of_several_answers_stand_once_and_in_order(rt: HostRuntime) -> Result<(), Fail> {
    const TRIAL: &Trial<'static> = &Trial {
        input: TWO_LINES,
        outside: &[From(10, 6001, ONE_PEER), From(20, 6002, FOUR_PEERS)],
        text: THREE_PEERS,
        told: Sends(4, &[(2, 6001, THIRD), (3, 6002, FOURTH)]),
        ..ANNOUNCING
    };
    plays(&rt, TRIAL)
}

/// A peer with port 0 is a peer; members of another length, and a number, are passed over. No
/// token, no announcement.
#[test]
fn odd_peers_and_no_token(rt: HostRuntime) -> Result<(), Fail> {
    const TRIAL: &Trial<'static> = &Trial {
        outside: &[From(10, 6001, ODD_PEERS)],
        text: "127.0.0.1:0\npeers 1 found 1 asked 1 failed 0 turned 0 announced 0\n",
        told: Sends(1, &[]),
        ..ANNOUNCING
    };
    plays(&rt, TRIAL)
}

/// Contact 2 gave a token, and contact 1 is closer: of one contact to find only contact 1 is told.
#[test]
fn a_token_of_a_contact_that_is_not_found_is_not_used(rt: HostRuntime) -> Result<(), Fail> {
    const TRIAL: &Trial<'static> = &Trial {
        words: ONE_FOUND,
        input: LINE_2,
        outside: &[From(10, 6002, NAMING_1), From(20, 6001, SECOND_ANSWER)],
        text: "peers 0 found 1 asked 2 failed 0 turned 0 announced 1\n",
        told: Sends(3, &[(2, 6001, THIRD)]),
        ..ANNOUNCING
    };
    plays(&rt, TRIAL)
}

/// What it gives isn't printed, and it is told of nobody.
#[test]
fn an_answer_in_another_name_gives_no_peers(rt: HostRuntime) -> Result<(), Fail> {
    const TRIAL: &Trial<'static> = &Trial {
        outside: &[From(10, 6001, POSING)],
        text: "peers 0 found 0 asked 1 failed 1 turned 0 announced 0\n",
        told: Sends(1, &[]),
        ..ANNOUNCING
    };
    plays(&rt, TRIAL)
}

/// Contact 2 begins and names contact 1, whose peer is printed; both are told, contact 1 first.
#[test]
fn a_contact_learnt_on_the_way_gives_its_peers(rt: HostRuntime) -> Result<(), Fail> {
    const TRIAL: &Trial<'static> = &Trial {
        input: LINE_2,
        outside: &[From(10, 6002, NAMING_1), From(20, 6001, SECOND_PEER)],
        text: "127.0.0.1:6881\npeers 1 found 2 asked 2 failed 0 turned 0 announced 2\n",
        told: Sends(4, &[(2, 6001, THIRD), (3, 6002, FOURTH)]),
        ..ANNOUNCING
    };
    plays(&rt, TRIAL)
}

/// What stands before the values of an answer of contact n, and after those of the answer to the
/// first query and of that to the second.
fn answer_head(n: u8) -> [u8; 41] {
    let mut head = *b"d1:rd2:id20:\0\0\0\0\0\0\0\0\0\0\0\0\0\0\0\0\0\0\0\x016:valuesl";
    head[31] = n;
    head
}

const FIRST_END: &[u8] = b"ee1:t4:\xa0\x8d\xed\x1a1:y1:re";

const SECOND_END: &[u8] = b"ee1:t4:\xa8\x36\xef\xcc1:y1:re";

/// The answer of contact n with the peers 10.n.0.0 to 10.n.1.249, five hundred of them, at port
/// 258.
fn five_hundred(alloc: Global, n: u8, end: &[u8]) -> Result<Vec<u8>, Fail> {
    let mut answer = answer_head(n).to_vec(alloc)?;
    for third in 0..2 {
        for fourth in 0..250 {
            answer.extend_from_slice(&[b'6', b':', 10, n, third, fourth, 1, 2])?;
        }
    }
    answer.extend_from_slice(end)?;
    Ok(answer)
}

/// The lines of these peers.
fn five_hundred_lines(alloc: Global, n: u8) -> Result<String, Fail> {
    let mut text = String::new(alloc);
    for third in 0..2 {
        for fourth in 0..250 {
            let line = format!(in alloc; "10.{n}.{third}.{fourth}:258\n")?;
            text.push_str(line.as_str())?;
        }
    }
    Ok(text)
}

#[test]
fn a_thousand_peers_of_two_answers_are_printed(rt: HostRuntime) -> Result<(), Fail> {
    let alloc = rt.alloc();
    let first = five_hundred(alloc, 1, FIRST_END)?;
    let second = five_hundred(alloc, 2, SECOND_END)?;
    let mut text = five_hundred_lines(alloc, 1)?;
    text.push_str(five_hundred_lines(alloc, 2)?.as_str())?;
    text.push_str("peers 1000 found 2 asked 2 failed 0 turned 0 announced 0\n")?;
    let datagrams = [(6001, first.as_slice()), (6002, second.as_slice())];
    let link = link_from(alloc, &datagrams, &[], &[])?;
    shows(&rt, PEERS, TWO_LINES, link, 0, text.as_str())
}

#[test]
fn peers_begin_with_a_contact(rt: HostRuntime) -> Result<(), Fail> {
    const TRIAL: &Trial<'static> = &Trial {
        words: PEERS,
        input: "",
        status: 8,
        text: "no seeds\n",
        told: Anything,
        ..ANNOUNCING
    };
    plays(&rt, TRIAL)
}
