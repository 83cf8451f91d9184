//! The examples of BEP 5 both ways, this project's own keys, and refusals with their keys.
use super::asking::{ASKING, Method, Query, all_written};
use super::said::{
    Asked, BARE, HERE, MNO, NODE, NOTHING, PROOF, Parts, Row, Said, again, all_refused, both_ways,
    has_no_room, one_way, reads,
};
use super::text::{Text, joined, repeated};
use kad_base::{Addr, Ip, Report};
use kad_bencode::Bad;
use kad_krpc::{Key, KrpcFault, Port, split_record};
use std::alloc::Global;
use std::process::Abort;

const PING: Row = (
    b"d1:ad2:id20:abcdefghij0123456789e1:q4:ping1:t2:aa1:y1:qe",
    Said::Query {
        read_only: false,
        brings: false,
        ask: Asked::Ping,
    },
);

#[test]
fn a_ping_is_read_and_written(rt: HostRuntime) {
    both_ways(&rt, rt.alloc(), &PING);
}

const FIND_NODE: Row = (
    b"d1:ad2:id20:abcdefghij01234567896:target20:mnopqrstuvwxyz123456e1:q9:find_node1:t2:aa1:y1:qe",
    Said::Query {
        read_only: false,
        brings: false,
        ask: Asked::FindNode(NOTHING),
    },
);

#[test]
fn a_find_node_is_read_and_written(rt: HostRuntime) {
    both_ways(&rt, rt.alloc(), &FIND_NODE);
}

const GET_PEERS: Row = (
    b"d1:ad2:id20:abcdefghij01234567899:info_hash20:mnopqrstuvwxyz123456e1:q9:get_peers1:t2:aa1:y1:qe",
    Said::Query {
        read_only: false,
        brings: false,
        ask: Asked::GetPeers(NOTHING),
    },
);

#[test]
fn a_get_peers_is_read_and_written(rt: HostRuntime) {
    both_ways(&rt, rt.alloc(), &GET_PEERS);
}

const IMPLIED: Said = Said::Query {
    read_only: false,
    brings: false,
    ask: Asked::AnnouncePeer(Port::Implied),
};

const IMPLIED_BESIDE_A_PORT: Row = (
    b"d1:ad2:id20:abcdefghij012345678912:implied_porti1e9:info_hash20:mnopqrstuvwxyz1234564:porti6881e5:token8:aoeusnthe1:q13:announce_peer1:t2:aa1:y1:qe",
    IMPLIED,
);

const IMPLIED_AS_WRITTEN: Row = (
    b"d1:ad2:id20:abcdefghij012345678912:implied_porti1e9:info_hash20:mnopqrstuvwxyz1234564:porti1e5:token8:aoeusnthe1:q13:announce_peer1:t2:aa1:y1:qe",
    IMPLIED,
);

/// The example of BEP 5 has an implied port beside a port, which is written as 1.
#[test]
fn an_implied_port_is_read_and_written(rt: HostRuntime) {
    one_way(&rt, rt.alloc(), &IMPLIED_BESIDE_A_PORT);
    both_ways(&rt, rt.alloc(), &IMPLIED_AS_WRITTEN);
}

const GIVEN: Row = (
    b"d1:ad2:id20:abcdefghij01234567899:info_hash20:mnopqrstuvwxyz1234564:porti6881e5:token8:aoeusnthe1:q13:announce_peer1:t2:aa1:y1:qe",
    Said::Query {
        read_only: false,
        brings: false,
        ask: Asked::AnnouncePeer(Port::Given(6881)),
    },
);

#[test]
fn a_given_port_is_read_and_written(rt: HostRuntime) {
    both_ways(&rt, rt.alloc(), &GIVEN);
}

const VOTE: Row = (
    b"d1:q4:vote2:roi1e1:t2:aa1:y1:qe",
    Said::Query {
        read_only: true,
        brings: false,
        ask: Asked::Other(b"vote"),
    },
);

/// A method that isn't one of the four is read without its arguments.
#[test]
fn an_unknown_method_is_read(rt: HostRuntime) {
    one_way(&rt, rt.alloc(), &VOTE);
}

const RO_OF_2: Row = (
    b"d1:ad2:id20:abcdefghij0123456789e1:q4:ping2:roi2e1:t2:aa1:y1:qe",
    Said::Query {
        read_only: false,
        brings: false,
        ask: Asked::Ping,
    },
);

/// Any `ro` but 1 counts as none.
#[test]
fn another_ro_counts_as_none(rt: HostRuntime) {
    one_way(&rt, rt.alloc(), &RO_OF_2);
}

const PONG: Row = (
    b"d1:rd2:id20:mnopqrstuvwxyz123456e1:t2:aa1:y1:re",
    Said::Answer(Parts { id: MNO, ..BARE }),
);

#[test]
fn an_answer_with_an_id_alone_is_read_and_written(rt: HostRuntime) {
    both_ways(&rt, rt.alloc(), &PONG);
}

const ERROR: Row = (
    b"d1:eli201e23:A Generic Error Ocurrede1:t2:aa1:y1:ee",
    Said::Fault {
        code: 201,
        text: b"A Generic Error Ocurred",
    },
);

#[test]
fn an_error_message_is_read_and_written(rt: HostRuntime) {
    both_ways(&rt, rt.alloc(), &ERROR);
}

const BESIDE_OTHERS: Row = (
    b"d2:ip6:axje.u1:rd2:id20:abcdefghij01234567895:nodes26:mnopqrstuvwxyz123456\x7f\x00\x00\x01\x1a\xe11:pi6881ee1:t2:aa1:v4:LT011:y1:re",
    Said::Answer(Parts {
        nodes: Some(&[NODE]),
        ..BARE
    }),
);

/// A usual client's answer has keys that no step names.
#[test]
fn nodes_are_read_beside_other_keys(rt: HostRuntime) {
    one_way(&rt, rt.alloc(), &BESIDE_OTHERS);
}

const PEERS: Row = (
    b"d1:rd2:id20:abcdefghij01234567896:valuesl3:abc6:axje.uee1:t2:aa1:y1:re",
    Said::Answer(Parts {
        values: Some(&[Addr {
            ip: Ip::V4([97, 120, 106, 101]),
            port: 11893,
        }]),
        ..BARE
    }),
);

/// The peers of BEP 5's example, and one string of another length, which is passed over.
#[test]
fn peers_are_read(rt: HostRuntime) {
    one_way(&rt, rt.alloc(), &PEERS);
}

const EACH_PART: Row = (
    b"d1:rd2:id20:abcdefghij01234567896:snodes78:mnopqrstuvwxyz123456kkkkkkkkkkkkkkkkkkkkkkkkkkkkkkkkxxxxxxxxxxxxxxxxxxxx\x7f\x00\x00\x01\x1a\xe15:token8:aoeusnth6:valuesl6:\x7f\x00\x00\x01\x1a\xe1ee1:t2:aa1:y1:re",
    Said::Answer(Parts {
        snodes: Some(&[Report {
            contact: NODE,
            proof: Some(PROOF),
        }]),
        token: Some(b"aoeusnth"),
        values: Some(&[HERE]),
        ..BARE
    }),
);

/// A node with its proof, a token and a peer, with the length of each string worked by hand.
#[test]
fn each_part_of_an_answer_is_read_and_written(rt: HostRuntime) {
    both_ways(&rt, rt.alloc(), &EACH_PART);
}

const FAULTS: &[(&[u8], KrpcFault)] = &[
    (b"le", KrpcFault::Shape { key: Key::Top }),
    (b"de", KrpcFault::Missing { key: Key::T }),
    (b"d1:t2:aae", KrpcFault::Missing { key: Key::Y }),
    (b"d1:t2:aa1:y1:xe", KrpcFault::Shape { key: Key::Y }),
    (
        b"d1:q4:ping1:t2:aa1:y1:qe",
        KrpcFault::Missing { key: Key::A },
    ),
];

/// The first step that fails is named.
#[test]
fn refusals_name_the_key(rt: HostRuntime) {
    all_refused(&rt, rt.alloc(), FAULTS);
}

const PLACES: &[(&[u8], KrpcFault)] = &[
    (b"i1ex", KrpcFault::Bad(Bad::Trailing { at: 3 })),
    (
        b"d1:rd2:id20:abcdefghij01234567895:nodes27:mnopqrstuvwxyz1234567654321e1:t2:aa1:y1:re",
        KrpcFault::Records {
            key: Key::Nodes,
            len: 27,
        },
    ),
];

#[test]
fn refusals_name_the_place_and_the_length(rt: HostRuntime) {
    all_refused(&rt, rt.alloc(), PLACES);
}

/// A record of BEP 32 has an IPv6 address; one byte less is none.
#[test]
fn a_record_of_either_length_is_split(rt: HostRuntime) {
    let record = b"mnopqrstuvwxyz123456AAAABBBBCCCCDDDD\x1a\xe1";
    match split_record::<16>(record, 0) {
        Some(parts) => {
            let address = parts.1;
            assert!(&rt; address == *b"AAAABBBBCCCCDDDD");
            assert_eq!(&rt; parts.2, 6881);
        }
        None => assert!(&rt; false, "no record"),
    }
    assert!(&rt; split_record::<16>(record, 1).is_none());
}

const ANSWERING: &[Query] = &[Query {
    method: Method::FindNode,
    text: b"d1:ad2:id20:abcdefghij01234567896:target20:mnopqrstuvwxyz123456e1:q9:find_node1:t4:\xa0\x8d\xed\x1a1:y1:qe",
    ..ASKING
}];

/// The query of a lookup whose node answers others, with the transaction id 0x1aed8da0: it doesn't say that it is read-only.
#[test]
fn a_query_of_a_node_that_answers_is_written(rt: HostRuntime) {
    all_written(&rt, ANSWERING);
}

const QUERIES: &[Query] = &[
    Query {
        method: Method::FindNode,
        read_only: true,
        text: b"d1:ad2:id20:abcdefghij01234567896:target20:mnopqrstuvwxyz123456e1:q9:find_node2:roi1e1:t4:\xa0\x8d\xed\x1a1:y1:qe",
        ..ASKING
    },
    Query {
        method: Method::GetPeers,
        read_only: true,
        text: b"d1:ad2:id20:abcdefghij01234567899:info_hash20:mnopqrstuvwxyz123456e1:q9:get_peers2:roi1e1:t4:\xa0\x8d\xed\x1a1:y1:qe",
        ..ASKING
    },
];

/// The two queries of a lookup, with the transaction id 0x1aed8da0.
#[test]
fn queries_are_written(rt: HostRuntime) {
    all_written(&rt, QUERIES);
}

/// The datagram of an answer with one more key: its text, a part so many times, and what ends its value.
fn answer_text(key: &[u8], part: &[u8], count: u32, end: &[u8]) -> Text {
    let front = joined(&[b"d1:rd2:id20:abcdefghij0123456789", key]);
    let back = joined(&[end, b"e1:t2:aa1:y1:re"]);
    repeated(front.as_slice(), part, count, back.as_slice())
}

/// That such an answer is read, and written again in both ways.
fn part_is_read(rt: &impl Abort, alloc: Global, key: &[u8], part: &[u8], count: u32, end: &[u8]) {
    let text = answer_text(key, part, count, end);
    again(rt, alloc, text.as_slice());
}

fn nodes_are_read(rt: &impl Abort, alloc: Global, key: &[u8], count: u32, said: &Said) {
    let record = b"mnopqrstuvwxyz123456\x7f\x00\x00\x01\x1a\xe1";
    let text = answer_text(key, record, count, b"");
    reads(rt, alloc, text.as_slice(), said);
    again(rt, alloc, text.as_slice());
}

const SIXTEEN: Said = Said::Answer(Parts {
    nodes: Some(&[NODE; 16]),
    ..BARE
});

const FIFTY_TWO: Said = Said::Answer(Parts {
    nodes: Some(&[NODE; 52]),
    ..BARE
});

/// Memory is ample, so each of them is kept.
#[test]
fn sixteen_and_fifty_two_nodes_are_read(rt: HostRuntime) {
    nodes_are_read(&rt, rt.alloc(), b"5:nodes416:", 16, &SIXTEEN);
    nodes_are_read(&rt, rt.alloc(), b"5:nodes1352:", 52, &FIFTY_TWO);
}

#[test]
fn sixteen_nodes_with_proofs_are_read(rt: HostRuntime) {
    let record =
        b"mnopqrstuvwxyz123456kkkkkkkkkkkkkkkkkkkkkkkkkkkkkkkkxxxxxxxxxxxxxxxxxxxx\x7f\x00\x00\x01\x1a\xe1";
    part_is_read(&rt, rt.alloc(), b"6:snodes1248:", record, 16, b"");
}

#[test]
fn fifty_peers_are_read(rt: HostRuntime) {
    let record = b"6:\x7f\x00\x00\x01\x1a\xe1";
    part_is_read(&rt, rt.alloc(), b"6:valuesl", record, 50, b"e");
}

/// A token of 4,037 bytes makes the datagram 4,096 long, which is all that fits.
#[test]
fn a_datagram_of_4096_bytes_fits(rt: HostRuntime) {
    let text = answer_text(b"5:token4037:", b"x", 4037, b"");
    assert_eq!(rt; text.as_slice().len(), 4096);
    again(&rt, rt.alloc(), text.as_slice());
    let more = answer_text(b"5:token4038:", b"x", 4038, b"");
    has_no_room(&rt, rt.alloc(), more.as_slice());
}

#[test]
fn an_error_text_of_1000_bytes_is_read_and_written(rt: HostRuntime) {
    let front = b"d1:eli-9223372036854775808e1000:";
    let text = repeated(front, b"x", 1000, b"e1:t2:aa1:y1:ee");
    again(&rt, rt.alloc(), text.as_slice());
}
