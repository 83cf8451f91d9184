//! Queries that bring the proof of who asks, 52 bytes under this project's own key `sk`. The bytes were put together by hand.
use super::asking::{ASKING, Method, Query, all_written};
use super::said::{Asked, NOTHING, Row, SENDER, Said, both_ways, one_way, reads, refuses};
use super::text::joined;
use kad_bencode::Bad;
use kad_krpc::{KrpcFault, Port, View, Want, decode_view, proof_in};
use std::alloc::Global;
use std::process::Abort;

const SIX: Want = Want {
    four: false,
    six: true,
};

/// That each of these is read, and written again in both ways.
fn all_both_ways(rt: &impl Abort, alloc: Global, rows: &[Row]) {
    for row in rows {
        both_ways(rt, alloc, row);
    }
}

const LOOKS: &[Row] = &[
    (
        b"d1:ad2:id20:abcdefghij01234567892:sk52:ABCDEFGHIJKLMNOPQRSTUVWXYZ!?+-*/0123456789abcdefghije1:q4:ping1:t2:aa1:y1:qe",
        Said::Query {
            read_only: false,
            brings: true,
            ask: Asked::Ping,
        },
    ),
    (
        b"d1:ad2:id20:abcdefghij01234567892:sk52:ABCDEFGHIJKLMNOPQRSTUVWXYZ!?+-*/0123456789abcdefghije1:q4:ping2:roi1e1:t2:aa1:y1:qe",
        Said::Query {
            read_only: true,
            brings: true,
            ask: Asked::Ping,
        },
    ),
    (
        b"d1:ad2:id20:abcdefghij01234567892:sk52:ABCDEFGHIJKLMNOPQRSTUVWXYZ!?+-*/0123456789abcdefghij6:target20:mnopqrstuvwxyz123456e1:q9:find_node1:t2:aa1:y1:qe",
        Said::Query {
            read_only: false,
            brings: true,
            ask: Asked::FindNode(NOTHING),
        },
    ),
    (
        b"d1:ad2:id20:abcdefghij01234567892:sk52:ABCDEFGHIJKLMNOPQRSTUVWXYZ!?+-*/0123456789abcdefghij6:target20:mnopqrstuvwxyz1234564:wantl2:n6ee1:q9:find_node1:t2:aa1:y1:qe",
        Said::Query {
            read_only: false,
            brings: true,
            ask: Asked::FindNode(SIX),
        },
    ),
    (
        b"d1:ad2:id20:abcdefghij01234567899:info_hash20:mnopqrstuvwxyz1234562:sk52:ABCDEFGHIJKLMNOPQRSTUVWXYZ!?+-*/0123456789abcdefghije1:q9:get_peers1:t2:aa1:y1:qe",
        Said::Query {
            read_only: false,
            brings: true,
            ask: Asked::GetPeers(NOTHING),
        },
    ),
    (
        b"d1:ad2:id20:abcdefghij01234567899:info_hash20:mnopqrstuvwxyz1234562:sk52:ABCDEFGHIJKLMNOPQRSTUVWXYZ!?+-*/0123456789abcdefghij4:wantl2:n6ee1:q9:get_peers1:t2:aa1:y1:qe",
        Said::Query {
            read_only: false,
            brings: true,
            ask: Asked::GetPeers(SIX),
        },
    ),
    (
        b"d1:ad2:id20:abcdefghij01234567892:sk52:ABCDEFGHIJKLMNOPQRSTUVWXYZ!?+-*/0123456789abcdefghij6:target20:mnopqrstuvwxyz123456e1:q3:get1:t2:aa1:y1:qe",
        Said::Query {
            read_only: false,
            brings: true,
            ask: Asked::Get(NOTHING),
        },
    ),
    (
        b"d1:ad2:id20:abcdefghij01234567892:sk52:ABCDEFGHIJKLMNOPQRSTUVWXYZ!?+-*/0123456789abcdefghij6:target20:mnopqrstuvwxyz1234564:wantl2:n6ee1:q3:get1:t2:aa1:y1:qe",
        Said::Query {
            read_only: false,
            brings: true,
            ask: Asked::Get(SIX),
        },
    ),
];

/// The proof stands behind `id` and `info_hash`, and before `target` and `want`.
#[test]
fn a_query_that_looks_may_bring_a_proof(rt: HostRuntime) {
    all_both_ways(&rt, rt.alloc(), LOOKS);
}

const GIVES: &[Row] = &[
    (
        b"d1:ad2:id20:abcdefghij012345678912:implied_porti1e9:info_hash20:mnopqrstuvwxyz1234564:porti1e2:sk52:ABCDEFGHIJKLMNOPQRSTUVWXYZ!?+-*/0123456789abcdefghij5:token8:aoeusnthe1:q13:announce_peer1:t2:aa1:y1:qe",
        Said::Query {
            read_only: false,
            brings: true,
            ask: Asked::AnnouncePeer(Port::Implied),
        },
    ),
    (
        b"d1:ad2:id20:abcdefghij01234567899:info_hash20:mnopqrstuvwxyz1234564:porti6881e2:sk52:ABCDEFGHIJKLMNOPQRSTUVWXYZ!?+-*/0123456789abcdefghij5:token8:aoeusnthe1:q13:announce_peer1:t2:aa1:y1:qe",
        Said::Query {
            read_only: false,
            brings: true,
            ask: Asked::AnnouncePeer(Port::Given(6881)),
        },
    ),
    (
        b"d1:ad2:id20:abcdefghij01234567892:sk52:ABCDEFGHIJKLMNOPQRSTUVWXYZ!?+-*/0123456789abcdefghij5:token8:aoeusnth1:v5:helloe1:q3:put1:t2:aa1:y1:qe",
        Said::Query {
            read_only: false,
            brings: true,
            ask: Asked::Put(b"5:hello"),
        },
    ),
];

/// The proof stands behind `port`, and before `token`.
#[test]
fn a_query_that_gives_may_bring_a_proof(rt: HostRuntime) {
    all_both_ways(&rt, rt.alloc(), GIVES);
}

/// What stands after the identifier of a ping.
type Behind = &'static [u8];

/// That each such ping is read, and brings no proof.
fn bring_none(rt: &impl Abort, alloc: Global, rows: &[Behind]) {
    for behind in rows {
        let text = joined(&[
            b"d1:ad2:id20:abcdefghij0123456789",
            behind,
            b"e1:q4:ping1:t2:aa1:y1:qe",
        ]);
        let said = Said::Query {
            read_only: false,
            brings: false,
            ask: Asked::Ping,
        };
        reads(rt, alloc, text.as_slice(), &said);
    }
}

const LENGTHS: &[Behind] = &[
    b"2:sk51:ABCDEFGHIJKLMNOPQRSTUVWXYZ!?+-*/0123456789abcdefghi",
    b"2:sk53:ABCDEFGHIJKLMNOPQRSTUVWXYZ!?+-*/0123456789abcdefghijk",
    b"2:sk0:",
];

/// It is no refusal.
#[test]
fn a_proof_of_another_length_counts_as_missing(rt: HostRuntime) {
    bring_none(&rt, rt.alloc(), LENGTHS);
}

const NO_STRINGS: &[Behind] = &[
    b"2:ski52e",
    b"2:skl52:ABCDEFGHIJKLMNOPQRSTUVWXYZ!?+-*/0123456789abcdefghije",
    b"2:skd2:sk52:ABCDEFGHIJKLMNOPQRSTUVWXYZ!?+-*/0123456789abcdefghije",
];

/// It is no refusal.
#[test]
fn a_proof_that_is_no_string_counts_as_missing(rt: HostRuntime) {
    bring_none(&rt, rt.alloc(), NO_STRINGS);
}

const OTHER_KEYS: &[Behind] = &[
    b"2:sg52:ABCDEFGHIJKLMNOPQRSTUVWXYZ!?+-*/0123456789abcdefghij",
    b"3:skx52:ABCDEFGHIJKLMNOPQRSTUVWXYZ!?+-*/0123456789abcdefghij",
];

#[test]
fn another_key_brings_no_proof(rt: HostRuntime) {
    bring_none(&rt, rt.alloc(), OTHER_KEYS);
}

/// That each of these is read.
fn all_read(rt: &impl Abort, alloc: Global, rows: &[Row]) {
    for row in rows {
        one_way(rt, alloc, row);
    }
}

const OUT_OF_ORDER: &[Row] = &[
    (
        b"d1:ad2:sk52:ABCDEFGHIJKLMNOPQRSTUVWXYZ!?+-*/0123456789abcdefghij2:id20:abcdefghij0123456789e1:q4:ping1:t2:aa1:y1:qe",
        Said::Query {
            read_only: false,
            brings: true,
            ask: Asked::Ping,
        },
    ),
    (
        b"d1:ad2:id20:abcdefghij01234567896:target20:mnopqrstuvwxyz1234562:sk52:ABCDEFGHIJKLMNOPQRSTUVWXYZ!?+-*/0123456789abcdefghije1:q9:find_node1:t2:aa1:y1:qe",
        Said::Query {
            read_only: false,
            brings: true,
            ask: Asked::FindNode(NOTHING),
        },
    ),
];

#[test]
fn a_proof_out_of_order_is_read(rt: HostRuntime) {
    all_read(&rt, rt.alloc(), OUT_OF_ORDER);
}

const ELSEWHERE: &[Row] = &[
    (
        b"d1:ad2:id20:abcdefghij0123456789e1:q4:ping2:sk52:ABCDEFGHIJKLMNOPQRSTUVWXYZ!?+-*/0123456789abcdefghij1:t2:aa1:y1:qe",
        Said::Query {
            read_only: false,
            brings: false,
            ask: Asked::Ping,
        },
    ),
    (
        b"d1:ad2:id20:abcdefghij01234567892:sk52:ABCDEFGHIJKLMNOPQRSTUVWXYZ!?+-*/0123456789abcdefghije1:q4:vote1:t2:aa1:y1:qe",
        Said::Query {
            read_only: false,
            brings: false,
            ask: Asked::Other(b"vote"),
        },
    ),
];

/// Beside the arguments it is no proof, and the arguments of a method that isn't known are not read.
#[test]
fn a_proof_elsewhere_is_passed_over(rt: HostRuntime) {
    all_read(&rt, rt.alloc(), ELSEWHERE);
}

/// It is refused as each key that stands twice.
const TWICE: &[u8] =
    b"d1:ad2:id20:abcdefghij01234567892:sk52:ABCDEFGHIJKLMNOPQRSTUVWXYZ!?+-*/0123456789abcdefghij2:sk52:ABCDEFGHIJKLMNOPQRSTUVWXYZ!?+-*/0123456789abcdefghije1:q4:ping1:t2:aa1:y1:qe";

#[test]
fn a_second_proof_is_refused(rt: HostRuntime) {
    let fault = KrpcFault::Bad(Bad::KeyTwice { at: 91 });
    refuses(&rt, rt.alloc(), TWICE, fault);
}

const SEEN: &[u8] =
    b"d1:ad2:id20:abcdefghij01234567892:sk52:ABCDEFGHIJKLMNOPQRSTUVWXYZ!?+-*/0123456789abcdefghije1:q4:ping1:t2:aa1:y1:qe";

/// That the proof of a datagram is this one, read where it stands.
fn shows(rt: &impl Abort, text: &[u8]) {
    match decode_view(text) {
        Ok(View::Query { arguments, .. }) => match proof_in(&arguments) {
            Some(proof) => assert!(rt; proof == SENDER),
            None => assert!(rt; false, "no proof"),
        },
        _ => assert!(rt; false, "no query"),
    }
}

#[test]
fn a_proof_is_read_where_it_stands(rt: HostRuntime) {
    shows(&rt, SEEN);
}

const FINDS: &[Query] = &[
    Query {
        method: Method::FindNode,
        brings: true,
        text: b"d1:ad2:id20:abcdefghij01234567892:sk52:ABCDEFGHIJKLMNOPQRSTUVWXYZ!?+-*/0123456789abcdefghij6:target20:mnopqrstuvwxyz123456e1:q9:find_node1:t4:\xa0\x8d\xed\x1a1:y1:qe",
        ..ASKING
    },
    Query {
        method: Method::FindNode,
        read_only: true,
        brings: true,
        text: b"d1:ad2:id20:abcdefghij01234567892:sk52:ABCDEFGHIJKLMNOPQRSTUVWXYZ!?+-*/0123456789abcdefghij6:target20:mnopqrstuvwxyz123456e1:q9:find_node2:roi1e1:t4:\xa0\x8d\xed\x1a1:y1:qe",
        ..ASKING
    },
    Query {
        method: Method::FindNode,
        six: true,
        read_only: true,
        brings: true,
        text: b"d1:ad2:id20:abcdefghij01234567892:sk52:ABCDEFGHIJKLMNOPQRSTUVWXYZ!?+-*/0123456789abcdefghij6:target20:mnopqrstuvwxyz1234564:wantl2:n6ee1:q9:find_node2:roi1e1:t4:\xa0\x8d\xed\x1a1:y1:qe",
        ..ASKING
    },
];

/// Plain, read-only, and read-only for contacts of IPv6. The transaction id is 0x1aed8da0.
#[test]
fn a_lookups_find_node_may_bring_a_proof(rt: HostRuntime) {
    all_written(&rt, FINDS);
}

const PEERS: &[Query] = &[
    Query {
        method: Method::GetPeers,
        brings: true,
        text: b"d1:ad2:id20:abcdefghij01234567899:info_hash20:mnopqrstuvwxyz1234562:sk52:ABCDEFGHIJKLMNOPQRSTUVWXYZ!?+-*/0123456789abcdefghije1:q9:get_peers1:t4:\xa0\x8d\xed\x1a1:y1:qe",
        ..ASKING
    },
    Query {
        method: Method::GetPeers,
        read_only: true,
        brings: true,
        text: b"d1:ad2:id20:abcdefghij01234567899:info_hash20:mnopqrstuvwxyz1234562:sk52:ABCDEFGHIJKLMNOPQRSTUVWXYZ!?+-*/0123456789abcdefghije1:q9:get_peers2:roi1e1:t4:\xa0\x8d\xed\x1a1:y1:qe",
        ..ASKING
    },
    Query {
        method: Method::GetPeers,
        six: true,
        read_only: true,
        brings: true,
        text: b"d1:ad2:id20:abcdefghij01234567899:info_hash20:mnopqrstuvwxyz1234562:sk52:ABCDEFGHIJKLMNOPQRSTUVWXYZ!?+-*/0123456789abcdefghij4:wantl2:n6ee1:q9:get_peers2:roi1e1:t4:\xa0\x8d\xed\x1a1:y1:qe",
        ..ASKING
    },
];

/// Plain, read-only, and read-only for contacts of IPv6. The transaction id is 0x1aed8da0.
#[test]
fn a_lookups_get_peers_may_bring_a_proof(rt: HostRuntime) {
    all_written(&rt, PEERS);
}

const GETS: &[Query] = &[
    Query {
        method: Method::Get,
        brings: true,
        text: b"d1:ad2:id20:abcdefghij01234567892:sk52:ABCDEFGHIJKLMNOPQRSTUVWXYZ!?+-*/0123456789abcdefghij6:target20:mnopqrstuvwxyz123456e1:q3:get1:t4:\xa0\x8d\xed\x1a1:y1:qe",
        ..ASKING
    },
    Query {
        method: Method::Get,
        read_only: true,
        brings: true,
        text: b"d1:ad2:id20:abcdefghij01234567892:sk52:ABCDEFGHIJKLMNOPQRSTUVWXYZ!?+-*/0123456789abcdefghij6:target20:mnopqrstuvwxyz123456e1:q3:get2:roi1e1:t4:\xa0\x8d\xed\x1a1:y1:qe",
        ..ASKING
    },
    Query {
        method: Method::Get,
        six: true,
        read_only: true,
        brings: true,
        text: b"d1:ad2:id20:abcdefghij01234567892:sk52:ABCDEFGHIJKLMNOPQRSTUVWXYZ!?+-*/0123456789abcdefghij6:target20:mnopqrstuvwxyz1234564:wantl2:n6ee1:q3:get2:roi1e1:t4:\xa0\x8d\xed\x1a1:y1:qe",
        ..ASKING
    },
];

/// Plain, read-only, and read-only for contacts of IPv6. The transaction id is 0x1aed8da0.
#[test]
fn a_lookups_get_may_bring_a_proof(rt: HostRuntime) {
    all_written(&rt, GETS);
}
