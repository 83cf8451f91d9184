//! What BEP 32 adds to messages: whose contacts a query wants, and contacts and peers of IPv6 in an answer. The bytes were
//! put together by hand.
use super::asking::{ASKING, Method, Query, all_written};
use super::said::{
    ABC, Asked, BARE, HERE, MNO, NODE, NOTHING, PROOF, Parts, Row, Said, again, both_ways, one_way,
    reads, refuses,
};
use super::text::joined;
use kad_base::{Addr, Contact, Id, Ip, Report};
use kad_krpc::{Key, KrpcFault, Want};
use std::alloc::Global;
use std::process::Abort;

const FOUR: Want = Want {
    four: true,
    six: false,
};

const SIX: Want = Want {
    four: false,
    six: true,
};

const BOTH: Want = Want {
    four: true,
    six: true,
};

/// The IPv6 address of the letters, and port 6881.
const THERE: Addr = Addr {
    ip: Ip::V6(*b"AAAABBBBCCCCDDDD"),
    port: 6881,
};

/// A node whose identifier is twenty bytes ff looks for twenty zero bytes, and for contacts of IPv6.
const FROM_ONES: Query = Query {
    own: Id([0xff; 20]),
    sought: Id([0; 20]),
    ..ASKING
};

const QUERIES: &[Query] = &[
    Query {
        method: Method::FindNode,
        six: true,
        read_only: true,
        text: b"d1:ad2:id20:\xff\xff\xff\xff\xff\xff\xff\xff\xff\xff\xff\xff\xff\xff\xff\xff\xff\xff\xff\xff6:target20:\x00\x00\x00\x00\x00\x00\x00\x00\x00\x00\x00\x00\x00\x00\x00\x00\x00\x00\x00\x004:wantl2:n6ee1:q9:find_node2:roi1e1:t4:\xa0\x8d\xed\x1a1:y1:qe",
        ..FROM_ONES
    },
    Query {
        method: Method::GetPeers,
        six: true,
        read_only: true,
        text: b"d1:ad2:id20:\xff\xff\xff\xff\xff\xff\xff\xff\xff\xff\xff\xff\xff\xff\xff\xff\xff\xff\xff\xff9:info_hash20:\x00\x00\x00\x00\x00\x00\x00\x00\x00\x00\x00\x00\x00\x00\x00\x00\x00\x00\x00\x004:wantl2:n6ee1:q9:get_peers2:roi1e1:t4:\xa0\x8d\xed\x1a1:y1:qe",
        ..FROM_ONES
    },
];

/// The two queries of a lookup of the network of IPv6, with the transaction id 0x1aed8da0, of a node whose identifier is
/// twenty bytes ff.
#[test]
fn queries_for_contacts_of_ipv6_are_written(rt: HostRuntime) {
    all_written(&rt, QUERIES);
}

/// What stands after the last identifier of a query, and what is wanted then.
type Wanted = (&'static [u8], Want);

/// That each such `find_node` query wants this.
fn wants(rt: &impl Abort, alloc: Global, rows: &[Wanted]) {
    for (behind, want) in rows {
        let text = joined(&[
            b"d1:ad2:id20:abcdefghij01234567896:target20:mnopqrstuvwxyz123456",
            behind,
            b"e1:q9:find_node1:t2:aa1:y1:qe",
        ]);
        let said = Said::Query {
            read_only: false,
            brings: false,
            ask: Asked::FindNode(*want),
        };
        reads(rt, alloc, text.as_slice(), &said);
    }
}

const WORDS: &[Wanted] = &[
    (b"", NOTHING),
    (b"4:wantl2:n4e", FOUR),
    (b"4:wantl2:n6e", SIX),
    (b"4:wantl2:n42:n6e", BOTH),
    (b"4:wantl2:n62:n4e", BOTH),
];

#[test]
fn whose_contacts_are_wanted_is_read(rt: HostRuntime) {
    wants(&rt, rt.alloc(), WORDS);
}

const OTHER_WORDS: &[Wanted] = &[
    (b"4:wantle", NOTHING),
    (b"4:wantl2:n52:N63:n6 1:ni6el2:n6ee", NOTHING),
    (b"4:wantl2:n5i6e2:n62:n6e", SIX),
];

#[test]
fn other_words_of_want_are_passed_over(rt: HostRuntime) {
    wants(&rt, rt.alloc(), OTHER_WORDS);
}

const NO_LISTS: &[Wanted] = &[
    (b"4:want2:n6", NOTHING),
    (b"4:wanti6e", NOTHING),
    (b"4:wantd2:n62:n6e", NOTHING),
];

/// It is no refusal.
#[test]
fn a_want_that_is_no_list_counts_as_missing(rt: HostRuntime) {
    wants(&rt, rt.alloc(), NO_LISTS);
}

/// That each query which wants this is written with this text after its info hash, and read again.
fn are_written(rt: &impl Abort, alloc: Global, rows: &[Wanted]) {
    for (behind, want) in rows {
        let text = joined(&[
            b"d1:ad2:id20:abcdefghij01234567899:info_hash20:mnopqrstuvwxyz123456",
            behind,
            b"e1:q9:get_peers1:t2:aa1:y1:qe",
        ]);
        let said = Said::Query {
            read_only: false,
            brings: false,
            ask: Asked::GetPeers(*want),
        };
        reads(rt, alloc, text.as_slice(), &said);
        again(rt, alloc, text.as_slice());
    }
}

const WRITTEN: &[Wanted] = &[
    (b"", NOTHING),
    (b"4:wantl2:n4e", FOUR),
    (b"4:wantl2:n6e", SIX),
    (b"4:wantl2:n42:n6e", BOTH),
];

#[test]
fn want_is_written_where_something_is_wanted(rt: HostRuntime) {
    are_written(&rt, rt.alloc(), WRITTEN);
}

/// What stands after an answer's identifier, and how the answer is refused.
type Refused = (&'static [u8], KrpcFault);

/// That each such answer is refused.
fn are_refused(rt: &impl Abort, alloc: Global, rows: &[Refused]) {
    for (behind, fault) in rows {
        let text = joined(&[
            b"d1:rd2:id20:abcdefghij0123456789",
            behind,
            b"e1:t2:aa1:y1:re",
        ]);
        refuses(rt, alloc, text.as_slice(), *fault);
    }
}

const LENGTHS: &[Refused] = &[
    (
        b"6:nodes637:mnopqrstuvwxyz123456AAAABBBBCCCCDDDDp",
        KrpcFault::Records {
            key: Key::Nodes6,
            len: 37,
        },
    ),
    (
        b"6:nodes626:mnopqrstuvwxyz123456\x7f\x00\x00\x01\x1a\xe1",
        KrpcFault::Records {
            key: Key::Nodes6,
            len: 26,
        },
    ),
    (
        b"7:snodes678:mnopqrstuvwxyz123456kkkkkkkkkkkkkkkkkkkkkkkkkkkkkkkkxxxxxxxxxxxxxxxxxxxx\x7f\x00\x00\x01\x1a\xe1",
        KrpcFault::Records {
            key: Key::Snodes6,
            len: 78,
        },
    ),
];

#[test]
fn records_of_another_length_are_refused(rt: HostRuntime) {
    are_refused(&rt, rt.alloc(), LENGTHS);
}

const SHAPES: &[Refused] = &[
    (b"6:nodes6le", KrpcFault::Shape { key: Key::Nodes6 }),
    (b"7:snodes6i0e", KrpcFault::Shape { key: Key::Snodes6 }),
];

#[test]
fn other_values_of_these_keys_are_refused(rt: HostRuntime) {
    are_refused(&rt, rt.alloc(), SHAPES);
}

const FIRSTS: &[Refused] = &[
    (
        b"6:nodes61:x6:snodes1:x",
        KrpcFault::Records {
            key: Key::Snodes,
            len: 1,
        },
    ),
    (
        b"6:nodes61:x7:snodes61:x",
        KrpcFault::Records {
            key: Key::Nodes6,
            len: 1,
        },
    ),
    (
        b"7:snodes61:x5:tokeni0e",
        KrpcFault::Records {
            key: Key::Snodes6,
            len: 1,
        },
    ),
];

/// The order is `snodes`, `nodes6`, `snodes6`, `token`, wherever they stand.
#[test]
fn the_first_step_that_fails_is_named(rt: HostRuntime) {
    are_refused(&rt, rt.alloc(), FIRSTS);
}

const PEERS: Row = (
    b"d1:rd2:id20:abcdefghij01234567896:valuesl18:AAAABBBBCCCCDDDD\x1a\xe117:AAAABBBBCCCCDDDD\x1a6:\x7f\x00\x00\x01\x1a\xe10:i6e19:AAAABBBBCCCCDDDD\x1a\xe1x5:\x7f\x00\x00\x01\x1al6:\x7f\x00\x00\x01\x1a\xe1e18:AAAABBBBCCCCDDDD\x1a\xe1ee1:t2:aa1:y1:re",
    Said::Answer(Parts {
        values: Some(&[THERE, HERE, THERE]),
        ..BARE
    }),
);

/// Peers of both networks stand in one list, in any order. Strings of other lengths and other values are passed over.
#[test]
fn peers_of_both_networks_are_read(rt: HostRuntime) {
    one_way(&rt, rt.alloc(), &PEERS);
}

const NODE6: Contact = Contact {
    id: MNO,
    addr: THERE,
};

const WHOLE: Row = (
    b"d1:rd2:id20:abcdefghij01234567895:nodes26:mnopqrstuvwxyz123456\x7f\x00\x00\x01\x1a\xe16:nodes638:mnopqrstuvwxyz123456AAAABBBBCCCCDDDD\x1a\xe16:snodes78:mnopqrstuvwxyz123456kkkkkkkkkkkkkkkkkkkkkkkkkkkkkkkkxxxxxxxxxxxxxxxxxxxx\x7f\x00\x00\x01\x1a\xe17:snodes690:mnopqrstuvwxyz123456kkkkkkkkkkkkkkkkkkkkkkkkkkkkkkkkxxxxxxxxxxxxxxxxxxxxAAAABBBBCCCCDDDD\x1a\xe15:token8:aoeusnth6:valuesl18:AAAABBBBCCCCDDDD\x1a\xe16:\x7f\x00\x00\x01\x1a\xe1ee1:t2:aa1:y1:re",
    Said::Answer(Parts {
        id: ABC,
        nodes: Some(&[NODE]),
        snodes: Some(&[Report {
            contact: NODE,
            proof: Some(PROOF),
        }]),
        nodes6: Some(&[NODE6]),
        snodes6: Some(&[Report {
            contact: NODE6,
            proof: Some(PROOF),
        }]),
        token: Some(b"aoeusnth"),
        values: Some(&[THERE, HERE]),
    }),
);

/// All parts, their keys ascending: each comes after the one that it begins with, and `nodes6` before `snodes`.
#[test]
fn a_whole_answer_is_read_and_written(rt: HostRuntime) {
    both_ways(&rt, rt.alloc(), &WHOLE);
}
