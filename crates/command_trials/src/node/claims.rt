//! From when on a contact is a path's, over a scripted link: once it is named to the path, or once the path asks it. In the first
//! network two paths learn the same contacts. In the second the seed of the first path is hostile, and names live contacts of its
//! own next to the target together with the honest ones that the other path will be told of. What is asked when was worked out by
//! hand; the bytes were written from BEP 5 and BEP 44 by a script of their own. The transaction ids are the words from the sixth on
//! of ChaCha20's key stream for a key of zeros (RFC 8439, A.1), and the token of contact n is `t` and its number.
use crate::node::trial::Outside::{self, From};
use crate::node::trial::Wanted::Sends;
use crate::node::trial::{SILENT, Trial, all_play, plays};
use std::test::Fail;

/// A lookup of zeros by the node of ones, on two paths that look for two contacts and ask one at a time.
const USUAL: &[&str] = &[
    "lookup",
    "--target",
    "0000000000000000000000000000000000000000",
    "--own",
    "ffffffffffffffffffffffffffffffffffffffff",
    "--paths",
    "2",
    "--k",
    "2",
    "--alpha",
    "1",
];

/// The same with a word that says from when on a contact is a path's.
const NAMED: &[&str] = &[
    "lookup",
    "--target",
    "0000000000000000000000000000000000000000",
    "--own",
    "ffffffffffffffffffffffffffffffffffffffff",
    "--paths",
    "2",
    "--k",
    "2",
    "--alpha",
    "1",
    "--claim",
    "named",
];

const ASKED: &[&str] = &[
    "lookup",
    "--target",
    "0000000000000000000000000000000000000000",
    "--own",
    "ffffffffffffffffffffffffffffffffffffffff",
    "--paths",
    "2",
    "--k",
    "2",
    "--alpha",
    "1",
    "--claim",
    "asked",
];

/// A search for the item `5:hello`, and the same where an ask is what claims a contact.
const GET: &[&str] = &[
    "get",
    "--key",
    "e28910ea0adb94dd45ced75fbff3e135c01bc437",
    "--own",
    "ffffffffffffffffffffffffffffffffffffffff",
    "--paths",
    "2",
    "--k",
    "2",
    "--alpha",
    "1",
];

const GET_ASKED: &[&str] = &[
    "get",
    "--key",
    "e28910ea0adb94dd45ced75fbff3e135c01bc437",
    "--own",
    "ffffffffffffffffffffffffffffffffffffffff",
    "--paths",
    "2",
    "--k",
    "2",
    "--alpha",
    "1",
    "--claim",
    "asked",
];

/// The item is stored at each path's closest contacts.
const STORE: &[&str] = &[
    "put",
    "--value",
    "353a68656c6c6f",
    "--spread",
    "yes",
    "--own",
    "ffffffffffffffffffffffffffffffffffffffff",
    "--paths",
    "2",
    "--k",
    "2",
    "--alpha",
    "1",
];

const STORE_ASKED: &[&str] = &[
    "put",
    "--value",
    "353a68656c6c6f",
    "--spread",
    "yes",
    "--own",
    "ffffffffffffffffffffffffffffffffffffffff",
    "--paths",
    "2",
    "--k",
    "2",
    "--alpha",
    "1",
    "--claim",
    "asked",
];

/// The lines of contacts 8 and 9.
const LINES_8_AND_9: &str =
    "0000000000000000000000000000000000000008 127.0.0.1:6008\n0000000000000000000000000000000000000009 127.0.0.1:6009\n";

/// The lines of contacts 10 and 11.
const LINES_10_AND_11: &str =
    "000000000000000000000000000000000000000a 127.0.0.1:6010\n000000000000000000000000000000000000000b 127.0.0.1:6011\n";

/// The lines of contacts 1 and 2.
const LINES_1_AND_2: &str =
    "0000000000000000000000000000000000000001 127.0.0.1:6001\n0000000000000000000000000000000000000002 127.0.0.1:6002\n";

/// Contact 8 answers the first query and names contacts 1, 2 and 3; contact 9 answers the second and names 1 and 2.
const BY_8: &[u8] =
    b"d1:rd2:id20:\0\0\0\0\0\0\0\0\0\0\0\0\0\0\0\0\0\0\0\x085:nodes78:\0\0\0\0\0\0\0\0\0\0\0\0\0\0\0\0\0\0\0\x01\x7f\0\0\x01\x17q\0\0\0\0\0\0\0\0\0\0\0\0\0\0\0\0\0\0\0\x02\x7f\0\0\x01\x17r\0\0\0\0\0\0\0\0\0\0\0\0\0\0\0\0\0\0\0\x03\x7f\0\0\x01\x17se1:t4:\xa0\x8d\xed\x1a1:y1:re";

const BY_9: &[u8] =
    b"d1:rd2:id20:\0\0\0\0\0\0\0\0\0\0\0\0\0\0\0\0\0\0\0\x095:nodes52:\0\0\0\0\0\0\0\0\0\0\0\0\0\0\0\0\0\0\0\x01\x7f\0\0\x01\x17q\0\0\0\0\0\0\0\0\0\0\0\0\0\0\0\0\0\0\0\x02\x7f\0\0\x01\x17re1:t4:\xa86\xef\xcc1:y1:re";

/// Contact 1 answers the third, and contact 2 the fourth; where contact 3 is asked, it answers the fifth.
const BY_1: &[u8] =
    b"d1:rd2:id20:\0\0\0\0\0\0\0\0\0\0\0\0\0\0\0\0\0\0\0\x015:nodes0:e1:t4:\x8bw\x0d\xc71:y1:re";

const BY_2: &[u8] =
    b"d1:rd2:id20:\0\0\0\0\0\0\0\0\0\0\0\0\0\0\0\0\0\0\0\x025:nodes0:e1:t4:\xdaAY|1:y1:re";

const BY_3: &[u8] =
    b"d1:rd2:id20:\0\0\0\0\0\0\0\0\0\0\0\0\0\0\0\0\0\0\0\x035:nodes0:e1:t4:QWH\x8d1:y1:re";

/// The queries of a lookup, in their order.
const FIRST: &[u8] =
    b"d1:ad2:id20:\xff\xff\xff\xff\xff\xff\xff\xff\xff\xff\xff\xff\xff\xff\xff\xff\xff\xff\xff\xff6:target20:\0\0\0\0\0\0\0\0\0\0\0\0\0\0\0\0\0\0\0\0e1:q9:find_node2:roi1e1:t4:\xa0\x8d\xed\x1a1:y1:qe";

const SECOND: &[u8] =
    b"d1:ad2:id20:\xff\xff\xff\xff\xff\xff\xff\xff\xff\xff\xff\xff\xff\xff\xff\xff\xff\xff\xff\xff6:target20:\0\0\0\0\0\0\0\0\0\0\0\0\0\0\0\0\0\0\0\0e1:q9:find_node2:roi1e1:t4:\xa86\xef\xcc1:y1:qe";

const THIRD: &[u8] =
    b"d1:ad2:id20:\xff\xff\xff\xff\xff\xff\xff\xff\xff\xff\xff\xff\xff\xff\xff\xff\xff\xff\xff\xff6:target20:\0\0\0\0\0\0\0\0\0\0\0\0\0\0\0\0\0\0\0\0e1:q9:find_node2:roi1e1:t4:\x8bw\x0d\xc71:y1:qe";

const FOURTH: &[u8] =
    b"d1:ad2:id20:\xff\xff\xff\xff\xff\xff\xff\xff\xff\xff\xff\xff\xff\xff\xff\xff\xff\xff\xff\xff6:target20:\0\0\0\0\0\0\0\0\0\0\0\0\0\0\0\0\0\0\0\0e1:q9:find_node2:roi1e1:t4:\xdaAY|1:y1:qe";

const FIFTH: &[u8] =
    b"d1:ad2:id20:\xff\xff\xff\xff\xff\xff\xff\xff\xff\xff\xff\xff\xff\xff\xff\xff\xff\xff\xff\xff6:target20:\0\0\0\0\0\0\0\0\0\0\0\0\0\0\0\0\0\0\0\0e1:q9:find_node2:roi1e1:t4:QWH\x8d1:y1:qe";

const SIXTH: &[u8] =
    b"d1:ad2:id20:\xff\xff\xff\xff\xff\xff\xff\xff\xff\xff\xff\xff\xff\xff\xff\xff\xff\xff\xff\xff6:target20:\0\0\0\0\0\0\0\0\0\0\0\0\0\0\0\0\0\0\0\0e1:q9:find_node2:roi1e1:t4:w$\xe0?1:y1:qe";

/// Contacts 8 and 9 begin the paths. Contact 8 is heard first, so the first path takes what it names, and asks contact 1. What contact 9
/// names the second path has not: contacts 1 and 2 are the first path's, which asks contact 2 next.
const TWICE_NAMED: Trial<'static> = Trial {
    words: USUAL,
    input: LINES_8_AND_9,
    outside: &[
        From(10, 6008, BY_8),
        From(20, 6009, BY_9),
        From(30, 6001, BY_1),
        From(40, 6002, BY_2),
    ],
    text: "0000000000000000000000000000000000000001 127.0.0.1:6001\n0000000000000000000000000000000000000002 127.0.0.1:6002\nfound 2 asked 4 failed 0 turned 0\n",
    told: Sends(
        4,
        &[
            (0, 6008, FIRST),
            (1, 6009, SECOND),
            (2, 6001, THIRD),
            (3, 6002, FOURTH),
        ],
    ),
    ..SILENT
};

#[test]
fn a_contact_is_the_path_s_that_it_is_named_to(rt: HostRuntime) -> Result<(), Fail> {
    const TRIALS: &[Trial<'static>] = &[
        TWICE_NAMED,
        Trial {
            words: NAMED,
            ..TWICE_NAMED
        },
    ];
    all_play(&rt, TRIALS)
}

/// Contact 1 was asked when contact 9 names it, and is held. Contact 2 was not: the second path takes it too, and asks it. So when
/// contact 1 was heard, the first path asks contact 3, the second of the two closest that are its own.
#[test]
fn a_contact_is_the_path_s_that_asks_it(rt: HostRuntime) -> Result<(), Fail> {
    const TRIAL: &Trial<'static> = &Trial {
        words: ASKED,
        outside: &[
            From(10, 6008, BY_8),
            From(20, 6009, BY_9),
            From(30, 6001, BY_1),
            From(40, 6002, BY_2),
            From(50, 6003, BY_3),
        ],
        text: "0000000000000000000000000000000000000001 127.0.0.1:6001\n0000000000000000000000000000000000000002 127.0.0.1:6002\nfound 2 asked 5 failed 0 turned 0\n",
        told: Sends(
            5,
            &[
                (0, 6008, FIRST),
                (1, 6009, SECOND),
                (2, 6001, THIRD),
                (3, 6002, FOURTH),
                (4, 6003, FIFTH),
            ],
        ),
        ..TWICE_NAMED
    };
    plays(&rt, TRIAL)
}

/// Contact 10 is hostile, begins the first path, and names contacts 1 and 2, which are hostile too, and 3 and 4.
const BY_10: &[u8] =
    b"d1:rd2:id20:\0\0\0\0\0\0\0\0\0\0\0\0\0\0\0\0\0\0\0\x0a5:nodes104:\0\0\0\0\0\0\0\0\0\0\0\0\0\0\0\0\0\0\0\x01\x7f\0\0\x01\x17q\0\0\0\0\0\0\0\0\0\0\0\0\0\0\0\0\0\0\0\x02\x7f\0\0\x01\x17r\0\0\0\0\0\0\0\0\0\0\0\0\0\0\0\0\0\0\0\x03\x7f\0\0\x01\x17s\0\0\0\0\0\0\0\0\0\0\0\0\0\0\0\0\0\0\0\x04\x7f\0\0\x01\x17te1:t4:\xa0\x8d\xed\x1a1:y1:re";

/// Contact 11 begins the second path, and names contacts 3 and 4.
const BY_11: &[u8] =
    b"d1:rd2:id20:\0\0\0\0\0\0\0\0\0\0\0\0\0\0\0\0\0\0\0\x0b5:nodes52:\0\0\0\0\0\0\0\0\0\0\0\0\0\0\0\0\0\0\0\x03\x7f\0\0\x01\x17s\0\0\0\0\0\0\0\0\0\0\0\0\0\0\0\0\0\0\0\x04\x7f\0\0\x01\x17te1:t4:\xa86\xef\xcc1:y1:re";

/// Where a name is a claim, contact 2 is asked behind contact 1.
const THEN_2: &[u8] =
    b"d1:rd2:id20:\0\0\0\0\0\0\0\0\0\0\0\0\0\0\0\0\0\0\0\x025:nodes0:e1:t4:\xdaAY|1:y1:re";

/// Where an ask is one, contacts 3, 2 and 4 are.
const FOURTH_BY_3: &[u8] =
    b"d1:rd2:id20:\0\0\0\0\0\0\0\0\0\0\0\0\0\0\0\0\0\0\0\x035:nodes0:e1:t4:\xdaAY|1:y1:re";

const FIFTH_BY_2: &[u8] =
    b"d1:rd2:id20:\0\0\0\0\0\0\0\0\0\0\0\0\0\0\0\0\0\0\0\x025:nodes0:e1:t4:QWH\x8d1:y1:re";

const SIXTH_BY_4: &[u8] =
    b"d1:rd2:id20:\0\0\0\0\0\0\0\0\0\0\0\0\0\0\0\0\0\0\0\x045:nodes0:e1:t4:w$\xe0?1:y1:re";

/// Contacts 3 and 4 are the first path's, which doesn't ask them, since contacts 1 and 2 are nearer; and the second path runs out.
const HIDDEN: Trial<'static> = Trial {
    input: LINES_10_AND_11,
    outside: &[
        From(10, 6010, BY_10),
        From(20, 6011, BY_11),
        From(30, 6001, BY_1),
        From(40, 6002, THEN_2),
    ],
    told: Sends(
        4,
        &[
            (0, 6010, FIRST),
            (1, 6011, SECOND),
            (2, 6001, THIRD),
            (3, 6002, FOURTH),
        ],
    ),
    ..TWICE_NAMED
};

#[test]
fn a_name_hides_honest_contacts(rt: HostRuntime) -> Result<(), Fail> {
    const TRIAL: &Trial<'static> = &HIDDEN;
    plays(&rt, TRIAL)
}

/// The second path takes contacts 3 and 4 and asks them, and the first asks contacts 1 and 2.
#[test]
fn a_name_hides_nobody_where_an_ask_is_the_claim(rt: HostRuntime) -> Result<(), Fail> {
    const TRIAL: &Trial<'static> = &Trial {
        words: ASKED,
        outside: &[
            From(10, 6010, BY_10),
            From(20, 6011, BY_11),
            From(30, 6001, BY_1),
            From(40, 6003, FOURTH_BY_3),
            From(50, 6002, FIFTH_BY_2),
            From(60, 6004, SIXTH_BY_4),
        ],
        text: "0000000000000000000000000000000000000001 127.0.0.1:6001\n0000000000000000000000000000000000000002 127.0.0.1:6002\nfound 2 asked 6 failed 0 turned 0\n",
        told: Sends(
            6,
            &[
                (0, 6010, FIRST),
                (1, 6011, SECOND),
                (2, 6001, THIRD),
                (3, 6003, FOURTH),
                (4, 6002, FIFTH),
                (5, 6004, SIXTH),
            ],
        ),
        ..HIDDEN
    };
    plays(&rt, TRIAL)
}

/// Of the key of `5:hello` contact 7 is the closest, then 6, 5 and so on. Contact 2 is hostile, begins the first path, and names
/// contacts 7 and 6, which are hostile too, and 5 and 4.
const ITEM_BY_2: &[u8] =
    b"d1:rd2:id20:\0\0\0\0\0\0\0\0\0\0\0\0\0\0\0\0\0\0\0\x025:nodes104:\0\0\0\0\0\0\0\0\0\0\0\0\0\0\0\0\0\0\0\x07\x7f\0\0\x01\x17w\0\0\0\0\0\0\0\0\0\0\0\0\0\0\0\0\0\0\0\x06\x7f\0\0\x01\x17v\0\0\0\0\0\0\0\0\0\0\0\0\0\0\0\0\0\0\0\x05\x7f\0\0\x01\x17u\0\0\0\0\0\0\0\0\0\0\0\0\0\0\0\0\0\0\0\x04\x7f\0\0\x01\x17t5:token2:t2e1:t4:\xa0\x8d\xed\x1a1:y1:re";

/// Contact 1 begins the second path, and names contacts 5 and 4.
const ITEM_BY_1: &[u8] =
    b"d1:rd2:id20:\0\0\0\0\0\0\0\0\0\0\0\0\0\0\0\0\0\0\0\x015:nodes52:\0\0\0\0\0\0\0\0\0\0\0\0\0\0\0\0\0\0\0\x05\x7f\0\0\x01\x17u\0\0\0\0\0\0\0\0\0\0\0\0\0\0\0\0\0\0\0\x04\x7f\0\0\x01\x17t5:token2:t1e1:t4:\xa86\xef\xcc1:y1:re";

/// Contacts 7 and 6 have nothing.
const ITEM_BY_7: &[u8] =
    b"d1:rd2:id20:\0\0\0\0\0\0\0\0\0\0\0\0\0\0\0\0\0\0\0\x075:nodes0:5:token2:t7e1:t4:\x8bw\x0d\xc71:y1:re";

const FOURTH_BY_6: &[u8] =
    b"d1:rd2:id20:\0\0\0\0\0\0\0\0\0\0\0\0\0\0\0\0\0\0\0\x065:nodes0:5:token2:t6e1:t4:\xdaAY|1:y1:re";

/// Contacts 5 and 4 have the item.
const FOURTH_BY_5: &[u8] =
    b"d1:rd2:id20:\0\0\0\0\0\0\0\0\0\0\0\0\0\0\0\0\0\0\0\x055:nodes0:5:token2:t51:v5:helloe1:t4:\xdaAY|1:y1:re";

const FIFTH_BY_6: &[u8] =
    b"d1:rd2:id20:\0\0\0\0\0\0\0\0\0\0\0\0\0\0\0\0\0\0\0\x065:nodes0:5:token2:t6e1:t4:QWH\x8d1:y1:re";

const SIXTH_BY_4_TOO: &[u8] =
    b"d1:rd2:id20:\0\0\0\0\0\0\0\0\0\0\0\0\0\0\0\0\0\0\0\x045:nodes0:5:token2:t41:v5:helloe1:t4:w$\xe0?1:y1:re";

const HIDDEN_ITEM: &[Outside<'static>] = &[
    From(10, 6002, ITEM_BY_2),
    From(20, 6001, ITEM_BY_1),
    From(30, 6007, ITEM_BY_7),
    From(40, 6006, FOURTH_BY_6),
];

const SHOWN_ITEM: &[Outside<'static>] = &[
    From(10, 6002, ITEM_BY_2),
    From(20, 6001, ITEM_BY_1),
    From(30, 6007, ITEM_BY_7),
    From(40, 6005, FOURTH_BY_5),
    From(50, 6006, FIFTH_BY_6),
    From(60, 6004, SIXTH_BY_4_TOO),
];

/// Who has the item is never asked.
#[test]
fn a_name_hides_a_value(rt: HostRuntime) -> Result<(), Fail> {
    const TRIAL: &Trial<'static> = &Trial {
        words: GET,
        input: LINES_1_AND_2,
        outside: HIDDEN_ITEM,
        text: "none\nfound 2 asked 4 failed 0 turned 0\n",
        ..SILENT
    };
    plays(&rt, TRIAL)
}

#[test]
fn a_value_is_found_where_an_ask_is_the_claim(rt: HostRuntime) -> Result<(), Fail> {
    const TRIAL: &Trial<'static> = &Trial {
        words: GET_ASKED,
        input: LINES_1_AND_2,
        outside: SHOWN_ITEM,
        text: "value 353a68656c6c6f\nfound 2 asked 6 failed 0 turned 0\n",
        ..SILENT
    };
    plays(&rt, TRIAL)
}

/// The item for contacts 7, 6 and 1 after four queries.
const GIVEN_7: &[u8] =
    b"d1:ad2:id20:\xff\xff\xff\xff\xff\xff\xff\xff\xff\xff\xff\xff\xff\xff\xff\xff\xff\xff\xff\xff5:token2:t71:v5:helloe1:q3:put2:roi1e1:t4:QWH\x8d1:y1:qe";

const GIVEN_6: &[u8] =
    b"d1:ad2:id20:\xff\xff\xff\xff\xff\xff\xff\xff\xff\xff\xff\xff\xff\xff\xff\xff\xff\xff\xff\xff5:token2:t61:v5:helloe1:q3:put2:roi1e1:t4:w$\xe0?1:y1:qe";

const GIVEN_1: &[u8] =
    b"d1:ad2:id20:\xff\xff\xff\xff\xff\xff\xff\xff\xff\xff\xff\xff\xff\xff\xff\xff\xff\xff\xff\xff5:token2:t11:v5:helloe1:q3:put2:roi1e1:t4:\xb8\xd8J71:y1:qe";

/// The item for contacts 7, 6, 5 and 4 after six.
const GIVEN_7_TOO: &[u8] =
    b"d1:ad2:id20:\xff\xff\xff\xff\xff\xff\xff\xff\xff\xff\xff\xff\xff\xff\xff\xff\xff\xff\xff\xff5:token2:t71:v5:helloe1:q3:put2:roi1e1:t4:\xb8\xd8J71:y1:qe";

const GIVEN_6_TOO: &[u8] =
    b"d1:ad2:id20:\xff\xff\xff\xff\xff\xff\xff\xff\xff\xff\xff\xff\xff\xff\xff\xff\xff\xff\xff\xff5:token2:t61:v5:helloe1:q3:put2:roi1e1:t4:jC\xb8\xf41:y1:qe";

const GIVEN_5: &[u8] =
    b"d1:ad2:id20:\xff\xff\xff\xff\xff\xff\xff\xff\xff\xff\xff\xff\xff\xff\xff\xff\xff\xff\xff\xff5:token2:t51:v5:helloe1:q3:put2:roi1e1:t4:\x15\x18\xa1\x1c1:y1:qe";

const GIVEN_4: &[u8] =
    b"d1:ad2:id20:\xff\xff\xff\xff\xff\xff\xff\xff\xff\xff\xff\xff\xff\xff\xff\xff\xff\xff\xff\xff5:token2:t41:v5:helloe1:q3:put2:roi1e1:t4:\xc3\x87\xb6i1:y1:qe";

/// The second path has contact 1 alone.
#[test]
fn a_name_keeps_puts_from_honest_contacts(rt: HostRuntime) -> Result<(), Fail> {
    const TRIAL: &Trial<'static> = &Trial {
        words: STORE,
        input: LINES_1_AND_2,
        outside: HIDDEN_ITEM,
        text: "key e28910ea0adb94dd45ced75fbff3e135c01bc437\nfound 2 asked 4 failed 0 turned 0 stored 3\n",
        told: Sends(
            7,
            &[(4, 6007, GIVEN_7), (5, 6006, GIVEN_6), (6, 6001, GIVEN_1)],
        ),
        ..SILENT
    };
    plays(&rt, TRIAL)
}

/// Contacts 5 and 4 are among the first path's too, but the second asked them: each of the four is told once.
#[test]
fn puts_reach_honest_contacts_where_an_ask_is_the_claim(rt: HostRuntime) -> Result<(), Fail> {
    const TRIAL: &Trial<'static> = &Trial {
        words: STORE_ASKED,
        input: LINES_1_AND_2,
        outside: SHOWN_ITEM,
        text: "key e28910ea0adb94dd45ced75fbff3e135c01bc437\nfound 2 asked 6 failed 0 turned 0 stored 4\n",
        told: Sends(
            10,
            &[
                (6, 6007, GIVEN_7_TOO),
                (7, 6006, GIVEN_6_TOO),
                (8, 6005, GIVEN_5),
                (9, 6004, GIVEN_4),
            ],
        ),
        ..SILENT
    };
    plays(&rt, TRIAL)
}
