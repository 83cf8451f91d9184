//! A node that looks for several identifiers at once: what it asks, prints and answers meanwhile. The bytes were written from
//! BEP 5 by a script of their own, under the words that the generator of 32 zero bytes gives from the sixth on.
use crate::node::trial::Outside::{self, From, Often};
use crate::node::trial::Wanted::{Events, Sends};
use crate::node::trial::{SILENT, Told, Trial, all_play, meets, plays};
use crate::node::{ANSWER_1, CONTACT_1, STRANGER};
use std::test::Fail;
use trial_kit::LINE_1;

/// The node of ones, whose lookups have one path each.
pub const NODE: &[&str] = &[
    "node",
    "--own",
    "ffffffffffffffffffffffffffffffffffffffff",
    "--paths",
    "1",
];

/// The same, for one receive call and for three.
const ONE: &[&str] = &[
    "node",
    "--own",
    "ffffffffffffffffffffffffffffffffffffffff",
    "--paths",
    "1",
    "--receives",
    "1",
];

const THREE: &[&str] = &[
    "node",
    "--own",
    "ffffffffffffffffffffffffffffffffffffffff",
    "--paths",
    "1",
    "--receives",
    "3",
];

/// The same where puzzles are wanted.
const PUZZLED: &[&str] = &[
    "node",
    "--own",
    "ffffffffffffffffffffffffffffffffffffffff",
    "--paths",
    "1",
    "--c1",
    "0",
    "--c2",
    "8",
];

/// The same in the group whose key is 32 zero bytes.
const GROUPED: &[&str] = &[
    "node",
    "--own",
    "ffffffffffffffffffffffffffffffffffffffff",
    "--paths",
    "1",
    "--group",
    "0000000000000000000000000000000000000000000000000000000000000000",
];

/// Contact 1, the identifier 0 and the identifier 2.
const TWO_FINDS: &str =
    "0000000000000000000000000000000000000001 127.0.0.1:6001\nfind 0000000000000000000000000000000000000000\nfind 0000000000000000000000000000000000000002\n";

/// Contact 1 and the identifier 0.
pub const ONE_FIND: &str =
    "0000000000000000000000000000000000000001 127.0.0.1:6001\nfind 0000000000000000000000000000000000000000\n";

const FIND_0: &str = "find 0000000000000000000000000000000000000000\n";

/// Both lookups found contact 1, and the node answered nobody.
const BOTH_FOUND: &str =
    "find 0000000000000000000000000000000000000000\n0000000000000000000000000000000000000001 127.0.0.1:6001\nfound 1 asked 1 failed 0 turned 0\nfind 0000000000000000000000000000000000000002\n0000000000000000000000000000000000000001 127.0.0.1:6001\nfound 1 asked 1 failed 0 turned 0\nreceived 2 replied 0\n";

/// The same where it answered one query.
const BOTH_AND_ONE_REPLY: &str =
    "find 0000000000000000000000000000000000000000\n0000000000000000000000000000000000000001 127.0.0.1:6001\nfound 1 asked 1 failed 0 turned 0\nfind 0000000000000000000000000000000000000002\n0000000000000000000000000000000000000001 127.0.0.1:6001\nfound 1 asked 1 failed 0 turned 0\nreceived 3 replied 1\n";

/// Contact 4 is nearer to the identifier 2 than contact 3 is, and contact 1 is the nearest.
const EACH_FOUND_ANOTHER: &str =
    "find 0000000000000000000000000000000000000000\n0000000000000000000000000000000000000001 127.0.0.1:6001\n0000000000000000000000000000000000000003 127.0.0.1:6003\nfound 2 asked 2 failed 0 turned 0\nfind 0000000000000000000000000000000000000002\n0000000000000000000000000000000000000001 127.0.0.1:6001\n0000000000000000000000000000000000000004 127.0.0.1:6004\nfound 2 asked 2 failed 0 turned 0\nreceived 4 replied 0\n";

const ONE_FOUND: &str =
    "find 0000000000000000000000000000000000000000\n0000000000000000000000000000000000000001 127.0.0.1:6001\nfound 1 asked 1 failed 0 turned 0\nreceived 1 replied 0\n";

/// The query for the identifier 0, under the sixth word, without `ro`.
const QUERY_0: &[u8] =
    b"d1:ad2:id20:\xff\xff\xff\xff\xff\xff\xff\xff\xff\xff\xff\xff\xff\xff\xff\xff\xff\xff\xff\xff6:target20:\0\0\0\0\0\0\0\0\0\0\0\0\0\0\0\0\0\0\0\0e1:q9:find_node1:t4:\xa0\x8d\xed\x1a1:y1:qe";

/// The query for the identifier 2, under the seventh word.
const QUERY_2: &[u8] =
    b"d1:ad2:id20:\xff\xff\xff\xff\xff\xff\xff\xff\xff\xff\xff\xff\xff\xff\xff\xff\xff\xff\xff\xff6:target20:\0\0\0\0\0\0\0\0\0\0\0\0\0\0\0\0\0\0\0\x02e1:q9:find_node1:t4:\xa86\xef\xcc1:y1:qe";

/// Contact 1 answers the second query, and names nobody.
pub const SECOND: &[u8] =
    b"d1:rd2:id20:\0\0\0\0\0\0\0\0\0\0\0\0\0\0\0\0\0\0\0\x01e1:t4:\xa86\xef\xcc1:y1:re";

/// Contact 1 answers the first query with contact 3, and the second with contact 4.
pub const NAMING_3: &[u8] =
    b"d1:rd2:id20:\0\0\0\0\0\0\0\0\0\0\0\0\0\0\0\0\0\0\0\x015:nodes26:\0\0\0\0\0\0\0\0\0\0\0\0\0\0\0\0\0\0\0\x03\x7f\0\0\x01\x17se1:t4:\xa0\x8d\xed\x1a1:y1:re";

const NAMING_4: &[u8] =
    b"d1:rd2:id20:\0\0\0\0\0\0\0\0\0\0\0\0\0\0\0\0\0\0\0\x015:nodes26:\0\0\0\0\0\0\0\0\0\0\0\0\0\0\0\0\0\0\0\x04\x7f\0\0\x01\x17te1:t4:\xa86\xef\xcc1:y1:re";

/// Contacts 3 and 4 answer the third query and the fourth.
const OF_3: &[u8] =
    b"d1:rd2:id20:\0\0\0\0\0\0\0\0\0\0\0\0\0\0\0\0\0\0\0\x03e1:t4:\x8bw\x0d\xc71:y1:re";

const OF_4: &[u8] = b"d1:rd2:id20:\0\0\0\0\0\0\0\0\0\0\0\0\0\0\0\0\0\0\0\x04e1:t4:\xdaAY|1:y1:re";

/// What a stranger asks, who has the identifier `abcdefghij0123456789` of BEP 5's examples, and the reply.
pub const PING: &[u8] = b"d1:ad2:id20:abcdefghij0123456789e1:q4:ping1:t2:aa1:y1:qe";

pub const PONG: &[u8] =
    b"d1:rd2:id20:\xff\xff\xff\xff\xff\xff\xff\xff\xff\xff\xff\xff\xff\xff\xff\xff\xff\xff\xff\xffe1:t2:aa1:y1:re";

/// The datagrams of a node whose two queries are answered at moment 10.
const ANSWERS: &[Outside<'static>] = &[From(10, 6001, ANSWER_1), From(10, 6001, SECOND)];

/// A node whose two lookups find contact 1.
const FOUND: Trial<'static> = Trial {
    words: NODE,
    input: TWO_FINDS,
    outside: ANSWERS,
    text: BOTH_FOUND,
    ..SILENT
};

#[test]
fn two_lookups_ask_one_contact_under_words_of_their_own(rt: HostRuntime) -> Result<(), Fail> {
    const TRIAL: &Trial<'static> = &Trial {
        told: Sends(2, &[(0, 6001, QUERY_0), (1, 6001, QUERY_2)]),
        ..FOUND
    };
    plays(&rt, TRIAL)
}

/// It asks for the moment and sends both queries. The first receive of a round waits until the earliest deadline, the others
/// for nothing; the reply goes out at once.
#[test]
fn a_node_that_looks_up_answers_a_stranger(rt: HostRuntime) -> Result<(), Fail> {
    const TRIAL: &Trial<'static> = &Trial {
        outside: &[
            From(5, 7000, PING),
            From(10, 6001, ANSWER_1),
            From(10, 6001, SECOND),
        ],
        text: BOTH_AND_ONE_REPLY,
        told: Events(&[
            Told::Now { at: 0 },
            Told::Sent {
                to: CONTACT_1,
                bytes: QUERY_0,
            },
            Told::Sent {
                to: CONTACT_1,
                bytes: QUERY_2,
            },
            Told::Got {
                from: STRANGER,
                bytes: PING,
                until: 2000,
                at: 5,
            },
            Told::Sent {
                to: STRANGER,
                bytes: PONG,
            },
            Told::Quiet { until: 5, at: 5 },
            Told::Got {
                from: CONTACT_1,
                bytes: ANSWER_1,
                until: 2000,
                at: 10,
            },
            Told::Got {
                from: CONTACT_1,
                bytes: SECOND,
                until: 10,
                at: 10,
            },
        ]),
        ..FOUND
    };
    plays(&rt, TRIAL)
}

/// Each lookup learns of another contact, and both answers come in one round.
const EACH_FINDS_ANOTHER: Trial<'static> = Trial {
    outside: &[
        From(10, 6001, NAMING_3),
        From(10, 6001, NAMING_4),
        From(20, 6003, OF_3),
        From(20, 6004, OF_4),
    ],
    text: EACH_FOUND_ANOTHER,
    ..FOUND
};

/// A node whose lookups settle one after the other fails here.
#[test]
fn the_checks_of_two_lookups_run_at_once(rt: HostRuntime) -> Result<(), Fail> {
    const TRIAL: &Trial<'static> = &EACH_FINDS_ANOTHER;
    meets(&rt, TRIAL)
}

/// What one lookup is told no other takes up.
#[test]
fn each_lookup_goes_by_its_own_answers(rt: HostRuntime) -> Result<(), Fail> {
    const TRIAL: &Trial<'static> = &EACH_FINDS_ANOTHER;
    plays(&rt, TRIAL)
}

/// Contact 4 answers the third query.
const THIRD_OF_4: &[u8] =
    b"d1:rd2:id20:\0\0\0\0\0\0\0\0\0\0\0\0\0\0\0\0\0\0\0\x04e1:t4:\x8bw\x0d\xc71:y1:re";

/// The first lookup is over at moment 10, and the second asks on.
#[test]
fn a_lookup_may_outlast_the_first(rt: HostRuntime) -> Result<(), Fail> {
    const TRIAL: &Trial<'static> = &Trial {
        outside: &[
            From(10, 6001, ANSWER_1),
            From(10, 6001, NAMING_4),
            From(30, 6004, THIRD_OF_4),
        ],
        text: "find 0000000000000000000000000000000000000000\n0000000000000000000000000000000000000001 127.0.0.1:6001\nfound 1 asked 1 failed 0 turned 0\nfind 0000000000000000000000000000000000000002\n0000000000000000000000000000000000000001 127.0.0.1:6001\n0000000000000000000000000000000000000004 127.0.0.1:6004\nfound 2 asked 2 failed 0 turned 0\nreceived 3 replied 0\n",
        ..FOUND
    };
    plays(&rt, TRIAL)
}

/// Lines for seventeen identifiers, the last byte of each four times its place, and one of contact 1.
const SEVENTEEN_FINDS: &str = "\
find 0000000000000000000000000000000000000000\n\
find 0000000000000000000000000000000000000004\n\
find 0000000000000000000000000000000000000008\n\
find 000000000000000000000000000000000000000c\n\
find 0000000000000000000000000000000000000010\n\
find 0000000000000000000000000000000000000014\n\
find 0000000000000000000000000000000000000018\n\
find 000000000000000000000000000000000000001c\n\
find 0000000000000000000000000000000000000020\n\
find 0000000000000000000000000000000000000024\n\
find 0000000000000000000000000000000000000028\n\
find 000000000000000000000000000000000000002c\n\
find 0000000000000000000000000000000000000030\n\
find 0000000000000000000000000000000000000034\n\
find 0000000000000000000000000000000000000038\n\
find 000000000000000000000000000000000000003c\n\
find 0000000000000000000000000000000000000040\n\
0000000000000000000000000000000000000001 127.0.0.1:6001\n";

/// A node that hears nobody and refuses its first line.
const BAD_LINE: Trial<'static> = Trial {
    outside: &[],
    status: 3,
    text: "bad line 1\n",
    ..FOUND
};

#[test]
fn a_seventeenth_identifier_is_a_bad_line(rt: HostRuntime) -> Result<(), Fail> {
    const TRIAL: &Trial<'static> = &Trial {
        input: SEVENTEEN_FINDS,
        text: "bad line 17\n",
        ..BAD_LINE
    };
    plays(&rt, TRIAL)
}

/// A digit is missing, one is too many, the word is another, and a blank comes after it or twice before it.
#[test]
fn what_only_looks_like_a_find_line_is_bad(rt: HostRuntime) -> Result<(), Fail> {
    const TRIALS: &[Trial<'static>] = &[
        Trial {
            input: "find 000000000000000000000000000000000000000",
            ..BAD_LINE
        },
        Trial {
            input: "#\nfind 00000000000000000000000000000000000000000\n",
            text: "bad line 2\n",
            ..BAD_LINE
        },
        Trial {
            input: "FIND 0000000000000000000000000000000000000000\n",
            ..BAD_LINE
        },
        Trial {
            input: "find 0000000000000000000000000000000000000000 \n",
            ..BAD_LINE
        },
        Trial {
            input: "find  0000000000000000000000000000000000000000\n",
            ..BAD_LINE
        },
    ];
    all_play(&rt, TRIALS)
}

/// It needs somebody to ask where it looks for something, and else nobody.
#[test]
fn a_node_without_contacts(rt: HostRuntime) -> Result<(), Fail> {
    const NOTHING_TO_FIND: Trial<'static> = Trial {
        input: "",
        outside: &[],
        text: "received 0 replied 0\n",
        ..FOUND
    };
    const TRIALS: &[Trial<'static>] = &[
        Trial {
            input: FIND_0,
            outside: &[],
            status: 8,
            text: "no seeds\n",
            ..FOUND
        },
        NOTHING_TO_FIND,
        Trial {
            input: LINE_1,
            ..NOTHING_TO_FIND
        },
    ];
    all_play(&rt, TRIALS)
}

/// A lookup takes them too: the digits are printed in lower case.
#[test]
fn digits_of_either_case_and_line_ends(rt: HostRuntime) -> Result<(), Fail> {
    const TRIAL: &Trial<'static> = &Trial {
        input: "# whom\r\n\r\n0000000000000000000000000000000000000001 127.0.0.1:6001\r\nfind ABCDEFabcdef000000000000000000000000000F\r\n",
        text: "find abcdefabcdef000000000000000000000000000f\n0000000000000000000000000000000000000001 127.0.0.1:6001\nfound 1 asked 1 failed 0 turned 0\nreceived 1 replied 0\n",
        ..FOUND
    };
    plays(&rt, TRIAL)
}

/// The first while a query is open, and the third when both lookups are over.
#[test]
fn a_failed_receive_ends_the_node(rt: HostRuntime) -> Result<(), Fail> {
    const TRIALS: &[Trial<'static>] = &[
        Trial {
            broken: &[0],
            status: 4,
            text: "link fault\n",
            ..FOUND
        },
        Trial {
            words: THREE,
            broken: &[2],
            status: 4,
            text: "link fault\n",
            ..FOUND
        },
    ];
    all_play(&rt, TRIALS)
}

#[test]
fn silence_fails_both_lookups(rt: HostRuntime) -> Result<(), Fail> {
    const TRIAL: &Trial<'static> = &Trial {
        outside: &[],
        text: "find 0000000000000000000000000000000000000000\nfound 0 asked 1 failed 1 turned 0\nfind 0000000000000000000000000000000000000002\nfound 0 asked 1 failed 1 turned 0\nreceived 0 replied 0\n",
        ..FOUND
    };
    plays(&rt, TRIAL)
}

/// The second answer is heard by its own lookup alone, and the first lookup's contact is lost.
#[test]
fn an_answer_to_one_query_is_none_to_another(rt: HostRuntime) -> Result<(), Fail> {
    const TRIAL: &Trial<'static> = &Trial {
        outside: &[From(10, 6001, SECOND), From(20, 6001, SECOND)],
        text: "find 0000000000000000000000000000000000000000\nfound 0 asked 1 failed 1 turned 0\nfind 0000000000000000000000000000000000000002\n0000000000000000000000000000000000000001 127.0.0.1:6001\nfound 1 asked 1 failed 0 turned 0\nreceived 2 replied 0\n",
        ..FOUND
    };
    plays(&rt, TRIAL)
}

#[test]
fn a_node_of_one_receive_answers_one_query(rt: HostRuntime) -> Result<(), Fail> {
    const TRIAL: &Trial<'static> = &Trial {
        words: ONE,
        input: "",
        outside: &[From(10, 7000, PING), From(20, 7000, PING)],
        text: "received 1 replied 1\n",
        told: Sends(1, &[(0, 7000, PONG)]),
        ..FOUND
    };
    plays(&rt, TRIAL)
}

/// Two receives of three bring the answers, and the third a query.
#[test]
fn receives_count_from_the_beginning(rt: HostRuntime) -> Result<(), Fail> {
    const TRIAL: &Trial<'static> = &Trial {
        words: THREE,
        outside: &[
            From(10, 6001, ANSWER_1),
            From(10, 6001, SECOND),
            From(20, 7000, PING),
            From(30, 7000, PING),
            From(40, 7000, PING),
        ],
        text: BOTH_AND_ONE_REPLY,
        told: Sends(3, &[(2, 7000, PONG)]),
        ..FOUND
    };
    plays(&rt, TRIAL)
}

/// The lookups go on to their ends, however few receives are wanted.
#[test]
fn the_lookups_may_need_more_receives(rt: HostRuntime) -> Result<(), Fail> {
    const TRIAL: &Trial<'static> = &Trial {
        words: ONE,
        ..FOUND
    };
    plays(&rt, TRIAL)
}

/// After the last answer it waits for a minute from the last moment that it was told.
#[test]
fn a_node_that_nobody_asks_waits_for_a_minute(rt: HostRuntime) -> Result<(), Fail> {
    const TRIAL: &Trial<'static> = &Trial {
        words: ONE,
        input: "",
        outside: &[],
        text: "received 0 replied 0\n",
        told: Events(&[
            Told::Now { at: 0 },
            Told::Quiet {
                until: 60_000,
                at: 60_000,
            },
        ]),
        ..FOUND
    };
    plays(&rt, TRIAL)
}

/// A query for the identifier of zeros, and the reply that names contacts 1 and 3.
const FIND: &[u8] =
    b"d1:ad2:id20:abcdefghij01234567896:target20:\0\0\0\0\0\0\0\0\0\0\0\0\0\0\0\0\0\0\0\0e1:q9:find_node1:t2:aa1:y1:qe";

const FOUND_1_AND_3: &[u8] =
    b"d1:rd2:id20:\xff\xff\xff\xff\xff\xff\xff\xff\xff\xff\xff\xff\xff\xff\xff\xff\xff\xff\xff\xff5:nodes52:\0\0\0\0\0\0\0\0\0\0\0\0\0\0\0\0\0\0\0\x01\x7f\0\0\x01\x17q\0\0\0\0\0\0\0\0\0\0\0\0\0\0\0\0\0\0\0\x03\x7f\0\0\x01\x17se1:t2:aa1:y1:re";

/// The node serves from the table that its lookups tell: contact 3 answered, so the reply names it.
#[test]
fn the_table_is_told_who_answered_a_lookup(rt: HostRuntime) -> Result<(), Fail> {
    const TRIAL: &Trial<'static> = &Trial {
        words: THREE,
        input: ONE_FIND,
        outside: &[
            From(10, 6001, NAMING_3),
            From(20, 6003, OF_3_ALONE),
            From(30, 7000, FIND),
        ],
        text: "find 0000000000000000000000000000000000000000\n0000000000000000000000000000000000000001 127.0.0.1:6001\n0000000000000000000000000000000000000003 127.0.0.1:6003\nfound 2 asked 2 failed 0 turned 0\nreceived 3 replied 1\n",
        told: Sends(3, &[(2, 7000, FOUND_1_AND_3)]),
        ..FOUND
    };
    plays(&rt, TRIAL)
}

/// The reply to it that names nobody.
const FOUND_NOBODY: &[u8] =
    b"d1:rd2:id20:\xff\xff\xff\xff\xff\xff\xff\xff\xff\xff\xff\xff\xff\xff\xff\xff\xff\xff\xff\xff5:nodes0:e1:t2:aa1:y1:re";

/// Contact 1 is late for each lookup, so it failed twice, and the table drops it.
#[test]
fn the_table_is_told_who_was_late_for_each_lookup(rt: HostRuntime) -> Result<(), Fail> {
    const TRIAL: &Trial<'static> = &Trial {
        words: THREE,
        outside: &[From(2100, 7000, FIND)],
        text: "find 0000000000000000000000000000000000000000\nfound 0 asked 1 failed 1 turned 0\nfind 0000000000000000000000000000000000000002\nfound 0 asked 1 failed 1 turned 0\nreceived 1 replied 1\n",
        told: Sends(3, &[(2, 7000, FOUND_NOBODY)]),
        ..FOUND
    };
    plays(&rt, TRIAL)
}

/// Contact 3 answers the second query of a node with one lookup.
pub const OF_3_ALONE: &[u8] =
    b"d1:rd2:id20:\0\0\0\0\0\0\0\0\0\0\0\0\0\0\0\0\0\0\0\x03e1:t4:\xa86\xef\xcc1:y1:re";

/// The two nodes with proofs answer the first query and the second.
const OF_NEARER: &[u8] =
    b"d1:rd2:id20:\xa3\xf8\xd0\x18\xd1^\xaey\xbdQ\x9f\xbe\xf9\x8c^<\xfb#6\x9ee1:t4:\xa0\x8d\xed\x1a1:y1:re";

const OF_FARTHER: &[u8] =
    b"d1:rd2:id20:\xf8\xb3j\xfa\xa8.\xfd\xb7#\x98\x84\xa0)l\x9e \x9d\xb1\xc4\xb0e1:t4:\xa86\xef\xcc1:y1:re";

/// Two nodes with their proofs, as `PROVED_LINES` has them, contact 1 and the identifier 0.
const PROVED_LINES_AND_FIND: &str = "\
f8b36afaa82efdb7239884a0296c9e209db1c4b0 127.0.0.1:6001 023f37203a2476c42566a61cc55c3ca875dbb4cc41c0deb789f8e7bf88183638 0000000000000000000000000000000000000067\n\
a3f8d018d15eae79bd519fbef98c5e3cfb23369e 127.0.0.1:6002 f6a12ca8ffc30a66ca140ccc7276336115819361186d3f535dd99f8eaaca8fce 00000000000000000000000000000000000000c5\n\
0000000000000000000000000000000000000001 127.0.0.1:6001\n\
find 0000000000000000000000000000000000000000\n";

/// Who has no proof is not asked, and who has one is.
#[test]
fn a_node_that_wants_puzzles_asks_who_solved_them(rt: HostRuntime) -> Result<(), Fail> {
    const TRIALS: &[Trial<'static>] = &[
        Trial {
            words: PUZZLED,
            input: PROVED_LINES_AND_FIND,
            outside: &[From(10, 6002, OF_NEARER), From(10, 6001, OF_FARTHER)],
            text: "find 0000000000000000000000000000000000000000\na3f8d018d15eae79bd519fbef98c5e3cfb23369e 127.0.0.1:6002\nf8b36afaa82efdb7239884a0296c9e209db1c4b0 127.0.0.1:6001\nfound 2 asked 2 failed 0 turned 0\nreceived 2 replied 0\n",
            ..FOUND
        },
        Trial {
            words: PUZZLED,
            input: ONE_FIND,
            outside: &[],
            status: 8,
            text: "no seeds\n",
            ..FOUND
        },
    ];
    all_play(&rt, TRIALS)
}

/// The answer of contact 1, and the pong, with the tags of the group, as Python's `hmac` makes them.
const TAGGED: &[u8] =
    b"d1:rd2:id20:\0\0\0\0\0\0\0\0\0\0\0\0\0\0\0\0\0\0\0\x01e2:sg20:6T\x1bC\x1cM, N\xf3@\xf9\x1f\xaa{\x16v\x93/p1:t4:\xa0\x8d\xed\x1a1:y1:re";

const TAGGED_PONG: &[u8] =
    b"d1:rd2:id20:\xff\xff\xff\xff\xff\xff\xff\xff\xff\xff\xff\xff\xff\xff\xff\xff\xff\xff\xff\xffe2:sg20:-\x9e\xe4Y\x1bD\x13\xbet\xf1\x94-=0\x1fC@\xfa\x0ag1:t2:aa1:y1:re";

/// An answer without the tag is for no lookup, and a stranger's query needs none.
#[test]
fn a_member_believes_tags_and_tags_what_it_says(rt: HostRuntime) -> Result<(), Fail> {
    const TRIAL: &Trial<'static> = &Trial {
        words: GROUPED,
        input: ONE_FIND,
        outside: &[
            From(5, 6001, ANSWER_1),
            From(6, 7000, PING),
            From(10, 6001, TAGGED),
        ],
        text: "find 0000000000000000000000000000000000000000\n0000000000000000000000000000000000000001 127.0.0.1:6001\nfound 1 asked 1 failed 0 turned 0\nreceived 3 replied 1\n",
        told: Sends(2, &[(0, 6001, QUERY_0), (1, 7000, TAGGED_PONG)]),
        ..FOUND
    };
    plays(&rt, TRIAL)
}

#[test]
fn the_millionth_stranger_ends_the_lookups(rt: HostRuntime) -> Result<(), Fail> {
    const TRIAL: &Trial<'static> = &Trial {
        outside: &[Often(1, 6001, b"x", 1_000_000)],
        status: 7,
        text: "strays\n",
        ..FOUND
    };
    plays(&rt, TRIAL)
}
