//! Whole lookups and searches for peers over a scripted link, by `run`.
mod claims;
mod crowd;
mod drawn;
mod following;
mod grouped;
mod hostile;
mod ipv6;
mod items;
mod job_answers;
mod job_lines;
mod jobs;
mod lasting;
mod nodes;
mod one_address;
mod paths;
mod peering;
mod puzzled;
mod replies;
mod spread;
mod together;
mod trial;
mod vouched;

use crate::node::trial::Outside::{self, Answers, Names, Says};
use crate::node::trial::Wanted::{Events, Sends};
use crate::node::trial::{SILENT, Told, Trial, all_play, plays};
use kad_base::{Addr, Family, Ip};
use std::test::Fail;
use trial_kit::{LINE_1, Reply};

const FOUND_1: &str =
    "0000000000000000000000000000000000000001 127.0.0.1:6001\nfound 1 asked 1 failed 0 turned 0\n";

const FOUND_2: &str =
    "0000000000000000000000000000000000000002 127.0.0.1:6002\nfound 1 asked 2 failed 1 turned 0\n";

/// Contact 1 was asked and lost.
const NOBODY: &str = "found 0 asked 1 failed 1 turned 0\n";

/// The lines of contacts 1 and 2.
const TWO_LINES: &str =
    "0000000000000000000000000000000000000001 127.0.0.1:6001\n0000000000000000000000000000000000000002 127.0.0.1:6002\n";

/// Contacts 1 and 2 were found, and contacts 1 to 3.
const BOTH: &str =
    "0000000000000000000000000000000000000001 127.0.0.1:6001\n0000000000000000000000000000000000000002 127.0.0.1:6002\nfound 2 asked 2 failed 0 turned 0\n";

const FOUND_3: &str =
    "0000000000000000000000000000000000000001 127.0.0.1:6001\n0000000000000000000000000000000000000002 127.0.0.1:6002\n0000000000000000000000000000000000000003 127.0.0.1:6003\nfound 3 asked 3 failed 0 turned 0\n";

/// The answer of contact 1 that names nobody, to the first query.
const ANSWER_1: &[u8] =
    b"d1:rd2:id20:\0\0\0\0\0\0\0\0\0\0\0\0\0\0\0\0\0\0\0\x01e1:t4:\xa0\x8d\xed\x1a1:y1:re";

/// A lookup of zeros by the node of ones, on one path.
const ONE_PATH: &[&str] = &[
    "lookup",
    "--target",
    "0000000000000000000000000000000000000000",
    "--own",
    "ffffffffffffffffffffffffffffffffffffffff",
    "--paths",
    "1",
];

/// A search for peers of the key of zeros by the node of ones, on one path.
const PEERS: &[&str] = &[
    "peers",
    "--key",
    "0000000000000000000000000000000000000000",
    "--own",
    "ffffffffffffffffffffffffffffffffffffffff",
    "--paths",
    "1",
];

/// The query to contact 1, with the sixth word of the generator of 32 zero bytes.
const QUERY: &[u8; 101] =
    b"d1:ad2:id20:\xff\xff\xff\xff\xff\xff\xff\xff\xff\xff\xff\xff\xff\xff\xff\xff\xff\xff\xff\xff6:target20:\0\0\0\0\0\0\0\0\0\0\0\0\0\0\0\0\0\0\0\0e1:q9:find_node2:roi1e1:t4:\xa0\x8d\xed\x1a1:y1:qe";

/// The address of contact 1.
const CONTACT_1: Addr = Addr {
    ip: Ip::V4([127, 0, 0, 1]),
    port: 6001,
};

/// Who asks, and is no contact.
const STRANGER: Addr = Addr {
    ip: Ip::V4([127, 0, 0, 1]),
    port: 7000,
};

/// Contact 1 begins and answers as it should.
const FOUND: Trial<'static> = Trial {
    words: ONE_PATH,
    input: LINE_1,
    outside: &[Answers(10, 1)],
    text: FOUND_1,
    ..SILENT
};

#[test]
fn a_contact_that_answers_is_found(rt: HostRuntime) -> Result<(), Fail> {
    const TRIAL: &Trial<'static> = &Trial {
        told: Sends(1, &[(0, 6001, QUERY)]),
        ..FOUND
    };
    plays(&rt, TRIAL)
}

/// It asks for the moment, sends the query, and waits for the answer until the query's deadline, 2000 milliseconds later
/// where no word says otherwise. The answer is BEP 5's with the identifier alone.
#[test]
fn a_lookup_tells_what_it_did(rt: HostRuntime) -> Result<(), Fail> {
    const TRIAL: &Trial<'static> = &Trial {
        told: Events(&[
            Told::Now { at: 0 },
            Told::Sent {
                to: CONTACT_1,
                bytes: QUERY,
            },
            Told::Got {
                from: CONTACT_1,
                bytes: ANSWER_1,
                until: 2000,
                at: 10,
            },
        ]),
        ..FOUND
    };
    plays(&rt, TRIAL)
}

#[test]
fn nothing_to_begin_with_sends_nothing(rt: HostRuntime) -> Result<(), Fail> {
    const TRIAL: &Trial<'static> = &Trial {
        input: "",
        status: 8,
        text: "no seeds\n",
        told: Sends(0, &[]),
        ..FOUND
    };
    plays(&rt, TRIAL)
}

#[test]
fn an_answer_from_another_port_is_a_stray(rt: HostRuntime) -> Result<(), Fail> {
    const FROM_ANOTHER_PORT: Reply = Reply {
        family: Family::Four,
        to: 1,
        at: 5,
        port: 6999,
        id: 1,
        node: None,
    };
    const TRIAL: &Trial<'static> = &Trial {
        outside: &[Says(FROM_ANOTHER_PORT), Answers(10, 1)],
        ..FOUND
    };
    plays(&rt, TRIAL)
}

#[test]
fn an_answer_in_another_name_loses_the_contact(rt: HostRuntime) -> Result<(), Fail> {
    const IN_ANOTHER_NAME: Reply = Reply {
        family: Family::Four,
        to: 1,
        at: 10,
        port: 6001,
        id: 7,
        node: None,
    };
    const TRIAL: &Trial<'static> = &Trial {
        outside: &[Says(IN_ANOTHER_NAME)],
        text: NOBODY,
        ..FOUND
    };
    plays(&rt, TRIAL)
}

#[test]
fn a_refused_send_loses_the_contact(rt: HostRuntime) -> Result<(), Fail> {
    const TRIAL: &Trial<'static> = &Trial {
        input: TWO_LINES,
        outside: &[Answers(10, 2)],
        refused: &[0],
        text: FOUND_2,
        ..FOUND
    };
    plays(&rt, TRIAL)
}

#[test]
fn a_failed_receive_ends_the_lookup(rt: HostRuntime) -> Result<(), Fail> {
    const TRIAL: &Trial<'static> = &Trial {
        broken: &[0],
        status: 4,
        text: "link fault\n",
        ..FOUND
    };
    plays(&rt, TRIAL)
}

/// The lines of contacts 1 to 8.
const EIGHT_LINES: &str = "\
0000000000000000000000000000000000000001 127.0.0.1:6001\n\
0000000000000000000000000000000000000002 127.0.0.1:6002\n\
0000000000000000000000000000000000000003 127.0.0.1:6003\n\
0000000000000000000000000000000000000004 127.0.0.1:6004\n\
0000000000000000000000000000000000000005 127.0.0.1:6005\n\
0000000000000000000000000000000000000006 127.0.0.1:6006\n\
0000000000000000000000000000000000000007 127.0.0.1:6007\n\
0000000000000000000000000000000000000008 127.0.0.1:6008\n";

/// Contacts 1 to 8 were found.
const FOUND_1_TO_8: &str = "\
0000000000000000000000000000000000000001 127.0.0.1:6001\n\
0000000000000000000000000000000000000002 127.0.0.1:6002\n\
0000000000000000000000000000000000000003 127.0.0.1:6003\n\
0000000000000000000000000000000000000004 127.0.0.1:6004\n\
0000000000000000000000000000000000000005 127.0.0.1:6005\n\
0000000000000000000000000000000000000006 127.0.0.1:6006\n\
0000000000000000000000000000000000000007 127.0.0.1:6007\n\
0000000000000000000000000000000000000008 127.0.0.1:6008\n\
found 8 asked 8 failed 0 turned 0\n";

/// Contact 1 was lost, and contacts 2 to 9 were found.
const FOUND_2_TO_9: &str = "\
0000000000000000000000000000000000000002 127.0.0.1:6002\n\
0000000000000000000000000000000000000003 127.0.0.1:6003\n\
0000000000000000000000000000000000000004 127.0.0.1:6004\n\
0000000000000000000000000000000000000005 127.0.0.1:6005\n\
0000000000000000000000000000000000000006 127.0.0.1:6006\n\
0000000000000000000000000000000000000007 127.0.0.1:6007\n\
0000000000000000000000000000000000000008 127.0.0.1:6008\n\
0000000000000000000000000000000000000009 127.0.0.1:6009\n\
found 8 asked 9 failed 1 turned 0\n";

/// All answer, and the second names the ninth.
const NAMING_THE_NINTH: &[Outside<'static>] = &[
    Answers(10, 1),
    Names(10, 2, 9),
    Answers(10, 3),
    Answers(10, 4),
    Answers(10, 5),
    Answers(10, 6),
    Answers(10, 7),
    Answers(10, 8),
    Answers(10, 9),
];

#[test]
fn a_ninth_is_not_asked_while_eight_closer_ones_answer(rt: HostRuntime) -> Result<(), Fail> {
    const TRIAL: &Trial<'static> = &Trial {
        input: EIGHT_LINES,
        outside: NAMING_THE_NINTH,
        text: FOUND_1_TO_8,
        ..FOUND
    };
    plays(&rt, TRIAL)
}

#[test]
fn a_ninth_is_asked_where_one_of_eight_is_silent(rt: HostRuntime) -> Result<(), Fail> {
    const TRIAL: &Trial<'static> = &Trial {
        input: EIGHT_LINES,
        outside: &[
            Names(10, 2, 9),
            Answers(10, 3),
            Answers(10, 4),
            Answers(10, 5),
            Answers(10, 6),
            Answers(10, 7),
            Answers(10, 8),
            Answers(10, 9),
        ],
        text: FOUND_2_TO_9,
        ..FOUND
    };
    plays(&rt, TRIAL)
}

#[test]
fn a_bad_line_is_named(rt: HostRuntime) -> Result<(), Fail> {
    const TRIAL: &Trial<'static> = &Trial {
        input: "0000000000000000000000000000000000000001 127.0.0.1:6001\nxyz\n",
        status: 3,
        text: "bad line 2\n",
        ..FOUND
    };
    plays(&rt, TRIAL)
}

const ZEROS: &str = "0000000000000000000000000000000000000000";

const REFUSED_WORDS: Trial<'static> = Trial {
    words: &[],
    status: 2,
    text: "usage\n",
    ..FOUND
};

/// No words at all, a command that there is not, and what no command takes.
#[test]
fn words_that_ask_for_nothing(rt: HostRuntime) -> Result<(), Fail> {
    const TRIALS: &[Trial<'static>] = &[
        REFUSED_WORDS,
        Trial {
            words: &["find"],
            ..REFUSED_WORDS
        },
        Trial {
            words: &["serve", "--receives", "0"],
            ..REFUSED_WORDS
        },
        Trial {
            words: &["lookup"],
            ..REFUSED_WORDS
        },
        Trial {
            words: &[
                "lookup",
                "--target",
                "000000000000000000000000000000000000000",
            ],
            ..REFUSED_WORDS
        },
        Trial {
            words: &["lookup", "--target", ZEROS, "--k", "21"],
            ..REFUSED_WORDS
        },
        Trial {
            words: &["lookup", "--target", ZEROS, "--k", "8", "--k", "8"],
            ..REFUSED_WORDS
        },
        Trial {
            words: &["lookup", "--target", ZEROS, "--k=8"],
            ..REFUSED_WORDS
        },
        Trial {
            words: &["lookup", "--target", ZEROS, "--k"],
            ..REFUSED_WORDS
        },
        Trial {
            words: &["lookup", "--target", ZEROS, "--speed", "1"],
            ..REFUSED_WORDS
        },
    ];
    all_play(&rt, TRIALS)
}
