//! Lookups whose outside is hostile in one place after the other. What each gives was worked out by hand, and what a changed
//! byte does by a reader of bencode of its own, in another language.
use crate::node::paths::TWO_PATHS;
use crate::node::replies::A_USUAL_ANSWER;
use crate::node::trial::Outside::{Answers, From, Names, Says};
use crate::node::trial::Wanted::Sends;
use crate::node::trial::{SILENT, Trial, all_play, plays};
use crate::node::{
    ANSWER_1, BOTH, EIGHT_LINES, FOUND_1, FOUND_1_TO_8, FOUND_2, FOUND_2_TO_9, FOUND_3,
    NAMING_THE_NINTH, NOBODY, ONE_PATH, TWO_LINES,
};
use fake_net::ScriptLink;
use kad_base::Family;
use run_kit::shows;
use std::random::RandomSource;
use std::sync::Wait;
use std::test::Fail;
use std::thread::Threads;
use trial_kit::{LINE_1, Reply, link, link_with};

/// Contact 1 answered, and whom it named did not.
const ONE_OF_TWO: &str =
    "0000000000000000000000000000000000000001 127.0.0.1:6001\nfound 1 asked 2 failed 1 turned 0\n";

const POSED: &str =
    "0000000000000000000000000000000000000000 127.0.0.1:6009\n0000000000000000000000000000000000000001 127.0.0.1:6001\nfound 2 asked 2 failed 0 turned 0\n";

const TWO_OF_THREE: &str =
    "0000000000000000000000000000000000000001 127.0.0.1:6001\n0000000000000000000000000000000000000002 127.0.0.1:6002\nfound 2 asked 3 failed 1 turned 0\n";

const FOUND_3_OF_4: &str =
    "0000000000000000000000000000000000000001 127.0.0.1:6001\n0000000000000000000000000000000000000002 127.0.0.1:6002\n0000000000000000000000000000000000000003 127.0.0.1:6003\nfound 3 asked 4 failed 1 turned 0\n";

const TWO_OF_AN_IDENTIFIER: &str =
    "0000000000000000000000000000000000000001 127.0.0.1:6001\n0000000000000000000000000000000000000002 127.0.0.1:6002\n0000000000000000000000000000000000000003 127.0.0.1:6003\n0000000000000000000000000000000000000003 127.0.0.1:6009\nfound 4 asked 4 failed 0 turned 0\n";

/// Contact 1 begins, and the lookup ends well with this text.
fn one_finds<R: AllocGlobal + RandomSource + Threads + Wait + Sync>(
    rt: &R,
    link: ScriptLink,
    text: &str,
) -> Result<(), Fail> {
    shows(rt, ONE_PATH, LINE_1, link, 0, text)
}

/// The answer cut to each length below its own says nothing.
fn cut<R: AllocGlobal + RandomSource + Threads + Wait + Sync>(
    rt: &R,
    answer: &[u8],
) -> Result<(), Fail> {
    for len in 0..answer.len() {
        let link = link_with(rt.alloc(), &answer[..len], 10, 1, &[])?;
        one_finds(rt, link, NOBODY)?;
    }
    Ok(())
}

#[test]
fn an_answer_cut_anywhere_is_no_answer(rt: HostRuntime) -> Result<(), Fail> {
    cut(&rt, ANSWER_1)?;
    cut(&rt, A_USUAL_ANSWER)
}

/// For each value, what the usual answer gives with each of its bytes changed to it: 0 where contact 1 is lost, 1 where it
/// names somebody else than contact 2, 2 where it names contact 2, and 3 where it names nobody.
const CHANGED: &[(u8, &[u8; 115])] = &[
    (
        0x00,
        b"0002200222222000000000002222222222222222222000333330002222222222222222222112211100200000000000000000020022220000000",
    ),
    (
        0x01,
        b"0002200222222000000000000000000000000000000200333330001111111111111111111111121100200000000000000000020022220000000",
    ),
    (
        0x7f,
        b"0002200222222000000000000000000000000000000000333330001111111111111111111121111100200000000000000000020022220000000",
    ),
    (
        0x80,
        b"0002200222222000000000000000000000000000000000333330001111111111111111111111111100200000000000000000020022220000000",
    ),
    (
        0xff,
        b"0002200222222000000000000000000000000000000000333330001111111111111111111111111100200000000000000000020022220000000",
    ),
    (
        b'-',
        b"0002200222222000000000000000000000000000000000333330001111111111111111111111111100202000000000000000020022220000000",
    ),
    (
        b'0',
        b"0002200222222000000000200000000000000000000000333330001111111111111111111111111100200222000000000000020022220000000",
    ),
    (
        b'1',
        b"0002200222222200000000000000000000000000000000333330001111111111111111111111111120202222002000000002020022222002000",
    ),
    (
        b'9',
        b"0002200222222000000000000000000000000000000000333330001111111111111111111111111100202222000000000000020022220000000",
    ),
    (
        b':',
        b"0022202222222020002000020000000000000000000002333330021111111111111111111111111102200000000200200000220222220200200",
    ),
    (
        b'd',
        b"2002200222222000200020000000000000000000000000332330001111111111111111111111111100200000000000000000020022220000000",
    ),
    (
        b'e',
        b"0002200222222000000000000000000000000000000000333230001111111111111111111111111100200000220000000000020022220000002",
    ),
    (
        b'i',
        b"0002200222222000000200000000000000000000000000333330001111111111111111111111111100220000000000000000020022220000000",
    ),
    (
        b'l',
        b"0002200222222000000000000000000000000000000000333330001111111111111111111111111100200000000000000000020022220000000",
    ),
];

fn text_of(given: u8) -> &'static str {
    match given {
        b'0' => NOBODY,
        b'1' => ONE_OF_TWO,
        b'2' => BOTH,
        _ => FOUND_1,
    }
}

/// The usual answer with one byte changed, over which contact 2 answers too.
fn with_one_changed<R: AllocGlobal + RandomSource + Threads + Wait + Sync>(
    rt: &R,
    place: usize,
    value: u8,
    given: u8,
) -> Result<(), Fail> {
    let mut answer = A_USUAL_ANSWER.to_vec(rt.alloc())?;
    if let Some(byte) = answer.get_mut(place) {
        *byte = value;
    }
    let link = link_with(rt.alloc(), &answer, 10, 1, &[Reply::of(2, 20)])?;
    one_finds(rt, link, text_of(given))
}

#[test]
fn a_changed_byte_loses_no_more_than_it_says(rt: HostRuntime) -> Result<(), Fail> {
    assert_eq!(rt; A_USUAL_ANSWER.len(), 115);
    for (value, all_given) in CHANGED {
        for (place, given) in all_given.iter().enumerate() {
            with_one_changed(&rt, place, *value, *given)?;
        }
    }
    Ok(())
}

/// Eight contacts begin, and the second names the ninth.
const EIGHT: Trial<'static> = Trial {
    words: ONE_PATH,
    input: EIGHT_LINES,
    outside: NAMING_THE_NINTH,
    text: FOUND_1_TO_8,
    ..SILENT
};

/// Where the send to the contact that names the ninth is refused nobody learns of the ninth, where another is the ninth is
/// asked in its place, and where none is the ninth is not asked.
#[test]
fn each_refused_send_loses_one_contact(rt: HostRuntime) -> Result<(), Fail> {
    const TRIALS: &[Trial<'static>] = &[
        Trial {
            refused: &[0],
            text: FOUND_2_TO_9,
            ..EIGHT
        },
        Trial {
            refused: &[1],
            text: "\
0000000000000000000000000000000000000001 127.0.0.1:6001\n\
0000000000000000000000000000000000000003 127.0.0.1:6003\n\
0000000000000000000000000000000000000004 127.0.0.1:6004\n\
0000000000000000000000000000000000000005 127.0.0.1:6005\n\
0000000000000000000000000000000000000006 127.0.0.1:6006\n\
0000000000000000000000000000000000000007 127.0.0.1:6007\n\
0000000000000000000000000000000000000008 127.0.0.1:6008\n\
found 7 asked 8 failed 1 turned 0\n",
            ..EIGHT
        },
        Trial {
            refused: &[2],
            text: "\
0000000000000000000000000000000000000001 127.0.0.1:6001\n\
0000000000000000000000000000000000000002 127.0.0.1:6002\n\
0000000000000000000000000000000000000004 127.0.0.1:6004\n\
0000000000000000000000000000000000000005 127.0.0.1:6005\n\
0000000000000000000000000000000000000006 127.0.0.1:6006\n\
0000000000000000000000000000000000000007 127.0.0.1:6007\n\
0000000000000000000000000000000000000008 127.0.0.1:6008\n\
0000000000000000000000000000000000000009 127.0.0.1:6009\n\
found 8 asked 9 failed 1 turned 0\n",
            ..EIGHT
        },
        Trial {
            refused: &[3],
            text: "\
0000000000000000000000000000000000000001 127.0.0.1:6001\n\
0000000000000000000000000000000000000002 127.0.0.1:6002\n\
0000000000000000000000000000000000000003 127.0.0.1:6003\n\
0000000000000000000000000000000000000005 127.0.0.1:6005\n\
0000000000000000000000000000000000000006 127.0.0.1:6006\n\
0000000000000000000000000000000000000007 127.0.0.1:6007\n\
0000000000000000000000000000000000000008 127.0.0.1:6008\n\
0000000000000000000000000000000000000009 127.0.0.1:6009\n\
found 8 asked 9 failed 1 turned 0\n",
            ..EIGHT
        },
        Trial {
            refused: &[4],
            text: "\
0000000000000000000000000000000000000001 127.0.0.1:6001\n\
0000000000000000000000000000000000000002 127.0.0.1:6002\n\
0000000000000000000000000000000000000003 127.0.0.1:6003\n\
0000000000000000000000000000000000000004 127.0.0.1:6004\n\
0000000000000000000000000000000000000006 127.0.0.1:6006\n\
0000000000000000000000000000000000000007 127.0.0.1:6007\n\
0000000000000000000000000000000000000008 127.0.0.1:6008\n\
0000000000000000000000000000000000000009 127.0.0.1:6009\n\
found 8 asked 9 failed 1 turned 0\n",
            ..EIGHT
        },
        Trial {
            refused: &[5],
            text: "\
0000000000000000000000000000000000000001 127.0.0.1:6001\n\
0000000000000000000000000000000000000002 127.0.0.1:6002\n\
0000000000000000000000000000000000000003 127.0.0.1:6003\n\
0000000000000000000000000000000000000004 127.0.0.1:6004\n\
0000000000000000000000000000000000000005 127.0.0.1:6005\n\
0000000000000000000000000000000000000007 127.0.0.1:6007\n\
0000000000000000000000000000000000000008 127.0.0.1:6008\n\
0000000000000000000000000000000000000009 127.0.0.1:6009\n\
found 8 asked 9 failed 1 turned 0\n",
            ..EIGHT
        },
        Trial {
            refused: &[6],
            text: "\
0000000000000000000000000000000000000001 127.0.0.1:6001\n\
0000000000000000000000000000000000000002 127.0.0.1:6002\n\
0000000000000000000000000000000000000003 127.0.0.1:6003\n\
0000000000000000000000000000000000000004 127.0.0.1:6004\n\
0000000000000000000000000000000000000005 127.0.0.1:6005\n\
0000000000000000000000000000000000000006 127.0.0.1:6006\n\
0000000000000000000000000000000000000008 127.0.0.1:6008\n\
0000000000000000000000000000000000000009 127.0.0.1:6009\n\
found 8 asked 9 failed 1 turned 0\n",
            ..EIGHT
        },
        Trial {
            refused: &[7],
            text: "\
0000000000000000000000000000000000000001 127.0.0.1:6001\n\
0000000000000000000000000000000000000002 127.0.0.1:6002\n\
0000000000000000000000000000000000000003 127.0.0.1:6003\n\
0000000000000000000000000000000000000004 127.0.0.1:6004\n\
0000000000000000000000000000000000000005 127.0.0.1:6005\n\
0000000000000000000000000000000000000006 127.0.0.1:6006\n\
0000000000000000000000000000000000000007 127.0.0.1:6007\n\
0000000000000000000000000000000000000009 127.0.0.1:6009\n\
found 8 asked 9 failed 1 turned 0\n",
            ..EIGHT
        },
        Trial {
            refused: &[8],
            text: FOUND_1_TO_8,
            ..EIGHT
        },
    ];
    all_play(&rt, TRIALS)
}

/// Contacts 1 and 2 begin on two paths and name contact 3.
const ON_TWO_PATHS: Trial<'static> = Trial {
    words: TWO_PATHS,
    input: TWO_LINES,
    outside: &[Names(10, 1, 3), Names(10, 2, 3), Answers(10, 3)],
    text: FOUND_3,
    ..SILENT
};

/// Three receives bring three answers, and there is no fourth.
#[test]
fn each_failed_receive_ends_the_lookup(rt: HostRuntime) -> Result<(), Fail> {
    const TRIALS: &[Trial<'static>] = &[
        Trial {
            broken: &[0],
            status: 4,
            text: "link fault\n",
            ..ON_TWO_PATHS
        },
        Trial {
            broken: &[1],
            status: 4,
            text: "link fault\n",
            ..ON_TWO_PATHS
        },
        Trial {
            broken: &[2],
            status: 4,
            text: "link fault\n",
            ..ON_TWO_PATHS
        },
        Trial {
            broken: &[3],
            ..ON_TWO_PATHS
        },
    ];
    all_play(&rt, TRIALS)
}

/// Each answer comes three times, and once more while a fourth contact lets its time pass.
#[test]
fn answers_that_come_again_are_heard_once(rt: HostRuntime) -> Result<(), Fail> {
    const TRIAL: &Trial<'static> = &Trial {
        outside: &[
            Names(10, 1, 3),
            Names(10, 2, 3),
            Names(10, 3, 4),
            Names(10, 1, 3),
            Names(10, 2, 3),
            Names(10, 3, 4),
            Names(10, 1, 3),
            Names(10, 2, 3),
            Names(10, 3, 4),
            Names(1999, 1, 3),
            Names(1999, 2, 3),
            Names(1999, 3, 4),
        ],
        text: FOUND_3_OF_4,
        told: Sends(4, &[]),
        ..ON_TWO_PATHS
    };
    plays(&rt, TRIAL)
}

/// A contact has 2000 milliseconds to answer.
#[test]
fn an_answer_after_its_deadline_is_none(rt: HostRuntime) -> Result<(), Fail> {
    for at in 1990..2010 {
        let text = if at <= 2000 { FOUND_1 } else { NOBODY };
        let link = link(rt.alloc(), &[Reply::of(1, at)])?;
        one_finds(&rt, link, text)?;
    }
    Ok(())
}

/// Contact 1 answers the first query and names itself.
const NAMING_ITSELF: &[u8] =
    b"d1:rd2:id20:\0\0\0\0\0\0\0\0\0\0\0\0\0\0\0\0\0\0\0\x015:nodes26:\0\0\0\0\0\0\0\0\0\0\0\0\0\0\0\0\0\0\0\x01\x7f\0\0\x01\x17qe1:t4:\xa0\x8d\xed\x1a1:y1:re";

/// It names the asker.
const NAMING_THE_ASKER: &[u8] =
    b"d1:rd2:id20:\0\0\0\0\0\0\0\0\0\0\0\0\0\0\0\0\0\0\0\x015:nodes26:\xff\xff\xff\xff\xff\xff\xff\xff\xff\xff\xff\xff\xff\xff\xff\xff\xff\xff\xff\xff\x7f\0\0\x01\x17\xa2e1:t4:\xa0\x8d\xed\x1a1:y1:re";

/// It names contact 2 at port 0.
const NAMING_PORT_0: &[u8] =
    b"d1:rd2:id20:\0\0\0\0\0\0\0\0\0\0\0\0\0\0\0\0\0\0\0\x015:nodes26:\0\0\0\0\0\0\0\0\0\0\0\0\0\0\0\0\0\0\0\x02\x7f\0\0\x01\0\0e1:t4:\xa0\x8d\xed\x1a1:y1:re";

/// It names all of them, and then contact 2 at its port.
const NAMING_ALL: &[u8] =
    b"d1:rd2:id20:\0\0\0\0\0\0\0\0\0\0\0\0\0\0\0\0\0\0\0\x015:nodes104:\0\0\0\0\0\0\0\0\0\0\0\0\0\0\0\0\0\0\0\x02\x7f\0\0\x01\0\0\0\0\0\0\0\0\0\0\0\0\0\0\0\0\0\0\0\0\0\x01\x7f\0\0\x01\x17q\xff\xff\xff\xff\xff\xff\xff\xff\xff\xff\xff\xff\xff\xff\xff\xff\xff\xff\xff\xff\x7f\0\0\x01\x17\xa2\0\0\0\0\0\0\0\0\0\0\0\0\0\0\0\0\0\0\0\x02\x7f\0\0\x01\x17re1:t4:\xa0\x8d\xed\x1a1:y1:re";

/// Contact 1 begins alone.
const ALONE: Trial<'static> = Trial {
    words: ONE_PATH,
    input: LINE_1,
    outside: &[],
    text: FOUND_1,
    ..SILENT
};

/// Itself, the asker, and a contact at port 0.
#[test]
fn names_of_nobody_to_ask_are_passed_over(rt: HostRuntime) -> Result<(), Fail> {
    const TRIALS: &[Trial<'static>] = &[
        Trial {
            outside: &[From(10, 6001, NAMING_ITSELF)],
            ..ALONE
        },
        Trial {
            outside: &[From(10, 6001, NAMING_THE_ASKER)],
            ..ALONE
        },
        Trial {
            outside: &[From(10, 6001, NAMING_PORT_0)],
            ..ALONE
        },
        Trial {
            outside: &[From(10, 6001, NAMING_ALL), Answers(20, 2)],
            text: BOTH,
            ..ALONE
        },
    ];
    all_play(&rt, TRIALS)
}

/// Contact 1 answers the first query and names the target at port 6009.
const NAMING_THE_TARGET: &[u8] =
    b"d1:rd2:id20:\0\0\0\0\0\0\0\0\0\0\0\0\0\0\0\0\0\0\0\x015:nodes26:\0\0\0\0\0\0\0\0\0\0\0\0\0\0\0\0\0\0\0\0\x7f\0\0\x01\x17ye1:t4:\xa0\x8d\xed\x1a1:y1:re";

/// Contact 9 answers in the target's name.
const POSING: Reply = Reply {
    family: Family::Four,
    to: 9,
    at: 20,
    port: 6009,
    id: 0,
    node: None,
};

/// Nobody is there, or somebody of another name. Whoever answers in the target's name there is believed.
#[test]
fn the_target_at_a_wrong_address(rt: HostRuntime) -> Result<(), Fail> {
    const TRIALS: &[Trial<'static>] = &[
        Trial {
            outside: &[From(10, 6001, NAMING_THE_TARGET)],
            text: ONE_OF_TWO,
            ..ALONE
        },
        Trial {
            outside: &[From(10, 6001, NAMING_THE_TARGET), Answers(20, 9)],
            text: ONE_OF_TWO,
            ..ALONE
        },
        Trial {
            outside: &[From(10, 6001, NAMING_THE_TARGET), Says(POSING)],
            text: POSED,
            ..ALONE
        },
    ];
    all_play(&rt, TRIALS)
}

/// Contact 1 answers the first query and names contact 2 seventeen times.
const SEVENTEEN_TIMES_2: &[u8] =
    b"d1:rd2:id20:\0\0\0\0\0\0\0\0\0\0\0\0\0\0\0\0\0\0\0\x015:nodes442:\
\0\0\0\0\0\0\0\0\0\0\0\0\0\0\0\0\0\0\0\x02\x7f\0\0\x01\x17r\
\0\0\0\0\0\0\0\0\0\0\0\0\0\0\0\0\0\0\0\x02\x7f\0\0\x01\x17r\
\0\0\0\0\0\0\0\0\0\0\0\0\0\0\0\0\0\0\0\x02\x7f\0\0\x01\x17r\
\0\0\0\0\0\0\0\0\0\0\0\0\0\0\0\0\0\0\0\x02\x7f\0\0\x01\x17r\
\0\0\0\0\0\0\0\0\0\0\0\0\0\0\0\0\0\0\0\x02\x7f\0\0\x01\x17r\
\0\0\0\0\0\0\0\0\0\0\0\0\0\0\0\0\0\0\0\x02\x7f\0\0\x01\x17r\
\0\0\0\0\0\0\0\0\0\0\0\0\0\0\0\0\0\0\0\x02\x7f\0\0\x01\x17r\
\0\0\0\0\0\0\0\0\0\0\0\0\0\0\0\0\0\0\0\x02\x7f\0\0\x01\x17r\
\0\0\0\0\0\0\0\0\0\0\0\0\0\0\0\0\0\0\0\x02\x7f\0\0\x01\x17r\
\0\0\0\0\0\0\0\0\0\0\0\0\0\0\0\0\0\0\0\x02\x7f\0\0\x01\x17r\
\0\0\0\0\0\0\0\0\0\0\0\0\0\0\0\0\0\0\0\x02\x7f\0\0\x01\x17r\
\0\0\0\0\0\0\0\0\0\0\0\0\0\0\0\0\0\0\0\x02\x7f\0\0\x01\x17r\
\0\0\0\0\0\0\0\0\0\0\0\0\0\0\0\0\0\0\0\x02\x7f\0\0\x01\x17r\
\0\0\0\0\0\0\0\0\0\0\0\0\0\0\0\0\0\0\0\x02\x7f\0\0\x01\x17r\
\0\0\0\0\0\0\0\0\0\0\0\0\0\0\0\0\0\0\0\x02\x7f\0\0\x01\x17r\
\0\0\0\0\0\0\0\0\0\0\0\0\0\0\0\0\0\0\0\x02\x7f\0\0\x01\x17r\
\0\0\0\0\0\0\0\0\0\0\0\0\0\0\0\0\0\0\0\x02\x7f\0\0\x01\x17r\
e1:t4:\xa0\x8d\xed\x1a1:y1:re";

/// It names contact 3 in the seventeenth record.
const A_SEVENTEENTH: &[u8] = b"d1:rd2:id20:\0\0\0\0\0\0\0\0\0\0\0\0\0\0\0\0\0\0\0\x015:nodes442:\
\0\0\0\0\0\0\0\0\0\0\0\0\0\0\0\0\0\0\0\x02\x7f\0\0\x01\x17r\
\0\0\0\0\0\0\0\0\0\0\0\0\0\0\0\0\0\0\0\x02\x7f\0\0\x01\x17r\
\0\0\0\0\0\0\0\0\0\0\0\0\0\0\0\0\0\0\0\x02\x7f\0\0\x01\x17r\
\0\0\0\0\0\0\0\0\0\0\0\0\0\0\0\0\0\0\0\x02\x7f\0\0\x01\x17r\
\0\0\0\0\0\0\0\0\0\0\0\0\0\0\0\0\0\0\0\x02\x7f\0\0\x01\x17r\
\0\0\0\0\0\0\0\0\0\0\0\0\0\0\0\0\0\0\0\x02\x7f\0\0\x01\x17r\
\0\0\0\0\0\0\0\0\0\0\0\0\0\0\0\0\0\0\0\x02\x7f\0\0\x01\x17r\
\0\0\0\0\0\0\0\0\0\0\0\0\0\0\0\0\0\0\0\x02\x7f\0\0\x01\x17r\
\0\0\0\0\0\0\0\0\0\0\0\0\0\0\0\0\0\0\0\x02\x7f\0\0\x01\x17r\
\0\0\0\0\0\0\0\0\0\0\0\0\0\0\0\0\0\0\0\x02\x7f\0\0\x01\x17r\
\0\0\0\0\0\0\0\0\0\0\0\0\0\0\0\0\0\0\0\x02\x7f\0\0\x01\x17r\
\0\0\0\0\0\0\0\0\0\0\0\0\0\0\0\0\0\0\0\x02\x7f\0\0\x01\x17r\
\0\0\0\0\0\0\0\0\0\0\0\0\0\0\0\0\0\0\0\x02\x7f\0\0\x01\x17r\
\0\0\0\0\0\0\0\0\0\0\0\0\0\0\0\0\0\0\0\x02\x7f\0\0\x01\x17r\
\0\0\0\0\0\0\0\0\0\0\0\0\0\0\0\0\0\0\0\x02\x7f\0\0\x01\x17r\
\0\0\0\0\0\0\0\0\0\0\0\0\0\0\0\0\0\0\0\x02\x7f\0\0\x01\x17r\
\0\0\0\0\0\0\0\0\0\0\0\0\0\0\0\0\0\0\0\x03\x7f\0\0\x01\x17s\
e1:t4:\xa0\x8d\xed\x1a1:y1:re";

/// It names contact 3 in the sixteenth record too.
const A_SIXTEENTH: &[u8] = b"d1:rd2:id20:\0\0\0\0\0\0\0\0\0\0\0\0\0\0\0\0\0\0\0\x015:nodes442:\
\0\0\0\0\0\0\0\0\0\0\0\0\0\0\0\0\0\0\0\x02\x7f\0\0\x01\x17r\
\0\0\0\0\0\0\0\0\0\0\0\0\0\0\0\0\0\0\0\x02\x7f\0\0\x01\x17r\
\0\0\0\0\0\0\0\0\0\0\0\0\0\0\0\0\0\0\0\x02\x7f\0\0\x01\x17r\
\0\0\0\0\0\0\0\0\0\0\0\0\0\0\0\0\0\0\0\x02\x7f\0\0\x01\x17r\
\0\0\0\0\0\0\0\0\0\0\0\0\0\0\0\0\0\0\0\x02\x7f\0\0\x01\x17r\
\0\0\0\0\0\0\0\0\0\0\0\0\0\0\0\0\0\0\0\x02\x7f\0\0\x01\x17r\
\0\0\0\0\0\0\0\0\0\0\0\0\0\0\0\0\0\0\0\x02\x7f\0\0\x01\x17r\
\0\0\0\0\0\0\0\0\0\0\0\0\0\0\0\0\0\0\0\x02\x7f\0\0\x01\x17r\
\0\0\0\0\0\0\0\0\0\0\0\0\0\0\0\0\0\0\0\x02\x7f\0\0\x01\x17r\
\0\0\0\0\0\0\0\0\0\0\0\0\0\0\0\0\0\0\0\x02\x7f\0\0\x01\x17r\
\0\0\0\0\0\0\0\0\0\0\0\0\0\0\0\0\0\0\0\x02\x7f\0\0\x01\x17r\
\0\0\0\0\0\0\0\0\0\0\0\0\0\0\0\0\0\0\0\x02\x7f\0\0\x01\x17r\
\0\0\0\0\0\0\0\0\0\0\0\0\0\0\0\0\0\0\0\x02\x7f\0\0\x01\x17r\
\0\0\0\0\0\0\0\0\0\0\0\0\0\0\0\0\0\0\0\x02\x7f\0\0\x01\x17r\
\0\0\0\0\0\0\0\0\0\0\0\0\0\0\0\0\0\0\0\x02\x7f\0\0\x01\x17r\
\0\0\0\0\0\0\0\0\0\0\0\0\0\0\0\0\0\0\0\x03\x7f\0\0\x01\x17s\
\0\0\0\0\0\0\0\0\0\0\0\0\0\0\0\0\0\0\0\x03\x7f\0\0\x01\x17s\
e1:t4:\xa0\x8d\xed\x1a1:y1:re";

/// It is asked once; a seventeenth record is not read.
#[test]
fn a_contact_that_is_named_sixteen_times(rt: HostRuntime) -> Result<(), Fail> {
    const TRIALS: &[Trial<'static>] = &[
        Trial {
            outside: &[
                From(10, 6001, SEVENTEEN_TIMES_2),
                Answers(20, 2),
                Answers(20, 3),
            ],
            text: BOTH,
            ..ALONE
        },
        Trial {
            outside: &[
                From(10, 6001, A_SEVENTEENTH),
                Answers(20, 2),
                Answers(20, 3),
            ],
            text: BOTH,
            ..ALONE
        },
        Trial {
            outside: &[From(10, 6001, A_SIXTEENTH), Answers(20, 2), Answers(20, 3)],
            text: FOUND_3,
            ..ALONE
        },
    ];
    all_play(&rt, TRIALS)
}

/// Contact 1 answers the first query and names contacts 2 and 3 at the port of contact 2.
const NAMING_2_AND_3: &[u8] =
    b"d1:rd2:id20:\0\0\0\0\0\0\0\0\0\0\0\0\0\0\0\0\0\0\0\x015:nodes52:\0\0\0\0\0\0\0\0\0\0\0\0\0\0\0\0\0\0\0\x02\x7f\0\0\x01\x17r\0\0\0\0\0\0\0\0\0\0\0\0\0\0\0\0\0\0\0\x03\x7f\0\0\x01\x17re1:t4:\xa0\x8d\xed\x1a1:y1:re";

/// Both are asked, and whoever is there has one name.
#[test]
fn two_contacts_at_one_address(rt: HostRuntime) -> Result<(), Fail> {
    const TRIAL: &Trial<'static> = &Trial {
        outside: &[From(10, 6001, NAMING_2_AND_3), Answers(20, 2)],
        text: TWO_OF_THREE,
        ..ALONE
    };
    plays(&rt, TRIAL)
}

/// Contact 1 names identifier 3 at one address.
const NAMING_3_ELSEWHERE: Reply = Reply {
    family: Family::Four,
    to: 1,
    at: 10,
    port: 6001,
    id: 1,
    node: Some((3, 6009)),
};

/// Who is there has that name.
const NAMED_3: Reply = Reply {
    family: Family::Four,
    to: 9,
    at: 20,
    port: 6009,
    id: 3,
    node: None,
};

/// Contact 1 names identifier 3 at one address and contact 2 at another, and both are there.
#[test]
fn one_identifier_at_two_addresses_on_two_paths(rt: HostRuntime) -> Result<(), Fail> {
    const TRIAL: &Trial<'static> = &Trial {
        outside: &[
            Says(NAMING_3_ELSEWHERE),
            Names(10, 2, 3),
            Answers(20, 3),
            Says(NAMED_3),
        ],
        text: TWO_OF_AN_IDENTIFIER,
        ..ON_TWO_PATHS
    };
    plays(&rt, TRIAL)
}

/// The answer of contact 1, which names contact 9, comes from the port of contact 2.
const FROM_2_AS_1: Reply = Reply {
    family: Family::Four,
    to: 1,
    at: 5,
    port: 6002,
    id: 1,
    node: Some((9, 6009)),
};

/// That of contact 2 comes from the port of contact 1.
const FROM_1_AS_2: Reply = Reply {
    family: Family::Four,
    to: 2,
    at: 5,
    port: 6001,
    id: 2,
    node: Some((9, 6009)),
};

/// That of contact 1 is in the name of contact 2.
const AT_1_AS_2: Reply = Reply {
    family: Family::Four,
    to: 1,
    at: 5,
    port: 6001,
    id: 2,
    node: Some((9, 6009)),
};

/// Whoever answers from another address than the one that was asked, whatever the name, says nothing; whoever answers in
/// another name is lost.
#[test]
fn a_liar_answers_for_another(rt: HostRuntime) -> Result<(), Fail> {
    const ON_ONE_PATH: Trial<'static> = Trial {
        words: ONE_PATH,
        ..ON_TWO_PATHS
    };
    const TRIALS: &[Trial<'static>] = &[
        Trial {
            outside: &[Says(FROM_2_AS_1), Answers(10, 1), Answers(10, 2)],
            text: BOTH,
            ..ON_ONE_PATH
        },
        Trial {
            outside: &[Says(FROM_1_AS_2), Answers(10, 1)],
            text: ONE_OF_TWO,
            ..ON_ONE_PATH
        },
        Trial {
            outside: &[Says(AT_1_AS_2), Answers(10, 2)],
            text: FOUND_2,
            ..ON_ONE_PATH
        },
    ];
    all_play(&rt, TRIALS)
}
