//! Lookups on one path and on two.
use crate::node::trial::Outside::{Answers, Names, Often, Says};
use crate::node::trial::{SILENT, Trial, plays};
use crate::node::{BOTH, FOUND_1, FOUND_3, ONE_PATH, TWO_LINES};
use kad_base::Family;
use std::test::Fail;
use trial_kit::{LINE_1, Reply};

/// A lookup of zeros by the node of ones, on two paths.
pub(crate) const TWO_PATHS: &[&str] = &[
    "lookup",
    "--target",
    "0000000000000000000000000000000000000000",
    "--own",
    "ffffffffffffffffffffffffffffffffffffffff",
    "--paths",
    "2",
];

/// Contacts 1 and 2 begin on two paths and name contact 3.
const FOUND: Trial<'static> = Trial {
    words: TWO_PATHS,
    input: TWO_LINES,
    outside: &[Names(10, 1, 3), Names(10, 2, 3), Answers(10, 3)],
    text: FOUND_3,
    ..SILENT
};

/// The contact is taken on one path and held on the other.
#[test]
fn a_contact_that_two_paths_learn_is_asked_once(rt: HostRuntime) -> Result<(), Fail> {
    const TRIAL: &Trial<'static> = &FOUND;
    plays(&rt, TRIAL)
}

/// Nobody answers at the first of them.
#[test]
fn two_addresses_of_an_identifier_are_two_contacts(rt: HostRuntime) -> Result<(), Fail> {
    const ELSEWHERE: Reply = Reply {
        family: Family::Four,
        to: 1,
        at: 10,
        port: 6001,
        id: 1,
        node: Some((3, 7000)),
    };
    const TRIAL: &Trial<'static> = &Trial {
        outside: &[Says(ELSEWHERE), Names(20, 2, 3), Answers(20, 3)],
        text: "0000000000000000000000000000000000000001 127.0.0.1:6001\n0000000000000000000000000000000000000002 127.0.0.1:6002\n0000000000000000000000000000000000000003 127.0.0.1:6003\nfound 3 asked 4 failed 1 turned 0\n",
        ..FOUND
    };
    plays(&rt, TRIAL)
}

/// The second and the third are strays.
#[test]
fn an_answer_that_comes_three_times_is_heard_once(rt: HostRuntime) -> Result<(), Fail> {
    const TRIAL: &Trial<'static> = &Trial {
        words: ONE_PATH,
        outside: &[
            Answers(10, 1),
            Answers(11, 1),
            Answers(12, 1),
            Answers(20, 2),
        ],
        text: BOTH,
        ..FOUND
    };
    plays(&rt, TRIAL)
}

/// Both deadlines are 2000: contact 1 is heard, and contact 2 is lost.
#[test]
fn an_answer_at_the_moment_of_its_deadline_is_heard(rt: HostRuntime) -> Result<(), Fail> {
    const TRIAL: &Trial<'static> = &Trial {
        words: ONE_PATH,
        outside: &[Answers(2000, 1)],
        text: "0000000000000000000000000000000000000001 127.0.0.1:6001\nfound 1 asked 2 failed 1 turned 0\n",
        ..FOUND
    };
    plays(&rt, TRIAL)
}

#[test]
fn the_millionth_stray_ends_the_lookup(rt: HostRuntime) -> Result<(), Fail> {
    const TRIAL: &Trial<'static> = &Trial {
        words: ONE_PATH,
        input: LINE_1,
        outside: &[Often(1, 6001, b"x", 1_000_000), Answers(10, 1)],
        status: 7,
        text: "strays\n",
        ..FOUND
    };
    plays(&rt, TRIAL)
}

#[test]
fn one_stray_less_does_not(rt: HostRuntime) -> Result<(), Fail> {
    const TRIAL: &Trial<'static> = &Trial {
        words: ONE_PATH,
        input: LINE_1,
        outside: &[Often(1, 6001, b"x", 999_999), Answers(10, 1)],
        text: FOUND_1,
        ..FOUND
    };
    plays(&rt, TRIAL)
}
