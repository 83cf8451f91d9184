//! Sealed refreshes, which take no reply without the tag of who says it. The tags are HMAC-SHA-1 under a key of 32 zero
//! bytes, as Python's `hmac` makes them. A stray ends no wait, so that the link tells one event more.

use crate::refresh::play::{
    ANSWER_1, ANSWERED, Coming, NOBODY, PING_1, Told, Trial, all_play, plays,
};
use std::test::Fail;

/// Contact 1 that failed once before, so that one failure more removes it.
const FAILED: &[u8] =
    b"table ffffffffffffffffffffffffffffffffffffffff 8 1\nrow -\nlive 0000000000000000000000000000000000000001 127.0.0.1:6001 1\nend\n";

/// The answer of contact 1 to the first ping, with its tag.
const TAGGED: &[u8] =
    b"d1:rd2:id20:\0\0\0\0\0\0\0\0\0\0\0\0\0\0\0\0\0\0\0\x01e2:sg20:6T\x1bC\x1cM, N\xf3@\xf9\x1f\xaa{\x16v\x93/p1:t4:\xa0\x8d\xed\x1a1:y1:re";

/// The same whose tag has another last bit.
const ONE_BIT: &[u8] =
    b"d1:rd2:id20:\0\0\0\0\0\0\0\0\0\0\0\0\0\0\0\0\0\0\0\x01e2:sg20:6T\x1bC\x1cM, N\xf3@\xf9\x1f\xaa{\x16v\x93/q1:t4:\xa0\x8d\xed\x1a1:y1:re";

/// The answer of identifier 2, with its own tag.
const ANOTHER: &[u8] =
    b"d1:rd2:id20:\0\0\0\0\0\0\0\0\0\0\0\0\0\0\0\0\0\0\0\x02e2:sg20:i\xb3_\x07\x9c\xb2\xf3\xd9K\xcb\x81\x96M\x0e\xc5I\xf6\xeed/1:t4:\xa0\x8d\xed\x1a1:y1:re";

/// The same with the tag that contact 1 would make of it.
const DISGUISED: &[u8] =
    b"d1:rd2:id20:\0\0\0\0\0\0\0\0\0\0\0\0\0\0\0\0\0\0\0\x02e2:sg20:\xb6\x93t\x9c\xf6q\xac\x9b\xe2\xc8\xf1\x96\x91\xbb\xa5\x86\xd2\xae\xfdk1:t4:\xa0\x8d\xed\x1a1:y1:re";

/// An error message with the tag of contact 1.
const ERROR: &[u8] =
    b"d1:eli202e12:Server Errore2:sg20:\x82\x8f\xb8\xf1\x15\x1b\x84\x11\xaaF5\x07{(\xb2Y\xf1\x82\xc0\xed1:t4:\xa0\x8d\xed\x1a1:y1:ee";

/// The same without a tag.
const PLAIN_ERROR: &[u8] = b"d1:eli202e12:Server Errore1:t4:\xa0\x8d\xed\x1a1:y1:ee";

/// Contact 1 gives the answer that is waited for.
const TAKEN: Trial = Trial {
    table: FAILED,
    sealed: true,
    ..ANSWERED
};

/// It doesn't.
const NOT_TAKEN: Trial = Trial {
    left: NOBODY,
    ..TAKEN
};

const TAG: &Trial = &Trial {
    coming: Coming::Datagrams(&[(10, 6001, TAGGED)]),
    told: &[
        Told::Now(0),
        Told::Sent(6001, PING_1),
        Told::Got(6001, TAGGED, 2000, 10),
    ],
    ..TAKEN
};

#[test]
fn a_tagged_answer_is_taken(rt: HostRuntime) -> Result<(), Fail> {
    plays(rt.alloc(), TAG)
}

const NO_TAGS: &[Trial] = &[
    Trial {
        coming: Coming::Datagrams(&[(10, 6001, ANSWER_1)]),
        told: &[
            Told::Now(0),
            Told::Sent(6001, PING_1),
            Told::Got(6001, ANSWER_1, 2000, 10),
            Told::Quiet(2000, 2000),
        ],
        ..NOT_TAKEN
    },
    Trial {
        coming: Coming::Datagrams(&[(10, 6001, ONE_BIT)]),
        told: &[
            Told::Now(0),
            Told::Sent(6001, PING_1),
            Told::Got(6001, ONE_BIT, 2000, 10),
            Told::Quiet(2000, 2000),
        ],
        ..NOT_TAKEN
    },
];

#[test]
fn an_answer_without_its_tag_is_a_stray(rt: HostRuntime) -> Result<(), Fail> {
    all_play(rt.alloc(), NO_TAGS)
}

const NAMES: &[Trial] = &[
    Trial {
        coming: Coming::Datagrams(&[(10, 6001, ANOTHER)]),
        told: &[
            Told::Now(0),
            Told::Sent(6001, PING_1),
            Told::Got(6001, ANOTHER, 2000, 10),
        ],
        ..NOT_TAKEN
    },
    Trial {
        coming: Coming::Datagrams(&[(10, 6001, DISGUISED)]),
        told: &[
            Told::Now(0),
            Told::Sent(6001, PING_1),
            Told::Got(6001, DISGUISED, 2000, 10),
            Told::Quiet(2000, 2000),
        ],
        ..NOT_TAKEN
    },
];

#[test]
fn an_answer_in_another_name_needs_the_tag_of_that_name(rt: HostRuntime) -> Result<(), Fail> {
    all_play(rt.alloc(), NAMES)
}

const ERRORS: &[Trial] = &[
    Trial {
        coming: Coming::Datagrams(&[(10, 6001, ERROR)]),
        told: &[
            Told::Now(0),
            Told::Sent(6001, PING_1),
            Told::Got(6001, ERROR, 2000, 10),
        ],
        ..NOT_TAKEN
    },
    Trial {
        coming: Coming::Datagrams(&[(10, 6001, PLAIN_ERROR)]),
        told: &[
            Told::Now(0),
            Told::Sent(6001, PING_1),
            Told::Got(6001, PLAIN_ERROR, 2000, 10),
            Told::Quiet(2000, 2000),
        ],
        ..NOT_TAKEN
    },
];

#[test]
fn an_error_message_needs_the_tag_of_who_was_asked(rt: HostRuntime) -> Result<(), Fail> {
    all_play(rt.alloc(), ERRORS)
}

const UNSEALED: &[Trial] = &[
    Trial {
        sealed: false,
        coming: Coming::Datagrams(&[(10, 6001, ONE_BIT)]),
        told: &[
            Told::Now(0),
            Told::Sent(6001, PING_1),
            Told::Got(6001, ONE_BIT, 2000, 10),
        ],
        ..TAKEN
    },
    Trial {
        sealed: false,
        coming: Coming::Datagrams(&[(10, 6001, DISGUISED)]),
        told: &[
            Told::Now(0),
            Told::Sent(6001, PING_1),
            Told::Got(6001, DISGUISED, 2000, 10),
        ],
        ..NOT_TAKEN
    },
];

#[test]
fn where_no_tag_is_asked_for_none_is_looked_at(rt: HostRuntime) -> Result<(), Fail> {
    all_play(rt.alloc(), UNSEALED)
}
