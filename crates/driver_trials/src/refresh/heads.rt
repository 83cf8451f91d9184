//! Whom a refresh pings, and in which order.

use crate::refresh::play::{
    ANSWER_1, ANSWERED, Coming, PING_1, PING_2, REPLY_2, SILENT, Told, Trial, all_play, plays,
};
use std::test::Fail;

/// Contacts 1 and 2 in one row.
const TWO: &[u8] =
    b"table ffffffffffffffffffffffffffffffffffffffff 8 1\nrow -\nlive 0000000000000000000000000000000000000001 127.0.0.1:6001 0\nlive 0000000000000000000000000000000000000002 127.0.0.1:6002 0\nend\n";

/// The same, where contact 1 was seen last. It is a sibling now.
const TWO_SEEN: &[u8] =
    b"table ffffffffffffffffffffffffffffffffffffffff 8 1\nrow -\nlive 0000000000000000000000000000000000000002 127.0.0.1:6002 0\nlive 0000000000000000000000000000000000000001 127.0.0.1:6001 0\nsibling 0000000000000000000000000000000000000001 127.0.0.1:6001\nend\n";

/// Contact 2 alone, of the two.
const SECOND: &[u8] =
    b"table ffffffffffffffffffffffffffffffffffffffff 8 1\nrow -\nlive 0000000000000000000000000000000000000002 127.0.0.1:6002 0\nend\n";

/// Three rows: of contact 1, of nobody, and of a contact whose identifier begins with seven bits of the node's.
const ROWS: &[u8] =
    b"table ffffffffffffffffffffffffffffffffffffffff 8 1\nrow 0\nlive 0000000000000000000000000000000000000001 127.0.0.1:6001 0\nrow 10\nrow 11\nlive fe00000000000000000000000000000000000000 127.0.0.1:6003 0\nend\n";

/// The rows where nobody answered.
const EMPTY_ROWS: &[u8] =
    b"table ffffffffffffffffffffffffffffffffffffffff 8 1\nrow 0\nrow 10\nrow 11\nend\n";

/// The rows where contact 1 alone answered.
const FIRST_ROW: &[u8] =
    b"table ffffffffffffffffffffffffffffffffffffffff 8 1\nrow 0\nlive 0000000000000000000000000000000000000001 127.0.0.1:6001 0\nrow 10\nrow 11\nsibling 0000000000000000000000000000000000000001 127.0.0.1:6001\nend\n";

/// The third ping.
const PING_3: &[u8] =
    b"d1:ad2:id20:\xff\xff\xff\xff\xff\xff\xff\xff\xff\xff\xff\xff\xff\xff\xff\xff\xff\xff\xff\xffe1:q4:ping2:roi1e1:t4:\x8b\x77\x0d\xc71:y1:qe";

/// The fourth ping.
const PING_4: &[u8] =
    b"d1:ad2:id20:\xff\xff\xff\xff\xff\xff\xff\xff\xff\xff\xff\xff\xff\xff\xff\xff\xff\xff\xff\xffe1:q4:ping2:roi1e1:t4:\xda\x41\x59\x7c1:y1:qe";

/// Two full rows. In the first contact 3 failed before, and contacts 4 and 5 are spares; in the second its last contact did.
const FULL_ROWS: &[u8] =
    b"table ffffffffffffffffffffffffffffffffffffffff 3 1\nrow 0\nlive 0000000000000000000000000000000000000001 127.0.0.1:6001 0\nlive 0000000000000000000000000000000000000002 127.0.0.1:6002 0\nlive 0000000000000000000000000000000000000003 127.0.0.1:6003 1\nspare 0000000000000000000000000000000000000004 127.0.0.1:6004\nspare 0000000000000000000000000000000000000005 127.0.0.1:6005\nrow 1\nlive fc00000000000000000000000000000000000000 127.0.0.1:6011 0\nlive fd00000000000000000000000000000000000000 127.0.0.1:6012 0\nlive fe00000000000000000000000000000000000000 127.0.0.1:6013 1\nend\n";

/// The rows where contact 1, contact 3 and the second contact of the other row answered.
const HALF_ROWS: &[u8] =
    b"table ffffffffffffffffffffffffffffffffffffffff 3 1\nrow 0\nlive 0000000000000000000000000000000000000001 127.0.0.1:6001 0\nlive 0000000000000000000000000000000000000005 127.0.0.1:6005 0\nlive 0000000000000000000000000000000000000003 127.0.0.1:6003 0\nspare 0000000000000000000000000000000000000004 127.0.0.1:6004\nrow 1\nlive fd00000000000000000000000000000000000000 127.0.0.1:6012 0\nsibling fd00000000000000000000000000000000000000 127.0.0.1:6012\nsibling 0000000000000000000000000000000000000003 127.0.0.1:6003\nsibling 0000000000000000000000000000000000000001 127.0.0.1:6001\nend\n";

/// The answer of contact 3 to the fourth ping.
const ANSWER_4: &[u8] =
    b"d1:rd2:id20:\0\0\0\0\0\0\0\0\0\0\0\0\0\0\0\0\0\0\0\x03e1:t4:\xda\x41\x59\x7c1:y1:re";

/// The answer of the second contact of the other row to the seventh ping.
const ANSWER_7: &[u8] =
    b"d1:rd2:id20:\xfd\0\0\0\0\0\0\0\0\0\0\0\0\0\0\0\0\0\0\0e1:t4:\xb8\xd8\x4a\x371:y1:re";

/// The fifth ping, under the word 5157488d.
const PING_5: &[u8] =
    b"d1:ad2:id20:\xff\xff\xff\xff\xff\xff\xff\xff\xff\xff\xff\xff\xff\xff\xff\xff\xff\xff\xff\xffe1:q4:ping2:roi1e1:t4:\x51\x57\x48\x8d1:y1:qe";

/// The sixth ping, under 7724e03f.
const PING_6: &[u8] =
    b"d1:ad2:id20:\xff\xff\xff\xff\xff\xff\xff\xff\xff\xff\xff\xff\xff\xff\xff\xff\xff\xff\xff\xffe1:q4:ping2:roi1e1:t4:\x77\x24\xe0\x3f1:y1:qe";

/// The seventh ping, under b8d84a37.
const PING_7: &[u8] =
    b"d1:ad2:id20:\xff\xff\xff\xff\xff\xff\xff\xff\xff\xff\xff\xff\xff\xff\xff\xff\xff\xff\xff\xffe1:q4:ping2:roi1e1:t4:\xb8\xd8\x4a\x371:y1:qe";

/// The eighth ping, under 6a43b8f4.
const PING_8: &[u8] =
    b"d1:ad2:id20:\xff\xff\xff\xff\xff\xff\xff\xff\xff\xff\xff\xff\xff\xff\xff\xff\xff\xff\xff\xffe1:q4:ping2:roi1e1:t4:\x6a\x43\xb8\xf41:y1:qe";

const OF_NOBODY: Trial = Trial {
    table: EMPTY_ROWS,
    left: EMPTY_ROWS,
    told: &[Told::Now(0)],
    ..SILENT
};

const NO_HEADS: &Trial = &OF_NOBODY;

#[test]
fn a_table_of_nobody_pings_nobody(rt: HostRuntime) -> Result<(), Fail> {
    plays(rt.alloc(), NO_HEADS)
}

const OF_TWO: &Trial = &Trial {
    table: TWO,
    left: TWO_SEEN,
    ..ANSWERED
};

#[test]
fn the_first_of_a_row_alone_is_pinged(rt: HostRuntime) -> Result<(), Fail> {
    plays(rt.alloc(), OF_TWO)
}

/// Contact 2 is the first of its row then, and isn't pinged.
const HEADS: &Trial = &Trial {
    table: TWO,
    coming: Coming::Replies(&[REPLY_2]),
    left: SECOND,
    ..SILENT
};

#[test]
fn the_heads_are_those_of_the_table_at_first(rt: HostRuntime) -> Result<(), Fail> {
    plays(rt.alloc(), HEADS)
}

const IN_ORDER: &Trial = &Trial {
    table: ROWS,
    left: EMPTY_ROWS,
    told: &[
        Told::Now(0),
        Told::Sent(6001, PING_1),
        Told::Quiet(2000, 2000),
        Told::Sent(6001, PING_2),
        Told::Quiet(4000, 4000),
        Told::Sent(6003, PING_3),
        Told::Quiet(6000, 6000),
        Told::Sent(6003, PING_4),
        Told::Quiet(8000, 8000),
    ],
    ..SILENT
};

#[test]
fn the_rows_are_gone_through_in_order(rt: HostRuntime) -> Result<(), Fail> {
    plays(rt.alloc(), IN_ORDER)
}

const ONE_ROW: Trial = Trial {
    table: ROWS,
    left: FIRST_ROW,
    told: &[
        Told::Now(0),
        Told::Sent(6001, PING_1),
        Told::Got(6001, ANSWER_1, 2000, 10),
        Told::Sent(6003, PING_2),
        Told::Quiet(2010, 2010),
        Told::Sent(6003, PING_3),
        Told::Quiet(4010, 4010),
    ],
    ..ANSWERED
};

const TWO_HEADS: &Trial = &ONE_ROW;

#[test]
fn one_row_answers_and_another_does_not(rt: HostRuntime) -> Result<(), Fail> {
    plays(rt.alloc(), TWO_HEADS)
}

/// Contact 5, which takes the place of contact 2, is not pinged.
const ALL: &Trial = &Trial {
    table: FULL_ROWS,
    all: true,
    coming: Coming::Datagrams(&[
        (10, 6001, ANSWER_1),
        (4020, 6003, ANSWER_4),
        (8030, 6012, ANSWER_7),
    ]),
    left: HALF_ROWS,
    told: &[
        Told::Now(0),
        Told::Sent(6001, PING_1),
        Told::Got(6001, ANSWER_1, 2000, 10),
        Told::Sent(6002, PING_2),
        Told::Quiet(2010, 2010),
        Told::Sent(6002, PING_3),
        Told::Quiet(4010, 4010),
        Told::Sent(6003, PING_4),
        Told::Got(6003, ANSWER_4, 6010, 4020),
        Told::Sent(6011, PING_5),
        Told::Quiet(6020, 6020),
        Told::Sent(6011, PING_6),
        Told::Quiet(8020, 8020),
        Told::Sent(6012, PING_7),
        Told::Got(6012, ANSWER_7, 10020, 8030),
        Told::Sent(6013, PING_8),
        Told::Quiet(10030, 10030),
    ],
    ..ANSWERED
};

#[test]
fn all_live_contacts_are_pinged_in_order(rt: HostRuntime) -> Result<(), Fail> {
    plays(rt.alloc(), ALL)
}

/// Of a table of nobody, and of one whose rows have one live contact each: contact 1 answers.
const ALL_HEADS: &[Trial] = &[
    Trial {
        all: true,
        ..OF_NOBODY
    },
    Trial {
        all: true,
        ..ONE_ROW
    },
];

#[test]
fn where_a_row_has_one_contact_all_are_its_head(rt: HostRuntime) -> Result<(), Fail> {
    all_play(rt.alloc(), ALL_HEADS)
}
