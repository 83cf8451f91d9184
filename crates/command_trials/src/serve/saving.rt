//! Routing tables that `table` makes and saves, by both top calls. Their texts were written by hand from Kademlia's rules, and
//! who makes the table has the identifier of ones.
use crate::serve::trial::{Row, both_answer};
use std::test::Fail;
use trial_kit::LINE_1;

const ONES: &str = "ffffffffffffffffffffffffffffffffffffffff";

/// The table of `LINE_1`.
const OF_ONE: &str =
    "table ffffffffffffffffffffffffffffffffffffffff 8 1\nrow -\nlive 0000000000000000000000000000000000000001 127.0.0.1:6001 0\nsibling 0000000000000000000000000000000000000001 127.0.0.1:6001\nend\n";

/// A table of nothing.
const OF_NONE: &str = "table ffffffffffffffffffffffffffffffffffffffff 8 1\nrow -\nend\n";

const ONE: &[Row] = &[(&["table", "--own", ONES], LINE_1, 0, OF_ONE)];

#[test]
fn a_table_of_one_contact_is_five_lines(rt: HostRuntime) -> Result<(), Fail> {
    both_answer(&rt, ONE)
}

/// The node itself, and a contact at port 0.
const UNUSABLE: &str =
    "ffffffffffffffffffffffffffffffffffffffff 127.0.0.1:6002\n0000000000000000000000000000000000000002 127.0.0.1:0\n0000000000000000000000000000000000000001 127.0.0.1:6001\n";

const FEW: &[Row] = &[
    (&["table", "--own", ONES], UNUSABLE, 0, OF_ONE),
    (&["table", "--own", ONES, "--c1", "0"], UNUSABLE, 0, OF_NONE),
    (&["table", "--own", ONES, "--c1", "0"], "", 0, OF_NONE),
];

#[test]
fn a_table_has_what_can_be_asked_and_passes(rt: HostRuntime) -> Result<(), Fail> {
    both_answer(&rt, FEW)
}

/// A bucket holds one contact. The second divides the table, the third is a spare of the first one's half, and all three are
/// siblings, nearest to the ones first.
const THREE: &str =
    "0000000000000000000000000000000000000001 127.0.0.1:6001\n8000000000000000000000000000000000000000 127.0.0.1:6002\n4000000000000000000000000000000000000000 127.0.0.1:6003\n";

const HALVES: &str =
    "table ffffffffffffffffffffffffffffffffffffffff 1 1\nrow 0\nlive 0000000000000000000000000000000000000001 127.0.0.1:6001 0\nspare 4000000000000000000000000000000000000000 127.0.0.1:6003\nrow 1\nlive 8000000000000000000000000000000000000000 127.0.0.1:6002 0\nsibling 8000000000000000000000000000000000000000 127.0.0.1:6002\nsibling 4000000000000000000000000000000000000000 127.0.0.1:6003\nsibling 0000000000000000000000000000000000000001 127.0.0.1:6001\nend\n";

const FULL: &[Row] = &[(&["table", "--own", ONES, "--k", "1"], THREE, 0, HALVES)];

#[test]
fn a_full_bucket_splits_or_keeps_a_spare(rt: HostRuntime) -> Result<(), Fail> {
    both_answer(&rt, FULL)
}

/// The first bytes of the key stream of 32 zeros are those of RFC 8439, appendix A.1, its first vector.
const DRAWN: &[Row] = &[(
    &["table", "--bits", "5", "--k", "20"],
    "",
    0,
    "table 76b8e0ada0f13d90405d6ae55386bd28bdd219b8 20 5\nrow -\nend\n",
)];

#[test]
fn the_words_set_the_table(rt: HostRuntime) -> Result<(), Fail> {
    both_answer(&rt, DRAWN)
}

const BAD_LINE: &[Row] = &[(
    &["table"],
    "0000000000000000000000000000000000000001 127.0.0.1:6001\nxyz\n",
    3,
    "bad line 2\n",
)];

#[test]
fn a_bad_line_leaves_no_table(rt: HostRuntime) -> Result<(), Fail> {
    both_answer(&rt, BAD_LINE)
}
