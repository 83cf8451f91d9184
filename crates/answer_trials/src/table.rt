//! Which contacts are named, and who is told to the table.
use crate::replies::{OWN, Text, ends, first_false, joined, mark, node, over, pings, replies};
use kad_base::Policy;
use node_serve::Node;
use std::test::Fail;
use trial_kit::{contact, local};

/// The compact records of these contacts, and how many bytes they have.
fn nodes_of(wanted: &[u8]) -> Text {
    let mut nodes = Text::new();
    for n in wanted {
        let port = [23, 112 + *n.min(&100)];
        nodes = nodes
            .then(&contact(*n).id.0)
            .then(b"\x7f\0\0\x01")
            .then(&port);
    }
    nodes
}

/// Whether a query for contact n's identifier, read-only or not, is answered with these contacts.
fn names(node: &mut Node, target: u8, read_only: bool, wanted: &[u8]) -> bool {
    let find = joined(&[
        b"d1:ad2:id20:abcdefghij01234567896:target20:",
        &contact(target).id.0,
        b"e1:q9:find_node",
        mark(read_only),
        b"1:t2:aa1:y1:qe",
    ]);
    let nodes = nodes_of(wanted);
    let found = joined(&[b"d1:rd2:id20:", &OWN.0, b"5:nodes"])
        .number(nodes.as_slice().len())
        .then(b":")
        .then(nodes.as_slice())
        .then(b"e1:t2:aa1:y1:re");
    replies(node, local(7000), find.as_slice(), 0, found.as_slice())
}

fn names_closest(node: &mut Node) -> Option<usize> {
    first_false(&[
        pings(node, 1, false),
        names(node, 4, true, &[1]),
        pings(node, 4, false),
        names(node, 5, true, &[4, 1]),
        names(node, 0, true, &[1, 4]),
        pings(node, 6, false),
        names(node, 7, true, &[6, 4]),
    ])
}

#[test]
fn names_the_closest_to_the_target(rt: HostRuntime) -> Result<(), Fail> {
    over(&rt, node(rt.alloc(), 2, Policy::Plain), names_closest)
}

fn names_who_asked(node: &mut Node) -> Option<usize> {
    let find =
        b"d1:ad2:id20:abcdefghij01234567896:target20:abcdefghij0123456789e1:q9:find_node2:roi1e1:t2:aa1:y1:qe";
    let asked = b"5:nodes26:abcdefghij0123456789\x7f\0\0\x01\x1b\x58e1:t2:aa1:y1:re";
    first_false(&[
        pings(node, 3, true),
        names(node, 3, true, &[]),
        names(node, 3, false, &[]),
        ends(node, local(7001), find, 0, 83, asked),
    ])
}

#[test]
fn names_who_asked_from_the_next_query_on(rt: HostRuntime) -> Result<(), Fail> {
    over(&rt, node(rt.alloc(), 20, Policy::Plain), names_who_asked)
}

fn names_nobody(node: &mut Node) -> Option<usize> {
    let find =
        b"d1:ad2:id20:abcdefghij01234567896:target20:abcdefghij0123456789e1:q9:find_node1:t2:aa1:y1:qe";
    let found = joined(&[
        b"d1:rd2:id20:",
        &OWN.0,
        b"5:nodes0:6:snodes0:e1:t2:aa1:y1:re",
    ]);
    first_false(&[
        pings(node, 3, false),
        replies(node, local(7000), find, 0, found.as_slice()),
        replies(node, local(7000), find, 0, found.as_slice()),
    ])
}

#[test]
fn names_nobody_who_asked_where_puzzles_are_wanted(rt: HostRuntime) -> Result<(), Fail> {
    over(
        &rt,
        node(rt.alloc(), 1, Policy::Puzzled { c1: 0, c2: 32 }),
        names_nobody,
    )
}
