//! Words of nodes: those that serve, and those that look up meanwhile.
use super::Given::{Node, Serve};
use super::{GREATEST, LOOK, NAMED, Row, SOWN, all_give};
use kad_base::{Family, Id, Policy, Proof};
use kad_words::{LookWords, NodeWords, ServeWords};
use std::test::Fail;

/// A node that serves with all defaults.
const PLAIN: ServeWords = ServeWords {
    own: None,
    k: 8,
    bits: 1,
    policy: Policy::Plain,
    per_address: 0,
    receives: 1_000_000_000,
    minutes: 0,
    workers: 1,
    sealed: false,
    table: false,
};

const SERVES: &[Row] = &[
    ("serve", Serve(PLAIN)),
    (
        "serve --receives 1 --c1 8 --k 2 --bits 3 --own ID --bind 0.0.0.0:1",
        Serve(ServeWords {
            own: Some(Id(NAMED)),
            k: 2,
            bits: 3,
            policy: Policy::Puzzled { c1: 8, c2: 0 },
            receives: 1,
            ..PLAIN
        }),
    ),
    (
        "serve --group SEED --workers 2 --receives 2 --table yes",
        Serve(ServeWords {
            receives: 2,
            workers: 2,
            sealed: true,
            table: true,
            ..PLAIN
        }),
    ),
    (
        "serve --per-address 255",
        Serve(ServeWords {
            per_address: 255,
            ..PLAIN
        }),
    ),
    (
        "serve --minutes 10080 --receives 1000000000 --workers 8",
        Serve(ServeWords {
            minutes: 10_080,
            workers: 8,
            ..PLAIN
        }),
    ),
    ("serve --table no --minutes 0", Serve(PLAIN)),
];

#[test]
fn words_of_serve(rt: HostRuntime) -> Result<(), Fail> {
    all_give(rt.alloc(), SERVES)
}

/// The lookups of a node with all defaults.
const LOOKS: LookWords = LookWords {
    target: Id([0; 20]),
    ..LOOK
};

/// A node with all defaults.
const USUAL: NodeWords = NodeWords {
    look: LOOKS,
    proof: None,
    receives: 0,
    minutes: 0,
    table: false,
};

const NODES: &[Row] = &[
    ("node", Node(USUAL)),
    ("node --receives 0 --minutes 0", Node(USUAL)),
    (
        "node --receives 1000000000 --table no",
        Node(NodeWords {
            receives: 1_000_000_000,
            ..USUAL
        }),
    ),
    (
        "node --bind [0000:0000:0000:0000:0000:0000:0000:0001]:1 --c2 0 --paths 1",
        Node(NodeWords {
            look: LookWords {
                policy: Policy::Puzzled { c1: 0, c2: 0 },
                paths: 1,
                ..LOOKS
            },
            ..USUAL
        }),
    ),
    (
        "node --table yes --own ID --k 20 --paths 8 --alpha 4 --timeout 60000 --bits 5 --c1 32 --c2 32 --per-address 255 --claim asked --bind 1.2.3.4:5 --group SEED --receives 1 --minutes 10080",
        Node(NodeWords {
            look: LookWords {
                target: Id([0; 20]),
                family: Family::Four,
                ..GREATEST
            },
            proof: None,
            receives: 1,
            minutes: 10_080,
            table: true,
        }),
    ),
];

#[test]
fn words_of_node(rt: HostRuntime) -> Result<(), Fail> {
    all_give(rt.alloc(), NODES)
}

/// A node whose identifier is the SHA-1 of `SEED`, by a program of another language.
const MADE: NodeWords = NodeWords {
    look: LookWords {
        own: Some(Id([
            0x6c, 0x17, 0xa3, 0xfb, 0x6a, 0x1b, 0xe5, 0x26, 0xa1, 0x7e, 0xd8, 0xe3, 0x13, 0xf9,
            0x19, 0x19, 0x59, 0x16, 0x72, 0xdd,
        ])),
        ..LOOKS
    },
    proof: Some(Proof {
        key: SOWN,
        x: NAMED,
    }),
    ..USUAL
};

/// One whose identifier is `ID`.
const NAMED_SO: NodeWords = NodeWords {
    look: LookWords {
        own: Some(Id(NAMED)),
        ..LOOKS
    },
    ..MADE
};

const PROVED: &[Row] = &[
    ("node --proof PROOF", Node(MADE)),
    ("node --own ID --proof PROOF", Node(NAMED_SO)),
    ("node --proof PROOF --own ID", Node(NAMED_SO)),
    (
        "node --proof 01000000000000000000000000000000000000000000000000000000000000fe,00000000000000000000000000000000000000af",
        Node(MADE),
    ),
    (
        "node --proof 01000000000000000000000000000000000000000000000000000000000000FE,00000000000000000000000000000000000000AF",
        Node(MADE),
    ),
];

#[test]
fn words_of_a_node_with_a_proof(rt: HostRuntime) -> Result<(), Fail> {
    all_give(rt.alloc(), PROVED)
}
