//! Words of lookups, and of what a lookup gets and puts.
use super::Given::{Get, Lookup, Peers, Put};
use super::{GREATEST, LOOK, NAMED, Row, all_give};
use kad_base::{ClaimRule, Family, Id, Policy};
use kad_words::LookWords;
use std::test::Fail;

const OWN: LookWords = LookWords {
    own: Some(Id(NAMED)),
    ..LOOK
};

const K_3: LookWords = LookWords { k: 3, ..LOOK };

const SIX: LookWords = LookWords {
    family: Family::Six,
    ..LOOK
};

const LOOKUPS: &[Row] = &[
    ("lookup --target ID", Lookup(LOOK)),
    ("lookup --own ID --target ID", Lookup(OWN)),
    (
        "lookup --target ID --k 1",
        Lookup(LookWords { k: 1, ..LOOK }),
    ),
    (
        "lookup --k 20 --target ID",
        Lookup(LookWords { k: 20, ..LOOK }),
    ),
    (
        "lookup --target ID --paths 1 --alpha 1",
        Lookup(LookWords {
            paths: 1,
            alpha: 1,
            ..LOOK
        }),
    ),
    (
        "lookup --target ID --alpha 4 --paths 8",
        Lookup(LookWords {
            paths: 8,
            alpha: 4,
            ..LOOK
        }),
    ),
    (
        "lookup --target ID --timeout 1 --bits 1",
        Lookup(LookWords { timeout: 1, ..LOOK }),
    ),
    (
        "lookup --bits 5 --timeout 60000 --target ID",
        Lookup(LookWords {
            timeout: 60000,
            bits: 5,
            ..LOOK
        }),
    ),
    (
        "lookup --target ID --c1 0",
        Lookup(LookWords {
            policy: Policy::Puzzled { c1: 0, c2: 0 },
            ..LOOK
        }),
    ),
    (
        "lookup --target ID --c2 32",
        Lookup(LookWords {
            policy: Policy::Puzzled { c1: 0, c2: 32 },
            ..LOOK
        }),
    ),
    (
        "lookup --c2 8 --c1 32 --target ID",
        Lookup(LookWords {
            policy: Policy::Puzzled { c1: 32, c2: 8 },
            ..LOOK
        }),
    ),
    ("lookup --target ID --bind 127.0.0.1:7000", Lookup(LOOK)),
    ("lookup --target ID --family 4", Lookup(LOOK)),
    (
        "lookup --family 6 --target ID --bind 127.0.0.1:7000",
        Lookup(SIX),
    ),
    (
        "lookup --target ID --bind [2001:0Db8:0000:0000:0000:0000:0000:00fF]:65535",
        Lookup(LOOK),
    ),
    (
        "lookup --group SEED --target ID",
        Lookup(LookWords {
            sealed: true,
            ..LOOK
        }),
    ),
    ("lookup --per-address 0 --target ID", Lookup(LOOK)),
    (
        "lookup --target ID --per-address 1",
        Lookup(LookWords {
            per_address: 1,
            ..LOOK
        }),
    ),
    ("lookup --claim named --target ID", Lookup(LOOK)),
    (
        "lookup --target ID --claim asked",
        Lookup(LookWords {
            claim: ClaimRule::Asked,
            ..LOOK
        }),
    ),
];

#[test]
fn words_of_a_lookup(rt: HostRuntime) -> Result<(), Fail> {
    all_give(rt.alloc(), LOOKUPS)
}

const OWN_K_3: LookWords = LookWords {
    k: 3,
    own: Some(Id(NAMED)),
    ..LOOK
};

const SEARCHES: &[Row] = &[
    ("peers --key ID", Peers(LOOK, None, false)),
    ("peers --announce 0 --key ID", Peers(LOOK, Some(0), false)),
    ("peers --spread yes --key ID", Peers(LOOK, None, true)),
    (
        "peers --key ID --announce 65535 --k 3 --own ID --spread no",
        Peers(OWN_K_3, Some(65535), false),
    ),
    (
        "peers --key ID --own ID --k 20 --paths 8 --alpha 4 --timeout 60000 --bits 5 --c1 32 --c2 32 --family 6 --per-address 255 --claim asked --bind 1.2.3.4:5 --group SEED --announce 1 --spread yes",
        Peers(GREATEST, Some(1), true),
    ),
];

#[test]
fn words_of_peers(rt: HostRuntime) -> Result<(), Fail> {
    all_give(rt.alloc(), SEARCHES)
}

const GETS: &[Row] = &[
    ("get --key ID", Get(LOOK)),
    ("get --k 3 --key ID", Get(K_3)),
    (
        "get --key ID --own ID --k 20 --paths 8 --alpha 4 --timeout 60000 --bits 5 --c1 32 --c2 32 --family 6 --per-address 255 --claim asked --bind 1.2.3.4:5 --group SEED",
        Get(GREATEST),
    ),
];

#[test]
fn words_of_get(rt: HostRuntime) -> Result<(), Fail> {
    all_give(rt.alloc(), GETS)
}

/// The key of the item `5:hello`, which is the target of its put; and that of a zero byte.
const HELLO: Id = Id([
    0xe2, 0x89, 0x10, 0xea, 0x0a, 0xdb, 0x94, 0xdd, 0x45, 0xce, 0xd7, 0x5f, 0xbf, 0xf3, 0xe1, 0x35,
    0xc0, 0x1b, 0xc4, 0x37,
]);

const NOTHING: Id = Id([
    0x5b, 0xa9, 0x3c, 0x9d, 0xb0, 0xcf, 0xf9, 0x3f, 0x52, 0xb5, 0x21, 0xd7, 0x42, 0x0e, 0x43, 0xf6,
    0xed, 0xa2, 0x78, 0x4f,
]);

const FOR_HELLO: LookWords = LookWords {
    target: HELLO,
    ..LOOK
};

const PUTS: &[Row] = &[
    (
        "put --value 353a68656c6c6f",
        Put(FOR_HELLO, b"5:hello", false),
    ),
    (
        "put --k 3 --value 353A68656c6C6F --spread no",
        Put(LookWords { k: 3, ..FOR_HELLO }, b"5:hello", false),
    ),
    (
        "put --spread yes --value 00",
        Put(
            LookWords {
                target: NOTHING,
                ..LOOK
            },
            b"\0",
            true,
        ),
    ),
    (
        "put --value 353a68656c6c6f --own ID --k 20 --paths 8 --alpha 4 --timeout 60000 --bits 5 --c1 32 --c2 32 --family 6 --bind 1.2.3.4:5 --group SEED --per-address 255 --claim asked --spread yes",
        Put(
            LookWords {
                target: HELLO,
                ..GREATEST
            },
            b"5:hello",
            true,
        ),
    ),
];

#[test]
fn words_of_put(rt: HostRuntime) -> Result<(), Fail> {
    all_give(rt.alloc(), PUTS)
}
