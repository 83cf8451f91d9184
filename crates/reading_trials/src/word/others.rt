//! Words of the commands that neither look up nor serve.
use super::Given::{Check, Mint, Refresh, Sim, Table};
use super::{NAMED, Row, SOWN, all_give};
use kad_base::{ClaimRule, Id, Policy};
use kad_words::{MintWords, RefreshWords, SimWords, TableWords};
use std::test::Fail;

const TABLES_AND_CHECKS: &[Row] = &[
    (
        "table",
        Table(TableWords {
            own: None,
            k: 8,
            bits: 1,
            policy: Policy::Plain,
        }),
    ),
    (
        "table --c1 8 --bits 5 --own ID --k 20",
        Table(TableWords {
            own: Some(Id(NAMED)),
            k: 20,
            bits: 5,
            policy: Policy::Puzzled { c1: 8, c2: 0 },
        }),
    ),
    ("check", Check(Policy::Plain)),
    ("check --c1 8", Check(Policy::Puzzled { c1: 8, c2: 0 })),
];

#[test]
fn words_of_table_and_check(rt: HostRuntime) -> Result<(), Fail> {
    all_give(rt.alloc(), TABLES_AND_CHECKS)
}

const REFRESHES: &[Row] = &[
    (
        "refresh",
        Refresh(RefreshWords {
            timeout: 2000,
            sealed: false,
            all: false,
        }),
    ),
    (
        "refresh --all no --timeout 1",
        Refresh(RefreshWords {
            timeout: 1,
            sealed: false,
            all: false,
        }),
    ),
    (
        "refresh --group SEED --all yes",
        Refresh(RefreshWords {
            timeout: 2000,
            sealed: true,
            all: true,
        }),
    ),
];

#[test]
fn words_of_refresh(rt: HostRuntime) -> Result<(), Fail> {
    all_give(rt.alloc(), REFRESHES)
}

const MINTS: &[Row] = &[
    (
        "mint",
        Mint(MintWords {
            seed: None,
            c1: 0,
            c2: 0,
            tries: 1_048_576,
        }),
    ),
    (
        "mint --c2 4 --seed SEED --tries 1",
        Mint(MintWords {
            seed: Some(SOWN),
            c1: 0,
            c2: 4,
            tries: 1,
        }),
    ),
    (
        "mint --tries 16777216 --c1 32",
        Mint(MintWords {
            seed: None,
            c1: 32,
            c2: 0,
            tries: 16_777_216,
        }),
    ),
];

#[test]
fn words_of_mint(rt: HostRuntime) -> Result<(), Fail> {
    all_give(rt.alloc(), MINTS)
}

/// A network with all defaults.
const NETWORK: SimWords = SimWords {
    seed: None,
    nodes: 2000,
    hostile: 0,
    k: 8,
    paths: 4,
    alpha: 3,
    timeout: 2000,
    claim: ClaimRule::Named,
};

const SIMS: &[Row] = &[
    ("sim", Sim(NETWORK)),
    (
        "sim --nodes 1 --hostile 100 --seed SEED",
        Sim(SimWords {
            seed: Some(SOWN),
            nodes: 1,
            hostile: 100,
            ..NETWORK
        }),
    ),
    (
        "sim --timeout 7 --alpha 2 --paths 3 --k 5 --nodes 20000",
        Sim(SimWords {
            nodes: 20_000,
            k: 5,
            paths: 3,
            alpha: 2,
            timeout: 7,
            ..NETWORK
        }),
    ),
    ("sim --claim named", Sim(NETWORK)),
    (
        "sim --nodes 1 --claim asked",
        Sim(SimWords {
            nodes: 1,
            claim: ClaimRule::Asked,
            ..NETWORK
        }),
    ),
];

#[test]
fn words_of_sim(rt: HostRuntime) -> Result<(), Fail> {
    all_give(rt.alloc(), SIMS)
}
