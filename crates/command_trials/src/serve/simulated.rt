//! Lookups in networks from a seed of zeros. The lines were computed by another program, in another language.
use crate::serve::trial::{Row, both_answer};
use std::test::Fail;

const SEED: &str = "0000000000000000000000000000000000000000000000000000000000000000";

const MOST: &[Row] = &[
    (
        &[
            "sim",
            "--seed",
            SEED,
            "--nodes",
            "2000",
            "--hostile",
            "5",
            "--paths",
            "4",
            "--k",
            "8",
        ],
        "xyz",
        0,
        "found 8 asked 62 failed 35 turned 0 honest 8\n",
    ),
    (
        &[
            "sim",
            "--seed",
            SEED,
            "--nodes",
            "2000",
            "--hostile",
            "10",
            "--paths",
            "8",
            "--k",
            "16",
        ],
        "xyz",
        0,
        "found 16 asked 86 failed 57 turned 0 honest 12\n",
    ),
    (
        &[
            "sim",
            "--seed",
            SEED,
            "--nodes",
            "500",
            "--hostile",
            "6",
            "--paths",
            "1",
            "--k",
            "8",
        ],
        "xyz",
        0,
        "found 8 asked 12 failed 2 turned 0 honest 8\n",
    ),
];

#[test]
fn most_of_a_network_are_found(rt: HostRuntime) -> Result<(), Fail> {
    both_answer(&rt, MOST)
}

const FEW: &[Row] = &[
    (
        &[
            "sim",
            "--seed",
            SEED,
            "--nodes",
            "500",
            "--hostile",
            "7",
            "--paths",
            "3",
            "--k",
            "20",
        ],
        "xyz",
        0,
        "found 20 asked 70 failed 37 turned 0 honest 13\n",
    ),
    (
        &[
            "sim",
            "--seed",
            SEED,
            "--nodes",
            "20000",
            "--hostile",
            "0",
            "--paths",
            "8",
            "--k",
            "16",
        ],
        "xyz",
        0,
        "found 16 asked 47 failed 0 turned 0 honest 13\n",
    ),
    (
        &[
            "sim",
            "--seed",
            SEED,
            "--nodes",
            "2000",
            "--hostile",
            "25",
            "--paths",
            "8",
            "--k",
            "16",
        ],
        "xyz",
        0,
        "found 4 asked 80 failed 76 turned 0 honest 0\n",
    ),
];

#[test]
fn few_of_a_network_are_found_among_hostile_ones(rt: HostRuntime) -> Result<(), Fail> {
    both_answer(&rt, FEW)
}
