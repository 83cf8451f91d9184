//! Lists of words that are not of the plain form.
use super::read_line;
use kad_words::{WordsFault, read};
use std::alloc::Global;
use std::test::Fail;

fn is_refused(alloc: Global, line: &str) -> bool {
    match read_line(alloc, line) {
        Ok(_) => false,
        Err(fault) => fault == WordsFault::Usage,
    }
}

/// Each of these lines is refused.
fn all_are_refused(alloc: Global, lines: &[&'static str]) -> Result<(), Fail> {
    for line in lines {
        if !is_refused(alloc, line) {
            return Err(Fail::new(*line));
        }
    }
    Ok(())
}

const NO_PROOFS: &[&str] = &[
    "node --proof",
    "node --proof ",
    "node --proof ,",
    "node --proof SEED",
    "node --proof SEED ID",
    "node --proof PARTED",
    "node --proof PROOF --proof PROOF",
    "node --proof 01000000000000000000000000000000000000000000000000000000000000fe,00000000000000000000000000000000000000af,",
    "node --proof 0100000000000000000000000000000000000000000000000000000000000fe,00000000000000000000000000000000000000af",
    "node --proof 001000000000000000000000000000000000000000000000000000000000000fe,00000000000000000000000000000000000000af",
    "node --proof 01000000000000000000000000000000000000000000000000000000000000fe,0000000000000000000000000000000000000af",
    "node --proof 01000000000000000000000000000000000000000000000000000000000000fe,000000000000000000000000000000000000000af",
    "node --proof 01000000000000000000000000000000000000000000000000000000000000fe,,00000000000000000000000000000000000000af",
    "node --proof 01000000000000000000000000000000000000000000000000000000000000fe,0000000000000000000,000000000000000000af",
    "node --proof 01000000000000000000000000000000000000000000000000000000000000fe00000000000000000000000000000000000000af",
    "node --proof 01000000000000000000000000000000000000000000000000000000000000fe:00000000000000000000000000000000000000af",
    "node --proof 01000000000000000000000000000000000000000000000000000000000000fg,00000000000000000000000000000000000000af",
    "node --proof 01000000000000000000000000000000000000000000000000000000000000fe,00000000000000000000000000000000000000ag",
    "node --proof 00000000000000000000000000000000000000af,01000000000000000000000000000000000000000000000000000000000000fe",
    "serve --proof PROOF",
    "lookup --target ID --proof PROOF",
    "peers --key ID --proof PROOF",
    "table --proof PROOF",
    "mint --proof PROOF",
];

const NO_CLAIMS: &[&str] = &[
    "lookup --target ID --claim",
    "lookup --target ID --claim ",
    "lookup --target ID --claim yes",
    "lookup --target ID --claim Asked",
    "lookup --target ID --claim asked ",
    "lookup --target ID --claim ask",
    "lookup --target ID --claim askedd",
    "lookup --target ID --claim namedasked",
    "lookup --target ID --claim asked --claim asked",
    "lookup --target ID --claim named --claim asked",
    "peers --key ID --claim 0",
    "get --key ID --claim none",
    "node --claim no",
    "sim --claim 1",
    "serve --claim asked",
    "table --claim asked",
    "refresh --claim asked",
    "check --claim asked",
    "mint --claim asked",
];

#[test]
fn words_that_are_no_claim(rt: HostRuntime) -> Result<(), Fail> {
    all_are_refused(rt.alloc(), NO_CLAIMS)
}

#[test]
fn words_that_are_no_proof(rt: HostRuntime) -> Result<(), Fail> {
    all_are_refused(rt.alloc(), NO_PROOFS)
}

/// No words at all, which no line stands for.
fn nothing_is_refused(alloc: Global) -> bool {
    let none: [String; 0] = [];
    match read(alloc, none.as_slice()) {
        Ok(_) => false,
        Err(fault) => fault == WordsFault::Usage,
    }
}

const REFUSED: &[&str] = &[
    "",
    "find",
    "--help",
    "Lookup --target ID",
    "lookup",
    "peers",
    "lookup --target 0000000000000000000000000000000000000af",
    "lookup --target 00000000000000000000000000000000000000ag",
    "lookup --target ID --k 21",
    "lookup --target ID --k 8 --k 8",
    "lookup --target ID --k=8",
    "lookup --target ID --k",
    "lookup --target ID --speed 1",
    "lookup --target ID --k 0",
    "lookup --target ID --k 08",
    "lookup --target ID --k +8",
    "lookup --target ID --k -8",
    "lookup --target ID --k ",
    "lookup --target ID --k 18446744073709551617",
    "lookup --target ID -k 8",
    "lookup --target ID -- 8",
    "lookup --target ID --tar ID",
    "lookup --target ID --paths 9",
    "lookup --target ID --alpha 5",
    "lookup --target ID --bits 6",
    "lookup --target ID --timeout 60001",
    "lookup --target ID --c1 33",
    "lookup --target ID --own --k",
    "lookup --target ID --bind 127.0.0.1",
    "lookup --target ID --bind 127.0.0.1:65536",
    "lookup --target ID --bind 127.0.0.01:1",
    "lookup --target ID --bind [::1]:1",
    "lookup --target ID --announce 1",
    "lookup --target ID --family 5",
    "lookup --target ID --family 06",
    "lookup --target ID --family 46",
    "lookup --target ID --per-address 256",
    "lookup --target ID --per-address -1",
    "lookup --target ID --per-address",
    "lookup --target ID --per-address 1 --per-address 1",
    "node --per-address 256",
    "serve --per-address 256",
    "sim --per-address 1",
    "table --per-address 1",
    "lookup --target ID --family",
    "lookup --target ID --family 4 --family 4",
    "lookup --target ID --group",
    "lookup --target ID --group ID",
    "lookup --target ID --group 010000000000000000000000000000000000000000000000000000000000000",
    "lookup --target ID --group 01000000000000000000000000000000000000000000000000000000000000000",
    "lookup --target ID --group 01000000000000000000000000000000000000000000000000000000000000g0",
    "lookup --target ID --group SEED --group SEED",
    "lookup --target ID 8",
    "--target ID lookup",
    "peers --key ID --announce 65536",
    "peers --key ID --target ID",
    "peers --key ID --spread Yes",
    "peers --key ID --value 35",
    "get",
    "get --target ID",
    "get --key 00",
    "get --key ID --target ID",
    "get --key ID --key ID",
    "get --key ID --value 35",
    "get --key ID --announce 1",
    "put",
    "put --key ID",
    "put --value",
    "put --value ",
    "put --value 3",
    "put --value 353",
    "put --value 3g",
    "put --value 0x35",
    "put --value -5",
    "put --value 35 --value 35",
    "put --value 35 --key ID",
    "put --value 35 --target ID",
    "put --value 35 --announce 1",
    "put --value 35 --spread true",
    "put --value 35 --spread yes --spread yes",
    "get --key ID --spread yes",
    "lookup --target ID --spread no",
    "serve --receives 0",
    "serve --receives 1000000001",
    "serve --workers 0",
    "serve --workers 9",
    "serve --minutes 10081",
    "serve --minutes 00",
    "serve --minutes 1 --minutes 1",
    "serve --table maybe",
    "serve --table Yes",
    "serve --table ",
    "serve --table",
    "serve --table yes --table yes",
    "serve --all yes",
    "lookup --target ID --workers 1",
    "lookup --target ID --receives 1",
    "serve --paths 1",
    "serve --family 4",
    "node --receives 1000000001",
    "node --receives 00",
    "node --receives",
    "node --receives 1 --receives 1",
    "node --target ID",
    "node --key ID",
    "node --value 35",
    "node --family 4",
    "node --announce 1",
    "node --workers 1",
    "node --minutes 10081",
    "node --table n",
    "node --k 0",
    "node --paths 9",
    "node ID",
    "nodes",
    "table --target ID",
    "table --group SEED",
    "table --bind 127.0.0.1:1",
    "table --k 0",
    "table --family 4",
    "refresh --all maybe",
    "refresh --all Yes",
    "refresh --all ",
    "refresh --all yesno",
    "refresh --all yes --all no",
    "refresh --table yes",
    "refresh --minutes 1",
    "table --all yes",
    "check --c2 33",
    "check --k 1",
    "check --group SEED",
    "mint --seed ID",
    "mint --tries 0",
    "mint --tries 16777217",
    "mint --own ID",
    "mint --group SEED",
    "sim --nodes 20001",
    "sim --hostile 101",
    "sim --c1 1",
    "sim --family 4",
    "sim --group SEED",
    "sim --h 1",
];

#[test]
fn words_that_are_refused(rt: HostRuntime) -> Result<(), Fail> {
    assert!(rt; nothing_is_refused(rt.alloc()));
    all_are_refused(rt.alloc(), REFUSED)
}
