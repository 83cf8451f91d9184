//! The options: one line an option.

use crate::choice::{Choice, Kind, Need};
use kad_base::limits::{
    DEFAULT_ALPHA, DEFAULT_BITS, DEFAULT_K, DEFAULT_PATHS, DEFAULT_TIMEOUT, MAX_ALPHA, MAX_BITS,
    MAX_K, MAX_PATHS, MAX_TIMEOUT,
};

macro_rules! choice {
    ($name:expr, $kind:ident, $need:ident) => {
        Choice {
            name: $name,
            kind: Kind::$kind,
            need: Need::$need,
        }
    };
    ($name:expr, $least:expr, $most:expr) => {
        Choice {
            name: $name,
            kind: Kind::Number {
                least: $least as u32,
                most: $most as u32,
            },
            need: Need::Optional,
        }
    };
    ($name:expr, $least:expr, $most:expr, $default:expr) => {
        Choice {
            name: $name,
            kind: Kind::Number {
                least: $least as u32,
                most: $most as u32,
            },
            need: Need::OrElse($default as u32),
        }
    };
}

pub(crate) const TARGET: Choice = choice!("target", Identifier, Required);

pub(crate) const KEY: Choice = choice!("key", Identifier, Required);

pub(crate) const VALUE: Choice = choice!("value", AnyBytes, Required);

pub(crate) const OWN: Choice = choice!("own", Identifier, Optional);

pub(crate) const PROOF: Choice = choice!("proof", KeyAndX, Optional);

pub(crate) const K: Choice = choice!("k", 1, MAX_K, DEFAULT_K);

pub(crate) const PATHS: Choice = choice!("paths", 1, MAX_PATHS, DEFAULT_PATHS);

pub(crate) const ALPHA: Choice = choice!("alpha", 1, MAX_ALPHA, DEFAULT_ALPHA);

pub(crate) const TIMEOUT: Choice = choice!("timeout", 1, MAX_TIMEOUT, DEFAULT_TIMEOUT);

pub(crate) const BITS: Choice = choice!("bits", 1, MAX_BITS, DEFAULT_BITS);

pub(crate) const C1: Choice = choice!("c1", 0, 32, 0);

pub(crate) const C2: Choice = choice!("c2", 0, 32, 0);

pub(crate) const FAMILY: Choice = Choice {
    name: "family",
    kind: Kind::IpVersion,
    need: Need::OrElse(4),
};

/// 0 is no limit.
pub(crate) const PER_ADDRESS: Choice = choice!("per-address", 0, 255, 0);

pub(crate) const CLAIM: Choice = choice!("claim", Claim, OrNamed);

pub(crate) const BIND: Choice = choice!("bind", Address, Optional);

pub(crate) const GROUP: Choice = choice!("group", Bytes32, Optional);

pub(crate) const ANNOUNCE: Choice = choice!("announce", 0, 65_535);

pub(crate) const SPREAD: Choice = choice!("spread", YesNo, OrNo);

pub(crate) const RECEIVES: Choice = choice!("receives", 1, 1_000_000_000, 1_000_000_000);

/// The same option of `node`, which may want none.
pub(crate) const NODE_RECEIVES: Choice = choice!("receives", 0, 1_000_000_000, 0);

/// A week at most.
pub(crate) const MINUTES: Choice = choice!("minutes", 0, 10_080, 0);

pub(crate) const WORKERS: Choice = choice!("workers", 1, 8, 1);

pub(crate) const WITH_TABLE: Choice = choice!("table", YesNo, OrNo);

pub(crate) const ALL: Choice = choice!("all", YesNo, OrNo);

pub(crate) const SEED: Choice = choice!("seed", Bytes32, Optional);

pub(crate) const TRIES: Choice = choice!("tries", 1, 16_777_216, 1_048_576);

pub(crate) const NODES: Choice = choice!("nodes", 1, 20_000, 2_000);

pub(crate) const HOSTILE: Choice = choice!("hostile", 0, 100, 0);
