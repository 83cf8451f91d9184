//! The values of bencode.
ghost use Rattle.std.specs.Prelude.{◌≡◌, [], List};

use crate::entries::Dictionary;
use kad_base::{Bytes, List, NoMemory};

/// The values of a list, in order.
pub type Values = List<Value>;

/// A dictionary's keys with their values, the keys ascending.
pub type Entries = Dictionary<Value>;

/// What a text names (BEP 3): an integer, a byte string, a list or a dictionary.
#[derive(Debug, Drop)]
pub enum Value {
    Int(i64),
    Text(Bytes),
    List(Values),
    Dict(Entries),
}

/// Why bytes spell no value. Places are counted in bytes from 0.
#[derive(Clone, Copy, Debug, PartialEq, Eq)]
pub enum Bad {
    /// No text of bencode goes on so; `at` is the first byte that doesn't belong, or the end.
    NotBencode { at: usize },
    /// A list or dictionary begins at `at` that would be the 17th open one.
    Deep { at: usize },
    /// The integer at `at` isn't one of 64 bits with a sign.
    NumberTooBig { at: usize },
    /// The key whose spelling begins at `at` was there before.
    KeyTwice { at: usize },
    /// The value ends before `at`, and more bytes follow.
    Trailing { at: usize },
}

/// Why a value isn't read.
#[derive(Clone, Copy, Debug, PartialEq, Eq)]
pub enum BenFault {
    Bad(Bad),
    NoMemory,
}

impl From<NoMemory> for BenFault {
    ghost use Rattle.std.specs.Prelude.{◌≡◌};
    ghost use Rattle.kad_bencode.specs.declared.value.BenFault.TheVariants as fault;

    ghost from_gives = { λ _ e. e ≡ fault.NoMemory };

    fn from(_: NoMemory) -> Self {
        BenFault::NoMemory
    }
}
