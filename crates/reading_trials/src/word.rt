//! Lists of words and what each gives. Words are parted by one space; `ID` stands for an identifier of 40 digits, `SEED`
//! for 64, `ZEROS` for 64 zeros, `PROOF` for a key and X, and `PARTED` for one word with a blank between these. A test names
//! constants, and one function reads them all.
mod addresses;
mod groups;
mod looking;
mod others;
mod refused;
mod serving;

use kad_base::{ClaimRule, Family, Id, Policy};
use kad_words::{
    Command, LookWords, MintWords, NodeWords, RefreshWords, ServeWords, SimWords, TableWords,
    WordsFault, read,
};
use std::alloc::{AllocError, Global};
use std::test::Fail;

const ID: &str = "00000000000000000000000000000000000000aF";

const SEED: &str = "01000000000000000000000000000000000000000000000000000000000000Fe";

const ZEROS: &str = "0000000000000000000000000000000000000000000000000000000000000000";

const PROOF: &str =
    "01000000000000000000000000000000000000000000000000000000000000Fe,00000000000000000000000000000000000000aF";

const PARTED: &str =
    "01000000000000000000000000000000000000000000000000000000000000Fe 00000000000000000000000000000000000000aF";

/// The bytes of `ID`.
const NAMED: [u8; 20] = [
    0, 0, 0, 0, 0, 0, 0, 0, 0, 0, 0, 0, 0, 0, 0, 0, 0, 0, 0, 0xaf,
];

/// The bytes of `SEED`.
const SOWN: [u8; 32] = [
    1, 0, 0, 0, 0, 0, 0, 0, 0, 0, 0, 0, 0, 0, 0, 0, 0, 0, 0, 0, 0, 0, 0, 0, 0, 0, 0, 0, 0, 0, 0,
    0xfe,
];

/// A lookup of `ID` with all defaults.
const LOOK: LookWords = LookWords {
    target: Id(NAMED),
    own: None,
    k: 8,
    paths: 4,
    alpha: 3,
    timeout: 2000,
    bits: 1,
    policy: Policy::Plain,
    family: Family::Four,
    sealed: false,
    per_address: 0,
    claim: ClaimRule::Named,
};

/// A lookup of `ID` with the greatest values.
const GREATEST: LookWords = LookWords {
    target: Id(NAMED),
    own: Some(Id(NAMED)),
    k: 20,
    paths: 8,
    alpha: 4,
    timeout: 60000,
    bits: 5,
    policy: Policy::Puzzled { c1: 32, c2: 32 },
    family: Family::Six,
    sealed: true,
    per_address: 255,
    claim: ClaimRule::Asked,
};

/// What a line gives.
#[derive(Clone, Copy)]
enum Given {
    Lookup(LookWords),
    /// With the port that is announced, and whether it is spread.
    Peers(LookWords, Option<u16>, bool),
    Get(LookWords),
    /// With the value, and whether it is spread.
    Put(LookWords, &'static [u8], bool),
    Serve(ServeWords),
    Node(NodeWords),
    Table(TableWords),
    Refresh(RefreshWords),
    Check(Policy),
    Mint(MintWords),
    Sim(SimWords),
}

/// A line, and what it gives.
type Row = (&'static str, Given);

fn words_of(alloc: Global, line: &str) -> Result<Vec<String>, AllocError> {
    let mut words = Vec::new(alloc);
    for word in line.split(' ') {
        let word = match word {
            "ID" => ID,
            "SEED" => SEED,
            "ZEROS" => ZEROS,
            "PROOF" => PROOF,
            "PARTED" => PARTED,
            _ => word,
        };
        words.push(String::from_str(alloc, word)?)?;
    }
    Ok(words)
}

fn read_line(alloc: Global, line: &str) -> Result<Command, WordsFault> {
    let Ok(words) = words_of(alloc, line) else {
        return Err(WordsFault::NoMemory);
    };
    read(alloc, words.as_slice())
}

/// Whether a command is this one.
fn is(command: &Command, given: &Given) -> bool {
    match (command, given) {
        (Command::Lookup { look }, Given::Lookup(wanted)) => look == wanted,
        (
            Command::Peers {
                look,
                announce,
                spread,
            },
            Given::Peers(wanted, port, wide),
        ) => look == wanted && announce == port && spread == wide,
        (Command::Get { look }, Given::Get(wanted)) => look == wanted,
        (
            Command::Put {
                look,
                value,
                spread,
            },
            Given::Put(wanted, bytes, wide),
        ) => look == wanted && value.as_slice() == *bytes && spread == wide,
        (Command::Serve { words }, Given::Serve(wanted)) => words == wanted,
        (Command::Node { words }, Given::Node(wanted)) => words == wanted,
        (Command::Table { words }, Given::Table(wanted)) => words == wanted,
        (Command::Refresh { words }, Given::Refresh(wanted)) => words == wanted,
        (Command::Check { policy }, Given::Check(wanted)) => policy == wanted,
        (Command::Mint { words }, Given::Mint(wanted)) => words == wanted,
        (Command::Sim { words }, Given::Sim(wanted)) => words == wanted,
        _ => false,
    }
}

/// Whether the line is read, and gives this.
fn gives(alloc: Global, line: &str, given: &Given) -> bool {
    match read_line(alloc, line) {
        Ok(command) => is(&command, given),
        Err(_) => false,
    }
}

/// Each of these lines gives what stands beside it; the first that doesn't is named.
fn all_give(alloc: Global, rows: &[Row]) -> Result<(), Fail> {
    for (line, given) in rows {
        if !gives(alloc, line, given) {
            return Err(Fail::new(*line));
        }
    }
    Ok(())
}
