//! The lines that name a job: a word, and what is wanted with it. The words are this project's own.
ghost use Rattle.std.specs.Prelude.{◌≡◌, List, ℕ, IfOk, MatchOption};
ghost use Rattle.kad_base.specs.declared.types.Id.{Id};
ghost use Rattle.look_many.specs.declared.job.Job.{Job};
ghost use Rattle.node_commands.specs.JobLines.{IsAnnounceLine, IsJobLine, IsPutLine, NamesId};

use item_store::item_key;
use kad_base::{Bytes, Id, NoMemory};
use kad_text::read::{is_hex, read_bytes, read_id, read_number};
use look_many::Job;
use lookup_commands::item::is_item;
use std::alloc::Global;

/// Reads a line that names a job: `find ID`, `peers KEY`, `announce KEY PORT`, `get KEY` or `put HEX`. Identifiers and keys are 40
/// hex digits. PORT is a decimal number up to 65535 without leading zeros, as the option `--announce` takes it. HEX is the written
/// form of a value that may be an item (BEP 44), as the option `--value` takes it, and the key is its SHA-1.
pub(crate) fn read_job(alloc: Global, line: &[u8]) -> Result<Option<Job>, NoMemory>
    ensures { IfOk result (λ read. MatchOption read ((job : Job) → ¬ IsJobLine line.now job)
        (λ job. IsJobLine line.now job)) }
{
    match read_id_behind(line, b"find ") {
        Some(target) => Ok(Some(Job::Find { target })),
        None => match read_id_behind(line, b"peers ") {
            Some(key) => Ok(Some(Job::Peers { key })),
            None => match read_id_behind(line, b"get ") {
                Some(key) => Ok(Some(Job::Get { key })),
                None => match read_announce(line) {
                    Some((key, port)) => Ok(Some(Job::Announce { key, port })),
                    None => match read_put(alloc, line)? {
                        Some((key, v)) => Ok(Some(Job::Put { key, v })),
                        None => Ok(None),
                    },
                },
            },
        },
    }
}

/// Reads a word, with the space behind it, and an identifier.
fn read_id_behind(line: &[u8], word: &[u8]) -> Option<Id>
    ensures { MatchOption result ((id : Id) → ¬ NamesId word.now line.now id)
        (λ id. NamesId word.now line.now id) }
{
    let digits = line.strip_prefix(word)?;
    let Ok(text) = std::str::from_utf8(digits) else {
        return None;
    };
    read_id(text)
}

/// Reads the line of an announcement: the key, and the port.
fn read_announce(line: &[u8]) -> Option<(Id, u16)>
    ensures { MatchOption result ((key : Id) (port : ℕ) → ¬ IsAnnounceLine line.now key port)
        (λ said. IsAnnounceLine line.now said.0 said.1) }
{
    let rest = line.strip_prefix(b"announce ")?;
    let Ok(text) = std::str::from_utf8(rest) else {
        return None;
    };
    let (key, port) = text.split_once(' ')?;
    let key = read_id(key)?;
    let port = read_number(port, 0, u32::from(u16::MAX))?;
    Some((key, port as u16))
}

/// Reads the line of an item to be stored: its key, and its written form.
fn read_put(alloc: Global, line: &[u8]) -> Result<Option<(Id, Bytes)>, NoMemory>
    ensures { IfOk result (λ read. MatchOption read
        ((key : Id) (v : List ℕ) → ¬ IsPutLine line.now key v)
        (λ said. IsPutLine line.now said.0 said.1)) }
{
    let Some(digits) = line.strip_prefix(b"put ") else {
        return Ok(None);
    };
    let Ok(text) = std::str::from_utf8(digits) else {
        return Ok(None);
    };
    if !is_hex(text) {
        return Ok(None);
    }
    let v = read_bytes(alloc, text)?;
    if !is_item(alloc, v.as_slice())? {
        return Ok(None);
    }
    let key = item_key(v.as_slice());
    Ok(Some((key, v)))
}
