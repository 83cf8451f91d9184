//! Answers on their way, and which of them comes first.
ghost use Rattle.std.specs.Prelude.{◌≡◌, ◌+◌, ◌<◌, min, max, length, take, IfOk, OnOk, OnErr, IfSome, IsNone, Some};
ghost use Rattle.fake_net.specs.Queue.{FindsNext, Gets};
ghost use Rattle.fake_net.specs.Counting.{FindsAmong};
ghost use Rattle.fake_net.specs.Scripts.{IsWithin};

use crate::script::fill;
use kad_base::{Addr, Bytes, Came};

/// An answer that waits to be received, from its moment on, in milliseconds.
#[derive(Debug, Drop, PartialEq, Eq)]
pub struct Waiting {
    pub at: u64,
    pub from: Addr,
    pub bytes: Bytes,
}

/// The next of the first answers and of one more.
fn sooner(waiting: &[Waiting], until: u64, best: Option<usize>, place: usize) -> Option<usize>
    requires place { place < length waiting.now }
    requires best { FindsAmong waiting.now until place best }
    ensures { FindsAmong waiting.now until (place + 1) result }
{
    let answer = &waiting[place];
    match best {
        None if answer.at <= until => Some(place),
        None => None,
        Some(held) if answer.at < waiting[held].at => Some(place),
        Some(held) => Some(held),
    }
}

/// The place of the answer that comes next, at or before `until`; of two that come at one moment it is the one that was sent
/// for first.
fn next(waiting: &[Waiting], until: u64) -> Option<usize>
    ensures { FindsNext waiting.now until result }
{
    let mut best = None;
    for place in 0..waiting.len() {
        best = sooner(waiting, until, best, place);
    }
    best
}

/// What comes at or before `until`, after a moment. Takes no memory.
pub(crate) fn take_next(
    waiting: &mut Vec<Waiting>,
    moment_before: u64,
    buf: &mut [u8],
    until: u64,
) -> Came
    ensures gets { Gets waiting.old.items moment_before until
        (length buf.old) buf.new waiting.new.items result }
    ensures within { IsWithin result (length buf.new) }
    ensures room { length buf.new ≡ length buf.old }
{
    let Some(place) = next(waiting.as_slice(), until) else {
        return Came::Quiet {
            at: until.max(moment_before),
        };
    };
    let answer = waiting.remove(place);
    let len = fill(buf, answer.bytes.as_slice());
    Came::Packet {
        from: answer.from,
        len,
        at: answer.at.max(moment_before),
    }
}
