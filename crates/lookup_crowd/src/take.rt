//! Whose a datagram is.
ghost use Rattle.std.specs.Prelude.{◌≡◌, ◌<◌, ℕ, List, length, MatchOption, IfOk, IsTrue, OnOk};
ghost use Rattle.std.specs.List.{AllByRecursion, AllZip};
ghost use Rattle.lookup_core.specs.Reply.{reply_seen, said_seen};
ghost use Rattle.lookup_core.specs.Says.{IsRead};
ghost use Rattle.lookup_crowd.specs.inner.Crowd.{Holding, SameSeat};
ghost use Rattle.lookup_crowd.specs.inner.ManySteps.{IsUnasked, FirstWaits, IsNotFor, Hears, Takes};

use crate::seeker::Seeker;
use kad_base::{Addr, NoMemory};
use lookup_core::{ReplyView, SaidView, Taken, keep, read_reply};
use seal_tags::SealCheck;
use std::alloc::Global;

/// Whether no query of any lookup was sent to that address, so that what comes from there is for none of them.
fn is_unasked(seekers: &[Seeker], from: Addr) -> bool
    ensures { IsTrue result → AllByRecursion (IsUnasked from) seekers.now }
{
    for seeker in seekers {
        if seeker.lookup.queries.is_asked(from) {
            return false;
        }
    }
    true
}

/// The first lookup that has an open query which the reply, read in a datagram from that address, is to, and that query's
/// place; `None` if none has.
fn first_that_waits<G: SealCheck>(
    alloc: Global,
    seekers: &[Seeker],
    seal: &G,
    from: Addr,
    said: &SaidView,
) -> Result<Option<(usize, usize)>, NoMemory>
    requires { AllByRecursion Holding seekers.now }
    ensures { IfOk result (λ found. (bytes : List ℕ) → IsRead bytes said.now → MatchOption found
        (AllByRecursion (λ k. IsNotFor (G.accepted seal.now) from bytes k) seekers.now)
        (FirstWaits (G.accepted seal.now) from bytes (said_seen said.now) seekers.now)) }
{
    for i in 0..seekers.len() {
        let seeker = &seekers[i];
        match seeker
            .lookup
            .place_of(alloc, &seeker.quest, seal, from, said)
        {
            Ok(None) => {}
            Ok(Some(place)) => return Ok(Some((i, place))),
            Err(NoMemory) => return Err(NoMemory),
        }
    }
    Ok(None)
}

/// The lookup hears the reply to its query at that place, and keeps what it gives beside contacts.
fn hear(alloc: Global, seeker: &mut Seeker, place: usize, reply: ReplyView) -> Result<(), NoMemory>
    requires holds { Holding seeker.old }
    requires open { place < length seeker.old.lookup.queries }
    ensures seat { SameSeat seeker.old seeker.new }
    ensures ok { OnOk result (Hears place (reply_seen reply.entry) seeker.old seeker.new) }
{
    match seeker.lookup.hear(alloc, &seeker.quest, place, reply)? {
        Taken::Heard(answered) => {
            keep(alloc, &mut seeker.gathered, seeker.quest.kind, answered)?;
            Ok(())
        }
        Taken::Stray => Ok(()),
        Taken::Lost => Ok(()),
    }
}

/// Hands the datagram, which is read once, to the first lookup that has an open query to which it replies; false where it
/// replies to none of all, and then nothing changes.
pub(crate) fn take<G: SealCheck>(
    alloc: Global,
    seekers: &mut [Seeker],
    seal: &G,
    from: Addr,
    bytes: &[u8],
) -> Result<bool, NoMemory>
    requires { AllByRecursion Holding seekers.old }
    ensures len { length seekers.new ≡ length seekers.old }
    ensures seats { AllZip SameSeat seekers.old seekers.new }
    ensures ok { IfOk result (Takes (G.accepted seal.now) from bytes.now seekers.old seekers.new) }
{
    if is_unasked(seekers, from) {
        return Ok(false);
    }
    let said = match read_reply(bytes) {
        Some(said) => said,
        None => return Ok(false),
    };
    match first_that_waits(alloc, seekers, seal, from, &said) {
        Ok(Some((i, place))) => {
            hear(alloc, &mut seekers[i], place, said.reply)?;
            Ok(true)
        }
        Ok(None) => Ok(false),
        Err(NoMemory) => Err(NoMemory),
    }
}
