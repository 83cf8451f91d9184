//! One receive call for all lookups, and what it gave.
ghost use Rattle.std.specs.Prelude.{◌≡◌, ◌≤◌, ◌<◌, ◌+◌, ◌^◌, [], length, true, IfOk, IfErr, IfSome, OnOk, OnErr, IsErrOf};
ghost use Rattle.std.specs.List.{AllByRecursion, AllZip};
ghost use Rattle.kad_base.specs.Limits.{max_round_receives, max_strays};
ghost use Rattle.kad_base.specs.Failing.{FailsLast};
ghost use Rattle.kad_base.specs.Outside.{Grows, Rose};
ghost use Rattle.id_puzzles.specs.Drawn.{WordsState};
ghost use Rattle.node_serve.specs.Calls.{IsSetting};
ghost use Rattle.serve_crew.specs.Hands.{SameHands};
ghost use Rattle.lookup_crowd.specs.inner.Crowd.{Holding, SameSeat, Advances, standing};
ghost use Rattle.lookup_crowd.specs.inner.ManySteps.{owed_in, IsOfDesk, Counts, Handles, Comes, Passes, Pays, after_paid, IsLastForeign, MayReceive, Received, Stops, EndsByForeign, RanOn};

use crate::host::{answer, expire_all};
use crate::seeker::{Driver, ManyFault, Progress, Seeker};
use crate::site::{Buffers, Site};
use crate::take::take;
use crate::wait::round_after;
use kad_base::limits::MAX_STRAYS;
use kad_base::{Addr, Came, Link, NoMemory};
use seal_tags::{Seal, SealCheck};
use serve_crew::Datagram;
use std::sync::Wait;

/// Counts a foreign datagram. While a query is open, the last that is taken is a fault.
fn count_foreign(progress: &mut Progress, busy: bool) -> Result<(), ManyFault>
    requires few { busy ≡ true → progress.old.foreign < max_strays }
    requires room { progress.old.foreign + 1 < 2 ^ 64 }
    ensures ok { OnOk result (Counts busy progress.old progress.new) }
    ensures err { IfErr result (λ fault. (fault ≡ ManyFault.Strays) × (busy ≡ true)
        × (progress.old.foreign + 1 ≡ max_strays)) }
{
    let foreign = progress.foreign + 1;
    if busy && foreign == u64::from(MAX_STRAYS) {
        return Err(ManyFault::Strays);
    }
    progress.foreign = foreign;
    Ok(())
}

/// Hands the datagram to the first lookup that it is for. What is for none is counted and answered: how many bytes its
/// reply has in front of `out`, where it is owed one.
fn handle<R: Wait, C, G: Seal + SealCheck>(
    site: &Site<R, C, G>,
    driver: &mut Driver,
    seekers: &mut [Seeker],
    busy: bool,
    datagram: &Datagram,
    out: &mut [u8; 4096],
) -> Result<Option<usize>, ManyFault>
    requires setting { IsSetting site.now.desk.setting.now }
    requires own { IsOfDesk site.now.desk driver.old.host }
    requires holds { AllByRecursion Holding seekers.old }
    requires few { busy ≡ true → driver.old.progress.foreign < max_strays }
    requires room { driver.old.progress.foreign + 1 < 2 ^ 64 }
    ensures same { SameHands driver.old.host driver.new.host }
    ensures len { length seekers.new ≡ length seekers.old }
    ensures seats { AllZip SameSeat seekers.old seekers.new }
    ensures ok { IfOk result (λ reply. Handles (G.accepted site.now.seal.now) (G.tag_of site.now.seal.now)
        site.now.desk.setting.now busy datagram.now.from datagram.now.bytes.now datagram.now.at seekers.old seekers.new driver.old.progress driver.new.progress driver.old.host
        driver.new.host (owed_in reply datagram.now.from out.new)) }
    ensures short { IfOk result (λ reply. IfSome reply (λ n. n ≤ 4096)) }
    ensures received { OnOk result (driver.new.progress.received ≡ driver.old.progress.received) }
    ensures strays { IsErrOf result ManyFault.Strays
        → IsLastForeign (G.accepted site.now.seal.now) datagram.now.from datagram.now.bytes.now busy seekers.old driver.old.progress }
    ensures link { ¬ IsErrOf result ManyFault.LinkFault }
    ensures ran_on { OnErr result (RanOn driver.old.host driver.new.host) }
{
    match take(
        site.alloc,
        seekers,
        site.seal,
        datagram.from,
        datagram.bytes,
    ) {
        Ok(true) => return Ok(None),
        Ok(false) => {}
        Err(NoMemory) => return Err(ManyFault::NoMemory),
    }
    match count_foreign(&mut driver.progress, busy) {
        Ok(()) => {}
        Err(fault) => return Err(fault),
    }
    match answer(
        site.rt,
        &site.desk,
        &mut driver.host,
        site.seal,
        datagram,
        out,
    ) {
        Ok(reply) => Ok(reply),
        Err(NoMemory) => Err(ManyFault::NoMemory),
    }
}

/// A datagram came at that moment, told with it: it is handled, and then all lookups lose who is overdue.
fn came<R: Wait, C, G: Seal + SealCheck>(
    site: &Site<R, C, G>,
    driver: &mut Driver,
    seekers: &mut [Seeker],
    busy: bool,
    datagram: &Datagram,
    out: &mut [u8; 4096],
) -> Result<Option<usize>, ManyFault>
    requires setting { IsSetting site.now.desk.setting.now }
    requires own { IsOfDesk site.now.desk driver.old.host }
    requires holds { AllByRecursion Holding seekers.old }
    requires few { busy ≡ true → driver.old.progress.foreign < max_strays }
    requires room { driver.old.progress.foreign + 1 < 2 ^ 64 }
    requires few_receives { driver.old.progress.receives < max_round_receives }
    requires few_received { driver.old.progress.received + 1 < 2 ^ 64 }
    ensures same { SameHands driver.old.host driver.new.host }
    ensures len { length seekers.new ≡ length seekers.old }
    ensures seats { AllZip SameSeat seekers.old seekers.new }
    ensures ok { IfOk result (λ reply. Comes (G.accepted site.now.seal.now) (G.tag_of site.now.seal.now)
        site.now.desk.setting.now busy datagram.now.from datagram.now.bytes.now datagram.now.at seekers.old seekers.new driver.old.progress driver.new.progress driver.old.host
        driver.new.host (owed_in reply datagram.now.from out.new)) }
    ensures short { IfOk result (λ reply. IfSome reply (λ n. n ≤ 4096)) }
    ensures strays { IsErrOf result ManyFault.Strays
        → IsLastForeign (G.accepted site.now.seal.now) datagram.now.from datagram.now.bytes.now busy seekers.old driver.old.progress }
    ensures link { ¬ IsErrOf result ManyFault.LinkFault }
    ensures ran_on { OnErr result (RanOn driver.old.host driver.new.host) }
{
    let reply = match handle(site, driver, seekers, busy, datagram, out) {
        Ok(reply) => reply,
        Err(fault) => return Err(fault),
    };
    expire_all(site.rt, &site.desk, &mut driver.host, seekers, datagram.at);
    driver.progress.moment = datagram.at;
    driver.progress.receives = round_after(driver.progress.receives, seekers);
    driver.progress.left = driver.progress.left.saturating_sub(1);
    driver.progress.received += 1;
    Ok(reply)
}

/// No datagram came until that moment: all lookups lose who is overdue, and the round is over.
fn none_came<R: Wait, C, G>(
    site: &Site<R, C, G>,
    driver: &mut Driver,
    seekers: &mut [Seeker],
    at: u64,
)
    requires own { IsOfDesk site.now.desk driver.old.host }
    requires holds { AllByRecursion Holding seekers.old }
    ensures same { SameHands driver.old.host driver.new.host }
    ensures len { length seekers.new ≡ length seekers.old }
    ensures passes { Passes at seekers.old seekers.new driver.old.progress driver.new.progress driver.old.host driver.new.host }
{
    expire_all(site.rt, &site.desk, &mut driver.host, seekers, at);
    driver.progress.moment = at;
    driver.progress.receives = 0;
    driver.progress.left = driver.progress.left.saturating_sub(1);
}

/// Sends the reply that a datagram is owed, if it is owed one: its first bytes of `out`. Whether it was sent.
fn pay<L: Link>(link: &mut L, to: Addr, reply: Option<usize>, out: &[u8; 4096]) -> bool
    requires { IfSome reply (λ n. n ≤ 4096) }
    ensures pays { Grows (L.told link.old) (L.told link.new)
        (Pays (owed_in reply to out.now) result) }
    ensures moment { L.moment link.new ≡ L.moment link.old }
    ensures recv_faults { L.recv_faults link.new ≡ L.recv_faults link.old }
    ensures send_faults { L.send_faults link.old ≤ L.send_faults link.new }
    ensures kept { L.kept link.new ≡ L.kept link.old }
{
    match reply {
        Some(length) => match link.send(to, &out[..length]) {
            Ok(()) => true,
            Err(_) => false,
        },
        None => false,
    }
}

/// Counts a reply that was sent.
fn count_reply(progress: &mut Progress, was_sent: bool)
    requires { progress.old.replied + 1 < 2 ^ 64 }
    ensures { progress.new ≡ after_paid progress.old was_sent }
{
    if was_sent {
        progress.replied += 1;
    }
}

/// Makes one receive call for all lookups, until that moment, and handles what it gave; `busy` says whether a query of a
/// lookup is open. A reply that a datagram is owed is sent at once. Whatever the events told of each lookup's journal they
/// go on to tell.
pub fn receive_until<R: Wait, L: Link, C, G: Seal + SealCheck>(
    site: &Site<R, C, G>,
    link: &mut L,
    driver: &mut Driver,
    seekers: &mut [Seeker],
    busy: bool,
    until: u64,
    buffers: &mut Buffers,
) -> Result<(), ManyFault>
    requires setting { IsSetting site.now.desk.setting.now }
    requires own { IsOfDesk site.now.desk driver.old.host }
    requires may { MayReceive seekers.old driver.old.progress until busy }
    requires moment { L.moment link.old ≡ driver.old.progress.moment }
    ensures same { SameHands driver.old.host driver.new.host }
    ensures len { length seekers.new ≡ length seekers.old }
    ensures seats { AllZip SameSeat seekers.old seekers.new }
    ensures goes { OnOk result ((words : WordsState) → Advances busy [] (G.accepted site.now.seal.now)
        (G.tag_of site.now.seal.now) site.now.desk.setting.now
        (standing seekers.old driver.old words (L.told link.old))
        (standing seekers.new driver.new words (L.told link.new))) }
    ensures received { OnOk result (Received busy seekers.old seekers.new driver.old.progress driver.new.progress) }
    ensures later { OnOk result (driver.old.progress.moment ≤ driver.new.progress.moment) }
    ensures moment { OnOk result (L.moment link.new ≡ driver.new.progress.moment) }
    ensures stops { IfErr result (λ fault. (words : WordsState) → Stops busy fault
        (G.accepted site.now.seal.now) (G.tag_of site.now.seal.now) site.now.desk.setting.now
        (standing seekers.old driver.old words (L.told link.old)) (L.told link.new)) }
    ensures ran_on { OnErr result (RanOn driver.old.host driver.new.host) }
    ensures strays { IsErrOf result ManyFault.Strays → (words : WordsState)
        → EndsByForeign busy (G.accepted site.now.seal.now) (G.tag_of site.now.seal.now) site.now.desk.setting.now
        (standing seekers.old driver.old words (L.told link.old)) (L.told link.new) }
    ensures busy { IsErrOf result ManyFault.Strays → busy ≡ true }
    ensures link { IsErrOf result ManyFault.LinkFault
        → Rose (L.recv_faults link.old) (L.recv_faults link.new) }
    ensures last { IsErrOf result ManyFault.LinkFault
        → FailsLast L.told L.recv_faults link.old link.new }
    ensures recv_faults { L.recv_faults link.old ≤ L.recv_faults link.new }
    ensures send_faults { L.send_faults link.old ≤ L.send_faults link.new }
    ensures well { ¬ IsErrOf result ManyFault.LinkFault
        → L.recv_faults link.new ≡ L.recv_faults link.old }
    ensures kept { L.kept link.new ≡ L.kept link.old }
{
    match link.recv(&mut buffers.room, until) {
        Ok(Came::Packet { from, len, at }) => {
            let datagram = Datagram {
                from,
                bytes: &buffers.room[..len],
                at,
            };
            match came(site, driver, seekers, busy, &datagram, &mut buffers.out) {
                Ok(reply) => {
                    let was_sent = pay(link, from, reply, &buffers.out);
                    count_reply(&mut driver.progress, was_sent);
                    Ok(())
                }
                Err(fault) => Err(fault),
            }
        }
        Ok(Came::Quiet { at }) => {
            none_came(site, driver, seekers, at);
            Ok(())
        }
        Err(_) => Err(ManyFault::LinkFault),
    }
}
