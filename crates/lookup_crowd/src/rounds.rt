//! The rounds of all lookups: all ask, all receive, all settle, until none has anything to wait for.
ghost use Rattle.std.specs.Prelude.{◌≡◌, ◌≤◌, ◌<◌, [], length, true, false, IfOk, IfErr, OnOk, IsErrOf, ◌+◌};
ghost use Rattle.std.specs.List.{AllByRecursion};
ghost use Rattle.kad_base.specs.Failing.{FailsLast};
ghost use Rattle.kad_base.specs.Outside.{Rose};
ghost use Rattle.node_serve.specs.Calls.{IsSetting};
ghost use Rattle.serve_crew.specs.Hands.{SameHands};
ghost use Rattle.lookup_crowd.specs.inner.Crowd.{LosesMore, standing};
ghost use Rattle.lookup_crowd.specs.inner.ManySteps.{IsOfDesk, IsSeated};
ghost use Rattle.lookup_crowd.specs.inner.Going.{AreOver, Begins, EndGoing, HaveGone, HaveReceived, SameSeats};

use crate::ask::ask_all;
use crate::legal::all_legal;
use crate::round::receive_round;
use crate::seeker::{Driver, ManyFault, Seeker};
use crate::settle::settle_all;
use crate::site::{Buffers, Site};
use crate::wait::earliest;
use id_puzzles::Words;
use kad_base::{Link, NoMemory};
use path_worker::PacedCheck;
use seal_tags::{Seal, SealCheck};
use std::sync::Wait;
use std::thread::Threads;

/// Asks what all may ask, and receives; false where nothing was left to wait for.
fn ask_and_receive<R: Wait, L: Link, C, G: Seal + SealCheck>(
    site: &Site<R, C, G>,
    link: &mut L,
    driver: &mut Driver,
    seekers: &mut [Seeker],
    words: &mut Words,
    owners: &mut Vec<u64>,
    buffers: &mut Buffers,
) -> Result<bool, ManyFault>
    requires setting { IsSetting site.now.desk.setting.now }
    requires own { IsOfDesk site.now.desk driver.old.host }
    requires begins { Begins (standing seekers.old driver.old words.old (L.told link.old)) }
    requires moment { L.moment link.old ≡ driver.old.progress.moment }
    ensures same { SameHands driver.old.host driver.new.host }
    ensures len { length seekers.new ≡ length seekers.old }
    ensures seats { SameSeats seekers.old seekers.new }
    ensures goes { OnOk result (HaveGone (G.accepted site.now.seal.now) (G.tag_of site.now.seal.now) site.now.desk.setting.now
        (standing seekers.old driver.old words.old (L.told link.old))
        (standing seekers.new driver.new words.new (L.told link.new)) owners.old.items owners.new.items) }
    ensures received { IfOk result (λ more. more ≡ true
        → HaveReceived (standing seekers.new driver.new words.new (L.told link.new))) }
    ensures over { IfOk result (λ more. more ≡ false
        → AreOver (standing seekers.new driver.new words.new (L.told link.new))) }
    ensures moment { OnOk result (L.moment link.new ≡ driver.new.progress.moment) }
    ensures ends { IfErr result (λ fault. EndGoing fault (G.accepted site.now.seal.now) (G.tag_of site.now.seal.now)
        site.now.desk.setting.now (standing seekers.old driver.old words.old (L.told link.old))
        words.new driver.new.host (L.told link.new)) }
    ensures link { IsErrOf result ManyFault.LinkFault
        → Rose (L.recv_faults link.old) (L.recv_faults link.new) }
    ensures last { IsErrOf result ManyFault.LinkFault
        → FailsLast L.told L.recv_faults link.old link.new }
    ensures recv_faults { L.recv_faults link.old ≤ L.recv_faults link.new }
    ensures loses { OnOk result (LosesMore seekers.old seekers.new (L.send_faults link.old) (L.send_faults link.new)) }
    ensures well { ¬ IsErrOf result ManyFault.LinkFault
        → L.recv_faults link.new ≡ L.recv_faults link.old }
    ensures kept { L.kept link.new ≡ L.kept link.old }
{
    match ask_all(link, seekers, words, &driver.progress, owners) {
        Ok(()) => {}
        Err(NoMemory) => {
            all_legal(seekers);
            return Err(ManyFault::NoMemory);
        }
    }
    match earliest(seekers) {
        Some(_) => {}
        None => return Ok(false),
    }
    match receive_round(site, link, driver, seekers, buffers) {
        Ok(()) => Ok(true),
        Err(fault) => Err(fault),
    }
}

/// Goes round until every path of each lookup has run out.
pub fn go_rounds<R: Threads + Wait + Sync, L: Link, C: PacedCheck + Sync, G: Seal + SealCheck>(
    site: &Site<R, C, G>,
    link: &mut L,
    driver: &mut Driver,
    seekers: &mut [Seeker],
    words: &mut Words,
    owners: &mut Vec<u64>,
) -> Result<(), ManyFault>
    requires setting { IsSetting site.now.desk.setting.now }
    requires own { IsOfDesk site.now.desk driver.old.host }
    requires seated { AllByRecursion (IsSeated site.now.desk.turns.now.table) seekers.old }
    requires begins { Begins (standing seekers.old driver.old words.old (L.told link.old)) }
    requires moment { L.moment link.old ≡ driver.old.progress.moment }
    ensures same { SameHands driver.old.host driver.new.host }
    ensures len { length seekers.new ≡ length seekers.old }
    ensures seats { SameSeats seekers.old seekers.new }
    ensures goes { OnOk result (HaveGone (G.accepted site.now.seal.now) (G.tag_of site.now.seal.now) site.now.desk.setting.now
        (standing seekers.old driver.old words.old (L.told link.old))
        (standing seekers.new driver.new words.new (L.told link.new)) owners.old.items owners.new.items) }
    ensures over { OnOk result (AreOver (standing seekers.new driver.new words.new (L.told link.new))) }
    ensures moment { OnOk result (L.moment link.new ≡ driver.new.progress.moment) }
    ensures ends { IfErr result (λ fault. EndGoing fault (G.accepted site.now.seal.now) (G.tag_of site.now.seal.now)
        site.now.desk.setting.now (standing seekers.old driver.old words.old (L.told link.old))
        words.new driver.new.host (L.told link.new)) }
    ensures link { IsErrOf result ManyFault.LinkFault
        → Rose (L.recv_faults link.old) (L.recv_faults link.new) }
    ensures last { IsErrOf result ManyFault.LinkFault
        → FailsLast L.told L.recv_faults link.old link.new }
    ensures recv_faults { L.recv_faults link.old ≤ L.recv_faults link.new }
    ensures loses { OnOk result (LosesMore seekers.old seekers.new (L.send_faults link.old) (L.send_faults link.new)) }
    ensures well { ¬ IsErrOf result ManyFault.LinkFault
        → L.recv_faults link.new ≡ L.recv_faults link.old }
    ensures kept { L.kept link.new ≡ L.kept link.old }
{
    let mut buffers = Buffers::new();
    'rounds: for _ in site.rt.forever() {
        match ask_and_receive(site, link, driver, seekers, words, owners, &mut buffers) {
            Ok(true) => {}
            Ok(false) => return Ok(()),
            Err(fault) => return Err(fault),
        }
        match settle_all(site.rt, &site.desk.turns.table, site.check, seekers) {
            Ok(()) => {}
            Err(NoMemory) => {
                all_legal(seekers);
                return Err(ManyFault::NoMemory);
            }
        }
    }
    unreachable!()
}
