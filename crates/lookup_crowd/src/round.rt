//! The receives of a round, while a query of a lookup is open.
ghost use Rattle.std.specs.Prelude.{◌≡◌, ◌≤◌, ◌+◌, [], length, true, OnOk, IfErr, IsErrOf};
ghost use Rattle.std.specs.List.{AllZip};
ghost use Rattle.kad_base.specs.Failing.{FailsLast};
ghost use Rattle.kad_base.specs.Outside.{Rose};
ghost use Rattle.id_puzzles.specs.Drawn.{WordsState};
ghost use Rattle.node_serve.specs.Calls.{IsSetting};
ghost use Rattle.serve_crew.specs.Hands.{SameHands};
ghost use Rattle.lookup_crowd.specs.inner.Crowd.{SameSeat, Advances, standing};
ghost use Rattle.lookup_crowd.specs.inner.ManySteps.{IsOfDesk, MayAwait, Received, ReceivedAll, EndsEarly, EndsLast};

use crate::legal::all_legal;
use crate::receive::receive_until;
use crate::seeker::{Driver, ManyFault, Seeker};
use crate::site::{Buffers, Site};
use crate::wait::wait_until;
use kad_base::Link;
use seal_tags::{Seal, SealCheck};
use std::sync::Wait;

/// Makes one receive call for all lookups, of which a query is open: it waits to the earliest deadline of all where it
/// begins a round, and else not at all.
fn receive<R: Wait, L: Link, C, G: Seal + SealCheck>(
    site: &Site<R, C, G>,
    link: &mut L,
    driver: &mut Driver,
    seekers: &mut [Seeker],
    buffers: &mut Buffers,
) -> Result<(), ManyFault>
    requires setting { IsSetting site.now.desk.setting.now }
    requires own { IsOfDesk site.now.desk driver.old.host }
    requires may { MayAwait seekers.old driver.old.progress }
    requires moment { L.moment link.old ≡ driver.old.progress.moment }
    ensures same { SameHands driver.old.host driver.new.host }
    ensures len { length seekers.new ≡ length seekers.old }
    ensures seats { AllZip SameSeat seekers.old seekers.new }
    ensures goes { OnOk result ((words : WordsState) → Advances true [] (G.accepted site.now.seal.now)
        (G.tag_of site.now.seal.now) site.now.desk.setting.now
        (standing seekers.old driver.old words (L.told link.old))
        (standing seekers.new driver.new words (L.told link.new))) }
    ensures received { OnOk result (Received true seekers.old seekers.new driver.old.progress driver.new.progress) }
    ensures later { OnOk result (driver.old.progress.moment ≤ driver.new.progress.moment) }
    ensures moment { OnOk result (L.moment link.new ≡ driver.new.progress.moment) }
    ensures stops { IfErr result (λ fault. (words : WordsState) → EndsEarly true fault
        (G.accepted site.now.seal.now) (G.tag_of site.now.seal.now) site.now.desk.setting.now
        (standing seekers.old driver.old words (L.told link.old)) driver.new.host (L.told link.new)) }
    ensures strays { IsErrOf result ManyFault.Strays → (words : WordsState)
        → EndsLast (G.accepted site.now.seal.now) (G.tag_of site.now.seal.now) site.now.desk.setting.now
        (standing seekers.old driver.old words (L.told link.old)) driver.new.host (L.told link.new) }
    ensures link { IsErrOf result ManyFault.LinkFault
        → Rose (L.recv_faults link.old) (L.recv_faults link.new) }
    ensures last { IsErrOf result ManyFault.LinkFault
        → FailsLast L.told L.recv_faults link.old link.new }
    ensures recv_faults { L.recv_faults link.old ≤ L.recv_faults link.new }
    ensures send_faults { L.send_faults link.old ≤ L.send_faults link.new }
    ensures well { ¬ IsErrOf result ManyFault.LinkFault
        → L.recv_faults link.new ≡ L.recv_faults link.old }
    ensures kept { L.kept link.new ≡ L.kept link.old }
{
    all_legal(seekers);
    let until = wait_until(&driver.progress, seekers);
    match receive_until(site, link, driver, seekers, true, until, buffers) {
        Ok(()) => Ok(()),
        Err(fault) => Err(fault),
    }
}

/// Makes the receives of a round: one that waits to the earliest deadline of all, and up to 31 more that wait for nothing.
pub(crate) fn receive_round<R: Wait, L: Link, C, G: Seal + SealCheck>(
    site: &Site<R, C, G>,
    link: &mut L,
    driver: &mut Driver,
    seekers: &mut [Seeker],
    buffers: &mut Buffers,
) -> Result<(), ManyFault>
    requires setting { IsSetting site.now.desk.setting.now }
    requires own { IsOfDesk site.now.desk driver.old.host }
    requires may { MayAwait seekers.old driver.old.progress }
    requires moment { L.moment link.old ≡ driver.old.progress.moment }
    ensures same { SameHands driver.old.host driver.new.host }
    ensures len { length seekers.new ≡ length seekers.old }
    ensures seats { AllZip SameSeat seekers.old seekers.new }
    ensures goes { OnOk result ((words : WordsState) → Advances true [] (G.accepted site.now.seal.now)
        (G.tag_of site.now.seal.now) site.now.desk.setting.now
        (standing seekers.old driver.old words (L.told link.old))
        (standing seekers.new driver.new words (L.told link.new))) }
    ensures received { OnOk result (ReceivedAll seekers.old seekers.new driver.old.progress driver.new.progress) }
    ensures over { OnOk result (driver.new.progress.receives ≡ 0) }
    ensures moment { OnOk result (L.moment link.new ≡ driver.new.progress.moment) }
    ensures stops { IfErr result (λ fault. (words : WordsState) → EndsEarly true fault
        (G.accepted site.now.seal.now) (G.tag_of site.now.seal.now) site.now.desk.setting.now
        (standing seekers.old driver.old words (L.told link.old)) driver.new.host (L.told link.new)) }
    ensures strays { IsErrOf result ManyFault.Strays → (words : WordsState)
        → EndsLast (G.accepted site.now.seal.now) (G.tag_of site.now.seal.now) site.now.desk.setting.now
        (standing seekers.old driver.old words (L.told link.old)) driver.new.host (L.told link.new) }
    ensures link { IsErrOf result ManyFault.LinkFault
        → Rose (L.recv_faults link.old) (L.recv_faults link.new) }
    ensures last { IsErrOf result ManyFault.LinkFault
        → FailsLast L.told L.recv_faults link.old link.new }
    ensures recv_faults { L.recv_faults link.old ≤ L.recv_faults link.new }
    ensures send_faults { L.send_faults link.old ≤ L.send_faults link.new }
    ensures well { ¬ IsErrOf result ManyFault.LinkFault
        → L.recv_faults link.new ≡ L.recv_faults link.old }
    ensures kept { L.kept link.new ≡ L.kept link.old }
{
    match receive(site, link, driver, seekers, buffers) {
        Ok(()) => {}
        Err(fault) => return Err(fault),
    }
    'receiving: while driver.progress.receives != 0 {
        match receive(site, link, driver, seekers, buffers) {
            Ok(()) => {}
            Err(fault) => return Err(fault),
        }
    }
    Ok(())
}
