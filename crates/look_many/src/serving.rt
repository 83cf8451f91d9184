//! Serving on, where all lookups are over.
ghost use Rattle.std.specs.Prelude.{◌≡◌, ◌≤◌, ◌<◌, ◌+◌, ◌-◌, [], length, map, false, OnOk, IfErr, IsErrOf, true};
ghost use Rattle.std.specs.List.{AllZip};
ghost use Rattle.kad_base.specs.Failing.{FailsLast};
ghost use Rattle.kad_base.specs.Outside.{Rose};
ghost use Rattle.id_puzzles.specs.Drawn.{WordsState};
ghost use Rattle.node_serve.specs.Calls.{IsSetting};
ghost use Rattle.serve_crew.specs.Hands.{SameHands};
ghost use Rattle.lookup_crowd.specs.inner.Crowd.{whose, SameSeat, Advances, standing};
ghost use Rattle.lookup_crowd.specs.inner.ManySteps.{IsOfDesk, EndsEarly};
ghost use Rattle.look_many.specs.inner.Serving.{MayServe, HasEnough, WantsMore};

use kad_base::Link;
use lookup_crowd::{Buffers, Driver, ManyFault, Progress, Seeker, Site, all_legal, receive_until};
use node_serve::{is_over, waits_to};
use seal_tags::{Seal, SealCheck};
use std::sync::Wait;

/// Whether serving on is over: as many receives were made as are wanted, or the moment told last is at or past the end.
fn has_enough(progress: &Progress) -> bool
    ensures enough { result ≡ true → HasEnough progress.now }
    ensures more { result ≡ false → WantsMore progress.now }
{
    if progress.left == 0 {
        return true;
    }
    is_over(progress.end, progress.moment)
}

/// Serves on where all lookups are over, until as many receives were made as are wanted, or the end has come: each of them waits
/// a minute, or to the end, and what came is answered. However many datagrams come, that is no fault.
pub(crate) fn serve_on<R: Wait, L: Link, C, G: Seal + SealCheck>(
    site: &Site<R, C, G>,
    link: &mut L,
    driver: &mut Driver,
    seekers: &mut [Seeker],
) -> Result<(), ManyFault>
    requires setting { IsSetting site.now.desk.setting.now }
    requires own { IsOfDesk site.now.desk driver.old.host }
    requires may { MayServe seekers.old driver.old.progress }
    requires said { driver.old.progress.unsaid ≡ 0 }
    requires moment { L.moment link.old ≡ driver.old.progress.moment }
    ensures same { SameHands driver.old.host driver.new.host }
    ensures len { length seekers.new ≡ length seekers.old }
    ensures seats { AllZip SameSeat seekers.old seekers.new }
    ensures goes { OnOk result ((words : WordsState) → Advances false [] (G.accepted site.now.seal.now)
        (G.tag_of site.now.seal.now) site.now.desk.setting.now
        (standing seekers.old driver.old words (L.told link.old))
        (standing seekers.new driver.new words (L.told link.new))) }
    ensures may { OnOk result (MayServe seekers.new driver.new.progress) }
    ensures said { OnOk result (driver.new.progress.unsaid ≡ 0) }
    ensures journals { OnOk result (map whose seekers.new ≡ map whose seekers.old) }
    ensures gathered { OnOk result (map (λ k. k.gathered) seekers.new ≡ map (λ k. k.gathered) seekers.old) }
    ensures over { OnOk result (HasEnough driver.new.progress) }
    ensures moment { OnOk result (L.moment link.new ≡ driver.new.progress.moment) }
    ensures stops { IfErr result (λ fault. (words : WordsState) → EndsEarly false fault
        (G.accepted site.now.seal.now) (G.tag_of site.now.seal.now) site.now.desk.setting.now
        (standing seekers.old driver.old words (L.told link.old)) driver.new.host (L.told link.new)) }
    ensures strays { ¬ IsErrOf result ManyFault.Strays }
    ensures link { IsErrOf result ManyFault.LinkFault
        → Rose (L.recv_faults link.old) (L.recv_faults link.new) }
    ensures last { IsErrOf result ManyFault.LinkFault
        → FailsLast L.told L.recv_faults link.old link.new }
    ensures recv_faults { L.recv_faults link.old ≤ L.recv_faults link.new }
    ensures send_faults { L.send_faults link.old ≤ L.send_faults link.new }
    ensures well { ¬ IsErrOf result ManyFault.LinkFault
        → L.recv_faults link.new ≡ L.recv_faults link.old }
    ensures kept { L.kept link.new ≡ L.kept link.old }
{
    let mut buffers = Buffers::new();
    'serving: while !has_enough(&driver.progress) {
        all_legal(seekers);
        let until = waits_to(driver.progress.end, driver.progress.moment);
        match receive_until(site, link, driver, seekers, false, until, &mut buffers) {
            Ok(()) => {}
            Err(fault) => return Err(fault),
        }
    }
    Ok(())
}
