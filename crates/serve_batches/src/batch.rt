//! One batch: its datagrams are received, answered by all workers at once, and replied to; and all of them, one after
//! another.
ghost use Rattle.std.specs.Prelude.{◌≡◌, ◌≢◌, ◌⊎◌, ◌+◌, ◌≤◌, ◌<◌, ◌^◌, true, false, length, Some, IfErr, OnOk};
ghost use Rattle.std.specs.List.{All};
ghost use Rattle.kad_base.specs.Failing.{FailsLast};
ghost use Rattle.kad_base.specs.Outside.{Rose, Happens};
ghost use Rattle.node_serve.specs.Calls.{IsSetting};
ghost use Rattle.node_serve.specs.Lasting.{is_over};
ghost use Rattle.node_serve.specs.declared.service.ServeFault.{ServeFault};
ghost use Rattle.serve_crew.specs.Hands.{CanWork};
ghost use Rattle.serve_batches.specs.Crew.{AreRoomy};
ghost use Rattle.serve_batches.specs.Deeds.{known};
ghost use Rattle.serve_batches.specs.ManyServed.{EndsEarly};
ghost use Rattle.serve_batches.specs.Serving.{GrewSome, SameRoles, ServesBatch, ServesBatches, StopsServing};

use crate::crew::work_all;
use crate::deed::{Service, Serving, Way};
use crate::receiving::receive_batch;
use crate::replying::{all_went, send_replies};
use crate::shift::Shift;
use kad_base::{Failed, Link, NoMemory};
use node_serve::{ServeFault, ServeSetting, is_over};
use seal_tags::Seal;
use std::sync::Wait;
use work_desk::Vacant;

/// How far a service is: the moment that its link told last, how many receive calls are left, how many datagrams came, and
/// how many replies were sent.
#[derive(Clone, Copy, Drop)]
pub(crate) struct Progress {
    pub moment: u64,
    pub left: u32,
    pub received: u32,
    pub replied: u32,
}

/// Keeps the tokens' secrets of the moment.
fn renew(setting: &mut ServeSetting, at: u64)
    ensures { setting.new ≡ setting.old }
{
    setting.tokens.renew(at);
}

/// Serves one batch, behind a moment before the end.
fn serve_batch<B: Serving, R: Wait, L: Link, G: Seal>(
    rt: &R,
    link: &mut L,
    setting: &mut ServeSetting,
    service: &Service<G>,
    posts: &mut Vec<Vacant<Shift, Way<B>>>,
    crew: &mut Vec<Shift>,
    progress: &mut Progress,
) -> Result<(), ServeFault>
    requires known { B.known ≡ Some (known (G.tag_of service.now.seal.now) setting.old
        service.now.turns.now) }
    requires setting { IsSetting setting.old }
    requires some { 0 < progress.old.left }
    requires goes { is_over service.now.end progress.old.moment ≡ false }
    requires few { progress.old.received + progress.old.left < 2 ^ 32 }
    requires fewer { progress.old.replied ≤ progress.old.received }
    requires workers { 0 < length crew.old.items }
    requires roomy { AreRoomy crew.old.items }
    requires can { All (λ s. CanWork service.now.turns.now s.worker) crew.old.items }
    ensures setting { setting.new ≡ setting.old }
    ensures len { length crew.new.items ≡ length crew.old.items }
    ensures roomy { AreRoomy crew.new.items }
    ensures roles { SameRoles crew.old.items crew.new.items }
    ensures fewer { OnOk result (progress.new.replied ≤ progress.new.received) }
    ensures left { OnOk result (progress.new.left < progress.old.left) }
    ensures counts { OnOk result (progress.new.received + progress.new.left
        ≤ progress.old.received + progress.old.left) }
    ensures ok { OnOk result (Happens (L.told link.old) (L.told link.new)
        (ServesBatch (G.tag_of service.now.seal.now) service.now.end setting.old progress.old progress.new crew.old.items
        crew.new.items)) }
    ensures err { IfErr result (λ fault. Happens (L.told link.old) (L.told link.new)
        (EndsEarly fault service.now.end progress.old.left progress.old.moment)) }
    ensures grew { GrewSome crew.old.items crew.new.items }
    ensures well { result ≢ Err ServeFault.LinkFault
        → L.recv_faults link.new ≡ L.recv_faults link.old }
    ensures link_fault { result ≡ Err ServeFault.LinkFault
        → Rose (L.recv_faults link.old) (L.recv_faults link.new) }
    ensures last { result ≡ Err ServeFault.LinkFault
        → FailsLast L.told L.recv_faults link.old link.new }
    ensures recv_faults { L.recv_faults link.old ≤ L.recv_faults link.new }
    ensures kept { L.kept link.new ≡ L.kept link.old }
{
    let batch = match receive_batch(link, crew, progress.moment, progress.left, service.end) {
        Ok(batch) => batch,
        Err(Failed) => return Err(ServeFault::LinkFault),
    };
    renew(setting, batch.moment);
    work_all(
        rt,
        setting,
        service,
        &batch.place,
        batch.moment,
        posts,
        crew,
    );
    match all_went(crew, batch.came) {
        Ok(()) => {}
        Err(NoMemory) => return Err(ServeFault::NoMemory),
    }
    let sent = send_replies(link, crew, batch.came);
    progress.moment = batch.moment;
    progress.left -= batch.made;
    progress.received += batch.came;
    progress.replied += sent;
    Ok(())
}

/// Serves batch after batch, until no receive call is left, or the moment told last is at the end or behind it.
pub(crate) fn serve_each<B: Serving, R: Wait, L: Link, G: Seal>(
    rt: &R,
    link: &mut L,
    setting: &mut ServeSetting,
    service: &Service<G>,
    posts: &mut Vec<Vacant<Shift, Way<B>>>,
    crew: &mut Vec<Shift>,
    progress: &mut Progress,
) -> Result<(), ServeFault>
    requires known { B.known ≡ Some (known (G.tag_of service.now.seal.now) setting.old
        service.now.turns.now) }
    requires setting { IsSetting setting.old }
    requires few { progress.old.received + progress.old.left < 2 ^ 32 }
    requires fewer { progress.old.replied ≤ progress.old.received }
    requires workers { 0 < length crew.old.items }
    requires roomy { AreRoomy crew.old.items }
    requires can { All (λ s. CanWork service.now.turns.now s.worker) crew.old.items }
    ensures setting { setting.new ≡ setting.old }
    ensures len { length crew.new.items ≡ length crew.old.items }
    ensures roles { SameRoles crew.old.items crew.new.items }
    ensures all { OnOk result ((progress.new.left ≡ 0)
        ⊎ (is_over service.now.end progress.new.moment ≡ true)) }
    ensures ok { OnOk result (Happens (L.told link.old) (L.told link.new)
        (ServesBatches (G.tag_of service.now.seal.now) service.now.end setting.old progress.old progress.new crew.old.items
        crew.new.items)) }
    ensures err { IfErr result (λ fault. Happens (L.told link.old) (L.told link.new)
        (StopsServing (G.tag_of service.now.seal.now) service.now.end setting.old progress.old crew.old.items
        crew.new.items fault)) }
    ensures well { result ≢ Err ServeFault.LinkFault
        → L.recv_faults link.new ≡ L.recv_faults link.old }
    ensures link_fault { result ≡ Err ServeFault.LinkFault
        → Rose (L.recv_faults link.old) (L.recv_faults link.new) }
    ensures last { result ≡ Err ServeFault.LinkFault
        → FailsLast L.told L.recv_faults link.old link.new }
    ensures recv_faults { L.recv_faults link.old ≤ L.recv_faults link.new }
    ensures kept { L.kept link.new ≡ L.kept link.old }
{
    while progress.left > 0 {
        if is_over(service.end, progress.moment) {
            return Ok(());
        }
        match serve_batch(rt, link, setting, service, posts, crew, progress) {
            Ok(()) => {}
            Err(fault) => return Err(fault),
        }
    }
    Ok(())
}
