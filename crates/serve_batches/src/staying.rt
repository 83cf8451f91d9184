//! The threads that help for as long as a node serves.
ghost use Rattle.std.specs.Prelude.{◌≡◌, ◌≢◌, ◌⊎◌, ◌+◌, ◌≤◌, ◌<◌, ◌^◌, true, length, Some, IfOk, IfErr, OnOk};
ghost use Rattle.std.specs.List.{All};
ghost use Rattle.kad_base.specs.Failing.{FailsLast};
ghost use Rattle.kad_base.specs.Outside.{Rose, Happens};
ghost use Rattle.node_serve.specs.Calls.{IsSetting};
ghost use Rattle.node_serve.specs.Lasting.{is_over};
ghost use Rattle.node_serve.specs.declared.service.ServeFault.{ServeFault};
ghost use Rattle.serve_crew.specs.Hands.{CanWork};
ghost use Rattle.serve_batches.specs.Crew.{AreRoomy};
ghost use Rattle.serve_batches.specs.Deeds.{HasSetting, Serves, known};
ghost use Rattle.serve_batches.specs.Serving.{SameRoles, ServesAll, ServesBatches, StopsServing, begun};

use crate::batch::{Progress, serve_each};
use crate::deed::{Helping, Own, Service, Serving, Way};
use crate::many::Duty;
use crate::shift::Shift;
use kad_base::{Link, NoMemory};
use node_serve::{ServeCounts, ServeFault, ServeSetting};
use seal_tags::Seal;
use serve_crew::Turns;
use std::alloc::Global;
use std::sync::Wait;
use std::thread;
use std::thread::Threads;
use work_desk::{Helper, Vacant, open};

/// The most threads that help.
const MAX_MATES: usize = 7;

/// Who helps, and the setting that it keeps.
#[derive(Drop)]
struct Mate<B: Serving> {
    helper: Helper<Shift, Way<B>>,
    own: Own<B>,
}

/// The posts at which the thread that serves finds who helps, and who helps.
#[derive(Drop)]
struct Help<B: Serving> {
    posts: Vec<Vacant<Shift, Way<B>>>,
    mates: Vec<Option<Mate<B>>>,
}

impl<B: Serving> Mate<B> {
    ghost use Rattle.serve_batches.specs.Deeds.{Serves};

    /// Helps until the desk is closed.
    fn stay<R: Wait, G: Seal>(self, rt: &R, turns: &Turns, seal: &G)
        requires { Serves B.known (G.tag_of seal.now) turns.now }
    {
        let Mate { mut helper, own } = self;
        let mut helping = Helping::new(own, turns, seal);
        helper.help(rt, &mut helping);
    }
}

/// Who helps leaves its place for a thread.
fn stay_at<B: Serving, R: Wait, G: Seal>(
    place: &mut Option<Mate<B>>,
    rt: &R,
    turns: &Turns,
    seal: &G,
)
    requires { Serves B.known (G.tag_of seal.now) turns.now }
{
    if let Some(mate) = place.take() {
        mate.stay(rt, turns, seal);
    }
}

/// Opens a desk for each worker but the first, which is the thread that serves.
fn open_desks<B: Serving>(
    alloc: Global,
    setting: &ServeSetting,
    workers: usize,
) -> Result<Help<B>, NoMemory>
    requires setting { HasSetting B.known setting.now }
{
    let mut posts = Vec::new(alloc);
    let mut mates = Vec::new(alloc);
    for _ in 1..workers {
        let (post, helper) = open(alloc)?;
        let own = Own::new(setting.another(alloc)?);
        mates.push(Some(Mate { helper, own }))?;
        posts.push(post)?;
    }
    Ok(Help { posts, mates })
}

/// Waits a while for all who help, or until one hasn't come.
fn meet_all<B: Serving>(posts: &[Vacant<Shift, Way<B>>]) {
    for post in posts {
        if !post.is_met() {
            return;
        }
    }
}

/// Lets all who help go.
fn close_all<B: Serving>(posts: &[Vacant<Shift, Way<B>>]) {
    for post in posts {
        post.close();
    }
}

/// Helps, each in a thread of its own, until the desks are closed.
fn stay_all<B: Serving + Send + Sync, R: Threads + Wait + Sync, G: Seal + Sync>(
    rt: &R,
    turns: &Turns,
    seal: &G,
    mates: &mut [Option<Mate<B>>],
)
    requires serves { Serves B.known (G.tag_of seal.now) turns.now }
{
    thread::for_each_mut(
        rt,
        mates,
        MAX_MATES,
        &|_: usize, place: &mut Option<Mate<B>>|
            requires { Serves B.known (G.tag_of seal.now) turns.now }
        { stay_at(place, rt, turns, seal) },
    );
}

/// Serves batch after batch with those who help, and lets them go in the end.
fn serve_beside<B: Serving, R: Wait, L: Link, G: Seal>(
    rt: &R,
    link: &mut L,
    setting: &mut ServeSetting,
    service: &Service<G>,
    posts: &mut Vec<Vacant<Shift, Way<B>>>,
    crew: &mut Vec<Shift>,
    progress: &mut Progress,
) -> Result<(), ServeFault>
    requires known { B.known ≡ Some (known (G.tag_of service.now.seal.now) setting.old
        service.now.turns.now) }
    requires setting { IsSetting setting.old }
    requires few { progress.old.received + progress.old.left < 2 ^ 32 }
    requires fewer { progress.old.replied ≤ progress.old.received }
    requires workers { 0 < length crew.old.items }
    requires roomy { AreRoomy crew.old.items }
    requires can { All (λ s. CanWork service.now.turns.now s.worker) crew.old.items }
    ensures len { length crew.new.items ≡ length crew.old.items }
    ensures roles { SameRoles crew.old.items crew.new.items }
    ensures all { OnOk result ((progress.new.left ≡ 0)
        ⊎ (is_over service.now.end progress.new.moment ≡ true)) }
    ensures ok { OnOk result (Happens (L.told link.old) (L.told link.new)
        (ServesBatches (G.tag_of service.now.seal.now) service.now.end setting.old progress.old progress.new crew.old.items
        crew.new.items)) }
    ensures err { IfErr result (λ fault. Happens (L.told link.old) (L.told link.new)
        (StopsServing (G.tag_of service.now.seal.now) service.now.end setting.old progress.old crew.old.items
        crew.new.items fault)) }
    ensures well { result ≢ Err ServeFault.LinkFault
        → L.recv_faults link.new ≡ L.recv_faults link.old }
    ensures link_fault { result ≡ Err ServeFault.LinkFault
        → Rose (L.recv_faults link.old) (L.recv_faults link.new) }
    ensures last { result ≡ Err ServeFault.LinkFault
        → FailsLast L.told L.recv_faults link.old link.new }
    ensures recv_faults { L.recv_faults link.old ≤ L.recv_faults link.new }
    ensures kept { L.kept link.new ≡ L.kept link.old }
{
    meet_all(posts.as_slice());
    let answer = serve_each(rt, link, setting, service, posts, crew, progress);
    close_all(posts.as_slice());
    answer
}

/// The same, and those who help are at work beside it.
fn serve_together<B: Serving + Send + Sync, R: Threads + Wait + Sync, L: Link, G: Seal + Sync>(
    rt: &R,
    link: &mut L,
    setting: &mut ServeSetting,
    service: &Service<G>,
    help: Help<B>,
    crew: &mut Vec<Shift>,
    progress: &mut Progress,
) -> Result<(), ServeFault>
    requires serves { Serves B.known (G.tag_of service.now.seal.now) service.now.turns.now }
    requires known { B.known ≡ Some (known (G.tag_of service.now.seal.now) setting.old
        service.now.turns.now) }
    requires setting { IsSetting setting.old }
    requires few { progress.old.received + progress.old.left < 2 ^ 32 }
    requires fewer { progress.old.replied ≤ progress.old.received }
    requires workers { 0 < length crew.old.items }
    requires roomy { AreRoomy crew.old.items }
    requires can { All (λ s. CanWork service.now.turns.now s.worker) crew.old.items }
    ensures len { length crew.new.items ≡ length crew.old.items }
    ensures roles { SameRoles crew.old.items crew.new.items }
    ensures all { OnOk result ((progress.new.left ≡ 0)
        ⊎ (is_over service.now.end progress.new.moment ≡ true)) }
    ensures ok { OnOk result (Happens (L.told link.old) (L.told link.new)
        (ServesBatches (G.tag_of service.now.seal.now) service.now.end setting.old progress.old progress.new crew.old.items
        crew.new.items)) }
    ensures err { IfErr result (λ fault. Happens (L.told link.old) (L.told link.new)
        (StopsServing (G.tag_of service.now.seal.now) service.now.end setting.old progress.old crew.old.items
        crew.new.items fault)) }
    ensures well { result ≢ Err ServeFault.LinkFault
        → L.recv_faults link.new ≡ L.recv_faults link.old }
    ensures link_fault { result ≡ Err ServeFault.LinkFault
        → Rose (L.recv_faults link.old) (L.recv_faults link.new) }
    ensures last { result ≡ Err ServeFault.LinkFault
        → FailsLast L.told L.recv_faults link.old link.new }
    ensures recv_faults { L.recv_faults link.old ≤ L.recv_faults link.new }
    ensures kept { L.kept link.new ≡ L.kept link.old }
{
    let Help {
        mut posts,
        mut mates,
    } = help;
    let turns = service.turns;
    let seal = service.seal;
    let places = mates.as_mut_slice();
    let (_, answer) = thread::join_mut(
        rt,
        &mut ||
            requires { Serves B.known (G.tag_of seal.now) turns.now }
        { stay_all(rt, turns, seal, places) },
        &mut || serve_beside(rt, link, setting, service, &mut posts, crew, progress),
    );
    answer
}

/// Serves batch after batch by all workers of the crew, the first of them this thread, and says how much was served. Fails too
/// where there is no memory for desks.
pub(crate) fn serve_helped<
    B: Serving + Send + Sync,
    R: Threads + Wait + Sync,
    L: Link,
    G: Seal + Sync,
>(
    rt: &R,
    alloc: Global,
    link: &mut L,
    mut setting: ServeSetting,
    service: &Service<G>,
    crew: &mut Vec<Shift>,
    duty: Duty,
) -> Result<ServeCounts, ServeFault>
    requires known { B.known ≡ Some (known (G.tag_of service.now.seal.now) setting service.now.turns.now) }
    requires setting { IsSetting setting }
    requires workers { 0 < length crew.old.items }
    requires roomy { AreRoomy crew.old.items }
    requires can { All (λ s. CanWork service.now.turns.now s.worker) crew.old.items }
    ensures len { length crew.new.items ≡ length crew.old.items }
    ensures roles { SameRoles crew.old.items crew.new.items }
    ensures ok { IfOk result (λ counts. Happens (L.told link.old) (L.told link.new)
        (ServesAll (G.tag_of service.now.seal.now) service.now.end setting
        (begun duty.began duty.lasting.receives) counts.received counts.replied crew.old.items
        crew.new.items)) }
    ensures err { IfErr result (λ fault. Happens (L.told link.old) (L.told link.new)
        (StopsServing (G.tag_of service.now.seal.now) service.now.end setting
        (begun duty.began duty.lasting.receives) crew.old.items crew.new.items fault)) }
    ensures well { result ≢ Err ServeFault.LinkFault
        → L.recv_faults link.new ≡ L.recv_faults link.old }
    ensures link_fault { result ≡ Err ServeFault.LinkFault
        → Rose (L.recv_faults link.old) (L.recv_faults link.new) }
    ensures last { result ≡ Err ServeFault.LinkFault
        → FailsLast L.told L.recv_faults link.old link.new }
    ensures recv_faults { L.recv_faults link.old ≤ L.recv_faults link.new }
    ensures kept { L.kept link.new ≡ L.kept link.old }
{
    let help: Help<B> = match open_desks(alloc, &setting, crew.len()) {
        Ok(help) => help,
        Err(NoMemory) => return Err(ServeFault::NoMemory),
    };
    let mut progress = Progress {
        moment: duty.began,
        left: duty.lasting.receives,
        received: 0,
        replied: 0,
    };
    match serve_together(rt, link, &mut setting, service, help, crew, &mut progress) {
        Ok(()) => Ok(ServeCounts {
            received: progress.received,
            replied: progress.replied,
        }),
        Err(fault) => Err(fault),
    }
}
