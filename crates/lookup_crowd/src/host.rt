//! The node that serves: it answers what is for no lookup, and tells the table whom the lookups lost.
ghost use Rattle.std.specs.Prelude.{◌≡◌, ◌≤◌, [], length, IfOk, IfSome, IfErr, OnErr};
ghost use Rattle.std.specs.List.{AllByRecursion, AllZip};
ghost use Rattle.node_serve.specs.Calls.{IsSetting};
ghost use Rattle.serve_crew.specs.Hands.{SameHands};
ghost use Rattle.lookup_crowd.specs.inner.Crowd.{Holding, Ran};
ghost use Rattle.lookup_crowd.specs.inner.ManySteps.{Expires, lapsed, all_lapsed, owed_in, Answers, IsOfDesk, RanOn};

use crate::seeker::Seeker;
use kad_base::NoMemory;
use node_serve::Answered;
use seal_tags::Seal;
use serve_crew::{Datagram, Desk, ServeWorker};
use std::sync::Wait;

/// Answers a foreign datagram: how many bytes its reply has in front of `out`, where it is owed one.
pub(crate) fn answer<R: Wait, G: Seal>(
    rt: &R,
    desk: &Desk,
    host: &mut ServeWorker,
    seal: &G,
    datagram: &Datagram,
    out: &mut [u8; 4096],
) -> Result<Option<usize>, NoMemory>
    requires setting { IsSetting desk.now.setting.now }
    requires own { IsOfDesk desk.now host.old }
    ensures same { SameHands host.old host.new }
    ensures ok { IfOk result (λ reply. Answers (G.tag_of seal.now) desk.now.setting.now datagram.now.from
        datagram.now.bytes.now datagram.now.at (owed_in reply datagram.now.from out.new) host.old host.new) }
    ensures room { IfOk result (λ reply. IfSome reply (λ n. n ≤ 4096)) }
    ensures ran_on { OnErr result (RanOn host.old host.new) }
{
    match host.answer(rt, desk, datagram, seal, out) {
        Answered::Reply(length) => Ok(Some(length)),
        Answered::Silent => Ok(None),
        Answered::NoMemory => Err(NoMemory),
    }
}

/// Tells the lookup the moment: it loses the contacts of its overdue queries, oldest first, and the table is told so.
fn expire<R: Wait>(rt: &R, desk: &Desk, host: &mut ServeWorker, seeker: &mut Seeker, at: u64)
    requires own { IsOfDesk desk.now host.old }
    requires holds { Holding seeker.old }
    ensures same { SameHands host.old host.new }
    ensures expires { Expires at seeker.old seeker.new }
    ensures ran { Ran host.old host.new [] (lapsed at seeker.old) }
{
    while let Some(contact) = seeker.lookup.overdue(at) {
        host.lost(rt, &desk.turns.table, contact);
    }
}

/// Tells all lookups the moment, in order.
pub(crate) fn expire_all<R: Wait>(
    rt: &R,
    desk: &Desk,
    host: &mut ServeWorker,
    seekers: &mut [Seeker],
    at: u64,
)
    requires own { IsOfDesk desk.now host.old }
    requires holds { AllByRecursion Holding seekers.old }
    ensures same { SameHands host.old host.new }
    ensures len { length seekers.new ≡ length seekers.old }
    ensures expires { AllZip (Expires at) seekers.old seekers.new }
    ensures ran { Ran host.old host.new [] (all_lapsed at seekers.old) }
{
    for i in 0..seekers.len() {
        expire(rt, desk, host, &mut seekers[i], at);
    }
}
