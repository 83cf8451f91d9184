//! The side that helps.
ghost use Rattle.std.specs.Prelude.{◌≡◌, true, false, None, Some};
ghost use Rattle.std.specs.Arc.{arc_value};
ghost use Rattle.crossbeam_queue.specs.Passes.{view, IsPassOf};
ghost use Rattle.work_desk.specs.Rule.{hand};

use crate::laying::{Deed, Desk, Doer, Lay, Mail, Take, Token};
use std::alloc::Global;
use std::sync::{Arc, Wait};

/// Lays what was made of the job on the desk.
fn give_back<J: Drop, D: Deed<J>, R: Wait>(rt: &R, desk: &Desk<J, D>, token: &mut Token<J>, job: J)
    requires own { IsPassOf desk.now.board token.old }
    requires done { (given : J) × (view token.old ≡ hand false true (Some given)) × D.did given job }
    ensures own { IsPassOf desk.now.board token.new }
    ensures idle { view token.new ≡ hand false true None }
{
    match desk.board.push_as::<Lay, R>(rt, token, Mail::Done(job)) {
        Ok(()) => {}
        Err(_) => unreachable!(),
    }
    desk.word.tell_done();
}

/// Does one job, if one lies there.
fn do_one<J: Drop, D: Deed<J>, W: Doer<J, D>, R: Wait>(
    rt: &R,
    desk: &Desk<J, D>,
    token: &mut Token<J>,
    doer: &mut W,
)
    requires own { IsPassOf desk.now.board token.old }
    requires idle { view token.old ≡ hand false true None }
    ensures own { IsPassOf desk.now.board token.new }
    ensures idle { view token.new ≡ hand false true None }
{
    match desk.board.try_pop_as::<Take<D>>(token) {
        Some(Mail::Order(job)) => {
            let mut job = job;
            doer.work(rt, &mut job);
            give_back(rt, desk, token, job);
        }
        Some(Mail::Done(job)) => give_back(rt, desk, token, job),
        None => {}
    }
}

/// Does what is ordered at the desk, until it is closed.
fn help<J: Drop, D: Deed<J>, W: Doer<J, D>, R: Wait>(
    rt: &R,
    desk: &Desk<J, D>,
    token: &mut Token<J>,
    doer: &mut W,
)
    requires own { IsPassOf desk.now.board token.old }
    requires idle { view token.old ≡ hand false true None }
    ensures own { IsPassOf desk.now.board token.new }
    ensures idle { view token.new ≡ hand false true None }
{
    if !desk.word.enter() {
        return;
    }
    for _ in rt.forever() {
        if !desk.word.wait_order(rt) {
            return;
        }
        do_one(rt, desk, token, doer);
    }
}

/// The side of a desk that helps, for a thread of its own.
#[derive(Drop)]
pub struct Helper<J: Drop, D: Deed<J>> {
    desk: Arc<Desk<J, D>, Global>,
    token: Token<J>,
    ghost own: { IsPassOf (arc_value desk).board token },
    ghost idle: { view token ≡ hand false true None },
}

impl<J: Drop, D: Deed<J>> Helper<J, D> {
    ghost use Rattle.std.specs.Prelude.{◌≡◌, true, false, None};
    ghost use Rattle.std.specs.Arc.{arc_value};
    ghost use Rattle.crossbeam_queue.specs.Passes.{view, IsPassOf};
    ghost use Rattle.work_desk.specs.Rule.{hand};

    pub(crate) fn new(desk: Arc<Desk<J, D>, Global>, token: Token<J>) -> Helper<J, D>
        requires own { IsPassOf (arc_value desk).board token }
        requires idle { view token ≡ hand false true None }
    {
        Helper { desk, token }
    }

    /// Does what is ordered there, until the desk is closed.
    pub fn help<W: Doer<J, D>, R: Wait>(&mut self, rt: &R, doer: &mut W) {
        help(rt, &*self.desk, &mut self.token, doer);
    }
}
