//! The side that gives, and a row of jobs that are done at once.
ghost use Rattle.std.specs.Prelude.{◌≡◌, ◌+◌, [], ◌∷◌, ◌++◌, true, false, length, None, Some, IfSome, MatchOption, vec_capacity};
ghost use Rattle.std.specs.Arc.{arc_value};
ghost use Rattle.crossbeam_queue.specs.Passes.{view, IsPassOf};
ghost use Rattle.work_desk.specs.Rule.{hand, Back, AllDid, AllMay};

use crate::helping::Helper;
use crate::laying::{Deed, Desk, Doer, Fetch, Lay, Mail, Token};
use std::alloc::{AllocError, Global};
use std::marker::Model;
use std::sync::{Arc, Wait};

/// The side of a desk that gives. Contracts see the job that is out.
#[derive(Drop)]
struct Post<J: Drop, D: Deed<J>> {
    desk: Arc<Desk<J, D>, Global>,
    token: Token<J>,
}

impl<J: Drop, D: Deed<J>> Model for Post<J, D> {
    ghost use Rattle.std.specs.Prelude.{Option};
    ghost use Rattle.std.specs.Arc.{arc_value};
    ghost use Rattle.crossbeam_queue.specs.Passes.{IsPassOf};
    ghost use Rattle.work_desk.specs.Rule.{out_of, IsGiver};

    ghost Value = { Option J };

    ghost view = { λ p. out_of p.token };

    ghost invariant = { λ p. IsPassOf (arc_value p.desk).board p.token × IsGiver p.token };
}

impl<J: Drop, D: Deed<J>> Post<J, D> {
    ghost use Rattle.std.specs.Prelude.{◌≡◌, true, false, None, Some, IfSome, MatchOption};
    ghost use Rattle.std.specs.Arc.{arc_value};
    ghost use Rattle.crossbeam_queue.specs.Passes.{view, IsPassOf};
    ghost use Rattle.work_desk.specs.Rule.{hand, Back};

    pub(crate) fn new(desk: Arc<Desk<J, D>, Global>, token: Token<J>) -> Post<J, D>
        requires own { IsPassOf (arc_value desk).board token }
        requires idle { view token ≡ hand true false None }
        ensures { result ≡ None }
    {
        Post { desk, token }
    }

    /// Whether a helper waits there.
    fn is_ready(&self) -> bool {
        self.desk.word.is_ready()
    }

    /// Gives the job to the helper.
    fn order<R: Wait>(&mut self, rt: &R, job: J)
        requires idle { self.old ≡ None }
        requires may { D.may job }
        ensures { self.new ≡ Some job }
    {
        // Told first, so that what is told last of a job is that it is done.
        self.desk.word.tell_order();
        match self
            .desk
            .board
            .push_as::<Lay, R>(rt, &mut self.token, Mail::Order(job))
        {
            Ok(()) => {}
            Err(_) => unreachable!(),
        }
    }

    /// Takes what lies there. It is done, or as it was given.
    fn try_fetch(&mut self) -> Option<Mail<J>>
        ensures { MatchOption result (self.new ≡ self.old) (λ mail. (self.new ≡ None) × Back D.may D.did self.old mail) }
    {
        self.desk.board.try_pop_as::<Fetch<D>>(&mut self.token)
    }

    /// Waits until the helper that took the order has done it.
    fn fetch<R: Wait>(&mut self, rt: &R) -> Mail<J>
        ensures idle { self.new ≡ None }
        ensures back { Back D.may D.did self.old result }
    {
        for _ in rt.forever() {
            match self.try_fetch() {
                Some(mail) => return mail,
                None => self.desk.word.wait_done(rt),
            }
        }
        unreachable!()
    }

    /// Has the job that is out done: by the helper that took the order, or here if none has taken it yet.
    fn finish<W: Doer<J, D>, R: Wait>(&mut self, rt: &R, doer: &mut W) -> J
        ensures idle { self.new ≡ None }
        ensures done { IfSome self.old (λ job. D.did job result) }
    {
        match self.fetch(rt) {
            Mail::Done(job) => job,
            Mail::Order(job) => {
                self.desk.word.tell_taken_back();
                let mut job = job;
                doer.work(rt, &mut job);
                job
            }
        }
    }

    /// Lets the helper go.
    fn close(&self) {
        self.desk.word.close();
    }
}

/// A post with no job out.
#[derive(Drop)]
pub struct Vacant<J: Drop, D: Deed<J>> {
    post: Post<J, D>,
    ghost idle: { post ≡ None },
}

impl<J: Drop, D: Deed<J>> Vacant<J, D> {
    ghost use Rattle.std.specs.Prelude.{◌≡◌, true, false, None, Some, IfSome};
    ghost use Rattle.std.specs.Arc.{arc_value};
    ghost use Rattle.crossbeam_queue.specs.Passes.{view, IsPassOf};
    ghost use Rattle.work_desk.specs.Rule.{hand};

    pub(crate) fn new(desk: Arc<Desk<J, D>, Global>, token: Token<J>) -> Vacant<J, D>
        requires own { IsPassOf (arc_value desk).board token }
        requires idle { view token ≡ hand true false None }
    {
        let post = Post::new(desk, token);
        Vacant { post }
    }

    /// Whether a helper waits there.
    fn is_ready(&self) -> bool {
        self.post.is_ready()
    }

    /// Whether a helper came, within a while.
    pub fn is_met(&self) -> bool {
        self.post.desk.word.is_met()
    }

    /// Lets the helper go.
    pub fn close(&self) {
        self.post.close();
    }

    fn give<R: Wait>(self, rt: &R, job: J) -> Post<J, D>
        requires { D.may job }
        ensures { result ≡ Some job }
    {
        let Vacant { mut post } = self;
        post.order(rt, job);
        post
    }

    fn take_back<W: Doer<J, D>, R: Wait>(
        mut post: Post<J, D>,
        rt: &R,
        doer: &mut W,
    ) -> (Vacant<J, D>, J)
        ensures { IfSome post (λ job. D.did job result.1) }
    {
        let job = post.finish(rt, doer);
        (Vacant { post }, job)
    }
}

/// A desk: who gives orders there, and who helps.
pub fn open<J: Drop, D: Deed<J>>(
    alloc: Global,
) -> Result<(Vacant<J, D>, Helper<J, D>), AllocError> {
    let (desk, giver, helper) = Desk::<J, D>::open(alloc)?;
    let desk = match Arc::new(alloc, desk) {
        Ok(desk) => desk,
        Err(_) => return Err(AllocError),
    };
    let theirs = Arc::try_clone(&desk)?;
    Ok((Vacant::new(desk, giver), Helper::new(theirs, helper)))
}

/// The last post, if a helper waits there and the job is worth it.
fn pop_ready<J: Drop, D: Deed<J>, W: Doer<J, D>>(
    posts: &mut Vec<Vacant<J, D>>,
    doer: &W,
    job: &J,
) -> Option<Vacant<J, D>>
    ensures len { MatchOption result (length posts.new.items ≡ length posts.old.items) (λ _. length posts.new.items + 1 ≡ length posts.old.items) }
    ensures room { vec_capacity posts.new ≡ vec_capacity posts.old }
{
    let is_ready = match posts.last() {
        Some(post) => post.is_ready(),
        None => false,
    };
    if is_ready && doer.is_worth(job) {
        posts.pop()
    } else {
        None
    }
}

/// The last job.
fn pop_job<J, D: Deed<J>>(crew: &mut Vec<J>) -> Option<J>
    requires { AllMay D.may crew.old.items }
    ensures job { MatchOption result ((crew.old.items ≡ []) × (crew.new.items ≡ [])) (λ job. (crew.old.items ≡ crew.new.items ++ job ∷ []) × AllMay D.may crew.new.items × D.may job) }
    ensures len { MatchOption result (length crew.new.items ≡ length crew.old.items) (λ _. length crew.new.items + 1 ≡ length crew.old.items) }
    ensures room { vec_capacity crew.new ≡ vec_capacity crew.old }
{
    crew.pop()
}

/// Does all jobs at once: the last ones at the posts, where helpers wait, and the others here.
pub fn work_out<J: Drop, D: Deed<J>, W: Doer<J, D>, R: Wait>(
    rt: &R,
    doer: &mut W,
    posts: &mut Vec<Vacant<J, D>>,
    crew: &mut Vec<J>,
)
    requires { AllMay D.may crew.old.items }
    ensures posts { length posts.new.items ≡ length posts.old.items }
    ensures posts_room { vec_capacity posts.new ≡ vec_capacity posts.old }
    ensures len { length crew.new.items ≡ length crew.old.items }
    ensures room { vec_capacity crew.new ≡ vec_capacity crew.old }
    ensures did { AllDid D.did crew.old.items crew.new.items }
{
    let Some(job) = pop_job::<J, D>(crew) else {
        return;
    };
    match pop_ready(posts, doer, &job) {
        None => {
            work_out(rt, doer, posts, crew);
            let mut job = job;
            doer.work(rt, &mut job);
            crew.push_reserved(job);
        }
        Some(post) => {
            let post = post.give(rt, job);
            work_out(rt, doer, posts, crew);
            let (post, job) = Vacant::take_back(post, rt, doer);
            crew.push_reserved(job);
            posts.push_reserved(post);
        }
    }
}
