//! Which queries follow the lookups, where all of them are over: of each job in order those that it owes, to each contact that it
//! found and that gave it a token. It sends nothing.
ghost use Rattle.std.specs.Prelude.{◌≡◌, ◌++◌, ◌<◌, length, map, reverse, IfOk, OnOk};
ghost use Rattle.std.specs.List.{AllByRecursion};
ghost use Rattle.claim_book.specs.Result.{result_of};
ghost use Rattle.lookup_crowd.specs.inner.ManySteps.{IsRunOut};
ghost use Rattle.look_many.specs.Job.{may_owe, owed_for};
ghost use Rattle.look_many.specs.Planned.{by};
ghost use Rattle.look_many.specs.inner.Kept.{follows_kept, owed_of};
ghost use Rattle.look_many.specs.inner.Seats.{IsOverBook};

use crate::job::Job;
use crate::opening::DRIVER;
use claim_book::{Book, BookCall, BookReply};
use follow_ups::{Announcement, Said, announcements};
use kad_base::{Contact, Contacts, Id, List, NoMemory, Serial};
use lookup_core::Token;
use lookup_crowd::{FollowUp, Seeker};
use std::alloc::Global;

/// What the book found, where every path has run out. The book stays as it is.
fn found_by(book: &mut Book) -> Result<Contacts, NoMemory>
    requires { IsOverBook book.old }
    ensures found { IfOk result (λ found. found ≡ result_of book.old.setting book.old.journal) }
    ensures same { book.new ≡ book.old }
{
    match book.apply(DRIVER, BookCall::Finish) {
        BookReply::Found { found, .. } => Ok(found),
        BookReply::NoMemory => Err(NoMemory),
        _ => unreachable!(),
    }
}

/// What the job owes to the contacts that it found, by the tokens that they gave.
fn owed_by(
    alloc: Global,
    own: Id,
    job: &Job,
    found: &[Contact],
    tokens: &[Token],
) -> Result<List<Announcement>, NoMemory>
    ensures { IfOk result (λ owed. owed ≡ owed_for own job.now found.now tokens.now) }
{
    match job {
        Job::Announce { key, port } => {
            let said = Said::Peer {
                own,
                key: *key,
                port: *port,
            };
            announcements(alloc, &said, found, tokens)
        }
        Job::Put { v, .. } => {
            let said = Said::Item {
                own,
                v: v.as_slice(),
            };
            announcements(alloc, &said, found, tokens)
        }
        Job::Find { .. } => Ok(List::new(alloc)),
        Job::Peers { .. } => Ok(List::new(alloc)),
        Job::Get { .. } => Ok(List::new(alloc)),
    }
}

/// What is owed as it is taken from, the first one last.
fn last_first(owed: List<Announcement>) -> Vec<Announcement>
    ensures { reverse result.items ≡ owed }
{
    let mut left = owed.into_vec();
    left.as_mut_slice().reverse();
    left
}

/// Appends what is owed, as what follows the lookup of that number.
fn add_all(plan: &mut List<FollowUp>, owner: u64, owed: List<Announcement>) -> Result<(), NoMemory>
    ensures { OnOk result (plan.new ≡ plan.old ++ map (by owner) owed) }
{
    let mut left = last_first(owed);
    while let Some(announcement) = left.pop() {
        let Announcement { to, ask } = announcement;
        match plan.push(FollowUp { owner, to, ask }) {
            Ok(()) => {}
            Err(NoMemory) => return Err(NoMemory),
        }
    }
    Ok(())
}

/// Whether the job may owe something. For one that can't no memory is taken.
fn may_owe(job: &Job) -> bool
    ensures { result ≡ may_owe job.now }
{
    match job {
        Job::Announce { .. } => true,
        Job::Put { .. } => true,
        Job::Find { .. } => false,
        Job::Peers { .. } => false,
        Job::Get { .. } => false,
    }
}

/// Appends what the job owes, whose lookup is over. The lookup stays as it is.
fn plan_one(
    alloc: Global,
    own: Id,
    owner: u64,
    job: &Job,
    seeker: &mut Seeker,
    plan: &mut List<FollowUp>,
) -> Result<(), NoMemory>
    requires { IsRunOut seeker.old }
    ensures same { seeker.new ≡ seeker.old }
    ensures ok { OnOk result (plan.new ≡ plan.old ++ map (by owner) (owed_of own job.now seeker.old)) }
{
    if !may_owe(job) {
        return Ok(());
    }
    let found = match found_by(&mut seeker.lookup.book) {
        Ok(found) => found,
        Err(NoMemory) => return Err(NoMemory),
    };
    let tokens = seeker.gathered.tokens.as_slice();
    match owed_by(alloc, own, job, found.as_slice(), tokens) {
        Ok(owed) => add_all(plan, owner, owed),
        Err(NoMemory) => Err(NoMemory),
    }
}

/// Which queries follow, where all lookups are over: those of all jobs, in order. The lookups stay as they are.
pub(crate) fn plan(
    alloc: Global,
    own: Id,
    jobs: &[Job],
    seekers: &mut [Seeker],
) -> Result<List<FollowUp>, NoMemory>
    requires len { length jobs.now ≡ length seekers.old }
    requires over { AllByRecursion IsRunOut seekers.old }
    ensures same { seekers.new ≡ seekers.old }
    ensures plan { IfOk result (λ plan. plan ≡ follows_kept own 0 jobs.now seekers.old) }
{
    let mut plan = List::new(alloc);
    for i in 0..jobs.len() {
        match plan_one(alloc, own, i as u64, &jobs[i], &mut seekers[i], &mut plan) {
            Ok(()) => {}
            Err(NoMemory) => return Err(NoMemory),
        }
    }
    Ok(plan)
}
