//! What no clause says: that orders don't wait for good, and what a side that waits takes of a processor.
ghost use Rattle.std.specs.Prelude.{◌≡◌, ◌+◌, ◌%◌, ◌^◌};

use crate::{Deed, Doer, Vacant, open, work_out};
use std::alloc::{AllocError, Global};
use std::rt::Clock;
use std::sync::Wait;
use std::test::Fail;
use std::thread::{Threads, join, sleep};
use std::time::{CpuClock, Duration};

/// One is added to a number.
struct AddsOne;

impl Deed<u64> for AddsOne {
    ghost may = { λ n. Unit {0} };

    ghost did = { λ n m. m ≡ (n + 1) % 2 ^ 64 };
}

/// Who adds it, and how often it did.
#[derive(Drop)]
struct Adder {
    done: u64,
}

impl Doer<u64, AddsOne> for Adder {
    fn is_worth(&self, _job: &u64) -> bool {
        true
    }

    fn work<R: Wait>(&mut self, _rt: &R, job: &mut u64) {
        *job = job.wrapping_add(1);
        self.done = self.done.wrapping_add(1);
    }
}

type Post = Vacant<u64, AddsOne>;

/// Two jobs at once: one for the helper, if it is ready, and one for this thread. Their numbers, which were 0.
fn one_round<R: Wait, W: Doer<u64, AddsOne>>(
    rt: &R,
    alloc: Global,
    doer: &mut W,
    posts: &mut Vec<Post>,
) -> Result<u64, AllocError> {
    let mut crew = Vec::with_capacity(alloc, 2)?;
    crew.push(0)?;
    crew.push(0)?;
    work_out(rt, doer, posts, &mut crew);
    let sum: u64 = match (crew.pop(), crew.pop()) {
        (Some(a), Some(b)) => a.wrapping_add(b),
        _ => 0,
    };
    Ok(sum)
}

/// Waits until the helper has come, for some time at the most.
fn meet(posts: &[Post]) {
    for _ in 0..10_000 {
        match posts.first() {
            Some(post) => {
                if post.is_met() {
                    return;
                }
            }
            None => return,
        }
    }
}

/// So many rounds. How many jobs came back done, and how many this thread did.
fn give<R: Wait>(
    rt: &R,
    alloc: Global,
    posts: &mut Vec<Post>,
    rounds: u64,
) -> Result<(u64, u64), AllocError> {
    let mut adder = Adder { done: 0 };
    let mut came: u64 = 0;
    meet(posts.as_slice());
    for _ in 0..rounds {
        came = came.wrapping_add(one_round(rt, alloc, &mut adder, posts)?);
    }
    Ok((came, adder.done))
}

/// The same, while another thread helps. How many jobs came back done, and how many each thread did.
fn together<R: Threads + Wait + Sync>(
    rt: &R,
    alloc: Global,
    rounds: u64,
) -> Result<(u64, u64, u64), AllocError> {
    let (post, mut helper) = open::<u64, AddsOne>(alloc)?;
    let mut posts = Vec::with_capacity(alloc, 1)?;
    posts.push(post)?;
    let (given, helped) = join(
        rt,
        move || {
            let answer = give(rt, alloc, &mut posts, rounds);
            for post in posts.as_slice() {
                post.close();
            }
            answer
        },
        move || {
            let mut adder = Adder { done: 0 };
            helper.help(rt, &mut adder);
            adder.done
        },
    );
    let (came, done) = given?;
    Ok((came, done, helped))
}

#[test]
fn a_million_orders_come_back_done_once(rt: HostRuntime) -> Result<(), Fail> {
    let (came, done, helped) = together(&rt, rt.alloc(), 1_000_000)?;
    assert_eq!(rt; came, 2_000_000);
    assert_eq!(rt; done.wrapping_add(helped), 2_000_000);
    assert!(rt; helped > 0);
    Ok(())
}

/// Who adds it after a pause.
#[derive(Drop)]
struct Sleeper<'a, C: Clock> {
    clock: &'a C,
    pause: Duration,
    done: u64,
}

impl<'a, C: Clock> Doer<u64, AddsOne> for Sleeper<'a, C> {
    fn is_worth(&self, _job: &u64) -> bool {
        true
    }

    fn work<R: Wait>(&mut self, _rt: &R, job: &mut u64) {
        sleep(self.clock, self.pause);
        *job = job.wrapping_add(1);
        self.done = self.done.wrapping_add(1);
    }
}

/// Four rounds in which the jobs take so many milliseconds here, and so many there. The processor time of both threads, and how many
/// jobs the one there did.
fn paused<R: Threads + Wait + Clock + CpuClock + Sync>(
    rt: &R,
    alloc: Global,
    here: u64,
    there: u64,
) -> Result<(Duration, Duration, u64), Fail> {
    let (post, mut helper) = open::<u64, AddsOne>(alloc)?;
    let mut posts = Vec::with_capacity(alloc, 1)?;
    posts.push(post)?;
    let (mine, (theirs, helped)) = join(
        rt,
        move || {
            let mut sleeper = Sleeper {
                clock: rt,
                pause: Duration::from_millis(here),
                done: 0,
            };
            meet(posts.as_slice());
            for _ in 0..4 {
                let _ = one_round(rt, alloc, &mut sleeper, &mut posts);
            }
            for post in posts.as_slice() {
                post.close();
            }
            rt.thread_cpu_time()
        },
        move || {
            let mut sleeper = Sleeper {
                clock: rt,
                pause: Duration::from_millis(there),
                done: 0,
            };
            helper.help(rt, &mut sleeper);
            (rt.thread_cpu_time(), sleeper.done)
        },
    );
    Ok((mine?, theirs?, helped))
}

/// How long jobs take, and how much processor time a thread may at most, in milliseconds.
const SHORT: u64 = 1;

const LONG: u64 = 200;

const LITTLE: u64 = 100;

#[test]
fn a_helper_that_waits_takes_no_processor(rt: HostRuntime) -> Result<(), Fail> {
    let (_, theirs, helped) = paused(&rt, rt.alloc(), LONG, SHORT)?;
    assert!(rt; helped > 0);
    assert!(rt; theirs < Duration::from_millis(LITTLE));
    Ok(())
}

#[test]
fn who_waits_for_a_helper_takes_no_processor(rt: HostRuntime) -> Result<(), Fail> {
    let (mine, _, helped) = paused(&rt, rt.alloc(), SHORT, LONG)?;
    assert!(rt; helped > 0);
    assert!(rt; mine < Duration::from_millis(LITTLE));
    Ok(())
}
