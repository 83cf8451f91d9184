//! How the two sides of a desk wait for each other. Nothing here is known to a proof.
use std::hint::spin_loop;
use std::sync::Wait;
use std::sync::atomic::{AtomicU64, Ordering};
use std::thread::yield_now;

/// No helper has come yet.
const ABSENT: u64 = 0;

/// The helper waits, and looks.
const READY: u64 = 1;

/// The helper waits, and has to be woken.
const ASLEEP: u64 = 2;

/// The helper has an order.
const ORDERED: u64 = 3;

/// The helper has an order, and who gave it has to be woken.
const AWAITED: u64 = 4;

/// The order is done, and the helper waits for the next.
const DONE: u64 = 5;

/// No order comes any more.
const CLOSED: u64 = 6;

/// How often who gave an order looks whether it is done, before it sleeps.
const LOOKS: u32 = 2_000;

/// How often others are let go first, at the most, until a helper comes.
const YIELDS: u32 = 300;

/// How far a desk is.
#[derive(Drop)]
pub(crate) struct Word {
    state: AtomicU64,
}

impl Word {
    pub(crate) fn new() -> Word {
        Word {
            state: AtomicU64::new(ABSENT),
        }
    }

    fn state(&self) -> u64 {
        self.state.load(Ordering::SeqCst)
    }

    /// Whether a helper waits at the desk.
    pub(crate) fn is_ready(&self) -> bool {
        let state = self.state();
        state == READY || state == ASLEEP || state == DONE
    }

    /// Whether a helper came, within a while.
    pub(crate) fn is_met(&self) -> bool {
        for _ in 0..YIELDS {
            if self.state() != ABSENT {
                return true;
            }
            yield_now();
        }
        false
    }

    /// Goes on from one state to another. False, with no change, where it is in another.
    fn change(&self, from: u64, to: u64) -> bool {
        self.state
            .compare_exchange(from, to, Ordering::SeqCst, Ordering::SeqCst)
            .is_ok()
    }

    /// A helper comes. False where the desk was closed before.
    pub(crate) fn enter(&self) -> bool {
        self.change(ABSENT, READY)
    }

    /// Goes on to this state, and wakes the other side if it slept in that one.
    fn pass_to(&self, next: u64, sleeping: u64) {
        if self.state.swap(next, Ordering::SeqCst) == sleeping {
            self.state.wake_one();
        }
    }

    pub(crate) fn tell_order(&self) {
        self.pass_to(ORDERED, ASLEEP);
    }

    /// The order was taken back.
    pub(crate) fn tell_taken_back(&self) {
        let _ = self.state.swap(READY, Ordering::SeqCst);
    }

    /// The order is done. Who gave it may have fetched it before this is told, and closed the desk: then it stays closed.
    pub(crate) fn tell_done(&self) {
        if !self.change(ORDERED, DONE) && self.change(AWAITED, DONE) {
            self.state.wake_one();
        }
    }

    pub(crate) fn close(&self) {
        self.pass_to(CLOSED, ASLEEP);
    }

    /// Sleeps while the state is this one, and says so in it.
    fn sleep<R: Wait>(&self, rt: &R, seen: u64, sleeping: u64) {
        let _ = self.change(seen, sleeping);
        self.state.park(rt, (sleeping & 7) as u32);
    }

    /// Waits for an order. False where the desk is closed.
    pub(crate) fn wait_order<R: Wait>(&self, rt: &R) -> bool {
        for _ in rt.forever() {
            let state = self.state();
            if state == ORDERED || state == AWAITED {
                return true;
            }
            if state == CLOSED {
                return false;
            }
            self.sleep(rt, state, ASLEEP);
        }
        unreachable!()
    }

    /// Whether no order is out any more, or not for a while.
    fn is_soon_done(&self) -> bool {
        for _ in 0..LOOKS {
            if self.state() != ORDERED {
                return true;
            }
            spin_loop();
        }
        false
    }

    /// Waits for the end of an order.
    pub(crate) fn wait_done<R: Wait>(&self, rt: &R) {
        let _ = self.is_soon_done();
        for _ in rt.forever() {
            let state = self.state();
            if state != ORDERED && state != AWAITED {
                return;
            }
            self.sleep(rt, state, AWAITED);
        }
    }
}
