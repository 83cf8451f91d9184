//! A counter behind a turn: one thread and two count it up, each role calls, and passes go out and come back.
ghost use Rattle.std.specs.Prelude.{◌≡◌, ◌+◌, ◌%◌, ◌^◌, ◌<◌, ◌≤◌, [], length, vec_capacity};
ghost use Rattle.std.specs.List.{All};

use kad_base::Serial;
use std::alloc::Global;
use std::sync::Wait;
use std::test::Fail;
use std::thread::{Threads, join};
use turn_book::{Pass, Passes, Turn, TurnNoMemory};

/// A number that each call adds one to, and which it answers.
#[derive(Drop)]
struct Counter {
    count: u64,
}

impl Serial for Counter {
    type Call = u64;

    type Reply = u64;

    ghost may = { λ role call. Unit {0} };

    ghost step = { λ counter role call reply. reply ≡ (counter.count + call) % 2 ^ 64 };

    ghost after = { λ counter role call reply. record { count = reply } };

    fn apply(&mut self, role: u8, call: u64) -> u64 {
        let _ = role;
        self.count = self.count.wrapping_add(call);
        self.count
    }
}

/// Counts up so many times.
fn count_up<R: Wait>(
    rt: &R,
    turn: &Turn<Counter>,
    mut pass: Pass<Counter>,
    times: u32,
) -> Pass<Counter>
    requires { pass.turn ≡ turn.now.id }
    ensures { result.turn ≡ turn.now.id }
{
    for _ in 0..times {
        turn.call(rt, &mut pass, 1);
    }
    pass
}

/// Two threads make a thousand calls each. What the counter says at the end, and how many calls were told.
fn counted<R: Threads + Wait + Sync>(rt: &R, alloc: Global) -> Option<(u64, u64)> {
    let Ok((turn, mut passes)) = Turn::new(alloc, Counter { count: 0 }, 2) else {
        return None;
    };
    let one = passes.pop()?;
    let zero = passes.pop()?;
    let there = &turn;
    let (zero, one) = join(
        rt,
        move || -> Pass<Counter>
            requires { zero.turn ≡ there.now.id }
            ensures { result.turn ≡ there.entry.now.id }
        { count_up(rt, there, zero, 1000) },
        move || -> Pass<Counter>
            requires { one.turn ≡ there.now.id }
            ensures { result.turn ≡ there.entry.now.id }
        { count_up(rt, there, one, 1000) },
    );
    passes.push(zero);
    passes.push(one);
    let (counter, told) = turn.close(passes);
    Some((counter.count, told.calls))
}

#[test]
fn two_threads_count_to_2000(rt: HostRuntime) -> Result<(), Fail> {
    let found = counted(&rt, rt.alloc());
    assert_eq!(rt; found, Some((2000, 2000)));
    Ok(())
}

/// One pass makes so many calls. What the counter says at the end, and how many calls were told.
fn counted_alone<R: Wait>(rt: &R, alloc: Global, times: u32) -> Option<(u64, u64)> {
    let Ok((turn, mut passes)) = Turn::new(alloc, Counter { count: 0 }, 1) else {
        return None;
    };
    let pass = passes.pop()?;
    passes.push(count_up(rt, &turn, pass, times));
    let (counter, told) = turn.close(passes);
    Some((counter.count, told.calls))
}

#[test]
fn one_pass_counts_to_3000000(rt: HostRuntime) -> Result<(), Fail> {
    let found = counted_alone(&rt, rt.alloc(), 3_000_000);
    assert_eq!(rt; found, Some((3_000_000, 3_000_000)));
    Ok(())
}

/// Takes out every pass, the last first, and each makes a call.
fn call_last_first<R: Wait>(
    rt: &R,
    turn: &Turn<Counter>,
    passes: &mut Passes<Counter>,
    out: &mut Vec<Pass<Counter>>,
)
    requires own { All (λ p. p.turn ≡ turn.now.id) passes.old.passes }
    requires empty { out.old.items ≡ [] }
    requires space { length passes.old.passes ≤ vec_capacity out.old }
    ensures own { All (λ p. p.turn ≡ turn.now.id) out.new.items }
    ensures count { length out.new.items ≡ length passes.old.passes }
    ensures none { passes.new.passes ≡ [] }
    ensures room { passes.new.room ≡ passes.old.room }
{
    while let Some(mut pass) = passes.pop() {
        turn.call(rt, &mut pass, 1);
        out.push_reserved(pass);
    }
}

/// Puts every pass back, the one that was taken out last first, and each makes another call.
fn call_first_first<R: Wait>(
    rt: &R,
    turn: &Turn<Counter>,
    passes: &mut Passes<Counter>,
    mut out: Vec<Pass<Counter>>,
)
    requires own { All (λ p. p.turn ≡ turn.now.id) out.items }
    requires none { passes.old.passes ≡ [] }
    requires room { length out.items ≤ passes.old.room }
    ensures own { All (λ p. p.turn ≡ turn.now.id) passes.new.passes }
    ensures count { length passes.new.passes ≡ length out.items }
{
    while let Some(mut pass) = out.pop() {
        turn.call(rt, &mut pass, 1);
        passes.push(pass);
    }
}

/// Each of so many roles makes two calls, first the last role first and then role 0 first. What the counter says at the
/// end, and how many calls were told.
fn all_call<R: Wait>(rt: &R, alloc: Global, roles: u8) -> Option<(u64, u64)>
    requires some { 0 < roles }
    requires few { roles ≤ 64 }
{
    let Ok((turn, mut passes)) = Turn::new(alloc, Counter { count: 0 }, roles) else {
        return None;
    };
    let Ok(mut out) = Vec::with_capacity(alloc, roles as usize) else {
        return None;
    };
    call_last_first(rt, &turn, &mut passes, &mut out);
    call_first_first(rt, &turn, &mut passes, out);
    let (counter, told) = turn.close(passes);
    Some((counter.count, told.calls))
}

#[test]
fn each_of_64_roles_calls_twice(rt: HostRuntime) -> Result<(), Fail> {
    let found = all_call(&rt, rt.alloc(), 64);
    assert_eq!(rt; found, Some((128, 128)));
    Ok(())
}

#[test]
fn each_role_of_one_to_eight_paths_calls_twice(rt: HostRuntime) -> Result<(), Fail> {
    for paths in 1u8..9 {
        let roles = paths + 1;
        let calls = 2 * roles as u64;
        let found = all_call(&rt, rt.alloc(), roles);
        assert_eq!(rt; found, Some((calls, calls)));
    }
    Ok(())
}

/// One pass goes out, makes a call and comes back: whether no other was left, the reply, and what `close` answers.
fn called_once<R: Wait>(rt: &R, alloc: Global) -> Option<(bool, u64, u64, u64)> {
    let Ok((turn, mut passes)) = Turn::new(alloc, Counter { count: 7 }, 1) else {
        return None;
    };
    let mut pass = passes.pop()?;
    let none_left = passes.pop().is_none();
    let reply = turn.call(rt, &mut pass, 5);
    passes.push(pass);
    let (counter, told) = turn.close(passes);
    Some((none_left, reply, counter.count, told.calls))
}

#[test]
fn a_pass_goes_out_and_comes_back(rt: HostRuntime) -> Result<(), Fail> {
    let found = called_once(&rt, rt.alloc());
    assert_eq!(rt; found, Some((true, 12, 12, 1)));
    Ok(())
}

/// The state as it comes back, whether a turn of 64 roles was opened or refused.
fn returned(alloc: Global) -> u64 {
    match Turn::new(alloc, Counter { count: 9 }, 64) {
        Ok((turn, passes)) => turn.close(passes).0.count,
        Err(TurnNoMemory { state }) => state.count,
    }
}

#[test]
fn the_state_comes_back(rt: HostRuntime) -> Result<(), Fail> {
    let found = returned(rt.alloc());
    assert_eq!(rt; found, 9);
    Ok(())
}
