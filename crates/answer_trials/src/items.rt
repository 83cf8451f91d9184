//! Items at both ends of their times and of their number, with ample memory, and a key as BEP 44 has it.
ghost use Rattle.std.specs.Prelude.{IfOk};
ghost use Rattle.item_store.specs.Items.{IsItem};

use crate::replies::first_false;
use item_store::{ItemCall, ItemFault, ItemReply, Items, item_key};
use kad_base::{Addr, Bytes, Id, Ip, List, NoMemory, Serial};
use peer_store::Stored;
use std::alloc::Global;
use std::process::Abort;

const TWO_HOURS: u64 = 7_200_000;

/// The written form of the byte string of the two bytes of a number.
fn text(n: u16) -> [u8; 4] {
    let [high, low] = n.to_be_bytes();
    [b'2', b':', high, low]
}

/// That written form as an item.
fn item(alloc: Global, high: u8, low: u8) -> Result<Bytes, NoMemory>
    ensures { IfOk result IsItem }
{
    List::from_slice(alloc, &[b'2', b':', high, low])
}

/// 127.0.0.n with port 6881.
fn host(n: u8) -> Addr {
    Addr {
        ip: Ip::V4([127, 0, 0, n]),
        port: 6881,
    }
}

/// Adds the item of a number, from a host at the moment.
fn add_from(
    items: &mut Items,
    alloc: Global,
    n: u16,
    from: u8,
    at: u64,
) -> Result<Stored, ItemFault> {
    let [high, low] = n.to_be_bytes();
    match item(alloc, high, low) {
        Ok(v) => items.add(v, host(from), at),
        Err(NoMemory) => Err(ItemFault::NoMemory),
    }
}

/// Adds the item of a number at the moment.
fn add(items: &mut Items, alloc: Global, n: u16, at: u64) -> Result<Stored, ItemFault> {
    add_from(items, alloc, n, 1, at)
}

/// Whether the item of a number is handed out at the moment.
fn has(items: &Items, n: u16, at: u64) -> bool {
    let text = text(n);
    match items.get(&item_key(&text), at) {
        Some(v) => v == text.as_slice(),
        None => false,
    }
}

#[test]
fn keys_are_as_bep_44_has_them(rt: HostRuntime) {
    assert_eq!(rt;
        item_key(b"12:Hello World!"),
        Id([
            0xe5, 0xf9, 0x6f, 0x6f, 0x38, 0x32, 0x0f, 0x0f, 0x33, 0x95, 0x9c, 0xb4, 0xd3, 0xd6,
            0x56, 0x45, 0x21, 0x17, 0xaa, 0xdb,
        ])
    );
}

/// Plays a trial over a store of no items: nothing that it says is false.
fn over<R: AllocGlobal + Abort, F: FnOnce(&mut Items, Global) -> Option<usize>>(rt: &R, trial: F)
    requires { F.IsAlwaysCallable trial }
{
    let mut items = sent(Items::new(rt.alloc()));
    assert_eq!(rt; trial(&mut items, rt.alloc()), None);
}

/// Whether the item of a number is new at the moment.
fn is_new(items: &mut Items, alloc: Global, n: u16, at: u64) -> bool {
    add(items, alloc, n, at) == Ok(Stored::New)
}

/// Whether it is renewed then.
fn is_renewed(items: &mut Items, alloc: Global, n: u16, at: u64) -> bool {
    add(items, alloc, n, at) == Ok(Stored::Renewed)
}

/// Whether the item of a number is handed out after a purge at this moment.
fn stays(items: &mut Items, n: u16, purged: u64) -> bool {
    items.purge(purged);
    has(items, n, 0)
}

fn lasts(items: &mut Items, alloc: Global) -> Option<usize> {
    first_false(&[
        is_new(items, alloc, 1, 0),
        has(items, 1, TWO_HOURS - 1),
        !has(items, 1, TWO_HOURS),
        is_renewed(items, alloc, 1, 5),
        has(items, 1, TWO_HOURS + 4),
        !has(items, 1, TWO_HOURS + 5),
        !has(items, 2, 5),
    ])
}

#[test]
fn an_item_is_handed_out_for_two_hours_after_its_last_add(rt: HostRuntime) {
    over(&rt, lasts)
}

fn counts_earlier(items: &mut Items, alloc: Global) -> Option<usize> {
    first_false(&[
        is_new(items, alloc, 1, 10),
        is_renewed(items, alloc, 1, 0),
        !has(items, 1, TWO_HOURS),
    ])
}

#[test]
fn an_earlier_add_counts_too(rt: HostRuntime) {
    over(&rt, counts_earlier)
}

fn drops_old(items: &mut Items, alloc: Global) -> Option<usize> {
    first_false(&[
        is_new(items, alloc, 1, 0),
        is_new(items, alloc, 2, 1),
        stays(items, 1, TWO_HOURS - 1),
        !stays(items, 1, TWO_HOURS),
        has(items, 2, 0),
    ])
}

#[test]
fn a_purge_drops_what_is_two_hours_old(rt: HostRuntime) {
    over(&rt, drops_old)
}

fn keeps_later(items: &mut Items, alloc: Global) -> Option<usize> {
    first_false(&[
        is_new(items, alloc, 1, u64::MAX),
        stays(items, 1, 0),
        has(items, 1, u64::MAX),
    ])
}

#[test]
fn an_add_after_the_moment_is_fresh(rt: HostRuntime) {
    over(&rt, keeps_later)
}

/// Adds the items of the numbers below 4,096.
fn fill(items: &mut Items, alloc: Global) -> Result<(), ItemFault> {
    for n in 0..4_096 {
        add(items, alloc, n, 0)?;
    }
    Ok(())
}

fn fills_up(items: &mut Items, alloc: Global) -> Option<usize> {
    first_false(&[
        fill(items, alloc).is_ok(),
        add(items, alloc, 4_096, 0) == Err(ItemFault::Full),
        is_renewed(items, alloc, 7, 1),
        stays(items, 7, TWO_HOURS),
        !has(items, 8, 0),
        is_new(items, alloc, 4_096, TWO_HOURS),
    ])
}

#[test]
fn as_many_items_as_may_be(rt: HostRuntime) {
    over(&rt, fills_up)
}

/// What may go to another thread.
fn sent<T: Send>(value: T) -> T {
    value
}

/// Puts the item of a number at a moment by a call of role 1.
fn call_put(items: &mut Items, alloc: Global, number: u8, at: u64) -> ItemReply {
    match item(alloc, 0, number) {
        Ok(v) => items.apply(
            1,
            ItemCall::Put {
                v,
                from: host(1),
                at,
            },
        ),
        Err(NoMemory) => ItemReply::NoMemory,
    }
}

/// Asks for the item of the number 1 by a call of role 2, and says whether it came.
fn call_get(items: &mut Items, at: u64) -> bool {
    let text = text(1);
    let key = item_key(&text);
    match items.apply(2, ItemCall::Get { key, at }) {
        ItemReply::Held { v } => v.as_slice() == text.as_slice(),
        _ => false,
    }
}

/// Whether the item of a number is new to a call that puts it.
fn puts_new(items: &mut Items, alloc: Global, number: u8, at: u64) -> bool {
    let stored = Stored::New;
    call_put(items, alloc, number, at) == ItemReply::Stored { stored }
}

fn replies_to_calls(items: &mut Items, alloc: Global) -> Option<usize> {
    first_false(&[
        puts_new(items, alloc, 1, 0),
        call_get(items, TWO_HOURS - 1),
        !call_get(items, TWO_HOURS),
        // What is old is dropped where an item is put.
        puts_new(items, alloc, 2, TWO_HOURS),
        !call_get(items, 0),
    ])
}

#[test]
fn calls_have_their_replies(rt: HostRuntime) {
    over(&rt, replies_to_calls)
}

/// Plays a trial over a store of no items that holds at most one item of one host.
fn over_one_of_a_host<R: AllocGlobal + Abort, F: FnOnce(&mut Items, Global) -> Option<usize>>(
    rt: &R,
    trial: F,
)
    requires { F.IsAlwaysCallable trial }
{
    let mut items = Items::limited(rt.alloc(), 1);
    assert_eq!(rt; trial(&mut items, rt.alloc()), None);
}

/// Whether the host is crowded to the item of a number at the moment.
fn is_crowded(items: &mut Items, alloc: Global, n: u16, from: u8, at: u64) -> bool {
    add_from(items, alloc, n, from, at) == Err(ItemFault::Crowded)
}

fn counts_hosts(items: &mut Items, alloc: Global) -> Option<usize> {
    first_false(&[
        add_from(items, alloc, 1, 1, 0) == Ok(Stored::New),
        is_crowded(items, alloc, 2, 1, 0),
        add_from(items, alloc, 2, 2, 0) == Ok(Stored::New),
        // An item counts for the host that put it first.
        add_from(items, alloc, 2, 1, 5) == Ok(Stored::Renewed),
        is_crowded(items, alloc, 3, 2, 5),
        call_put(items, alloc, 3, 5) == ItemReply::Crowded,
        // What was purged counts no more.
        stays(items, 2, TWO_HOURS),
        !has(items, 1, 0),
        add_from(items, alloc, 3, 1, TWO_HOURS) == Ok(Stored::New),
        is_crowded(items, alloc, 4, 2, TWO_HOURS),
    ])
}

#[test]
fn at_most_one_item_of_a_host(rt: HostRuntime) {
    over_one_of_a_host(&rt, counts_hosts)
}
