//! Buckets of 992 rows, and calls at both ends of each parameter.
ghost use Rattle.std.specs.Prelude.{◌<◌, ◌≤◌};

use crate::table::buckets::finds;
use bucket_tree::{Buckets, Gone, Seen};
use kad_base::{Addr, Contact, Id, Ip};
use std::alloc::Global;
use std::test::Fail;

/// The identifier `own` with its five bits from place 5j on combined by XOR with those of v.
fn far(own: &Id, j: u8, v: u8) -> Contact {
    let mut id = *own;
    for i in 0..5u8 {
        let at = j.wrapping_mul(5).wrapping_add(i);
        if (v >> (4 - i)) & 1 == 1 && at < 160 {
            id.0[(at / 8) as usize] ^= 1 << (7 - at % 8);
        }
    }
    let addr = Addr {
        ip: Ip::V4([127, 0, 0, 1]),
        port: 6001,
    };
    Contact { id, addr }
}

/// The identifier that begins with a 1, and is zeros then.
fn half_way() -> Id {
    let mut own = Id([0; 20]);
    own.0[0] = 0x80;
    own
}

/// Buckets of one contact each, of which 31 split off at each of 32 places.
fn many_rows(alloc: Global) -> Result<Buckets, Fail> {
    let own = half_way();
    let mut buckets = Buckets::new(alloc, own, 1, 5)?;
    for j in 0..32u8 {
        for v in 1..32u8 {
            buckets.seen(far(&own, j, v))?;
        }
    }
    Ok(buckets)
}

/// How many prefixes and how many live contacts there are.
fn counts(buckets: &Buckets) -> Option<(usize, usize)> {
    let prefixes = buckets.prefixes().ok()?.len();
    let live = buckets.live().ok()?.len();
    Some((prefixes, live))
}

#[test]
fn grows_to_992_rows(rt: HostRuntime) -> Result<(), Fail> {
    let own = half_way();
    let buckets = many_rows(rt.alloc())?;
    assert_eq!(rt; counts(&buckets), Some((992, 992)));
    let wanted = [far(&own, 31, 1), far(&own, 31, 2), far(&own, 31, 3)];
    assert!(rt; finds(&buckets, &own, 3, &wanted));
    Ok(())
}

/// Tells the buckets of a contact so often, and answers how often they didn't move it.
fn others_than_moved(
    buckets: &mut Buckets,
    one: Contact,
    two: Contact,
    times: u32,
) -> Result<u32, Fail> {
    let mut others = 0u32;
    for _i in 0..times {
        if buckets.seen(one)? != Seen::Moved || buckets.seen(two)? != Seen::Moved {
            others = others.wrapping_add(1);
        }
    }
    Ok(others)
}

#[test]
fn answers_100000000_calls_within_a_test(rt: HostRuntime) -> Result<(), Fail> {
    let own = half_way();
    let mut buckets = many_rows(rt.alloc())?;
    let others = others_than_moved(&mut buckets, far(&own, 0, 15), far(&own, 0, 16), 50000000)?;
    assert_eq!(rt; others, 0);
    Ok(())
}

/// A contact of either family, with the identifier of 20 bytes n.
fn uniform(n: u8, port: u16) -> Contact {
    let ip = if n % 4 == 0 {
        Ip::V4([n; 4])
    } else {
        Ip::V6([n; 16])
    };
    Contact {
        id: Id([n; 20]),
        addr: Addr { ip, port },
    }
}

/// Whether 40 contacts and their failures are each answered, and then the closest n, and none is out of memory.
fn has_memory(alloc: Global, k: u8, b: u8, port: u16) -> Option<bool>
    requires some_live { 0 < k }
    requires few_live { k ≤ 20 }
    requires some_bits { 0 < b }
    requires few_bits { b ≤ 5 }
{
    let mut buckets = Buckets::new(alloc, Id([0; 20]), k, b).ok()?;
    for n in 1..=40u8 {
        let seen = buckets.seen(uniform(n.wrapping_mul(6), port)).ok()?;
        if seen != Seen::Added && seen != Seen::Spared {
            return Some(false);
        }
    }
    let live = buckets.live().ok()?;
    for n in 0..=255u8 {
        let near = buckets.closest(&Id([n; 20]), n).ok()?;
        if near.len() != live.len().min(n as usize) {
            return Some(false);
        }
    }
    Some(buckets.failed(&uniform(6, port)) != Gone::Removed)
}

#[test]
fn answers_at_both_ends_of_each_parameter(rt: HostRuntime) -> Result<(), Fail> {
    for k in [1, 2, 8, 20u8] {
        for b in 1..=5u8 {
            for port in [0, 7001, 65535] {
                let has = has_memory(rt.alloc(), k, b, port);
                assert_eq!(rt; has, Some(true), "k {k}, b {b}, port {port}");
            }
        }
    }
    Ok(())
}
