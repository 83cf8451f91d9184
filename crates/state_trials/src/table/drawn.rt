//! Contacts that are drawn by xorshift from a fixed seed.
ghost use Rattle.std.specs.Prelude.{◌<◌, ◌≤◌};

use crate::table::buckets::finds;
use crate::table::flat::Flat;
use bucket_tree::{Buckets, Prefix};
use kad_base::{Addr, Contact, Id, Ip, NoMemory};
use kad_distance::k_least;
use std::alloc::Global;
use std::test::Fail;

#[derive(Drop)]
struct Draws {
    state: u64,
}

fn seeded() -> Draws {
    Draws {
        state: 88172645463325252,
    }
}

impl Draws {
    fn byte(&mut self) -> u8 {
        let mut x = self.state;
        x ^= x << 13;
        x ^= x >> 7;
        x ^= x << 17;
        self.state = x;
        (x / 4294967296 % 256) as u8
    }

    /// One of a few identifiers, at one of two addresses, of which most share some bits with zeros.
    fn near(&mut self) -> Contact {
        let mut id = [0; 20];
        id[(self.byte() % 3) as usize] = self.byte();
        id[19] = self.byte() % 2;
        let addr = Addr {
            ip: Ip::V4([127, 0, 0, 1]),
            port: u16::from(self.byte() % 2),
        };
        Contact { id: Id(id), addr }
    }

    /// Any contact.
    fn any(&mut self) -> Contact {
        let mut id = [0; 20];
        for at in 0..20 {
            id[at] = self.byte();
        }
        let addr = Addr {
            ip: Ip::V4([10, 0, self.byte(), self.byte()]),
            port: 6001,
        };
        Contact { id: Id(id), addr }
    }
}

/// Whether both have the same live contacts, row by row.
fn has_same_live(buckets: &Buckets, flat: &Flat) -> Option<bool> {
    let live = buckets.live().ok()?;
    let wanted = flat.live()?;
    Some(live.as_slice() == wanted.as_slice())
}

/// Whether these are the prefixes of the rows, in order.
fn are_prefixes(prefixes: &[Prefix], wanted: &[(Id, u8)]) -> bool {
    prefixes.len() == wanted.len()
        && prefixes
            .iter()
            .zip(wanted)
            .all(|(prefix, want)| (prefix.bits(), prefix.len()) == *want)
}

fn has_same_prefixes(buckets: &Buckets, flat: &Flat) -> Option<bool> {
    let prefixes = buckets.prefixes().ok()?;
    let wanted = flat.prefixes()?;
    Some(are_prefixes(prefixes.as_slice(), wanted.as_slice()))
}

/// Whether both have the same rows, as far as callers see them.
fn is_same(buckets: &Buckets, flat: &Flat) -> Option<bool> {
    Some(has_same_live(buckets, flat)? && has_same_prefixes(buckets, flat)?)
}

/// Whether both answer alike to one drawn call, and neither is out of memory.
fn answers_one_alike(buckets: &mut Buckets, flat: &mut Flat, draws: &mut Draws) -> bool {
    let contact = draws.near();
    if draws.byte() % 4 == 0 {
        flat.failed(&contact) == Some(buckets.failed(&contact))
    } else {
        let seen = buckets.seen(contact).ok();
        seen.is_some() && flat.seen(contact) == seen
    }
}

/// Whether a tree and a flat list answer alike to drawn calls, of which one in four says that a contact failed.
fn answers_alike(alloc: Global, draws: &mut Draws, k: u8, b: u8, calls: u16) -> Option<bool>
    requires some_live { 0 < k }
    requires few_live { k ≤ 20 }
    requires some_bits { 0 < b }
    requires few_bits { b ≤ 5 }
{
    let own = Id([0; 20]);
    let mut buckets = Buckets::new(alloc, own, k, b).ok()?;
    let mut flat = Flat::new(alloc, own, k, b)?;
    for _call in 0..calls {
        if !answers_one_alike(&mut buckets, &mut flat, draws) {
            return Some(false);
        }
    }
    is_same(&buckets, &flat)
}

#[test]
fn answers_as_a_flat_list_of_rows(rt: HostRuntime) -> Result<(), Fail> {
    let mut draws = seeded();
    for k in 1..=20u8 {
        for b in 1..=5u8 {
            let alike = answers_alike(rt.alloc(), &mut draws, k, b, 600);
            assert_eq!(rt; alike, Some(true), "k {k}, b {b}");
        }
    }
    Ok(())
}

/// Buckets that were told drawn contacts.
fn told(alloc: Global, contacts: &[Contact]) -> Result<Buckets, Fail> {
    let mut buckets = Buckets::new(alloc, Id([0; 20]), 8, 5)?;
    for contact in contacts {
        buckets.seen(*contact)?;
    }
    Ok(buckets)
}

fn drawn(alloc: Global, n: u16) -> Result<Vec<Contact>, Fail> {
    let mut draws = seeded();
    let mut contacts = Vec::new(alloc);
    for _i in 0..n {
        contacts.push(draws.any())?;
    }
    Ok(contacts)
}

/// Appends the closest contacts to these bits.
fn append_closest(all: &mut Vec<Contact>, buckets: &Buckets, bits: &Id) -> Result<(), Fail> {
    let near = buckets.closest(bits, 255)?;
    Ok(all.extend_from_slice(near.as_slice())?)
}

/// The closest contacts to the bits of each prefix, joined.
fn joined(alloc: Global, buckets: &Buckets) -> Result<Vec<Contact>, Fail> {
    let mut all = Vec::new(alloc);
    let prefixes = buckets.prefixes()?;
    for prefix in prefixes.as_slice() {
        append_closest(&mut all, buckets, &prefix.bits())?;
    }
    Ok(all)
}

/// Whether the buckets find the 8 of all that are closest to the target.
fn finds_closest(alloc: Global, buckets: &Buckets, all: &[Contact], target: &Id) -> bool {
    match k_least(alloc, target, 8, all) {
        Ok(wanted) => finds(buckets, target, 8, wanted.as_slice()),
        Err(NoMemory) => false,
    }
}

#[test]
fn finds_the_closest_of_20000_that_were_seen(rt: HostRuntime) -> Result<(), Fail> {
    let contacts = drawn(rt.alloc(), 20000)?;
    let buckets = told(rt.alloc(), contacts.as_slice())?;
    let all = joined(rt.alloc(), &buckets)?;
    let mut draws = seeded();
    for _i in 0..200u8 {
        let target = draws.any().id;
        let found = finds_closest(rt.alloc(), &buckets, all.as_slice(), &target);
        assert!(rt; found, "{target:?}");
    }
    Ok(())
}

/// How many prefixes begin an identifier.
fn covering(prefixes: &bucket_tree::Prefixes, id: &Id) -> usize {
    prefixes
        .as_slice()
        .iter()
        .filter(|prefix| prefix.begins(id))
        .count()
}

#[test]
fn covers_each_of_20000_once(rt: HostRuntime) -> Result<(), Fail> {
    let contacts = drawn(rt.alloc(), 20000)?;
    let buckets = told(rt.alloc(), contacts.as_slice())?;
    let prefixes = buckets.prefixes()?;
    for contact in &contacts {
        assert_eq!(rt; covering(&prefixes, &contact.id), 1);
    }
    Ok(())
}
