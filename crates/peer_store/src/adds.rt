//! The last adds in order of their pairs.
ghost use Rattle.std.specs.Prelude.{◌≡◌, ◌↔◌, ◌-◌, ◌<◌, ◌≤◌, ◌++◌, IsTrue, OnOk, OnErr, IfOk, length, take};
ghost use Rattle.std.specs.List.Sorted.{IsStrictlySortedBy};
ghost use Rattle.std.specs.Map.{keys_of};
ghost use Rattle.kad_base.specs.Limits.{max_peers};
ghost use Rattle.peer_store.specs.Between.{AreBetween};
ghost use Rattle.peer_store.specs.Peers.{Holds, IsCrowded, HasNoPlace, pair_cmp, pair_host, with_add, fresh, purged, peers_of, listed, max_listed};
ghost use Rattle.aged_map.specs.PerHost.{HasFewOfEach};

use crate::ends::{FIRST, LAST};
use aged_map::{HostedMap, Refused, Stored};
use kad_base::limits::MAX_PEERS;
use kad_base::{Addr, Addrs, Id, List, NoMemory};
use std::alloc::Global;
use std::collections::btree_map::Range;

/// How long a peer is kept and listed after its last add, in milliseconds.
pub(crate) const MAX_AGE: u64 = 1_800_000;

/// The most peers of one list.
const MAX_LISTED: usize = 50;

/// The last add of each pair of a key and a peer of it, in order of the keys and then of the addresses.
pub(crate) type Adds = HostedMap<(Id, Addr), u64>;

/// Whether a last add is fresh at the moment.
fn is_fresh(last: u64, at: u64) -> bool
    ensures { IsTrue result ↔ (at - last < 1800000) }
{
    at.saturating_sub(last) < MAX_AGE
}

/// Puts the pair in its place with this last add, or leaves all as it is.
pub(crate) fn put(adds: &mut Adds, key: Id, peer: Addr, at: u64) -> Result<Stored, Refused>
    ensures ok { OnOk result (adds.new ≡ with_add adds.old (key, peer) at) }
    ensures err { OnErr result (adds.new ≡ adds.old) }
    ensures renewed { (result ≡ Ok Stored.Renewed) ↔ Holds adds.old (key, peer) }
    ensures crowded { (result ≡ Err Refused.Crowded) ↔ IsCrowded adds.old (key, peer) }
    ensures full { (result ≡ Err Refused.Full) ↔ HasNoPlace adds.old (key, peer) }
    ensures few { length adds.old.held ≤ max_peers → length adds.new.held ≤ max_peers }
    ensures sorted { IsStrictlySortedBy pair_cmp (keys_of adds.new.held) }
    ensures few_of_a_host { HasFewOfEach pair_host adds.new }
{
    adds.put((key, peer), at, MAX_PEERS)
}

/// Drops what isn't fresh at the moment.
pub(crate) fn drop_old(adds: &mut Adds, at: u64)
    ensures kept { adds.new ≡ purged adds.old at }
    ensures length { length adds.new.held ≤ length adds.old.held }
    ensures sorted { IsStrictlySortedBy pair_cmp (keys_of adds.new.held) }
    ensures few_of_a_host { HasFewOfEach pair_host adds.new }
{
    adds.purge(MAX_AGE, at);
}

/// The first peers of the key that are fresh at the moment, in order. Goes over the peers of this key alone, and ends
/// at the fiftieth that is fresh; over none where all that is held is old.
pub(crate) fn first_fresh(adds: &Adds, alloc: Global, key: Id, at: u64) -> Result<Addrs, NoMemory>
    requires { AreBetween adds.now.held }
    ensures { IfOk result (λ peers. peers ≡ listed adds.now key at) }
{
    if adds.is_all_old(MAX_AGE, at) {
        return Ok(List::new(alloc));
    }
    first_of(adds, alloc, key, at)
}

/// The same, where some may be fresh.
fn first_of(adds: &Adds, alloc: Global, key: Id, at: u64) -> Result<Addrs, NoMemory>
    requires { AreBetween adds.now.held }
    ensures { IfOk result (λ peers. peers ≡ listed adds.now key at) }
{
    let none = List::new(alloc);
    take_fresh(adds.range((key, FIRST), (key, LAST)), none, at)
}

/// These peers, and then those of the range that are fresh, the first 50 of all.
pub(crate) fn take_fresh(
    held: Range<'_, (Id, Addr), u64>,
    peers: Addrs,
    at: u64,
) -> Result<Addrs, NoMemory>
    requires { length peers ≤ max_listed }
    ensures { IfOk result (λ all. all ≡ take max_listed (peers ++ peers_of (fresh held.entry at))) }
{
    let mut all = peers;
    for ((_, peer), last) in held {
        if all.len() == MAX_LISTED {
            break;
        }
        if is_fresh(*last, at) {
            all.push(*peer)?;
        }
    }
    Ok(all)
}
