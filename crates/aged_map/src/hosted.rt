//! A map that holds at most so many values of one host.
ghost use Rattle.std.specs.Prelude.{◌≡◌, ◌↔◌, ◌<◌, ◌≤◌, ◌+◌, ◌++◌, ◌∷◌, [], false, true, cond, filter, IsTrue, OnOk, OnErr, IfSome, length, nat_lt, option_copied};
ghost use Rattle.std.specs.List.Sorted.{IsStrictlySortedBy};
ghost use Rattle.std.specs.Map.{keys_of, lookup};
ghost use Rattle.std.specs.BTreeMap.{insert_entry, is_at};
ghost use Rattle.std.specs.BTreeMap.Range.{entries_between};
ghost use Rattle.std.specs.Ordering.{eq_by_cmp, is_gt};
ghost use Rattle.std.specs.Set.{is_member};
ghost use Rattle.std.specs.declared.cmp.Ordering.TheVariants.{Equal};
ghost use Rattle.std.specs.declared.ops.Bound.TheVariants.{Included, Excluded};
ghost use Rattle.kad_base.specs.Hosts.{host};
ghost use Rattle.kad_base.specs.declared.host.Host.{Host};
ghost use Rattle.aged_map.specs.Ages.{Holds, purged};
ghost use Rattle.aged_map.specs.PerHost.{HasFewOfEach, HasNoPlaceAmong, HasNoPlaceAt, IsAdmitted, IsTold, Limited, Tells, cleaned, holding, is_of, limited, told_of};

use crate::aged::{Aged, Stored};
use crate::map::AgedMap;
use kad_base::{Addr, Host, Id, NoMemory, host_of};
use std::alloc::Global;
use std::collections::BTreeMap;
use std::collections::btree_map::Range;
use std::marker::Model;

/// What is somebody's: a value that stands under a key.
pub trait Hosted<K: Ord> {
    /// Whose a value under a key is.
    ghost host: { K → Self → Host };

    /// Whose it is under this key.
    fn host(&self, key: &K) -> Host
        ensures { result ≡ host key.now self.now };

    /// Keys that compare as equal make no difference.
    ghost alike: { (a b : K) (v : Self) → K.cmp a b ≡ Equal → host a v ≡ host b v };
}

/// A moment under a key and an address: whose the address is.
impl Hosted<(Id, Addr)> for u64 {
    ghost use Rattle.kad_base.specs.Hosts.{host as host_of_address};
    ghost use Rattle.aged_map.specs.Addressed.{pairs_alike};

    ghost host = { λ key moment. host_of_address key.1 };

    ghost alike = { pairs_alike };

    fn host(&self, key: &(Id, Addr)) -> Host {
        host_of(&key.1)
    }
}

/// Why a value wasn't put. Each says that its key isn't held.
#[derive(Clone, Copy, Debug, PartialEq, Eq)]
pub enum Refused {
    /// As many values of its host are held as may be.
    Crowded,
    /// As many values are held as may be.
    Full,
    /// There was no memory.
    NoMemory,
}

/// The keys that were told of each host.
type Keys<K> = BTreeMap<Host, Vec<K>>;

/// The keys that were told of each host, and how many were told since these were made anew.
#[derive(Debug, Drop)]
struct Index<K: Ord> {
    alloc: Global,
    keys: Keys<K>,
    told: usize,
}

/// Whether a value of the key is held, and is the host's.
fn is_of_host<K: Ord + Copy + Drop, V: Aged + Hosted<K> + Drop>(
    held: &AgedMap<K, V>,
    key: &K,
    host: Host,
) -> bool
    ensures { result ≡ is_of K.cmp V.host held.now host key.now }
{
    match held.get(key) {
        Some(value) => value.host(key) == host,
        None => false,
    }
}

/// Forgets the keys of a host that aren't held any more, and says how many are left.
fn clean<K: Ord + Copy + Drop, V: Aged + Hosted<K> + Drop>(
    held: &AgedMap<K, V>,
    keys: &mut Vec<K>,
    host: Host,
) -> usize
    ensures kept { keys.new.items ≡ filter (is_of K.cmp V.host held.now host) keys.old.items }
    ensures count { result ≡ length (filter (is_of K.cmp V.host held.now host) keys.old.items) }
{
    keys.retain(|key| is_of_host(held, key, host));
    keys.len()
}

/// Forgets those keys, and says whether one is left.
fn keeps<K: Ord + Copy + Drop, V: Aged + Hosted<K> + Drop>(
    held: &AgedMap<K, V>,
    keys: &mut Vec<K>,
    host: Host,
) -> bool
    ensures kept { keys.new.items ≡ filter (is_of K.cmp V.host held.now host) keys.old.items }
    ensures some { result ≡ nat_lt 0 (length (filter (is_of K.cmp V.host held.now host) keys.old.items)) }
{
    clean(held, keys, host) > 0
}

/// Forgets all keys that aren't held any more, and the hosts that have no other.
fn make_anew<K: Ord + Copy + Drop, V: Aged + Hosted<K> + Drop>(
    held: &AgedMap<K, V>,
    index: &mut Keys<K>,
)
    ensures { (h : Host) → told_of index.new.entries h
        ≡ cleaned K.cmp V.host held.now index.old.entries h }
{
    index.retain(|host, keys| keeps(held, keys, *host));
}

/// Makes the index anew where as many keys were told since the last time as may be held.
fn bound<K: Ord + Copy + Drop, V: Aged + Hosted<K> + Drop>(
    held: &AgedMap<K, V>,
    index: &mut Index<K>,
    per_host: usize,
    most: usize,
)
    requires { IsTold K.cmp V.host per_host held.now index.old.keys.entries }
    ensures { IsTold K.cmp V.host per_host held.now index.new.keys.entries }
{
    if index.told < most {
        return;
    }
    index.told = 0;
    make_anew(held, &mut index.keys);
}

/// Adds a key to those of a host, of which those are forgotten that aren't held any more.
fn add_to<K: Ord + Copy + Drop, V: Aged + Hosted<K> + Drop>(
    held: &AgedMap<K, V>,
    keys: &mut Vec<K>,
    host: Host,
    key: K,
    per_host: usize,
    is_full: bool,
) -> Result<(), Refused>
    ensures ok { OnOk result (keys.new.items
        ≡ filter (is_of K.cmp V.host held.now host) keys.old.items ++ key ∷ []) }
    ensures err { OnErr result (keys.new.items
        ≡ filter (is_of K.cmp V.host held.now host) keys.old.items) }
    ensures crowded { (result ≡ Err Refused.Crowded)
        ↔ (per_host ≤ length (filter (is_of K.cmp V.host held.now host) keys.old.items)) }
    ensures full { (result ≡ Err Refused.Full)
        ↔ ((length (filter (is_of K.cmp V.host held.now host) keys.old.items) < per_host) × (is_full ≡ true)) }
{
    let count = clean(held, keys, host);
    if count >= per_host {
        return Err(Refused::Crowded);
    }
    if is_full {
        return Err(Refused::Full);
    }
    match keys.push(key) {
        Ok(()) => Ok(()),
        Err(_) => Err(Refused::NoMemory),
    }
}

/// Begins the keys of a host that has none.
fn begin<K: Ord + Copy + Drop>(
    index: &mut Keys<K>,
    alloc: Global,
    host: Host,
    key: K,
    is_full: bool,
) -> Result<(), Refused>
    ensures ok { OnOk result (Tells index.old.entries host (key ∷ []) index.new.entries) }
    ensures err { OnErr result (index.new.entries ≡ index.old.entries) }
    ensures crowded { ¬ (result ≡ Err Refused.Crowded) }
    ensures full { (result ≡ Err Refused.Full) ↔ (is_full ≡ true) }
{
    if is_full {
        return Err(Refused::Full);
    }
    let mut keys = Vec::new(alloc);
    match keys.push(key) {
        Ok(()) => {}
        Err(_) => return Err(Refused::NoMemory),
    }
    match index.insert(host, keys) {
        Ok(_) => Ok(()),
        Err(_) => Err(Refused::NoMemory),
    }
}

/// Tells the index of a key of the host, and forgets those of it that aren't held any more.
fn tell<K: Ord + Copy + Drop, V: Aged + Hosted<K> + Drop>(
    held: &AgedMap<K, V>,
    index: &mut Index<K>,
    host: Host,
    key: K,
    per_host: usize,
    is_full: bool,
) -> Result<(), Refused>
    requires { 0 < per_host }
    ensures ok { OnOk result (Tells index.old.keys.entries host
        (cleaned K.cmp V.host held.now index.old.keys.entries host ++ key ∷ []) index.new.keys.entries) }
    ensures err { OnErr result (Tells index.old.keys.entries host
        (cleaned K.cmp V.host held.now index.old.keys.entries host) index.new.keys.entries) }
    ensures crowded { (result ≡ Err Refused.Crowded)
        ↔ (per_host ≤ length (cleaned K.cmp V.host held.now index.old.keys.entries host)) }
    ensures full { (result ≡ Err Refused.Full)
        ↔ ((length (cleaned K.cmp V.host held.now index.old.keys.entries host) < per_host) × (is_full ≡ true)) }
{
    index.told = index.told.saturating_add(1);
    match index.keys.get_mut(&host) {
        Some(keys) => add_to(held, keys, host, key, per_host, is_full),
        None => begin(&mut index.keys, index.alloc, host, key, is_full),
    }
}

/// Whether a key may be put, whose value is this host's: one that is held may. The index is told of any other.
fn admit<K: Ord + Copy + Drop, V: Aged + Hosted<K> + Drop>(
    held: &AgedMap<K, V>,
    index: &mut Index<K>,
    host: Host,
    key: K,
    per_host: usize,
    most: usize,
) -> Result<(), Refused>
    requires { IsTold K.cmp V.host per_host held.now index.old.keys.entries }
    ensures told { IsTold K.cmp V.host per_host held.now index.new.keys.entries }
    ensures ok { OnOk result (IsAdmitted K.cmp V.host (limited per_host held.now) key host
        index.new.keys.entries) }
    ensures absent { OnErr result (¬ Holds K.cmp held.now key) }
    ensures crowded { (result ≡ Err Refused.Crowded)
        ↔ HasNoPlaceAt K.cmp V.host (limited per_host held.now) key host }
    ensures full { (result ≡ Err Refused.Full)
        ↔ HasNoPlaceAmong K.cmp V.host (limited per_host held.now) key host most }
{
    if per_host == 0 && held.len() < most {
        return Ok(());
    }
    if held.contains(&key) {
        return Ok(());
    }
    if per_host == 0 {
        return Err(Refused::Full);
    }
    tell(held, index, host, key, per_host, held.len() >= most)
}

/// Values under keys, in order of the keys, as an `AgedMap` holds them, of which at most `per_host` are one host's (0: no
/// limit). Where there is a limit it has an index by host. What was purged leaves the index when a value of its host is
/// put, or when the index was told of as many keys as may be held; so it has at most twice as many.
#[derive(Debug, Drop)]
pub struct HostedMap<K: Ord, V: Aged + Hosted<K>> {
    per_host: usize,
    held: AgedMap<K, V>,
    index: Index<K>,
}

impl<K: Ord, V: Aged + Hosted<K>> Model for HostedMap<K, V> {
    ghost use Rattle.aged_map.specs.PerHost.{IsTold, Limited, limited};

    ghost Value = { Limited K V };

    ghost view = { λ m. limited m.per_host m.held };

    ghost invariant = { λ m. IsTold K.cmp V.host m.per_host m.held m.index.keys.entries };
}

impl<K: Ord + Copy + Drop, V: Aged + Hosted<K> + Drop> HostedMap<K, V> {
    /// Nothing held. Takes no memory.
    pub fn new(alloc: Global, per_host: usize) -> HostedMap<K, V>
        ensures { result ≡ limited per_host [] }
    {
        HostedMap {
            per_host,
            held: AgedMap::new(alloc),
            index: Index {
                alloc,
                keys: BTreeMap::new(alloc),
                told: 0,
            },
        }
    }

    /// How many values are held.
    pub fn len(&self) -> usize
        ensures { result ≡ length self.now.held }
    {
        self.held.len()
    }

    /// The value of the key. Costs one search.
    pub fn get(&self, key: &K) -> Option<&V>
        ensures { option_copied result ≡ lookup (is_at (K.cmp key.now)) self.now.held }
    {
        self.held.get(key)
    }

    /// Whether there is a limit of one host.
    pub fn is_limited(&self) -> bool
        ensures { result ≡ nat_lt 0 self.now.per_host }
    {
        self.per_host > 0
    }

    /// What is held from one key to another, both among it, in order.
    pub fn range(&self, low: K, high: K) -> Range<'_, K, V>
        requires { is_gt (K.cmp low high) ≡ false }
        ensures { result ≡ entries_between K.cmp (Included low) (Included high) self.now.held }
    {
        self.held.range(low, high)
    }

    /// What is held from one key on, it among it, and below another, in order.
    pub fn range_below(&self, low: K, high: K) -> Range<'_, K, V>
        requires { is_gt (K.cmp low high) ≡ false }
        ensures { result ≡ entries_between K.cmp (Included low) (Excluded high) self.now.held }
    {
        self.held.range_below(low, high)
    }

    /// Whether it is sure that nothing that is held was renewed within the age before the moment. Costs one search by age.
    pub fn is_all_old(&self, age: u64, at: u64) -> bool
        ensures { IsTrue result → purged V.moment age at self.now.held ≡ [] }
    {
        self.held.is_all_old(age, at)
    }

    /// Puts the value under the key, or in the place of the one that is held there, which is the same host's, be it renewed
    /// earlier or later than that. A new one has a place where fewer of its host are held than may be, and fewer in all than
    /// `most`. A key that is held takes no memory. Refused, all is as before. Costs what `AgedMap::put` does; of a new value
    /// also two searches, and where there is a limit of one host a search for each value of its host.
    pub fn put(&mut self, key: K, value: V, most: usize) -> Result<Stored, Refused>
        requires { IfSome (lookup (is_at (K.cmp key)) self.old.held)
            (λ v. V.host key v ≡ V.host key value) }
        ensures stored { OnOk result (self.new
            ≡ holding self.old (insert_entry K.cmp self.old.held key value)) }
        ensures refused { OnErr result (self.new ≡ self.old) }
        ensures renewed { (result ≡ Ok Stored.Renewed) ↔ Holds K.cmp self.old.held key }
        ensures crowded { (result ≡ Err Refused.Crowded)
            ↔ HasNoPlaceAt K.cmp V.host self.old key (V.host key value) }
        ensures full { (result ≡ Err Refused.Full)
            ↔ HasNoPlaceAmong K.cmp V.host self.old key (V.host key value) most }
        ensures no_more { length self.old.held ≤ most → length self.new.held ≤ most }
        ensures sorted { IsStrictlySortedBy K.cmp (keys_of self.new.held) }
        ensures few { HasFewOfEach V.host self.new }
    {
        let host = value.host(&key);
        bound(&self.held, &mut self.index, self.per_host, most);
        match admit(&self.held, &mut self.index, host, key, self.per_host, most) {
            Ok(()) => {}
            Err(fault) => return Err(fault),
        }
        match self.held.put(key, value) {
            Ok(stored) => Ok(stored),
            Err(NoMemory) => Err(Refused::NoMemory),
        }
    }

    /// Drops what wasn't renewed within the age before the moment. Takes no memory. Costs a search for each value that it
    /// drops; and a pass over all that is held where the index by age has none since there was no memory.
    pub fn purge(&mut self, age: u64, at: u64)
        ensures kept { self.new ≡ holding self.old (purged V.moment age at self.old.held) }
        ensures length { length self.new.held ≤ length self.old.held }
        ensures sorted { IsStrictlySortedBy K.cmp (keys_of self.new.held) }
        ensures few { HasFewOfEach V.host self.new }
    {
        self.held.purge(age, at);
    }
}
