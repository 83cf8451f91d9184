//! The map, and its index by age.
ghost use Rattle.std.specs.Prelude.{◌≡◌, ◌↔◌, ◌-◌, ◌<◌, ◌≤◌, ◌+◌, [], false, None, IsTrue, OnOk, OnErr, MatchOption, length, option_copied};
ghost use Rattle.std.specs.Option.{IsSomeAnd};
ghost use Rattle.std.specs.List.Sorted.{IsStrictlySortedBy};
ghost use Rattle.std.specs.Map.{keys_of, lookup};
ghost use Rattle.std.specs.BTreeMap.{insert_entry, is_at};
ghost use Rattle.std.specs.BTreeMap.Range.{entries_between};
ghost use Rattle.std.specs.Ordering.{is_gt};
ghost use Rattle.std.specs.declared.ops.Bound.TheVariants.{Included, Excluded};
ghost use Rattle.aged_map.specs.Ages.{Holds, purged};
ghost use Rattle.aged_map.specs.Marks.{AreMarked};

use crate::aged::{Aged, Stored};
use kad_base::NoMemory;
use std::alloc::Global;
use std::collections::btree_map::Range;
use std::collections::{BTreeMap, BTreeSet};
use std::marker::Model;

/// Values under keys, in order of the keys, and an index of them by age: for each key the moment when its value was last
/// renewed. Moments are in milliseconds, and may fall from call to call.
#[derive(Debug, Drop)]
pub struct AgedMap<K: Ord, V: Aged> {
    held: BTreeMap<K, V>,
    /// The moment of each value, with its key.
    ages: BTreeSet<(u64, K)>,
    /// Whether the index has all values. It hasn't from where there was no memory to renew one, until nothing is held.
    whole: bool,
}

impl<K: Ord, V: Aged> Model for AgedMap<K, V> {
    ghost use Rattle.std.specs.Prelude.{List};
    ghost use Rattle.aged_map.specs.Marks.{IsIndexed};

    ghost Value = { List (K × V) };

    ghost view = { λ m. m.held.entries };

    ghost invariant = { λ m. IsIndexed K.cmp V.moment m.held.entries m.ages.keys m.whole };
}

/// Whether a moment is less than an age before another.
fn is_young(moment: u64, age: u64, at: u64) -> bool
    ensures { IsTrue result ↔ (at - moment < age) }
{
    at.saturating_sub(moment) < age
}

impl<K: Ord + Copy + Drop, V: Aged + Drop> AgedMap<K, V> {
    /// Nothing held. Takes no memory.
    pub fn new(alloc: Global) -> AgedMap<K, V>
        ensures { result ≡ [] }
    {
        AgedMap {
            held: BTreeMap::new(alloc),
            ages: BTreeSet::new(alloc),
            whole: true,
        }
    }

    /// How many values are held.
    pub fn len(&self) -> usize
        ensures { result ≡ length self.now }
    {
        self.held.len()
    }

    /// The value of the key. Costs one search.
    pub fn get(&self, key: &K) -> Option<&V>
        ensures { option_copied result ≡ lookup (is_at (K.cmp key.now)) self.now }
    {
        self.held.get(key)
    }

    /// Whether a value of the key is held. Costs one search.
    pub fn contains(&self, key: &K) -> bool
        ensures { IsTrue result ↔ Holds K.cmp self.now key.now }
    {
        self.held.contains_key(key)
    }

    /// Puts the value under the key, or in the place of the one that is held there, be it renewed earlier or later than
    /// that. A key that is held takes no memory. Without memory all is as before. Costs two searches by key and two by age.
    pub fn put(&mut self, key: K, value: V) -> Result<Stored, NoMemory>
        ensures stored { OnOk result (self.new ≡ insert_entry K.cmp self.old key value) }
        ensures err { OnErr result (self.new ≡ self.old) }
        ensures renewed { (result ≡ Ok Stored.Renewed) ↔ Holds K.cmp self.old key }
        ensures length { length self.new ≤ length self.old + 1 }
        ensures same_length { result ≡ Ok Stored.Renewed → length self.new ≡ length self.old }
        ensures sorted { IsStrictlySortedBy K.cmp (keys_of self.new) }
    {
        match self.last_of(&key) {
            Some(last) => {
                self.renew(key, value, last);
                Ok(Stored::Renewed)
            }
            None => match self.add(key, value) {
                Ok(()) => Ok(Stored::New),
                Err(NoMemory) => Err(NoMemory),
            },
        }
    }

    /// What is held from one key to another, both among it, in order.
    pub fn range(&self, low: K, high: K) -> Range<'_, K, V>
        requires { is_gt (K.cmp low high) ≡ false }
        ensures { result ≡ entries_between K.cmp (Included low) (Included high) self.now }
    {
        self.held.range(low..=high)
    }

    /// What is held from one key on, it among it, and below another, in order.
    pub fn range_below(&self, low: K, high: K) -> Range<'_, K, V>
        requires { is_gt (K.cmp low high) ≡ false }
        ensures { result ≡ entries_between K.cmp (Included low) (Excluded high) self.now }
    {
        self.held.range(low..high)
    }

    /// Whether it is sure that nothing that is held was renewed within the age before the moment. Costs one search by age.
    pub fn is_all_old(&self, age: u64, at: u64) -> bool
        ensures { IsTrue result → purged V.moment age at self.now ≡ [] }
    {
        if !self.whole {
            return false;
        }
        match self.ages.last() {
            None => false,
            Some(mark) => !is_young(mark.0, age, at),
        }
    }

    /// When the value of the key was last renewed.
    fn last_of(&self, key: &K) -> Option<u64>
        ensures { MatchOption result (lookup (is_at (K.cmp key.now)) self.now ≡ None)
            (λ last. IsSomeAnd (lookup (is_at (K.cmp key.now)) self.now) (λ v. V.moment v ≡ last)) }
    {
        match self.held.get(key) {
            Some(value) => Some(value.moment()),
            None => None,
        }
    }

    /// Puts a value under a key that isn't held.
    fn add(&mut self, key: K, value: V) -> Result<(), NoMemory>
        requires { lookup (is_at (K.cmp key)) self.old ≡ None }
        ensures ok { OnOk result (self.new ≡ insert_entry K.cmp self.old key value) }
        ensures err { OnErr result (self.new ≡ self.old) }
        ensures length { OnOk result (length self.new ≡ length self.old + 1) }
        ensures sorted { IsStrictlySortedBy K.cmp (keys_of self.new) }
    {
        if !self.whole {
            return match self.held.insert(key, value) {
                Ok(_) => Ok(()),
                Err(_) => Err(NoMemory),
            };
        }
        let moment = value.moment();
        match self.ages.insert((moment, key)) {
            Ok(_) => {}
            Err(_) => return Err(NoMemory),
        }
        match self.held.insert(key, value) {
            Ok(_) => Ok(()),
            Err(_) => {
                self.ages.remove(&(moment, key));
                Err(NoMemory)
            }
        }
    }

    /// Puts a value in the place of the one of the key, which was last renewed at this moment. Where the index has no memory
    /// for it there is none from now on.
    fn renew(&mut self, key: K, value: V, last: u64)
        requires { IsSomeAnd (lookup (is_at (K.cmp key)) self.old) (λ v. V.moment v ≡ last) }
        ensures put { self.new ≡ insert_entry K.cmp self.old key value }
        ensures length { length self.new ≡ length self.old }
        ensures sorted { IsStrictlySortedBy K.cmp (keys_of self.new) }
    {
        let moment = value.moment();
        match self.held.insert(key, value) {
            Ok(_) => {}
            Err(_) => unreachable!(),
        }
        if moment == last {
            return;
        }
        if !self.whole {
            return;
        }
        match self.ages.insert((moment, key)) {
            Ok(_) => {
                self.ages.remove(&(last, key));
            }
            Err(_) => self.whole = false,
        }
    }

    /// Drops what wasn't renewed within the age before the moment. Takes no memory. Costs a search for each value that it
    /// drops; and a pass over all that is held where the index has none since there was no memory.
    pub fn purge(&mut self, age: u64, at: u64)
        ensures kept { self.new ≡ purged V.moment age at self.old }
        ensures length { length self.new ≤ length self.old }
        ensures sorted { IsStrictlySortedBy K.cmp (keys_of self.new) }
    {
        if self.whole {
            drop_old(&mut self.held, &mut self.ages, age, at);
            return;
        }
        drop_all_old(&mut self.held, age, at);
        if self.held.is_empty() {
            self.ages.clear();
            self.whole = true;
        }
    }
}

/// Drops the value that was last renewed, if it is old. Says whether it was.
fn drop_first<K: Ord + Copy + Drop, V: Aged + Drop>(
    held: &mut BTreeMap<K, V>,
    ages: &mut BTreeSet<(u64, K)>,
    age: u64,
    at: u64,
) -> bool
    requires sorted { IsStrictlySortedBy K.cmp (keys_of held.old.entries) }
    requires marked { AreMarked K.cmp V.moment held.old.entries ages.old.keys }
    ensures kept { purged V.moment age at held.new.entries ≡ purged V.moment age at held.old.entries }
    ensures marked { AreMarked K.cmp V.moment held.new.entries ages.new.keys }
    ensures sorted { IsStrictlySortedBy K.cmp (keys_of held.new.entries) }
    ensures length { length held.new.entries ≤ length held.old.entries }
    ensures fewer { IsTrue result → length ages.new.keys < length ages.old.keys }
    ensures all { result ≡ false → purged V.moment age at held.new.entries ≡ held.new.entries }
{
    match ages.first() {
        None => return false,
        Some(mark) => {
            if is_young(mark.0, age, at) {
                return false;
            }
        }
    }
    match ages.pop_first() {
        None => false,
        Some(mark) => {
            held.remove(&mark.1);
            true
        }
    }
}

/// Drops what is old, the oldest first.
fn drop_old<K: Ord + Copy + Drop, V: Aged + Drop>(
    held: &mut BTreeMap<K, V>,
    ages: &mut BTreeSet<(u64, K)>,
    age: u64,
    at: u64,
)
    requires sorted { IsStrictlySortedBy K.cmp (keys_of held.old.entries) }
    requires marked { AreMarked K.cmp V.moment held.old.entries ages.old.keys }
    ensures kept { held.new.entries ≡ purged V.moment age at held.old.entries }
    ensures marked { AreMarked K.cmp V.moment held.new.entries ages.new.keys }
    ensures sorted { IsStrictlySortedBy K.cmp (keys_of held.new.entries) }
    ensures length { length held.new.entries ≤ length held.old.entries }
{
    while drop_first(held, ages, age, at) {}
}

/// Drops what is old, over all that is held.
fn drop_all_old<K: Ord + Copy + Drop, V: Aged + Drop>(held: &mut BTreeMap<K, V>, age: u64, at: u64)
    ensures kept { held.new.entries ≡ purged V.moment age at held.old.entries }
    ensures sorted { IsStrictlySortedBy K.cmp (keys_of held.new.entries) }
    ensures length { length held.new.entries ≤ length held.old.entries }
{
    held.retain(|_, value| is_young(value.moment(), age, at));
}
