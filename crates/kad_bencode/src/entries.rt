//! Dictionaries with ascending keys.
ghost use Rattle.std.specs.Prelude.{◌≡◌, [], List, IfOk, OnOk, OnErr, option_copied, ◌≤◌, insert, vec_len};
ghost use Rattle.kad_bencode.specs.Keys.{IsAscending, IsPlace, put, value_of, without};

use kad_base::{Bytes, NoMemory};
use std::alloc::Global;
use std::cmp::Ordering;
use std::marker::Model;

/// A key with its value.
#[derive(Debug, Drop)]
pub struct Pair<V> {
    pub key: Bytes,
    pub value: V,
}

/// Pairs with strictly ascending keys, byte by byte; contracts see the list of them.
#[derive(Debug, Drop)]
pub struct Dictionary<V> {
    pairs: Vec<Pair<V>>,
}

impl<V> Model for Dictionary<V> {
    ghost use Rattle.std.specs.Prelude.{List, ℕ};
    ghost use Rattle.kad_bencode.specs.declared.entries.Pair.{Pair};
    ghost use Rattle.kad_bencode.specs.Keys.{IsAscending};

    ghost Value = { List (Pair V) };

    ghost view = { λ a. a.pairs.items };

    ghost invariant = { λ a. IsAscending a.pairs.items };
}

impl<V> Dictionary<V> {
    /// Empty. Takes no memory.
    pub fn new(alloc: Global) -> Self
        ensures { result ≡ [] }
    {
        Dictionary {
            pairs: Vec::new(alloc),
        }
    }
}

impl<V: Drop> Dictionary<V> {
    /// The pairs, by ascending keys.
    pub fn as_slice(&self) -> &[Pair<V>]
        ensures pairs { result.now ≡ self.now }
        ensures ascending { IsAscending self.now }
    {
        self.pairs.as_slice()
    }

    /// Puts a pair in its place, and replaces the value of a key that is there. An `Err` leaves the dictionary.
    pub fn set(&mut self, key: Bytes, value: V) -> Result<(), NoMemory>
        ensures ok { OnOk result (self.new ≡ put self.old key value) }
        ensures err { OnErr result (self.new ≡ self.old) }
    {
        match place_of(self.pairs.as_slice(), key.as_slice()) {
            Ok(at) => {
                self.pairs[at].value = value;
                Ok(())
            }
            Err(at) => insert_at(&mut self.pairs, at, Pair { key, value }),
        }
    }

    /// The value of a key.
    pub fn get(&self, key: &[u8]) -> Option<&V>
        ensures { option_copied result ≡ value_of self.now key.now }
    {
        match place_of(self.pairs.as_slice(), key) {
            Ok(at) => Some(&self.pairs[at].value),
            Err(_) => None,
        }
    }

    /// Takes the pair of a key out. Takes no memory.
    pub fn remove(&mut self, key: &[u8]) -> Option<V>
        ensures value { result ≡ value_of self.old key.now }
        ensures rest { self.new ≡ without self.old key.now }
    {
        match place_of(self.pairs.as_slice(), key) {
            Ok(at) => {
                let Pair { key: _, value } = self.pairs.remove(at);
                Some(value)
            }
            Err(_) => None,
        }
    }
}

/// Puts an item at a place, or leaves the items.
fn insert_at<T: Drop>(items: &mut Vec<T>, at: usize, item: T) -> Result<(), NoMemory>
    requires { at ≤ vec_len items.old }
    ensures ok { OnOk result (items.new.items ≡ insert items.old.items at item) }
    ensures err { OnErr result (items.new.items ≡ items.old.items) }
{
    Ok(items.insert(at, item)?)
}

/// Where a key is among ascending ones, or where it belongs: from the end, where a key of a sorted input goes.
fn place_of<V>(pairs: &[Pair<V>], key: &[u8]) -> Result<usize, usize>
    requires { IsAscending pairs.now }
    ensures { IsPlace pairs.now key.now result }
{
    let mut at = pairs.len();
    while at > 0 {
        match key.cmp(pairs[at - 1].key.as_slice()) {
            Ordering::Greater => return Err(at),
            Ordering::Equal => return Ok(at - 1),
            Ordering::Less => at -= 1,
        }
    }
    Err(0)
}
