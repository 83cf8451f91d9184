//! All buckets, as a tree by the bits of their prefixes.
ghost use Rattle.std.specs.Prelude.{◌≡◌, ◌<◌, ◌≤◌, ◌++◌, ◌∷◌, [], IfOk, OnErr, Err};
ghost use Rattle.std.specs.List.{flat_map, list_any};
ghost use Rattle.kad_base.specs.Contacts.{among};
ghost use Rattle.kad_distance.specs.KClosest.{k_closest};
ghost use Rattle.bucket_tree.specs.Rows.{BucketsState, Sound, live_of, prefixes_of, same_id};
ghost use Rattle.bucket_tree.specs.States.{kept_in, states_of};
ghost use Rattle.bucket_tree.specs.BucketSteps.{SeenStep, FailedStep};
ghost use Rattle.bucket_tree.specs.Trees.{IsWhole};

use crate::bucket::Bucket;
use crate::entries::is_same_id;
use crate::failing::fail_in;
use crate::finding::row_of;
use crate::nearest;
use crate::node::{Node, leaf, list_live, list_prefixes, list_rows};
use crate::prefix::Prefixes;
use crate::rebuilt::whole_tree;
use crate::rows::{Rows, TableFault};
use crate::sound::is_within;
use crate::taking::see;
use crate::types::{Gone, Seen, Setting};
use kad_base::{Contact, Contacts, Id, List, NoMemory};
use std::alloc::Global;
use std::marker::Model;

/// The buckets of one node, seen as its identifier, k, b and the rows. Their prefixes are a partition of all identifiers,
/// in ascending order; each contact stands in the row of its identifier, no identifier twice. A call takes the time of its
/// row's depth, whatever the number of rows.
#[derive(Drop)]
pub struct Buckets {
    setting: Setting,
    alloc: Global,
    root: Node,
}

impl Model for Buckets {
    ghost use Rattle.bucket_tree.specs.Rows.{BucketsState};

    ghost Value = { BucketsState };

    ghost use Rattle.bucket_tree.specs.Trees.{rows_of, IsTree};

    ghost view = { λ t. record { own = t.setting.own; k = t.setting.k; b = t.setting.b; rows = rows_of t.root } };

    ghost invariant = { λ t. IsTree t.setting.own t.setting.k t.setting.b t.root };
}

/// Its identifier has twenty bytes. It does nothing, and is called where a proof needs that.
fn is_whole(contact: &Contact)
    ensures { IsWhole contact.now.id }
{
    let _first = contact.id.0[0];
}

impl Buckets {
    /// One empty bucket for all identifiers. `own` is the node's identifier, `k` how many contacts a bucket holds, and a
    /// bucket without `own` splits only up to a whole number of `b` bits (Kademlia, sections 2.4 and 4.2).
    pub fn new(alloc: Global, own: Id, k: u8, b: u8) -> Result<Buckets, NoMemory>
        requires some_live { 0 < k }
        requires few_live { k ≤ 20 }
        requires some_bits { 0 < b }
        requires few_bits { b ≤ 5 }
        ensures { IfOk result (λ buckets. buckets
            ≡ record {
              own = own;
              k = k;
              b = b;
              rows = record { prefix = []; live = []; spares = [] } ∷ [];
            }) }
    {
        let row = Bucket::whole(alloc, k)?;
        let root = leaf(alloc, row)?;
        Ok(Buckets {
            setting: Setting { own, k, b },
            alloc,
            root,
        })
    }

    /// The law of the buckets: they are sound, whatever the calls were. It does nothing, and is called where a proof
    /// needs the law.
    pub fn sound(&self)
        ensures { Sound self.now }
    {
        let _ = &self.root;
    }

    /// Tells the buckets that a contact was seen. Where its bucket is full it splits, as often as it may and must; a
    /// bucket that may not split keeps the contact as a spare (Kademlia, sections 2.2, 2.4 and 4.1). It takes the memory
    /// for all splits before the first.
    pub fn seen(&mut self, contact: Contact) -> Result<Seen, NoMemory>
        ensures ok { IfOk result (λ seen. SeenStep self.old.own self.old.k self.old.b contact
            self.old.rows seen self.new.rows) }
        ensures own { self.new.own ≡ self.old.own }
        ensures k { self.new.k ≡ self.old.k }
        ensures b { self.new.b ≡ self.old.b }
        ensures err { OnErr result (self.new ≡ self.old) }
    {
        if is_same_id(&contact.id, &self.setting.own) {
            return Ok(Seen::Own);
        }
        is_whole(&contact);
        see(&mut self.root, self.alloc, &self.setting, &contact, 0)
    }

    /// Tells the buckets that a contact didn't answer. The second failure since it was last seen removes it, and the
    /// newest spare of its bucket takes its place (Kademlia, section 4.1). Takes no memory.
    pub fn failed(&mut self, contact: &Contact) -> Gone
        ensures step { FailedStep contact.now self.old.rows result self.new.rows }
        ensures own { self.new.own ≡ self.old.own }
        ensures k { self.new.k ≡ self.old.k }
        ensures b { self.new.b ≡ self.old.b }
    {
        fail_in(&mut self.root, contact, 0)
    }

    /// Whether the contact is live or a spare. Looks at its row alone.
    pub fn keeps(&self, contact: &Contact) -> bool
        ensures { result ≡ among (flat_map kept_in self.now.rows) contact.now }
    {
        row_of(&self.root, &contact.id, 0).keeps(contact)
    }

    /// Whether a live contact has the identifier, at whatever address. Looks at its row alone.
    pub fn knows_id(&self, id: &Id) -> bool
        ensures { result ≡ list_any (λ c. same_id c.id id.now) (live_of self.now.rows) }
    {
        row_of(&self.root, id, 0).knows_id(id)
    }

    /// The n live contacts that are closest to the target, of all buckets, nearest first. Takes memory for n contacts.
    pub fn closest(&self, target: &Id, n: u8) -> Result<Contacts, NoMemory>
        ensures { IfOk result (λ found. found ≡ k_closest target.now n (live_of self.now.rows)) }
    {
        nearest::closest(&self.root, self.alloc, target, n, &[])
    }

    /// The n contacts that are closest to the target, of all live ones and the others, each once, nearest first. Takes
    /// memory for n contacts.
    pub fn closest_with(&self, target: &Id, n: u8, others: &[Contact]) -> Result<Contacts, NoMemory>
        ensures { IfOk result (λ found. found ≡ k_closest target.now n
            (live_of self.now.rows ++ others.now)) }
    {
        nearest::closest(&self.root, self.alloc, target, n, others)
    }

    /// All live contacts, bucket by bucket, the least recently seen of each first.
    pub fn live(&self) -> Result<Contacts, NoMemory>
        ensures { IfOk result (λ live. live ≡ live_of self.now.rows) }
    {
        let mut live = List::new(self.alloc);
        list_live(&self.root, &mut live, 0)?;
        Ok(live)
    }

    /// The prefixes of the buckets, in ascending order of their bits.
    pub fn prefixes(&self) -> Result<Prefixes, NoMemory>
        ensures { IfOk result (λ prefixes. prefixes ≡ prefixes_of self.now.rows) }
    {
        let mut prefixes = List::new(self.alloc);
        list_prefixes(&self.root, &mut prefixes, 0)?;
        Ok(prefixes)
    }

    /// The rows, in memory of their own: all that the buckets hold.
    pub fn rows(&self) -> Result<Rows, NoMemory>
        ensures { IfOk result (λ rows. states_of rows ≡ self.now.rows) }
    {
        let mut rows = List::new(self.alloc);
        list_rows(&self.root, self.alloc, &mut rows, 0)?;
        Ok(rows)
    }

    /// The buckets that have these rows. Unsound where k or b is outside its limits, the prefixes don't ascend or are no
    /// partition, or a row isn't one that a bucket can be: then no calls lead to them. It reads each row once.
    pub fn of_rows(alloc: Global, own: Id, k: u8, b: u8, rows: &Rows) -> Result<Buckets, TableFault>
        ensures rows { IfOk result (λ buckets. buckets
            ≡ record { own = own; k = k; b = b; rows = states_of rows.now }) }
        ensures sound { IfOk result (λ buckets. Sound buckets) }
        ensures unsound { result ≡ Err TableFault.Unsound
            → ¬ Sound (record { own = own; k = k; b = b; rows = states_of rows.now }) }
    {
        let setting = Setting { own, k, b };
        if !is_within(&setting) {
            return Err(TableFault::Unsound);
        }
        let root = whole_tree(alloc, &setting, rows.as_slice())?;
        let buckets = Buckets {
            setting,
            alloc,
            root,
        };
        buckets.sound();
        Ok(buckets)
    }

    /// The node's own identifier.
    pub fn own(&self) -> Id
        ensures { result ≡ self.now.own }
    {
        self.setting.own
    }

    /// How many contacts a bucket holds.
    pub fn k(&self) -> u8
        ensures { result ≡ self.now.k }
    {
        self.setting.k
    }

    /// By how many bits a bucket splits that hasn't the own identifier.
    pub fn b(&self) -> u8
        ensures { result ≡ self.now.b }
    {
        self.setting.b
    }
}
