//! The items in order of their keys.
ghost use Rattle.std.specs.Prelude.{◌≡◌, ◌↔◌, ◌-◌, ◌<◌, ◌≤◌, ℕ, IsTrue, OnOk, OnErr, length};
ghost use Rattle.std.specs.List.Sorted.{IsStrictlySortedBy};
ghost use Rattle.std.specs.Map.{keys_of};
ghost use Rattle.kad_base.specs.Hosts.{host};
ghost use Rattle.aged_map.specs.PerHost.{HasFewOfEach};
ghost use Rattle.item_store.specs.Items.{Holds, IsCrowded, HasNoPlace, found, first_from, item_host, key_cmp, max_items, with_entry};

use aged_map::{Aged, Hosted, HostedMap, Refused, Stored};
use kad_base::{Addr, Bytes, Host, Id, host_of};

/// The most items that are kept.
const MAX_ITEMS: usize = 4_096;

/// How long an item is kept and handed out after its last add, in milliseconds: two hours.
pub(crate) const MAX_AGE: u64 = 7_200_000;

/// An item's written form, the moment of its last add, in milliseconds, and the host that put it first.
#[derive(Debug, Drop)]
pub struct Item {
    pub(crate) v: Bytes,
    pub(crate) last: u64,
    pub(crate) from: Host,
}

impl Aged for Item {
    ghost moment = { λ item. item.last };

    fn moment(&self) -> u64 {
        self.last
    }
}

/// An item is of the host that put it first, whatever its key.
impl Hosted<Id> for Item {
    ghost host = { λ key item. item.from };

    ghost alike = { λ a b item tie i. item.from };

    fn host(&self, key: &Id) -> Host {
        self.from
    }
}

/// The items in order of their keys.
pub(crate) type Held = HostedMap<Id, Item>;

/// Whether a last add is fresh at the moment.
pub(crate) fn is_fresh(last: u64, at: u64) -> bool
    ensures { IsTrue result ↔ (at - last < 7200000) }
{
    at.saturating_sub(last) < MAX_AGE
}

/// Who put the item of the key first: its host where one is held, and else whoever puts it now.
fn first_from(held: &Held, key: Id, from: Host) -> Host
    ensures { result ≡ first_from (found held.now key) from }
{
    match held.get(&key) {
        Some(item) => item.from,
        None => from,
    }
}

/// Puts the item under the key, or leaves all as it is.
pub(crate) fn put(
    held: &mut Held,
    key: Id,
    v: Bytes,
    from: Addr,
    at: u64,
) -> Result<Stored, Refused>
    ensures ok { OnOk result (held.new ≡ with_entry held.old key v (host from) at) }
    ensures err { OnErr result (held.new ≡ held.old) }
    ensures renewed { (result ≡ Ok Stored.Renewed) ↔ Holds held.old key }
    ensures crowded { (result ≡ Err Refused.Crowded) ↔ IsCrowded held.old key from }
    ensures full { (result ≡ Err Refused.Full) ↔ HasNoPlace held.old key from }
    ensures few { length held.old.held ≤ max_items → length held.new.held ≤ max_items }
    ensures sorted { IsStrictlySortedBy key_cmp (keys_of held.new.held) }
    ensures few_of_a_host { HasFewOfEach item_host held.new }
{
    let first = first_from(held, key, host_of(&from));
    let item = Item {
        v,
        last: at,
        from: first,
    };
    held.put(key, item, MAX_ITEMS)
}
