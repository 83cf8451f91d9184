//! The nodes of a network that follows from a seed: who each is, where it stands, and whom it knows.
ghost use Rattle.std.specs.Prelude.{◌≡◌, ◌≢◌, ◌+◌, ◌*◌, ◌/◌, ◌<◌, ◌≤◌, ◌^◌, ℕ, length, vec_len, IfOk, IfSome, IsNone, IsTrue};
ghost use Rattle.kad_base.specs.Words.{drawn_bytes};
ghost use Rattle.kad_distance.specs.KClosest.{k_closest};
ghost use Rattle.fake_net.specs.Network.{own_of, target_of, id_of, address_of, number_at, node, is_hostile, honest, shared, knows, known};
ghost use Rattle.fake_net.specs.Counting.{CountsBelow};

use id_puzzles::Words;
use kad_base::{Addr, Contact, Contacts, Id, Ip, List, NoMemory};
use kad_distance::{put_closest, shared_bits};
use std::alloc::Global;
use std::marker::Model;

/// The places of the first drawn words of the own identifier, of the target and of the first node.
const OWN: u64 = 0;

const TARGET: u64 = 1_000_000;

const FIRST_NODE: u64 = 1_000_005;

/// The port of every node: the first of those that BitTorrent's clients take.
const PORT: u16 = 6881;

/// How many nodes of a bucket a node knows, and how many an answer names (Kademlia's k, 2002, section 2.2).
const BUCKET: u8 = 8;

/// How many buckets there are: nodes may share 0 to 160 leading bits.
const BUCKETS: usize = 161;

/// Who there is: each node by its number, which is below 20,000. The first `hostile` of every hundred are hostile.
#[derive(Drop)]
pub(crate) struct Nodes {
    seed: [u8; 32],
    hostile: u8,
    ids: Vec<Id>,
}

impl Model for Nodes {
    ghost use Rattle.std.specs.Prelude.{◌≡◌, ◌≤◌, map, vec_len};
    ghost use Rattle.fake_net.specs.Network.{Network, id_of, numbers};

    ghost Value = { Network };

    ghost view = { λ n. record { seed = n.seed; count = vec_len n.ids; hostile = n.hostile } };

    ghost invariant = { λ n. (n.ids.items ≡ map (id_of n.seed) (numbers (vec_len n.ids))) × (vec_len n.ids ≤ 20000) };
}

/// The bytes of five drawn words.
fn drawn_id(seed: &[u8; 32], place: u64) -> Id
    requires { place < 2 ^ 59 }
    ensures { result ≡ record { 0 = drawn_bytes seed.now place 5 } }
{
    let mut bytes = [0u8; 20];
    Words::new(seed, place).fill(&mut bytes);
    Id(bytes)
}

/// Where node `i` stands.
pub(crate) fn address_of(i: u32) -> Addr
    ensures { result ≡ address_of i }
{
    let x = (i / 65_536 % 256) as u8;
    let y = (i / 256 % 256) as u8;
    let z = (i % 256) as u8;
    Addr {
        ip: Ip::V4([10, x, y, z]),
        port: PORT,
    }
}

/// The number that the last three bytes of an address spell.
fn number_at(ip: &Ip) -> u32
    ensures { result ≡ number_at ip.now }
{
    match ip {
        Ip::V4(bytes) => {
            u32::from(bytes[1]) * 65_536 + u32::from(bytes[2]) * 256 + u32::from(bytes[3])
        }
        Ip::V6(_) => 0,
    }
}

impl Nodes {
    pub(crate) fn new(
        alloc: Global,
        seed: &[u8; 32],
        count: u32,
        hostile: u8,
    ) -> Result<Nodes, NoMemory>
        requires { count ≤ 20000 }
        ensures { IfOk result (λ nodes. nodes
            ≡ record { seed = seed.now; count = count; hostile = hostile }) }
    {
        let mut ids = Vec::with_capacity(alloc, count as usize)?;
        for i in 0..count {
            let id = drawn_id(seed, FIRST_NODE + 5 * u64::from(i));
            ids.push(id)?;
        }
        Ok(Nodes {
            seed: *seed,
            hostile,
            ids,
        })
    }

    /// Who looks up in the network.
    pub(crate) fn own(&self) -> Id
        ensures { result ≡ own_of self.now.seed }
    {
        drawn_id(&self.seed, OWN)
    }

    /// What is looked up in it.
    pub(crate) fn target(&self) -> Id
        ensures { result ≡ target_of self.now.seed }
    {
        drawn_id(&self.seed, TARGET)
    }

    pub(crate) fn count(&self) -> u32
        ensures count { result ≡ self.now.count }
        ensures few { result ≤ 20000 }
    {
        self.ids.len() as u32
    }

    pub(crate) fn id(&self, i: u32) -> Id
        requires { i < self.now.count }
        ensures { result ≡ id_of self.now.seed i }
    {
        self.ids[i as usize]
    }

    pub(crate) fn contact(&self, i: u32) -> Contact
        requires { i < self.now.count }
        ensures { result ≡ node self.now.seed i }
    {
        Contact {
            id: self.id(i),
            addr: address_of(i),
        }
    }

    pub(crate) fn is_hostile(&self, i: u32) -> bool
        ensures { result ≡ is_hostile self.now.hostile i }
    {
        i % 100 < u32::from(self.hostile)
    }

    /// The number of the node that stands at the address, if one does.
    pub(crate) fn number_at(&self, to: &Addr) -> Option<u32>
        ensures some { IfSome result (λ i. (i < self.now.count) × (to.now ≡ address_of i)) }
        ensures few { self.now.count ≤ 20000 }
        ensures none { IsNone result → (i : ℕ) → i < self.now.count → to.now ≢ address_of i }
    {
        let i = number_at(&to.ip);
        if i < self.count() && address_of(i) == *to {
            return Some(i);
        }
        None
    }

    /// How many leading bits two nodes share.
    fn shared(&self, i: u32, j: u32) -> u8
        requires i { i < self.now.count }
        requires j { j < self.now.count }
        ensures within { result ≤ 160 }
        ensures shared { result ≡ shared (id_of self.now.seed i) (id_of self.now.seed j) }
    {
        shared_bits(&self.id(i), &self.id(j))
    }

    /// Whether node `i` knows node `j`, by how many nodes below `j` are of each of its buckets. Those below `j` and `j`
    /// are counted then.
    fn knows(&self, i: u32, j: u32, counts: &mut [u8; 161]) -> bool
        requires i { i < self.now.count }
        requires j { j < self.now.count }
        requires counts { CountsBelow self.now.seed i j counts.old }
        ensures knows { result ≡ knows self.now.seed i j }
        ensures counts { CountsBelow self.now.seed i (j + 1) counts.new }
    {
        if i == j {
            return false;
        }
        let bits = self.shared(i, j) as usize;
        if counts[bits] >= BUCKET {
            return false;
        }
        counts[bits] += 1;
        true
    }

    /// The 8 closest to the target of the nodes that node `i` knows.
    pub(crate) fn closest_known(
        &self,
        alloc: Global,
        i: u32,
        target: &Id,
    ) -> Result<Contacts, NoMemory>
        requires { i < self.now.count }
        ensures { IfOk result (λ found. found ≡ k_closest target.now 8 (known self.now i)) }
    {
        let mut found = Vec::with_capacity(alloc, BUCKET as usize)?;
        let mut counts = [0; BUCKETS];
        for j in 0..self.count() {
            if self.knows(i, j, &mut counts) {
                put_closest(&mut found, target, BUCKET as usize, &self.contact(j));
            }
        }
        Ok(List::from_vec(found))
    }

    /// The k closest to the target of all nodes that aren't hostile.
    pub(crate) fn closest_honest(
        &self,
        alloc: Global,
        target: &Id,
        k: u8,
    ) -> Result<Contacts, NoMemory>
        ensures { IfOk result (λ found. found ≡ k_closest target.now k (honest self.now)) }
    {
        let mut found = Vec::with_capacity(alloc, k as usize)?;
        for i in 0..self.count() {
            if !self.is_hostile(i) {
                put_closest(&mut found, target, k as usize, &self.contact(i));
            }
        }
        Ok(List::from_vec(found))
    }
}
