//! A network: its nodes, whom each knows, and who is hostile.
use crate::draws::Draws;
use kad_base::{Addr, Contact, Id, Ip};
use std::alloc::{AllocError, Global};

/// How many nodes of each of its buckets a node knows, or all if there are fewer.
const KNOWN_OF_BUCKET: usize = 8;

/// The shortest time that a node takes to answer, in milliseconds, and by how many that of two nodes may differ.
const LEAST_DELAY: u64 = 20;

const DELAYS: usize = 180;

/// A node. It answers `delay` milliseconds after it was asked.
#[derive(Debug, Drop)]
pub struct Node {
    pub number: u32,
    pub contact: Contact,
    pub delay: u64,
    pub hostile: bool,
    pub known: Vec<Contact>,
}

/// Nodes in order of their identifiers, and the contacts of both kinds of them.
#[derive(Debug, Drop)]
pub struct Network {
    nodes: Vec<Node>,
    pub honest: Vec<Contact>,
    pub hostile: Vec<Contact>,
}

/// The address of node `number`: 10.x.y.z, with its three low bytes.
fn address(number: u32) -> Addr {
    let [_, x, y, z] = number.to_be_bytes();
    Addr {
        ip: Ip::V4([10, x, y, z]),
        port: 6881,
    }
}

/// The number of the node that has this address, if one has.
fn number_at(ip: Ip) -> Option<u32> {
    match ip {
        Ip::V4(bytes) if bytes[0] == 10 => {
            Some(u32::from_be_bytes([0, bytes[1], bytes[2], bytes[3]]))
        }
        _ => None,
    }
}

/// Whether a bit of an identifier is 1; bit 0 is the highest.
fn has_bit(id: &Id, bit: usize) -> bool {
    match id.0.get(bit / 8) {
        Some(byte) => (*byte >> (7 - bit % 8)) & 1 == 1,
        None => false,
    }
}

/// Drawn identifiers in ascending order, as contacts of nodes 0, 1, ..
fn drawn_contacts(
    alloc: Global,
    draws: &mut Draws,
    nodes: u32,
) -> Result<Vec<Contact>, AllocError> {
    let mut ids = Vec::new(alloc);
    for _ in 0..nodes {
        ids.push(draws.id())?;
    }
    ids.sort()?;
    let mut contacts = Vec::new(alloc);
    for (number, id) in (0..nodes).zip(ids) {
        let addr = address(number);
        contacts.push(Contact { id, addr })?;
    }
    Ok(contacts)
}

/// For each of so many nodes whether it is hostile: `share` in a hundred, which are drawn by a shuffle.
fn drawn_hostile(
    alloc: Global,
    draws: &mut Draws,
    nodes: u32,
    share: u32,
) -> Result<Vec<bool>, AllocError> {
    let count = u64::from(nodes) * u64::from(share) / 100;
    let mut hostile = Vec::new(alloc);
    for number in 0..nodes {
        hostile.push(u64::from(number) < count)?;
    }
    for at in 0..hostile.len() {
        let from = at + draws.below(hostile.len() - at);
        hostile.swap(at, from);
    }
    Ok(hostile)
}

/// Draws whom a node knows of the others, which stand in order: some of each of its buckets, and a bucket has those
/// that share exactly so many leading bits with it (Kademlia, 2002, section 2.4).
fn drawn_known(
    alloc: Global,
    draws: &mut Draws,
    contacts: &[Contact],
    own: &Id,
) -> Result<Vec<Contact>, AllocError> {
    let mut known = Vec::new(alloc);
    let mut near = contacts;
    for bit in 0..160 {
        if near.len() <= 1 {
            break;
        }
        let (zeros, ones) = near.split_at(near.partition_point(|c| !has_bit(&c.id, bit)));
        let (same, bucket) = if has_bit(own, bit) {
            (ones, zeros)
        } else {
            (zeros, ones)
        };
        for place in draws.some_below(alloc, bucket.len(), KNOWN_OF_BUCKET)? {
            if let Some(contact) = bucket.get(place) {
                known.push(*contact)?;
            }
        }
        near = same;
    }
    Ok(known)
}

impl Network {
    /// A network of so many nodes, `share` in a hundred of them hostile. With one seed it is the same network whatever
    /// the share is, and who is hostile at one share is so at each greater one.
    pub fn new(
        alloc: Global,
        draws: &mut Draws,
        count: u32,
        share: u32,
    ) -> Result<Network, AllocError> {
        let contacts = drawn_contacts(alloc, draws, count)?;
        let mut delays = Vec::new(alloc);
        for _ in 0..count {
            delays.push(LEAST_DELAY + draws.below(DELAYS) as u64)?;
        }
        let flags = drawn_hostile(alloc, draws, count, share)?;
        let mut network = Network {
            nodes: Vec::new(alloc),
            honest: Vec::new(alloc),
            hostile: Vec::new(alloc),
        };
        let drawn = contacts.iter().zip(delays).zip(flags);
        for (number, ((contact, delay), hostile)) in (0..count).zip(drawn) {
            let known = drawn_known(alloc, draws, contacts.as_slice(), &contact.id)?;
            let node = Node {
                number,
                contact: *contact,
                delay,
                hostile,
                known,
            };
            network.add(node)?;
        }
        Ok(network)
    }

    fn add(&mut self, node: Node) -> Result<(), AllocError> {
        if node.hostile {
            self.hostile.push(node.contact)?;
        } else {
            self.honest.push(node.contact)?;
        }
        self.nodes.push(node)?;
        Ok(())
    }

    /// How many nodes there are.
    pub fn len(&self) -> usize {
        self.nodes.len()
    }

    /// The node of that number.
    pub fn node(&self, number: usize) -> Option<&Node> {
        self.nodes.get(number)
    }

    /// The node at an address.
    pub fn node_at(&self, addr: Addr) -> Option<&Node> {
        self.node(number_at(addr.ip)? as usize)
    }
}
