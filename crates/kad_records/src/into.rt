//! Puts addresses and records into bytes that are there. No call takes memory.
ghost use Rattle.std.specs.Prelude.{◌≡◌, ◌≤◌, length, min, flat_map};
ghost use Rattle.kad_bencode.specs.Spelling.{string_text, text_of};
ghost use Rattle.kad_bencode.specs.Written.{Puts, last_place};
ghost use Rattle.kad_records.specs.Records.{addr_bytes, ip_bytes, node_bytes, peers_value, proof_bytes, proved_bytes};

use crate::kinds::Record;
use kad_base::{Addr, Contact, Ip, Proof, Report};
use kad_bencode::{put_length, put_part};

#[inline(always)]
fn put_ip(buf: &mut [u8], at: usize, ip: &Ip) -> usize
    ensures { Puts buf.old buf.new at (ip_bytes ip.now) result }
{
    match ip {
        Ip::V4(ip) => put_part(buf, at, ip),
        Ip::V6(ip) => put_part(buf, at, ip),
    }
}

/// Puts an address and a port in network order.
#[inline(always)]
fn put_addr(buf: &mut [u8], at: usize, addr: &Addr) -> usize
    ensures { Puts buf.old buf.new at (addr_bytes addr.now) result }
{
    let at = put_ip(buf, at, &addr.ip);
    put_part(buf, at, &[(addr.port / 256) as u8, (addr.port % 256) as u8])
}

fn array_length<const N: usize>(array: &[u8; N]) -> usize
    ensures number { result ≡ N }
    ensures length { result ≡ length array.now }
{
    array.len()
}

/// How many bytes an address and a port take: 6, or 18 of IPv6.
fn addr_length(addr: &Addr) -> usize
    ensures length { result ≡ length (addr_bytes addr.now) }
    ensures most { result ≤ 18 }
{
    match &addr.ip {
        Ip::V4(ip) => array_length(ip) + 2,
        Ip::V6(ip) => array_length(ip) + 2,
    }
}

/// Puts a node.
#[inline(always)]
pub(crate) fn put_node(buf: &mut [u8], at: usize, node: &Contact) -> usize
    ensures { Puts buf.old buf.new at (node_bytes node.now) result }
{
    let at = put_part(buf, at, &node.id.0);
    put_addr(buf, at, &node.addr)
}

/// How many bytes a node takes.
pub(crate) fn node_length(node: &Contact) -> usize
    ensures { result ≡ length (node_bytes node.now) }
{
    array_length(&node.id.0) + addr_length(&node.addr)
}

/// Puts the key and the X of a proof.
#[inline(always)]
fn put_proof(buf: &mut [u8], at: usize, proof: &Option<Proof>) -> usize
    ensures { Puts buf.old buf.new at (proof_bytes proof.now) result }
{
    match proof {
        Some(proof) => {
            let at = put_part(buf, at, &proof.key);
            put_part(buf, at, &proof.x)
        }
        None => at,
    }
}

fn proof_length(proof: &Option<Proof>) -> usize
    ensures length { result ≡ length (proof_bytes proof.now) }
    ensures most { result ≤ 52 }
{
    match proof {
        Some(proof) => array_length(&proof.key) + array_length(&proof.x),
        None => 0,
    }
}

/// Puts a node with its proof.
#[inline(always)]
pub(crate) fn put_proved(buf: &mut [u8], at: usize, report: &Report) -> usize
    ensures { Puts buf.old buf.new at (proved_bytes report.now) result }
{
    let at = put_part(buf, at, &report.contact.id.0);
    let at = put_proof(buf, at, &report.proof);
    put_addr(buf, at, &report.contact.addr)
}

/// How many bytes a node with its proof takes.
pub(crate) fn proved_length(report: &Report) -> usize
    ensures { result ≡ length (proved_bytes report.now) }
{
    array_length(&report.contact.id.0)
        + proof_length(&report.proof)
        + addr_length(&report.contact.addr)
}

/// How many bytes records take; more than `usize::MAX` is that.
#[inline(always)]
fn measured<R: Record>(items: &[R::Item]) -> usize
    ensures { result ≡ min (length (flat_map R.writes items.now)) last_place }
{
    let mut size = 0usize;
    for item in items {
        size = size.saturating_add(R::text_len(item));
    }
    size
}

/// Puts records, one after another.
#[inline(always)]
fn put_each<R: Record>(buf: &mut [u8], from: usize, items: &[R::Item]) -> usize
    ensures { Puts buf.old buf.new from (flat_map R.writes items.now) result }
{
    let mut at = from;
    for item in items {
        at = R::put(buf, at, item);
    }
    at
}

/// Puts the string of records: its length, which is measured first, and the records one after another.
#[inline(always)]
pub fn put_records<R: Record>(buf: &mut [u8], at: usize, items: &[R::Item]) -> usize
    ensures { Puts buf.old buf.new at (string_text (flat_map R.writes items.now)) result }
{
    let at = put_length(buf, at, measured::<R>(items));
    put_each::<R>(buf, at, items)
}

/// Puts the string of a peer.
#[inline(always)]
fn put_peer(buf: &mut [u8], at: usize, peer: &Addr) -> usize
    ensures { Puts buf.old buf.new at (string_text (addr_bytes peer.now)) result }
{
    let at = put_length(buf, at, addr_length(peer));
    put_addr(buf, at, peer)
}

/// Puts the strings of peers, one after another.
#[inline(always)]
fn put_each_peer(buf: &mut [u8], from: usize, peers: &[Addr]) -> usize
    ensures { Puts buf.old buf.new from (flat_map (λ peer. string_text (addr_bytes peer)) peers.now)
        result }
{
    let mut at = from;
    for peer in peers {
        at = put_peer(buf, at, peer);
    }
    at
}

/// Puts the list of peers.
#[inline(always)]
pub fn put_peers(buf: &mut [u8], at: usize, peers: &[Addr]) -> usize
    ensures { Puts buf.old buf.new at (text_of (peers_value peers.now)) result }
{
    let at = put_part(buf, at, b"l");
    let at = put_each_peer(buf, at, peers);
    put_part(buf, at, b"e")
}
