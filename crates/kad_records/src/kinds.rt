//! The kinds of records that a string is packed with.
ghost use Rattle.std.specs.Prelude.{◌≡◌, ◌≤◌, length, Some};
ghost use Rattle.kad_base.specs.declared.types.Contact.{Contact};
ghost use Rattle.kad_base.specs.declared.types.Family.TheVariants.{Four, Six};
ghost use Rattle.kad_base.specs.declared.types.Report.{Report};
ghost use Rattle.kad_records.specs.Records.{id_at, node_in, node_bytes, proof_in, proved_in, proved_bytes};

use crate::into::{node_length, proved_length, put_node, put_proved};
use crate::record::{array_at, read_addr, read_addr6, read_proof};
use kad_base::{Addr, Contact, Id, Report};

/// A kind of record: what it is read as from so many bytes, and how it is written.
pub trait Record: Drop {
    ghost use Rattle.std.specs.Prelude.{◌≡◌, ◌<◌, ℕ, List, length};
    ghost use Rattle.kad_bencode.specs.Written.{Puts};

    /// What a record says.
    type Item: Drop;

    /// How many bytes it takes.
    const SIZE: usize;

    ghost SIZE: { ℕ };

    ghost reads: { List ℕ → Self.Item };

    ghost writes: { Self.Item → List ℕ };

    /// What the bytes of a record say.
    fn read(bytes: &[u8]) -> Self::Item
        requires { length bytes.now ≡ SIZE }
        ensures { result ≡ reads bytes.now };

    /// How many bytes it is written in.
    fn text_len(item: &Self::Item) -> usize
        ensures { result ≡ length (writes item.now) };

    /// Puts a record, as the puts of `kad_bencode` do.
    fn put(buf: &mut [u8], at: usize, item: &Self::Item) -> usize
        ensures { Puts buf.old buf.new at (writes item.now) result };

    ghost some: { 0 < SIZE };
}

/// The contact of a record's identifier and this address.
fn contact_of(bytes: &[u8], addr: Addr) -> Contact
    requires { 20 ≤ length bytes.now }
    ensures { result ≡ record { id = id_at 0 bytes.now; addr = addr } }
{
    Contact {
        id: Id(array_at(bytes, 0)),
        addr,
    }
}

/// The report of a record's identifier, key and X, and this address.
fn report_of(bytes: &[u8], addr: Addr) -> Report
    requires { 72 ≤ length bytes.now }
    ensures { result ≡ record {
      contact = record { id = id_at 0 bytes.now; addr = addr };
      proof = Some (proof_in bytes.now);
    } }
{
    Report {
        contact: contact_of(bytes, addr),
        proof: Some(read_proof(bytes, 20)),
    }
}

/// A node (BEP 5): identifier, IPv4 address and port, 26 bytes.
#[derive(Drop)]
pub struct Node;

impl Record for Node {
    ghost use Rattle.std.proofs.Common.{rules};

    type Item = Contact;

    const SIZE: usize = 26;

    ghost SIZE = { 26 };

    ghost reads = { node_in Four };

    ghost writes = { node_bytes };

    ghost some = { Prim.search rules };

    fn read(bytes: &[u8]) -> Contact {
        contact_of(bytes, read_addr(bytes, 20))
    }

    fn text_len(node: &Contact) -> usize {
        node_length(node)
    }

    #[inline(always)]
    fn put(buf: &mut [u8], at: usize, node: &Contact) -> usize {
        put_node(buf, at, node)
    }
}

/// A node (BEP 32): identifier, IPv6 address and port, 38 bytes.
#[derive(Drop)]
pub struct Node6;

impl Record for Node6 {
    ghost use Rattle.std.proofs.Common.{rules};

    type Item = Contact;

    const SIZE: usize = 38;

    ghost SIZE = { 38 };

    ghost reads = { node_in Six };

    ghost writes = { node_bytes };

    ghost some = { Prim.search rules };

    fn read(bytes: &[u8]) -> Contact {
        contact_of(bytes, read_addr6(bytes, 20))
    }

    fn text_len(node: &Contact) -> usize {
        node_length(node)
    }

    #[inline(always)]
    fn put(buf: &mut [u8], at: usize, node: &Contact) -> usize {
        put_node(buf, at, node)
    }
}

/// A node with its proof, this project's own: identifier, public key, X, IPv4 address and port, 78 bytes.
#[derive(Drop)]
pub struct Proved;

impl Record for Proved {
    ghost use Rattle.std.proofs.Common.{rules};

    type Item = Report;

    const SIZE: usize = 78;

    ghost SIZE = { 78 };

    ghost reads = { proved_in Four };

    ghost writes = { proved_bytes };

    ghost some = { Prim.search rules };

    fn read(bytes: &[u8]) -> Report {
        report_of(bytes, read_addr(bytes, 72))
    }

    fn text_len(report: &Report) -> usize {
        proved_length(report)
    }

    #[inline(always)]
    fn put(buf: &mut [u8], at: usize, report: &Report) -> usize {
        put_proved(buf, at, report)
    }
}

/// A node with its proof, this project's own: identifier, public key, X, IPv6 address and port, 90 bytes.
#[derive(Drop)]
pub struct Proved6;

impl Record for Proved6 {
    ghost use Rattle.std.proofs.Common.{rules};

    type Item = Report;

    const SIZE: usize = 90;

    ghost SIZE = { 90 };

    ghost reads = { proved_in Six };

    ghost writes = { proved_bytes };

    ghost some = { Prim.search rules };

    fn read(bytes: &[u8]) -> Report {
        report_of(bytes, read_addr6(bytes, 72))
    }

    fn text_len(report: &Report) -> usize {
        proved_length(report)
    }

    #[inline(always)]
    fn put(buf: &mut [u8], at: usize, report: &Report) -> usize {
        put_proved(buf, at, report)
    }
}
