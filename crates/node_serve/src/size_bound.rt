//! That a reply has a place in 4,096 bytes, its tag too, and its text.
ghost use Rattle.std.specs.Prelude.{◌≡◌, ◌*◌, ◌≤◌, length, take};
ghost use Rattle.kad_krpc.specs.Form.{HasForms, form};
ghost use Rattle.kad_krpc.specs.Records.{ip_bytes, addr_bytes, node_bytes, nodes_bytes, proof_bytes, proved_bytes, snodes_bytes};
ghost use Rattle.node_serve.specs.Sizes.{IsCompact, IsSmall, count, max_reply, nodes_size, peers_bytes, snodes_size, values_size};

use kad_base::limits::MAX_DATAGRAM;
use kad_base::{Addr, Addrs, Contact, Contacts, Id, Ip, Proof, Report, Reports};
use kad_krpc::{Answer, Message, encode_into};

/// That the array has as many bytes as its type says.
fn bytes_in<const N: usize>(array: &[u8; N])
    ensures { length array.now ≡ N }
{
    let _ = array.len();
}

fn id_fits(id: &Id)
    ensures { length id.now.0 ≡ 20 }
{
    bytes_in(&id.0)
}

fn ip_fits(ip: &Ip)
    ensures { length (ip_bytes ip.now) ≤ 16 }
{
    match ip {
        Ip::V4(ip) => bytes_in(ip),
        Ip::V6(ip) => bytes_in(ip),
    }
}

fn addr_fits(addr: &Addr)
    ensures { length (addr_bytes addr.now) ≤ 18 }
{
    ip_fits(&addr.ip)
}

fn node_fits(node: &Contact)
    ensures { length (node_bytes node.now) ≤ 38 }
{
    id_fits(&node.id);
    addr_fits(&node.addr)
}

fn proof_fits(proof: &Option<Proof>)
    ensures { length (proof_bytes proof.now) ≤ 52 }
{
    match proof {
        Some(proof) => {
            bytes_in(&proof.key);
            bytes_in(&proof.x)
        }
        None => {}
    }
}

fn proved_fits(report: &Report)
    ensures { length (proved_bytes report.now) ≤ 90 }
{
    id_fits(&report.contact.id);
    proof_fits(&report.proof);
    addr_fits(&report.contact.addr)
}

fn nodes_fit(nodes: &[Contact])
    ensures { length (nodes_bytes nodes.now) ≤ 38 * length nodes.now }
{
    for node in nodes {
        node_fits(node);
    }
}

fn snodes_fit(snodes: &[Report])
    ensures { length (snodes_bytes snodes.now) ≤ 90 * length snodes.now }
{
    for report in snodes {
        proved_fits(report);
    }
}

fn peers_fit(peers: &[Addr])
    ensures { length (peers_bytes peers.now) ≤ 18 * length peers.now }
{
    for peer in peers {
        addr_fits(peer);
    }
}

fn some_nodes_fit(nodes: &Option<Contacts>)
    ensures { nodes_size nodes.now ≤ 38 * count nodes.now }
{
    match nodes {
        Some(nodes) => nodes_fit(nodes.as_slice()),
        None => {}
    }
}

fn some_snodes_fit(snodes: &Option<Reports>)
    ensures { snodes_size snodes.now ≤ 90 * count snodes.now }
{
    match snodes {
        Some(snodes) => snodes_fit(snodes.as_slice()),
        None => {}
    }
}

fn some_values_fit(values: &Option<Addrs>)
    ensures { values_size values.now ≤ 18 * count values.now }
{
    match values {
        Some(values) => peers_fit(values.as_slice()),
        None => {}
    }
}

fn answer_fits(answer: &Answer)
    ensures { IsCompact answer.now }
{
    id_fits(&answer.id);
    some_nodes_fit(&answer.nodes);
    some_snodes_fit(&answer.snodes);
    some_values_fit(&answer.values)
}

/// That a reply with few parts leaves room for a tag. It only goes over the parts.
fn size_bound(message: &Message)
    requires { IsSmall message.now }
    ensures { length (form message.now) ≤ max_reply }
{
    match message {
        Message::Answer { answer, .. } => answer_fits(answer),
        Message::Fault { .. } => {}
        Message::Query { .. } => {}
    }
}

/// Writes a reply with few parts in front of `out`, and answers its length, which leaves room for a tag. Takes no memory.
pub(crate) fn write(message: &Message, out: &mut [u8; MAX_DATAGRAM]) -> usize
    requires { IsSmall message.now }
    ensures room { result ≤ max_reply }
    ensures form { take result out.new ≡ form message.now }
    ensures forms { HasForms message.now }
{
    size_bound(message);
    match encode_into(message, out) {
        Some(length) => length,
        None => unreachable!(),
    }
}
