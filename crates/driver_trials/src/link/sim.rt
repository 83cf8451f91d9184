//! A network of 500 nodes from a seed of zeros, 25 of a hundred hostile. What is expected was computed by another program,
//! in another language. The query is BEP 5's example.
ghost use Rattle.std.specs.Prelude.{◌≡◌, IfOk};

use fake_net::SimNet;
use kad_base::{Addr, Came, Contact, Id, Ip, Link, NoMemory};
use kad_krpc::{Answer, Message, decode};
use std::alloc::Global;
use std::process::Abort;
use std::test::Fail;

const FIND_NODE: &[u8] =
    b"d1:ad2:id20:abcdefghij01234567896:target20:mnopqrstuvwxyz123456e1:q9:find_node1:t2:aa1:y1:qe";

const PING: &[u8] = b"d1:ad2:id20:abcdefghij0123456789e1:q4:ping1:t2:aa1:y1:qe";

const SERVER_ERROR: &[u8] = b"d1:eli202e12:Server Errore1:t2:aa1:y1:ee";

/// What a network shows of its nodes.
#[derive(Clone, Copy, Debug, PartialEq, Eq)]
struct Shown {
    own: Id,
    target: Id,
    last: Contact,
    /// Whether nodes 46 and 191 are the two closest to the target of those that aren't hostile.
    closest: bool,
    short: bool,
}

/// What a receive answers.
#[derive(Clone, Copy, Debug, PartialEq, Eq)]
enum Said {
    Datagram { from: Addr, at: u64, text: Text },
    Quiet { at: u64 },
    Failed,
}

/// What a datagram says.
#[derive(Clone, Copy, Debug, PartialEq, Eq)]
enum Text {
    /// Who answers, how many contacts the answer names, and where the first and the last of them are.
    Names {
        id: Id,
        count: usize,
        first: Addr,
        last: Addr,
    },
    ServerError,
    Other,
}

/// A call of the link and what it has to answer. Nodes go by their numbers.
#[derive(Clone, Copy, Debug)]
enum Row {
    /// The moment is this.
    Now(u64),
    /// A send to that node passes.
    Sent(u16, &'static [u8]),
    /// Nothing comes up to that moment.
    Waits(u64),
    /// In a receive until that moment, that node's datagram comes at that moment.
    Gives(u64, u16, u64, Text),
}

/// The address of a node below 65,536.
fn node_at(node: u16) -> Addr {
    let [high, low] = node.to_be_bytes();
    Addr {
        ip: Ip::V4([10, 0, high, low]),
        port: 6881,
    }
}

fn network(alloc: Global) -> Result<SimNet, NoMemory>
    ensures count { IfOk result (λ net. net.network.count ≡ 500) }
{
    SimNet::new(alloc, &[0; 32], 500, 25)
}

fn named(id: Id, contacts: &[Contact]) -> Text {
    match (contacts.first(), contacts.last()) {
        (Some(first), Some(last)) => Text::Names {
            id,
            count: contacts.len(),
            first: first.addr,
            last: last.addr,
        },
        _ => Text::Other,
    }
}

fn answered(answer: &Answer) -> Text {
    match &answer.nodes {
        Some(nodes) => named(answer.id, nodes.as_slice()),
        None => Text::Other,
    }
}

fn text_of(alloc: Global, bytes: &[u8]) -> Text {
    if bytes == SERVER_ERROR {
        return Text::ServerError;
    }
    match decode(alloc, bytes) {
        Ok(Message::Answer { answer, .. }) => answered(&answer),
        _ => Text::Other,
    }
}

fn receives(alloc: Global, net: &mut SimNet, until: u64) -> Said {
    let mut buf = [0; 1024];
    match net.recv(&mut buf, until) {
        Ok(Came::Packet { from, len, at }) => Said::Datagram {
            from,
            at,
            text: text_of(alloc, &buf[..len]),
        },
        Ok(Came::Quiet { at }) => Said::Quiet { at },
        Err(_) => Said::Failed,
    }
}

/// Makes the call, and says whether its answer is as the row has it.
fn holds(alloc: Global, net: &mut SimNet, row: &Row) -> bool {
    match *row {
        Row::Now(at) => net.now() == at,
        Row::Sent(node, bytes) => net.send(node_at(node), bytes).is_ok(),
        Row::Waits(until) => receives(alloc, net, until) == Said::Quiet { at: until },
        Row::Gives(until, node, at, text) => {
            let from = node_at(node);
            receives(alloc, net, until) == Said::Datagram { from, at, text }
        }
    }
}

/// Makes the calls of a new network, one after another.
fn plays(rt: &impl Abort, alloc: Global, rows: &[Row]) -> Result<(), Fail> {
    let mut net = network(alloc)?;
    for row in rows {
        assert!(rt; holds(alloc, &mut net, row), "{row:?}");
    }
    Ok(())
}

const OWN: Id = Id(
    *b"\x76\xb8\xe0\xad\xa0\xf1\x3d\x90\x40\x5d\x6a\xe5\x53\x86\xbd\x28\xbd\xd2\x19\xb8",
);

const TARGET: Id = Id(
    *b"\x1a\xa4\xd4\x35\xd7\xbe\x3a\xcb\xf5\xee\x04\xa3\x8b\x86\x47\x56\x1d\xe9\xd0\x9b",
);

/// Whether these are the two closest to the target of the nodes that aren't hostile.
fn are_closest(net: &SimNet, contacts: &[Contact]) -> Result<bool, NoMemory> {
    let near = net.closest_honest(&TARGET, 2)?;
    Ok(near.as_slice() == contacts)
}

fn shows(alloc: Global) -> Result<Shown, NoMemory> {
    let net = network(alloc)?;
    let closest = are_closest(&net, &[net.contact(46), net.contact(191)])?;
    Ok(Shown {
        own: net.own(),
        target: net.target(),
        last: net.contact(499),
        closest,
        short: net.short(),
    })
}

const SHOWN: &Shown = &Shown {
    own: OWN,
    target: TARGET,
    last: Contact {
        id: Id(
            *b"\x7c\x6b\x46\x7c\x48\xef\x6d\xd7\xed\x50\xbb\x6a\xfc\xbd\x7f\x12\xc4\x6a\x9d\x73",
        ),
        addr: Addr {
            ip: Ip::V4([10, 0, 1, 243]),
            port: 6881,
        },
    },
    closest: true,
    short: false,
};

#[test]
fn nodes_are_as_the_seed_says(rt: HostRuntime) -> Result<(), Fail> {
    assert_eq!(rt; shows(rt.alloc())?, *SHOWN);
    Ok(())
}

/// The addresses of nodes 8 and 12.
const NODE_8: Addr = Addr {
    ip: Ip::V4([10, 0, 0, 8]),
    port: 6881,
};

const NODE_12: Addr = Addr {
    ip: Ip::V4([10, 0, 0, 12]),
    port: 6881,
};

/// What an honest node answers.
const HONEST: Text = Text::Names {
    id: Id(*b"\xc3\x7d\x7e\x6e\xf7\x49\xc8\xa2\x2a\x2b\x9a\x9d\x37\xd9\xfe\x89\xec\xec\x47\xd6"),
    count: 8,
    first: NODE_8,
    last: NODE_12,
};

/// What a node that invents contacts answers.
const INVENTING: Text = Text::Names {
    id: Id(*b"\x72\x0d\x90\x58\x8f\x75\x10\x99\x22\x71\x18\xe2\x5d\xe9\x17\xa9\x92\x68\x7f\x21"),
    count: 16,
    first: Addr {
        ip: Ip::V4([127, 0, 0, 0]),
        port: 1,
    },
    last: Addr {
        ip: Ip::V4([127, 0, 0, 15]),
        port: 1,
    },
};

/// What a node that poses as the target answers.
const POSING: Text = Text::Names {
    id: Id(*b"mnopqrstuvwxyz123456"),
    count: 8,
    first: NODE_8,
    last: NODE_12,
};

const ANSWERS: &[Row] = &[
    Row::Sent(25, FIND_NODE),
    Row::Gives(1_000, 25, 35, HONEST),
    Row::Sent(0, FIND_NODE),
    Row::Gives(1_000, 0, 45, INVENTING),
    Row::Sent(2, FIND_NODE),
    Row::Gives(1_000, 2, 57, POSING),
];

#[test]
fn honest_and_hostile_nodes_answer(rt: HostRuntime) -> Result<(), Fail> {
    plays(&rt, rt.alloc(), ANSWERS)
}

/// Node 500 isn't there.
const SILENCE: &[Row] = &[
    Row::Sent(1, FIND_NODE),
    Row::Waits(100),
    Row::Sent(500, FIND_NODE),
    Row::Waits(200),
    Row::Sent(25, PING),
    Row::Waits(300),
    Row::Sent(203, FIND_NODE),
    Row::Sent(3, FIND_NODE),
    Row::Gives(313, 203, 313, Text::ServerError),
    Row::Gives(400, 3, 313, Text::ServerError),
    Row::Now(313),
];

#[test]
fn others_are_silent_and_the_first_of_one_moment_comes_first(rt: HostRuntime) -> Result<(), Fail> {
    plays(&rt, rt.alloc(), SILENCE)
}

const LAST_MOMENT: &[Row] = &[
    Row::Waits(u64::MAX - 20),
    Row::Sent(25, FIND_NODE),
    Row::Sent(0, FIND_NODE),
    Row::Waits(u64::MAX - 11),
    Row::Gives(u64::MAX, 0, u64::MAX - 10, INVENTING),
    Row::Waits(u64::MAX - 1),
    Row::Gives(u64::MAX, 25, u64::MAX, HONEST),
    Row::Waits(u64::MAX),
];

#[test]
fn an_answer_past_the_last_moment_comes_at_it(rt: HostRuntime) -> Result<(), Fail> {
    plays(&rt, rt.alloc(), LAST_MOMENT)
}

/// Whether the network is short after that many calls that it tells.
fn is_short_after(alloc: Global, calls: u32) -> Result<bool, NoMemory> {
    let mut net = network(alloc)?;
    for _ in 0..calls {
        net.now();
    }
    Ok(net.short())
}

#[test]
fn five_thousand_events_make_no_network_short(rt: HostRuntime) -> Result<(), Fail> {
    assert!(rt; !is_short_after(rt.alloc(), 5_000)?);
    Ok(())
}
