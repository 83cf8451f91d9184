//! What a datagram may say.
use kad_base::{Addrs, Bytes, Contacts, Id, Proof, Reports};
use kad_bencode::Bad;

/// A message of KRPC (BEP 5): one dictionary, its keys ascending. `tx` is the transaction id, which an answer repeats.
#[derive(Debug, Drop, PartialEq, Eq)]
pub enum Message {
    /// `d1:a` the arguments `1:q` the method, where read-only `2:roi1e`, `1:t` the transaction id `1:y1:qe`. A node that
    /// says that it is read-only answers no query (BEP 43). `proof` is that of who asks: `2:sk52:` the public key and X, among
    /// the arguments, this project's own key.
    Query {
        tx: Bytes,
        read_only: bool,
        proof: Option<Proof>,
        ask: Ask,
    },
    /// `d1:r` the answer `1:t` the transaction id `1:y1:re`.
    Answer {
        tx: Bytes,
        answer: Answer,
    },
    /// `d1:el` the code and the text `e1:t` the transaction id `1:y1:ee`.
    Fault {
        tx: Bytes,
        code: i64,
        text: Bytes,
    },
}

/// What a query asks, with its arguments. `id` is who asks.
#[derive(Debug, Drop, PartialEq, Eq)]
pub enum Ask {
    Ping {
        id: Id,
    },
    FindNode {
        id: Id,
        target: Id,
        want: Want,
    },
    GetPeers {
        id: Id,
        info_hash: Id,
        want: Want,
    },
    AnnouncePeer {
        id: Id,
        info_hash: Id,
        port: Port,
        token: Bytes,
    },
    /// Asks for an item of BEP 44 by its key, which is `target`.
    Get {
        id: Id,
        target: Id,
        want: Want,
    },
    /// Gives an item of BEP 44. `v` is the written form of its value, of any kind. It is mutable if the arguments have
    /// the key `k`; nothing else of a mutable item is read, and none is written.
    Put {
        id: Id,
        token: Bytes,
        v: Bytes,
        mutable: bool,
    },
    /// A query by another name. Its arguments are not read.
    Other {
        method: Bytes,
    },
}

/// Whose contacts a query asks for (BEP 32): `want` is a list of words, `n4` for those of IPv4 and `n6` for those of IPv6.
/// A query without the key wants those of the network that it came by.
#[derive(Clone, Copy, Debug, PartialEq, Eq)]
pub struct Want {
    pub four: bool,
    pub six: bool,
}

/// The port that a peer announces.
#[derive(Clone, Copy, Debug, PartialEq, Eq)]
pub enum Port {
    /// This one.
    Given(u16),
    /// The one that the datagram came from (`implied_port`).
    Implied,
}

/// The dictionary `r` of an answer. If a key is missing its part is `None`.
#[derive(Debug, Drop, PartialEq, Eq)]
pub struct Answer {
    /// Who answered.
    pub id: Id,
    /// `nodes`: compact records of 26 bytes, identifier, IPv4 address and port.
    pub nodes: Option<Contacts>,
    /// `snodes`, this project's own key: records of 78 bytes, identifier, public key, X, IPv4 address and port.
    pub snodes: Option<Reports>,
    /// `nodes6` (BEP 32): records of 38 bytes, identifier, IPv6 address and port.
    pub nodes6: Option<Contacts>,
    /// `snodes6`, this project's own key: records of 90 bytes, identifier, public key, X, IPv6 address and port.
    pub snodes6: Option<Reports>,
    /// `token`: what a later `announce_peer` or `put` has to bring along.
    pub token: Option<Bytes>,
    /// `v` (BEP 44): the written form of an item's value, of any kind.
    pub v: Option<Bytes>,
    /// `values`: peers of the info hash, each a string of 6 bytes, IPv4 address and port, or of 18, IPv6 address and port.
    pub values: Option<Addrs>,
}

/// A key of a message, as a refusal names it; `Top` is the whole message.
#[derive(Clone, Copy, Debug, PartialEq, Eq)]
pub enum Key {
    Top,
    T,
    Y,
    Q,
    A,
    R,
    E,
    Id,
    Target,
    InfoHash,
    Token,
    ImpliedPort,
    Port,
    Nodes,
    Snodes,
    Nodes6,
    Snodes6,
    V,
    Values,
}

/// What `y` says that a message is.
#[derive(Clone, Copy, Debug, PartialEq, Eq)]
pub(crate) enum Kind {
    Query,
    Answer,
    Fault,
}

/// The methods of BEP 5 and BEP 44.
#[derive(Clone, Copy, Debug, PartialEq, Eq)]
pub(crate) enum Method {
    Ping,
    FindNode,
    GetPeers,
    AnnouncePeer,
    Get,
    Put,
}

/// Why a datagram was not read.
#[derive(Clone, Copy, Debug, PartialEq, Eq)]
pub enum KrpcFault {
    /// It is not one value of bencode.
    Bad(Bad),
    /// The key isn't there.
    Missing { key: Key },
    /// The key's value isn't of its kind.
    Shape { key: Key },
    /// The key's string is of `len` bytes, which are not whole records.
    Records { key: Key, len: usize },
    NoMemory,
}
