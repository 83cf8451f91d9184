//! The queries of lookups, which are written into a buffer. The transaction id is 0x1aed8da0.
use super::said::{ABC, MNO, SENDER};
use kad_base::{Id, Proof};
use kad_krpc::{find_node_into, get_into, get_peers_into};
use std::process::Abort;

#[derive(Clone, Copy)]
pub(crate) enum Method {
    FindNode,
    GetPeers,
    Get,
}

/// What a query of `own` about `sought` says: whether it wants contacts of IPv6, whether it is read-only, and whether it
/// brings `SENDER`; and its text.
#[derive(Clone, Copy)]
pub(crate) struct Query {
    pub(crate) method: Method,
    pub(crate) own: Id,
    pub(crate) sought: Id,
    pub(crate) six: bool,
    pub(crate) read_only: bool,
    pub(crate) brings: bool,
    pub(crate) text: &'static [u8],
}

/// What `ABC` asks about `MNO`: for contacts of IPv4, and by a node that answers others.
pub(crate) const ASKING: Query = Query {
    method: Method::FindNode,
    own: ABC,
    sought: MNO,
    six: false,
    read_only: false,
    brings: false,
    text: b"",
};

fn brought(brings: bool) -> Option<Proof> {
    if brings {
        return Some(SENDER);
    }
    None
}

/// Writes the query, and answers its length.
fn put(query: &Query, buf: &mut [u8; 192]) -> usize {
    let Query {
        method,
        own,
        sought,
        six,
        read_only,
        brings,
        ..
    } = *query;
    let proof = brought(brings);
    let tx = 0x1aed_8da0;
    match method {
        Method::FindNode => find_node_into(buf, &own, &sought, six, read_only, &proof, tx),
        Method::GetPeers => get_peers_into(buf, &own, &sought, six, read_only, &proof, tx),
        Method::Get => get_into(buf, &own, &sought, six, read_only, &proof, tx),
    }
}

fn is_written(query: &Query) -> bool {
    let mut buf = [0u8; 192];
    let length = put(query, &mut buf);
    length == query.text.len() && buf.starts_with(query.text)
}

/// That each of these queries has its text.
pub(crate) fn all_written(rt: &impl Abort, queries: &[Query]) {
    for query in queries {
        assert!(rt; is_written(query));
    }
}
