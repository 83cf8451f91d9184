//! The announced peers as an object whose calls are steps.
ghost use Rattle.std.specs.Prelude.{◌≡◌};
ghost use Rattle.peer_store.specs.PeersStep.{PeersMay, PeersStep, peers_after};
ghost use Rattle.peer_store.specs.declared.calls.PeerCall.{PeerCall};

use crate::calls::{PeerCall, PeerReply};
use crate::peers::{PeerFault, Peers};
use kad_base::{Addr, Id, NoMemory, Serial};

/// The peers of the key.
fn list(peers: &Peers, key: Id, at: u64, first: [u8; 4]) -> PeerReply
    ensures { PeersStep peers.now 0 (PeerCall.List key at first) result }
{
    match peers.list_from(key, at, first) {
        Ok(list) => PeerReply::Listed { list },
        Err(NoMemory) => PeerReply::NoMemory,
    }
}

/// Drops what is old, and adds the peer.
fn put(peers: &mut Peers, key: Id, peer: Addr, at: u64) -> PeerReply
    ensures step { PeersStep peers.old 0 (PeerCall.Put key peer at) result }
    ensures after { peers.new ≡ peers_after peers.old 0 (PeerCall.Put key peer at) result }
{
    peers.purge(at);
    match peers.add(key, peer, at) {
        Ok(stored) => PeerReply::Stored { stored },
        Err(PeerFault::Crowded) => PeerReply::Crowded,
        Err(PeerFault::Full) => PeerReply::Full,
        Err(PeerFault::NoMemory) => PeerReply::NoMemory,
    }
}

impl Serial for Peers {
    type Call = PeerCall;

    type Reply = PeerReply;

    ghost may = { PeersMay };

    ghost step = { PeersStep };

    ghost after = { peers_after };

    fn apply(&mut self, role: u8, call: PeerCall) -> PeerReply {
        match call {
            PeerCall::List { key, at, first } => list(self, key, at, first),
            PeerCall::Put { key, peer, at } => put(self, key, peer, at),
        }
    }
}
