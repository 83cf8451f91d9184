//! The receive calls of a node that serves on a link, and the replies to what came.
ghost use Rattle.std.specs.Prelude.{◌≡◌, ◌≢◌, ◌≤◌, ◌<◌, ◌+◌, ◌^◌, [], ◌∷◌, false, length, IfOk, OnOk, OnErr, IfErr};
ghost use Rattle.kad_base.specs.Failing.{FailsLast};
ghost use Rattle.kad_base.specs.Outside.{Grows, Rose};
ghost use Rattle.node_serve.specs.AnswerOf.{EndsEarly};
ghost use Rattle.node_serve.specs.Lasting.{is_over};
ghost use Rattle.node_serve.specs.Receives.{ServesAll, ServesSome, tried};
ghost use Rattle.node_serve.specs.Responded.{serve_state, RespondsWith, ReceivesOne, Stops};

use crate::lasting::{Lasting, end_of, is_over, waits_to};
use crate::node::{Answered, Node};
use contact_table::Table;
use kad_base::limits::{MAX_DATAGRAM, RECEIVE_ROOM};
use kad_base::{Addr, Came, Link, NoMemory};
use seal_tags::Seal;
use thiserror::Error;

/// Why a service ended before its last receive call.
#[derive(Clone, Copy, Debug, PartialEq, Eq, Error)]
pub enum ServeFault {
    /// The link failed at a receive.
    #[error("the link failed")]
    LinkFault,
    /// A query came for whose answer there was no memory.
    #[error("no memory")]
    NoMemory,
}

/// How much was served.
#[derive(Clone, Copy, Debug, PartialEq, Eq)]
pub struct ServeCounts {
    /// How many datagrams came.
    pub received: u32,
    /// How many replies were sent, those aside that the link refused.
    pub replied: u32,
}

/// A node that serves, the last moment that its link told, how many datagrams came, and how many replies were sent.
#[derive(Drop)]
pub(crate) struct Server {
    pub node: Node,
    pub moment: u64,
    pub received: u32,
    pub replied: u32,
}

/// Sends the reply; false where the link refused it.
fn send<L: Link>(link: &mut L, to: Addr, reply: &[u8]) -> bool
    ensures sent { Grows (L.told link.old) (L.told link.new)
        (λ es. es ≡ tried result to reply.now ∷ []) }
    ensures recv_faults { L.recv_faults link.new ≡ L.recv_faults link.old }
    ensures kept { L.kept link.new ≡ L.kept link.old }
{
    match link.send(to, reply) {
        Ok(()) => true,
        Err(_) => false,
    }
}

/// Answers the datagram, and sends the reply to its source where one is owed; how many were sent: at most one.
fn answer_one<L: Link, G: Seal>(
    link: &mut L,
    node: &mut Node,
    seal: &G,
    from: Addr,
    bytes: &[u8],
    at: u64,
    out: &mut [u8; MAX_DATAGRAM],
) -> Result<u32, NoMemory>
    ensures most { IfOk result (λ sent. sent ≤ 1) }
    ensures ok { IfOk result (λ sent. Grows (L.told link.old) (L.told link.new)
        (RespondsWith (G.tag_of seal.now) node.old from bytes.now at sent node.new)) }
    ensures err { OnErr result (EndsEarly node.old from bytes.now at node.new) }
    ensures table { OnErr result (node.new.table ≡ node.old.table) }
    ensures still { OnErr result (link.new ≡ link.old) }
    ensures recv_faults { L.recv_faults link.new ≡ L.recv_faults link.old }
    ensures kept { L.kept link.new ≡ L.kept link.old }
{
    match node.answer(from, bytes, at, seal, out) {
        Answered::Reply(length) => Ok(u32::from(send(link, from, &out[..length]))),
        Answered::Silent => Ok(0),
        Answered::NoMemory => Err(NoMemory),
    }
}

/// Makes one receive call of a service with this end, which isn't over, and answers the datagram that came.
fn receive<L: Link, G: Seal>(
    link: &mut L,
    server: &mut Server,
    seal: &G,
    end: Option<u64>,
    room: &mut [u8],
    out: &mut [u8; MAX_DATAGRAM],
) -> Result<(), ServeFault>
    requires in_time { is_over end server.old.moment ≡ false }
    requires room { length room.old ≡ 4097 }
    requires few { server.old.received + 1 < 2 ^ 32 }
    requires fewer { server.old.replied ≤ server.old.received }
    ensures room { length room.new ≡ 4097 }
    ensures few { OnOk result (server.new.received ≤ server.old.received + 1) }
    ensures fewer { OnOk result (server.new.replied ≤ server.new.received) }
    ensures ok { OnOk result (Grows (L.told link.old) (L.told link.new)
        (ReceivesOne (G.tag_of seal.now) end server.old server.new)) }
    ensures stops { IfErr result (λ fault. Stops end fault (serve_state server.old)
        (L.told link.old) (L.told link.new)) }
    ensures table { OnErr result (server.new.node.table ≡ server.old.node.table) }
    ensures link_fault { result ≡ Err ServeFault.LinkFault
        → Rose (L.recv_faults link.old) (L.recv_faults link.new) }
    ensures last { result ≡ Err ServeFault.LinkFault
        → FailsLast L.told L.recv_faults link.old link.new }
    ensures recv_faults { L.recv_faults link.old ≤ L.recv_faults link.new }
    ensures well { result ≢ Err ServeFault.LinkFault
        → L.recv_faults link.new ≡ L.recv_faults link.old }
    ensures kept { L.kept link.new ≡ L.kept link.old }
{
    let until = waits_to(end, server.moment);
    match link.recv(room, until) {
        Ok(Came::Packet { from, len, at }) => {
            match answer_one(link, &mut server.node, seal, from, &room[..len], at, out) {
                Ok(sent) => {
                    server.moment = at;
                    server.received += 1;
                    server.replied += sent;
                    Ok(())
                }
                Err(NoMemory) => Err(ServeFault::NoMemory),
            }
        }
        Ok(Came::Quiet { at }) => {
            server.moment = at;
            Ok(())
        }
        Err(_) => Err(ServeFault::LinkFault),
    }
}

/// What is left of a server: its table, and how much it served.
fn left_by(server: Server) -> (Table, ServeCounts)
    ensures table { result.0 ≡ server.node.table }
    ensures received { result.1.received ≡ server.received }
    ensures replied { result.1.replied ≡ server.replied }
{
    let Server {
        node,
        received,
        replied,
        ..
    } = server;
    (node.into_table(), ServeCounts { received, replied })
}

/// Serves from the moment `began` on, in milliseconds, until as many receive calls were made as it lasts, or until a moment is
/// told that is at its end by time or behind it. A receive call waits for a minute, but to that end at most. It answers the
/// queries that come, a sealed node under the tags of the seal. Where the link refuses a reply it goes on. The table comes
/// back as the queries left it.
pub fn serve_loop<L: Link, G: Seal>(
    link: &mut L,
    node: Node,
    seal: &G,
    began: u64,
    lasting: Lasting,
) -> (Table, Result<ServeCounts, ServeFault>)
    ensures ok { IfOk result.1 (λ counts. Grows (L.told link.old) (L.told link.new)
        (ServesAll (G.tag_of seal.now) (record { node = node; moment = began }) lasting
        result.0 counts.received counts.replied)) }
    ensures begun { OnErr result.1 (Grows (L.told link.old) (L.told link.new)
        (ServesSome (G.tag_of seal.now) (record { node = node; moment = began }) lasting
        result.0)) }
    ensures link_fault { result.1 ≡ Err ServeFault.LinkFault
        → Rose (L.recv_faults link.old) (L.recv_faults link.new) }
    ensures last { result.1 ≡ Err ServeFault.LinkFault
        → FailsLast L.told L.recv_faults link.old link.new }
    ensures recv_faults { L.recv_faults link.old ≤ L.recv_faults link.new }
    ensures well { result.1 ≢ Err ServeFault.LinkFault
        → L.recv_faults link.new ≡ L.recv_faults link.old }
    ensures kept { L.kept link.new ≡ L.kept link.old }
{
    let end = end_of(began, lasting.minutes);
    let mut server = Server {
        node,
        moment: began,
        received: 0,
        replied: 0,
    };
    let mut room = [0u8; RECEIVE_ROOM];
    let mut out = [0u8; MAX_DATAGRAM];
    for i in 0..lasting.receives {
        if is_over(end, server.moment) {
            let (table, counts) = left_by(server);
            return (table, Ok(counts));
        }
        match receive(link, &mut server, seal, end, &mut room, &mut out) {
            Ok(()) => {}
            Err(fault) => return (server.node.into_table(), Err(fault)),
        }
    }
    let (table, counts) = left_by(server);
    (table, Ok(counts))
}
