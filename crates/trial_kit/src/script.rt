//! Links that play a script.
ghost use Rattle.std.specs.Prelude.{All, IfOk};
ghost use Rattle.kad_base.specs.declared.types.Family.TheVariants.{Six};
ghost use Rattle.kad_krpc.specs.Form.{Each, IsNode, IsNodeOf, IsProved, IsProvedOf, IsWritableAnswer};
ghost use Rattle.fake_net.specs.Scripts.{IsWritableEvent};

use crate::contacts::{at_in, local, number, port};
use fake_net::{Script, ScriptEvent, ScriptLink};
use kad_base::{Addr, Contacts, Family, Id, List, NoMemory, Reports};
use kad_krpc::{Answer, Message};
use std::alloc::Global;

/// The query to contact `to` of this network is answered at this moment from this port, in the name
/// of contact `id`, with this node of the network, its number and its port, or without nodes.
#[derive(Clone, Copy, Debug)]
pub struct Reply {
    pub family: Family,
    pub to: u8,
    pub at: u64,
    pub port: u16,
    pub id: u8,
    pub node: Option<(u8, u16)>,
}

impl Reply {
    /// Contact n answers as it should, without nodes.
    pub fn of(n: u8, at: u64) -> Reply {
        Reply {
            family: Family::Four,
            to: n,
            at,
            port: port(n),
            id: n,
            node: None,
        }
    }

    /// The same, with this contact as the one node.
    pub fn naming(n: u8, at: u64, node: u8) -> Reply {
        Reply {
            node: Some((node, port(node))),
            ..Reply::of(n, at)
        }
    }

    /// The same in the network of IPv6.
    pub fn in_six(self) -> Reply {
        Reply {
            family: Family::Six,
            ..self
        }
    }
}

fn nodes(
    alloc: Global,
    family: Family,
    named: Option<(u8, u16)>,
) -> Result<Option<Contacts>, NoMemory>
    ensures { IfOk result (Each (IsNodeOf family)) }
{
    let Some((n, port)) = named else {
        return Ok(None);
    };
    let mut nodes = List::new(alloc);
    nodes.push(at_in(family, n, port))?;
    Ok(Some(nodes))
}

/// The query to `to` is answered at this moment from this address with this answer.
fn to_query(alloc: Global, to: Addr, at: u64, from: Addr, answer: Answer) -> ScriptEvent
    requires { IsWritableAnswer answer }
    ensures { IsWritableEvent result }
{
    ScriptEvent::ToQuery {
        to,
        at,
        from,
        message: Message::Answer {
            tx: List::new(alloc),
            answer,
        },
    }
}

/// The query to `to` is answered at this moment from this address, in this name and with these
/// nodes.
pub fn answer(
    alloc: Global,
    to: Addr,
    at: u64,
    from: Addr,
    id: Id,
    nodes: Option<Contacts>,
    snodes: Option<Reports>,
) -> ScriptEvent
    requires nodes { Each IsNode nodes }
    requires snodes { Each IsProved snodes }
    ensures { IsWritableEvent result }
{
    let answer = Answer {
        id,
        nodes,
        snodes,
        nodes6: None,
        snodes6: None,
        token: None,
        v: None,
        values: None,
    };
    to_query(alloc, to, at, from, answer)
}

/// The same with these nodes of IPv6.
pub fn answer6(
    alloc: Global,
    to: Addr,
    at: u64,
    from: Addr,
    id: Id,
    nodes6: Option<Contacts>,
    snodes6: Option<Reports>,
) -> ScriptEvent
    requires nodes6 { Each (IsNodeOf Six) nodes6 }
    requires snodes6 { Each (IsProvedOf Six) snodes6 }
    ensures { IsWritableEvent result }
{
    let answer = Answer {
        id,
        nodes: None,
        snodes: None,
        nodes6,
        snodes6,
        token: None,
        v: None,
        values: None,
    };
    to_query(alloc, to, at, from, answer)
}

fn event(alloc: Global, reply: &Reply) -> Result<ScriptEvent, NoMemory>
    ensures { IfOk result IsWritableEvent }
{
    let to = at_in(reply.family, reply.to, port(reply.to)).addr;
    let from = Addr {
        port: reply.port,
        ..to
    };
    let nodes = nodes(alloc, reply.family, reply.node)?;
    let id = number(reply.id);
    match reply.family {
        Family::Four => Ok(answer(alloc, to, reply.at, from, id, nodes, None)),
        Family::Six => Ok(answer6(alloc, to, reply.at, from, id, nodes, None)),
    }
}

/// The script with these replies after it.
pub fn with_replies(alloc: Global, script: Script, replies: &[Reply]) -> Result<Script, NoMemory>
    requires { All IsWritableEvent script }
    ensures { IfOk result (All IsWritableEvent) }
{
    let mut script = script;
    for reply in replies {
        let event = event(alloc, reply)?;
        script.push(event)?;
    }
    Ok(script)
}

/// The bytes from this port at this moment, that many times.
fn delivered(
    alloc: Global,
    port: u16,
    bytes: &[u8],
    at: u64,
    times: u32,
) -> Result<ScriptEvent, NoMemory>
    ensures { IfOk result IsWritableEvent }
{
    Ok(ScriptEvent::Deliver {
        at,
        from: local(port),
        bytes: List::from_slice(alloc, bytes)?,
        times,
    })
}

/// A link over these replies, whose first moment is 0.
pub fn link(alloc: Global, replies: &[Reply]) -> Result<ScriptLink, NoMemory> {
    failing_link(alloc, replies, &[], &[])
}

/// The same, where the sends and the receives of these numbers, from 0, fail.
pub fn failing_link(
    alloc: Global,
    replies: &[Reply],
    sends: &[u64],
    receives: &[u64],
) -> Result<ScriptLink, NoMemory> {
    let script = with_replies(alloc, List::new(alloc), replies)?;
    let sends = List::from_slice(alloc, sends)?;
    let receives = List::from_slice(alloc, receives)?;
    Ok(ScriptLink::new(alloc, 0, script, sends, receives))
}

/// A link over these bytes from contact 1 at this moment, that many times, beside the replies,
/// whose first moment is 0.
pub fn link_with(
    alloc: Global,
    bytes: &[u8],
    at: u64,
    times: u32,
    replies: &[Reply],
) -> Result<ScriptLink, NoMemory> {
    let mut script = List::new(alloc);
    let datagram = delivered(alloc, port(1), bytes, at, times)?;
    script.push(datagram)?;
    let script = with_replies(alloc, script, replies)?;
    Ok(link_over(alloc, script))
}

/// A link over these datagrams from these ports, ten milliseconds one after the other from moment
/// 10 on, where the sends and the receives of these numbers, from 0, fail.
pub fn link_from(
    alloc: Global,
    datagrams: &[(u16, &[u8])],
    sends: &[u64],
    receives: &[u64],
) -> Result<ScriptLink, NoMemory> {
    let mut script = List::new(alloc);
    let mut at = 0u64;
    for (port, bytes) in datagrams {
        at = at.saturating_add(10);
        let event = delivered(alloc, *port, bytes, at, 1)?;
        script.push(event)?;
    }
    let sends = List::from_slice(alloc, sends)?;
    let receives = List::from_slice(alloc, receives)?;
    Ok(ScriptLink::new(alloc, 0, script, sends, receives))
}

/// A link over these datagrams, each at its moment and from its port, where the sends and the receives of these numbers,
/// from 0, fail.
pub fn link_at(
    alloc: Global,
    datagrams: &[(u64, u16, &[u8])],
    sends: &[u64],
    receives: &[u64],
) -> Result<ScriptLink, NoMemory> {
    let mut script = List::new(alloc);
    for (at, port, bytes) in datagrams {
        let event = delivered(alloc, *port, bytes, *at, 1)?;
        script.push(event)?;
    }
    let sends = List::from_slice(alloc, sends)?;
    let receives = List::from_slice(alloc, receives)?;
    Ok(ScriptLink::new(alloc, 0, script, sends, receives))
}

/// A link over this script, whose first moment is 0.
pub fn link_over(alloc: Global, script: Script) -> ScriptLink
    requires { All IsWritableEvent script }
{
    ScriptLink::new(alloc, 0, script, List::new(alloc), List::new(alloc))
}
