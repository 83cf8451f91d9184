//! Links over answers with peers.
ghost use Rattle.std.specs.Prelude.{IfOk};
ghost use Rattle.fake_net.specs.Scripts.{IsWritableEvent};

use fake_net::{ScriptEvent, ScriptLink};
use kad_base::{List, NoMemory};
use kad_krpc::{Answer, Message};
use std::alloc::Global;
use trial_kit::{contact, link_over, local};

/// Contact n answers at moment 10 with the peers at these two ports, and with a token of one byte.
fn peers_event(
    alloc: Global,
    n: u8,
    first: u16,
    second: u16,
    token: u8,
) -> Result<ScriptEvent, NoMemory>
    ensures { IfOk result IsWritableEvent }
{
    let to = contact(n).addr;
    let mut values = List::new(alloc);
    values.push(local(first))?;
    values.push(local(second))?;
    let mut bytes = List::new(alloc);
    bytes.push(token)?;
    Ok(ScriptEvent::ToQuery {
        to,
        at: 10,
        from: to,
        message: Message::Answer {
            tx: List::new(alloc),
            answer: Answer {
                id: contact(n).id,
                nodes: None,
                snodes: None,
                nodes6: None,
                snodes6: None,
                token: Some(bytes),
                v: None,
                values: Some(values),
            },
        },
    })
}

/// A link over the answers of contacts 1 and 2 to `get_peers`, which both name the peer at port 7000.
pub fn peers_link(alloc: Global) -> Result<ScriptLink, NoMemory> {
    let mut script = List::new(alloc);
    script.push(peers_event(alloc, 1, 7002, 7000, 11)?)?;
    script.push(peers_event(alloc, 2, 7000, 7001, 12)?)?;
    Ok(link_over(alloc, script))
}
