//! What a query of a lookup says, and what is answered to it.
ghost use Rattle.std.specs.Prelude.{◌≤◌, length, IfOk};

use kad_base::{Addr, Contact, Contacts, Failed, Id, Ip, List, NoMemory};
use kad_krpc::{Answer, Message, View, decode_view, encode_into};
use std::alloc::Global;

/// How many contacts a hostile node names, which is how many of an answer a lookup reads.
pub const MISLEADING: u8 = 16;

/// The transaction id of a query of four bytes, as a lookup's are.
pub fn query_tx(bytes: &[u8]) -> Option<[u8; 4]> {
    match decode_view(bytes) {
        Ok(View::Query { tx, .. }) => match tx {
            [a, b, c, d] => Some([*a, *b, *c, *d]),
            _ => None,
        },
        _ => None,
    }
}

/// The contacts that a hostile node invents: each next to the target, and at an address of its own where nobody is.
pub fn invented(alloc: Global, target: &Id, number: u32) -> Result<Contacts, NoMemory> {
    let [_, x, y, z] = number.to_be_bytes();
    let mut contacts = List::new(alloc);
    for at in 1..=u32::from(MISLEADING) {
        let apart = number.wrapping_mul(u32::from(MISLEADING)).wrapping_add(at);
        let mut id = *target;
        for (byte, change) in id.0[16..].iter_mut().zip(apart.to_be_bytes()) {
            *byte ^= change;
        }
        contacts.push(Contact {
            id,
            addr: Addr {
                ip: Ip::V4([11, x, y, z]),
                port: at as u16,
            },
        })?;
    }
    Ok(contacts)
}

/// Writes an answer in front of the buffer, as much of it as there is room for, and answers how much that is.
pub fn write_answer(
    alloc: Global,
    id: Id,
    nodes: Contacts,
    tx: &[u8; 4],
    buf: &mut [u8],
) -> Result<usize, Failed>
    ensures room { IfOk result (λ n. n ≤ length buf.old) }
{
    let answer = Answer {
        id,
        nodes: Some(nodes),
        snodes: None,
        nodes6: None,
        snodes6: None,
        token: None,
        v: None,
        values: None,
    };
    let Ok(tx) = List::from_slice(alloc, tx) else {
        return Err(Failed);
    };
    let mut form = [0; 4096];
    let Some(len) = encode_into(&Message::Answer { tx, answer }, &mut form) else {
        return Err(Failed);
    };
    let len = len.min(form.len()).min(buf.len());
    buf[..len].copy_from_slice(&form[..len]);
    Ok(len)
}
