//! A link's room: the datagrams that came while it sent, in the order in which they came.
ghost use Rattle.std.specs.Prelude.{◌≡◌, ◌↔◌, ◌≤◌, [], length, take, true, false, IsTrue, IsNone, IfSome};
ghost use Rattle.udp_link.specs.Held.{More, Oldest, OneMore};

use crate::addresses::addr_of;
use crate::timed_socket::TimedSocket;
use kad_base::Addr;
use std::alloc::Global;
use std::collections::VecDeque;
use std::marker::Model;

/// How many datagrams a room holds at most.
const MOST_HELD: usize = 512;

/// How much of a datagram is held, in bytes: one more than a datagram may have that is believed, so that a longer one
/// shows.
const HELD_LENGTH: usize = 4_097;

/// A datagram that came, and who sent it.
#[derive(Drop)]
pub(crate) struct Held {
    pub(crate) from: Addr,
    pub(crate) bytes: Vec<u8>,
}

/// Datagrams that came and weren't given to the caller yet, the oldest first.
#[derive(Drop)]
pub(crate) struct Room {
    held: VecDeque<Held>,
}

impl Model for Room {
    ghost use Rattle.std.specs.Prelude.{◌≤◌, List, length};
    ghost use Rattle.udp_link.specs.declared.room.Held.{Held};

    ghost Value = { List Held };

    ghost view = { λ r. r.held.items };

    ghost invariant = { λ r. length r.held.items ≤ 512 };
}

impl Room {
    /// Empty. Takes no memory.
    pub(crate) fn new(alloc: Global) -> Self
        ensures { result ≡ [] }
    {
        Room {
            held: VecDeque::new(alloc),
        }
    }

    pub(crate) fn is_empty(&self) -> bool
        ensures { IsTrue result ↔ (self.now ≡ []) }
    {
        self.held.is_empty()
    }

    /// Takes one datagram that has come from the socket, by way of the buffer, without a wait, and says whether it did. Where
    /// the room is full or there is no memory for one, what has come stays at the socket.
    fn take(&mut self, alloc: Global, socket: &mut TimedSocket, buf: &mut [u8; HELD_LENGTH]) -> bool
        ensures took { result ≡ true → OneMore self.old self.new }
        ensures left { result ≡ false → self.new ≡ self.old }
    {
        if self.held.len() >= MOST_HELD {
            return false;
        }
        let Ok(()) = self.held.reserve(1) else {
            return false;
        };
        let Ok(mut bytes) = Vec::with_capacity(alloc, HELD_LENGTH) else {
            return false;
        };
        let Ok((len, from)) = socket.recv_from(buf, None) else {
            return false;
        };
        let Ok(()) = bytes.extend_from_slice(&buf[..len]) else {
            unreachable!()
        };
        self.held.push_back_reserved(Held {
            from: addr_of(from),
            bytes,
        });
        true
    }

    /// Takes what has come from the socket, until nothing more is there, or no room or no memory for it. It is a function of
    /// its own, so that a send that takes nothing has no buffer to clear.
    #[inline(never)]
    #[tactic(auto, using(crate::proofs::Holding::none_more, crate::proofs::Holding::then_one))]
    pub(crate) fn take_all(&mut self, alloc: Global, socket: &mut TimedSocket)
        ensures { More self.old self.new }
    {
        let mut buf = [0; HELD_LENGTH];
        for _ in 0..MOST_HELD {
            if !self.take(alloc, socket, &mut buf) {
                return;
            }
        }
    }

    /// Gives the oldest, as much of it as the buffer has room for: its length there, and who sent it.
    pub(crate) fn give(&mut self, buf: &mut [u8]) -> Option<(usize, Addr)>
        ensures none { IsNone result ↔ (self.old ≡ []) }
        ensures oldest { IfSome result (λ given. Oldest self.old self.new given.1 given.0
            (length buf.old) buf.new) }
    {
        let Held { from, bytes } = self.held.pop_front()?;
        let len = bytes.len().min(buf.len());
        copy_front(bytes.as_slice(), buf, len);
        Some((len, from))
    }
}

/// Copies the first n.
fn copy_front(from: &[u8], to: &mut [u8], n: usize)
    requires from { n ≤ length from.now }
    requires to { n ≤ length to.old }
    ensures { take n to.new ≡ take n from.now }
{
    to[..n].copy_from_slice(&from[..n]);
}
