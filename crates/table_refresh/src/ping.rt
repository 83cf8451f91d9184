//! Pings, and sending them.
ghost use Rattle.std.specs.Prelude.{◌≡◌, ◌≤◌, ◌<◌, ◌+◌, ◌^◌, ◌∷◌, [], length, take, true, false};
ghost use Rattle.kad_base.specs.declared.types.Event.TheVariants.{Sent, Unsent};
ghost use Rattle.kad_base.specs.Outside.{Grows};
ghost use Rattle.kad_base.specs.Words.{word};
ghost use Rattle.kad_krpc.specs.Form.{form};
ghost use Rattle.lookup_core.specs.Timeouts.{deadline_of};
ghost use Rattle.table_refresh.specs.Refreshed.{ping};

use id_puzzles::Words;
use kad_base::{Contact, Id, Link, put_bytes};
use query_book::Query;

/// The length of a ping, in bytes.
const PING: usize = 65;

/// Writes the read-only ping of a node (BEP 5, BEP 43), and answers its length. The transaction id is the four bytes of
/// `tx`, the lowest first.
fn ping_into(buf: &mut [u8; 65], own: &Id, tx: u32) -> usize
    ensures own { length own.now.0 ≡ 20 }
    ensures length { result ≡ 65 }
    ensures form { take result buf.new ≡ form (ping own.now tx) }
{
    let at = put_bytes(buf, 0, b"d1:ad2:id20:");
    let at = put_bytes(buf, at, &own.0);
    let at = put_bytes(buf, at, b"e1:q4:ping2:roi1e1:t4:");
    let at = put_bytes(buf, at, &tx.to_le_bytes());
    put_bytes(buf, at, b"1:y1:qe")
}

/// A ping of the contact under the next word, which waits from that moment on.
pub(crate) fn open_ping(words: &mut Words, contact: Contact, moment: u64, timeout: u32) -> Query
    requires { words.old.place < 2 ^ 60 }
    ensures query { result ≡ record {
      tx = word words.old.seed words.old.place;
      contact = contact;
      deadline = deadline_of moment timeout;
    } }
    ensures words { words.new ≡ record words.old { place = words.old.place + 1 } }
{
    Query {
        tx: words.next(),
        contact,
        deadline: moment.saturating_add(timeout as u64),
    }
}

/// Sends the ping; false where the link couldn't.
pub(crate) fn send_ping<L: Link>(link: &mut L, own: &Id, query: &Query) -> bool
    ensures sent { result ≡ true → Grows (L.told link.old) (L.told link.new)
        (λ es. es ≡ Sent query.now.contact.addr (form (ping own.now query.now.tx)) ∷ []) }
    ensures unsent { result ≡ false → Grows (L.told link.old) (L.told link.new)
        (λ es. es ≡ Unsent query.now.contact.addr (form (ping own.now query.now.tx)) ∷ []) }
    ensures moment { L.moment link.new ≡ L.moment link.old }
    ensures recv_faults { L.recv_faults link.new ≡ L.recv_faults link.old }
    ensures kept { L.kept link.new ≡ L.kept link.old }
{
    let mut buf = [0u8; PING];
    let len = ping_into(&mut buf, own, query.tx);
    match link.send(query.contact.addr, &buf[..len]) {
        Ok(()) => true,
        Err(_) => false,
    }
}
