//! Which datagrams are queries that are answered.
ghost use Rattle.std.specs.Prelude.{◌≡◌, MatchOption, IsNone};
ghost use Rattle.kad_krpc.specs.Records.{ip_bytes};
ghost use Rattle.kad_krpc.specs.Views.{message_seen};
ghost use Rattle.node_serve.specs.Queries.{IsNotAnswered, IsSilent};
ghost use Rattle.node_serve.specs.Asked.{IsAsked, IsOf};

use kad_base::limits::{MAX_ANSWERED_TX, MAX_DATAGRAM};
use kad_base::{Addr, Ip};
use kad_bencode::Piece;
use kad_krpc::{AskView, View, decode_view};

/// A query that is answered, in its datagram.
#[derive(Drop)]
pub struct Asked<'a> {
    pub from: Addr,
    /// The IPv4 address of `from`.
    pub ip: [u8; 4],
    pub tx: &'a [u8],
    pub read_only: bool,
    /// Its arguments as they stand, in which whoever asks may bring a proof. Nothing has been read from them but what it asks.
    pub arguments: Option<Piece<'a>>,
    pub ask: AskView<'a>,
}

/// The query of a view, where it is one with a transaction id that isn't too long.
fn query_in<'a>(from: Addr, ip: [u8; 4], view: View<'a>) -> Option<Asked<'a>>
    requires { ip_bytes from.ip ≡ ip }
    ensures { MatchOption result (IsNotAnswered (message_seen view.entry))
        (IsOf from (message_seen view.entry)) }
{
    match view {
        View::Query {
            tx,
            read_only,
            arguments,
            ask,
        } => {
            if tx.len() > MAX_ANSWERED_TX {
                return None;
            }
            Some(Asked {
                from,
                ip,
                tx,
                read_only,
                arguments,
                ask,
            })
        }
        View::Answer { .. } => None,
        View::Fault { .. } => None,
    }
}

/// The query that a datagram is, where it is answered: not one of more than 4,096 bytes, from port 0 or an IPv6 address,
/// nor with a transaction id of more than 32 bytes. Takes no memory.
#[inline(always)]
pub fn read_query<'a>(from: Addr, bytes: &'a [u8]) -> Option<Asked<'a>>
    ensures query { MatchOption result (IsSilent from bytes.now) (IsAsked from bytes.now) }
    ensures silent { IsSilent from bytes.now → IsNone result }
{
    if bytes.len() > MAX_DATAGRAM || from.port == 0 {
        return None;
    }
    match from.ip {
        Ip::V6(_) => None,
        Ip::V4(ip) => match decode_view(bytes) {
            Ok(view) => query_in(from, ip, view),
            Err(_) => None,
        },
    }
}
