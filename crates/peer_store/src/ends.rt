//! The first and the last address in their order.
ghost use Rattle.std.specs.Prelude.{◌≡◌, false, replicate};
ghost use Rattle.std.specs.Ordering.{is_gt, is_lt, nat_cmp};
ghost use Rattle.std.specs.Cmp.Lexicographic.{slice_cmp};
ghost use Rattle.peer_store.specs.Between.{IsBetween};

use kad_base::{Addr, Ip};

/// The first address in their order.
pub(crate) const FIRST: Addr = Addr {
    ip: Ip::V4([0; 4]),
    port: 0,
};

/// The last address in their order.
pub(crate) const LAST: Addr = Addr {
    ip: Ip::V6([255; 16]),
    port: 65_535,
};

/// That every address is between them, which a search by key stands on. It does nothing.
pub(crate) fn is_between(peer: &Addr)
    ensures { IsBetween peer.now }
{
    let _port = peer.port;
    match peer.ip {
        Ip::V4(bytes) => none_before(&bytes),
        Ip::V6(bytes) => none_after(&bytes),
    }
}

/// That no four bytes come before four zeros.
fn none_before(bytes: &[u8; 4])
    ensures { is_gt (slice_cmp nat_cmp (replicate 4 0) bytes.now) ≡ false }
{}

/// That no sixteen bytes come after sixteen of 255.
fn none_after(bytes: &[u8; 16])
    ensures { is_lt (slice_cmp nat_cmp (replicate 16 255) bytes.now) ≡ false }
{
    let _first = bytes[0];
}
