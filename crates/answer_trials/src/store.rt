//! Peers at both ends of their times and of their number, with ample memory, and tokens by another program's ChaCha20
//! and SHA-1.
use crate::replies::first_false;
use kad_base::{Addr, Ip, Serial};
use node_tokens::Tokens;
use peer_store::{PeerCall, PeerFault, PeerReply, Peers, Stored};
use std::process::Abort;
use trial_kit::number;

const HALF_AN_HOUR: u64 = 1_800_000;

/// 127.0.0.n with port 6881.
fn peer(n: u8) -> Addr {
    Addr {
        ip: Ip::V4([127, 0, 0, n]),
        port: 6881,
    }
}

/// 10.0.0.0 with this port.
fn at_port(port: u16) -> Addr {
    Addr {
        ip: Ip::V4([10, 0, 0, 0]),
        port,
    }
}

/// What may go to another thread.
fn sent<T: Send>(value: T) -> T {
    value
}

/// Plays a trial over a store of no peers: nothing that it says is false.
fn over<R: AllocGlobal + Abort, F: FnOnce(&mut Peers) -> Option<usize>>(rt: &R, trial: F)
    requires { F.IsAlwaysCallable trial }
{
    let mut peers = sent(Peers::new(rt.alloc()));
    assert_eq!(rt; trial(&mut peers), None);
}

/// Whether the peer is new under key 1 at the moment.
fn is_new(peers: &mut Peers, peer: Addr, at: u64) -> bool {
    peers.add(number(1), peer, at) == Ok(Stored::New)
}

/// Whether it is renewed then.
fn is_renewed(peers: &mut Peers, peer: Addr, at: u64) -> bool {
    peers.add(number(1), peer, at) == Ok(Stored::Renewed)
}

/// Whether no more can be held under a key.
fn is_full(peers: &mut Peers, key: u8, peer: Addr) -> bool {
    peers.add(number(key), peer, 0) == Err(PeerFault::Full)
}

/// Whether a key's peers at the moment are these.
fn are(peers: &Peers, key: u8, at: u64, wanted: &[Addr]) -> bool {
    match peers.list(number(key), at) {
        Ok(list) => list.as_slice() == wanted,
        Err(_) => false,
    }
}

/// Whether a key has so many peers at the moment, the first and the last of 10.0.0.0 with these ports.
fn are_from(peers: &Peers, at: u64, count: usize, first: u16, last: u16) -> bool {
    match peers.list(number(1), at) {
        Ok(list) => {
            list.len() == count
                && list.as_slice().first() == Some(&at_port(first))
                && list.as_slice().last() == Some(&at_port(last))
        }
        Err(_) => false,
    }
}

/// Whether so many peers of key 1 are listed at the moment.
fn has(peers: &Peers, at: u64, count: usize) -> bool {
    match peers.list(number(1), at) {
        Ok(list) => list.len() == count,
        Err(_) => false,
    }
}

/// Whether so many are, of any moment, after a purge at this one.
fn leaves(peers: &mut Peers, purged: u64, count: usize) -> bool {
    peers.purge(purged);
    has(peers, 0, count)
}

fn lasts(peers: &mut Peers) -> Option<usize> {
    first_false(&[
        is_new(peers, peer(1), 0),
        is_renewed(peers, peer(1), 5),
        are(peers, 1, 1_800_004, &[peer(1)]),
        are(peers, 1, 1_800_005, &[]),
        are(peers, 2, 5, &[]),
    ])
}

#[test]
fn a_peer_is_listed_for_half_an_hour_after_its_last_add(rt: HostRuntime) {
    over(&rt, lasts)
}

fn counts_earlier(peers: &mut Peers) -> Option<usize> {
    first_false(&[
        is_new(peers, peer(1), 10),
        is_renewed(peers, peer(1), 0),
        has(peers, HALF_AN_HOUR, 0),
    ])
}

#[test]
fn an_earlier_add_counts_too(rt: HostRuntime) {
    over(&rt, counts_earlier)
}

fn drops_old(peers: &mut Peers) -> Option<usize> {
    first_false(&[
        is_new(peers, peer(1), 0),
        is_new(peers, peer(2), 1),
        leaves(peers, HALF_AN_HOUR - 1, 2),
        leaves(peers, HALF_AN_HOUR, 1),
        are(peers, 1, 0, &[peer(2)]),
    ])
}

#[test]
fn a_purge_drops_what_is_half_an_hour_old(rt: HostRuntime) {
    over(&rt, drops_old)
}

fn keeps_later(peers: &mut Peers) -> Option<usize> {
    first_false(&[
        is_new(peers, peer(1), u64::MAX),
        leaves(peers, 0, 1),
        has(peers, u64::MAX, 1),
    ])
}

#[test]
fn an_add_after_the_moment_is_fresh(rt: HostRuntime) {
    over(&rt, keeps_later)
}

fn lists_in_order(peers: &mut Peers) -> Option<usize> {
    let sixth = Addr {
        ip: Ip::V6([0; 16]),
        port: 0,
    };
    first_false(&[
        is_new(peers, sixth, 0),
        is_new(peers, peer(2), 0),
        is_new(peers, at_port(256), 0),
        is_new(peers, peer(1), 0),
        is_new(peers, at_port(255), 0),
        are(
            peers,
            1,
            0,
            &[at_port(255), at_port(256), peer(1), peer(2), sixth],
        ),
    ])
}

#[test]
fn peers_are_listed_in_the_order_of_addresses(rt: HostRuntime) {
    over(&rt, lists_in_order)
}

/// Adds the peers 10.0.0.0 with the ports 1 to n under one key, the last one first.
fn add_ports(peers: &mut Peers, n: u16) -> Result<(), PeerFault> {
    for i in 0..n {
        peers.add(number(1), at_port(n - i), 0)?;
    }
    Ok(())
}

fn lists_49(peers: &mut Peers) -> Option<usize> {
    first_false(&[add_ports(peers, 49).is_ok(), are_from(peers, 0, 49, 1, 49)])
}

fn lists_50_of_50(peers: &mut Peers) -> Option<usize> {
    first_false(&[add_ports(peers, 50).is_ok(), are_from(peers, 0, 50, 1, 50)])
}

fn lists_50_of_51(peers: &mut Peers) -> Option<usize> {
    first_false(&[add_ports(peers, 51).is_ok(), are_from(peers, 0, 50, 1, 50)])
}

fn lists_50_of_60(peers: &mut Peers) -> Option<usize> {
    first_false(&[add_ports(peers, 60).is_ok(), are_from(peers, 0, 50, 1, 50)])
}

#[test]
fn the_first_50_peers_are_listed(rt: HostRuntime) {
    over(&rt, lists_49);
    over(&rt, lists_50_of_50);
    over(&rt, lists_50_of_51);
    over(&rt, lists_50_of_60)
}

/// Adds the peers 10.0.0.0 with the ports from one to another under key 1 at the moment.
fn renew_ports(peers: &mut Peers, from: u16, to: u16, at: u64) -> Result<(), PeerFault> {
    for port in from..=to {
        peers.add(number(1), at_port(port), at)?;
    }
    Ok(())
}

fn lists_fresh_ones(peers: &mut Peers) -> Option<usize> {
    first_false(&[
        add_ports(peers, 60).is_ok(),
        renew_ports(peers, 11, 60, 1).is_ok(),
        are_from(peers, HALF_AN_HOUR, 50, 11, 60),
    ])
}

#[test]
fn old_peers_take_no_place_in_a_list(rt: HostRuntime) {
    over(&rt, lists_fresh_ones)
}

fn lists_one_fresh(peers: &mut Peers) -> Option<usize> {
    first_false(&[
        add_ports(peers, 60).is_ok(),
        peers.add(number(1), peer(1), 1).is_ok(),
        peers.add(number(2), peer(2), 2).is_ok(),
        are(peers, 1, HALF_AN_HOUR, &[peer(1)]),
        are(peers, 1, HALF_AN_HOUR + 1, &[]),
        are(peers, 2, HALF_AN_HOUR + 1, &[peer(2)]),
        are(peers, 2, HALF_AN_HOUR + 2, &[]),
    ])
}

#[test]
fn a_fresh_peer_behind_old_ones_is_listed(rt: HostRuntime) {
    over(&rt, lists_one_fresh)
}

/// Adds the peers 10.0.0.0 with the ports from 1 to 20 under key 1, each a millisecond before the one that precedes it.
fn add_falling(peers: &mut Peers) -> Result<(), PeerFault> {
    for port in 1..21 {
        peers.add(number(1), at_port(port), 1_000 - u64::from(port))?;
    }
    Ok(())
}

fn takes_falling_moments(peers: &mut Peers) -> Option<usize> {
    first_false(&[
        add_ports(peers, 20).is_ok(),
        add_falling(peers).is_ok(),
        peers.add(number(1), at_port(5), 10).is_ok(),
        leaves(peers, HALF_AN_HOUR + 9, 20),
        leaves(peers, HALF_AN_HOUR + 10, 19),
        leaves(peers, HALF_AN_HOUR + 981, 17),
        leaves(peers, HALF_AN_HOUR + 980, 17),
    ])
}

#[test]
fn moments_may_fall(rt: HostRuntime) {
    over(&rt, takes_falling_moments)
}

/// Adds 65,536 pairs: each port of 10.0.0.0 under one key.
fn fill(peers: &mut Peers) -> Result<(), PeerFault> {
    for port in 0..=u16::MAX {
        peers.add(number(1), at_port(port), 0)?;
    }
    Ok(())
}

fn fills_up(peers: &mut Peers) -> Option<usize> {
    first_false(&[
        fill(peers).is_ok(),
        is_full(peers, 1, peer(1)),
        is_full(peers, 2, at_port(0)),
        is_renewed(peers, at_port(7), 1),
        leaves(peers, HALF_AN_HOUR, 1),
        are(peers, 1, 0, &[at_port(7)]),
        is_new(peers, peer(1), HALF_AN_HOUR),
    ])
}

#[test]
fn as_many_pairs_as_may_be(rt: HostRuntime) {
    over(&rt, fills_up)
}

/// Whether the call of the peers that adds one more at the moment is replied to so.
fn is_put(peers: &mut Peers, peer: Addr, at: u64, reply: PeerReply) -> bool {
    let key = number(1);
    peers.apply(0, PeerCall::Put { key, peer, at }) == reply
}

/// Whether it is stored so then.
fn is_stored(peers: &mut Peers, at: u64, stored: Stored) -> bool {
    is_put(peers, peer(1), at, PeerReply::Stored { stored })
}

fn replies_to_calls(peers: &mut Peers) -> Option<usize> {
    first_false(&[
        is_stored(peers, 0, Stored::New),
        is_stored(peers, 1, Stored::Renewed),
        is_stored(peers, HALF_AN_HOUR + 1, Stored::New),
    ])
}

#[test]
fn calls_are_replied_to(rt: HostRuntime) {
    over(&rt, replies_to_calls)
}

/// Whether a call lists so many peers of a key.
fn lists(peers: &mut Peers, n: u8, count: usize) -> bool {
    match peers.apply(
        0,
        PeerCall::List {
            key: number(n),
            at: 0,
            first: [0; 4],
        },
    ) {
        PeerReply::Listed { list } => list.len() == count,
        _ => false,
    }
}

fn refuses_when_full(peers: &mut Peers) -> Option<usize> {
    first_false(&[
        fill(peers).is_ok(),
        is_put(peers, peer(1), 0, PeerReply::Full),
        lists(peers, 1, 50),
        lists(peers, 2, 0),
    ])
}

#[test]
fn a_call_for_a_full_store_is_refused(rt: HostRuntime) {
    over(&rt, refuses_when_full)
}

/// Plays a trial over a store of no peers that holds at most two pairs of one host.
fn over_two_of_a_host<R: AllocGlobal + Abort, F: FnOnce(&mut Peers) -> Option<usize>>(
    rt: &R,
    trial: F,
)
    requires { F.IsAlwaysCallable trial }
{
    let mut peers = Peers::limited(rt.alloc(), 2);
    assert_eq!(rt; trial(&mut peers), None);
}

/// Whether the peer's host is crowded under a key at the moment.
fn is_crowded(peers: &mut Peers, key: u8, peer: Addr, at: u64) -> bool {
    peers.add(number(key), peer, at) == Err(PeerFault::Crowded)
}

fn counts_hosts(peers: &mut Peers) -> Option<usize> {
    first_false(&[
        is_new(peers, at_port(1), 0),
        is_new(peers, at_port(2), 1),
        is_crowded(peers, 1, at_port(3), 1),
        is_crowded(peers, 2, at_port(1), 1),
        is_renewed(peers, at_port(2), 2),
        is_new(peers, peer(1), 2),
        is_put(peers, at_port(3), 2, PeerReply::Crowded),
        // What was purged counts no more.
        leaves(peers, HALF_AN_HOUR, 2),
        is_new(peers, at_port(3), HALF_AN_HOUR),
        is_crowded(peers, 1, at_port(1), HALF_AN_HOUR),
    ])
}

#[test]
fn at_most_two_pairs_of_a_host(rt: HostRuntime) {
    over_two_of_a_host(&rt, counts_hosts)
}

/// The address of this number in the subnet 2001:db8:0:net of IPv6, with port 6881.
fn in_subnet(net: u8, n: u8) -> Addr {
    Addr {
        ip: Ip::V6([0x20, 0x01, 0x0d, 0xb8, 0, 0, 0, net, 0, 0, 0, 0, 0, 0, 0, n]),
        port: 6881,
    }
}

fn counts_subnets(peers: &mut Peers) -> Option<usize> {
    first_false(&[
        is_new(peers, in_subnet(1, 1), 0),
        is_new(peers, in_subnet(1, 2), 0),
        is_crowded(peers, 1, in_subnet(1, 3), 0),
        is_new(peers, in_subnet(2, 3), 0),
    ])
}

#[test]
fn at_most_two_pairs_of_a_subnet(rt: HostRuntime) {
    over_two_of_a_host(&rt, counts_subnets)
}

/// 10.0.0.n with port 6881.
fn next_door(n: u8) -> Addr {
    Addr {
        ip: Ip::V4([10, 0, 0, n]),
        port: 6881,
    }
}

/// Adds those of the numbers 100 to 199 under key 1.
fn add_hundred(peers: &mut Peers) -> Result<(), PeerFault> {
    for n in 100..200 {
        peers.add(number(1), next_door(n), 0)?;
    }
    Ok(())
}

/// Whether these are 50 of them, that of this number first, and each the next after the one before it; after 199 comes 100.
fn go_round(list: &[Addr], first: u8) -> bool {
    let mut n = first;
    for peer in list {
        if *peer != next_door(n) {
            return false;
        }
        n = if n == 199 { 100 } else { n.wrapping_add(1) };
    }
    list.len() == 50
}

/// Whether a call that gives this point lists them from that of a number on.
fn lists_from(peers: &mut Peers, first: [u8; 4], n: u8) -> bool {
    match peers.apply(
        0,
        PeerCall::List {
            key: number(1),
            at: 0,
            first,
        },
    ) {
        PeerReply::Listed { list } => go_round(list.as_slice(), n),
        _ => false,
    }
}

/// The points of 127.0.0.1 and 127.0.0.2 for key 1 in the first epoch.
const NEAR_POINT: [u8; 4] = [219, 165, 183, 209];

const NEXT_POINT: [u8; 4] = [198, 13, 157, 255];

fn lists_by_points(peers: &mut Peers) -> Option<usize> {
    first_false(&[
        add_hundred(peers).is_ok(),
        lists_from(peers, NEAR_POINT, 101),
        lists_from(peers, NEXT_POINT, 183),
        lists_from(peers, [0; 4], 100),
        lists_from(peers, [0, 0, 0, 99], 199),
        lists_from(peers, [0, 0, 0, 100], 100),
        lists_from(peers, [255; 4], 195),
    ])
}

#[test]
fn a_list_begins_at_the_point_of_who_asks_and_goes_round(rt: HostRuntime) {
    over_two_of_a_host(&rt, lists_by_points)
}

fn lists_by_no_points(peers: &mut Peers) -> Option<usize> {
    first_false(&[
        add_hundred(peers).is_ok(),
        lists_from(peers, NEAR_POINT, 100),
        lists_from(peers, NEXT_POINT, 100),
    ])
}

#[test]
fn without_a_limit_a_list_begins_at_the_lowest_address(rt: HostRuntime) {
    over(&rt, lists_by_no_points)
}

/// The bytes 0 to 31.
fn seed() -> [u8; 32] {
    let mut seed = [0; 32];
    for i in 0..32u8 {
        seed[i as usize] = i;
    }
    seed
}

const NEAR: [u8; 4] = [127, 0, 0, 1];

/// The tokens of 127.0.0.1, by the moment.
const TOKENS: [(u64, [u8; 8]); 5] = [
    (0, [224, 18, 105, 232, 210, 107, 129, 126]),
    (299_999, [224, 18, 105, 232, 210, 107, 129, 126]),
    (300_000, [73, 127, 223, 109, 63, 37, 29, 201]),
    (600_000, [151, 246, 140, 249, 68, 180, 31, 254]),
    (u64::MAX, [57, 221, 249, 29, 59, 108, 85, 124]),
];

/// Whether the token of an address at a moment is this, and is taken.
fn makes(tokens: &Tokens, from: [u8; 4], at: u64, token: &[u8; 8]) -> bool {
    tokens.make(from, at) == *token && tokens.accepts(from, at, token)
}

/// Whether each token of 127.0.0.1 is made and taken at its moment.
fn makes_all(tokens: &Tokens) -> bool {
    for (at, token) in &TOKENS {
        if !makes(tokens, NEAR, *at, token) {
            return false;
        }
    }
    true
}

#[test]
fn tokens_are_as_another_program_makes_them(rt: HostRuntime) {
    let tokens = Tokens::new(&seed(), 0);
    let other = [15, 197, 79, 164, 210, 200, 79, 22];
    assert!(&rt; makes_all(&tokens));
    assert!(&rt; makes(&tokens, [127, 0, 0, 2], 0, &other));
}

/// Whether that is so whatever secrets are kept.
fn makes_all_after(tokens: &mut Tokens, kept: u64) -> bool {
    tokens.renew(kept);
    makes_all(tokens)
}

#[test]
fn tokens_are_the_same_whichever_secrets_are_kept(rt: HostRuntime) {
    let mut tokens = Tokens::new(&seed(), 0);
    for kept in [300_000, 300_001, 0, 600_000, u64::MAX] {
        assert!(&rt; makes_all_after(&mut tokens, kept), "{kept}");
    }
}

/// Whether the point of an address for a key at a moment is this.
fn draws(tokens: &Tokens, from: [u8; 4], at: u64, key: u8, point: [u8; 4]) -> bool {
    tokens.point(from, at, &number(key)) == point
}

fn draw_points(tokens: &Tokens) -> Option<usize> {
    first_false(&[
        draws(tokens, NEAR, 0, 1, NEAR_POINT),
        draws(tokens, NEAR, 299_999, 1, NEAR_POINT),
        draws(tokens, NEAR, 300_000, 1, [72, 49, 126, 1]),
        draws(tokens, NEAR, 0, 2, [14, 58, 61, 50]),
        draws(tokens, [127, 0, 0, 2], 0, 1, NEXT_POINT),
    ])
}

#[test]
fn points_are_as_another_program_draws_them(rt: HostRuntime) {
    let tokens = Tokens::limited(&seed(), 0, 1);
    assert_eq!(&rt; draw_points(&tokens), None);
}

#[test]
fn without_a_limit_no_point_is_drawn(rt: HostRuntime) {
    let tokens = Tokens::new(&seed(), 0);
    assert!(&rt; draws(&tokens, NEAR, 0, 1, [0; 4]));
}

/// Whether the token of one moment is taken at another.
fn is_taken(tokens: &Tokens, made: u64, at: u64) -> bool {
    let token = tokens.make(NEAR, made);
    tokens.accepts(NEAR, at, &token)
}

fn are_taken_in_time(tokens: &Tokens) -> Option<usize> {
    first_false(&[
        is_taken(tokens, 299_999, 0),
        is_taken(tokens, 299_999, 599_999),
        !is_taken(tokens, 299_999, 600_000),
        !is_taken(tokens, 300_000, 299_999),
        is_taken(tokens, 300_000, 899_999),
        is_taken(tokens, u64::MAX, u64::MAX),
    ])
}

#[test]
fn a_token_is_taken_for_its_epoch_and_the_next(rt: HostRuntime) {
    let tokens = Tokens::new(&seed(), 0);
    assert_eq!(&rt; are_taken_in_time(&tokens), None);
}

fn are_taken_whole(tokens: &Tokens) -> Option<usize> {
    let token = tokens.make(NEAR, 0);
    first_false(&[
        tokens.accepts(NEAR, 1_000_000, &token),
        !tokens.accepts([127, 0, 0, 2], 1_000_000, &token),
        !tokens.accepts(NEAR, 0, &token[..7]),
        !tokens.accepts(NEAR, 0, &[]),
        !tokens.accepts(NEAR, 0, &[224, 18, 105, 232, 210, 107, 129, 126, 0]),
    ])
}

#[test]
fn a_token_is_taken_from_its_address_alone_and_whole(rt: HostRuntime) {
    let tokens = Tokens::new(&seed(), 1_000_000);
    assert_eq!(&rt; are_taken_whole(&tokens), None);
}
