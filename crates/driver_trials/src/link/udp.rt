//! What no clause says: datagrams cross between the link and another socket of this machine, a longer one is cut, a
//! receive to a moment that has passed takes what is there and doesn't wait, and what comes while the link sends isn't lost.
use kad_base::{Addr, Came, Ip, Link};
use std::net::{SocketAddr, UdpSocket};
use std::process::Abort;
use std::rt::{Clock, Net};
use std::time::Duration;
use udp_link::UdpLink;

fn local(port: u16) -> Addr {
    Addr {
        ip: Ip::V4([127, 0, 0, 1]),
        port,
    }
}

/// A socket of this machine to which a link sent a ping, its port, and where the ping came from.
#[derive(Drop)]
struct Peer {
    socket: UdpSocket,
    port: u16,
    from: SocketAddr,
}

/// The number of the first that is false, from 0.
fn first_false(held: &[bool]) -> Option<usize> {
    held.iter().position(|is| !*is)
}

/// Plays a trial over a socket and a link, once a ping has crossed: nothing that it says is false.
fn over<R, F>(rt: &R, trial: F)
where
    R: Abort + AllocGlobal + Clock + Net,
    F: FnOnce(&Peer, &mut UdpLink<R>) -> Option<usize>,
    requires { F.IsAlwaysCallable trial }
{
    let socket = UdpSocket::bind(rt, "127.0.0.1:0").expect(rt, "a socket");
    socket
        .set_read_timeout(Some(Duration::from_secs(10)))
        .expect(rt, "its timeout");
    let port = socket.local_addr().expect(rt, "its address").port();
    let mut link = UdpLink::bind(rt, local(0)).expect(rt, "a link");
    let mut buf = [0u8; 4097];
    assert_eq!(rt; link.send(local(port), b"ping"), Ok(()));
    let (len, from) = socket.recv_from(&mut buf).expect(rt, "a datagram");
    assert_eq!(rt; &buf[..len.min(4097)], b"ping".as_slice());
    let peer = Peer { socket, port, from };
    assert_eq!(rt; trial(&peer, &mut link), None);
}

/// Whether the socket sends these bytes to the link.
fn is_sent(peer: &Peer, bytes: &[u8]) -> bool {
    match peer.socket.send_to(bytes, peer.from) {
        Ok(len) => len == bytes.len(),
        Err(_) => false,
    }
}

/// Whether a datagram of 5,000 bytes is cut to the buffer.
fn is_cut(peer: &Peer, link: &mut UdpLink<HostRuntime>) -> bool {
    let mut buf = [0u8; 4097];
    if !is_sent(peer, &[7u8; 5000]) {
        return false;
    }
    match link.recv(&mut buf, 10_000) {
        Ok(Came::Packet { from, len, at: _ }) => {
            from == local(peer.port) && len == 4097 && buf[4096] == 7
        }
        _ => false,
    }
}

/// Whether nothing comes up to that moment.
fn is_quiet(link: &mut UdpLink<HostRuntime>, until: u64) -> bool {
    let mut buf = [0u8; 4097];
    match link.recv(&mut buf, until) {
        Ok(Came::Quiet { at: _ }) => true,
        _ => false,
    }
}

/// Whether 1,000 receives that wait for nothing take less than 1,000 ms.
fn waits_for_nothing(link: &mut UdpLink<HostRuntime>) -> bool {
    let began = link.now();
    for _ in 0..1_000 {
        if !is_quiet(link, 0) {
            return false;
        }
    }
    link.now().saturating_sub(began) < 1_000
}

/// Whether a receive to a moment that has passed takes what is there.
fn takes_what_is_there(peer: &Peer, link: &mut UdpLink<HostRuntime>) -> bool {
    let mut buf = [0u8; 4097];
    if !is_sent(peer, &[9u8; 3]) {
        return false;
    }
    match link.recv(&mut buf, 0) {
        Ok(Came::Packet { len, .. }) => len == 3,
        _ => false,
    }
}

/// Whether nothing comes in 20 ms.
fn is_quiet_a_while(link: &mut UdpLink<HostRuntime>) -> bool {
    let until = link.now().saturating_add(20);
    is_quiet(link, until)
}

fn cross(peer: &Peer, link: &mut UdpLink<HostRuntime>) -> Option<usize> {
    first_false(&[
        is_cut(peer, link),
        waits_for_nothing(link),
        takes_what_is_there(peer, link),
        is_quiet_a_while(link),
    ])
}

#[test]
fn datagrams_cross_the_loopback(rt: HostRuntime) {
    over(&rt, cross);
}

/// So many datagrams of this length are more than a socket has room for.
const ANSWERS: u32 = 320;

/// Whether the socket sends a datagram of a thousand bytes, which begins with its number.
fn answers(peer: &Peer, number: u32) -> bool {
    let mut bytes = [0u8; 1_000];
    bytes[..4].copy_from_slice(&number.to_be_bytes());
    is_sent(peer, &bytes)
}

/// Whether the link sends, and the socket each time this, so often.
fn are_sent(peer: &Peer, link: &mut UdpLink<HostRuntime>) -> bool {
    for count in 0..ANSWERS {
        if link.send(local(peer.port), b"ping") != Ok(()) || !answers(peer, count) {
            return false;
        }
    }
    true
}

/// The number that the next datagram begins with.
fn number(link: &mut UdpLink<HostRuntime>) -> Option<u32> {
    let mut buf = [0u8; 4097];
    match link.recv(&mut buf, 0) {
        Ok(Came::Packet { len: 1_000, .. }) => {
            Some(u32::from_be_bytes([buf[0], buf[1], buf[2], buf[3]]))
        }
        _ => None,
    }
}

/// Whether the numbers are received in order.
fn are_received(link: &mut UdpLink<HostRuntime>) -> bool {
    for count in 0..ANSWERS {
        if number(link) != Some(count) {
            return false;
        }
    }
    true
}

fn come_in_order(peer: &Peer, link: &mut UdpLink<HostRuntime>) -> Option<usize> {
    first_false(&[
        are_sent(peer, link),
        are_received(link),
        number(link).is_none(),
    ])
}

#[test]
fn what_comes_while_the_link_sends_is_received_in_its_order(rt: HostRuntime) {
    over(&rt, come_in_order);
}
