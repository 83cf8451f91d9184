//! Addresses of the system's sockets and of this project, and back.
ghost use Rattle.std.specs.Prelude.{◌≡◌};
ghost use Rattle.std.specs.Net.Socket.{socket_ip, socket_port};
ghost use Rattle.udp_link.specs.Endpoint.{IsSameIp};

use kad_base::{Addr, Ip};
use std::net::{IpAddr, Ipv4Addr, Ipv6Addr, SocketAddr};

pub(crate) fn socket_addr(addr: Addr) -> SocketAddr
    ensures ip { IsSameIp (socket_ip result) addr.ip }
    ensures port { socket_port result ≡ addr.port }
{
    let ip = match addr.ip {
        Ip::V4(octets) => IpAddr::V4(Ipv4Addr::from_octets(octets)),
        Ip::V6(octets) => IpAddr::V6(Ipv6Addr::from_octets(octets)),
    };
    SocketAddr::new(ip, addr.port)
}

#[tactic(auto, using(crate::proofs::Segments::segments_of_octets_of))]
pub(crate) fn addr_of(socket: SocketAddr) -> Addr
    ensures ip { IsSameIp (socket_ip socket) result.ip }
    ensures port { result.port ≡ socket_port socket }
{
    let ip = match socket.ip() {
        IpAddr::V4(ip) => Ip::V4(ip.octets()),
        IpAddr::V6(ip) => Ip::V6(ip.octets()),
    };
    Addr {
        ip,
        port: socket.port(),
    }
}
