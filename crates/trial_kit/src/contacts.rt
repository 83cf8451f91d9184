//! Contacts by their numbers: identifier n is nineteen zero bytes and n, and contact n has it at
//! 127.0.0.1 and port 6000 + n; in the network of IPv6 at fifteen zero bytes and n, and that port.
ghost use Rattle.kad_base.specs.declared.types.Family.TheVariants.{Six};
ghost use Rattle.kad_krpc.specs.Form.{IsNode, IsNodeOf, IsV4};

use kad_base::{Addr, Contact, Family, Id, Ip};

/// The identifier n.
pub fn number(n: u8) -> Id {
    let mut bytes = [0; 20];
    bytes[19] = n;
    Id(bytes)
}

/// The port of contact n.
pub fn port(n: u8) -> u16 {
    6000 + n as u16
}

/// 127.0.0.1 and this port.
pub fn local(port: u16) -> Addr
    ensures { IsV4 result.ip }
{
    Addr {
        ip: Ip::V4([127, 0, 0, 1]),
        port,
    }
}

/// Identifier n at 127.0.0.1 and this port.
pub fn at(n: u8, port: u16) -> Contact
    ensures { IsNode result }
{
    Contact {
        id: number(n),
        addr: local(port),
    }
}

/// The contact n.
pub fn contact(n: u8) -> Contact
    ensures { IsNode result }
{
    at(n, port(n))
}

/// Identifier n at the IPv6 address of fifteen zero bytes and n, and this port.
pub fn at6(n: u8, port: u16) -> Contact
    ensures { IsNodeOf Six result }
{
    let mut bytes = [0; 16];
    bytes[15] = n;
    Contact {
        id: number(n),
        addr: Addr {
            ip: Ip::V6(bytes),
            port,
        },
    }
}

/// The contact n of the network of IPv6.
pub fn contact6(n: u8) -> Contact
    ensures { IsNodeOf Six result }
{
    at6(n, port(n))
}

/// Identifier n in the network, at its address there and this port.
pub fn at_in(family: Family, n: u8, port: u16) -> Contact
    ensures { IsNodeOf family result }
{
    match family {
        Family::Four => at(n, port),
        Family::Six => at6(n, port),
    }
}
