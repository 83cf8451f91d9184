//! How numbers, identifiers, addresses and contacts are printed, after what was printed before.
ghost use Rattle.std.specs.Prelude.{◌≡◌, ◌++◌, ◌∷◌, [], OnOk, decimal, length};
ghost use Rattle.hex.specs.Hex.{encode_lower, IsBytes};
ghost use Rattle.kad_base.specs.declared.types.Ip.TheVariants.{V4, V6};
ghost use Rattle.kad_text.specs.Text.{FitsAddr, FitsContact, FitsId, FitsIp, addr_text, contact_text, ip_text};

use itoa::Buffer;
use kad_base::{Addr, Bytes, Contact, Id, Ip, NoMemory};

/// A number in decimal digits, without leading zeros.
pub fn put_number(output: &mut Bytes, number: u16) -> Result<(), NoMemory>
    ensures { OnOk result (output.new ≡ output.old ++ decimal number) }
{
    let mut buffer = Buffer::new();
    output.extend(buffer.format(number).as_bytes())
}

/// Twenty bytes in 40 lower-case hex digits.
fn put_digits(output: &mut Bytes, bytes: [u8; 20]) -> Result<(), NoMemory>
    ensures long { OnOk result (length bytes ≡ 20) }
    ensures fit { OnOk result (IsBytes bytes) }
    ensures text { OnOk result (output.new ≡ output.old ++ encode_lower bytes) }
{
    let mut digits = [0; 40];
    match hex::encode_to_slice(bytes, &mut digits) {
        Ok(()) => output.extend(&digits),
        Err(_) => unreachable!(),
    }
}

/// An identifier in 40 lower-case hex digits.
pub fn put_id(output: &mut Bytes, id: &Id) -> Result<(), NoMemory>
    ensures fits { OnOk result (FitsId id.now) }
    ensures text { OnOk result (output.new ≡ output.old ++ encode_lower id.now.0) }
{
    put_digits(output, id.0)
}

/// Two bytes as four hex digits, after a byte.
fn put_group(output: &mut Bytes, lead: u8, group: [u8; 2]) -> Result<(), NoMemory>
    ensures { OnOk result (output.new ≡ output.old ++ ((lead ∷ []) ++ encode_lower group)) }
{
    let mut digits = [0; 4];
    output.push(lead)?;
    match hex::encode_to_slice(group, &mut digits) {
        Ok(()) => output.extend(&digits),
        Err(_) => unreachable!(),
    }
}

/// An address of IPv4 in dotted decimal.
#[tactic(auto, using(crate::proofs::Printing::seven))]
fn put_v4(output: &mut Bytes, ip: [u8; 4]) -> Result<(), NoMemory>
    ensures fits { OnOk result (FitsIp (V4 ip)) }
    ensures text { OnOk result (output.new ≡ output.old ++ ip_text (V4 ip)) }
{
    put_number(output, u16::from(ip[0]))?;
    output.push(b'.')?;
    put_number(output, u16::from(ip[1]))?;
    output.push(b'.')?;
    put_number(output, u16::from(ip[2]))?;
    output.push(b'.')?;
    put_number(output, u16::from(ip[3]))
}

/// An address of IPv6 as eight groups of four hex digits, in brackets.
fn put_v6(output: &mut Bytes, ip: [u8; 16]) -> Result<(), NoMemory>
    ensures fits { OnOk result (FitsIp (V6 ip)) }
    ensures text { OnOk result (output.new ≡ output.old ++ ip_text (V6 ip)) }
{
    let mut lead = b'[';
    for i in 0..8 {
        put_group(output, lead, [ip[2 * i], ip[2 * i + 1]])?;
        lead = b':';
    }
    output.push(b']')
}

/// An IP address.
fn put_ip(output: &mut Bytes, ip: &Ip) -> Result<(), NoMemory>
    ensures fits { OnOk result (FitsIp ip.now) }
    ensures text { OnOk result (output.new ≡ output.old ++ ip_text ip.now) }
{
    match *ip {
        Ip::V4(bytes) => put_v4(output, bytes),
        Ip::V6(bytes) => put_v6(output, bytes),
    }
}

/// An address and its port.
pub fn put_addr(output: &mut Bytes, addr: &Addr) -> Result<(), NoMemory>
    ensures fits { OnOk result (FitsAddr addr.now) }
    ensures text { OnOk result (output.new ≡ output.old ++ addr_text addr.now) }
{
    put_ip(output, &addr.ip)?;
    output.push(b':')?;
    put_number(output, addr.port)
}

/// A contact: its identifier, a space, and its address.
pub fn put_contact(output: &mut Bytes, contact: &Contact) -> Result<(), NoMemory>
    ensures fits { OnOk result (FitsContact contact.now) }
    ensures text { OnOk result (output.new ≡ output.old ++ contact_text contact.now) }
{
    put_id(output, &contact.id)?;
    output.push(b' ')?;
    put_addr(output, &contact.addr)
}
