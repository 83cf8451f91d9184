//! Addresses as they are written, and the one that words name to bind.
use super::words_of;
use kad_base::{Addr, Ip};
use kad_text::read::read_addr;
use kad_words::{bind_of, takes_link};
use std::alloc::Global;
use std::test::Fail;

/// The address of zeros, and port 0, of both networks.
const FOUR: Addr = Addr {
    ip: Ip::V4([0, 0, 0, 0]),
    port: 0,
};

const SIX: Addr = Addr {
    ip: Ip::V6([0; 16]),
    port: 0,
};

/// 127.0.0.1:7000.
const LOCAL: Addr = Addr {
    ip: Ip::V4([127, 0, 0, 1]),
    port: 7000,
};

/// An address of all digits, at the last port.
const ALL: Addr = Addr {
    ip: Ip::V6([
        0x01, 0x23, 0x45, 0x67, 0x89, 0xab, 0xcd, 0xef, 0xfe, 0xdc, 0xba, 0x98, 0x76, 0x54, 0x32,
        0x10,
    ]),
    port: 65535,
};

/// A text, and the address that it is.
type Written = (&'static str, Addr);

/// Each of these texts is its address; the first that isn't is named.
fn all_are(rows: &[Written]) -> Result<(), Fail> {
    for (text, addr) in rows {
        if read_addr(text) != Some(*addr) {
            return Err(Fail::new(*text));
        }
    }
    Ok(())
}

const WRITTEN: &[Written] = &[
    (
        "127.0.0.1:0",
        Addr {
            ip: Ip::V4([127, 0, 0, 1]),
            port: 0,
        },
    ),
    (
        "255.255.255.255:65535",
        Addr {
            ip: Ip::V4([255, 255, 255, 255]),
            port: 65535,
        },
    ),
    ("[0000:0000:0000:0000:0000:0000:0000:0000]:0", SIX),
    (
        "[ff00:0000:0000:0000:0000:0000:0000:0001]:6001",
        Addr {
            ip: Ip::V6([255, 0, 0, 0, 0, 0, 0, 0, 0, 0, 0, 0, 0, 0, 0, 1]),
            port: 6001,
        },
    ),
    ("[0123:4567:89ab:cdef:fedc:ba98:7654:3210]:65535", ALL),
    ("[0123:4567:89AB:CDEF:FEDC:BA98:7654:3210]:65535", ALL),
    ("[0123:4567:89aB:CdEf:fEdC:Ba98:7654:3210]:65535", ALL),
];

#[test]
fn addresses_as_they_are_written(_rt: HostRuntime) -> Result<(), Fail> {
    all_are(WRITTEN)
}

/// None of these texts is an address; the first that is is named.
fn none_are(texts: &[&'static str]) -> Result<(), Fail> {
    for text in texts {
        if read_addr(text).is_some() {
            return Err(Fail::new(*text));
        }
    }
    Ok(())
}

const NO_ADDRESSES: &[&str] = &[
    "",
    "127.0.0.1",
    "127.0.0.1:",
    "127.0.0.1:65536",
    "127.0.0.1:00",
    "127.0.0:1",
    "256.0.0.1:1",
    "[127.0.0.1]:1",
    "[::1]:6001",
    "[::]:0",
    "[0:0:0:0:0:0:0:1]:6001",
    "[0000:0000:0000:0000:0000:0000:0000:001]:6001",
    "[0000:0000:0000:0000:0000:0000:0000:00001]:6001",
    "[00000:000:0000:0000:0000:0000:0000:0001]:6001",
    "[0000:0000:0000:0000:0000:0000:0001]:6001",
    "[0000:0000:0000:0000:0000:0000:0000:0000:0001]:6001",
    "[0000:0000:0000:0000:0000:0000:127.0.0.1]:6001",
    "[0000:0000:0000:0000:0000:0000:0000:000g]:6001",
    "[0000:0000:0000:0000:0000:0000:0000:0001]:65536",
    "[0000:0000:0000:0000:0000:0000:0000:0001]:06001",
    "[0000:0000:0000:0000:0000:0000:0000:0001]:",
    "[0000:0000:0000:0000:0000:0000:0000:0001]",
    "[0000:0000:0000:0000:0000:0000:0000:0001]6001",
    "[0000:0000:0000:0000:0000:0000:0000:0001%1]:6001",
    "[0000:0000:0000:0000:0000:0000:0000:0001]:6001 ",
    " [0000:0000:0000:0000:0000:0000:0000:0001]:6001",
    "[ 000:0000:0000:0000:0000:0000:0000:0001]:6001",
    "[+000:0000:0000:0000:0000:0000:0000:0001]:6001",
    "{0000:0000:0000:0000:0000:0000:0000:0001}:6001",
    "0000:0000:0000:0000:0000:0000:0000:0001:6001",
];

#[test]
fn texts_that_are_no_address(_rt: HostRuntime) -> Result<(), Fail> {
    none_are(NO_ADDRESSES)
}

/// A line, the address that it names to bind, and whether its command takes a link.
type Bound = (&'static str, Addr, bool);

fn binds(alloc: Global, row: &Bound) -> Result<bool, Fail> {
    let (line, addr, over_link) = row;
    let words = words_of(alloc, line)?;
    Ok(bind_of(words.as_slice()) == *addr && takes_link(words.as_slice()) == *over_link)
}

/// Each of these lines binds what stands beside it; the first that doesn't is named.
fn all_bind(alloc: Global, rows: &[Bound]) -> Result<(), Fail> {
    for row in rows {
        if !binds(alloc, row)? {
            return Err(Fail::new(row.0));
        }
    }
    Ok(())
}

const BOUND: &[Bound] = &[
    ("lookup --target ID --bind 127.0.0.1:7000", LOCAL, true),
    (
        "serve --bind 127.0.0.1:7000 --bind 127.0.0.1:1",
        LOCAL,
        true,
    ),
    ("find --bind 127.0.0.1:7000", LOCAL, false),
    (
        "peers --bind 127.0.0.1:07000 --bind 127.0.0.1:1",
        FOUR,
        true,
    ),
    ("check --k --bind 127.0.0.1:7000", FOUR, false),
    ("lookup --bind", FOUR, true),
    ("table --bind 127.0.0.1:7000", LOCAL, false),
    ("mint", FOUR, false),
    ("", FOUR, false),
    ("lookup --target ID --family 6", SIX, true),
    ("get --key ID --bind 127.0.0.1:7000", LOCAL, true),
    ("put --value 35 --family 6", SIX, true),
    ("node", FOUR, true),
    ("node --bind 127.0.0.1:7000 --k 3", LOCAL, true),
    ("nodes", FOUR, false),
    ("lookup --target ID --family 4", FOUR, true),
    ("peers --family 5 --family 6", FOUR, true),
    ("peers --family 6 --family 4", SIX, true),
    ("sim --family 6", SIX, false),
    ("lookup --k --family 6", FOUR, true),
    ("lookup --family 6 --bind [::1]:7000", SIX, true),
    ("lookup --family 6 --bind 127.0.0.1:7000", LOCAL, true),
    (
        "serve --bind [ff00:0000:0000:0000:0000:0000:0000:00Fe]:7000",
        Addr {
            ip: Ip::V6([255, 0, 0, 0, 0, 0, 0, 0, 0, 0, 0, 0, 0, 0, 0, 254]),
            port: 7000,
        },
        true,
    ),
];

#[test]
fn the_address_to_bind(rt: HostRuntime) -> Result<(), Fail> {
    all_bind(rt.alloc(), BOUND)
}
