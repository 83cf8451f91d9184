//! Values from outside: the examples of FIPS 180-4, the published key stream of ChaCha20 for a zero key, and a program
//! of another language that mints.
use crate::bits::digest;
use crate::{Minted, Sha1Check, Unminted, Words, mint};
use kad_base::{Addr, Check, Contact, Id, Ip, Policy, Proof, Report};

const FIRST_KEY: [u8; 32] = [
    0x76, 0xb8, 0xe0, 0xad, 0xa0, 0xf1, 0x3d, 0x90, 0x40, 0x5d, 0x6a, 0xe5, 0x53, 0x86, 0xbd, 0x28,
    0xbd, 0xd2, 0x19, 0xb8, 0xa0, 0x8d, 0xed, 0x1a, 0xa8, 0x36, 0xef, 0xcc, 0x8b, 0x77, 0x0d, 0xc7,
];

const FIRST_ID: [u8; 20] = [
    0xc2, 0x7d, 0x85, 0xce, 0xc2, 0xa3, 0x1b, 0x5c, 0x03, 0xe1, 0x3a, 0xf0, 0xdb, 0xac, 0x44, 0xb2,
    0x0e, 0x0a, 0x91, 0x12,
];

const KEY_202: [u8; 32] = [
    0xe2, 0xdb, 0xa9, 0xf1, 0x11, 0x0f, 0xc3, 0x92, 0xed, 0x89, 0x1d, 0x13, 0xde, 0x44, 0xf2, 0xe7,
    0xf2, 0xc8, 0x14, 0xd9, 0x91, 0xe6, 0xd6, 0x12, 0x52, 0x59, 0x6e, 0x9e, 0x37, 0x26, 0x40, 0xe6,
];

const ID_202: [u8; 20] = [
    0x9e, 0x1d, 0x43, 0x43, 0x7e, 0x2a, 0x90, 0x08, 0x93, 0xe5, 0x86, 0x27, 0x7c, 0xa7, 0xbb, 0xa1,
    0x1d, 0x2f, 0x80, 0xca,
];

fn minted(id: [u8; 20], key: [u8; 32], x: [u8; 2]) -> Minted {
    let mut bytes = [0; 20];
    bytes[18..].copy_from_slice(&x);
    Minted {
        id: Id(id),
        proof: Proof { key, x: bytes },
    }
}

#[test]
fn draws_and_hashes_as_published(rt: HostRuntime) {
    let abc = [
        0xa9, 0x99, 0x3e, 0x36, 0x47, 0x06, 0x81, 0x6a, 0xba, 0x3e, 0x25, 0x71, 0x78, 0x50, 0xc2,
        0x6c, 0x9c, 0xd0, 0xd8, 0x9d,
    ];
    assert_eq!(rt; digest(b"abc"), abc);
    for (at, first, second) in [
        (0, 0xade0_b876, 0x903d_f1a0),
        (5, 0x1aed_8da0, 0xccef_36a8),
        (15, 0x8665_eeb2, 0xbee7_079f),
    ] {
        let mut words = Words::new(&[0; 32], at);
        assert_eq!(rt; words.next(), first, "at {at}");
        assert_eq!(rt; words.next(), second, "after {at}");
    }
}

#[test]
fn mints_and_passes(rt: HostRuntime) {
    for (c1, c2, tries, want) in [
        (0, 0, 1, Ok(minted(FIRST_ID, FIRST_KEY, [0, 0]))),
        (8, 8, 203, Ok(minted(ID_202, KEY_202, [0, 0]))),
        (8, 8, 202, Err(Unminted::Keys)),
        (0, 12, 4332, Ok(minted(FIRST_ID, FIRST_KEY, [0x10, 0xeb]))),
        (0, 12, 4331, Err(Unminted::Values)),
    ] {
        assert_eq!(rt; mint(&[0; 32], c1, c2, tries), want, "{c1} {c2} {tries}");
    }
    let proof = minted(FIRST_ID, FIRST_KEY, [0x10, 0xeb]).proof;
    let mut other = proof;
    other.key[0] ^= 1;
    for (policy, proof, want) in [
        (Policy::Puzzled { c1: 1, c2: 14 }, Some(proof), true),
        (Policy::Puzzled { c1: 2, c2: 14 }, Some(proof), false),
        (Policy::Puzzled { c1: 1, c2: 15 }, Some(proof), false),
        (Policy::Puzzled { c1: 0, c2: 0 }, Some(other), false),
        (Policy::Puzzled { c1: 0, c2: 0 }, None, false),
        (Policy::Plain, None, true),
    ] {
        let addr = Addr {
            ip: Ip::V4([127, 0, 0, 1]),
            port: 6001,
        };
        let contact = Contact {
            id: Id(FIRST_ID),
            addr,
        };
        let report = Report { contact, proof };
        assert_eq!(rt;
            Sha1Check.check(policy, &report),
            want,
            "{policy:?} {report:?}"
        );
    }
}
