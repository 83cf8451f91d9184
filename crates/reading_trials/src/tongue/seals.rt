//! The seven cases of RFC 2202 for HMAC-SHA-1, and values of Python's `hmac`.
use kad_base::Id;
use seal_tags::{GroupSeal, Seal, SealCheck, hmac_sha1};
use std::process::Abort;

/// A key, a text and its digest.
type Row = (&'static [u8], &'static [u8], [u8; 20]);

fn digests(rt: &impl Abort, rows: &[Row]) {
    for (key, text, digest) in rows {
        assert_eq!(rt; hmac_sha1(key, text), *digest);
    }
}

const CASES: &[Row] = &[
    (
        &[0x0b; 20],
        b"Hi There",
        [
            0xb6, 0x17, 0x31, 0x86, 0x55, 0x05, 0x72, 0x64, 0xe2, 0x8b, 0xc0, 0xb6, 0xfb, 0x37,
            0x8c, 0x8e, 0xf1, 0x46, 0xbe, 0x00,
        ],
    ),
    (
        b"Jefe",
        b"what do ya want for nothing?",
        [
            0xef, 0xfc, 0xdf, 0x6a, 0xe5, 0xeb, 0x2f, 0xa2, 0xd2, 0x74, 0x16, 0xd5, 0xf1, 0x84,
            0xdf, 0x9c, 0x25, 0x9a, 0x7c, 0x79,
        ],
    ),
    (
        &[0xaa; 20],
        &[0xdd; 50],
        [
            0x12, 0x5d, 0x73, 0x42, 0xb9, 0xac, 0x11, 0xcd, 0x91, 0xa3, 0x9a, 0xf4, 0x8a, 0xa1,
            0x7b, 0x4f, 0x63, 0xf1, 0x75, 0xd3,
        ],
    ),
    (
        b"\x01\x02\x03\x04\x05\x06\x07\x08\x09\x0a\x0b\x0c\x0d\x0e\x0f\x10\x11\x12\x13\x14\x15\x16\x17\x18\x19",
        &[0xcd; 50],
        [
            0x4c, 0x90, 0x07, 0xf4, 0x02, 0x62, 0x50, 0xc6, 0xbc, 0x84, 0x14, 0xf9, 0xbf, 0x50,
            0xc8, 0x6c, 0x2d, 0x72, 0x35, 0xda,
        ],
    ),
    (
        &[0x0c; 20],
        b"Test With Truncation",
        [
            0x4c, 0x1a, 0x03, 0x42, 0x4b, 0x55, 0xe0, 0x7f, 0xe7, 0xf2, 0x7b, 0xe1, 0xd5, 0x8b,
            0xb9, 0x32, 0x4a, 0x9a, 0x5a, 0x04,
        ],
    ),
];

#[test]
fn as_rfc_2202_has_it(rt: HostRuntime) {
    digests(&rt, CASES);
}

const LONGER_KEYS: &[Row] = &[
    (
        &[0xaa; 80],
        b"Test Using Larger Than Block-Size Key - Hash Key First",
        [
            0xaa, 0x4a, 0xe5, 0xe1, 0x52, 0x72, 0xd0, 0x0e, 0x95, 0x70, 0x56, 0x37, 0xce, 0x8a,
            0x3b, 0x55, 0xed, 0x40, 0x21, 0x12,
        ],
    ),
    (
        &[0xaa; 80],
        b"Test Using Larger Than Block-Size Key and Larger Than One Block-Size Data",
        [
            0xe8, 0xe9, 0x9d, 0x0f, 0x45, 0x23, 0x7d, 0x78, 0x6d, 0x6b, 0xba, 0xa7, 0x96, 0x5c,
            0x78, 0x08, 0xbb, 0xff, 0x1a, 0x91,
        ],
    ),
];

#[test]
fn longer_keys_as_rfc_2202_has_them(rt: HostRuntime) {
    digests(&rt, LONGER_KEYS);
}

const ABOUT_A_BLOCK: &[Row] = &[
    (
        &[1; 64],
        b"abc",
        [
            0x86, 0x67, 0xad, 0xb9, 0x4b, 0x70, 0x04, 0x0f, 0x6c, 0x68, 0x69, 0x96, 0x9a, 0xee,
            0x3d, 0x7c, 0x40, 0x08, 0x35, 0xdd,
        ],
    ),
    (
        &[1; 65],
        b"abc",
        [
            0x1f, 0x97, 0xcf, 0x31, 0x85, 0x0b, 0xd6, 0x79, 0x88, 0x4b, 0x65, 0x2b, 0x2b, 0xcd,
            0x27, 0x32, 0x4e, 0x4e, 0x9c, 0xbd,
        ],
    ),
];

#[test]
fn keys_about_a_block_long(rt: HostRuntime) {
    digests(&rt, ABOUT_A_BLOCK);
}

/// The identifier of nineteen zero bytes and n.
fn id(n: u8) -> Id {
    let mut bytes = [0; 20];
    bytes[19] = n;
    Id(bytes)
}

/// The seal of the key of the bytes 0 to 31.
fn seal() -> GroupSeal {
    let mut key = [0; 32];
    for i in 0..32u8 {
        key[i as usize] = i;
    }
    GroupSeal::new(key)
}

/// What threads may share.
fn shared<T: Sync>(thing: &T) -> &T {
    thing
}

const BODY: &[u8; 14] = b"d1:t2:aa1:y1:r";

/// The tag of that body by the identifier 1 under that key, as Python's `hmac` makes it.
const WANTED: [u8; 20] = [
    0x4a, 0x69, 0x52, 0xb3, 0xd3, 0xd7, 0xa3, 0x5b, 0xe2, 0x02, 0x7b, 0xd3, 0x92, 0x99, 0x71, 0xa1,
    0xab, 0xd2, 0xa1, 0x9f,
];

#[test]
fn tags_as_another_program_does(rt: HostRuntime) {
    let seal = seal();
    let mut out = [7; 64];
    assert_eq!(rt; shared(&seal).tag(&id(1), BODY, &mut out), 20);
    assert!(&rt; &out[..20] == WANTED.as_slice());
    assert!(&rt; &out[20..] == [7u8; 44].as_slice());
}

#[test]
fn accepts_its_own_tag_alone(rt: HostRuntime) {
    let seal = seal();
    let tag = WANTED;
    assert!(&rt; shared(&seal).accepts(&id(1), BODY, &tag));
    assert!(&rt; !seal.accepts(&id(2), BODY, &tag));
    assert!(&rt; !seal.accepts(&id(1), &BODY[..13], &tag));
    assert!(&rt; !GroupSeal::new([0; 32]).accepts(&id(1), BODY, &tag));
    assert!(&rt; !seal.accepts(&id(1), BODY, &tag[..19]));
    assert!(&rt; !seal.accepts(&id(1), BODY, &[]));
    let mut longer = [0; 21];
    longer[..20].copy_from_slice(&tag);
    assert!(&rt; !seal.accepts(&id(1), BODY, &longer));
}

#[test]
fn refuses_a_tag_with_one_bit_changed(rt: HostRuntime) {
    let seal = seal();
    for place in 0..20 {
        let mut tag = WANTED;
        tag[place] ^= 1;
        assert!(&rt; !seal.accepts(&id(1), BODY, &tag), "at {place}");
    }
}
