//! Distances, the order of contacts, and the bits of identifiers, worked by hand.
use kad_base::{Addr, Contact, Id, Ip, is_usable, leading_zeros, xor};
use kad_distance::{closer, compare, distance, k_least, place, put_closest, shared_bits};
use std::alloc::Global;
use std::cmp::Ordering;
use std::test::Fail;
use trial_kit::{contact, number};

fn at(n: u8, ip: Ip, port: u16) -> Contact {
    Contact {
        id: number(n),
        addr: Addr { ip, port },
    }
}

fn v6(last: u8) -> Ip {
    let mut bytes = [0; 16];
    bytes[15] = last;
    Ip::V6(bytes)
}

#[test]
fn measures_and_compares(rt: HostRuntime) {
    let mut high = number(0);
    high.0[0] = 1;
    assert_eq!(rt; distance(&number(5), &number(3)), number(6));
    for (a, b, bits) in [
        (number(5), number(3), 157),
        (number(5), number(5), 160),
        (number(0), Id([0xff; 20]), 0),
        (number(0), high, 7),
    ] {
        assert_eq!(rt; shared_bits(&a, &b), bits, "{a:?} {b:?}");
    }
    let highest = Ip::V4([255; 4]);
    let near = Contact {
        id: high,
        ..contact(1)
    };
    for (target, a, b, want) in [
        (0, contact(1), contact(2), Ordering::Less),
        (0, contact(1), contact(1), Ordering::Equal),
        (3, contact(1), contact(2), Ordering::Greater),
        (0, near, contact(255), Ordering::Greater),
        (0, at(1, highest, 1), at(1, highest, 2), Ordering::Less),
        (
            0,
            at(1, highest, 1),
            at(1, Ip::V4([127; 4]), 2),
            Ordering::Greater,
        ),
        (0, at(1, highest, 2), at(1, v6(0), 1), Ordering::Less),
        (0, at(1, v6(1), 2), at(1, v6(2), 1), Ordering::Less),
        (0, at(2, highest, 1), at(1, v6(2), 1), Ordering::Greater),
    ] {
        let target = number(target);
        assert_eq!(rt; compare(&target, &a, &b), want, "{a:?} {b:?}");
        assert_eq!(rt; closer(&target, &a, &b), want.is_lt(), "{a:?} {b:?}");
    }
}

/// The place of a contact in the list, once that is sorted.
fn place_among(alloc: Global, list: &[Contact], contact: &Contact) -> Result<usize, Fail> {
    let target = number(0);
    let sorted = k_least(alloc, &target, 20, list)?;
    Ok(place(&target, sorted.as_slice(), contact))
}

#[test]
fn chooses_and_finds_places(rt: HostRuntime) -> Result<(), Fail> {
    let (alloc, target) = (rt.alloc(), number(0));
    let list = [contact(3), contact(1), contact(2), contact(1)];
    let sorted = [contact(1), contact(2), contact(3)];
    assert_eq!(rt; k_least(alloc, &target, 2, &list)?.as_slice(), &sorted[..2]);
    assert_eq!(rt; k_least(alloc, &target, 20, &list)?.as_slice(), &sorted[..]);
    assert_eq!(rt; k_least(alloc, &target, 2, &[])?.len(), 0);
    let one = [at(1, v6(1), 1), contact(1), at(1, v6(0), 2)];
    assert_eq!(rt;
        k_least(alloc, &target, 2, &one)?.as_slice(),
        [one[1], one[2]].as_slice()
    );
    let two = [contact(3), contact(1)];
    assert_eq!(rt; place_among(alloc, &two, &contact(2))?, 1);
    assert_eq!(rt; place_among(alloc, &two, &contact(1))?, 0);
    assert_eq!(rt; place_among(alloc, &two, &contact(9))?, 2);
    Ok(())
}

#[test]
fn puts_contacts_among_the_two_closest(rt: HostRuntime) -> Result<(), Fail> {
    let target = number(0);
    let mut near = Vec::with_capacity(rt.alloc(), 2)?;
    put_closest(&mut near, &target, 2, &contact(5));
    put_closest(&mut near, &target, 2, &contact(5));
    assert_eq!(rt; near.as_slice(), [contact(5)].as_slice());
    put_closest(&mut near, &target, 2, &contact(7));
    assert_eq!(rt; near.as_slice(), [contact(5), contact(7)].as_slice());
    put_closest(&mut near, &target, 2, &contact(3));
    assert_eq!(rt; near.as_slice(), [contact(3), contact(5)].as_slice());
    put_closest(&mut near, &target, 2, &contact(9));
    assert_eq!(rt; near.as_slice(), [contact(3), contact(5)].as_slice());
    Ok(())
}

#[test]
fn the_node_itself_and_port_zero_are_not_usable(rt: HostRuntime) -> Result<(), Fail> {
    let own = Id([0xff; 20]);
    let ip = Ip::V4([127, 0, 0, 1]);
    let contact = |id, port| Contact {
        id: Id([id; 20]),
        addr: Addr { ip, port },
    };
    assert!(rt; is_usable(&own, &contact(1, 6881)));
    assert!(rt; !is_usable(&own, &contact(1, 0)));
    assert!(rt; !is_usable(&own, &contact(0xff, 6881)));
    Ok(())
}

#[test]
fn zero_bits_are_counted_from_the_first_byte(rt: HostRuntime) {
    let mut low = [0; 20];
    low[19] = 0b0000_1100;
    let mut high = [0; 20];
    high[0] = 0b0001_0000;
    let mut both = low;
    both[0] = 0b0001_0000;
    assert_eq!(rt; xor(&low, &high), both);
    assert_eq!(rt; xor(&[0b1100; 20], &[0b1010; 20]), [0b0110; 20]);
    for (bytes, zeros) in [([0; 20], 160), (low, 156), (high, 3), ([0xff; 20], 0)] {
        assert_eq!(rt; leading_zeros(&bytes), zeros, "{bytes:?}");
    }
}
