//! Open queries by hand, of which the transaction ids wrap, and the 33rd.
use super::first_false;
use kad_base::Addr;
use query_book::{Full, Queries};
use trial_kit::contact;

#[test]
fn opens_finds_and_closes(rt: HostRuntime) {
    let mut queries = Queries::new();
    let (first, second) = (contact(1), contact(2));
    let held = [
        queries.open(u32::MAX, first, 10) == Ok(u32::MAX),
        queries.open(u32::MAX, second, 10) == Ok(0),
        queries.len() == 2,
        queries.next_deadline() == Some(10),
        queries.find(0, first.addr).is_none(),
        queries.find(0, second.addr) == Some(second),
        queries.take(0, first.addr).is_none(),
        queries.take(0, second.addr) == Some(second),
        queries.take(0, second.addr).is_none(),
        queries.overdue(9).is_none(),
        queries.overdue(10) == Some(first),
        queries.overdue(10).is_none(),
        queries.next_deadline().is_none(),
        queries.is_empty(),
    ];
    assert_eq!(rt; first_false(&held), None);
}

#[test]
fn finds_at_its_address_alone(rt: HostRuntime) {
    let mut queries = Queries::new();
    let asked = contact(1);
    let elsewhere = Addr {
        ip: asked.addr.ip,
        port: asked.addr.port ^ 1,
    };
    let held = [
        queries.open(7, asked, 10) == Ok(7),
        queries.find(7, elsewhere).is_none(),
        queries.find(8, asked.addr).is_none(),
        queries.find(7, asked.addr) == Some(asked),
        queries.len() == 1,
    ];
    assert_eq!(rt; first_false(&held), None);
}

#[test]
fn has_32_places(rt: HostRuntime) {
    let mut queries = Queries::default();
    for n in 0..32 {
        assert_eq!(rt; queries.open(7, contact(1), 10), Ok(7 + n));
    }
    assert_eq!(rt; queries.open(7, contact(1), 10), Err(Full));
}
