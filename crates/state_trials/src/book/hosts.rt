//! A path has at most so many contacts of one host: `four(n, h)` has identifier n and the IPv4 address 10.0.0.h, and
//! `six(n, net, h)` identifier n and the address of host number h in the subnet 2001:db8:0:net of IPv6; each has a port of its
//! own.
ghost use Rattle.std.specs.Prelude.{◌<◌};

use super::compare::{all_usable, seeds};
use super::{Told, first_false, told_of, worker};
use claim_book::{Book, BookCall, BookReply, Cause, Checked, Entry, Journal, Setting};
use id_puzzles::Sha1Check;
use kad_base::{
    Addr, ClaimRule, Contact, Contacts, Host, Id, Ip, List, NoMemory, Policy, Report, Serial,
    host_of,
};
use std::alloc::Global;
use std::hash::RandomState;
use std::process::Abort;
use std::random::RandomSource;
use std::test::Fail;

fn at(n: u8, ip: Ip) -> Contact {
    let mut id = [0u8; 20];
    id[19] = n;
    Contact {
        id: Id(id),
        addr: Addr {
            ip,
            port: 6000 + n as u16,
        },
    }
}

fn four(n: u8, host: u8) -> Contact {
    at(n, Ip::V4([10, 0, 0, host]))
}

fn six(n: u8, net: u8, host: u8) -> Contact {
    at(
        n,
        Ip::V6([0x20, 1, 0x0d, 0xb8, 0, 0, 0, net, host, 0, 0, 0, 0, 0, 0, n]),
    )
}

/// A contact by its numbers: `four(n, h)` or `six(n, net, h)`.
#[derive(Clone, Copy, Debug)]
enum Whom {
    Four(u8, u8),
    Six(u8, u8, u8),
}

fn who(whom: Whom) -> Contact {
    match whom {
        Whom::Four(n, host) => four(n, host),
        Whom::Six(n, net, host) => six(n, net, host),
    }
}

fn all_of(alloc: Global, named: &[Whom]) -> Result<Contacts, NoMemory> {
    let mut contacts = List::new(alloc);
    for whom in named {
        contacts.push(who(*whom))?;
    }
    Ok(contacts)
}

/// A book of these seeds on so many paths, each of which takes so many contacts of one host, by the rule of claims.
fn begun<R: Abort + AllocGlobal + RandomSource>(
    rt: &R,
    claim: ClaimRule,
    paths: u8,
    per_address: u8,
    named: &[Whom],
) -> Result<Book, Fail>
    requires { 0 < paths }
{
    let setting = Setting {
        own: Id([0xff; 20]),
        target: Id([0; 20]),
        k: 8,
        paths,
        alpha: 1,
        policy: Policy::Plain,
        per_address,
        claim,
    };
    let contacts = all_of(rt.alloc(), named)?;
    let seeds = seeds(rt.alloc(), &setting, contacts.as_slice())?;
    assert!(rt; all_usable(&setting.own, seeds.as_slice()));
    Ok(Book::new(rt.alloc(), setting, seeds.as_slice(), RandomState::new(rt)?)?)
}

fn report(contact: Contact) -> Report {
    Report {
        contact,
        proof: None,
    }
}

/// The path asks what it may, which answers, and is noted: it named these four.
fn hears(alloc: Global, book: &mut Book, path: u8, named: [Whom; 4]) -> Result<bool, NoMemory> {
    let contact = match book.apply(0, BookCall::Next { path }) {
        BookReply::Ask { contact } => contact,
        _ => return Ok(false),
    };
    let reports = List::from_slice(
        alloc,
        &[
            report(who(named[0])),
            report(who(named[1])),
            report(who(named[2])),
            report(who(named[3])),
        ],
    )?;
    let kept = book.apply(0, BookCall::Heard { contact, reports }) == BookReply::Kept;
    let noted = book.apply(worker(path), BookCall::Note { contact }) == BookReply::Kept;
    Ok(kept && noted)
}

/// How the path settles a report of the contact.
fn settles(book: &mut Book, path: u8, contact: Contact) -> Told {
    let checked = Checked::of(&Sha1Check, Policy::Plain, report(contact));
    told_of(&book.apply(worker(path), BookCall::Settle { checked }))
}

/// Whether the path hears of these four, and settles them so.
fn goes(
    alloc: Global,
    book: &mut Book,
    path: u8,
    named: [Whom; 4],
    told: [Told; 4],
) -> Result<bool, NoMemory> {
    if !hears(alloc, book, path, named)? {
        return Ok(false);
    }
    for i in 0..4usize {
        if settles(book, path, who(named[i])) != told[i] {
            return Ok(false);
        }
    }
    Ok(true)
}

/// What asks nobody, and lets the time of what the path asks pass.
fn loses(book: &mut Book, path: u8) -> bool {
    match book.apply(0, BookCall::Next { path }) {
        BookReply::Ask { contact } => {
            let cause = Cause::Timeout;
            book.apply(0, BookCall::Lost { contact, cause }) == BookReply::Kept
        }
        _ => false,
    }
}

fn is_seed(entry: &Entry, path: u8, contact: &Contact) -> bool {
    match entry {
        Entry::Seed {
            path: of,
            contact: one,
        } => *of == path && *one == *contact,
        _ => false,
    }
}

/// The journal has these seeds, and nothing else.
fn begins(journal: &Journal, seeds: &[(u8, Whom)]) -> bool {
    let entries = journal.as_slice();
    if entries.len() != seeds.len() {
        return false;
    }
    for (entry, (path, whom)) in entries.iter().zip(seeds) {
        if !is_seed(entry, *path, &who(*whom)) {
            return false;
        }
    }
    true
}

/// What happens on a path.
#[derive(Clone, Copy, Debug)]
enum Row {
    /// It hears of these four, and settles them so.
    Goes(u8, &'static [Whom; 4], &'static [Told; 4]),
    /// It asks somebody, whose time passes.
    Loses(u8),
}

fn happens(alloc: Global, book: &mut Book, row: &Row) -> Result<bool, NoMemory> {
    match *row {
        Row::Goes(path, named, told) => goes(alloc, book, path, *named, *told),
        Row::Loses(path) => Ok(loses(book, path)),
    }
}

/// Plays the rows over a book of these seeds.
fn plays<R: Abort + AllocGlobal + RandomSource>(
    rt: &R,
    claim: ClaimRule,
    paths: u8,
    per_address: u8,
    named: &[Whom],
    rows: &[Row],
) -> Result<(), Fail>
    requires { 0 < paths }
{
    let mut book = begun(rt, claim, paths, per_address, named)?;
    for row in rows {
        assert!(rt; happens(rt.alloc(), &mut book, row)?, "{row:?}");
    }
    Ok(())
}

/// How many contacts of one host each path takes, and the seeds with which a book begins then, by their paths.
type Start = (u8, &'static [(u8, Whom)]);

/// That books of these contacts begin so, and with no other seeds.
fn start<R: Abort + AllocGlobal + RandomSource>(
    rt: &R,
    paths: u8,
    named: &[Whom],
    starts: &[Start],
) -> Result<(), Fail>
    requires { 0 < paths }
{
    for (per_address, seeds) in starts {
        let book = begun(rt, ClaimRule::Named, paths, *per_address, named)?;
        assert!(rt; begins(&book.into_journal(), seeds));
    }
    Ok(())
}

#[test]
fn a_host_is_an_address_or_a_subnet(rt: HostRuntime) {
    let subnet = [0x20, 1, 0x0d, 0xb8, 0, 0, 0, 7];
    let held = [
        host_of(&four(1, 7).addr) == Host::V4([10, 0, 0, 7]),
        host_of(&six(1, 7, 9).addr) == Host::V6(subnet),
        host_of(&four(1, 7).addr) == host_of(&four(2, 7).addr),
        host_of(&four(1, 7).addr) != host_of(&four(1, 8).addr),
        host_of(&six(1, 7, 9).addr) == host_of(&six(2, 7, 200).addr),
        host_of(&six(1, 7, 9).addr) != host_of(&six(1, 6, 9).addr),
    ];
    assert_eq!(&rt; first_false(&held), None);
}

const PAST_THE_LIMIT: &[Row] = &[
    Row::Goes(
        0,
        &[
            Whom::Four(2, 1),
            Whom::Four(3, 1),
            Whom::Four(4, 2),
            Whom::Four(5, 1),
        ],
        &[Told::Taken, Told::Turned, Told::Taken, Told::Turned],
    ),
    Row::Goes(
        0,
        &[
            Whom::Four(3, 1),
            Whom::Four(2, 1),
            Whom::Four(6, 2),
            Whom::Four(7, 2),
        ],
        &[Told::Turned, Told::Held(0), Told::Taken, Told::Turned],
    ),
];

#[test]
fn a_report_past_the_limit_is_turned_away(rt: HostRuntime) -> Result<(), Fail> {
    plays(
        &rt,
        ClaimRule::Named,
        1,
        2,
        &[Whom::Four(1, 1)],
        PAST_THE_LIMIT,
    )
}

const OF_A_SUBNET: &[Row] = &[Row::Goes(
    0,
    &[
        Whom::Six(2, 1, 1),
        Whom::Six(3, 1, 255),
        Whom::Six(4, 2, 1),
        Whom::Six(5, 2, 9),
    ],
    &[Told::Turned, Told::Turned, Told::Taken, Told::Turned],
)];

#[test]
fn another_port_or_another_address_of_the_subnet_is_the_same_host(
    rt: HostRuntime,
) -> Result<(), Fail> {
    plays(
        &rt,
        ClaimRule::Named,
        1,
        1,
        &[Whom::Six(1, 1, 1)],
        OF_A_SUBNET,
    )
}

const TWO_OF_A_HOST: &[Whom] = &[Whom::Four(1, 1), Whom::Four(2, 1)];

const ALL_TAKEN: &[Row] = &[Row::Goes(
    0,
    &[
        Whom::Four(3, 1),
        Whom::Four(4, 1),
        Whom::Four(5, 1),
        Whom::Four(6, 1),
    ],
    &[Told::Taken, Told::Taken, Told::Taken, Told::Taken],
)];

#[test]
fn without_a_limit_as_many_as_come_are_taken(rt: HostRuntime) -> Result<(), Fail> {
    plays(&rt, ClaimRule::Named, 1, 0, TWO_OF_A_HOST, ALL_TAKEN)?;
    plays(&rt, ClaimRule::Named, 1, 255, TWO_OF_A_HOST, ALL_TAKEN)
}

const OF_TWO_HOSTS: &[Whom] = &[Whom::Four(1, 1), Whom::Four(2, 2)];

const ON_TWO_PATHS: &[Row] = &[
    Row::Goes(
        0,
        &[
            Whom::Four(3, 1),
            Whom::Four(4, 2),
            Whom::Four(5, 2),
            Whom::Four(2, 2),
        ],
        &[Told::Turned, Told::Taken, Told::Turned, Told::Held(1)],
    ),
    Row::Goes(
        1,
        &[
            Whom::Four(3, 1),
            Whom::Four(5, 2),
            Whom::Four(6, 1),
            Whom::Four(4, 2),
        ],
        &[Told::Taken, Told::Turned, Told::Turned, Told::Held(0)],
    ),
];

#[test]
fn another_path_takes_what_one_turns_away(rt: HostRuntime) -> Result<(), Fail> {
    plays(&rt, ClaimRule::Named, 2, 1, OF_TWO_HOSTS, ON_TWO_PATHS)
}

/// Path 0 asks 3, which path 1 took too: it is the one of its host on path 1, which turns 6 away.
const ASKED_BY_ANOTHER: &[Row] = &[
    Row::Goes(
        0,
        &[
            Whom::Four(3, 3),
            Whom::Four(4, 4),
            Whom::Four(1, 1),
            Whom::Four(3, 3),
        ],
        &[Told::Taken, Told::Taken, Told::Held(0), Told::Held(0)],
    ),
    Row::Goes(
        1,
        &[
            Whom::Four(3, 3),
            Whom::Four(5, 5),
            Whom::Four(1, 1),
            Whom::Four(3, 3),
        ],
        &[Told::Taken, Told::Taken, Told::Held(0), Told::Held(1)],
    ),
    Row::Goes(
        0,
        &[
            Whom::Four(6, 3),
            Whom::Four(2, 2),
            Whom::Four(4, 4),
            Whom::Four(5, 5),
        ],
        &[Told::Turned, Told::Held(1), Told::Held(0), Told::Taken],
    ),
    Row::Goes(
        1,
        &[
            Whom::Four(6, 3),
            Whom::Four(3, 3),
            Whom::Four(1, 1),
            Whom::Four(4, 4),
        ],
        &[Told::Turned, Told::Held(1), Told::Held(0), Told::Taken],
    ),
];

#[test]
fn what_another_path_asked_still_counts(rt: HostRuntime) -> Result<(), Fail> {
    plays(&rt, ClaimRule::Asked, 2, 1, OF_TWO_HOSTS, ASKED_BY_ANOTHER)
}

const AFTER_A_LOSS: &[Row] = &[
    Row::Loses(0),
    Row::Goes(
        0,
        &[
            Whom::Four(3, 1),
            Whom::Four(4, 3),
            Whom::Four(5, 2),
            Whom::Four(6, 4),
        ],
        &[Told::Turned, Told::Taken, Told::Turned, Told::Taken],
    ),
];

#[test]
fn a_lost_contact_still_counts(rt: HostRuntime) -> Result<(), Fail> {
    plays(&rt, ClaimRule::Named, 1, 1, OF_TWO_HOSTS, AFTER_A_LOSS)
}

const EIGHT: &[Whom] = &[
    Whom::Four(1, 1),
    Whom::Four(2, 1),
    Whom::Four(3, 1),
    Whom::Four(4, 1),
    Whom::Four(5, 2),
    Whom::Four(6, 2),
    Whom::Four(7, 1),
    Whom::Four(8, 3),
];

/// All of them without a limit.
const OF_EIGHT: &[Start] = &[
    (
        1,
        &[
            (0, Whom::Four(1, 1)),
            (1, Whom::Four(2, 1)),
            (0, Whom::Four(5, 2)),
            (1, Whom::Four(6, 2)),
            (1, Whom::Four(8, 3)),
        ],
    ),
    (
        2,
        &[
            (0, Whom::Four(1, 1)),
            (1, Whom::Four(2, 1)),
            (0, Whom::Four(3, 1)),
            (1, Whom::Four(4, 1)),
            (0, Whom::Four(5, 2)),
            (1, Whom::Four(6, 2)),
            (1, Whom::Four(8, 3)),
        ],
    ),
    (
        0,
        &[
            (0, Whom::Four(1, 1)),
            (1, Whom::Four(2, 1)),
            (0, Whom::Four(3, 1)),
            (1, Whom::Four(4, 1)),
            (0, Whom::Four(5, 2)),
            (1, Whom::Four(6, 2)),
            (0, Whom::Four(7, 1)),
            (1, Whom::Four(8, 3)),
        ],
    ),
];

#[test]
fn the_first_seeds_of_a_host_stay(rt: HostRuntime) -> Result<(), Fail> {
    start(&rt, 2, EIGHT, OF_EIGHT)
}

const SIX_OF_A_HOST: &[Whom] = &[
    Whom::Four(1, 1),
    Whom::Four(2, 1),
    Whom::Four(3, 1),
    Whom::Four(4, 1),
    Whom::Four(5, 1),
    Whom::Four(6, 1),
];

const OF_SIX: &[Start] = &[(
    1,
    &[
        (0, Whom::Four(1, 1)),
        (1, Whom::Four(2, 1)),
        (2, Whom::Four(3, 1)),
        (3, Whom::Four(4, 1)),
    ],
)];

#[test]
fn each_path_keeps_a_seed(rt: HostRuntime) -> Result<(), Fail> {
    start(&rt, 4, SIX_OF_A_HOST, OF_SIX)
}
