//! Tables as texts, and what a refresh makes of them. The node's own identifier is twenty bytes ff. The words are those of
//! the generator of 32 zero bytes from place 5 on, the keystream of ChaCha20 under a key of zeros: a08ded1a, a836efcc,
//! 8b770dc7, da41597c and so on.
ghost use Rattle.std.specs.Prelude.{IfOk};
ghost use Rattle.table_file.specs.SavedText.{FailedOnce};

use contact_table::{Saved, Table};
use fake_net::ScriptLink;
use id_puzzles::Words;
use kad_base::{Bytes, Event, Family, Link, NoMemory};
use seal_tags::GroupSeal;
use std::alloc::Global;
use std::test::Fail;
use table_file::{read, write};
use table_refresh::{RefreshFault, RefreshSetting, refresh};
use trial_kit::{Reply, failing_link, link_at, local};

/// The first ping.
pub const PING_1: &[u8] =
    b"d1:ad2:id20:\xff\xff\xff\xff\xff\xff\xff\xff\xff\xff\xff\xff\xff\xff\xff\xff\xff\xff\xff\xffe1:q4:ping2:roi1e1:t4:\xa0\x8d\xed\x1a1:y1:qe";

/// The second ping.
pub const PING_2: &[u8] =
    b"d1:ad2:id20:\xff\xff\xff\xff\xff\xff\xff\xff\xff\xff\xff\xff\xff\xff\xff\xff\xff\xff\xff\xffe1:q4:ping2:roi1e1:t4:\xa8\x36\xef\xcc1:y1:qe";

/// The answer of contact 1 to the first ping.
pub const ANSWER_1: &[u8] =
    b"d1:rd2:id20:\0\0\0\0\0\0\0\0\0\0\0\0\0\0\0\0\0\0\0\x01e1:t4:\xa0\x8d\xed\x1a1:y1:re";

/// The answer of contact 1 to the second ping.
pub const ANSWER_2: &[u8] =
    b"d1:rd2:id20:\0\0\0\0\0\0\0\0\0\0\0\0\0\0\0\0\0\0\0\x01e1:t4:\xa8\x36\xef\xcc1:y1:re";

/// A table of contact 1 alone.
pub const ONE: &[u8] =
    b"table ffffffffffffffffffffffffffffffffffffffff 8 1\nrow -\nlive 0000000000000000000000000000000000000001 127.0.0.1:6001 0\nsibling 0000000000000000000000000000000000000001 127.0.0.1:6001\nend\n";

/// The table without contact 1.
pub const NOBODY: &[u8] = b"table ffffffffffffffffffffffffffffffffffffffff 8 1\nrow -\nend\n";

/// Contact 1 answers its first query.
pub const REPLY_1: Reply = Reply {
    family: Family::Four,
    to: 1,
    at: 10,
    port: 6001,
    id: 1,
    node: None,
};

/// The same by contact 2.
pub const REPLY_2: Reply = Reply {
    family: Family::Four,
    to: 2,
    at: 10,
    port: 6002,
    id: 2,
    node: None,
};

/// A refresh of a table over a scripted link, and what has to come of it. Each try waits for two seconds.
#[derive(Clone, Copy)]
pub struct Trial {
    pub table: &'static [u8],
    pub sealed: bool,
    /// Whether all live contacts are pinged, and not the first of each row alone.
    pub all: bool,
    pub coming: Coming,
    /// The sends and the receives that fail, by their numbers from 0.
    pub failing_sends: &'static [u64],
    pub failing_receives: &'static [u64],
    pub ended: Result<(), RefreshFault>,
    /// The text of the table that it leaves.
    pub left: &'static [u8],
    /// All that the link tells.
    pub told: &'static [Told<'static>],
    /// The word that comes next, if it is compared.
    pub next: Option<u32>,
}

/// What comes over the link.
#[derive(Clone, Copy)]
pub enum Coming {
    /// These bytes, each at its moment from 127.0.0.1 and its port.
    Datagrams(&'static [(u64, u16, &'static [u8])]),
    /// These replies to queries.
    Replies(&'static [Reply]),
}

/// An event, whose address is that of 127.0.0.1 and this port.
#[derive(Clone, Copy, Debug, PartialEq, Eq)]
pub enum Told<'a> {
    Now(u64),
    Sent(u16, &'a [u8]),
    Unsent(u16, &'a [u8]),
    Got(u16, &'a [u8], u64, u64),
    Quiet(u64, u64),
}

/// A refresh of the table of contact 1, who answers.
pub const ANSWERED: Trial = Trial {
    table: ONE,
    sealed: false,
    all: false,
    coming: Coming::Datagrams(&[(10, 6001, ANSWER_1)]),
    failing_sends: &[],
    failing_receives: &[],
    ended: Ok(()),
    left: ONE,
    told: &[
        Told::Now(0),
        Told::Sent(6001, PING_1),
        Told::Got(6001, ANSWER_1, 2000, 10),
    ],
    next: None,
};

/// The same where nobody answers.
pub const SILENT: Trial = Trial {
    coming: Coming::Replies(&[]),
    left: NOBODY,
    told: &[
        Told::Now(0),
        Told::Sent(6001, PING_1),
        Told::Quiet(2000, 2000),
        Told::Sent(6001, PING_2),
        Told::Quiet(4000, 4000),
    ],
    ..ANSWERED
};

/// What a refresh left: the table, how it ended, and the word that comes next.
#[derive(Drop)]
struct Outcome {
    text: Bytes,
    ended: Result<(), RefreshFault>,
    next: u32,
}

/// The table of a short text.
fn table_of(alloc: Global, text: &[u8]) -> Result<Table, Fail> {
    if text.len() > 4096 {
        return Err(Fail::new("too long"));
    }
    let saved = read(alloc, text)?;
    Ok(Table::of_rows(alloc, &saved)?)
}

/// All that the table holds, which can be written.
fn saved_of(table: &Table) -> Result<Saved, NoMemory>
    ensures { IfOk result (λ saved. FailedOnce saved.rows) }
{
    table.sound();
    table.rows()
}

/// The text of a table.
fn text_of(alloc: Global, table: &Table) -> Result<Bytes, NoMemory> {
    let saved = saved_of(table)?;
    write(alloc, &saved)
}

/// Refreshes the table of a text over the link.
fn refreshed<L: Link>(
    alloc: Global,
    text: &[u8],
    setting: RefreshSetting,
    link: &mut L,
) -> Result<Outcome, Fail> {
    let table = table_of(alloc, text)?;
    let mut words = Words::new(&[0; 32], 5);
    let seal = GroupSeal::new([0; 32]);
    let (table, ended) = refresh(alloc, link, &mut words, table, setting, &seal);
    let next = words.next();
    let text = text_of(alloc, &table)?;
    Ok(Outcome { text, ended, next })
}

/// The refresh of a trial over any link ends as it says.
pub fn ends<L: Link>(alloc: Global, trial: &Trial, link: &mut L) -> Result<(), Fail> {
    let setting = RefreshSetting {
        timeout: 2000,
        sealed: trial.sealed,
        all: trial.all,
    };
    let outcome = refreshed(alloc, trial.table, setting, link)?;
    if outcome.ended != trial.ended {
        return Err(Fail::new("it ended otherwise"));
    }
    if outcome.text.as_slice() != trial.left {
        return Err(Fail::new("it left another table"));
    }
    match trial.next {
        Some(next) if next != outcome.next => Err(Fail::new("another word comes next")),
        _ => Ok(()),
    }
}

fn link_of(alloc: Global, trial: &Trial) -> Result<ScriptLink, NoMemory> {
    match trial.coming {
        Coming::Datagrams(datagrams) => link_at(
            alloc,
            datagrams,
            trial.failing_sends,
            trial.failing_receives,
        ),
        Coming::Replies(replies) => failing_link(
            alloc,
            replies,
            trial.failing_sends,
            trial.failing_receives,
        ),
    }
}

/// Plays a trial.
pub fn plays(alloc: Global, trial: &Trial) -> Result<(), Fail> {
    let mut link = link_of(alloc, trial)?;
    ends(alloc, trial, &mut link)?;
    tells(&link, trial.told)
}

/// Plays these trials, one after another.
pub fn all_play(alloc: Global, trials: &[Trial]) -> Result<(), Fail> {
    for trial in trials {
        plays(alloc, trial)?;
    }
    Ok(())
}

/// The link tells these events and no others.
fn tells(link: &ScriptLink, rows: &[Told]) -> Result<(), Fail> {
    let Some(events) = link.events() else {
        return Err(Fail::new("not told"));
    };
    if events.len() != rows.len() {
        return Err(Fail::new("another number of events"));
    }
    for (event, row) in events.iter().zip(rows) {
        if !is(event, row) {
            return Err(Fail::new("another event"));
        }
    }
    Ok(())
}

fn is(event: &Event, row: &Told) -> bool {
    match event {
        Event::Now { at } => *row == Told::Now(*at),
        Event::Sent { to, bytes } => {
            *to == local(to.port) && *row == Told::Sent(to.port, bytes.as_slice())
        }
        Event::Unsent { to, bytes } => {
            *to == local(to.port) && *row == Told::Unsent(to.port, bytes.as_slice())
        }
        Event::Got {
            from,
            bytes,
            until,
            at,
        } => {
            *from == local(from.port) && *row == Told::Got(from.port, bytes.as_slice(), *until, *at)
        }
        Event::Quiet { until, at } => *row == Told::Quiet(*until, *at),
    }
}
