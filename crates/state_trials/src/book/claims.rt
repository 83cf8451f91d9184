//! Two paths by both rules of claims (S/Kademlia, section 4.4: a lookup uses each node once), worked by hand. Each path has one
//! query open at once, and ends with its two closest; the target is 0, so a contact's number is its distance.
ghost use Rattle.std.specs.Prelude.{◌<◌};

use super::compare::{all_usable, seeds};
use super::{End, Step, Told, ends, play};
use claim_book::{Book, Counts, Setting};
use kad_base::{ClaimRule, Id, Policy};
use std::hash::RandomState;
use std::process::Abort;
use std::random::RandomSource;
use std::test::Fail;
use trial_kit::contact;

/// A call, and how it is replied to.
type Row = (Step, Told);

/// Plays the first rows and then the others on a book of two seeds, the nearer of which is path 0's, and what is found at the end.
fn plays<R: Abort + AllocGlobal + RandomSource>(
    rt: &R,
    claim: ClaimRule,
    seed_numbers: [u8; 2],
    first: &[Row],
    then: &[Row],
    end: &End,
) -> Result<(), Fail> {
    let setting = Setting {
        own: Id([0xff; 20]),
        target: Id([0; 20]),
        k: 2,
        paths: 2,
        alpha: 1,
        policy: Policy::Plain,
        per_address: 0,
        claim,
    };
    let contacts = [contact(seed_numbers[0]), contact(seed_numbers[1])];
    let seeds = seeds(rt.alloc(), &setting, &contacts)?;
    assert!(rt; all_usable(&setting.own, seeds.as_slice()));
    let mut book = Book::new(rt.alloc(), setting, seeds.as_slice(), RandomState::new(rt)?)?;
    play(rt, rt.alloc(), &mut book, first)?;
    play(rt, rt.alloc(), &mut book, then)?;
    assert!(rt; ends(&mut book, Some(end)));
    Ok(())
}

/// How many were asked. None was lost, and none turned away.
const fn asked(asked: u32) -> Counts {
    Counts {
        asked,
        failed: 0,
        turned: 0,
    }
}

/// Both paths are told of 1 and 2, and path 0 asks 1 before path 1 hears of it.
const TOLD_BOTH: &[Row] = &[
    (Step::Next(0), Told::Ask(8)),
    (Step::Next(1), Told::Ask(9)),
    (Step::Heard(8, &[1, 2, 3]), Told::Kept),
    (Step::Note(0, 8), Told::Kept),
    (Step::Settle(0, 1), Told::Taken),
    (Step::Settle(0, 2), Told::Taken),
    (Step::Settle(0, 3), Told::Taken),
    (Step::Next(0), Told::Ask(1)),
    (Step::Heard(9, &[1, 2]), Told::Kept),
    (Step::Note(1, 9), Told::Kept),
    (Step::Settle(1, 1), Told::Held(0)),
];

const HELD_BY_THE_FIRST: &[Row] = &[
    (Step::Settle(1, 2), Told::Held(0)),
    (Step::Next(1), Told::RunOut),
    (Step::Heard(1, &[]), Told::Kept),
    (Step::Note(0, 1), Told::Kept),
    (Step::Next(0), Told::Ask(2)),
    (Step::Heard(2, &[]), Told::Kept),
    (Step::Note(0, 2), Told::Kept),
    (Step::Next(0), Told::RunOut),
];

#[test]
fn who_was_named_first_holds_it(rt: HostRuntime) -> Result<(), Fail> {
    let end = End {
        found: &[1, 2],
        counts: asked(4),
    };
    plays(
        &rt,
        ClaimRule::Named,
        [8, 9],
        TOLD_BOTH,
        HELD_BY_THE_FIRST,
        &end,
    )
}

/// Path 1 asks 2, so path 0 looks for 3 in its place.
const TAKEN_BY_BOTH: &[Row] = &[
    (Step::Settle(1, 2), Told::Taken),
    (Step::Next(1), Told::Ask(2)),
    (Step::Heard(1, &[]), Told::Kept),
    (Step::Note(0, 1), Told::Kept),
    (Step::Next(0), Told::Ask(3)),
    (Step::Heard(2, &[]), Told::Kept),
    (Step::Note(1, 2), Told::Kept),
    (Step::Next(1), Told::RunOut),
    (Step::Finish, Told::NotYet(0)),
    (Step::Heard(3, &[]), Told::Kept),
    (Step::Note(0, 3), Told::Kept),
    (Step::Next(0), Told::RunOut),
];

#[test]
fn who_asks_first_holds_it(rt: HostRuntime) -> Result<(), Fail> {
    let end = End {
        found: &[1, 2],
        counts: asked(5),
    };
    plays(
        &rt,
        ClaimRule::Asked,
        [8, 9],
        TOLD_BOTH,
        TAKEN_BY_BOTH,
        &end,
    )
}

/// 10 is hostile. It names its own 1 and 2, and the honest 3 and 4, of which 11 tells path 1.
const NAMED_BY_THE_HOSTILE: &[Row] = &[
    (Step::Next(0), Told::Ask(10)),
    (Step::Next(1), Told::Ask(11)),
    (Step::Heard(10, &[1, 2, 3, 4]), Told::Kept),
    (Step::Note(0, 10), Told::Kept),
    (Step::Settle(0, 1), Told::Taken),
    (Step::Settle(0, 2), Told::Taken),
    (Step::Settle(0, 3), Told::Taken),
    (Step::Settle(0, 4), Told::Taken),
    (Step::Next(0), Told::Ask(1)),
    (Step::Heard(1, &[]), Told::Kept),
    (Step::Note(0, 1), Told::Kept),
    (Step::Next(0), Told::Ask(2)),
    (Step::Heard(2, &[]), Told::Kept),
    (Step::Note(0, 2), Told::Kept),
    (Step::Next(0), Told::RunOut),
    (Step::Heard(11, &[3, 4]), Told::Kept),
    (Step::Note(1, 11), Told::Kept),
];

const HONEST_UNASKED: &[Row] = &[
    (Step::Settle(1, 3), Told::Held(0)),
    (Step::Settle(1, 4), Told::Held(0)),
    (Step::Next(1), Told::RunOut),
];

#[test]
fn a_hostile_name_keeps_an_honest_contact_from_being_asked(rt: HostRuntime) -> Result<(), Fail> {
    let end = End {
        found: &[1, 2],
        counts: asked(4),
    };
    plays(
        &rt,
        ClaimRule::Named,
        [10, 11],
        NAMED_BY_THE_HOSTILE,
        HONEST_UNASKED,
        &end,
    )
}

const HONEST_ASKED: &[Row] = &[
    (Step::Settle(1, 3), Told::Taken),
    (Step::Settle(1, 4), Told::Taken),
    (Step::Next(1), Told::Ask(3)),
    (Step::Next(0), Told::RunOut),
    (Step::Heard(3, &[]), Told::Kept),
    (Step::Note(1, 3), Told::Kept),
    (Step::Next(1), Told::Ask(4)),
    (Step::Heard(4, &[]), Told::Kept),
    (Step::Note(1, 4), Told::Kept),
    (Step::Next(1), Told::RunOut),
    (Step::Next(0), Told::RunOut),
];

#[test]
fn a_name_takes_nothing_away_where_an_ask_is_the_claim(rt: HostRuntime) -> Result<(), Fail> {
    let end = End {
        found: &[1, 2],
        counts: asked(6),
    };
    plays(
        &rt,
        ClaimRule::Asked,
        [10, 11],
        NAMED_BY_THE_HOSTILE,
        HONEST_ASKED,
        &end,
    )
}

/// Both paths have 1 on their lists, and path 0 asks it.
const ON_BOTH_LISTS: &[Row] = &[
    (Step::Next(0), Told::Ask(8)),
    (Step::Next(1), Told::Ask(9)),
    (Step::Heard(8, &[1]), Told::Kept),
    (Step::Note(0, 8), Told::Kept),
    (Step::Settle(0, 1), Told::Taken),
    (Step::Heard(9, &[1, 2]), Told::Kept),
    (Step::Note(1, 9), Told::Kept),
    (Step::Settle(1, 1), Told::Taken),
    (Step::Settle(1, 2), Told::Taken),
    (Step::Next(0), Told::Ask(1)),
    (Step::Next(1), Told::Ask(2)),
];

/// It is lost. Path 1 holds it against itself, since its list has it; 8 is held by path 0, which asked it.
const LOST_IS_HELD: &[Row] = &[
    (Step::TimedOut(1), Told::Kept),
    (Step::Heard(2, &[1, 8, 5]), Told::Kept),
    (Step::Note(1, 2), Told::Kept),
    (Step::Settle(1, 1), Told::Held(1)),
    (Step::Settle(1, 8), Told::Held(0)),
    (Step::Settle(1, 5), Told::Taken),
    (Step::Next(1), Told::Ask(5)),
    (Step::Heard(5, &[8]), Told::Kept),
    (Step::Note(1, 5), Told::Kept),
    (Step::Settle(1, 8), Told::Held(0)),
    (Step::Next(0), Told::RunOut),
    (Step::Next(1), Told::RunOut),
];

#[test]
fn a_lost_contact_is_held_by_whose_list_has_it(rt: HostRuntime) -> Result<(), Fail> {
    let end = End {
        found: &[2, 5],
        counts: Counts {
            asked: 5,
            failed: 1,
            turned: 0,
        },
    };
    plays(
        &rt,
        ClaimRule::Asked,
        [8, 9],
        ON_BOTH_LISTS,
        LOST_IS_HELD,
        &end,
    )
}
