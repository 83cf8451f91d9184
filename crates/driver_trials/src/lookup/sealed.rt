//! Sealed lookups, which believe no reply without the tag of who says it. The tags are HMAC-SHA-1 under a key of 32 zero
//! bytes, as Python's `hmac` makes them.
ghost use Rattle.std.specs.Prelude.{◌≡◌};
ghost use Rattle.lookup_run.specs.Lookup.{IsWithinLimits};

use crate::lookup::together::look_together;
use crate::lookup::{OWN, look_alone, setting};
use claim_book::{Cause, Entry};
use id_puzzles::Sha1Check;
use lookup_run::{AskKind, LookSetting, Outcome};
use std::alloc::Global;
use std::hash::RandomState;
use std::sync::Wait;
use std::test::Fail;
use std::thread::Threads;
use trial_kit::link_with;

/// The answer of contact 1 that names nobody, to the first query of the generator of 32 zero bytes, with its tag.
const TAGGED: &[u8] =
    b"d1:rd2:id20:\0\0\0\0\0\0\0\0\0\0\0\0\0\0\0\0\0\0\0\x01e2:sg20:6T\x1bC\x1cM, N\xf3@\xf9\x1f\xaa{\x16v\x93/p1:t4:\xa0\x8d\xed\x1a1:y1:re";

/// The same without a tag.
const PLAIN: &[u8] =
    b"d1:rd2:id20:\0\0\0\0\0\0\0\0\0\0\0\0\0\0\0\0\0\0\0\x01e1:t4:\xa0\x8d\xed\x1a1:y1:re";

/// The same whose tag has another last bit.
const ONE_BIT: &[u8] =
    b"d1:rd2:id20:\0\0\0\0\0\0\0\0\0\0\0\0\0\0\0\0\0\0\0\x01e2:sg20:6T\x1bC\x1cM, N\xf3@\xf9\x1f\xaa{\x16v\x93/q1:t4:\xa0\x8d\xed\x1a1:y1:re";

/// The same whose tag lacks its last byte.
const NINETEEN: &[u8] =
    b"d1:rd2:id20:\0\0\0\0\0\0\0\0\0\0\0\0\0\0\0\0\0\0\0\x01e2:sg19:6T\x1bC\x1cM, N\xf3@\xf9\x1f\xaa{\x16v\x93/1:t4:\xa0\x8d\xed\x1a1:y1:re";

/// The same whose tag is of the answer alone, without the identifier before it.
const OF_NOBODY: &[u8] =
    b"d1:rd2:id20:\0\0\0\0\0\0\0\0\0\0\0\0\0\0\0\0\0\0\0\x01e2:sg20:!\xac\xda\xc8M\xbdV\x7f \x8c\xf1;O>\xac_\x01\x93\xf3&1:t4:\xa0\x8d\xed\x1a1:y1:re";

/// The answer of identifier 2, with its own tag.
const ANOTHER: &[u8] =
    b"d1:rd2:id20:\0\0\0\0\0\0\0\0\0\0\0\0\0\0\0\0\0\0\0\x02e2:sg20:i\xb3_\x07\x9c\xb2\xf3\xd9K\xcb\x81\x96M\x0e\xc5I\xf6\xeed/1:t4:\xa0\x8d\xed\x1a1:y1:re";

/// The same with the tag that contact 1 would make of it.
const DISGUISED: &[u8] =
    b"d1:rd2:id20:\0\0\0\0\0\0\0\0\0\0\0\0\0\0\0\0\0\0\0\x02e2:sg20:\xb6\x93t\x9c\xf6q\xac\x9b\xe2\xc8\xf1\x96\x91\xbb\xa5\x86\xd2\xae\xfdk1:t4:\xa0\x8d\xed\x1a1:y1:re";

/// An error message with the tag of contact 1.
const ERROR: &[u8] =
    b"d1:eli202e12:Server Errore2:sg20:\x82\x8f\xb8\xf1\x15\x1b\x84\x11\xaaF5\x07{(\xb2Y\xf1\x82\xc0\xed1:t4:\xa0\x8d\xed\x1a1:y1:ee";

/// The same without a tag.
const PLAIN_ERROR: &[u8] = b"d1:eli202e12:Server Errore1:t4:\xa0\x8d\xed\x1a1:y1:ee";

/// How the one contact that is asked ends: `None` if it is heard.
fn cause_in(outcome: &Outcome) -> Option<Cause> {
    for entry in outcome.journal.as_slice() {
        if let Entry::Lost { cause, .. } = entry {
            return Some(*cause);
        }
    }
    None
}

/// The setting of a lookup on one path that may be sealed.
fn sealed_or_not(sealed: bool) -> LookSetting
    ensures limits { IsWithinLimits result }
    ensures own { result.own ≡ OWN }
{
    LookSetting {
        sealed,
        ..setting(OWN, 1, AskKind::FindNode)
    }
}

/// What becomes of contact 1, which answers with these bytes.
fn asked(
    alloc: Global,
    bytes: &[u8],
    sealed: bool,
    hasher: RandomState,
) -> Result<Option<Cause>, Fail> {
    let mut link = link_with(alloc, bytes, 10, 1, &[])?;
    let look = sealed_or_not(sealed);
    let (_table, ended) = look_alone(alloc, &[1], &look, &mut link, hasher)?;
    match ended {
        Ok(outcome) => Ok(cause_in(&outcome)),
        Err(_) => Err(Fail::new("it ended early")),
    }
}

/// Each of these answers ends so.
fn end(rt: &HostRuntime, sealed: bool, cases: &[(&[u8], Option<Cause>)]) -> Result<(), Fail> {
    for (bytes, wanted) in cases {
        let hasher = RandomState::new(rt)?;
        let cause = asked(rt.alloc(), bytes, sealed, hasher)?;
        if cause != *wanted {
            return Err(Fail::new("it ends in another way"));
        }
    }
    Ok(())
}

#[test]
fn a_tagged_answer_is_heard_and_any_other_is_a_stray(rt: HostRuntime) -> Result<(), Fail> {
    let silent = Some(Cause::Timeout);
    let cases = [
        (TAGGED, None),
        (PLAIN, silent),
        (ONE_BIT, silent),
        (NINETEEN, silent),
        (OF_NOBODY, silent),
    ];
    end(&rt, true, &cases)
}

#[test]
fn an_answer_in_another_name_needs_the_tag_of_that_name(rt: HostRuntime) -> Result<(), Fail> {
    let cases = [
        (ANOTHER, Some(Cause::WrongId)),
        (DISGUISED, Some(Cause::Timeout)),
    ];
    end(&rt, true, &cases)
}

#[test]
fn an_error_message_needs_the_tag_of_who_was_asked(rt: HostRuntime) -> Result<(), Fail> {
    let cases = [
        (ERROR, Some(Cause::Error { code: 202 })),
        (PLAIN_ERROR, Some(Cause::Timeout)),
    ];
    end(&rt, true, &cases)
}

#[test]
fn a_lookup_that_is_not_sealed_passes_tags_over(rt: HostRuntime) -> Result<(), Fail> {
    let cases = [(TAGGED, None), (PLAIN, None), (ONE_BIT, None)];
    end(&rt, false, &cases)
}

/// The same by the driver that may settle on threads.
fn asked_together<R: Threads + Wait + Sync>(
    rt: &R,
    alloc: Global,
    bytes: &[u8],
    hasher: RandomState,
) -> Result<Option<Cause>, Fail> {
    let mut link = link_with(alloc, bytes, 10, 1, &[])?;
    let look = sealed_or_not(true);
    let (_table, ended) = look_together(rt, alloc, &[1], &look, &mut link, &Sha1Check, hasher)?;
    match ended {
        Ok(outcome) => Ok(cause_in(&outcome)),
        Err(_) => Err(Fail::new("it ended early")),
    }
}

#[test]
fn both_drivers_ask_for_tags(rt: HostRuntime) -> Result<(), Fail> {
    let hasher = RandomState::new(&rt)?;
    assert_eq!(rt; asked_together(&rt, rt.alloc(), TAGGED, hasher)?, None);
    let hasher = RandomState::new(&rt)?;
    let cause = asked_together(&rt, rt.alloc(), PLAIN, hasher)?;
    assert_eq!(rt; cause, Some(Cause::Timeout));
    Ok(())
}
