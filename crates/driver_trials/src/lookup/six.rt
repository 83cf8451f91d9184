//! Whole lookups in the network of IPv6 (BEP 32), by both drivers. The target is identifier 0.
ghost use Rattle.std.specs.Prelude.{◌≡◌};
ghost use Rattle.lookup_run.specs.Lookup.{IsWithinLimits};

use super::together::look_together;
use super::{OWN, look_alone, setting};
use contact_table::Table;
use fake_net::ScriptLink;
use id_puzzles::Sha1Check;
use kad_base::{Family, NoMemory};
use lookup_run::{AskKind, LookFault, LookSetting, Outcome};
use std::alloc::Global;
use std::hash::RandomState;
use std::random::RandomSource;
use std::sync::Wait;
use std::test::Fail;
use std::thread::Threads;
use trial_kit::{Reply, contact6, link};

/// A lookup of IPv6 on two paths.
fn in_six() -> LookSetting
    ensures limits { IsWithinLimits result }
    ensures own { result.own ≡ OWN }
{
    LookSetting {
        family: Family::Six,
        ..setting(OWN, 2, AskKind::FindNode)
    }
}

/// A link over which contacts 1 and 2 name contacts 3 and 4, and these nobody.
fn four_answers(alloc: Global) -> Result<ScriptLink, NoMemory> {
    let replies = [
        Reply::naming(1, 10, 3).in_six(),
        Reply::naming(2, 10, 4).in_six(),
        Reply::of(3, 20).in_six(),
        Reply::of(4, 20).in_six(),
    ];
    link(alloc, &replies)
}

/// What a lookup from contacts 1 and 2 gives, by the driver whose paths settle at once or by the other.
fn play<R: AllocGlobal + RandomSource + Threads + Wait + Sync>(
    rt: &R,
    at_once: bool,
) -> Result<(Table, Result<Outcome, LookFault>), Fail> {
    let alloc = rt.alloc();
    let look = in_six();
    let hasher = RandomState::new(rt)?;
    let mut link = four_answers(alloc)?;
    if at_once {
        return look_together(rt, alloc, &[1, 2], &look, &mut link, &Sha1Check, hasher);
    }
    look_alone(alloc, &[1, 2], &look, &mut link, hasher)
}

/// Whether it finds the four, and has asked each once.
fn finds_four<R: AllocGlobal + RandomSource + Threads + Wait + Sync>(
    rt: &R,
    at_once: bool,
) -> Result<bool, Fail> {
    let (_table, ended) = play(rt, at_once)?;
    let Ok(outcome) = ended else {
        return Err(Fail::new("it ended early"));
    };
    let all = [contact6(1), contact6(2), contact6(3), contact6(4)];
    Ok(outcome.found.as_slice() == all.as_slice() && outcome.counts.asked == 4)
}

#[test]
fn both_drivers_find_what_is_named_in_nodes6(rt: HostRuntime) -> Result<(), Fail> {
    assert!(rt; finds_four(&rt, true)?);
    assert!(rt; finds_four(&rt, false)?);
    Ok(())
}
