//! Settling what the answers of a round gave: each lookup settles its own paths on its own book, and tells the table, which is
//! behind a turn, who answered.
ghost use Rattle.std.specs.Prelude.{◌≡◌, ◌≢◌, ◌≤◌, ◌<◌, [], length, Option, Some, List, true, false, ◌↔◌, IsTrue, IsOk, IfOk, OnOk, OnErr};
ghost use Rattle.std.specs.List.{All, AllByRecursion, AllZip};
ghost use Rattle.kad_base.specs.declared.types.Event.{Event};
ghost use Rattle.kad_base.specs.Limits.{max_paths};
ghost use Rattle.id_puzzles.specs.Drawn.{WordsState};
ghost use Rattle.claim_book.specs.declared.types.Thing.TheVariants.{Responder, Told};
ghost use Rattle.claim_book.specs.Journal.{unsettled, first_unsettled};
ghost use Rattle.lookup_core.specs.Sealed.{Accepts};
ghost use Rattle.node_serve.specs.declared.setting.ServeSetting.{ServeSetting};
ghost use Rattle.node_serve.specs.Sealing.{Tags};
ghost use Rattle.serve_crew.specs.Hands.{Hands, SamePass, ToldOf};
ghost use Rattle.lookup_crowd.specs.declared.seeker.Progress.{Progress as Progress_value};
ghost use Rattle.lookup_crowd.specs.inner.Crowd.{Holding, Advances, stand};
ghost use Rattle.lookup_crowd.specs.inner.ManySteps.{IsSeated, SettlesSome, SettlesWhole};
ghost use Rattle.lookup_crowd.specs.inner.SettleSteps.{CanSettle, SettlesOn, Settles, EachSettles, HasSome, SeveralHaveSome};

use crate::seeker::Seeker;
use claim_book::{Book, BookCall, BookReply, Checked};
use contact_table::{Table, TableCall, TableReply};
use kad_base::limits::{MAX_LOOKUPS, MAX_PATHS};
use kad_base::{Check, Contact, NoMemory, Report, Serial};
use path_worker::PacedCheck;
use std::sync::Wait;
use std::thread;
use std::thread::Threads;
use turn_book::{Pass, Turn};

/// Tells the table that the contact answered.
fn notify_seen<R: Wait>(
    rt: &R,
    tables: &Turn<Table>,
    pass: &mut Pass<Table>,
    contact: Contact,
) -> Result<(), NoMemory>
    requires own { pass.old.turn ≡ tables.now.id }
    ensures same { SamePass pass.old pass.new }
    ensures ok { OnOk result (ToldOf contact pass.old pass.new) }
{
    match tables.call(rt, pass, TableCall::Seen { contact }) {
        TableReply::NoMemory => Err(NoMemory),
        _ => Ok(()),
    }
}

/// Tells the table of the contact that answered, and then notes it.
fn note_seen<R: Wait>(
    rt: &R,
    tables: &Turn<Table>,
    seeker: &mut Seeker,
    path: u8,
    contact: Contact,
) -> Result<(), NoMemory>
    requires path { path < max_paths }
    requires can { CanSettle tables.now seeker.old }
    requires first { first_unsettled path seeker.old.lookup.book.journal ≡ Some (Responder contact) }
    ensures ok { OnOk result (SettlesOn path seeker.old seeker.new) }
    ensures err { OnErr result (SettlesSome seeker.old seeker.new) }
{
    match notify_seen(rt, tables, &mut seeker.pass, contact) {
        Ok(()) => {}
        Err(NoMemory) => return Err(NoMemory),
    }
    seeker
        .lookup
        .book
        .apply(path + 1, BookCall::Note { contact });
    Ok(())
}

/// Checks the report outside the turn, and settles it.
fn settle_report<C: Check>(check: &C, seeker: &mut Seeker, path: u8, report: Report)
    requires path { path < max_paths }
    requires holds { Holding seeker.old }
    requires policy { seeker.old.quest.policy ≡ seeker.old.lookup.book.setting.policy }
    requires first { first_unsettled path seeker.old.lookup.book.journal ≡ Some (Told report) }
    ensures { SettlesOn path seeker.old seeker.new }
{
    let checked = Checked::of(check, seeker.quest.policy, report);
    seeker
        .lookup
        .book
        .apply(path + 1, BookCall::Settle { checked });
}

/// Settles the first thing that the path has; false where it has none.
fn settle_first<R: Wait, C: Check>(
    rt: &R,
    tables: &Turn<Table>,
    check: &C,
    seeker: &mut Seeker,
    path: u8,
) -> Result<bool, NoMemory>
    requires path { path < max_paths }
    requires can { CanSettle tables.now seeker.old }
    ensures ok { OnOk result (SettlesOn path seeker.old seeker.new) }
    ensures none { IfOk result (λ some. some ≡ false
        → unsettled path seeker.new.lookup.book.journal ≡ []) }
    ensures err { OnErr result (SettlesSome seeker.old seeker.new) }
{
    match seeker.lookup.book.apply(path + 1, BookCall::Pull) {
        BookReply::Alive { contact } => match note_seen(rt, tables, seeker, path, contact) {
            Ok(()) => Ok(true),
            Err(NoMemory) => Err(NoMemory),
        },
        BookReply::Report { report } => {
            settle_report(check, seeker, path, report);
            Ok(true)
        }
        _ => Ok(false),
    }
}

/// Settles all that the path has. `NoMemory` comes where the table had none for a contact that answered, who stays
/// unsettled.
fn settle_path<R: Wait, C: Check>(
    rt: &R,
    tables: &Turn<Table>,
    check: &C,
    seeker: &mut Seeker,
    path: u8,
) -> Result<(), NoMemory>
    requires path { path < max_paths }
    requires can { CanSettle tables.now seeker.old }
    ensures ok { OnOk result (SettlesOn path seeker.old seeker.new) }
    ensures none { OnOk result (unsettled path seeker.new.lookup.book.journal ≡ []) }
    ensures err { OnErr result (SettlesSome seeker.old seeker.new) }
{
    for _ in rt.forever() {
        match settle_first(rt, tables, check, seeker, path) {
            Ok(true) => {}
            Ok(false) => return Ok(()),
            Err(NoMemory) => return Err(NoMemory),
        }
    }
    unreachable!()
}

/// Settles all that the lookup has, path by path. A path beyond its own has nothing.
fn settle_paths<R: Wait, C: Check>(
    rt: &R,
    tables: &Turn<Table>,
    check: &C,
    seeker: &mut Seeker,
) -> Result<(), NoMemory>
    requires { CanSettle tables.now seeker.old }
    ensures some { SettlesSome seeker.old seeker.new }
    ensures whole { OnOk result (SettlesWhole seeker.old seeker.new) }
{
    for path in 0..MAX_PATHS {
        match settle_path(rt, tables, check, seeker, path) {
            Ok(()) => {}
            Err(NoMemory) => return Err(NoMemory),
        }
    }
    Ok(())
}

/// Settles all that the lookup has, and keeps how that ended.
fn settle_lookup<R: Wait, C: Check>(rt: &R, tables: &Turn<Table>, check: &C, seeker: &mut Seeker)
    requires { CanSettle tables.now seeker.old }
    ensures { Settles seeker.old seeker.new }
{
    seeker.settled = settle_paths(rt, tables, check, seeker);
}

/// All lookups at once, and joined: each on a thread of its own, or by the caller where no thread can be made.
fn settle_at_once<R: Threads + Wait + Sync, C: Check + Sync>(
    rt: &R,
    tables: &Turn<Table>,
    check: &C,
    seekers: &mut [Seeker],
)
    requires can { All (CanSettle tables.now) seekers.old }
    ensures len { length seekers.new ≡ length seekers.old }
    ensures each { EachSettles seekers.old seekers.new }
{
    thread::for_each_mut(
        rt,
        seekers,
        MAX_LOOKUPS,
        &|_: usize, seeker: &mut Seeker|
            requires can { CanSettle tables.now seeker.old }
            ensures { Settles seeker.old seeker.new }
        { settle_lookup(rt, tables, check, seeker) },
    );
}

/// One lookup after another.
fn settle_in_turn<R: Wait, C: Check>(
    rt: &R,
    tables: &Turn<Table>,
    check: &C,
    seekers: &mut [Seeker],
)
    requires can { All (CanSettle tables.now) seekers.old }
    ensures len { length seekers.new ≡ length seekers.old }
    ensures each { EachSettles seekers.old seekers.new }
{
    for i in 0..seekers.len() {
        settle_lookup(rt, tables, check, &mut seekers[i]);
    }
}

/// Whether any path of the book has.
fn book_has_some(book: &mut Book) -> bool
    ensures same { book.new ≡ book.old }
    ensures some { result ≡ true → HasSome book.old.journal }
    ensures nothing { result ≡ false → ¬ HasSome book.old.journal }
{
    for path in 0..MAX_PATHS {
        if lookup_core::has_some(book, path) {
            return true;
        }
    }
    false
}

/// Whether the lookup has something to settle.
fn has_some(seeker: &mut Seeker) -> bool
    ensures same { seeker.new ≡ seeker.old }
    ensures some { result ≡ true → HasSome seeker.old.lookup.book.journal }
    ensures nothing { result ≡ false → ¬ HasSome seeker.old.lookup.book.journal }
{
    book_has_some(&mut seeker.lookup.book)
}

/// Whether more than one lookup has something to settle: for one alone no thread is worth its making.
fn several_have_some(seekers: &mut [Seeker]) -> bool
    ensures same { seekers.new ≡ seekers.old }
    ensures several { IsTrue result ↔ SeveralHaveSome seekers.old }
{
    let mut some = false;
    for i in 0..seekers.len() {
        if !has_some(&mut seekers[i]) {
            continue;
        }
        if some {
            return true;
        }
        some = true;
    }
    false
}

/// Settles what each lookup has: all at once, where checking takes long and more than one has something; else one after
/// another, since making a thread costs more than the checks do.
fn settle_each<R: Threads + Wait + Sync, C: PacedCheck + Sync>(
    rt: &R,
    tables: &Turn<Table>,
    check: &C,
    seekers: &mut [Seeker],
)
    requires can { All (CanSettle tables.now) seekers.old }
    ensures len { length seekers.new ≡ length seekers.old }
    ensures each { EachSettles seekers.old seekers.new }
{
    if !check.is_slow() {
        settle_in_turn(rt, tables, check, seekers);
        return;
    }
    if !several_have_some(seekers) {
        settle_in_turn(rt, tables, check, seekers);
        return;
    }
    settle_at_once(rt, tables, check, seekers);
}

/// The answer of all lookups together: that of the first that was without memory, if there is one.
fn answer_of(seekers: &[Seeker]) -> Result<(), NoMemory>
    ensures { IsOk result ↔ All (λ k. IsOk k.settled) seekers.now }
{
    for seeker in seekers {
        seeker.settled?;
    }
    Ok(())
}

/// Settles all that the lookups have: each settles its paths in ascending order, and tells the table by its own pass of each
/// contact that answered, before it notes it. A table that has no memory for one stops that lookup alone, and the contact
/// stays unsettled; `NoMemory` comes once the others are settled.
pub(crate) fn settle_all<R: Threads + Wait + Sync, C: PacedCheck + Sync>(
    rt: &R,
    tables: &Turn<Table>,
    check: &C,
    seekers: &mut [Seeker],
) -> Result<(), NoMemory>
    requires own { AllByRecursion (IsSeated tables.now) seekers.old }
    requires holds { AllByRecursion Holding seekers.old }
    requires policy { AllByRecursion (λ k. k.quest.policy ≡ k.lookup.book.setting.policy)
        seekers.old }
    requires few_paths { AllByRecursion (λ k. k.lookup.book.setting.paths ≤ max_paths) seekers.old }
    ensures len { length seekers.new ≡ length seekers.old }
    ensures some { AllZip SettlesSome seekers.old seekers.new }
    ensures whole { OnOk result (AllZip SettlesWhole seekers.old seekers.new) }
    ensures goes { (accepts : Accepts) (tags : Tags) (server : ServeSetting) (progress : Progress_value)
        (words : WordsState) (host : Hands) (told : Option (List Event))
        → Advances true [] accepts tags server (stand seekers.old progress words host told)
        (stand seekers.new progress words host told) }
{
    settle_each(rt, tables, check, seekers);
    answer_of(seekers)
}
