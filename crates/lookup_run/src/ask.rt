//! Asking: what the book says may be asked is sent, or lost.
ghost use Rattle.std.specs.Prelude.{◌≡◌, ◌≤◌, ◌<◌, ◌+◌, true, false};
ghost use Rattle.lookup_run.specs.Rounds.{AllSettled, NoneAsks};
ghost use Rattle.lookup_run.specs.Lookup.{IsWithinLimits, setting_of};
ghost use Rattle.lookup_core.specs.SendFaults.{Refuses};
ghost use Rattle.lookup_run.specs.inner.DriverInvariant.{Keeps, HasWords, weight_of};
ghost use Rattle.lookup_run.specs.inner.RoundSteps.{Asks, AsksNone, Begins};

use crate::send::send_query;
use crate::types::{LookSetting, LookupState};
use id_puzzles::Words;
use kad_base::Link;

/// Asks what the path asks now; false where it may ask none. A contact whose query can't be sent is lost.
fn ask_one<L: Link>(
    link: &mut L,
    work: &mut LookupState,
    words: &mut Words,
    look: &LookSetting,
    path: u8,
) -> bool
    requires limits { IsWithinLimits look.now }
    requires path { path < look.now.paths }
    requires keeps { Keeps look.now work.old }
    requires has_words { HasWords words.old work.old.lookup.book.journal }
    requires round_over { work.old.progress.receives ≡ 0 }
    requires settled { AllSettled look.now.paths work.old.lookup.book.journal }
    requires none_below { NoneAsks (setting_of look.now) path work.old.lookup.book.journal }
    ensures some { result ≡ true → Asks look.now path path words.old words.new work.old work.new
        (L.told link.old) (L.told link.new) }
    ensures less { result ≡ true → weight_of work.new < weight_of work.old }
    ensures none { result ≡ false → AsksNone look.now path words.old words.new work.old work.new
        (L.told link.old) (L.told link.new) }
    ensures moment { L.moment link.new ≡ L.moment link.old }
    ensures recv_faults { L.recv_faults link.new ≡ L.recv_faults link.old }
    ensures refuses { Refuses work.old.lookup.book.journal work.new.lookup.book.journal
        (L.send_faults link.old) (L.send_faults link.new) }
    ensures kept { L.kept link.new ≡ L.kept link.old }
{
    work.lookup.book.legal();
    let asked = match work
        .lookup
        .ask(words, &look.quest(), work.progress.moment, path)
    {
        Some(asked) => asked,
        None => return false,
    };
    if send_query(link, look, &asked) {
        return true;
    }
    work.lookup.unsent(asked);
    true
}

/// Asks all that the path may ask.
fn ask_path<L: Link>(
    link: &mut L,
    work: &mut LookupState,
    words: &mut Words,
    look: &LookSetting,
    path: u8,
)
    requires limits { IsWithinLimits look.now }
    requires path { path < look.now.paths }
    requires keeps { Keeps look.now work.old }
    requires has_words { HasWords words.old work.old.lookup.book.journal }
    requires round_over { work.old.progress.receives ≡ 0 }
    requires settled { AllSettled look.now.paths work.old.lookup.book.journal }
    requires none_below { NoneAsks (setting_of look.now) path work.old.lookup.book.journal }
    ensures asks { Asks look.now path (path + 1) words.old words.new work.old work.new
        (L.told link.old) (L.told link.new) }
    ensures moment { L.moment link.new ≡ L.moment link.old }
    ensures recv_faults { L.recv_faults link.new ≡ L.recv_faults link.old }
    ensures refuses { Refuses work.old.lookup.book.journal work.new.lookup.book.journal
        (L.send_faults link.old) (L.send_faults link.new) }
    ensures kept { L.kept link.new ≡ L.kept link.old }
{
    'asking: while ask_one(link, work, words, look, path) {}
}

/// Asks all that the paths may ask, path by path.
pub(crate) fn ask_all<L: Link>(
    link: &mut L,
    work: &mut LookupState,
    words: &mut Words,
    look: &LookSetting,
)
    requires limits { IsWithinLimits look.now }
    requires begins { Begins look.now words.old work.old }
    ensures asks { Asks look.now 0 look.now.paths words.old words.new work.old work.new
        (L.told link.old) (L.told link.new) }
    ensures moment { L.moment link.new ≡ L.moment link.old }
    ensures recv_faults { L.recv_faults link.new ≡ L.recv_faults link.old }
    ensures refuses { Refuses work.old.lookup.book.journal work.new.lookup.book.journal
        (L.send_faults link.old) (L.send_faults link.new) }
    ensures kept { L.kept link.new ≡ L.kept link.old }
{
    for path in 0..look.paths {
        ask_path(link, work, words, look, path);
    }
}
