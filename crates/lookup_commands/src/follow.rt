//! Follow-ups: what is said after a lookup, and to whom: the contacts of its result, or spread over its paths the k closest of
//! each.
ghost use Rattle.std.specs.Prelude.{◌≡◌, ◌≤◌, ◌<◌, ◌^◌, true, None, IfOk, OnErr};
ghost use Rattle.kad_base.specs.Outside.{Grows};
ghost use Rattle.follow_ups.specs.Announced.{asks_of, MaySay, announcements, Announces, AnnouncesSome, sent_in};
ghost use Rattle.lookup_commands.specs.Followed.{chosen};

use crate::spread::spread_over;
use follow_ups::announce::{Said, announce};
use id_puzzles::Words;
use kad_base::{Link, NoMemory};
use kad_words::LookWords;
use lookup_run::Outcome;
use std::alloc::Global;

/// Says it to each contact that is followed up and gave a token, in order, each under the next drawn word, and answers how
/// many datagrams were sent. The link may refuse some. Without memory no more is sent.
pub fn follow_up<L: Link>(
    alloc: Global,
    link: &mut L,
    words: &mut Words,
    said: &Said<'_>,
    look: &LookWords,
    spread: bool,
    outcome: &Outcome,
) -> Result<usize, NoMemory>
    requires place { words.old.place < 2 ^ 59 }
    requires say { MaySay said.now }
    ensures ok { let all = announcements (asks_of said.now)
        (chosen spread look.now outcome.now) outcome.now.tokens in
        IfOk result (λ sent. Grows (L.told link.old) (L.told link.new)
        (λ es. Announces true None words.old.seed words.old.place all es × (sent ≡ sent_in es))) }
    ensures err { let all = announcements (asks_of said.now)
        (chosen spread look.now outcome.now) outcome.now.tokens in
        OnErr result (Grows (L.told link.old) (L.told link.new)
        (AnnouncesSome true None words.old.seed words.old.place all)) }
    ensures recv_faults { L.recv_faults link.new ≡ L.recv_faults link.old }
    ensures send_faults { L.send_faults link.old ≤ L.send_faults link.new }
    ensures kept { L.kept link.new ≡ L.kept link.old }
{
    let tokens = outcome.tokens.as_slice();
    if !spread {
        return announce(
            alloc,
            link,
            words,
            said,
            true,
            None,
            outcome.found.as_slice(),
            tokens,
        );
    }
    let journal = outcome.journal.as_slice();
    let contacts = spread_over(alloc, &look.target, look.k, look.paths, journal)?;
    announce(
        alloc,
        link,
        words,
        said,
        true,
        None,
        contacts.as_slice(),
        tokens,
    )
}
