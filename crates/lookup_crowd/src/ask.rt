//! Asking: what a lookup may ask is sent under the next word of all, or lost.
ghost use Rattle.std.specs.Prelude.{◌≡◌, ◌≤◌, ◌<◌, ◌+◌, ◌∷◌, [], length, None, Ok, true, false, OnOk};
ghost use Rattle.std.specs.List.{AllByRecursion};
ghost use Rattle.kad_base.specs.declared.types.Event.TheVariants.{Sent, Unsent};
ghost use Rattle.kad_base.specs.Outside.{Grows, Rose};
ghost use Rattle.kad_krpc.specs.Form.{form};
ghost use Rattle.claim_book.specs.Journal.{may_ask};
ghost use Rattle.lookup_core.specs.Quest.{query_message};
ghost use Rattle.lookup_core.specs.LookupSteps.{CanAsk};
ghost use Rattle.lookup_core.specs.Sealed.{Accepts};
ghost use Rattle.lookup_core.specs.SendFaults.{Refuses};
ghost use Rattle.node_serve.specs.declared.setting.ServeSetting.{ServeSetting};
ghost use Rattle.node_serve.specs.Sealing.{Tags};
ghost use Rattle.serve_crew.specs.Hands.{Hands};
ghost use Rattle.lookup_crowd.specs.inner.Crowd.{Holding, LosesMore, NoneAsks, SameSeat, asks_of, stand};
ghost use Rattle.lookup_crowd.specs.inner.ManySteps.{AsksOver, AsksAll, MayAskAll, NoneBefore};

use crate::seeker::{Progress, Seeker};
use id_puzzles::Words;
use kad_base::limits::MAX_PATHS;
use kad_base::{Link, NoMemory};
use lookup_core::{Asked, Quest};

/// Sends the query that was opened; false where the link couldn't.
fn send_query<L: Link>(link: &mut L, quest: &Quest, asked: &Asked) -> bool
    ensures sent { result ≡ true → Grows (L.told link.old) (L.told link.new)
        (λ es. es ≡ Sent asked.now.contact.addr (form (query_message quest.now asked.now.tx)) ∷ []) }
    ensures unsent { result ≡ false → Grows (L.told link.old) (L.told link.new)
        (λ es. es ≡ Unsent asked.now.contact.addr (form (query_message quest.now asked.now.tx)) ∷ []) }
    ensures moment { L.moment link.new ≡ L.moment link.old }
    ensures recv_faults { L.recv_faults link.new ≡ L.recv_faults link.old }
    ensures send_faults { L.send_faults link.old ≤ L.send_faults link.new }
    ensures well { result ≡ true → L.send_faults link.new ≡ L.send_faults link.old }
    ensures failed { result ≡ false → Rose (L.send_faults link.old) (L.send_faults link.new) }
    ensures kept { L.kept link.new ≡ L.kept link.old }
{
    let mut buf = [0u8; 192];
    let len = quest.query_into(&mut buf, asked.tx);
    match link.send(asked.contact.addr, &buf[..len]) {
        Ok(()) => true,
        Err(_) => false,
    }
}

/// Asks what the path of the lookup asks now, under the next word; false where it may ask none, and then no word is drawn.
/// A contact whose query can't be sent is lost.
fn ask_next<L: Link>(
    link: &mut L,
    seeker: &mut Seeker,
    words: &mut Words,
    moment: u64,
    path: u8,
) -> bool
    requires { CanAsk seeker.old.quest moment words.old seeker.old.lookup }
    ensures some { result ≡ true → AsksOver moment words.old path seeker.old seeker.new
        (L.told link.old) (L.told link.new) }
    ensures drawn { result ≡ true → words.new ≡ record words.old { place = words.old.place + 1 } }
    ensures quest { seeker.new.quest ≡ seeker.old.quest }
    ensures gathered { seeker.new.gathered ≡ seeker.old.gathered }
    ensures seat { SameSeat seeker.old seeker.new }
    ensures holds { Holding seeker.new }
    ensures none { result ≡ false → may_ask seeker.old.lookup.book.setting path
        seeker.old.lookup.book.journal ≡ None }
    ensures same { result ≡ false → seeker.new ≡ seeker.old }
    ensures same_words { result ≡ false → words.new ≡ words.old }
    ensures same_told { result ≡ false → L.told link.new ≡ L.told link.old }
    ensures moment { L.moment link.new ≡ L.moment link.old }
    ensures recv_faults { L.recv_faults link.new ≡ L.recv_faults link.old }
    ensures refuses { Refuses seeker.old.lookup.book.journal seeker.new.lookup.book.journal
        (L.send_faults link.old) (L.send_faults link.new) }
    ensures kept { L.kept link.new ≡ L.kept link.old }
{
    let asked = match seeker.lookup.ask(words, &seeker.quest, moment, path) {
        Some(asked) => asked,
        None => return false,
    };
    if send_query(link, &seeker.quest, &asked) {
        return true;
    }
    seeker.lookup.unsent(asked);
    true
}

/// Asks what the path of the i-th lookup asks now, under the next word of all; false where it may ask none. Whatever the
/// events told of each lookup's journal they go on to tell, with one query more, which this lookup owns.
fn ask_one<L: Link>(
    link: &mut L,
    seekers: &mut [Seeker],
    i: usize,
    words: &mut Words,
    progress: &Progress,
    path: u8,
) -> bool
    requires within { i < length seekers.old }
    requires may { MayAskAll seekers.old progress.now words.old }
    requires none_before { NoneBefore i path seekers.old }
    ensures len { length seekers.new ≡ length seekers.old }
    ensures asks { result ≡ true → (accepts : Accepts) (tags : Tags) (server : ServeSetting)
        (host : Hands) → AsksAll accepts tags server
        (stand seekers.old progress.now words.old host (L.told link.old))
        (stand seekers.new progress.now words.new host (L.told link.new)) [] (i ∷ []) }
    ensures one { result ≡ true → asks_of seekers.new ≡ asks_of seekers.old + 1 }
    ensures may { result ≡ true → MayAskAll seekers.new progress.now words.new }
    ensures none_before { result ≡ true → NoneBefore i path seekers.new }
    ensures none { result ≡ false → NoneBefore i (path + 1) seekers.new }
    ensures same { result ≡ false → seekers.new ≡ seekers.old }
    ensures same_words { result ≡ false → words.new ≡ words.old }
    ensures same_told { result ≡ false → L.told link.new ≡ L.told link.old }
    ensures moment { L.moment link.new ≡ L.moment link.old }
    ensures recv_faults { L.recv_faults link.new ≡ L.recv_faults link.old }
    ensures loses { LosesMore seekers.old seekers.new (L.send_faults link.old) (L.send_faults link.new) }
    ensures kept { L.kept link.new ≡ L.kept link.old }
{
    ask_next(link, &mut seekers[i], words, progress.moment, path)
}

/// Asks what the path asks now, and writes down whose the query is; false where it may ask none. The room for that is taken
/// first, so that no query is sent without its owner.
fn ask_written<L: Link>(
    link: &mut L,
    seekers: &mut [Seeker],
    i: usize,
    words: &mut Words,
    progress: &Progress,
    path: u8,
    owners: &mut Vec<u64>,
) -> Result<bool, NoMemory>
    requires within { i < length seekers.old }
    requires may { MayAskAll seekers.old progress.now words.old }
    requires none_before { NoneBefore i path seekers.old }
    ensures len { length seekers.new ≡ length seekers.old }
    ensures asks { (accepts : Accepts) (tags : Tags) (server : ServeSetting) (host : Hands)
        → AsksAll accepts tags server
        (stand seekers.old progress.now words.old host (L.told link.old))
        (stand seekers.new progress.now words.new host (L.told link.new)) owners.old.items owners.new.items }
    ensures one { result ≡ Ok true → asks_of seekers.new ≡ asks_of seekers.old + 1 }
    ensures may { MayAskAll seekers.new progress.now words.new }
    ensures none_before { NoneBefore i path seekers.new }
    ensures none { result ≡ Ok false → NoneBefore i (path + 1) seekers.new }
    ensures moment { L.moment link.new ≡ L.moment link.old }
    ensures recv_faults { L.recv_faults link.new ≡ L.recv_faults link.old }
    ensures loses { LosesMore seekers.old seekers.new (L.send_faults link.old) (L.send_faults link.new) }
    ensures kept { L.kept link.new ≡ L.kept link.old }
{
    if owners.reserve(1).is_err() {
        return Err(NoMemory);
    }
    if !ask_one(link, seekers, i, words, progress, path) {
        return Ok(false);
    }
    owners.push_reserved(i as u64);
    Ok(true)
}

/// Asks all that the path may ask.
fn ask_path<L: Link>(
    link: &mut L,
    seekers: &mut [Seeker],
    i: usize,
    words: &mut Words,
    progress: &Progress,
    path: u8,
    owners: &mut Vec<u64>,
) -> Result<(), NoMemory>
    requires within { i < length seekers.old }
    requires may { MayAskAll seekers.old progress.now words.old }
    requires none_before { NoneBefore i path seekers.old }
    ensures len { length seekers.new ≡ length seekers.old }
    ensures asks { (accepts : Accepts) (tags : Tags) (server : ServeSetting) (host : Hands)
        → AsksAll accepts tags server
        (stand seekers.old progress.now words.old host (L.told link.old))
        (stand seekers.new progress.now words.new host (L.told link.new)) owners.old.items owners.new.items }
    ensures may { MayAskAll seekers.new progress.now words.new }
    ensures none { OnOk result (NoneBefore i (path + 1) seekers.new) }
    ensures moment { L.moment link.new ≡ L.moment link.old }
    ensures recv_faults { L.recv_faults link.new ≡ L.recv_faults link.old }
    ensures loses { LosesMore seekers.old seekers.new (L.send_faults link.old) (L.send_faults link.new) }
    ensures kept { L.kept link.new ≡ L.kept link.old }
{
    'asking: loop {
        match ask_written(link, seekers, i, words, progress, path, owners) {
            Ok(true) => {}
            Ok(false) => return Ok(()),
            Err(NoMemory) => return Err(NoMemory),
        }
    }
}

/// Asks all that the lookup may ask, path by path. A path that it doesn't have may ask nothing.
fn ask_lookup<L: Link>(
    link: &mut L,
    seekers: &mut [Seeker],
    i: usize,
    words: &mut Words,
    progress: &Progress,
    owners: &mut Vec<u64>,
) -> Result<(), NoMemory>
    requires within { i < length seekers.old }
    requires may { MayAskAll seekers.old progress.now words.old }
    requires none_before { NoneBefore i 0 seekers.old }
    ensures len { length seekers.new ≡ length seekers.old }
    ensures asks { (accepts : Accepts) (tags : Tags) (server : ServeSetting) (host : Hands)
        → AsksAll accepts tags server
        (stand seekers.old progress.now words.old host (L.told link.old))
        (stand seekers.new progress.now words.new host (L.told link.new)) owners.old.items owners.new.items }
    ensures may { MayAskAll seekers.new progress.now words.new }
    ensures none { OnOk result (NoneBefore (i + 1) 0 seekers.new) }
    ensures moment { L.moment link.new ≡ L.moment link.old }
    ensures recv_faults { L.recv_faults link.new ≡ L.recv_faults link.old }
    ensures loses { LosesMore seekers.old seekers.new (L.send_faults link.old) (L.send_faults link.new) }
    ensures kept { L.kept link.new ≡ L.kept link.old }
{
    for path in 0..MAX_PATHS {
        match ask_path(link, seekers, i, words, progress, path, owners) {
            Ok(()) => {}
            Err(NoMemory) => return Err(NoMemory),
        }
    }
    Ok(())
}

/// Asks all that all lookups may ask, lookup by lookup, path by path, and writes down whose each query is. Where memory runs
/// out each query that was sent has its owner, and the next isn't sent.
pub(crate) fn ask_all<L: Link>(
    link: &mut L,
    seekers: &mut [Seeker],
    words: &mut Words,
    progress: &Progress,
    owners: &mut Vec<u64>,
) -> Result<(), NoMemory>
    requires may { MayAskAll seekers.old progress.now words.old }
    ensures len { length seekers.new ≡ length seekers.old }
    ensures asks { (accepts : Accepts) (tags : Tags) (server : ServeSetting) (host : Hands)
        → AsksAll accepts tags server
        (stand seekers.old progress.now words.old host (L.told link.old))
        (stand seekers.new progress.now words.new host (L.told link.new)) owners.old.items owners.new.items }
    ensures none { OnOk result (AllByRecursion NoneAsks seekers.new) }
    ensures moment { L.moment link.new ≡ L.moment link.old }
    ensures recv_faults { L.recv_faults link.new ≡ L.recv_faults link.old }
    ensures loses { LosesMore seekers.old seekers.new (L.send_faults link.old) (L.send_faults link.new) }
    ensures kept { L.kept link.new ≡ L.kept link.old }
{
    for i in 0..seekers.len() {
        match ask_lookup(link, seekers, i, words, progress, owners) {
            Ok(()) => {}
            Err(NoMemory) => return Err(NoMemory),
        }
    }
    Ok(())
}
