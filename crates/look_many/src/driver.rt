//! Several lookups and the node that serves meanwhile, from where they begin to where as many receives were made as are
//! wanted, or the end by time has come.
ghost use Rattle.std.specs.Prelude.{◌≡◌, ◌≤◌, ◌<◌, ◌+◌, ◌^◌, [], suc, length, map, reverse, vec_capacity, IfOk, IfErr, OnOk, OnErr, IsErrOf, ◌∷◌};
ghost use Rattle.std.specs.List.{All, AllByRecursion, AllZip, range_with_len};
ghost use Rattle.kad_base.specs.Contacts.{IsUsable};
ghost use Rattle.kad_base.specs.Failing.{FailsLast};
ghost use Rattle.kad_base.specs.Outside.{Rose};
ghost use Rattle.turn_book.specs.Turns.{fresh};
ghost use Rattle.contact_table.specs.TableStep.{contacts_of};
ghost use Rattle.node_serve.specs.Calls.{IsSetting};
ghost use Rattle.serve_crew.specs.Hands.{SameHands};
ghost use Rattle.serve_crew.specs.Opening.{AreEmpty, AreFresh, HaveAll, HaveRoles};
ghost use Rattle.kad_base.specs.Limits.{max_lookups};
ghost use Rattle.lookup_crowd.specs.inner.Crowd.{LosesMore, standing};
ghost use Rattle.lookup_crowd.specs.inner.ManySteps.{IsOfDesk, IsRunOut, IsSeated};
ghost use Rattle.lookup_crowd.specs.inner.Going.{Begins, SameSeats};
ghost use Rattle.look_many.specs.Job.{MaySayOf};
ghost use Rattle.look_many.specs.ManyLooked.{CountsUnsent, IsWithinLimits, ManyLooked, ManyStopped, journals_of};
ghost use Rattle.look_many.specs.inner.Following.{CarriesOf};
ghost use Rattle.look_many.specs.inner.Kept.{follows_kept};
ghost use Rattle.look_many.specs.inner.Going.{EndsWhole, WentWhole};
ghost use Rattle.look_many.specs.inner.Seats.{AreBack, IsAlone, IsBookFor, IsSeekerFor, RolesFrom, done_of, new_host};
ghost use Rattle.look_many.specs.inner.Ends.{FoundBack, StoppedBack, task};

use crate::finish::{Done, finish_all, gather};
use crate::follow::{Log, follow_all};
use crate::found::{Many, ManySetting};
use crate::given::{Given, Wanted};
use crate::job::Job;
use crate::opening::{next_pass, open_books, seat_all, stack_up};
use crate::plan::plan;
use crate::serving::serve_on;
use claim_book::Book;
use contact_table::Table;
use id_puzzles::Words;
use kad_base::{Link, List, NoMemory, Numbers, Serial};
use lookup_crowd::{Driver, FollowUp, ManyFault, Progress, Seeker, Site, all_legal, go_rounds};
use node_serve::{ServeSetting, end_of};
use path_worker::PacedCheck;
use seal_tags::{Seal, SealCheck};
use serve_crew::{Desk, Rows, ServeWorker, Turns};
use std::alloc::Global;
use std::hash::RandomState;
use std::sync::Wait;
use std::thread::Threads;
use turn_book::{Pass, Passes, Turn, TurnNoMemory};

/// Lists what follows the lookups, which are over, and notes how many queries that is.
fn owe(
    alloc: Global,
    desk: &Desk,
    jobs: &[Job],
    seekers: &mut [Seeker],
    progress: &mut Progress,
) -> Result<List<FollowUp>, NoMemory>
    requires jobs { length jobs.now ≡ length seekers.old }
    requires carried { AllByRecursion MaySayOf jobs.now }
    requires over { AllByRecursion IsRunOut seekers.old }
    requires few { length seekers.old ≤ max_lookups }
    requires small { AllByRecursion (λ k. k.lookup.book.setting.k < 256) seekers.old }
    ensures same { seekers.new ≡ seekers.old }
    ensures plan { IfOk result (λ plan. plan ≡ follows_kept desk.now.setting.now.own 0 jobs.now seekers.old) }
    ensures carried { IfOk result (AllByRecursion CarriesOf) }
    ensures few { IfOk result (λ plan. length plan ≤ 65536) }
    ensures owes { IfOk result (λ plan. progress.new ≡ record progress.old { unsaid = length plan }) }
    ensures same_progress { OnErr result (progress.new ≡ progress.old) }
{
    match plan(alloc, desk.setting.own, jobs, seekers) {
        Ok(plan) => {
            progress.unsaid = plan.len() as u64;
            Ok(plan)
        }
        Err(NoMemory) => Err(NoMemory),
    }
}

/// Goes all rounds of the lookups, sends the follow-ups, and then serves on.
fn go<R: Threads + Wait + Sync, L: Link, C: PacedCheck + Sync, G: Seal + SealCheck>(
    site: &Site<R, C, G>,
    link: &mut L,
    driver: &mut Driver,
    seekers: &mut [Seeker],
    words: &mut Words,
    log: &mut Log,
    jobs: &[Job],
) -> Result<(), ManyFault>
    requires setting { IsSetting site.now.desk.setting.now }
    requires jobs { length jobs.now ≡ length seekers.old }
    requires carried { AllByRecursion MaySayOf jobs.now }
    requires own { IsOfDesk site.now.desk driver.old.host }
    requires seated { AllByRecursion (IsSeated site.now.desk.turns.now.table) seekers.old }
    requires begins { Begins (standing seekers.old driver.old words.old (L.told link.old)) }
    requires some_query { AllByRecursion (λ k. 1 ≤ k.lookup.book.setting.alpha) seekers.old }
    requires none_owned { log.old.owners.items ≡ [] }
    requires none_said { log.old.said.items ≡ [] }
    requires moment { L.moment link.old ≡ driver.old.progress.moment }
    ensures same { SameHands driver.old.host driver.new.host }
    ensures len { length seekers.new ≡ length seekers.old }
    ensures seats { SameSeats seekers.old seekers.new }
    ensures went { OnOk result (WentWhole (G.accepted site.now.seal.now) (G.tag_of site.now.seal.now) site.now.desk.setting.now jobs.now
        (standing seekers.old driver.old words.old (L.told link.old))
        (standing seekers.new driver.new words.new (L.told link.new)) log.new.owners.items
        log.new.said.items) }
    ensures ends { IfErr result (λ fault. EndsWhole fault (G.accepted site.now.seal.now) (G.tag_of site.now.seal.now)
        site.now.desk.setting.now jobs.now (standing seekers.old driver.old words.old (L.told link.old))
        words.new driver.new.host (L.told link.new)) }
    ensures link { IsErrOf result ManyFault.LinkFault
        → Rose (L.recv_faults link.old) (L.recv_faults link.new) }
    ensures last { IsErrOf result ManyFault.LinkFault
        → FailsLast L.told L.recv_faults link.old link.new }
    ensures recv_faults { L.recv_faults link.old ≤ L.recv_faults link.new }
    ensures loses { OnOk result (LosesMore seekers.old seekers.new (L.send_faults link.old) (L.send_faults link.new)) }
    ensures well { ¬ IsErrOf result ManyFault.LinkFault
        → L.recv_faults link.new ≡ L.recv_faults link.old }
    ensures kept { L.kept link.new ≡ L.kept link.old }
{
    match go_rounds(site, link, driver, seekers, words, &mut log.owners) {
        Ok(()) => {}
        Err(fault) => return Err(fault),
    }
    all_legal(seekers);
    let _left = driver.progress.left;
    let plan = match owe(site.alloc, &site.desk, jobs, seekers, &mut driver.progress) {
        Ok(plan) => plan,
        Err(NoMemory) => return Err(ManyFault::NoMemory),
    };
    match follow_all(site, link, driver, seekers, words, log, plan) {
        Ok(()) => {}
        Err(fault) => return Err(fault),
    }
    match serve_on(site, link, driver, seekers) {
        Ok(()) => {
            all_legal(seekers);
            Ok(())
        }
        Err(fault) => Err(fault),
    }
}

/// The room that the lookups need, taken before anything begins: their books, the last one's first; themselves; their passes,
/// while they are handed out; and what is left of them in the end.
#[derive(Drop)]
struct Room {
    books: Vec<Book>,
    seekers: Vec<Seeker>,
    stack: Vec<Pass<Table>>,
    done: Vec<Done>,
}

/// Takes all room, and opens the books.
fn take_room(
    alloc: Global,
    table: &mut Table,
    server: &ServeSetting,
    setting: &ManySetting,
    jobs: &[Job],
    hasher: RandomState,
) -> Result<Room, NoMemory>
    requires limits { IsWithinLimits setting.now }
    requires usable { All (IsUsable server.now.own) (contacts_of table.old) }
    ensures books { IfOk result (λ room. AllZip (IsBookFor server.now setting.now table.old) jobs.now
        (reverse room.books.items)) }
    ensures none_done { IfOk result (λ room. room.done.items ≡ []) }
    ensures done_room { IfOk result (λ room. length jobs.now ≤ vec_capacity room.done) }
    ensures no_seekers { IfOk result (λ room. room.seekers.items ≡ []) }
    ensures seeker_room { IfOk result (λ room. length jobs.now ≤ vec_capacity room.seekers) }
    ensures no_stack { IfOk result (λ room. room.stack.items ≡ []) }
    ensures stack_room { IfOk result (λ room. length jobs.now + 1 ≤ vec_capacity room.stack) }
    ensures table { table.new ≡ table.old }
{
    let Ok(seekers) = Vec::with_capacity(alloc, jobs.len()) else {
        return Err(NoMemory);
    };
    let Ok(stack) = Vec::with_capacity(alloc, jobs.len() + 1) else {
        return Err(NoMemory);
    };
    let Ok(done) = Vec::with_capacity(alloc, jobs.len()) else {
        return Err(NoMemory);
    };
    match open_books(alloc, table, server, setting, jobs, hasher) {
        Ok(books) => Ok(Room {
            books,
            seekers,
            stack,
            done,
        }),
        Err(NoMemory) => Err(NoMemory),
    }
}

/// The only pass of a turn that has one.
fn only_pass<S: Serial>(turn: &Turn<S>, row: &mut Passes<S>) -> Pass<S>
    requires one { row.old.passes ≡ fresh turn.now.id 0 ∷ [] }
    ensures pass { result ≡ fresh turn.now.id 0 }
    ensures row { row.new.passes ≡ [] }
    ensures room { row.new.room ≡ row.old.room }
{
    let _ = turn;
    let Some(pass) = row.pop() else {
        unreachable!()
    };
    pass
}

/// Makes the lookups and the node that serves of the passes of three turns.
fn seat(
    alloc: Global,
    desk: &Desk,
    wanted: &Wanted,
    rows: &mut Rows,
    room: &mut Room,
) -> ServeWorker
    requires books { AllZip (IsBookFor desk.now.setting.now wanted.now.setting desk.now.turns.now.table.start) wanted.now.jobs.now
        (reverse room.old.books.items) }
    requires no_seekers { room.old.seekers.items ≡ [] }
    requires seeker_room { length wanted.now.jobs.now ≤ vec_capacity room.old.seekers }
    requires no_stack { room.old.stack.items ≡ [] }
    requires stack_room { length wanted.now.jobs.now + 1 ≤ vec_capacity room.old.stack }
    requires fresh { AreFresh (length wanted.now.jobs.now + 1) 1 desk.now.turns.now rows.old }
    ensures host { result ≡ new_host desk.now.turns.now }
    ensures seekers { AllZip (IsSeekerFor desk.now.setting.now wanted.now.setting desk.now.turns.now.table.start) wanted.now.jobs.now
        room.new.seekers.items }
    ensures passes { map (λ k. k.pass) room.new.seekers.items ≡ map (fresh desk.now.turns.now.table.id)
        (range_with_len 1 (length wanted.now.jobs.now)) }
    ensures done { room.new.done ≡ room.old.done }
    ensures empty { AreEmpty (length wanted.now.jobs.now + 1) 1 rows.new }
{
    stack_up(&mut rows.table, &mut room.stack);
    let table_pass = next_pass(&mut room.stack);
    let peers_pass = only_pass(&desk.turns.peers, &mut rows.peers);
    let items_pass = only_pass(&desk.turns.items, &mut rows.items);
    let host = ServeWorker::new(alloc, table_pass, peers_pass, items_pass);
    seat_all(
        alloc,
        desk,
        &wanted.setting,
        wanted.jobs,
        &mut room.stack,
        &mut room.books,
        &mut room.seekers,
    );
    host
}

/// Puts all passes back, and keeps what is left of each lookup.
fn put_back(
    desk: &Desk,
    host: ServeWorker,
    seekers: Vec<Seeker>,
    rows: &mut Rows,
    done: &mut Vec<Done>,
)
    requires own { IsOfDesk desk.now host }
    requires alone { IsAlone host }
    requires seated { AllByRecursion (IsSeated desk.now.turns.now.table) seekers.items }
    requires roles { RolesFrom 1 seekers.items }
    requires turns { HaveRoles (length seekers.items + 1) 1 desk.now.turns.now }
    requires empty { AreEmpty (length seekers.items + 1) 1 rows.old }
    requires none_done { done.old.items ≡ [] }
    requires done_room { length seekers.items ≤ vec_capacity done.old }
    ensures all { HaveAll desk.now.turns.now rows.new }
    ensures back { AreBack rows.new host seekers.items }
    ensures done { done.new.items ≡ map done_of (reverse seekers.items) }
{
    let _ = desk;
    let (table_pass, peers_pass, items_pass) = host.into_passes();
    rows.table.push(table_pass);
    rows.peers.push(peers_pass);
    rows.items.push(items_pass);
    gather(&mut rows.table, seekers, done);
}

/// Makes the lookups and the node that serves of the passes of three turns, goes on with them, and puts all passes back.
fn work<R: Threads + Wait + Sync, L: Link, C: PacedCheck + Sync, G: Seal + SealCheck>(
    site: &Site<R, C, G>,
    link: &mut L,
    words: &mut Words,
    wanted: &Wanted,
    rows: &mut Rows,
    mut room: Room,
) -> Result<Many, ManyFault>
    requires setting { IsSetting site.now.desk.setting.now }
    requires few { length wanted.now.jobs.now ≤ max_lookups }
    requires carried { AllByRecursion MaySayOf wanted.now.jobs.now }
    requires limits { IsWithinLimits wanted.now.setting }
    requires small { site.now.desk.setting.now.k < 256 }
    requires place { words.old.place < 2 ^ 59 }
    requires books { AllZip (IsBookFor site.now.desk.setting.now wanted.now.setting site.now.desk.turns.now.table.start) wanted.now.jobs.now
        (reverse room.books.items) }
    requires none_done { room.done.items ≡ [] }
    requires done_room { length wanted.now.jobs.now ≤ vec_capacity room.done }
    requires no_seekers { room.seekers.items ≡ [] }
    requires seeker_room { length wanted.now.jobs.now ≤ vec_capacity room.seekers }
    requires no_stack { room.stack.items ≡ [] }
    requires stack_room { length wanted.now.jobs.now + 1 ≤ vec_capacity room.stack }
    requires fresh { AreFresh (length wanted.now.jobs.now + 1) 1 site.now.desk.turns.now rows.old }
    ensures all { HaveAll site.now.desk.turns.now rows.new }
    ensures ok { IfOk result (FoundBack (task (G.accepted site.now.seal.now) (G.tag_of site.now.seal.now) site.now.desk.setting.now wanted.now.setting wanted.now.jobs.now wanted.now.lasting)
        site.now.desk.turns.now rows.new
        words.old words.new (L.told link.old) (L.told link.new)) }
    ensures stopped { IfErr result (StoppedBack (task (G.accepted site.now.seal.now) (G.tag_of site.now.seal.now) site.now.desk.setting.now wanted.now.setting wanted.now.jobs.now wanted.now.lasting)
        site.now.desk.turns.now rows.new
        words.old words.new (L.told link.old) (L.told link.new)) }
    ensures link { IsErrOf result ManyFault.LinkFault
        → Rose (L.recv_faults link.old) (L.recv_faults link.new) }
    ensures last { IsErrOf result ManyFault.LinkFault
        → FailsLast L.told L.recv_faults link.old link.new }
    ensures recv_faults { L.recv_faults link.old ≤ L.recv_faults link.new }
    ensures refused { IfOk result (λ many. CountsUnsent (journals_of many.outcomes) (L.send_faults link.old) (L.send_faults link.new)) }
    ensures well { ¬ IsErrOf result ManyFault.LinkFault
        → L.recv_faults link.new ≡ L.recv_faults link.old }
    ensures kept { L.kept link.new ≡ L.kept link.old }
{
    let host = seat(site.alloc, &site.desk, wanted, rows, &mut room);
    let began = link.now();
    let progress = Progress {
        moment: began,
        receives: 0,
        foreign: 0,
        left: wanted.lasting.receives,
        end: end_of(began, wanted.lasting.minutes),
        received: 0,
        replied: 0,
        unsaid: 0,
    };
    let mut driver = Driver { host, progress };
    let mut log = Log::new(site.alloc);
    let ended = go(
        site,
        link,
        &mut driver,
        room.seekers.as_mut_slice(),
        words,
        &mut log,
        wanted.jobs,
    );
    put_back(&site.desk, driver.host, room.seekers, rows, &mut room.done);
    match ended {
        Ok(()) => {}
        Err(fault) => return Err(fault),
    }
    match finish_all(site.alloc, room.done, log.said.as_slice()) {
        Ok(outcomes) => Ok(Many {
            outcomes,
            owners: Numbers::from_vec(log.owners),
            received: driver.progress.received,
            replied: driver.progress.replied,
        }),
        Err(NoMemory) => Err(ManyFault::NoMemory),
    }
}

/// Makes the lookups of up to sixteen jobs at the same time, each on its own disjoint paths (S/Kademlia, 2007, section 4.4) from
/// the k closest contacts of the table, and answers meanwhile what comes for none of them (BEP 5). When all lookups are over it
/// sends what they owe, in the order of the jobs: an `announce_peer` (BEP 5) or a `put` (BEP 44) to each contact of a job's result
/// that gave that job a token, without waiting for answers; behind each it makes one receive call, which doesn't wait. Then it
/// goes on answering until it has made as many receive calls in all as `lasting` says, or the moment told last is at or
/// past its end, counted from the first told moment: each of these calls waits for a minute, to the end at most. The end
/// cuts no lookup off. The node's identifier, k, policy and seal are the server's, so that its queries don't say that it is
/// read-only (BEP 43). A datagram is that lookup's, the first in order, which has an open query that it replies to. The
/// table comes back on every answer, after all calls that were made on it. Where a check says that it takes long, the
/// lookups settle at once after a round, each on a thread of its own. Strangers choose the contacts, so the hasher of the
/// books' indexes is handed in; no answer depends on it.
/// `Strays` comes with the 1,000,000th datagram for no lookup while a query is open, `LinkFault` where a receive failed.
pub fn look_many<R: Threads + Wait + Sync, L: Link, C: PacedCheck + Sync, G: Seal + SealCheck>(
    given: &Given<R, C, G>,
    link: &mut L,
    words: &mut Words,
    table: Table,
    wanted: &Wanted,
    hasher: RandomState,
) -> (Table, Result<Many, ManyFault>)
    requires setting { IsSetting given.now.server.now }
    requires limits { IsWithinLimits wanted.now.setting }
    requires small { given.now.server.now.k < 256 }
    requires few { length wanted.now.jobs.now ≤ max_lookups }
    requires carried { AllByRecursion MaySayOf wanted.now.jobs.now }
    requires usable { All (IsUsable given.now.server.now.own) (contacts_of table) }
    requires place { words.old.place < 2 ^ 59 }
    ensures ok { IfOk result.1 (ManyLooked (G.accepted given.now.seal.now) (G.tag_of given.now.seal.now) given.now.server.now wanted.now.setting wanted.now.jobs.now
        wanted.now.lasting table result.0 words.old words.new (L.told link.old) (L.told link.new)) }
    ensures stopped { IfErr result.1 (ManyStopped (G.accepted given.now.seal.now) (G.tag_of given.now.seal.now) given.now.server.now wanted.now.setting
        wanted.now.jobs.now wanted.now.lasting table result.0 words.old words.new (L.told link.old) (L.told link.new)) }
    ensures link { IsErrOf result.1 ManyFault.LinkFault
        → Rose (L.recv_faults link.old) (L.recv_faults link.new) }
    ensures last { IsErrOf result.1 ManyFault.LinkFault
        → FailsLast L.told L.recv_faults link.old link.new }
    ensures recv_faults { L.recv_faults link.old ≤ L.recv_faults link.new }
    ensures refused { IfOk result.1 (λ many. CountsUnsent (journals_of many.outcomes) (L.send_faults link.old) (L.send_faults link.new)) }
    ensures well { ¬ IsErrOf result.1 ManyFault.LinkFault
        → L.recv_faults link.new ≡ L.recv_faults link.old }
    ensures kept { L.kept link.new ≡ L.kept link.old }
{
    let mut table = table;
    let room = match take_room(
        given.alloc,
        &mut table,
        given.server,
        &wanted.setting,
        wanted.jobs,
        hasher,
    ) {
        Ok(room) => room,
        Err(NoMemory) => return (table, Err(ManyFault::NoMemory)),
    };
    let roles = wanted.jobs.len() as u8 + 1;
    let (turns, mut rows) = match Turns::open(given.alloc, table, roles, 1) {
        Ok(opened) => opened,
        Err(TurnNoMemory { state }) => return (state, Err(ManyFault::NoMemory)),
    };
    let site = Site {
        rt: given.rt,
        alloc: given.alloc,
        desk: Desk {
            setting: given.server,
            turns: &turns,
        },
        check: given.check,
        seal: given.seal,
    };
    let answer = work(&site, link, words, wanted, &mut rows, room);
    (turns.close(rows), answer)
}
