//! What follows the lookups once all of them are over: queries to contacts that they found, of whose answers nothing is kept.
ghost use Rattle.std.specs.Prelude.{◌≡◌, ◌≤◌, ◌<◌, ◌+◌, ◌-◌, ◌^◌, ◌++◌, ◌∷◌, [], cond, drop, length, replicate, reverse, take, false, IfOk, IfErr, OnErr, OnOk, IsErrOf};
ghost use Rattle.std.specs.List.{AllByRecursion, AllZip};
ghost use Rattle.kad_base.specs.Failing.{FailsLast};
ghost use Rattle.kad_base.specs.Outside.{Grows, Rose};
ghost use Rattle.kad_base.specs.Words.{word, word_bytes};
ghost use Rattle.kad_krpc.specs.declared.message.Message.TheVariants as Message;
ghost use Rattle.kad_krpc.specs.Form.{form, IsWritableAsk};
ghost use Rattle.node_serve.specs.Calls.{IsSetting};
ghost use Rattle.node_serve.specs.Receives.{tried};
ghost use Rattle.serve_crew.specs.Hands.{SameHands};
ghost use Rattle.lookup_crowd.specs.Many.{follow_bytes};
ghost use Rattle.lookup_crowd.specs.inner.Crowd.{SameSeat, standing};
ghost use Rattle.lookup_crowd.specs.inner.ManySteps.{IsOfDesk};
ghost use Rattle.look_many.specs.inner.Serving.{MayServe};
ghost use Rattle.look_many.specs.inner.Following.{CarriesOf, EndsSaying, Says};

use id_puzzles::Words;
use kad_base::{Addr, Link, List, NoMemory, Proof, put_bytes};
use kad_krpc::{Ask, Message, encode};
use lookup_crowd::{
    Buffers, Driver, FollowUp, ManyFault, Progress, Seeker, Site, all_legal, receive_until,
};
use seal_tags::{Seal, SealCheck};
use std::alloc::Global;
use std::sync::Wait;

/// Whose the queries are that went out, in order: those of all, refused ones too, and the follow-ups that were sent.
#[derive(Drop)]
pub(crate) struct Log {
    pub owners: Vec<u64>,
    pub said: Vec<u64>,
}

impl Log {
    /// Of no query yet. Takes no memory.
    pub(crate) fn new(alloc: Global) -> Log
        ensures owners { result.owners.items ≡ [] }
        ensures said { result.said.items ≡ [] }
    {
        Log {
            owners: Vec::new(alloc),
            said: Vec::new(alloc),
        }
    }
}

/// The query as a datagram whose transaction id is to be written yet, so that no word is drawn for a query for which there
/// is no memory. The node answers others, so it isn't read-only (BEP 43), and brings the proof of its identifier, if it has one.
fn datagram(alloc: Global, proof: Option<Proof>, ask: Ask) -> Result<Vec<u8>, NoMemory>
    requires { IsWritableAsk proof ask }
    ensures { IfOk result (λ bytes. bytes.items ≡ form (Message.Query (replicate 4 0) false proof ask)) }
{
    let tx = match List::from_slice(alloc, &[0u8; 4]) {
        Ok(tx) => tx,
        Err(NoMemory) => return Err(NoMemory),
    };
    let message = Message::Query {
        tx,
        read_only: false,
        proof,
        ask,
    };
    match encode(alloc, &message) {
        Ok(bytes) => Ok(bytes.into_vec()),
        Err(NoMemory) => Err(NoMemory),
    }
}

/// Writes the transaction id of a query, which stands before its last seven bytes.
fn write_tx(bytes: &mut [u8], tx: u32)
    requires { 11 ≤ length bytes.old }
    ensures { bytes.new ≡ take (length bytes.old - 11) bytes.old ++ word_bytes tx
        ++ drop (length bytes.old - 7) bytes.old }
{
    put_bytes(bytes, bytes.len() - 11, &tx.to_le_bytes());
}

/// Sends what is asked under the next word, which is drawn only where there is memory for the datagram; false where the link
/// couldn't send it.
fn send_one<L: Link>(
    alloc: Global,
    link: &mut L,
    words: &mut Words,
    to: Addr,
    proof: Option<Proof>,
    ask: Ask,
) -> Result<bool, NoMemory>
    requires carried { IsWritableAsk proof ask }
    requires place { words.old.place < 2 ^ 60 }
    ensures ok { IfOk result (λ was_sent. Grows (L.told link.old) (L.told link.new)
        (λ es. es ≡ tried was_sent to (follow_bytes proof (word words.old.seed words.old.place) ask) ∷ [])) }
    ensures drawn { OnOk result (words.new ≡ record words.old { place = words.old.place + 1 }) }
    ensures same_words { OnErr result (words.new ≡ words.old) }
    ensures same_told { OnErr result (L.told link.new ≡ L.told link.old) }
    ensures moment { L.moment link.new ≡ L.moment link.old }
    ensures recv_faults { L.recv_faults link.new ≡ L.recv_faults link.old }
    ensures send_faults { L.send_faults link.old ≤ L.send_faults link.new }
    ensures kept { L.kept link.new ≡ L.kept link.old }
{
    let mut bytes = match datagram(alloc, proof, ask) {
        Ok(bytes) => bytes,
        Err(NoMemory) => return Err(NoMemory),
    };
    let tx = words.next();
    write_tx(bytes.as_mut_slice(), tx);
    match link.send(to, bytes.as_slice()) {
        Ok(()) => Ok(true),
        Err(_) => Ok(false),
    }
}

/// One follow-up less has still to go out, and it begins a round of one receive.
fn begin_round(progress: &mut Progress)
    requires { 0 < progress.old.unsaid }
    ensures { progress.new ≡ record progress.old { receives = 1; unsaid = progress.old.unsaid - 1 } }
{
    progress.receives = 1;
    progress.unsaid -= 1;
}

/// Sends a follow-up, and writes down whose it is, twice where it was sent. The room for that is taken first, so that none is
/// sent without its owner.
fn say<L: Link>(
    alloc: Global,
    link: &mut L,
    progress: &mut Progress,
    words: &mut Words,
    log: &mut Log,
    proof: Option<Proof>,
    follow: FollowUp,
) -> Result<bool, NoMemory>
    requires carried { CarriesOf follow }
    requires place { words.old.place < 2 ^ 60 }
    requires some { 0 < progress.old.unsaid }
    ensures ok { IfOk result (λ was_sent. Grows (L.told link.old) (L.told link.new)
        (λ es. es ≡ tried was_sent follow.to (follow_bytes proof (word words.old.seed words.old.place) follow.ask) ∷ [])) }
    ensures drawn { OnOk result (words.new ≡ record words.old { place = words.old.place + 1 }) }
    ensures owners { OnOk result (log.new.owners.items ≡ log.old.owners.items ++ follow.owner ∷ []) }
    ensures said { IfOk result (λ was_sent. log.new.said.items
        ≡ log.old.said.items ++ cond was_sent (follow.owner ∷ []) []) }
    ensures progress { OnOk result (progress.new
        ≡ record progress.old { receives = 1; unsaid = progress.old.unsaid - 1 }) }
    ensures same_words { OnErr result (words.new ≡ words.old) }
    ensures same_told { OnErr result (L.told link.new ≡ L.told link.old) }
    ensures moment { L.moment link.new ≡ L.moment link.old }
    ensures recv_faults { L.recv_faults link.new ≡ L.recv_faults link.old }
    ensures send_faults { L.send_faults link.old ≤ L.send_faults link.new }
    ensures kept { L.kept link.new ≡ L.kept link.old }
{
    if log.owners.reserve(1).is_err() {
        return Err(NoMemory);
    }
    if log.said.reserve(1).is_err() {
        return Err(NoMemory);
    }
    let FollowUp { owner, to, ask } = follow;
    match send_one(alloc, link, words, to, proof, ask) {
        Ok(true) => {
            log.owners.push_reserved(owner);
            log.said.push_reserved(owner);
            begin_round(progress);
            Ok(true)
        }
        Ok(false) => {
            log.owners.push_reserved(owner);
            begin_round(progress);
            Ok(false)
        }
        Err(NoMemory) => Err(NoMemory),
    }
}

/// The follow-ups as they are taken from, the first one last.
fn last_first(plan: List<FollowUp>) -> Vec<FollowUp>
    ensures { reverse result.items ≡ plan }
{
    let mut left = plan.into_vec();
    left.as_mut_slice().reverse();
    left
}

/// Sends all follow-ups in order, where all lookups are over, and makes one receive call behind each, which waits for nothing:
/// what came is answered.
pub(crate) fn follow_all<R: Wait, L: Link, C, G: Seal + SealCheck>(
    site: &Site<R, C, G>,
    link: &mut L,
    driver: &mut Driver,
    seekers: &mut [Seeker],
    words: &mut Words,
    log: &mut Log,
    plan: List<FollowUp>,
) -> Result<(), ManyFault>
    requires setting { IsSetting site.now.desk.setting.now }
    requires own { IsOfDesk site.now.desk driver.old.host }
    requires may { MayServe seekers.old driver.old.progress }
    requires unsaid { driver.old.progress.unsaid ≡ length plan }
    requires carried { AllByRecursion CarriesOf plan }
    requires place { words.old.place + length plan ≤ 2 ^ 60 }
    requires moment { L.moment link.old ≡ driver.old.progress.moment }
    ensures same { SameHands driver.old.host driver.new.host }
    ensures len { length seekers.new ≡ length seekers.old }
    ensures seats { AllZip SameSeat seekers.old seekers.new }
    ensures says { OnOk result (Says plan (G.accepted site.now.seal.now) (G.tag_of site.now.seal.now) site.now.desk.setting.now
        (standing seekers.old driver.old words.old (L.told link.old))
        (standing seekers.new driver.new words.new (L.told link.new))
        log.old.owners.items log.new.owners.items log.old.said.items log.new.said.items) }
    ensures unsaid { OnOk result (driver.new.progress.unsaid ≡ 0) }
    ensures moment { OnOk result (L.moment link.new ≡ driver.new.progress.moment) }
    ensures stops { IfErr result (λ fault. EndsSaying fault plan
        (G.accepted site.now.seal.now) (G.tag_of site.now.seal.now) site.now.desk.setting.now
        (standing seekers.old driver.old words.old (L.told link.old)) words.new driver.new.host
        (L.told link.new)) }
    ensures strays { ¬ IsErrOf result ManyFault.Strays }
    ensures link { IsErrOf result ManyFault.LinkFault
        → Rose (L.recv_faults link.old) (L.recv_faults link.new) }
    ensures last { IsErrOf result ManyFault.LinkFault
        → FailsLast L.told L.recv_faults link.old link.new }
    ensures recv_faults { L.recv_faults link.old ≤ L.recv_faults link.new }
    ensures send_faults { L.send_faults link.old ≤ L.send_faults link.new }
    ensures well { ¬ IsErrOf result ManyFault.LinkFault
        → L.recv_faults link.new ≡ L.recv_faults link.old }
    ensures kept { L.kept link.new ≡ L.kept link.old }
{
    let mut buffers = Buffers::new();
    let mut left = last_first(plan);
    'following: while let Some(follow) = left.pop() {
        all_legal(seekers);
        match say(
            site.alloc,
            link,
            &mut driver.progress,
            words,
            log,
            site.desk.setting.proof,
            follow,
        ) {
            Ok(_) => {}
            Err(NoMemory) => return Err(ManyFault::NoMemory),
        }
        let until = driver.progress.moment;
        match receive_until(site, link, driver, seekers, false, until, &mut buffers) {
            Ok(()) => {}
            Err(fault) => return Err(fault),
        }
    }
    Ok(())
}
