//! A worker that answers datagrams, at a turn over the table, one over the peers and one over the items.
ghost use Rattle.std.specs.Prelude.{◌≡◌, ◌≤◌, ◌↔◌, ℕ, List, [], ◌∷◌, length, take, IfOk, OnErr};
ghost use Rattle.kad_base.specs.Limits.{max_answered_tx};
ghost use Rattle.kad_krpc.specs.Records.{ip_bytes};
ghost use Rattle.kad_krpc.specs.Views.{ask_seen};
ghost use Rattle.contact_table.specs.TableState.{TableState};
ghost use Rattle.contact_table.specs.TableStep.{TableMay, TableStep};
ghost use Rattle.peer_store.specs.Peers.{PeersState};
ghost use Rattle.peer_store.specs.PeersStep.{PeersStep};
ghost use Rattle.item_store.specs.Items.{ItemsState};
ghost use Rattle.item_store.specs.ItemSteps.{ItemMay, ItemStep};
ghost use Rattle.node_serve.specs.Asked.{IsSaid};
ghost use Rattle.node_serve.specs.Calls.{IsSetting, on_table, on_peers, on_items};
ghost use Rattle.node_serve.specs.Queries.{IsSilent};
ghost use Rattle.node_serve.specs.Responses.{RepliesTo, StopsAt};
ghost use Rattle.node_serve.specs.declared.node.Answered.{Answered};
ghost use Rattle.serve_crew.specs.Hands.{SameHands, SamePass, Replied, does};
ghost use Rattle.serve_crew.specs.Serving.{Answers, TellsLost};

use crate::desk::{AtDesk, Desk};
use contact_table::{Table, TableCall, TableReply};
use item_store::{ItemCall, ItemReply, Items};
use kad_base::limits::MAX_DATAGRAM;
use kad_base::{Addr, Contact, NoMemory, Serial};
use node_serve::{Answered, Asked, read_query, respond};
use peer_store::{PeerCall, PeerReply, Peers};
use seal_tags::Seal;
use std::alloc::Global;
use std::marker::Model;
use std::sync::Wait;
use turn_book::{Pass, Turn};

/// Makes a call at a turn. Its reply is one that the rules allow in some state.
fn reply_to<S: Serial, R: Wait>(
    rt: &R,
    turn: &Turn<S>,
    pass: &mut Pass<S>,
    call: S::Call,
) -> S::Reply
    requires own { pass.old.turn ≡ turn.now.id }
    requires may { S.may pass.old.role call }
    ensures same { SamePass pass.old pass.new }
    ensures replied { Replied call result pass.old pass.new }
    ensures step { (s : S) × S.step s pass.old.role call result }
{
    turn.call(rt, pass, call)
}

/// A datagram that came: from where, and when, in milliseconds.
#[derive(Clone, Copy)]
pub struct Datagram<'a> {
    pub from: Addr,
    pub bytes: &'a [u8],
    pub at: u64,
}

/// A worker, with passes of one role at a turn over the routing table, one over the peers and one over the items that a
/// node keeps for others.
#[derive(Drop)]
pub struct ServeWorker {
    alloc: Global,
    table: Pass<Table>,
    peers: Pass<Peers>,
    items: Pass<Items>,
}

impl Model for ServeWorker {
    ghost use Rattle.serve_crew.specs.Hands.{Hands, HasOneRole};

    ghost Value = { Hands };

    ghost view = { λ w. record { table = w.table; peers = w.peers; items = w.items } };

    ghost invariant = { λ w. HasOneRole (record { table = w.table; peers = w.peers; items = w.items }) };
}

impl ServeWorker {
    ghost use Rattle.serve_crew.specs.Hands.{HasOneRole, hands, does};

    /// A worker with these passes. Takes no memory.
    pub fn new(
        alloc: Global,
        table: Pass<Table>,
        peers: Pass<Peers>,
        items: Pass<Items>,
    ) -> ServeWorker
        requires { HasOneRole (hands table peers items) }
        ensures { result ≡ hands table peers items }
    {
        ServeWorker {
            alloc,
            table,
            peers,
            items,
        }
    }

    /// The passes, so that the turns can be closed.
    pub fn into_passes(self) -> (Pass<Table>, Pass<Peers>, Pass<Items>)
        ensures table { result.0 ≡ self.table }
        ensures peers { result.1 ≡ self.peers }
        ensures items { result.2 ≡ self.items }
        ensures role { HasOneRole self }
    {
        (self.table, self.peers, self.items)
    }

    /// Makes a call on the table.
    pub(crate) fn call_table<R: Wait>(
        &mut self,
        rt: &R,
        turn: &Turn<Table>,
        call: TableCall,
    ) -> TableReply
        requires own { self.old.table.turn ≡ turn.now.id }
        requires may { TableMay self.old.table.role call }
        ensures does { does self.old (on_table call result) self.new }
        ensures step { (s : TableState) × (role : ℕ) × TableStep s role call result }
    {
        reply_to(rt, turn, &mut self.table, call)
    }

    /// Makes a call on the peers.
    pub(crate) fn call_peers<R: Wait>(
        &mut self,
        rt: &R,
        turn: &Turn<Peers>,
        call: PeerCall,
    ) -> PeerReply
        requires own { self.old.peers.turn ≡ turn.now.id }
        ensures does { does self.old (on_peers call result) self.new }
        ensures step { (s : PeersState) × (role : ℕ) × PeersStep s role call result }
    {
        reply_to(rt, turn, &mut self.peers, call)
    }

    /// Makes a call on the items.
    pub(crate) fn call_items<R: Wait>(
        &mut self,
        rt: &R,
        turn: &Turn<Items>,
        call: ItemCall,
    ) -> ItemReply
        requires own { self.old.items.turn ≡ turn.now.id }
        requires may { ItemMay self.old.items.role call }
        ensures does { does self.old (on_items call result) self.new }
        ensures step { (s : ItemsState) × (role : ℕ) × ItemStep s role call result }
    {
        reply_to(rt, turn, &mut self.items, call)
    }

    /// Answers a query at the desk: its reply is written in front of `out`, and has this many bytes.
    fn answer_query<R: Wait, G: Seal>(
        &mut self,
        rt: &R,
        desk: &Desk,
        asked: &Asked,
        at: u64,
        seal: &G,
        out: &mut [u8; MAX_DATAGRAM],
    ) -> Result<usize, NoMemory>
        requires setting { IsSetting desk.now.setting.now }
        requires table { self.old.table.turn ≡ desk.now.turns.now.table.id }
        requires peers { self.old.peers.turn ≡ desk.now.turns.now.peers.id }
        requires items { self.old.items.turn ≡ desk.now.turns.now.items.id }
        requires ip { ip_bytes asked.now.from.ip ≡ asked.now.ip }
        requires short { length asked.now.tx.now ≤ max_answered_tx }
        requires said { IsSaid (ask_seen asked.now.ask) }
        ensures ok { IfOk result (λ n. RepliesTo does (G.tag_of seal.now) desk.now.setting.now asked.now at
            (take n out.new) self.old self.new) }
        ensures room { IfOk result (λ n. n ≤ 4096) }
        ensures err { OnErr result (StopsAt does desk.now.setting.now asked.now at self.old self.new) }
    {
        let alloc = self.alloc;
        let mut hold = AtDesk {
            rt,
            turns: desk.turns,
            worker: self,
        };
        respond(&mut hold, alloc, desk.setting, asked, at, seal, out)
    }

    /// Answers a datagram at the desk. Its reply is written in front of `out`, made from what the calls for it were replied,
    /// and tagged where the setting is sealed. Where no reply is owed it makes no call. `NoMemory` leaves the calls that were
    /// made before. Reading, writing and tagging take no memory; the parts of the reply do, and an item that is put.
    pub fn answer<R: Wait, G: Seal>(
        &mut self,
        rt: &R,
        desk: &Desk,
        datagram: &Datagram,
        seal: &G,
        out: &mut [u8; MAX_DATAGRAM],
    ) -> Answered
        requires setting { IsSetting desk.now.setting.now }
        requires table { self.old.table.turn ≡ desk.now.turns.now.table.id }
        requires peers { self.old.peers.turn ≡ desk.now.turns.now.peers.id }
        requires items { self.old.items.turn ≡ desk.now.turns.now.items.id }
        ensures same { SameHands self.old self.new }
        ensures silent { (result ≡ Answered.Silent) ↔ IsSilent datagram.now.from datagram.now.bytes.now }
        ensures answers { Answers (G.tag_of seal.now) desk.now.setting.now datagram.now.from
            datagram.now.bytes.now datagram.now.at result out.new self.old self.new }
    {
        match read_query(datagram.from, datagram.bytes) {
            None => Answered::Silent,
            Some(asked) => match self.answer_query(rt, desk, &asked, datagram.at, seal, out) {
                Ok(length) => Answered::Reply(length),
                Err(NoMemory) => Answered::NoMemory,
            },
        }
    }

    /// Tells the table that the contact didn't answer a query of the node's own, as the worker of role 0 may alone. Takes
    /// no memory.
    pub fn lost<R: Wait>(&mut self, rt: &R, tables: &Turn<Table>, contact: Contact)
        requires table { self.old.table.turn ≡ tables.now.id }
        requires driver { self.old.table.role ≡ 0 }
        ensures same { SameHands self.old self.new }
        ensures tells { TellsLost contact self.old self.new }
    {
        self.call_table(rt, tables, TableCall::Failed { contact });
    }
}
