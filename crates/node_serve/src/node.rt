//! The node, and its answer to a datagram.
ghost use Rattle.std.specs.Prelude.{◌≡◌, ◌↔◌, ◌<◌, ◌≤◌, length, take, IfOk, OnErr};
ghost use Rattle.std.specs.List.{All};
ghost use Rattle.kad_base.specs.Limits.{max_k, max_answered_tx};
ghost use Rattle.kad_base.specs.Puzzles.{Passes};
ghost use Rattle.kad_krpc.specs.Records.{ip_bytes};
ghost use Rattle.kad_krpc.specs.Views.{ask_seen};
ghost use Rattle.node_serve.specs.Asked.{IsSaid};
ghost use Rattle.node_serve.specs.NodeState.{new_node};
ghost use Rattle.node_serve.specs.AnswerOf.{Answers, EndsEarly, IfReply};
ghost use Rattle.node_serve.specs.Queries.{IsSilent};
ghost use Rattle.node_serve.specs.Gathered.{AnswersAsked, EndsAsked};
ghost use Rattle.node_serve.specs.declared.node.Answered.{Answered};

use crate::asked::{Asked, read_query};
use crate::holder::Own;
use crate::replying::respond;
use crate::setting::ServeSetting;
use contact_table::Table;
use item_store::Items;
use kad_base::limits::MAX_DATAGRAM;
use kad_base::{Addr, Id, NoMemory, Policy, Reports};
use node_tokens::Tokens;
use peer_store::Peers;
use seal_tags::Seal;
use std::alloc::Global;
use std::marker::Model;

/// What became of a datagram.
#[derive(Clone, Copy, Debug, PartialEq, Eq)]
pub enum Answered {
    /// A query was answered. The reply has this many bytes.
    Reply(usize),
    /// The datagram is owed no reply, and left the node as it was: it has more than 4,096 bytes, comes from port 0 or from
    /// an IPv6 address, is no message, or is one but no query with a transaction id of at most 32 bytes.
    Silent,
    /// There was no memory to answer a query. The table is as it was. Old peers or old items may have been dropped, and
    /// where the table alone had none the announced peer may be held.
    NoMemory,
}

/// What a node is: its identifier, how many contacts its replies name, 1 to 20, its policy, the moment from which on the
/// epochs of its tokens count, in milliseconds, and whether it is sealed: whether it tags each of its replies.
#[derive(Clone, Copy, Debug)]
pub struct Profile {
    pub own: Id,
    pub k: u8,
    pub policy: Policy,
    pub began: u64,
    pub sealed: bool,
}

/// A node that answers queries (BEP 5, BEP 44). It holds its routing table, at most 65,536 peers and 4,096 items, and the
/// proofs that it was given; of its tokens it keeps none. If the table has a limit of contacts of one host, peers and items
/// have the same of pairs and of items, and a list of peers begins at a point that is drawn for whoever asks.
#[derive(Drop)]
pub struct Node {
    alloc: Global,
    setting: ServeSetting,
    held: Own,
}

impl Model for Node {
    ghost use Rattle.node_serve.specs.NodeState.{NodeState};
    ghost use Rattle.node_serve.specs.Gathered.{IsOwn, node_of};

    ghost Value = { NodeState };

    ghost view = { λ n. node_of n.setting n.held };

    ghost invariant = { λ n. IsOwn n.setting n.held };
}

impl Node {
    /// A node with this routing table and its limit. Under a policy that asks for puzzles its replies name nodes of `proofs` too,
    /// and those whose proofs the table has of others. The secrets of its tokens are drawn from `random`. Takes no memory.
    pub fn new(
        alloc: Global,
        profile: Profile,
        table: Table,
        proofs: Reports,
        random: &[u8; 32],
    ) -> Node
        requires own { table.own ≡ profile.own }
        requires some_nodes { 0 < profile.k }
        requires few_nodes { profile.k ≤ max_k }
        requires proofs { All (Passes profile.policy) proofs }
        ensures { result ≡ new_node profile.own profile.k profile.policy table proofs random.now profile.began profile.sealed }
    {
        let limit = usize::from(table.per_address());
        let setting = ServeSetting {
            own: profile.own,
            k: profile.k,
            policy: profile.policy,
            proofs,
            tokens: Tokens::limited(random, profile.began, limit),
            sealed: profile.sealed,
            proof: None,
        };
        Node {
            alloc,
            setting,
            held: Own {
                table,
                peers: Peers::limited(alloc, limit),
                items: Items::limited(alloc, limit),
            },
        }
    }

    /// Its routing table, as the queries that it answered left it. All else is let go.
    pub fn into_table(self) -> Table
        ensures { result ≡ self.table }
    {
        let Node { held, .. } = self;
        let Own { table, .. } = held;
        table
    }

    /// Has the tokens keep the secrets of the epoch of this moment, so that no query of it draws them.
    fn renew_tokens(&mut self, at: u64)
        ensures { self.new ≡ self.old }
    {
        self.setting.tokens.renew(at);
    }

    /// Answers a query from what the node holds: its reply is written in front of `out`, and has this many bytes.
    fn answer_query<G: Seal>(
        &mut self,
        asked: &Asked,
        at: u64,
        seal: &G,
        out: &mut [u8; MAX_DATAGRAM],
    ) -> Result<usize, NoMemory>
        requires ip { ip_bytes asked.now.from.ip ≡ asked.now.ip }
        requires short { length asked.now.tx.now ≤ max_answered_tx }
        requires said { IsSaid (ask_seen asked.now.ask) }
        ensures ok { IfOk result (λ n. AnswersAsked (G.tag_of seal.now) self.old asked.now at
            (take n out.new) self.new) }
        ensures room { IfOk result (λ n. n ≤ 4096) }
        ensures err { OnErr result (EndsAsked self.old asked.now at self.new) }
    {
        respond(
            &mut self.held,
            self.alloc,
            &self.setting,
            asked,
            at,
            seal,
            out,
        )
    }

    /// Answers a datagram that came from this address at this moment, in milliseconds. The reply is written in front of
    /// `out`, and made from what the node held before: the nodes that a query asks for, peers or an item with a token for
    /// its source, or a refusal. An announced peer is held where its token is that of its source, and so is an immutable
    /// item of at most 1,000 bytes (BEP 44), for two hours. After a query of BEP 5 the table is told who asked, unless the
    /// query is read-only (BEP 43), or the policy asks for puzzles and it brings no proof that solves them. A sealed node puts the seal's tag into each reply, an error message
    /// too. Reading, writing and tagging take no memory; the parts of the reply do, and an item that is put.
    pub fn answer<G: Seal>(
        &mut self,
        from: Addr,
        bytes: &[u8],
        at: u64,
        seal: &G,
        out: &mut [u8; MAX_DATAGRAM],
    ) -> Answered
        ensures silent { (result ≡ Answered.Silent) ↔ IsSilent from bytes.now }
        ensures unchanged { result ≡ Answered.Silent → self.new ≡ self.old }
        ensures reply { IfReply result (λ n. Answers (G.tag_of seal.now) self.old from bytes.now at
            (take n out.new) self.new) }
        ensures room { IfReply result (λ n. n ≤ 4096) }
        ensures no_memory { result ≡ Answered.NoMemory
            → EndsEarly self.old from bytes.now at self.new }
    {
        match read_query(from, bytes) {
            None => Answered::Silent,
            Some(asked) => {
                self.renew_tokens(at);
                match self.answer_query(&asked, at, seal, out) {
                    Ok(length) => Answered::Reply(length),
                    Err(NoMemory) => Answered::NoMemory,
                }
            }
        }
    }
}
