//! Whoever holds the table, the peers and the items of a node, as a query sees it.
ghost use Rattle.std.specs.Prelude.{◌≡◌, ℕ};
ghost use Rattle.contact_table.specs.TableState.{TableState};
ghost use Rattle.contact_table.specs.TableStep.{TableMay, TableStep};
ghost use Rattle.peer_store.specs.Peers.{PeersState};
ghost use Rattle.peer_store.specs.PeersStep.{PeersStep};
ghost use Rattle.item_store.specs.Items.{ItemsState};
ghost use Rattle.item_store.specs.ItemSteps.{ItemMay, ItemStep};
ghost use Rattle.node_serve.specs.Calls.{Did, on_table, on_peers, on_items};

use contact_table::{Table, TableCall, TableReply};
use item_store::{ItemCall, ItemReply, Items};
use kad_base::Serial;
use peer_store::{PeerCall, PeerReply, Peers};

/// Whoever makes the calls of a query on a table, on peers and on items: a node that has them for itself, or a worker that
/// shares them with others.
pub trait Hold {
    /// That a call may be made.
    ghost ready: { Self → Type 0 };

    /// What a call and its reply make of the holder.
    ghost does: { Self → Did → Self → Type 0 };

    /// Makes a call on the table that any role may make.
    fn call_table(&mut self, call: TableCall) -> TableReply
        requires ready { ready self.old }
        requires may { (role : ℕ) → TableMay role call }
        ensures ready { ready self.new }
        ensures does { does self.old (on_table call result) self.new }
        ensures step { (s : TableState) × (role : ℕ) × TableStep s role call result };

    /// Makes a call on the peers.
    fn call_peers(&mut self, call: PeerCall) -> PeerReply
        requires ready { ready self.old }
        ensures ready { ready self.new }
        ensures does { does self.old (on_peers call result) self.new }
        ensures step { (s : PeersState) × (role : ℕ) × PeersStep s role call result };

    /// Makes a call on the items.
    fn call_items(&mut self, call: ItemCall) -> ItemReply
        requires ready { ready self.old }
        requires may { (role : ℕ) → ItemMay role call }
        ensures ready { ready self.new }
        ensures does { does self.old (on_items call result) self.new }
        ensures step { (s : ItemsState) × (role : ℕ) × ItemStep s role call result };
}

/// The role under which a node calls what it holds.
const SERVER: u8 = 0;

/// A table, peers and items of one's own.
#[derive(Drop)]
pub(crate) struct Own {
    pub table: Table,
    pub peers: Peers,
    pub items: Items,
}

impl Hold for Own {
    ghost use Rattle.std.specs.Prelude.{ℕ};
    ghost use Rattle.node_serve.specs.Gathered.{own_does};

    ghost ready = { λ own. Unit {0} };

    ghost does = { own_does };

    fn call_table(&mut self, call: TableCall) -> TableReply {
        self.table.apply(SERVER, call)
    }

    fn call_peers(&mut self, call: PeerCall) -> PeerReply {
        self.peers.apply(SERVER, call)
    }

    fn call_items(&mut self, call: ItemCall) -> ItemReply {
        self.items.apply(SERVER, call)
    }
}
