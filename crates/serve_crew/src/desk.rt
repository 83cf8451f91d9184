//! The desk of a node, and a worker at it.
ghost use Rattle.std.specs.Prelude.{◌≡◌};
ghost use Rattle.serve_crew.specs.Hands.{does, CanWork};

use crate::turns::Turns;
use crate::worker::ServeWorker;
use contact_table::{TableCall, TableReply};
use item_store::{ItemCall, ItemReply};
use node_serve::{Hold, ServeSetting};
use peer_store::{PeerCall, PeerReply};
use std::sync::Wait;

/// What a node answers by, and the turns over what it holds.
#[derive(Clone, Copy)]
pub struct Desk<'a> {
    pub setting: &'a ServeSetting,
    pub turns: &'a Turns,
}

/// A worker at a desk: it makes the calls of a query at the three turns.
#[derive(Drop)]
pub(crate) struct AtDesk<'a, R> {
    pub rt: &'a R,
    pub turns: &'a Turns,
    pub worker: &'a mut ServeWorker,
}

impl<'a, R: Wait> Hold for AtDesk<'a, R> {
    ghost ready = { λ w. CanWork w.turns.now w.worker.now };

    ghost does = { λ w d u. (u.worker.ghost_name ≡ w.worker.ghost_name) × does w.worker.now d u.worker.now };

    fn call_table(&mut self, call: TableCall) -> TableReply {
        self.worker.call_table(self.rt, &self.turns.table, call)
    }

    fn call_peers(&mut self, call: PeerCall) -> PeerReply {
        self.worker.call_peers(self.rt, &self.turns.peers, call)
    }

    fn call_items(&mut self, call: ItemCall) -> ItemReply {
        self.worker.call_items(self.rt, &self.turns.items, call)
    }
}
