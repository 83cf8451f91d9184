//! The three turns of a node that serves, opened and closed together.
ghost use Rattle.std.specs.Prelude.{◌≡◌, ◌≤◌, ◌<◌, IfOk, IfErr};
ghost use Rattle.serve_crew.specs.Opening.{AreClosed, AreFresh, HaveAll, Opens};

use contact_table::Table;
use item_store::Items;
use peer_store::Peers;
use std::alloc::Global;
use turn_book::{Passes, Turn, TurnNoMemory};

/// The turns over what a node holds: its routing table, and the peers and the items that it keeps for others.
#[derive(Drop)]
pub struct Turns {
    pub table: Turn<Table>,
    pub peers: Turn<Peers>,
    pub items: Turn<Items>,
}

/// The passes of the three turns, each turn's in a row.
#[derive(Drop)]
pub struct Rows {
    pub table: Passes<Table>,
    pub peers: Passes<Peers>,
    pub items: Passes<Items>,
}

impl Turns {
    /// Opens a turn with this table for so many roles, and turns for so many who serve with no peers and no items, of one host
    /// no more than the table takes contacts. The table comes back where there is no memory.
    pub fn open(
        alloc: Global,
        table: Table,
        roles: u8,
        servers: u8,
    ) -> Result<(Turns, Rows), TurnNoMemory<Table>>
        requires some { 0 < roles }
        requires few { roles ≤ 64 }
        requires some_serve { 0 < servers }
        requires few_serve { servers ≤ 64 }
        ensures opens { IfOk result (λ o. Opens table o.0) }
        ensures fresh { IfOk result (λ o. AreFresh roles servers o.0 o.1) }
        ensures refused { IfErr result (λ e. e.state ≡ table) }
    {
        let limit = usize::from(table.per_address());
        let (table_turn, table_row) = match Turn::new(alloc, table, roles) {
            Ok(opened) => opened,
            Err(refused) => return Err(refused),
        };
        let (peers_turn, peers_row) = match Turn::new(
            alloc,
            Peers::limited(alloc, limit),
            servers,
        ) {
            Ok(opened) => opened,
            Err(_) => {
                let (state, _) = table_turn.close(table_row);
                return Err(TurnNoMemory { state });
            }
        };
        let (items_turn, items_row) = match Turn::new(
            alloc,
            Items::limited(alloc, limit),
            servers,
        ) {
            Ok(opened) => opened,
            Err(_) => {
                let (state, _) = table_turn.close(table_row);
                return Err(TurnNoMemory { state });
            }
        };
        let turns = Turns {
            table: table_turn,
            peers: peers_turn,
            items: items_turn,
        };
        let rows = Rows {
            table: table_row,
            peers: peers_row,
            items: items_row,
        };
        Ok((turns, rows))
    }

    /// Ends the turns, once all passes are back: the table as all calls left it. Peers and items are let go. Takes no memory.
    pub fn close(self, rows: Rows) -> Table
        requires { HaveAll self rows }
        ensures { AreClosed self rows result }
    {
        let Turns {
            table,
            peers,
            items,
        } = self;
        let (left, _) = table.close(rows.table);
        let (_, _) = peers.close(rows.peers);
        let (_, _) = items.close(rows.items);
        left
    }
}
