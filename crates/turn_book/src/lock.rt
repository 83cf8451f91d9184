//! The lock round an object whose calls are steps.
ghost use Rattle.std.specs.Prelude.{◌≡◌, ◌^◌, ◌<◌, ◌≤◌, [], ◌∷◌, ◌++◌, length, IfOk, IfErr};
ghost use Rattle.kad_base.specs.Serial.{made, IsRun};
ghost use Rattle.turn_book.specs.Turns.{GoesOnTo, mine, all_fresh, AreAll, Closed};

use crate::board::{Board, Opening};
use crate::row::{Pass, Passes};
use crate::seats::{deal, gather, only};
use atomic_table::{Refused, Table};
use kad_base::Serial;
use std::alloc::{AllocFailed, Global};
use std::marker::Model;
use std::snapshot::Snapshot;
use std::sync::Wait;

/// An object behind a mutual-exclusion lock. Its calls stand in one legal run, each once and each pass's in its own order.
#[derive(Drop)]
pub struct Turn<S: Serial> {
    board: Board<S>,
}

impl<S: Serial> Model for Turn<S> {
    ghost use Rattle.turn_book.specs.Turns.{TurnState};
    ghost use Rattle.turn_book.specs.Rule.{origin_of, IsBoard};

    ghost Value = { TurnState S };

    ghost view = { λ t. origin_of t.board.shared.table_id t.board.shared.key };

    ghost invariant = { λ t. IsBoard t.board.shared.table_id t.board.shared.key.roles };
}

/// There was no memory for a turn. The state comes back.
#[derive(Drop)]
pub struct TurnNoMemory<S> {
    pub state: S,
}

/// How many calls a turn has made.
#[derive(Clone, Copy, Debug, PartialEq, Eq)]
pub struct Told {
    pub calls: u64,
}

impl<S: Serial> Turn<S> {
    /// Opens a turn with this state, and makes a pass for each of `n` roles. It fails only if out of memory.
    pub fn new(alloc: Global, state: S, n: u8) -> Result<(Turn<S>, Passes<S>), TurnNoMemory<S>>
        requires some { 0 < n }
        requires few { n ≤ 64 }
        ensures state { IfOk result (λ t. t.0.start ≡ state) }
        ensures roles { IfOk result (λ t. t.0.roles ≡ n) }
        ensures passes { IfOk result (λ t. t.1.passes ≡ all_fresh t.0) }
        ensures all { IfOk result (λ t. AreAll t.0 t.1.passes) }
        ensures room { IfOk result (λ t. t.1.room ≡ n) }
        ensures refused { IfErr result (λ e. e.state ≡ state) }
    {
        let Ok(mut list) = Vec::with_capacity(alloc, n as usize) else {
            return Err(TurnNoMemory { state });
        };
        let opening = Opening {
            state: Snapshot::of(&state),
            roles: n,
        };
        let mut slots = Vec::new(alloc);
        if let Err(AllocFailed { value }) = slots.push(state) {
            slots.destroy_empty();
            return Err(TurnNoMemory { state: value });
        }
        match Table::new(alloc, &[0], slots, &opening) {
            Ok((board, seat)) => {
                deal(&board, seat, &mut list, n);
                Ok((Turn { board }, Passes::with_room(list, n)))
            }
            Err(Refused { slots }) => Err(TurnNoMemory { state: only(slots) }),
        }
    }

    /// Waits for the lock and makes the call, at one point of the turn's run. It takes no memory beyond the object's own
    /// step. After 2^62 calls it waits for good.
    pub fn call<R: Wait>(&self, rt: &R, pass: &mut Pass<S>, call: S::Call) -> S::Reply
        requires pass { pass.old.turn ≡ self.now.id }
        requires may { S.may pass.old.role call }
        ensures turn { pass.new.turn ≡ pass.old.turn }
        ensures role { pass.new.role ≡ pass.old.role }
        ensures run { IsRun S.may S.step S.after self.now.start pass.new.seen }
        ensures seen { GoesOnTo (made pass.old.role call result) pass.old.seen pass.new.seen }
        ensures mine { mine pass.new ≡ mine pass.old ++ made pass.old.role call result ∷ [] }
        ensures bound { length pass.new.seen ≤ 2 ^ 62 }
    {
        pass.call_at(rt, &self.board, call)
    }

    /// Ends the turn, once all its passes are back. Takes no memory.
    pub fn close(self, passes: Passes<S>) -> (S, Told)
        requires { AreAll self passes.passes }
        ensures { Closed S.may S.step S.after self passes.passes result.0 result.1.calls }
    {
        let all = gather(&self.board, passes.into_list());
        let mut closed = self.board.close_with(all);
        let word = closed.word(0);
        let state = closed.take(0);
        closed.free();
        (state, Told { calls: word / 2 })
    }
}
