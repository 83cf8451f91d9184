//! The right to call in one role, and such rights in a row.
ghost use Rattle.std.specs.Prelude.{◌≡◌, ◌^◌, ◌<◌, ◌≤◌, [], ◌∷◌, ◌++◌, length, false, IsNone, ◌↔◌, vec_capacity};
ghost use Rattle.std.specs.Option.{option_to_list};

use crate::board::{Board, BoardSeat};
use crate::calls;
use kad_base::Serial;
use std::marker::Model;
use std::sync::Wait;

/// A role at a turn, and what its holder has seen of the turn's run. It has no bytes but its role, and can't be copied.
#[derive(Drop)]
pub struct Pass<S: Serial> {
    role: u8,
    seat: BoardSeat<S>,
}

impl<S: Serial> Model for Pass<S> {
    ghost use Rattle.turn_book.specs.Rule.{IsIdle, seen_by};
    ghost use Rattle.turn_book.specs.Turns.{PassState};

    ghost Value = { PassState S.Call S.Reply };

    ghost view = { λ p. record { turn = p.seat.table_id; role = p.role; seen = seen_by p.seat.me } };

    ghost invariant = { λ p. IsIdle p.role p.seat.me };
}

impl<S: Serial> Pass<S> {
    ghost use Rattle.kad_base.specs.Serial.{made, IsRun};
    ghost use Rattle.turn_book.specs.Turns.{GoesOnTo, fresh, mine};
    ghost use Rattle.turn_book.specs.Rule.{view, part, IsBoard, part_of};

    pub(crate) fn new(role: u8, seat: BoardSeat<S>) -> Pass<S>
        requires { seat.me ≡ (view (part role [] ∷ []) false, []) }
        ensures { result ≡ fresh seat.table_id role }
    {
        Pass { role, seat }
    }

    pub(crate) fn into_seat(self) -> BoardSeat<S>
        ensures own { result.table_id ≡ self.turn }
        ensures view { result.me ≡ (view (part_of self ∷ []) false, []) }
    {
        self.seat
    }

    /// Makes the call at one point of the run.
    pub(crate) fn call_at<R: Wait>(&mut self, rt: &R, board: &Board<S>, call: S::Call) -> S::Reply
        requires board { IsBoard board.now.shared.table_id board.now.shared.key.roles }
        requires own { self.old.turn ≡ board.now.shared.table_id }
        requires may { S.may self.old.role call }
        ensures turn { self.new.turn ≡ self.old.turn }
        ensures role { self.new.role ≡ self.old.role }
        ensures run { IsRun S.may S.step S.after board.now.shared.key.state.value self.new.seen }
        ensures seen { GoesOnTo (made self.old.role call result) self.old.seen self.new.seen }
        ensures mine { mine self.new ≡ mine self.old ++ made self.old.role call result ∷ [] }
        ensures bound { length self.new.seen ≤ 2 ^ 62 }
    {
        let role = self.role;
        calls::call_at(rt, board, &mut self.seat, role, call)
    }
}

/// Passes in a row, with room for as many as their turn has roles.
#[derive(Drop)]
pub struct Passes<S: Serial> {
    list: Vec<Pass<S>>,
    room: u8,
}

impl<S: Serial> Model for Passes<S> {
    ghost use Rattle.std.specs.Prelude.{◌≤◌, vec_capacity};
    ghost use Rattle.turn_book.specs.Turns.{Row};

    ghost Value = { Row S.Call S.Reply };

    ghost view = { λ r. record { passes = r.list.items; room = r.room } };

    ghost invariant = { λ r. r.room ≤ vec_capacity r.list };
}

impl<S: Serial> Passes<S> {
    pub(crate) fn with_room(list: Vec<Pass<S>>, room: u8) -> Passes<S>
        requires { room ≤ vec_capacity list }
        ensures { result ≡ record { passes = list.items; room = room } }
    {
        Passes { list, room }
    }

    pub(crate) fn into_list(self) -> Vec<Pass<S>>
        ensures { result.items ≡ self.passes }
    {
        self.list
    }

    /// Takes the last pass out. Takes no memory.
    pub fn pop(&mut self) -> Option<Pass<S>>
        ensures list { self.old.passes ≡ self.new.passes ++ option_to_list result }
        ensures none { IsNone result ↔ (self.old.passes ≡ []) }
        ensures room { self.new.room ≡ self.old.room }
    {
        self.list.pop()
    }

    /// Puts a pass at the end. Takes no memory.
    pub fn push(&mut self, pass: Pass<S>)
        requires room { length self.old.passes < self.old.room }
        ensures list { self.new.passes ≡ self.old.passes ++ pass ∷ [] }
        ensures room { self.new.room ≡ self.old.room }
    {
        self.list.push_reserved(pass);
    }
}
