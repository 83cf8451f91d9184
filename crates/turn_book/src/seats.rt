//! What is known at the opening, cut into one part for each role, and put together again at the end.
ghost use Rattle.std.specs.Prelude.{◌≡◌, ◌<◌, ◌≤◌, [], ◌∷◌, List, length, map, false, vec_capacity};
ghost use Rattle.std.specs.List.{All, range_with_len};
ghost use Rattle.turn_book.specs.Turns.{fresh};
ghost use Rattle.turn_book.specs.Rule.{view, newcomer, part_of};

use crate::board::{Board, BoardSeat, Deal};
use crate::row::Pass;
use kad_base::Serial;

/// The one item.
pub(crate) fn only<S>(mut items: Vec<S>) -> S
    requires { length items.items ≡ 1 }
    ensures { items.items ≡ result ∷ [] }
{
    let Some(item) = items.pop() else {
        unreachable!()
    };
    items.destroy_empty();
    item
}

/// A pass for each role, in order.
pub(crate) fn deal<S: Serial>(
    board: &Board<S>,
    mut seat: BoardSeat<S>,
    list: &mut Vec<Pass<S>>,
    roles: u8,
)
    requires words { board.now.shared.table_id.words ≡ 1 }
    requires own { seat.table_id ≡ board.now.shared.table_id }
    requires seat { seat.me ≡ (newcomer roles, []) }
    requires list { list.old.items ≡ [] }
    requires room { roles ≤ vec_capacity list.old }
    ensures passes { list.new.items ≡ map (fresh board.now.shared.table_id)
        (range_with_len 0 roles) }
    ensures room { roles ≤ vec_capacity list.new }
{
    for role in 0..roles {
        let given = board.shared.split_seat::<Deal>(&mut seat);
        list.push_reserved(Pass::new(role, given));
    }
}

/// The parts of all passes together.
pub(crate) fn gather<S: Serial>(board: &Board<S>, mut list: Vec<Pass<S>>) -> BoardSeat<S>
    requires words { board.now.shared.table_id.words ≡ 1 }
    requires own { All (λ p. p.turn ≡ board.now.shared.table_id) list.items }
    requires some { 0 < length list.items }
    ensures own { result.table_id ≡ board.now.shared.table_id }
    ensures views { result.me ≡ (view (map part_of list.items) false, []) }
{
    let Some(last) = list.pop() else {
        unreachable!()
    };
    let mut all = last.into_seat();
    while let Some(pass) = list.pop() {
        let mut seat = pass.into_seat();
        board.shared.join_seat::<Deal>(&mut seat, all);
        all = seat;
    }
    all
}
