//! The atomic steps of a call: the compare and exchange that takes the slot, the object's own step in it, and the
//! fetch-and-add that gives it back, at which the call stands in the run.
ghost use Rattle.std.specs.Prelude.{◌≡◌, ◌≢◌, ◌*◌, ◌^◌, ◌<◌, ◌≤◌, ◌↔◌, [], ◌∷◌, ◌++◌, length, false, Some, IsSome};
ghost use Rattle.kad_base.specs.Serial.{made};
ghost use Rattle.turn_book.specs.Rule.{IsFree, IsIdle, IsBusy, HasTaken, IsReady, Called, seen_by, part, view};

use crate::board::{Board, BoardSeat, Give, Noted, Opened, Take};
use crossbeam_utils::Backoff;
use kad_base::Serial;
use std::marker::Brand;
use std::snapshot::Snapshot;
use std::sync::Wait;

/// The word from which on no call gets the slot.
const END: u64 = 1 << 63;

/// Takes the slot if this word says that it is free and still stands there. The word that stood there; `None` if this one
/// says that the slot is not free, and then nothing is tried.
fn try_take<S: Serial, J: Opened<S>>(
    board: &Board<S>,
    seat: &mut BoardSeat<S>,
    role: u8,
    word: u64,
) -> Option<u64>
    requires picked { J.start ≡ Some board.now.shared.key.state.value }
    requires words { board.now.shared.table_id.words ≡ 1 }
    requires slots { board.now.shared.table_id.slots ≡ 1 }
    requires own { seat.old.table_id ≡ board.now.shared.table_id }
    requires idle { IsIdle role seat.old.me }
    ensures tried { IsSome result ↔ IsFree word }
    ensures same { (seat.new.table_id ≡ seat.old.table_id) × (seat.new.id ≡ seat.old.id) }
    ensures taken { result ≡ Some word
        → HasTaken S.may S.step S.after board.now.shared.key.state.value role seat.old.me
        seat.new.me }
    ensures missed { result ≢ Some word → seat.new.me ≡ seat.old.me }
{
    let _ = role;
    if word % 2 != 0 || word >= END {
        return None;
    }
    Some(
        board
            .shared
            .compare_exchange::<Take<S, J>>(seat, 0, word, word + 1),
    )
}

/// Waits for the slot, and takes it.
fn take<S: Serial, R: Wait, J: Opened<S>>(
    rt: &R,
    board: &Board<S>,
    seat: &mut BoardSeat<S>,
    role: u8,
)
    requires picked { J.start ≡ Some board.now.shared.key.state.value }
    requires words { board.now.shared.table_id.words ≡ 1 }
    requires slots { board.now.shared.table_id.slots ≡ 1 }
    requires own { seat.old.table_id ≡ board.now.shared.table_id }
    requires idle { IsIdle role seat.old.me }
    ensures same { (seat.new.table_id ≡ seat.old.table_id) × (seat.new.id ≡ seat.old.id) }
    ensures taken { HasTaken S.may S.step S.after board.now.shared.key.state.value role
        seat.old.me seat.new.me }
{
    let backoff = Backoff::new();
    for _ in rt.forever() {
        let word = board.shared.peek(0);
        if let Some(found) = try_take::<S, J>(board, seat, role, word) {
            if found == word {
                return;
            }
        }
        backoff.snooze();
    }
    unreachable!()
}

/// Makes the object's step in the slot.
fn work<S: Serial>(board: &Board<S>, seat: &mut BoardSeat<S>, role: u8, call: S::Call) -> S::Reply
    requires slots { board.now.shared.table_id.slots ≡ 1 }
    requires own { seat.old.table_id ≡ board.now.shared.table_id }
    requires busy { IsBusy S.may S.step S.after board.now.shared.key.state.value role seat.old.me }
    requires may { S.may role call }
    ensures same { (seat.new.table_id ≡ seat.old.table_id) × (seat.new.id ≡ seat.old.id) }
    ensures view { seat.new.me.0 ≡ seat.old.me.0 }
    ensures ready { IsReady S.may S.step S.after board.now.shared.key.state.value role call result
        seat.new.me }
{
    seat.slot_mut(&board.shared, 0).apply(role, call)
}

/// Gives the slot back, with the call that was made in it at the end of the run.
fn give<S: Serial, J: Noted<S::Call, S::Reply>>(
    board: &Board<S>,
    seat: &mut BoardSeat<S>,
    role: u8,
    call: &Snapshot<S::Call>,
    reply: &S::Reply,
)
    requires words { board.now.shared.table_id.words ≡ 1 }
    requires slots { board.now.shared.table_id.slots ≡ 1 }
    requires own { seat.old.table_id ≡ board.now.shared.table_id }
    requires picked { J.made ≡ Some (made role call.now.value reply.now) }
    requires may { S.may role call.now.value }
    requires ready { IsReady S.may S.step S.after board.now.shared.key.state.value role
        call.now.value reply.now seat.old.me }
    requires room { 2 * length (seen_by seat.old.me) < 2 ^ 63 }
    ensures same { (seat.new.table_id ≡ seat.old.table_id) × (seat.new.id ≡ seat.old.id) }
    ensures given { seat.new.me ≡ (
      view (part role
          (seen_by seat.old.me ++ made role call.now.value reply.now ∷ []) ∷ []) false,
      [],
    ) }
{
    let _ = call;
    let _ = reply;
    let _ = role;
    board.shared.fetch_add::<Give<S, J>>(seat, 0, 1);
}

/// Makes the call at one point of the run.
pub(crate) fn call_at<S: Serial, R: Wait>(
    rt: &R,
    board: &Board<S>,
    seat: &mut BoardSeat<S>,
    role: u8,
    call: S::Call,
) -> S::Reply
    requires words { board.now.shared.table_id.words ≡ 1 }
    requires slots { board.now.shared.table_id.slots ≡ 1 }
    requires own { seat.old.table_id ≡ board.now.shared.table_id }
    requires idle { IsIdle role seat.old.me }
    requires may { S.may role call }
    ensures same { (seat.new.table_id ≡ seat.old.table_id) × (seat.new.id ≡ seat.old.id) }
    ensures idle { IsIdle role seat.new.me }
    ensures called { Called S.may S.step S.after board.now.shared.key.state.value role call result
        (seen_by seat.old.me) (seen_by seat.new.me) }
    ensures room { length (seen_by seat.new.me) ≤ 2 ^ 62 }
{
    let asked = Snapshot::of(&call);
    take::<S, R, Brand>(rt, board, seat, role);
    let reply = work(board, seat, role, call);
    give::<S, Brand>(board, seat, role, &asked, &reply);
    reply
}
