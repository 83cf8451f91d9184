//! The calls of a worker at the turn over the book: a pull, and what takes away the thing that it found.
ghost use Rattle.std.specs.Prelude.{◌≡◌, ◌≢◌, ◌++◌, ◌∷◌, []};
ghost use Rattle.kad_base.specs.Serial.{made, left_by, IsRun};
ghost use Rattle.turn_book.specs.Turns.{mine};
ghost use Rattle.claim_book.specs.Legal.{Legal};
ghost use Rattle.claim_book.specs.Calls.{BookMay, BookStep, PullStep, book_after, path_of_role};
ghost use Rattle.claim_book.specs.declared.types.Thing.TheVariants.{Responder, Told};
ghost use Rattle.path_worker.specs.Burst.{Pulled, IsOutcome};

use claim_book::{Book, BookCall, BookReply, Checked};
use kad_base::Contact;
use std::sync::Wait;
use turn_book::{Pass, Turn};

/// Asks for the first unsettled thing of the path.
pub(crate) fn pull<R: Wait>(rt: &R, turn: &Turn<Book>, pass: &mut Pass<Book>) -> BookReply
    requires own { pass.old.turn ≡ turn.now.id }
    requires worker { pass.old.role ≢ 0 }
    ensures turn { pass.new.turn ≡ pass.old.turn }
    ensures role { pass.new.role ≡ pass.old.role }
    ensures run { IsRun BookMay BookStep book_after turn.now.start pass.new.seen }
    ensures step { PullStep (left_by book_after turn.now.start pass.new.seen).journal
        (path_of_role pass.new.role) result }
    ensures mine { mine pass.new ≡ mine pass.old ++ made pass.old.role BookCall.Pull result ∷ [] }
{
    turn.call(rt, pass, BookCall::Pull)
}

/// Notes the contact that a pull found.
pub(crate) fn note<R: Wait>(rt: &R, turn: &Turn<Book>, pass: &mut Pass<Book>, contact: Contact)
    requires own { pass.old.turn ≡ turn.now.id }
    requires worker { pass.old.role ≢ 0 }
    requires legal { Legal turn.now.start.setting turn.now.start.journal }
    requires front { Pulled turn.now.start pass.old (Responder contact) }
    ensures turn { pass.new.turn ≡ pass.old.turn }
    ensures role { pass.new.role ≡ pass.old.role }
    ensures run { IsRun BookMay BookStep book_after turn.now.start pass.new.seen }
    ensures mine { mine pass.new ≡ mine pass.old ++ made pass.old.role
        (BookCall.Note contact) BookReply.Kept ∷ [] }
{
    turn.call(rt, pass, BookCall::Note { contact });
}

/// Settles the report that a pull found.
pub(crate) fn settle<R: Wait>(
    rt: &R,
    turn: &Turn<Book>,
    pass: &mut Pass<Book>,
    checked: Checked,
) -> BookReply
    requires own { pass.old.turn ≡ turn.now.id }
    requires worker { pass.old.role ≢ 0 }
    requires legal { Legal turn.now.start.setting turn.now.start.journal }
    requires front { Pulled turn.now.start pass.old (Told checked.report) }
    requires policy { checked.policy ≡ turn.now.start.setting.policy }
    ensures turn { pass.new.turn ≡ pass.old.turn }
    ensures role { pass.new.role ≡ pass.old.role }
    ensures run { IsRun BookMay BookStep book_after turn.now.start pass.new.seen }
    ensures mine { mine pass.new ≡ mine pass.old ++ made pass.old.role
        (BookCall.Settle checked) result ∷ [] }
    ensures outcome { IsOutcome result }
{
    turn.call(rt, pass, BookCall::Settle { checked })
}
