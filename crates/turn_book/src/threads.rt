//! Where the object may be sent to another thread, so may its turn and its passes, and the turn may be shared: these
//! functions do nothing, and are checked as proof of it.
ghost use Rattle.std.specs.Prelude.{◌≡◌};

use crate::lock::Turn;
use crate::row::Pass;
use kad_base::Serial;

fn sent<T: Send>(thing: T) -> T
    ensures { result ≡ thing }
{
    thing
}

fn shared<T: Sync>(thing: &T) -> &T
    ensures { result.now ≡ thing.now }
{
    thing
}

/// The turn, from whichever thread.
pub(crate) fn sent_turn<S: Serial + Send>(turn: Turn<S>) -> Turn<S>
    ensures { result ≡ turn }
{
    shared(&turn);
    sent(turn)
}

/// The pass, from whichever thread.
pub(crate) fn sent_pass<S: Serial + Send>(pass: Pass<S>) -> Pass<S>
    ensures { result ≡ pass }
{
    sent(pass)
}
