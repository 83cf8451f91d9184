//! Whether a path of a lookup has something to settle.
ghost use Rattle.std.specs.Prelude.{◌≡◌, ◌≢◌, ◌<◌, [], true, false};
ghost use Rattle.kad_base.specs.Limits.{max_paths};
ghost use Rattle.claim_book.specs.Journal.{unsettled};

use claim_book::{Book, BookCall, BookReply};
use kad_base::Serial;

/// Whether the path has something to settle.
pub fn has_some(book: &mut Book, path: u8) -> bool
    requires { path < max_paths }
    ensures same { book.new ≡ book.old }
    ensures some { result ≡ true → unsettled path book.old.journal ≢ [] }
    ensures nothing { result ≡ false → unsettled path book.old.journal ≡ [] }
{
    match book.apply(path + 1, BookCall::Pull) {
        BookReply::Idle => false,
        _ => true,
    }
}
