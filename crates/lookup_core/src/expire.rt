//! Expiring: whose time has passed is lost.
ghost use Rattle.std.specs.Prelude.{◌≡◌, ◌<◌, All, IfSome, IfNone};
ghost use Rattle.lookup_core.specs.LookupSteps.{Holds, LosesOldest};

use crate::on_reply::lose;
use crate::state::Lookup;
use claim_book::Cause;
use kad_base::{Contact, Serial};

impl Lookup {
    /// Loses the contact of the oldest query, if it is overdue at the moment, and hands it out; `None` if no query
    /// is overdue. The caller tells its table.
    pub fn overdue(&mut self, at: u64) -> Option<Contact>
        requires { Holds self.old }
        ensures some { IfSome result (λ contact. LosesOldest at contact self.old self.new) }
        ensures holds { Holds self.new }
        ensures none { IfNone result (All (λ q. at < q.deadline) self.old.queries) }
        ensures same { IfNone result (self.new ≡ self.old) }
    {
        self.book.legal();
        match self.queries.overdue(at) {
            Some(contact) => {
                lose(&mut self.book, contact, Cause::Timeout);
                Some(contact)
            }
            None => None,
        }
    }
}
