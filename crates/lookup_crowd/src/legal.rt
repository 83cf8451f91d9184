//! The law of all lookups' books.
ghost use Rattle.std.specs.List.{AllByRecursion};
ghost use Rattle.lookup_crowd.specs.inner.Crowd.{IsLegal};

use crate::seeker::Seeker;

/// The law of all books: their journals are legal, whoever made the calls. It changes nothing, and is called where a proof
/// needs the law.
pub fn all_legal(seekers: &[Seeker])
    ensures { AllByRecursion IsLegal seekers.now }
{
    for i in 0..seekers.len() {
        seekers[i].lookup.book.legal();
    }
}
