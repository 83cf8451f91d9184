//! The values of a dictionary's keys, gathered in one pass over its text: a slot a key, as many as a message's kind has. The
//! calls are inlined, since keys that are known are compared in less time.
ghost use Rattle.std.specs.Prelude.{◌≡◌, ◌↔◌, IsTrue};
ghost use Rattle.std.specs.Ordering.{is_eq};
ghost use Rattle.kad_bencode.specs.Keys.{key_cmp, value_of};
ghost use Rattle.kad_bencode.specs.Parts.{member_of};
ghost use Rattle.kad_krpc.specs.Gathering.{first_of, behind};

use kad_bencode::{Pairs, Piece};

#[inline(always)]
fn equal(a: &[u8], b: &[u8]) -> bool
    ensures { IsTrue result ↔ (a.now ≡ b.now) }
{
    a == b
}

/// Whether two keys are the same.
#[inline(always)]
fn same(a: &[u8], b: &[u8]) -> bool
    ensures { result ≡ is_eq (key_cmp b.now a.now) }
{
    equal(a, b)
}

/// Keeps what was found already, or else this value, if it comes after the key that is wanted.
#[inline(always)]
fn fill<'a>(slot: &mut Option<Piece<'a>>, wanted: &[u8], key: &[u8], value: &Piece<'a>)
    ensures { slot.new ≡ first_of slot.old (behind key.now value.now wanted.now) }
{
    if same(key, wanted) {
        match slot {
            Some(_) => {}
            None => *slot = Some(value.copied()),
        }
    }
}

/// Slots for the values of keys, one after another.
pub(crate) trait Slots<'a>: Drop {
    ghost use Rattle.std.specs.Prelude.{ℕ, List, None};
    ghost use Rattle.kad_krpc.specs.Fields.{Look};
    ghost use Rattle.kad_krpc.specs.Gathering.{behind, before};

    /// What the slots are once the pairs with these values were looked at.
    ghost filled: { Self → Look → Self → Type 0 };

    /// Keeps a value in each slot whose key it comes after, and that is not filled.
    fn keep(&mut self, key: &[u8], value: &Piece<'a>)
        ensures { (look : Look) (end : Self) → filled self.new look end
            → filled self.old (before (behind key.now value.now) look) end };

    /// Where no pair is left to look at, the slots stay as they are. The call changes nothing.
    fn law_done(&self)
        ensures { filled self.now (λ key. None) self.now };
}

/// The end of a list of slots.
#[derive(Drop)]
pub(crate) struct End;

impl<'a> Slots<'a> for End {
    ghost filled = { λ s look t. Unit {0} };

    #[inline(always)]
    fn keep(&mut self, _key: &[u8], _value: &Piece<'a>) {}

    #[inline(always)]
    fn law_done(&self) {}
}

/// The slot of a key, in front of others.
#[derive(Drop)]
pub(crate) struct Slot<'a, R: Drop> {
    wanted: &'a [u8],
    found: Option<Piece<'a>>,
    rest: R,
}

impl<'a, R: Slots<'a>> Slots<'a> for Slot<'a, R> {
    ghost use Rattle.std.specs.Prelude.{◌≡◌};
    ghost use Rattle.kad_krpc.specs.Gathering.{first_of};

    ghost filled = { λ s look t. (t.found ≡ first_of s.found (look s.wanted.now))
        × R.filled s.rest look t.rest };

    #[inline(always)]
    fn keep(&mut self, key: &[u8], value: &Piece<'a>) {
        fill(&mut self.found, self.wanted, key, value);
        self.rest.keep(key, value);
    }

    #[inline(always)]
    fn law_done(&self) {
        self.rest.law_done();
    }
}

impl<'a, R: Drop> Slot<'a, R> {
    /// A slot in front of others.
    #[inline(always)]
    pub(crate) fn new(wanted: &'a [u8], rest: R) -> Slot<'a, R>
        ensures { result ≡ record { wanted = wanted.entry; found = None; rest = rest } }
    {
        Slot {
            wanted,
            found: None,
            rest,
        }
    }

    /// What was found, and the slots after it.
    #[inline(always)]
    pub(crate) fn take(self) -> (Option<Piece<'a>>, R)
        ensures found { result.0 ≡ self.entry.found }
        ensures rest { result.1 ≡ self.entry.rest }
    {
        (self.found, self.rest)
    }
}

/// Slots for the values of keys, in this order.
macro_rules! keys {
    () => { $crate::members::End };
    ($key:expr $(, $rest:expr)*) => {
        $crate::members::Slot::new($key, $crate::members::keys!($($rest),*))
    };
}

pub(crate) use keys;

/// The slots once all pairs were looked at.
#[inline(always)]
fn gather<'a, S: Slots<'a>>(mut pairs: Pairs<'a>, slots: S) -> S
    ensures { S.filled slots (value_of pairs.entry) result }
{
    let mut filled = slots;
    while let Some((key, value)) = pairs.next() {
        filled.keep(key, &value);
    }
    filled.law_done();
    filled
}

/// The slots filled with the values of a dictionary's keys; of another value there are none.
#[inline(always)]
pub(crate) fn members<'a, S: Slots<'a>>(value: &Piece<'a>, slots: S) -> S
    ensures { S.filled slots (member_of value.now) result }
{
    match value.pairs() {
        Some(pairs) => gather(pairs, slots),
        None => {
            slots.law_done();
            slots
        }
    }
}
