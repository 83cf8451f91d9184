//! The table under a turn: its word, its slot, and what each seat knows.
use atomic_table::{Join, Play, Seat, Split, Table, TableRule};
use kad_base::{Made, Serial};
use std::alloc::Global;
use std::collections::LinkedList;
use std::marker::{Brand, PhantomData};
use std::snapshot::Snapshot;

/// What is fixed when a turn is made.
#[derive(Drop)]
pub struct Opening<S> {
    pub state: Snapshot<S>,
    pub roles: u8,
}

/// A role, and the beginning of the run that its holder has seen. No value of it is made.
pub struct Part<C, R> {
    pub role: u8,
    pub seen: LinkedList<Made<C, R>>,
}

/// What a seat knows. No value of it is made.
pub struct View<C, R> {
    pub parts: LinkedList<Part<C, R>>,
    pub marked: bool,
}

/// The rule of a turn's table: all calls stand in one run.
pub struct InOneRun<S> {
    object: PhantomData<S>,
}

impl<S: Serial> TableRule<S, View<S::Call, S::Reply>, Opening<S>> for InOneRun<S> {
    ghost use Rattle.turn_book.specs.Rule.{Kept, newcomer};

    ghost holds = { λ key. Kept S.may S.step S.after key.state.value key.roles };

    ghost first = { λ key. newcomer key.roles };
}

/// The state that the turn opened with. Each call of a program picks it.
pub trait Opened<S> {
    ghost use Rattle.std.specs.Prelude.{Option};

    ghost start: { Option S };
}

impl<S> Opened<S> for Brand {
    ghost use Rattle.std.specs.Prelude.{None};

    ghost start = { None };
}

/// The step that takes the slot, and tells the run so far.
pub struct Take<S, J> {
    object: PhantomData<(S, J)>,
}

impl<S: Serial, J: Opened<S>> Play<S, View<S::Call, S::Reply>> for Take<S, J> {
    ghost use Rattle.turn_book.specs.Rule.{Taken};

    ghost then = { Taken S.may S.step S.after J.start };
}

/// The call that a step adds to the run. Each call of a program picks it.
pub trait Noted<C, R> {
    ghost use Rattle.std.specs.Prelude.{Option};
    ghost use Rattle.kad_base.specs.declared.serial.Made.{Made};

    ghost made: { Option (Made C R) };
}

impl<C, R> Noted<C, R> for Brand {
    ghost use Rattle.std.specs.Prelude.{None};

    ghost made = { None };
}

/// The step that gives the slot back, and adds the call to the run.
pub struct Give<S, J> {
    object: PhantomData<(S, J)>,
}

impl<S: Serial, J: Noted<S::Call, S::Reply>> Play<S, View<S::Call, S::Reply>> for Give<S, J> {
    ghost use Rattle.turn_book.specs.Rule.{Gave};

    ghost then = { Gave J.made };
}

/// How the first seat is cut into one for each role, and how they are put together at the end.
pub struct Deal;

impl<C, R> Split<View<C, R>> for Deal {
    ghost use Rattle.turn_book.specs.Rule.{without_first, only_first};

    ghost left = { without_first };

    ghost right = { only_first };
}

impl<C, R> Join<View<C, R>> for Deal {
    ghost use Rattle.turn_book.specs.Rule.{joined, nobody};

    ghost both = { joined };

    ghost spent = { nobody };
}

/// The table of a turn: one word and one slot.
pub type Board<S> = Table<
    S,
    View<<S as Serial>::Call, <S as Serial>::Reply>,
    Opening<S>,
    InOneRun<S>,
    Global,
>;

/// A seat at it.
pub type BoardSeat<S> = Seat<S, View<<S as Serial>::Call, <S as Serial>::Reply>>;
