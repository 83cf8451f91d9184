//! The desk: a queue of one place under a rule, and what each side knows.
ghost use Rattle.std.specs.Prelude.{◌≡◌, true, false, None, IfOk};
ghost use Rattle.crossbeam_queue.specs.Passes.{view, IsPassOf, ruled_capacity};
ghost use Rattle.work_desk.specs.Rule.{hand};

use crate::waiting::Word;
use crossbeam_queue::protocol::{Lesson, Outcome, Protocol, Split};
use crossbeam_queue::{Pass, RuledArrayQueue};
use std::alloc::{AllocError, Global};
use std::marker::PhantomData;
use std::sync::Wait;

/// What is done to jobs: to which it may be done, and what comes of it. A type of it is a name alone.
pub trait Deed<J> {
    ghost may: { J → Type 0 };

    ghost did: { J → J → Type 0 };
}

/// Who does it.
pub trait Doer<J, D: Deed<J>> {
    /// Whether the job is large enough to be given to another thread.
    fn is_worth(&self, job: &J) -> bool;

    fn work<R: Wait>(&mut self, rt: &R, job: &mut J)
        requires { D.may job.old }
        ensures { D.did job.old job.new };
}

/// What lies on the desk.
#[derive(Drop)]
pub enum Mail<J> {
    Order(J),
    Done(J),
}

/// What a side knows: which side it is, and the job that is out. No value of it is made.
pub struct Hand<J> {
    pub gives: bool,
    pub helps: bool,
    pub out: Option<J>,
}

/// The rule of a desk.
pub struct InTurns<D> {
    deed: PhantomData<D>,
}

impl<J, D: Deed<J>> Protocol<Mail<J>, Hand<J>> for InTurns<D> {
    ghost use Rattle.std.specs.Prelude.{true, None};
    ghost use Rattle.work_desk.specs.Rule.{hand, Kept};

    ghost holds = { Kept D.may D.did };

    ghost first = { hand true true None };
}

/// The two sides of one desk.
pub struct Sides;

impl<J> Split<Hand<J>> for Sides {
    ghost use Rattle.std.specs.Prelude.{true, false, None};
    ghost use Rattle.work_desk.specs.Rule.{hand};

    ghost left = { λ v. hand true false None };

    ghost right = { λ v. hand false true None };
}

/// A job is laid on the desk.
pub struct Lay;

impl<J> Outcome<Mail<J>, Hand<J>> for Lay {
    ghost use Rattle.work_desk.specs.Rule.{Laid};

    ghost then = { Laid };
}

impl<J> Lesson<Mail<J>, Hand<J>> for Lay {
    ghost use Rattle.std.specs.Prelude.{◌≡◌, []};

    ghost fact = { λ v items. items ≡ [] };
}

/// It comes back to who gave it.
pub struct Fetch<D> {
    deed: PhantomData<D>,
}

impl<J, D: Deed<J>> Outcome<Mail<J>, Hand<J>> for Fetch<D> {
    ghost use Rattle.work_desk.specs.Rule.{Fetched};

    ghost then = { Fetched D.may D.did };
}

/// The helper takes it.
pub struct Take<D> {
    deed: PhantomData<D>,
}

impl<J, D: Deed<J>> Outcome<Mail<J>, Hand<J>> for Take<D> {
    ghost use Rattle.work_desk.specs.Rule.{Taken};

    ghost then = { Taken D.may D.did };
}

pub type Board<J, D> = RuledArrayQueue<Mail<J>, Hand<J>, InTurns<D>, Global>;

/// A side of a desk. It has no bytes.
pub type Token<J> = Pass<Mail<J>, Hand<J>>;

/// A desk between two threads.
#[derive(Drop)]
pub struct Desk<J: Drop, D: Deed<J>> {
    pub(crate) board: Board<J, D>,
    pub(crate) word: Word,
    ghost one: { ruled_capacity board ≡ 1 },
}

impl<J: Drop, D: Deed<J>> Desk<J, D> {
    ghost use Rattle.std.specs.Prelude.{◌≡◌, true, false, None, IfOk};
    ghost use Rattle.crossbeam_queue.specs.Passes.{view, IsPassOf, ruled_capacity};
    ghost use Rattle.work_desk.specs.Rule.{hand};

    /// A desk, the side that gives and the side that helps.
    pub(crate) fn open(alloc: Global) -> Result<(Desk<J, D>, Token<J>, Token<J>), AllocError>
        ensures giver { IfOk result (λ r. IsPassOf r.0.board r.1 × (view r.1 ≡ hand true false None)) }
        ensures helper { IfOk result (λ r. IsPassOf r.0.board r.2 × (view r.2 ≡ hand false true None)) }
    {
        let (board, mut first) = Board::<J, D>::ruled(alloc, 1)?;
        let second = board.another::<Sides>(&mut first);
        Ok((
            Desk {
                board,
                word: Word::new(),
            },
            first,
            second,
        ))
    }
}
