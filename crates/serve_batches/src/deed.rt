//! What is done to a worker's datagrams, by the thread that serves or by one that helps it.
ghost use Rattle.std.specs.Prelude.{◌≡◌, Some};
ghost use Rattle.serve_batches.specs.Deeds.{HasSetting, Serves, known};

use crate::shift::Shift;
use node_serve::ServeSetting;
use seal_tags::Seal;
use serve_crew::{Desk, Turns};
use std::marker::{Brand, PhantomData};
use std::sync::Wait;
use work_desk::{Deed, Doer};

/// How many datagrams another thread is woken for. Fewer are answered about as soon as it is awake, also where replies are tagged.
const WORTH: usize = 8;

/// What is fixed while a node serves. Each call of a program picks it.
pub(crate) trait Serving {
    ghost use Rattle.std.specs.Prelude.{Option};
    ghost use Rattle.serve_batches.specs.Deeds.{Known};

    ghost known: { Option Known };
}

impl Serving for Brand {
    ghost use Rattle.std.specs.Prelude.{None};

    ghost known = { None };
}

/// What a node serves with: the turns over what it holds, the seal, and when the service ends.
#[derive(Drop)]
pub(crate) struct Service<'a, G: Seal> {
    pub turns: &'a Turns,
    pub seal: &'a G,
    pub end: Option<u64>,
}

/// What is done: a worker answers its datagrams.
pub(crate) struct Way<B> {
    of: PhantomData<B>,
}

impl<B: Serving> Deed<Shift> for Way<B> {
    ghost use Rattle.serve_batches.specs.Deeds.{DidWork, MayWork};

    ghost may = { MayWork B.known };

    ghost did = { DidWork B.known };
}

/// The thread that serves. Its setting is as of the moment.
#[derive(Drop)]
pub(crate) struct Leading<'a, B: Serving, G: Seal> {
    setting: &'a ServeSetting,
    turns: &'a Turns,
    seal: &'a G,
    of: PhantomData<B>,
    ghost is: { B.known ≡ Some (known (G.tag_of seal.now) setting.now turns.now) },
}

impl<'a, B: Serving, G: Seal> Leading<'a, B, G> {
    ghost use Rattle.std.specs.Prelude.{◌≡◌, Some};
    ghost use Rattle.serve_batches.specs.Deeds.{known};

    pub(crate) fn new(setting: &'a ServeSetting, turns: &'a Turns, seal: &'a G) -> Leading<'a, B, G>
        requires is { B.known ≡ Some (known (G.tag_of seal.now) setting.now turns.now) }
    {
        Leading {
            setting,
            turns,
            seal,
            of: PhantomData,
        }
    }
}

impl<'a, B: Serving, G: Seal> Doer<Shift, Way<B>> for Leading<'a, B, G> {
    fn is_worth(&self, shift: &Shift) -> bool {
        shift.given >= WORTH
    }

    fn work<R: Wait>(&mut self, rt: &R, shift: &mut Shift) {
        let desk = Desk {
            setting: self.setting,
            turns: self.turns,
        };
        shift.work(shift.given, rt, &desk, self.seal);
    }
}

/// A setting for a thread that helps.
#[derive(Drop)]
pub(crate) struct Own<B: Serving> {
    setting: ServeSetting,
    of: PhantomData<B>,
    ghost is: { HasSetting B.known setting },
}

impl<B: Serving> Own<B> {
    ghost use Rattle.serve_batches.specs.Deeds.{HasSetting};

    pub(crate) fn new(setting: ServeSetting) -> Own<B>
        requires { HasSetting B.known setting }
    {
        Own {
            setting,
            of: PhantomData,
        }
    }

    /// Keeps the tokens' secrets of the moment.
    fn renew(&mut self, at: u64) {
        self.setting.tokens.renew(at);
    }
}

/// A thread that helps.
#[derive(Drop)]
pub(crate) struct Helping<'a, B: Serving, G: Seal> {
    own: Own<B>,
    turns: &'a Turns,
    seal: &'a G,
    ghost is: { Serves B.known (G.tag_of seal.now) turns.now },
}

impl<'a, B: Serving, G: Seal> Helping<'a, B, G> {
    ghost use Rattle.serve_batches.specs.Deeds.{Serves};

    pub(crate) fn new(own: Own<B>, turns: &'a Turns, seal: &'a G) -> Helping<'a, B, G>
        requires { Serves B.known (G.tag_of seal.now) turns.now }
    {
        Helping { own, turns, seal }
    }
}

impl<'a, B: Serving, G: Seal> Doer<Shift, Way<B>> for Helping<'a, B, G> {
    fn is_worth(&self, _shift: &Shift) -> bool {
        false
    }

    fn work<R: Wait>(&mut self, rt: &R, shift: &mut Shift) {
        self.own.renew(shift.at);
        let desk = Desk {
            setting: &self.own.setting,
            turns: self.turns,
        };
        shift.work(shift.given, rt, &desk, self.seal);
    }
}
