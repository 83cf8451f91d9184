//! The link that plays a script.
ghost use Rattle.std.specs.Prelude.{◌≡◌, ◌≤◌, ◌⊎◌, ◌++◌, ◌∷◌, [], ◌↔◌, length, All, Contains, Some, None, IfOk, OnOk, OnErr, IsErr, IsTrue, MatchOption};
ghost use Rattle.kad_base.specs.declared.types.Event.{Event};
ghost use Rattle.kad_base.specs.Outside.{Grows, EventOf, Arrives, came_at};
ghost use Rattle.fake_net.specs.Scripts.{one_more, SameSends, SameReceives, Asks, IsQuery, IsWritableEvent, AnswerNext, Receives};

use crate::script::{Script, ScriptEvent, SentQuery, ask, come};
use crate::telling::{came_at, telling, telling_came, telling_sent, telling_unsent};
use kad_base::{Addr, Came, Event, Failed, Link, List, NoMemory, Numbers};
use std::alloc::Global;
use std::marker::Model;

/// A link in memory. What comes is what its script says. The sends and receives whose numbers, from 0, are listed fail.
/// It tells its transcript until a call finds no memory for its record: for its event, or for the query of a send, which
/// fails then too. A receive that finds no memory for what comes fails.
#[derive(Drop)]
pub struct ScriptLink {
    alloc: Global,
    script: Vec<ScriptEvent>,
    queries: List<SentQuery>,
    moment: u64,
    sends: u64,
    receives: u64,
    failing_sends: Numbers,
    failing_receives: Numbers,
    told: Option<List<Event>>,
    send_faults: u64,
    recv_faults: u64,
}

impl Model for ScriptLink {
    ghost use Rattle.std.specs.Prelude.{All};
    ghost use Rattle.fake_net.specs.Scripts.{Play, IsWritableEvent};

    ghost Value = { Play };

    ghost view = { λ s. record {
      script = s.script.items;
      queries = s.queries;
      moment = s.moment;
      sends = s.sends;
      receives = s.receives;
      failing_sends = s.failing_sends;
      failing_receives = s.failing_receives;
      told = s.told;
      send_faults = s.send_faults;
      recv_faults = s.recv_faults;
    } };

    ghost invariant = { λ s. All IsWritableEvent s.script.items };
}

fn one_more(count: u64) -> u64
    ensures { result ≡ one_more count }
{
    count.saturating_add(1)
}

fn is_in(numbers: &[u64], number: u64) -> bool
    ensures { IsTrue result ↔ Contains numbers.now number }
{
    numbers.contains(&number)
}

impl ScriptLink {
    /// `start` is the first moment.
    pub fn new(
        alloc: Global,
        start: u64,
        script: Script,
        failing_sends: Numbers,
        failing_receives: Numbers,
    ) -> ScriptLink
        requires { All IsWritableEvent script }
        ensures script { result.script ≡ script }
        ensures queries { result.queries ≡ [] }
        ensures moment { result.moment ≡ start }
        ensures sends { result.sends ≡ 0 }
        ensures receives { result.receives ≡ 0 }
        ensures failing_sends { result.failing_sends ≡ failing_sends }
        ensures failing_receives { result.failing_receives ≡ failing_receives }
        ensures told { result.told ≡ Some [] }
        ensures send_faults { result.send_faults ≡ 0 }
        ensures recv_faults { result.recv_faults ≡ 0 }
    {
        ScriptLink {
            alloc,
            script: script.into_vec(),
            queries: List::new(alloc),
            moment: start,
            sends: 0,
            receives: 0,
            failing_sends,
            failing_receives,
            told: Some(List::new(alloc)),
            send_faults: 0,
            recv_faults: 0,
        }
    }

    /// The transcript, and `None` if it isn't told. Takes no memory.
    pub fn events(&self) -> Option<&[Event]>
        ensures { MatchOption result (self.now.told ≡ None)
            (λ events. self.now.told ≡ Some events.now) }
    {
        match &self.told {
            Some(events) => Some(events.as_slice()),
            None => None,
        }
    }
}

impl Link for ScriptLink {
    ghost kept = { λ _. tt };

    ghost told = { λ s. s.told };

    ghost moment = { λ s. s.moment };

    ghost send_faults = { λ s. s.send_faults };

    ghost recv_faults = { λ s. s.recv_faults };

    /// The last moment that was told.
    fn now(&mut self) -> u64
        ensures moment { result ≡ self.old.moment }
        ensures told { Grows self.old.told self.new.told (λ t. t ≡ Event.Now result ∷ []) }
        ensures same_moment { self.new.moment ≡ self.old.moment }
        ensures same_sends { SameSends self.old self.new }
        ensures same_receives { SameReceives self.old self.new }
    {
        let at = self.moment;
        self.told = telling(self.told.take(), Event::Now { at });
        at
    }

    /// Keeps the query that the bytes say, if they say one. Takes memory only for the query and for the transcript.
    fn send(&mut self, to: Addr, bytes: &[u8]) -> Result<(), Failed>
        ensures fails { Contains self.old.failing_sends self.old.sends → IsErr result }
        // If it tells its transcript afterwards, it failed by its number.
        ensures only { OnErr result (Contains self.old.failing_sends self.old.sends
            ⊎ (self.new.told ≡ None)) }
        // Else it failed for a query that there was no memory to keep.
        ensures only_queries { OnErr result (Contains self.old.failing_sends self.old.sends
            ⊎ IsQuery bytes.now) }
        ensures sent { OnOk result (Grows self.old.told self.new.told
            (λ t. t ≡ Event.Sent to bytes.now ∷ [])) }
        ensures unsent { OnErr result (Grows self.old.told self.new.told
            (λ t. t ≡ Event.Unsent to bytes.now ∷ [])) }
        ensures queries { OnOk result (Asks to bytes.now self.old.queries self.new.queries) }
        ensures no_query { OnErr result (self.new.queries ≡ self.old.queries) }
        ensures sends { self.new.sends ≡ one_more self.old.sends }
        ensures no_fault { OnOk result (self.new.send_faults ≡ self.old.send_faults) }
        ensures fault { OnErr result (self.new.send_faults ≡ one_more self.old.send_faults) }
        ensures no_less { self.old.send_faults ≤ self.new.send_faults }
        ensures same_failing { self.new.failing_sends ≡ self.old.failing_sends }
        ensures same_moment { self.new.moment ≡ self.old.moment }
        ensures same_receives { SameReceives self.old self.new }
    {
        let number = self.sends;
        self.sends = one_more(number);
        if is_in(self.failing_sends.as_slice(), number) {
            self.told = telling_unsent(self.alloc, self.told.take(), to, bytes);
            self.send_faults = one_more(self.send_faults);
            return Err(Failed);
        }
        match ask(self.alloc, &mut self.queries, to, bytes) {
            Ok(()) => {
                self.told = telling_sent(self.alloc, self.told.take(), to, bytes);
                Ok(())
            }
            Err(_) => {
                self.told = None;
                self.send_faults = one_more(self.send_faults);
                Err(Failed)
            }
        }
    }

    /// Gives what is next in the script at or before `until`, cut to the buffer, or waits. Memory is taken for an
    /// answer's written form and for the transcript alone.
    fn recv(&mut self, buf: &mut [u8], until: u64) -> Result<Came, Failed>
        ensures fails { Contains self.old.failing_receives self.old.receives → IsErr result }
        // It fails by its number, or if the next event is an answer, whose form needs memory.
        ensures only { OnErr result (Contains self.old.failing_receives self.old.receives
            ⊎ AnswerNext self.old.queries self.old.script until) }
        ensures came { IfOk result (Receives self.old.queries self.old.script self.old.moment until
            (length buf.old) buf.new self.new.script) }
        ensures arrives { IfOk result (λ came. Arrives came until self.old.moment
            (length buf.old)) }
        ensures unchanged { OnErr result (self.new.script ≡ self.old.script) }
        ensures untouched { OnErr result (buf.new ≡ buf.old) }
        ensures told { IfOk result (λ came. Grows self.old.told self.new.told
            (λ t. t ≡ EventOf came until buf.new ∷ [])) }
        ensures untold { OnErr result (self.new.told ≡ self.old.told) }
        ensures moment { IfOk result (λ came. self.new.moment ≡ came_at came) }
        ensures same_moment { OnErr result (self.new.moment ≡ self.old.moment) }
        ensures receives { self.new.receives ≡ one_more self.old.receives }
        ensures no_fault { OnOk result (self.new.recv_faults ≡ self.old.recv_faults) }
        ensures fault { OnErr result (self.new.recv_faults ≡ one_more self.old.recv_faults) }
        ensures no_less { self.old.recv_faults ≤ self.new.recv_faults }
        ensures same_failing { self.new.failing_receives ≡ self.old.failing_receives }
        ensures same_sends { SameSends self.old self.new }
    {
        let number = self.receives;
        self.receives = one_more(number);
        if is_in(self.failing_receives.as_slice(), number) {
            self.recv_faults = one_more(self.recv_faults);
            return Err(Failed);
        }
        match come(
            self.alloc,
            &mut self.script,
            self.queries.as_slice(),
            self.moment,
            buf,
            until,
        ) {
            Ok(came) => {
                self.moment = came_at(&came);
                self.told = telling_came(self.alloc, self.told.take(), &came, buf, until);
                Ok(came)
            }
            Err(_) => {
                self.recv_faults = one_more(self.recv_faults);
                Err(Failed)
            }
        }
    }
}
