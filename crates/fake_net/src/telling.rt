//! The transcript of a link in memory: each event is appended while there is memory for it, and none after that.
ghost use Rattle.std.specs.Prelude.{◌≡◌, ◌∷◌, [], length};
ghost use Rattle.kad_base.specs.declared.types.Event.{Event};
ghost use Rattle.kad_base.specs.Outside.{Grows, EventOf, came_at};
ghost use Rattle.fake_net.specs.Scripts.{IsWithin};

use kad_base::{Addr, Came, Event, List};
use std::alloc::Global;

/// The transcript and one event more, while there is memory for it.
pub(crate) fn telling(told: Option<List<Event>>, event: Event) -> Option<List<Event>>
    ensures { Grows told result (λ t. t ≡ event ∷ []) }
{
    let mut events = told?;
    match events.push(event) {
        Ok(()) => Some(events),
        Err(_) => None,
    }
}

pub(crate) fn telling_sent(
    alloc: Global,
    told: Option<List<Event>>,
    to: Addr,
    bytes: &[u8],
) -> Option<List<Event>>
    ensures { Grows told result (λ t. t ≡ Event.Sent to bytes.now ∷ []) }
{
    let Ok(bytes) = List::from_slice(alloc, bytes) else {
        return None;
    };
    telling(told, Event::Sent { to, bytes })
}

pub(crate) fn telling_unsent(
    alloc: Global,
    told: Option<List<Event>>,
    to: Addr,
    bytes: &[u8],
) -> Option<List<Event>>
    ensures { Grows told result (λ t. t ≡ Event.Unsent to bytes.now ∷ []) }
{
    let Ok(bytes) = List::from_slice(alloc, bytes) else {
        return None;
    };
    telling(told, Event::Unsent { to, bytes })
}

fn telling_got(
    alloc: Global,
    told: Option<List<Event>>,
    from: Addr,
    bytes: &[u8],
    until: u64,
    at: u64,
) -> Option<List<Event>>
    ensures { Grows told result (λ t. t ≡ Event.Got from bytes.now until at ∷ []) }
{
    let Ok(bytes) = List::from_slice(alloc, bytes) else {
        return None;
    };
    telling(
        told,
        Event::Got {
            from,
            bytes,
            until,
            at,
        },
    )
}

/// The transcript after a receive that answered.
pub(crate) fn telling_came(
    alloc: Global,
    told: Option<List<Event>>,
    came: &Came,
    buf: &[u8],
    until: u64,
) -> Option<List<Event>>
    requires { IsWithin came.now (length buf.now) }
    ensures { Grows told result (λ t. t ≡ EventOf came.now until buf.now ∷ []) }
{
    match *came {
        Came::Packet { from, len, at } => telling_got(alloc, told, from, &buf[..len], until, at),
        Came::Quiet { at } => telling(told, Event::Quiet { until, at }),
    }
}

/// The moment that a receive tells.
pub(crate) fn came_at(came: &Came) -> u64
    ensures { result ≡ came_at came.now }
{
    match *came {
        Came::Packet { at, .. } => at,
        Came::Quiet { at } => at,
    }
}
