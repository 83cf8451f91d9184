//! How long a node serves: by the number of its receive calls, and by the clock.
ghost use Rattle.std.specs.Prelude.{◌≡◌};
ghost use Rattle.node_serve.specs.Lasting.{end_of, is_over, waits_to};

use kad_base::limits::MAX_WAIT;

/// A minute, in milliseconds.
const MINUTE: u64 = 60_000;

/// How long a node serves: at most so many receive calls, and so many minutes from the first moment that its link told, where
/// 0 minutes are no end by time. Whichever comes first ends it.
#[derive(Clone, Copy, Debug, PartialEq, Eq)]
pub struct Lasting {
    pub receives: u32,
    pub minutes: u32,
}

/// The moment, in milliseconds, at which a service ends that began at this one, or the last moment that there is; `None`
/// where it has no end by time.
pub fn end_of(began: u64, minutes: u32) -> Option<u64>
    ensures { result ≡ end_of began minutes }
{
    if minutes == 0 {
        return None;
    }
    Some(began.saturating_add(u64::from(minutes) * MINUTE))
}

/// Whether a service with this end is over at the moment, in milliseconds: at its end and behind it.
pub fn is_over(end: Option<u64>, moment: u64) -> bool
    ensures { result ≡ is_over end moment }
{
    match end {
        None => false,
        Some(end) => end <= moment,
    }
}

/// Until when a receive call waits that is made behind this moment, in milliseconds: for a minute, but to the end at most.
pub fn waits_to(end: Option<u64>, moment: u64) -> u64
    ensures { result ≡ waits_to end moment }
{
    let until = moment.saturating_add(MAX_WAIT);
    match end {
        None => until,
        Some(end) => until.min(end),
    }
}
