//! One object behind a mutual-exclusion lock: whatever the threads do, their calls stand in one legal run of the object,
//! each once and each pass's in its own order. A 'turn' is that lock, and a 'pass' the right to call in one role, which
//! knows the beginning of the run that its holder has seen.
//!
//! Such a run is a legal sequential history of Herlihy and Wing (1990). Nothing is claimed of the order in time between
//! calls of two passes. The run exists only in proofs: at run time there is one word and one slot. A caller spins with
//! exponential backoff, and takes no memory beyond what the object's own step takes. Nothing here knows what the object
//! is.
#![tactic(auto)]

mod board;
mod calls;
mod lock;
mod row;
mod seats;
mod threads;

pub use lock::{Told, Turn, TurnNoMemory};
pub use row::{Pass, Passes};
