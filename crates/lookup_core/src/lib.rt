//! One lookup without link, clock and table: its book, its open queries, and what each call on it asks, hears and
//! loses. Who drives it sends what it asks, and says what came and when; it hands out who was lost and what was heard.
#![tactic(auto)]

mod ask;
mod expire;
mod gather;
mod on_reply;
mod quest;
mod receiving;
mod reply;
mod sealed;
mod state;
mod unsettled;

pub use ask::Asked;
pub use gather::{Gathered, Item, ItemList, Token, Tokened, in_order, keep, nothing};
pub use on_reply::{Answered, Taken};
pub use quest::{AskKind, Quest, brought};
pub use receiving::{round_after, stray_more, wait_until};
pub use reply::{ReplyView, SaidView, read_reply};
pub use sealed::is_sealed;
pub use state::Lookup;
pub use unsettled::has_some;
