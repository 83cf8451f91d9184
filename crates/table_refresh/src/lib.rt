//! Eviction pings of a routing table (Kademlia, 2002, section 2.2): the least recently seen contact of each bucket is
//! pinged, or each live one, and the table is told what came of it. So a table that was saved can be refreshed. It opens no
//! socket and reads no clock but the link's.
#![tactic(auto)]

mod head;
mod laws;
mod ping;
mod plan;
mod pong;
mod receive;
mod refreshing;
mod tell;
mod types;

pub use laws::one_refresh;
pub use refreshing::refresh;
pub use types::{RefreshFault, RefreshSetting};
