//! What every command of the node shares: what it is called with, how it reads its input, what it promises, and how it ends
//! and writes its output. It names no command, and opens no file and no socket.
#![tactic(auto)]

pub mod bootstrap;
mod call;
pub mod input;
pub mod output;
pub mod printed;
mod status;
pub mod vouch;

pub use call::Call;
pub use status::Status;
