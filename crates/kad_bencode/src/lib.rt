//! Bencode, the encoding of BitTorrent (BEP 3), whole and both ways: bytes to values, and values to their one written
//! form. It reads no message, and opens no file and no socket.
#![tactic(auto)]

mod built;
mod distinct;
pub mod entries;
mod filed;
mod find;
mod form;
mod heads;
pub mod into;
pub mod laws;
mod measured;
pub mod pairs;
pub mod parts;
pub mod piece;
pub mod place;
pub mod reader;
mod scan;
pub mod value;
pub mod verify;
pub mod writer;
mod written;

pub use built::built_is_spelled;
pub use entries::{Dictionary, Pair};
pub use into::{put_integer, put_length, put_part, put_string};
pub use pairs::Pairs;
pub use piece::{Items, Piece};
pub use place::place_for;
pub use reader::{MAX_DEPTH, read};
pub use value::{Bad, BenFault, Entries, Value, Values};
pub use verify::check;
pub use writer::write;
