//! KRPC messages (BEP 5, BEP 44) over bencode, both ways: what a datagram says, and the one written form of a message. It
//! knows no lookup and no socket.
#![tactic(auto)]

mod answer;
mod ask;
mod borrowed;
mod fields;
mod laws;
mod members;
mod message;
mod owned;
mod query;
mod reader;
mod seal;
mod sender;
mod well_typed;
mod writer;

pub use answer::{AnswerView, own_answer};
pub use ask::AskView;
pub use borrowed::View;
pub use kad_records::split_record;
pub use laws::{form_says, one_message, said_is_writable};
pub use message::{Answer, Ask, Key, KrpcFault, Message, Port, Want};
pub use owned::push_peers;
pub use query::{find_node_into, get_into, get_peers_into};
pub use reader::{Decoded, decode, decode_top, decode_view};
pub use seal::{SealParts, form_is_untagged, parts_of, tag_comes_off, tag_into, with_tag};
pub use sender::proof_in;
pub use well_typed::message_is_well_typed;
pub use writer::{encode, encode_into};

/// The `nodes` of an answer where they stand.
pub type Nodes<'a> = kad_records::Records<'a, kad_records::Node>;

/// The `snodes` of an answer where they stand.
pub type ProvedNodes<'a> = kad_records::Records<'a, kad_records::Proved>;

/// The `nodes6` of an answer where they stand.
pub type Nodes6<'a> = kad_records::Records<'a, kad_records::Node6>;

/// The `snodes6` of an answer where they stand.
pub type ProvedNodes6<'a> = kad_records::Records<'a, kad_records::Proved6>;
