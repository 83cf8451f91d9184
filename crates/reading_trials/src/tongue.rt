//! Bencode and messages both ways.
mod asking;
mod bencode;
mod items;
mod messages;
mod said;
mod seals;
mod senders;
mod tagging;
mod text;
mod two_networks;
