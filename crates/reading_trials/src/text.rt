//! Tables as texts.
mod read;
mod text;
