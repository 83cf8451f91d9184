//! Refreshes of tables over scripted links.
mod faults;
mod heads;
mod play;
mod sealed;
mod strays;
mod tries;
