//! Drivers and what they stand on, as tests: whole lookups, refreshes of tables, locks and workers, and the links in memory and
//! the real one. They stand apart, so that nothing is proved a second time with them and the program doesn't wait for what only
//! they need, and call what anybody may.
#![tactic(auto)]

#[cfg(test)]
mod hand;
#[cfg(test)]
mod link;
#[cfg(test)]
mod lookup;
#[cfg(test)]
mod refresh;
