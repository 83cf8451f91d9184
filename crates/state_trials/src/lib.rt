//! The book of claims and the routing table, as tests. They call what anybody may, and stand apart so that no part of either is
//! proved a second time with them.
#![tactic(auto)]

#[cfg(test)]
mod book;
#[cfg(test)]
mod table;
