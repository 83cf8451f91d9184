//! Whole commands over a scripted link and over none, as tests: by `run` and by `run_plain`. Those that look up are in `node`;
//! those that serve, check, mint, simulate, save a table and refresh one, and reads and writes that fail, in `serve`. They
//! stand apart from the top, so that the program doesn't wait for what only they need, and call what anybody may.
#![tactic(auto)]

#[cfg(test)]
mod node;
#[cfg(test)]
mod serve;
