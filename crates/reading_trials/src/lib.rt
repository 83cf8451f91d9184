//! What is read and written, as tests: bencode, messages and tags, command lines, and tables as texts. They call what anybody
//! may, and stand apart so that nothing is proved a second time with them.
#![tactic(auto)]

#[cfg(test)]
mod text;
#[cfg(test)]
mod tongue;
#[cfg(test)]
mod word;
