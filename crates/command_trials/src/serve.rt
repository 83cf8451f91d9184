//! Whole commands that serve, check, mint, simulate, save a table and refresh one, and reads and writes that fail, by `run` and
//! by `run_plain`.
mod faults;
mod input;
mod limited;
mod outside;
mod plain;
mod refreshing;
mod saving;
mod serving;
mod simulated;
mod trial;
mod workers;
