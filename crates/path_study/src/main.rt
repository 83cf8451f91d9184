//! How often lookups on disjoint paths (S/Kademlia, 2007, section 4.4) find the nodes that they should, in a network in
//! memory of which a share is hostile. The lookup is the product's own; the network, its draws and the attacks are made
//! here from a seed. It opens no socket and reads no clock: time passes only where the link says so.
#![tactic(auto)]

mod answers;
mod draws;
mod link;
mod network;
mod study;
mod words;

use std::env;
use std::hash::RandomState;
use std::process::ExitCode;
use std::random::RandomSource;
use std::rt::Env;
use study::{StudyFault, Tally, run};
use words::read;

/// Reads the words after the program's name, and makes the study that they ask for.
fn tally<R: Env + AllocGlobal + RandomSource>(rt: &R) -> Result<Tally, StudyFault> {
    let args = env::args(rt).map_err(|_| StudyFault::Start)?;
    let words: Vec<String> = args.skip(1).collect(rt.alloc())?;
    let setting = read(words.as_slice()).ok_or(StudyFault::Usage)?;
    let hasher = RandomState::new(rt).map_err(|_| StudyFault::Start)?;
    run(rt.alloc(), &setting, hasher)
}

fn main(rt: HostRuntime) -> ExitCode {
    match tally(&rt) {
        Ok(tally) => match rt.println(tally) {
            Ok(()) => ExitCode::SUCCESS,
            Err(_) => ExitCode::from(5),
        },
        Err(fault) => {
            let _ = rt.eprintln(fault);
            ExitCode::from(fault.status())
        }
    }
}
