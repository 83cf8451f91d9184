//! The program: the real words, random bytes, socket and standard streams, and one call of the node, which takes the
//! socket if the command needs one.
#![tactic(auto)]

use id_puzzles::Sha1Check;
use kad_words::{bind_of, takes_link};
use node_edge::{Refusal, StandardInput, StandardOutput, seal_of, words_of};
use node_top::{run, run_plain};
use std::hash::RandomState;
use std::io::Input;
use std::process::ExitCode;
use std::random::RandomSource;
use std::rt::{Clock, Env, Net};
use std::sync::Wait;
use std::thread::Threads;
use udp_link::UdpLink;

/// Takes the words, then draws, then binds if the command takes a link, and runs the node; its status.
fn started<R>(rt: &R) -> Result<u8, Refusal>
where
    R: Env + AllocGlobal + RandomSource + Net + Clock + Input + Print + Threads + Wait + Sync,
{
    let words = words_of(rt)?;
    let mut random = [0u8; 32];
    rt.fill_bytes(&mut random).map_err(|_| Refusal::Start)?;
    let hasher = RandomState::new(rt).map_err(|_| Refusal::Start)?;
    let words = words.as_slice();
    let mut source = StandardInput::new(rt.reader());
    let mut sink = StandardOutput::new(rt);
    if !takes_link(words) {
        return Ok(run_plain(
            rt.alloc(),
            words,
            &mut source,
            &mut sink,
            &random,
            &Sha1Check,
            hasher,
        ));
    }
    let mut link = UdpLink::bind(rt, bind_of(words)).map_err(|_| Refusal::Socket)?;
    let seal = seal_of(words);
    Ok(run(
        rt,
        rt.alloc(),
        words,
        &mut source,
        &mut link,
        &mut sink,
        &random,
        &Sha1Check,
        hasher,
        &seal,
    ))
}

fn main(rt: HostRuntime) -> ExitCode {
    match started(&rt) {
        Ok(status) => ExitCode::from(status),
        Err(refusal) => {
            let _ = rt.println(refusal.line());
            ExitCode::from(refusal.status())
        }
    }
}
