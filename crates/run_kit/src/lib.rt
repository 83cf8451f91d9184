//! How tests run whole commands over a scripted link, with random bytes of zeros. The program uses
//! none of it.
#![tactic(auto)]

use fake_net::ScriptLink;
use id_puzzles::Sha1Check;
use kad_base::{BytesSink, Link, List, Numbers, Sink, Source, SteadySource};
use kad_words::group_of;
use node_top::{run, run_plain};
use path_worker::PacedCheck;
use seal_tags::{GroupSeal, Seal, SealCheck};
use std::alloc::{AllocError, Global};
use std::hash::RandomState;
use std::random::RandomSource;
use std::sync::Wait;
use std::test::Fail;
use std::thread::Threads;

/// What a command wrote, its status, and its link.
#[derive(Drop)]
pub struct Played {
    pub status: u8,
    pub text: String,
    pub link: ScriptLink,
}

/// No call fails.
pub fn none(alloc: Global) -> Numbers {
    List::new(alloc)
}

/// The words of a command.
pub fn words(alloc: Global, texts: &[&str]) -> Result<Vec<String>, AllocError> {
    let mut words = Vec::new(alloc);
    for text in texts {
        words.push(String::from_str(alloc, text)?)?;
    }
    Ok(words)
}

/// The status of the command of these words, over what the test made.
pub fn status_of<
    R: AllocGlobal + RandomSource + Threads + Wait + Sync,
    S: Source,
    L: Link,
    K: Sink,
    C: PacedCheck + Sync,
>(
    rt: &R,
    words: &[String],
    source: &mut S,
    link: &mut L,
    sink: &mut K,
    check: &C,
) -> Result<u8, Fail> {
    let seal = GroupSeal::new(group_of(words).unwrap_or([0; 32]));
    status_under(rt, words, source, link, sink, check, &seal)
}

/// The same under a seal of the test's own.
pub fn status_under<
    R: AllocGlobal + RandomSource + Threads + Wait + Sync,
    S: Source,
    L: Link,
    K: Sink,
    C: PacedCheck + Sync,
    G: Seal + SealCheck + Sync,
>(
    rt: &R,
    words: &[String],
    source: &mut S,
    link: &mut L,
    sink: &mut K,
    check: &C,
    seal: &G,
) -> Result<u8, Fail> {
    Ok(run(
        rt,
        rt.alloc(),
        words,
        source,
        link,
        sink,
        &[0; 32],
        check,
        RandomState::new(rt)?,
        seal,
    ))
}

/// The same by the call that takes no link.
pub fn plain_status_of<R: AllocGlobal + RandomSource, S: Source, K: Sink>(
    rt: &R,
    words: &[String],
    source: &mut S,
    sink: &mut K,
) -> Result<u8, Fail> {
    Ok(run_plain(
        rt.alloc(),
        words,
        source,
        sink,
        &[0; 32],
        &Sha1Check,
        RandomState::new(rt)?,
    ))
}

/// Runs the command of these words over the link.
pub fn play<R: AllocGlobal + RandomSource + Threads + Wait + Sync>(
    rt: &R,
    texts: &[&str],
    input: &str,
    link: ScriptLink,
) -> Result<Played, Fail> {
    play_with(rt, texts, input, link, &Sha1Check)
}

/// The same under a check of the test's own.
pub fn play_with<R: AllocGlobal + RandomSource + Threads + Wait + Sync, C: PacedCheck + Sync>(
    rt: &R,
    texts: &[&str],
    input: &str,
    link: ScriptLink,
    check: &C,
) -> Result<Played, Fail> {
    let words = words(rt.alloc(), texts)?;
    let seal = GroupSeal::new(group_of(&words).unwrap_or([0; 32]));
    play_under(rt, &words, input, link, check, &seal)
}

/// The same under a check and a seal of the test's own.
pub fn play_under<
    R: AllocGlobal + RandomSource + Threads + Wait + Sync,
    C: PacedCheck + Sync,
    G: Seal + SealCheck + Sync,
>(
    rt: &R,
    words: &[String],
    input: &str,
    link: ScriptLink,
    check: &C,
    seal: &G,
) -> Result<Played, Fail> {
    let alloc = rt.alloc();
    let mut link = link;
    let bytes = List::from_slice(alloc, input.as_bytes())?;
    let mut source = SteadySource::new(bytes);
    let mut sink = BytesSink::new(4096, none(alloc), List::new(alloc));
    let status = status_under(rt, words, &mut source, &mut link, &mut sink, check, seal)?;
    let text = String::from_str(alloc, std::str::from_utf8(sink.written())?)?;
    Ok(Played { status, text, link })
}

/// The command answers this status and writes this text.
pub fn shows<R: AllocGlobal + RandomSource + Threads + Wait + Sync>(
    rt: &R,
    texts: &[&str],
    input: &str,
    link: ScriptLink,
    status: u8,
    text: &str,
) -> Result<(), Fail> {
    let played = play(rt, texts, input, link)?;
    if played.status != status {
        return Err(Fail::new("another status"));
    }
    if played.text.as_str() != text {
        return Err(Fail::new("another text"));
    }
    Ok(())
}
