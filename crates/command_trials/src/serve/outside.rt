//! Commands whose reads and writes are cut into pieces, and fail.
use crate::serve::trial::compare;
use fake_net::ScriptLink;
use id_puzzles::Sha1Check;
use kad_base::{Bytes, BytesSink, BytesSource, Event, List, NoMemory};
use run_kit::{plain_status_of, status_of, words};
use std::alloc::Global;
use std::random::RandomSource;
use std::sync::Wait;
use std::test::Fail;
use std::thread::Threads;
use trial_kit::{Reply, link};

/// What a command reads and where it writes: at most so many bytes a call, and the calls of these numbers, from 0, fail.
#[derive(Clone, Copy)]
pub(crate) struct Outside<'a> {
    pub input: Input<'a>,
    pub reads: (usize, &'a [u64]),
    pub writes: (usize, &'a [u64]),
}

/// An input.
#[derive(Clone, Copy)]
pub(crate) enum Input<'a> {
    Text(&'a str),
    /// So many bytes `#`.
    Marks(usize),
}

fn bytes_of(alloc: Global, input: Input) -> Result<Bytes, NoMemory> {
    match input {
        Input::Text(text) => List::from_slice(alloc, text.as_bytes()),
        Input::Marks(count) => Ok(List::from_vec(vec![in alloc; b'#'; count]?)),
    }
}

fn source_of(alloc: Global, outside: &Outside) -> Result<BytesSource, NoMemory> {
    let (piece, failing) = outside.reads;
    let bytes = bytes_of(alloc, outside.input)?;
    let failing = List::from_slice(alloc, failing)?;
    Ok(BytesSource::new(bytes, piece.max(1), failing))
}

fn sink_of(alloc: Global, outside: &Outside) -> Result<BytesSink, NoMemory> {
    let (piece, failing) = outside.writes;
    let failing = List::from_slice(alloc, failing)?;
    Ok(BytesSink::new(piece.max(1), failing, List::new(alloc)))
}

/// The command of these words, over a link with these replies, answers this status, writes this text and sends so many
/// datagrams.
pub(crate) fn ends<R: AllocGlobal + RandomSource + Threads + Wait + Sync>(
    rt: &R,
    texts: &[&str],
    outside: &Outside,
    replies: &[Reply],
    status: u8,
    text: &[u8],
    sends: usize,
) -> Result<(), Fail> {
    let alloc = rt.alloc();
    let words = words(alloc, texts)?;
    let mut link = link(alloc, replies)?;
    let mut source = source_of(alloc, outside)?;
    let mut sink = sink_of(alloc, outside)?;
    let answered = status_of(rt, &words, &mut source, &mut link, &mut sink, &Sha1Check)?;
    compare(answered, &sink, status, text)?;
    sent_so_many(&link, sends)
}

fn sent_so_many(link: &ScriptLink, sends: usize) -> Result<(), Fail> {
    let Some(events) = link.events() else {
        return Err(Fail::new("not told"));
    };
    let sent = events
        .iter()
        .filter(|event| matches!(event, Event::Sent { .. }))
        .count();
    if sent != sends {
        return Err(Fail::new("another number of datagrams"));
    }
    Ok(())
}

/// The same by the call that takes no link.
pub(crate) fn ends_plainly<R: AllocGlobal + RandomSource>(
    rt: &R,
    texts: &[&str],
    outside: &Outside,
    status: u8,
    text: &[u8],
) -> Result<(), Fail> {
    let alloc = rt.alloc();
    let words = words(alloc, texts)?;
    let mut source = source_of(alloc, outside)?;
    let mut sink = sink_of(alloc, outside)?;
    let answered = plain_status_of(rt, &words, &mut source, &mut sink)?;
    compare(answered, &sink, status, text)
}
