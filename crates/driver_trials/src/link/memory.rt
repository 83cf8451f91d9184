//! Sources and sinks in memory, whose limits no clause says.
use kad_base::{
    Bytes, BytesSink, BytesSource, List, Numbers, Sink, Source, SteadySink, SteadySource,
};
use std::alloc::Global;
use std::test::Fail;

fn bytes_of(alloc: Global, text: &[u8]) -> Result<Bytes, Fail> {
    Ok(List::from_slice(alloc, text)?)
}

/// So many bytes are given, or none where a source fails, and then this stands in the buffer.
type Taken = (Option<usize>, [u8; 4]);

fn takes(source: &mut impl Source, buf: &mut [u8], taken: &Taken) -> bool {
    if buf.is_empty() {
        return false;
    }
    let (len, left) = taken;
    source.take(buf).ok() == *len && *buf == *left.as_slice()
}

/// Whether a source gives these, one after another, into one buffer.
fn takes_all(source: &mut impl Source, rows: &[Taken]) -> bool {
    let mut buf = [0u8; 4];
    for taken in rows {
        if !takes(source, &mut buf, taken) {
            return false;
        }
    }
    true
}

const PIECES: &[Taken] = &[
    (Some(2), *b"ab\0\0"),
    (None, *b"ab\0\0"),
    (Some(2), *b"cd\0\0"),
    (Some(1), *b"ed\0\0"),
    (Some(0), *b"ed\0\0"),
];

const WHOLE: &[Taken] = &[
    (Some(4), *b"abcd"),
    (Some(1), *b"ebcd"),
    (Some(0), *b"ebcd"),
];

#[test]
fn sources_give_pieces_and_fail_where_told(rt: HostRuntime) -> Result<(), Fail> {
    let alloc = rt.alloc();
    let failing: Numbers = List::from_slice(alloc, &[1])?;
    let mut source = BytesSource::new(bytes_of(alloc, b"abcde")?, 2, failing);
    assert!(rt; takes_all(&mut source, PIECES));
    let mut steady = SteadySource::new(bytes_of(alloc, b"abcde")?);
    assert!(rt; takes_all(&mut steady, WHOLE));
    Ok(())
}

/// A text that is given, and how many of its bytes are taken, or none where the sink fails.
type Given = (&'static [u8], Option<usize>);

fn gives(sink: &mut impl Sink, given: &Given) -> bool {
    let (text, len) = given;
    if text.is_empty() {
        return false;
    }
    sink.give(text).ok() == *len
}

/// Whether a sink takes these, one after another.
fn gives_all(sink: &mut impl Sink, rows: &[Given]) -> bool {
    for given in rows {
        if !gives(sink, given) {
            return false;
        }
    }
    true
}

const IN_PIECES: &[Given] = &[(b"abc", Some(2)), (b"c", None), (b"c", Some(1))];

const AS_A_WHOLE: &[Given] = &[(b"abc", Some(3)), (b"de", Some(2)), (b"f", Some(1))];

#[test]
fn sinks_take_pieces_and_fail_where_told(rt: HostRuntime) -> Result<(), Fail> {
    let alloc = rt.alloc();
    let failing: Numbers = List::from_slice(alloc, &[1])?;
    let mut sink = BytesSink::new(2, failing, bytes_of(alloc, b">")?);
    assert!(rt; gives_all(&mut sink, IN_PIECES));
    assert_eq!(rt; sink.written(), b">abc".as_slice());
    let mut steady = SteadySink::new(alloc, 4)?;
    assert!(rt; gives_all(&mut steady, AS_A_WHOLE));
    assert_eq!(rt; steady.written(), b"abcd".as_slice());
    Ok(())
}
