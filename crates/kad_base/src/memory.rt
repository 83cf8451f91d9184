//! A source and a sink in memory, whose calls fail where they are told to.
ghost use Rattle.std.specs.Prelude.{◌≡◌, ◌<◌, ◌≤◌, ◌++◌, ◌↔◌, [], length, take, drop, min, Contains, Some, IfOk, OnOk, OnErr, IsErr, IsTrue};
ghost use Rattle.kad_base.specs.Memory.{counted};

use crate::list::{Bytes, Numbers};
use crate::outside::{Sink, Source};
use crate::types::Failed;
use std::marker::Model;

/// One more, where it isn't the last number.
fn counted(count: u64) -> u64
    ensures { result ≡ counted count }
{
    count.saturating_add(1)
}

fn is_in(numbers: &[u64], number: u64) -> bool
    ensures { IsTrue result ↔ Contains numbers.now number }
{
    numbers.contains(&number)
}

/// Gives at most `piece` bytes a call. The calls whose numbers, from 0, are in `failing` fail and take nothing.
#[derive(Drop)]
pub struct BytesSource {
    bytes: Bytes,
    at: usize,
    piece: usize,
    failing: Numbers,
    calls: u64,
    faults: u64,
}

impl Model for BytesSource {
    ghost use Rattle.std.specs.Prelude.{◌<◌, ◌≤◌, length, drop};
    ghost use Rattle.kad_base.specs.Memory.{SourceState};

    ghost Value = { SourceState };

    ghost view = { λ s. record { rest = drop s.at s.bytes; piece = s.piece; failing = s.failing; calls = s.calls; failures = s.faults } };

    ghost invariant = { λ s. (s.at ≤ length s.bytes) × (0 < s.piece) };
}

impl BytesSource {
    pub fn new(bytes: Bytes, piece: usize, failing: Numbers) -> Self
        requires { 0 < piece }
        ensures rest { result.rest ≡ bytes }
        ensures piece { result.piece ≡ piece }
        ensures failing { result.failing ≡ failing }
        ensures calls { result.calls ≡ 0 }
        ensures failures { result.failures ≡ 0 }
    {
        BytesSource {
            bytes,
            at: 0,
            piece,
            failing,
            calls: 0,
            faults: 0,
        }
    }
}

impl Source for BytesSource {
    ghost left = { λ s. Some s.rest };

    ghost faults = { λ s. s.failures };

    fn take(&mut self, buf: &mut [u8]) -> Result<usize, Failed>
        requires { 0 < length buf.old }
        ensures fails { IsErr result ↔ Contains self.old.failing self.old.calls }
        ensures gives { IfOk result (λ n.
            n ≡ min (length self.old.rest) (min self.old.piece (length buf.old))) }
        ensures bytes { IfOk result (λ n. take n buf.new ≡ take n self.old.rest) }
        ensures beyond { IfOk result (λ n. drop n buf.new ≡ drop n buf.old) }
        ensures end { IfOk result (λ n. n ≡ 0 → self.old.rest ≡ []) }
        ensures rest { IfOk result (λ n. self.new.rest ≡ drop n self.old.rest) }
        ensures nothing { OnErr result (self.new.rest ≡ self.old.rest) }
        ensures untouched { OnErr result (buf.new ≡ buf.old) }
        ensures calls { self.new.calls ≡ counted self.old.calls }
        ensures fault { OnErr result (self.new.failures ≡ counted self.old.failures) }
        ensures no_fault { OnOk result (self.new.failures ≡ self.old.failures) }
        ensures no_less { self.old.failures ≤ self.new.failures }
        ensures same_piece { self.new.piece ≡ self.old.piece }
        ensures same_failing { self.new.failing ≡ self.old.failing }
    {
        let fails = is_in(self.failing.as_slice(), self.calls);
        self.calls = counted(self.calls);
        if fails {
            self.faults = counted(self.faults);
            return Err(Failed);
        }
        let rest = &self.bytes.as_slice()[self.at..];
        let n = rest.len().min(self.piece).min(buf.len());
        buf[..n].copy_from_slice(&rest[..n]);
        self.at += n;
        Ok(n)
    }
}

/// Takes at most `piece` bytes a call. The calls whose numbers, from 0, are in `failing` fail and write nothing; so
/// does a call for whose bytes there is no memory.
#[derive(Drop)]
pub struct BytesSink {
    piece: usize,
    failing: Numbers,
    room: Bytes,
    calls: u64,
    faults: u64,
}

impl Model for BytesSink {
    ghost use Rattle.std.specs.Prelude.{◌<◌};
    ghost use Rattle.kad_base.specs.Memory.{SinkState};

    ghost Value = { SinkState };

    ghost view = { λ s. record { taken = s.room; piece = s.piece; failing = s.failing; calls = s.calls; failures = s.faults } };

    ghost invariant = { λ s. 0 < s.piece };
}

impl BytesSink {
    /// `room` is the text that the bytes are appended to.
    pub fn new(piece: usize, failing: Numbers, room: Bytes) -> Self
        requires { 0 < piece }
        ensures taken { result.taken ≡ room }
        ensures piece { result.piece ≡ piece }
        ensures failing { result.failing ≡ failing }
        ensures calls { result.calls ≡ 0 }
        ensures failures { result.failures ≡ 0 }
    {
        BytesSink {
            piece,
            failing,
            room,
            calls: 0,
            faults: 0,
        }
    }

    /// The bytes that were taken, after those that the room began with.
    pub fn written(&self) -> &[u8]
        ensures { result.now ≡ self.now.taken }
    {
        self.room.as_slice()
    }
}

impl Sink for BytesSink {
    ghost written = { λ s. Some s.taken };

    ghost faults = { λ s. s.failures };

    fn give(&mut self, bytes: &[u8]) -> Result<usize, Failed>
        requires { 0 < length bytes.now }
        // Where it fails otherwise, the bytes had no memory.
        ensures fails { Contains self.old.failing self.old.calls → IsErr result }
        ensures takes { IfOk result (λ n. n ≡ min (length bytes.now) self.old.piece) }
        ensures some { IfOk result (λ n. 0 < n) }
        ensures taken { IfOk result (λ n. self.new.taken ≡ self.old.taken ++ take n bytes.now) }
        ensures nothing { OnErr result (self.new.taken ≡ self.old.taken) }
        ensures calls { self.new.calls ≡ counted self.old.calls }
        ensures fault { OnErr result (self.new.failures ≡ counted self.old.failures) }
        ensures no_fault { OnOk result (self.new.failures ≡ self.old.failures) }
        ensures no_less { self.old.failures ≤ self.new.failures }
        ensures same_piece { self.new.piece ≡ self.old.piece }
        ensures same_failing { self.new.failing ≡ self.old.failing }
    {
        let fails = is_in(self.failing.as_slice(), self.calls);
        self.calls = counted(self.calls);
        if fails {
            self.faults = counted(self.faults);
            return Err(Failed);
        }
        let n = bytes.len().min(self.piece);
        match self.room.extend(&bytes[..n]) {
            Ok(()) => Ok(n),
            Err(_) => {
                self.faults = counted(self.faults);
                Err(Failed)
            }
        }
    }
}
