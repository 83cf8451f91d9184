//! A source and a sink in memory that never fail.
ghost use Rattle.std.specs.Prelude.{◌≡◌, ◌≤◌, ◌+◌, ◌-◌, ◌^◌, ◌++◌, [], length, take, drop, min, nat_eq, Ok, Some, None, IfOk, if◌then◌else◌};

use crate::bytes::put_bytes;
use crate::list::Bytes;
use crate::outside::{Sink, Source};
use crate::types::{Failed, NoMemory};
use std::alloc::Global;
use std::marker::Model;

/// Copies the first n.
fn copy_front(from: &[u8], to: &mut [u8], n: usize)
    requires from { n ≤ length from.now }
    requires to { n ≤ length to.old }
    ensures { take n to.new ≡ take n from.now }
{
    to[..n].copy_from_slice(&from[..n]);
}

/// Gives its bytes, as many a call as there is room for.
#[derive(Drop)]
pub struct SteadySource {
    bytes: Bytes,
    at: usize,
}

impl Model for SteadySource {
    ghost use Rattle.std.specs.Prelude.{◌≤◌, ℕ, List, length, drop};

    ghost Value = { List ℕ };

    ghost view = { λ s. drop s.at s.bytes };

    ghost invariant = { λ s. s.at ≤ length s.bytes };
}

impl SteadySource {
    pub fn new(bytes: Bytes) -> Self
        ensures { result ≡ bytes }
    {
        SteadySource { bytes, at: 0 }
    }
}

impl Source for SteadySource {
    ghost left = { λ s. Some s };

    ghost faults = { λ _. 0 };

    fn take(&mut self, buf: &mut [u8]) -> Result<usize, Failed>
        ensures gives { result ≡ Ok (min (length self.old) (length buf.old)) }
        ensures bytes { IfOk result (λ n. take n buf.new ≡ take n self.old) }
        ensures rest { IfOk result (λ n. self.new ≡ drop n self.old) }
    {
        let rest = &self.bytes.as_slice()[self.at..];
        let n = rest.len().min(buf.len());
        copy_front(rest, buf, n);
        self.at += n;
        Ok(n)
    }
}

/// Keeps the front that fits of all that it is given, and counts the rest. It tells what it was given while all has fitted.
#[derive(Drop)]
pub struct SteadySink {
    room: Vec<u8>,
    kept: usize,
    left_out: u64,
}

impl Model for SteadySink {
    ghost use Rattle.std.specs.Prelude.{◌≤◌, ◌<◌, ◌≡◌, length, take};
    ghost use Rattle.kad_base.specs.Memory.{SteadySinkState};

    ghost Value = { SteadySinkState };

    ghost view = { λ s. record { kept = take s.kept s.room.items; left_out = s.left_out; room = length s.room.items } };

    ghost invariant = { λ s. (s.kept ≤ length s.room.items) × (0 < s.left_out → s.kept ≡ length s.room.items) };
}

impl SteadySink {
    /// Takes memory for `len` bytes, and none after that.
    pub fn new(alloc: Global, len: usize) -> Result<SteadySink, NoMemory>
        ensures kept { IfOk result (λ sink. sink.kept ≡ []) }
        ensures left_out { IfOk result (λ sink. sink.left_out ≡ 0) }
        ensures room { IfOk result (λ sink. sink.room ≡ len) }
    {
        Ok(SteadySink {
            room: vec![in alloc; 0u8; len]?,
            kept: 0,
            left_out: 0,
        })
    }

    /// The front that was kept.
    pub fn written(&self) -> &[u8]
        ensures { result.now ≡ self.now.kept }
    {
        &self.room[..self.kept]
    }
}

impl Sink for SteadySink {
    ghost written = { λ s. if nat_eq s.left_out 0 then Some s.kept else None };

    ghost faults = { λ _. 0 };

    fn give(&mut self, bytes: &[u8]) -> Result<usize, Failed>
        ensures all { result ≡ Ok (length bytes.now) }
        ensures kept { self.new.kept ≡ self.old.kept ++ take (self.old.room - length self.old.kept) bytes.now }
        ensures left_out { self.new.left_out ≡ min (self.old.left_out
            + (length bytes.now - (self.old.room - length self.old.kept))) (2 ^ 64 - 1) }
        ensures room { self.new.room ≡ self.old.room }
    {
        let n = bytes.len().min(self.room.len() - self.kept);
        self.kept = put_bytes(&mut self.room, self.kept, &bytes[..n]);
        self.left_out = self.left_out.saturating_add((bytes.len() - n) as u64);
        Ok(bytes.len())
    }
}
