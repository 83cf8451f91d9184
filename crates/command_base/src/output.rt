//! Writing a text whole, and how a command ends.
ghost use Rattle.std.specs.Prelude.{◌≡◌, ◌≢◌, ◌≤◌, ◌<◌, ◌⊎◌, OnOk, OnErr};
ghost use Rattle.kad_base.specs.Failing.{FailsLast};
ghost use Rattle.kad_base.specs.Outside.{Grows, Rose};
ghost use Rattle.command_base.specs.Written.{IsFront};
ghost use Rattle.command_base.specs.Shown.{shown, HasFailed};
ghost use Rattle.command_base.specs.Endings.{Writes, last_status, number_of, status_line};

use crate::status::{LINE_ROOM, Status};
use kad_base::{Failed, Sink};

/// Writes the bytes, or a front of them where the sink fails.
fn write_whole<K: Sink>(sink: &mut K, bytes: &[u8]) -> Result<(), Failed>
    ensures ok { OnOk result (Grows (K.written sink.old) (K.written sink.new)
        (λ added. added ≡ bytes.now)) }
    ensures err { OnErr result (Grows (K.written sink.old) (K.written sink.new)
        (λ added. IsFront added bytes.now)) }
    ensures writes { Writes bytes.now (shown K.written K.faults sink.old sink.new) }
    ensures faults { K.faults sink.old ≤ K.faults sink.new }
    ensures well { OnOk result (K.faults sink.new ≡ K.faults sink.old) }
    ensures failed { OnErr result (Rose (K.faults sink.old) (K.faults sink.new)) }
    ensures last { OnErr result (FailsLast K.written K.faults sink.old sink.new) }
{
    let mut at = 0;
    'writing: while at < bytes.len() {
        match sink.give(&bytes[at..]) {
            Ok(n) => at += n,
            Err(failed) => return Err(failed),
        }
    }
    Ok(())
}

/// Writes the output of a command: 0, or 5 where the sink fails.
pub fn write_output<K: Sink>(sink: &mut K, output: &[u8]) -> u8
    ensures either { (result ≡ 0) ⊎ (result ≡ 5) }
    ensures whole { result ≡ 0 →
        Grows (K.written sink.old) (K.written sink.new) (λ added. added ≡ output.now) }
    ensures cut { result ≡ 5 →
        Grows (K.written sink.old) (K.written sink.new) (λ added. IsFront added output.now) }
    ensures well { result ≡ 0 → K.faults sink.new ≡ K.faults sink.old }
    ensures failed { result ≡ 5 → HasFailed (shown K.written K.faults sink.old sink.new) }
    ensures last { result ≡ 5 → FailsLast K.written K.faults sink.old sink.new }
{
    match write_whole(sink, output) {
        Ok(()) => 0,
        Err(_) => 5,
    }
}

/// Writes the one line of a command that has no output, or a front of it where the sink fails, and answers its status.
/// The line is whole before its first byte is written, and takes no memory.
pub fn write_line<K: Sink>(sink: &mut K, status: &Status) -> u8
    ensures number { result ≡ number_of status.now }
    ensures known { (1 < result) × (result ≤ last_status) × (result ≢ 5) × (result ≢ 14) }
    ensures writes { Writes (status_line status.now) (shown K.written K.faults sink.old sink.new) }
    ensures last { (K.faults sink.new ≡ K.faults sink.old)
        ⊎ FailsLast K.written K.faults sink.old sink.new }
{
    let mut room = [0u8; LINE_ROOM];
    let size = status.put_line(&mut room);
    let _ = write_whole(sink, &room[..size]);
    status.number()
}
