//! A UDP socket that remembers how long it was told to wait, so that a receive that waits as long as the last one, or as
//! little, costs one system call.
ghost use Rattle.std.specs.Prelude.{◌≡◌, ◌≤◌, ◌-◌, ◌*◌, ◌<◌, ◌↔◌, length, IsNone, IfSome, IfOk, OnOk, Some, is_some};
ghost use Rattle.std.specs.Duration.{as_nanos};

use libc::net as c;
use std::io;
use std::net::{SocketAddr, UdpSocket};
use std::os::fd::AsRawFd;
use std::time::Duration;

/// How many bytes of what came the system is asked to keep for the socket.
const ROOM_FOR_ARRIVALS: i32 = 4 << 20;

/// A UDP socket: whether its receives wait, and how long they wait where they do, as far as that was set.
#[derive(Drop)]
pub(crate) struct TimedSocket {
    socket: UdpSocket,
    waits: bool,
    timeout: Option<Duration>,
}

impl TimedSocket {
    /// Of a socket whose receives wait, as the system makes them.
    pub(crate) fn new(socket: UdpSocket) -> Self {
        TimedSocket {
            socket,
            waits: true,
            timeout: None,
        }
    }

    /// Asks the system to keep more of what comes until it is received (socket(7), `SO_RCVBUF`). It grants as much as its own
    /// limit allows; if it refuses, the socket keeps the room that it has.
    pub(crate) fn widen(&self) {
        let mut room = [0u8; 16];
        room[..4].copy_from_slice(&ROOM_FOR_ARRIVALS.to_ne_bytes());
        let fd = self.socket.as_raw_fd();
        let _ = unsafe { c::setsockopt(fd, c::SOL_SOCKET, c::SO_RCVBUF, &room, 4) };
    }

    pub(crate) fn send_to(&self, bytes: &[u8], to: SocketAddr) -> io::Result<usize> {
        self.socket.send_to(bytes, to)
    }

    /// One receive, which waits so long and no longer, and not at all for `None`.
    #[inline(always)]
    pub(crate) fn recv_from(
        &mut self,
        buf: &mut [u8],
        wait: Option<Duration>,
    ) -> io::Result<(usize, SocketAddr)>
        ensures { IfOk result (λ came. came.0 ≤ length buf.old) }
    {
        self.set_waits(wait.is_some())?;
        if let Some(timeout) = wait {
            self.set_timeout(timeout)?;
        }
        self.socket.recv_from(buf)
    }

    /// Says whether receives wait, and sends if the system has no room for more, if that isn't said already.
    pub(crate) fn set_waits(&mut self, waits: bool) -> io::Result<()>
        ensures waits { OnOk result (self.new.waits ≡ waits) }
        ensures same { self.new.timeout ≡ self.old.timeout }
    {
        if self.waits != waits {
            self.socket.set_nonblocking(!waits)?;
            self.waits = waits;
        }
        Ok(())
    }

    /// Says how long receives wait, if that isn't said already.
    fn set_timeout(&mut self, timeout: Duration) -> io::Result<()>
        ensures timeout { OnOk result (self.new.timeout ≡ Some timeout) }
        ensures same { self.new.waits ≡ self.old.waits }
    {
        if self.timeout != Some(timeout) {
            self.socket.set_read_timeout(Some(timeout))?;
            self.timeout = Some(timeout);
        }
        Ok(())
    }
}

/// From one moment to another, in milliseconds: `None` if the other has passed.
pub(crate) fn time_left(until: u64, at: u64) -> Option<Duration>
    ensures passed { IsNone result ↔ (until ≤ at) }
    ensures left { IfSome result (λ left. as_nanos left ≡ (until - at) * 1_000_000) }
{
    match until.checked_sub(at) {
        None | Some(0) => None,
        Some(left) => Some(Duration::from_millis(left)),
    }
}
