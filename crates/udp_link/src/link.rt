//! The link: its socket, its moment and its faults.
ghost use Rattle.std.specs.Prelude.{ℕ, ◌≡◌, ◌↔◌, ◌≤◌, ◌-◌, ◌*◌, ◌^◌, ◌<◌, length, None, IfOk, IfSome, IsTrue};
ghost use Rattle.std.specs.Duration.{as_nanos};
ghost use Rattle.std.specs.IoError.{error_kind};
ghost use Rattle.kad_base.specs.Outside.{Arrives, came_at};
ghost use Rattle.udp_link.specs.Waking.{IsWake};

use crate::addresses::{addr_of, socket_addr};
use crate::room::Room;
use crate::timed_socket::{TimedSocket, time_left};
use kad_base::{Addr, Came, Failed, Link};
use std::alloc::Global;
use std::io;
use std::io::{Error, ErrorKind};
use std::marker::Model;
use std::net::UdpSocket;
use std::os::fd::{AsRawFd, RawFd};
use std::rt::{Clock, Net};
use std::time::{Duration, Instant};

/// The last moment that a link tells, in milliseconds.
const LAST_MOMENT: u64 = (1 << 62) - 1;

/// The file descriptor of standard input (POSIX).
const STANDARD_INPUT: RawFd = 0;

/// How often a receive that the system ended before its time is tried again.
const EARLY_WAKES: u32 = 1_000;

/// How long the first wait of a receive is where twice as much or more lies between the moment that was told last and the one to
/// which it waits, in milliseconds. For such a wait the clock needn't be read: what is left behind it is computed when it is over.
const FIRST_WAIT: u64 = 30_000;

/// After so many sends without a receive between, what has come meanwhile is taken into the room, and then after as many again.
const SENDS_AT_ONCE: u32 = 16;

/// An unconnected UDP socket. Its moment is the milliseconds since it was made, at most 2^62 - 1, and never before the
/// last one that it told. It tells no transcript. A receive to a moment that has passed asks the socket without waiting.
///
/// What a socket has no room for is lost, and many queries at once bring as many answers. So a link takes what has come, up to 512
/// datagrams of at most 4,097 bytes, into a room of its own at its first send, and then each time that it sent much without a
/// receive between. From there it is received first, in the order in which it came.
#[derive(Drop)]
pub struct UdpLink<'a, R: Clock> {
    rt: &'a R,
    alloc: Global,
    socket: TimedSocket,
    room: Room,
    /// How many sends there were since the last receive, or since something was taken into the room.
    sends: u32,
    began: Instant,
    last: u64,
    send_faults: u64,
    recv_faults: u64,
}

impl<'a, R: Clock> Model for UdpLink<'a, R> {
    ghost use Rattle.std.specs.Prelude.{◌<◌, ◌^◌};
    ghost use Rattle.udp_link.specs.LinkState.{LinkState};

    ghost Value = { LinkState };

    ghost view = { λ l. record { moment = l.last; send_faults = l.send_faults; recv_faults = l.recv_faults } };

    ghost invariant = { λ l. l.last < 2 ^ 62 };
}

impl<'a, R: Clock + Net + AllocGlobal> UdpLink<'a, R> {
    /// Fails if the system binds no socket to the address, or its clock can't be read. A process that was started
    /// with standard input closed fails too: the socket would have its place, and datagrams be read as the input.
    pub fn bind(rt: &'a R, addr: Addr) -> Result<Self, Failed>
        ensures { IfOk result (λ link. link ≡ record {
          moment = 0;
          send_faults = 0;
          recv_faults = 0;
        }) }
    {
        let socket = UdpSocket::bind(rt, socket_addr(addr)).map_err(|_| Failed)?;
        if socket.as_raw_fd() == STANDARD_INPUT {
            return Err(Failed);
        }
        let began = Instant::now(rt).map_err(|_| Failed)?;
        let socket = TimedSocket::new(socket);
        socket.widen();
        Ok(UdpLink {
            rt,
            alloc: rt.alloc(),
            socket,
            room: Room::new(rt.alloc()),
            // What came before the first send is taken at it, so that the socket has room for what that brings.
            sends: SENDS_AT_ONCE - 1,
            began,
            last: 0,
            send_faults: 0,
            recv_faults: 0,
        })
    }
}

impl<'a, R: Clock> UdpLink<'a, R> {
    /// The moment, or why the clock can't be read.
    fn read_clock(&self) -> io::Result<u64>
        ensures later { IfOk result (λ at. self.now.moment ≤ at) }
        ensures ends { IfOk result (λ at. at < 2 ^ 62) }
    {
        let elapsed = self.began.elapsed(self.rt)?.as_millis();
        let elapsed = u64::try_from(elapsed).unwrap_or(LAST_MOMENT);
        Ok(elapsed.min(LAST_MOMENT).max(self.last))
    }

    /// How long a receive to this moment waits at once: as long as is left, or at first, where much is, for half a minute.
    #[inline(always)]
    fn left(&self, until: u64, first: bool) -> io::Result<Option<Duration>>
        ensures { IfOk result (λ left. IfSome left
            (λ wait. as_nanos wait ≤ (until - self.now.moment) * 1_000_000)) }
    {
        if first && until.saturating_sub(self.last) >= 2 * FIRST_WAIT {
            return Ok(Some(Duration::from_millis(FIRST_WAIT)));
        }
        Ok(time_left(until, self.read_clock()?))
    }

    /// Asks the socket once, for the time that is left; `None` if the system ended the wait before its time.
    fn ask(&mut self, buf: &mut [u8], until: u64, first: bool) -> io::Result<Option<Came>>
        ensures came { IfOk result (λ asked. IfSome asked
            (λ came. Arrives came until self.old.moment (length buf.old))) }
        ensures ends { IfOk result (λ asked. IfSome asked (λ came. came_at came < 2 ^ 62)) }
        ensures same { self.new ≡ self.old }
    {
        let left = self.left(until, first)?;
        match self.socket.recv_from(buf, left) {
            Ok((len, from)) => {
                let at = self.read_clock()?;
                let from = addr_of(from);
                Ok(Some(Came::Packet { from, len, at }))
            }
            Err(error) if is_wake(&error) => {
                let at = self.read_clock()?;
                Ok((until <= at).then_some(Came::Quiet { at }))
            }
            Err(error) => Err(error),
        }
    }

    /// Asks the socket until something comes or the moment has passed, or it has woken too often.
    fn wait(&mut self, buf: &mut [u8], until: u64) -> Result<Came, Failed>
        ensures came { IfOk result (λ came. Arrives came until self.old.moment (length buf.old)) }
        ensures ends { IfOk result (λ came. came_at came < 2 ^ 62) }
        ensures same { self.new ≡ self.old }
    {
        for i in 0..=EARLY_WAKES {
            match self.ask(buf, until, i == 0) {
                Ok(Some(came)) => return Ok(came),
                Ok(None) => {}
                Err(_) => return Err(Failed),
            }
        }
        Err(Failed)
    }

    /// The oldest datagram of the room, if it has one.
    #[inline(never)]
    fn held(&mut self, buf: &mut [u8]) -> Result<Option<Came>, Failed>
        ensures came { IfOk result (λ held. IfSome held
            (λ came. (until : ℕ) → Arrives came until self.old.moment (length buf.old))) }
        ensures ends { IfOk result (λ held. IfSome held (λ came. came_at came < 2 ^ 62)) }
        ensures same { self.new ≡ self.old }
    {
        let Ok(at) = self.read_clock() else {
            return Err(Failed);
        };
        match self.room.give(buf) {
            Some((len, from)) => Ok(Some(Came::Packet { from, len, at })),
            None => Ok(None),
        }
    }

    /// Gives the oldest datagram of the room, or if there is none what the socket gives.
    fn next(&mut self, buf: &mut [u8], until: u64) -> Result<Came, Failed>
        ensures came { IfOk result (λ came. Arrives came until self.old.moment (length buf.old)) }
        ensures ends { IfOk result (λ came. came_at came < 2 ^ 62) }
        ensures same { self.new ≡ self.old }
    {
        if !self.room.is_empty() {
            if let Some(came) = self.held(buf)? {
                return Ok(came);
            }
        }
        self.wait(buf, until)
    }

    /// Counts a send, and takes what has come into the room if there were enough of them. Afterwards sends wait, as they
    /// did before.
    fn take_meanwhile(&mut self)
        ensures { self.new ≡ self.old }
    {
        self.sends = self.sends.saturating_add(1);
        if self.sends < SENDS_AT_ONCE {
            return;
        }
        self.sends = 0;
        self.room.take_all(self.alloc, &mut self.socket);
        // If this fails, the next receive says it again.
        let _ = self.socket.set_waits(true);
    }
}

impl<'a, R: Clock> Link for UdpLink<'a, R> {
    ghost kept = { λ _. tt };

    ghost told = { λ _. None };

    ghost moment = { λ l. l.moment };

    ghost send_faults = { λ l. l.send_faults };

    ghost recv_faults = { λ l. l.recv_faults };

    fn now(&mut self) -> u64 {
        if let Ok(at) = self.read_clock() {
            self.last = at;
        }
        self.last
    }

    fn send(&mut self, to: Addr, bytes: &[u8]) -> Result<(), Failed> {
        self.take_meanwhile();
        match self.socket.send_to(bytes, socket_addr(to)) {
            Ok(n) if n == bytes.len() => Ok(()),
            _ => {
                self.send_faults = self.send_faults.saturating_add(1);
                Err(Failed)
            }
        }
    }

    fn recv(&mut self, buf: &mut [u8], until: u64) -> Result<Came, Failed> {
        self.sends = 0;
        match self.next(buf, until) {
            Ok(came) => {
                self.last = moment_of(&came);
                Ok(came)
            }
            Err(Failed) => {
                self.recv_faults = self.recv_faults.saturating_add(1);
                Err(Failed)
            }
        }
    }
}

fn moment_of(came: &Came) -> u64
    ensures { result ≡ came_at came.now }
{
    match came {
        Came::Packet { at, .. } | Came::Quiet { at } => *at,
    }
}

/// Whether the error is the end of a socket's wait: its time is over, or a signal came.
fn is_wake(error: &Error) -> bool
    ensures { IsTrue result ↔ IsWake (error_kind error.now) }
{
    matches!(
        error.kind(),
        ErrorKind::WouldBlock | ErrorKind::TimedOut | ErrorKind::Interrupted
    )
}
