//! A link over which strangers alone are heard.
ghost use Rattle.std.specs.Prelude.{None};

use kad_base::{Addr, Came, Failed, Link};

/// A link that gives an empty datagram from this address at each receive, and tells nothing.
#[derive(Drop)]
pub struct Strangers {
    pub from: Addr,
}

impl Link for Strangers {
    ghost kept = { λ _. tt };

    ghost told = { λ _. None };

    ghost moment = { λ _. 0 };

    ghost send_faults = { λ _. 0 };

    ghost recv_faults = { λ _. 0 };

    fn now(&mut self) -> u64 {
        0
    }

    fn send(&mut self, _to: Addr, _bytes: &[u8]) -> Result<(), Failed> {
        Ok(())
    }

    fn recv(&mut self, _buf: &mut [u8], _until: u64) -> Result<Came, Failed> {
        Ok(Came::Packet {
            from: self.from,
            len: 0,
            at: 0,
        })
    }
}
