//! Standard output as a sink.
ghost use Rattle.std.specs.Prelude.{None};

use kad_base::{Failed, Sink};

/// Standard output as a sink. It has no buffer: what `give` answers for has reached the system. The bytes aren't told,
/// and a write that fails or takes nothing is counted.
#[derive(Drop)]
pub struct StandardOutput<'a, R: Print> {
    rt: &'a R,
    faults: u64,
}

impl<'a, R: Print> StandardOutput<'a, R> {
    pub fn new(rt: &'a R) -> Self {
        StandardOutput { rt, faults: 0 }
    }
}

impl<'a, R: Print> Sink for StandardOutput<'a, R> {
    ghost written = { λ _. None };

    ghost faults = { λ s. s.faults };

    fn give(&mut self, bytes: &[u8]) -> Result<usize, Failed> {
        match self.rt.write_some(bytes) {
            Ok(n) if n > 0 => Ok(n),
            _ => {
                self.faults = self.faults.saturating_add(1);
                Err(Failed)
            }
        }
    }
}
