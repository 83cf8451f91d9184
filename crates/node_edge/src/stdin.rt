//! Standard input as a source.
ghost use Rattle.std.specs.Prelude.{None};

use kad_base::{Failed, Source};
use std::io::Read;

/// A reader as a source. Its bytes aren't told, and a read that fails is counted.
#[derive(Drop)]
pub struct StandardInput<I: Read + Drop> {
    reader: I,
    faults: u64,
}

impl<I: Read + Drop> StandardInput<I> {
    pub fn new(reader: I) -> Self {
        StandardInput { reader, faults: 0 }
    }
}

impl<I: Read + Drop> Source for StandardInput<I> {
    ghost left = { λ _. None };

    ghost faults = { λ s. s.faults };

    fn take(&mut self, buf: &mut [u8]) -> Result<usize, Failed> {
        match self.reader.read(buf) {
            Ok(n) => Ok(n),
            Err(_) => {
                self.faults = self.faults.saturating_add(1);
                Err(Failed)
            }
        }
    }
}
